//! File names and file control blocks, with drives A to D. [Interface Guide 1979, file names and file control blocks]
//!
//! - `drive`: the drives A to D, by number
//! - `name`, `field`, `control_block`: names on drives A to D, and their fields; file control blocks
#![tactic(auto)]

pub mod control_block;
pub mod drive;
mod field;
pub mod name;

pub use control_block::Fcb;
pub use drive::Drive;
pub use field::{copy_uppercase, find_byte, split_at_dot};
pub use name::{Key, Name, NameError, Pieces, display_texts_parse_back, is_sayable};
