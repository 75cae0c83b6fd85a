//! Ordered maps with keys of files, and sets of drives. Contracts see them as finite maps.
//!
//! - `map`: ordered maps with keys of files
//! - `keys`, `record_set`: sets of keys of files; sets of pairs of a key and a record number
//! - `drives`: sets of drives
//! - `ordered`: keys in a form that is fast to compare, as the maps store them
//!
//! A set of drives has a place for each byte, not for the drives A to D alone.
#![tactic(auto)]

pub mod drives;
pub mod keys;
pub mod map;
mod ordered;
pub mod record_set;

pub use drives::DriveSet;
pub use filenames::Key;
pub use keys::KeySet;
pub use map::{KeyMap, KeyOfBoth, next_of_both};
pub use record_set::RecordSet;
