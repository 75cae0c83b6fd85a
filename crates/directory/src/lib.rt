//! The directory of files, entry by entry. [Interface Guide 1979, functions 17 to 19]
//!
//! - `entry`, `pattern`, `search`: directory entries; patterns with `?`; the search for the next matching entry
#![tactic(auto)]

pub mod entry;
pub mod pattern;
pub mod search;

pub use entry::{Entry, Position, Search};
pub use pattern::is_match;
pub use search::{DirectoryFiles, FileShape, KeyedFile, next_entry};
