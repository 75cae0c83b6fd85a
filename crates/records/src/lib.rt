//! The records that a run wrote to one file, in extents that snapshots share.
//!
//! - `extent`, `records`: 128 records that snapshots share; the written records of a file
#![tactic(auto)]

mod extent;
pub mod records;

pub use records::{EXTENT_RECORDS, RECORD_BYTES, RECORD_LIMIT, Record, Records};
