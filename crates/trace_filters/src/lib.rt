//! Which steps of a run have a line in its trace.
//!
//! - `choice`: the filters
//! - `filters`: whether the next step of a run passes them
#![tactic(auto)]

mod choice;
mod filters;

pub use accesses::{CellRange, SpareMemory};
pub use choice::Choice;
pub use filters::has_line;
