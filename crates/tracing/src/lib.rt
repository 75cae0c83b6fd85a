//! The trace of a session: a line for each chosen step of its run, and its stop.
//!
//! - `walk`: a walk along a run, which pushes the lines of its chosen steps
//! - `trace`: the whole trace
#![tactic(auto)]

mod trace;
mod walk;

pub use trace::{each_call, no_step, push_both, write_trace};
pub use trace_filters::{CellRange, Choice};
