//! Instructions one after another, as long as none of them needs anything that the memory refuses.
//!
//! - `run`: `run_known`, the loop
#![tactic(auto)]

mod run;

pub use run::run_known;
