//! The calls of the BDOS of CP/M 2.2 that need no files, over any memory.
//!
//! - `calls`: `console_call`, and one function for each call
//! - `desk`, `script_looks`: the desk, which sends and prints and takes bytes of the script; the script offsets that were
//!   looked at
//! - `line`: the line that function 10 takes from the script
//! - `cause`, `served`: why a run stops; what a call did
//!
//! `Spot::snapshot` allocates nothing and is never an `Err`; it returns a `Result` as `Desk::snapshot` does.
#![tactic(auto)]

mod calls;
mod cause;
mod desk;
mod line;
mod script_looks;
mod served;

pub use calls::{console_call, return_to};
pub use cause::Cause;
pub use desk::{Desk, Spot};
pub use script_looks::ScriptLooks;
pub use served::Served;
