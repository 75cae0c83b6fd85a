//! The calls of the BDOS of CP/M 2.2, over any memory and any files.
//!
//! - `function`, `calls`: the calls by their numbers; `call`, and the first part of a call that names a file
//! - `findings`, `cells`: what a call does with what it found; the cells of control blocks and of the buffer
#![tactic(auto)]

mod calls;
mod cells;
mod findings;
mod function;

pub use calls::{call, drive_of_byte};
pub use console_calls::{Cause, Desk, Served, Spot};
pub use function::SystemFunction;
