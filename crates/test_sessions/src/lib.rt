//! The parts of sessions, as tests describe them, with an assembler for their programs.
//!
//! - `given`, `assembling`: the parts of a session; its program, in the mnemonics of the 8080
//! - `making`, `trouble`: making a session and a runner from their parts; why a session is given up
#![tactic(auto)]

mod assembling;
mod given;
mod making;
mod trouble;

pub use given::{EMPTY, Given, Host, PRINTS};
pub use making::{make, name_of, session_of};
pub use trouble::{Difference, Trouble, name_failure};
