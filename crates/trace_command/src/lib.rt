//! The program `cpmtrace` except its `main`: it prints the calls of the run of a session, and its instructions.
//!
//! - `request`: the request in the words of the command line
//! - `choice`: the choice of steps that the words describe
//! - `command_line`: the command
#![tactic(auto)]

mod choice;
mod command_line;
mod request;

pub use command_line::trace_command;
pub use folders::{FileSystem, SystemFiles};
pub use requests::{Fault, Tool, program_words, report_fault};
pub use streams::{Over, Writer};
