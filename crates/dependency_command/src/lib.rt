//! The program `cpmdeps` except its `main`: it prints what the run of a session depends on, or a rule for make.
//!
//! - `request`: the request in the words of the command line
//! - `command_line`: the command
#![tactic(auto)]

mod command_line;
mod request;

pub use command_line::dependency_command;
pub use folders::{FileSystem, SystemFiles};
pub use requests::{Fault, Tool, program_words, report_fault};
pub use streams::{Over, Writer};
