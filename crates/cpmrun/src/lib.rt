//! The program except its `main`: the words of its command line, one run or a replay of edit lines, and its errors.
//!
//! - `request`: the request in the words of the command line
//! - `word_run`, `reports`: one run of the session of the words; what it reports into files
//! - `dry_run`: a run that changes no file
//! - `disks_after`: what disks need before they are changed, what becomes of them, and which folders are synced
//! - `explaining`: the explanation of a stop
//! - `command_line`: the command
//!
//! `command` takes a `FileSystem` instead of the runtime, so that its contract can name the files; `main` passes `SystemFiles`. What
//! callers name of the crates below is re-exported.
#![tactic(auto)]

mod command_line;
mod disks_after;
mod dry_run;
mod explaining;
mod reports;
mod request;
mod word_run;

pub use command_line::{command, metered_command};
pub use command_words::{Words, read_words};
pub use edit_lines::{
    Command, Ending, Failed, Over, Reader, ReplayFault, Writer, parse_line, refused_line, replay,
};
pub use folders::{FileSystem, SystemFiles};
pub use requests::{Fault, Tool, called_tool, program_words, report_fault};
pub use streams::Terminal;
