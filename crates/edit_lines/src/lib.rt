//! Edit lines and their replies, and a replay of edit lines over any reader and writer.
//!
//! - `line`, `reply`: the command of a line; the reply to a refused edit
//! - `execute`, `buffer`, `stream`, `ending`: one line executed; the line that is being read; lines read from a reader and executed
//!   one by one; how a replay ends
//! - `limits`: the largest length of a line, and the largest number of lines
//!
//! The contract of `replay` speaks of checkpoints, in the words of the crate `replay`; the code does not.
//! `tests/check/test_sources.py` checks that it names neither pages nor looks.
#![tactic(auto)]

mod buffer;
mod ending;
mod execute;
mod limits;
mod line;
mod reply;
mod stream;

pub use ending::{Ending, ReplayFault};
pub use limits::{LINE_LIMIT, LINES_LIMIT};
pub use line::{Command, lines_have_one_command, parse_line};
pub use reply::refused_line;
pub use stream::{replay, replays_are_equal};
pub use streams::{Failed, Over, Reader, Writer};
