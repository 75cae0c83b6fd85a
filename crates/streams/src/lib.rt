//! Readers and writers whose failures contracts see.
//!
//! - `streams`: `Reader` and `Writer`, whose failures are counted; `Nowhere`, which keeps nothing
//! - `text`: `Text`, which grows by what is pushed onto it and remembers a failure, and `TextOver`, a text that is written to a writer
//! - `terminal`: `Terminal`, standard error, which shows the steps of a long run if it is a terminal
//! - `trail`: `Trail`, a list of paths without memory, for the paths at which files failed and for counts of failures
//!
//! The list takes no byte at run time and has no upper bound, so a caller of `read` or `write` need not show that a count has room. A
//! stream, which has no path, adds an empty one each time that it fails. A type with such a field can't be made by code alone, so the
//! two functions that make one are proved by hand.
#![tactic(auto)]

mod streams;
mod terminal;
mod text;
mod trail;

pub use streams::{Failed, Nowhere, Over, Reader, Writer};
pub use terminal::Terminal;
pub use text::{STEPS_UNTIL_TEXT, Text, TextOver, write_all};
pub use trail::Trail;
