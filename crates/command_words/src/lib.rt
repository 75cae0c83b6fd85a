//! The words of the command lines of `cpmrun`, `cpmdeps` and `cpmtrace`.
//!
//! - `words`: `read_words`, `read_dependency_words`, and the words that all programs share
//! - `trace_words`: `read_trace_words`
//! - `clashes`: two options of which only one may be given, and an option that another one needs
//! - `options`, `trace_options`, `help`: the command lines as commands of `clap`; the texts of their help
//! - `error_classes`: what an error of `clap` means for the program: information, a usage error, or out of memory
#![tactic(auto)]

mod clashes;
mod error_classes;
mod help;
mod options;
mod trace_options;
mod trace_words;
mod words;

pub use clashes::Clash;
pub use error_classes::{ErrorClass, error_class};
pub use trace_words::{TraceWords, read_trace_words};
pub use words::{DependencyWords, SessionWords, Words, read_dependency_words, read_words};
