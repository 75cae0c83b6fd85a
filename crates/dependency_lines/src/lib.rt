//! The lines that list what a run depends on, pushed onto a text. No memory is allocated.
//!
//! - `listing`: all the lines, in the order of their kinds
//! - `places`, `names`: the lines of cells and offsets; the lines of files by their names
//! - `heads`, `words`: the beginning of a line, and a line with one step; places, rows and steps
#![tactic(auto)]

mod heads;
mod listing;
mod names;
mod places;
mod words;

pub use listing::write_dependencies;
