//! The vocabulary in which tests describe files and system calls: acts on files, host files and memory, the expected results, and
//! what is then there; and a player for tables of them.
//!
//! - `acts`, `playing`: acts with their expected results, and cases of them; the execution of cases
//! - `keys`, `contents`, `hosting`: keys of files; records that are given by a byte; host files that are set, and the results
//! - `calling`, `finding`, `questions`: the calls of a table; the results of its searches; the questions that were asked
//! - `system`: the calls of the system, memory and the desk
//! - `telling`, `stepping`: what the files have without a question, and which are changed; first steps of questions, and what the
//!   change of a host file touches
#![tactic(auto)]

mod acts;
mod calling;
mod contents;
mod finding;
mod hosting;
mod keys;
mod playing;
mod questions;
mod stepping;
mod system;
mod telling;

pub use acts::{Act, Acts, Case, Row};
pub use finding::Found;
pub use keys::{ALL, ANN, B_ANN, BEN, CAT};
pub use playing::play;
