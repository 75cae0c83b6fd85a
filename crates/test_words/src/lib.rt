//! The tests of the words of the command lines.
//!
//! - `options`, `numbers`, `faults`: tests of each option, of numbers at the ends of their ranges, of help and of usage errors
//! - `dependency_words`, `trace_words`: the same for `cpmdeps` and for `cpmtrace`
//! - `fixtures`: the results of words that a caller gives
#![tactic(auto)]

#[cfg(test)]
mod dependency_words;
#[cfg(test)]
mod faults;
#[cfg(test)]
mod fixtures;
#[cfg(test)]
mod numbers;
#[cfg(test)]
mod options;
#[cfg(test)]
mod trace_words;
