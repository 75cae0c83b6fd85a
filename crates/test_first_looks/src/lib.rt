//! The tests of the first steps that asked the host files, and of what a change of a file touches. Expected values are worked out
//! by hand.
//!
//! - `notes`, `touches`: tests of steps that are noted and erased, and of what the change of a file touches
#![tactic(auto)]

#[cfg(test)]
mod notes;
#[cfg(test)]
mod touches;
