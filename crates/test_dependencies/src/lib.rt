//! The tests of what a run depends on. Expected values are worked out by hand from the two manuals and this project's profile of
//! them.
//!
//! - `asked`: a session, what its run asks, and a test of both
//! - `runs`, `rows`: tests of what runs ask, and of indexes in a row
#![tactic(auto)]

#[cfg(test)]
mod asked;
#[cfg(test)]
mod rows;
#[cfg(test)]
mod runs;
