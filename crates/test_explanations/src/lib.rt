//! The line that explains a stop, for a small program for each cause and each name. Expected lines are worked out by hand from the
//! manuals.
//!
//! - `explaining`: the line of a session
//! - `stops`, `entries`: tests of stops by themselves and by calls; tests of the BIOS's entries and of calls that are not here
#![tactic(auto)]

#[cfg(test)]
mod entries;
#[cfg(test)]
mod explaining;
#[cfg(test)]
mod stops;
