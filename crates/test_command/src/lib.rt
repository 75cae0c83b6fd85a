//! The tests of the whole command that need a writer that fails, the meter, or an error of its own. The cases in `tests/cases/command`
//! run the built program.
//!
//! - `rules`: tests of one run that writes a rule for make
//! - `steps`: tests of how many steps the replies to edit lines take, by the options
//! - `messages`: tests of the message of each error
//! - `devices`: tests of outputs that fail
//! - `fixtures`: acts in the folder of a test, and the results of the command there
#![tactic(auto)]

#[cfg(test)]
mod devices;
#[cfg(test)]
mod fixtures;
#[cfg(test)]
mod messages;
#[cfg(test)]
mod rules;
#[cfg(test)]
mod steps;
