//! The tests of files that cross crates: names, host files, what a program does to files, their directory, and which are changed.
//! Expected values are worked out by hand from [Interface Guide 1979, operating system call conventions] and this project's
//! profile.
//!
//! - `names`, `hosts`, `messages`: tests of names and file control blocks, of host files, and of the messages of their refusals
//! - `tables`, `renames`, `deletions`: tests of files that are made, written, read, renamed and deleted, with the questions that
//!   each call asks
//! - `entries`, `searches`: tests of the directory's entries, and of searches that continue while files change
//! - `changes`, `changed`: tests of the files after a run, of copies of its changes, and of its questions; of which files it
//!   changed
//! - `desk`: tests of what a desk prints, and of calls that stop
#![tactic(auto)]

#[cfg(test)]
mod changed;
#[cfg(test)]
mod changes;
#[cfg(test)]
mod deletions;
#[cfg(test)]
mod desk;
#[cfg(test)]
mod entries;
#[cfg(test)]
mod hosts;
#[cfg(test)]
mod messages;
#[cfg(test)]
mod names;
#[cfg(test)]
mod renames;
#[cfg(test)]
mod searches;
#[cfg(test)]
mod tables;
