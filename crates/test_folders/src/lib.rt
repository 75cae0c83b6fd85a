//! The tests of host folders, over files and folders that they write. Their acts call `folders` itself; those of `test_command`, which
//! also begin with files in a folder, call the command alone. So each has its own.
//!
//! - `reading`, `writing`, `failures`, `calls`: tests over folders and files that they write
//! - `acts`: acts in the folder of a test, and the expected results
//! - `listed`, `written`, `planned`: texts for folders that are read; files that a run made, and that are written; deeds of a plan
#![tactic(auto)]

#[cfg(test)]
mod acts;
#[cfg(test)]
mod calls;
#[cfg(test)]
mod failures;
#[cfg(test)]
mod listed;
#[cfg(test)]
mod planned;
#[cfg(test)]
mod reading;
#[cfg(test)]
mod writing;
#[cfg(test)]
mod written;
