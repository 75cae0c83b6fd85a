//! The folders and the files that the words of a run name, as the file system has them: which of them are the same, and the locks of disks.
//!
//! - `ids`: which file or folder is at a path
//! - `clashes`, `locks`: two options with the same folder; the locked disks
//! - `reports`: whether a report would be written over a file of the run, or a run over a report
#![tactic(auto)]

mod clashes;
mod ids;
mod locks;
mod reports;

pub use clashes::{has_disks, same_folders};
pub use locks::lock_disks;
pub use reports::{Within, is_one_file, leads_to_written, may_be_written, report_taken};
