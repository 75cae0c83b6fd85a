//! The files that a program sees: host files together with what a run did to them, as a table.
//!
//! - `asking`: the questions that a program asks about the files, each of which is marked
//! - `table`: `Table`, the files as a program reads, writes, makes, renames, deletes and searches them
//! - `laws`: the law of deletion
//!
//! A call of `Table` takes a key whose first byte may be any byte, and asks for the directory of that byte; only control blocks name
//! the drives A to D alone. `Table::next_entry` allocates nothing and is never an `Err`; it returns a `Result` as its siblings do.
//! What callers name of the crates below is re-exported.
#![tactic(auto)]

pub mod asking;
pub mod laws;
pub mod table;

pub use hostfiles::{
    Ask, Changes, EXTENT_RECORDS, Fcb, FileLooks, FilesError, HostFiles, Journal, Key, Name,
    NameError, RECORD_BYTES, RECORD_LIMIT, Record, Records,
};
pub use table::Table;
