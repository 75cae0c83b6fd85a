use cpmfiles::{Key, Record};
use hostfiles::{Gap, Search};

/// What a file call found, which says what it is to do.
#[derive(Clone, Copy)]
pub enum Finding {
    /// The value that the call returns; it changes nothing.
    Value(u8),
    /// The record count of the extent of a file that is opened.
    Opened(u8),
    /// A matching entry of the directory, and where the search continues.
    FirstEntry(Search),
    /// No matching entry.
    NoEntry,
    /// A record that was read, and the record number that the control block gets.
    Found(Record, u32),
    /// A record to be written.
    Write(Write),
    /// The key of an empty file to be made.
    Make(Key),
    /// The old and the new key of a file to be renamed.
    Rename(Key, Key),
    /// The length of the file, in records.
    Length(u32),
    /// No file, and so no length.
    NoLength,
    /// The random record number that the control block gets.
    RandomPlace(u32),
}

/// A record to be written.
#[derive(Clone, Copy)]
pub struct Write {
    /// The key of the file.
    pub key: Key,
    /// The length of the file, in records.
    pub length: u32,
    /// The record number.
    pub place: u16,
    /// The record number that the control block gets, at most 65,536.
    pub next: u32,
    /// What the record numbers between the end of the file and the record become.
    pub gap: Gap,
}
