// Acts on files, and the expected results.

use crate::finding::Found;
use crate::hosting::Bytes;
use bdos::Cause;
use cpmfiles::{Ask, Key};
use filenames::Drive;

/// An act or a question of a test, and the expected result. A record is given by the one byte of which it is made.
#[derive(Clone, Copy)]
pub enum Act<'a> {
    /// Calls of a table.
    Has(Key, bool),
    Records(Key, Option<u32>),
    Extent(Key, u32, Option<u8>),
    /// A record that is read, or `None` if it cannot be read.
    Read(Key, u32, Option<u8>),
    Write(Key, u32, u8, bool),
    /// A record that is written: bytes `x`, except one byte `y` at this index.
    WriteOther(Key, u32, usize),
    Fill(Key, u32, u8, bool),
    Make(Key, bool),
    Delete(Key, u64),
    Rename(Key, Key, bool),
    /// A pattern with its extent byte finds exactly these entries, in this order.
    Find(Key, u8, &'a [Found]),
    /// A pattern with its extent byte finds one entry, of these bytes.
    FindBytes(Key, u8, &'a [u8; 32]),
    /// A search finds exactly this many full extents of a file, one after the other.
    FindFull(Key, u16),
    /// The search for all entries of drive A continues from the first of these to the second.
    FindNext(Found, Option<Found>),
    /// A new start: nothing done, no question asked, and no step noted.
    Anew,
    /// A copy of what was done.
    Copy,
    /// An exchange of what was done with its copy.
    Exchange,
    /// The sum for a number of questions that are taken out: `Take(count, sum)`.
    Take(u32, u32),
    /// What the files have without a question: the number of records of one, a record, and the keys of all in order.
    TellRecords(&'a str, Option<u32>),
    TellRecord(&'a str, u32, Option<u8>),
    TellKeys(&'a [Key]),
    /// The keys of all changed files, in order.
    Changed(&'a [Key]),
    /// The next changed name after this one, which need not be a changed name itself.
    ChangedAfter(&'a str, Key),
    /// A file that is not changed.
    Same(Key),
    /// A host file that is set to these bytes, with the number of the refusal, or 0 if there is none.
    Set(&'a str, Bytes<'a>, u8),
    /// This many host files of one record, set on all four drives.
    SetMany(usize),
    Remove(&'a str, bool),
    /// The number of host files.
    HostCount(usize),
    HostRecords(&'a str, Option<u32>),
    /// A record of this many bytes `x`, padded with 1AH.
    HostRecord(&'a str, u32, Option<usize>),
    /// The keys of all host files, in order.
    HostKeys(&'a [Key]),
    /// A question asked at a step.
    Note(Ask, u64),
    /// An erasure of the steps from one on.
    EraseFrom(u64),
    /// The first step that asked a question.
    StepOf(Ask, Option<u64>),
    /// A host file that is set to these bytes in the next host files.
    SetNext(&'a str, Bytes<'a>),
    /// The earlier of this step and the first step that a file touches, if it becomes the file of the next host files.
    Touch(u64, Key, u64),
    /// Bytes that are put into the cells from an address on; the cell after 0FFFFH is 0000H.
    Put(u16, &'a [u8]),
    /// A byte that is put into a number of cells: `PutAll(address, count, byte)`.
    PutAll(u16, u16, u8),
    /// The address of the return address of the calls that follow.
    Stack(u16),
    /// A system call with a word in DE that returns a value: `Call(number, word, value)`.
    Call(u8, u16, u8),
    /// A system call with a word in DE that stops.
    Stops(u8, u16, Cause),
    /// The expected bytes of the cells from an address on.
    Are(u16, &'a [u8]),
    /// The expected byte of a number of cells: `AreAll(address, count, byte)`.
    AreAll(u16, u16, u8),
    /// The current drive and the buffer address.
    Selected(Drive, u16),
    /// All that was printed.
    Printed(&'a [u8]),
}

/// An act, and all questions that were asked up to then.
pub type Row<'a> = (Act<'a>, &'a [Ask]);

/// The acts of a case.
#[derive(Clone, Copy)]
pub enum Acts<'a> {
    /// Acts whose questions are not compared.
    Plain(&'a [Act<'a>]),
    /// Rows.
    Asking(&'a [Row<'a>]),
    /// Acts whose questions are not compared, and then rows.
    Both(&'a [Act<'a>], &'a [Row<'a>]),
}

/// Acts over host files, each of a number of bytes `x`. The buffer begins at 0300H.
#[derive(Clone, Copy)]
pub struct Case<'a> {
    /// What they show.
    pub name: &'a str,
    pub files: &'a [(&'a str, usize)],
    pub acts: Acts<'a>,
}
