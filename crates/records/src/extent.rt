// Up to 128 records of a file.

ghost use Rattle.std.specs.Prelude.{◌≡◌, ◌<◌, ◌≤◌, ◌==◌, ℕ, OnOk, OnErr, IfOk, None, Some, cond, get_or, slice_get, vec_len, option_copied};
ghost use Rattle.records.specs.Extents.{PutsRecord, SameExtent, records_by_marks};

use crate::records::{EXTENT_RECORDS, RECORD_BYTES, Record};
use std::alloc::{AllocError, Global};
use std::marker::Model;
use std::rc::Rc;

/// The records of an extent, up to the last one that was written. A snapshot shares them, and the first write after it copies
/// them. An extent that is written in order has memory for at most twice its records, any other for all 128.
#[derive(Drop)]
pub struct Extent {
    places: Rc<ExtentRecords>,
}

// Marks for the indexes of an extent that have a record.
type Marks = [bool; EXTENT_RECORDS as usize];

// Records up to the last one that was written, and marks for the indexes that have one. The marks are separate, so that a
// lookup of a missing record reads no record.
#[derive(Drop)]
struct ExtentRecords {
    marks: Marks,
    records: Vec<Record>,
}

impl Model for ExtentRecords {
    ghost use Rattle.std.specs.Prelude.{List, ℕ};
    ghost use Rattle.std.specs.declared.option.Option.{Option};
    ghost use Rattle.records.specs.Extents.{records_by_marks};

    ghost Value = { List (Option (List ℕ)) };

    ghost view = { λ a. records_by_marks a.marks a.records.items };
}

impl Model for Extent {
    ghost use Rattle.std.specs.Prelude.{List, ℕ};
    ghost use Rattle.std.specs.declared.option.Option.{Option};

    ghost Value = { List (Option (List ℕ)) };

    ghost view = { λ a. a.places.value };
}

impl Clone for Extent {
    ghost is_clone = { λ x copy. copy ≡ x };

    fn clone(&self) -> Result<Extent, AllocError> {
        Ok(Extent {
            places: self.places.clone()?,
        })
    }
}

impl Extent {
    /// Creates an extent with one record. `Err` means out of memory.
    pub fn new(alloc: Global, at: usize, content: &Record) -> Result<Extent, AllocError>
        requires { at < 128 }
        ensures { IfOk result
            (λ x. (q : ℕ) → get_or x q None ≡ cond (q == at) (Some content.now) None) }
    {
        let mut places = ExtentRecords::new(alloc);
        places.put(at, content)?;
        Ok(Extent {
            places: Rc::new(alloc, places)?,
        })
    }

    /// Returns the record at an index of the extent, or `None` if there is none.
    pub fn get(&self, at: usize) -> Option<&Record>
        requires { at < 128 }
        ensures { option_copied result ≡ get_or self.now at None }
    {
        self.places.get(at)
    }

    /// Sets the record at an index of the extent. On `Err`, which means out of memory, the records are unchanged.
    pub fn put(&mut self, alloc: Global, at: usize, content: &Record) -> Result<(), AllocError>
        requires { at < 128 }
        ensures ok { OnOk result (PutsRecord self.old at content.now self.new) }
        ensures err { OnErr result (SameExtent self.old self.new) }
    {
        if let Some(places) = Rc::get_mut(&mut self.places) {
            return places.put(at, content);
        }
        self.put_into_copy(alloc, at, content)
    }

    // Sets a record if a snapshot shares the records, which are copied first.
    #[cold]
    #[inline(never)]
    fn put_into_copy(
        &mut self,
        alloc: Global,
        at: usize,
        content: &Record,
    ) -> Result<(), AllocError>
        requires { at < 128 }
        ensures ok { OnOk result (PutsRecord self.old at content.now self.new) }
        ensures err { OnErr result (SameExtent self.old self.new) }
    {
        let mut places = self.places.copy(alloc)?;
        places.put(at, content)?;
        self.places = Rc::new(alloc, places)?;
        Ok(())
    }
}

impl ExtentRecords {
    // Creates an empty list of records.
    fn new(alloc: Global) -> ExtentRecords
        ensures { (q : ℕ) → get_or result q None ≡ None }
    {
        ExtentRecords {
            marks: [false; EXTENT_RECORDS as usize],
            records: Vec::new(alloc),
        }
    }

    // Returns a copy of the records.
    fn copy(&self, alloc: Global) -> Result<ExtentRecords, AllocError>
        ensures { IfOk result (λ p. p ≡ self.now) }
    {
        Ok(ExtentRecords {
            marks: self.marks,
            records: Vec::from_slice(alloc, &self.records)?,
        })
    }

    // Returns the record at an index, if there is one.
    fn get(&self, at: usize) -> Option<&Record>
        requires { at < 128 }
        ensures { option_copied result ≡ get_or self.now at None }
    {
        if self.marks[at] {
            return nth(&self.records, at);
        }
        None
    }

    // Sets the record at an index. On `Err`, the records are unchanged.
    fn put(&mut self, at: usize, content: &Record) -> Result<(), AllocError>
        requires { at < 128 }
        ensures ok { OnOk result (PutsRecord self.old at content.now self.new) }
        ensures err { OnErr result (SameExtent self.old self.new) }
    {
        if at < self.records.len() {
            self.records[at] = *content;
            self.marks[at] = true;
            return Ok(());
        }
        reserve_past_gap(&mut self.records, at)?;
        append(&mut self.records, &mut self.marks, at, content)
    }
}

// Reserves memory for a whole extent if there is a gap before an index past all others: a file that is not written in order fills
// its extents in the end.
fn reserve_past_gap(records: &mut Vec<Record>, at: usize) -> Result<(), AllocError>
    requires { at < 128 }
    ensures { records.new.items ≡ records.old.items }
{
    let len = records.len();
    if len < at {
        records.reserve_exact(EXTENT_RECORDS as usize - len)?;
    }
    Ok(())
}

// Sets the record at an index past all others; the indexes between them have no record. On `Err`, the records are unchanged.
fn append(
    records: &mut Vec<Record>,
    marks: &mut Marks,
    at: usize,
    content: &Record,
) -> Result<(), AllocError>
    requires index { at < 128 }
    requires past { vec_len records.old ≤ at }
    ensures ok { OnOk result (PutsRecord (records_by_marks marks.old records.old.items) at content.now
        (records_by_marks marks.new records.new.items)) }
    ensures err { OnErr result (SameExtent (records_by_marks marks.old records.old.items)
        (records_by_marks marks.new records.new.items)) }
{
    while records.len() < at {
        records.push([0; RECORD_BYTES])?;
        marks[records.len() - 1] = false;
    }
    records.push(*content)?;
    marks[at] = true;
    Ok(())
}

// Returns the record at an index, if the list is long enough.
fn nth(records: &[Record], at: usize) -> Option<&Record>
    ensures { option_copied result ≡ slice_get records.now at }
{
    records.get(at)
}
