// The records that a run wrote to a file.

ghost use Rattle.std.specs.Prelude.{◌≡◌, ◌<◌, ◌≤◌, ◌-◌, ◌==◌, ℕ, OnOk, OnErr, IfOk, None, Some, cond, get_or, option_copied};
ghost use Rattle.std.specs.FinMap as finmap;
ghost use Rattle.records.specs.Records.{zeros_at};

use crate::extent::Extent;
use std::alloc::{AllocError, Global};
use std::marker::Model;

/// The number of bytes in a record [Interface Guide 1979, operating system call conventions].
pub const RECORD_BYTES: usize = 128;

/// The number of records in an extent [Interface Guide 1979, operating system call conventions].
pub const EXTENT_RECORDS: u32 = 128;

/// The maximum number of records in a file: 512 extents.
pub const RECORD_LIMIT: u32 = 65_536;

/// A record: 128 bytes of a file [Interface Guide 1979, operating system call conventions].
pub type Record = [u8; RECORD_BYTES];

/// The written records of a file, by record number. A file has at most 65,536 records.
#[derive(Drop)]
pub struct Records {
    extents: Vec<Option<Extent>>,
    alloc: Global,
}

impl Model for Records {
    ghost use Rattle.std.specs.Prelude.{List, ℕ};
    ghost use Rattle.std.specs.Ordering.{nat_cmp};
    ghost use Rattle.std.specs.FinMap as finmap;
    ghost use Rattle.std.specs.Coded.{coded_ℕ, coded_list};
    ghost use Rattle.records.specs.Extents.{record_map, record_in_extents};

    ghost Value = { finmap.FinMap nat_cmp (List ℕ) };

    ghost coded = { finmap.code coded_ℕ (coded_list coded_ℕ) };

    ghost view = { λ a. record_map (record_in_extents a.extents.items) };
}

impl Records {
    /// Creates an empty set of records. Allocates nothing.
    pub fn new(alloc: Global) -> Records
        ensures { result ≡ finmap.empty }
    {
        Records {
            extents: Vec::new(alloc),
            alloc,
        }
    }

    /// Returns the record with this number, or `None` if none was written.
    pub fn get(&self, record_number: u32) -> Option<&Record>
        ensures { option_copied result ≡ finmap.get self.now record_number }
    {
        let extents = &self.extents;
        if record_number >= RECORD_LIMIT {
            return None;
        }
        match extent_at(extents, (record_number / EXTENT_RECORDS) as usize) {
            Some(extent) => extent.get((record_number % EXTENT_RECORDS) as usize),
            None => None,
        }
    }

    /// Sets the record with a number below 65,536. On `Err`, which means out of memory, nothing changes.
    pub fn put(&mut self, record_number: u32, content: &Record) -> Result<(), AllocError>
        requires { record_number < 65536 }
        ensures ok { OnOk result (self.new ≡ finmap.insert self.old record_number content.now) }
        ensures err { OnErr result (self.new ≡ self.old) }
    {
        let alloc = self.alloc;
        let at = (record_number % EXTENT_RECORDS) as usize;
        let number = (record_number / EXTENT_RECORDS) as usize;
        if number < self.extents.len() {
            if let Some(extent) = &mut self.extents[number] {
                return extent.put(alloc, at, content);
            }
        }
        let extent = Extent::new(alloc, at, content)?;
        set_extent(&mut self.extents, number, extent)
    }

    /// Returns a copy of these records with records of zeros at the numbers from `from` up to, but not including, `to`. `Err`
    /// means out of memory.
    pub fn with_zeros(&self, from: u32, to: u32) -> Result<Records, AllocError>
        requires ordered { from ≤ to }
        requires within { to < 65536 }
        ensures { IfOk result (λ r. r ≡ zeros_at self.now from (to - from)) }
    {
        let mut records = self.snapshot()?;
        for number in from..to {
            records.put(number, &[0; RECORD_BYTES])?;
        }
        Ok(records)
    }

    /// Returns a copy, which costs a reference for each extent. `Err` means out of memory.
    pub fn snapshot(&self) -> Result<Records, AllocError>
        ensures { IfOk result (λ r. r ≡ self.now) }
    {
        Ok(Records {
            extents: self.extents.clone()?,
            alloc: self.alloc,
        })
    }
}

// Returns the extent with this number, if there is one.
fn extent_at(extents: &[Option<Extent>], number: usize) -> Option<&Extent>
    ensures { option_copied result ≡ get_or extents.now number None }
{
    extents.get(number)?.as_ref()
}

// Sets the extent with a number. If the list is too short, the extents in between are missing. On `Err`, the extents are
// unchanged.
fn set_extent(
    extents: &mut Vec<Option<Extent>>,
    number: usize,
    extent: Extent,
) -> Result<(), AllocError>
    ensures ok { OnOk result ((i : ℕ) → get_or extents.new.items i None
        ≡ cond (i == number) (Some extent) (get_or extents.old.items i None)) }
    ensures err { OnErr result ((i : ℕ) → get_or extents.new.items i None
        ≡ get_or extents.old.items i None) }
{
    while extents.len() < number {
        extents.push(None)?;
    }
    if number < extents.len() {
        extents[number] = Some(extent);
        return Ok(());
    }
    extents.push(Some(extent))?;
    Ok(())
}

impl Clone for Records {
    ghost is_clone = { λ r copy. copy ≡ r };

    fn clone(&self) -> Result<Records, AllocError> {
        self.snapshot()
    }
}
