// What a run did to files.

ghost use Rattle.std.specs.Prelude.{◌≡◌, ◌≢◌, ◌<◌, ℕ, true, IfOk, OnOk, OnErr};
ghost use Rattle.std.specs.FinMap as finmap;
ghost use Rattle.hostfiles.specs.Files.{untouched_entry, gone_entry, new_entry, entry_after_write, growth_after, renamed_from};
ghost use Rattle.hostfiles.specs.Files.{after_write, after_make, after_delete, after_rename};

use filenames::Key;
use keymaps::KeyMap;
use records::{Record, Records};
use std::alloc::{AllocError, Global};

/// Where the unwritten records of a file come from.
#[derive(Clone, Copy)]
pub enum Base {
    /// The host file with the same key, if there is one.
    Same,
    /// Nowhere: there is no file.
    Gone,
    /// Nowhere: the file was made.
    New,
    /// The host file with another key, from which the file was renamed.
    Moved(Key),
}

/// The growth of a file that was made or made longer.
#[derive(Clone, Copy)]
pub struct Growth {
    /// The record number from which on no unwritten record is the host file's.
    pub host_end: u32,
    /// The length of the file, in records.
    pub length: u32,
}

/// What the record numbers between the end of a file and a write past it become.
#[derive(Clone, Copy, Debug, PartialEq, Eq)]
pub enum Gap {
    /// Holes.
    Holes,
    /// Records of zeros.
    Zeros,
}

/// What a run did to one file.
#[derive(Drop)]
pub struct Entry {
    /// Where the unwritten records of the file come from.
    pub base: Base,
    /// The growth of the file, if it was made or made longer.
    pub grown: Option<Growth>,
    /// The written records, including zeros that fill a gap.
    pub records: Records,
}

/// What a run did to files, by key.
#[derive(Drop)]
pub struct Journal {
    /// What the run did to each file.
    pub entries: KeyMap<Entry>,
    alloc: Global,
}

impl Clone for Entry {
    ghost is_clone = { λ e copy. copy ≡ e };

    fn clone(&self) -> Result<Entry, AllocError> {
        Ok(Entry {
            base: self.base,
            grown: self.grown,
            records: self.records.clone()?,
        })
    }
}

impl Entry {
    /// Creates the entry of a file to which nothing was done.
    pub fn untouched(alloc: Global) -> Self
        ensures { result ≡ untouched_entry }
    {
        Self {
            base: Base::Same,
            grown: None,
            records: Records::new(alloc),
        }
    }

    /// Creates the entry of a file that is gone.
    pub fn gone(alloc: Global) -> Self
        ensures { result ≡ gone_entry }
    {
        Self {
            base: Base::Gone,
            grown: None,
            records: Records::new(alloc),
        }
    }

    /// Creates the entry of a file that was made and is empty.
    pub fn created(alloc: Global) -> Self
        ensures { result ≡ new_entry }
    {
        Self {
            base: Base::New,
            grown: Some(Growth {
                host_end: 0,
                length: 0,
            }),
            records: Records::new(alloc),
        }
    }

    /// Writes record `k` of a file of length `n`. If `k` is past the end, the record numbers from `n` to `k - 1` become the
    /// gap. On `Err`, which means out of memory, nothing changes.
    pub fn write(&mut self, n: u32, k: u32, bytes: &Record, gap: Gap) -> Result<(), AllocError>
        requires { k < 65536 }
        ensures ok { OnOk result (self.new ≡ entry_after_write gap n k bytes.now self.old) }
        ensures err { OnErr result (self.new ≡ self.old) }
    {
        if gap == Gap::Zeros && k > n {
            let mut records = self.records.with_zeros(n, k)?;
            records.put(k, bytes)?;
            self.records = records;
        } else {
            self.records.put(k, bytes)?;
        }
        self.grow(n, k);
        Ok(())
    }

    // Sets the growth after record `k` of a file of length `n` is written.
    fn grow(&mut self, n: u32, k: u32)
        requires { k < 65536 }
        ensures { self.new ≡ record self.old { grown = growth_after n k self.old.grown } }
    {
        if k >= n {
            let host_end = match self.grown {
                None => n,
                Some(grown) => grown.host_end,
            };
            self.grown = Some(Growth {
                host_end,
                length: k + 1,
            });
        }
    }

    /// Returns the entry of the file under another key, after a rename from `key`.
    pub fn renamed_from(self, key: &Key) -> Self
        ensures { result ≡ renamed_from key.now self }
    {
        let base = match self.base {
            Base::Same => Base::Moved(*key),
            other => other,
        };
        Self {
            base,
            grown: self.grown,
            records: self.records,
        }
    }
}

impl Journal {
    /// Creates an empty journal. Allocates nothing.
    pub fn new(alloc: Global) -> Self
        ensures { result.entries ≡ finmap.empty }
    {
        Self {
            entries: KeyMap::new(alloc),
            alloc,
        }
    }

    /// Returns a copy, which costs a reference for each written extent. `Err` means out of memory.
    pub fn snapshot(&self) -> Result<Journal, AllocError>
        ensures { IfOk result (λ j. j ≡ self.now) }
    {
        Ok(Journal {
            entries: self.entries.snapshot()?,
            alloc: self.alloc,
        })
    }

    /// Makes an empty file. On `Err`, which means out of memory, nothing changes.
    pub fn make(&mut self, key: &Key) -> Result<(), AllocError>
        ensures ok { OnOk result (self.new.entries ≡ after_make self.old.entries key.now) }
        ensures err { OnErr result (self.new.entries ≡ self.old.entries) }
    {
        self.entries.insert(*key, Entry::created(self.alloc))
    }

    /// Deletes a file. On `Err`, which means out of memory, nothing changes.
    pub fn delete(&mut self, key: &Key) -> Result<(), AllocError>
        ensures ok { OnOk result (self.new.entries ≡ after_delete self.old.entries key.now) }
        ensures err { OnErr result (self.new.entries ≡ self.old.entries) }
    {
        self.entries.insert(*key, Entry::gone(self.alloc))
    }

    /// Writes record `k` of a file of length `n`. If `k` is past the end, the record numbers from `n` to `k - 1` become the
    /// gap. On `Err`, which means out of memory, nothing changes.
    pub fn write(
        &mut self,
        key: &Key,
        n: u32,
        k: u32,
        bytes: &Record,
        gap: Gap,
    ) -> Result<(), AllocError>
        requires { k < 65536 }
        ensures ok { OnOk result
            (self.new.entries ≡ after_write gap n self.old.entries key.now k bytes.now) }
        ensures err { OnErr result (self.new.entries ≡ self.old.entries) }
    {
        if let Some(written) = self
            .entries
            .change(key, |entry| entry.write(n, k, bytes, gap))
        {
            return written;
        }
        let mut entry = Entry::untouched(self.alloc);
        entry.write(n, k, bytes, gap)?;
        self.entries.insert(*key, entry)
    }

    /// Renames a file. On `Err`, which means out of memory, nothing changes.
    pub fn rename(&mut self, old: &Key, new: &Key) -> Result<(), AllocError>
        requires { old.now ≢ new.now }
        ensures ok { OnOk result (self.new.entries ≡ after_rename self.old.entries old.now new.now) }
        ensures err { OnErr result (self.new.entries ≡ self.old.entries) }
    {
        if self.entries.contains_key(new) {
            return self.rename_onto(old, new);
        }
        self.entries.insert(*new, Entry::gone(self.alloc))?;
        if let Err(refused) = self.rename_onto(old, new) {
            self.entries.remove(new);
            return Err(refused);
        }
        Ok(())
    }

    // Renames a file to a key that has an entry.
    fn rename_onto(&mut self, old: &Key, new: &Key) -> Result<(), AllocError>
        requires apart { old.now ≢ new.now }
        requires entry { finmap.contains_key self.old.entries new.now ≡ true }
        ensures ok { OnOk result (self.new.entries ≡ after_rename self.old.entries old.now new.now) }
        ensures err { OnErr result (self.new.entries ≡ self.old.entries) }
    {
        let alloc = self.alloc;
        let Some(entry) = self.entries.replace(old, Entry::gone(alloc)) else {
            self.entries.insert(*old, Entry::gone(alloc))?;
            self.entries
                .put(new, Entry::untouched(alloc).renamed_from(old));
            return Ok(());
        };
        self.entries.put(new, entry.renamed_from(old));
        Ok(())
    }
}
