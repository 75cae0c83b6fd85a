// The questions that a run asks the host files.

ghost use Rattle.std.specs.Prelude.{◌≡◌, true, OnOk, OnErr, IfOk, IfSome, IfNone};
ghost use Rattle.hostfiles.specs.FileLooks.{is_looked, asks_nothing, no_looks, without_ask, HasNewAsk, IsUnasked};
ghost use Rattle.hostfiles.specs.FileLooks.{look_has_by, look_length_by, look_record_by, look_directory};

use crate::journal::{Base, Growth};
use filenames::Key;
use keymaps::{DriveSet, KeySet, RecordSet};
use std::alloc::{AllocError, Global};

/// A question that a run asks the host files.
#[derive(Clone, Copy)]
pub enum Ask {
    /// Whether there is a file with this key.
    Has(Key),
    /// The number of records of the file with this key.
    Length(Key),
    /// The contents of a record of the file with this key.
    Rec(Key, u32),
    /// The files on a drive, and the number of records of each.
    Directory(u8),
}

/// The questions that a run asked the host files, each once.
#[derive(Drop)]
pub struct FileLooks {
    /// The keys of the files whose presence was asked.
    pub has: KeySet,
    /// The keys of the files whose lengths were asked.
    pub lengths: KeySet,
    /// The records whose contents were asked.
    pub records: RecordSet,
    /// The drives whose directories were asked.
    pub directories: DriveSet,
}

impl FileLooks {
    /// Creates a set with no questions. Allocates nothing.
    pub fn new(alloc: Global) -> Self
        ensures { result ≡ no_looks }
    {
        Self {
            has: KeySet::new(alloc),
            lengths: KeySet::new(alloc),
            records: RecordSet::new(alloc),
            directories: DriveSet::new(),
        }
    }

    /// Returns whether a question was asked.
    pub fn looked(&self, ask: &Ask) -> bool
        ensures { result ≡ is_looked self.now ask.now }
    {
        match *ask {
            Ask::Has(key) => self.has.contains_key(&key),
            Ask::Length(key) => self.lengths.contains_key(&key),
            Ask::Rec(key, k) => self.records.contains(&key, k),
            Ask::Directory(drive) => self.directories.contains(drive),
        }
    }

    /// Returns whether no question was asked.
    pub fn is_empty(&self) -> bool
        ensures value { result ≡ asks_nothing self.now }
        ensures none { result ≡ true → IsUnasked self.now }
    {
        self.has_no_entry()
    }

    // Returns whether all four parts are empty.
    fn has_no_entry(&self) -> bool
        ensures { result ≡ asks_nothing self.now }
    {
        self.has.len() == 0
            && self.lengths.len() == 0
            && self.records.len() == 0
            && self.directories.len() == 0
    }

    /// Marks the question whether there is a file with this key, if the file comes from its own host file. On `Err`, which
    /// means out of memory, nothing changes; a question that needs no mark or has one is never an `Err`.
    #[tactic(auto, using(crate::proofs::LookLemmas::new_has))]
    pub fn mark_has(&mut self, base: Base, key: &Key) -> Result<(), AllocError>
        ensures ok { OnOk result (self.new ≡ look_has_by base key.now self.old) }
        ensures err { OnErr result (self.new ≡ self.old) }
        ensures refused { OnErr result (HasNewAsk self.old (look_has_by base key.now self.old)) }
    {
        match base {
            Base::Same => self.has.insert(*key),
            Base::Gone => Ok(()),
            Base::New => Ok(()),
            Base::Moved(_) => Ok(()),
        }
    }

    /// Marks the question for the length of a file, if the file comes from a host file and has not grown. On `Err`, which
    /// means out of memory, nothing changes; a question that needs no mark or has one is never an `Err`.
    #[tactic(auto, using(crate::proofs::LookLemmas::new_length))]
    pub fn mark_length(
        &mut self,
        base: Base,
        grown: Option<Growth>,
        key: &Key,
    ) -> Result<(), AllocError>
        ensures ok { OnOk result (self.new ≡ look_length_by base grown key.now self.old) }
        ensures err { OnErr result (self.new ≡ self.old) }
        ensures refused { OnErr result (HasNewAsk self.old (look_length_by base grown key.now self.old)) }
    {
        if let Some(_) = grown {
            return Ok(());
        }
        match base {
            Base::Same => self.lengths.insert(*key),
            Base::Moved(old) => self.lengths.insert(old),
            Base::Gone => Ok(()),
            Base::New => Ok(()),
        }
    }

    /// Marks the question for a record, if the file comes from a host file. On `Err`, which means out of memory, nothing
    /// changes; a question that needs no mark or has one is never an `Err`.
    #[tactic(auto, using(crate::proofs::LookLemmas::new_record))]
    pub fn mark_record(&mut self, base: Base, key: &Key, k: u32) -> Result<(), AllocError>
        ensures ok { OnOk result (self.new ≡ look_record_by base key.now k self.old) }
        ensures err { OnErr result (self.new ≡ self.old) }
        ensures refused { OnErr result (HasNewAsk self.old (look_record_by base key.now k self.old)) }
    {
        match base {
            Base::Same => self.records.insert(*key, k),
            Base::Moved(old) => self.records.insert(old, k),
            Base::Gone => Ok(()),
            Base::New => Ok(()),
        }
    }

    /// Marks the question for the directory of a drive. Allocates nothing.
    pub fn mark_directory(&mut self, drive: u8)
        ensures { self.new ≡ look_directory drive self.old }
    {
        self.directories.insert(drive);
    }

    /// Returns a copy of the set. `Err` means out of memory.
    pub fn snapshot(&self) -> Result<FileLooks, AllocError>
        ensures { IfOk result (λ l. l ≡ self.now) }
    {
        Ok(FileLooks {
            has: self.has.snapshot()?,
            lengths: self.lengths.snapshot()?,
            records: self.records.snapshot()?,
            directories: self.directories.snapshot(),
        })
    }

    /// Removes all questions. Allocates nothing.
    pub fn clear(&mut self)
        ensures { self.new ≡ no_looks }
    {
        self.has.clear();
        self.lengths.clear();
        self.records.clear();
        self.directories.clear();
    }

    /// Removes and returns one of the questions, or `None` if there are none. Allocates nothing.
    pub fn take(&mut self) -> Option<Ask>
        ensures there { IfSome result (λ q. is_looked self.old q ≡ true) }
        ensures some { IfSome result (λ q. self.new ≡ without_ask q self.old) }
        ensures none { IfNone result ((self.new ≡ self.old) × IsUnasked self.old) }
    {
        if let Some(key) = self.has.pop() {
            return Some(Ask::Has(key));
        }
        if let Some(key) = self.lengths.pop() {
            return Some(Ask::Length(key));
        }
        if let Some(record) = self.records.pop() {
            let key = record.0;
            return Some(Ask::Rec(key, record.1));
        }
        if let Some(drive) = self.directories.pop() {
            return Some(Ask::Directory(drive));
        }
        None
    }
}
