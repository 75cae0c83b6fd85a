// The host files of a session.

ghost use Rattle.std.specs.Prelude.{◌≡◌, ◌<◌, ◌≤◌, ◌*◌, ◌⊎◌, true, length, slice_get, option_copied};
ghost use Rattle.std.specs.Prelude.{IfOk, OnOk, OnErr};
ghost use Rattle.std.specs.Option.{option_map, option_and_then};
ghost use Rattle.std.specs.FinMap as finmap;
ghost use Rattle.keymaps.specs.Order.{IsLeastAbove};
ghost use Rattle.keymaps.specs.Walks.{IsAbsent};
ghost use Rattle.hostfiles.specs.Files.{file_contents};
ghost use Rattle.hostfiles.specs.Hosts.{records_in, padded_record_at, padded_record, refusal_of, has_room, IsHost};

use crate::changes::Changes;
use crate::file_view::FileView;
use crate::names::key_if_any;
use filenames::{Key, Name};
use keymaps::KeyMap;
use records::{RECORD_BYTES, Record};
use std::alloc::{AllocError, Global};
use std::marker::Model;
use thiserror::Error;

/// The maximum number of bytes in a file: 65,536 records.
pub const FILE_LIMIT: usize = 8_388_608;

/// The maximum number of host files, on all drives together.
pub const COUNT_LIMIT: usize = 512;

/// The records of a host file, in order.
#[derive(Drop)]
pub struct HostFile {
    records: Vec<Record>,
}

impl Model for HostFile {
    ghost use Rattle.std.specs.Prelude.{List, ℕ, length, ◌≤◌};
    ghost use Rattle.std.specs.Coded.{coded_ℕ, coded_list};

    ghost Value = { List (List ℕ) };

    ghost coded = { coded_list (coded_list coded_ℕ) };

    ghost view = { λ a. a.records.items };

    ghost invariant = { λ a. length a.records.items ≤ 65536 };
}

impl HostFile {
    /// Creates a host file from at most 8,388,608 bytes, with its last record padded to 128 bytes with 1AH. Without bytes it
    /// has no records and allocates nothing. `Err` means out of memory.
    pub fn new(alloc: Global, bytes: &[u8]) -> Result<HostFile, AllocError>
        requires { length bytes.now ≤ 8388608 }
        ensures ok { IfOk result (λ file. file ≡ records_in bytes.now) }
        ensures refused { OnErr result (0 < length bytes.now) }
    {
        let count = (bytes.len() + RECORD_BYTES - 1) / RECORD_BYTES;
        let mut records = Vec::with_capacity(alloc, count)?;
        for i in 0..count {
            records.push(padded_record_at(bytes, i))?;
        }
        Ok(HostFile { records })
    }

    /// Returns the record with this number, or `None` past the end of the file.
    pub fn get(&self, number: u32) -> Option<&Record>
        ensures { option_copied result ≡ slice_get self.now number }
    {
        self.records.get(number as usize)
    }

    /// Returns the number of records, at most 65,536.
    pub fn len(&self) -> u32
        ensures { result ≡ length self.now }
    {
        self.records.len() as u32
    }
}

// Returns the record with this number, padded with 1AH.
fn padded_record_at(bytes: &[u8], i: usize) -> Record
    requires { 128 * i < length bytes.now }
    ensures { result ≡ padded_record_at bytes.now i }
{
    let start = RECORD_BYTES * i;
    if bytes.len() - start > RECORD_BYTES {
        return padded_record(&bytes[start..start + RECORD_BYTES]);
    }
    padded_record(&bytes[start..])
}

// Returns up to 128 bytes, padded with 1AH.
fn padded_record(piece: &[u8]) -> Record
    requires { length piece.now ≤ 128 }
    ensures { result ≡ padded_record piece.now }
{
    let mut record = [0x1a; RECORD_BYTES];
    record[..piece.len()].copy_from_slice(piece);
    record
}

/// Host files by name, at most 512 on all drives together.
#[derive(Drop)]
pub struct HostFiles {
    files: KeyMap<HostFile>,
    alloc: Global,
}

impl Model for HostFiles {
    ghost use Rattle.std.specs.Prelude.{List, ℕ, ◌≡◌, ◌≤◌, true};
    ghost use Rattle.std.specs.Ordering.{nat_cmp};
    ghost use Rattle.std.specs.Cmp.Lexicographic.{slice_cmp};
    ghost use Rattle.std.specs.FinMap as finmap;
    ghost use Rattle.std.specs.Coded.{coded_ℕ, coded_list};
    ghost use Rattle.hostfiles.specs.Hosts.{IsHost};

    ghost Value = { finmap.FinMap (slice_cmp nat_cmp) (List (List ℕ)) };

    ghost coded = { finmap.code (coded_list coded_ℕ) (coded_list (coded_list coded_ℕ)) };

    ghost view = { λ a. a.files };

    ghost invariant = { λ a. IsHost a.files };
}

/// The reason why a host file is not set.
#[derive(Clone, Copy, Debug, PartialEq, Eq, Error)]
pub enum FilesError {
    /// A file of more than 8,388,608 bytes.
    #[error("the file is too long")]
    FileTooLong,
    /// One file more than the limit of 512.
    #[error("there are too many files")]
    TooManyFiles,
    /// A failed allocation.
    #[error("out of memory")]
    OutOfMemory,
}

impl FilesError {
    ghost use Rattle.hostfiles.specs.FilesError.{files_error_number};

    /// Returns the number of the refusal: 1, 2 or 3.
    pub fn number(self) -> u8
        ensures { result ≡ files_error_number self }
    {
        match self {
            FilesError::FileTooLong => 1,
            FilesError::TooManyFiles => 2,
            FilesError::OutOfMemory => 3,
        }
    }
}

impl From<AllocError> for FilesError {
    ghost use Rattle.std.specs.Prelude.{◌≡◌};
    ghost use Rattle.hostfiles.specs.declared.host.FilesError.TheVariants.{OutOfMemory};

    ghost from_gives = { λ _ refusal. refusal ≡ OutOfMemory };

    fn from(_: AllocError) -> Self {
        Self::OutOfMemory
    }
}

impl HostFiles {
    ghost use Rattle.hostfiles.specs.FilesError.{RefusedAs};

    /// Creates an empty set of host files. Allocates nothing.
    pub fn new(alloc: Global) -> HostFiles
        ensures { result ≡ finmap.empty }
    {
        HostFiles {
            files: KeyMap::new(alloc),
            alloc,
        }
    }

    /// Sets or replaces a file with these bytes, padded with 1AH to whole records.
    ///
    /// # Errors
    ///
    /// `FileTooLong` if there are more than 8,388,608 bytes, otherwise `TooManyFiles` if there are 512 files and none has
    /// this name, otherwise `OutOfMemory` if an allocation fails. On error, nothing changes. A file without bytes that replaces
    /// another one is never an error.
    ///
    /// # Example
    ///
    /// One file on drive A and one on drive B:
    ///
    /// ```text
    /// let mut files = HostFiles::new(alloc);
    /// files.set(Name::parse("NOTE.TXT")?, b"a line\r\n")?;
    /// files.set(Name::parse("B:DATA.BIN")?, &bytes)?;
    /// ```
    pub fn set(&mut self, name: Name, bytes: &[u8]) -> Result<(), FilesError>
        ensures ok { OnOk result (self.new ≡ finmap.insert self.old name (records_in bytes.now)) }
        ensures err { OnErr result (self.new ≡ self.old) }
        ensures refusal { RefusedAs (refusal_of self.old name bytes.now) result }
        ensures refused { OnErr result ((0 < length bytes.now) ⊎ IsAbsent self.old name) }
    {
        let key = name.key();
        if bytes.len() > FILE_LIMIT {
            return Err(FilesError::FileTooLong);
        }
        if !self.has_room(&key) {
            return Err(FilesError::TooManyFiles);
        }
        let file = HostFile::new(self.alloc, bytes)?;
        self.put(name, file)?;
        Ok(())
    }

    /// Returns whether a file with this key can be set: there is one already, or there are fewer than 512 files.
    pub fn has_room(&self, key: &Key) -> bool
        ensures { result ≡ has_room self.now key.now }
    {
        self.files.contains_key(key) || self.files.len() < COUNT_LIMIT
    }

    /// Sets or replaces a file for which there is room. Only a new name allocates. On `Err`, which means out of memory, nothing
    /// changes.
    pub fn put(&mut self, name: Name, file: HostFile) -> Result<(), AllocError>
        requires { has_room self.old name ≡ true }
        ensures ok { OnOk result (self.new ≡ finmap.insert self.old name file) }
        ensures err { OnErr result (self.new ≡ self.old) }
        ensures absent { OnErr result (IsAbsent self.old name) }
        ensures limits { IsHost self.new }
    {
        let _ = &file.records; // at most 65,536
        self.files.insert(name.key(), file)
    }

    /// Returns the number of files.
    pub fn len(&self) -> usize
        ensures len { result ≡ finmap.len self.now }
        ensures limits { IsHost self.now }
    {
        self.files.len()
    }

    /// Removes a file and returns whether there was one. Allocates nothing.
    pub fn remove(&mut self, name: &Name) -> bool
        ensures there { result ≡ finmap.contains_key self.old name.now }
        ensures removed { self.new ≡ finmap.remove self.old name.now }
        ensures limits { IsHost self.new }
    {
        self.files.remove(&name.key()).is_some()
    }

    /// Returns the number of records of a file, or `None` if there is no such file.
    pub fn records(&self, name: &Name) -> Option<u32>
        ensures { result ≡ option_map length (finmap.get self.now name.now) }
    {
        Some(self.files.get(&name.key())?.len())
    }

    /// Returns a record of a file, or `None` if there is no such file or it is too short.
    pub fn record(&self, name: &Name, number: u32) -> Option<Record>
        ensures { result ≡ option_and_then (λ file. slice_get file number) (finmap.get self.now name.now) }
    {
        self.files.get(&name.key())?.get(number).copied()
    }

    /// Returns the least name above `after`, by key, or `None` if there is none. Every name is above `None`.
    pub fn next(&self, after: Option<&Name>) -> Option<Name>
        ensures { IsLeastAbove (option_copied after.entry) (finmap.contains_key self.now) result }
    {
        let key = self.files.next_key(key_if_any(after))?;
        Some(Name::from_valid_key(&key))
    }

    /// Returns the number of records of a file after these changes, or `None` if there is no such file. Marks no look.
    pub fn records_with(&self, changes: &Changes, name: &Name) -> Option<u32>
        ensures { result ≡ option_map length (file_contents self.now changes.now.journal.entries name.now) }
    {
        FileView::find(self, &changes.journal, &name.key()).records()
    }

    /// Returns a record of a file after these changes, with zeros in a hole, or `None` if there is no such file or it is too
    /// short. Marks no look.
    pub fn record_with(&self, changes: &Changes, name: &Name, number: u32) -> Option<Record>
        ensures { let seen = file_contents self.now changes.now.journal.entries name.now in
            result ≡ option_and_then (λ records. slice_get records number) seen }
    {
        FileView::find(self, &changes.journal, &name.key())
            .contents_record(number)
            .copied()
    }

    /// Returns the file with a key.
    pub fn file(&self, key: &Key) -> Option<&HostFile>
        ensures { option_copied result ≡ finmap.get self.now key.now }
    {
        self.files.get(key)
    }

    /// Returns whether there is a file with a key.
    pub fn has(&self, key: &Key) -> bool
        ensures { result ≡ finmap.contains_key self.now key.now }
    {
        self.files.contains_key(key)
    }

    /// Returns all files by key.
    pub fn files(&self) -> &KeyMap<HostFile>
        ensures { result.now ≡ self.now }
    {
        &self.files
    }
}
