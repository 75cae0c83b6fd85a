// The file with a key, found once.

ghost use Rattle.std.specs.Prelude.{◌≡◌, ◌<◌, ◌≤◌, ◌+◌, ◌*◌, not, ℕ, length, get_or, None, true, false};
ghost use Rattle.std.specs.Prelude.{option_copied, unwrap_or, OnErr};
ghost use Rattle.std.specs.FinMap as finmap;
ghost use Rattle.directory.specs.Entries.{count_at};
ghost use Rattle.hostfiles.specs.Files.{is_host_part, records, entry_at, untouched_entry, host_file, base_key};
ghost use Rattle.hostfiles.specs.FileLooks.{look_has, look_length, look_content, HasNewAsk};
ghost use Rattle.hostfiles.specs.Asking.{AsksFor};

use crate::host::{HostFile, HostFiles};
use crate::journal::{Base, Entry, Growth, Journal};
use crate::looks::FileLooks;
use filenames::Key;
use keymaps::KeyOfBoth;
use records::{EXTENT_RECORDS, Record};
use std::alloc::AllocError;

/// The file with a key, as a program sees it: what the run did to it and the host file that it comes from, both already
/// found. Reading it is no look, except by the functions that take `FileLooks`.
#[derive(Clone, Copy)]
pub struct FileView<'a> {
    /// The host files.
    pub host: &'a HostFiles,
    /// What was done to them.
    pub journal: &'a Journal,
    /// The key of the file.
    pub key: Key,
    /// What was done to the file, if anything.
    pub entry: Option<&'a Entry>,
    /// The host file that the file comes from, if there is one.
    pub beneath: Option<&'a HostFile>,
    pub ghost own: { option_copied entry ≡ finmap.get journal.now.entries key },
    pub ghost stands: { option_copied beneath ≡
        host_file host.now (base_key key (entry_at journal.now.entries key).base) },
}

impl<'a> FileView<'a> {
    /// Finds the file with a key, by one search of the journal and, if the file may come from a host file, one of the host
    /// files.
    #[inline(always)]
    pub fn find(host: &'a HostFiles, journal: &'a Journal, key: &Key) -> FileView<'a>
        ensures host { result.host ≡ host.entry }
        ensures journal { result.journal ≡ journal.entry }
        ensures key { result.key ≡ key.now }
    {
        FileView::with_entry(host, journal, key, journal.entries.get(key))
    }

    /// Creates the file with a key for which the journal was already searched. Searches the host files if the file may come
    /// from one.
    #[inline(always)]
    pub(crate) fn with_entry(
        host: &'a HostFiles,
        journal: &'a Journal,
        key: &Key,
        entry: Option<&'a Entry>,
    ) -> FileView<'a>
        requires { option_copied entry ≡ finmap.get journal.now.entries key.now }
        ensures host { result.host ≡ host.entry }
        ensures journal { result.journal ≡ journal.entry }
        ensures key { result.key ≡ key.now }
    {
        FileView {
            host,
            journal,
            key: *key,
            entry,
            beneath: beneath(host, key, base_of(entry)),
        }
    }

    /// Creates the file with a key for which the host files and the journal were already searched. Searches the host files
    /// again only if the file was renamed.
    pub fn from_search(
        host: &'a HostFiles,
        journal: &'a Journal,
        at: &KeyOfBoth<'a, HostFile, Entry>,
    ) -> FileView<'a>
        requires first { option_copied at.now.first ≡ finmap.get host.now at.now.key }
        requires second { option_copied at.now.second ≡ finmap.get journal.now.entries at.now.key }
        ensures host { result.host ≡ host.entry }
        ensures journal { result.journal ≡ journal.entry }
        ensures key { result.key ≡ at.now.key }
    {
        let beneath = match base_of(at.second) {
            Base::Same => at.first,
            other => beneath(host, &at.key, other),
        };
        FileView {
            host,
            journal,
            key: at.key,
            entry: at.second,
            beneath,
        }
    }
}

// Returns where the unwritten records of a file with this entry come from.
fn base_of(entry: Option<&Entry>) -> Base
    ensures { result ≡ (unwrap_or (option_copied entry.entry) untouched_entry).base }
{
    match entry {
        Some(entry) => entry.base,
        None => Base::Same,
    }
}

// Returns the host file that the file with this key comes from.
fn beneath<'a>(host: &'a HostFiles, key: &Key, base: Base) -> Option<&'a HostFile>
    ensures { option_copied result ≡ host_file host.entry.now (base_key key.now base) }
{
    match base {
        Base::Same => host.file(key),
        Base::Moved(old) => host.file(&old),
        Base::Gone => None,
        Base::New => None,
    }
}

impl FileView<'_> {
    ghost use Rattle.std.specs.Option.{option_map};
    ghost use Rattle.hostfiles.specs.FileView.{view_own, view_entry, is_view_there, view_length, view_record, view_shape, view_contents};

    /// Returns where the unwritten records of the file come from.
    pub fn base(&self) -> Base
        ensures { result ≡ (view_entry self.now).base }
    {
        base_of(self.entry)
    }

    /// Returns the growth of the file, if it was made or made longer.
    pub fn grown(&self) -> Option<Growth>
        ensures { result ≡ (view_entry self.now).grown }
    {
        self.entry?.grown
    }

    // Returns the record that was written at a number, if one was.
    pub(crate) fn written(&self, k: u32) -> Option<&Record>
        ensures { option_copied result ≡ finmap.get (view_entry self.now).records k }
    {
        match self.entry {
            Some(entry) => entry.records.get(k),
            None => None,
        }
    }

    /// Returns whether there is a file.
    pub fn is_there(&self) -> bool
        ensures { result ≡ is_view_there self.now }
    {
        match self.base() {
            Base::Same => self.beneath.is_some(),
            Base::Gone => false,
            Base::New => true,
            Base::Moved(_) => true,
        }
    }

    /// Returns the length of the file in records, holes included, or 0 if there is no file.
    pub fn length(&self) -> u32
        ensures { result ≡ view_length self.now }
    {
        if let Some(grown) = self.grown() {
            return grown.length;
        }
        match self.beneath {
            Some(file) => file.len(),
            None => 0,
        }
    }

    /// Returns the length of the file in records, holes included, or `None` if there is no file.
    pub fn records(&self) -> Option<u32>
        ensures records { result ≡ records self.now.host.now (view_own self.now) self.now.key }
        ensures contents { result ≡ option_map length (view_contents self.now) }
    {
        if !self.is_there() {
            return None;
        }
        Some(self.length())
    }

    /// Returns the record with a number below the length, or `None` in a hole.
    pub fn record(&self, k: u32) -> Option<&Record>
        ensures { option_copied result ≡ view_record self.now k }
    {
        if let Some(record) = self.written(k) {
            return Some(record);
        }
        if self.is_hole(k) {
            return None;
        }
        self.record_beneath(k)
    }

    /// Returns whether the file has a record with this number.
    pub fn is_written(&self, number: u64) -> bool
        ensures { result ≡ get_or (view_shape self.now) number false }
    {
        if number >= self.length() as u64 {
            return false;
        }
        self.record(number as u32).is_some()
    }

    /// Returns the greatest index within an extent that has a record, plus one, or 0 if none has.
    pub fn count(&self, extent: u32) -> u8
        ensures value { result ≡ count_at (view_shape self.now) extent }
        ensures within { result ≤ 128 }
    {
        let mut i = places_in(self.length(), extent);
        while i > 0 {
            i -= 1;
            if self.is_written(EXTENT_RECORDS as u64 * extent as u64 + i as u64) {
                return i + 1;
            }
        }
        0
    }

    /// Returns whether there is a file, and marks this question in `looks`. On `Err`, which means out of memory, no other
    /// question is marked; a question that needs no mark or has one is never an `Err`.
    #[tactic(auto, using(crate::proofs::LookLemmas::noted_has))]
    pub fn ask_presence(&self, looks: &mut FileLooks) -> Result<bool, AllocError>
        ensures asks { AsksFor result (is_view_there self.now)
            (look_has (view_own self.now) self.now.key) looks.old looks.new }
        ensures refused { OnErr result
            (HasNewAsk looks.old (look_has (view_own self.now) self.now.key looks.old)) }
    {
        looks.mark_has(self.base(), &self.key)?;
        Ok(self.is_there())
    }

    /// Returns the length of the file, or 0 if there is no file, and marks this question in `looks`. On `Err`, which means
    /// out of memory, no other question is marked; a question that needs no mark or has one is never an `Err`.
    #[tactic(auto, using(crate::proofs::LookLemmas::noted_length))]
    pub fn ask_length(&self, looks: &mut FileLooks) -> Result<u32, AllocError>
        ensures asks { AsksFor result (view_length self.now)
            (look_length (view_own self.now) self.now.key) looks.old looks.new }
        ensures refused { OnErr result
            (HasNewAsk looks.old (look_length (view_own self.now) self.now.key looks.old)) }
    {
        looks.mark_length(self.base(), self.grown(), &self.key)?;
        Ok(self.length())
    }

    /// Returns the record with a number below the length, or `None` in a hole, and marks this question in `looks`. On `Err`,
    /// which means out of memory, no other question is marked; a question that needs no mark or has one is never an `Err`.
    #[tactic(auto, using(crate::proofs::LookLemmas::noted_record))]
    pub fn ask_record(&self, looks: &mut FileLooks, k: u32) -> Result<Option<Record>, AllocError>
        ensures asks { AsksFor result (view_record self.now k)
            (look_content (view_own self.now) self.now.key k) looks.old looks.new }
        ensures refused { OnErr result
            (HasNewAsk looks.old (look_content (view_own self.now) self.now.key k looks.old)) }
    {
        if let Some(record) = self.written(k) {
            return Ok(Some(*record));
        }
        if self.is_hole(k) {
            return Ok(None);
        }
        looks.mark_record(self.base(), &self.key, k)?;
        Ok(self.record_beneath(k).copied())
    }

    // Returns whether this number is past the part that comes from the host file. If no record was written at it, it is a
    // hole.
    fn is_hole(&self, k: u32) -> bool
        ensures { result ≡ not (is_host_part k (view_entry self.now).grown) }
    {
        match self.grown() {
            Some(grown) => k >= grown.host_end,
            None => false,
        }
    }

    // Returns the host file's record with this number.
    fn record_beneath(&self, k: u32) -> Option<&Record>
        requires own { finmap.get (view_entry self.now).records k ≡ None }
        requires beneath { is_host_part k (view_entry self.now).grown ≡ true }
        ensures { option_copied result ≡ view_record self.now k }
    {
        self.beneath?.get(k)
    }
}

// Returns how many record numbers of an extent are below the length `n`.
fn places_in(n: u32, extent: u32) -> u8
    ensures within { result ≤ 128 }
    ensures past { (i : ℕ) → result ≤ i → i < 128 → n ≤ 128 * extent + i }
{
    let start = EXTENT_RECORDS as u64 * extent as u64;
    if n as u64 <= start {
        return 0;
    }
    if n as u64 - start >= EXTENT_RECORDS as u64 {
        return EXTENT_RECORDS as u8;
    }
    (n as u64 - start) as u8
}
