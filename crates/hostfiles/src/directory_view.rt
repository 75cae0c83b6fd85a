// The directory of host files and what was done to them.

ghost use Rattle.std.specs.Prelude.{◌≡◌, ◌<◌, ◌≤◌, ◌&&◌, ℕ, List, true, false, None, Some, filter, length};
ghost use Rattle.std.specs.Prelude.{if◌then◌else◌, IfOk, IfSome, IfNone, OnOk, OnErr, option_copied};
ghost use Rattle.std.specs.FinMap as finmap;
ghost use Rattle.std.specs.Option.{option_map_or};
ghost use Rattle.directory.specs.Entries.{is_match};
ghost use Rattle.keymaps.specs.Order.{IsLeastAbove};
ghost use Rattle.hostfiles.specs.Files.{after_delete, has, is_listed, gone_entry, shapes};
ghost use Rattle.hostfiles.specs.FileView.{is_view_there, view_own};

use crate::changes::Changes;
use crate::file_view::FileView;
use crate::host::HostFiles;
use crate::journal::Journal;
use crate::names::key_if_any;
use directory::{DirectoryFiles, FileShape, KeyedFile, is_match};
use filenames::{Key, Name};
use keymaps::next_of_both;
use records::EXTENT_RECORDS;
use std::alloc::AllocError;

/// Host files and what was done to them, as a directory search sees them.
#[derive(Clone, Copy)]
pub struct DirectoryView<'a> {
    /// The host files.
    pub host: &'a HostFiles,
    /// What was done to them.
    pub journal: &'a Journal,
}

impl<'a> DirectoryFiles for DirectoryView<'a> {
    ghost use Rattle.std.specs.Prelude.{◌+◌};
    ghost use Rattle.keymaps.specs.Walks.{count_above};
    ghost use Rattle.hostfiles.specs.Files.{shapes};

    type File = FileView<'a>;

    ghost files = { λ l. shapes l.host.now l.journal.now.entries };

    ghost left = { λ l a. count_above l.host.now a + count_above l.journal.now.entries a };

    fn next_file(&self, after: Option<Key>) -> Option<KeyedFile<FileView<'a>>> {
        let next = next_of_both(self.host.files(), &self.journal.entries, after)?;
        let key = next.key;
        let file = FileView::from_search(self.host, self.journal, &next);
        Some(KeyedFile { key, file })
    }

    fn file(&self, key: &Key) -> FileView<'a> {
        FileView::find(self.host, self.journal, key)
    }
}

impl FileShape for FileView<'_> {
    ghost use Rattle.hostfiles.specs.Files.{shape_at};

    ghost shape = { λ f. shape_at f.host.now f.journal.now.entries f.key };

    fn entry_count(&self, extent: u32) -> Option<u8> {
        if !self.is_there() {
            return None;
        }
        if self.length() == 0 {
            return if extent == 0 { Some(0) } else { None };
        }
        let count = self.count(extent);
        if count == 0 {
            return None;
        }
        Some(count)
    }

    // Returns the extent after the one with the file's last record number, at most 512, or 1 if the length is 0.
    fn extents(&self) -> u32 {
        let n = self.length();
        if n == 0 {
            return 1;
        }
        let last = (n - 1) / EXTENT_RECORDS;
        if last >= 512 {
            return 512;
        }
        last + 1
    }
}

impl HostFiles {
    /// Returns the least name above `after`, by key, of a file after these changes, or `None` if there is none. Every name is
    /// above `None`. Skips files whose keys are not valid. Marks no look.
    pub fn next_with(&self, changes: &Changes, after: Option<&Name>) -> Option<Name>
        ensures { IsLeastAbove (option_copied after.entry)
            (is_listed self.now changes.now.journal.entries) result }
    {
        let journal = &changes.journal;
        let mut low = key_if_any(after);
        while let Some(next) = next_of_both(self.files(), &journal.entries, low) {
            let key = next.key;
            if let Some(name) = name_of(&FileView::from_search(self, journal, &next)) {
                return Some(name);
            }
            low = Some(key);
        }
        None
    }
}

// Returns the name of a file, if the file exists and its key is valid.
fn name_of(file: &FileView<'_>) -> Option<Name>
    ensures name { IfSome result (λ name. name ≡ file.now.key) }
    ensures some { IfSome result (λ name.
        is_listed file.now.host.now (view_own file.now) file.now.key ≡ true) }
    ensures none { IfNone result (is_listed file.now.host.now (view_own file.now) file.now.key ≡ false) }
{
    let name = Name::from_key(&file.key)?;
    if !file.is_there() {
        return None;
    }
    Some(name)
}

/// Deletes each file whose key matches a pattern, and returns the number of these files. `Err` means out of memory; some file
/// then matches, and the journal is unchanged.
pub fn delete_matches(
    host: &HostFiles,
    journal: &mut Journal,
    pattern: &Key,
) -> Result<u64, AllocError>
    ensures done { OnOk result ((q : List ℕ) → finmap.get journal.new.entries q ≡
        (if is_match pattern.now q && has host.now journal.old.entries q then Some gone_entry
        else finmap.get journal.old.entries q)) }
    ensures count { IfOk result (λ n. n ≡
        length (filter (λ e. is_match pattern.now e.0)
        (finmap.entries (shapes host.now journal.old.entries)))) }
    ensures err { OnErr result (journal.new ≡ journal.old) }
    ensures refused { OnErr result (0 <
        length (filter (λ e. is_match pattern.now e.0)
        (finmap.entries (shapes host.now journal.old.entries)))) }
{
    // Bounds the count, which is at most the number of all keys.
    let most = host.files().len() + journal.entries.len();
    let mut left = None;
    let mut count: u64 = 0;
    let mut after = None;
    while let Some(next) = next_of_both(host.files(), &journal.entries, after) {
        let key = next.key;
        if is_deleted(&FileView::from_search(host, journal, &next), pattern) {
            count += 1;
            left = Some(with_deletion(journal, left, &key)?);
        }
        after = Some(key);
    }
    if let Some(left) = left {
        *journal = left;
    }
    Ok(count)
}

// Returns the journal that is left, which is a copy of `journal` if there is none yet, with a file deleted. `Err` means out of memory.
fn with_deletion(journal: &Journal, left: Option<Journal>, key: &Key) -> Result<Journal, AllocError>
    ensures { IfOk result (λ r. r.entries
        ≡ after_delete (option_map_or (λ j. j.entries) left journal.now.entries) key.now) }
{
    let mut left = match left {
        Some(left) => left,
        None => journal.snapshot()?,
    };
    left.delete(key)?;
    Ok(left)
}

// Returns whether a file exists and its key matches a pattern.
fn is_deleted(file: &FileView<'_>, pattern: &Key) -> bool
    ensures { result ≡ (is_match pattern.now file.now.key && is_view_there file.now) }
{
    is_match(pattern, &file.key) && file.is_there()
}
