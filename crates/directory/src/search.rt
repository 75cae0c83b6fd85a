// Directory searches.

ghost use Rattle.std.specs.Prelude.{◌≡◌, ◌<◌, ◌≤◌, ℕ, List, Option, true, false, None, Some, IfSome, option_map};
ghost use Rattle.std.specs.List.{slice_get};
ghost use Rattle.std.specs.FinMap.{get};
ghost use Rattle.keymaps.specs.Order.{Skips};
ghost use Rattle.keymaps.specs.Walks.{IsAbsent};
ghost use Rattle.directory.specs.Entries.{Shape, Shapes, count_if_any, first_match, is_match, next_entry};
ghost use Rattle.directory.specs.Parts.{entries_from, file_entries_from, entry_with_count, entries_above};

use crate::entry::{Entry, Position};
use crate::pattern::is_match;
use keymaps::Key;

/// The shape of a file, as a search sees it: for each record number whether the file has a record. There may be no file.
pub trait FileShape {
    ghost use Rattle.std.specs.Prelude.{ℕ, Option};
    ghost use Rattle.directory.specs.Entries.{Shape};

    ghost shape: { Self → Option Shape };

    /// Returns the count of an extent's entry, or `None` if the extent has no entry.
    fn entry_count(&self, extent: u32) -> Option<u8>
        ensures { result ≡ count_if_any (shape self.now) extent };

    /// Returns a bound, at most 512: every extent with an entry is below it.
    fn extents(&self) -> u32
        ensures within { result ≤ 512 }
        ensures none { (e : ℕ) → result ≤ e → e < 512 → count_if_any (shape self.now) e ≡ None };
}

/// A key and its file, found together.
#[derive(Clone, Copy)]
pub struct KeyedFile<F> {
    /// The key.
    pub key: Key,
    /// The file with this key. There may be none.
    pub file: F,
}

/// Files by key, as a search sees them.
pub trait DirectoryFiles {
    ghost use Rattle.std.specs.Prelude.{ℕ, List, Option};
    ghost use Rattle.directory.specs.Entries.{Shapes};

    /// The file with a key, found by one lookup.
    type File: FileShape + Copy;

    ghost files: { Self → Shapes };

    ghost left: { Self → Option (List ℕ) → ℕ };

    /// Returns a key above `after` with its file, such that no file's key is between the two, or `None` if no file's key is
    /// above `after`. There may be no file with the returned key. Every key is above `None`.
    fn next_file(&self, after: Option<Key>) -> Option<KeyedFile<Self::File>>
        ensures file { IfSome result (λ e. Self.File.shape e.file ≡ get (files self.now) e.key) }
        ensures least { Skips after (IsAbsent (files self.now)) (option_map (λ e. e.key) result) }
        ensures fewer { IfSome result (λ e. left self.now (Some e.key) < left self.now after) };

    /// Finds the file with a key.
    fn file(&self, key: &Key) -> Self::File
        ensures { Self.File.shape result ≡ get (files self.now) key.now };
}

// Returns the entry of an extent, if it has one.
fn entry_at<F: FileShape>(file: &F, key: &Key, extent: u32) -> Option<Entry>
    requires { extent < 512 }
    ensures entry { result ≡ entry_with_count key.now extent (count_if_any (F.shape file.now) extent) }
    ensures within { IfSome result (λ e. e.extent < 512) }
{
    let count = file.entry_count(extent)?;
    Some(Entry {
        key: *key,
        extent: extent as u16,
        count,
    })
}

// Returns a file's first entry from an extent on.
fn first_from<F: FileShape>(file: &F, key: &Key, from: u32) -> Option<Entry>
    ensures entry { result ≡ slice_get (file_entries_from key.now (F.shape file.now) from) 0 }
    ensures within { IfSome result (λ e. e.extent < 512) }
{
    for extent in from..file.extents() {
        if let Some(found) = entry_at(file, key, extent) {
            return Some(found);
        }
    }
    None
}

// Returns whether an entry of a key may match, from an extent on. The file is not read.
fn may_match(pattern: &Key, ex: u8, key: &Key, from: u32) -> bool
    ensures yes { result ≡ true → is_match pattern.now key.now ≡ true }
    ensures reached { result ≡ true → ex < from → ex ≡ 63 }
    ensures no { result ≡ false → (s : Option Shape) →
        first_match pattern.now ex (file_entries_from key.now s from) ≡ None }
{
    // 63 is `?`, which matches every extent.
    if ex != 63 && (ex as u32) < from {
        return false;
    }
    is_match(pattern, key)
}

// Returns the first match among a file's extents from one on, for a pattern that its key matches.
fn first_extent<F: FileShape>(file: &F, key: &Key, from: u32, ex: u8) -> Option<Entry>
    requires { ex < from → ex ≡ 63 }
    ensures entry { (pattern : List ℕ) → is_match pattern key.now ≡ true →
        result ≡ first_match pattern ex (file_entries_from key.now (F.shape file.now) from) }
    ensures within { IfSome result (λ e. e.extent < 512) }
{
    if ex == 63 {
        return first_from(file, key, from);
    }
    entry_at(file, key, ex as u32)
}

// Returns the first match among the extents from one on of the file with a key. Looks the file up at most once, and only if
// an entry of it may match.
fn first_further<T: DirectoryFiles>(
    files: &T,
    key: &Key,
    from: u32,
    pattern: &Key,
    ex: u8,
) -> Option<Entry>
    ensures entry { result ≡ first_match pattern.now ex (entries_from (T.files files.now) key.now from) }
    ensures within { IfSome result (λ e. e.extent < 512) }
{
    if !may_match(pattern, ex, key, from) {
        return None;
    }
    first_extent(&files.file(key), key, from, ex)
}

// Returns the first match among the files above a key. Each file is found together with its key.
fn first_above<T: DirectoryFiles>(
    files: &T,
    pattern: &Key,
    ex: u8,
    low: Option<Key>,
) -> Option<Entry>
    ensures entry { result ≡ first_match pattern.now ex (entries_above low (T.files files.now)) }
    ensures within { IfSome result (λ e. e.extent < 512) }
{
    let mut after = low;
    while let Some(next) = files.next_file(after) {
        let key = next.key;
        after = Some(key);
        if !is_match(pattern, &key) {
            continue;
        }
        if let Some(found) = first_extent(&next.file, &key, 0, ex) {
            return Some(found);
        }
    }
    None
}

/// Returns the first matching entry after a position, or of the whole directory if `after` is `None`, in the order of keys
/// and then of extents, among the current files. `ex` is the extent, or 63 (`?`) for every extent. The search resumes at the
/// position and not from the start.
pub fn next_entry<T: DirectoryFiles>(
    files: &T,
    pattern: &Key,
    ex: u8,
    after: Option<Position>,
) -> Option<Entry>
    ensures entry { result ≡ next_entry pattern.now ex after (T.files files.now) }
    ensures within { IfSome result (λ e. e.extent < 512) }
{
    let Some(last) = after else {
        return first_above(files, pattern, ex, None);
    };
    let from = last.extent as u32 + 1;
    if let Some(found) = first_further(files, &last.key, from, pattern, ex) {
        return Some(found);
    }
    first_above(files, pattern, ex, Some(last.key))
}
