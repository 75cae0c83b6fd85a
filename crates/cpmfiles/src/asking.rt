// The questions that a program asks about the current files. Each function marks the questions that reach the
// host files. `Err` means out of memory, which is possible only if one of them was not asked before; the function
// may then have marked only some of them, and no others.

ghost use Rattle.std.specs.Prelude.{◌≡◌, true, Ok, OnErr, slice_index};
ghost use Rattle.std.specs.Option.{option_map};
ghost use Rattle.hostfiles.specs.Entries.{position_of};
ghost use Rattle.hostfiles.specs.Files.{has, records, record_if_there, shapes};
ghost use Rattle.hostfiles.specs.FileLooks.{look_has, look_records, look_read, look_directory, HasNewAsk};
ghost use Rattle.hostfiles.specs.Asking.{AsksFor, Inquires};
ghost use Rattle.hostfiles.specs.FileView.{view_own};
ghost use Rattle.hostfiles.specs.Names.{is_sayable};
ghost use Rattle.cpmfiles.specs.Renaming.{is_rename};
ghost use Rattle.cpmfiles.specs.Tables.{can_make, can_rename, extent_count, look_make, look_rename, next_bytes};

use crate::table::has_wildcard;
use hostfiles::changes::Changes;
use hostfiles::directory_view::DirectoryView;
use hostfiles::file_view::FileView;
use hostfiles::host::HostFiles;
use hostfiles::looks::FileLooks;
use hostfiles::{Key, Position, Record, is_sayable, next_entry};
use std::alloc::AllocError;

/// Returns whether there is a file with this key.
pub fn has(host: &HostFiles, changes: &mut Changes, key: &Key) -> Result<bool, AllocError>
    ensures { Inquires result (λ own. has host.now own key.now)
        (λ own. look_has own key.now) changes.old changes.new }
{
    FileView::find(host, &changes.journal, key).ask_presence(&mut changes.looks)
}

// Returns the length of a file in records, holes included, or `None` if there is no file.
#[tactic(auto, using(crate::proofs::LookLaws::asked_in_turn))]
fn ask_records(file: &FileView<'_>, looks: &mut FileLooks) -> Result<Option<u32>, AllocError>
    ensures asks { AsksFor result (records file.now.host.now (view_own file.now) file.now.key)
        (look_records file.now.host.now (view_own file.now) file.now.key) looks.old looks.new }
    ensures refused { OnErr result
        (HasNewAsk looks.old (look_records file.now.host.now (view_own file.now) file.now.key looks.old)) }
{
    if !file.ask_presence(looks)? {
        return Ok(None);
    }
    Ok(Some(file.ask_length(looks)?))
}

/// Returns the length of the file of the key in records, holes included; `None` if there is no file.
pub fn records(
    host: &HostFiles,
    changes: &mut Changes,
    key: &Key,
) -> Result<Option<u32>, AllocError>
    ensures { Inquires result (λ own. records host.now own key.now)
        (λ own. look_records host.now own key.now) changes.old changes.new }
{
    ask_records(
        &FileView::find(host, &changes.journal, key),
        &mut changes.looks,
    )
}

/// Returns the record count of an extent of the file of the key, or `None` if there is no file. The count is the
/// index within the extent of its last record, plus one; 0 if it has none.
#[tactic(auto, using(crate::proofs::LookLaws::asked_in_turn))]
pub fn extent(
    host: &HostFiles,
    changes: &mut Changes,
    key: &Key,
    extent: u32,
) -> Result<Option<u8>, AllocError>
    ensures { Inquires result (λ own. extent_count host.now own key.now extent)
        (λ own. look_records host.now own key.now) changes.old changes.new }
{
    let file = FileView::find(host, &changes.journal, key);
    if ask_records(&file, &mut changes.looks)?.is_none() {
        return Ok(None);
    }
    Ok(Some(file.count(extent)))
}

/// Reads record `k` of the file of the key. Returns `None` if there is no file, if `k` is not below its length, or
/// if record `k` is a hole.
#[tactic(auto, using(crate::proofs::LookLaws::asked_in_turn))]
pub fn read(
    host: &HostFiles,
    changes: &mut Changes,
    key: &Key,
    k: u32,
) -> Result<Option<Record>, AllocError>
    ensures { Inquires result (λ own. record_if_there host.now own key.now k)
        (λ own. look_read host.now own key.now k) changes.old changes.new }
{
    let file = FileView::find(host, &changes.journal, key);
    let Some(length) = ask_records(&file, &mut changes.looks)? else {
        return Ok(None);
    };
    if k >= length {
        return Ok(None);
    }
    file.ask_record(&mut changes.looks, k)
}

/// Returns whether a file with this key can be made: the key is valid and no file has it. An invalid key asks
/// nothing, so it is never an `Err`.
#[tactic(auto, using(crate::proofs::LookLaws::extends_same))]
pub fn can_make(host: &HostFiles, changes: &mut Changes, key: &Key) -> Result<bool, AllocError>
    ensures inquires { Inquires result (λ own. can_make host.now own key.now)
        (λ own. look_make own key.now) changes.old changes.new }
    ensures grows { OnErr result (is_sayable key.now ≡ true) }
{
    if !is_sayable(key) {
        return Ok(false);
    }
    Ok(!has(host, changes, key)?)
}

/// Returns whether a file can be renamed: the old key has no `?` and a file has it, and the new key is valid and no
/// file has it. Asks about both keys, or about neither if the old key has a `?` or the new key is invalid; then
/// the result is never an `Err`.
#[tactic(auto, using(crate::proofs::LookLaws::asked_in_turn))]
pub fn can_rename(
    host: &HostFiles,
    changes: &mut Changes,
    old: &Key,
    new: &Key,
) -> Result<bool, AllocError>
    ensures inquires { Inquires result (λ own. can_rename host.now own old.now new.now)
        (λ own. look_rename own old.now new.now) changes.old changes.new }
    ensures grows { OnErr result (is_rename old.now new.now ≡ true) }
{
    if has_wildcard(old) || !is_sayable(new) {
        return Ok(false);
    }
    let there = has(host, changes, old)?;
    let taken = has(host, changes, new)?;
    Ok(there && !taken)
}

/// Returns the first directory entry of the current files that matches a pattern, after the given entry if there
/// is one. The pattern's drive is matched exactly; its name and its `ex` byte may contain `?`. Allocates nothing.
#[tactic(auto, using(crate::proofs::LookLaws::extends_by_directory))]
pub fn search(
    host: &HostFiles,
    changes: &mut Changes,
    pattern: &Key,
    ex: u8,
    after: Option<[u8; 32]>,
) -> Option<[u8; 32]>
    ensures inquires { Inquires (Ok result) (λ own. next_bytes pattern.now ex after (shapes host.now own))
        (λ own. look_directory (slice_index pattern.now 0)) changes.old changes.new }
{
    let drive = pattern[0];
    changes.looks.mark_directory(drive);
    let last = position_after(drive, after);
    let listed = DirectoryView {
        host,
        journal: &changes.journal,
    };
    let entry = next_entry(&listed, pattern, ex, last)?;
    Some(entry.to_bytes())
}

// Returns the position of the entry that was returned last, if there is one.
fn position_after(drive: u8, after: Option<[u8; 32]>) -> Option<Position>
    ensures { result ≡ option_map (position_of drive) after }
{
    Some(Position::from_bytes(drive, &after?))
}
