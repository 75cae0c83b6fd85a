// Whether a disk has room for the changed files of a run.

ghost use Rattle.std.specs.Prelude.{◌≡◌, ◌≤◌, ◌+◌, IfErr, IfOk, IfSome, OnOk, false, length, map, string_bytes, true};
ghost use Rattle.std.specs.List.{filter, list_any};
ghost use Rattle.filenames.specs.Drives.{drive_number};
ghost use Rattle.folders.specs.Failures.{KeepsFiles};
ghost use Rattle.folders.specs.Faults.{FailsBy, failure_paths};
ghost use Rattle.one_run.specs.ChangedList.{changed_by};
ghost use Rattle.one_run.specs.Room as room;

use crate::changed::Entry;
use crate::planning::{Turn, is_turn};
use filenames::{Drive, Name};
use folders::{
    Failure, Fault, FileSystem, Kind, host_file, name_in_folder, names_in, path_in, read_failure,
};
use hostfiles::host::COUNT_LIMIT;

// Returns whether a changed file is of this drive, and has this turn.
fn is_in_turn(drive: Drive, turn: Turn, entry: &Entry<'_>) -> bool
    ensures { result ≡ room.is_in_turn (drive_number drive) turn (changed_by entry.now) }
{
    entry.name.drive() == drive && is_turn(turn, entry.is_there(), &entry.before)
}

// Returns how many of the entries are of this drive, and have this turn.
fn count_entries(drive: Drive, turn: Turn, entries: &[Entry<'_>]) -> usize
    ensures { result ≡ length (filter
        (λ entry. room.is_in_turn (drive_number drive) turn (changed_by entry)) entries.now) }
{
    entries
        .iter()
        .filter(|entry| is_in_turn(drive, turn, entry))
        .count()
}

// Returns how many of the changed files are of this drive, and have this turn.
fn count_in_turn(drive: Drive, turn: Turn, entries: &[Entry<'_>]) -> usize
    ensures { result ≡ room.count_in_turn (drive_number drive) turn (map changed_by entries.now) }
{
    count_entries(drive, turn, entries)
}

// Returns whether a file with a name of CP/M is at a name in the folder of a drive.
fn is_file<S: FileSystem>(
    system: &mut S,
    drive: Drive,
    folder: &str,
    name: &str,
) -> Result<bool, Failure>
    ensures is { IfOk result (λ is. IfSome (S.files system.old).bytes (λ stored.
        is ≡ room.is_file stored (drive_number drive) folder.now name.now)) }
    ensures fault { IfErr result (FailsBy room.IsAnyReadFault) }
    ensures unchanged { KeepsFiles failure_paths result (S.files system.old) (S.files system.new) }
{
    Ok(host_file(system, drive, folder, name)?.is_some())
}

// Returns how many of the names in the folder of a drive are those of files.
fn count_files<S: FileSystem>(
    system: &mut S,
    drive: Drive,
    folder: &str,
    names: &[String],
) -> Result<usize, Failure>
    ensures count { IfOk result (λ count. IfSome (S.files system.old).bytes (λ stored.
        count ≡ length (filter (room.is_file stored (drive_number drive) folder.now)
        (map string_bytes names.now)))) }
    ensures fault { IfErr result (FailsBy room.IsAnyReadFault) }
    ensures unchanged { KeepsFiles failure_paths result (S.files system.old) (S.files system.new) }
{
    let mut files = 0;
    for name in names {
        if is_file(system, drive, folder, name.as_str())? {
            files += 1;
        }
    }
    Ok(files)
}

// Returns whether there are at most 512 files after some are added and others are gone.
fn fits(files: usize, added: usize, gone: usize) -> bool
    ensures { result ≡ true → files + added ≤ COUNT_LIMIT + gone }
{
    files as u128 + added as u128 <= COUNT_LIMIT as u128 + gone as u128
}

// Checks that the folder of a drive has at most 512 files after a run. What is at its names is only looked up if it has nearly as many names.
fn check_count<S: FileSystem>(
    system: &mut S,
    drive: Drive,
    folder: &str,
    names: &[String],
    entries: &[Entry<'_>],
) -> Result<(), Failure>
    ensures fits { OnOk result (IfSome (S.files system.old).bytes (λ stored. room.Fits stored
        (map string_bytes names.now) (drive_number drive) folder.now (map changed_by entries.now))) }
    ensures fault { IfErr result (FailsBy (room.IsRoomFault folder.now (map changed_by entries.now))) }
    ensures unchanged { KeepsFiles failure_paths result (S.files system.old) (S.files system.new) }
{
    let added = count_in_turn(drive, Turn::New, entries);
    let gone = count_in_turn(drive, Turn::Gone, entries);
    if fits(names.len(), added, gone) {
        return Ok(());
    }
    if fits(count_files(system, drive, folder, names)?, added, gone) {
        return Ok(());
    }
    let named = String::from_str(system.alloc(), folder)?;
    Err(Failure::AtFault(Fault::TooManyFiles(named)))
}

// Returns whether a changed file that is there has this name, but not this path.
fn is_elsewhere(name: &Name, path: &str, entry: &Entry<'_>) -> bool
    ensures { result ≡ room.is_elsewhere name.now path.now (changed_by entry.now) }
{
    if !entry.is_there() || entry.name != *name {
        return false;
    }
    match &entry.path {
        Some(other) => other.as_bytes() != path.as_bytes(),
        None => true,
    }
}

// Returns whether an entry that is there has this name, but not this path.
fn has_entry_elsewhere(name: &Name, path: &str, entries: &[Entry<'_>]) -> bool
    ensures { result ≡ list_any
        (λ entry. room.is_elsewhere name.now path.now (changed_by entry)) entries.now }
{
    entries.iter().any(|entry| is_elsewhere(name, path, entry))
}

// Returns whether a changed file that is there has this name, but not this path.
fn is_any_elsewhere(name: &Name, path: &str, entries: &[Entry<'_>]) -> bool
    ensures { result ≡ list_any (room.is_elsewhere name.now path.now) (map changed_by entries.now) }
{
    has_entry_elsewhere(name, path, entries)
}

// Checks that no other file, at this name in the folder of a drive, would have the name of a changed one.
fn check_name<S: FileSystem>(
    system: &mut S,
    drive: Drive,
    folder: &str,
    name: &str,
    entries: &[Entry<'_>],
) -> Result<(), Failure>
    ensures free { OnOk result (IfSome (S.files system.old).bytes (λ stored. room.is_taken stored
        (drive_number drive) folder.now (map changed_by entries.now) name.now ≡ false)) }
    ensures fault { IfErr result (FailsBy (room.IsRoomFault folder.now (map changed_by entries.now))) }
    ensures unchanged { KeepsFiles failure_paths result (S.files system.old) (S.files system.new) }
{
    let Some(key) = name_in_folder(drive, name) else {
        return Ok(());
    };
    let path = path_in(system.alloc(), folder, name)?;
    if !is_any_elsewhere(&key, path.as_str(), entries) {
        return Ok(());
    }
    match system.kind(path.as_str()) {
        Ok(Kind::Regular) => Err(Failure::AtFault(Fault::WouldBeTwo(key))),
        Ok(_) => Ok(()),
        Err(error) => Err(read_failure(error, path)),
    }
}

/// Checks that a disk has room for the changed files of its drive: it has at most 512 files then, and no two with one name. Other programs
/// may have made files there while the run went on.
///
/// # Errors
///
/// Returns `Err` if it has not, if the folder can't be read, or if an allocation fails.
pub fn check_room<S: FileSystem>(
    system: &mut S,
    drive: Drive,
    folder: &str,
    entries: &[Entry<'_>],
) -> Result<(), Failure>
    ensures room { OnOk result (room.HasRoom (S.files system.old) (drive_number drive) folder.now
        (map changed_by entries.now)) }
    ensures fault { IfErr result (FailsBy (room.IsRoomFault folder.now (map changed_by entries.now))) }
    ensures unchanged { KeepsFiles failure_paths result (S.files system.old) (S.files system.new) }
{
    let names = names_in(system, folder)?;
    for name in names.as_slice() {
        check_name(system, drive, folder, name.as_str(), entries)?;
    }
    check_count(system, drive, folder, names.as_slice(), entries)
}
