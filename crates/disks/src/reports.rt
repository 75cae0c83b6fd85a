// Whether a report would be written over a file of a run.

ghost use Rattle.std.specs.Prelude.{◌≡◌, ◌≤◌, IfErr, IfOk, IfSome, true};
ghost use Rattle.folders.specs.Failures.{KeepsFiles};
ghost use Rattle.folders.specs.Faults.{FailsBy, failure_paths};
ghost use Rattle.disks.specs.Given.{HasPlaces, HaveOneName, IsAnyReadFault, IsNameOf, MayBeWritten};

use crate::clashes::{DISKS, WRITTEN, folders_of};
use crate::ids::{are_same, id_at};
use command_words::Words;
use filenames::{Drive, Key};
use folders::{Failure, FileSystem, Id, Listing, name_in_folder, path_in, read_failure};

/// The folders in which a file is.
#[derive(Clone, Copy, Debug, PartialEq, Eq)]
pub enum Within {
    /// The disks.
    Disks,
    /// The disks, and the folders for changed files.
    Written,
}

impl Within {
    ghost use Rattle.disks.specs.Given.{option_count};

    // Returns how many options give such folders. They are the first ones.
    fn count(self) -> usize
        ensures count { result ≡ option_count self }
        ensures few { result ≤ WRITTEN }
    {
        match self {
            Within::Disks => DISKS,
            Within::Written => WRITTEN,
        }
    }
}

// Returns the folder of a path and the name in it, if there is a name after the last `/`.
fn folder_and_name(path: &str) -> Option<(&str, &str)>
    ensures { IfSome result (λ found. IsNameOf path.now found.1.now) }
{
    match path.rsplit_once('/') {
        Some((_, "")) => None,
        Some(("", name)) => Some(("/", name)),
        Some((folder, name)) => Some((folder, name)),
        None if path.is_empty() => None,
        None => Some((".", path)),
    }
}

// Returns whether two paths have the same name in the same folder. A path that ends with a `/` has no name, and a path in a folder that is
// not there is the same as no other.
fn is_same_place<S: FileSystem>(system: &mut S, one: &str, other: &str) -> Result<bool, Failure>
    ensures name { IfOk result (λ same. same ≡ true → HaveOneName one.now other.now) }
    ensures fault { IfErr result (FailsBy IsAnyReadFault) }
    ensures unchanged { KeepsFiles failure_paths result (S.files system.old) (S.files system.new) }
{
    match (folder_and_name(one), folder_and_name(other)) {
        (Some((folder, name)), Some((other, same))) if name == same => {
            are_same(system, folder, other)
        }
        _ => Ok(false),
    }
}

/// Returns whether two paths are of one file: they have the same name in the same folder, or the same file is at both, as with a link.
///
/// # Errors
///
/// Returns `Err` if the system does not say which file or folder is at a path, or if an allocation fails.
pub fn is_one_file<S: FileSystem>(system: &mut S, one: &str, other: &str) -> Result<bool, Failure>
    ensures fault { IfErr result (FailsBy IsAnyReadFault) }
    ensures unchanged { KeepsFiles failure_paths result (S.files system.old) (S.files system.new) }
{
    if is_same_place(system, one, other)? {
        return Ok(true);
    }
    are_same(system, one, other)
}

// Returns whether this file is one of the host files that were read from a folder.
fn is_read_from<S: FileSystem>(
    system: &mut S,
    folder: &str,
    listing: &Listing,
    id: Id,
) -> Result<bool, Failure>
    ensures fault { IfErr result (FailsBy IsAnyReadFault) }
    ensures unchanged { KeepsFiles failure_paths result (S.files system.old) (S.files system.new) }
{
    let mut after: Option<Key> = None;
    while let Some((key, file)) = listing.files.next_key_value(after) {
        let path = path_in(system.alloc(), folder, file.as_str())?;
        if id_at(system, path.as_str())? == Some(id) {
            return Ok(true);
        }
        after = Some(*key);
    }
    Ok(false)
}

// Returns whether this file is a host file.
fn is_host_file<S: FileSystem>(
    system: &mut S,
    words: &Words<'_>,
    listings: &[Option<Listing>; 4],
    id: Id,
) -> Result<bool, Failure>
    ensures fault { IfErr result (FailsBy IsAnyReadFault) }
    ensures unchanged { KeepsFiles failure_paths result (S.files system.old) (S.files system.new) }
{
    let folders = words.session().files;
    for drive in 0..folders.len() {
        if let (Some(folder), Some(listing)) = (folders[drive], &listings[drive])
            && is_read_from(system, folder, listing, id)?
        {
            return Ok(true);
        }
    }
    Ok(false)
}

/// Returns whether a file at the path of a report, or the one that a link there leads to, is one that the run reads: the program, the
/// script, the edit lines or a host file.
///
/// # Errors
///
/// Returns `Err` if the system does not say which file is at a path, or if an allocation fails.
pub fn report_taken<S: FileSystem>(
    system: &mut S,
    words: &Words<'_>,
    listings: &[Option<Listing>; 4],
    report: &str,
) -> Result<bool, Failure>
    ensures fault { IfErr result (FailsBy IsAnyReadFault) }
    ensures unchanged { KeepsFiles failure_paths result (S.files system.old) (S.files system.new) }
{
    let Some(id) = id_at(system, report)? else {
        return Ok(false);
    };
    for input in [Some(words.program), words.console, words.edits] {
        if let Some(input) = input
            && id_at(system, input)? == Some(id)
        {
            return Ok(true);
        }
    }
    is_host_file(system, words, listings, id)
}

// Returns whether a folder is one of these. A folder that is not there is the same as no other.
fn is_written_to<S: FileSystem>(
    system: &mut S,
    words: &Words<'_>,
    within: Within,
    folder: &str,
) -> Result<bool, Failure>
    ensures places { IfOk result (λ is. is ≡ true → HasPlaces words.now within) }
    ensures fault { IfErr result (FailsBy IsAnyReadFault) }
    ensures unchanged { KeepsFiles failure_paths result (S.files system.old) (S.files system.new) }
{
    let Some(id) = id_at(system, folder)? else {
        return Ok(false);
    };
    let folders = folders_of(words);
    for at in 0..within.count() {
        let (_, written) = folders[at];
        if let Some(written) = written
            && id_at(system, written)? == Some(id)
        {
            return Ok(true);
        }
    }
    Ok(false)
}

// Returns whether this is a file of a folder, under a name that is valid for a file of CP/M.
fn is_valid_file_in<S: FileSystem>(system: &mut S, folder: &str, id: Id) -> Result<bool, Failure>
    ensures fault { IfErr result (FailsBy IsAnyReadFault) }
    ensures unchanged { KeepsFiles failure_paths result (S.files system.old) (S.files system.new) }
{
    let named = String::from_str(system.alloc(), folder)?;
    let names = match system.list(folder) {
        Ok(names) => names,
        Err(error) => return Err(read_failure(error, named)),
    };
    for name in names.as_slice() {
        if name_in_folder(Drive::A, name.as_str()).is_none() {
            continue;
        }
        let path = path_in(system.alloc(), folder, name.as_str())?;
        if id_at(system, path.as_str())? == Some(id) {
            return Ok(true);
        }
    }
    Ok(false)
}

/// Returns whether the file at a path, or the one that a link there leads to, is in a folder for changed files, under a name that is valid for a
/// file of CP/M. On a disk this is a file that the run reads.
///
/// # Errors
///
/// Returns `Err` if the system does not say which files are in a folder or which file is at a path, or if an allocation fails.
pub fn leads_to_written<S: FileSystem>(
    system: &mut S,
    words: &Words<'_>,
    path: &str,
) -> Result<bool, Failure>
    ensures fault { IfErr result (FailsBy IsAnyReadFault) }
    ensures unchanged { KeepsFiles failure_paths result (S.files system.old) (S.files system.new) }
{
    let Some(id) = id_at(system, path)? else {
        return Ok(false);
    };
    for folder in words.out {
        if let Some(folder) = folder
            && id_at(system, folder)?.is_some()
            && is_valid_file_in(system, folder, id)?
        {
            return Ok(true);
        }
    }
    Ok(false)
}

/// Returns whether a run may write a file at this path: the path is in one of these folders, and its name is valid for a file of CP/M, in upper
/// or lower case. Only the path counts: a link at the path is not followed.
///
/// # Errors
///
/// Returns `Err` if the system does not say which folder is at a path, or if an allocation fails.
pub fn may_be_written<S: FileSystem>(
    system: &mut S,
    words: &Words<'_>,
    within: Within,
    path: &str,
) -> Result<bool, Failure>
    ensures allowed { IfOk result (λ may. may ≡ true → MayBeWritten words.now within path.now) }
    ensures fault { IfErr result (FailsBy IsAnyReadFault) }
    ensures unchanged { KeepsFiles failure_paths result (S.files system.old) (S.files system.new) }
{
    match folder_and_name(path) {
        Some((folder, name)) if name_in_folder(Drive::A, name).is_some() => {
            is_written_to(system, words, within, folder)
        }
        _ => Ok(false),
    }
}
