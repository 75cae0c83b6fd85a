// Options with the same folder.

ghost use Rattle.std.specs.Prelude.{◌≡◌, IfErr, IfOk, IfSome, map};
ghost use Rattle.std.specs.List.{Contains};
ghost use Rattle.folders.specs.Failures.{KeepsFiles};
ghost use Rattle.folders.specs.Faults.{FailsBy, failure_paths};
ghost use Rattle.disks.specs.Given as given;
ghost use Rattle.disks.specs.Given.{AreGiven, IsFolderFault, folders_of, seen};

use crate::ids::id_at;
use command_words::{Clash, Words};
use folders::{Failure, FileSystem, Id};

/// How many of the folders are disks. They come first.
pub const DISKS: usize = 4;

/// How many of the folders are written to. They come before the others.
pub const WRITTEN: usize = 8;

/// A folder that was found: which it is, and its option.
#[derive(Clone, Copy)]
struct Found {
    id: Id,
    option: &'static str,
}

#[tactic(auto, unfolding(crate::specs::Given::folders_of))]
/// Returns the folders of the words with their options, as a usage error names these: the disks, the folders for changed files, and the
/// folders of host files.
pub fn folders_of<'a>(words: &Words<'a>) -> [(&'static str, Option<&'a str>); 12]
    ensures { map seen result ≡ folders_of words.now }
{
    [
        ("--disk <DIR>", words.disk[0]),
        ("--disk-b <DIR>", words.disk[1]),
        ("--disk-c <DIR>", words.disk[2]),
        ("--disk-d <DIR>", words.disk[3]),
        ("--out <DIR>", words.out[0]),
        ("--out-b <DIR>", words.out[1]),
        ("--out-c <DIR>", words.out[2]),
        ("--out-d <DIR>", words.out[3]),
        ("--files <DIR>", words.files[0]),
        ("--files-b <DIR>", words.files[1]),
        ("--files-c <DIR>", words.files[2]),
        ("--files-d <DIR>", words.files[3]),
    ]
}

/// Returns the option of the first folder that is this one.
fn option_of(found: &[Found], id: Id) -> Option<&'static str>
    ensures { IfSome result (λ option. Contains (map (λ f. f.option.now) found.now) option.now) }
{
    for folder in found {
        if folder.id == id {
            return Some(folder.option);
        }
    }
    None
}

/// Returns whether a drive has a disk.
pub fn has_disks(words: &Words<'_>) -> bool
    ensures { result ≡ given.has_disks words.now }
{
    words.disk.iter().any(|disk| disk.is_some())
}

/// Returns the first two options with the same folder, if it is a disk or changed files are written into it. Without a disk, a folder may be
/// read and written. A folder that is not there is the same as no other.
///
/// # Errors
///
/// Returns `Err` if the system does not say which folder is at a path, or if an allocation fails.
pub fn same_folders<S: FileSystem>(
    system: &mut S,
    words: &Words<'_>,
) -> Result<Option<Clash>, Failure>
    ensures given { IfOk result (λ clash. IfSome clash (AreGiven words.now)) }
    ensures fault { IfErr result (FailsBy (IsFolderFault words.now)) }
    ensures unchanged { KeepsFiles failure_paths result (S.files system.old) (S.files system.new) }
{
    let folders = folders_of(words);
    let mut found = Vec::new(system.alloc());
    for at in 0..folders.len() {
        let (option, folder) = folders[at];
        let Some(folder) = folder else {
            continue;
        };
        if at >= WRITTEN && !has_disks(words) {
            return Ok(None);
        }
        let Some(id) = id_at(system, folder)? else {
            continue;
        };
        if let Some(other) = option_of(found.as_slice(), id) {
            return Ok(Some(Clash::SameFolder(other, option)));
        }
        if at >= WRITTEN {
            continue;
        }
        let Ok(()) = found.push(Found { id, option }) else {
            return Err(Failure::OutOfMemory);
        };
    }
    Ok(None)
}
