// The host files on which a run depends, as paths.

ghost use Rattle.std.specs.Prelude.{◌≡◌, ◌++◌, OnOk, map, string_bytes};
ghost use Rattle.make_rules.specs.Files as files;

use first_looks::FileSteps;
use folders::{DriveFolder, path_in};
use hostfiles::Key;
use std::alloc::{AllocError, Global};

// Returns whether the directory of a drive was asked for.
fn is_searched(asked: &FileSteps, drive: &DriveFolder<'_>) -> bool
    ensures { result ≡ files.is_searched asked.now drive.now }
{
    asked.directories[drive.listing.drive.number() as usize].is_some()
}

// Returns whether something was asked about the file of this key.
fn is_asked_about(asked: &FileSteps, key: &Key) -> bool
    ensures { result ≡ files.is_asked_about asked.now key.now }
{
    asked.has.contains_key(key)
        || asked.lengths.contains_key(key)
        || asked.records.file(key).is_some()
}

// Adds a file in a folder, if it was asked about, or the directory of the drive.
fn push_file(
    alloc: Global,
    paths: &mut Vec<String>,
    asked: &FileSteps,
    drive: &DriveFolder<'_>,
    name: &str,
    key: &Key,
) -> Result<(), AllocError>
    ensures { OnOk result (map string_bytes paths.new.items
        ≡ map string_bytes paths.old.items ++ files.part_of_file asked.now drive.now name.now key.now) }
{
    if is_searched(asked, drive) || is_asked_about(asked, key) {
        paths.push(path_in(alloc, drive.folder, name)?)?;
    }
    Ok(())
}

// Adds the files in the folder of a drive that were asked about.
fn push_drive_files(
    alloc: Global,
    paths: &mut Vec<String>,
    asked: &FileSteps,
    drive: &Option<DriveFolder<'_>>,
) -> Result<(), AllocError>
    ensures { OnOk result (map string_bytes paths.new.items
        ≡ map string_bytes paths.old.items ++ files.drive_files asked.now drive.now) }
{
    let Some(drive) = drive else {
        return Ok(());
    };
    let mut after: Option<Key> = None;
    while let Some((key, name)) = drive.listing.files.next_key_value(after) {
        push_file(alloc, paths, asked, drive, name.as_str(), key)?;
        after = Some(*key);
    }
    Ok(())
}

/// Adds the files in the folders of the drives that were asked about, in the order of their keys.
pub fn push_files(
    alloc: Global,
    paths: &mut Vec<String>,
    asked: &FileSteps,
    drives: &[Option<DriveFolder<'_>>],
) -> Result<(), AllocError>
    ensures { OnOk result (map string_bytes paths.new.items
        ≡ map string_bytes paths.old.items ++ files.all_files asked.now drives.now) }
{
    for drive in drives {
        push_drive_files(alloc, paths, asked, drive)?;
    }
    Ok(())
}

// Adds the folder of a drive, if its directory was asked for.
fn push_folder(
    alloc: Global,
    paths: &mut Vec<String>,
    asked: &FileSteps,
    drive: &Option<DriveFolder<'_>>,
) -> Result<(), AllocError>
    ensures { OnOk result (map string_bytes paths.new.items
        ≡ map string_bytes paths.old.items ++ files.drive_folder asked.now drive.now) }
{
    let Some(drive) = drive else {
        return Ok(());
    };
    if is_searched(asked, drive) {
        paths.push(path_in(alloc, drive.folder, "")?)?;
    }
    Ok(())
}

/// Adds the folders of the drives whose directories were asked for.
pub fn push_folders(
    alloc: Global,
    paths: &mut Vec<String>,
    asked: &FileSteps,
    drives: &[Option<DriveFolder<'_>>],
) -> Result<(), AllocError>
    ensures { OnOk result (map string_bytes paths.new.items
        ≡ map string_bytes paths.old.items ++ files.all_folders asked.now drives.now) }
{
    for drive in drives {
        push_folder(alloc, paths, asked, drive)?;
    }
    Ok(())
}
