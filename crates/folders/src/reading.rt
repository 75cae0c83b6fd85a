// Reading folders as host files.

ghost use Rattle.std.specs.Prelude.{◌≡◌, ◌≢◌, ◌∷◌, ◌++◌, [], ℕ, List, true, false, None, Some, IfOk, IfErr, IfSome, OnOk, OnErr, map, slice_index, string_bytes};
ghost use Rattle.std.specs.FinMap as finmap;
ghost use Rattle.filenames.specs.Drives.{drive_number};
ghost use Rattle.hostfiles.specs.Hosts.{records_in, refusal_of};
ghost use Rattle.folders.specs.FolderNames.{key_in, path_text};
ghost use Rattle.folders.specs.Failures.{KeepsFiles};
ghost use Rattle.folders.specs.Faults.{FailsBy, IsReadFault, failure_paths};
ghost use Rattle.folders.specs.Folders.{AreFromFolders, AreFromFolder, FailsFile, FailsFolder, FailsFolders, FailsListed, FailsListing, FailsName, HaveBytesOf, HasBytesOf, IsEntryFault, RefusesAs, KeepsFilesWhere, FailsAtDrive, ReadsNext, path_of};
ghost use Rattle.folders.specs.DriveFolders.{AreListings, HasNames, ListsDrive};
ghost use Rattle.folders.specs.LetterCase.{prefers_lower};
ghost use Rattle.folders.specs.Listings.{Finds, ListsFolder};
ghost use Rattle.folders.specs.LeftNames.{is_left};
ghost use Rattle.std.specs.List.{filter};

use crate::fault::{Failure, Fault, read_failure};
use crate::file_system::{FileSystem, Kind};
use crate::folder_names::{is_left_name, name_in_folder, path_in};
use crate::letter_case::prefers_lower;
use crate::listing::Listing;
use filenames::{Drive, Key, Name};
use hostfiles::host::FILE_LIMIT;
use hostfiles::{FilesError, HostFiles};
use std::alloc::{AllocError, Global};

/// The largest number of bytes that are read of a file: one more than a host file can have, so that a longer one is refused and
/// not read on.
pub const MOST_READ: u64 = FILE_LIMIT as u64 + 1;

// Sets a host file. If it is refused, nothing changes.
fn set(files: &mut HostFiles, name: Name, bytes: &[u8]) -> Result<(), Failure>
    ensures ok { OnOk result (files.new ≡ finmap.insert files.old name (records_in bytes.now)) }
    ensures err { OnErr result (files.new ≡ files.old) }
    ensures refusal { RefusesAs (refusal_of files.old name bytes.now) name result }
    ensures unfailed { IfErr result (λ failure. failure_paths failure ≡ []) }
{
    match files.set(name, bytes) {
        Ok(()) => Ok(()),
        Err(FilesError::OutOfMemory) => Err(Failure::OutOfMemory),
        Err(refusal) => Err(Failure::AtFault(Fault::Refused(name, refusal.number()))),
    }
}

/// Returns the name of the host file for a file of this name in a drive's folder, if it is one: a regular file and not a link.
pub fn host_file<S: FileSystem>(
    system: &mut S,
    drive: Drive,
    folder: &str,
    file: &str,
) -> Result<Option<Name>, Failure>
    ensures drive { IfOk result
        (λ found. IfSome found (λ name. slice_index name 0 ≡ drive_number drive)) }
    ensures key { IfOk result
        (λ found. IfSome found (λ name. key_in (drive_number drive) file.now ≡ Some name)) }
    ensures finds { IfOk result (λ found. IfSome (S.files system.old).bytes (λ stored.
        Finds stored (drive_number drive) folder.now file.now found)) }
    ensures fault { IfErr result (FailsBy (IsEntryFault (drive_number drive) folder.now file.now)) }
    ensures unchanged { KeepsFiles failure_paths result (S.files system.old) (S.files system.new) }
{
    let Some(name) = name_in_folder(drive, file) else {
        return Ok(None);
    };
    let entry = path_in(system.alloc(), folder, file)?;
    match system.kind(entry.as_str()) {
        Ok(Kind::Regular) => Ok(Some(name)),
        Ok(_) => Ok(None),
        Err(error) => Err(read_failure(error, entry)),
    }
}

// Adds a file of this name in the folder, if it is a host file.
fn add_file<S: FileSystem>(
    system: &mut S,
    folder: &str,
    file: &str,
    listing: &mut Listing,
) -> Result<(), Failure>
    ensures drive { listing.new.drive ≡ listing.old.drive }
    ensures lower { listing.new.lower ≡ listing.old.lower }
    ensures left { listing.new.left ≡ listing.old.left }
    ensures lists { OnOk result (IfSome (S.files system.old).bytes (λ stored. (names : List (List ℕ))
        → ListsFolder stored
        (drive_number listing.old.drive) folder.now names listing.old.files listing.old.duplicate
        → ListsFolder stored (drive_number listing.old.drive) folder.now (names ++ file.now ∷ [])
        listing.new.files listing.new.duplicate)) }
    ensures fault { IfErr result
        (FailsBy (IsEntryFault (drive_number listing.old.drive) folder.now file.now)) }
    ensures unchanged { KeepsFiles failure_paths result (S.files system.old) (S.files system.new) }
{
    let Some(name) = host_file(system, listing.drive, folder, file)? else {
        return Ok(());
    };
    let file = String::from_str(system.alloc(), file)?;
    listing.add(&name, file)?;
    Ok(())
}

/// Returns the names in a folder.
pub fn names_in<S: FileSystem>(system: &mut S, folder: &str) -> Result<Vec<String>, Failure>
    ensures names { IfOk result (λ names. IfSome (S.files system.old).bytes (λ _.
        map string_bytes names.items ≡ (S.files system.old).names folder.now)) }
    ensures fault { IfErr result (FailsBy (IsReadFault folder.now)) }
    ensures unchanged { KeepsFiles failure_paths result (S.files system.old) (S.files system.new) }
{
    let path = String::from_str(system.alloc(), folder)?;
    match system.list(folder) {
        Ok(names) => Ok(names),
        Err(error) => Err(read_failure(error, path)),
    }
}

// Returns the names under which ended runs left new contents, among these.
fn left_names(alloc: Global, names: &[String]) -> Result<Vec<String>, AllocError>
    ensures { IfOk result
        (λ left. map string_bytes left.items ≡ filter is_left (map string_bytes names.now)) }
{
    let mut left = Vec::new(alloc);
    for name in names {
        if is_left_name(name.as_str()) {
            left.push(String::from_str(alloc, name.as_str())?)?;
        }
    }
    Ok(left)
}

// Lists the host files among these names in the folder of a drive.
fn list_names<S: FileSystem>(
    system: &mut S,
    drive: Drive,
    folder: &str,
    names: &[String],
) -> Result<Listing, Failure>
    ensures drive { IfOk result (λ listing. listing.drive ≡ drive) }
    ensures lower { IfOk result
        (λ listing. listing.lower ≡ prefers_lower (drive_number drive) (map string_bytes names.now)) }
    ensures left { IfOk result
        (λ listing. map string_bytes listing.left.items ≡ filter is_left (map string_bytes names.now)) }
    ensures lists { IfOk result (λ listing. IfSome (S.files system.old).bytes (λ stored.
        ListsFolder stored (drive_number drive) folder.now (map string_bytes names.now)
        listing.files listing.duplicate)) }
    ensures fault { IfErr result (FailsBy
        (FailsName (map string_bytes names.now) (drive_number drive) folder.now)) }
    ensures unchanged { KeepsFiles failure_paths result (S.files system.old) (S.files system.new) }
{
    let left = left_names(system.alloc(), names)?;
    let mut listing = Listing::new(system.alloc(), drive, prefers_lower(drive, names), left);
    for name in names {
        add_file(system, folder, name.as_str(), &mut listing)?;
    }
    Ok(listing)
}

// Lists the host files in the folder of a drive, by their names.
fn list<S: FileSystem>(system: &mut S, drive: Drive, folder: &str) -> Result<Listing, Failure>
    ensures drive { IfOk result (λ listing. listing.drive ≡ drive) }
    ensures lower { IfOk result (λ listing. IfSome (S.files system.old).bytes (λ _.
        listing.lower ≡ prefers_lower (drive_number drive) ((S.files system.old).names folder.now))) }
    ensures left { IfOk result (λ listing. IfSome (S.files system.old).bytes (λ _.
        map string_bytes listing.left.items ≡ filter is_left ((S.files system.old).names folder.now))) }
    ensures lists { IfOk result (λ listing. IfSome (S.files system.old).bytes (λ stored.
        ListsFolder stored (drive_number drive) folder.now ((S.files system.old).names folder.now)
        listing.files listing.duplicate)) }
    ensures fault { IfErr result
        (FailsBy (FailsListing (S.files system.old) (drive_number drive) folder.now)) }
    ensures unchanged { KeepsFiles failure_paths result (S.files system.old) (S.files system.new) }
{
    let names = names_in(system, folder)?;
    list_names(system, drive, folder, names.as_slice())
}

// Reads a file of a folder and sets it under a name. An error sets nothing.
fn read_one<S: FileSystem>(
    system: &mut S,
    folder: &str,
    file: &str,
    name: Name,
    files: &mut HostFiles,
) -> Result<(), Failure>
    ensures others { KeepsFilesWhere (λ k. k ≢ name) files.old files.new }
    ensures there { OnOk result (finmap.contains_key files.new name ≡ true) }
    ensures read { OnOk result (IfSome (S.files system.old).bytes (λ stored.
        HasBytesOf stored (path_text folder.now file.now) (finmap.get files.new name))) }
    ensures err { OnErr result (files.new ≡ files.old) }
    ensures fault { IfErr result
        (FailsBy (FailsFile (S.files system.old).bytes (path_text folder.now file.now)
        files.old name)) }
    ensures unchanged { KeepsFiles failure_paths result (S.files system.old) (S.files system.new) }
{
    let path = path_in(system.alloc(), folder, file)?;
    match system.read(path.as_str(), MOST_READ) {
        Ok(bytes) => set(files, name, bytes.as_slice()),
        Err(error) => Err(read_failure(error, path)),
    }
}

// Reads the files of a listing in the order of their keys, up to the first that cannot be read or set.
fn read_listed<S: FileSystem>(
    system: &mut S,
    folder: &str,
    listing: &Listing,
    files: &mut HostFiles,
) -> Result<(), Failure>
    requires alone { listing.now.duplicate ≡ None }
    ensures others { KeepsFilesWhere
        (λ k. finmap.contains_key listing.now.files k ≡ false) files.old files.new }
    ensures read { OnOk result
        (HaveBytesOf (S.files system.old).bytes folder.now listing.now.files files.new) }
    ensures fault { IfErr result (FailsBy (FailsListed (S.files system.old).bytes folder.now
        listing.now.files files.new)) }
    ensures unchanged { KeepsFiles failure_paths result (S.files system.old) (S.files system.new) }
{
    let mut after: Option<Key> = None;
    while let Some((key, file)) = listing.files.next_key_value(after) {
        read_one(
            system,
            folder,
            file.as_str(),
            Name::from_valid_key(key),
            files,
        )?;
        after = Some(*key);
    }
    Ok(())
}

/// Reads the folder of a drive that has no files yet: each regular file in it with a valid name. Links and all else are ignored,
/// but an entry that cannot be listed, such as one whose name is not UTF-8, is an error of the folder. It is an error if two
/// files have the same name, and then no file is read. Files are set in the order of their keys, up to the first that cannot be
/// read or set. Names on other drives stay unchanged. Returns the names of its files.
pub fn read_folder<S: FileSystem>(
    system: &mut S,
    drive: Drive,
    folder: &str,
    files: &mut HostFiles,
) -> Result<Listing, Failure>
    requires { (k : List ℕ) → slice_index k 0 ≡ drive_number drive
        → finmap.contains_key files.old k ≡ false }
    ensures others { KeepsFilesWhere (λ k. slice_index k 0 ≢ drive_number drive) files.old files.new }
    ensures read { OnOk result (IfSome (S.files system.old).bytes (λ stored.
        AreFromFolder stored ((S.files system.old).names folder.now)
        (drive_number drive) folder.now files.new)) }
    ensures names { IfOk result (λ listing. IfSome (S.files system.old).bytes (λ stored.
        HasNames stored (S.files system.old).names (drive_number drive) folder.now listing)) }
    ensures fault { IfErr result (FailsBy (FailsFolder (S.files system.old)
        (drive_number drive) folder.now files.new)) }
    ensures unchanged { KeepsFiles failure_paths result (S.files system.old) (S.files system.new) }
{
    let listing = list(system, drive, folder)?;
    if let Some(name) = listing.duplicate {
        return Err(Failure::AtFault(Fault::TwoFiles(name)));
    }
    read_listed(system, folder, &listing, files)?;
    Ok(listing)
}

// Reads the folder of a drive that has no files yet, if it has a folder.
fn read_drive<S: FileSystem>(
    system: &mut S,
    drive: Drive,
    folder: Option<&str>,
    files: &mut HostFiles,
) -> Result<Option<Listing>, Failure>
    requires { (k : List ℕ) → slice_index k 0 ≡ drive_number drive
        → finmap.contains_key files.old k ≡ false }
    ensures read { OnOk result (ReadsNext (S.files system.old)
        (drive_number drive) (path_of folder.entry) files.old files.new) }
    ensures names { IfOk result (λ found. IfSome (S.files system.old).bytes (λ stored.
        ListsDrive stored (S.files system.old).names (drive_number drive) (path_of folder.entry) found)) }
    ensures fault { IfErr result (FailsAtDrive (S.files system.old)
        (drive_number drive) (path_of folder.entry) files.old) }
    ensures unchanged { KeepsFiles failure_paths result (S.files system.old) (S.files system.new) }
{
    match folder {
        Some(folder) => Ok(Some(read_folder(system, drive, folder, files)?)),
        None => Ok(None),
    }
}

/// The host files of the drives A to D, and their names in the folders from which they were read.
#[derive(Drop)]
pub struct ReadFolders {
    /// The host files.
    pub files: HostFiles,
    /// The names in the folder of each drive, if it has one.
    pub listings: [Option<Listing>; 4],
}

/// Returns exactly the host files in the folders of the drives A to D, as far as they have folders, and their names there. The folders are read
/// in this order; the files of a folder are all listed before one of them is read.
pub fn read_folders<S: FileSystem>(
    system: &mut S,
    folders: &[Option<&str>; 4],
) -> Result<ReadFolders, Failure>
    ensures files { IfOk result (λ read. AreFromFolders (S.files system.old) folders.now read.files) }
    ensures names { IfOk result (λ read. AreListings (S.files system.old) folders.now read.listings) }
    ensures fault { IfErr result (FailsFolders (S.files system.old) folders.now) }
    ensures unchanged { KeepsFiles failure_paths result (S.files system.old) (S.files system.new) }
{
    let mut files = HostFiles::new(system.alloc());
    let a = read_drive(system, Drive::A, folders[0], &mut files)?;
    let b = read_drive(system, Drive::B, folders[1], &mut files)?;
    let c = read_drive(system, Drive::C, folders[2], &mut files)?;
    let d = read_drive(system, Drive::D, folders[3], &mut files)?;
    Ok(ReadFolders {
        files,
        listings: [a, b, c, d],
    })
}
