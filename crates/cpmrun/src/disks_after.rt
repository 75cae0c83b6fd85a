// What becomes of the disks of a run.

ghost use Rattle.std.specs.Prelude.{◌≡◌, IfErr, is_some, OnOk, map, true};
ghost use Rattle.std.specs.List.{list_any};
ghost use Rattle.dependencies.specs.Dependencies.{AreDependencies};
ghost use Rattle.disks.specs.Given.{has_disks};
ghost use Rattle.filenames.specs.Drives.{drive_number};
ghost use Rattle.folders.specs.Failures.{KeepsFiles};
ghost use Rattle.folders.specs.Faults.{FailsBy, failure_paths};
ghost use Rattle.faults.specs.Faults.{file_paths};
ghost use Rattle.machine.specs.PlainState.{plain_run};
ghost use Rattle.one_run.specs.ChangedList.{changed_by};
ghost use Rattle.one_run.specs.Room.{IsRoomFault};
ghost use Rattle.cpmrun.specs.RunEnds as run_ends;

use command_words::Words;
use dependencies::bios_look;
use disks::has_disks;
use filenames::Drive;
use folders::{DriveFolder, Failure, Fault as FolderFault, FileSystem};
use machine::{Cause, WholeRun};
use one_run::{Disks, Entry, check_room, first_unplaced, stop_status};
use requests::Fault;

/// Returns the cell at which a run with disks looked for the BIOS before its warm start.
pub fn looked_for(words: &Words<'_>, run: &WholeRun<'_>) -> Option<u16>
    requires { has_disks words.now ≡ true
        → AreDependencies run.now.session.now run.now.looks run.now.steps run.now.cause }
    ensures { result ≡ run_ends.looked_for words.now run.now.session.now }
{
    if has_disks(words) && matches!(run.cause(), Cause::WarmBoot) {
        bios_look(run)
    } else {
        None
    }
}

/// Returns what becomes of the disks after a run that stopped by this cause, and looked for the BIOS at this cell.
pub fn disks_after(words: &Words<'_>, cause: Cause, looked: Option<u16>) -> Disks
    ensures { result ≡ run_ends.disks_after words.now cause looked }
{
    if !has_disks(words) {
        Disks::Absent
    } else if words.partial || matches!((cause, looked), (Cause::WarmBoot, None)) {
        Disks::Changed
    } else {
        Disks::Unchanged
    }
}

// Returns whether there is a folder that was not synced.
fn is_any_unsynced(unsynced: &[Option<&str>]) -> bool
    ensures { result ≡ list_any is_some unsynced.now }
{
    unsynced.iter().any(|folder| folder.is_some())
}

/// Returns the exit status of a run.
pub fn exit_status(cause: Cause, looked: Option<u16>, unsynced: &[Option<&str>; 8]) -> u8
    ensures { result ≡ run_ends.exit_status cause looked unsynced.now }
{
    if is_any_unsynced(unsynced.as_slice()) {
        return 1;
    }
    match looked {
        Some(_) => 6,
        None => stop_status(cause),
    }
}

// Checks that the folder of a disk has room for the changed files, if the drive has a disk.
fn check_drive<S: FileSystem>(
    system: &mut S,
    drive: Drive,
    disk: &Option<DriveFolder<'_>>,
    entries: &[Entry<'_>],
) -> Result<(), Failure>
    ensures room { OnOk result (run_ends.HasRoomOn (S.files system.old) disk.now
        (map changed_by entries.now) (drive_number drive)) }
    ensures fault { IfErr result (FailsBy (run_ends.HasNoRoom (map changed_by entries.now))) }
    ensures unchanged { KeepsFiles failure_paths result (S.files system.old) (S.files system.new) }
{
    match disk {
        Some(disk) => check_room(system, drive, disk.folder, entries),
        None => Ok(()),
    }
}

/// Checks what disks need if they are changed: each changed file has a place, since a file that the program moved to a drive without one would
/// be lost, and the folder of each disk has room for its files.
pub fn check_disks<'a, S: FileSystem>(
    system: &mut S,
    disks: Disks,
    folders: &[Option<DriveFolder<'_>>; 4],
    entries: &[Entry<'_>],
) -> Result<(), Fault<'a>>
    ensures fit { OnOk result (disks ≡ Disks.Changed
        → run_ends.Fit (S.files system.old) folders.now (map changed_by entries.now)) }
    ensures fault { IfErr result (run_ends.IsUnfit disks (map changed_by entries.now)) }
    ensures unchanged { KeepsFiles file_paths result (S.files system.old) (S.files system.new) }
{
    if !matches!(disks, Disks::Changed) {
        return Ok(());
    }
    if let Some(name) = first_unplaced(entries) {
        return Err(Fault::Folders(FolderFault::NoFolder(name)));
    }
    let folders = folders.as_slice();
    check_drive(system, Drive::A, &folders[0], entries)?;
    check_drive(system, Drive::B, &folders[1], entries)?;
    check_drive(system, Drive::C, &folders[2], entries)?;
    check_drive(system, Drive::D, &folders[3], entries)?;
    Ok(())
}

/// The written folders of the drives that have not been synced, though this was tried.
#[derive(Clone, Copy, Debug, PartialEq, Eq)]
pub struct Unsynced {
    /// The folders for changed files.
    pub out: [bool; 4],
    /// The disks.
    pub disks: [bool; 4],
}

impl Unsynced {
    /// No folder.
    pub const NONE: Unsynced = Unsynced {
        out: [false; 4],
        disks: [false; 4],
    };
}

// Returns this folder if it was not synced.
fn if_unsynced(folder: Option<&str>, unsynced: bool) -> Option<&str>
    ensures { result ≡ run_ends.if_unsynced folder.entry unsynced }
{
    if unsynced { folder } else { None }
}

/// Returns the paths of the folders that were not synced.
pub fn unsynced_folders<'a>(words: &Words<'a>, unsynced: Unsynced) -> [Option<&'a str>; 8]
    ensures { result ≡ run_ends.unsynced_folders words.now unsynced }
{
    [
        if_unsynced(words.out[0], unsynced.out[0]),
        if_unsynced(words.out[1], unsynced.out[1]),
        if_unsynced(words.out[2], unsynced.out[2]),
        if_unsynced(words.out[3], unsynced.out[3]),
        if_unsynced(words.disk[0], unsynced.disks[0]),
        if_unsynced(words.disk[1], unsynced.disks[1]),
        if_unsynced(words.disk[2], unsynced.disks[2]),
        if_unsynced(words.disk[3], unsynced.disks[3]),
    ]
}

// Returns whether a changed file of this drive is written or removed.
fn is_changed(drive: Drive, entries: &[Entry<'_>]) -> bool {
    entries.iter().any(|entry| entry.path.is_some() && entry.name.drive() == drive)
}

// Syncs the folder of a drive, if it has one and a changed file is written there or removed from there. Returns whether that failed.
fn is_unsynced<S: FileSystem>(
    system: &mut S,
    folder: Option<&str>,
    drive: Drive,
    entries: &[Entry<'_>],
) -> bool
    ensures { S.files system.new ≡ S.files system.old }
{
    match folder {
        Some(folder) if is_changed(drive, entries) => !system.sync(folder),
        _ => false,
    }
}

/// Makes the names in folders of the drives outlast a power failure, if files in them are changed. Returns for which this failed.
pub fn sync_drives<S: FileSystem>(
    system: &mut S,
    folders: &[Option<&str>; 4],
    entries: &[Entry<'_>],
) -> [bool; 4]
    ensures { S.files system.new ≡ S.files system.old }
{
    [
        is_unsynced(system, folders[0], Drive::A, entries),
        is_unsynced(system, folders[1], Drive::B, entries),
        is_unsynced(system, folders[2], Drive::C, entries),
        is_unsynced(system, folders[3], Drive::D, entries),
    ]
}
