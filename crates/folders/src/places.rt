// Where the changed files of a run are written.

ghost use Rattle.std.specs.Prelude.{◌≡◌, IfOk, option_map, string_bytes};
ghost use Rattle.filenames.specs.Drives.{drive_number};
ghost use Rattle.folders.specs.Places as places;

use crate::drive_folder::DriveFolder;
use crate::folder_names::{file_name, path_in};
use filenames::{Drive, Name};
use std::alloc::{AllocError, Global};

/// Where the changed files of each drive, A to D, are written. On a disk each file keeps the name that it has there, a new file gets a name
/// in the case of most names there, and a file that is gone is removed. The words of a command line give no drive both.
#[derive(Clone, Copy)]
pub struct Places<'a> {
    /// The folders into which changed files are written.
    pub out: [Option<&'a str>; 4],
    /// The folders that are disks.
    pub disks: [Option<DriveFolder<'a>>; 4],
}

impl<'a> Places<'a> {
    /// Returns whether a drive has a disk.
    pub fn has_disk(&self, drive: Drive) -> bool
        ensures { result ≡ places.has_disk self.now (drive_number drive) }
    {
        matches!(self.disks.get(drive.number() as usize), Some(Some(_)))
    }

    /// Returns the path from which a file that is gone is removed, or `None` if its drive has no disk.
    pub fn removed_path_of(&self, alloc: Global, name: &Name) -> Result<Option<String>, AllocError>
        ensures { IfOk result
            (λ path. option_map string_bytes path ≡ places.removed_place_of self.now name.now) }
    {
        match self.disks.get(name.drive().number() as usize) {
            Some(Some(disk)) => Ok(Some(disk.path_of(alloc, name)?)),
            _ => Ok(None),
        }
    }

    /// Returns the path at which a file is written, or `None` if its drive has no folder for that.
    pub fn path_of(&self, alloc: Global, name: &Name) -> Result<Option<String>, AllocError>
        ensures { IfOk result (λ path. option_map string_bytes path ≡ places.place_of self.now name.now) }
    {
        if let Some(path) = self.removed_path_of(alloc, name)? {
            return Ok(Some(path));
        }
        let Some(folder) = self.out[name.drive().number() as usize] else {
            return Ok(None);
        };
        let file = file_name(alloc, name)?;
        Ok(Some(path_in(alloc, folder, file.as_str())?))
    }
}
