// The folder of a drive, and where its files are.

ghost use Rattle.std.specs.Prelude.{◌≡◌, IfOk, map, option_copied, string_bytes};
ghost use Rattle.folders.specs.DriveFolders.{both, folders_with, seen};
ghost use Rattle.folders.specs.LetterCase.{new_name};
ghost use Rattle.folders.specs.Places as places;

use crate::folder_names::{file_name, path_in};
use crate::listing::Listing;
use filenames::Name;
use std::alloc::{AllocError, Global};

/// The folder of a drive, as it was when its host files were read.
#[derive(Clone, Copy)]
pub struct DriveFolder<'a> {
    /// The path of the folder.
    pub folder: &'a str,
    /// The names of its host files.
    pub listing: &'a Listing,
}

impl<'a> DriveFolder<'a> {
    /// Returns the folders that have names.
    pub fn with_names(
        folders: &[Option<&'a str>; 4],
        listings: &'a [Option<Listing>; 4],
    ) -> [Option<DriveFolder<'a>>; 4]
        ensures { map seen result ≡ folders_with folders.now listings.entry.now }
    {
        let listings = listings.as_slice();
        [
            DriveFolder::with(folders[0], listings[0].as_ref()),
            DriveFolder::with(folders[1], listings[1].as_ref()),
            DriveFolder::with(folders[2], listings[2].as_ref()),
            DriveFolder::with(folders[3], listings[3].as_ref()),
        ]
    }

    // Returns a folder with its names, if there are both.
    fn with(folder: Option<&'a str>, listing: Option<&'a Listing>) -> Option<DriveFolder<'a>>
        ensures { seen result ≡ both folder.entry (option_copied listing.entry) }
    {
        match (folder, listing) {
            (Some(folder), Some(listing)) => Some(DriveFolder { folder, listing }),
            _ => None,
        }
    }

    // Returns the name of a new file: in lower case if most names are.
    fn new_name(&self, alloc: Global, name: &Name) -> Result<String, AllocError>
        ensures { IfOk result (λ file. string_bytes file ≡ new_name self.now.listing.now.lower name.now) }
    {
        let mut file = file_name(alloc, name)?;
        if self.listing.lower {
            file.make_ascii_lowercase();
        }
        Ok(file)
    }

    /// Returns the path of a file: under the name that it has here, or the name of a new file.
    pub fn path_of(&self, alloc: Global, name: &Name) -> Result<String, AllocError>
        ensures { IfOk result (λ path. string_bytes path ≡ places.path_on self.now name.now) }
    {
        if let Some(file) = self.listing.files.get(&name.key()) {
            return path_in(alloc, self.folder, file.as_str());
        }
        let file = self.new_name(alloc, name)?;
        path_in(alloc, self.folder, file.as_str())
    }
}
