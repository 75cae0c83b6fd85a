// Files that a run made, and that are written.

use crate::listed::text;
use crate::planned::text_of;
use filenames::{Drive, Name};
use folders::{
    DriveFolder, Failure, FileSystem, Listing, Places, SystemFiles, Written, name_in_folder,
    read_folders, write_failure,
};
use hostfiles::{FileView, Gap, HostFiles, Journal};
use plan::{Before, Durable, Plan, carry_out_each};
use std::alloc::{AllocError, Global};
use std::io::ErrorKind;
use std::test::Fail;
use std::{fs, io};
use streams::write_all;

/// The contents that are written, and the place.
#[derive(Clone, Copy)]
pub enum How {
    /// Two records with a hole between them, into the folder.
    WithAHole,
    /// No record, into the folder of the file's drive: this one for drive B, none for A and C, and for D one that is not there.
    ToItsDrive,
}

/// Writes a file that a run made, and returns the text for the error, empty if there is none.
pub fn wrote(rt: &HostRuntime, folder: &str, name: &str, how: How) -> Result<String, Fail> {
    let name = Name::parse(name)?;
    let mut journal = Journal::new(rt.alloc());
    made_and_wrote(rt, folder, &mut journal, &name, how)
}

fn made_and_wrote(
    rt: &HostRuntime,
    folder: &str,
    journal: &mut Journal,
    name: &Name,
    how: How,
) -> Result<String, Fail> {
    make(journal, name, how)?;
    Ok(write(rt, folder, journal, name, how)?)
}

fn make(journal: &mut Journal, name: &Name, how: How) -> Result<(), AllocError> {
    journal.make(&name.key())?;
    match how {
        How::WithAHole => write_apart(journal, name),
        How::ToItsDrive => Ok(()),
    }
}

fn write_apart(journal: &mut Journal, name: &Name) -> Result<(), AllocError> {
    journal.write(&name.key(), 0, 0, &[1; 128], Gap::Holes)?;
    journal.write(&name.key(), 1, 2, &[3; 128], Gap::Holes)
}

fn write(
    rt: &HostRuntime,
    folder: &str,
    journal: &Journal,
    name: &Name,
    how: How,
) -> Result<String, AllocError> {
    let host = HostFiles::new(rt.alloc());
    let file = FileView::find(&host, journal, &name.key());
    if !file.is_there() {
        return String::from_str(rt.alloc(), "no such file");
    }
    let folders = [None, Some(folder), None, Some("/none")];
    let mut system = SystemFiles::new(rt);
    let folders = match how {
        How::WithAHole => [Some(folder); 4],
        How::ToItsDrive => folders,
    };
    let answer = write_at_place(&mut system, folders, name, file);
    text_of(rt.alloc(), answer)
}

fn write_at_place<S: FileSystem>(
    system: &mut S,
    out: [Option<&str>; 4],
    name: &Name,
    file: FileView<'_>,
) -> Result<(), Failure> {
    let places = Places {
        out,
        disks: [None; 4],
    };
    match places.path_of(system.alloc(), name) {
        Ok(Some(path)) => {
            let mut plan = Plan::new(system.alloc());
            plan.put(system, path, Before::Any, Written::File(file))?;
            carry_out_each(system, plan, Durable::Expected)
        }
        Ok(None) => Ok(()),
        Err(_) => Err(Failure::OutOfMemory),
    }
}

/// Writes pieces to what is at a path, one after another, and returns the text for the error, empty if there is none.
pub fn wrote_pieces(rt: &HostRuntime, path: &str, pieces: &[&[u8]]) -> Result<String, Fail> {
    let named = String::from_str(rt.alloc(), path)?;
    let answer = match write_pieces(&mut SystemFiles::new(rt), path, pieces) {
        Ok(()) => Ok(()),
        Err(error) => Err(write_failure(error, named)),
    };
    Ok(text_of(rt.alloc(), answer)?)
}

// Stops at the first piece that is not written.
fn write_pieces<S: FileSystem>(system: &mut S, path: &str, pieces: &[&[u8]]) -> io::Result<()> {
    let mut output = system.create(path)?;
    for piece in pieces {
        if write_all(&mut output, piece).is_err() {
            break;
        }
    }
    system.close(path, output)
}

/// Returns the path of a file in a folder that is the disk of its drive, or the text for the error.
pub fn place(rt: &HostRuntime, folder: &str, name: &str) -> Result<String, Fail> {
    let mut system = SystemFiles::new(rt);
    let name = Name::parse(name)?;
    match read_folders(&mut system, &[Some(folder); 4]) {
        Ok(read) => Ok(place_on(rt.alloc(), folder, &read.listings, &name)?),
        Err(failure) => Ok(text(rt.alloc(), failure)?),
    }
}

fn place_on<'a>(
    alloc: Global,
    folder: &'a str,
    listings: &'a [Option<Listing>; 4],
    name: &Name,
) -> Result<String, AllocError> {
    let places = Places {
        out: [None; 4],
        disks: DriveFolder::with_names(&[Some(folder); 4], listings),
    };
    place_in(alloc, &places, name)
}

// Returns the path at which a file is written, if it is removed from there too.
fn place_in(alloc: Global, places: &Places<'_>, name: &Name) -> Result<String, AllocError> {
    let Some(written) = places.path_of(alloc, name)? else {
        return String::from_str(alloc, "written nowhere");
    };
    let Some(removed) = places.removed_path_of(alloc, name)? else {
        return String::from_str(alloc, "removed from nowhere");
    };
    if written.as_str() == removed.as_str() {
        return Ok(written);
    }
    String::from_str(alloc, "removed from another place")
}

/// Returns whether a file has two records, and zeros for the hole between them.
pub fn has_a_hole(rt: &HostRuntime, path: &str) -> Result<bool, Fail> {
    let bytes = fs::read(rt, path)?;
    Ok(are_apart(bytes.as_slice()))
}

fn are_apart(bytes: &[u8]) -> bool {
    let mut wanted = [1; 384];
    wanted[128..256].fill(0);
    wanted[256..].fill(3);
    bytes == wanted.as_slice()
}

/// Returns whether a file has these bytes.
pub fn holds(rt: &HostRuntime, path: &str, wanted: &[u8]) -> Result<bool, Fail> {
    let bytes = fs::read(rt, path)?;
    Ok(bytes.as_slice() == wanted)
}

/// Returns whether nothing is at a path, not even a link.
pub fn lacks(rt: &HostRuntime, path: &str) -> Result<bool, Fail> {
    match fs::symlink_metadata(rt, path) {
        Ok(_) => Ok(false),
        Err(error) if error.kind() == ErrorKind::NotFound => Ok(true),
        Err(error) => Err(Fail::from(error)),
    }
}

/// Returns whether a name is ignored when a folder is read.
pub fn is_passed_over(file: &str) -> bool {
    for drive in Drive::ALL {
        if name_in_folder(drive, file).is_some() {
            return false;
        }
    }
    true
}
