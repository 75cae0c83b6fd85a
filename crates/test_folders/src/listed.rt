// Texts for folders that are read.

use faults::{Fault, Tool, report_fault};
use filenames::Name;
use folders::{Failure, Listing, ReadFolders, SystemFiles, read_folders};
use hostfiles::HostFiles;
use std::alloc::{AllocError, Global};
use std::str::from_utf8;
use std::test::Fail;
use streams::Over;

/// A kind of text for host files.
#[derive(Clone, Copy)]
pub enum Telling {
    /// Their names, each printed after a blank.
    Names,
    /// The names in the folder of drive A under which ended runs left new contents, each after a blank.
    Left,
    /// `both`, if drive C has a file `two` of 130 bytes `y`, and a file `none` of none.
    Both,
}

/// Returns the text for the host files of four folders, or for the error.
pub fn told(
    rt: &HostRuntime,
    folders: [Option<&str>; 4],
    telling: Telling,
) -> Result<String, Fail> {
    match read_folders(&mut SystemFiles::new(rt), &folders) {
        Ok(read) => tell(rt.alloc(), &read, telling),
        Err(failure) => Ok(text(rt.alloc(), failure)?),
    }
}

fn tell(alloc: Global, read: &ReadFolders, telling: Telling) -> Result<String, Fail> {
    match telling {
        Telling::Names => Ok(names(alloc, &read.files)?),
        Telling::Left => Ok(left(alloc, &read.listings[0])?),
        Telling::Both => both(alloc, &read.files),
    }
}

fn left(alloc: Global, listing: &Option<Listing>) -> Result<String, AllocError> {
    let mut list = String::new(alloc);
    if let Some(listing) = listing {
        for name in &listing.left {
            list.push_str(" ")?;
            list.push_str(name.as_str())?;
        }
    }
    Ok(list)
}

fn both(alloc: Global, files: &HostFiles) -> Result<String, Fail> {
    let two = Name::parse("c:two")?;
    let none = Name::parse("c:none")?;
    let told = if are_there(files, &two, &none) {
        "both"
    } else {
        "other"
    };
    Ok(String::from_str(alloc, told)?)
}

/// Returns the text for a failure: the message of a program without its name.
pub fn text(alloc: Global, failure: Failure) -> Result<String, AllocError> {
    let mut err = Over::new(Vec::new(alloc));
    report_fault(Tool::Cpmrun, Fault::from(failure), &mut err);
    let message = err.into_inner();
    let message = from_utf8(message.as_slice()).unwrap_or("");
    String::from_str(
        alloc,
        message
            .trim_start_matches("cpmrun: ")
            .trim_end_matches("\n"),
    )
}

fn names(alloc: Global, files: &HostFiles) -> Result<String, AllocError> {
    let mut list = String::new(alloc);
    push_names(alloc, files, &mut list)?;
    Ok(list)
}

fn push_names(alloc: Global, files: &HostFiles, list: &mut String) -> Result<(), AllocError> {
    let mut after: Option<Name> = None;
    for _ in 0..1024 {
        let Some(name) = files.next(after.as_ref()) else {
            break;
        };
        push_name(alloc, &name, list)?;
        after = Some(name);
    }
    Ok(())
}

fn push_name(alloc: Global, name: &Name, list: &mut String) -> Result<(), AllocError> {
    let printed = format!(in alloc; " {name}")?;
    list.push_str(printed.as_str())
}

fn are_there(files: &HostFiles, two: &Name, none: &Name) -> bool {
    let mut last = [0x1a; 128];
    last[0] = b'y';
    last[1] = b'y';
    files.records(two) == Some(2)
        && files.records(none) == Some(0)
        && files.record(two, 1) == Some(last)
}
