// Acts in the folder of a test, and the expected results.

use crate::listed::{Telling, told};
use crate::planned::{Manner, Part, did};
use crate::written::{How, has_a_hole, holds, lacks, place, wrote, wrote_pieces};
use std::alloc::{AllocError, Global};
use std::os::unix::fs::symlink;
use std::test::Fail;
use std::{fs, process};

/// An act or a question of a test. Each begins with a path in the folder of the test; an empty path is that folder.
#[derive(Clone, Copy)]
pub enum Act<'a> {
    /// A file of these bytes.
    Put(&'a str, &'a [u8]),
    /// A sparse file of this many zeros.
    PutSparse(&'a str, u64),
    /// A folder of this many empty files.
    PutMany(&'a str, u32),
    MakeFolder(&'a str),
    /// The removal of an empty folder.
    RemoveFolder(&'a str),
    /// A symbolic link that leads to the second path.
    Link(&'a str, &'a str),
    /// The text for a folder that is read as the folder of a drive, counted from 0, or of no drive.
    Tells(&'a str, Option<usize>, Text<'a>),
    /// The names in the folder under which ended runs left new contents.
    TellsLeft(&'a str, Text<'a>),
    /// The text if another folder is read as the folder of drive B.
    TellsBoth(&'a str, &'a str, Text<'a>),
    /// A folder for drive C with a file `two` of two records and a file `none` of none.
    HasBoth(&'a str),
    /// The text after the file of this name, which a run made, is written.
    Writes(&'a str, &'a str, How, Text<'a>),
    /// The text after these pieces are written to what is at the path, one after another.
    Streams(&'a str, &'a [&'a [u8]], Text<'a>),
    /// The path at which the file of this name is written if the folder is the disk of its drive, or the text of the error.
    Place(&'a str, &'a str, Text<'a>),
    /// The text after the deeds of one plan. Their paths are in the folder of the test.
    Does(&'a [Part<'a>], Text<'a>),
    /// The same if they are done one after another.
    DoesEach(&'a [Part<'a>], Text<'a>),
    /// A written file that has two records, and zeros for the hole between them.
    HasAHole(&'a str),
    /// A file with these bytes.
    Holds(&'a str, &'a [u8]),
    /// A path where nothing is.
    Lacks(&'a str),
}

use Act::{
    Does, DoesEach, HasAHole, HasBoth, Holds, Lacks, Link, MakeFolder, Place, Put, PutMany,
    PutSparse, RemoveFolder, Streams, Tells, TellsBoth, TellsLeft, Writes,
};

/// The expected text.
#[derive(Clone, Copy)]
pub enum Text<'a> {
    /// This text.
    Is(&'a str),
    /// The path of the test's folder between these two texts.
    Around(&'a str, &'a str),
}

/// Acts in an empty folder.
#[derive(Clone, Copy)]
pub struct Case<'a> {
    /// What they show; also the end of the folder's name.
    pub name: &'a str,
    pub acts: &'a [Act<'a>],
}

/// Executes the acts of each case, and removes its folder.
pub fn play(rt: &HostRuntime, cases: &[Case<'_>]) -> Result<(), Fail> {
    for case in cases {
        play_case(rt, case)?;
    }
    Ok(())
}

fn play_case(rt: &HostRuntime, case: &Case<'_>) -> Result<(), Fail> {
    let folder = make_folder(rt, case.name)?;
    let wrong = first_wrong(rt, folder.as_str(), case.acts)?;
    let _ = fs::remove_dir_all(rt, folder.as_str());
    if wrong != 0 {
        return Err(Fail::new(format_args!("{}: act {wrong}", case.name)));
    }
    Ok(())
}

/// Makes an empty folder for a case of this name, and returns its path.
pub fn make_folder(rt: &HostRuntime, name: &str) -> Result<String, Fail> {
    let id = process::id(rt.process());
    let path = format!(in rt.alloc(); "/tmp/vembrusk-{id} {name}")?;
    make_empty(rt, path.as_str())?;
    Ok(path)
}

fn make_empty(rt: &HostRuntime, path: &str) -> Result<(), Fail> {
    let _ = fs::remove_dir_all(rt, path);
    fs::create_dir_all(rt, path)?;
    Ok(())
}

// Returns the number of the first act, counted from 1, with another result, or 0 if there is none.
fn first_wrong(rt: &HostRuntime, folder: &str, acts: &[Act<'_>]) -> Result<u32, Fail> {
    let mut number: u32 = 0;
    for act in acts {
        number = number.wrapping_add(1);
        if !execute(rt, folder, *act)? {
            return Ok(number);
        }
    }
    Ok(0)
}

// Executes an act, and returns whether the result is as expected.
fn execute(rt: &HostRuntime, folder: &str, act: Act<'_>) -> Result<bool, Fail> {
    let path = path_in(rt.alloc(), folder, place_of(act))?;
    execute_at(rt, folder, path.as_str(), act)
}

fn path_in(alloc: Global, folder: &str, place: &str) -> Result<String, AllocError> {
    if place.is_empty() {
        return String::from_str(alloc, folder);
    }
    format!(in alloc; "{folder}/{place}")
}

fn place_of(act: Act<'_>) -> &str {
    match act {
        Put(place, _) | PutSparse(place, _) | PutMany(place, _) => place,
        MakeFolder(place) | RemoveFolder(place) | Link(place, _) => place,
        Tells(place, _, _) | TellsBoth(place, _, _) | HasBoth(place) => place,
        TellsLeft(place, _) => place,
        Writes(place, _, _, _) | HasAHole(place) | Holds(place, _) | Lacks(place) => place,
        Place(place, _, _) | Streams(place, _, _) => place,
        Does(_, _) | DoesEach(_, _) => "",
    }
}

fn execute_at(rt: &HostRuntime, folder: &str, path: &str, act: Act<'_>) -> Result<bool, Fail> {
    match act {
        Put(_, bytes) => fs::write(rt, path, bytes)?,
        PutSparse(_, len) => put_sparse(rt, path, len)?,
        PutMany(_, count) => put_many(rt, path, count)?,
        MakeFolder(_) => fs::create_dir(rt, path)?,
        RemoveFolder(_) => fs::remove_dir(rt, path)?,
        Link(_, target) => symlink(rt, target, path)?,
        _ => return answers(rt, folder, path, act),
    }
    Ok(true)
}

fn put_sparse(rt: &HostRuntime, path: &str, len: u64) -> Result<(), Fail> {
    fs::create(rt, path)?.set_len(len)?;
    Ok(())
}

fn put_many(rt: &HostRuntime, folder: &str, count: u32) -> Result<(), Fail> {
    fs::create_dir(rt, folder)?;
    for number in 0..count {
        put_empty(rt, folder, number)?;
    }
    Ok(())
}

fn put_empty(rt: &HostRuntime, folder: &str, number: u32) -> Result<(), Fail> {
    let path = format!(in rt.alloc(); "{folder}/f{number:03}")?;
    fs::write(rt, path.as_str(), b"".as_slice())?;
    Ok(())
}

fn answers(rt: &HostRuntime, folder: &str, path: &str, act: Act<'_>) -> Result<bool, Fail> {
    match act {
        Tells(_, drive, text) => tells(rt, folder, on_drive(drive, path), text),
        TellsLeft(_, text) => {
            let found = told(rt, on_drive(Some(0), path), Telling::Left)?;
            Ok(is_text(found.as_str(), folder, text))
        }
        TellsBoth(_, place, text) => tells_both(rt, folder, path, place, text),
        HasBoth(_) => has_both(rt, path),
        Writes(_, name, how, text) => writes(rt, folder, path, name, how, text),
        Streams(_, pieces, text) => {
            let found = wrote_pieces(rt, path, pieces)?;
            Ok(is_text(found.as_str(), folder, text))
        }
        Place(_, name, text) => {
            let found = place(rt, path, name)?;
            Ok(is_text(found.as_str(), folder, text))
        }
        Does(parts, text) => does(rt, folder, parts, Manner::AsAWhole, text),
        DoesEach(parts, text) => does(rt, folder, parts, Manner::OneByOne, text),
        HasAHole(_) => has_a_hole(rt, path),
        Holds(_, bytes) => holds(rt, path, bytes),
        Lacks(_) => lacks(rt, path),
        _ => Ok(false),
    }
}

// Returns a folder as the folder of a drive, with none for the others.
fn on_drive(drive: Option<usize>, path: &str) -> [Option<&str>; 4] {
    let mut folders = [None; 4];
    if let Some(place) = drive
        && place < 4
    {
        folders[place] = Some(path);
    }
    folders
}

fn tells(
    rt: &HostRuntime,
    folder: &str,
    folders: [Option<&str>; 4],
    wanted: Text<'_>,
) -> Result<bool, Fail> {
    let found = told(rt, folders, Telling::Names)?;
    Ok(is_text(found.as_str(), folder, wanted))
}

fn tells_both(
    rt: &HostRuntime,
    folder: &str,
    first: &str,
    place: &str,
    wanted: Text<'_>,
) -> Result<bool, Fail> {
    let second = path_in(rt.alloc(), folder, place)?;
    tells(rt, folder, on_two_drives(first, second.as_str()), wanted)
}

// Returns two folders as the folders of drives A and B.
fn on_two_drives<'a>(first: &'a str, second: &'a str) -> [Option<&'a str>; 4] {
    [Some(first), Some(second), None, None]
}

fn writes(
    rt: &HostRuntime,
    folder: &str,
    path: &str,
    name: &str,
    how: How,
    wanted: Text<'_>,
) -> Result<bool, Fail> {
    let found = wrote(rt, path, name, how)?;
    Ok(is_text(found.as_str(), folder, wanted))
}

fn does(
    rt: &HostRuntime,
    folder: &str,
    parts: &[Part<'_>],
    manner: Manner,
    wanted: Text<'_>,
) -> Result<bool, Fail> {
    let found = did(rt, folder, parts, manner)?;
    Ok(is_text(found.as_str(), folder, wanted))
}

fn has_both(rt: &HostRuntime, path: &str) -> Result<bool, Fail> {
    let found = told(rt, on_drive(Some(2), path), Telling::Both)?;
    Ok(found.as_str() == "both")
}

fn is_text(found: &str, folder: &str, wanted: Text<'_>) -> bool {
    match wanted {
        Text::Is(text) => found == text,
        Text::Around(before, after) => are_joined(found.as_bytes(), before, folder, after),
    }
}

// Returns whether a text is these three, one after the other.
fn are_joined(found: &[u8], first: &str, second: &str, third: &str) -> bool {
    match found.strip_prefix(first.as_bytes()) {
        Some(rest) => rest.strip_prefix(second.as_bytes()) == Some(third.as_bytes()),
        None => false,
    }
}
