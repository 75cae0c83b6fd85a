// Deeds of a plan.

use crate::listed::text;
use folders::{Failure, FileSystem, SystemFiles, Written};
use hostfiles::HostFile;
use hostfiles::host::FILE_LIMIT;
use plan::{Before, Durable, Plan, carry_out, carry_out_each};
use std::alloc::{AllocError, Global};
use std::test::Fail;

/// What a deed of a test expects at its path.
#[derive(Clone, Copy)]
pub enum Expected<'a> {
    /// A regular file, or nothing.
    Any,
    /// Nothing.
    Nothing,
    /// A file that was loaded from these bytes.
    Loaded(&'a [u8]),
}

/// A deed of a test.
#[derive(Clone, Copy)]
pub enum Part<'a> {
    /// The text `put` is put at the path.
    Puts(&'a str, Expected<'a>),
    /// The file is removed.
    Removes(&'a str, Expected<'a>),
}

impl<'a> Part<'a> {
    fn place(self) -> &'a str {
        match self {
            Part::Puts(place, _) | Part::Removes(place, _) => place,
        }
    }

    fn expected(self) -> Expected<'a> {
        match self {
            Part::Puts(_, expected) | Part::Removes(_, expected) => expected,
        }
    }
}

/// How the deeds of a plan are done.
#[derive(Clone, Copy)]
pub enum Manner {
    AsAWhole,
    OneByOne,
}

/// Does deeds in a folder by one plan, in which no temporary path is the path of the last deed. Returns the text for the error, empty if there is
/// none.
pub fn did(
    rt: &HostRuntime,
    folder: &str,
    parts: &[Part<'_>],
    manner: Manner,
) -> Result<String, Fail> {
    let loaded = loaded_files(rt.alloc(), parts)?;
    let mut system = SystemFiles::new(rt);
    let answer = carried(&mut system, folder, parts, loaded.as_slice(), manner);
    Ok(text_of(rt.alloc(), answer)?)
}

// Returns the file that each deed expects, empty for one that expects none.
fn loaded_files(alloc: Global, parts: &[Part<'_>]) -> Result<Vec<HostFile>, AllocError> {
    let mut files = Vec::new(alloc);
    for part in parts {
        let bytes = match part.expected() {
            Expected::Loaded(bytes) if bytes.len() <= FILE_LIMIT => bytes,
            _ => &[],
        };
        files.push(HostFile::new(alloc, bytes)?)?;
    }
    Ok(files)
}

fn carried<S: FileSystem>(
    system: &mut S,
    folder: &str,
    parts: &[Part<'_>],
    loaded: &[HostFile],
    manner: Manner,
) -> Result<(), Failure> {
    let avoided = match parts.last() {
        Some(part) => path_of(system.alloc(), folder, *part)?,
        None => String::new(system.alloc()),
    };
    let mut plan = Plan::avoiding(system.alloc(), Some(avoided.as_str()));
    for (part, file) in parts.iter().zip(loaded) {
        add(system, &mut plan, folder, *part, file)?;
    }
    match manner {
        Manner::AsAWhole => carry_out(system, plan),
        Manner::OneByOne => carry_out_each(system, plan, Durable::All),
    }
}

fn path_of(alloc: Global, folder: &str, part: Part<'_>) -> Result<String, AllocError> {
    let place = part.place();
    format!(in alloc; "{folder}/{place}")
}

fn add<'a, S: FileSystem>(
    system: &mut S,
    plan: &mut Plan<'a, Written<'a>>,
    folder: &str,
    part: Part<'_>,
    file: &'a HostFile,
) -> Result<(), Failure> {
    let path = path_of(system.alloc(), folder, part)?;
    let before = match part.expected() {
        Expected::Any => Before::Any,
        Expected::Nothing => Before::Nothing,
        Expected::Loaded(_) => Before::Loaded(file),
    };
    match part {
        Part::Puts(_, _) => plan.put(system, path, before, Written::Text(b"put")),
        Part::Removes(_, _) => plan.remove(path, before),
    }
}

/// Returns the text for an error, empty if there is none.
pub fn text_of(alloc: Global, answer: Result<(), Failure>) -> Result<String, AllocError> {
    match answer {
        Ok(()) => Ok(String::new(alloc)),
        Err(failure) => text(alloc, failure),
    }
}
