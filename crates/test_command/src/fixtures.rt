// Acts in the folder of a test, and the results of the command for words there.

ghost use Rattle.std.specs.Prelude.{None, length};
ghost use Rattle.streams.specs.Trails.{paths};

use cpmrun::{Failed, Over, SystemFiles, Writer, command, metered_command};
use machine::Meter;
use std::alloc::{AllocError, Global};
use std::test::Fail;
use std::{fs, process};
use streams::Trail;
use test_sessions::program;

/// A program that prints `Hi` by call 9 and returns.
pub const HI: &[u8] = &program![MVI C,9; LXI D,0x0109; CALL 5; RET; DB b'H',b'i',b'$';];

/// A program that takes a byte of the console by call 1 and returns.
pub const TAKE: &[u8] = &program![MVI C,1; CALL 5; RET;];

/// The expected result of the command: its status, and the texts of standard output and standard error.
#[derive(Clone, Copy, Debug)]
pub enum Wanted<'a> {
    /// These texts, the second with the folder's path in place of its first `@`.
    Answer(u8, &'a str, &'a str),
    /// Texts that contain these parts, or empty texts if there are no parts.
    Parts(u8, &'a [&'a str], &'a [&'a str]),
    /// A standard output that takes this many bytes and then fails, which is reported.
    NoRoom(usize),
    /// The same in a run with a disk, which is left as it was.
    NoRoomOnDisk(usize),
    /// A standard error that takes this many bytes and then fails, which is ignored.
    Untold(usize, u8),
}

/// An act in a folder.
#[derive(Clone, Copy)]
pub enum Act<'a> {
    /// A file with these bytes.
    Put(&'a str, &'a [u8]),
    /// A call of the command with these words, each with the folder's path in place of its first `@`.
    Ask(&'a [&'a str], Wanted<'a>),
    /// A call of the command with the words of this text, each with the folder's path in place of its first `@`; its runs execute
    /// this many steps.
    Count(&'a str, u64),
    /// A file that is there, with this text, which has the folder's path in place of each `~`, and as a rule for make has it in place
    /// of each `@`; or no file.
    Find(&'a str, Option<&'a str>),
}

// A writer that has room for a number of bytes, and then fails; and what was written to it.
#[derive(Drop)]
struct Screen {
    text: Vec<u8>,
    room: usize,
    failures: Trail,
}

impl Writer for Screen {
    ghost output = { λ s. record { holds = None; failures = length (paths s.failures) } };

    fn write(&mut self, piece: &[u8]) -> Result<usize, Failed> {
        let count = piece.len().min(self.room);
        let taken = self.text.extend_from_slice(&piece[..count]);
        if taken.is_err() || count == 0 && !piece.is_empty() {
            self.failures = self.failures.and("");
            return Err(Failed);
        }
        self.room -= count;
        Ok(count)
    }
}

// Returns a text with the folder's path in place of its first `@`.
fn in_folder(alloc: Global, folder: &str, text: &str) -> Result<String, AllocError> {
    match text.split_once('@') {
        Some((before, after)) => format!(in alloc; "{before}{folder}{after}"),
        None => String::from_str(alloc, text),
    }
}

// Returns words that own their texts, with the folder's path in place of `@`.
fn owned(alloc: Global, folder: &str, words: &[&str]) -> Result<Vec<String>, AllocError> {
    let mut list = Vec::new(alloc);
    for word in words {
        list.push(in_folder(alloc, folder, word)?)?;
    }
    Ok(list)
}

// Returns whether a text is this one, with the folder's path in place of its first `@`.
fn is_in_folder(text: &str, folder: &str, wanted: &str) -> bool {
    let Some((before, after)) = wanted.split_once('@') else {
        return text == wanted;
    };
    match text.strip_prefix(before) {
        Some(rest) => rest.strip_prefix(folder) == Some(after),
        None => false,
    }
}

// Returns whether a text contains each of these parts, and is empty if there are none.
fn holds(text: &str, parts: &[&str]) -> bool {
    for part in parts {
        if !text.contains(*part) {
            return false;
        }
    }
    text.is_empty() == parts.is_empty()
}

// The result of the command: its status, and the texts of standard output and standard error.
type Told<'a> = (u8, &'a [u8], &'a [u8]);

fn is_wanted(folder: &str, told: Told<'_>, wanted: Wanted<'_>) -> bool {
    let (status, out, err) = told;
    let (Ok(out), Ok(err)) = (str::from_utf8(out), str::from_utf8(err)) else {
        return false;
    };
    match wanted {
        Wanted::Answer(code, text, fault) => {
            status == code && out == text && is_in_folder(err, folder, fault)
        }
        Wanted::Parts(code, texts, faults) => {
            status == code && holds(out, texts) && holds(err, faults)
        }
        Wanted::NoRoom(_) => status == 1 && err == "cpmrun: cannot write standard output\n",
        Wanted::NoRoomOnDisk(_) => {
            status == 1 && err == "cpmrun: cannot write standard output\ndisk unchanged\n"
        }
        Wanted::Untold(_, code) => status == code,
    }
}

// Returns the room of standard output and of standard error.
fn rooms(wanted: Wanted<'_>) -> (usize, usize) {
    match wanted {
        Wanted::NoRoom(room) | Wanted::NoRoomOnDisk(room) => (room, usize::MAX),
        Wanted::Untold(room, _) => (usize::MAX, room),
        _ => (usize::MAX, usize::MAX),
    }
}

// Calls the command, and compares its result.
fn ask(rt: &HostRuntime, folder: &str, words: &[String], wanted: Wanted<'_>) -> Result<(), Fail> {
    let (out_room, err_room) = rooms(wanted);
    let mut out = Screen {
        text: Vec::new(rt.alloc()),
        room: out_room,
        failures: Trail::new(),
    };
    let mut err = Screen {
        text: Vec::new(rt.alloc()),
        room: err_room,
        failures: Trail::new(),
    };
    let status = command(&mut SystemFiles::new(rt), words, &mut out, &mut err);
    let told = (status, out.text.as_slice(), err.text.as_slice());
    if is_wanted(folder, told, wanted) {
        return Ok(());
    }
    Err(Fail::new(format_args!("{words:?}: {told:?}, and not {wanted:?}")))
}

fn ask_in(rt: &HostRuntime, folder: &str, words: &[&str], wanted: Wanted<'_>) -> Result<(), Fail> {
    let words = owned(rt.alloc(), folder, words)?;
    ask(rt, folder, words.as_slice(), wanted)
}

// Checks how many steps the runs of the command execute with these words, and that it ends with status 0.
fn count(rt: &HostRuntime, words: &[String], wanted: u64) -> Result<(), Fail> {
    let mut meter = Meter::new();
    let mut out = Over::new(Vec::new(rt.alloc()));
    let mut err = Over::new(Vec::new(rt.alloc()));
    let mut system = SystemFiles::new(rt);
    let status = metered_command(&mut system, words, &mut meter, &mut out, &mut err);
    let steps = meter.count();
    if status == 0 && steps == wanted {
        return Ok(());
    }
    Err(Fail::new(format_args!("{words:?}: {steps} steps, with the status {status}")))
}

fn count_in(rt: &HostRuntime, folder: &str, text: &str, wanted: u64) -> Result<(), Fail> {
    let mut words = Vec::new(rt.alloc());
    for word in text.split(' ') {
        words.push(word)?;
    }
    let words = owned(rt.alloc(), folder, words.as_slice())?;
    count(rt, words.as_slice(), wanted)
}

fn put(rt: &HostRuntime, folder: &str, file: &str, bytes: &[u8]) -> Result<(), Fail> {
    let path = format!(in rt.alloc(); "{folder}/{file}")?;
    fs::write(rt, path.as_str(), bytes)?;
    Ok(())
}

// Returns a text with another in place of each of these characters.
fn replaced(alloc: Global, text: &str, mark: char, by: &str) -> Result<String, AllocError> {
    let mut whole = String::new(alloc);
    let mut first = true;
    for part in text.split(mark) {
        if !first {
            whole.push_str(by)?;
        }
        first = false;
        whole.push_str(part)?;
    }
    Ok(whole)
}

// Returns a text with the folder's path in place of each `~`, and in place of each `@` as a rule for make has it.
fn filled(alloc: Global, folder: &str, text: &str) -> Result<String, AllocError> {
    let escaped = replaced(alloc, folder, ' ', "\\ ")?;
    let text = replaced(alloc, text, '@', escaped.as_str())?;
    replaced(alloc, text.as_str(), '~', folder)
}

// Checks that a file has this text, or that there is no file.
fn find(rt: &HostRuntime, folder: &str, file: &str, wanted: Option<&str>) -> Result<(), Fail> {
    let path = format!(in rt.alloc(); "{folder}/{file}")?;
    let found = fs::read(rt, path.as_str());
    let (Some(wanted), Ok(bytes)) = (wanted, &found) else {
        if wanted.is_none() && found.is_err() {
            return Ok(());
        }
        return Err(Fail::new(format_args!("{file}: not {wanted:?}")));
    };
    let text = filled(rt.alloc(), folder, wanted)?;
    if bytes.as_slice() == text.as_bytes() {
        return Ok(());
    }
    Err(Fail::new(format_args!("{file}: {bytes:?}, and not {wanted:?}")))
}

fn execute(rt: &HostRuntime, folder: &str, act: Act<'_>) -> Result<(), Fail> {
    match act {
        Act::Put(file, bytes) => put(rt, folder, file, bytes),
        Act::Ask(words, wanted) => ask_in(rt, folder, words, wanted),
        Act::Count(words, wanted) => count_in(rt, folder, words, wanted),
        Act::Find(file, text) => find(rt, folder, file, text),
    }
}

fn execute_all(rt: &HostRuntime, folder: &str, acts: &[Act<'_>]) -> Result<(), Fail> {
    for act in acts {
        execute(rt, folder, *act)?;
    }
    Ok(())
}

/// Executes acts in empty folders of these names, and removes the folders.
pub fn play(rt: &HostRuntime, cases: &[(&str, &[Act<'_>])]) -> Result<(), Fail> {
    let id = process::id(rt.process());
    for (name, acts) in cases {
        let path = format!(in rt.alloc(); "/tmp/vembrusk-{id} {name}")?;
        in_empty_folder(rt, path.as_str(), acts)?;
    }
    Ok(())
}

fn in_empty_folder(rt: &HostRuntime, path: &str, acts: &[Act<'_>]) -> Result<(), Fail> {
    let _ = fs::remove_dir_all(rt, path);
    fs::create_dir_all(rt, path)?;
    execute_all(rt, path, acts)?;
    fs::remove_dir_all(rt, path)?;
    Ok(())
}
