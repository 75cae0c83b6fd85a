// Loading a session from the files of the command line.

ghost use Rattle.std.specs.Prelude.{◌≡◌, ◌+◌, None, IfOk, IfErr, option_map};
ghost use Rattle.command_words.specs.CommandLine.{text_of};
ghost use Rattle.folders.specs.DriveFolders.{AreListings};
ghost use Rattle.folders.specs.Failures.{KeepsFiles, io_paths};
ghost use Rattle.folders.specs.FileSystem.{Opens, ReadsFile};
ghost use Rattle.machine.specs.Session.{session_or_refusal};
ghost use Rattle.faults.specs.Faults.{file_paths};
ghost use Rattle.loading.specs.Loading.{AreInputsOf, IsLoadedFrom, IsScriptAt, IsScriptOf, IsTypedScript, MadeOrRefused, FailsToLoad, IsReadFaultOf, IsReadFaultIfAny};

use crate::typed::typed_script;
use command_words::SessionWords;
use faults::Fault;
use folders::{FileSystem, Listing, read_folders};
use hostfiles::HostFiles;
use machine::{PROGRAM_LIMIT, SCRIPT_LIMIT, Session};
use std::io;
use std::io::ErrorKind;

/// The largest number of bytes of a program that are read: one more than a session takes, so that the session refuses a longer
/// one.
const PROGRAM_READ: u64 = PROGRAM_LIMIT as u64 + 1;

/// The largest number of bytes of a script that are read: one more than a session takes.
const SCRIPT_READ: u64 = SCRIPT_LIMIT as u64 + 1;

/// Returns the error of a program for an error of opening or reading this file.
fn read_fault<'a>(error: io::Error, path: &'a str) -> Fault<'a>
    ensures fault { IsReadFaultOf path.now result }
    ensures paths { file_paths result ≡ io_paths path.now error }
{
    if error.kind() == ErrorKind::OutOfMemory {
        Fault::OutOfMemory
    } else {
        Fault::CannotRead(path)
    }
}

/// Opens a file to read it piece by piece.
///
/// # Errors
///
/// Returns `Err` if the file cannot be opened or an allocation fails.
pub fn open<'a, S: FileSystem>(system: &mut S, path: &'a str) -> Result<S::Input, Fault<'a>>
    ensures opens { IfOk result
        (λ input. Opens (S.files system.old).bytes path.now (S.Input.input input).left) }
    ensures unfailed { IfOk result (λ input. (S.Input.input input).failures ≡ 0) }
    ensures fault { IfErr result (IsReadFaultOf path.now) }
    ensures unchanged { KeepsFiles file_paths result (S.files system.old) (S.files system.new) }
{
    match system.open(path) {
        Ok(file) => Ok(file),
        Err(error) => Err(read_fault(error, path)),
    }
}

/// Reads the program at this path, which is no pipe.
fn program_at<'a, S: FileSystem>(system: &mut S, path: &'a str) -> Result<Vec<u8>, Fault<'a>>
    ensures program { IfOk result
        (λ program. ReadsFile (S.files system.old).bytes path.now (PROGRAM_LIMIT + 1) program.items) }
    ensures fault { IfErr result (IsReadFaultOf path.now) }
    ensures unchanged { KeepsFiles file_paths result (S.files system.old) (S.files system.new) }
{
    match system.read_unless_pipe(path, PROGRAM_READ) {
        Ok(program) => Ok(program),
        Err(error) => Err(read_fault(error, path)),
    }
}

/// Reads the script at this path, which may be a pipe; without a path it is empty.
fn script_at<'a, S: FileSystem>(system: &mut S, path: Option<&'a str>) -> Result<Vec<u8>, Fault<'a>>
    ensures script { IfOk result
        (λ script. IsScriptAt (S.files system.old).bytes (text_of path.entry) script.items) }
    ensures fault { IfErr result (IsReadFaultIfAny (text_of path.entry)) }
    ensures unchanged { KeepsFiles file_paths result (S.files system.old) (S.files system.new) }
{
    let Some(path) = path else {
        return Ok(Vec::new(system.alloc()));
    };
    match system.read(path, SCRIPT_READ) {
        Ok(script) => Ok(script),
        Err(error) => Err(read_fault(error, path)),
    }
}

/// Returns the script of a text, if the words have one, and otherwise reads it.
fn script_of<'a, S: FileSystem>(
    system: &mut S,
    words: &SessionWords<'a>,
    typed: Option<Vec<u8>>,
) -> Result<Vec<u8>, Fault<'a>>
    requires { IsTypedScript words.now.typed (option_map (λ bytes. bytes.items) typed) }
    ensures script { IfOk result (λ script. IsScriptOf (S.files system.old).bytes words.now script.items) }
    ensures fault { IfErr result
        (λ fault. (words.now.typed ≡ None) × IsReadFaultIfAny (text_of words.now.console) fault) }
    ensures unchanged { KeepsFiles file_paths result (S.files system.old) (S.files system.new) }
{
    match typed {
        Some(script) => Ok(script),
        None => script_at(system, words.console),
    }
}

/// Returns the session of these parts, or its refusal. Allocates nothing.
fn session_of<'a>(
    program: Vec<u8>,
    tail: Vec<u8>,
    files: HostFiles,
    script: Vec<u8>,
    limit: u64,
) -> Result<Session, Fault<'a>>
    ensures { MadeOrRefused (session_or_refusal program.items tail.items files script.items limit) result }
{
    match Session::new(program, tail, files, script, limit) {
        Ok(session) => Ok(session),
        Err(error) => Err(Fault::Refused(error.number())),
    }
}

/// A session that was loaded.
#[derive(Drop)]
pub struct Loaded {
    /// The session.
    pub session: Session,
    /// The names of its host files in the folder of each drive, if it has one.
    pub listings: [Option<Listing>; 4],
}

impl Loaded {
    ghost use Rattle.std.specs.Prelude.{◌≡◌};

    /// Returns the session alone.
    pub fn into_session(self) -> Session
        ensures { result ≡ self.session }
    {
        let Loaded {
            session,
            listings: _,
        } = self;
        session
    }
}

/// The program, the command tail and the script of a session, which were read.
#[derive(Drop)]
pub struct Inputs {
    program: Vec<u8>,
    tail: Vec<u8>,
    script: Vec<u8>,
}

/// Reads the program and the script of the words, in this order. A script that is given as text is not read.
///
/// # Errors
///
/// Returns `Err` if the text of a script has a bad escape, and then reads nothing. Returns `Err` if a file cannot be read or an allocation
/// fails.
pub fn read_inputs<'a, S: FileSystem>(
    system: &mut S,
    words: &SessionWords<'a>,
) -> Result<Inputs, Fault<'a>>
    ensures inputs { IfOk result (AreInputsOf (S.files system.old).bytes words.now) }
    ensures fault { IfErr result (FailsToLoad (S.files system.old) words.now) }
    ensures unchanged { KeepsFiles file_paths result (S.files system.old) (S.files system.new) }
{
    let tail = words.tail.as_bytes().to_vec(system.alloc())?;
    let typed = typed_script(system.alloc(), words.typed)?;
    let program = program_at(system, words.program)?;
    let script = script_of(system, words, typed)?;
    Ok(Inputs {
        program,
        tail,
        script,
    })
}

/// Loads the session of the words from its inputs and from the folders of the drives A to D, which are read in this order.
///
/// # Errors
///
/// Returns `Err` if a folder or a file in it cannot be read or is refused, if the session is refused, or if an allocation fails.
pub fn load_with<'a, S: FileSystem>(
    system: &mut S,
    words: &SessionWords<'a>,
    inputs: Inputs,
) -> Result<Loaded, Fault<'a>>
    requires { AreInputsOf (S.files system.old).bytes words.now inputs }
    ensures session { IfOk result
        (λ loaded. IsLoadedFrom (S.files system.old) words.now loaded.session) }
    ensures names { IfOk result
        (λ loaded. AreListings (S.files system.old) words.now.files loaded.listings) }
    ensures fault { IfErr result (FailsToLoad (S.files system.old) words.now) }
    ensures unchanged { KeepsFiles file_paths result (S.files system.old) (S.files system.new) }
{
    let Inputs {
        program,
        tail,
        script,
    } = inputs;
    let read = read_folders(system, &words.files)?;
    let session = session_of(program, tail, read.files, script, words.limit)?;
    Ok(Loaded {
        session,
        listings: read.listings,
    })
}

/// Loads the session that the words describe: reads the program, the script and the folders of the drives A to D, in this order.
///
/// # Errors
///
/// Returns `Err` as `read_inputs` and `load_with` do.
pub fn load<'a, S: FileSystem>(
    system: &mut S,
    words: &SessionWords<'a>,
) -> Result<Loaded, Fault<'a>>
    ensures session { IfOk result
        (λ loaded. IsLoadedFrom (S.files system.old) words.now loaded.session) }
    ensures names { IfOk result
        (λ loaded. AreListings (S.files system.old) words.now.files loaded.listings) }
    ensures fault { IfErr result (FailsToLoad (S.files system.old) words.now) }
    ensures unchanged { KeepsFiles file_paths result (S.files system.old) (S.files system.new) }
{
    let inputs = read_inputs(system, words)?;
    load_with(system, words, inputs)
}
