ghost use Rattle.std.specs.Prelude.{[], None, vec_len, true, OnOk, OnErr, ◌≡◌, ◌+◌, ◌-◌, ◌<◌, ◌≤◌, length};
ghost use Rattle.std.specs.List.{list_all};
ghost use Rattle.std.specs.FinMap as finmap;
ghost use Rattle.pagemem.specs.ImageView.{cells_of};
ghost use Rattle.pagemem.specs.Beneath.{cells_beneath};
ghost use Rattle.hostfiles.specs.Hosts.{has_room};
ghost use Rattle.machine.specs.Session.{is_tail_byte, image_of, session_or_refusal, splice, written_over};

use command_tail::{TAIL_LIMIT, page_zero};
use hostfiles::{HostFile, HostFiles, Name};
use pagemem::{Beneath, Image};
use std::alloc::AllocError;
use std::marker::Model;
use thiserror::Error;

/// The address at which a program begins. [Interface Guide 1979, the transient program area]
pub const PROGRAM_START: usize = 0x0100;

/// The maximum length of a program, in bytes. A program begins at `PROGRAM_START`, so it ends below 0FD00H; the system area begins
/// at 0FE00H.
pub const PROGRAM_LIMIT: usize = 64_512;

/// The maximum length of a script, in bytes.
pub const SCRIPT_LIMIT: usize = 1_048_576;

/// The maximum number of steps of a run.
pub const STEP_LIMIT: u64 = 4_000_000_000;

/// A program, its command tail, the host files, the script and a limit of steps, each within its limits.
#[derive(Drop)]
pub struct Session {
    first_page: [u8; 256],
    program: Vec<u8>,
    tail: Vec<u8>,
    files: HostFiles,
    script: Vec<u8>,
    limit: u64,
}

impl Model for Session {
    ghost use Rattle.std.specs.Prelude.{◌≡◌};
    ghost use Rattle.std.specs.Coded.{codes};
    ghost use Rattle.command_tail.specs.PageZero.{page_zero};
    ghost use Rattle.machine.specs.Inputs.{Session as SessionView};
    ghost use Rattle.machine.specs.StateView.{files_code};
    ghost use Rattle.machine.specs.Session.{IsSession, session_of};

    ghost Value = { SessionView };

    ghost coded = { Prim.hlevel (codes, files_code) };

    ghost view = { λ s. session_of s.program.items s.tail.items s.files s.script.items s.limit };

    ghost invariant = { λ s. (s.first_page ≡ page_zero s.tail.items)
        × IsSession (session_of s.program.items s.tail.items s.files s.script.items s.limit) };
}

/// The reason why a session is refused.
#[derive(Clone, Copy, Debug, PartialEq, Eq, Error)]
pub enum SessionError {
    /// The program has more than 64,512 bytes.
    #[error("the program is too long")]
    ProgramTooLong,
    /// The command tail has more than 126 bytes.
    #[error("the command tail is too long")]
    TailTooLong,
    /// A byte of the command tail is below 20H or above 7EH.
    #[error("the command tail has a byte that no tail may have")]
    TailByte,
    /// The script has more than 1,048,576 bytes.
    #[error("the script is too long")]
    ScriptTooLong,
    /// The limit is more than 4,000,000,000 steps.
    #[error("the limit is too large")]
    LimitTooLarge,
}

impl SessionError {
    ghost use Rattle.machine.specs.SessionError.{session_error_number};

    /// Returns the number of the refusal: 1 to 5.
    pub fn number(self) -> u8
        ensures { result ≡ session_error_number self }
    {
        match self {
            SessionError::ProgramTooLong => 1,
            SessionError::TailTooLong => 2,
            SessionError::TailByte => 3,
            SessionError::ScriptTooLong => 4,
            SessionError::LimitTooLarge => 5,
        }
    }
}

impl Session {
    ghost use Rattle.machine.specs.Session.{IsSession};
    ghost use Rattle.machine.specs.SessionError.{IsMadeAs};

    /// Creates a session.
    ///
    /// # Errors
    ///
    /// Returns the first refusal that applies, and drops the arguments.
    ///
    /// # Example
    ///
    /// Twelve bytes that print `Hi`, with an empty tail, no files, an empty script, and at most 1,000,000 steps:
    ///
    /// ```text
    /// let program = b"\x0e\x09\x11\x09\x01\xcd\x05\x00\xc9Hi$".to_vec(alloc)?;
    /// let files = HostFiles::new(alloc);
    /// let session = Session::new(program, Vec::new(alloc), files, Vec::new(alloc), 1_000_000)?;
    /// ```
    pub fn new(
        program: Vec<u8>,
        tail: Vec<u8>,
        files: HostFiles,
        script: Vec<u8>,
        limit: u64,
    ) -> Result<Session, SessionError>
        ensures { IsMadeAs (session_or_refusal program.items tail.items files script.items limit) result }
    {
        if program.len() > PROGRAM_LIMIT {
            return Err(SessionError::ProgramTooLong);
        }
        if tail.len() > TAIL_LIMIT {
            return Err(SessionError::TailTooLong);
        }
        if !is_tail(&tail) {
            return Err(SessionError::TailByte);
        }
        if script.len() > SCRIPT_LIMIT {
            return Err(SessionError::ScriptTooLong);
        }
        if limit > STEP_LIMIT {
            return Err(SessionError::LimitTooLarge);
        }
        Ok(Session {
            first_page: page_zero(&tail),
            program,
            tail,
            files,
            script,
            limit,
        })
    }

    /// Returns the limit, in steps.
    pub fn limit(&self) -> u64
        ensures value { result ≡ self.now.limit }
        ensures within { result ≤ STEP_LIMIT }
        ensures session { IsSession self.now }
    {
        self.limit
    }

    /// Returns the script.
    pub fn script(&self) -> &[u8]
        ensures value { result.now ≡ self.now.script }
        ensures within { length result.now ≤ SCRIPT_LIMIT }
    {
        self.script.as_slice()
    }

    /// Returns the program's bytes, which begin at 0100H.
    pub fn program(&self) -> &[u8]
        ensures value { result.now ≡ self.now.program }
        ensures within { length result.now ≤ PROGRAM_LIMIT }
    {
        self.program.as_slice()
    }

    /// Returns the command tail, with its letters as they were given.
    pub fn tail(&self) -> &[u8]
        ensures value { result.now ≡ self.now.tail }
        ensures within { length result.now ≤ TAIL_LIMIT }
    {
        self.tail.as_slice()
    }

    /// Returns the host files.
    pub fn files(&self) -> &HostFiles
        ensures { result.now ≡ self.now.files }
    {
        &self.files
    }

    /// Returns page zero and the program as memory, borrowed.
    #[inline(always)]
    pub fn image(&self) -> Image<'_>
        ensures { cells_of result ≡ image_of self.now }
    {
        Image::new(&self.first_page, &self.program)
    }

    /// Returns the image that known cells of a run of this session belong to.
    #[inline(always)]
    pub(crate) fn beneath(&self) -> Beneath
        ensures image { cells_beneath result ≡ image_of self.now }
        ensures session { IsSession self.now }
    {
        Beneath::of(&self.first_page, &self.program)
    }

    /// Overwrites the program's bytes from index `at` on. The new bytes end within the program.
    pub fn poke(&mut self, at: usize, bytes: &[u8])
        requires { at + length bytes.now ≤ length self.old.program }
        ensures { self.new ≡ record self.old { program = written_over self.old.program at bytes.now } }
    {
        overwrite(&mut self.program, at, bytes);
    }

    /// Replaces `removed` bytes of the script from offset `at` on with others.
    ///
    /// # Errors
    ///
    /// `Err` means out of memory and leaves the session unchanged. If the script does not become longer, nothing is
    /// allocated and the result is never an `Err`.
    pub fn splice_script(
        &mut self,
        at: usize,
        removed: usize,
        bytes: &[u8],
    ) -> Result<(), AllocError>
        requires inside { at + removed ≤ length self.old.script }
        requires room { length self.old.script + length bytes.now ≤ SCRIPT_LIMIT + removed }
        ensures ok { OnOk result (self.new
            ≡ record self.old { script = splice self.old.script at removed bytes.now }) }
        ensures err { OnErr result (self.new ≡ self.old) }
        ensures memory { OnErr result (removed < length bytes.now) }
    {
        splice(&mut self.script, at, removed, bytes)
    }

    /// Inserts or replaces a host file for which there is room. `Err` means out of memory and leaves the session unchanged.
    pub fn set_file(&mut self, name: Name, file: HostFile) -> Result<(), AllocError>
        requires { has_room self.old.files name ≡ true }
        ensures ok { OnOk result (self.new
            ≡ record self.old { files = finmap.insert self.old.files name file }) }
        ensures err { OnErr result (self.new ≡ self.old) }
    {
        self.files.put(name, file)
    }

    /// Removes a host file. Allocates nothing.
    pub fn remove_file(&mut self, name: &Name)
        ensures { self.new ≡ record self.old { files = finmap.remove self.old.files name.now } }
    {
        self.files.remove(name);
    }

    /// Sets the limit, in steps.
    pub fn set_limit(&mut self, limit: u64)
        requires { limit ≤ STEP_LIMIT }
        ensures { self.new ≡ record self.old { limit = limit } }
    {
        self.limit = limit;
    }
}

// Replaces `removed` bytes from index `at` on with others.
#[tactic(auto, using(crate::proofs::SpliceLemmas::shrunk))]
fn splice(list: &mut Vec<u8>, at: usize, removed: usize, bytes: &[u8]) -> Result<(), AllocError>
    requires { at + removed ≤ vec_len list.old }
    ensures ok { OnOk result (list.new.items ≡ splice list.old.items at removed bytes.now) }
    ensures err { OnErr result (list.new.items ≡ list.old.items) }
    ensures memory { OnErr result (removed < length bytes.now) }
{
    if removed < bytes.len() {
        insert(list, at + removed, &bytes[removed..])?;
        overwrite(list, at, &bytes[..removed]);
        return Ok(());
    }
    remove(list, at + bytes.len(), removed - bytes.len());
    overwrite(list, at, bytes);
    Ok(())
}

// Inserts bytes before index `at`.
fn insert(list: &mut Vec<u8>, at: usize, bytes: &[u8]) -> Result<(), AllocError>
    requires { at ≤ vec_len list.old }
    ensures ok { OnOk result (list.new.items ≡ splice list.old.items at 0 bytes.now) }
    ensures err { OnErr result (list.new.items ≡ list.old.items) }
{
    list.extend_from_slice(bytes)?;
    list[at..].rotate_right(bytes.len());
    Ok(())
}

// Removes `count` bytes from index `at` on.
fn remove(list: &mut Vec<u8>, at: usize, count: usize)
    requires { at + count ≤ vec_len list.old }
    ensures { list.new.items ≡ splice list.old.items at count [] }
{
    list[at..].rotate_left(count);
    list.truncate(list.len() - count);
}

// Overwrites the bytes from index `at` on.
fn overwrite(list: &mut Vec<u8>, at: usize, bytes: &[u8])
    requires { at + length bytes.now ≤ vec_len list.old }
    ensures { list.new.items ≡ written_over list.old.items at bytes.now }
{
    let place = &mut list[at..at + bytes.len()];
    place.copy_from_slice(bytes);
}

// Returns whether a command tail may contain all bytes of a text.
fn is_tail(text: &[u8]) -> bool
    ensures { result ≡ list_all is_tail_byte text.now }
{
    text.iter().all(|byte| *byte >= 0x20 && *byte <= 0x7e)
}

/// The limits of a session have these values.
pub fn limits()
    ensures program { PROGRAM_LIMIT ≡ 0xfd00 - 0x0100 }
    ensures tail { TAIL_LIMIT ≡ 126 }
    ensures script { SCRIPT_LIMIT ≡ 1048576 }
    ensures steps { STEP_LIMIT ≡ 4000000000 }
{}
