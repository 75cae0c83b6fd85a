// Edits that fit the session.

ghost use Rattle.std.specs.Prelude.{◌≡◌, ◌+◌, nat_lt, Err, IfOk, IfErr, OnOk, OnErr};
ghost use Rattle.machine.specs.Machine.{session_answers};
ghost use Rattle.machine.specs.FirstLooks.{IsFirstLooks};
ghost use Rattle.replay.specs.declared.edit.Edit.TheVariants as of_edit;
ghost use Rattle.replay.specs.Edits.{edited};
ghost use Rattle.replay.specs.EditAnswers.{EditAllocates, Refuses, edit_error_number};
ghost use Rattle.replay.specs.Change.{IsAllowed, MakesChange, ChangeAllocates, session_after_change};
ghost use Rattle.replay.specs.Touch.{IsNotedTouch};

use crate::edit::{Edit, EditError};
use crate::touch::{file_touch, poke_touch, splice_touch};
use first_looks::FirstLooks;
use hostfiles::host::FILE_LIMIT;
use machine::{Bytes, HostFile, Name, PROGRAM_START, SCRIPT_LIMIT, STEP_LIMIT, Session};
use std::alloc::{AllocError, Global};

/// A change that an accepted edit makes to the session.
#[derive(Drop)]
pub enum Change {
    /// An exchange of `removed` bytes of the script from an offset on for other bytes: `Splice(offset, removed, bytes)`.
    Splice(usize, usize, Bytes),
    /// A replacement of bytes of the program; the offset counts from the program's first byte.
    Poke(usize, Bytes),
    /// A host file of this name with these records, new or instead of the present one.
    SetFile(Name, HostFile),
    /// The removal of a host file.
    RemoveFile(Name),
    /// A new limit, in steps.
    Limit(u64),
}

// Returns whether `count` bytes from offset `at` on end past `length`.
fn is_past(at: u64, count: u64, length: u64) -> bool
    ensures { result ≡ nat_lt length (at + count) }
{
    at > length || count > length - at
}

/// Checks an edit and returns the change that it makes.
///
/// # Errors
///
/// Returns the first refusal that applies. Only insertions and files that are set can run out of memory.
pub fn accept(alloc: Global, session: &Session, edit: Edit) -> Result<Change, EditError>
    ensures makes { IfOk result (MakesChange session.now edit) }
    ensures allowed { IfOk result (IsAllowed session.now) }
    ensures memory { IfOk result (λ change. ChangeAllocates change → EditAllocates edit) }
    ensures refused { IfErr result (Refuses (edited session.now edit)) }
    ensures want { result ≡ Err EditError.OutOfMemory → EditAllocates edit }
{
    let script = session.script().len() as u64;
    match edit {
        Edit::Insert(at, bytes) => {
            if at > script {
                return Err(EditError::PastEnd);
            }
            if bytes.as_slice().len() as u64 > SCRIPT_LIMIT as u64 - script {
                return Err(EditError::ScriptTooLong);
            }
            Ok(Change::Splice(at as usize, 0, bytes))
        }
        Edit::Replace(at, bytes) => {
            let removed = bytes.as_slice().len();
            if is_past(at, removed as u64, script) {
                return Err(EditError::PastEnd);
            }
            Ok(Change::Splice(at as usize, removed, bytes))
        }
        Edit::Remove(at, count) => {
            if is_past(at, count, script) {
                return Err(EditError::PastEnd);
            }
            Ok(Change::Splice(at as usize, count as usize, Bytes::new(Vec::new(alloc))))
        }
        Edit::Poke(at, bytes) => accept_poke(session, at, bytes),
        Edit::SetFile(name, bytes) => accept_file(alloc, session, name, &bytes),
        Edit::RemoveFile(name) => {
            if !session.files().has(&name.key()) {
                return Err(EditError::NoSuchFile);
            }
            Ok(Change::RemoveFile(name))
        }
        Edit::SetLimit(limit) => {
            if limit > STEP_LIMIT {
                return Err(EditError::LimitTooLarge);
            }
            Ok(Change::Limit(limit))
        }
    }
}

// Checks a poke from the address `at` on. Takes no memory.
fn accept_poke(session: &Session, at: u16, bytes: Bytes) -> Result<Change, EditError>
    ensures makes { IfOk result (MakesChange session.now (of_edit.Poke at bytes)) }
    ensures allowed { IfOk result (IsAllowed session.now) }
    ensures memory { IfOk result (λ change. ChangeAllocates change → ⊥) }
    ensures refused { IfErr result
        (λ e. edited session.now (of_edit.Poke at bytes) ≡ Err (edit_error_number e)) }
    ensures want { result ≡ Err EditError.OutOfMemory → ⊥ }
{
    let at = usize::from(at);
    let end = PROGRAM_START + session.program().len();
    if at < PROGRAM_START || end < at + bytes.as_slice().len() {
        return Err(EditError::OutsideProgram);
    }
    Ok(Change::Poke(at - PROGRAM_START, bytes))
}

// Checks a host file that is to be set, and makes its records.
fn accept_file(
    alloc: Global,
    session: &Session,
    name: Name,
    bytes: &Bytes,
) -> Result<Change, EditError>
    ensures makes { IfOk result (MakesChange session.now (of_edit.SetFile name bytes.now)) }
    ensures allowed { IfOk result (IsAllowed session.now) }
    ensures refused { IfErr result (Refuses (edited session.now (of_edit.SetFile name bytes.now))) }
{
    if bytes.as_slice().len() > FILE_LIMIT {
        return Err(EditError::FileTooLong);
    }
    if !session.files().has_room(&name.key()) {
        return Err(EditError::TooManyFiles);
    }
    let file = HostFile::new(alloc, bytes.as_slice())?;
    Ok(Change::SetFile(name, file))
}

/// Returns the first noted step with a look that the change answers differently, or step `seen` if there is none.
pub fn touch_of(looks: &FirstLooks, session: &Session, change: &Change) -> u64
    requires noted { IsFirstLooks (session_answers session.now) looks.now }
    requires allowed { IsAllowed session.now change.now }
    ensures { IsNotedTouch (session_answers session.now)
        (session_answers (session_after_change session.now change.now)) looks.now result }
{
    match change {
        Change::Splice(at, removed, bytes) => {
            splice_touch(looks, session, *at, *removed, bytes.as_slice())
        }
        Change::Poke(at, bytes) => poke_touch(looks, session, *at, bytes.as_slice()),
        Change::SetFile(name, file) => file_touch(looks, session, &name.key(), Some(file)),
        Change::RemoveFile(name) => file_touch(looks, session, &name.key(), None),
        Change::Limit(_) => looks.seen(),
    }
}

/// Applies a change to the session.
///
/// # Errors
///
/// Returns `Err` if an allocation fails; the session is then unchanged.
pub fn apply(session: &mut Session, change: Change) -> Result<(), AllocError>
    requires { IsAllowed session.old change }
    ensures ok { OnOk result (session.new ≡ session_after_change session.old change) }
    ensures err { OnErr result (session.new ≡ session.old) }
    ensures memory { OnErr result (ChangeAllocates change) }
{
    match change {
        Change::Splice(at, removed, bytes) => {
            session.splice_script(at, removed, bytes.as_slice())?;
        }
        Change::Poke(at, bytes) => session.poke(at, bytes.as_slice()),
        Change::SetFile(name, file) => session.set_file(name, file)?,
        Change::RemoveFile(name) => session.remove_file(&name),
        Change::Limit(limit) => session.set_limit(limit),
    }
    Ok(())
}
