// What a run would do with its changed files, if it changes none.

ghost use Rattle.std.specs.Prelude.{◌≡◌, ◌++◌, ◌∷◌, [], IfErr, IfOk, IfSome, OnOk, is_some, map};
ghost use Rattle.std.specs.List.{list_any};
ghost use Rattle.filenames.specs.Drives.{drive_number};
ghost use Rattle.folders.specs.Failures.{KeepsFiles};
ghost use Rattle.folders.specs.Faults.{FailsBy, failure_paths};
ghost use Rattle.streams.specs.Pushing.{more};
ghost use Rattle.streams.specs.Streams.{WritesOrFails};
ghost use Rattle.one_run.specs.ChangedList.{changed_by, planned, planned_for};
ghost use Rattle.one_run.specs.DryRun as dry;

use crate::changed::Entry;
use crate::planning::{Turn, is_turn};
use crate::reporting::{Disks, push_path};
use faults::push_shown;
use filenames::Drive;
use folders::{Failure, Fault, FileSystem, Kind, write_failure};
use std::alloc::AllocError;
use streams::{Text, TextOver, Writer};

/// What would be done with a file.
#[derive(Clone, Copy, Debug, PartialEq, Eq)]
pub enum Verb {
    /// It would be written where no file is.
    Write,
    /// It would replace the file that is there.
    Replace,
    /// It would be removed.
    Remove,
}

/// A path, and what would be done with its file.
#[derive(Clone, Copy)]
pub struct Foretold<'r> {
    /// What would be done.
    pub verb: Verb,
    /// The path.
    pub path: &'r str,
}

// Returns what would be done with the file of a path, which is there or gone after the run.
fn verb_for<S: FileSystem>(system: &mut S, there: bool, path: &str) -> Result<Verb, Failure>
    ensures verb { IfOk result (λ verb. IfSome (S.files system.old).bytes (λ stored.
        verb ≡ dry.verb_for stored there path.now)) }
    ensures fault { IfErr result (FailsBy dry.IsForetellFault) }
    ensures unchanged { KeepsFiles failure_paths result (S.files system.old) (S.files system.new) }
{
    if !there {
        return Ok(Verb::Remove);
    }
    let named = String::from_str(system.alloc(), path)?;
    match system.kind(path) {
        Ok(Kind::Regular) => Ok(Verb::Replace),
        Ok(Kind::Absent) => Ok(Verb::Write),
        Ok(Kind::Other) => Err(Failure::AtFault(Fault::Irregular(named))),
        Err(error) => Err(write_failure(error, named)),
    }
}

// Adds a file with which something would be done.
fn add<'r>(list: &mut Vec<Foretold<'r>>, foretold: Foretold<'r>) -> Result<(), AllocError>
    ensures { OnOk result (list.new.items ≡ list.old.items ++ foretold.entry ∷ []) }
{
    list.push(foretold)?;
    Ok(())
}

// Adds what would be done with a changed file, if this is its turn.
fn foretell_one<'r, S: FileSystem>(
    system: &mut S,
    list: &mut Vec<Foretold<'r>>,
    turn: Turn,
    entry: &'r Entry<'_>,
) -> Result<(), Failure>
    ensures added { OnOk result (IfSome (S.files system.old).bytes (λ stored.
        map dry.seen list.new.items ≡ map dry.seen list.old.items
        ++ dry.foretold stored (planned_for turn (changed_by entry.now)))) }
    ensures fault { IfErr result (FailsBy dry.IsForetellFault) }
    ensures unchanged { KeepsFiles failure_paths result (S.files system.old) (S.files system.new) }
{
    if !is_turn(turn, entry.is_there(), &entry.before) {
        return Ok(());
    }
    let Some(path) = &entry.path else {
        return Ok(());
    };
    let path = path.as_str();
    let verb = verb_for(system, entry.is_there(), path)?;
    add(list, Foretold { verb, path })?;
    Ok(())
}

/// Adds what would be done with the changed files in this turn, in order.
///
/// # Errors
///
/// Returns `Err` if no regular file could be put at a path, if the system does not say what is there, or if an allocation fails.
pub fn foretell<'r, S: FileSystem>(
    system: &mut S,
    list: &mut Vec<Foretold<'r>>,
    turn: Turn,
    entries: &'r [Entry<'_>],
) -> Result<(), Failure>
    ensures added { OnOk result (IfSome (S.files system.old).bytes (λ stored.
        map dry.seen list.new.items ≡ map dry.seen list.old.items
        ++ dry.foretold stored (planned turn (map changed_by entries.now)))) }
    ensures fault { IfErr result (FailsBy dry.IsForetellFault) }
    ensures unchanged { KeepsFiles failure_paths result (S.files system.old) (S.files system.new) }
{
    for entry in entries {
        foretell_one(system, list, turn, entry)?;
    }
    Ok(())
}

// Appends the line of a file with which something would be done.
fn push_foretold<X: Text>(text: &mut X, foretold: &Foretold<'_>)
    ensures { X.pushed text.new ≡ more (X.pushed text.old) (dry.would_line (dry.seen foretold.now)) }
{
    match foretold.verb {
        Verb::Write => push_path(text, b"would write ", foretold.path),
        Verb::Replace => push_path(text, b"would replace ", foretold.path),
        Verb::Remove => push_path(text, b"would remove ", foretold.path),
    }
}

// Appends the lines of these files.
fn push_all<X: Text>(text: &mut X, list: &[Foretold<'_>])
    ensures { X.pushed text.new ≡ more (X.pushed text.old) (dry.would_lines (map dry.seen list.now)) }
{
    for foretold in list {
        push_foretold(text, foretold);
    }
}

// Returns whether a changed file is on the disk of this drive.
fn is_on_disk_of(drive: Drive, entry: &Entry<'_>) -> bool
    ensures { result ≡ dry.is_on_disk_of (drive_number drive) (changed_by entry.now) }
{
    entry.is_on_disk() && entry.name.drive() == drive
}

// Returns whether an entry is on the disk of this drive.
fn has_entry_on_disk_of(drive: Drive, entries: &[Entry<'_>]) -> bool
    ensures { result ≡ list_any
        (λ entry. dry.is_on_disk_of (drive_number drive) (changed_by entry)) entries.now }
{
    entries.iter().any(|entry| is_on_disk_of(drive, entry))
}

// Returns whether the disk of this drive has a changed file, and would be left unchanged.
fn would_leave(disks: Disks, drive: Drive, entries: &[Entry<'_>]) -> bool
    ensures { result ≡ dry.would_leave disks (map changed_by entries.now) (drive_number drive) }
{
    match disks {
        Disks::Unchanged => has_entry_on_disk_of(drive, entries),
        _ => false,
    }
}

// Appends the line of a disk, if it would be left unchanged.
fn push_if_left<X: Text>(
    text: &mut X,
    disks: Disks,
    entries: &[Entry<'_>],
    drive: Drive,
    folder: Option<&str>,
)
    ensures { X.pushed text.new ≡ more (X.pushed text.old)
        (dry.leave_line disks (map changed_by entries.now) (drive_number drive) folder.entry) }
{
    if let Some(folder) = folder
        && would_leave(disks, drive, entries)
    {
        text.push(b"would leave ");
        push_shown(text, folder.as_bytes());
        text.push(b" unchanged\n");
    }
}

// Appends the lines of the disks that would be left unchanged though a changed file is on them.
fn push_leaves<X: Text>(
    text: &mut X,
    disks: Disks,
    entries: &[Entry<'_>],
    folders: &[Option<&str>; 4],
)
    ensures { X.pushed text.new ≡ more (X.pushed text.old)
        (dry.leave_lines disks (map changed_by entries.now) folders.now) }
{
    push_if_left(text, disks, entries, Drive::A, folders[0]);
    push_if_left(text, disks, entries, Drive::B, folders[1]);
    push_if_left(text, disks, entries, Drive::C, folders[2]);
    push_if_left(text, disks, entries, Drive::D, folders[3]);
}

/// Reports on standard error what a run would do, and which disks it would leave unchanged though a changed file is on them. A failure of
/// the writer ends this, and is ignored.
pub fn report_foretold<E: Writer>(
    list: &[Foretold<'_>],
    disks: Disks,
    folders: &[Option<&str>; 4],
    entries: &[Entry<'_>],
    err: &mut E,
)
    ensures { WritesOrFails (E.output err.old) (E.output err.new) (dry.would_lines (map dry.seen list.now)
        ++ dry.leave_lines disks (map changed_by entries.now) folders.now) }
{
    let mut text = TextOver::new(err);
    push_all(&mut text, list);
    push_leaves(&mut text, disks, entries, folders);
    text.flush();
    let _ = text.finish();
}
