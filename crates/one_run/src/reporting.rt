// How a run ended, and what became of its files.

ghost use Rattle.std.specs.Prelude.{◌≡◌, map, string_bytes};
ghost use Rattle.streams.specs.Pushing.{more};
ghost use Rattle.streams.specs.Streams.{WritesOrFails};
ghost use Rattle.one_run.specs.ChangedList as list;
ghost use Rattle.one_run.specs.StopLines as lines;
ghost use Rattle.one_run.specs.RunTexts.{stop_status};

use crate::changed::{Entry, is_any_on_disk};
use faults::push_shown;
use itoa::Buffer;
use machine::Cause;
use report_lines::{push_named, stop_line, word_digits};
use streams::{Text, TextOver, Writer};

/// What became of the disks of a run.
#[derive(Clone, Copy, Debug, PartialEq, Eq)]
pub enum Disks {
    /// The run has no disks.
    Absent,
    /// They are as they were before the run.
    Unchanged,
    /// They have what the run changed.
    Changed,
}

/// What a run reports about its end beside its changed files.
#[derive(Clone, Copy)]
pub struct Report<'r, 'w> {
    /// Why it stopped.
    pub cause: Cause,
    /// What became of its disks.
    pub disks: Disks,
    /// The cell at which it looked for the BIOS before its warm start, if it has disks.
    pub looked: Option<u16>,
    /// The paths of what ended runs left on its disks.
    pub left: &'r [String],
    /// The changed folders whose names may not outlast a power failure.
    pub unsynced: [Option<&'w str>; 8],
}

/// How many of the paths are named that ended runs left.
const NAMED: usize = 3;

/// Returns the exit status for a run that stopped by this cause.
pub fn stop_status(cause: Cause) -> u8
    ensures { result ≡ stop_status cause }
{
    match cause {
        Cause::WarmBoot => 0,
        Cause::Limit => 3,
        Cause::Halt => 4,
        Cause::Undefined(_) => 5,
        Cause::SystemArea(_) => 6,
        Cause::ConsoleExhausted => 7,
        Cause::NoDollar => 8,
        Cause::Unsupported(_) => 9,
        Cause::BadDrive(_) => 10,
    }
}

// Returns whether a changed file is gone. On an unchanged disk it is still there.
fn is_gone(disks: Disks, entry: &Entry<'_>) -> bool
    ensures { result ≡ list.is_gone disks (list.changed_by entry.now) }
{
    match disks {
        Disks::Unchanged => !entry.is_there() && !entry.is_on_disk(),
        _ => !entry.is_there(),
    }
}

// Appends the line of a changed file that is gone.
fn push_if_gone<X: Text>(text: &mut X, disks: Disks, entry: &Entry<'_>)
    ensures { X.pushed text.new ≡ more (X.pushed text.old)
        (list.gone_line disks (list.changed_by entry.now)) }
{
    if is_gone(disks, entry) {
        push_named(text, b"gone ", &entry.name);
        text.push(b"\n");
    }
}

// Appends the line of a changed file that is there and has no place.
fn push_if_unplaced<X: Text>(text: &mut X, entry: &Entry<'_>)
    ensures { X.pushed text.new ≡ more (X.pushed text.old)
        (list.unplaced_line (list.changed_by entry.now)) }
{
    if entry.is_unplaced() {
        push_named(text, b"not written ", &entry.name);
        text.push(b"\n");
    }
}

// Appends the lines of the changed files that are gone.
fn push_gone<X: Text>(text: &mut X, disks: Disks, entries: &[Entry<'_>])
    ensures { X.pushed text.new ≡ more (X.pushed text.old)
        (list.gone_lines disks (map list.changed_by entries.now)) }
{
    for entry in entries {
        push_if_gone(text, disks, entry);
    }
}

// Appends the lines of the changed files that are there and have no place.
fn push_unplaced<X: Text>(text: &mut X, entries: &[Entry<'_>])
    ensures { X.pushed text.new ≡ more (X.pushed text.old)
        (list.unplaced_lines (map list.changed_by entries.now)) }
{
    for entry in entries {
        push_if_unplaced(text, entry);
    }
}

// Appends the lines of the changed files that were not written, if there are disks.
fn push_unwritten<X: Text>(text: &mut X, disks: Disks, entries: &[Entry<'_>])
    ensures { X.pushed text.new ≡ more (X.pushed text.old)
        (list.unwritten_lines disks (map list.changed_by entries.now)) }
{
    if !matches!(disks, Disks::Absent) {
        push_unplaced(text, entries);
    }
}

// Appends a line if a changed file is on an unchanged disk.
fn push_if_unchanged<X: Text>(text: &mut X, disks: Disks, entries: &[Entry<'_>])
    ensures { X.pushed text.new ≡ more (X.pushed text.old)
        (list.unchanged_line disks (map list.changed_by entries.now)) }
{
    if matches!(disks, Disks::Unchanged) && is_any_on_disk(entries) {
        text.push(b"disk unchanged\n");
    }
}

// Appends the line of a cell at which a run looked for the BIOS.
fn push_looked<X: Text>(text: &mut X, looked: Option<u16>)
    ensures { X.pushed text.new ≡ more (X.pushed text.old) (lines.looked_line looked) }
{
    if let Some(cell) = looked {
        text.push(b"looked for the BIOS at ");
        text.push(word_digits(cell).as_bytes());
        text.push(b"\n");
    }
}

/// Appends a line with a path.
pub(crate) fn push_path<X: Text>(text: &mut X, before: &[u8], path: &str)
    ensures { X.pushed text.new ≡ more (X.pushed text.old) (lines.path_line before.now path.now) }
{
    text.push(before);
    push_shown(text, path.as_bytes());
    text.push(b"\n");
}

// Appends the lines of the first of the paths that ended runs left, and how many more there are.
fn push_left<X: Text>(text: &mut X, left: &[String])
    ensures { X.pushed text.new ≡ more (X.pushed text.old) (lines.left_lines (map string_bytes left.now)) }
{
    let (named, others) = left.split_at(left.len().min(NAMED));
    for path in named {
        push_path(text, b"left by an ended run: ", path.as_str());
    }
    if !others.is_empty() {
        text.push(b"and ");
        text.push(Buffer::new().format(others.len()).as_bytes());
        text.push(b" more\n");
    }
}

// Appends the line of a folder whose names may not outlast a power failure, if there is one.
fn push_if_unsynced<X: Text>(text: &mut X, folder: Option<&str>)
    ensures { X.pushed text.new ≡ more (X.pushed text.old) (lines.unsynced_line folder.entry) }
{
    if let Some(folder) = folder {
        push_path(text, b"not synced: ", folder);
    }
}

// Appends the lines of these folders.
fn push_unsynced<X: Text>(text: &mut X, unsynced: &[Option<&str>])
    ensures { X.pushed text.new ≡ more (X.pushed text.old) (lines.unsynced_lines unsynced.now) }
{
    for folder in unsynced {
        push_if_unsynced(text, *folder);
    }
}

// Appends the line of the stop of a run, a line if a changed file is on an unchanged disk, the line of a look for the BIOS, the lines of the
// changed files that are gone, and, if there are disks, of the ones that were not written, and then what may have to be done by hand.
fn push_stop<X: Text>(text: &mut X, report: &Report<'_, '_>, entries: &[Entry<'_>])
    ensures { X.pushed text.new ≡ more (X.pushed text.old)
        (lines.lines_of report.now (map list.changed_by entries.now)) }
{
    text.push(stop_line(report.cause).as_bytes());
    push_if_unchanged(text, report.disks, entries);
    push_looked(text, report.looked);
    push_gone(text, report.disks, entries);
    push_unwritten(text, report.disks, entries);
    push_left(text, report.left);
    push_unsynced(text, &report.unsynced);
}

/// Reports on standard error why a run stopped, whether the disks are unchanged, at which cell it looked for the BIOS, which of the changed
/// files are gone, which were not written, what ended runs left, and which folders were not synced. A failure of the writer ends this, and
/// is ignored.
pub fn report_stop<E: Writer>(report: &Report<'_, '_>, entries: &[Entry<'_>], err: &mut E)
    ensures { WritesOrFails (E.output err.old) (E.output err.new)
        (lines.lines_of report.now (map list.changed_by entries.now)) }
{
    let mut text = TextOver::new(err);
    push_stop(&mut text, report, entries);
    text.flush();
    let _ = text.finish();
}
