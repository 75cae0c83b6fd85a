// All the lines, in the order of their kinds.

ghost use Rattle.std.specs.Prelude.{◌≡◌, ◌+◌, ◌++◌, ◌∷◌, [], codes, length, take, Option, ℕ, List};
ghost use Rattle.report_lines.specs.FirstLines as first_lines;
ghost use Rattle.streams.specs.Pushing.{more};
ghost use Rattle.streams.specs.Streams.{WritesText};
ghost use Rattle.filenames.specs.Drives.{drive_number};
ghost use Rattle.dependency_lines.specs.Listing as listing;

use crate::heads::{Head, push_step_line};
use crate::names::{Kind, push_kind};
use crate::places::push_places;
use dependencies::{Dependencies, Joining, StepTable, next_row};
use filenames::Drive;
use first_looks::{FileSteps, FirstLooks};
use machine::{PROGRAM_START, Session};
use report_lines::stop_line;
use streams::{Failed, Text, TextOver, Writer};

// The first indexes of a table.
#[derive(Drop)]
struct FirstIndexes<'a, T> {
    table: &'a T,
    count: usize,
}

impl<T: StepTable> StepTable for FirstIndexes<'_, T> {
    ghost use Rattle.std.specs.Prelude.{take};

    ghost steps = { λ f. take f.count (T.steps f.table.now) };

    fn step_at(&self, index: usize) -> Option<u64> {
        if index < self.count {
            return self.table.step_at(index);
        }
        None
    }

    fn end(&self) -> usize {
        self.table.end().min(self.count)
    }
}

/// Writes the lines of all that the run of a session asked for, and then the line of its stop. If the writer fails, a prefix of them is
/// written.
pub fn write_dependencies<W: Writer>(
    writer: &mut W,
    joining: Joining,
    session: &Session,
    dependencies: &Dependencies,
) -> Result<(), Failed>
    ensures { WritesText (W.output writer.old) (W.output writer.new)
        (listing.listing joining session.now dependencies.now.looks dependencies.now.cause) result }
{
    let mut text = TextOver::new(writer);
    push_asked(&mut text, joining, session, &dependencies.looks);
    text.push(stop_line(dependencies.cause).as_bytes());
    text.flush();
    text.finish()
}

// Appends the lines of all that was asked for.
fn push_asked<X: Text>(text: &mut X, joining: Joining, session: &Session, looks: &FirstLooks)
    ensures { X.pushed text.new ≡ more (X.pushed text.old)
        (listing.asked_lines joining session.now looks.now) }
{
    push_memory(text, joining, looks);
    push_script(text, joining, session, looks);
    push_files(text, joining, session, looks);
    push_directories(text, looks.files())
}

// Appends the lines of page zero and of the program.
fn push_memory<X: Text>(text: &mut X, joining: Joining, looks: &FirstLooks)
    ensures { X.pushed text.new ≡ more (X.pushed text.old)
        (listing.memory_lines joining looks.now) }
{
    let page = FirstIndexes {
        table: looks.cells(),
        count: PROGRAM_START,
    };
    push_places(text, joining, &Head::of_cells(b"page"), &page, 0);
    let head = Head::of_cells(b"program");
    push_places(text, joining, &head, looks.cells(), PROGRAM_START)
}

// Appends the lines of the script and of its end.
fn push_script<X: Text>(text: &mut X, joining: Joining, session: &Session, looks: &FirstLooks)
    ensures { X.pushed text.new ≡ more (X.pushed text.old)
        (listing.script_lines joining session.now looks.now) }
{
    let length = session.script().len();
    let bytes = FirstIndexes {
        table: looks.offsets(),
        count: length,
    };
    push_places(text, joining, &Head::alone(b"script"), &bytes, 0);
    push_step_line(text, &Head::alone(b"script end"), first_step(looks, length))
}

// Returns the step of the first row of offsets from `from` on, if there is one.
fn first_step(looks: &FirstLooks, from: usize) -> Option<u64>
    ensures { result ≡ listing.first_row_step looks.now from }
{
    next_row(looks.offsets(), Joining::Joined, from).map(|row| row.step)
}

// Appends the lines of files by their names.
fn push_files<X: Text>(text: &mut X, joining: Joining, session: &Session, looks: &FirstLooks)
    ensures { X.pushed text.new ≡ more (X.pushed text.old)
        (listing.file_lines joining session.now looks.now) }
{
    let (host, asked) = (session.files(), looks.files());
    push_kind(text, joining, host, asked, Kind::There);
    push_kind(text, joining, host, asked, Kind::Absent);
    push_kind(text, joining, host, asked, Kind::Length);
    push_kind(text, joining, host, asked, Kind::Records)
}

// Appends the lines of the directories of the drives A to D.
fn push_directories<X: Text>(text: &mut X, asked: &FileSteps)
    ensures { X.pushed text.new ≡ more (X.pushed text.old)
        (listing.directory_lines asked.now) }
{
    push_step_line(text, &Head::alone(b"directory A"), asked.directories[0]);
    push_step_line(text, &Head::alone(b"directory B"), asked.directories[1]);
    push_step_line(text, &Head::alone(b"directory C"), asked.directories[2]);
    push_step_line(text, &Head::alone(b"directory D"), asked.directories[3])
}
