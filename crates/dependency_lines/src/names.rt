// The lines of files that were asked for, by their names.

ghost use Rattle.std.specs.Prelude.{◌≡◌, length, option_copied, option_map};
ghost use Rattle.keymaps.specs.Order.{IsLeastAbove};
ghost use Rattle.streams.specs.Pushing.{more};
ghost use Rattle.dependency_lines.specs.Names as names;
ghost use Rattle.dependency_lines.specs.Names.{is_asked, lines_of_kind, lines_of_name};

use crate::heads::{Head, push_head, push_step_line};
use crate::places::push_places;
use crate::words::push_step;
use dependencies::Joining;
use first_looks::FileSteps;
use hostfiles::{HostFile, HostFiles, Key};
use itoa::Buffer;
use streams::Text;

/// What is asked about a file.
#[derive(Clone, Copy)]
pub enum Kind {
    /// Whether it is there, and it is.
    There,
    /// Whether it is there, and it is not.
    Absent,
    /// The number of its records.
    Length,
    /// Its records.
    Records,
}

/// Appends the lines of one kind, in the order of the keys.
pub fn push_kind<X: Text>(
    text: &mut X,
    joining: Joining,
    host: &HostFiles,
    asked: &FileSteps,
    kind: Kind,
)
    ensures { X.pushed text.new ≡ more (X.pushed text.old)
        (lines_of_kind joining host.now asked.now kind) }
{
    let mut after: Option<Key> = None;
    while let Some(key) = next_key(asked, kind, after) {
        push_name(text, joining, host, asked, kind, &key);
        after = Some(key);
    }
}

// Returns the least key above `after` about which this was asked, or `None` if there is none. Every key is above `None`.
fn next_key(asked: &FileSteps, kind: Kind, after: Option<Key>) -> Option<Key>
    ensures { IsLeastAbove after (is_asked asked.now kind) result }
{
    match kind {
        Kind::There | Kind::Absent => asked.has.next_key(after),
        Kind::Length => asked.lengths.next_key(after),
        Kind::Records => {
            let (key, _) = asked.records.next_file(after)?;
            Some(*key)
        }
    }
}

// Appends the lines of one kind about a file.
fn push_name<X: Text>(
    text: &mut X,
    joining: Joining,
    host: &HostFiles,
    asked: &FileSteps,
    kind: Kind,
    key: &Key,
)
    ensures { X.pushed text.new ≡ more (X.pushed text.old)
        (lines_of_name joining host.now asked.now kind key.now) }
{
    match kind {
        Kind::There if host.has(key) => {
            push_step_line(
                text,
                &Head::about(b"file ", key),
                asked.has.get(key).copied(),
            )
        }
        Kind::Absent if !host.has(key) => {
            push_step_line(
                text,
                &Head::about(b"none ", key),
                asked.has.get(key).copied(),
            )
        }
        Kind::There | Kind::Absent => (),
        Kind::Length => push_length(text, host.file(key), asked.lengths.get(key).copied(), key),
        Kind::Records => push_records(text, joining, asked, key),
    }
}

// Appends the line of the length of a file.
fn push_length<X: Text>(text: &mut X, file: Option<&HostFile>, step: Option<u64>, key: &Key)
    ensures { X.pushed text.new ≡ more (X.pushed text.old)
        (names.length_line (option_map length (option_copied file.entry)) step key.now) }
{
    let Some(step) = step else {
        return;
    };
    push_head(text, &Head::about(b"length ", key));
    push_count(text, file);
    push_step(text, step)
}

// Appends the number of records of a file, after a blank.
fn push_count<X: Text>(text: &mut X, file: Option<&HostFile>)
    ensures { X.pushed text.new ≡ more (X.pushed text.old)
        (names.count_text (option_map length (option_copied file.entry))) }
{
    match file {
        Some(file) => {
            text.push(b" ");
            text.push(Buffer::new().format(file.len()).as_bytes());
        }
        None => text.push(b" -"),
    }
}

// Appends the lines of the records of a file.
fn push_records<X: Text>(text: &mut X, joining: Joining, asked: &FileSteps, key: &Key)
    ensures { X.pushed text.new ≡ more (X.pushed text.old)
        (names.record_lines joining asked.now key.now) }
{
    let Some(steps) = asked.records.file(key) else {
        return;
    };
    push_places(text, joining, &Head::about(b"record ", key), steps, 0)
}
