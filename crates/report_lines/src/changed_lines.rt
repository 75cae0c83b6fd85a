// The lines of the changed files.

ghost use Rattle.std.specs.Prelude.{◌≡◌, ◌++◌, [], length, unwrap_or};
ghost use Rattle.filenames.specs.Names.{display_text};
ghost use Rattle.hostfiles.specs.Files.{files};
ghost use Rattle.hostfiles.specs.FileView.{view_contents};
ghost use Rattle.report_lines.specs.ChangedLines.{records_text, line_of_file, lines_of_files};
ghost use Rattle.streams.specs.Pushing.{more};

use crate::hex_digits::push_hex;
use filenames::Pieces;
use hostfiles::{ChangedFile, FileView, HostFiles, Journal, Name, next_changed};
use streams::Text;

/// Which changed files are reported.
#[derive(Clone, Copy, Debug, PartialEq, Eq)]
pub enum FileFilter {
    /// All of them.
    All,
    /// The ones that are gone.
    GoneOnly,
}

/// Appends the lines of the changed files that pass the filter, in the order of their names: `file NAME HEX` with all records of a file
/// that is there, `gone NAME` for one that is gone.
pub fn push_changed_files<X: Text>(
    text: &mut X,
    filter: FileFilter,
    host: &HostFiles,
    journal: &Journal,
)
    ensures { X.pushed text.new ≡ more (X.pushed text.old)
        (lines_of_files filter host.now (files host.now journal.now.entries)) }
{
    let mut after: Option<Name> = None;
    while let Some(changed) = next_changed(host, journal, after.as_ref()) {
        push_filtered(text, filter, &changed);
        after = Some(changed.name);
    }
}

// Appends the line of a changed file if it passes the filter.
fn push_filtered<X: Text>(text: &mut X, filter: FileFilter, changed: &ChangedFile<'_>)
    ensures { X.pushed text.new ≡ more (X.pushed text.old)
        (line_of_file filter changed.now.name (view_contents changed.now.file)) }
{
    match (changed.file.records(), filter) {
        (None, _) => {
            push_named(text, b"gone ", &changed.name);
            text.push(b"\n")
        }
        (Some(_), FileFilter::GoneOnly) => (),
        (Some(count), FileFilter::All) => {
            push_named(text, b"file ", &changed.name);
            text.push(b" ");
            push_records(text, &changed.file, count);
            text.push(b"\n")
        }
    }
}

/// Appends a word with its blank, and then a name in its printed form.
pub fn push_named<X: Text>(text: &mut X, word: &[u8], name: &Name)
    ensures { X.pushed text.new ≡ more (X.pushed text.old) (word.now ++ display_text name.now) }
{
    let Pieces {
        drive,
        name,
        dot,
        kind,
    } = name.pieces();
    text.push(word);
    text.push(drive.as_bytes());
    text.push(name.as_bytes());
    text.push(dot.as_bytes());
    text.push(kind.as_bytes())
}

// Appends all records of a file, with zeros in its holes, or `-` if it has none.
fn push_records<X: Text>(text: &mut X, file: &FileView<'_>, count: u32)
    requires { count ≡ length (unwrap_or (view_contents file.now) []) }
    ensures { X.pushed text.new ≡ more (X.pushed text.old)
        (records_text (unwrap_or (view_contents file.now) [])) }
{
    if count == 0 {
        text.push(b"-");
        return;
    }
    for number in 0..count {
        let Some(record) = file.contents_record(number).copied() else {
            unreachable!();
        };
        push_hex(text, record.as_slice());
    }
}
