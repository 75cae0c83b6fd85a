// Places, rows and steps.

ghost use Rattle.std.specs.Prelude.{◌≡◌};
ghost use Rattle.streams.specs.Pushing.{more};
ghost use Rattle.dependency_lines.specs.Words as words;

use dependencies::Row;
use itoa::Buffer;
use report_lines::word_digits;
use streams::Text;

/// How a place is printed.
#[derive(Clone, Copy)]
pub enum IndexFormat {
    /// The address of a cell, as four hexadecimal digits.
    Cell,
    /// An offset of the script or the number of a record, in decimal.
    Number,
}

// Appends a place.
fn push_place<X: Text>(text: &mut X, format: IndexFormat, index: usize)
    ensures { X.pushed text.new ≡ more (X.pushed text.old) (words.place_text format index) }
{
    match format {
        IndexFormat::Cell => text.push(word_digits((index % 65_536) as u16).as_bytes()),
        IndexFormat::Number => text.push(Buffer::new().format(index).as_bytes()),
    }
}

/// Appends a row, after a blank: its first place, and its last one if it has more.
pub fn push_row<X: Text>(text: &mut X, format: IndexFormat, row: Row)
    ensures { X.pushed text.new ≡ more (X.pushed text.old) (words.row_text format row) }
{
    text.push(b" ");
    push_place(text, format, row.first);
    let last = row.end.saturating_sub(1);
    if row.first < last {
        text.push(b"-");
        push_place(text, format, last);
    }
}

/// Appends the end of a line: the first step, with the line's end.
pub fn push_step<X: Text>(text: &mut X, step: u64)
    ensures { X.pushed text.new ≡ more (X.pushed text.old) (words.step_end step) }
{
    text.push(b" step ");
    text.push(Buffer::new().format(step).as_bytes());
    text.push(b"\n");
}
