// The lines of the places of one kind that were asked for.

ghost use Rattle.std.specs.Prelude.{◌≡◌, map};
ghost use Rattle.std.specs.List.{concat};
ghost use Rattle.streams.specs.Pushing.{more};
ghost use Rattle.dependencies.specs.Rows.{rows_from};
ghost use Rattle.dependency_lines.specs.Heads.{head_text};
ghost use Rattle.dependency_lines.specs.Places.{earliest, joined_line, row_line, rows_text};
ghost use Rattle.dependency_lines.specs.Words as words;

use crate::heads::{Head, push_head};
use crate::words::{IndexFormat, push_row, push_step};
use dependencies::{Joining, Row, StepTable, next_row};
use streams::Text;

/// Appends the lines of the places from `from` on, which begin with `head`: one line for all rows with the least of their steps, or a
/// line for each row of one step. Without a row nothing is appended.
pub fn push_places<X: Text, T: StepTable>(
    text: &mut X,
    joining: Joining,
    head: &Head<'_>,
    table: &T,
    from: usize,
)
    ensures { let rows = rows_from joining (T.steps table.now) from in X.pushed text.new
        ≡ more (X.pushed text.old) (rows_text joining head.now.format (head_text head.now) rows) }
{
    match joining {
        Joining::Joined => push_joined(text, head, table, from),
        Joining::ByStep => push_each(text, head, table, from),
    }
}

// Appends one line for all rows.
fn push_joined<X: Text, T: StepTable>(text: &mut X, head: &Head<'_>, table: &T, from: usize)
    ensures { let rows = rows_from Joining.Joined (T.steps table.now) from in X.pushed text.new
        ≡ more (X.pushed text.old) (joined_line head.now.format (head_text head.now) rows) }
{
    let Some(first) = next_row(table, Joining::Joined, from) else {
        return;
    };
    push_head(text, head);
    push_row(text, head.format, first);
    let step = push_more(text, head.format, table, first);
    push_step(text, step)
}

// Appends the rows after this one, and returns the least of the steps of all of them.
fn push_more<X: Text, T: StepTable>(text: &mut X, format: IndexFormat, table: &T, first: Row) -> u64
    ensures rows { X.pushed text.new ≡ more (X.pushed text.old)
        (concat (map (words.row_text format) (rows_from Joining.Joined (T.steps table.now) (first.end)))) }
    ensures least { result
        ≡ earliest first.step (rows_from Joining.Joined (T.steps table.now) (first.end)) }
{
    let mut step = first.step;
    let mut from = first.end;
    while let Some(row) = next_row(table, Joining::Joined, from) {
        push_row(text, format, row);
        step = step.min(row.step);
        from = row.end;
    }
    step
}

// Appends a line for each row of one step.
fn push_each<X: Text, T: StepTable>(text: &mut X, head: &Head<'_>, table: &T, from: usize)
    ensures { X.pushed text.new ≡ more (X.pushed text.old)
        (concat (map (row_line head.now.format (head_text head.now))
        (rows_from Joining.ByStep (T.steps table.now) from))) }
{
    let mut from = from;
    while let Some(row) = next_row(table, Joining::ByStep, from) {
        push_row_line(text, head, row);
        from = row.end;
    }
}

// Appends the line of one row.
fn push_row_line<X: Text>(text: &mut X, head: &Head<'_>, row: Row)
    ensures { X.pushed text.new ≡ more (X.pushed text.old)
        (row_line head.now.format (head_text head.now) row) }
{
    push_head(text, head);
    push_row(text, head.format, row);
    push_step(text, row.step)
}
