// The lines of instructions.

ghost use Rattle.std.specs.Prelude.{◌≡◌, ◌≤◌, flat_map, map};
ghost use Rattle.machine.specs.PlainState.{PlainState};
ghost use Rattle.machine.specs.Runs.{state_of};
ghost use Rattle.report_lines.specs.FirstLines.{byte_text};
ghost use Rattle.streams.specs.Pushing.{more};
ghost use Rattle.trace_lines.specs.Rows.{row};
ghost use Rattle.trace_lines.specs.StepLines as step_lines;
ghost use Rattle.trace_lines.specs.StepLines.{cell_in, change_text, changes_text, step_start};

use crate::cell_rows::CellRow;
use i8080::byte_count;
use itoa::Buffer;
use machine::Run;
use mnemonics::push_instruction;
use report_lines::{byte_digits, regs_words, word_digits};
use streams::Text;

// Appends two digits for each byte.
fn push_digits<X: Text>(text: &mut X, bytes: &[u8])
    ensures { X.pushed text.new ≡ more (X.pushed text.old) (flat_map byte_text bytes.now) }
{
    for byte in bytes {
        text.push(byte_digits(*byte).as_bytes());
    }
}

// Appends the instruction that begins with three bytes: its bytes, and its text.
fn push_code<X: Text>(text: &mut X, first: u8, second: u8, third: u8)
    ensures { X.pushed text.new ≡ more (X.pushed text.old) (step_lines.code_text first second third) }
{
    push_digits(text, &[first, second, third][..byte_count(first)]);
    text.push(b" ");
    push_instruction(text, first, second, third)
}

/// Appends what the line of an instruction shows before the instruction is executed.
pub fn push_step_start<X: Text>(text: &mut X, run: &Run<'_>)
    ensures { X.pushed text.new
        ≡ more (X.pushed text.old) (step_start run.now.step (state_of run.now)) }
{
    let regs = run.regs();
    let next = regs.pc.wrapping_add(1);
    text.push(b"step ");
    text.push(Buffer::new().format(run.step()).as_bytes());
    text.push(b" ");
    text.push(regs_words(regs).as_bytes());
    text.push(b" ");
    push_code(
        text,
        run.byte(regs.pc),
        run.byte(next),
        run.byte(next.wrapping_add(1)),
    )
}

/// Returns the bytes of a row of at most two cells.
pub fn bytes_of(run: &Run<'_>, cells: CellRow) -> [u8; 2]
    ensures { result ≡ map (cell_in (state_of run.now)) (row cells.at 2) }
{
    [run.byte(cells.at), run.byte(cells.at.wrapping_add(1))]
}

// Appends a cell that was written, with its byte before and after.
fn push_change<X: Text>(text: &mut X, at: u16, old: u8, new: u8)
    ensures { X.pushed text.new ≡ more (X.pushed text.old) (change_text at old new) }
{
    text.push(b" cell ");
    text.push(word_digits(at).as_bytes());
    text.push(b" ");
    text.push(byte_digits(old).as_bytes());
    text.push(b" to ");
    text.push(byte_digits(new).as_bytes())
}

/// Appends the cells that were written, with their bytes in an earlier state, and in the state of a run.
pub fn push_changes<X: Text>(text: &mut X, run: &Run<'_>, cells: CellRow, old: [u8; 2])
    requires { cells.count ≤ 2 }
    ensures { (w : PlainState) → old ≡ map (cell_in w) (row cells.at 2) → X.pushed text.new
        ≡ more (X.pushed text.old) (changes_text w (state_of run.now) (row cells.at cells.count)) }
{
    if cells.count == 0 {
        return;
    }
    push_change(text, cells.at, old[0], run.byte(cells.at));
    if cells.count == 1 {
        return;
    }
    let next = cells.at.wrapping_add(1);
    push_change(text, next, old[1], run.byte(next))
}
