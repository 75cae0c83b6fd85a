// Whether a step has a line.

ghost use Rattle.std.specs.Prelude.{◌≡◌, ◌≤◌, ◌&&◌, ◌||◌, ◌∷◌, ◌++◌, IfOk, IsOk, OnErr, None, true};
ghost use Rattle.std.specs.List.{list_any};
ghost use Rattle.machine.specs.Runs.{state_of};
ghost use Rattle.accesses.specs.Accesses.{read_cells, written_cells};
ghost use Rattle.trace_lines.specs.Rows.{row};
ghost use Rattle.accesses.specs.Ranges.{is_in_range, passes_cells};
ghost use Rattle.machine.specs.Step.{is_call, is_instruction};
ghost use Rattle.trace_filters.specs.Chosen.{call_names, has_line, is_chosen, names, names_file, passes_address, passes_file};

use crate::choice::Choice;
use accesses::{CellRange, SpareMemory, call_passes};
use bdos::drive_of_byte;
use directory::is_match;
use filenames::{Drive, Fcb, Key};
use machine::Run;
use std::alloc::AllocError;
use trace_lines::{Argument, CellRow, argument_of, block_at, key_on, read_rows, written_row};

// Returns whether a cell is in a range.
fn is_in_range(range: CellRange, at: u16) -> bool
    ensures { result ≡ is_in_range range at }
{
    range.first <= at && at <= range.last
}

// Returns whether a cell of a row is in a range.
fn touches(range: CellRange, cells: CellRow) -> bool
    ensures { result ≡ list_any (is_in_range range) (row cells.at cells.count) }
{
    let next = cells.at.wrapping_add(1);
    match cells.count {
        0 => false,
        1 => is_in_range(range, cells.at),
        2 => is_in_range(range, cells.at) || is_in_range(range, next),
        _ => is_in_range(range, cells.at)
            || is_in_range(range, next)
            || is_in_range(range, next.wrapping_add(1)),
    }
}

// Returns whether a name in a control block is the file's, or a pattern that matches it.
fn names(drive: Option<Drive>, name: [u8; 11], key: &Key) -> bool
    ensures { result ≡ names drive name key.now }
{
    drive.is_some_and(|drive| is_match(&key_on(drive.number(), name), key))
}

// Returns whether a call with a control block names a file.
#[tactic(auto, unfolding(crate::specs::Chosen::names_file))]
fn names_file(argument: Argument, drive: Option<Drive>, block: &Fcb, key: &Key) -> bool
    ensures { result ≡ names_file argument drive block.now key.now }
{
    match argument {
        Argument::Nothing | Argument::Byte | Argument::Word => false,
        Argument::Renaming => names(drive, block.key(), key) || names(drive, block.new_key(), key),
        _ => names(drive, block.key(), key),
    }
}

// Returns whether the call at which a run is names a file.
fn call_names(run: &Run<'_>, key: &Key) -> bool
    ensures { result ≡ call_names (state_of run.now) key.now }
{
    let block = block_at(run);
    let drive = drive_of_byte(run.drive(), block.dr());
    names_file(argument_of(run.regs().c), drive, &block, key)
}

// Returns whether a PC passes the filter.
fn passes_address(at: Option<u16>, pc: u16) -> bool
    ensures { result ≡ passes_address at pc }
{
    at.is_none_or(|at| pc == at)
}

// Returns whether the next step passes the filter of files.
#[tactic(auto, unfolding(crate::specs::Chosen::passes_file))]
fn passes_file(run: &Run<'_>, file: &Option<Key>) -> bool
    ensures { result ≡ passes_file file.now (state_of run.now) }
{
    match file {
        None => true,
        Some(key) => run.is_at_call() && call_names(run, key),
    }
}

// Returns whether the next step is a call, or an instruction if they have lines too.
fn is_shown(run: &Run<'_>, instructions: bool) -> bool
    ensures { let c = (state_of run.now).core in
        result ≡ (is_call c || (instructions && is_instruction c)) }
{
    run.is_at_call() || (instructions && run.is_at_instruction())
}

// Returns whether a step is chosen by its number, its kind, its PC and the file that it names.
#[tactic(auto, unfolding(crate::specs::Chosen::is_chosen))]
fn is_chosen(run: &Run<'_>, choice: &Choice) -> bool
    ensures { result ≡ is_chosen choice.now run.now.step (state_of run.now) }
{
    let step = run.step();
    if step < choice.from || step > choice.to {
        return false;
    }
    if !is_shown(run, choice.instructions) {
        return false;
    }
    passes_address(choice.at, run.regs().pc) && passes_file(run, &choice.file)
}

// Returns whether the instruction at which a run is reads and writes what the filters ask for.
fn instruction_passes(run: &Run<'_>, choice: &Choice) -> bool
    requires { is_instruction (state_of run.now).core ≡ true }
    ensures { let s = run.now.session in let w = state_of run.now in
        result ≡ (passes_cells choice.now.writes (written_cells s w)
        && passes_cells choice.now.reads (read_cells s w)) }
{
    let cells = written_row(run);
    if !choice.writes.is_none_or(|range| touches(range, cells)) {
        return false;
    }
    let (own, others) = read_rows(run);
    choice
        .reads
        .is_none_or(|range| touches(range, own) || touches(range, others))
}

/// Returns whether the next step has a line.
///
/// # Errors
///
/// `Err` means out of memory, to try a call that passes the other filters if there is a filter of cells.
pub fn has_line(run: &Run<'_>, choice: &Choice, spare: &mut SpareMemory) -> Result<bool, AllocError>
    ensures line { IfOk result (λ b.
        b ≡ has_line choice.now run.now.session run.now.step (state_of run.now)) }
    ensures sure { choice.now.writes ≡ None → choice.now.reads ≡ None → IsOk result }
    ensures chosen { OnErr result (is_chosen choice.now run.now.step (state_of run.now) ≡ true) }
    ensures called { OnErr result (is_call (state_of run.now).core ≡ true) }
{
    if !is_chosen(run, choice) {
        return Ok(false);
    }
    if choice.writes.is_none() && choice.reads.is_none() {
        return Ok(true);
    }
    if run.is_at_call() {
        return call_passes(run, choice.writes, choice.reads, spare);
    }
    Ok(instruction_passes(run, choice))
}
