// Whether a call passes filters of the cells that it writes and reads.

ghost use Rattle.std.specs.Prelude.{◌≡◌, ◌&&◌, true, IfOk};
ghost use Rattle.machine.specs.Runs.{state_of};
ghost use Rattle.machine.specs.Step.{is_call};
ghost use Rattle.accesses.specs.Accesses.{read_cells, written_cells};
ghost use Rattle.accesses.specs.Ranges.{passes_cells};

use crate::ranges::{CellRange, is_any_looked, is_any_written};
use machine::{Run, SpareMemory, next_cells};
use std::alloc::AllocError;

/// Returns whether the next call of a run writes a cell of `writes` and reads a cell of `reads`. `None` asks for nothing.
/// The call is executed on copies, so the run is unchanged.
///
/// # Errors
///
/// `Err` means out of memory.
#[tactic(auto, using(crate::proofs::RangeLemmas::passes))]
pub fn call_passes(
    run: &Run<'_>,
    writes: Option<CellRange>,
    reads: Option<CellRange>,
    spare: &mut SpareMemory,
) -> Result<bool, AllocError>
    requires { is_call (state_of run.now).core ≡ true }
    ensures { let s = run.now.session in let w = state_of run.now in IfOk result (λ b. b
        ≡ (passes_cells writes (written_cells s w) && passes_cells reads (read_cells s w))) }
{
    let noted = next_cells(run, spare)?;
    let passes = writes.is_none_or(|range| is_any_written(&noted, range))
        && reads.is_none_or(|range| is_any_looked(&noted, range));
    spare.keep(noted);
    Ok(passes)
}
