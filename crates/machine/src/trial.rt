// The cells that the next call of a run writes and reads, by a trial that leaves the run unchanged.

ghost use Rattle.std.specs.Prelude.{◌≡◌, [], true, IfOk, None, slice_index};
ghost use Rattle.pagemem.specs.Overlay.{is_ready_at, looks_of, own_of};
ghost use Rattle.machine.specs.Accesses.{NotesStep};
ghost use Rattle.machine.specs.Runs.{state_of};
ghost use Rattle.machine.specs.Step.{is_call};

use crate::run::Run;
use bdos::call;
use cpmfiles::Table;
use i8080::Bus;
use pagemem::{Beneath, BlankMarks, Cells, Overlay};
use std::alloc::{AllocError, Global};

/// The memory of earlier trials, kept for the next one so that it is allocated once.
#[derive(Drop)]
pub struct SpareMemory {
    marks: Option<BlankMarks>,
}

impl SpareMemory {
    /// Begins without memory.
    pub fn new() -> SpareMemory {
        SpareMemory { marks: None }
    }

    // Returns a memory with nothing written and no looks.
    fn take(&mut self, alloc: Global) -> Result<Overlay, AllocError>
        ensures own { IfOk result (λ o. own_of o ≡ (λ _. None)) }
        ensures looks { IfOk result (λ o. looks_of o ≡ []) }
    {
        let Some(marks) = self.marks.take() else {
            return Overlay::new(alloc);
        };
        let beneath = Beneath::of(&[0; 256], &Vec::new(alloc));
        Ok(Overlay::from_parts(marks, Cells::new(alloc)?, beneath))
    }

    /// Takes the memory of a trial, which the next one may use.
    pub fn keep(&mut self, noted: Overlay) {
        let (_, marks) = noted.into_parts();
        self.marks = Some(marks);
    }
}

/// The memory of a run, with the writes and looks of a trial noted over it.
#[derive(Drop)]
struct NotingMemory<'r, 's> {
    run: &'r Run<'s>,
    noted: Overlay,
}

impl Bus for NotingMemory<'_, '_> {
    ghost memory = { λ m. record {
      own = own_of m.noted;
      beneath = slice_index (state_of m.run.now).memory;
      looks = looks_of m.noted;
      lender = None;
    } };

    ghost is_ready = { λ m. is_ready_at m.noted };

    fn ready(&mut self, a: u16) -> Result<(), AllocError> {
        self.noted.ready(a)
    }

    fn read(&mut self, a: u16) -> u8 {
        // This only notes the look: the byte may be one that the run wrote.
        self.noted.read(self.run.session().image(), a);
        self.noted.written(a).unwrap_or(self.run.byte(a))
    }

    fn write(&mut self, a: u16, value: u8) {
        self.noted.write(a, value)
    }
}

/// Executes the next call of a run on copies, and returns what it wrote, with its looks as the cells that it read.
///
/// # Errors
///
/// `Err` means out of memory.
pub fn next_cells(run: &Run<'_>, spare: &mut SpareMemory) -> Result<Overlay, AllocError>
    requires { is_call (state_of run.now).core ≡ true }
    ensures { IfOk result (λ o. NotesStep run.now.session (state_of run.now) (own_of o) (looks_of o)) }
{
    let session = run.session();
    let state = run.state();
    let mut desk = state.desk.at_same_spot()?;
    let noted = spare.take(desk.allocator())?;
    let mut changes = state.changes.snapshot()?;
    let mut table = Table::new(session.files(), &mut changes);
    let mut regs = state.regs;
    let mut memory = NotingMemory { run, noted };
    call(
        &mut regs,
        &mut memory,
        &mut table,
        &mut desk,
        session.script(),
    )?;
    Ok(memory.noted)
}
