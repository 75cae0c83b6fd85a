ghost use Rattle.std.specs.Prelude.{◌≡◌, ◌<◌, ◌≤◌, ◌⊎◌, true, false, IfErr, IsOk, OnOk, length, max};
ghost use Rattle.first_looks.specs.FirstLooks.{with_seen};
ghost use Rattle.machine.specs.FirstLooks.{ForgetsSeenStep, NotesSeenStep};
ghost use Rattle.machine.specs.Machine.{HasNoQuestions, looks_from};
ghost use Rattle.machine.specs.Runs.{IsNoting};
ghost use Rattle.machine.specs.declared.noting.Noting.TheVariants.{Failed, Looks};

use crate::session::STEP_LIMIT;
use crate::state::State;
use first_looks::FirstLooks;
use std::alloc::AllocError;

/// Which looks a run notes.
#[derive(Clone, Copy)]
pub enum Noting {
    /// None.
    Nothing,
    /// The looks of each step, and of a stop.
    Looks,
    /// None any more, since an allocation failed.
    Failed(AllocError),
}

/// The first looks of a session, and which looks its run notes.
#[derive(Drop)]
pub struct RunNotes {
    pub looks: FirstLooks,
    pub noting: Noting,
}

impl RunNotes {
    /// Returns the failed allocation if the run could not note the looks of one of its steps.
    pub fn noted(&self) -> Result<(), AllocError>
        requires { IsNoting self.now.noting }
        ensures noted { IsOk result → self.now.noting ≡ Looks }
        ensures failed { IfErr result (λ failure. self.now.noting ≡ Failed failure) }
    {
        match self.noting {
            Noting::Failed(failure) => Err(failure),
            _ => Ok(()),
        }
    }
}

// Notes that the steps from `seen` on and below `reached` looked at nothing new.
#[inline(always)]
pub(crate) fn pass_to(notes: &mut RunNotes, reached: u64)
    ensures passed { notes.old.noting ≡ Looks
        → notes.new.looks ≡ with_seen notes.old.looks (max notes.old.looks.seen reached) }
    ensures other { (notes.old.noting ≡ Looks → ⊥) → notes.new.looks ≡ notes.old.looks }
    ensures noting { notes.new.noting ≡ notes.old.noting }
{
    if let Noting::Looks = notes.noting {
        let seen = notes.looks.seen().max(reached);
        notes.looks.advance_to(seen);
    }
}

// Notes the new looks of a state, with the cells from index `from` on, as looks of this step, if the run notes looks and this is the first
// step that is not seen; earlier steps are noted already. The script offsets and the questions to the host files are forgotten. If an
// allocation fails, the run notes nothing any more.
#[inline(always)]
pub(crate) fn note_step(
    notes: &mut RunNotes,
    step: u64,
    state: &mut State,
    from: usize,
) -> Result<(), AllocError>
    requires few { from ≤ length state.old.looked.cells }
    requires within { step < STEP_LIMIT }
    ensures next { notes.old.noting ≡ Looks → step ≡ notes.old.looks.seen
        → (NotesSeenStep notes.old.looks notes.new.looks (looks_from from state.old.looked)
        × (notes.new.noting ≡ Looks))
        ⊎ (ForgetsSeenStep notes.old.looks notes.new.looks
        × (IsNoting notes.new.noting × (notes.new.noting ≡ Looks → ⊥))) }
    ensures other { (notes.old.noting ≡ Looks → step ≡ notes.old.looks.seen → ⊥)
        → (notes.new.looks ≡ notes.old.looks) × (notes.new.noting ≡ notes.old.noting) }
    ensures noted { OnOk result (notes.new.noting ≡ notes.old.noting) }
    ensures failed { IfErr result (λ failure. notes.new.noting ≡ Failed failure) }
    ensures drained { HasNoQuestions state.new.looked }
    ensures state { state.new.state ≡ state.old.state }
    ensures cells { state.new.looked.cells ≡ state.old.looked.cells }
    ensures beneath { state.new.beneath ≡ state.old.beneath }
{
    let mut noted = Ok(());
    if matches!(notes.noting, Noting::Looks) && step == notes.looks.seen() {
        noted = state.note_looks(from, &mut notes.looks);
        match noted {
            Ok(()) => notes.looks.next_step(),
            Err(failure) => {
                notes.looks.erase_from(step);
                notes.noting = Noting::Failed(failure);
            }
        }
    }
    state.forget_questions();
    noted
}
