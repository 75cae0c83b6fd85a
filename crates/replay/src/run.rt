ghost use Rattle.std.specs.Prelude.{◌≡◌, ◌+◌, ◌^◌, ◌≤◌, Some, None, IfOk, MatchResult};
ghost use Rattle.machine.specs.Machine.{session_answers, after, cold_run};
ghost use Rattle.machine.specs.declared.noting.Noting.TheVariants.{Looks};
ghost use Rattle.replay.specs.Resuming.{IsResumePoint, AreCheckpointsOf, LeavesCheckpoints, AddsDue, AddsEachDue, left_out_step};
ghost use Rattle.replay.specs.Ring.{IsNewest};

use crate::ring::{Checkpoints, LeftOut, due_after, push_checkpoint};
use machine::{Cause, Meter, Session, State, run_and_note};
use std::alloc::AllocError;

/// Runs from step `from` to the limit or a stop, and makes a checkpoint at each due step above `newest`, or leaves it out if an
/// allocation for it fails. Returns the number of steps, also at `Err`, and why the run ended. `state` is then the last state that was
/// reached.
///
/// # Errors
///
/// Returns `Err` if an allocation for the run fails.
pub fn run_to_limit(
    session: &Session,
    checkpoints: &mut Checkpoints,
    meter: &mut Meter,
    newest: u64,
    from: u64,
    state: &mut State,
) -> (u64, Result<Cause, AllocError>)
    requires begins { IsResumePoint session.now checkpoints.old from state.old }
    requires sound { AreCheckpointsOf (session_answers session.now) checkpoints.old }
    requires newest { IsNewest newest checkpoints.old.ring.items }
    requires anew { (checkpoints.old.notes.noting ≡ Looks) × (left_out_step checkpoints.old ≡ None) }
    requires room { meter.old ≤ 2 ^ 63 }
    ensures cold { IfOk result.1 (λ cause. cold_run session.now
        ≡ record { state = state.new.state; steps = result.0; cause = cause }) }
    ensures at { after (session_answers session.now) result.0 ≡ Some state.new.state }
    ensures within { (from ≤ result.0) × (result.0 ≤ session.now.limit) }
    ensures ticks { meter.new + from ≡ meter.old + result.0 }
    ensures leaves { LeavesCheckpoints session.now newest result.0 checkpoints.old checkpoints.new }
    ensures adds { MatchResult result.1 (λ _. AddsEachDue checkpoints.old checkpoints.new from result.0)
        (λ _. AddsDue checkpoints.old checkpoints.new from session.now.limit) }
{
    let limit = session.limit();
    let spacing = checkpoints.spacing;
    let mut n = from;
    while n < limit {
        let tried = newest.max(n);
        let end = due_after(n, spacing, limit);
        let stop = match run_and_note(state, &mut checkpoints.notes, session, meter, &mut n, end) {
            Ok(stop) => stop,
            Err(failure) => return (n, Err(failure)),
        };
        let noted = checkpoints.notes.noted();
        let made = push_checkpoint(&mut checkpoints.ring, tried, n, noted, state);
        checkpoints.left_out = match made {
            Ok(()) => checkpoints.left_out,
            Err(failure) => Some(LeftOut { step: n, failure }),
        };
        if let Some(cause) = stop {
            return (n, Ok(cause));
        }
    }
    (n, Ok(Cause::Limit))
}
