ghost use Rattle.std.specs.Prelude.{◌≡◌, ◌+◌, ◌^◌, ◌<◌, ◌≤◌, ◌⊎◌, Some, IfOk, IsSome, MatchResult, OnErr, OnOk, length, take, vec_len, nat_lt, if◌then◌else◌};
ghost use Rattle.machine.specs.Machine.{HasNoLooks, session_answers, after};
ghost use Rattle.machine.specs.SavedState.{saved_state_of};
ghost use Rattle.machine.specs.Session.{IsSession};
ghost use Rattle.machine.specs.Machine.{cold_run};
ghost use Rattle.machine.specs.Bound.{IsBound};
ghost use Rattle.replay.specs.Resuming.{AddsDue, AddsEachDue, resume_step};
ghost use Rattle.replay.specs.Ring.{Each, Rising, IsValidFor, SomeStep, start_step};
ghost use Rattle.replay.specs.Fits.{kept_length};
ghost use Rattle.replay.specs.LastState.{state_left_by};
ghost use Rattle.replay.specs.RunnerView.{IsSoundRunner, TicksTo};

use crate::report::LastRun;
use crate::ring::{Checkpoint, Checkpoints, latest_within, newest_step};
use crate::run::run_to_limit;
use circular_buffer::HeapCircularBuffer;
use machine::{BlankMarks, Cause, Meter, Noting, STEP_LIMIT, SavedState, Session, State};
use std::alloc::{AllocError, Global};
use std::mem;

/// What becomes of the text of the last run when a run resumes from a part of it.
#[derive(Clone, Copy)]
pub enum TextUse {
    /// It is copied, and stays for a kept step past the limit.
    Copy,
    /// It is moved into the state.
    Move,
}

// Returns what becomes of the text if the greatest kept step is `newest`.
fn text_use_of(limit: u64, newest: u64) -> TextUse
    ensures { result ≡ (if nat_lt limit newest then TextUse.Copy else TextUse.Move) }
{
    if limit < newest {
        TextUse::Copy
    } else {
        TextUse::Move
    }
}

// Returns the first `length` bytes of a text, copied, or moved and cut. At `Err` the text is unchanged.
fn text_prefix(
    alloc: Global,
    text: &mut Vec<u8>,
    length: usize,
    text_use: TextUse,
) -> Result<Vec<u8>, AllocError>
    requires { length ≤ vec_len text.old }
    ensures value { IfOk result (λ t. t.items ≡ take length text.old.items) }
    ensures copied { text_use ≡ TextUse.Copy → text.new.items ≡ text.old.items }
    ensures err { OnErr result (text.new.items ≡ text.old.items) }
{
    match text_use {
        TextUse::Copy => Vec::from_slice(alloc, &text[..length]),
        TextUse::Move => {
            let mut own = mem::replace(text, Vec::new(alloc));
            own.truncate(length);
            Ok(own)
        }
    }
}

// Returns memory for the marks of a run: the memory that the last run left, if there is any.
fn take_marks(alloc: Global, spare: &mut Option<BlankMarks>) -> Result<BlankMarks, AllocError> {
    match spare.take() {
        Some(marks) => Ok(marks),
        None => BlankMarks::new(alloc),
    }
}

// Returns the greatest kept step that is not past the limit, with its state, or else the start. The text is moved into the state,
// or copied as `text_use` says. At `Err` the text is unchanged.
fn begin(
    alloc: Global,
    session: &Session,
    text: &mut Vec<u8>,
    spare: &mut Option<BlankMarks>,
    ring: &HeapCircularBuffer<Checkpoint>,
    text_use: TextUse,
) -> Result<(u64, State), AllocError>
    requires stands { Each (IsValidFor (session_answers session.now) text.old.items) ring.now.items }
    requires rising { Rising ring.now.items }
    ensures at { IfOk result (λ r. after (session_answers session.now) r.0 ≡ Some r.1.state) }
    ensures looked { IfOk result (λ r. HasNoLooks r.1.looked) }
    ensures step { IfOk result (λ r. r.0 ≡ start_step session.now.limit ring.now.items) }
    ensures started { IfOk result (λ r. (r.0 ≡ 0) ⊎ SomeStep ring.now.items r.0) }
    ensures room { length ring.now.items ≤ ring.now.capacity }
    ensures bound { IfOk result (λ r. IsBound session.now r.1) }
    ensures copied { text_use ≡ TextUse.Copy → text.new.items ≡ text.old.items }
    ensures err { OnErr result (text.new.items ≡ text.old.items) }
{
    let Some(checkpoint) = latest_within(ring, session.limit()) else {
        let marks = take_marks(alloc, spare)?;
        let state = State::load_over(alloc, session, marks)?;
        return Ok((0, state));
    };
    let marks = take_marks(alloc, spare)?;
    let overlay = checkpoint.state.overlay(session, marks)?;
    let changes = checkpoint.state.changes(alloc)?;
    let own = text_prefix(alloc, text, checkpoint.state.text_length(), text_use)?;
    Ok((
        checkpoint.step,
        checkpoint.state.resume(overlay, changes, own),
    ))
}

// Returns what is kept of the state that a run left. Its text replaces a text that was moved; the memory for its marks goes to
// the next run.
fn save_end(
    text: &mut Vec<u8>,
    spare: &mut Option<BlankMarks>,
    state: State,
    text_use: TextUse,
) -> SavedState
    ensures kept { result ≡ saved_state_of state.state }
    ensures moved { text_use ≡ TextUse.Move → text.new.items ≡ state.state.core.desk.text }
    ensures copied { text_use ≡ TextUse.Copy → text.new.items ≡ text.old.items }
{
    let (kept, own, marks) = state.into_saved();
    *spare = Some(marks);
    if let TextUse::Move = text_use {
        *text = own;
    }
    kept
}

/// Runs a session from the greatest kept step that is not past its limit, or else from the start, and keeps the state in which
/// the run ends. Returns the number of steps and why the run ended.
///
/// # Errors
///
/// Returns `Err` if an allocation for the run fails. Checkpoints that the run made up to then are kept.
pub fn run_again(
    alloc: Global,
    last_run: &mut LastRun,
    checkpoints: &mut Checkpoints,
    meter: &mut Meter,
) -> Result<(u64, Cause), AllocError>
    requires sound { IsSoundRunner last_run.old.session last_run.old.text.items checkpoints.old }
    requires room { meter.old ≤ 2 ^ 63 }
    ensures session { (last_run.new.session ≡ last_run.old.session) × IsSession last_run.old.session }
    ensures cold { IfOk result (λ r. cold_run last_run.old.session
        ≡ record { state = state_left_by last_run.new; steps = r.0; cause = r.1 }) }
    ensures ended { OnOk result (IsSome last_run.new.end
        × (kept_length last_run.new.end ≤ length last_run.new.text.items)) }
    ensures sound { IsSoundRunner last_run.new.session last_run.new.text.items checkpoints.new }
    ensures ticked { IfOk result (λ r. meter.new + resume_step last_run.old.session checkpoints.old
        ≡ meter.old + r.0) }
    ensures metered { (meter.old ≤ meter.new) × (meter.new ≤ meter.old + STEP_LIMIT) }
    ensures broken_off { OnErr result
        (TicksTo (session_answers last_run.old.session) last_run.old.session.limit
        (resume_step last_run.old.session checkpoints.old) meter.old meter.new) }
    ensures adds { MatchResult result
        (λ r. AddsEachDue checkpoints.old checkpoints.new
        (resume_step last_run.old.session checkpoints.old) r.0)
        (λ _. AddsDue checkpoints.old checkpoints.new (resume_step last_run.old.session checkpoints.old)
        last_run.old.session.limit) }
    ensures options { (checkpoints.new.ring.capacity ≡ checkpoints.old.ring.capacity)
        × (checkpoints.new.spacing ≡ checkpoints.old.spacing) }
{
    last_run.end = None;
    checkpoints.left_out = None;
    checkpoints.notes.noting = Noting::Looks;
    let newest = newest_step(&checkpoints.ring);
    let text_use = text_use_of(last_run.session.limit(), newest);
    let (from, mut state) = begin(
        alloc,
        &last_run.session,
        &mut last_run.text,
        &mut last_run.marks,
        &checkpoints.ring,
        text_use,
    )?;
    let session = &last_run.session;
    let (steps, ran) = run_to_limit(session, checkpoints, meter, newest, from, &mut state);
    let kept = save_end(&mut last_run.text, &mut last_run.marks, state, text_use);
    let cause = ran?;
    last_run.end = Some(kept);
    Ok((steps, cause))
}
