// Steps one after another.

ghost use Rattle.std.specs.Prelude.{◌≡◌, ◌==◌, ◌+◌, ◌-◌, ◌^◌, ◌<◌, ◌≤◌, true, false, IfErr, IfOk, IfNone, IfSome, OnErr, OnOk, max};
ghost use Rattle.interaction_trees.specs.Outcome.{Stop};
ghost use Rattle.i8080.specs.Instruction.{instruction};
ghost use Rattle.i8080.specs.Performs.{Performs};
ghost use Rattle.pagemem.specs.Overlay.{beneath_of, is_ready_at};
ghost use Rattle.machine.specs.Bound.{IsBound};
ghost use Rattle.machine.specs.Machine.{session_answers, outcome, HasNoQuestions, IsReached};
ghost use Rattle.machine.specs.Runs.{IsAt, KeepsNotes, asked_by};
ghost use Rattle.machine.specs.Session.{image_of};
ghost use Rattle.machine.specs.Step.{bdos_entry};
ghost use Rattle.machine.specs.Stops.{stop_of_instruction};
ghost use Rattle.machine.specs.TakesStep.{memory_over_image, TakesStep};
ghost use Rattle.machine.specs.Stretch.{RunsTo, RunsQuietly, needs_notes};
ghost use Rattle.machine.specs.declared.noting.Noting.TheVariants.{Failed, Looks};

use crate::meter::Meter;
use crate::noting::{Noting, RunNotes, note_step, pass_to};
use crate::session::{STEP_LIMIT, Session};
use crate::state::State;
use crate::system_area::{BDOS_ENTRY, enter_system};
use console_calls::Cause;
use i8080::{Did, Regs, execute};
use known_run::run_known;
use pagemem::{LearningView, Overlay, SYSTEM_AREA, View};
use std::alloc::AllocError;

// Executes at most `steps` instructions below the system area that need only known cells. Returns how many they were. It is never
// inlined and calls nothing, so that the loop has all registers of the processor.
#[inline(never)]
fn run_quietly(state: &mut State, steps: u64) -> u64
    ensures within { result ≤ steps }
    ensures runs { RunsQuietly result state.old state.new }
{
    run_known(&mut state.regs, &mut state.overlay, steps)
}

// Executes an instruction over a session's image.
fn execute_over(
    regs: &mut Regs,
    overlay: &mut Overlay,
    session: &Session,
) -> Result<Did, AllocError>
    ensures { Performs (instruction regs.old) regs.old (memory_over_image session.now overlay.old)
        (is_ready_at overlay.old) result regs.new (memory_over_image session.now overlay.new) }
{
    let mut view = View::new(session.image(), overlay);
    execute(regs, &mut view)
}

// Does the same, makes each cell that it reads known, and learns the opcode of the instruction. It is never inlined, because most
// instructions are executed by the loop over known cells.
#[inline(never)]
fn execute_learning(
    regs: &mut Regs,
    overlay: &mut Overlay,
    session: &Session,
) -> Result<Did, AllocError>
    requires { beneath_of overlay.old ≡ image_of session.now }
    ensures performs { Performs (instruction regs.old) regs.old
        (memory_over_image session.now overlay.old) (is_ready_at overlay.old) result regs.new
        (memory_over_image session.now overlay.new) }
    ensures beneath { beneath_of overlay.new ≡ image_of session.now }
{
    let at = regs.pc;
    let mut view = LearningView::new(session.image(), overlay);
    let did = execute(regs, &mut view)?;
    overlay.learn_opcode(at);
    Ok(did)
}

// Returns the cause if an instruction stopped.
#[inline(always)]
fn stop_of_instruction(did: Did) -> Option<Cause>
    ensures { result ≡ stop_of_instruction did }
{
    match did {
        Did::Went => None,
        Did::Halt => Some(Cause::Halt),
        Did::Undefined(byte) => Some(Cause::Undefined(byte)),
    }
}

// Executes one step, or returns the cause of a stop. If `learns`, each cell that it reads becomes known.
#[inline(always)]
fn execute_step(
    state: &mut State,
    session: &Session,
    learns: bool,
) -> Result<Option<Cause>, AllocError>
    requires at { IsReached (session_answers session.now) state.old.state }
    requires bound { learns ≡ true → IsBound session.now state.old }
    ensures step { TakesStep session.now state.old result state.new }
    ensures bound { learns ≡ true → IsBound session.now state.new }
{
    if state.regs.pc >= SYSTEM_AREA {
        return enter_system(state, session, learns);
    }
    if learns {
        let did = execute_learning(&mut state.regs, &mut state.overlay, session)?;
        return Ok(stop_of_instruction(did));
    }
    let did = execute_over(&mut state.regs, &mut state.overlay, session)?;
    Ok(stop_of_instruction(did))
}

/// Where a run ends, unless it stops.
#[derive(Clone, Copy)]
pub(crate) enum Until {
    /// At its last step. It fails if it cannot note a step.
    End,
    /// At its last step, or before a call. It fails if it cannot note a step.
    Call,
    /// At its last step. If it cannot note a step, it goes on without notes.
    EndUnnoted,
}

// Returns whether a run ends before its last step, with PC at this address.
#[inline(always)]
fn ends_before(until: Until, pc: u16) -> bool
    ensures here { result ≡ true → (until ≡ Until.Call) × ((pc == bdos_entry) ≡ true) }
    ensures other { result ≡ false → until ≡ Until.Call → (pc == bdos_entry) ≡ false }
{
    match until {
        Until::End | Until::EndUnnoted => false,
        Until::Call => pc == BDOS_ENTRY,
    }
}

// Executes step `step` outside the loop over known cells and counts it, or returns the cause of a stop, and notes the looks as the notes
// say. If it fails, the run notes nothing any more; a step that only could not be noted was executed.
#[inline(always)]
fn slow_step(
    state: &mut State,
    notes: &mut RunNotes,
    session: &Session,
    step: &mut u64,
    until: Until,
) -> Result<Option<Cause>, AllocError>
    requires within { step.old < STEP_LIMIT }
    requires run { IsAt session.now step.old state.old notes.old }
    ensures run { IsAt session.now step.new state.new notes.new }
    ensures low { step.old ≤ step.new }
    ensures asked { IfOk result (λ stop. asked_by step.new stop ≡ step.old + 1) }
    ensures failed { OnErr result (step.new ≤ step.old + 1) }
    ensures unnoted { OnErr result (needs_notes until ≡ false → step.new ≡ step.old) }
    ensures stops { IfOk result (λ stop. IfSome stop (λ cause.
        outcome (session_answers session.now) state.new.state ≡ Stop cause)) }
    ensures stays { IfOk result (λ stop. IfSome stop (λ _. state.new.state ≡ state.old.state)) }
    ensures notes { KeepsNotes notes.old notes.new }
    ensures seen { OnOk result (notes.new.noting ≡ Looks
        → notes.new.looks.seen ≡ max notes.old.looks.seen (step.old + 1)) }
    ensures noted { needs_notes until ≡ true → OnOk result (notes.new.noting ≡ notes.old.noting) }
    ensures off { IfErr result (λ failure. notes.new.noting ≡ Failed failure) }
    ensures drained { OnOk result (HasNoQuestions state.new.looked) }
{
    let cells = state.look_count();
    match execute_step(state, session, true) {
        Ok(stop) => {
            let noted = note_step(notes, *step, state, cells);
            *step += u64::from(stop.is_none());
            match noted {
                Err(failure) if !matches!(until, Until::EndUnnoted) => Err(failure),
                _ => Ok(stop),
            }
        }
        Err(failure) => {
            notes.noting = Noting::Failed(failure);
            Err(failure)
        }
    }
}

/// Executes steps from `step` on: up to step `end`, to a stop, whose cause it returns, or, with `Until::Call`, to a call. Notes the
/// looks of the steps and of a stop as the notes say. `step` is then the step that was reached, also at `Err`.
///
/// # Errors
///
/// `Err` means out of memory, for a step or, except with `Until::EndUnnoted`, for its notes. It leaves the state that was reached, and the
/// run notes nothing any more.
#[inline(never)]
pub(crate) fn run_until(
    state: &mut State,
    notes: &mut RunNotes,
    session: &Session,
    step: &mut u64,
    end: u64,
    until: Until,
) -> Result<Option<Cause>, AllocError>
    requires order { (step.old ≤ end) × (end ≤ STEP_LIMIT) }
    requires run { IsAt session.now step.old state.old notes.old }
    ensures runs { RunsTo until session.now step.old end step.new result state.new.state }
    ensures run { IsAt session.now step.new state.new notes.new }
    ensures notes { KeepsNotes notes.old notes.new }
    ensures seen { IfOk result (λ stop. notes.new.noting ≡ Looks
        → notes.new.looks.seen ≡ max notes.old.looks.seen (asked_by step.new stop)) }
    ensures noted { needs_notes until ≡ true → OnOk result (notes.new.noting ≡ notes.old.noting) }
    ensures off { IfErr result (λ failure. notes.new.noting ≡ Failed failure) }
    ensures ended { needs_notes until ≡ true → notes.old.noting ≡ Looks
        → OnErr result (step.new ≤ notes.new.looks.seen + 1) }
{
    while *step < end {
        *step += run_quietly(state, end - *step);
        pass_to(notes, *step);
        if *step == end || ends_before(until, state.regs.pc) {
            return Ok(None);
        }
        match slow_step(state, notes, session, step, until) {
            Ok(None) => {}
            Ok(Some(cause)) => return Ok(Some(cause)),
            Err(failure) => return Err(failure),
        }
    }
    Ok(None)
}

/// Executes steps from `step` on up to step `end`, or to a stop, whose cause it returns, and notes the looks as far as memory allows.
/// The meter counts the steps, and `step` is then the step that was reached, also at `Err`.
///
/// # Errors
///
/// `Err` means out of memory. It leaves the state that was reached.
pub fn run_and_note(
    state: &mut State,
    notes: &mut RunNotes,
    session: &Session,
    meter: &mut Meter,
    step: &mut u64,
    end: u64,
) -> Result<Option<Cause>, AllocError>
    requires order { (step.old ≤ end) × (end ≤ STEP_LIMIT) }
    requires run { IsAt session.now step.old state.old notes.old }
    requires room { meter.old + (end - step.old) < 2 ^ 64 }
    ensures runs { RunsTo Until.EndUnnoted session.now step.old end step.new result state.new.state }
    ensures run { IsAt session.now step.new state.new notes.new }
    ensures notes { KeepsNotes notes.old notes.new }
    ensures ticks { meter.new + step.old ≡ meter.old + step.new }
{
    let from = *step;
    let ended = run_until(state, notes, session, step, end, Until::EndUnnoted);
    meter.tick_by(*step - from);
    ended
}

/// Executes one step, or returns the cause of a stop. A stop leaves the state unchanged, and adds the looks of
/// the step that stops. The meter counts the step only if it is executed.
///
/// # Errors
///
/// `Err` means out of memory. It leaves the state unchanged, with the earlier looks and some of the looks of the step.
pub fn step(
    state: &mut State,
    session: &Session,
    meter: &mut Meter,
) -> Result<Option<Cause>, AllocError>
    requires at { IsReached (session_answers session.now) state.old.state }
    requires room { meter.old + 1 < 2 ^ 64 }
    ensures step { TakesStep session.now state.old result state.new }
    ensures ticked { IfOk result (λ r. IfNone r (meter.new ≡ meter.old + 1)) }
    ensures stopped { IfOk result (λ r. IfSome r (λ _. meter.new ≡ meter.old)) }
    ensures failed { OnErr result (meter.new ≡ meter.old) }
{
    let stop = execute_step(state, session, false)?;
    if stop.is_none() {
        meter.tick();
    }
    Ok(stop)
}
