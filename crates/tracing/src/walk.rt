// A walk along a run, which pushes the line of each chosen step.

ghost use Rattle.std.specs.Prelude.{◌≡◌, ◌+◌, ◌-◌, ◌<◌, ◌≤◌, ◌||◌, IfOk, None, Some, drop, length, max, take, false, true};
ghost use Rattle.machine.specs.Session.{IsSession};
ghost use Rattle.machine.specs.PlainLaid.{plain_after};
ghost use Rattle.machine.specs.PlainState.{plain_outcome};
ghost use Rattle.machine.specs.Runs.{Leads, asked_by, state_of};
ghost use Rattle.streams.specs.Pushing.{Pushed, PushesText, PushesUnless, more};
ghost use Rattle.trace_lines.specs.CallLines.{call_line};
ghost use Rattle.trace_lines.specs.StepLines.{step_line};
ghost use Rattle.machine.specs.Step.{is_call, is_instruction};
ghost use Rattle.tracing.specs.Trace.{console_text, line_of};
ghost use Rattle.tracing.specs.Walks.{GoesBy, HasNoLine, IsEnd, WalksOn, kept_line, lines_left, walked};

use machine::{Cause, Run, STEP_LIMIT};
use std::alloc::AllocError;
use streams::{STEPS_UNTIL_TEXT, Text, Writer};
use trace_filters::{Choice, SpareMemory, has_line};
use trace_lines::{
    bytes_of, push_call_end, push_call_start, push_changes, push_step_start, written_row,
};

/// What a walk keeps from step to step.
#[derive(Drop)]
pub struct Walker {
    /// How many of the next chosen lines are left out.
    pub skip: u64,
    spare: SpareMemory,
}

impl Walker {
    /// Returns a walker that leaves out the first `skip` chosen lines.
    pub fn new(skip: u64) -> Walker
        ensures { result.skip ≡ skip }
    {
        Walker {
            skip,
            spare: SpareMemory::new(),
        }
    }
}

// Returns a text without its first bytes.
fn after(text: &[u8], count: usize) -> &[u8]
    requires { count ≤ length text.now }
    ensures { result.now ≡ drop count text.now }
{
    &text[count..]
}

// Executes a call, and pushes its line.
fn push_call<X: Text>(run: &mut Run<'_>, text: &mut X) -> Result<Option<Cause>, AllocError>
    requires below { run.old.step < run.old.session.limit }
    requires most { run.old.session.limit ≤ STEP_LIMIT }
    ensures session { run.new.session ≡ run.old.session }
    ensures leads { IfOk result (λ stop. Leads run.old run.new stop) }
    ensures noted { run.old.seen ≡ Some run.old.step
        → IfOk result (λ stop. run.new.seen ≡ Some (asked_by run.new.step stop)) }
    ensures line { let w = state_of run.old in PushesText (X.pushed text.old) (X.pushed text.new)
        (call_line run.old.step w (plain_outcome run.old.session w)) result }
{
    push_call_start(text, run);
    let number = run.regs().c;
    let sent = run.text().len();
    let stop = run.take_step()?;
    if stop.is_none() {
        push_call_end(text, number, run.regs(), after(run.text(), sent));
    }
    text.push(b"\n");
    Ok(stop)
}

// Executes an instruction, and pushes its line.
fn push_instruction<X: Text>(run: &mut Run<'_>, text: &mut X) -> Result<Option<Cause>, AllocError>
    requires below { run.old.step < run.old.session.limit }
    requires most { run.old.session.limit ≤ STEP_LIMIT }
    requires instruction { is_instruction (state_of run.old).core ≡ true }
    ensures session { run.new.session ≡ run.old.session }
    ensures leads { IfOk result (λ stop. Leads run.old run.new stop) }
    ensures noted { run.old.seen ≡ Some run.old.step
        → IfOk result (λ stop. run.new.seen ≡ Some (asked_by run.new.step stop)) }
    ensures line { let w = state_of run.old in PushesText (X.pushed text.old) (X.pushed text.new)
        (step_line run.old.session run.old.step w (plain_outcome run.old.session w)) result }
{
    push_step_start(text, run);
    let cells = written_row(run);
    let old = bytes_of(run, cells);
    let stop = run.take_step()?;
    if stop.is_none() {
        push_changes(text, run, cells, old);
    }
    text.push(b"\n");
    Ok(stop)
}

// Executes a chosen step, and pushes its line if it is not left out.
fn push_chosen<X: Text>(
    run: &mut Run<'_>,
    skip: &mut u64,
    text: &mut X,
) -> Result<Option<Cause>, AllocError>
    requires below { run.old.step < run.old.session.limit }
    requires most { run.old.session.limit ≤ STEP_LIMIT }
    requires kind { let w = state_of run.old in is_call w.core ≡ false → is_instruction w.core ≡ true }
    ensures session { run.new.session ≡ run.old.session }
    ensures leads { IfOk result (λ stop. Leads run.old run.new stop) }
    ensures noted { run.old.seen ≡ Some run.old.step
        → IfOk result (λ stop. run.new.seen ≡ Some (asked_by run.new.step stop)) }
    ensures line { PushesText (X.pushed text.old) (X.pushed text.new)
        (kept_line skip.old (line_of run.old.session run.old.step (state_of run.old))) result }
    ensures skip { skip.new ≡ skip.old - 1 }
{
    if *skip > 0 {
        *skip -= 1;
        return run.take_step();
    }
    if run.is_at_call() {
        return push_call(run, text);
    }
    push_instruction(run, text)
}

// Executes a step, and pushes its line if it is chosen and not left out.
fn push_step<X: Text>(
    run: &mut Run<'_>,
    choice: &Choice,
    walker: &mut Walker,
    text: &mut X,
) -> Result<Option<Cause>, AllocError>
    requires at { plain_after run.old.session run.old.step ≡ Some (state_of run.old) }
    requires below { run.old.step < run.old.session.limit }
    requires most { run.old.session.limit ≤ STEP_LIMIT }
    ensures session { run.new.session ≡ run.old.session }
    ensures steps { IfOk result (λ stop. GoesBy run.old run.new (run.old.step + 1) stop) }
    ensures noted { run.old.seen ≡ Some run.old.step
        → IfOk result (λ stop. run.new.seen ≡ Some (asked_by run.new.step stop)) }
    ensures lines { WalksOn choice.now run.old (walked (X.pushed text.old) walker.old.skip)
        run.new (walked (X.pushed text.new) walker.new.skip) result }
{
    if has_line(run, choice, &mut walker.spare)? {
        return push_chosen(run, &mut walker.skip, text);
    }
    run.take_step()
}

// Runs up to step `end`, before which no step has a line, or to a stop.
fn pass_over(run: &mut Run<'_>, choice: &Choice, end: u64) -> Result<Option<Cause>, AllocError>
    requires valid { IsSession run.old.session }
    requires below { (run.old.step < end) × (end ≤ run.old.session.limit) }
    requires most { run.old.session.limit ≤ STEP_LIMIT }
    requires none { HasNoLine choice.now run.old.session run.old.step end }
    ensures session { run.new.session ≡ run.old.session }
    ensures steps { IfOk result (λ stop. GoesBy run.old run.new end stop) }
    ensures noted { run.old.seen ≡ Some run.old.step
        → IfOk result (λ stop. run.new.seen ≡ Some (asked_by run.new.step stop)) }
    ensures lines { IfOk result (λ stop.
        lines_left choice.now run.old None ≡ lines_left choice.now run.new stop) }
{
    run.advance(end)
}

// Executes a step that may have a line, after the steps before it that have none; or goes on to step `end` without a line. Without
// instructions only calls have lines.
fn push_next<Y: Text>(
    run: &mut Run<'_>,
    choice: &Choice,
    end: u64,
    walker: &mut Walker,
    lines: &mut Y,
) -> Result<Option<Cause>, AllocError>
    requires at { plain_after run.old.session run.old.step ≡ Some (state_of run.old) }
    requires valid { IsSession run.old.session }
    requires below { (run.old.step < end) × (end ≤ run.old.session.limit) }
    requires most { run.old.session.limit ≤ STEP_LIMIT }
    ensures session { run.new.session ≡ run.old.session }
    ensures steps { IfOk result (λ stop. GoesBy run.old run.new end stop) }
    ensures noted { run.old.seen ≡ Some run.old.step
        → IfOk result (λ stop. run.new.seen ≡ Some (asked_by run.new.step stop)) }
    ensures lines { WalksOn choice.now run.old (walked (Y.pushed lines.old) walker.old.skip)
        run.new (walked (Y.pushed lines.new) walker.new.skip) result }
{
    if run.step() < choice.from {
        return pass_over(run, choice, end.min(choice.from));
    }
    if choice.to < run.step() {
        return pass_over(run, choice, end);
    }
    if choice.instructions {
        return push_step(run, choice, walker, lines);
    }
    if let Some(cause) = run.advance_to_call(end)? {
        return Ok(Some(cause));
    }
    if run.step() == end {
        return Ok(None);
    }
    push_step(run, choice, walker, lines)
}

// Pushes and sends the bytes of a console text after its first ones, which were pushed. If there are none, the steps of the run are shown
// instead. Returns how many bytes are pushed then.
fn push_more<X: Text, E: Writer>(
    text: &[u8],
    pushed: usize,
    steps: u64,
    console: &mut X,
    err: &mut E,
) -> usize
    ensures count { result ≡ max pushed (length text.now) }
    ensures console { X.pushed console.new ≡ more (X.pushed console.old) (drop pushed text.now) }
    ensures err { E.output err.new ≡ E.output err.old }
{
    if pushed < text.len() {
        err.hide_steps();
        console.push(&text[pushed..]);
        console.flush();
    } else {
        err.show_steps(steps, text);
    }
    pushed.max(text.len())
}

// How many bytes of the console text were pushed, and the step at which both texts are sent next.
#[derive(Clone, Copy)]
struct Sent {
    bytes: usize,
    due: u64,
}

// Pushes what is new of the console text and sends both texts, if that is due at the step of a run.
fn send_if_due<X: Text, Y: Text, E: Writer>(
    run: &Run<'_>,
    sent: Sent,
    console: &mut X,
    lines: &mut Y,
    err: &mut E,
) -> Sent
    requires within { run.now.step ≤ run.now.session.limit }
    requires most { run.now.session.limit ≤ STEP_LIMIT }
    ensures console { let whole = console_text run.now.session in (p : Pushed)
        → X.pushed console.old ≡ more p (take sent.bytes whole)
        → X.pushed console.new ≡ more p (take result.bytes whole) }
    ensures lines { Y.pushed lines.new ≡ Y.pushed lines.old }
    ensures err { E.output err.new ≡ E.output err.old }
    ensures later { run.now.step < result.due }
{
    if run.step() < sent.due {
        return sent;
    }
    let bytes = push_more(run.text(), sent.bytes, run.step(), console, err);
    lines.flush();
    Sent {
        bytes,
        due: run.step() + STEPS_UNTIL_TEXT,
    }
}

/// Returns whether sending one of two texts failed.
pub(crate) fn has_either_failed<X: Text, Y: Text>(console: &X, lines: &Y) -> bool
    ensures { result ≡ (X.failed console.now || Y.failed lines.now) }
{
    console.has_failed() || lines.has_failed()
}

/// Runs to the end, and pushes and sends the console text to one text, and the lines of the chosen steps to another. Returns the cause of a
/// stop before the limit. If sending either fails, the run ends early. The text that is not wanted is one that keeps nothing.
///
/// # Errors
///
/// Returns `Err` if an allocation fails. A prefix of each text is then pushed.
pub fn walk<X: Text, Y: Text, E: Writer>(
    run: &mut Run<'_>,
    choice: &Choice,
    walker: &mut Walker,
    console: &mut X,
    lines: &mut Y,
    err: &mut E,
) -> Result<Option<Cause>, AllocError>
    requires first { run.old.step ≡ 0 }
    ensures session { run.new.session ≡ run.old.session }
    ensures ends { X.failed console.new ≡ false → Y.failed lines.new ≡ false
        → IfOk result (λ stop. IsEnd run.new stop) }
    ensures noted { run.old.seen ≡ Some run.old.step
        → IfOk result (λ stop. run.new.seen ≡ Some (asked_by run.new.step stop)) }
    ensures console { PushesUnless (X.failed console.new || Y.failed lines.new)
        (X.pushed console.old) (X.pushed console.new) (console_text run.old.session) result }
    ensures lines { WalksOn choice.now run.old (walked (Y.pushed lines.old) walker.old.skip)
        run.new (walked (Y.pushed lines.new) walker.new.skip) result }
    ensures err { E.output err.new ≡ E.output err.old }
{
    let limit = run.session().limit();
    let mut sent = Sent { bytes: 0, due: 0 };
    let mut stop = None;
    while stop.is_none() && run.step() < limit && !has_either_failed(console, lines) {
        sent = send_if_due(run, sent, console, lines, err);
        stop = push_next(run, choice, limit.min(sent.due), walker, lines)?;
    }
    if has_either_failed(console, lines) {
        return Ok(stop);
    }
    push_more(run.text(), sent.bytes, run.step(), console, err);
    Ok(stop)
}
