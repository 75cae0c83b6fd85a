// The whole trace.

ghost use Rattle.std.specs.Prelude.{◌≡◌, ◌-◌, ◌||◌, IfErr, IfOk, OnOk, Some, drop, false, length};
ghost use Rattle.machine.specs.Runs.{EndsBy, asked_by};
ghost use Rattle.machine.specs.PlainState.{plain_run};
ghost use Rattle.streams.specs.Pushing.{PushesUnless};
ghost use Rattle.streams.specs.Streams.{WritesWhole};
ghost use Rattle.faults.specs.Faults.{BreaksText};
ghost use Rattle.tracing.specs.Trace.{all_lines, console_text, each_call, last_lines, no_step, trace_text};
ghost use Rattle.tracing.specs.Walks.{EndsAt, text_after};

use crate::walk::{Walker, has_either_failed, walk};
use faults::Fault;
use machine::{Cause, Noting, Run, Session};
use report_lines::stop_line;
use std::alloc::{AllocError, Global};
use streams::{Nowhere, Text, TextOver, Writer};
use trace_filters::Choice;

// Returns why a run ended that is at its limit, or where a stop follows.
fn cause_of(run: &Run<'_>, stop: Option<Cause>) -> Cause
    requires { EndsAt run.now run.now.session.limit stop }
    ensures { result ≡ (plain_run run.now.session).cause }
{
    if run.step() == run.session().limit() {
        return Cause::Limit;
    }
    stop.unwrap_or(Cause::Limit)
}

// Returns how many lines come before the last ones. To count the lines, a run that starts is walked without pushing any: as many
// are left out as there can be steps.
fn lines_before_last(run: &mut Run<'_>, choice: &Choice, last: u64) -> Result<u64, AllocError>
    requires { run.old.step ≡ 0 }
    ensures { IfOk result (λ n. n ≡ length (all_lines choice.now run.old.session) - last) }
{
    let mut nowhere = Nowhere;
    let mut text = TextOver::new(&mut nowhere);
    let limit = run.session().limit();
    let mut walker = Walker::new(limit);
    let mut nowhere = Nowhere;
    let mut console = TextOver::new(&mut nowhere);
    let mut err = Nowhere;
    walk(run, choice, &mut walker, &mut console, &mut text, &mut err)?;
    let count = limit.saturating_sub(walker.skip);
    Ok(count.saturating_sub(last))
}

// Returns how many lines at the start are left out.
fn lines_to_skip(alloc: Global, session: &Session, choice: &Choice) -> Result<u64, AllocError>
    ensures { let all = all_lines choice.now session.now in
        IfOk result (λ n. last_lines choice.now.last all ≡ drop n all) }
{
    let Some(last) = choice.last else {
        return Ok(0);
    };
    let mut run = Run::start(alloc, session, Noting::Nothing)?;
    lines_before_last(&mut run, choice, last)
}

/// Runs a run that starts to its end. Pushes and sends its console text to one text, and to another its lines without the first `skip` ones,
/// and then the line of its stop. If sending either fails, it ends early.
pub fn push_both<X: Text, Y: Text, E: Writer>(
    run: &mut Run<'_>,
    choice: &Choice,
    skip: u64,
    console: &mut X,
    lines: &mut Y,
    err: &mut E,
) -> Result<Option<Cause>, AllocError>
    requires { run.old.step ≡ 0 }
    ensures session { run.new.session ≡ run.old.session }
    ensures ends { X.failed console.new ≡ false → Y.failed lines.new ≡ false
        → IfOk result (λ stop. EndsBy run.new run.new.session.limit stop) }
    ensures noted { run.old.seen ≡ Some run.old.step
        → IfOk result (λ stop. run.new.seen ≡ Some (asked_by run.new.step stop)) }
    ensures console { PushesUnless (X.failed console.new || Y.failed lines.new)
        (X.pushed console.old) (X.pushed console.new) (console_text run.old.session) result }
    ensures lines { PushesUnless (X.failed console.new || Y.failed lines.new)
        (Y.pushed lines.old) (Y.pushed lines.new) (text_after choice.now run.old.session skip) result }
    ensures err { E.output err.new ≡ E.output err.old }
{
    let mut walker = Walker::new(skip);
    let stop = walk(run, choice, &mut walker, console, lines, err)?;
    if has_either_failed(console, lines) {
        return Ok(stop);
    }
    lines.push(stop_line(cause_of(run, stop)).as_bytes());
    Ok(stop)
}

// Pushes the lines of the chosen steps of a session, in order, and then the line of its stop. If sending fails, it ends early.
fn push_trace<X: Text>(
    alloc: Global,
    session: &Session,
    choice: &Choice,
    text: &mut X,
) -> Result<(), AllocError>
    ensures { PushesUnless (X.failed text.new) (X.pushed text.old) (X.pushed text.new)
        (trace_text choice.now session.now) result }
{
    let skip = lines_to_skip(alloc, session, choice)?;
    let mut run = Run::start(alloc, session, Noting::Nothing)?;
    let mut nowhere = Nowhere;
    let mut console = TextOver::new(&mut nowhere);
    let mut err = Nowhere;
    push_both(&mut run, choice, skip, &mut console, text, &mut err)?;
    Ok(())
}

/// Writes the lines of the chosen steps of a session, in order, and then the line of its stop. The lines are sent at the latest after each
/// 1,000,000 steps.
///
/// # Errors
///
/// Returns `Err` if the writer or an allocation fails. A prefix of the text is then written.
pub fn write_trace<'a, W: Writer>(
    alloc: Global,
    session: &Session,
    choice: &Choice,
    out: &mut W,
) -> Result<(), Fault<'a>>
    ensures done { OnOk result
        (WritesWhole (W.output out.old) (W.output out.new) (trace_text choice.now session.now)) }
    ensures fault { IfErr result
        (BreaksText (trace_text choice.now session.now) (W.output out.old) (W.output out.new)) }
{
    let mut text = TextOver::new(out);
    let pushed = push_trace(alloc, session, choice, &mut text);
    text.flush();
    text.finish()?;
    pushed?;
    Ok(())
}

/// Returns the choice of each call.
pub fn each_call() -> Choice
    ensures { result ≡ each_call }
{
    Choice {
        instructions: false,
        from: 0,
        to: u64::MAX,
        at: None,
        writes: None,
        reads: None,
        file: None,
        last: None,
    }
}

/// Returns a choice that no step below the limit passes: the trace has only the line of the stop.
pub fn no_step() -> Choice
    ensures { result ≡ no_step }
{
    Choice {
        from: u64::MAX,
        ..each_call()
    }
}
