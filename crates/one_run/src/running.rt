// A run whose console text and trace are written while it runs.

ghost use Rattle.std.specs.Prelude.{◌≡◌, IfErr, IfOk, OnOk, None, Some};
ghost use Rattle.machine.specs.Machine.{cold_run};
ghost use Rattle.machine.specs.Runs.{EndsBy, NotesWholeRun, asked_by};
ghost use Rattle.machine.specs.declared.noting.Noting.TheVariants.{Looks};
ghost use Rattle.streams.specs.Streams.{WritesWhole};
ghost use Rattle.tracing.specs.Trace.{console_text, trace_text};
ghost use Rattle.one_run.specs.RunTexts.{BreaksRun};

use machine::{Cause, Noting, Run, Session, WholeRun};
use std::alloc::Global;
use streams::{Nowhere, Text, TextOver, Writer};
use tracing::{Choice, push_both};

/// Why a run is broken off.
#[derive(Clone, Copy, Debug, PartialEq, Eq)]
pub enum RunFault {
    /// The console text could not be written.
    Console,
    /// The trace could not be written.
    Trace,
    /// An allocation failed.
    OutOfMemory,
}

// Runs a run that starts to its end, and writes its console text and its trace. Returns the cause of a stop before the limit. If writing
// either text fails, the run ends early.
fn write_both<O: Writer, T: Writer, E: Writer>(
    run: &mut Run<'_>,
    choice: &Choice,
    out: &mut O,
    trace: &mut T,
    err: &mut E,
) -> Result<Option<Cause>, RunFault>
    requires first { run.old.step ≡ 0 }
    requires all { choice.now.last ≡ None }
    ensures session { run.new.session ≡ run.old.session }
    ensures ends { IfOk result (λ stop. EndsBy run.new run.new.session.limit stop) }
    ensures noted { run.old.seen ≡ Some run.old.step
        → IfOk result (λ stop. run.new.seen ≡ Some (asked_by run.new.step stop)) }
    ensures console { OnOk result
        (WritesWhole (O.output out.old) (O.output out.new) (console_text run.old.session)) }
    ensures trace { OnOk result (WritesWhole (T.output trace.old) (T.output trace.new)
        (trace_text choice.now run.old.session)) }
    ensures fault { IfErr result (λ fault. BreaksRun fault
        (console_text run.old.session) (trace_text choice.now run.old.session)
        (O.output out.old) (O.output out.new) (T.output trace.old) (T.output trace.new)) }
    ensures err { E.output err.new ≡ E.output err.old }
{
    let mut console = TextOver::new(out);
    let mut lines = TextOver::new(trace);
    let ended = push_both(run, choice, 0, &mut console, &mut lines, err);
    err.hide_steps();
    console.flush();
    lines.flush();
    let console = console.finish();
    let lines = lines.finish();
    let Ok(()) = console else {
        return Err(RunFault::Console);
    };
    let Ok(()) = lines else {
        return Err(RunFault::Trace);
    };
    let Ok(stop) = ended else {
        return Err(RunFault::OutOfMemory);
    };
    Ok(stop)
}

// Does the same. Steps are not shown among the lines of a trace that a terminal may show.
fn write_run<O: Writer, T: Writer, E: Writer>(
    run: &mut Run<'_>,
    choice: &Choice,
    out: &mut O,
    trace: &mut T,
    err: &mut E,
) -> Result<Option<Cause>, RunFault>
    requires first { run.old.step ≡ 0 }
    requires all { choice.now.last ≡ None }
    ensures session { run.new.session ≡ run.old.session }
    ensures ends { IfOk result (λ stop. EndsBy run.new run.new.session.limit stop) }
    ensures noted { run.old.seen ≡ Some run.old.step
        → IfOk result (λ stop. run.new.seen ≡ Some (asked_by run.new.step stop)) }
    ensures console { OnOk result
        (WritesWhole (O.output out.old) (O.output out.new) (console_text run.old.session)) }
    ensures trace { OnOk result (WritesWhole (T.output trace.old) (T.output trace.new)
        (trace_text choice.now run.old.session)) }
    ensures fault { IfErr result (λ fault. BreaksRun fault
        (console_text run.old.session) (trace_text choice.now run.old.session)
        (O.output out.old) (O.output out.new) (T.output trace.old) (T.output trace.new)) }
    ensures err { E.output err.new ≡ E.output err.old }
{
    if trace.may_be_terminal() {
        let mut nowhere = Nowhere;
        return write_both(run, choice, out, trace, &mut nowhere);
    }
    write_both(run, choice, out, trace, err)
}

/// What a run starts from.
#[derive(Clone, Copy)]
pub struct Start<'s> {
    /// The allocator for its state.
    pub alloc: Global,
    /// Its session.
    pub session: &'s Session,
    /// What it notes.
    pub noting: Noting,
}

/// Runs a session to its end, and writes its console text to `out` and the lines of the chosen steps and of its stop to `trace` while it
/// runs, each at the latest after each 1,000,000 steps. While there is no text, `err` shows the steps, if it is a terminal and the trace is
/// not written to one.
///
/// # Errors
///
/// Returns `Err` if writing one of the texts fails, or an allocation. A prefix of each text is then written.
pub fn run_to_end<'s, O: Writer, T: Writer, E: Writer>(
    start: Start<'s>,
    choice: &Choice,
    out: &mut O,
    trace: &mut T,
    err: &mut E,
) -> Result<WholeRun<'s>, RunFault>
    requires { choice.now.last ≡ None }
    ensures session { IfOk result (λ w. w.session.now ≡ start.entry.session.now) }
    ensures cold { IfOk result (λ w. cold_run start.entry.session.now
        ≡ record { state = w.state.state; steps = w.steps; cause = w.cause }) }
    ensures looks { start.entry.noting ≡ Looks
        → IfOk result (λ w. NotesWholeRun start.entry.session.now w.looks w.steps) }
    ensures console { OnOk result
        (WritesWhole (O.output out.old) (O.output out.new) (console_text start.entry.session.now)) }
    ensures trace { OnOk result (WritesWhole (T.output trace.old) (T.output trace.new)
        (trace_text choice.now start.entry.session.now)) }
    ensures fault { IfErr result (λ fault. BreaksRun fault
        (console_text start.entry.session.now) (trace_text choice.now start.entry.session.now)
        (O.output out.old) (O.output out.new) (T.output trace.old) (T.output trace.new)) }
    ensures err { E.output err.new ≡ E.output err.old }
{
    let Ok(mut run) = Run::start(start.alloc, start.session, start.noting) else {
        return Err(RunFault::OutOfMemory);
    };
    let stop = write_run(&mut run, choice, out, trace, err)?;
    Ok(run.ended(stop))
}
