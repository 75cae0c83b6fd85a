ghost use Rattle.std.specs.Prelude.{◌≡◌, ℕ, ◌+◌, ◌^◌, ◌≤◌};
ghost use Rattle.replay.specs.Report.{run_of, session_of};
ghost use Rattle.edit_lines.specs.Progress.{ExecutesCommand, ExecutesLine, replay_state};
ghost use Rattle.edit_lines.specs.Reports.{report_text};
ghost use Rattle.edit_lines.specs.Replies.{Replies};
ghost use Rattle.streams.specs.Pushing.{more};

use crate::ending::ReplayFault;
use crate::limits::LINES_LIMIT;
use crate::line::{Command, parse_line};
use crate::reply::refused_line;
use machine::{Meter, STEP_LIMIT};
use replay::{Edit, EditError, Report, Runner};
use report_lines::{FileFilter, push_changed_files, push_text, report_head};
use std::alloc::Global;
use streams::{Text, TextOver, Writer, write_all};

/// Writes a reply. If the writer fails, a prefix of the reply is written.
fn write_reply<W: Writer>(writer: &mut W, text: &[u8]) -> Result<(), ReplayFault>
    ensures { Replies (W.output writer.old) (W.output writer.new) text.now result }
{
    write_all(writer, text)?;
    Ok(())
}

/// Applies an edit and writes its reply. Exactly the checkpoints that it does not touch are left, or all if it is refused. Memory
/// can run out only for an insertion or a file that is not refused.
fn execute_edit<W: Writer>(
    runner: &mut Runner,
    edit: Edit,
    writer: &mut W,
) -> Result<(), ReplayFault>
    ensures { (meter : ℕ) → ExecutesCommand (Command.Edit edit)
        (replay_state runner.old meter (W.output writer.old))
        (replay_state runner.new meter (W.output writer.new)) result }
{
    match runner.edit(edit) {
        Ok(()) => write_reply(writer, b"ok\n"),
        Err(EditError::OutOfMemory) => Err(ReplayFault::OutOfMemory),
        Err(refusal) => write_reply(writer, &refused_line(refusal.number())),
    }
}

/// Drops the `count` oldest checkpoints and writes the reply.
fn drop_oldest<W: Writer>(
    runner: &mut Runner,
    count: u64,
    writer: &mut W,
) -> Result<(), ReplayFault>
    ensures { (meter : ℕ) → ExecutesCommand (Command.DropOldest count)
        (replay_state runner.old meter (W.output writer.old))
        (replay_state runner.new meter (W.output writer.new)) result }
{
    runner.drop_oldest(count);
    write_reply(writer, b"ok\n")
}

/// Appends a report: its first lines, the line of its text, the lines of the changed files, and `end`.
fn push_report<X: Text>(text: &mut X, report: &Report<'_>)
    ensures { X.pushed text.new
        ≡ more (X.pushed text.old) (report_text (session_of report.now) (run_of report.now)) }
{
    text.push(report_head(report.cause(), report.steps(), report.regs()).as_bytes());
    push_text(text, report.text());
    push_changed_files(text, FileFilter::All, report.files(), report.journal());
    text.push(b"end\n")
}

/// Writes a report as a reply. No memory is allocated, and a report of at most 4096 bytes is written in a single piece.
fn write_report<W: Writer>(writer: &mut W, report: &Report<'_>) -> Result<(), ReplayFault>
    ensures { Replies (W.output writer.old) (W.output writer.new)
        (report_text (session_of report.now) (run_of report.now)) result }
{
    let mut text = TextOver::new(writer);
    push_report(&mut text, report);
    text.flush();
    text.finish()?;
    Ok(())
}

/// Runs the session from the step where the runner begins a rerun, and writes its report. Only the steps from there on are added
/// to the meter.
fn run<W: Writer>(runner: &mut Runner, meter: &mut Meter, writer: &mut W) -> Result<(), ReplayFault>
    requires { meter.old ≤ 2 ^ 63 }
    ensures does { ExecutesCommand Command.Run (replay_state runner.old meter.old (W.output writer.old))
        (replay_state runner.new meter.new (W.output writer.new)) result }
    ensures meter { meter.new ≤ meter.old + STEP_LIMIT }
{
    let report = runner.rerun(meter)?;
    write_report(writer, &report)
}

/// Executes the line with this number. The runner and the meter change only as its command says, and not at all if the line is
/// malformed.
pub fn execute_line<W: Writer>(
    alloc: Global,
    line: &[u8],
    number: u64,
    runner: &mut Runner,
    meter: &mut Meter,
    writer: &mut W,
) -> Result<(), ReplayFault>
    requires { meter.old ≤ 2 ^ 63 }
    ensures does { ExecutesLine number line.now (replay_state runner.old meter.old (W.output writer.old))
        (replay_state runner.new meter.new (W.output writer.new)) result }
    ensures meter { meter.new ≤ meter.old + STEP_LIMIT }
{
    if number > LINES_LIMIT {
        return Err(ReplayFault::Malformed(number));
    }
    match parse_line(alloc, line)? {
        None => Err(ReplayFault::Malformed(number)),
        Some(Command::Edit(edit)) => execute_edit(runner, edit, writer),
        Some(Command::Run) => run(runner, meter, writer),
        Some(Command::DropOldest(count)) => drop_oldest(runner, count, writer),
    }
}
