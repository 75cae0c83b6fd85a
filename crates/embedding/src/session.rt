// A session and its runner, a run, and an edit.

ghost use Rattle.std.specs.Prelude.{◌+◌, ◌^◌, ◌≤◌};

use machine::{Bytes, Cause, HostFiles, Meter, STEP_LIMIT, Session, SessionError};
use replay::{Edit, EditError, Options, OptionsError, Report, Runner};
use std::alloc::{AllocError, Global};
use std::io;

/// Why the program ends early.
#[derive(Drop)]
pub enum Error {
    /// An allocation failed.
    OutOfMemory,
    /// The session is refused.
    Session(SessionError),
    /// The options are refused.
    Options(OptionsError),
    /// The edit is refused.
    Edit(EditError),
    /// Standard output failed.
    Output,
    /// The console text is not UTF-8.
    Text,
}

impl From<AllocError> for Error {
    fn from(_: AllocError) -> Error {
        Error::OutOfMemory
    }
}

impl From<SessionError> for Error {
    fn from(error: SessionError) -> Error {
        Error::Session(error)
    }
}

impl From<OptionsError> for Error {
    fn from(error: OptionsError) -> Error {
        Error::Options(error)
    }
}

impl From<EditError> for Error {
    fn from(error: EditError) -> Error {
        Error::Edit(error)
    }
}

impl From<io::Error> for Error {
    fn from(_: io::Error) -> Error {
        Error::Output
    }
}

/// Returns a runner for a program with no tail and no files, and with this script. A run makes a checkpoint every 100
/// steps, and the newest eight are kept.
pub fn runner_of(alloc: Global, program: &[u8], script: &[u8]) -> Result<Runner, Error> {
    let session = Session::new(
        program.to_vec(alloc)?,
        Vec::new(alloc),
        HostFiles::new(alloc),
        script.to_vec(alloc)?,
        1_000_000,
    )?;
    let options = Options {
        spacing: 100,
        slots: 8,
    };
    Ok(Runner::new(alloc, session, options)?)
}

/// Replaces bytes of the script from an offset on.
pub fn replace_script(
    alloc: Global,
    runner: &mut Runner,
    offset: u64,
    bytes: &[u8],
) -> Result<(), Error> {
    let bytes = Bytes::new(bytes.to_vec(alloc)?);
    runner.edit(Edit::Replace(offset, bytes))?;
    Ok(())
}

/// Runs the current session and prints the result.
pub fn run(rt: &impl Print, runner: &mut Runner, meter: &mut Meter) -> Result<(), Error>
    requires { meter.old ≤ 2 ^ 63 }
    ensures { meter.new ≤ meter.old + STEP_LIMIT }
{
    let before = meter.count();
    let report = runner.rerun(meter)?;
    print_report(rt, &report, meter.count() - before)
}

// Prints a report in one line, its text first.
fn print_report(rt: &impl Print, report: &Report<'_>, executed: u64) -> Result<(), Error> {
    let cause = match report.cause() {
        Cause::WarmBoot => "WarmBoot",
        Cause::Limit => "Limit",
        _ => "another cause",
    };
    let steps = report.steps();
    let Ok(text) = str::from_utf8(report.text()) else {
        return Err(Error::Text);
    };
    println!(rt; "{text}: {cause} after {steps} steps, {executed} of them executed")?;
    Ok(())
}
