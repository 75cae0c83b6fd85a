ghost use Rattle.std.specs.Prelude.{◌≡◌};
ghost use Rattle.faults.specs.Faults.{ReportsFault};

use crate::message::push_message;
use crate::tool::Tool;
use folders::Failure;
use std::alloc::AllocError;
use streams::{Failed, Text, TextOver, Writer};

/// The error with which a program ends, if its status is 1, 2 or 12.
#[derive(Drop)]
pub enum Fault<'a> {
    /// A usage error in the words of the command line, with its message.
    Usage(String),
    /// This text of a script has a bad escape.
    BadEscape(&'a str),
    /// A word of the command line is not UTF-8.
    NotText,
    /// The file of this path could not be read.
    CannotRead(&'a str),
    /// Standard output could not be written.
    CannotWrite,
    /// The same, in a run with disks, which are as they were.
    DiskUnchanged,
    /// Folders were not read, or a changed file was not written.
    Folders(folders::Fault),
    /// The session was refused, with this number.
    Refused(u8),
    /// The edit line of this number is malformed.
    Malformed(u64),
    /// The edit line of this number is too long.
    TooLong(u64),
    /// A rule for make cannot have this path.
    RulePath(String),
    /// An allocation failed.
    OutOfMemory,
}

impl From<Failure> for Fault<'_> {
    ghost use Rattle.std.specs.Prelude.{◌≡◌};
    ghost use Rattle.faults.specs.Faults.{of_failure};

    ghost from_gives = { λ failure fault. fault ≡ of_failure failure };

    fn from(failure: Failure) -> Self {
        match failure {
            Failure::AtFault(fault) => Fault::Folders(fault),
            Failure::OutOfMemory => Fault::OutOfMemory,
        }
    }
}

impl From<AllocError> for Fault<'_> {
    ghost use Rattle.std.specs.Prelude.{◌≡◌};
    ghost use Rattle.faults.specs.declared.fault.Fault.TheVariants.{OutOfMemory};

    ghost from_gives = { λ _ fault. fault ≡ OutOfMemory };

    fn from(_: AllocError) -> Self {
        Fault::OutOfMemory
    }
}

impl From<Failed> for Fault<'_> {
    ghost use Rattle.std.specs.Prelude.{◌≡◌};
    ghost use Rattle.faults.specs.declared.fault.Fault.TheVariants.{CannotWrite};

    ghost from_gives = { λ _ fault. fault ≡ CannotWrite };

    fn from(_: Failed) -> Self {
        Fault::CannotWrite
    }
}

impl Fault<'_> {
    ghost use Rattle.faults.specs.Faults.{status_of};

    /// Returns the exit status: 1 for a usage error, an I/O error, invalid host files or a refused session, 2 for an edit line,
    /// 12 for out of memory.
    pub fn status(&self) -> u8
        ensures { result ≡ status_of self.now }
    {
        match self {
            Fault::Malformed(_) | Fault::TooLong(_) => 2,
            Fault::OutOfMemory => 12,
            _ => 1,
        }
    }
}

/// Writes the message of an error of a program and returns the status. It needs no memory. A failure of the writer is ignored.
pub fn report_fault<E: Writer>(tool: Tool, fault: Fault<'_>, err: &mut E) -> u8
    ensures { ReportsFault tool fault.entry result (E.output err.old) (E.output err.new) }
{
    let mut text = TextOver::new(err);
    push_message(&mut text, tool, &fault);
    text.flush();
    let _ = text.finish();
    fault.status()
}
