// What the files of the operating system write piece by piece.

ghost use Rattle.std.specs.Prelude.{◌≡◌, ◌≤◌, false, length, IfOk, OnOk};
ghost use Rattle.streams.specs.Trails.{paths};

use std::fs::File;
use std::io;
use std::io::{ErrorKind, IsTerminal, Write};
use std::rt::{Stderr, Stdout};
use streams::{Failed, Trail, Writer};

/// Where what is written goes.
#[derive(Drop)]
pub enum Destination {
    /// A file, a device or a pipe, and what keeps it from having the number of standard output.
    File(File, Option<(File, File)>),
    /// Standard output.
    Stdout(Stdout),
    /// Standard error.
    Stderr(Stderr),
}

impl Destination {
    // Writes a prefix of a piece, and returns its length.
    fn write(&mut self, piece: &[u8]) -> io::Result<usize>
        ensures { IfOk result (λ n. n ≤ length piece.now) }
    {
        match self {
            Destination::File(file, _) => file.write(piece),
            Destination::Stdout(out) => out.write(piece),
            Destination::Stderr(err) => err.write(piece),
        }
    }

    fn is_terminal(&self) -> bool {
        match self {
            Destination::File(file, _) => file.is_terminal(),
            Destination::Stdout(out) => out.is_terminal(),
            Destination::Stderr(err) => err.is_terminal(),
        }
    }
}

/// An open file of the operating system that is written piece by piece, or a standard stream. A contract sees only how often it failed.
#[derive(Drop)]
pub struct SystemOutput {
    destination: Destination,
    failed: bool,
    failures: Trail,
    ghost counted: { failed ≡ false → length (paths failures) ≡ 0 },
}

impl SystemOutput {
    /// Begins to write to a destination.
    pub fn new(destination: Destination) -> SystemOutput
        ensures { length (paths result.failures) ≡ 0 }
    {
        SystemOutput {
            destination,
            failed: false,
            failures: Trail::new(),
        }
    }

    /// Closes the file.
    ///
    /// # Errors
    ///
    /// A write failed. The cause is not recorded.
    pub fn close(self) -> io::Result<()>
        ensures { OnOk result (length (paths self.failures) ≡ 0) }
    {
        if self.failed {
            return Err(io::Error::from(ErrorKind::Other));
        }
        Ok(())
    }
}

impl Writer for SystemOutput {
    ghost use Rattle.std.specs.Prelude.{None, length};
    ghost use Rattle.streams.specs.Trails.{paths};

    ghost output = { λ o. record { holds = None; failures = length (paths o.failures) } };

    fn write(&mut self, piece: &[u8]) -> Result<usize, Failed> {
        match self.destination.write(piece) {
            Ok(n) if n > 0 || piece.is_empty() => Ok(n),
            _ => {
                self.failed = true;
                self.failures = self.failures.and("");
                Err(Failed)
            }
        }
    }

    fn may_be_terminal(&self) -> bool {
        self.destination.is_terminal()
    }
}
