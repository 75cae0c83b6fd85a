ghost use Rattle.std.specs.Prelude.{◌≡◌, ◌+◌, ◌<◌, ◌≤◌, length, IfOk, OnOk, OnErr};
ghost use Rattle.std.specs.Io.KnownBytes.{ReadConsumes, WriteAppends};
ghost use Rattle.streams.specs.Streams.{Input, Output};
ghost use Rattle.streams.specs.Trails.{paths};

use crate::trail::Trail;
use std::io;

/// The failure of a reader or a writer. The cause is not recorded.
#[derive(Clone, Copy, Debug, PartialEq, Eq)]
pub struct Failed;

/// A source of bytes. A contract sees the bytes that are left, if the reader reports them, and a count of failures.
pub trait Reader {
    /// What is left, if the reader reports that, and how often it failed.
    ghost input: { Self → Input };

    /// Reads bytes to the front of the piece and returns their count. A count of 0 for a piece that is not empty is the end.
    ///
    /// # Errors
    ///
    /// The reader failed: no byte was read, and the count of failures is one higher.
    fn read(&mut self, piece: &mut [u8]) -> Result<usize, Failed>
        ensures count { IfOk result (λ n. n ≤ length piece.new) }
        ensures bytes { ReadConsumes (input self.old).left (input self.new).left result piece.new }
        ensures ok { OnOk result ((input self.new).failures ≡ (input self.old).failures) }
        ensures err { OnErr result ((input self.new).failures ≡ (input self.old).failures + 1) };
}

/// A sink for bytes. A contract sees the bytes that it holds, if the writer reports them, and a count of failures. What a terminal shows
/// for a while is none of them.
pub trait Writer {
    /// What it holds, if it reports that, and how often it failed.
    ghost output: { Self → Output };

    /// Writes a prefix of the piece, at least one byte of a piece that is not empty, and returns its length.
    ///
    /// # Errors
    ///
    /// The writer failed: no byte was written, and the count of failures is one higher.
    fn write(&mut self, piece: &[u8]) -> Result<usize, Failed>
        ensures count { IfOk result (λ n. n ≤ length piece.now) }
        ensures some { IfOk result (λ n. 0 < length piece.now → 0 < n) }
        ensures bytes { WriteAppends (output self.old).holds (output self.new).holds result piece.now }
        ensures ok { OnOk result ((output self.new).failures ≡ (output self.old).failures) }
        ensures err { OnErr result ((output self.new).failures ≡ (output self.old).failures + 1) };

    /// Shows the steps of a run in progress, until something is written here or `hide_steps` is called. Only a terminal does so, and only
    /// if the text of the run is empty or ends a line, and has no ESC.
    fn show_steps(&mut self, _steps: u64, _text: &[u8])
        ensures { output self.new ≡ output self.old }
    {}

    /// Shows that a run waits for a folder, until something is written here or `hide_steps` is called. Only a terminal does so.
    fn show_waiting(&mut self, _folder: &str)
        ensures { output self.new ≡ output self.old }
    {}

    /// Takes away what is shown.
    fn hide_steps(&mut self)
        ensures { output self.new ≡ output self.old }
    {}

    /// Returns whether a terminal may show what is written here. Then the steps of the run are not shown among it.
    fn may_be_terminal(&self) -> bool {
        false
    }
}

/// A writer that takes everything and keeps nothing.
#[derive(Drop)]
pub struct Nowhere;

impl Writer for Nowhere {
    ghost use Rattle.std.specs.Prelude.{None};

    ghost output = { λ _. record { holds = None; failures = 0 } };

    fn write(&mut self, piece: &[u8]) -> Result<usize, Failed> {
        Ok(piece.len())
    }
}

/// A reader or writer of the standard library with a count of its failures. A write that takes no byte of a piece that is not empty is a
/// failure.
#[derive(Drop)]
pub struct Over<T> {
    pub(crate) inner: T,
    failures: Trail,
}

impl<T> Over<T> {
    /// Wraps a reader or writer that has not failed yet.
    pub fn new(inner: T) -> Over<T>
        ensures none { length (paths result.failures) ≡ 0 }
        ensures same { result.inner ≡ inner }
    {
        Over {
            inner,
            failures: Trail::new(),
        }
    }

    /// Returns the reader or writer.
    pub fn into_inner(self) -> T
        ensures { result ≡ self.inner }
    {
        let Over { inner, failures: _ } = self;
        inner
    }
}

impl<T: io::Read> Reader for Over<T> {
    ghost input = { λ o. record { left = T.remaining o.inner; failures = length (paths o.failures) } };

    fn read(&mut self, piece: &mut [u8]) -> Result<usize, Failed> {
        match self.inner.read(piece) {
            Ok(n) => Ok(n),
            Err(_) => {
                self.failures = self.failures.and("");
                Err(Failed)
            }
        }
    }
}

impl<T: io::Write> Writer for Over<T> {
    ghost output = { λ o. record { holds = T.contents o.inner; failures = length (paths o.failures) } };

    fn write(&mut self, piece: &[u8]) -> Result<usize, Failed> {
        match self.inner.write(piece) {
            Ok(n) if n > 0 || piece.is_empty() => Ok(n),
            _ => {
                self.failures = self.failures.and("");
                Err(Failed)
            }
        }
    }
}
