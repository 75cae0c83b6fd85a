// Standard error, which may be a terminal.

ghost use Rattle.std.specs.Prelude.{◌≡◌};

use crate::streams::{Failed, Over, Writer};
use std::env::{self, Env};
use std::fs::{self, Files};
use std::io::Write;
use std::rt::Clock;
use std::time::{Duration, Instant};

/// Standard error. If it is a terminal, it shows the steps of a run in progress on a line of their own once nothing was written for two
/// seconds, or the folder for which a run waits, and a contract does not see what it holds.
#[derive(Drop)]
pub struct Terminal<'a, R, W> {
    rt: &'a R,
    over: Over<W>,
    is_terminal: bool,
    shows: bool,
    quiet_since: Option<Instant>,
}

impl<'a, R: Alloc + Clock + Env + Files, W: Write> Terminal<'a, R, W> {
    /// Returns standard error, to which `writer` writes.
    pub fn new(rt: &'a R, writer: W) -> Terminal<'a, R, W> {
        Terminal {
            rt,
            over: Over::new(writer),
            is_terminal: is_terminal(rt),
            shows: false,
            quiet_since: Instant::now(rt).ok(),
        }
    }

    // Returns whether nothing was written for two seconds.
    fn is_quiet(&self) -> bool {
        match self.quiet_since.map(|since| since.elapsed(self.rt)) {
            Some(Ok(quiet)) => quiet >= Duration::from_secs(2),
            _ => false,
        }
    }

    // Wipes what is shown, and begins to wait for two seconds. Their line has nothing else.
    fn wipe(&mut self)
        ensures terminal { self.new.is_terminal ≡ self.old.is_terminal }
        ensures failures { self.new.over.failures ≡ self.old.over.failures }
    {
        if self.shows {
            let _ = self.over.inner.write_all(b"\r\x1b[K");
            self.shows = false;
        }
        self.quiet_since = Instant::now(self.rt).ok();
    }
}

// Returns whether standard error is a terminal that can erase.
fn is_terminal<R: Alloc + Env + Files>(rt: &R) -> bool {
    let Ok(device) = fs::read_link(rt, "/proc/self/fd/2") else {
        return false;
    };
    let Ok(kind) = env::var(rt, "TERM") else {
        return false;
    };
    (device.starts_with("/dev/pts") || device.starts_with("/dev/tty")) && kind.as_str() != "dumb"
}

// Returns whether a text has a character that controls a terminal.
fn has_control(text: &str) -> bool {
    text.as_bytes()
        .iter()
        .any(|byte| *byte < b' ' || *byte == 0x7f)
}

// Returns whether a text leaves an empty line: it is empty or ends a line, and has no ESC, by which a program moves the cursor.
fn begins_line(text: &[u8]) -> bool {
    match text.last() {
        Some(byte) => *byte == b'\n' && !text.contains(&0x1b),
        None => true,
    }
}

impl<R: Alloc + Clock + Env + Files, W: Write> Writer for Terminal<'_, R, W> {
    ghost use Rattle.std.specs.Prelude.{None, if◌then◌else◌, length};
    ghost use Rattle.streams.specs.Trails.{paths};

    ghost output = { λ t. record {
      holds = if t.is_terminal then None else W.contents t.over.inner;
      failures = length (paths t.over.failures);
    } };

    fn write(&mut self, piece: &[u8]) -> Result<usize, Failed> {
        self.hide_steps();
        self.over.write(piece)
    }

    // After two seconds the steps are shown again.
    fn show_steps(&mut self, steps: u64, text: &[u8]) {
        if self.is_terminal && self.is_quiet() {
            self.wipe();
            if begins_line(text) {
                let millions = steps / 1_000_000;
                let _ = write!(self.over.inner, "{millions} million steps");
                self.shows = true;
            }
        }
    }

    fn show_waiting(&mut self, folder: &str) {
        if self.is_terminal {
            self.wipe();
            let named = if has_control(folder) {
                "a disk"
            } else {
                folder
            };
            let _ = write!(self.over.inner, "waiting for {named}");
            self.shows = true;
        }
    }

    fn hide_steps(&mut self) {
        if self.is_terminal {
            self.wipe();
        }
    }
}
