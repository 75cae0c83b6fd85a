// Replays of edit texts, with readers and writers that may fail.

ghost use Rattle.std.specs.Prelude.{None, vec_len, ◌≤◌, length};
ghost use Rattle.streams.specs.Trails.{paths};

use edit_lines::{Failed, Reader, ReplayFault, Writer, replay};
use machine::Meter;
use replay::Runner;
use std::alloc::Global;
use streams::Trail;
use test_sessions::{Given, PRINTS, Trouble, make};

/// A replay of an edit text over a program, and the expected result.
#[derive(Clone, Copy)]
pub struct Replay<'a> {
    pub program: &'a [u8],
    pub text: &'a [u8],
    /// The largest number of bytes that are read at once.
    pub longest: usize,
    /// Whether the reader fails at the end of the text.
    pub fails: bool,
    /// The number of bytes that can be written.
    pub room: usize,
    pub replies: &'a [u8],
    /// The number of lines, or the error.
    pub answer: Result<u64, ReplayFault>,
}

// The bytes of an edit text in pieces, with a failure at the end if `fails` is set.
#[derive(Drop)]
struct Pieces<'a> {
    rest: &'a [u8],
    longest: usize,
    fails: bool,
    failures: Trail,
}

impl Reader for Pieces<'_> {
    ghost input = { λ p. record { left = None; failures = length (paths p.failures) } };

    fn read(&mut self, piece: &mut [u8]) -> Result<usize, Failed> {
        if self.rest.is_empty() && self.fails {
            self.failures = self.failures.and("");
            return Err(Failed);
        }
        let count = self.longest.min(piece.len()).min(self.rest.len());
        let (first, rest) = self.rest.split_at(count);
        piece[..count].copy_from_slice(first);
        self.rest = rest;
        Ok(count)
    }
}

// A writer with limited room, and what was written to it.
#[derive(Drop)]
struct Screen {
    text: Vec<u8>,
    room: usize,
    failures: Trail,
}

impl Writer for Screen {
    ghost output = { λ s. record { holds = None; failures = length (paths s.failures) } };

    fn write(&mut self, piece: &[u8]) -> Result<usize, Failed> {
        let count = piece.len().min(self.room);
        let taken = self.text.extend_from_slice(&piece[..count]);
        if taken.is_err() || count == 0 && !piece.is_empty() {
            self.failures = self.failures.and("");
            return Err(Failed);
        }
        self.room -= count;
        Ok(count)
    }
}

fn replays_over(alloc: Global, runner: &mut Runner, wanted: &Replay<'_>) -> bool {
    let mut reader = Pieces {
        rest: wanted.text,
        longest: wanted.longest,
        fails: wanted.fails,
        failures: Trail::new(),
    };
    let mut screen = Screen {
        text: Vec::new(alloc),
        room: wanted.room,
        failures: Trail::new(),
    };
    let mut meter = Meter::new();
    let answer = replay(alloc, runner, &mut meter, &mut reader, &mut screen);
    answer.map(|ending| ending.lines) == wanted.answer && screen.text.as_slice() == wanted.replies
}

/// Returns whether a replay has the expected result and writes the expected replies.
pub fn replays(alloc: Global, wanted: &Replay<'_>) -> Result<bool, Trouble> {
    let given = Given {
        program: wanted.program,
        ..PRINTS
    };
    let mut runner = make(alloc, &given)?;
    Ok(replays_over(alloc, &mut runner, wanted))
}
