// The parts of a session.

use crate::{given, program};
use replay::Options;

/// A host file: its name and its bytes.
pub type Host<'a> = (&'a str, &'a [u8]);

/// The parts of a session, and the options for its checkpoints.
#[derive(Clone, Copy)]
pub struct Given<'a> {
    pub program: &'a [u8],
    pub tail: &'a [u8],
    pub hosts: &'a [Host<'a>],
    pub script: &'a [u8],
    /// The largest number of steps of a run.
    pub limit: u64,
    pub options: Options,
}

/// No program, with a limit of a million steps and a checkpoint every four steps.
pub const EMPTY: Given<'_> = Given {
    program: b"",
    tail: b"",
    hosts: &[],
    script: b"",
    limit: 1_000_000,
    options: Options {
        spacing: 4,
        slots: 64,
    },
};

/// The parts of a session that has some parts of its own, and all others of another session or of `EMPTY`.
///
/// ```
/// const OPENS_NOTE: Given<'_> = given!(OPENS, tail: b"note.txt");
/// const RETURNS: Given<'_> = given!(program: &program![RET;]);
/// ```
#[macro_export]
macro_rules! given {
    ($($part:ident: $value:expr),+) => { $crate::given!($crate::EMPTY, $($part: $value),+) };
    ($others:expr, $($part:ident: $value:expr),+) => { $crate::Given { $($part: $value,)+ ..$others } };
}

/// The program that prints `Hi` by call 9 and returns.
pub const PRINTS: Given<'_> =
    given!(program: &program![MVI C,9; LXI D,0x0109; CALL 5; RET; DB b'H',b'i',b'$';]);
