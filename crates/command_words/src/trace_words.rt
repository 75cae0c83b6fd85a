// The words of the command line of `cpmtrace`.

ghost use Rattle.std.specs.Prelude.{◌≤◌, IfNone, IfOk, IfSome, map, string_bytes};
ghost use Rattle.clap.specs.Words.{FailsBy, found_of, rows_of};
ghost use Rattle.command_words.specs.CommandLine.{LacksSessionWords};
ghost use Rattle.command_words.specs.TraceLine.{AreTraceWordsOf, trace_faults, trace_matches};

use crate::trace_options::trace_command;
use crate::words::{SessionWords, flag, number, session_words_of};
use clap::{ArgMatches, Error};
use std::alloc::{AllocError, Global};

/// The words of the command line of `cpmtrace`. Paths, addresses and names are unchanged.
#[derive(Drop)]
pub struct TraceWords<'a> {
    /// The words that describe the session.
    pub session: SessionWords<'a>,
    /// Whether each instruction has a line, too.
    pub steps: bool,
    /// The first step that may have a line, 0 to 4,000,000,000.
    pub from: Option<u64>,
    /// The last step that may have a line, 0 to 4,000,000,000.
    pub to: Option<u64>,
    /// The address of the steps that may have lines.
    pub at: Option<&'a str>,
    /// The range of memory that these steps write to.
    pub writes: Option<&'a str>,
    /// The range of memory that these steps read from.
    pub reads: Option<&'a str>,
    /// The name of the file of the calls that may have lines.
    pub file: Option<&'a str>,
    /// The largest number of lines, 1 to 4,000,000,000.
    pub last: Option<u64>,
}

/// Returns the words of `cpmtrace`, or `None` if the program is missing or the limit is out of its range.
fn trace_words_of<'a>(matches: &ArgMatches<'a>) -> Option<TraceWords<'a>>
    ensures says { IfSome result (AreTraceWordsOf (rows_of (found_of matches.now))) }
    ensures limit { IfSome result (λ w. w.session.limit ≤ 4000000000) }
    ensures none { IfNone result (LacksSessionWords (rows_of (found_of matches.now))) }
{
    Some(TraceWords {
        session: session_words_of(matches)?,
        steps: flag(matches, "steps"),
        from: number(matches, "from", 0, 4_000_000_000),
        to: number(matches, "to", 0, 4_000_000_000),
        at: matches.get_str("at"),
        writes: matches.get_str("writes"),
        reads: matches.get_str("reads"),
        file: matches.get_str("file"),
        last: number(matches, "last", 1, 4_000_000_000),
    })
}

/// Parses the words after the program's name with the command line of `cpmtrace`.
///
/// # Errors
///
/// Returns the error of `clap`, as `read_words` does.
pub fn read_trace_words<'a>(alloc: Global, words: &'a [String]) -> Result<TraceWords<'a>, Error>
    ensures says { IfOk result
        (AreTraceWordsOf (trace_matches (map string_bytes words.entry.now))) }
    ensures fails { FailsBy (trace_faults (map string_bytes words.entry.now)) result }
    ensures limit { IfOk result (λ w. w.session.limit ≤ 4000000000) }
{
    let mut command = trace_command(alloc)?;
    let matches = command.try_get_matches_from_mut(words)?;
    match trace_words_of(&matches) {
        Some(words) => Ok(words),
        // clap has checked that each is there and in its range, so this is never reached.
        None => Err(Error::from(AllocError)),
    }
}
