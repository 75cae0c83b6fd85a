ghost use Rattle.std.specs.Prelude.{◌≡◌, ◌≤◌, IfOk, IfSome, IfNone, [], ◌∷◌, codes, map, string_bytes, true};
ghost use Rattle.clap.specs.Words.{FailsBy, found_of, rows_of};
ghost use Rattle.command_words.specs.CommandLine.{AreSessionWordsOf, HasNoNumberWithin, IsFlagOf, IsLimitOf, IsNumberOf, LacksSessionWords};
ghost use Rattle.command_words.specs.CommandLine.{default_limit, files_or_disks, has_limit, text_of, texts_of};
ghost use Rattle.command_words.specs.RunLine.{AreWordsOf, LacksWords, run_faults, run_matches};
ghost use Rattle.command_words.specs.DependencyLine.{AreDependencyWordsOf, dependency_faults, dependency_matches};

use crate::options::{dependency_command, run_command};
use clap::{ArgMatches, Error};
use std::alloc::{AllocError, Global};

/// The words of a command line that describe a session. Paths are unchanged.
#[derive(Clone, Copy)]
pub struct SessionWords<'a> {
    /// The path of the program.
    pub program: &'a str,
    /// The command tail, empty by default.
    pub tail: &'a str,
    /// The folder of each drive, A to D, that the host files are read from: its own, or else its disk.
    pub files: [Option<&'a str>; 4],
    /// The folder of the host files of each drive, A to D.
    pub own: [Option<&'a str>; 4],
    /// The folder of each drive, A to D, that is its disk.
    pub disk: [Option<&'a str>; 4],
    /// The path of the script, if it has one.
    pub console: Option<&'a str>,
    /// The script as typed text. With neither a path nor a text, the script is empty.
    pub typed: Option<&'a str>,
    /// The limit of steps, 0 to 4,000,000,000: 1,000,000 by default, and 4,000,000,000 with a disk.
    pub limit: u64,
}

/// The words of the command line of `cpmrun`. Paths are unchanged.
#[derive(Drop)]
pub struct Words<'a> {
    /// The path of the program.
    pub program: &'a str,
    /// The command tail, empty by default.
    pub tail: &'a str,
    /// The folder of the host files of each drive, A to D.
    pub files: [Option<&'a str>; 4],
    /// The path of the script, if it has one.
    pub console: Option<&'a str>,
    /// The script as typed text. With neither a path nor a text, the script is empty.
    pub typed: Option<&'a str>,
    /// The limit of steps, 0 to 4,000,000,000: 1,000,000 by default, and 4,000,000,000 with a disk.
    pub limit: u64,
    /// The folder for the changed files of each drive, A to D.
    pub out: [Option<&'a str>; 4],
    /// The folder of each drive, A to D, that is its disk: it is read, and the changed files are written and removed there.
    pub disk: [Option<&'a str>; 4],
    /// Whether the disks are changed whatever the stop, and not only if the run stops by `WarmBoot`.
    pub partial: bool,
    /// Whether the run changes no file, and reports what it would do.
    pub dry_run: bool,
    /// Whether the run says where it stopped, and what to do.
    pub explain: bool,
    /// The path of the edit lines, or `None` to run the session once.
    pub edits: Option<&'a str>,
    /// The path of the file that gets a rule for make, if one is to be written.
    pub deps: Option<&'a str>,
    /// The target of this rule, or `None` for the files that are written.
    pub target: Option<&'a str>,
    /// The path of the file that gets the trace of the run, if it is to be written.
    pub trace: Option<&'a str>,
    /// The number of steps from one checkpoint to the next, 1 to 1,000,000,000.
    pub spacing: u64,
    /// The largest number of checkpoints that are kept, 1 to 4,096.
    pub slots: usize,
}

impl<'a> Words<'a> {
    ghost use Rattle.command_words.specs.RunLine.{session_words};

    /// Returns the words that describe the session.
    pub fn session(&self) -> SessionWords<'a>
        ensures { result ≡ session_words self.now }
    {
        SessionWords {
            program: self.program,
            tail: self.tail,
            files: files_or_disks(&self.files, &self.disk),
            own: self.files,
            disk: self.disk,
            console: self.console,
            typed: self.typed,
            limit: self.limit,
        }
    }
}

/// Returns the folder of each drive: its own, or else its disk.
fn files_or_disks<'a>(
    own: &[Option<&'a str>; 4],
    disk: &[Option<&'a str>; 4],
) -> [Option<&'a str>; 4]
    ensures { result ≡ files_or_disks own.now disk.now }
{
    [
        own[0].or(disk[0]),
        own[1].or(disk[1]),
        own[2].or(disk[2]),
        own[3].or(disk[3]),
    ]
}

/// The words of the command line of `cpmdeps`. Paths are unchanged.
#[derive(Drop)]
pub struct DependencyWords<'a> {
    /// The words that describe the session.
    pub session: SessionWords<'a>,
    /// The target of the rule for make, or `None` for the listing.
    pub target: Option<&'a str>,
    /// Whether places that different steps asked for first have lines of their own.
    pub by_step: bool,
}

/// Returns the number of an option, if the option is there and in its range.
pub(crate) fn number(matches: &ArgMatches<'_>, id: &str, least: u64, most: u64) -> Option<u64>
    ensures said { IfSome result (IsNumberOf (rows_of (found_of matches.now)) id.now) }
    ensures low { IfSome result (λ n. least ≤ n) }
    ensures high { IfSome result (λ n. n ≤ most) }
    ensures none { IfNone result (HasNoNumberWithin (rows_of (found_of matches.now)) id.now least most) }
{
    match matches.get_one::<u64>(id) {
        Some(n) if least <= n && n <= most => Some(n),
        _ => None,
    }
}

/// Returns whether a flag is set.
pub(crate) fn flag(matches: &ArgMatches<'_>, id: &str) -> bool
    ensures { IsFlagOf (rows_of (found_of matches.now)) id.now result }
{
    matches.get_one::<bool>(id).unwrap_or(false)
}

/// Returns the texts of the options with these names, one for each drive, A to D.
fn texts<'a>(matches: &ArgMatches<'a>, a: &str, b: &str, c: &str, d: &str) -> [Option<&'a str>; 4]
    ensures { map text_of result ≡ texts_of (rows_of (found_of matches.now))
        (a.now ∷ b.now ∷ c.now ∷ d.now ∷ []) }
{
    [
        matches.get_str(a),
        matches.get_str(b),
        matches.get_str(c),
        matches.get_str(d),
    ]
}

/// Returns the limit of steps if none is given.
fn default_limit(disk: &[Option<&str>; 4]) -> u64
    ensures { result ≡ default_limit disk.now }
{
    let [a, b, c, d] = *disk;
    if a.is_some() || b.is_some() || c.is_some() || d.is_some() {
        return 4_000_000_000;
    }
    1_000_000
}

/// Returns the limit of steps, or `None` if it is out of its range.
fn limit_of(matches: &ArgMatches<'_>, disk: &[Option<&str>; 4]) -> Option<u64>
    ensures said { IfSome result (IsLimitOf (rows_of (found_of matches.now)) disk.now) }
    ensures high { IfSome result (λ n. n ≤ 4000000000) }
    ensures given { IfNone result (has_limit (rows_of (found_of matches.now)) ≡ true) }
    ensures none { IfNone result
        (HasNoNumberWithin (rows_of (found_of matches.now)) (codes "limit") 0 4000000000) }
{
    if matches.get_str("limit").is_none() {
        return Some(default_limit(disk));
    }
    number(matches, "limit", 0, 4_000_000_000)
}

/// Returns the words that describe a session, or `None` if the program is missing or the limit is out of its range.
pub(crate) fn session_words_of<'a>(matches: &ArgMatches<'a>) -> Option<SessionWords<'a>>
    ensures says { IfSome result (AreSessionWordsOf (rows_of (found_of matches.now))) }
    ensures limit { IfSome result (λ w. w.limit ≤ 4000000000) }
    ensures none { IfNone result (LacksSessionWords (rows_of (found_of matches.now))) }
{
    let own = texts(matches, "files", "files-b", "files-c", "files-d");
    let disk = texts(matches, "disk", "disk-b", "disk-c", "disk-d");
    Some(SessionWords {
        program: matches.get_str("PROGRAM")?,
        tail: matches.get_str("TAIL").unwrap_or(""),
        files: files_or_disks(&own, &disk),
        own,
        disk,
        console: matches.get_str("console"),
        typed: matches.get_str("typed"),
        limit: limit_of(matches, &disk)?,
    })
}

/// Returns the words of `cpmrun`, or `None` if a required one is missing or a number is out of its range.
fn words_of<'a>(matches: &ArgMatches<'a>) -> Option<Words<'a>>
    ensures says { IfSome result (AreWordsOf (rows_of (found_of matches.now))) }
    ensures limit { IfSome result (λ w. w.limit ≤ 4000000000) }
    ensures spacing { IfSome result (λ w. (1 ≤ w.spacing) × (w.spacing ≤ 1000000000)) }
    ensures slots { IfSome result (λ w. (1 ≤ w.slots) × (w.slots ≤ 4096)) }
    ensures none { IfNone result (LacksWords (rows_of (found_of matches.now))) }
{
    let session = session_words_of(matches)?;
    Some(Words {
        program: session.program,
        tail: session.tail,
        files: session.own,
        console: session.console,
        typed: session.typed,
        limit: session.limit,
        out: texts(matches, "out", "out-b", "out-c", "out-d"),
        disk: session.disk,
        partial: flag(matches, "partial"),
        dry_run: flag(matches, "dry-run"),
        explain: flag(matches, "explain"),
        edits: matches.get_str("edits"),
        deps: matches.get_str("deps"),
        target: matches.get_str("target"),
        trace: matches.get_str("trace"),
        spacing: number(matches, "spacing", 1, 1_000_000_000)?,
        slots: number(matches, "slots", 1, 4096)? as usize,
    })
}

/// Returns the words of `cpmdeps`, or `None` if the program is missing or the limit is out of its range.
fn dependency_words_of<'a>(matches: &ArgMatches<'a>) -> Option<DependencyWords<'a>>
    ensures says { IfSome result (AreDependencyWordsOf (rows_of (found_of matches.now))) }
    ensures limit { IfSome result (λ w. w.session.limit ≤ 4000000000) }
    ensures none { IfNone result (LacksSessionWords (rows_of (found_of matches.now))) }
{
    Some(DependencyWords {
        session: session_words_of(matches)?,
        target: matches.get_str("make"),
        by_step: flag(matches, "by-step"),
    })
}

/// Parses the words after the program's name with the command line of `cpmrun`.
///
/// # Errors
///
/// Returns the error of `clap`; `error_class` says whether help was asked for, the words are a usage error, or an allocation
/// failed.
pub fn read_words<'a>(alloc: Global, words: &'a [String]) -> Result<Words<'a>, Error>
    ensures says { IfOk result (AreWordsOf (run_matches (map string_bytes words.entry.now))) }
    ensures fails { FailsBy (run_faults (map string_bytes words.entry.now)) result }
    ensures limit { IfOk result (λ w. w.limit ≤ 4000000000) }
    ensures spacing { IfOk result (λ w. (1 ≤ w.spacing) × (w.spacing ≤ 1000000000)) }
    ensures slots { IfOk result (λ w. (1 ≤ w.slots) × (w.slots ≤ 4096)) }
{
    let mut command = run_command(alloc)?;
    let matches = command.try_get_matches_from_mut(words)?;
    match words_of(&matches) {
        Some(words) => Ok(words),
        // clap has checked that each is there and in its range, so this is never reached.
        None => Err(Error::from(AllocError)),
    }
}

/// Parses the words after the program's name with the command line of `cpmdeps`.
///
/// # Errors
///
/// Returns the error of `clap`, as `read_words` does.
pub fn read_dependency_words<'a>(
    alloc: Global,
    words: &'a [String],
) -> Result<DependencyWords<'a>, Error>
    ensures says { IfOk result
        (AreDependencyWordsOf (dependency_matches (map string_bytes words.entry.now))) }
    ensures fails { FailsBy (dependency_faults (map string_bytes words.entry.now)) result }
    ensures limit { IfOk result (λ w. w.session.limit ≤ 4000000000) }
{
    let mut command = dependency_command(alloc)?;
    let matches = command.try_get_matches_from_mut(words)?;
    match dependency_words_of(&matches) {
        Some(words) => Ok(words),
        // clap has checked that each is there and in its range, so this is never reached.
        None => Err(Error::from(AllocError)),
    }
}
