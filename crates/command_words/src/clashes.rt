// Words that ask for two things of which one excludes the other, or for one without another that it needs.

ghost use Rattle.std.specs.Prelude.{◌≡◌, is_some, map, [], ◌∷◌};
ghost use Rattle.command_words.specs.Clashes as clashes;
ghost use Rattle.command_words.specs.Rows.{check_of};

use crate::clashes::Clash::{Both, Missing};
use crate::trace_words::TraceWords;
use crate::words::{DependencyWords, SessionWords, Words};

/// What is wrong with the options that were given, each as a usage error names it.
#[derive(Clone, Copy, Debug, PartialEq, Eq)]
pub enum Clash {
    /// Two options of which only one may be given.
    Both(&'static str, &'static str),
    /// Two options with the same folder, which one of them writes to.
    SameFolder(&'static str, &'static str),
    /// An option that another one needs is missing.
    Missing(&'static str),
}

// Two options, and what is wrong if both are given, or for `Missing` if only the first is given.
type Check<'a> = (Option<&'a str>, Option<&'a str>, Clash);

// Returns what is wrong by the first check that fails.
fn first_failed(checks: &[Check<'_>]) -> Option<Clash>
    ensures any { is_some result ≡ is_some (clashes.first_failed (map check_of checks.now)) }
    ensures first { clashes.names_of result ≡ clashes.first_failed (map check_of checks.now) }
{
    for (one, other, clash) in checks {
        let fails = match clash {
            Missing(_) => other.is_none(),
            _ => other.is_some(),
        };
        if one.is_some() && fails {
            return Some(*clash);
        }
    }
    None
}

// Returns the name of a flag, if it is given.
fn given<'a>(name: &'a str, flag: bool) -> Option<&'a str>
    ensures { is_some result ≡ flag }
{
    if flag { Some(name) } else { None }
}

impl SessionWords<'_> {
    /// Returns the first two options that describe the session and exclude each other, if both are given.
    pub fn clash(&self) -> Option<Clash>
        ensures { clashes.names_of result ≡ clashes.first_failed (clashes.session_checks self.now) }
    {
        let (console, typed) = (self.console, self.typed);
        let (own, disk) = (self.own, self.disk);
        first_failed(&[
            (console, typed, Both("--console <FILE>", "--typed <TEXT>")),
            (own[0], disk[0], Both("--files <DIR>", "--disk <DIR>")),
            (own[1], disk[1], Both("--files-b <DIR>", "--disk-b <DIR>")),
            (own[2], disk[2], Both("--files-c <DIR>", "--disk-c <DIR>")),
            (own[3], disk[3], Both("--files-d <DIR>", "--disk-d <DIR>")),
        ])
    }
}

impl Words<'_> {
    /// Returns the first two options that exclude each other, if both are given, or one that another one lacks.
    pub fn clash(&self) -> Option<Clash>
        ensures any { is_some result ≡ clashes.run_clashes self.now }
        ensures first { clashes.names_of result ≡ clashes.first_failed (clashes.run_checks self.now) }
    {
        let (console, typed) = (self.console, self.typed);
        let (edits, deps, trace) = (self.edits, self.deps, self.trace);
        let (own, out, disk) = (self.files, self.out, self.disk);
        let dry_run = given("--dry-run", self.dry_run);
        first_failed(&[
            (console, typed, Both("--console <FILE>", "--typed <TEXT>")),
            (edits, deps, Both("--edits <FILE>", "--deps <FILE>")),
            (edits, trace, Both("--edits <FILE>", "--trace <FILE>")),
            (edits, dry_run, Both("--edits <FILE>", "--dry-run")),
            (self.target, deps, Missing("--deps <FILE>")),
            (own[0], disk[0], Both("--files <DIR>", "--disk <DIR>")),
            (own[1], disk[1], Both("--files-b <DIR>", "--disk-b <DIR>")),
            (own[2], disk[2], Both("--files-c <DIR>", "--disk-c <DIR>")),
            (own[3], disk[3], Both("--files-d <DIR>", "--disk-d <DIR>")),
            (out[0], disk[0], Both("--out <DIR>", "--disk <DIR>")),
            (out[1], disk[1], Both("--out-b <DIR>", "--disk-b <DIR>")),
            (out[2], disk[2], Both("--out-c <DIR>", "--disk-c <DIR>")),
            (out[3], disk[3], Both("--out-d <DIR>", "--disk-d <DIR>")),
        ])
    }
}

impl DependencyWords<'_> {
    /// Returns the first two options that exclude each other, if both are given.
    pub fn clash(&self) -> Option<Clash>
        ensures any { is_some result ≡ clashes.dependency_clashes self.now }
        ensures first { clashes.names_of result ≡ clashes.first_failed (clashes.dependency_checks self.now) }
    {
        if self.target.is_some() && self.by_step {
            return Some(Both("--make <TARGET>", "--by-step"));
        }
        self.session.clash()
    }
}

impl TraceWords<'_> {
    /// Returns the first two options that exclude each other, if both are given.
    pub fn clash(&self) -> Option<Clash>
        ensures any { is_some result ≡ clashes.trace_clashes self.now }
        ensures first { clashes.names_of result ≡ clashes.first_failed (clashes.trace_checks self.now) }
    {
        self.session.clash()
    }
}
