// The whole program except its `main`.

ghost use Rattle.std.specs.Prelude.{◌≡◌, ◌∷◌, [], IfErr, IfOk, OnErr, OnOk, false, map, string_bytes};
ghost use Rattle.folders.specs.Failures.{KeepsFiles};
ghost use Rattle.requests.specs.World.{world};
ghost use Rattle.dependencies.specs.Dependencies.{AreDependencies};
ghost use Rattle.report_lines.specs.FirstLines.{stop_line};
ghost use Rattle.streams.specs.Streams.{Output, WritesOrFails};
ghost use Rattle.faults.specs.Faults.{file_paths};
ghost use Rattle.make_rules.specs.RefusedPaths.{refuses_rule};
ghost use Rattle.make_rules.specs.RunRules.{IsRule};
ghost use Rattle.dependency_command.specs.Answers.{BreaksAnswer, IsAnswer, IsListing};
ghost use Rattle.dependency_command.specs.Answers.{ReportsAnswer, ReportsStop, WritesAnswer, rows_of};
ghost use Rattle.dependency_command.specs.Program.{AllowsPaths, RefusesPaths, cpmdeps};
ghost use Rattle.requests.specs.Programs.{Ends, EndsWell, FaultOf};

use crate::request::read_request;
use command_words::{DependencyWords, SessionWords};
use dependencies::{Dependencies, Joining, run_noting_looks};
use dependency_lines::write_dependencies;
use folders::{FileSystem, Listing};
use loading::{Loaded, load};
use machine::{Cause, Session, WholeRun};
use make_rules::{check_paths, rule_of_run};
use report_lines::stop_line;
use requests::{Fault, Request, Tool, print_information, report_fault};
use std::alloc::{AllocError, Global};
use streams::{Writer, write_all};

/// Returns which neighbours the words put into one row.
fn joining(words: &DependencyWords<'_>) -> Joining
    ensures { result ≡ rows_of words.now }
{
    if words.by_step {
        Joining::ByStep
    } else {
        Joining::Joined
    }
}

/// Writes what the run of a session asked for.
fn write_listing<'a, O: Writer>(
    alloc: Global,
    session: &Session,
    joining: Joining,
    out: &mut O,
) -> Result<(), Fault<'a>>
    ensures done { OnOk result
        (WritesAnswer (IsListing joining session.now) (O.output out.old) (O.output out.new)) }
    ensures fault { IfErr result
        (BreaksAnswer (IsListing joining session.now) (O.output out.old) (O.output out.new)) }
{
    let Ok(dependencies) = Dependencies::of_run(alloc, session) else {
        return Err(Fault::OutOfMemory);
    };
    match write_dependencies(out, joining, session, &dependencies) {
        Ok(()) => Ok(()),
        Err(_) => Err(Fault::CannotWrite),
    }
}

/// Returns a list of one path.
fn one_path(alloc: Global, path: &str) -> Result<Vec<String>, AllocError>
    ensures { IfOk result (λ paths. map string_bytes paths.items ≡ path.now ∷ []) }
{
    let mut paths = Vec::new(alloc);
    paths.push(String::from_str(alloc, path)?)?;
    Ok(paths)
}

/// Returns the rule for make with this target and the files on which the run of a session depends.
fn rule_for(
    alloc: Global,
    target: &str,
    words: &SessionWords<'_>,
    listings: &[Option<Listing>; 4],
    run: &WholeRun<'_>,
) -> Result<Vec<u8>, AllocError>
    requires words { refuses_rule words.now target [] ≡ false }
    requires run { AreDependencies run.now.session.now run.now.looks run.now.steps run.now.cause }
    ensures { IfOk result (λ text.
        IsRule words.now (target.now ∷ []) listings.now run.now.session.now text.items) }
{
    let targets = one_path(alloc, target)?;
    rule_of_run(alloc, targets.as_slice(), words, listings, run)
}

/// Writes the rule for make with the files on which the run of a session depends, and reports its stop. A failure of the writer of
/// the report is ignored.
fn write_rule<'a, O: Writer, E: Writer>(
    alloc: Global,
    loaded: &Loaded,
    words: &SessionWords<'_>,
    target: &str,
    out: &mut O,
    err: &mut E,
) -> Result<(), Fault<'a>>
    requires { refuses_rule words.now target [] ≡ false }
    ensures done { OnOk result
        (WritesAnswer (IsRule words.now (target.now ∷ []) loaded.now.listings loaded.now.session)
        (O.output out.old) (O.output out.new)) }
    ensures reported { OnOk result (ReportsStop loaded.now.session (E.output err.old) (E.output err.new)) }
    ensures fault { IfErr result
        (BreaksAnswer (IsRule words.now (target.now ∷ []) loaded.now.listings loaded.now.session)
        (O.output out.old) (O.output out.new)) }
    ensures unreported { OnErr result (err.new ≡ err.old) }
{
    let Ok(run) = run_noting_looks(alloc, &loaded.session) else {
        return Err(Fault::OutOfMemory);
    };
    let text = rule_for(alloc, target, words, &loaded.listings, &run)?;
    match write_all(out, text.as_slice()) {
        Ok(()) => {
            report_stop(err, run.cause);
            Ok(())
        }
        Err(_) => Err(Fault::CannotWrite),
    }
}

/// Writes the line of a stop. A failure of the writer is ignored.
fn report_stop<E: Writer>(err: &mut E, cause: Cause)
    ensures { WritesOrFails (E.output err.old) (E.output err.new) (stop_line cause) }
{
    let _ = write_all(err, stop_line(cause).as_bytes());
}

/// Runs a session, and writes what the run asked for as the words ask for it.
fn write_answer<'a, O: Writer, E: Writer>(
    alloc: Global,
    loaded: &Loaded,
    words: &DependencyWords<'_>,
    out: &mut O,
    err: &mut E,
) -> Result<(), Fault<'a>>
    requires { AllowsPaths words.now }
    ensures done { OnOk result
        (WritesAnswer (IsAnswer words.now loaded.now.listings loaded.now.session)
        (O.output out.old) (O.output out.new)) }
    ensures reported { OnOk result
        (ReportsAnswer words.now loaded.now.session (E.output err.old) (E.output err.new)) }
    ensures fault { IfErr result
        (BreaksAnswer (IsAnswer words.now loaded.now.listings loaded.now.session)
        (O.output out.old) (O.output out.new)) }
    ensures unreported { OnErr result (err.new ≡ err.old) }
{
    match words.target {
        Some(target) => write_rule(alloc, loaded, &words.session, target, out, err),
        None => write_listing(alloc, &loaded.session, joining(words), out),
    }
}

/// Checks whether a rule for make can have the paths among the words, if they ask for one.
fn check_words<'a>(alloc: Global, words: &DependencyWords<'_>) -> Result<(), Fault<'a>>
    ensures allowed { OnOk result (AllowsPaths words.now) }
    ensures refused { IfErr result (RefusesPaths words.now) }
{
    match words.target {
        Some(target) => check_paths(alloc, &words.session, target, &[]),
        None => Ok(()),
    }
}

/// Executes the command that the words describe.
fn run<'a, S: FileSystem, O: Writer, E: Writer>(
    system: &mut S,
    words: &'a [String],
    out: &mut O,
    err: &mut E,
) -> Result<(), Fault<'a>>
    ensures done { OnOk result (EndsWell cpmdeps (map string_bytes words.entry.now) 0
        (world (S.files system.old) (O.output out.old) (E.output err.old))
        (world (S.files system.new) (O.output out.new) (E.output err.new))) }
    ensures fault { IfErr result (λ fault. (err : Output) → FaultOf cpmdeps (map string_bytes words.entry.now)
        (world (S.files system.old) (O.output out.old) err)
        (world (S.files system.new) (O.output out.new) err) fault) }
    ensures unreported { OnErr result (err.new ≡ err.old) }
    ensures unchanged { KeepsFiles file_paths result (S.files system.old) (S.files system.new) }
{
    let words = match read_request(system.alloc(), words)? {
        Request::Session(words) => words,
        Request::Information(text) => return print_information(text.as_str(), out),
    };
    check_words(system.alloc(), &words)?;
    let loaded = load(system, &words.session)?;
    write_answer(system.alloc(), &loaded, &words, out, err)
}

/// Prints what the run of a session depends on, for the words after the program's name and over the files of a file system, and
/// returns the exit status. The status is 0 if the listing, the rule or help was written to `out`; the run may have stopped by any cause,
/// which `err` reports after a rule. Otherwise it is 1 or 12, and `err` reports the error. No file changes.
pub fn dependency_command<S: FileSystem, O: Writer, E: Writer>(
    system: &mut S,
    words: &[String],
    out: &mut O,
    err: &mut E,
) -> u8
    ensures ends { Ends cpmdeps (map string_bytes words.now) result
        (world (S.files system.old) (O.output out.old) (E.output err.old))
        (world (S.files system.new) (O.output out.new) (E.output err.new)) }
    ensures files { (S.files system.new).bytes ≡ (S.files system.old).bytes }
{
    match run(system, words, out, err) {
        Ok(()) => 0,
        Err(fault) => report_fault(Tool::Cpmdeps, fault, err),
    }
}
