// One run of the session of the words.

ghost use Rattle.std.specs.Prelude.{◌≡◌, ◌++◌, None, Some, IfErr, IfOk, Ok, OnErr, OnOk, is_some, map, option_map, string_bytes, true};
ghost use Rattle.std.specs.List.{list_all};
ghost use Rattle.dependencies.specs.Dependencies.{AreDependencies};
ghost use Rattle.folders.specs.ChangedBytes.{written_bytes};
ghost use Rattle.folders.specs.Failures.{KeepsFiles, ReportsPaths};
ghost use Rattle.folders.specs.Faults.{FailsBy, failure_paths};
ghost use Rattle.folders.specs.FileSystem.{HasBytes};
ghost use Rattle.make_rules.specs.Carried.{is_carried};
ghost use Rattle.machine.specs.PlainState.{plain_run};
ghost use Rattle.one_run.specs.ChangedList.{changed_by, first_unplaced, planned};
ghost use Rattle.one_run.specs.RunTexts.{stop_status};
ghost use Rattle.plan.specs.Faults.{IsAnyWriteFault};
ghost use Rattle.plan.specs.Wanted.{wanted_of};
ghost use Rattle.requests.specs.World.{world};
ghost use Rattle.faults.specs.Faults.{file_paths};
ghost use Rattle.requests.specs.Programs.{Does, Fails};
ghost use Rattle.streams.specs.Streams.{Output, WritesWhole};
ghost use Rattle.one_run.specs.Trace.{console_text, each_call, trace_text};
ghost use Rattle.cpmrun.specs.Reports as reports;
ghost use Rattle.cpmrun.specs.Reports.{AllowsRule, IsEarly, written_folders};
ghost use Rattle.cpmrun.specs.RunEnds as run_ends;

use crate::disks_after::{
    Unsynced, check_disks, disks_after, exit_status, looked_for, sync_drives, unsynced_folders,
};
use crate::dry_run::pretend;
use crate::explaining::explain;
use crate::reports::{
    Placing, Report, check_changes, check_reports, plan_report, push_paths, rule_report,
    stream_path, write_report,
};
use command_words::Words;
use disks::{has_disks, lock_disks, same_folders};
use folders::{DriveFolder, Failure, FileSystem, Listing, Places, Written, write_failure};
use loading::{Loaded, load_with, read_inputs};
use machine::{Noting, Session, WholeRun};
use make_rules::check_paths;
use one_run::{
    Disks, Entry, Report as StopReport, RunFault, Start, Turn, changed_entries, each_call,
    is_any_on_disk, left_paths, no_step, plan_turn, report_stop, run_to_end,
};
use plan::{Deed, Durable, Plan, carry_out, carry_out_each};
use requests::{Fault, Tool, clash_fault};
use std::alloc::{AllocError, Global};
use streams::{Nowhere, Writer};

// What a run changes: what becomes of the disks, and the changed files.
#[derive(Clone, Copy)]
struct Changes<'r, 'e> {
    disks: Disks,
    entries: &'r [Entry<'e>],
}

// Returns what a run notes: what it asks for, if a rule for make is written, or if it has disks.
fn noting_of(words: &Words<'_>) -> Noting
    ensures { run_ends.notes_looks words.now ≡ true → result ≡ Noting.Looks }
{
    if words.deps.is_some() || has_disks(words) {
        Noting::Looks
    } else {
        Noting::Nothing
    }
}

// Returns the error for a console text that was not written in full. No disk is changed then.
fn unwritten<'a>(words: &Words<'_>) -> Fault<'a>
    ensures { result ≡ run_ends.unwritten words.now }
{
    if has_disks(words) {
        Fault::DiskUnchanged
    } else {
        Fault::CannotWrite
    }
}

// Returns the error of a run that was broken off. The one of a trace is known when it is closed.
fn fault_of<'a>(words: &Words<'_>, fault: RunFault) -> Fault<'a>
    ensures { result ≡ run_ends.fault_of words.now fault }
{
    match fault {
        RunFault::Console => unwritten(words),
        RunFault::Trace | RunFault::OutOfMemory => Fault::OutOfMemory,
    }
}

// Returns the path to which the trace is written, if the words ask for one. A dry run writes none.
fn trace_path<'a>(words: &Words<'a>) -> Option<&'a str>
    ensures { option_map (λ path. path.now) result ≡ reports.trace_path words.now }
{
    match words.trace {
        Some(path) if !words.dry_run => Some(stream_path(path)),
        _ => None,
    }
}

// Runs a session to its end, and writes its console text.
fn run_untraced<'s, 'a, O: Writer, E: Writer>(
    words: &Words<'_>,
    start: Start<'s>,
    out: &mut O,
    err: &mut E,
) -> Result<WholeRun<'s>, Fault<'a>>
    ensures session { IfOk result (λ w. w.session.now ≡ start.entry.session.now) }
    ensures asked { start.entry.noting ≡ Noting.Looks
        → IfOk result (λ w. AreDependencies start.entry.session.now w.looks w.steps w.cause) }
    ensures done { OnOk result
        (WritesWhole (O.output out.old) (O.output out.new) (console_text start.entry.session.now)) }
    ensures fault { IfErr result (run_ends.BreaksConsole words.now (console_text start.entry.session.now)
        (O.output out.old) (O.output out.new)) }
    ensures err { E.output err.new ≡ E.output err.old }
{
    match run_to_end(start, &no_step(), out, &mut Nowhere, err) {
        Ok(run) => Ok(run),
        Err(fault) => Err(fault_of(words, fault)),
    }
}

// Does the same, and writes the trace to this path. An error of the trace comes before one of the console.
fn run_traced<'s, 'a, S: FileSystem, O: Writer, E: Writer>(
    system: &mut S,
    words: &Words<'_>,
    start: Start<'s>,
    path: &str,
    out: &mut O,
    err: &mut E,
) -> Result<WholeRun<'s>, Fault<'a>>
    requires { reports.trace_path words.now ≡ Some path.now }
    ensures session { IfOk result (λ w. w.session.now ≡ start.entry.session.now) }
    ensures asked { start.entry.noting ≡ Noting.Looks
        → IfOk result (λ w. AreDependencies start.entry.session.now w.looks w.steps w.cause) }
    ensures done { OnOk result
        (WritesWhole (O.output out.old) (O.output out.new) (console_text start.entry.session.now)) }
    ensures trace { let text = trace_text each_call start.entry.session.now in
        OnOk result (HasBytes path.now text (S.files system.old) (S.files system.new)) }
    ensures fault { IfErr result (run_ends.BreaksConsole words.now (console_text start.entry.session.now)
        (O.output out.old) (O.output out.new)) }
    ensures part { let text = trace_text each_call start.entry.session.now in OnErr result
        (run_ends.BreaksTrace (Some path.now) text (S.files system.old) (S.files system.new)) }
    ensures err { E.output err.new ≡ E.output err.old }
    ensures failed { ReportsPaths file_paths result (S.files system.old) (S.files system.new) }
{
    let named = String::from_str(system.alloc(), path)?;
    let mut trace = match system.create(path) {
        Ok(trace) => trace,
        Err(error) => return Err(write_failure(error, named).into()),
    };
    let ran = run_to_end(start, &each_call(), out, &mut trace, err);
    if let Err(error) = system.close(path, trace) {
        return Err(write_failure(error, named).into());
    }
    match ran {
        Ok(run) => Ok(run),
        Err(fault) => Err(fault_of(words, fault)),
    }
}

// Runs a session to its end, and writes its console text and its trace while it runs.
fn run_streams<'s, 'a, S: FileSystem, O: Writer, E: Writer>(
    system: &mut S,
    words: &Words<'_>,
    session: &'s Session,
    out: &mut O,
    err: &mut E,
) -> Result<WholeRun<'s>, Fault<'a>>
    ensures session { IfOk result (λ w. w.session.now ≡ session.now) }
    ensures asked { run_ends.notes_looks words.now ≡ true
        → IfOk result (λ w. AreDependencies session.now w.looks w.steps w.cause) }
    ensures done { OnOk result
        (WritesWhole (O.output out.old) (O.output out.new) (console_text session.now)) }
    ensures trace { let text = trace_text each_call session.now in OnOk result (run_ends.WritesTrace
        (reports.trace_path words.now) text (S.files system.old) (S.files system.new)) }
    ensures fault { IfErr result
        (run_ends.BreaksConsole words.now (console_text session.now) (O.output out.old) (O.output out.new)) }
    ensures part { let text = trace_text each_call session.now in OnErr result (run_ends.BreaksTrace
        (reports.trace_path words.now) text (S.files system.old) (S.files system.new)) }
    ensures err { E.output err.new ≡ E.output err.old }
    ensures failed { ReportsPaths file_paths result (S.files system.old) (S.files system.new) }
{
    let start = Start {
        alloc: system.alloc(),
        session,
        noting: noting_of(words),
    };
    match trace_path(words) {
        Some(path) => run_traced(system, words, start, path, out, err),
        None => run_untraced(words, start, out, err),
    }
}

// Plans what is done in a turn on disks, unless they stay unchanged.
fn plan_on_disks<'p, S: FileSystem>(
    system: &mut S,
    plan: &mut Plan<'p, Written<'p>>,
    disks: Disks,
    turn: Turn,
    entries: &[Entry<'p>],
) -> Result<(), Failure>
    ensures planned { OnOk result (map (wanted_of written_bytes) plan.new.deeds.items
        ≡ map (wanted_of written_bytes) plan.old.deeds.items
        ++ run_ends.on_disks disks (planned turn (map changed_by entries.now))) }
    ensures fault { IfErr result (FailsBy IsAnyWriteFault) }
    ensures unchanged { KeepsFiles failure_paths result (S.files system.old) (S.files system.new) }
{
    match disks {
        Disks::Unchanged => Ok(()),
        _ => plan_turn(system, plan, turn, entries),
    }
}

// Does what is planned: files outside of disks are written one after another, and then the plan for disks is done as a whole. If a disk is
// changed, the folders in which these files are changed are synced, those outside of disks before anything is done on a disk. Returns for
// which this failed.
fn carry_out_plans<'a, S: FileSystem>(
    system: &mut S,
    words: &Words<'_>,
    outside: Plan<'_, Written<'_>>,
    plan: Plan<'_, Written<'_>>,
    synced: &[Entry<'_>],
) -> Result<Unsynced, Fault<'a>>
    ensures done { OnOk result (run_ends.CarriesPlan
        (run_ends.asked outside.entry.deeds.items) (run_ends.asked plan.entry.deeds.items)
        (S.files system.old).bytes (S.files system.new).bytes (Ok tt)) }
    ensures fault { IfErr result (run_ends.BreaksOff
        (run_ends.asked outside.entry.deeds.items) (run_ends.asked plan.entry.deeds.items)
        (S.files system.old).bytes (S.files system.new).bytes) }
    ensures failed { ReportsPaths file_paths result (S.files system.old) (S.files system.new) }
{
    let durable = if synced.is_empty() {
        Durable::Expected
    } else {
        Durable::All
    };
    carry_out_each(system, outside, durable)?;
    let out = sync_drives(system, &words.out, synced);
    carry_out(system, plan)?;
    let disks = sync_drives(system, &words.disk, synced);
    Ok(Unsynced { out, disks })
}

// Returns the changed files whose folders are synced: none if no disk is changed.
fn synced<'e, 'r>(disks: Disks, entries: &'r [Entry<'e>]) -> &'r [Entry<'e>] {
    if matches!(disks, Disks::Changed) && is_any_on_disk(entries) {
        entries
    } else {
        &[]
    }
}

// Returns the paths of the files that are put in place.
fn written_paths(
    alloc: Global,
    outside: &[Deed<'_, Written<'_>>],
    disks: &[Deed<'_, Written<'_>>],
) -> Result<Vec<String>, AllocError>
    ensures { IfOk result (λ paths. map string_bytes paths.items
        ≡ reports.put_paths (run_ends.asked outside.now) ++ reports.put_paths (run_ends.asked disks.now)) }
{
    let mut paths = Vec::new(alloc);
    push_paths(alloc, &mut paths, outside)?;
    push_paths(alloc, &mut paths, disks)?;
    Ok(paths)
}

// Changes the files as the run asks, and writes its rule. All is planned before the first of them is changed. Returns the folders that were
// not synced.
fn change<'a, S: FileSystem>(
    system: &mut S,
    words: &Words<'_>,
    listings: &[Option<Listing>; 4],
    disks: Disks,
    entries: &[Entry<'_>],
    run: &WholeRun<'_>,
) -> Result<Unsynced, Fault<'a>>
    requires carried { is_some words.now.deps ≡ true → list_all is_carried
        (reports.put_paths (run_ends.puts disks (map changed_by entries.now))) ≡ true }
    requires words { AllowsRule words.now }
    requires run { is_some words.now.deps ≡ true
        → AreDependencies run.now.session.now run.now.looks run.now.steps run.now.cause }
    ensures done { OnOk result (run_ends.ChangesFiles words.now listings.now run.now.session.now
        disks (map changed_by entries.now) (S.files system.old) (S.files system.new).bytes) }
    ensures fault { IfErr result (run_ends.BreaksChanges words.now listings.now run.now.session.now
        disks (map changed_by entries.now) (S.files system.old) (S.files system.new).bytes) }
    ensures failed { ReportsPaths file_paths result (S.files system.old) (S.files system.new) }
{
    let rule;
    let mut outside = Plan::new(system.alloc());
    plan_turn(system, &mut outside, Turn::Outside, entries)?;
    let mut plan = Plan::avoiding(system.alloc(), words.deps);
    plan_on_disks(system, &mut plan, disks, Turn::New, entries)?;
    plan_on_disks(system, &mut plan, disks, Turn::Replacing, entries)?;
    check_changes(system, words, outside.deeds.as_slice())?;
    check_changes(system, words, plan.deeds.as_slice())?;
    let alloc = system.alloc();
    let written = written_paths(alloc, outside.deeds.as_slice(), plan.deeds.as_slice())?;
    rule = rule_report(alloc, words, listings, written, run)?;
    let placing = plan_report(system, &mut plan, &rule)?;
    plan_on_disks(system, &mut plan, disks, Turn::Gone, entries)?;
    let unsynced = carry_out_plans(system, words, outside, plan, synced(disks, entries))?;
    write_report(system, &rule, placing)?;
    Ok(unsynced)
}

// Returns what is not synced after the files are changed as the run asks. A dry run only reports what would be done.
fn settle<'a, S: FileSystem, E: Writer>(
    system: &mut S,
    words: &Words<'_>,
    listings: &[Option<Listing>; 4],
    changes: Changes<'_, '_>,
    run: &WholeRun<'_>,
    err: &mut E,
) -> Result<Unsynced, Fault<'a>>
    requires carried { is_some words.now.deps ≡ true → list_all is_carried
        (reports.put_paths (run_ends.puts changes.disks (map changed_by changes.entries.now))) ≡ true }
    requires words { AllowsRule words.now }
    requires run { is_some words.now.deps ≡ true
        → AreDependencies run.now.session.now run.now.looks run.now.steps run.now.cause }
    ensures done { OnOk result ((out : Output) → (run_ends.settle words.now listings.now run.now.session.now
        changes.entry.disks (map changed_by changes.entry.entries.now)).Does
        (world (S.files system.old) out (E.output err.old))
        (world (S.files system.new) out (E.output err.new))) }
    ensures unsynced { IfOk result (run_ends.MayLeaveUnsynced words.now) }
    ensures fault { IfErr result (λ fault. (out old new : Output) → (run_ends.settle words.now listings.now
        run.now.session.now changes.entry.disks (map changed_by changes.entry.entries.now)).Leaves
        (world (S.files system.old) out old) (world (S.files system.new) out new) fault) }
    ensures unreported { OnErr result (E.output err.new ≡ E.output err.old) }
    ensures failed { ReportsPaths file_paths result (S.files system.old) (S.files system.new) }
{
    let Changes { disks, entries } = changes;
    if words.dry_run {
        pretend(system, words, disks, entries, err)?;
        return Ok(Unsynced::NONE);
    }
    change(system, words, listings, disks, entries, run)
}

// Changes the files as a run of the words asks that has ended, and reports its stop. Returns the exit status.
fn finish<'r, 'a, S: FileSystem, E: Writer>(
    system: &mut S,
    words: &'r Words<'r>,
    listings: &'r [Option<Listing>; 4],
    run: &'r WholeRun<'r>,
    err: &mut E,
) -> Result<u8, Fault<'a>>
    requires words { AllowsRule words.now }
    requires run { run_ends.notes_looks words.now ≡ true
        → AreDependencies run.now.session.now run.now.looks run.now.steps run.now.cause }
    ensures done { IfOk result (λ status. (out : Output) →
        (run_ends.ending words.now listings.now run.now.session.now status).Does
        (world (S.files system.old) out (E.output err.old))
        (world (S.files system.new) out (E.output err.new))) }
    ensures fault { IfErr result (λ fault. (out old new : Output) →
        (run_ends.ending words.now listings.now run.now.session.now 0).Leaves
        (world (S.files system.old) out old) (world (S.files system.new) out new) fault) }
    ensures unreported { OnErr result (E.output err.new ≡ E.output err.old) }
    ensures failed { ReportsPaths file_paths result (S.files system.old) (S.files system.new) }
{
    let (cause, looked) = (run.cause(), looked_for(words, run));
    let disks = disks_after(words, cause, looked);
    let places = Places {
        out: words.out,
        disks: DriveFolder::with_names(&words.disk, listings),
    };
    let alloc = system.alloc();
    let entries = changed_entries(alloc, &places, run.session.files(), run.journal())?;
    let entries = entries.as_slice();
    let left = left_paths(alloc, &places.disks)?;
    check_disks(system, disks, &places.disks, entries)?;
    let unsynced = settle(
        system,
        words,
        listings,
        Changes { disks, entries },
        run,
        err,
    )?;
    let unsynced = unsynced_folders(words, unsynced);
    let report = StopReport {
        cause,
        disks,
        looked,
        left: left.as_slice(),
        unsynced,
    };
    report_stop(&report, entries, err);
    explain(words, run, disks, entries, err);
    Ok(exit_status(cause, looked, &unsynced))
}

// Runs a session that was loaded once, and reports its stop. Returns the exit status for the stop.
fn run_loaded<'a, S: FileSystem, O: Writer, E: Writer>(
    system: &mut S,
    words: &Words<'_>,
    loaded: &Loaded,
    out: &mut O,
    err: &mut E,
) -> Result<u8, Fault<'a>>
    requires { AllowsRule words.now }
    ensures done { IfOk result (λ status.
        (run_ends.run words.now loaded.now.listings loaded.now.session status).Does
        (world (S.files system.old) (O.output out.old) (E.output err.old))
        (world (S.files system.new) (O.output out.new) (E.output err.new))) }
    ensures fault { IfErr result (λ fault. (old new : Output) →
        (run_ends.run words.now loaded.now.listings loaded.now.session 0).Leaves
        (world (S.files system.old) (O.output out.old) old)
        (world (S.files system.new) (O.output out.new) new) fault) }
    ensures unreported { OnErr result (E.output err.new ≡ E.output err.old) }
    ensures failed { ReportsPaths file_paths result (S.files system.old) (S.files system.new) }
{
    check_reports(system, words, &loaded.listings)?;
    let run = run_streams(system, words, &loaded.session, out, err)?;
    finish(system, words, &loaded.listings, &run, err)
}

// Checks that no two folders are the same of which one is written.
fn check_folders<'a, S: FileSystem>(system: &mut S, words: &Words<'_>) -> Result<(), Fault<'a>>
    ensures fault { IfErr result (IsEarly words.now) }
    ensures unchanged { KeepsFiles file_paths result (S.files system.old) (S.files system.new) }
{
    match same_folders(system, words)? {
        Some(clash) => Err(clash_fault(system.alloc(), Tool::Cpmrun, clash)),
        None => Ok(()),
    }
}

// Locks the disks.
fn lock<'a, S: FileSystem, E: Writer>(
    system: &mut S,
    words: &Words<'_>,
    err: &mut E,
) -> Result<Vec<S::Lock>, Fault<'a>>
    ensures fault { IfErr result (IsEarly words.now) }
    ensures unchanged { KeepsFiles file_paths result (S.files system.old) (S.files system.new) }
    ensures err { E.output err.new ≡ E.output err.old }
{
    Ok(lock_disks(system, words, err)?)
}

// Returns the folders that are written: those for changed files, and the disks.
fn written_folders<'a>(words: &Words<'a>) -> [Option<&'a str>; 8]
    ensures { result ≡ written_folders words.now }
{
    [
        words.out[0],
        words.out[1],
        words.out[2],
        words.out[3],
        words.disk[0],
        words.disk[1],
        words.disk[2],
        words.disk[3],
    ]
}

// Checks whether a rule for make can have the paths of the words, if one is to be written.
fn check_rule<'a>(alloc: Global, words: &Words<'a>) -> Result<(), Fault<'a>>
    ensures allowed { OnOk result (AllowsRule words.now) }
    ensures refused { IfErr result (run_ends.RefusesRule words.now) }
{
    let Some(path) = words.deps else {
        return Ok(());
    };
    let path = words.target.unwrap_or(path);
    let written = written_folders(words);
    check_paths(alloc, &words.session(), path, written.as_slice())
}

/// Runs the session of the words once. Its console text is written to `out` while it runs. Then its files are changed as a whole: on the
/// disks only if it stopped by the warm start, or if the words ask for it whatever the stop. Then `err` gets the lines about its stop. The
/// disks are locked until then, but only once the script is read, which another run may write. Returns the exit status.
///
/// # Errors
///
/// Returns `Err` if a rule cannot have a path of the words, if two folders are the same, if the session is not loaded, or if the console
/// text or a file is not written; nothing is then written to `err`.
pub fn run_words<'a, S: FileSystem, O: Writer, E: Writer>(
    system: &mut S,
    words: &Words<'a>,
    out: &mut O,
    err: &mut E,
) -> Result<u8, Fault<'a>>
    ensures done { IfOk result (λ status. Does (run_ends.run_once words.now) status
        (world (S.files system.old) (O.output out.old) (E.output err.old))
        (world (S.files system.new) (O.output out.new) (E.output err.new))) }
    ensures fault { IfErr result (λ fault. (old new : Output) → Fails (run_ends.run_once words.now)
        (world (S.files system.old) (O.output out.old) old)
        (world (S.files system.new) (O.output out.new) new) fault) }
    ensures unreported { OnErr result (E.output err.new ≡ E.output err.old) }
    ensures failed { ReportsPaths file_paths result (S.files system.old) (S.files system.new) }
{
    check_rule(system.alloc(), words)?;
    check_folders(system, words)?;
    let inputs = read_inputs(system, &words.session())?;
    let _locks = lock(system, words, err)?;
    let loaded = load_with(system, &words.session(), inputs)?;
    run_loaded(system, words, &loaded, out, err)
}
