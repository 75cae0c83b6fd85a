// The rule for make of a run, and the files of its rule and its trace.

ghost use Rattle.std.specs.Prelude.{◌≡◌, ◌++◌, IfErr, IfOk, OnOk, codes, false, is_some, map, option_map, string_bytes, true};
ghost use Rattle.std.specs.List.{list_all};
ghost use Rattle.dependencies.specs.Dependencies.{AreDependencies};
ghost use Rattle.disks.specs.Given.{IsAnyReadFault};
ghost use Rattle.folders.specs.ChangedBytes.{written_bytes};
ghost use Rattle.folders.specs.Failures.{KeepsFiles, ReportsPaths, io_paths};
ghost use Rattle.folders.specs.Faults.{FailsBy, failure_paths};
ghost use Rattle.folders.specs.FileSystem.{Becomes, IsKindAt};
ghost use Rattle.make_rules.specs.Carried.{is_carried};
ghost use Rattle.plan.specs.Faults.{IsAnyWriteFault};
ghost use Rattle.plan.specs.Wanted.{wanted_of};
ghost use Rattle.faults.specs.Faults.{file_paths};
ghost use Rattle.cpmrun.specs.Reports as reports;

use command_words::Words;
use disks::{Within, is_one_file, leads_to_written, may_be_written, report_taken};
use folders::{
    Failure, Fault as FolderFault, FileSystem, Id, Kind, Listing, Written, write_failure,
};
use machine::WholeRun;
use make_rules::rule_of_run;
use plan::{Before, Deed, Plan};
use requests::{Fault, taken_fault};
use std::alloc::{AllocError, Global};
use std::io;
use streams::write_all;

/// A rule for make, which is written to a file of the words.
#[derive(Drop)]
pub struct Report<'a> {
    /// The path of the file.
    pub path: &'a str,
    /// The text.
    pub text: Vec<u8>,
}

/// Adds the paths of the files that are put in place.
pub fn push_paths(
    alloc: Global,
    paths: &mut Vec<String>,
    deeds: &[Deed<'_, Written<'_>>],
) -> Result<(), AllocError>
    ensures { OnOk result (map string_bytes paths.new.items ≡ map string_bytes paths.old.items
        ++ reports.put_paths (map (wanted_of written_bytes) deeds.now)) }
{
    for deed in deeds {
        if let Deed::Put { path, .. } = deed {
            paths.push(String::from_str(alloc, path.as_str())?)?;
        }
    }
    Ok(())
}

// Returns the targets of a rule that is written to this path: the one of the words, or the files that are put in place, or the path of
// the rule if there are none.
fn targets(
    alloc: Global,
    words: &Words<'_>,
    path: &str,
    written: Vec<String>,
) -> Result<Vec<String>, AllocError>
    ensures { IfOk result (λ paths. map string_bytes paths.items
        ≡ reports.targets_of words.now path.now (map string_bytes written.items)) }
{
    let mut targets = match words.target {
        Some(_) => Vec::new(alloc),
        None => written,
    };
    if targets.is_empty() {
        targets.push(String::from_str(alloc, words.target.unwrap_or(path))?)?;
    }
    Ok(targets)
}

/// Returns the path to which a report is written. `-` means standard output.
pub fn stream_path(path: &str) -> &str
    ensures { result.now ≡ reports.stream_path path.now }
{
    if path == "-" { "/dev/stdout" } else { path }
}

/// Returns the rule for make of a run that puts these files in place, if the words ask for one.
pub fn rule_report<'a>(
    alloc: Global,
    words: &Words<'a>,
    listings: &[Option<Listing>; 4],
    written: Vec<String>,
    run: &WholeRun<'_>,
) -> Result<Option<Report<'a>>, AllocError>
    requires written { is_some words.now.deps ≡ true
        → list_all is_carried (map string_bytes written.items) ≡ true }
    requires words { reports.AllowsRule words.now }
    requires run { is_some words.now.deps ≡ true
        → AreDependencies run.now.session.now run.now.looks run.now.steps run.now.cause }
    ensures { IfOk result (λ rule. reports.IsRuleOf words.now listings.now (map string_bytes written.items)
        run.now.session.now (option_map reports.told rule)) }
{
    let Some(path) = words.deps else {
        return Ok(None);
    };
    let targets = targets(alloc, words, path, written)?;
    let text = rule_of_run(alloc, targets.as_slice(), &words.session(), listings, run)?;
    let path = stream_path(path);
    Ok(Some(Report { path, text }))
}

/// How a report is written.
#[derive(Clone, Copy, Debug)]
pub enum Placing {
    /// As a part of the plan.
    InPlan,
    /// Through what is at its path: a device or a pipe, a link, which leads to this file or to nothing, or a standard stream.
    Through(Option<Id>),
}

// Returns whether no regular file is at a path, but something else, or the path leads to a standard stream.
fn is_elsewhere<S: FileSystem>(system: &mut S, path: &str) -> io::Result<bool>
    ensures elsewhere { IfOk result (λ is. is ≡ true
        → IsKindAt (S.files system.old) path.now Kind.Other) }
    ensures unchanged { KeepsFiles (io_paths path.now) result (S.files system.old) (S.files system.new) }
{
    Ok(system.is_stream(path)? || system.kind(path)? == Kind::Other)
}

/// Plans a report, if what is at its path is a regular file, or nothing, and it leads to no standard stream. Returns how it is to be written.
pub fn plan_report<'p, S: FileSystem>(
    system: &mut S,
    plan: &mut Plan<'p, Written<'p>>,
    report: &'p Option<Report<'_>>,
) -> Result<Placing, Failure>
    ensures planned { IfOk result (λ placing. map (wanted_of written_bytes) plan.new.deeds.items
        ≡ map (wanted_of written_bytes) plan.old.deeds.items
        ++ reports.report_part (reports.is_in_plan placing) (option_map reports.told report.entry.now)) }
    ensures apart { IfOk result (λ placing. reports.is_in_plan placing ≡ false
        → reports.IsElsewhere (option_map reports.told report.entry.now) (S.files system.old)) }
    ensures fault { IfErr result (FailsBy IsAnyWriteFault) }
    ensures unchanged { KeepsFiles failure_paths result (S.files system.old) (S.files system.new) }
{
    let Some(report) = report else {
        return Ok(Placing::Through(None));
    };
    let Ok(path) = String::from_str(system.alloc(), report.path) else {
        return Err(Failure::OutOfMemory);
    };
    match is_elsewhere(system, report.path) {
        Ok(true) => match system.id(report.path) {
            Ok(file) => Ok(Placing::Through(file)),
            Err(error) => Err(write_failure(error, path)),
        },
        Ok(false) => {
            plan.put(
                system,
                path,
                Before::Any,
                Written::Text(report.text.as_slice()),
            )?;
            Ok(Placing::InPlan)
        }
        Err(error) => Err(write_failure(error, path)),
    }
}

/// Writes a report that is not planned into what is at its path, if this is still no regular file and, if it is a link, leads to the same
/// file or to nothing: the run may have made one there. If it leads to standard output or standard error, the report goes there.
pub fn write_report<S: FileSystem>(
    system: &mut S,
    report: &Option<Report<'_>>,
    placing: Placing,
) -> Result<(), Failure>
    ensures bytes { Becomes (S.files system.old).bytes (S.files system.new).bytes (λ stored. stored) }
    ensures fault { IfErr result (FailsBy IsAnyWriteFault) }
    ensures failed { ReportsPaths failure_paths result (S.files system.old) (S.files system.new) }
{
    let (Some(report), Placing::Through(file)) = (report, placing) else {
        return Ok(());
    };
    let Ok(path) = String::from_str(system.alloc(), report.path) else {
        return Err(Failure::OutOfMemory);
    };
    let found = match system.id(report.path) {
        Ok(found) => found,
        Err(error) => return Err(write_failure(error, path)),
    };
    let is_elsewhere = match is_elsewhere(system, report.path) {
        Ok(is_elsewhere) => is_elsewhere,
        Err(error) => return Err(write_failure(error, path)),
    };
    if !is_elsewhere || found != file {
        return Err(Failure::AtFault(FolderFault::Changed(path)));
    }
    match write_into(system, report.path, report.text.as_slice()) {
        Ok(()) => Ok(()),
        Err(error) => Err(write_failure(error, path)),
    }
}

// Writes a text into what is at a path and is no regular file, or to the standard stream to which it leads.
fn write_into<S: FileSystem>(system: &mut S, path: &str, text: &[u8]) -> io::Result<()>
    requires { IsKindAt (S.files system.old) path.now Kind.Other }
    ensures bytes { Becomes (S.files system.old).bytes (S.files system.new).bytes (λ stored. stored) }
    ensures failed { ReportsPaths (io_paths path.now) result (S.files system.old) (S.files system.new) }
{
    let mut output = system.create(path)?;
    let _ = write_all(&mut output, text);
    system.close(path, output)
}

// Returns whether the file at a path is the file of a deed.
fn is_changed<S: FileSystem>(
    system: &mut S,
    deeds: &[Deed<'_, Written<'_>>],
    path: &str,
) -> Result<bool, Failure>
    ensures fault { IfErr result (FailsBy IsAnyReadFault) }
    ensures unchanged { KeepsFiles failure_paths result (S.files system.old) (S.files system.new) }
{
    for deed in deeds {
        if is_one_file(system, deed.path(), path)? {
            return Ok(true);
        }
    }
    Ok(false)
}

// Checks that the file of a report, if there is one, is none that the run reads.
fn check_unread<'a, S: FileSystem>(
    system: &mut S,
    words: &Words<'_>,
    listings: &[Option<Listing>; 4],
    option: &str,
    report: Option<&str>,
) -> Result<(), Fault<'a>>
    ensures fault { IfErr result (reports.IsTakenFault report.entry option.now reports.is_read) }
    ensures unchanged { KeepsFiles file_paths result (S.files system.old) (S.files system.new) }
{
    let Some(path) = report else {
        return Ok(());
    };
    if report_taken(system, words, listings, stream_path(path))? {
        let reason = "the run reads this file";
        return Err(taken_fault(system.alloc(), path, option, reason));
    }
    Ok(())
}

// Checks that the path of the trace, which is written while the run goes on, is none that the run may change.
fn check_trace<'a, S: FileSystem>(system: &mut S, words: &Words<'_>) -> Result<(), Fault<'a>>
    ensures fault { IfErr result
        (reports.IsTakenFault words.now.trace (codes "--trace <FILE>") reports.may_change) }
    ensures unchanged { KeepsFiles file_paths result (S.files system.old) (S.files system.new) }
{
    let Some(path) = words.trace else {
        return Ok(());
    };
    let at = stream_path(path);
    if may_be_written(system, words, Within::Written, at)? || leads_to_written(system, words, at)? {
        let reason = "the run may change a file of this name";
        return Err(taken_fault(system.alloc(), path, "--trace <FILE>", reason));
    }
    Ok(())
}

// Checks that the path of the rule is none of a file of a disk, which the next run would read.
fn check_rule_path<'a, S: FileSystem>(system: &mut S, words: &Words<'_>) -> Result<(), Fault<'a>>
    ensures fault { IfErr result
        (reports.IsTakenFault words.now.deps (codes "--deps <FILE>") reports.is_on_disk) }
    ensures unchanged { KeepsFiles file_paths result (S.files system.old) (S.files system.new) }
{
    let Some(path) = words.deps else {
        return Ok(());
    };
    if may_be_written(system, words, Within::Disks, stream_path(path))? {
        let reason = "it would be a file of a disk";
        return Err(taken_fault(system.alloc(), path, "--deps <FILE>", reason));
    }
    Ok(())
}

/// Checks that the files of the reports are different, and none that the run reads. The one of a rule is none of a disk, and the one of a trace
/// none that the run may change.
pub fn check_reports<'a, S: FileSystem>(
    system: &mut S,
    words: &Words<'_>,
    listings: &[Option<Listing>; 4],
) -> Result<(), Fault<'a>>
    ensures fault { IfErr result (reports.IsEarly words.now) }
    ensures unchanged { KeepsFiles file_paths result (S.files system.old) (S.files system.new) }
{
    check_unread(system, words, listings, "--deps <FILE>", words.deps)?;
    check_unread(system, words, listings, "--trace <FILE>", words.trace)?;
    check_rule_path(system, words)?;
    check_trace(system, words)?;
    let (Some(deps), Some(trace)) = (words.deps, words.trace) else {
        return Ok(());
    };
    if is_one_file(system, stream_path(deps), stream_path(trace))? {
        let reason = "it is the file of '--trace <FILE>'";
        return Err(taken_fault(system.alloc(), deps, "--deps <FILE>", reason));
    }
    Ok(())
}

// Checks that the file of a report, if there is one, is none that the run changes.
fn check_unchanged<'a, S: FileSystem>(
    system: &mut S,
    deeds: &[Deed<'_, Written<'_>>],
    option: &str,
    report: Option<&str>,
) -> Result<(), Fault<'a>>
    ensures fault { IfErr result (reports.IsTakenFault report.entry option.now reports.is_changed) }
    ensures unchanged { KeepsFiles file_paths result (S.files system.old) (S.files system.new) }
{
    let Some(path) = report else {
        return Ok(());
    };
    if is_changed(system, deeds, stream_path(path))? {
        let reason = "the run changes this file";
        return Err(taken_fault(system.alloc(), path, option, reason));
    }
    Ok(())
}

/// Checks that the files of the reports are none that the run changes.
pub fn check_changes<'a, S: FileSystem>(
    system: &mut S,
    words: &Words<'_>,
    deeds: &[Deed<'_, Written<'_>>],
) -> Result<(), Fault<'a>>
    ensures fault { IfErr result (reports.IsEarly words.now) }
    ensures unchanged { KeepsFiles file_paths result (S.files system.old) (S.files system.new) }
{
    check_unchanged(system, deeds, "--deps <FILE>", words.deps)?;
    check_unchanged(system, deeds, "--trace <FILE>", words.trace)
}
