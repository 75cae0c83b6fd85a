// The rule for make.

ghost use Rattle.std.specs.Prelude.{◌≡◌, ◌++◌, IfOk, OnOk, filter, map, string_bytes, true, false};
ghost use Rattle.std.specs.List.{flat_map, list_all};
ghost use Rattle.dependencies.specs.Dependencies.{AreDependencies};
ghost use Rattle.dependencies.specs.Rows.{rows_from};
ghost use Rattle.make_rules.specs.Carried.{is_carried};
ghost use Rattle.make_rules.specs.Rule as rule;
ghost use Rattle.report_lines.specs.FirstLines.{line};
ghost use Rattle.make_rules.specs.Files.{is_other};
ghost use Rattle.make_rules.specs.RunRules.{IsRule};
ghost use Rattle.make_rules.specs.Paths.{collected};
ghost use Rattle.make_rules.specs.RefusedPaths.{refuses_words};

use crate::escapes::{push_arguments, push_make_path, push_prerequisites};
use crate::files::{push_files, push_folders};
use crate::missing::{Paths, is_target, push_absent_files};
use command_words::SessionWords;
use dependencies::{Joining, StepTable, next_row};
use folders::{DriveFolder, Listing};
use machine::{Cause, PROGRAM_START, WholeRun};
use report_lines::stop_line;
use std::alloc::{AllocError, Global};

// Adds a path, if a place of its file from `from` on was asked for.
fn push_if_asked<T: StepTable>(
    alloc: Global,
    paths: &mut Vec<String>,
    table: &T,
    from: usize,
    path: Option<&str>,
) -> Result<(), AllocError>
    ensures { OnOk result (map string_bytes paths.new.items ≡ map string_bytes paths.old.items
        ++ rule.path_if_asked (rows_from Joining.Joined (T.steps table.now) from) path.entry) }
{
    if let (Some(_), Some(path)) = (next_row(table, Joining::Joined, from), path) {
        paths.push(String::from_str(alloc, path)?)?;
    }
    Ok(())
}

// Removes the paths that make takes for one of the targets.
fn remove_targets(paths: &mut Vec<String>, targets: &[String])
    ensures { map string_bytes paths.new.items
        ≡ filter (is_other (map string_bytes targets.now)) (map string_bytes paths.old.items) }
{
    paths.retain(|path| !is_target(path.as_bytes(), targets));
}

// Returns the paths on which the targets depend.
fn paths_of(
    alloc: Global,
    targets: &[String],
    words: &SessionWords<'_>,
    drives: &[Option<DriveFolder<'_>>; 4],
    run: &WholeRun<'_>,
) -> Result<Paths, AllocError>
    ensures { IfOk result (λ paths. collected paths ≡ rule.needs_of (map string_bytes targets.now)
        words.now drives.now run.now.session.now run.now.looks) }
{
    let (host, looks) = (run.session.files(), &run.looks);
    let asked = looks.files();
    let mut paths = Paths {
        program: Vec::new(alloc),
        others: Vec::new(alloc),
        missing: Vec::new(alloc),
        comments: Vec::new(alloc),
    };
    let (cells, program) = (looks.cells(), Some(words.program));
    push_if_asked(alloc, &mut paths.program, cells, PROGRAM_START, program)?;
    remove_targets(&mut paths.program, targets);
    push_if_asked(alloc, &mut paths.others, looks.offsets(), 0, words.console)?;
    push_files(alloc, &mut paths.others, asked, drives.as_slice())?;
    push_folders(alloc, &mut paths.others, asked, drives.as_slice())?;
    push_absent_files(alloc, &mut paths, targets, host, asked, drives)?;
    remove_targets(&mut paths.others, targets);
    Ok(paths)
}

// Appends a call that make replaces by those of the paths that exist.
fn push_call(text: &mut Vec<u8>, paths: &[String]) -> Result<(), AllocError>
    ensures { OnOk result (text.new.items ≡ text.old.items ++ rule.call (map string_bytes paths.now)) }
{
    if paths.is_empty() {
        return Ok(());
    }
    text.extend_from_slice(b" $(wildcard")?;
    push_arguments(text, paths)?;
    Ok(text.push(b')')?)
}

// Appends targets, with a blank between two of them.
fn push_targets(text: &mut Vec<u8>, targets: &[String]) -> Result<(), AllocError>
    ensures { OnOk result (text.new.items
        ≡ text.old.items ++ rule.targets_text (map string_bytes targets.now)) }
{
    let Some(first) = targets.first() else {
        return Ok(());
    };
    push_make_path(text, first.as_bytes())?;
    push_prerequisites(text, &targets[1..])
}

// Appends the targets with the paths on which they depend.
fn push_line(text: &mut Vec<u8>, targets: &[String], paths: &Paths) -> Result<(), AllocError>
    ensures { let n = collected paths.now in OnOk result (text.new.items ≡ text.old.items
        ++ line (rule.rule_line (map string_bytes targets.now) (n.program ++ n.others) n.missing)) }
{
    push_targets(text, targets)?;
    text.push(b':')?;
    push_prerequisites(text, paths.program.as_slice())?;
    push_prerequisites(text, paths.others.as_slice())?;
    push_call(text, paths.missing.as_slice())?;
    Ok(text.push(b'\n')?)
}

// Appends paths as targets that depend on nothing.
fn push_empty_rules(text: &mut Vec<u8>, paths: &[String]) -> Result<(), AllocError>
    ensures { OnOk result (text.new.items
        ≡ text.old.items ++ flat_map rule.empty_rule (map string_bytes paths.now)) }
{
    for path in paths {
        push_make_path(text, path.as_bytes())?;
        text.extend_from_slice(b":\n")?;
    }
    Ok(())
}

// Appends a comment about a stop other than WarmBoot.
fn push_stop_comment(text: &mut Vec<u8>, cause: Cause) -> Result<(), AllocError>
    ensures { OnOk result (text.new.items ≡ text.old.items ++ rule.stop_comment cause) }
{
    if let Cause::WarmBoot = cause {
        return Ok(());
    }
    text.extend_from_slice(b"# ")?;
    Ok(text.extend_from_slice(stop_line(cause).as_bytes())?)
}

/// Returns the rule for make with these targets and the files on which the run of a session depends, by their names in the folders when
/// the session was loaded. After it comes each of these but the program as a target that depends on nothing, so that make goes on without
/// the file; a comment about each file that was asked for and is not there; and a comment about a stop other than WarmBoot. `check_paths`
/// allowed the words, and a rule can have the targets.
///
/// # Errors
///
/// Returns `Err` if an allocation fails.
pub fn rule_of_run(
    alloc: Global,
    targets: &[String],
    words: &SessionWords<'_>,
    listings: &[Option<Listing>; 4],
    run: &WholeRun<'_>,
) -> Result<Vec<u8>, AllocError>
    requires targets { list_all is_carried (map string_bytes targets.now) ≡ true }
    requires words { refuses_words words.now ≡ false }
    requires run { AreDependencies run.now.session.now run.now.looks run.now.steps run.now.cause }
    ensures { IfOk result (λ text.
        IsRule words.now (map string_bytes targets.now) listings.now run.now.session.now text.items) }
{
    let drives = DriveFolder::with_names(&words.files, listings);
    let paths = paths_of(alloc, targets, words, &drives, run)?;
    let mut text = Vec::new(alloc);
    push_line(&mut text, targets, &paths)?;
    push_empty_rules(&mut text, paths.others.as_slice())?;
    text.extend_from_slice(paths.comments.as_slice())?;
    push_stop_comment(&mut text, run.cause)?;
    Ok(text)
}
