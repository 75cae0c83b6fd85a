// Questions about a session and its run, which is made again: it must execute no step.

use crate::telling::write_bytes;
use crate::trouble::Trouble;
use crate::words::{address, name, number};
use dependencies::{Dependencies, Joining};
use dependency_lines::write_dependencies;
use edit_lines::Over;
use machine::{Meter, Name, Session};
use replay::{Report, Runner};
use std::alloc::{AllocError, Global};
use std::io;

// Returns the bytes of a number of cells.
fn cells_of(
    alloc: Global,
    report: &Report<'_>,
    from: u16,
    count: u64,
) -> Result<Vec<u8>, AllocError> {
    let mut cells = Vec::new(alloc);
    let mut at = from;
    for _ in 0..count {
        cells.push(report.cell(at))?;
        at = at.wrapping_add(1);
    }
    Ok(cells)
}

// Prints the bytes of a number of cells.
fn tell_cells(
    rt: &impl Print,
    alloc: Global,
    report: &Report<'_>,
    from: u16,
    count: u64,
) -> Result<(), Trouble> {
    let cells = cells_of(alloc, report, from, count)?;
    write_bytes(rt, "cells", cells.as_slice())
}

// Prints the number of records of a file, and its last one.
fn tell_file(rt: &impl Print, report: &Report<'_>, name: &Name) -> Result<(), Trouble> {
    println!(rt; "there {} {:?}", report.has(name), report.records(name))?;
    let count = report.records(name).unwrap_or(0);
    match report.record(name, count.saturating_sub(1)) {
        Some(record) => write_bytes(rt, "last", &record),
        None => Ok(()),
    }
}

// Prints each changed name, the number of its records, and the last one.
fn tell_changed(rt: &impl Print, report: &Report<'_>) -> Result<(), Trouble> {
    let mut after: Option<Name> = None;
    for _ in 0..1024 {
        after = report.next_changed(after.as_ref());
        let Some(name) = after else {
            return Ok(());
        };
        println!(rt; "changed {name}")?;
        tell_file(rt, report, &name)?;
    }
    Ok(())
}

// Prints program, tail, script and limit.
fn tell_session(rt: &impl Print, session: &Session) -> Result<(), Trouble> {
    write_bytes(rt, "program", session.program())?;
    write_bytes(rt, "tail", session.tail())?;
    write_bytes(rt, "script", session.script())?;
    println!(rt; "limit {}", session.limit())?;
    Ok(())
}

// Prints what the run of a session depends on.
fn tell_dependencies(
    rt: &impl Print,
    alloc: Global,
    session: &Session,
    rows: Joining,
) -> Result<(), Trouble> {
    let dependencies = Dependencies::of_run(alloc, session)?;
    let mut writer = Over::new(io::writer(rt));
    match write_dependencies(&mut writer, rows, session, &dependencies) {
        Ok(()) => Ok(()),
        Err(_) => Err(Trouble::Device),
    }
}

// Answers a question about the report of a run that executed this many steps.
fn tell_report(
    rt: &impl Print,
    alloc: Global,
    report: &Report<'_>,
    executed: u64,
    words: &[&str],
) -> Result<(), Trouble> {
    if executed != 0 {
        println!(rt; "executed {executed}")?;
    }
    match words {
        [what] if *what == "changed" => tell_changed(rt, report),
        [what, word] if *what == "file" => {
            let name = name(word)?;
            tell_file(rt, report, &name)
        }
        [what, from, count] if *what == "cells" => {
            tell_cells(rt, alloc, report, address(from)?, number(count)?)
        }
        _ => Err(Trouble::Words),
    }
}

// Answers a question about the run.
fn tell_run(
    rt: &impl Print,
    alloc: Global,
    runner: &mut Runner,
    words: &[&str],
) -> Result<(), Trouble> {
    let mut meter = Meter::new();
    let report = runner.rerun(&mut meter)?;
    tell_report(rt, alloc, &report, meter.count(), words)
}

/// Answers a question: `session`, `dependencies`, `dependencies by-step`, `changed`, `file NAME` or `cells FROM COUNT`.
pub fn ask(
    rt: &impl Print,
    alloc: Global,
    runner: &mut Runner,
    words: &[&str],
) -> Result<(), Trouble> {
    match words {
        [what] if *what == "session" => tell_session(rt, runner.session()),
        [what] if *what == "dependencies" => {
            tell_dependencies(rt, alloc, runner.session(), Joining::Joined)
        }
        [what, _] if *what == "dependencies" => {
            tell_dependencies(rt, alloc, runner.session(), Joining::ByStep)
        }
        _ => tell_run(rt, alloc, runner, words),
    }
}
