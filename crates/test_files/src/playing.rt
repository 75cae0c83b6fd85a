// Cases executed act by act.

use crate::acts::Act::{
    Anew, Changed, ChangedAfter, Copy, Delete, EraseFrom, Exchange, Extent, Fill, Find, FindBytes,
    FindFull, FindNext, Has, HostCount, HostKeys, HostRecord, HostRecords, Make, Note, Read,
    Records, Remove, Rename, Same, Set, SetMany, SetNext, StepOf, Take, TellKeys, TellRecord,
    TellRecords, Touch, Write, WriteOther,
};
use crate::acts::Acts::{Asking, Both, Plain};
use crate::acts::{Act, Case, Row};
use crate::calling::{ask, change, search};
use crate::hosting::{serve, set};
use crate::questions::{are_asked, sum_taken};
use crate::stepping::{Steps, step};
use crate::system::{System, execute};
use crate::telling::tell;
use cpmfiles::{Changes, HostFiles, Table};
use std::alloc::{AllocError, Global};
use std::mem;
use std::test::Fail;

// Host files, what was done, and a copy of it; first steps, and the next host files; memory and the desk.
#[derive(Drop)]
struct Scene {
    host: HostFiles,
    changes: Changes,
    copy: Changes,
    steps: Steps,
    next: HostFiles,
    system: System,
}

/// Executes the acts and rows of each case. `Err` names the case and the first act or row with another result, counted from 1.
pub fn play(alloc: Global, cases: &[Case<'_>]) -> Result<(), Fail> {
    for case in cases {
        play_case(alloc, case)?;
    }
    Ok(())
}

// Owns the parts that the other functions borrow.
fn play_case(alloc: Global, case: &Case<'_>) -> Result<(), Fail> {
    let system = System::new(alloc)?;
    let mut scene = Scene {
        host: HostFiles::new(alloc),
        changes: Changes::new(alloc),
        copy: Changes::new(alloc),
        steps: Steps::new(alloc),
        next: HostFiles::new(alloc),
        system,
    };
    play_in(alloc, &mut scene, case)
}

fn play_in(alloc: Global, scene: &mut Scene, case: &Case<'_>) -> Result<(), Fail> {
    for (text, length) in case.files {
        set(&mut scene.host, alloc, text, &[(b'x', *length)])??;
    }
    match case.acts {
        Plain(acts) => play_acts(alloc, scene, case.name, acts),
        Asking(rows) => play_rows(alloc, scene, case.name, rows),
        Both(acts, rows) => {
            play_acts(alloc, scene, case.name, acts)?;
            play_rows(alloc, scene, case.name, rows)
        }
    }
}

fn play_acts(alloc: Global, scene: &mut Scene, name: &str, acts: &[Act<'_>]) -> Result<(), Fail> {
    let mut number: u32 = 0;
    for act in acts {
        number = number.wrapping_add(1);
        if !answers(scene, alloc, *act)? {
            return Err(Fail::new(format_args!("{name}: act {number}")));
        }
    }
    Ok(())
}

fn play_rows(alloc: Global, scene: &mut Scene, name: &str, rows: &[Row<'_>]) -> Result<(), Fail> {
    let mut number: u32 = 0;
    for (act, asks) in rows {
        number = number.wrapping_add(1);
        if !answers(scene, alloc, *act)? || !are_asked(&scene.changes, asks)? {
            return Err(Fail::new(format_args!("{name}: row {number}")));
        }
    }
    Ok(())
}

// Returns whether the result of an act is as expected.
fn answers(scene: &mut Scene, alloc: Global, act: Act<'_>) -> Result<bool, Fail> {
    let Scene {
        host,
        changes,
        copy,
        steps,
        next,
        system,
    } = scene;
    match act {
        Anew => {
            *changes = Changes::new(alloc);
            *steps = Steps::new(alloc);
            Ok(true)
        }
        Copy | Exchange | Take(_, _) => Ok(turn(changes, copy, act)?),
        TellRecords(_, _)
        | TellRecord(_, _, _)
        | TellKeys(_)
        | Changed(_)
        | ChangedAfter(_, _)
        | Same(_) => { tell(host, changes, act) }
        Note(_, _) | EraseFrom(_) | StepOf(_, _) | Touch(_, _, _) => {
            Ok(step(steps, host, next, act)?)
        }
        SetNext(text, bytes) => Ok(set(next, alloc, text, bytes)?.is_ok()),
        Set(_, _, _)
        | SetMany(_)
        | Remove(_, _)
        | HostCount(_)
        | HostRecords(_, _)
        | HostRecord(_, _, _)
        | HostKeys(_) => serve(host, alloc, changes, act),
        _ => Ok(call(system, &mut Table::new(host, changes), act)?),
    }
}

// Returns whether the result of a call is as expected: of a call of a table, or of the system.
fn call(system: &mut System, table: &mut Table<'_>, act: Act<'_>) -> Result<bool, AllocError> {
    match act {
        Has(_, _) | Records(_, _) | Extent(_, _, _) | Read(_, _, _) => ask(table, act),
        Find(_, _, _) | FindBytes(_, _, _) | FindFull(_, _) | FindNext(_, _) => search(table, act),
        Write(_, _, _, _)
        | WriteOther(_, _, _)
        | Fill(_, _, _, _)
        | Make(_, _)
        | Delete(_, _)
        | Rename(_, _, _) => { change(table, act) }
        _ => execute(system, table, act),
    }
}

fn turn(changes: &mut Changes, copy: &mut Changes, act: Act<'_>) -> Result<bool, AllocError> {
    match act {
        Copy => *copy = changes.snapshot()?,
        Exchange => mem::swap(changes, copy),
        Take(count, sum) => return Ok(sum_taken(changes, count) == sum),
        _ => return Ok(false),
    }
    Ok(true)
}
