// Indexes in a row that were asked for.

use dependencies::{Dependencies, Joining, next_row};
use std::alloc::Global;
use std::test::Fail;
use test_sessions::{Difference, Given, Trouble, given, name_failure, program, session_of};

// It jumps over a cell, and reads two cells far off.
const JUMPS: Given<'_> = given!(program: &program![JMP 0x0104; NOP; LHLD 0x0200; HLT;]);

// A row of cells: its first one, the one behind its last, and the first step that asked for one of them.
type Row = (usize, usize, u64);

const JOINED: &[Row] = &[
    (0x0100, 0x0103, 0),
    (0x0104, 0x0108, 1),
    (0x0200, 0x0202, 1),
];

const BY_STEP: &[Row] = &[
    (0x0100, 0x0103, 0),
    (0x0104, 0x0107, 1),
    (0x0107, 0x0108, 2),
    (0x0200, 0x0202, 1),
];

fn rows_are_found(alloc: Global, joining: Joining, wanted: &[Row]) -> Result<(), Trouble> {
    let session = session_of(alloc, &JUMPS)?;
    let dependencies = Dependencies::of_run(alloc, &session)?;
    let cells = dependencies.looks.cells();
    let mut from = 0;
    for (index, (first, end, step)) in wanted.iter().enumerate() {
        let Some(row) = next_row(cells, joining, from) else {
            return Err(Trouble::Differs(index + 1, Difference::Left));
        };
        if row.first != *first || row.end != *end || row.step != *step {
            return Err(Trouble::Differs(index + 1, Difference::Answer));
        }
        from = row.end;
    }
    match next_row(cells, joining, from) {
        None => Ok(()),
        Some(_) => Err(Trouble::Differs(wanted.len() + 1, Difference::Left)),
    }
}

#[test]
fn neighbours_are_one_range(rt: HostRuntime) -> Result<(), Fail> {
    let found = rows_are_found(rt.alloc(), Joining::Joined, JOINED);
    name_failure("neighbours", found)
}

#[test]
fn neighbours_of_one_step_are_one_range(rt: HostRuntime) -> Result<(), Fail> {
    let found = rows_are_found(rt.alloc(), Joining::ByStep, BY_STEP);
    name_failure("neighbours of one step", found)
}
