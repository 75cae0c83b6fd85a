// What runs ask of their sessions.

use crate::asked::Asked::{Cell, Directory, Has, Length, Record, Script};
use crate::asked::{Case, all_ask};
use machine::Cause;
use std::test::Fail;
use test_sessions::{Given, given, program};

// It writes a cell, reads it and the next one, and halts.
const WRITES: Given<'_> =
    given!(program: &program![MVI A,1; STA 0x0200; LDA 0x0200; LDA 0x0201; HLT;]);

const CELLS: &[Case<'_>] = &[
    Case {
        name: "a written cell is not asked for, and a stop asks too",
        given: WRITES,
        cause: Cause::Halt,
        steps: 4,
        asked: &[
            (Cell(0x00ff), None),
            (Cell(0x0100), Some(0)),
            (Cell(0x0101), Some(0)),
            (Cell(0x0102), Some(1)),
            (Cell(0x0104), Some(1)),
            (Cell(0x0107), Some(2)),
            (Cell(0x010a), Some(3)),
            (Cell(0x0200), None),
            (Cell(0x0201), Some(3)),
            (Cell(0x010b), Some(4)),
            (Cell(0x010c), None),
        ],
    },
    Case {
        name: "a run that ends at its limit does not ask what it would ask next",
        given: given!(WRITES, limit: 4),
        cause: Cause::Limit,
        steps: 4,
        asked: &[
            (Cell(0x010a), Some(3)),
            (Cell(0x0201), Some(3)),
            (Cell(0x010b), None),
        ],
    },
    Case {
        name: "a run of no steps asks nothing",
        given: given!(WRITES, limit: 0),
        cause: Cause::Limit,
        steps: 0,
        asked: &[(Cell(0x0100), None)],
    },
    Case {
        name: "the first step of each cell, in a loop",
        given: given!(program: &program![MVI B,2; DCR B; JNZ 0x0102; HLT;]),
        cause: Cause::Halt,
        steps: 5,
        asked: &[
            (Cell(0x0102), Some(1)),
            (Cell(0x0103), Some(2)),
            (Cell(0x0105), Some(2)),
            (Cell(0x0106), Some(5)),
        ],
    },
];

#[test]
fn cells_have_the_first_step_that_asks_for_them(rt: HostRuntime) -> Result<(), Fail> {
    all_ask(rt.alloc(), CELLS)
}

const DEVICES: &[Case<'_>] = &[
    Case {
        name: "the end of the script is asked for by the stop",
        given: given!(program: &program![MVI C,1; CALL 5; MVI C,1; CALL 5; RET;], script: b"x"),
        cause: Cause::ConsoleExhausted,
        steps: 7,
        asked: &[
            (Cell(0x0005), Some(2)),
            (Cell(0x0007), Some(2)),
            (Script(0), Some(3)),
            (Script(1), Some(7)),
            (Script(2), None),
        ],
    },
    Case {
        name: "a file that is there has a length, one that is not has none",
        given: given!(
            program: &program![
                MVI C,15; LXI D,0x006c; CALL 5; MVI C,15; LXI D,0x005c; CALL 5; RET;
            ],
            tail: b"note.txt gone.txt",
            hosts: &[("note.txt", b"1"), ("other.txt", b"2")]
        ),
        cause: Cause::WarmBoot,
        steps: 12,
        asked: &[
            (Has("note.txt"), Some(9)),
            (Length("note.txt"), Some(9)),
            (Record("note.txt", 0), None),
            (Has("gone.txt"), Some(4)),
            (Length("gone.txt"), None),
            (Has("other.txt"), None),
            (Has("b:note.txt"), None),
            (Directory(0), None),
            (Cell(0x0000), Some(11)),
            (Cell(0xfdfe), Some(10)),
        ],
    },
    Case {
        name: "a read asks for its record alone, and a renamed file is asked for by its old name",
        given: given!(
            program: &program![
                MVI C,23; LXI D,0x005c; CALL 5; MVI A,0; STA 0x008c;
                MVI C,20; LXI D,0x006c; CALL 5; RET;
            ],
            tail: b"note.txt new.txt",
            hosts: &[("note.txt", b"1")]
        ),
        cause: Cause::WarmBoot,
        steps: 14,
        asked: &[
            (Has("note.txt"), Some(4)),
            (Has("new.txt"), Some(4)),
            (Length("note.txt"), Some(11)),
            (Record("note.txt", 0), Some(11)),
            (Record("note.txt", 1), None),
            (Length("new.txt"), None),
            (Record("new.txt", 0), None),
        ],
    },
    Case {
        name: "a search asks for the directory of its drive, and for no name",
        given: given!(
            program: &program![MVI C,17; LXI D,0x005c; CALL 5; RET;],
            tail: b"*.txt",
            hosts: &[("note.txt", b"1")]
        ),
        cause: Cause::WarmBoot,
        steps: 7,
        asked: &[
            (Directory(0), Some(4)),
            (Directory(1), None),
            (Has("note.txt"), None),
            (Length("note.txt"), None),
        ],
    },
];

#[test]
fn script_and_files_have_the_first_step_that_asks_for_them(rt: HostRuntime) -> Result<(), Fail> {
    all_ask(rt.alloc(), DEVICES)
}
