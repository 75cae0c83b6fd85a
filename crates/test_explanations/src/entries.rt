// Calls of the system that are not here, or that stop.

use crate::explaining::{Disk, all_explain, explains};
use std::alloc::Global;
use std::test::Fail;
use test_sessions::{Given, given, program};

// The entries of the BIOS in order, at FF00H and every three bytes, except the warm start at FF03H.
const ENTRIES: [(u8, &str); 16] = [
    (
        0x00,
        "called from 0101: cold start of the BIOS, which is not here\n",
    ),
    (
        0x06,
        "called from 0101: console status of the BIOS, which is not here\n",
    ),
    (
        0x09,
        "called from 0101: console input of the BIOS, which is not here\n",
    ),
    (
        0x0c,
        "called from 0101: console output of the BIOS, which is not here\n",
    ),
    (
        0x0f,
        "called from 0101: list output of the BIOS, which is not here\n",
    ),
    (
        0x12,
        "called from 0101: punch output of the BIOS, which is not here\n",
    ),
    (
        0x15,
        "called from 0101: reader input of the BIOS, which is not here\n",
    ),
    (
        0x18,
        "called from 0101: move to track 0 of the BIOS, which is not here\n",
    ),
    (
        0x1b,
        "called from 0101: select disk of the BIOS, which is not here\n",
    ),
    (
        0x1e,
        "called from 0101: set track of the BIOS, which is not here\n",
    ),
    (
        0x21,
        "called from 0101: set sector of the BIOS, which is not here\n",
    ),
    (
        0x24,
        "called from 0101: set DMA address of the BIOS, which is not here\n",
    ),
    (
        0x27,
        "called from 0101: read sector of the BIOS, which is not here\n",
    ),
    (
        0x2a,
        "called from 0101: write sector of the BIOS, which is not here\n",
    ),
    (
        0x2d,
        "called from 0101: list status of the BIOS, which is not here\n",
    ),
    (
        0x30,
        "called from 0101: sector translation of the BIOS, which is not here\n",
    ),
];

#[test]
fn each_entry_of_the_bios_has_its_name(rt: HostRuntime) -> Result<(), Fail> {
    for (low, wanted) in ENTRIES {
        let given = given!(program: &[0x00, 0xcd, low, 0xff]);
        explains(rt.alloc(), &given, Disk::Absent, wanted)?;
    }
    all_explain(
        rt.alloc(),
        &[
            (&program![CALL 0xff03;], ""),
            (
                &program![CALL 0xff01;],
                "called from 0100: no entry of the BIOS\n",
            ),
            (
                &program![CALL 0xff33;],
                "called from 0100: no entry of the BIOS\n",
            ),
            (
                &program![CALL 0xfe00;],
                "called from 0100: no entry of the BIOS\n",
            ),
        ],
    )
}

// What a CALL on a condition, a jump after a PUSH, and a jump to an address that was computed leave on the stack.
#[test]
fn a_jump_has_the_address_of_its_return(rt: HostRuntime) -> Result<(), Fail> {
    all_explain(
        rt.alloc(),
        &[
            (
                &program![SUB A; DB 0xcc,0x09,0xff;],
                "called from 0101: console input of the BIOS, which is not here\n",
            ),
            (
                &program![LXI H,0x0200; PUSH H; JMP 0xff0c;],
                "called to return to 0200: console output of the BIOS, which is not here\n",
            ),
            (
                &program![CALL 0x0104; HLT; LXI H,0xff0c; PCHL;],
                "called to return to 0103: console output of the BIOS, which is not here\n",
            ),
            (
                &program![MVI C,27; JMP 5;],
                "call 27 to return to 0000: address of the allocation vector\n",
            ),
            (
                &program![MVI C,27; CALL 0xfe06;],
                "call 27 from 0102: address of the allocation vector\n",
            ),
        ],
    )
}

// The calls of the guide that are not here, and numbers that it does not have.
const CALLS: [(u8, &str); 14] = [
    (3, "call 3 from 0102: reader input\n"),
    (4, "call 4 from 0102: punch output\n"),
    (5, "call 5 from 0102: list output\n"),
    (27, "call 27 from 0102: address of the allocation vector\n"),
    (28, "call 28 from 0102: write protect disk\n"),
    (29, "call 29 from 0102: get read/only vector\n"),
    (30, "call 30 from 0102: set file attributes\n"),
    (31, "call 31 from 0102: address of the disk parameters\n"),
    (32, "call 32 from 0102: set/get user code\n"),
    (37, "call 37 from 0102: reset drive\n"),
    (38, "call 38 from 0102: no call of CP/M 2.2\n"),
    (39, "call 39 from 0102: no call of CP/M 2.2\n"),
    (41, "call 41 from 0102: no call of CP/M 2.2\n"),
    (255, "call 255 from 0102: no call of CP/M 2.2\n"),
];

#[test]
fn each_call_that_is_not_here_has_its_name(rt: HostRuntime) -> Result<(), Fail> {
    for (number, wanted) in CALLS {
        let given = given!(program: &program![MVI C,number; CALL 5;]);
        explains(rt.alloc(), &given, Disk::Absent, wanted)?;
    }
    Ok(())
}

// It selects the drive whose number is in E.
fn selects(alloc: Global, number: u8, wanted: &str) -> Result<(), Fail> {
    let given = given!(program: &program![MVI E,number; MVI C,14; CALL 5;]);
    explains(alloc, &given, Disk::Absent, wanted)
}

// It makes a call with a control block that begins with this byte.
fn names_drive(alloc: Global, call: u8, byte: u8, wanted: &str) -> Result<(), Fail> {
    let program = &program![MVI A,byte; STA 0x0200; LXI D,0x0200; MVI C,call; CALL 5;];
    explains(alloc, &given!(program: program), Disk::Absent, wanted)
}

#[test]
fn each_drive_has_its_letter(rt: HostRuntime) -> Result<(), Fail> {
    selects(rt.alloc(), 4, "call 14 from 0104: drive E\n")?;
    selects(rt.alloc(), 15, "call 14 from 0104: drive P\n")?;
    selects(rt.alloc(), 16, "call 14 from 0104: no drive\n")?;
    selects(rt.alloc(), 255, "call 14 from 0104: no drive\n")?;
    names_drive(rt.alloc(), 15, 5, "call 15 from 010A: drive E\n")?;
    names_drive(rt.alloc(), 19, 16, "call 19 from 010A: drive P\n")?;
    names_drive(rt.alloc(), 22, 17, "call 22 from 010A: no drive\n")?;
    names_drive(rt.alloc(), 17, b'?', "call 17 from 010A: no drive\n")
}

const NO_DOLLAR: Given<'_> = given!(program: &program![MVI C,9; LXI D,0x0300; CALL 5;]);

const ONE_KEY: Given<'_> = given!(program: &program![MVI C,1; CALL 5;]);

const ONE_LINE: Given<'_> =
    given!(program: &program![MVI A,9; STA 0x0200; LXI D,0x0200; MVI C,10; CALL 5;], script: b"no");

#[test]
fn a_call_that_lacks_something_says_what(rt: HostRuntime) -> Result<(), Fail> {
    let alloc = rt.alloc();
    explains(
        alloc,
        &NO_DOLLAR,
        Disk::Absent,
        "call 9 from 0105: no $ from 0300 on\n",
    )?;
    explains(
        alloc,
        &ONE_KEY,
        Disk::Absent,
        "call 1 from 0102: the program waits for a key, and the console input has no more; give it by --typed or --console\n",
    )?;
    explains(
        alloc,
        &ONE_LINE,
        Disk::Kept,
        "call 10 from 010A: the program waits for a key, and the console input has no more; give it by --typed or --console \
(--partial changes the disk all the same)\n",
    )
}
