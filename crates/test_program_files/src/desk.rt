// The desk: what it prints, and what a call that stops leaves of it.

use console_calls::Cause::{BadDrive, NoDollar, Unsupported, WarmBoot};
use console_calls::Desk;
use filenames::Drive;
use std::alloc::AllocError;
use std::process::Abort;
use std::test::Fail;
use test_files::Act::{Are, Call, Printed, Put, Selected, Stack, Stops};
use test_files::Acts::Plain;
use test_files::{Case, play};

#[test]
fn a_tab_fills_eight_columns(rt: HostRuntime) -> Result<(), Fail> {
    let mut desk = Desk::new(rt.alloc());
    tabs_are_printed(&rt, &mut desk)
}

// The text printed before a copy was made is in both.
fn tabs_are_printed(rt: &impl Abort, desk: &mut Desk) -> Result<(), Fail> {
    print_all(desk, b"a\tb")?;
    assert!(rt; desk.text() == b"a       b".as_slice());
    let copy = desk.snapshot()?;
    print_all(desk, b"c")?;
    are_printed(rt, desk, &copy);
    Ok(())
}

fn print_all(desk: &mut Desk, bytes: &[u8]) -> Result<(), AllocError> {
    for byte in bytes {
        desk.print(*byte)?;
    }
    Ok(())
}

fn are_printed(rt: &impl Abort, desk: &Desk, copy: &Desk) {
    assert!(rt; copy.text() == b"a       b".as_slice());
    assert!(rt; desk.text() == b"a       bc".as_slice());
}

// Control blocks, and the address of records.
const BLOCK: u16 = 0x005c;

const OTHER: u16 = 0x0200;

const BUFFER: u16 = 0x0300;

// Call 13 resets the disks, 14 selects one and 25 returns it, and 26 sets the buffer; calls 17 and 18 search, and 16 closes a file.
const CASES: &[Case<'_>] = &[
    // The return address is in the last cell and the first, and DE is 0278H: the letter x for call 2, a string for call 9.
    Case {
        name: "calls print and return, or stop",
        files: &[],
        acts: Plain(&[
            Stack(0xffff),
            Put(0x0278, b"a\tb$"),
            Call(2, 0x0278, 0),
            Printed(b"x"),
            Call(9, 0x0278, 0),
            Printed(b"xa      b"),
            Put(0x027b, b"\0"),
            Stops(9, 0x0278, NoDollar),
            Printed(b"xa      b"),
            Put(0x027b, b"$"),
            Stops(0, 0x0278, WarmBoot),
            Printed(b"xa      b"),
            Stops(200, 0x0278, Unsupported(200)),
            Printed(b"xa      b"),
        ]),
    },
    // A call that stops leaves the current drive, the buffer address and the search unchanged.
    Case {
        name: "a call that stops leaves the desk",
        files: &[("ann", 1), ("b:ben", 1), ("b:cat", 129)],
        acts: Plain(&[
            Call(14, 1, 0),
            Put(OTHER, b"\0???????????"),
            Call(17, OTHER, 0),
            Stops(14, 0x1104, BadDrive(4)),
            Put(BLOCK, b"\xffANN        "),
            Stops(17, BLOCK, BadDrive(0xff)),
            Call(18, BLOCK, 0),
            Are(BUFFER, b"\0CAT        \0\0\0\x02"),
            Put(BLOCK, b"\0BEN        "),
            Call(16, BLOCK, 0),
        ]),
    },
    Case {
        name: "drives and a buffer address are selected and reset",
        files: &[],
        acts: Plain(&[
            Stack(0xffff),
            Call(26, 0x0080, 0),
            Call(25, 0x0200, 0),
            Selected(Drive::A, 0x0080),
            Call(14, 0x0203, 0),
            Selected(Drive::D, 0x0080),
            Call(25, 0x0200, 3),
            Selected(Drive::D, 0x0080),
            Stops(14, 0x0204, BadDrive(4)),
            Selected(Drive::D, 0x0080),
            Call(24, 0x0200, 0x0f),
            Selected(Drive::D, 0x0080),
            Call(26, 0x0278, 0),
            Selected(Drive::D, 0x0278),
            Call(14, 0x0201, 0),
            Selected(Drive::B, 0x0278),
            Call(13, 0x0200, 0),
            Selected(Drive::A, 0x0080),
            Call(25, 0x0200, 0),
            Selected(Drive::A, 0x0080),
        ]),
    },
];

#[test]
fn calls_over_a_desk(rt: HostRuntime) -> Result<(), Fail> {
    play(rt.alloc(), CASES)
}
