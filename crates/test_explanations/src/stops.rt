// Stops by themselves, and by calls that are here.

use crate::explaining::{Disk, all_explain, explains};
use std::test::Fail;
use test_sessions::{Given, given, program};

// A loop without an end.
const LOOP: Given<'_> = given!(program: &program![NOP; JMP 0x0100;]);

const LIMITS: [(u64, &str); 4] = [
    (0, "after 0 steps, at 0100; --limit 10 lets it run on\n"),
    (1, "after 1 steps, at 0101; --limit 10 lets it run on\n"),
    (
        999,
        "after 999 steps, at 0101; --limit 9990 lets it run on\n",
    ),
    (
        1_000_000,
        "after 1000000 steps, at 0100; --limit 10000000 lets it run on\n",
    ),
];

#[test]
fn a_limit_has_a_larger_one(rt: HostRuntime) -> Result<(), Fail> {
    for (limit, wanted) in LIMITS {
        let given = given!(LOOP, limit: limit);
        explains(rt.alloc(), &given, Disk::Absent, wanted)?;
    }
    Ok(())
}

#[test]
fn an_instruction_that_stops_has_its_address(rt: HostRuntime) -> Result<(), Fail> {
    all_explain(
        rt.alloc(),
        &[
            (&program![RET;], ""),
            (&program![MVI C,0; CALL 5;], ""),
            (&program![HLT;], "HLT at 0100\n"),
            (&program![JMP 0x0104; NOP; HLT;], "HLT at 0104\n"),
            (
                &program![JMP 0x0104; NOP; DB 0xed;],
                "at 0104; Z80 programs have such opcodes, and this is an 8080\n",
            ),
            (
                &program![DB 0x08;],
                "at 0100; Z80 programs have such opcodes, and this is an 8080\n",
            ),
        ],
    )
}
