// Standard output and standard error that fail.

use crate::fixtures::Act::{Ask, Put};
use crate::fixtures::Wanted::{NoRoom, Untold};
use crate::fixtures::{Act, HI, play};
use std::test::Fail;

const FULL: &[Act<'_>] = &[
    Put("p3.com", HI),
    Put("run", b"run\n"),
    Ask(&["@/p3.com"], NoRoom(0)),
    Ask(&["@/p3.com"], NoRoom(1)),
    Ask(&["@/p3.com", "--edits", "@/run"], NoRoom(0)),
    Ask(&["@/p3.com", "--edits", "@/run"], NoRoom(1)),
    Ask(&["--help"], NoRoom(0)),
    Ask(&["--help"], NoRoom(1)),
    Ask(&["--version"], NoRoom(0)),
    Ask(&["--version"], NoRoom(1)),
];

const MUTE: &[Act<'_>] = &[
    Put("p3.com", HI),
    Ask(&["@/p3.com"], Untold(0, 0)),
    Ask(&["@/p3.com"], Untold(5, 0)),
    Ask(&["@/p3.com", "--limit", "5"], Untold(0, 3)),
    Ask(&["@/p3.com", "--limit", "5"], Untold(5, 3)),
    Ask(&["@/none"], Untold(0, 1)),
    Ask(&["@/none"], Untold(5, 1)),
    Ask(&["--slots", "0"], Untold(0, 1)),
    Ask(&["--slots", "0"], Untold(5, 1)),
];

#[test]
fn outputs_that_fail(rt: HostRuntime) -> Result<(), Fail> {
    play(
        &rt,
        &[
            ("standard output may fail", FULL),
            ("a failure of standard error is passed over", MUTE),
        ],
    )
}
