// Host files: their records, their limits, and their order.

use std::test::Fail;
use test_files::Act::{HostCount, HostKeys, HostRecord, HostRecords, Remove, Set, SetMany};
use test_files::Acts::Plain;
use test_files::{Case, play};

const CASES: &[Case<'_>] = &[
    Case {
        name: "the last record is padded",
        files: &[("a", 130), ("b", 128)],
        acts: Plain(&[
            HostRecords("a", Some(2)),
            HostRecord("a", 0, Some(128)),
            HostRecord("a", 1, Some(2)),
            HostRecord("a", 2, None),
            HostRecords("b", Some(1)),
            HostRecord("b", 0, Some(128)),
        ]),
    },
    Case {
        name: "a file of no byte has no record",
        files: &[("a", 0)],
        acts: Plain(&[
            HostRecords("a", Some(0)),
            HostRecord("a", 0, None),
            HostRecords("b", None),
        ]),
    },
    Case {
        name: "a file has at most 65536 records",
        files: &[("a", 8_388_608), ("b", 130)],
        acts: Plain(&[
            HostRecords("a", Some(65_536)),
            HostRecord("a", 65_535, Some(128)),
            Set("b", &[(0, 8_388_609)], 1),
            Set("c", &[(0, 8_388_609)], 1),
            HostCount(2),
            HostRecords("b", Some(2)),
        ]),
    },
    Case {
        name: "there are at most 512 files",
        files: &[],
        acts: Plain(&[
            SetMany(512),
            HostCount(512),
            Set("d:more", &[(b'x', 1)], 2),
            HostCount(512),
            HostRecords("d:more", None),
            Set("b:f001", &[(0, 129)], 0),
            HostCount(512),
            HostRecords("b:f001", Some(2)),
            Remove("b:f001", true),
            Set("d:more", &[(b'x', 1)], 0),
            HostCount(512),
            HostRecords("d:more", Some(1)),
        ]),
    },
    Case {
        name: "a removed file is gone",
        files: &[("a", 1), ("b:a", 1)],
        acts: Plain(&[
            Remove("a", true),
            Remove("a", false),
            HostCount(1),
            HostRecords("a", None),
            HostRecord("a", 0, None),
            HostRecords("b:a", Some(1)),
        ]),
    },
    Case {
        name: "files are in the order of drives and names",
        files: &[("b:a", 1), ("z", 1), ("a.b", 1), ("aa", 1)],
        acts: Plain(&[HostKeys(&[
            *b"\0A       B  ",
            *b"\0AA         ",
            *b"\0Z          ",
            *b"\x01A          ",
        ])]),
    },
];

#[test]
fn records_limits_and_order(rt: HostRuntime) -> Result<(), Fail> {
    play(rt.alloc(), CASES)
}
