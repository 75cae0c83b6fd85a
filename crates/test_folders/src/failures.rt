// Folders that are not read.

use crate::acts::Act::{Put, PutMany, PutSparse, Tells, TellsBoth};
use crate::acts::Text::{Around, Is};
use crate::acts::{Case, play};
use std::test::Fail;

const CASES: &[Case<'_>] = &[
    Case {
        name: "two files of one name are reported",
        acts: &[
            Put("z", b"x"),
            Put("Z", b"x"),
            Put("a.txt", b"x"),
            Put("A.TXT", b"x"),
            Put("A.txt", b"x"),
            Put("0", b"x"),
            Tells("", Some(0), Is("two files are A.TXT")),
            Tells("", Some(2), Is("two files are C:A.TXT")),
        ],
    },
    Case {
        name: "a missing folder is reported",
        acts: &[
            Tells("none", Some(1), Around("cannot read ", "/none")),
            Put("none", b"x"),
            Tells("none", Some(0), Around("cannot read ", "/none")),
        ],
    },
    Case {
        name: "a file may be too long",
        acts: &[
            PutSparse("big", 8_388_608),
            Tells("", Some(0), Is(" BIG")),
            PutSparse("big", 8_388_609),
            Tells("", Some(3), Is("file D:BIG refused 1")),
            PutSparse("big", 1_000_000_000_000),
            Tells("", Some(0), Is("file BIG refused 1")),
        ],
    },
    Case {
        name: "there may be too many files",
        acts: &[
            PutMany("many", 500),
            PutMany("more", 13),
            TellsBoth("many", "more", Is("file B:F012 refused 2")),
        ],
    },
];

#[test]
fn folders_that_are_not_read(rt: HostRuntime) -> Result<(), Fail> {
    play(&rt, CASES)
}
