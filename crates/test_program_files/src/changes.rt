// The files after a run's changes, without a question; copies of the changes; and the questions, one by one.

use cpmfiles::Ask;
use cpmfiles::Ask::{Length, Rec};
use std::test::Fail;
use test_files::Act::{
    Copy, Delete, Exchange, Fill, Find, Has, HostRecords, Make, Read, Records, Rename, Take,
    TellKeys, TellRecord, TellRecords, Write,
};
use test_files::Acts::{Both, Plain};
use test_files::{ALL, ANN, Act, BEN, CAT, Case, play};

// Then ANN has a hole at 2, BEN is CAT, and there is a new file on drive B.
const LONGER: Act<'_> = Write(ANN, 3, b'a', true);

const RENAMED: Act<'_> = Rename(BEN, CAT, true);

const NEW: Act<'_> = Make(*b"\x01DAN        ", true);

const ASKED: &[Ask] = &[Ask::Has(ANN), Length(ANN)];

const READ_1: &[Ask] = &[Ask::Has(ANN), Length(ANN), Rec(ANN, 1)];

const CASES: &[Case<'_>] = &[
    Case {
        name: "records after changes",
        files: &[("ann", 256), ("ben", 130)],
        acts: Plain(&[
            LONGER,
            RENAMED,
            NEW,
            TellRecords("ann", Some(4)),
            TellRecords("ben", None),
            TellRecords("cat", Some(2)),
            TellRecords("b:dan", Some(0)),
            TellRecords("dan", None),
            HostRecords("ann", Some(2)),
        ]),
    },
    // A hole is reported as zeros, and past the end there is no record.
    Case {
        name: "a record after changes",
        files: &[("ann", 256), ("ben", 130)],
        acts: Plain(&[
            LONGER,
            RENAMED,
            NEW,
            TellRecord("ann", 0, Some(b'x')),
            TellRecord("ann", 2, Some(0)),
            TellRecord("ann", 3, Some(b'a')),
            TellRecord("ann", 4, None),
            TellRecord("ben", 0, None),
            TellRecord("cat", 0, Some(b'x')),
            TellRecord("cat", 2, None),
            TellRecord("b:dan", 0, None),
        ]),
    },
    Case {
        name: "names after changes",
        files: &[("ann", 256), ("ben", 130), ("d:a", 0)],
        acts: Plain(&[
            LONGER,
            RENAMED,
            NEW,
            TellKeys(&[ANN, CAT, *b"\x01DAN        ", *b"\x03A          "]),
        ]),
    },
    Case {
        name: "reading what is there after changes is no question",
        files: &[("ann", 256), ("ben", 130)],
        acts: Both(
            &[
                TellRecords("ann", Some(2)),
                TellRecord("ann", 1, Some(b'x')),
            ],
            &[(TellKeys(&[ANN, BEN]), &[])],
        ),
    },
    // A copy does not show what is later done to a run's changes or asked through them.
    Case {
        name: "a copy is unchanged",
        files: &[("ann", 256)],
        acts: Both(
            &[
                Write(ANN, 2, b'a', true),
                Copy,
                Write(ANN, 2, b'b', true),
                Fill(ANN, 5, b'c', true),
                Read(ANN, 0, Some(b'x')),
                Exchange,
            ],
            &[
                (Records(ANN, Some(3)), ASKED),
                (Read(ANN, 2, Some(b'a')), ASKED),
                (Read(ANN, 1, Some(b'x')), READ_1),
            ],
        ),
    },
    Case {
        name: "a copy changes on its own",
        files: &[("ann", 256)],
        acts: Both(
            &[
                Write(ANN, 2, b'a', true),
                Copy,
                Exchange,
                Fill(ANN, 4, b'd', true),
                Delete(ANN, 1),
                Has(ANN, false),
                Exchange,
            ],
            &[
                (Records(ANN, Some(3)), ASKED),
                (Read(ANN, 2, Some(b'a')), ASKED),
                (Read(ANN, 3, None), ASKED),
            ],
        ),
    },
    // What was done stays, and each question is taken out once.
    Case {
        name: "questions are taken one by one",
        files: &[("ann", 256)],
        acts: Plain(&[
            Read(ANN, 1, Some(b'x')),
            Write(ANN, 0, b'a', true),
            Find(ALL, 0, &[(ANN, 0, 2)]),
            Take(4, 1111),
            Take(1, 0),
            Read(ANN, 0, Some(b'a')),
        ]),
    },
];

#[test]
fn what_is_there_after_changes(rt: HostRuntime) -> Result<(), Fail> {
    play(rt.alloc(), CASES)
}
