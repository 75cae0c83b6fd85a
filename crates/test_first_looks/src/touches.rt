// What the change of a file touches. Each question about the file ANN has a step of its own, and 9 is past them all.

use hostfiles::Ask::{Directory, Has, Length, Rec};
use std::test::Fail;
use test_files::Act::{Anew, Note, SetNext, Touch};
use test_files::Acts::{Both, Plain};
use test_files::{ANN, Act, B_ANN, BEN, Case, play};

const TWO_RECORDS: &[(&str, usize)] = &[("ann", 200)];

const ASKED: &[Act<'_>] = &[
    Note(Has(BEN), 0),
    Note(Directory(1), 1),
    Note(Has(ANN), 2),
    Note(Length(ANN), 3),
    Note(Directory(0), 4),
    Note(Rec(ANN, 2), 5),
    Note(Rec(ANN, 1), 6),
    Note(Rec(ANN, 0), 7),
];

const CASES: &[Case<'_>] = &[
    Case {
        name: "equal bytes touch nothing",
        files: TWO_RECORDS,
        acts: Both(
            ASKED,
            &[
                (SetNext("ann", &[(b'x', 200)]), &[]),
                (Touch(9, ANN, 9), &[]),
                (SetNext("ann", &[(b'x', 200), (0x1a, 56)]), &[]),
                (Touch(9, ANN, 9), &[]),
            ],
        ),
    },
    Case {
        name: "a record touches the step that read it",
        files: TWO_RECORDS,
        acts: Both(
            ASKED,
            &[
                (SetNext("ann", &[(b'x', 127), (b'y', 1), (b'x', 72)]), &[]),
                (Touch(9, ANN, 7), &[]),
                (SetNext("ann", &[(b'x', 128), (b'y', 1), (b'x', 71)]), &[]),
                (Touch(9, ANN, 6), &[]),
                (SetNext("ann", &[(b'y', 200)]), &[]),
                (Touch(9, ANN, 6), &[]),
            ],
        ),
    },
    Case {
        name: "records that were read in order touch the first that differs",
        files: TWO_RECORDS,
        acts: Both(
            &[Note(Rec(ANN, 0), 3), Note(Rec(ANN, 1), 4)],
            &[
                (SetNext("ann", &[(b'x', 128), (b'y', 1), (b'x', 71)]), &[]),
                (Touch(9, ANN, 4), &[]),
                (SetNext("ann", &[(b'y', 200)]), &[]),
                (Touch(9, ANN, 3), &[]),
            ],
        ),
    },
    Case {
        name: "another length touches length and directory",
        files: TWO_RECORDS,
        acts: Both(
            ASKED,
            &[
                (SetNext("ann", &[(b'x', 128)]), &[]),
                (Touch(9, ANN, 3), &[]),
                (SetNext("ann", &[(b'x', 300)]), &[]),
                (Touch(9, ANN, 3), &[]),
            ],
        ),
    },
    Case {
        name: "a removed file touches presence",
        files: TWO_RECORDS,
        acts: Both(ASKED, &[(Touch(9, ANN, 2), &[])]),
    },
    // Each time a single question was asked at step 4.
    Case {
        name: "a new file touches all that asked of it",
        files: &[],
        acts: Plain(&[
            SetNext("ann", &[(b'x', 1)]),
            SetNext("b:ann", &[]),
            Note(Has(ANN), 4),
            Touch(9, ANN, 4),
            Anew,
            Note(Length(ANN), 4),
            Touch(9, ANN, 4),
            Anew,
            Note(Rec(ANN, 0), 4),
            Touch(9, ANN, 4),
            Anew,
            Note(Rec(ANN, 1), 4),
            Touch(9, ANN, 9),
            Anew,
            Note(Directory(0), 4),
            Touch(9, ANN, 4),
            Anew,
            Note(Directory(1), 4),
            Touch(9, ANN, 9),
            Anew,
            Note(Has(BEN), 4),
            Touch(9, ANN, 9),
            Anew,
            Note(Length(B_ANN), 4),
            Touch(9, B_ANN, 4),
            Anew,
            Note(Rec(B_ANN, 0), 4),
            Touch(9, B_ANN, 9),
            Anew,
            Note(Directory(1), 4),
            Touch(9, B_ANN, 4),
            Anew,
            Note(Directory(0), 4),
            Touch(9, B_ANN, 9),
        ]),
    },
    Case {
        name: "nothing past the least is touched",
        files: &[("ann", 1)],
        acts: Plain(&[
            Note(Has(ANN), 4),
            Touch(3, ANN, 3),
            Touch(4, ANN, 4),
            Touch(5, ANN, 4),
        ]),
    },
];

#[test]
fn what_a_change_touches(rt: HostRuntime) -> Result<(), Fail> {
    play(rt.alloc(), CASES)
}
