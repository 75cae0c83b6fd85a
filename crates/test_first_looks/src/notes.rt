// Steps that are noted and erased.

use hostfiles::Ask::{Directory, Has, Length, Rec};
use std::test::Fail;
use test_files::Act::{Anew, EraseFrom, Note, StepOf};
use test_files::Acts::Plain;
use test_files::{ANN, B_ANN, BEN, Case, play};

const CASES: &[Case<'_>] = &[
    Case {
        name: "no question has a step at first",
        files: &[],
        acts: Plain(&[
            StepOf(Has(ANN), None),
            StepOf(Length(ANN), None),
            StepOf(Rec(ANN, 0), None),
            StepOf(Directory(0), None),
        ]),
    },
    Case {
        name: "the first step is noted",
        files: &[],
        acts: Plain(&[
            Note(Has(ANN), 3),
            Note(Has(ANN), 5),
            StepOf(Has(ANN), Some(3)),
            Anew,
            Note(Length(ANN), 3),
            Note(Length(ANN), 5),
            StepOf(Length(ANN), Some(3)),
            Anew,
            Note(Rec(ANN, 65_535), 3),
            Note(Rec(ANN, 65_535), 5),
            StepOf(Rec(ANN, 65_535), Some(3)),
            Anew,
            Note(Directory(255), 3),
            Note(Directory(255), 5),
            StepOf(Directory(255), Some(3)),
        ]),
    },
    Case {
        name: "each question has its own step",
        files: &[],
        acts: Plain(&[
            Note(Has(ANN), 1),
            Note(Length(ANN), 2),
            Note(Rec(ANN, 0), 3),
            Note(Rec(ANN, 1), 4),
            Note(Directory(0), 5),
            Note(Has(BEN), 6),
            StepOf(Has(ANN), Some(1)),
            StepOf(Length(ANN), Some(2)),
            StepOf(Rec(ANN, 0), Some(3)),
            StepOf(Rec(ANN, 1), Some(4)),
            StepOf(Rec(ANN, 2), None),
            StepOf(Directory(0), Some(5)),
            StepOf(Directory(1), None),
            StepOf(Has(BEN), Some(6)),
            StepOf(Length(BEN), None),
            StepOf(Rec(BEN, 0), None),
        ]),
    },
    Case {
        name: "records have their own steps, in order or not",
        files: &[],
        acts: Plain(&[
            Note(Rec(ANN, 0), 1),
            Note(Rec(ANN, 1), 2),
            Note(Rec(ANN, 5), 3),
            Note(Rec(ANN, 2), 4),
            Note(Rec(BEN, 1), 4),
            Note(Rec(ANN, 1), 5),
            Note(Rec(BEN, 0), 6),
            StepOf(Rec(ANN, 0), Some(1)),
            StepOf(Rec(ANN, 1), Some(2)),
            StepOf(Rec(ANN, 2), Some(4)),
            StepOf(Rec(ANN, 3), None),
            StepOf(Rec(ANN, 5), Some(3)),
            StepOf(Rec(BEN, 0), Some(6)),
            StepOf(Rec(BEN, 1), Some(4)),
            EraseFrom(4),
            StepOf(Rec(ANN, 1), Some(2)),
            StepOf(Rec(ANN, 2), None),
            StepOf(Rec(ANN, 5), Some(3)),
            StepOf(Rec(BEN, 0), None),
            StepOf(Rec(BEN, 1), None),
            Note(Rec(ANN, 2), 4),
            StepOf(Rec(ANN, 2), Some(4)),
        ]),
    },
    Case {
        name: "steps from one on are erased",
        files: &[],
        acts: Plain(&[
            Note(Has(ANN), 4),
            Note(Length(ANN), 4),
            Note(Rec(B_ANN, 7), 4),
            Note(Directory(0), 4),
            Note(Has(BEN), 5),
            Note(Rec(B_ANN, 8), 5),
            Note(Directory(3), 5),
            Note(Length(BEN), 6),
            EraseFrom(5),
            StepOf(Has(ANN), Some(4)),
            StepOf(Has(BEN), None),
            StepOf(Length(ANN), Some(4)),
            StepOf(Length(BEN), None),
            StepOf(Rec(B_ANN, 7), Some(4)),
            StepOf(Rec(B_ANN, 8), None),
            StepOf(Directory(0), Some(4)),
            StepOf(Directory(3), None),
            Note(Has(BEN), 9),
            StepOf(Has(BEN), Some(9)),
        ]),
    },
];

#[test]
fn first_steps(rt: HostRuntime) -> Result<(), Fail> {
    play(rt.alloc(), CASES)
}
