// Files under other keys, and the questions about host files that they ask.

use cpmfiles::Ask::{Length, Rec};
use cpmfiles::{Ask, Key};
use std::test::Fail;
use test_files::Act::{Anew, Delete, Has, Make, Read, Records, Rename, Write};
use test_files::Acts::{Asking, Plain};
use test_files::{ANN, BEN, CAT, Case, play};

// Whether both are there; then the length of the first, and records of it.
const BOTH: &[Ask] = &[Ask::Has(ANN), Ask::Has(BEN)];

const LONG: &[Ask] = &[Ask::Has(ANN), Ask::Has(BEN), Length(ANN)];

const READ_1: &[Ask] = &[Ask::Has(ANN), Ask::Has(BEN), Length(ANN), Rec(ANN, 1)];

const READ_2: &[Ask] = &[
    Ask::Has(ANN),
    Ask::Has(BEN),
    Length(ANN),
    Rec(ANN, 1),
    Rec(ANN, 2),
];

const ABSENT: &[Ask] = &[Ask::Has(BEN), Ask::Has(CAT)];

const ANY: Key = *b"\0AN?        ";

const SMALL: Key = *b"\0ben        ";

const CASES: &[Case<'_>] = &[
    // The file keeps its own host file, whose length and records are asked for by the first key.
    Case {
        name: "a file is renamed away and back",
        files: &[("ann", 384)],
        acts: Asking(&[
            (Rename(ANN, BEN, true), BOTH),
            (Has(ANN, false), BOTH),
            (Has(BEN, true), BOTH),
            (Records(BEN, Some(3)), LONG),
            (Read(BEN, 1, Some(b'x')), READ_1),
            (Rename(BEN, ANN, true), READ_1),
            (Has(BEN, false), READ_1),
            (Records(ANN, Some(3)), READ_1),
            (Read(ANN, 1, Some(b'x')), READ_1),
            (Read(ANN, 2, Some(b'x')), READ_2),
        ]),
    },
    Case {
        name: "a file is renamed onto a deleted key",
        files: &[("ann", 384), ("ben", 1)],
        acts: Asking(&[
            (Delete(BEN, 1), &[Ask::Has(BEN)]),
            (Rename(ANN, BEN, true), BOTH),
            (Has(ANN, false), BOTH),
            (Records(BEN, Some(3)), LONG),
            (Read(BEN, 1, Some(b'x')), READ_1),
            (Make(ANN, true), READ_1),
            (Records(ANN, Some(0)), READ_1),
            (Read(BEN, 2, Some(b'x')), READ_2),
        ]),
    },
    // What was written moves with the file, and so does its growth.
    Case {
        name: "a written file is renamed",
        files: &[("ann", 384)],
        acts: Asking(&[
            (Write(ANN, 4, b'a', true), &[Ask::Has(ANN), Length(ANN)]),
            (Rename(ANN, BEN, true), LONG),
            (Records(BEN, Some(5)), LONG),
            (Read(BEN, 4, Some(b'a')), LONG),
            (Read(BEN, 3, None), LONG),
            (Write(BEN, 0, b'b', true), LONG),
            (Read(BEN, 0, Some(b'b')), LONG),
            (Read(BEN, 1, Some(b'x')), READ_1),
            (Records(ANN, None), READ_1),
        ]),
    },
    Case {
        name: "a made file is renamed",
        files: &[],
        acts: Asking(&[
            (Make(ANN, true), &[Ask::Has(ANN)]),
            (Write(ANN, 1, b'a', true), &[Ask::Has(ANN)]),
            (Rename(ANN, BEN, true), BOTH),
            (Records(BEN, Some(2)), BOTH),
            (Read(BEN, 0, None), BOTH),
            (Read(BEN, 1, Some(b'a')), BOTH),
            (Make(ANN, true), BOTH),
            (Records(ANN, Some(0)), BOTH),
        ]),
    },
    // Both keys are asked for, whatever the first answer is.
    Case {
        name: "a rename needs the old key and not the new",
        files: &[("ann", 1), ("ben", 1)],
        acts: Asking(&[
            (Rename(ANN, BEN, false), BOTH),
            (Anew, &[]),
            (Rename(ANN, ANN, false), &[Ask::Has(ANN)]),
            (Anew, &[]),
            (Rename(CAT, BEN, false), ABSENT),
            (Anew, &[]),
            (Rename(CAT, CAT, false), &[Ask::Has(CAT)]),
            (Anew, &[]),
            (Rename(BEN, CAT, true), ABSENT),
        ]),
    },
    // No question is asked if a key has a `?`, or if the new one is no valid name's.
    Case {
        name: "keys that no rename takes",
        files: &[("ann", 1)],
        acts: Asking(&[
            (Rename(ANY, BEN, false), &[]),
            (Anew, &[]),
            (Rename(ANN, ANY, false), &[]),
            (Anew, &[]),
            (Rename(ANN, SMALL, false), &[]),
            (Anew, &[]),
            (Rename(SMALL, ANN, false), &[Ask::Has(ANN), Ask::Has(SMALL)]),
        ]),
    },
    // Each moves to the key that the one before left.
    Case {
        name: "two files change keys",
        files: &[("ann", 128), ("ben", 256)],
        acts: Plain(&[
            Rename(ANN, CAT, true),
            Rename(BEN, ANN, true),
            Rename(CAT, BEN, true),
            Records(ANN, Some(2)),
            Records(BEN, Some(1)),
            Records(CAT, None),
            Write(ANN, 2, b'a', true),
            Delete(BEN, 1),
            Records(ANN, Some(3)),
            Records(BEN, None),
        ]),
    },
];

#[test]
fn files_under_other_keys(rt: HostRuntime) -> Result<(), Fail> {
    play(rt.alloc(), CASES)
}
