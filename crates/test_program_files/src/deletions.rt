// Deletions by patterns.

use cpmfiles::Ask;
use std::test::Fail;
use test_files::Act::{Delete, Find, Has, Make, Records, SetMany, Write};
use test_files::Acts::{Asking, Both, Plain};
use test_files::{ALL, ANN, B_ANN, BEN, CAT, Case, play};

const MADE: &[Ask] = &[Ask::Has(CAT)];

const ASKS: &[Ask] = &[Ask::Has(CAT), Ask::Directory(0)];

const BOTH: &[Ask] = &[Ask::Has(CAT), Ask::Directory(0), Ask::Directory(1)];

const CASES: &[Case<'_>] = &[
    // Only the directory is asked, and each file that matches is deleted, whether the host or the program made it.
    Case {
        name: "all files that match are deleted",
        files: &[("ann", 1), ("ben", 1), ("b:ann", 1)],
        acts: Asking(&[
            (Make(CAT, true), MADE),
            (Delete(*b"\0?A?        ", 1), ASKS),
            (Has(CAT, false), ASKS),
            (Delete(*b"\0??N        ", 2), ASKS),
            (Delete(ALL, 0), ASKS),
            (Has(ANN, false), ASKS),
            (Has(BEN, false), ASKS),
            (Find(ALL, b'?', &[]), ASKS),
            (Find(B_ANN, b'?', &[(B_ANN, 0, 1)]), BOTH),
        ]),
    },
    Case {
        name: "a deletion keeps what does not match",
        files: &[("ann", 1), ("ben", 1), ("cat", 1)],
        acts: Plain(&[
            Write(BEN, 4, b'a', true),
            Delete(*b"\0A??        ", 1),
            Delete(*b"\x01???????????", 0),
            Records(ANN, None),
            Records(BEN, Some(5)),
            Delete(*b"\0C?T        ", 1),
            Make(ANN, true),
            Find(ALL, 0, &[(ANN, 0, 0), (BEN, 0, 5)]),
        ]),
    },
    Case {
        name: "a deletion by pattern takes 512 files",
        files: &[],
        acts: Both(
            &[SetMany(512)],
            &[
                (Delete(*b"\x02F??????????", 128), &[Ask::Directory(2)]),
                (Delete(*b"\x02???????????", 0), &[Ask::Directory(2)]),
            ],
        ),
    },
];

#[test]
fn deletions_by_patterns(rt: HostRuntime) -> Result<(), Fail> {
    play(rt.alloc(), CASES)
}
