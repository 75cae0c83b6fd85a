// Searches that continue while files change, and the questions about host files that a search asks.

use cpmfiles::Ask::Directory;
use std::test::Fail;
use test_files::Act::{Anew, Delete, Find, FindNext, Make, Rename, Write};
use test_files::Acts::{Asking, Plain};
use test_files::{ALL, ANN, Act, BEN, CAT, Case, Found, play};

const ANN_0: Found = (ANN, 0, 1);

const ANN_2: Found = (ANN, 2, 1);

const BEN_0: Found = (BEN, 0, 1);

const LONGER: Act<'_> = Write(ANN, 256, 1, true);

const CASES: &[Case<'_>] = &[
    // The search sees the current files: those made, extended, renamed and deleted since.
    Case {
        name: "a search continues from the given entry",
        files: &[("ann", 1), ("ben", 1)],
        acts: Plain(&[
            Delete(ANN, 1),
            FindNext(ANN_0, Some(BEN_0)),
            Anew,
            Delete(BEN, 1),
            FindNext(ANN_0, None),
            Anew,
            Delete(BEN, 1),
            FindNext(BEN_0, None),
            Anew,
            Make(CAT, true),
            FindNext(BEN_0, Some((CAT, 0, 0))),
            Anew,
            LONGER,
            FindNext(ANN_0, Some(ANN_2)),
            Anew,
            LONGER,
            FindNext((ANN, 1, 1), Some(ANN_2)),
            Anew,
            LONGER,
            FindNext(ANN_2, Some(BEN_0)),
            Anew,
            Rename(ANN, CAT, true),
            FindNext(BEN_0, Some((CAT, 0, 1))),
            Anew,
            Write(BEN, 0, 1, true),
            FindNext((ANN, 511, 128), Some(BEN_0)),
        ]),
    },
    Case {
        name: "a search asks the directory of its drive",
        files: &[("ann", 1), ("b:ann", 1)],
        acts: Asking(&[
            (Find(ANN, 0, &[ANN_0]), &[Directory(0)]),
            (Find(ALL, b'?', &[ANN_0]), &[Directory(0)]),
            (
                Find(*b"\x03???????????", 0, &[]),
                &[Directory(0), Directory(3)],
            ),
        ]),
    },
];

#[test]
fn searches_that_go_on(rt: HostRuntime) -> Result<(), Fail> {
    play(rt.alloc(), CASES)
}
