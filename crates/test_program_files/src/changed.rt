// Which files are changed: by their records, and when they are made, deleted and renamed.

use cpmfiles::Key;
use std::test::Fail;
use test_files::Act::{
    Anew, Changed, ChangedAfter, Delete, Make, Rename, Same, Set, Write, WriteOther,
};
use test_files::Acts::Plain;
use test_files::{ANN, B_ANN, BEN, CAT, Case, play};

const B_COM: Key = *b"\0B       COM";

const ZED: Key = *b"\0ZED        ";

const B_ANN_TXT: Key = *b"\x01ANN     TXT";

const D_AAA_TXT: Key = *b"\x03AAA     TXT";

const ORDER: &[Key] = &[B_COM, ZED, B_ANN, B_ANN_TXT, D_AAA_TXT];

const CASES: &[Case<'_>] = &[
    Case {
        name: "nothing done changes nothing",
        files: &[("ann", 256), ("d:zed", 0)],
        acts: Plain(&[Same(ANN), Same(BEN), Changed(&[])]),
    },
    Case {
        name: "equal bytes change nothing",
        files: &[("ann", 256)],
        acts: Plain(&[
            Write(ANN, 1, b'x', true),
            Changed(&[]),
            Write(ANN, 1, b'y', true),
            Changed(&[ANN]),
            Write(ANN, 1, b'x', true),
            Changed(&[]),
        ]),
    },
    Case {
        name: "one byte makes the difference",
        files: &[("ann", 384)],
        acts: Plain(&[
            WriteOther(ANN, 0, 0),
            Changed(&[ANN]),
            Anew,
            WriteOther(ANN, 2, 0),
            Changed(&[ANN]),
            Anew,
            WriteOther(ANN, 0, 127),
            Changed(&[ANN]),
            Anew,
            WriteOther(ANN, 2, 127),
            Changed(&[ANN]),
        ]),
    },
    Case {
        name: "a longer file is changed",
        files: &[("ann", 128), ("ben", 0)],
        acts: Plain(&[
            Write(ANN, 1, b'x', true),
            Write(BEN, 0, 0, true),
            Changed(&[ANN, BEN]),
        ]),
    },
    // The host file's second record is zeros, and the file that is made again has a hole there.
    Case {
        name: "a hole is zeros",
        files: &[],
        acts: Plain(&[
            Set("ann", &[(b'x', 128), (0, 128), (b'x', 128)], 0),
            Delete(ANN, 1),
            Make(ANN, true),
            Write(ANN, 0, b'x', true),
            Write(ANN, 2, b'x', true),
            Changed(&[]),
            Write(ANN, 1, 1, true),
            Changed(&[ANN]),
        ]),
    },
    Case {
        name: "a file is made again",
        files: &[("ann", 128), ("ben", 0), ("cat", 128)],
        acts: Plain(&[
            Delete(ANN, 1),
            Make(ANN, true),
            Delete(BEN, 1),
            Make(BEN, true),
            Delete(CAT, 1),
            Make(CAT, true),
            Write(ANN, 0, b'x', true),
            Changed(&[CAT]),
        ]),
    },
    Case {
        name: "new and deleted files are changed",
        files: &[("ann", 128), ("ben", 0)],
        acts: Plain(&[
            Delete(*b"\0????????   ", 2),
            Make(CAT, true),
            Changed(&[ANN, BEN, CAT]),
            Delete(CAT, 1),
            Changed(&[ANN, BEN]),
        ]),
    },
    Case {
        name: "a file is renamed away and back",
        files: &[("ann", 300)],
        acts: Plain(&[
            Rename(ANN, BEN, true),
            Changed(&[ANN, BEN]),
            Rename(BEN, ANN, true),
            Changed(&[]),
        ]),
    },
    // Each of the two files has the records of the other, and these are the same.
    Case {
        name: "files are renamed onto one another",
        files: &[("ann", 256), ("ben", 256)],
        acts: Plain(&[
            Rename(ANN, CAT, true),
            Rename(BEN, ANN, true),
            Rename(CAT, BEN, true),
            Changed(&[]),
            Write(BEN, 0, 0, true),
            Changed(&[BEN]),
        ]),
    },
    // The drive comes first, then the name, then the type. The two host files are deleted, and the others made.
    Case {
        name: "changed files are in the order of drives and names",
        files: &[("b:ann", 128), ("zed", 128)],
        acts: Plain(&[
            Make(D_AAA_TXT, true),
            Make(B_ANN_TXT, true),
            Delete(ZED, 1),
            Delete(B_ANN, 1),
            Make(B_COM, true),
            Changed(ORDER),
            ChangedAfter("b:anm", B_ANN),
            Changed(ORDER),
        ]),
    },
];

#[test]
fn files_that_are_changed(rt: HostRuntime) -> Result<(), Fail> {
    play(rt.alloc(), CASES)
}
