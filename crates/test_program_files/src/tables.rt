// Files that a program makes, writes and reads, and the questions about host files that this asks.

use cpmfiles::Ask::{Length, Rec};
use cpmfiles::{Ask, Key};
use std::test::Fail;
use test_files::Act::{Anew, Delete, Extent, Fill, Has, Make, Read, Records, Write};
use test_files::Acts::{Asking, Plain};
use test_files::{ANN, B_ANN, BEN, Case, play};

// The questions about one file: whether it is there; its length too; and records of it.
const THERE: &[Ask] = &[Ask::Has(ANN)];

const LONG: &[Ask] = &[Ask::Has(ANN), Length(ANN)];

const READ_1: &[Ask] = &[Ask::Has(ANN), Length(ANN), Rec(ANN, 1)];

const READ_0: &[Ask] = &[Ask::Has(ANN), Length(ANN), Rec(ANN, 0), Rec(ANN, 1)];

const READ_ALL: &[Ask] = &[
    Ask::Has(ANN),
    Length(ANN),
    Rec(ANN, 0),
    Rec(ANN, 1),
    Rec(ANN, 2),
];

const SMALL: Key = *b"\0ann        ";

const CASES: &[Case<'_>] = &[
    Case {
        name: "a made file answers for itself",
        files: &[],
        acts: Asking(&[
            (Make(ANN, true), THERE),
            (Make(ANN, false), THERE),
            (Has(ANN, true), THERE),
            (Records(ANN, Some(0)), THERE),
            (Extent(ANN, 0, Some(0)), THERE),
            (Read(ANN, 0, None), THERE),
            (Write(ANN, 0, b'a', true), THERE),
            (Read(ANN, 0, Some(b'a')), THERE),
            (Records(ANN, Some(1)), THERE),
        ]),
    },
    Case {
        name: "a write past the end leaves holes",
        files: &[],
        acts: Asking(&[
            (Make(ANN, true), THERE),
            (Write(ANN, 2, b'a', true), THERE),
            (Records(ANN, Some(3)), THERE),
            (Read(ANN, 0, None), THERE),
            (Read(ANN, 1, None), THERE),
            (Read(ANN, 2, Some(b'a')), THERE),
            (Read(ANN, 3, None), THERE),
            (Extent(ANN, 0, Some(3)), THERE),
            (Extent(ANN, 1, Some(0)), THERE),
        ]),
    },
    Case {
        name: "a gap is filled and older holes stay",
        files: &[],
        acts: Asking(&[
            (Make(ANN, true), THERE),
            (Write(ANN, 2, b'a', true), THERE),
            (Fill(ANN, 5, b'b', true), THERE),
            (Read(ANN, 1, None), THERE),
            (Read(ANN, 3, Some(0)), THERE),
            (Read(ANN, 4, Some(0)), THERE),
            (Read(ANN, 5, Some(b'b')), THERE),
            (Records(ANN, Some(6)), THERE),
            (Fill(ANN, 0, b'c', true), THERE),
            (Read(ANN, 1, None), THERE),
            (Records(ANN, Some(6)), THERE),
        ]),
    },
    Case {
        name: "a deleted file is gone until it is made",
        files: &[("ann", 300)],
        acts: Asking(&[
            (Delete(ANN, 1), THERE),
            (Delete(ANN, 0), THERE),
            (Has(ANN, false), THERE),
            (Records(ANN, None), THERE),
            (Extent(ANN, 0, None), THERE),
            (Read(ANN, 0, None), THERE),
            (Write(ANN, 0, b'a', false), THERE),
            (Fill(ANN, 0, b'a', false), THERE),
            (Make(ANN, true), THERE),
            (Records(ANN, Some(0)), THERE),
            (Write(ANN, 1, b'a', true), THERE),
            (Read(ANN, 0, None), THERE),
            (Read(ANN, 1, Some(b'a')), THERE),
        ]),
    },
    Case {
        name: "a made file is deleted and made again",
        files: &[],
        acts: Asking(&[
            (Make(ANN, true), THERE),
            (Write(ANN, 2, b'a', true), THERE),
            (Delete(ANN, 1), THERE),
            (Read(ANN, 2, None), THERE),
            (Make(ANN, true), THERE),
            (Records(ANN, Some(0)), THERE),
            (Write(ANN, 3, b'b', true), THERE),
            (Read(ANN, 2, None), THERE),
            (Read(ANN, 3, Some(b'b')), THERE),
        ]),
    },
    // A record of a host file is asked for once; a record that was written is not asked for.
    Case {
        name: "a host file is asked for what was not written",
        files: &[("ann", 384)],
        acts: Asking(&[
            (Has(ANN, true), THERE),
            (Make(ANN, false), THERE),
            (Records(ANN, Some(3)), LONG),
            (Read(ANN, 3, None), LONG),
            (Extent(ANN, 0, Some(3)), LONG),
            (Read(ANN, 1, Some(b'x')), READ_1),
            (Read(ANN, 1, Some(b'x')), READ_1),
            (Write(ANN, 2, b'a', true), READ_1),
            (Read(ANN, 2, Some(b'a')), READ_1),
            (Read(ANN, 0, Some(b'x')), READ_0),
        ]),
    },
    // If a write made the file longer, its host file's records are still asked for, but its length no longer is, and no hole.
    Case {
        name: "a longer file still reads its host file",
        files: &[("ann", 384)],
        acts: Asking(&[
            (Write(ANN, 5, b'a', true), LONG),
            (Records(ANN, Some(6)), LONG),
            (Read(ANN, 3, None), LONG),
            (Read(ANN, 4, None), LONG),
            (Read(ANN, 5, Some(b'a')), LONG),
            (Read(ANN, 1, Some(b'x')), READ_1),
            (Read(ANN, 0, Some(b'x')), READ_0),
            (Fill(ANN, 7, b'b', true), READ_0),
            (Read(ANN, 6, Some(0)), READ_0),
            (Read(ANN, 4, None), READ_0),
            (Read(ANN, 2, Some(b'x')), READ_ALL),
        ]),
    },
    // For a file that is not there, each call asks only whether it is.
    Case {
        name: "an absent file has no length",
        files: &[("ben", 1)],
        acts: Asking(&[
            (Has(ANN, false), THERE),
            (Anew, &[]),
            (Records(ANN, None), THERE),
            (Anew, &[]),
            (Extent(ANN, 0, None), THERE),
            (Anew, &[]),
            (Read(ANN, 0, None), THERE),
            (Anew, &[]),
            (Write(ANN, 0, b'a', false), THERE),
            (Anew, &[]),
            (Fill(ANN, 0, b'a', false), THERE),
            (Anew, &[]),
            (Delete(ANN, 0), THERE),
        ]),
    },
    // A key that is asked for may have any bytes; only a valid key is made.
    Case {
        name: "keys that no name has are asked but not made",
        files: &[("ann", 1)],
        acts: Asking(&[
            (Make(SMALL, false), &[]),
            (Make(*b"\x04ANN        ", false), &[]),
            (Has(SMALL, false), &[Ask::Has(SMALL)]),
            (Delete(SMALL, 0), &[Ask::Has(SMALL)]),
        ]),
    },
    Case {
        name: "drives keep their files apart",
        files: &[("ann", 1), ("b:ben", 1)],
        acts: Plain(&[
            Has(B_ANN, false),
            Has(BEN, false),
            Make(B_ANN, true),
            Write(B_ANN, 3, b'a', true),
            Records(ANN, Some(1)),
            Delete(ANN, 1),
            Records(B_ANN, Some(4)),
        ]),
    },
    Case {
        name: "the last record can be written",
        files: &[("ann", 1)],
        acts: Plain(&[
            Write(ANN, 65_535, b'a', true),
            Records(ANN, Some(65_536)),
            Read(ANN, 65_535, Some(b'a')),
            Read(ANN, 65_536, None),
            Read(ANN, 4_294_967_295, None),
            Extent(ANN, 511, Some(128)),
            Extent(ANN, 512, Some(0)),
            Extent(ANN, 510, Some(0)),
            Extent(ANN, 0, Some(1)),
        ]),
    },
];

#[test]
fn files_of_a_program(rt: HostRuntime) -> Result<(), Fail> {
    play(rt.alloc(), CASES)
}
