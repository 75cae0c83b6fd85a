// The entries of the directory, their order, and which of them a pattern finds.

use cpmfiles::Key;
use std::test::Fail;
use test_files::Act::{Anew, Delete, Fill, Find, FindBytes, FindFull, Make, Rename, Write};
use test_files::Acts::Plain;
use test_files::{ALL, ANN, BEN, CAT, Case, play};

const ANY_EXTENT: u8 = b'?';

const A: Key = *b"\0A       TXT";

const AB: Key = *b"\0AB      TXT";

const B: Key = *b"\0B       TXT";

const OTHER: Key = *b"\x01A       TXT";

const CASES: &[Case<'_>] = &[
    Case {
        name: "an entry has 32 bytes",
        files: &[("c:note.txt", 300)],
        acts: Plain(&[FindBytes(
            *b"\x02???????????",
            0,
            b"\0NOTE    TXT\0\0\0\x03\0\0\0\0\0\0\0\0\0\0\0\0\0\0\0\0",
        )]),
    },
    // A file with no record has an entry of extent 0, and a full extent is followed by none.
    Case {
        name: "each extent with a record has an entry",
        files: &[("a", 0), ("b", 1), ("c", 16_384), ("d", 16_385)],
        acts: Plain(&[
            Find(
                ALL,
                ANY_EXTENT,
                &[
                    (*b"\0A          ", 0, 0),
                    (*b"\0B          ", 0, 1),
                    (*b"\0C          ", 0, 128),
                    (*b"\0D          ", 0, 128),
                    (*b"\0D          ", 1, 1),
                ],
            ),
            Find(ALL, 1, &[(*b"\0D          ", 1, 1)]),
        ]),
    },
    Case {
        name: "the longest file has 512 entries",
        files: &[("ann", 8_388_608)],
        acts: Plain(&[FindFull(ANN, 512)]),
    },
    // The byte is compared with the whole extent, though an entry shows the extent in two bytes; 63 is `?`.
    Case {
        name: "an extent byte finds one extent",
        files: &[("ann", 8_388_608)],
        acts: Plain(&[
            Find(ANN, 0, &[(ANN, 0, 128)]),
            Find(ANN, 8, &[(ANN, 8, 128)]),
            Find(ANN, 40, &[(ANN, 40, 128)]),
            Find(ANN, 62, &[(ANN, 62, 128)]),
            Find(ANN, 64, &[(ANN, 64, 128)]),
            Find(ANN, 255, &[(ANN, 255, 128)]),
            FindBytes(
                ANN,
                40,
                b"\0ANN        \x08\0\x01\x80\0\0\0\0\0\0\0\0\0\0\0\0\0\0\0\0",
            ),
        ]),
    },
    // Entries after some calls, over a host file with two records.
    Case {
        name: "an extent of holes has no entry",
        files: &[("ann", 200)],
        acts: Plain(&[
            Write(ANN, 400, 1, true),
            Find(ALL, ANY_EXTENT, &[(ANN, 0, 2), (ANN, 3, 17)]),
            Anew,
            Make(BEN, true),
            Write(BEN, 130, 1, true),
            Find(ALL, ANY_EXTENT, &[(ANN, 0, 2), (BEN, 1, 3)]),
            Anew,
            Make(BEN, true),
            Write(BEN, 0, 1, true),
            Write(BEN, 300, 1, true),
            Find(ALL, ANY_EXTENT, &[(ANN, 0, 2), (BEN, 0, 1), (BEN, 2, 45)]),
            Anew,
            Make(BEN, true),
            Write(BEN, 65_535, 1, true),
            Find(ALL, ANY_EXTENT, &[(ANN, 0, 2), (BEN, 511, 128)]),
        ]),
    },
    // The count of an extent is its greatest index with a record, plus one.
    Case {
        name: "holes before a record are counted",
        files: &[("ann", 200)],
        acts: Plain(&[
            Write(ANN, 5, 1, true),
            Write(ANN, 3, 1, true),
            Find(ALL, ANY_EXTENT, &[(ANN, 0, 6)]),
            Anew,
            Write(ANN, 127, 1, true),
            Write(ANN, 0, 1, true),
            Find(ALL, ANY_EXTENT, &[(ANN, 0, 128)]),
            Anew,
            Make(BEN, true),
            Write(BEN, 5, 1, true),
            Write(BEN, 2, 1, true),
            Find(ALL, ANY_EXTENT, &[(ANN, 0, 2), (BEN, 0, 6)]),
        ]),
    },
    Case {
        name: "a filled gap has entries",
        files: &[("ann", 200)],
        acts: Plain(&[
            Fill(ANN, 256, 1, true),
            Find(
                ALL,
                ANY_EXTENT,
                &[(ANN, 0, 128), (ANN, 1, 128), (ANN, 2, 1)],
            ),
            Anew,
            Write(ANN, 200, 1, true),
            Fill(ANN, 257, 1, true),
            Find(ALL, ANY_EXTENT, &[(ANN, 0, 2), (ANN, 1, 128), (ANN, 2, 2)]),
        ]),
    },
    Case {
        name: "entries follow what was done",
        files: &[("ann", 200)],
        acts: Plain(&[
            Delete(ANN, 1),
            Find(ALL, ANY_EXTENT, &[]),
            Anew,
            Delete(ANN, 1),
            Make(ANN, true),
            Find(ALL, ANY_EXTENT, &[(ANN, 0, 0)]),
            Anew,
            Make(CAT, true),
            Find(ALL, ANY_EXTENT, &[(ANN, 0, 2), (CAT, 0, 0)]),
            Anew,
            Rename(ANN, CAT, true),
            Make(BEN, true),
            Find(ALL, ANY_EXTENT, &[(BEN, 0, 0), (CAT, 0, 2)]),
        ]),
    },
    // A `?` matches each byte of a name, even a blank. The drive must be equal, and an entry does not show it.
    Case {
        name: "patterns find files of one drive",
        files: &[("a.txt", 1), ("ab.txt", 1), ("b.txt", 1), ("b:a.txt", 1)],
        acts: Plain(&[
            Find(ALL, 0, &[(A, 0, 1), (AB, 0, 1), (B, 0, 1)]),
            Find(*b"\0A?      TXT", 0, &[(A, 0, 1), (AB, 0, 1)]),
            Find(*b"\0?       TXT", 0, &[(A, 0, 1), (B, 0, 1)]),
            Find(*b"\0?????????XT", 0, &[(A, 0, 1), (AB, 0, 1), (B, 0, 1)]),
            Find(*b"\0A?      TX ", 0, &[]),
            Find(B, 0, &[(B, 0, 1)]),
            Find(*b"\x01???????????", 0, &[(OTHER, 0, 1)]),
            Find(*b"\x02???????????", 0, &[]),
            Find(*b"????????????", 0, &[]),
        ]),
    },
];

#[test]
fn entries_of_the_directory(rt: HostRuntime) -> Result<(), Fail> {
    play(rt.alloc(), CASES)
}
