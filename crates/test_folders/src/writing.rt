// Files that are written into a folder.

use crate::acts::Act::{
    Does, DoesEach, HasAHole, Holds, Lacks, Link, MakeFolder, Place, Put, RemoveFolder, Streams,
    Tells, Writes,
};
use crate::acts::Text::{Around, Is};
use crate::acts::{Case, play};
use crate::planned::Expected::{Any, Loaded, Nothing};
use crate::planned::Part::{Puts, Removes};
use crate::written::How::{ToItsDrive, WithAHole};
use crate::written::is_passed_over;
use std::test::Fail;

const CASES: &[Case<'_>] = &[
    Case {
        name: "records are written with holes as zeros",
        acts: &[
            Put("H.DAT", b"as it was"),
            Writes("", "c:h.dat", WithAHole, Is("")),
            HasAHole("H.DAT"),
            Lacks(".H.DAT.new"),
            Tells("", Some(0), Is(" H.DAT")),
        ],
    },
    // Nothing is done before the contents of each file are written.
    Case {
        name: "older files stay if a new one is not written",
        acts: &[
            Put("H.DAT", b"as it was"),
            Put("gone", b"gone"),
            Does(
                &[
                    Removes("gone", Loaded(b"gone")),
                    Puts("H.DAT", Loaded(b"as it was")),
                    Puts("none/X", Any),
                ],
                Around("cannot write ", "/none/X"),
            ),
            Holds("H.DAT", b"as it was"),
            Holds("gone", b"gone"),
            Lacks(".H.DAT.new"),
        ],
    },
    Case {
        name: "deeds are done in their order",
        acts: &[
            Put("gone", b"gone"),
            Does(&[Puts("X", Nothing), Removes("gone", Any)], Is("")),
            Holds("X", b"put"),
            Lacks("gone"),
            Does(
                &[Puts("Y", Nothing), Removes("gone", Any), Puts("Z", Nothing)],
                Around("cannot write ", "/gone"),
            ),
            Holds("Y", b"put"),
            Lacks("Z"),
            Holds(".Z.new", b"put"),
        ],
    },
    Case {
        name: "deeds are done one after another",
        acts: &[
            DoesEach(
                &[Puts("X", Any), Puts("none/Y", Any), Puts("Z", Any)],
                Around("cannot write ", "/none/Y"),
            ),
            Holds("X", b"put"),
            Lacks("Z"),
            Lacks(".Z.new"),
        ],
    },
    // What is at a path where the file would first be written stays, and a link there is not followed.
    Case {
        name: "what was left is not written into",
        acts: &[
            Put(".H.DAT.new", b"left"),
            Writes("", "h.dat", WithAHole, Is("")),
            HasAHole("H.DAT"),
            Holds(".H.DAT.new", b"left"),
            Lacks(".H.DAT.new.1"),
            Put("other", b"other"),
            Link(".H.DAT.new.1", "other"),
            MakeFolder(".H.DAT.new.2"),
            Put(".H.DAT.new.2/x", b"x"),
            Writes("", "h.dat", WithAHole, Is("")),
            HasAHole("H.DAT"),
            Holds("other", b"other"),
            Holds(".H.DAT.new.1", b"other"),
            Holds(".H.DAT.new.2/x", b"x"),
            Lacks(".H.DAT.new.3"),
        ],
    },
    Case {
        name: "a file that was changed meanwhile is left as it is",
        acts: &[
            Put("X", b"new"),
            Does(
                &[Puts("A", Any), Puts("X", Loaded(b"old"))],
                Around("cannot write ", "/X: it was changed meanwhile"),
            ),
            Lacks("A"),
            Does(
                &[Puts("X", Nothing)],
                Around("cannot write ", "/X: it was changed meanwhile"),
            ),
            Does(
                &[Removes("X", Loaded(b"old"))],
                Around("cannot write ", "/X: it was changed meanwhile"),
            ),
            Does(
                &[Puts("gone", Loaded(b"old"))],
                Around("cannot write ", "/gone: it was changed meanwhile"),
            ),
            Lacks("gone"),
            Holds("X", b"new"),
            Lacks(".X.new"),
            Does(&[Puts("X", Loaded(b"new"))], Is("")),
            Holds("X", b"put"),
        ],
    },
    Case {
        name: "what is no file is not replaced",
        acts: &[
            Put("other", b"other"),
            Link("X", "other"),
            Does(
                &[Puts("X", Any)],
                Around("cannot write ", "/X: it is no regular file"),
            ),
            Does(
                &[Removes("X", Any)],
                Around("cannot write ", "/X: it is no regular file"),
            ),
            Holds("X", b"other"),
            Lacks(".X.new"),
        ],
    },
    // No other file is left in the folder.
    Case {
        name: "a file that cannot be written is reported",
        acts: &[
            Writes("none", "b:h", WithAHole, Around("cannot write ", "/none/H")),
            MakeFolder("H"),
            Writes(
                "",
                "h",
                WithAHole,
                Around("cannot write ", "/H: it is no regular file"),
            ),
            RemoveFolder("H"),
            RemoveFolder(""),
        ],
    },
    Case {
        name: "a file goes to the folder of its drive",
        acts: &[
            Writes("", "a", ToItsDrive, Is("")),
            Writes("", "b:b", ToItsDrive, Is("")),
            Writes("", "c:c", ToItsDrive, Is("")),
            Writes("", "d:d", ToItsDrive, Is("cannot write /none/D")),
            Tells("", Some(0), Is(" B")),
        ],
    },
    Case {
        name: "a disk keeps the names that are there",
        acts: &[
            Place("", "a:new.txt", Around("", "/NEW.TXT")),
            Put("Mixed.Txt", b""),
            Place("", "b:mixed.txt", Around("", "/Mixed.Txt")),
            Place("", "c:new.txt", Around("", "/NEW.TXT")),
        ],
    },
    // Names that a host file cannot have do not count, and neither do those without a letter.
    Case {
        name: "a new file is named as most files of a disk are",
        acts: &[
            Put("one.txt", b""),
            Place("", "d:new.txt", Around("", "/new.txt")),
            Put("TWO.TXT", b""),
            Put("OTHER.THAN", b""),
            Put("12.34", b""),
            Place("", "new.txt", Around("", "/NEW.TXT")),
            Put("three", b""),
            Place("", "new.txt", Around("", "/new.txt")),
            Place("", "two.txt", Around("", "/TWO.TXT")),
            Put("Four", b""),
            Place("", "new.txt", Around("", "/NEW.TXT")),
        ],
    },
    Case {
        name: "a folder that is no disk is reported",
        acts: &[
            Place("none", "a", Around("cannot read ", "/none")),
            Put("x", b""),
            Put("X", b""),
            Place("", "a", Is("two files are X")),
        ],
    },
    Case {
        name: "a file is removed",
        acts: &[
            Put("x", b"x"),
            Does(&[Removes("x", Any)], Is("")),
            Lacks("x"),
            Does(&[Removes("x", Any)], Around("cannot write ", "/x")),
            MakeFolder("y"),
            Does(
                &[Removes("y", Any)],
                Around("cannot write ", "/y: it is no regular file"),
            ),
        ],
    },
    Case {
        name: "a file is written piece by piece",
        acts: &[
            Streams("new", &[b"one ", b"", b"two"], Is("")),
            Holds("new", b"one two"),
            Streams("new", &[b"1"], Is("")),
            Holds("new", b"1"),
            Link("link", "new"),
            Streams("link", &[b"by the ", b"link"], Is("")),
            Holds("new", b"by the link"),
            Streams("new", &[], Is("")),
            Holds("new", b""),
        ],
    },
    Case {
        name: "a file that cannot be written piece by piece is reported",
        acts: &[
            Streams("none/x", &[b"x"], Around("cannot write ", "/none/x")),
            MakeFolder("folder"),
            Streams("folder", &[b"x"], Around("cannot write ", "/folder")),
            Link("full", "/dev/full"),
            Streams("full", &[], Is("")),
            Streams("full", &[b"x", b"y"], Around("cannot write ", "/full")),
        ],
    },
];

#[test]
fn files_that_are_written(rt: HostRuntime) -> Result<(), Fail> {
    play(&rt, CASES)
}

/// A name of 255 bytes.
const LONG: &str =
    "01234567890123456789012345678901234567890123456789012345678901234567890123456789\
01234567890123456789012345678901234567890123456789012345678901234567890123456789\
01234567890123456789012345678901234567890123456789012345678901234567890123456789\
012345678901234";

/// Another one.
const OTHER: &str =
    "01234567890123456789012345678901234567890123456789012345678901234567890123456789\
01234567890123456789012345678901234567890123456789012345678901234567890123456789\
01234567890123456789012345678901234567890123456789012345678901234567890123456789\
01234567890123x";

const TEMPORARIES: &[Case<'_>] = &[
    Case {
        name: "a file with a long name is written",
        acts: &[
            Does(
                &[
                    Puts(LONG, Nothing),
                    Puts(OTHER, Nothing),
                    Puts("X", Nothing),
                ],
                Is(""),
            ),
            Holds(LONG, b"put"),
            Holds(OTHER, b"put"),
            Lacks(".cpmrun.new"),
            Lacks(".cpmrun.new.1"),
        ],
    },
    // The first is written beside itself, but not at the path of the last.
    Case {
        name: "a file is put at what would be a temporary path",
        acts: &[
            Does(&[Puts("X", Nothing), Puts(".X.new", Nothing)], Is("")),
            Holds("X", b"put"),
            Holds(".X.new", b"put"),
            Does(
                &[Puts("Y", Any), Puts(".Y.new", Any), Puts("Z", Any)],
                Around(
                    "cannot write ",
                    "/.Y.new: no temporary name beside it is free",
                ),
            ),
            Lacks("Y"),
        ],
    },
];

#[test]
fn files_that_have_no_temporary_path_of_their_own(rt: HostRuntime) -> Result<(), Fail> {
    play(&rt, TEMPORARIES)
}

#[test]
fn a_file_that_is_being_written_is_passed_over(rt: HostRuntime) -> Result<(), Fail> {
    assert!(rt; is_passed_over(".H.DAT.new"));
    assert!(rt; is_passed_over(".h.new"));
    Ok(())
}
