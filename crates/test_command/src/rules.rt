// Runs that write a rule for make.

use crate::fixtures::Act::{Ask, Find, Put};
use crate::fixtures::Wanted::{Answer, NoRoom, NoRoomOnDisk, Parts, Untold};
use crate::fixtures::{Act, HI, TAKE, play};
use std::test::Fail;
use test_sessions::program;

// Makes the file that the second word of the tail names, and then the one that the first word names.
const MAKE: &[u8] = &program![MVI C,22; LXI D,0x006C; CALL 5; MVI C,22; LXI D,0x005C; CALL 5; RET;];

// Makes the file that the first word of the tail names, and prints `Hi`.
const HI_MADE: &[u8] = &program![
    MVI C,22; LXI D,0x005C; CALL 5; MVI C,9; LXI D,0x0111; CALL 5; RET; DB b'H',b'i',b'$';
];

// Deletes the file that the first word of the tail names, makes it again, and prints `Hi`.
const HI_REMADE: &[u8] = &program![
    MVI C,19; LXI D,0x005C; CALL 5; MVI C,22; LXI D,0x005C; CALL 5; MVI C,9; LXI D,0x0119; CALL 5; RET;
    DB b'H',b'i',b'$';
];

const TARGETS: &[Act<'_>] = &[
    Put("m.com", MAKE),
    Ask(
        &["@/m.com", "b.txt a.txt", "--out", "@", "--deps", "@/d"],
        Answer(0, "", "stop WarmBoot\n"),
    ),
    Find("A.TXT", Some("")),
    Find("B.TXT", Some("")),
    Find(
        "d",
        Some("@/A.TXT @/B.TXT: @/m.com\n# not there: A.TXT\n# not there: B.TXT\n"),
    ),
    Find(".d.new", None),
];

// The folder that is written is the one that is read: no target depends on itself.
const DISK: &[Act<'_>] = &[
    Put("m.com", HI_REMADE),
    Put("x.txt", b"old"),
    Ask(
        &["@/m.com", "x.txt", "--disk", "@", "--deps", "@/.d"],
        Answer(0, "Hi", "stop WarmBoot\n"),
    ),
    Find("x.txt", Some("")),
    Find(".d", Some("@/x.txt: @/m.com\n")),
    Ask(
        &["@/m.com", "y.txt", "--disk", "@", "--deps", "@/.d"],
        NoRoomOnDisk(1),
    ),
    Find("y.txt", None),
    Find(".d", Some("@/x.txt: @/m.com\n")),
];

// A disk is no other folder of the run. Without a disk, the folder that is written may be one that is read.
const SAME_FOLDER: &[Act<'_>] = &[
    Put("m.com", HI_MADE),
    Ask(
        &["@/m.com", "x.txt", "--disk", "@", "--out-d", "@"],
        Parts(
            1,
            &[],
            &["<DIR>' cannot be used with '--", "both are the same folder"],
        ),
    ),
    Find("x.txt", None),
    Find("X.TXT", None),
    Ask(
        &["@/m.com", "x.txt", "--files", "@", "--out", "@"],
        Answer(0, "Hi", "stop WarmBoot\n"),
    ),
    Find("X.TXT", Some("")),
];

const NO_FILES: &[Act<'_>] = &[
    Put("p3.com", HI),
    Put("typed", b"xy"),
    Put("take.com", TAKE),
    Ask(
        &["@/p3.com", "--deps", "@/d"],
        Answer(0, "Hi", "stop WarmBoot\n"),
    ),
    Find("d", Some("@/d: @/p3.com\n")),
    Ask(
        &["@/p3.com", "--limit", "5", "--deps", "@/d"],
        Answer(3, "Hi", "stop Limit\n"),
    ),
    Find("d", Some("@/d: @/p3.com\n# stop Limit\n")),
    Ask(
        &["@/take.com", "--console", "@/typed", "--deps", "@/d"],
        Answer(0, "x", "stop WarmBoot\n"),
    ),
    Find("d", Some("@/d: @/take.com @/typed\n@/typed:\n")),
];

const BOTH: &[Act<'_>] = &[
    Ask(
        &["@/none", "--edits", "@/none", "--deps", "@/d"],
        Parts(
            1,
            &[],
            &["error: the argument '--edits <FILE>' cannot be used with '--deps <FILE>'"],
        ),
    ),
    Find("d", None),
];

// Each path that no rule can have is refused before anything is read.
const REFUSED: &[Act<'_>] = &[
    Ask(
        &["@/none", "--deps", "d:"],
        Answer(1, "", "cpmrun: a rule for make cannot have the path d:\n"),
    ),
    Ask(
        &["p%", "--deps", "@/d"],
        Answer(1, "", "cpmrun: a rule for make cannot have the path p%\n"),
    ),
    Ask(
        &["@/none", "--console", "c*", "--deps", "@/d"],
        Answer(1, "", "cpmrun: a rule for make cannot have the path c*\n"),
    ),
    Ask(
        &["@/none", "--files-c", "f;", "--deps", "@/d"],
        Answer(1, "", "cpmrun: a rule for make cannot have the path f;\n"),
    ),
    Ask(
        &["@/none", "--out-d", "o=", "--deps", "@/d"],
        Answer(1, "", "cpmrun: a rule for make cannot have the path o=\n"),
    ),
    Ask(
        &["@/none", "--out-d", "o="],
        Answer(1, "", "cpmrun: cannot read @/none\n"),
    ),
];

// What was written before an error stays, and nothing is written after it.
const ERRORS: &[Act<'_>] = &[
    Put("m.com", HI_MADE),
    Put("d", b"old"),
    Ask(
        &["@/m.com", "x.txt", "--out", "@", "--deps", "@/none/d"],
        Answer(1, "Hi", "cpmrun: cannot write @/none/d\n"),
    ),
    Find("X.TXT", Some("")),
    Ask(
        &["@/m.com", "x.txt", "--out", "@/none", "--deps", "@/d"],
        Parts(1, &["Hi"], &["cpmrun: cannot write ", "/none/X.TXT"]),
    ),
    Find("d", Some("old")),
    Ask(
        &["@/m.com", "y.txt", "--out", "@", "--deps", "@/d"],
        NoRoom(1),
    ),
    Find("Y.TXT", None),
    Find("d", Some("old")),
    Ask(
        &["@/m.com", "z.txt", "--out", "@", "--deps", "@/d"],
        Untold(3, 0),
    ),
    Find("d", Some("@/Z.TXT: @/m.com\n# not there: Z.TXT\n")),
];

#[test]
fn runs_that_write_a_rule(rt: HostRuntime) -> Result<(), Fail> {
    play(
        &rt,
        &[
            ("the targets are the files in order", TARGETS),
            ("no target depends on itself", DISK),
            ("a folder is written and read", SAME_FOLDER),
            ("the rule is its own target", NO_FILES),
            ("edit lines have no rule", BOTH),
            ("a path is refused", REFUSED),
            ("an error ends the run", ERRORS),
        ],
    )
}
