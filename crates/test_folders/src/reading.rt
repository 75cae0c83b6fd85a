// Folders that are read.

use crate::acts::Act::{HasBoth, Link, MakeFolder, Put, Tells, TellsLeft};
use crate::acts::Text::Is;
use crate::acts::{Case, play};
use std::test::Fail;

const CASES: &[Case<'_>] = &[
    Case {
        name: "regular files with names are read",
        acts: &[
            Put("b.dat", b"x"),
            Put("A.TXT", b"x"),
            Put("long.name", b"x"),
            Put("abcdefghi", b"x"),
            Put("b:c", b"x"),
            Put(".hidden", b"x"),
            Put("a+b", b"x"),
            Put("#1", b"x"),
            MakeFolder("inner"),
            Link("link", "A.TXT"),
            Tells("", Some(0), Is(" #1 A.TXT B.DAT")),
            Tells("", Some(1), Is(" B:#1 B:A.TXT B:B.DAT")),
            Tells("", Some(3), Is(" D:#1 D:A.TXT D:B.DAT")),
        ],
    },
    // New contents never have a name that no file of a run gets, and what is there need not be a file.
    Case {
        name: "what ended runs left is listed",
        acts: &[
            Put(".a.txt.new.12", b"x"),
            Tells("", Some(0), Is("")),
            TellsLeft("", Is(" .a.txt.new.12")),
            Put(".a.txt.new.", b"x"),
            Put(".a.txt.new.1x", b"x"),
            Put(".a.txt.12", b"x"),
            Put(".a.txt.newer", b"x"),
            Put(".too.long.new", b"x"),
            Put("..new", b"x"),
            Put("a.new", b"x"),
            TellsLeft("", Is(" .a.txt.new.12")),
            MakeFolder("inner"),
            MakeFolder("inner/.NEW.NEW.new"),
            TellsLeft("inner", Is(" .NEW.NEW.new")),
        ],
    },
    Case {
        name: "no folder has no file",
        acts: &[Tells("", None, Is(""))],
    },
    // The folder's path ends with a slash.
    Case {
        name: "records have the bytes of the file",
        acts: &[
            MakeFolder("both"),
            Put("both/two", &[b'y'; 130]),
            Put("both/none", b""),
            HasBoth("both/"),
        ],
    },
];

#[test]
fn folders_that_are_read(rt: HostRuntime) -> Result<(), Fail> {
    play(&rt, CASES)
}
