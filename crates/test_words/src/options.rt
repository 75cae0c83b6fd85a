// Each option, and its default.

use crate::fixtures::{Row, have_results, is_clash, owned, read};
use command_words::read_words;
use std::alloc::{AllocError, Global};
use std::test::Fail;

const ROWS: &[Row<'_>] = &[
    (&["p.com"], read!(program: "p.com")),
    (
        &["--limit", "5", "p.com", "a.txt  b.txt"],
        read!(tail: "a.txt  b.txt", limit: 5),
    ),
    (
        &["p.com", "--slots", "7", "--", "-x --limit"],
        read!(tail: "-x --limit", slots: 7),
    ),
    (
        &[
            "p.com",
            "--files-d",
            "fd",
            "--files-b",
            "fb",
            "--files",
            "fa",
            "--files-c",
            "fc",
            "--out-c",
            "oc",
            "--out",
            "oa",
            "--out-d",
            "od",
            "--out-b",
            "ob",
        ],
        read!(
            files: &[Some("fa"), Some("fb"), Some("fc"), Some("fd")],
            out: &[Some("oa"), Some("ob"), Some("oc"), Some("od")]
        ),
    ),
    (
        &["--console=typed", "p.com", "--edits", "lines"],
        read!(console: Some("typed"), edits: Some("lines")),
    ),
    (&["p.com", "--typed", ""], read!(typed: Some(""))),
    (&["p.com", "--typed=-a\\r"], read!(typed: Some("-a\\r"))),
    (
        &[
            "--disk-c",
            "dc",
            "--disk",
            "da",
            "p.com",
            "--disk-d=dd",
            "--disk-b",
            "db",
        ],
        read!(
            disk: &[Some("da"), Some("db"), Some("dc"), Some("dd")],
            limit: 4_000_000_000
        ),
    ),
    (
        &["p.com", "--partial", "--disk-d", "dd", "--limit", "1000000"],
        read!(disk: &[None, None, None, Some("dd")], partial: true),
    ),
    (
        &["p.com", "--dry-run", "--explain", "--out-b", "o"],
        read!(out: &[None, Some("o"), None, None], dry_run: true, explain: true),
    ),
    (
        &["--deps", "p.d", "p.com", "--out", "oa", "--target=p out"],
        read!(
            out: &[Some("oa"), None, None, None],
            deps: Some("p.d"),
            target: Some("p out")
        ),
    ),
    (
        &["p.com", "--trace", "/dev/null"],
        read!(trace: Some("/dev/null")),
    ),
];

#[test]
fn each_option_has_its_value(rt: HostRuntime) -> Result<(), Fail> {
    have_results(&rt, rt.alloc(), ROWS)
}

// Words of which some exclude or lack others, and the options that a usage error names.
type Clashing<'a> = (&'a [&'a str], &'a [&'a str]);

const CLASHES: &[Clashing<'_>] = &[
    (&["p.com", "--console", "c", "--disk", "d"], &[]),
    (&["p.com", "--files", "f", "--disk-b", "d"], &[]),
    (&["p.com", "--edits", "e", "--typed", "t"], &[]),
    (
        &["p.com", "--typed", "t", "--console", "c"],
        &["--console <FILE>", "--typed <TEXT>"],
    ),
    (
        &["p.com", "--deps", "d", "--edits", "e"],
        &["--edits <FILE>", "--deps <FILE>"],
    ),
    (
        &["p.com", "--trace", "t", "--edits", "e"],
        &["--edits <FILE>", "--trace <FILE>"],
    ),
    (&["p.com", "--trace", "t", "--deps", "d"], &[]),
    (&["p.com", "--target", "t"], &["--deps <FILE>"]),
    (&["p.com", "--target", "t", "--deps", "d"], &[]),
    (
        &["p.com", "--files", "f", "--disk", "d"],
        &["--files <DIR>", "--disk <DIR>"],
    ),
    (
        &["p.com", "--files-c", "f", "--disk-c", "d"],
        &["--files-c <DIR>", "--disk-c <DIR>"],
    ),
    (
        &["p.com", "--out-b", "o", "--disk-b", "d"],
        &["--out-b <DIR>", "--disk-b <DIR>"],
    ),
    (
        &["p.com", "--out-d", "o", "--disk-d", "d"],
        &["--out-d <DIR>", "--disk-d <DIR>"],
    ),
];

// Returns whether the words have this clash.
fn has_clash(alloc: Global, row: &Clashing<'_>) -> Result<bool, AllocError> {
    let words = owned(alloc, row.0)?;
    match read_words(alloc, words.as_slice()) {
        Ok(words) => Ok(is_clash(words.clash(), row.1)),
        Err(_) => Ok(false),
    }
}

#[test]
fn options_that_exclude_others(rt: HostRuntime) -> Result<(), Fail> {
    for row in CLASHES {
        assert!(rt; has_clash(rt.alloc(), row)?);
    }
    Ok(())
}

// Returns whether a drive is read from its disk, unless it has a folder of host files.
fn reads_from_disks(alloc: Global) -> Result<bool, AllocError> {
    let words = owned(
        alloc,
        &["p.com", "--disk", "da", "--files-c", "fc", "--disk-d", "dd"],
    )?;
    match read_words(alloc, words.as_slice()) {
        Ok(words) => Ok(words.session().files == [Some("da"), None, Some("fc"), Some("dd")]),
        Err(_) => Ok(false),
    }
}

#[test]
fn disks_are_read(rt: HostRuntime) -> Result<(), Fail> {
    assert!(rt; reads_from_disks(rt.alloc())?);
    Ok(())
}
