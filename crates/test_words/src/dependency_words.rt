// The words of `cpmdeps`.

use crate::fixtures::{has_parts, is_clash, owned};
use command_words::ErrorClass::{Information, UsageError};
use command_words::{
    DependencyWords, ErrorClass, SessionWords, error_class, read_dependency_words,
};
use std::alloc::{AllocError, Global};
use std::process::Abort;
use std::test::Fail;

// Words, and the values that are read.
#[derive(Clone, Copy)]
struct Read<'a> {
    words: &'a [&'a str],
    program: &'a str,
    tail: &'a str,
    /// The folder of each of the drives A to D, or its disk.
    files: &'a [Option<&'a str>],
    /// The options that exclude each other.
    clash: &'a [&'a str],
    console: Option<&'a str>,
    typed: Option<&'a str>,
    limit: u64,
    target: Option<&'a str>,
    by_step: bool,
}

// The word `p.com` alone.
const PROGRAM: Read<'_> = Read {
    words: &["p.com"],
    program: "p.com",
    tail: "",
    files: &[None; 4],
    clash: &[],
    console: None,
    typed: None,
    limit: 1_000_000,
    target: None,
    by_step: false,
};

const READ: &[Read<'_>] = &[
    PROGRAM,
    Read {
        words: &[
            "p.com",
            "a b",
            "--files",
            "fa",
            "--files-b=fb",
            "--files-c",
            "fc",
            "--files-d",
            "fd",
            "--console",
            "typed",
            "--limit",
            "4000000000",
        ],
        tail: "a b",
        files: &[Some("fa"), Some("fb"), Some("fc"), Some("fd")],
        console: Some("typed"),
        limit: 4_000_000_000,
        ..PROGRAM
    },
    Read {
        words: &["p.com", "--disk", "da", "--files-c", "fc", "--disk-d=dd"],
        files: &[Some("da"), None, Some("fc"), Some("dd")],
        limit: 4_000_000_000,
        ..PROGRAM
    },
    Read {
        words: &["p.com", "--disk-b", "d", "--files-b", "d", "--limit=5"],
        files: &[None, Some("d"), None, None],
        clash: &["--files-b <DIR>", "--disk-b <DIR>"],
        limit: 5,
        ..PROGRAM
    },
    Read {
        words: &["p.com", "--typed", "a\\rq"],
        typed: Some("a\\rq"),
        ..PROGRAM
    },
    Read {
        words: &["--by-step", "p.com"],
        by_step: true,
        ..PROGRAM
    },
    Read {
        words: &["p.com", "--make", "a b.d"],
        target: Some("a b.d"),
        ..PROGRAM
    },
    Read {
        words: &["p.com", "--make=made", "--by-step"],
        target: Some("made"),
        by_step: true,
        clash: &["--make <TARGET>", "--by-step"],
        ..PROGRAM
    },
    Read {
        words: &["p.com", "--", "--by-step"],
        tail: "--by-step",
        ..PROGRAM
    },
];

// Words, with the meaning of their error, and parts of its text.
type Unread<'a> = (&'a [&'a str], ErrorClass, &'a [&'a str]);

const UNREAD: &[Unread<'_>] = &[
    (&[], UsageError, &["Usage: cpmdeps", "<PROGRAM>"]),
    (&["p.com", "a", "b"], UsageError, &[]),
    (&["p.com", "--make"], UsageError, &["--make <TARGET>"]),
    (&["p.com", "--make="], UsageError, &["--make <TARGET>"]),
    (
        &["p.com", "--files-b", ""],
        UsageError,
        &["--files-b <DIR>"],
    ),
    (&[""], UsageError, &["<PROGRAM>"]),
    (&["p.com", "--by-step=true"], UsageError, &[]),
    (&["p.com", "--by-step", "--by-step"], UsageError, &[]),
    (&["p.com", "--limit", "4000000001"], UsageError, &[]),
    (&["p.com", "--out", "changed"], UsageError, &[]),
    (&["p.com", "--disk-c", ""], UsageError, &["--disk-c <DIR>"]),
    (&["p.com", "--partial"], UsageError, &[]),
    (&["p.com", "--trace", "t"], UsageError, &[]),
    (&["p.com", "--edits", "lines"], UsageError, &[]),
    (&["p.com", "--slots", "4"], UsageError, &[]),
    (
        &["--help"],
        Information,
        &[
            "Usage: cpmdeps [OPTIONS] <PROGRAM> [TAIL]",
            "--files <DIR>",
            "--files-d <DIR>",
            "--disk-d <DIR>",
            "--console <FILE>",
            "--limit <N>",
            "--by-step",
            "--make <TARGET>",
            "Exit status:",
            "12  out of memory",
        ],
    ),
    (&["--version"], Information, &["cpmdeps 1.0.0\n"]),
];

fn are_same(folders: &[Option<&str>], wanted: &[Option<&str>]) -> bool {
    folders == wanted
}

fn has_same_inputs(read: &SessionWords<'_>, wanted: &Read<'_>) -> bool {
    are_same(&read.files, wanted.files)
        && read.console == wanted.console
        && read.typed == wanted.typed
}

fn is_same_session(read: &SessionWords<'_>, wanted: &Read<'_>) -> bool {
    read.program == wanted.program
        && read.tail == wanted.tail
        && has_same_inputs(read, wanted)
        && read.limit == wanted.limit
}

fn is_read(read: &DependencyWords<'_>, wanted: &Read<'_>) -> bool {
    is_same_session(&read.session, wanted)
        && read.target == wanted.target
        && read.by_step == wanted.by_step
        && is_clash(read.clash(), wanted.clash)
}

fn compare_read(rt: &impl Abort, alloc: Global, wanted: &Read<'_>) -> Result<(), AllocError> {
    let list = owned(alloc, wanted.words)?;
    let is_same = match read_dependency_words(alloc, list.as_slice()) {
        Ok(words) => is_read(&words, wanted),
        Err(_) => false,
    };
    assert!(rt; is_same, "{:?}", wanted.words);
    Ok(())
}

fn compare_unread(rt: &impl Abort, alloc: Global, row: &Unread<'_>) -> Result<(), AllocError> {
    let (words, class, parts) = row;
    let list = owned(alloc, words)?;
    if let Err(error) = read_dependency_words(alloc, list.as_slice()) {
        let text = format!(in alloc; "{error}")?;
        let is_same = error_class(&error) == *class && has_parts(text.as_str(), parts);
        assert!(rt; is_same, "{words:?} {text}");
    } else {
        assert!(rt; false, "{words:?} are read");
    }
    Ok(())
}

#[test]
fn words_of_cpmdeps_are_read(rt: HostRuntime) -> Result<(), Fail> {
    for row in READ {
        compare_read(&rt, rt.alloc(), row)?;
    }
    Ok(())
}

#[test]
fn help_version_and_usage_errors_of_cpmdeps(rt: HostRuntime) -> Result<(), Fail> {
    for row in UNREAD {
        compare_unread(&rt, rt.alloc(), row)?;
    }
    Ok(())
}
