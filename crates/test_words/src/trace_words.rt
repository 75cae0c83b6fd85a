// The words of `cpmtrace`.

use crate::fixtures::{has_parts, is_clash, owned};
use command_words::ErrorClass::{Information, UsageError};
use command_words::{Clash, ErrorClass, SessionWords, TraceWords, error_class, read_trace_words};
use std::alloc::{AllocError, Global};
use std::process::Abort;
use std::test::Fail;

// Words, and the values that are read.
#[derive(Clone, Copy)]
struct Read<'a> {
    words: &'a [&'a str],
    program: &'a str,
    tail: &'a str,
    /// The folder of each of the drives A to D, or its disk.
    files: &'a [Option<&'a str>],
    typed: Option<&'a str>,
    limit: u64,
    steps: bool,
    from: Option<u64>,
    to: Option<u64>,
    at: Option<&'a str>,
    writes: Option<&'a str>,
    reads: Option<&'a str>,
    file: Option<&'a str>,
    last: Option<u64>,
}

// The word `p.com` alone.
const PROGRAM: Read<'_> = Read {
    words: &["p.com"],
    program: "p.com",
    tail: "",
    files: &[None; 4],
    typed: None,
    limit: 1_000_000,
    steps: false,
    from: None,
    to: None,
    at: None,
    writes: None,
    reads: None,
    file: None,
    last: None,
};

const READ: &[Read<'_>] = &[
    PROGRAM,
    Read {
        words: &["p.com", "a b", "--typed=q", "--limit", "0", "--steps"],
        tail: "a b",
        typed: Some("q"),
        limit: 0,
        steps: true,
        ..PROGRAM
    },
    Read {
        words: &["p.com", "--files", "fa", "--disk-b", "db"],
        files: &[Some("fa"), Some("db"), None, None],
        limit: 4_000_000_000,
        ..PROGRAM
    },
    Read {
        words: &[
            "--from", "0", "--to", "0", "--at", "fe06", "--last", "1", "p.com",
        ],
        from: Some(0),
        to: Some(0),
        at: Some("fe06"),
        last: Some(1),
        ..PROGRAM
    },
    Read {
        words: &[
            "p.com",
            "--from=4000000000",
            "--to=4000000000",
            "--last=4000000000",
        ],
        from: Some(4_000_000_000),
        to: Some(4_000_000_000),
        last: Some(4_000_000_000),
        ..PROGRAM
    },
    Read {
        words: &["p.com", "--writes", "100-1FF", "--file", "b:names.txt"],
        writes: Some("100-1FF"),
        file: Some("b:names.txt"),
        ..PROGRAM
    },
    Read {
        words: &["p.com", "--reads", "0", "--at="],
        reads: Some("0"),
        at: Some(""),
        ..PROGRAM
    },
];

// Words, with the meaning of their error, and parts of its text.
type Unread<'a> = (&'a [&'a str], ErrorClass, &'a [&'a str]);

const UNREAD: &[Unread<'_>] = &[
    (&[], UsageError, &["Usage: cpmtrace", "<PROGRAM>"]),
    (&["p.com", "a", "b"], UsageError, &[]),
    (
        &["p.com", "--from", "4000000001"],
        UsageError,
        &["'4000000001'", "--from <N>", "0..=4000000000"],
    ),
    (&["p.com", "--to", "-1"], UsageError, &[]),
    (
        &["p.com", "--last", "0"],
        UsageError,
        &["'0'", "--last <N>", "1..=4000000000"],
    ),
    (&["p.com", "--last", "4000000001"], UsageError, &[]),
    (&["p.com", "--steps=true"], UsageError, &[]),
    (&["p.com", "--at"], UsageError, &["--at <ADDR>"]),
    (&["p.com", "--by-step"], UsageError, &[]),
    (&["p.com", "--out", "changed"], UsageError, &[]),
    (&["p.com", "--trace", "t"], UsageError, &[]),
    (
        &["--help"],
        Information,
        &[
            "Usage: cpmtrace [OPTIONS] <PROGRAM> [TAIL]",
            "--files-d <DIR>",
            "--disk-d <DIR>",
            "--limit <N>",
            "--steps",
            "--from <N>",
            "--to <N>",
            "--at <ADDR>",
            "--writes <RANGE>",
            "--reads <RANGE>",
            "--file <NAME>",
            "--last <N>",
            "Exit status:",
            "12  out of memory",
        ],
    ),
    (&["--version"], Information, &["cpmtrace 1.0.0\n"]),
];

fn is_same_session(read: &SessionWords<'_>, wanted: &Read<'_>) -> bool {
    read.program == wanted.program
        && read.tail == wanted.tail
        && read.files.as_slice() == wanted.files
        && read.limit == wanted.limit
}

fn has_same_numbers(read: &TraceWords<'_>, wanted: &Read<'_>) -> bool {
    read.from == wanted.from && read.to == wanted.to && read.last == wanted.last
}

fn has_same_texts(read: &TraceWords<'_>, wanted: &Read<'_>) -> bool {
    read.session.typed == wanted.typed
        && read.at == wanted.at
        && read.writes == wanted.writes
        && read.reads == wanted.reads
        && read.file == wanted.file
}

fn is_read(read: &TraceWords<'_>, wanted: &Read<'_>) -> bool {
    is_same_session(&read.session, wanted)
        && read.steps == wanted.steps
        && has_same_numbers(read, wanted)
        && has_same_texts(read, wanted)
}

fn compare_read(rt: &impl Abort, alloc: Global, wanted: &Read<'_>) -> Result<(), AllocError> {
    let list = owned(alloc, wanted.words)?;
    let is_same = match read_trace_words(alloc, list.as_slice()) {
        Ok(words) => is_read(&words, wanted),
        Err(_) => false,
    };
    assert!(rt; is_same, "{:?}", wanted.words);
    Ok(())
}

fn compare_unread(rt: &impl Abort, alloc: Global, row: &Unread<'_>) -> Result<(), AllocError> {
    let (words, class, parts) = row;
    let list = owned(alloc, words)?;
    if let Err(error) = read_trace_words(alloc, list.as_slice()) {
        let text = format!(in alloc; "{error}")?;
        let is_same = error_class(&error) == *class && has_parts(text.as_str(), parts);
        assert!(rt; is_same, "{words:?} {text}");
    } else {
        assert!(rt; false, "{words:?} are read");
    }
    Ok(())
}

// Returns the two options of the words that exclude each other, if there are such.
fn clash_of(alloc: Global, words: &[&str]) -> Result<Option<Clash>, AllocError> {
    let list = owned(alloc, words)?;
    match read_trace_words(alloc, list.as_slice()) {
        Ok(words) => Ok(words.clash()),
        Err(_) => Err(AllocError),
    }
}

#[test]
fn words_of_cpmtrace_are_read(rt: HostRuntime) -> Result<(), Fail> {
    for row in READ {
        compare_read(&rt, rt.alloc(), row)?;
    }
    Ok(())
}

#[test]
fn help_version_and_usage_errors_of_cpmtrace(rt: HostRuntime) -> Result<(), Fail> {
    for row in UNREAD {
        compare_unread(&rt, rt.alloc(), row)?;
    }
    Ok(())
}

#[test]
fn options_of_cpmtrace_that_exclude_others(rt: HostRuntime) -> Result<(), Fail> {
    let script = clash_of(rt.alloc(), &["p.com", "--typed", "q", "--console", "c"])?;
    assert!(rt; is_clash(script, &["--console <FILE>", "--typed <TEXT>"]));
    let drive = clash_of(rt.alloc(), &["p.com", "--disk-d", "d", "--files-d", "f"])?;
    assert!(rt; is_clash(drive, &["--files-d <DIR>", "--disk-d <DIR>"]));
    let one = clash_of(rt.alloc(), &["p.com", "--console", "c", "--disk", "d"])?;
    assert!(rt; one.is_none());
    Ok(())
}
