// The results of words that a caller gives.

use command_words::{Clash, ErrorClass, Words, error_class, read_words};
use std::alloc::{AllocError, Global};
use std::process::Abort;
use std::test::Fail;

/// The result of reading words: the fields of `Words`.
#[derive(Clone, Copy)]
pub struct Fields<'a> {
    pub program: &'a str,
    pub tail: &'a str,
    /// For the drives A to D.
    pub files: &'a [Option<&'a str>],
    pub console: Option<&'a str>,
    pub typed: Option<&'a str>,
    pub limit: u64,
    /// For the drives A to D.
    pub out: &'a [Option<&'a str>],
    /// For the drives A to D.
    pub disk: &'a [Option<&'a str>],
    pub partial: bool,
    pub dry_run: bool,
    pub explain: bool,
    pub edits: Option<&'a str>,
    pub deps: Option<&'a str>,
    pub target: Option<&'a str>,
    pub trace: Option<&'a str>,
    pub spacing: u64,
    pub slots: usize,
}

/// The expected result of words.
#[derive(Clone, Copy)]
pub enum Wanted<'a> {
    /// Words that are read, with these values.
    Read(&'a Fields<'a>),
    /// Words that are not read, with the meaning of their error, and parts of its text.
    Refused(ErrorClass, &'a [&'a str]),
    /// Words that are not read, with the meaning of their error, and its whole text.
    Prints(ErrorClass, &'a str),
}

/// Words, and the expected result.
pub type Row<'a> = (&'a [&'a str], Wanted<'a>);

/// The values of the word `p.com` alone.
pub const PROGRAM: Fields<'_> = Fields {
    program: "p.com",
    tail: "",
    files: &[None; 4],
    console: None,
    typed: None,
    limit: 1_000_000,
    out: &[None; 4],
    disk: &[None; 4],
    partial: false,
    dry_run: false,
    explain: false,
    edits: None,
    deps: None,
    target: None,
    trace: None,
    spacing: 10_000,
    slots: 64,
};

// Words that are read, with these values, and the others of the word `p.com` alone.
macro_rules! read {
    ($($field:ident: $value:expr),+) => {
        $crate::fixtures::Wanted::Read(&$crate::fixtures::Fields {
            $($field: $value,)+
            ..$crate::fixtures::PROGRAM
        })
    };
}

pub(crate) use read;

/// Returns words that own their texts.
pub fn owned(alloc: Global, words: &[&str]) -> Result<Vec<String>, AllocError> {
    let mut list = Vec::new(alloc);
    for word in words {
        list.push(String::from_str(alloc, word)?)?;
    }
    Ok(list)
}

fn are_same(folders: &[Option<&str>], wanted: &[Option<&str>]) -> bool {
    folders == wanted
}

fn has_same_files(words: &Words<'_>, wanted: &Fields<'_>) -> bool {
    are_same(&words.files, wanted.files)
        && are_same(&words.out, wanted.out)
        && are_same(&words.disk, wanted.disk)
        && words.partial == wanted.partial
        && words.dry_run == wanted.dry_run
        && words.explain == wanted.explain
        && words.console == wanted.console
        && words.typed == wanted.typed
        && words.edits == wanted.edits
}

fn has_same_reports(words: &Words<'_>, wanted: &Fields<'_>) -> bool {
    words.deps == wanted.deps && words.target == wanted.target && words.trace == wanted.trace
}

fn has_same_numbers(words: &Words<'_>, wanted: &Fields<'_>) -> bool {
    words.limit == wanted.limit && words.spacing == wanted.spacing && words.slots == wanted.slots
}

fn is_read(words: &Words<'_>, wanted: Wanted<'_>) -> bool {
    match wanted {
        Wanted::Read(wanted) => {
            words.program == wanted.program
                && words.tail == wanted.tail
                && has_same_files(words, wanted)
                && has_same_reports(words, wanted)
                && has_same_numbers(words, wanted)
        }
        _ => false,
    }
}

/// Whether this is the clash that is wanted: no option, the one that is missing, or the two that exclude each other.
pub fn is_clash(found: Option<Clash>, wanted: &[&str]) -> bool {
    match (found, wanted) {
        (Some(Clash::Both(first, second)), [a, b]) => first == *a && second == *b,
        (Some(Clash::Missing(option)), [a]) => option == *a,
        (None, []) => true,
        _ => false,
    }
}

/// Whether a text has each of these parts.
pub fn has_parts(text: &str, parts: &[&str]) -> bool {
    for part in parts {
        if !text.contains(*part) {
            return false;
        }
    }
    true
}

fn is_refused(outcome: ErrorClass, text: &str, wanted: Wanted<'_>) -> bool {
    match wanted {
        Wanted::Read(_) => false,
        Wanted::Refused(wanted, parts) => outcome == wanted && has_parts(text, parts),
        Wanted::Prints(wanted, whole) => outcome == wanted && text == whole,
    }
}

fn compare_words(rt: &impl Abort, read: &Words<'_>, row: &Row<'_>) {
    let (words, wanted) = row;
    assert!(rt; is_read(read, *wanted), "{words:?}");
}

fn compare_error(rt: &impl Abort, outcome: ErrorClass, text: &str, row: &Row<'_>) {
    let (words, wanted) = row;
    assert!(rt;
        is_refused(outcome, text, *wanted),
        "{words:?} {outcome:?} {text}"
    );
}

fn compare(
    rt: &impl Abort,
    alloc: Global,
    list: &[String],
    row: &Row<'_>,
) -> Result<(), AllocError> {
    match read_words(alloc, list) {
        Ok(words) => compare_words(rt, &words, row),
        Err(error) => {
            let text = format!(in alloc; "{error}")?;
            compare_error(rt, error_class(&error), text.as_str(), row);
        }
    }
    Ok(())
}

/// Checks that the words of each row have the expected result.
pub fn have_results(rt: &impl Abort, alloc: Global, rows: &[Row<'_>]) -> Result<(), Fail> {
    for row in rows {
        let list = owned(alloc, row.0)?;
        compare(rt, alloc, list.as_slice(), row)?;
    }
    Ok(())
}
