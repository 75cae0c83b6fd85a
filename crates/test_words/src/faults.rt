// Help, the version, and usage errors.

use crate::fixtures::Wanted::{self, Prints, Refused};
use crate::fixtures::{Row, have_results};
use command_words::ErrorClass;
use std::test::Fail;

const MISUSE: Wanted<'_> = Refused(ErrorClass::UsageError, &[]);

const HELP: Wanted<'_> = Refused(
    ErrorClass::Information,
    &[
        "Usage: cpmrun [OPTIONS] <PROGRAM> [TAIL]",
        "--files <DIR>",
        "--files-d <DIR>",
        "--console <FILE>",
        "--limit <N>",
        "0 to 4,000,000,000; raise it if a run ends with `stop Limit` [default: 1000000; with a disk 4000000000]",
        "--disk-d <DIR>",
        "--out-b <DIR>",
        "--partial",
        "--edits <FILE>",
        "--target <NAME>",
        "--trace <FILE>",
        "1 to 1,000,000,000 [default: 10000]",
        "1 to 4,096 [default: 64]",
        "Exit status:",
        "12  out of memory",
    ],
);

const ROWS: &[Row<'_>] = &[
    (&[], MISUSE),
    (&["--limit", "5"], MISUSE),
    (&["p.com", "--unknown"], MISUSE),
    (&["p.com", "a", "b"], MISUSE),
    (&["p.com", "--limit"], MISUSE),
    (&["p.com", "--limit", "5", "--limit", "6"], MISUSE),
    (&["p.com", "--files-e", "dir"], MISUSE),
    (&["p.com", "--out", ""], MISUSE),
    (&["p.com", "--edits="], MISUSE),
    (&["p.com", "--console", ""], MISUSE),
    (&["p.com", "--typed"], MISUSE),
    (&["p.com", "--disk-b", ""], MISUSE),
    (&["p.com", "--trace", ""], MISUSE),
    (&["p.com", "--deps", "d", "--target="], MISUSE),
    (&["p.com", "--partial=true"], MISUSE),
    (&[""], MISUSE),
    (&["p.com", "-x"], MISUSE),
    (
        &["p.com", "--slots", "0"],
        Refused(ErrorClass::UsageError, &["'0'", "--slots <N>"]),
    ),
    (&["--help"], HELP),
    (&["-h"], HELP),
    (
        &["--version"],
        Prints(ErrorClass::Information, "cpmrun 1.0.0\n"),
    ),
];

#[test]
fn help_version_and_usage_errors(rt: HostRuntime) -> Result<(), Fail> {
    have_results(&rt, rt.alloc(), ROWS)
}
