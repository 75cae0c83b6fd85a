ghost use Rattle.std.specs.Prelude.{◌≡◌, false, IfOk, map};
ghost use Rattle.clap.specs.Words.{app_of, rule_of};
ghost use Rattle.command_words.specs.CommandLine.{option_rule, plain_command, positional_rules, range_rule};
ghost use Rattle.command_words.specs.CommandLine.{with_input_rules, with_rules};
ghost use Rattle.command_words.specs.Rows.{rule_of_choice};
ghost use Rattle.command_words.specs.RunLine.{run_line};
ghost use Rattle.command_words.specs.DependencyLine.{dependency_line};

use crate::help::{DEPENDENCY_ABOUT, DEPENDENCY_AFTER_HELP, RUN_ABOUT, RUN_AFTER_HELP, VERSION};
use crate::options::Choice::{Flag, Number, NumberOr, Path, Text};
use clap::builder::ValueParser;
use clap::{Arg, ArgAction, Command};
use std::alloc::{AllocError, Global};

/// An option of a command line: its name, the name of its value or the range with the default, and its help text.
#[derive(Clone, Copy)]
pub(crate) enum Choice<'a> {
    /// The value is a path, which is not empty.
    Path(&'a str, &'a str, &'a str),
    /// The value is any text.
    Text(&'a str, &'a str, &'a str),
    /// There is no value.
    Flag(&'a str, &'a str),
    /// The value is a number from the first to the second.
    Number(&'a str, u64, u64, &'a str),
    /// The same with a default.
    NumberOr(&'a str, u64, u64, &'a str, &'a str),
}

/// The option for the limit of steps.
pub(crate) const LIMIT: Choice<'_> = Number(
    "limit",
    0,
    4_000_000_000,
    "The steps after which a run stops, 0 to 4,000,000,000; raise it if a run ends with `stop Limit` \
     [default: 1000000; with a disk 4000000000]",
);

/// The options for the folders of the host files, for the disks and for the script.
const INPUTS: &[Choice<'_>] = &[
    Path(
        "files",
        "DIR",
        "Directory with the host files of drive A [default: no files]",
    ),
    Path("files-b", "DIR", "The same for drive B"),
    Path("files-c", "DIR", "The same for drive C"),
    Path("files-d", "DIR", "The same for drive D"),
    Path(
        "disk",
        "DIR",
        "Directory that is drive A: read as by --files, and changed by a run of cpmrun that stops by WarmBoot",
    ),
    Path("disk-b", "DIR", "The same for drive B"),
    Path("disk-c", "DIR", "The same for drive C"),
    Path("disk-d", "DIR", "The same for drive D"),
    Path(
        "console",
        "FILE",
        "The console input, at most 1,048,576 bytes [default: empty]",
    ),
    Text(
        "typed",
        "TEXT",
        "The console input as text with \\r, \\n, \\t, \\\\ and \\xHH; a carriage return is added if none ends it",
    ),
];

/// The options of `cpmrun` for the edit lines, for the folders of changed files, for the rule for make, for the trace, and
/// for how a run goes.
const RUN_OPTIONS: &[Choice<'_>] = &[
    Path(
        "edits",
        "FILE",
        "The edit lines to replay, each answered on standard output [default: one run]",
    ),
    Path(
        "out",
        "DIR",
        "Directory for the changed files of drive A (ignored with --edits) [default: not written]",
    ),
    Path("out-b", "DIR", "The same for drive B"),
    Path("out-c", "DIR", "The same for drive C"),
    Path("out-d", "DIR", "The same for drive D"),
    Path(
        "deps",
        "FILE",
        "File for a rule for make: what is written to DIRs, and what it depends on (not with --edits)",
    ),
    Path(
        "target",
        "NAME",
        "The target of the rule of --deps [default: the files that are written to DIRs]",
    ),
    Path(
        "trace",
        "FILE",
        "File for the calls of this run, as cpmtrace prints them (not with --edits)",
    ),
    Flag(
        "partial",
        "Change the disks whatever the stop, and not only after WarmBoot",
    ),
    Flag(
        "dry-run",
        "Change no file, and print what the run would do (not with --edits)",
    ),
    Flag(
        "explain",
        "Print where the run stopped, and what to do (ignored with --edits)",
    ),
    LIMIT,
    NumberOr(
        "spacing",
        1,
        1_000_000_000,
        "10000",
        "The steps between checkpoints, 1 to 1,000,000,000",
    ),
    NumberOr("slots", 1, 4096, "64", "The most checkpoints, 1 to 4,096"),
];

/// The options of `cpmdeps` for the form of what is printed.
const DEPENDENCY_OPTIONS: &[Choice<'_>] = &[
    LIMIT,
    Flag(
        "by-step",
        "Print neighbours that different steps asked for first on separate lines",
    ),
    Path(
        "make",
        "TARGET",
        "Print a rule for make with this target instead of the listing",
    ),
];

/// Returns the argument for an option.
fn argument<'a>(alloc: Global, option: &Choice<'a>) -> Arg<'a>
    ensures rule { rule_of result ≡ rule_of_choice option.now }
    ensures local { result.global ≡ false }
{
    match *option {
        Path(name, value, help) => {
            text_argument(alloc, name, value, help).value_parser(ValueParser::NonEmptyString)
        }
        Text(name, value, help) => text_argument(alloc, name, value, help),
        Flag(name, help) => Arg::new(alloc, name)
            .long(name)
            .action(ArgAction::SetTrue)
            .help(help),
        Number(name, least, most, help) => number_argument(alloc, name, least, most, help),
        NumberOr(name, least, most, default, help) => {
            number_argument(alloc, name, least, most, help).default_value(default)
        }
    }
}

/// Returns the argument for an option whose value is any text.
fn text_argument<'a>(alloc: Global, name: &'a str, value: &'a str, help: &'a str) -> Arg<'a>
    ensures rule { rule_of result ≡ option_rule name.entry.now }
    ensures local { result.global ≡ false }
{
    Arg::new(alloc, name)
        .long(name)
        .value_name(value)
        .help(help)
}

/// Returns the argument for an option whose value is a number of this range.
fn number_argument<'a>(
    alloc: Global,
    name: &'a str,
    least: u64,
    most: u64,
    help: &'a str,
) -> Arg<'a>
    ensures rule { rule_of result ≡ range_rule name.entry.now least most }
    ensures local { result.global ≡ false }
{
    text_argument(alloc, name, "N", help).value_parser(ValueParser::unsigned(least, most))
}

/// Adds options to a command.
pub(crate) fn with_options<'a>(
    alloc: Global,
    mut command: Command<'a>,
    options: &[Choice<'a>],
) -> Result<Command<'a>, AllocError>
    ensures { IfOk result (λ c.
        app_of c ≡ with_rules (app_of command.entry) (map rule_of_choice options.now)) }
{
    for option in options {
        command = command.arg(argument(alloc, option))?;
    }
    Ok(command)
}

/// Adds the two positional arguments to a command.
fn with_positionals<'a>(alloc: Global, command: Command<'a>) -> Result<Command<'a>, AllocError>
    ensures { IfOk result (λ c. app_of c ≡ with_rules (app_of command.entry) positional_rules) }
{
    command
        .arg(
            Arg::new(alloc, "PROGRAM")
                .required(true)
                .value_parser(ValueParser::NonEmptyString)
                .help("The .COM file to run, at most 64,512 bytes"),
        )?
        .arg(Arg::new(alloc, "TAIL").help(
            "The command tail: one word of at most 126 bytes, which may contain blanks [default: empty]",
        ))
}

/// Returns a command without arguments, whose words begin after the program's name.
pub(crate) fn plain_command<'a>(
    alloc: Global,
    name: &'a str,
    about: &'a str,
    after_help: &'a str,
) -> Command<'a>
    ensures { app_of result ≡ plain_command name.entry.now }
{
    Command::new(alloc, name)
        .no_binary_name(true)
        .version(VERSION)
        .about(about)
        .after_help(after_help)
}

/// Adds the arguments for the program, the tail, and what is read to a plain command.
pub(crate) fn with_inputs<'a>(
    alloc: Global,
    command: Command<'a>,
) -> Result<Command<'a>, AllocError>
    ensures { IfOk result (λ c. app_of c ≡ with_input_rules (app_of command.entry)) }
{
    with_options(alloc, with_positionals(alloc, command)?, INPUTS)
}

/// Returns the command line of `cpmrun`.
pub fn run_command<'a>(alloc: Global) -> Result<Command<'a>, AllocError>
    ensures { IfOk result (λ c. app_of c ≡ run_line) }
{
    let command = plain_command(alloc, "cpmrun", RUN_ABOUT, RUN_AFTER_HELP);
    with_options(alloc, with_inputs(alloc, command)?, RUN_OPTIONS)
}

/// Returns the command line of `cpmdeps`.
pub fn dependency_command<'a>(alloc: Global) -> Result<Command<'a>, AllocError>
    ensures { IfOk result (λ c. app_of c ≡ dependency_line) }
{
    let command = plain_command(alloc, "cpmdeps", DEPENDENCY_ABOUT, DEPENDENCY_AFTER_HELP);
    with_options(alloc, with_inputs(alloc, command)?, DEPENDENCY_OPTIONS)
}
