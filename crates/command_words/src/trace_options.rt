// The command line of `cpmtrace` as a command of `clap`.

ghost use Rattle.std.specs.Prelude.{◌≡◌, IfOk};
ghost use Rattle.clap.specs.Words.{app_of};
ghost use Rattle.command_words.specs.TraceLine.{trace_line};

use crate::help::{TRACE_ABOUT, TRACE_AFTER_HELP};
use crate::options::Choice::{Flag, Number, Text};
use crate::options::{Choice, LIMIT, plain_command, with_inputs, with_options};
use clap::Command;
use std::alloc::{AllocError, Global};

/// The options of `cpmtrace` that choose the steps that have lines.
const TRACE_OPTIONS: &[Choice<'_>] = &[
    LIMIT,
    Flag("steps", "Also print a line for each instruction"),
    Number(
        "from",
        0,
        4_000_000_000,
        "Only steps N and later, 0 to 4,000,000,000; the first step is 0",
    ),
    Number(
        "to",
        0,
        4_000_000_000,
        "Only steps N and earlier, 0 to 4,000,000,000",
    ),
    Text(
        "at",
        "ADDR",
        "Only steps at this address: 1 to 4 hexadecimal digits, FE06 for a call",
    ),
    Text(
        "writes",
        "RANGE",
        "Only steps that write to this range of memory: ADDR, or ADDR-ADDR with both ends included",
    ),
    Text(
        "reads",
        "RANGE",
        "Only steps that read from this range of memory; an instruction also reads its own bytes",
    ),
    Text(
        "file",
        "NAME",
        "Only calls that name this file, such as b:names.txt; drive A without a letter",
    ),
    Number(
        "last",
        1,
        4_000_000_000,
        "Only the last N of these lines, 1 to 4,000,000,000",
    ),
];

/// Returns the command line of `cpmtrace`.
pub fn trace_command<'a>(alloc: Global) -> Result<Command<'a>, AllocError>
    ensures { IfOk result (λ c. app_of c ≡ trace_line) }
{
    let command = plain_command(alloc, "cpmtrace", TRACE_ABOUT, TRACE_AFTER_HELP);
    with_options(alloc, with_inputs(alloc, command)?, TRACE_OPTIONS)
}
