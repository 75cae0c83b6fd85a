//! Runs a CP/M 2.2 program, or replays edit lines over its session; or prints what its run asked for, or its calls and instructions, if it is
//! called by the name `cpmdeps` or `cpmtrace`.
//!
//! The crate has `main` alone, since a program of Rattle can't be a library too.
#![tactic(auto)]

use cpmrun::{
    Over, SystemFiles, Terminal, Tool, called_tool, command, program_words, report_fault,
};
use dependency_command::dependency_command;
use std::process::ExitCode;
use trace_command::trace_command;

/// Passes the words after the program's name to the command of this name. A word that is not UTF-8 is a usage error.
fn main(rt: HostRuntime) -> ExitCode {
    let tool = called_tool(&rt);
    let mut out = Over::new(rt.stdout());
    let mut err = Terminal::new(&rt, rt.stderr());
    let words = match program_words(&rt) {
        Ok(words) => words,
        Err(fault) => return ExitCode::from(report_fault(tool, fault, &mut err)),
    };
    let words = words.as_slice();
    let mut system = SystemFiles::with_streams(&rt, rt.stdout(), rt.stderr());
    ExitCode::from(match tool {
        Tool::Cpmrun => command(&mut system, words, &mut out, &mut err),
        Tool::Cpmdeps => dependency_command(&mut system, words, &mut out, &mut err),
        Tool::Cpmtrace => trace_command(&mut system, words, &mut out, &mut err),
    })
}
