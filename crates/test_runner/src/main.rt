//! Runs sessions over `Runner` by the commands of a file, for the cases in `tests/cases`, and prints the answers. If an allocation
//! fails, the runner must be unchanged, and the command is executed again.
//!
//! - `driving`: the execution of commands; a command is executed again if an allocation fails
//! - `beginning`, `asking`: the session of a command; questions about it and about its run
//! - `words`, `pieces`: the words of a command; a reader over a text
//! - `telling`: reports and bytes, printed
//! - `standing`, `trouble`: a snapshot of a runner; why the commands are given up
#![tactic(auto)]

mod asking;
mod beginning;
mod driving;
mod pieces;
mod standing;
mod telling;
mod trouble;
mod words;

use std::process::ExitCode;
use std::rt::{Env, Files};
use std::{env, io};
use trouble::Trouble;

// Returns the first word after the program's name.
fn path_of<R: Env + AllocGlobal>(rt: &R) -> io::Result<Option<String>> {
    Ok(env::args(rt)?.nth(1))
}

// Returns the first word. If an allocation fails, asks for it again.
fn path_in_memory<R: Env + Print + AllocGlobal>(rt: &R) -> Result<Option<String>, Trouble> {
    if let Ok(path) = path_of(rt) {
        return Ok(path);
    }
    println!(rt; "out of memory")?;
    Ok(path_of(rt)?)
}

// Executes the commands of the file that the first word names.
fn execute<R: Env + Print + Files + AllocGlobal>(rt: &R) -> Result<(), Trouble> {
    match path_in_memory(rt)? {
        Some(path) => driving::drive(rt, path.as_str()),
        None => Err(Trouble::Words),
    }
}

/// Exits with status 0 after the last command, and with 1 if the commands are given up. The last line of output is `ok`, or why.
fn main(rt: HostRuntime) -> io::Result<ExitCode> {
    match execute(&rt) {
        Ok(()) => {
            println!(rt; "ok")?;
            Ok(ExitCode::SUCCESS)
        }
        Err(trouble) => {
            println!(rt; "{}", trouble.text())?;
            Ok(ExitCode::from(1))
        }
    }
}
