//! A program with the runner in it: it runs a session, edits the script, and runs the session again.
//!
//! The 8080 program counts from 250 down to 0, takes a byte from the console, and prints it once more. This program prints a line
//! for each run: the text, the cause of the stop, the number of steps, and how many of them the run executed. The second run
//! resumes from the last checkpoint before the step that takes the byte.
//!
//! - `session`: a session and its runner, a run, and an edit
//!
//! It makes the calls of the examples in the comments at `Session::new` and `Runner`, which are not compiled.
#![tactic(auto)]

mod session;

use machine::Meter;
use session::{Error, replace_script, run, runner_of};
use std::process::ExitCode;

/// `MVI B,250`; `DCR B`; `JNZ 0102H`; call 1, which takes a byte and prints it; call 2, which prints the byte in E; `RET`.
const PROGRAM: &[u8] = &[
    0x06, 0xfa, 0x05, 0xc2, 0x02, 0x01, 0x0e, 0x01, 0xcd, 0x05, 0x00, 0x5f, 0x0e, 0x02, 0xcd, 0x05,
    0x00, 0xc9,
];

fn answer(rt: &(impl Print + AllocGlobal)) -> Result<(), Error> {
    let alloc = rt.alloc();
    let mut runner = runner_of(alloc, PROGRAM, b"H")?;
    let mut meter = Meter::new();
    run(rt, &mut runner, &mut meter)?;
    replace_script(alloc, &mut runner, 0, b"I")?;
    run(rt, &mut runner, &mut meter)
}

/// Exits with status 0 if both runs were executed, and 1 otherwise.
fn main(rt: HostRuntime) -> ExitCode {
    match answer(&rt) {
        Ok(()) => ExitCode::SUCCESS,
        Err(_) => ExitCode::from(1),
    }
}
