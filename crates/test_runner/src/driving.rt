// Sessions driven by the commands of a file. If an allocation fails, the runner must be unchanged, and the command is executed again.

use crate::asking::ask;
use crate::beginning::begin;
use crate::pieces::Pieces;
use crate::standing::{SLOTS, Standing};
use crate::telling::{write_line, write_report};
use crate::trouble::Trouble;
use crate::words::{bytes, number, words_of};
use edit_lines::{Command, Over, ReplayFault, parse_line, replay};
use machine::Meter;
use replay::{Edit, EditError, Runner};
use std::alloc::Global;
use std::rt::Files;
use std::{fs, io};

// Returns whether an edit may need memory.
fn takes_memory(edit: &Edit) -> bool {
    matches!(edit, Edit::Insert(_, _) | Edit::SetFile(_, _))
}

// Makes an edit, and prints the reply. If an allocation fails, session and checkpoints must be unchanged.
fn make_edit(rt: &impl Print, runner: &mut Runner, edit: Edit) -> Result<(), Trouble> {
    let may_fail = takes_memory(&edit);
    let before = Standing::of(runner);
    match runner.edit(edit) {
        Ok(()) => println!(rt; "ok")?,
        Err(EditError::OutOfMemory) if !may_fail => return Err(Trouble::EditWantsMemory),
        Err(EditError::OutOfMemory) if before.is_same(runner) => return Err(Trouble::OutOfMemory),
        Err(EditError::OutOfMemory) => return Err(Trouble::EditLeftOther),
        Err(refused) => println!(rt; "refused {}", refused.number())?,
    }
    Ok(())
}

// Runs the session, prints the report, and returns how many steps were executed. If an allocation fails, the session must be
// unchanged, and each checkpoint still kept.
fn run(rt: &impl Print, runner: &mut Runner) -> Result<u64, Trouble> {
    let before = Standing::of(runner);
    let mut meter = Meter::new();
    if let Ok(report) = runner.rerun(&mut meter) {
        write_report(rt, &report)?;
        return Ok(meter.count());
    }
    if before.is_left(runner) {
        return Err(Trouble::OutOfMemory);
    }
    Err(Trouble::RunLeftOther)
}

// Prints how many steps were executed, the steps of the checkpoints, and the last step that the last run left out, or 0.
fn tell_kept(rt: &impl Print, runner: &Runner, executed: u64) -> Result<(), Trouble> {
    print!(rt; "executed {executed}")?;
    for index in 0..SLOTS {
        if let Some(step) = runner.kept(index) {
            print!(rt; " {step}")?;
        }
    }
    println!(rt; "\nleft out {}", runner.left_out().unwrap_or(0))?;
    Ok(())
}

// Executes an edit line by the calls of a runner.
fn execute_line(
    rt: &impl Print,
    alloc: Global,
    runner: &mut Runner,
    line: &str,
) -> Result<(), Trouble> {
    let mut executed = 0;
    match parse_line(alloc, line.as_bytes())? {
        None => return write_line(rt, "malformed"),
        Some(Command::Edit(edit)) => make_edit(rt, runner, edit)?,
        Some(Command::Run) => executed = run(rt, runner)?,
        Some(Command::DropOldest(count)) => {
            runner.drop_oldest(count);
            println!(rt; "ok")?;
        }
    }
    tell_kept(rt, runner, executed)
}

// Replays edit lines, all at once.
fn replay_lines(
    rt: &impl Print,
    alloc: Global,
    runner: &mut Runner,
    mut reader: Pieces<'_>,
) -> Result<(), Trouble> {
    let mut meter = Meter::new();
    let mut writer = Over::new(io::writer(rt));
    match replay(alloc, runner, &mut meter, &mut reader, &mut writer) {
        Ok(ending) => println!(rt; "{} lines", ending.lines)?,
        Err(ReplayFault::OutOfMemory) => return Err(Trouble::OutOfMemory),
        Err(fault) => println!(rt; "{fault}")?,
    }
    tell_kept(rt, runner, meter.count())
}

// Executes a command for the runner.
fn execute(
    rt: &impl Print,
    alloc: Global,
    runner: &mut Runner,
    command: &str,
) -> Result<(), Trouble> {
    let words = words_of(alloc, command)?;
    match words.as_slice() {
        [verb, longest, text] if *verb == "replay" => {
            let text = bytes(alloc, text)?;
            let reader = Pieces::new(text.as_slice(), number(longest)? as usize);
            replay_lines(rt, alloc, runner, reader)
        }
        [verb, others @ ..] if *verb == "ask" => ask(rt, alloc, runner, others),
        _ => execute_line(rt, alloc, runner, command),
    }
}

// Executes a command: `session` and its words begin a session, and any other is one for its runner.
fn answer(
    rt: &impl Print,
    alloc: Global,
    runner: &mut Option<Runner>,
    command: &str,
) -> Result<(), Trouble> {
    if let Some(description) = command.strip_prefix("session ") {
        let words = words_of(alloc, description)?;
        *runner = Some(begin(alloc, words.as_slice())?);
        return write_line(rt, "ok");
    }
    match runner {
        Some(runner) => execute(rt, alloc, runner, command),
        None => Err(Trouble::Words),
    }
}

// Executes a command. If an allocation fails, tries again. A refusal is printed.
fn answer_twice(
    rt: &impl Print,
    alloc: Global,
    runner: &mut Option<Runner>,
    command: &str,
) -> Result<(), Trouble> {
    let mut answered = answer(rt, alloc, runner, command);
    if answered == Err(Trouble::OutOfMemory) {
        println!(rt; "out of memory")?;
        answered = answer(rt, alloc, runner, command);
    }
    match answered {
        Err(Trouble::FileRefused(number)) => println!(rt; "file refused {number}")?,
        Err(Trouble::SessionRefused(number)) => println!(rt; "session refused {number}")?,
        Err(Trouble::OptionsRefused(number)) => println!(rt; "options refused {number}")?,
        answered => answered?,
    }
    write_line(rt, ".")
}

fn drive_text(rt: &impl Print, alloc: Global, text: &str) -> Result<(), Trouble> {
    let mut runner: Option<Runner> = None;
    for command in text.lines() {
        answer_twice(rt, alloc, &mut runner, command)?;
    }
    Ok(())
}

// Returns the text of a file. If an allocation fails, reads it again.
fn text_of<R: Print + Files + AllocGlobal>(rt: &R, path: &str) -> Result<String, Trouble> {
    if let Ok(text) = fs::read_to_string(rt, path) {
        return Ok(text);
    }
    println!(rt; "out of memory")?;
    Ok(fs::read_to_string(rt, path)?)
}

/// Executes the commands of a file, one a line, and prints a line `.` after the answer to each.
pub fn drive<R: Print + Files + AllocGlobal>(rt: &R, path: &str) -> Result<(), Trouble> {
    let text = text_of(rt, path)?;
    drive_text(rt, rt.alloc(), text.as_str())
}
