// A session and what its run asks.

use dependencies::Dependencies;
use hostfiles::Ask;
use machine::{Cause, Question};
use std::alloc::Global;
use std::test::Fail;
use test_sessions::{Difference, Given, Trouble, name_failure, name_of, session_of};

/// A question to a session, with files by their names.
#[derive(Clone, Copy)]
pub enum Asked<'a> {
    Cell(u16),
    Script(usize),
    Has(&'a str),
    Length(&'a str),
    Record(&'a str, u32),
    Directory(u8),
}

/// A session, how its run ends, and questions with the first step that asks each, if one does.
#[derive(Clone, Copy)]
pub struct Case<'a> {
    pub name: &'a str,
    pub given: Given<'a>,
    pub cause: Cause,
    pub steps: u64,
    pub asked: &'a [(Asked<'a>, Option<u64>)],
}

fn question_of(asked: Asked<'_>) -> Result<Question, Trouble> {
    Ok(match asked {
        Asked::Cell(at) => Question::Cell(at),
        Asked::Script(offset) => Question::Script(offset),
        Asked::Has(name) => Question::Host(Ask::Has(name_of(name)?.key())),
        Asked::Length(name) => Question::Host(Ask::Length(name_of(name)?.key())),
        Asked::Record(name, number) => Question::Host(Ask::Rec(name_of(name)?.key(), number)),
        Asked::Directory(drive) => Question::Host(Ask::Directory(drive)),
    })
}

fn runs_as_wanted(alloc: Global, case: &Case<'_>) -> Result<(), Trouble> {
    let session = session_of(alloc, &case.given)?;
    let dependencies = Dependencies::of_run(alloc, &session)?;
    if dependencies.cause != case.cause {
        return Err(Trouble::Differs(0, Difference::Cause));
    }
    if dependencies.steps != case.steps {
        return Err(Trouble::Differs(0, Difference::Steps));
    }
    for (index, (asked, step)) in case.asked.iter().enumerate() {
        if dependencies.looks.get(&question_of(*asked)?) != *step {
            return Err(Trouble::Differs(index + 1, Difference::Answer));
        }
    }
    Ok(())
}

/// Runs each session. `Err` names the case and what differs: the end of the run, or the number of a question, counted from 1.
pub fn all_ask(alloc: Global, cases: &[Case<'_>]) -> Result<(), Fail> {
    for case in cases {
        name_failure(case.name, runs_as_wanted(alloc, case))?;
    }
    Ok(())
}
