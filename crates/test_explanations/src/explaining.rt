// The line of a session.

use machine::{Noting, Run};
use one_run::push_explanation;
use std::alloc::Global;
use std::test::Fail;
use streams::{Over, Text, TextOver};
use test_sessions::{Difference, Given, Trouble, name_failure, session_of};

/// Whether a run has a disk that it would have changed.
#[derive(Clone, Copy)]
pub enum Disk {
    /// It has none, or nothing to change on it.
    Absent,
    /// It keeps one unchanged.
    Kept,
}

fn differs(alloc: Global, given: &Given<'_>, disk: Disk, wanted: &str) -> Result<(), Trouble> {
    let session = session_of(alloc, given)?;
    let run = Run::start(alloc, &session, Noting::Nothing)?.finish()?;
    let mut line = Over::new(Vec::new(alloc));
    let mut text = TextOver::new(&mut line);
    push_explanation(&mut text, &run, matches!(disk, Disk::Kept));
    text.flush();
    let _ = text.finish();
    let line = line.into_inner();
    if line.as_slice() != wanted.as_bytes() {
        return Err(Trouble::Differs(0, Difference::Answer));
    }
    Ok(())
}

/// Runs a session, whose explanation must be this line, with its line end, or no line.
pub fn explains(alloc: Global, given: &Given<'_>, disk: Disk, wanted: &str) -> Result<(), Fail> {
    name_failure(wanted, differs(alloc, given, disk, wanted))
}

/// Runs programs without a disk. Each has this line, with its line end, or no line.
pub fn all_explain(alloc: Global, cases: &[(&[u8], &str)]) -> Result<(), Fail> {
    for (program, wanted) in cases {
        let given = Given {
            program,
            ..test_sessions::EMPTY
        };
        explains(alloc, &given, Disk::Absent, wanted)?;
    }
    Ok(())
}
