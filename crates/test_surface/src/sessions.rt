// `machine` and `replay`: sessions, steps, and a runner with its reports.

use machine::{
    Bytes, Cause, Desk, HostFiles, Meter, Name, Regs, Session, SessionError, Spot, State,
    plain_machine_is_laid, step,
};
use replay::{Edit, EditError, Options, OptionsError, Report, Runner, prefix_dependence};
use std::alloc::{AllocError, Global};

/// Makes a session.
pub fn session(alloc: Global, program: Vec<u8>) -> Result<Session, SessionError> {
    let nothing = || Vec::new(alloc);
    Session::new(
        program,
        nothing(),
        HostFiles::new(alloc),
        nothing(),
        1_000_000,
    )
}

/// Loads a state, and executes a step.
pub fn steps(alloc: Global, session: &Session) -> Result<Option<Cause>, AllocError> {
    let mut meter: Meter = Meter::new();
    meter.tick();
    let _count: u64 = meter.count();
    let mut state: State = State::load(alloc, session)?;
    let stop: Option<Cause> = step(&mut state, session, &mut meter)?;
    let _regs: Regs = state.regs;
    let _byte: Option<u8> = state.overlay.written(0);
    let desk: &Desk = &state.desk;
    let _spot: Spot = desk.spot();
    let _changes = state.changes.snapshot()?;
    Ok(stop)
}

/// Makes a runner.
pub fn runner(alloc: Global, session: Session) -> Result<Runner, OptionsError> {
    plain_machine_is_laid();
    prefix_dependence();
    Runner::new(
        alloc,
        session,
        Options {
            spacing: 4,
            slots: 64,
        },
    )
}

/// Makes every edit of the script.
pub fn script_edits(
    runner: &mut Runner,
    inserted: Bytes,
    replaced: Bytes,
) -> Result<(), EditError> {
    runner.edit(Edit::Insert(0, inserted))?;
    runner.edit(Edit::Replace(0, replaced))?;
    runner.edit(Edit::Remove(0, 0))
}

/// Makes every other edit.
pub fn other_edits(
    runner: &mut Runner,
    name: Name,
    set: Bytes,
    poked: Bytes,
) -> Result<(), EditError> {
    runner.edit(Edit::SetFile(name, set))?;
    runner.edit(Edit::RemoveFile(name))?;
    runner.edit(Edit::Poke(0x0100, poked))?;
    runner.edit(Edit::SetLimit(100))
}

/// Reruns, and reads the report.
pub fn rerun(runner: &mut Runner, name: &Name) -> Result<Option<u64>, AllocError> {
    let mut meter = Meter::new();
    let report: Report<'_> = runner.rerun(&mut meter)?;
    let _cause: Cause = report.cause();
    let _steps: u64 = report.steps();
    let _regs: Regs = report.regs();
    let _text: &[u8] = report.text();
    let _cell: u8 = report.cell(0xffff);
    let _has: bool = report.has(name);
    let _count: Option<u32> = report.records(name);
    let _record: Option<[u8; 128]> = report.record(name, 0);
    let _changed: Option<Name> = report.next_changed(None);
    runner.drop_oldest(1);
    let _session: &Session = runner.session();
    Ok(runner.kept(0))
}
