// Sessions and runners, made from their parts.

use crate::given::{Given, Host};
use crate::trouble::Trouble;
use machine::{HostFiles, Name, Session};
use replay::{Options, OptionsError, Runner};
use std::alloc::Global;

/// Parses the name of a file.
pub fn name_of(text: &str) -> Result<Name, Trouble> {
    match Name::parse(text) {
        Ok(name) => Ok(name),
        Err(_) => Err(Trouble::Refused),
    }
}

fn hosts_of(alloc: Global, files: &[Host<'_>]) -> Result<HostFiles, Trouble> {
    let mut hosts = HostFiles::new(alloc);
    for (name, bytes) in files {
        if hosts.set(name_of(name)?, bytes).is_err() {
            return Err(Trouble::OutOfMemory);
        }
    }
    Ok(hosts)
}

/// Returns the session of these parts.
pub fn session_of(alloc: Global, given: &Given<'_>) -> Result<Session, Trouble> {
    let hosts = hosts_of(alloc, given.hosts)?;
    let program = given.program.to_vec(alloc)?;
    let tail = given.tail.to_vec(alloc)?;
    let script = given.script.to_vec(alloc)?;
    match Session::new(program, tail, hosts, script, given.limit) {
        Ok(session) => Ok(session),
        Err(_) => Err(Trouble::Refused),
    }
}

fn runner_of(alloc: Global, session: Session, options: Options) -> Result<Runner, Trouble> {
    match Runner::new(alloc, session, options) {
        Ok(runner) => Ok(runner),
        Err(OptionsError::OutOfMemory) => Err(Trouble::OutOfMemory),
        Err(_) => Err(Trouble::Refused),
    }
}

/// Returns a runner for the session of these parts.
pub fn make(alloc: Global, given: &Given<'_>) -> Result<Runner, Trouble> {
    runner_of(alloc, session_of(alloc, given)?, given.options)
}
