// A runner for the session that the words of a command describe.

use crate::trouble::Trouble;
use crate::words::{bytes, name, number};
use hostfiles::FilesError;
use machine::{HostFiles, Name, Session};
use replay::{Options, OptionsError, Runner};
use std::alloc::Global;

// Sets a host file. If an allocation fails, the file must not be there.
fn set(hosts: &mut HostFiles, name: Name, content: &[u8]) -> Result<(), Trouble> {
    match hosts.set(name, content) {
        Ok(()) => Ok(()),
        Err(FilesError::OutOfMemory) => Err(without_memory(hosts, &name)),
        Err(refused) => Err(Trouble::FileRefused(refused.number())),
    }
}

fn without_memory(hosts: &HostFiles, name: &Name) -> Trouble {
    match hosts.records(name) {
        Some(_) => Trouble::RefusedFileThere,
        None => Trouble::OutOfMemory,
    }
}

// Returns the host files of pairs of words: a name and the bytes.
fn hosts_of(alloc: Global, words: &[&str]) -> Result<HostFiles, Trouble> {
    let mut hosts = HostFiles::new(alloc);
    for pair in words.chunks(2) {
        let [word, content] = pair else {
            return Err(Trouble::Words);
        };
        let (name, content) = (name(word)?, bytes(alloc, content)?);
        set(&mut hosts, name, content.as_slice())?;
    }
    Ok(hosts)
}

fn runner_of(alloc: Global, session: Session, options: Options) -> Result<Runner, Trouble> {
    match Runner::new(alloc, session, options) {
        Ok(runner) => Ok(runner),
        Err(OptionsError::OutOfMemory) => Err(Trouble::OutOfMemory),
        Err(refused) => Err(Trouble::OptionsRefused(refused.number())),
    }
}

/// Returns a runner for the words of a session: the limit, the spacing and the slots; the tail, the script and the program; and for
/// each host file its name and its bytes.
pub fn begin(alloc: Global, words: &[&str]) -> Result<Runner, Trouble> {
    let [limit, spacing, slots, tail, script, program, files @ ..] = words else {
        return Err(Trouble::Words);
    };
    let options = Options {
        spacing: number(spacing)?,
        slots: number(slots)? as usize,
    };
    let hosts = hosts_of(alloc, files)?;
    let (tail, script) = (bytes(alloc, tail)?, bytes(alloc, script)?);
    match Session::new(bytes(alloc, program)?, tail, hosts, script, number(limit)?) {
        Ok(session) => runner_of(alloc, session, options),
        Err(refused) => Err(Trouble::SessionRefused(refused.number())),
    }
}
