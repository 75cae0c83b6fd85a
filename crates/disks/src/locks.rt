// The locks of disks.

ghost use Rattle.std.specs.Prelude.{◌≡◌, IfErr, IfOk, length};
ghost use Rattle.std.specs.List.{All};
ghost use Rattle.folders.specs.Failures.{KeepsFiles, io_paths};
ghost use Rattle.folders.specs.Faults.{FailsBy, IsReadFault, failure_paths};
ghost use Rattle.disks.specs.Given.{IsDisk, IsDiskFault, given_count};

use crate::clashes::folders_of;
use crate::ids::id_at;
use command_words::Words;
use folders::{Failure, FileSystem, Id, read_failure};
use std::io;
use streams::Writer;

/// How many disks there can be. Their options come first.
const DISKS: usize = 4;

/// Which folder a disk is, and its path.
type Disk<'a> = (Option<Id>, &'a str);

/// Returns the disks of the words.
fn disks_of<'a, S: FileSystem>(system: &mut S, words: &Words<'a>) -> Result<Vec<Disk<'a>>, Failure>
    ensures disks { IfOk result (λ disks. All (λ disk. IsDisk words.now disk.1.now) disks.items) }
    ensures all { IfOk result (λ disks. length disks.items ≡ given_count words.now 4) }
    ensures fault { IfErr result (FailsBy (IsDiskFault words.now)) }
    ensures unchanged { KeepsFiles failure_paths result (S.files system.old) (S.files system.new) }
{
    let mut disks = Vec::new(system.alloc());
    let folders = folders_of(words);
    for at in 0..DISKS {
        let (_, folder) = folders[at];
        let Some(folder) = folder else {
            continue;
        };
        let id = id_at(system, folder)?;
        let Ok(()) = disks.push((id, folder)) else {
            return Err(Failure::OutOfMemory);
        };
    }
    Ok(disks)
}

/// Locks a folder. While another program has it locked, this waits, and `err` shows that.
fn wait_for<S: FileSystem, E: Writer>(
    system: &mut S,
    folder: &str,
    err: &mut E,
) -> io::Result<S::Lock>
    ensures unchanged { KeepsFiles (io_paths folder.now) result (S.files system.old) (S.files system.new) }
    ensures err { E.output err.new ≡ E.output err.old }
{
    if let Some(lock) = system.try_lock(folder)? {
        return Ok(lock);
    }
    err.show_waiting(folder);
    let lock = system.lock(folder);
    err.hide_steps();
    lock
}

/// Does the same. An error names the folder.
fn lock<S: FileSystem, E: Writer>(
    system: &mut S,
    folder: &str,
    err: &mut E,
) -> Result<S::Lock, Failure>
    ensures fault { IfErr result (FailsBy (IsReadFault folder.now)) }
    ensures unchanged { KeepsFiles failure_paths result (S.files system.old) (S.files system.new) }
    ensures err { E.output err.new ≡ E.output err.old }
{
    let named = String::from_str(system.alloc(), folder)?;
    match wait_for(system, folder, err) {
        Ok(lock) => Ok(lock),
        Err(error) => Err(read_failure(error, named)),
    }
}

/// Locks the disks of the words, in the order of their devices and of their numbers there, so that no two runs wait for each other. While
/// another program has one locked, this waits, and `err` shows for which, if it is a terminal.
///
/// # Errors
///
/// Returns `Err` if a folder cannot be locked or an allocation fails.
pub fn lock_disks<S: FileSystem, E: Writer>(
    system: &mut S,
    words: &Words<'_>,
    err: &mut E,
) -> Result<Vec<S::Lock>, Failure>
    ensures all { IfOk result (λ locks. length locks.items ≡ given_count words.now 4) }
    ensures fault { IfErr result (FailsBy (IsDiskFault words.now)) }
    ensures unchanged { KeepsFiles failure_paths result (S.files system.old) (S.files system.new) }
    ensures err { E.output err.new ≡ E.output err.old }
{
    let mut disks = disks_of(system, words)?;
    disks.sort_unstable_by_key(|disk| disk.0);
    let mut locks = Vec::new(system.alloc());
    for (_, folder) in disks.as_slice() {
        let locked = lock(system, folder, err)?;
        let Ok(()) = locks.push(locked) else {
            return Err(Failure::OutOfMemory);
        };
    }
    Ok(locks)
}
