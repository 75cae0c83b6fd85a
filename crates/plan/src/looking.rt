// Whether files are still as expected.

ghost use Rattle.std.specs.Prelude.{◌≡◌, ◌<◌, ℕ, List, IfErr, IfOk, OnOk, length, true};
ghost use Rattle.folders.specs.Failures.{KeepsFiles, io_paths};
ghost use Rattle.hostfiles.specs.Hosts.{records_in};
ghost use Rattle.plan.specs.Faults.{stop_paths, trouble_paths};
ghost use Rattle.plan.specs.Plans as plans;

use crate::deed::{Before, Deed};
use folders::{FileSystem, Kind, MOST_READ};
use hostfiles::HostFile;
use hostfiles::host::FILE_LIMIT;
use std::alloc::{AllocError, Global};
use std::io;
use std::io::ErrorKind;

/// Why a deed is not done.
#[derive(Clone, Copy, Debug, PartialEq, Eq)]
pub enum Trouble {
    /// A call of the file system failed.
    Failed,
    /// What is at the path is not what is expected.
    Changed,
    /// What is at the path is no regular file.
    Irregular,
    /// An allocation failed.
    OutOfMemory,
}

/// The first deed that is not done, by its place in a list, and why.
#[derive(Clone, Copy, Debug)]
pub struct Stop {
    pub at: usize,
    pub trouble: Trouble,
}

impl From<io::Error> for Trouble {
    ghost use Rattle.std.specs.Prelude.{◌≡◌, ℕ, List};
    ghost use Rattle.folders.specs.Failures.{io_paths};
    ghost use Rattle.plan.specs.Faults.{trouble_paths};

    ghost from_gives = { λ error trouble.
        (path : List ℕ) → trouble_paths path trouble ≡ io_paths path error };

    fn from(error: io::Error) -> Trouble {
        match error.kind() {
            ErrorKind::OutOfMemory => Trouble::OutOfMemory,
            _ => Trouble::Failed,
        }
    }
}

// Returns whether two host files have the same records.
fn are_same(one: &HostFile, other: &HostFile) -> bool
    ensures same { result ≡ true → one.now ≡ other.now }
{
    if one.len() != other.len() {
        return false;
    }
    for number in 0..one.len() {
        match (one.get(number), other.get(number)) {
            (Some(a), Some(b)) if a.as_slice() == b.as_slice() => {}
            _ => return false,
        }
    }
    true
}

// Returns whether a host file is made of these bytes.
fn is_made_of(alloc: Global, file: &HostFile, bytes: &[u8]) -> Result<bool, AllocError>
    ensures same { IfOk result (λ is. is ≡ true → records_in bytes.now ≡ file.now) }
{
    if bytes.len() > FILE_LIMIT {
        return Ok(false);
    }
    let made = HostFile::new(alloc, bytes)?;
    Ok(are_same(&made, file))
}

// Checks that the regular file at a path is the one from which a host file was loaded.
fn look_into<S: FileSystem>(system: &mut S, path: &str, file: &HostFile) -> Result<(), Trouble>
    ensures same { OnOk result (plans.IsLoaded path.now file.now (S.files system.old).bytes) }
    ensures unchanged { KeepsFiles (trouble_paths path.now) result (S.files system.old) (S.files system.new) }
{
    let bytes = system.read(path, MOST_READ)?;
    match is_made_of(system.alloc(), file, bytes.as_slice()) {
        Ok(true) => Ok(()),
        Ok(false) => Err(Trouble::Changed),
        Err(_) => Err(Trouble::OutOfMemory),
    }
}

/// Checks that what is at the path of a deed is as expected.
pub fn look_at<S: FileSystem, C>(system: &mut S, deed: &Deed<'_, C>) -> Result<(), Trouble>
    ensures as_expected { OnOk result (plans.IsAsExpected (S.files system.old).bytes deed.now) }
    ensures unchanged { KeepsFiles (trouble_paths (plans.path_of deed.now)) result
        (S.files system.old) (S.files system.new) }
{
    let kind = system.kind(deed.path())?;
    match (kind, deed.before()) {
        (Kind::Other, _) => Err(Trouble::Irregular),
        (_, Before::Any) | (Kind::Absent, Before::Nothing) => Ok(()),
        (Kind::Regular, Before::Loaded(file)) => look_into(system, deed.path(), file),
        _ => Err(Trouble::Changed),
    }
}

/// Checks that what is at the path of each deed is as expected.
///
/// # Errors
///
/// Returns the first deed whose path has something else, or cannot be looked at.
pub fn look<S: FileSystem, C>(system: &mut S, deeds: &[Deed<'_, C>]) -> Result<(), Stop>
    ensures as_expected { OnOk result (plans.AreAsExpected (S.files system.old).bytes deeds.now) }
    ensures at { IfErr result (λ stop. stop.at < length deeds.now) }
    ensures unchanged { KeepsFiles (stop_paths deeds.now) result (S.files system.old) (S.files system.new) }
{
    for at in 0..deeds.len() {
        if let Err(trouble) = look_at(system, &deeds[at]) {
            return Err(Stop { at, trouble });
        }
    }
    Ok(())
}
