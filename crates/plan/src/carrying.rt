// How a list of deeds is done: each file is first written at its temporary path, and only then the first of them is moved to its path.

ghost use Rattle.std.specs.Prelude.{◌≡◌, ◌<◌, ◌≤◌, ◌+◌, ◌∷◌, [], Option, IfErr, IfSome, OnOk, OnErr, drop, length, slice_get, vec_capacity};
ghost use Rattle.folders.specs.Failures.{ReportsPaths};
ghost use Rattle.folders.specs.Faults.{FailsBy, failure_paths};
ghost use Rattle.folders.specs.FileSystem.{AddsOnly, Becomes, ChangesOnly, FileBytes};
ghost use Rattle.plan.specs.Carries.{Carries, CarriesEach};
ghost use Rattle.plan.specs.Faults.{IsUncommitted, IsUnprepared, path_at, stop_paths, trouble_paths};
ghost use Rattle.plan.specs.Plans as plans;

use crate::deed::{Before, Deed};
use crate::looking::{Stop, Trouble, look, look_at};
use crate::making::Plan;
use folders::{Contents, Failure, Fault, FileSystem};
use std::alloc::Global;
use std::io;

/// Whose new contents outlast a power failure.
#[derive(Clone, Copy, Debug, PartialEq, Eq)]
pub enum Durable {
    /// Those of each file.
    All,
    /// Those of a file for which something is expected at its path, as for those of disks.
    Expected,
}

// Writes the contents of a deed at its temporary path.
fn prepare_one<S: FileSystem, C: Contents>(
    system: &mut S,
    deed: &Deed<'_, C>,
    durable: Durable,
) -> Result<(), Trouble>
    ensures prepared { OnOk result (Becomes (S.files system.old).bytes (S.files system.new).bytes
        (plans.with_prepared C.bytes deed.now)) }
    ensures free { OnOk result (plans.IsFreeIn deed.now (S.files system.old).bytes) }
    ensures err { OnErr result
        (AddsOnly (plans.temporary_of deed.now) (S.files system.old).bytes (S.files system.new).bytes) }
    ensures failed { ReportsPaths (trouble_paths (plans.path_of deed.now)) result
        (S.files system.old) (S.files system.new) }
{
    let Deed::Put {
        path,
        temporary,
        before,
        contents,
    } = deed
    else {
        return Ok(());
    };
    let durable = durable == Durable::All || !matches!(before, Before::Any);
    system.write_new(temporary.as_str(), path.as_str(), contents, durable)?;
    Ok(())
}

// Moves the contents of a prepared deed to its path, or removes its file.
fn commit_one<S: FileSystem, C>(system: &mut S, deed: &Deed<'_, C>) -> io::Result<()>
    ensures moved { OnOk result (Becomes (S.files system.old).bytes (S.files system.new).bytes
        (plans.committed deed.now)) }
    ensures err { OnErr result ((S.files system.new).bytes ≡ (S.files system.old).bytes) }
    ensures failed { ReportsPaths (λ _. plans.path_of deed.now ∷ []) result
        (S.files system.old) (S.files system.new) }
{
    match deed {
        Deed::Put {
            path,
            temporary,
            ..
        } => system.rename(temporary.as_str(), path.as_str()),
        Deed::Remove { path, .. } => system.remove(path.as_str()),
    }
}

// Removes what was written at the temporary path of a deed, if it can be removed.
fn discard_one<S: FileSystem, C>(system: &mut S, deed: &Deed<'_, C>)
    ensures others { ChangesOnly (plans.temporary_of deed.now)
        (S.files system.old).bytes (S.files system.new).bytes }
    ensures failed { (S.files system.new).failed ≡ (S.files system.old).failed }
{
    match deed {
        Deed::Put { temporary, .. } => system.discard(temporary.as_str()),
        Deed::Remove { .. } => {}
    }
}

// The same for each of these deeds.
fn discard_all<S: FileSystem, C>(system: &mut S, deeds: &[Deed<'_, C>])
    ensures others { ChangesOnly (plans.temporaries deeds.now)
        (S.files system.old).bytes (S.files system.new).bytes }
    ensures failed { (S.files system.new).failed ≡ (S.files system.old).failed }
{
    for deed in deeds {
        discard_one(system, deed);
    }
}

// Writes the contents of each deed at its temporary path. After an error what was written is removed.
fn prepare<S: FileSystem, C: Contents>(system: &mut S, deeds: &[Deed<'_, C>]) -> Result<(), Stop>
    ensures prepared { OnOk result (Becomes (S.files system.old).bytes (S.files system.new).bytes
        (plans.all_prepared C.bytes deeds.now)) }
    ensures free { OnOk result (plans.AreFreeIn C.bytes deeds.now (S.files system.old).bytes) }
    ensures err { OnErr result
        (AddsOnly (plans.temporaries deeds.now) (S.files system.old).bytes (S.files system.new).bytes) }
    ensures at { IfErr result (λ stop. stop.at < length deeds.now) }
    ensures failed { ReportsPaths (stop_paths deeds.now) result (S.files system.old) (S.files system.new) }
{
    for at in 0..deeds.len() {
        if let Err(trouble) = prepare_one(system, &deeds[at], Durable::Expected) {
            discard_all(system, &deeds[..at]);
            return Err(Stop { at, trouble });
        }
    }
    Ok(())
}

// Checks that what is at each path is as expected, writes the contents of each deed at its temporary path, and checks again. After an error
// what was written is removed.
fn make_ready<S: FileSystem, C: Contents>(system: &mut S, deeds: &[Deed<'_, C>]) -> Result<(), Stop>
    ensures as_expected { OnOk result (plans.AreAsExpected (S.files system.old).bytes deeds.now) }
    ensures prepared { OnOk result
        (plans.ArePrepared C.bytes deeds.now (S.files system.old).bytes (S.files system.new).bytes) }
    ensures err { OnErr result
        (AddsOnly (plans.temporaries deeds.now) (S.files system.old).bytes (S.files system.new).bytes) }
    ensures at { IfErr result (λ stop. stop.at < length deeds.now) }
    ensures failed { ReportsPaths (stop_paths deeds.now) result (S.files system.old) (S.files system.new) }
{
    look(system, deeds)?;
    prepare(system, deeds)?;
    if let Err(stop) = look(system, deeds) {
        discard_all(system, deeds);
        return Err(stop);
    }
    Ok(())
}

// Does deeds that are prepared, in their order. An error is the place of the first that could not be done.
fn commit<S: FileSystem, C: Contents>(system: &mut S, deeds: &[Deed<'_, C>]) -> Result<(), usize>
    requires { plans.AreApart deeds.now }
    ensures commits { (start : Option FileBytes)
        → plans.ArePrepared C.bytes deeds.now start (S.files system.old).bytes
        → plans.Commits C.bytes deeds.now start (S.files system.new).bytes result }
    ensures at { IfErr result (λ at. at < length deeds.now) }
    ensures failed { ReportsPaths (path_at deeds.now) result (S.files system.old) (S.files system.new) }
{
    for at in 0..deeds.len() {
        if commit_one(system, &deeds[at]).is_err() {
            return Err(at);
        }
    }
    Ok(())
}

// Returns the failure of the deed that could not be prepared.
fn unprepared<C: Drop>(mut deeds: Vec<Deed<'_, C>>, stop: Stop) -> Failure
    requires { stop.at < length deeds.items }
    ensures fault { FailsBy (IsUnprepared (slice_get deeds.entry.items stop.at)) result }
    ensures paths { failure_paths result ≡ stop_paths deeds.entry.items stop }
{
    let path = deeds.swap_remove(stop.at).into_path();
    match stop.trouble {
        Trouble::Failed => Failure::AtFault(Fault::CannotWrite(path)),
        Trouble::Changed => Failure::AtFault(Fault::Changed(path)),
        Trouble::Irregular => Failure::AtFault(Fault::Irregular(path)),
        Trouble::OutOfMemory => Failure::OutOfMemory,
    }
}

// Returns the failure of the deed that was prepared and could not be done, with the temporary paths of those after it. Allocates nothing.
fn uncommitted<C: Drop>(mut deeds: Vec<Deed<'_, C>>, at: usize, mut left: Vec<String>) -> Failure
    requires at { at < length deeds.items }
    requires empty { left.items ≡ [] }
    requires room { length deeds.items ≤ at + 1 + vec_capacity left }
    ensures fault { IsUncommitted (drop at deeds.entry.items) result }
    ensures paths { failure_paths result ≡ path_at deeds.entry.items at }
{
    while deeds.len() > at + 1 {
        if let Some(deed) = deeds.pop()
            && let Some(temporary) = deed.into_temporary()
        {
            left.push_reserved(temporary);
        }
    }
    left.reverse();
    match deeds.swap_remove(at) {
        Deed::Put {
            path,
            temporary,
            ..
        } => Failure::AtFault(Fault::CannotMove(path, temporary, left)),
        Deed::Remove { path, .. } => Failure::AtFault(Fault::CannotWrite(path)),
    }
}

// Returns the failure of the deed that was prepared alone and could not be done. Allocates nothing.
fn uncommitted_alone<C: Drop>(mut deeds: Vec<Deed<'_, C>>, at: usize, alloc: Global) -> Failure
    requires { at < length deeds.items }
    ensures fault { IfSome (slice_get deeds.entry.items at) (λ deed. IsUncommitted (deed ∷ []) result) }
    ensures paths { failure_paths result ≡ path_at deeds.entry.items at }
{
    deeds.truncate(at + 1);
    uncommitted(deeds, at, Vec::new(alloc))
}

/// Carries a plan out. First it is checked that what is at each path is as expected; then the contents of each deed are written at its
/// temporary path; then it is checked again; and only then the deeds are done, in their order. Nothing is allocated between two deeds.
///
/// # Errors
///
/// Returns the first path where something else is found, or whose contents could not be written: then every file is as it was. Or the
/// first deed that could not be done: the ones before it are done, and the contents of it and the others are at their temporary paths.
pub fn carry_out<S: FileSystem, C: Contents + Drop>(
    system: &mut S,
    plan: Plan<'_, C>,
) -> Result<(), Failure>
    ensures carried { Carries C.bytes plan.entry.deeds.items
        (S.files system.old).bytes (S.files system.new).bytes result }
    ensures failed { ReportsPaths failure_paths result (S.files system.old) (S.files system.new) }
{
    let deeds = plan.deeds;
    let left = Vec::with_capacity(system.alloc(), deeds.len())?;
    if let Err(stop) = make_ready(system, deeds.as_slice()) {
        return Err(unprepared(deeds, stop));
    }
    match commit(system, deeds.as_slice()) {
        Ok(()) => Ok(()),
        Err(at) => Err(uncommitted(deeds, at, left)),
    }
}

/// Carries the deeds of a plan out one after another, each as a whole.
///
/// # Errors
///
/// Returns the first that was not done. The ones before it are done.
pub fn carry_out_each<S: FileSystem, C: Contents + Drop>(
    system: &mut S,
    plan: Plan<'_, C>,
    durable: Durable,
) -> Result<(), Failure>
    ensures carried { CarriesEach C.bytes plan.entry.deeds.items
        (S.files system.old).bytes (S.files system.new).bytes result }
    ensures failed { ReportsPaths failure_paths result (S.files system.old) (S.files system.new) }
{
    let deeds = plan.deeds;
    for at in 0..deeds.len() {
        if let Err(trouble) = look_at(system, &deeds[at]) {
            return Err(unprepared(deeds, Stop { at, trouble }));
        }
        if let Err(trouble) = prepare_one(system, &deeds[at], durable) {
            return Err(unprepared(deeds, Stop { at, trouble }));
        }
        if commit_one(system, &deeds[at]).is_err() {
            return Err(uncommitted_alone(deeds, at, system.alloc()));
        }
    }
    Ok(())
}
