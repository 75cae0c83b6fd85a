// A list of deeds, each with a free temporary path.

ghost use Rattle.std.specs.Prelude.{◌≡◌, ◌≢◌, ◌++◌, ◌∷◌, [], true, false, None, IfErr, IfOk, IfSome, OnErr, OnOk, string_bytes};
ghost use Rattle.std.specs.List.{list_any};
ghost use Rattle.std.specs.Option.{ForSome};
ghost use Rattle.folders.specs.Failures.{KeepsFiles, io_paths};
ghost use Rattle.folders.specs.Faults.{FailsBy, failure_paths};
ghost use Rattle.folders.specs.Temporaries.{IsTemporaryOf};
ghost use Rattle.plan.specs.Faults.{IsAnyWriteFault};
ghost use Rattle.plan.specs.Plans as plans;
ghost use Rattle.plan.specs.declared.deed.Deed.TheVariants as deed;

use crate::deed::{Before, Deed};
use folders::{Failure, Fault, FileSystem, temporary_path, write_failure};
use std::alloc::Global;
use std::io;

/// The most temporary paths that are tried for one path.
const MOST_TRIED: u32 = 1000;

/// What is to be done to files, in this order. No path of a deed is a temporary one, and neither is the avoided path.
#[derive(Drop)]
pub struct Plan<'a, C> {
    /// The deeds.
    pub deeds: Vec<Deed<'a, C>>,
    /// A path that is no temporary one, such as one at which a file is put later.
    pub avoided: Option<&'a str>,
    ghost apart: { plans.AreApart deeds.items },
    ghost avoids: { ForSome avoided (λ path. plans.IsNoTemporary path.now deeds.items) },
}

// Returns whether a deed has a path.
fn is_path_of<C>(deeds: &[Deed<'_, C>], path: &str) -> bool
    ensures { result ≡ list_any (plans.is_at path.now) deeds.now }
{
    deeds
        .iter()
        .any(|deed| deed.path().as_bytes() == path.as_bytes())
}

// Returns whether the contents of a deed are first written at a path.
fn is_temporary_of<C>(deeds: &[Deed<'_, C>], path: &str) -> bool
    ensures { result ≡ list_any (plans.is_first_at path.now) deeds.now }
{
    deeds.iter().any(|deed| deed.is_first_at(path))
}

// Returns a temporary path of a path where nothing is, apart from the paths of the deeds, this one and the avoided one; or `None` if all that
// are tried are taken.
fn temporary_for<S: FileSystem, C>(
    system: &mut S,
    deeds: &[Deed<'_, C>],
    path: &str,
    avoided: Option<&str>,
) -> io::Result<Option<String>>
    ensures temporary { IfOk result
        (λ found. IfSome found (λ t. IsTemporaryOf path.now (string_bytes t))) }
    ensures apart { IfOk result
        (λ found. IfSome found (λ t. plans.IsApartFrom deeds.now path.now avoided.entry (string_bytes t))) }
    ensures unchanged { KeepsFiles (io_paths path.now) result (S.files system.old) (S.files system.new) }
{
    for number in 0..MOST_TRIED {
        let temporary = temporary_path(system.alloc(), path, number)?;
        if is_apart(deeds, path, avoided, temporary.as_str())
            && system.is_free(temporary.as_str(), path)?
        {
            return Ok(Some(temporary));
        }
    }
    Ok(None)
}

// Returns whether a temporary path is no path of a deed, no other temporary one, and neither this path nor the avoided one.
fn is_apart<C>(deeds: &[Deed<'_, C>], path: &str, avoided: Option<&str>, temporary: &str) -> bool
    ensures { result ≡ true → plans.IsApartFrom deeds.now path.now avoided.entry temporary.now }
{
    if is_path_of(deeds, temporary) || is_temporary_of(deeds, temporary) {
        return false;
    }
    path.as_bytes() != temporary.as_bytes() && !is_that(avoided, temporary)
}

// Returns whether there is a path, and it is this one.
fn is_that(there: Option<&str>, path: &str) -> bool
    ensures { result ≡ false → ForSome there.entry (λ other. other.now ≢ path.now) }
{
    match there {
        Some(there) => there.as_bytes() == path.as_bytes(),
        None => false,
    }
}

impl<'a, C: Drop> Plan<'a, C> {
    /// Returns a plan in which nothing is to be done. Allocates nothing.
    pub fn new(alloc: Global) -> Plan<'a, C>
        ensures deeds { result.deeds.items ≡ [] }
        ensures avoided { result.avoided ≡ None }
    {
        Plan::avoiding(alloc, None)
    }

    /// Returns a plan in which nothing is to be done, and this path will be no temporary one. Allocates nothing.
    pub fn avoiding(alloc: Global, path: Option<&'a str>) -> Plan<'a, C>
        ensures deeds { result.deeds.items ≡ [] }
        ensures avoided { result.avoided ≡ path.entry }
    {
        Plan {
            deeds: Vec::new(alloc),
            avoided: path,
        }
    }

    /// Adds that a file with these contents is put at a path, and finds the temporary path at which it is first written.
    ///
    /// # Errors
    ///
    /// Returns `Err` if no temporary path is free, if the path is the temporary one of another file, if a temporary path cannot be looked at, or
    /// if an allocation fails. The plan is then unchanged.
    pub fn put<S: FileSystem>(
        &mut self,
        system: &mut S,
        path: String,
        before: Before<'a>,
        contents: C,
    ) -> Result<(), Failure>
        ensures put { OnOk result (plans.AddsPut
            (string_bytes path) before.entry contents self.old.deeds.items self.new.deeds.items) }
        ensures avoided { self.new.avoided ≡ self.old.avoided }
        ensures err { OnErr result (self.new.deeds.items ≡ self.old.deeds.items) }
        ensures fault { IfErr result (FailsBy IsAnyWriteFault) }
        ensures unchanged { KeepsFiles failure_paths result (S.files system.old) (S.files system.new) }
    {
        if is_temporary_of(self.deeds.as_slice(), path.as_str()) {
            return Err(Failure::AtFault(Fault::Crowded(path)));
        }
        let found = temporary_for(system, self.deeds.as_slice(), path.as_str(), self.avoided);
        let temporary = match found {
            Ok(Some(temporary)) => temporary,
            Ok(None) => return Err(Failure::AtFault(Fault::Crowded(path))),
            Err(error) => return Err(write_failure(error, path)),
        };
        let deed = Deed::Put {
            path,
            temporary,
            before,
            contents,
        };
        let Ok(()) = self.deeds.push(deed) else {
            return Err(Failure::OutOfMemory);
        };
        Ok(())
    }

    /// Adds that the file at a path is removed.
    ///
    /// # Errors
    ///
    /// Returns `Err` if the path is the temporary one of a deed, or if an allocation fails. The plan is then unchanged.
    pub fn remove(&mut self, path: String, before: Before<'a>) -> Result<(), Failure>
        ensures removed { OnOk result
            (self.new.deeds.items ≡ self.old.deeds.items ++ deed.Remove path before.entry ∷ []) }
        ensures avoided { self.new.avoided ≡ self.old.avoided }
        ensures err { OnErr result (self.new.deeds.items ≡ self.old.deeds.items) }
        ensures fault { IfErr result (FailsBy IsAnyWriteFault) }
        ensures unfailed { IfErr result (λ f. failure_paths f ≡ []) }
    {
        if is_temporary_of(self.deeds.as_slice(), path.as_str()) {
            return Err(Failure::AtFault(Fault::Crowded(path)));
        }
        let Ok(()) = self.deeds.push(Deed::Remove { path, before }) else {
            return Err(Failure::OutOfMemory);
        };
        Ok(())
    }
}
