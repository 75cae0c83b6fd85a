// What is to be done with the changed files of a run.

ghost use Rattle.std.specs.Prelude.{◌≡◌, ◌++◌, IfErr, OnOk, map};
ghost use Rattle.folders.specs.ChangedBytes.{written_bytes};
ghost use Rattle.folders.specs.Failures.{KeepsFiles};
ghost use Rattle.folders.specs.Faults.{FailsBy, failure_paths};
ghost use Rattle.plan.specs.Faults.{IsAnyWriteFault};
ghost use Rattle.plan.specs.Wanted.{expected_of, wanted_of};
ghost use Rattle.one_run.specs.ChangedList as list;

use crate::changed::Entry;
use folders::{Failure, FileSystem, Written};
use plan::{Before, Plan};

/// When something is done with a changed file. First files are written outside of disks. Then on disks new files are put, then files that
/// replace others, and files that are gone are removed last.
#[derive(Clone, Copy, Debug, PartialEq, Eq)]
pub enum Turn {
    /// A file outside of disks.
    Outside,
    /// A new file on a disk.
    New,
    /// A file on a disk that replaces another one.
    Replacing,
    /// A file that is gone from its disk.
    Gone,
}

/// Returns whether this is the turn of a file that is there or gone, by what is expected at its path.
pub(crate) fn is_turn(turn: Turn, there: bool, before: &Before<'_>) -> bool
    ensures { result ≡ list.is_turn turn there (expected_of before.now) }
{
    match (turn, there, before) {
        (Turn::Outside, true, Before::Any) => true,
        (Turn::New, true, Before::Nothing) => true,
        (Turn::Replacing, true, Before::Loaded(_)) => true,
        (Turn::Gone, false, _) => true,
        _ => false,
    }
}

// Plans what is done with a changed file, if this is its turn.
fn plan_one<'a, S: FileSystem>(
    system: &mut S,
    plan: &mut Plan<'a, Written<'a>>,
    turn: Turn,
    entry: &Entry<'a>,
) -> Result<(), Failure>
    ensures planned { OnOk result (map (wanted_of written_bytes) plan.new.deeds.items
        ≡ map (wanted_of written_bytes) plan.old.deeds.items
        ++ list.planned_for turn (list.changed_by entry.now)) }
    ensures fault { IfErr result (FailsBy IsAnyWriteFault) }
    ensures unchanged { KeepsFiles failure_paths result (S.files system.old) (S.files system.new) }
{
    if !is_turn(turn, entry.is_there(), &entry.before) {
        return Ok(());
    }
    let Some(path) = &entry.path else {
        return Ok(());
    };
    let path = String::from_str(system.alloc(), path.as_str())?;
    if entry.is_there() {
        return plan.put(system, path, entry.before, Written::File(entry.file));
    }
    plan.remove(path, entry.before)
}

/// Plans what is done with the changed files in this turn, in order.
///
/// # Errors
///
/// Returns the error of a path that can't be planned, or out of memory.
pub fn plan_turn<'a, S: FileSystem>(
    system: &mut S,
    plan: &mut Plan<'a, Written<'a>>,
    turn: Turn,
    entries: &[Entry<'a>],
) -> Result<(), Failure>
    ensures planned { OnOk result (map (wanted_of written_bytes) plan.new.deeds.items
        ≡ map (wanted_of written_bytes) plan.old.deeds.items
        ++ list.planned turn (map list.changed_by entries.now)) }
    ensures fault { IfErr result (FailsBy IsAnyWriteFault) }
    ensures unchanged { KeepsFiles failure_paths result (S.files system.old) (S.files system.new) }
{
    for entry in entries {
        plan_one(system, plan, turn, entry)?;
    }
    Ok(())
}
