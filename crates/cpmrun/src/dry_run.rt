// A dry run, which changes no file.

ghost use Rattle.std.specs.Prelude.{◌≡◌, ◌++◌, IfErr, IfSome, OnErr, OnOk, map};
ghost use Rattle.folders.specs.Failures.{KeepsFiles};
ghost use Rattle.folders.specs.Faults.{FailsBy, failure_paths};
ghost use Rattle.faults.specs.Faults.{file_paths};
ghost use Rattle.one_run.specs.ChangedList.{changed_by, planned};
ghost use Rattle.one_run.specs.DryRun as dry;
ghost use Rattle.streams.specs.Streams.{WritesOrFails};
ghost use Rattle.cpmrun.specs.RunEnds as run_ends;

use command_words::Words;
use folders::{Failure, FileSystem};
use one_run::{Disks, Entry, Foretold, Turn, foretell, report_foretold};
use requests::Fault;
use streams::Writer;

// Adds what would be done in a turn on disks, unless they stay unchanged.
fn foretell_on_disks<'r, S: FileSystem>(
    system: &mut S,
    list: &mut Vec<Foretold<'r>>,
    disks: Disks,
    turn: Turn,
    entries: &'r [Entry<'_>],
) -> Result<(), Failure>
    ensures added { OnOk result (IfSome (S.files system.old).bytes (λ stored.
        map dry.seen list.new.items ≡ map dry.seen list.old.items
        ++ dry.foretold stored (run_ends.on_disks disks (planned turn (map changed_by entries.now))))) }
    ensures fault { IfErr result (FailsBy dry.IsForetellFault) }
    ensures unchanged { KeepsFiles failure_paths result (S.files system.old) (S.files system.new) }
{
    match disks {
        Disks::Unchanged => Ok(()),
        _ => foretell(system, list, turn, entries),
    }
}

/// Reports what a run would do with its changed files, in the order in which it would be done. No file is changed.
///
/// # Errors
///
/// Returns `Err` if a file could not be put at its path, if the system does not say what is there, or if an allocation fails.
pub fn pretend<'a, S: FileSystem, E: Writer>(
    system: &mut S,
    words: &Words<'_>,
    disks: Disks,
    entries: &[Entry<'_>],
    err: &mut E,
) -> Result<(), Fault<'a>>
    ensures done { OnOk result (IfSome (S.files system.old).bytes (λ stored.
        WritesOrFails (E.output err.old) (E.output err.new)
        (run_ends.dry_lines words.now stored disks (map changed_by entries.now)))) }
    ensures fault { IfErr result run_ends.IsDryFault }
    ensures unreported { OnErr result (E.output err.new ≡ E.output err.old) }
    ensures unchanged { KeepsFiles file_paths result (S.files system.old) (S.files system.new) }
{
    let mut list = Vec::new(system.alloc());
    foretell(system, &mut list, Turn::Outside, entries)?;
    foretell_on_disks(system, &mut list, disks, Turn::New, entries)?;
    foretell_on_disks(system, &mut list, disks, Turn::Replacing, entries)?;
    foretell_on_disks(system, &mut list, disks, Turn::Gone, entries)?;
    report_foretold(list.as_slice(), disks, &words.disk, entries, err);
    Ok(())
}
