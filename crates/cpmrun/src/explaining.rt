// The explanation of a stop.

ghost use Rattle.std.specs.Prelude.{◌≡◌, map};
ghost use Rattle.one_run.specs.ChangedList.{changed_by};
ghost use Rattle.streams.specs.Streams.{WritesOrFails};
ghost use Rattle.cpmrun.specs.RunEnds as run_ends;

use command_words::Words;
use machine::WholeRun;
use one_run::{Disks, Entry, is_any_on_disk, push_explanation};
use streams::{Text, TextOver, Writer};

// Returns whether a changed file is on an unchanged disk.
fn keeps_disk(disks: Disks, entries: &[Entry<'_>]) -> bool
    ensures { result ≡ run_ends.keeps_disk disks (map changed_by entries.now) }
{
    match disks {
        Disks::Unchanged => is_any_on_disk(entries),
        _ => false,
    }
}

/// Reports where a run stopped, and what to do, if the words ask for that. A failure of the writer ends this, and is ignored.
pub fn explain<E: Writer>(
    words: &Words<'_>,
    run: &WholeRun<'_>,
    disks: Disks,
    entries: &[Entry<'_>],
    err: &mut E,
)
    ensures { WritesOrFails (E.output err.old) (E.output err.new)
        (run_ends.explained words.now run.now.session.now disks (map changed_by entries.now)) }
{
    let mut text = TextOver::new(err);
    if words.explain {
        push_explanation(&mut text, run, keeps_disk(disks, entries));
    }
    text.flush();
    let _ = text.finish();
}
