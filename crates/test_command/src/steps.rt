// How many steps the replies to edit lines take, by the options.

use crate::fixtures::Act::{Count, Put};
use crate::fixtures::{Act, TAKE, play};
use std::test::Fail;

// A run takes six steps, and the fourth reads the script. Checkpoints are due at each multiple of the spacing and at the stop. A
// run after the edit resumes from the last one at one of the first three steps, if one is kept; a run without an edit resumes
// from the stop.
const EDITED: &[Act<'_>] = &[
    Put("take.com", TAKE),
    Put("typed", b"x"),
    Put("edited", b"run\nreplace 0 79\nrun\n"),
    Put("again", b"run\nrun\n"),
    Count("@/take.com --console @/typed --edits @/edited", 12),
    Count(
        "@/take.com --console @/typed --edits @/edited --spacing 1",
        9,
    ),
    Count(
        "@/take.com --console @/typed --edits @/edited --spacing 2",
        10,
    ),
    Count(
        "@/take.com --console @/typed --edits @/edited --spacing 3",
        9,
    ),
    Count(
        "@/take.com --console @/typed --edits @/edited --spacing 4",
        12,
    ),
    Count(
        "@/take.com --console @/typed --edits @/edited --spacing 1 --slots 1",
        12,
    ),
    Count(
        "@/take.com --console @/typed --edits @/edited --spacing 1 --slots 3",
        12,
    ),
    Count(
        "@/take.com --console @/typed --edits @/edited --spacing 1 --slots 4",
        9,
    ),
    Count(
        "@/take.com --console @/typed --edits @/edited --spacing 3 --slots 1",
        12,
    ),
    Count(
        "@/take.com --console @/typed --edits @/edited --spacing 3 --slots 2",
        9,
    ),
    Count(
        "@/take.com --console @/typed --edits @/again --spacing 1 --slots 1",
        6,
    ),
    Count(
        "@/take.com --console @/typed --edits @/again --spacing 4 --slots 1",
        6,
    ),
    Count("@/take.com --console @/typed --edits @/again", 6),
];

#[test]
fn spacing_and_slots_say_where_a_run_resumes(rt: HostRuntime) -> Result<(), Fail> {
    play(
        &rt,
        &[("spacing and slots say where a run resumes", EDITED)],
    )
}
