ghost use Rattle.std.specs.Prelude.{◌≡◌, ◌==◌, ◌+◌, ◌^◌, ◌<◌, ◌≤◌, IsTrue, ◌↔◌, option_copied, length, min, slice_get, if◌then◌else◌};
ghost use Rattle.first_looks.specs.FileSteps.{lesser_step};
ghost use Rattle.first_looks.specs.declared.question.Question.TheVariants.{Cell, Script};
ghost use Rattle.machine.specs.Machine.{session_answers};
ghost use Rattle.machine.specs.Session.{splice};
ghost use Rattle.first_looks.specs.FirstLooks.{step_of};
ghost use Rattle.machine.specs.FirstLooks.{IsFirstLooks};
ghost use Rattle.replay.specs.Edits.{with_host_file, with_poke, with_splice};
ghost use Rattle.replay.specs.Touch.{IsNotedTouch};

use first_looks::{FirstLooks, Question};
use hostfiles::Key;
use machine::{HostFile, PROGRAM_LIMIT, Session};

/// Returns the first noted step that looked at a byte which a poke changes, or step `seen` if there is none. `at` counts from the
/// program's first byte.
pub fn poke_touch(looks: &FirstLooks, session: &Session, at: usize, bytes: &[u8]) -> u64
    requires noted { IsFirstLooks (session_answers session.now) looks.now }
    requires inside { at + length bytes.now ≤ length session.now.program }
    ensures { IsNotedTouch (session_answers session.now)
        (session_answers (with_poke session.now at bytes.now)) looks.now result }
{
    let program = session.program();
    let mut touch = looks.seen();
    for i in 0..bytes.len() {
        touch = lesser_if_changed(looks, program[at + i], bytes[i], at + i, touch);
    }
    touch
}

// Returns the lesser of `least` and the first step that looked at byte `at` of the program, or `least` if the byte does not
// change.
fn lesser_if_changed(looks: &FirstLooks, old: u8, new: u8, at: usize, least: u64) -> u64
    requires { at < PROGRAM_LIMIT }
    ensures { result
        ≡ (if old == new then least else lesser_step (step_of looks.now (Cell (256 + at))) least) }
{
    if old == new {
        return least;
    }
    lesser_step(looks.get(&Question::Cell(256 + at as u16)), least)
}

/// Returns the first noted step that looked at an offset of the script which has another byte, or none, after a splice: `removed`
/// bytes from offset `at` on are exchanged for `bytes`. Returns step `seen` if there is none.
pub fn splice_touch(
    looks: &FirstLooks,
    session: &Session,
    at: usize,
    removed: usize,
    bytes: &[u8],
) -> u64
    requires noted { IsFirstLooks (session_answers session.now) looks.now }
    requires inside { at + removed ≤ length session.now.script }
    ensures { IsNotedTouch (session_answers session.now)
        (session_answers (with_splice session.now at removed bytes.now))
        looks.now result }
{
    let script = session.script();
    let mut touch = looks.seen();
    for place in at..changes_end(looks, at, removed, bytes.len()) {
        if is_same_byte(script, at, removed, bytes, place) {
            continue;
        }
        touch = lesser_step(looks.get(&Question::Script(place)), touch);
        if looks.is_earliest_from(place) {
            return touch;
        }
    }
    touch
}

// Returns an offset from which on no look reads another byte after a splice. If as many bytes are inserted as are removed, the
// bytes after them do not move.
fn changes_end(looks: &FirstLooks, at: usize, removed: usize, added: usize) -> usize
    requires { at + removed < 2 ^ 64 }
    ensures { result ≡ (if removed == added then min (length looks.now.offsets) (at + removed)
        else length looks.now.offsets) }
{
    let end = looks.script_end();
    if removed == added {
        return end.min(at + removed);
    }
    end
}

/// Returns the first noted step that asked the host files a question with another answer once the file of a key is set to `new`,
/// or removed if that is `None`. Returns step `seen` if there is none.
pub fn file_touch(looks: &FirstLooks, session: &Session, key: &Key, new: Option<&HostFile>) -> u64
    ensures { IsNotedTouch (session_answers session.now)
        (session_answers (with_host_file session.now key.now (option_copied new.entry))) looks.now result }
{
    looks
        .files()
        .touch_of_change(looks.seen(), session.files(), key, new)
}

// Returns whether the offset `place`, which is not before the splice, has the same byte, or none, before and after it.
fn is_same_byte(script: &[u8], at: usize, removed: usize, bytes: &[u8], place: usize) -> bool
    requires inside { at + removed ≤ length script.now }
    requires later { at ≤ place }
    ensures { IsTrue result
        ↔ (slice_get script.now place ≡ slice_get (splice script.now at removed bytes.now) place) }
{
    script.get(place).copied() == byte_after(script, at, removed, bytes, place)
}

// Returns the byte at the offset `place`, which is not before `at`, once `removed` bytes from `at` on are exchanged for `bytes`.
fn byte_after(script: &[u8], at: usize, removed: usize, bytes: &[u8], place: usize) -> Option<u8>
    requires inside { at + removed ≤ length script.now }
    requires later { at ≤ place }
    ensures { result ≡ slice_get (splice script.now at removed bytes.now) place }
{
    if place - at < bytes.len() {
        return bytes.get(place - at).copied();
    }
    let end = &script[at + removed..];
    end.get(place - at - bytes.len()).copied()
}

// Returns the lesser of two steps, or the second if there is no first.
fn lesser_step(step: Option<u64>, least: u64) -> u64
    ensures { result ≡ lesser_step step least }
{
    match step {
        Some(step) if step < least => step,
        _ => least,
    }
}
