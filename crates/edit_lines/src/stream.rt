ghost use Rattle.std.specs.Prelude.{◌≡◌, ℕ, ◌+◌, ◌*◌, ◌<◌, ◌≤◌, List, [], length, IfErr, OnOk, vec_len};
ghost use Rattle.std.specs.Io.KnownBytes.{Consumes};
ghost use Rattle.machine.specs.Inputs.{Session};
ghost use Rattle.edit_lines.specs.Effects.{HasEffects};
ghost use Rattle.edit_lines.specs.Faults.{AreLines, EndsReplay, replay_view};
ghost use Rattle.edit_lines.specs.Pieces.{unless_empty};
ghost use Rattle.edit_lines.specs.Progress.{Breaks, Executes, ExecutesLine, Takes, replay_state};
ghost use Rattle.edit_lines.specs.Replay.{ReplayEnd, Replays};

use crate::buffer::LineBuffer;
use crate::ending::{Ending, ReplayFault};
use crate::execute::execute_line;
use machine::{Meter, STEP_LIMIT};
use memchr::memchr;
use replay::Runner;
use std::alloc::Global;
use streams::{Reader, Writer};

/// Executes the line that was read, and begins the next one.
fn end_line<W: Writer>(
    buffer: &mut LineBuffer,
    runner: &mut Runner,
    meter: &mut Meter,
    writer: &mut W,
) -> Result<(), ReplayFault>
    requires { meter.old ≤ STEP_LIMIT * buffer.old.lines }
    ensures does { ExecutesLine (buffer.old.lines + 1) buffer.old.line.items
        (replay_state runner.old meter.old (W.output writer.old))
        (replay_state runner.new meter.new (W.output writer.new)) result }
    ensures next { OnOk result ((buffer.new.lines ≡ buffer.old.lines + 1) × (buffer.new.line.items ≡ [])) }
    ensures meter { OnOk result (meter.new ≤ STEP_LIMIT * buffer.new.lines) }
{
    let line = buffer.line.as_slice();
    let alloc = *buffer.line.allocator();
    execute_line(alloc, line, buffer.lines + 1, runner, meter, writer)?;
    buffer.lines += 1;
    buffer.line.clear();
    Ok(())
}

/// Takes a piece of the text, and executes each line that ends in it.
fn take_piece<W: Writer>(
    buffer: &mut LineBuffer,
    runner: &mut Runner,
    meter: &mut Meter,
    writer: &mut W,
    piece: &[u8],
) -> Result<(), ReplayFault>
    requires { meter.old ≤ STEP_LIMIT * buffer.old.lines }
    ensures takes { OnOk result (Takes buffer.old.lines
        (replay_state runner.old meter.old (W.output writer.old)) buffer.old.line.items piece.now
        buffer.new.lines (replay_state runner.new meter.new (W.output writer.new)) buffer.new.line.items) }
    ensures breaks { IfErr result (Breaks buffer.old.lines
        (replay_state runner.old meter.old (W.output writer.old)) buffer.old.line.items piece.now
        (replay_state runner.new meter.new (W.output writer.new))) }
    ensures meter { OnOk result (meter.new ≤ STEP_LIMIT * buffer.new.lines) }
    ensures on { OnOk result (65537 * buffer.old.lines + vec_len buffer.old.line + length piece.now
        ≤ 65537 * buffer.new.lines + vec_len buffer.new.line) }
{
    let mut rest = piece;
    while let Some(at) = memchr(b'\n', rest) {
        buffer.push_part(&rest[..at])?;
        end_line(buffer, runner, meter, writer)?;
        rest = &rest[at + 1..];
    }
    buffer.push_part(rest)?;
    Ok(())
}

/// Executes the last line, if it has no 0AH.
fn finish<W: Writer>(
    buffer: &mut LineBuffer,
    runner: &mut Runner,
    meter: &mut Meter,
    writer: &mut W,
) -> Result<(), ReplayFault>
    requires { meter.old ≤ STEP_LIMIT * buffer.old.lines }
    ensures ok { OnOk result (
        (buffer.new.lines ≡ buffer.old.lines + length (unless_empty buffer.old.line.items))
        × Executes buffer.old.lines (replay_state runner.old meter.old (W.output writer.old))
        (unless_empty buffer.old.line.items) (replay_state runner.new meter.new (W.output writer.new))) }
    ensures err { IfErr result (λ fault. (0 < length buffer.old.line.items)
        × ExecutesLine (buffer.old.lines + 1) buffer.old.line.items
        (replay_state runner.old meter.old (W.output writer.old))
        (replay_state runner.new meter.new (W.output writer.new)) result) }
{
    if buffer.line.is_empty() {
        return Ok(());
    }
    end_line(buffer, runner, meter, writer)?;
    Ok(())
}

/// Replays the edit lines of the reader, and writes the reply to each line in order. The meter must be new. At the end or at an
/// error, the runner has the session after the executed lines, and at most 131,072 bytes past them were read. The lines change the
/// runner's checkpoints and the meter one after the other, and nothing else changes them: an edit leaves exactly the checkpoints that
/// it does not touch, and a run adds only the steps from the kept one where it begins. The options stay the same.
///
/// # Errors
///
/// [`ReplayFault`] says what holds after each. `OutOfMemory` can occur only at the start, when the buffer for a line is allocated and
/// nothing was read, or at a line that may need memory: a run, an edit line that names bytes, or an insertion or a file that the session
/// does not refuse. Exactly the lines before it were executed, and their replies written.
///
/// # Example
///
/// Replays the edit lines of one device and writes the replies to another; `Over` makes a `Reader` of any `Read`, and a `Writer` of any
/// `Write`:
///
/// ```text
/// let mut reader = Over::new(fs::open(&rt, "edits.txt")?);
/// let mut writer = Over::new(rt.stdout());
/// let ending = replay(alloc, &mut runner, &mut Meter::new(), &mut reader, &mut writer)?;
/// ```
pub fn replay<R: Reader, W: Writer>(
    alloc: Global,
    runner: &mut Runner,
    meter: &mut Meter,
    reader: &mut R,
    writer: &mut W,
) -> Result<Ending, ReplayFault>
    requires { meter.old ≡ 0 }
    ensures ends { let left = (R.input reader.new).left in
        (bytes : List ℕ) × (done : List (List ℕ)) × (next : List (List ℕ))
        × Consumes (R.input reader.old).left left bytes × AreLines left bytes done next
        × EndsReplay left bytes done next (replay_view runner.old.session (W.output writer.old))
        (replay_view runner.new.session (W.output writer.new)) result
        × HasEffects runner.old meter.old bytes done runner.new meter.new result }
    ensures read { result ≡ Err ReplayFault.Read
        → (R.input reader.old).failures < (R.input reader.new).failures }
{
    let mut buffer = LineBuffer::new(alloc)?;
    let mut piece = [0u8; 4096];
    loop {
        let Ok(count) = reader.read(&mut piece) else {
            return Err(ReplayFault::Read);
        };
        if count == 0 {
            finish(&mut buffer, runner, meter, writer)?;
            return Ok(Ending {
                lines: buffer.lines,
            });
        }
        take_piece(&mut buffer, runner, meter, writer, &piece[..count])?;
    }
}

/// A replay is a function of its first session and its lines: two replays of the same lines write the same text, and have the
/// same last session and the same end.
pub fn replays_are_equal()
    ensures { (first : Session) (lines : List (List ℕ)) (text other_text : List ℕ)
        (last other_last : Session) (end other_end : ReplayEnd)
        → Replays first lines text last end → Replays first lines other_text other_last other_end
        → (text ≡ other_text) × (last ≡ other_last) × (end ≡ other_end) }
{}
