// The line of each stop.

ghost use Rattle.std.specs.Prelude.{◌≡◌, ◌++◌, slice_index};
ghost use Rattle.machine.specs.PlainState.{plain_run};
ghost use Rattle.one_run.specs.Explanations as lines;
ghost use Rattle.one_run.specs.Explanations.{end_of, explanation};
ghost use Rattle.streams.specs.Pushing.{more};

use crate::system_names::push_name;
use i8080::word_of;
use itoa::Buffer;
use machine::{Cause, Regs, STEP_LIMIT, WholeRun};
use report_lines::word_digits;
use streams::Text;

/// The address at which a program calls the BDOS. [Interface Guide 1979, page zero]
const BDOS: u16 = 0x0005;

/// The number of the call that selects a drive.
const SELECT_DISK: u8 = 14;

/// What comes after the name of an entry of the BIOS.
const OF_BIOS: &[u8] = b" of the BIOS, which is not here";

// Returns the registers at the end of a run.
fn regs(run: &WholeRun<'_>) -> Regs
    ensures { result ≡ (end_of run.now).core.regs }
{
    run.state.regs
}

// Returns the byte of a cell at the end of a run.
fn byte(run: &WholeRun<'_>, at: u16) -> u8
    ensures { result ≡ slice_index (end_of run.now).memory at }
{
    run.state.byte(run.session, at)
}

// Returns the word at an address at the end of a run.
fn word(run: &WholeRun<'_>, at: u16) -> u16
    ensures { result ≡ lines.word_in (end_of run.now) at }
{
    word_of(byte(run, at), byte(run, at.wrapping_add(1)))
}

// Returns whether at this address there is a CALL of the address at which the run stopped, or of the one that leads to the BDOS.
#[tactic(auto, unfolding(crate::specs::Explanations::is_system_call))]
fn is_system_call(run: &WholeRun<'_>, at: u16) -> bool
    ensures { result ≡ lines.is_system_call (end_of run.now) at }
{
    let (opcode, to) = (byte(run, at), word(run, at.wrapping_add(1)));
    let is_call = opcode == 0xcd || (opcode / 64 == 3 && opcode % 8 == 4);
    is_call && (to == regs(run).pc || to == BDOS)
}

// Appends a word after a text.
fn push_word<X: Text>(text: &mut X, before: &[u8], word: u16)
    ensures { X.pushed text.new ≡ more (X.pushed text.old) (before.now ++ lines.word_text word) }
{
    text.push(before);
    text.push(word_digits(word).as_bytes());
}

// Appends where the last call was made, or to which address it would return if no CALL made it.
#[tactic(auto, unfolding(crate::specs::Explanations::origin))]
fn push_origin<X: Text>(text: &mut X, run: &WholeRun<'_>)
    ensures { X.pushed text.new ≡ more (X.pushed text.old) (lines.origin (end_of run.now)) }
{
    let to = word(run, regs(run).sp);
    let from = to.wrapping_sub(3);
    if is_system_call(run, from) {
        push_word(text, b"from ", from);
    } else {
        push_word(text, b"to return to ", to);
    }
}

// Appends a limit of ten times this number of steps, or the largest one, if that is more steps.
#[tactic(auto, unfolding(crate::specs::Explanations::advice_text))]
fn push_advice<X: Text>(text: &mut X, steps: u64)
    ensures { X.pushed text.new ≡ more (X.pushed text.old) (lines.advice_text steps) }
{
    if steps < STEP_LIMIT {
        text.push(b"; --limit ");
        let larger = STEP_LIMIT.min(10 * steps.max(1));
        text.push(Buffer::new().format(larger).as_bytes());
        text.push(b" lets it run on");
    }
}

// Appends after how many steps and at which address the limit was reached, and a larger one.
fn push_limit<X: Text>(text: &mut X, steps: u64, at: u16)
    ensures { X.pushed text.new ≡ more (X.pushed text.old) (lines.limit_text steps at) }
{
    text.push(b"after ");
    text.push(Buffer::new().format(steps).as_bytes());
    push_word(text, b" steps, at ", at);
    push_advice(text, steps);
}

// Appends the number of the last call, and where it was made.
#[tactic(auto, unfolding(crate::specs::Explanations::call_text))]
fn push_call<X: Text>(text: &mut X, run: &WholeRun<'_>)
    ensures { X.pushed text.new ≡ more (X.pushed text.old) (lines.call_text (end_of run.now)) }
{
    text.push(b"call ");
    text.push(Buffer::new().format(regs(run).c).as_bytes());
    text.push(b" ");
    push_origin(text, run);
    text.push(b": ");
}

// Appends that the script has no more bytes, and how to give them, or change a disk without them.
fn push_exhausted<X: Text>(text: &mut X, keeps_disk: bool)
    ensures { X.pushed text.new ≡ more (X.pushed text.old) (lines.exhausted_text keeps_disk) }
{
    text.push(
        b"the program waits for a key, and the console input has no more; give it by --typed or --console",
    );
    if keeps_disk {
        text.push(b" (--partial changes the disk all the same)");
    }
}

// Appends the letter of the drive whose number a call was given, or that it has none.
fn push_drive<X: Text>(text: &mut X, call: u8, number: u8)
    ensures { X.pushed text.new ≡ more (X.pushed text.old) (lines.drive_text call number) }
{
    let drive = if call == SELECT_DISK {
        number
    } else {
        number.saturating_sub(1)
    };
    if drive < 16 {
        text.push(b"drive ");
        text.push(&[b'A' + drive]);
    } else {
        text.push(b"no drive");
    }
}

// Appends the explanation of a stop without its line end.
#[tactic(auto, unfolding(crate::specs::Explanations::words))]
fn push_words<X: Text>(text: &mut X, run: &WholeRun<'_>, keeps_disk: bool)
    ensures { X.pushed text.new ≡ more (X.pushed text.old)
        (lines.words keeps_disk (plain_run run.now.session.now)) }
{
    let regs = regs(run);
    match run.cause() {
        Cause::WarmBoot => {}
        Cause::Limit => push_limit(text, run.steps, regs.pc),
        Cause::Halt => push_word(text, b"HLT at ", regs.pc),
        Cause::Undefined(_) => {
            push_word(text, b"at ", regs.pc);
            text.push(b"; Z80 programs have such opcodes, and this is an 8080");
        }
        Cause::SystemArea(address) => {
            text.push(b"called ");
            push_origin(text, run);
            text.push(b": ");
            push_name(text, address, OF_BIOS, b"no entry of the BIOS");
        }
        Cause::NoDollar => {
            push_call(text, run);
            push_word(text, b"no $ from ", word_of(regs.e, regs.d));
            text.push(b" on");
        }
        Cause::ConsoleExhausted => {
            push_call(text, run);
            push_exhausted(text, keeps_disk);
        }
        Cause::Unsupported(number) => {
            push_call(text, run);
            push_name(text, u16::from(number), b"", b"no call of CP/M 2.2");
        }
        Cause::BadDrive(number) => {
            push_call(text, run);
            push_drive(text, regs.c, number);
        }
    }
}

/// Appends the line that says where a run stopped, and what to do, or nothing after a warm start. `keeps_disk` says that the run has a
/// disk that it would have changed if it had ended by itself.
#[tactic(auto, unfolding(crate::specs::Explanations::explanation))]
pub fn push_explanation<X: Text>(text: &mut X, run: &WholeRun<'_>, keeps_disk: bool)
    ensures { X.pushed text.new ≡ more (X.pushed text.old)
        (explanation keeps_disk (plain_run run.now.session.now)) }
{
    if run.cause() != Cause::WarmBoot {
        push_words(text, run, keeps_disk);
        text.push(b"\n");
    }
}
