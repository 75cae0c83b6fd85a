// The lines of calls.

ghost use Rattle.std.specs.Prelude.{◌≡◌, ◌∷◌, ◌++◌, codes, take};
ghost use Rattle.filenames.specs.ControlBlock.{name_at};
ghost use Rattle.machine.specs.Runs.{state_of};
ghost use Rattle.streams.specs.Pushing.{more};
ghost use Rattle.trace_lines.specs.CallForms.{argument_of, returned_of};
ghost use Rattle.trace_lines.specs.CallLines.{argument_text, block_in, block_text, call_start, count_text, drive_in, file_text, printed_text, record_text, returned_text};
ghost use Rattle.trace_lines.specs.Texts.{name_text};

use crate::escapes::push_quoted;
use crate::file_texts::{key_on, push_name};
use crate::forms::{Argument, Returned, argument_of, call_name, is_read, returned_of};
use filenames::Fcb;
use i8080::word_of;
use itoa::Buffer;
use machine::{Regs, Run};
use report_lines::{byte_digits, word_digits};
use streams::Text;

/// Returns the control block at DE.
pub fn block_at(run: &Run<'_>) -> Fcb
    ensures { result ≡ block_in (state_of run.now) }
{
    let regs = run.regs();
    let at = word_of(regs.e, regs.d);
    let mut bytes = [0; 36];
    for i in 0..36 {
        bytes[usize::from(i)] = run.byte(at.wrapping_add(i));
    }
    Fcb::from_bytes(&bytes)
}

// Appends a record number, and the buffer that gets the record or has it.
fn push_record<X: Text>(text: &mut X, run: &Run<'_>, number: u32)
    ensures { X.pushed text.new ≡ more (X.pushed text.old) (record_text (state_of run.now) number) }
{
    text.push(b" record ");
    text.push(Buffer::new().format(number).as_bytes());
    text.push(if is_read(run.regs().c) {
        b" to "
    } else {
        b" from "
    });
    text.push(word_digits(run.buffer()).as_bytes())
}

// Returns the number of the drive that the control block at DE names.
fn drive_in(run: &Run<'_>, block: &Fcb) -> u8
    requires { block.now ≡ block_in (state_of run.now) }
    ensures { result ≡ drive_in (state_of run.now) }
{
    if block.dr() == 0 {
        run.drive().number()
    } else {
        block.dr() - 1
    }
}

// Appends a file of the control block at DE, by its name there.
#[tactic(auto, unfolding(crate::specs::CallLines::file_text))]
fn push_file<X: Text>(text: &mut X, run: &Run<'_>, block: &Fcb, name: [u8; 11])
    requires { block.now ≡ block_in (state_of run.now) }
    ensures { X.pushed text.new ≡ more (X.pushed text.old) (file_text (state_of run.now) name) }
{
    push_name(text, &key_on(drive_in(run, block), name))
}

// Appends what the line shows of the control block at DE.
fn push_block<X: Text>(text: &mut X, run: &Run<'_>, argument: Argument)
    ensures { let w = state_of run.now in X.pushed text.new ≡ more (X.pushed text.old)
        (codes " " ++ file_text w (name_at (block_in w) 1) ++ block_text argument w) }
{
    let block = block_at(run);
    text.push(b" ");
    push_file(text, run, &block, block.key());
    match argument {
        Argument::Renaming => {
            text.push(b" to ");
            push_file(text, run, &block, block.new_key())
        }
        Argument::NextRecord => push_record(text, run, block.place()),
        Argument::ChosenRecord => {
            push_record(text, run, block.random() + 65536 * u32::from(block.r2()))
        }
        Argument::Nothing | Argument::Byte | Argument::Word | Argument::File => (),
    }
}

// Appends what the line shows of what a call is given.
fn push_argument<X: Text>(text: &mut X, run: &Run<'_>)
    ensures { let w = state_of run.now in X.pushed text.new
        ≡ more (X.pushed text.old) (argument_text (argument_of w.core.regs.c) w) }
{
    let regs = run.regs();
    let argument = argument_of(regs.c);
    match argument {
        Argument::Nothing => (),
        Argument::Byte => {
            text.push(b" ");
            text.push(byte_digits(regs.e).as_bytes())
        }
        Argument::Word => {
            text.push(b" ");
            text.push(word_digits(word_of(regs.e, regs.d)).as_bytes())
        }
        _ => push_block(text, run, argument),
    }
}

/// Appends what the line of a call shows before the call is executed.
pub fn push_call_start<X: Text>(text: &mut X, run: &Run<'_>)
    ensures { X.pushed text.new
        ≡ more (X.pushed text.old) (call_start run.now.step (state_of run.now)) }
{
    let number = run.regs().c;
    text.push(b"step ");
    text.push(Buffer::new().format(run.step()).as_bytes());
    text.push(b" call ");
    text.push(Buffer::new().format(number).as_bytes());
    text.push(b" ");
    text.push(call_name(number).as_bytes());
    push_argument(text, run)
}

// Appends what the line shows of what a call returned.
fn push_returned<X: Text>(text: &mut X, number: u8, regs: Regs)
    ensures { X.pushed text.new ≡ more (X.pushed text.old) (returned_text (returned_of number) regs) }
{
    match returned_of(number) {
        Returned::Nothing => (),
        Returned::Byte => {
            text.push(b" = ");
            text.push(byte_digits(regs.a).as_bytes())
        }
        Returned::Word => {
            text.push(b" = ");
            text.push(word_digits(word_of(regs.l, regs.h)).as_bytes())
        }
    }
}

// Returns the first bytes that a call sent.
fn first_bytes(bytes: &[u8]) -> &[u8]
    ensures { result.now ≡ take 64 bytes.now }
{
    &bytes[..64usize.min(bytes.len())]
}

// Appends how many bytes a call sent, if they are not all shown.
fn push_count<X: Text>(text: &mut X, count: usize)
    ensures { X.pushed text.new ≡ more (X.pushed text.old) (count_text count) }
{
    if count <= 64 {
        return;
    }
    text.push(b" of ");
    text.push(Buffer::new().format(count).as_bytes());
    text.push(b" bytes")
}

// Appends what the line shows of the bytes that a call sent.
fn push_printed<X: Text>(text: &mut X, bytes: &[u8])
    ensures { X.pushed text.new ≡ more (X.pushed text.old) (printed_text bytes.now) }
{
    if bytes.is_empty() {
        return;
    }
    text.push(b" \"");
    push_quoted(text, first_bytes(bytes));
    text.push(b"\"");
    push_count(text, bytes.len())
}

/// Appends what the line of a call shows after the call was executed: what it returned, from the registers, and the bytes that it sent.
pub fn push_call_end<X: Text>(text: &mut X, number: u8, regs: Regs, sent: &[u8])
    ensures { X.pushed text.new
        ≡ more (X.pushed text.old) (returned_text (returned_of number) regs ++ printed_text sent.now) }
{
    push_returned(text, number, regs);
    push_printed(text, sent)
}
