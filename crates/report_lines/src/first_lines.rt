// The first lines of a report, and the line of its console text.

ghost use Rattle.std.specs.Prelude.{◌≡◌};
ghost use Rattle.report_lines.specs.FirstLines as first_lines;
ghost use Rattle.report_lines.specs.FirstLines.{regs_text, text_line, word_text};
ghost use Rattle.streams.specs.Pushing.{more};

use crate::hex_digits::push_hex;
use arrayvec::ArrayString;
use itoa::Buffer;
use machine::{Cause, Regs};
use mnemonics::byte_digits;
use streams::Text;

/// Returns the four digits of a word, the high byte first.
#[tactic(auto, unfolding(hex::specs::Hex::encode_with))]
pub fn word_digits(value: u16) -> ArrayString<4>
    ensures { result.bytes ≡ word_text value }
{
    let mut digits = ArrayString::new();
    digits.push_str(byte_digits((value / 256) as u8).as_str());
    digits.push_str(byte_digits((value % 256) as u8).as_str());
    digits
}

// Returns the name of a cause with its value, as a report has it: a byte or an address in upper-case hexadecimal digits, the number
// of a call or a drive in decimal.
fn cause_words(cause: Cause) -> ArrayString<64>
    ensures { result.bytes ≡ first_lines.cause_text cause }
{
    let mut text = ArrayString::new();
    match cause {
        Cause::WarmBoot => text.push_str("WarmBoot"),
        Cause::Halt => text.push_str("Halt"),
        Cause::Limit => text.push_str("Limit"),
        Cause::Undefined(value) => {
            text.push_str("Undefined ");
            text.push_str(byte_digits(value).as_str());
        }
        Cause::SystemArea(address) => {
            text.push_str("SystemArea ");
            text.push_str(word_digits(address).as_str());
        }
        Cause::ConsoleExhausted => text.push_str("ConsoleExhausted"),
        Cause::NoDollar => text.push_str("NoDollar"),
        Cause::Unsupported(number) => {
            text.push_str("Unsupported ");
            text.push_str(Buffer::new().format(number));
        }
        Cause::BadDrive(number) => {
            text.push_str("BadDrive ");
            text.push_str(Buffer::new().format(number));
        }
    }
    text
}

/// Returns the line that says why a run stopped, with its line end.
pub fn stop_line(cause: Cause) -> ArrayString<80>
    ensures { result.bytes ≡ first_lines.stop_line cause }
{
    let mut text = ArrayString::new();
    text.push_str("stop ");
    text.push_str(cause_words(cause).as_str());
    text.push_str("\n");
    text
}

/// Returns the registers with their names, without a line end.
pub fn regs_words(regs: Regs) -> ArrayString<64>
    ensures { result.bytes ≡ regs_text regs }
{
    let mut text = ArrayString::new();
    text.push_str("regs A=");
    text.push_str(byte_digits(regs.a).as_str());
    text.push_str(" F=");
    text.push_str(byte_digits(regs.flags.byte()).as_str());
    text.push_str(" B=");
    text.push_str(byte_digits(regs.b).as_str());
    text.push_str(" C=");
    text.push_str(byte_digits(regs.c).as_str());
    text.push_str(" D=");
    text.push_str(byte_digits(regs.d).as_str());
    text.push_str(" E=");
    text.push_str(byte_digits(regs.e).as_str());
    text.push_str(" H=");
    text.push_str(byte_digits(regs.h).as_str());
    text.push_str(" L=");
    text.push_str(byte_digits(regs.l).as_str());
    text.push_str(" SP=");
    text.push_str(word_digits(regs.sp).as_str());
    text.push_str(" PC=");
    text.push_str(word_digits(regs.pc).as_str());
    text
}

// Returns the line of the steps.
fn steps_line(steps: u64) -> ArrayString<32>
    ensures { result.bytes ≡ first_lines.steps_line steps }
{
    let mut text = ArrayString::new();
    text.push_str("steps ");
    text.push_str(Buffer::new().format(steps));
    text.push_str("\n");
    text
}

/// Returns the first three lines of a report: `stop`, `steps` and `regs`.
pub fn report_head(cause: Cause, steps: u64, regs: Regs) -> ArrayString<256>
    ensures { result.bytes ≡ first_lines.report_head cause steps regs }
{
    let mut text = ArrayString::new();
    text.push_str(stop_line(cause).as_str());
    text.push_str(steps_line(steps).as_str());
    text.push_str(regs_words(regs).as_str());
    text.push_str("\n");
    text
}

/// Appends the line of the console text: two lower-case hexadecimal digits for each byte, or `-` for no byte.
pub fn push_text<X: Text>(text: &mut X, console: &[u8])
    ensures { X.pushed text.new ≡ more (X.pushed text.old) (text_line console.now) }
{
    text.push(b"text ");
    if console.is_empty() {
        text.push(b"-\n");
        return;
    }
    push_hex(text, console);
    text.push(b"\n")
}
