// Texts in which no character controls a terminal.

ghost use Rattle.std.specs.Prelude.{◌≡◌};
ghost use Rattle.faults.specs.Faults.{shown, shown_byte};
ghost use Rattle.streams.specs.Pushing.{more};

use mnemonics::byte_digits;
use streams::Text;

// Appends a byte, or its escape if it is a control character.
fn push_shown_byte<X: Text>(text: &mut X, byte: u8)
    ensures { X.pushed text.new ≡ more (X.pushed text.old) (shown_byte byte) }
{
    match byte {
        b'\r' => text.push(b"\\r"),
        b'\n' => text.push(b"\\n"),
        b'\t' => text.push(b"\\t"),
        0..=0x1f | 0x7f => {
            text.push(b"\\x");
            text.push(byte_digits(byte).as_bytes());
        }
        _ => text.push(&[byte]),
    }
}

/// Appends a text with an escape for each control character.
pub fn push_shown<X: Text>(text: &mut X, bytes: &[u8])
    ensures { X.pushed text.new ≡ more (X.pushed text.old) (shown bytes.now) }
{
    for byte in bytes {
        push_shown_byte(text, *byte);
    }
}
