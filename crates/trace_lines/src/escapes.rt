// Texts with escapes.

ghost use Rattle.std.specs.Prelude.{◌≡◌};
ghost use Rattle.streams.specs.Pushing.{more};
ghost use Rattle.trace_lines.specs.Texts.{escaped};

use report_lines::byte_digits;
use streams::Text;

/// Appends a text with escapes.
pub fn push_quoted<X: Text>(text: &mut X, bytes: &[u8])
    ensures { X.pushed text.new ≡ more (X.pushed text.old) (escaped bytes.now) }
{
    for byte in bytes {
        match *byte {
            b'"' | b'\\' => text.push(&[b'\\', *byte]),
            b'\r' => text.push(b"\\r"),
            b'\n' => text.push(b"\\n"),
            b'\t' => text.push(b"\\t"),
            0x20..=0x7e => text.push(&[*byte]),
            _ => {
                text.push(b"\\x");
                text.push(byte_digits(*byte).as_bytes())
            }
        }
    }
}
