// Bytes as hexadecimal digits, a chunk at a time.

ghost use Rattle.std.specs.Prelude.{◌≡◌, ◌≤◌, length};
ghost use Rattle.hex.specs.Hex.{encode_lower};
ghost use Rattle.report_lines.specs.KeyDigits.{key_digits};
ghost use Rattle.streams.specs.Pushing.{more};

use filenames::Key;
use streams::Text;

/// The bytes of a chunk.
const CHUNK_BYTES: usize = 256;

/// The digits of a chunk.
const CHUNK_DIGITS: usize = 512;

/// Appends two lower-case digits for each byte.
pub fn push_hex<X: Text>(text: &mut X, bytes: &[u8])
    ensures { X.pushed text.new ≡ more (X.pushed text.old) (encode_lower bytes.now) }
{
    let mut rest = bytes;
    while !rest.is_empty() {
        let (chunk, others) = rest.split_at(rest.len().min(CHUNK_BYTES));
        push_chunk(text, chunk);
        rest = others;
    }
}

// Appends the digits of a chunk.
fn push_chunk<X: Text>(text: &mut X, chunk: &[u8])
    requires { length chunk.now ≤ 256 }
    ensures { X.pushed text.new ≡ more (X.pushed text.old) (encode_lower chunk.now) }
{
    let mut buffer = [0; CHUNK_DIGITS];
    let digits = &mut buffer[..2 * chunk.len()];
    if hex::encode_to_slice(chunk, digits).is_err() {
        unreachable!();
    }
    text.push(digits)
}

/// Appends `=` and the bytes of a key: two lower-case digits for the drive and for each byte of the name.
pub fn push_key<X: Text>(text: &mut X, key: &Key)
    ensures { X.pushed text.new ≡ more (X.pushed text.old) (key_digits key.now) }
{
    text.push(b"=");
    push_hex(text, key)
}
