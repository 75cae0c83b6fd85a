// The words of a command tail, with the drive and the name in a word.

ghost use Rattle.std.specs.Prelude.{◌≡◌, length};
ghost use Rattle.command_tail.specs.Words.{without_blanks, first_word, after_first_word, drive_byte, name_text, field_of, drive_and_name};

use filenames::{find_byte, split_at_dot};

/// Returns the first word of a text, and the text after it. Words are separated by blanks; if there is no word, both
/// are empty.
pub fn split_word(text: &[u8]) -> (&[u8], &[u8])
    ensures word { result.0.now ≡ first_word text.now }
    ensures rest { result.1.now ≡ after_first_word text.now }
{
    let text = without_blanks(text);
    let end = find_byte(text, b' ');
    (&text[..end], &text[end..])
}

// Returns a text without its leading blanks.
fn without_blanks(text: &[u8]) -> &[u8]
    ensures { result.now ≡ without_blanks text.now }
{
    for start in 0..text.len() {
        if text[start] != b' ' {
            return &text[start..];
        }
    }
    &[]
}

/// Returns the drive byte and the name in a word. The drive byte is 1 to 26 if the word begins with a letter A to Z and
/// `:`, else 0. The field of the name has 8 bytes, and the field of the type 3.
pub fn drive_and_name(word: &[u8]) -> [u8; 12]
    ensures { result ≡ drive_and_name word.now }
{
    let (drive, text) = split_drive(word);
    let (name, behind) = split_at_dot(text);
    let (kind, _) = split_at_dot(behind);
    let mut bytes = [drive; 12];
    fill_field(&mut bytes[1..9], name);
    fill_field(&mut bytes[9..12], kind);
    bytes
}

// Returns the drive byte of a word, and the text of its name.
fn split_drive(word: &[u8]) -> (u8, &[u8])
    ensures drive { result.0 ≡ drive_byte word.now }
    ensures text { result.1.now ≡ name_text word.now }
{
    if word.len() > 1 && word[1] == b':' && word[0].is_ascii_uppercase() {
        return (word[0] - b'A' + 1, &word[2..]);
    }
    (0, word)
}

// Fills a field with a part of a name. The part ends at a `*`, which fills the rest of the field with `?`. A shorter
// part is padded with blanks, and a longer one is cut.
fn fill_field(field: &mut [u8], part: &[u8])
    ensures { field.new ≡ field_of (length field.old) part.now }
{
    let star = find_byte(part, b'*');
    let rest = if star < part.len() { b'?' } else { b' ' };
    let end = star.min(field.len());
    field.fill(rest);
    field[..end].copy_from_slice(&part[..end]);
}
