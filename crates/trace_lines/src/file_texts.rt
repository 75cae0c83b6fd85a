// Files in the lines of calls.

ghost use Rattle.std.specs.Prelude.{◌≡◌, ◌∷◌};
ghost use Rattle.std.specs.List.{after_first, before_first, list_all};
ghost use Rattle.filenames.specs.Names.{is_blank, type_text};
ghost use Rattle.streams.specs.Pushing.{more};
ghost use Rattle.trace_lines.specs.Texts.{drive_part, escaped, is_plain, is_plain_field, is_plain_name, name_text};

use crate::escapes::push_quoted;
use filenames::{Key, find_byte};
use report_lines::push_key;
use streams::Text;

/// Returns the key of eleven bytes on a drive.
pub fn key_on(drive: u8, name: [u8; 11]) -> Key
    ensures { result ≡ drive ∷ name }
{
    let mut key = [drive; 12];
    key[1..].copy_from_slice(&name);
    key
}

// Returns whether a name in a text has this byte.
fn is_plain(byte: u8) -> bool
    ensures { result ≡ is_plain byte }
{
    byte.is_ascii_graphic() && byte != b'.' && byte != b':'
}

// Returns the bytes of a field before its first blank, and the bytes after that.
fn split_at_blank(field: &[u8]) -> (&[u8], &[u8])
    ensures text { result.0.now ≡ before_first is_blank field.now }
    ensures rest { result.1.now ≡ after_first is_blank field.now }
{
    let end = find_byte(field, b' ');
    if end < field.len() {
        return (&field[..end], &field[end + 1..]);
    }
    (field, &field[end..])
}

// Returns whether all bytes are bytes of a name in a text.
fn are_plain(text: &[u8]) -> bool
    ensures { result ≡ list_all is_plain text.now }
{
    text.iter().all(|byte| is_plain(*byte))
}

// Returns whether all bytes are blanks.
fn are_blank(text: &[u8]) -> bool
    ensures { result ≡ list_all is_blank text.now }
{
    text.iter().all(|byte| *byte == b' ')
}

// Returns whether a field is bytes of a name in a text, and after them only blanks.
fn is_plain_field(field: &[u8]) -> bool
    ensures { result ≡ is_plain_field field.now }
{
    let (text, rest) = split_at_blank(field);
    are_plain(text) && are_blank(rest)
}

// Returns whether the text of a name shows all of its bytes.
fn is_plain_name(key: &Key) -> bool
    ensures { result ≡ is_plain_name key.now }
{
    is_plain(key[1]) && is_plain_field(&key[1..9]) && is_plain_field(&key[9..12])
}

// Returns what is before a name on a drive.
fn drive_part(drive: u8) -> &'static str
    ensures { result.now ≡ drive_part drive }
{
    match drive {
        0 => "",
        1 => "B:",
        2 => "C:",
        3 => "D:",
        _ => "?:",
    }
}

// Appends the type of a name with a dot before it, if it is not empty.
fn push_type<X: Text>(text: &mut X, kind: &[u8])
    ensures { X.pushed text.new ≡ more (X.pushed text.old) (escaped (type_text kind.now)) }
{
    if kind.is_empty() {
        return;
    }
    text.push(b".");
    push_quoted(text, kind)
}

/// Appends a file by its key.
pub fn push_name<X: Text>(text: &mut X, key: &Key)
    ensures { X.pushed text.new ≡ more (X.pushed text.old) (name_text key.now) }
{
    if !is_plain_name(key) {
        return push_key(text, key);
    }
    text.push(drive_part(key[0]).as_bytes());
    push_quoted(text, split_at_blank(&key[1..9]).0);
    push_type(text, split_at_blank(&key[9..12]).0)
}
