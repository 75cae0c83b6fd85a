// Fields of names: bytes of a name, padded with blanks.

ghost use Rattle.std.specs.Prelude.{◌≡◌, ◌≤◌, ◌++◌, ◌==◌, true, length, map, drop};
ghost use Rattle.std.specs.List.{list_all, before_first, after_first, position_or_len};
ghost use Rattle.std.specs.Char.{to_ascii_uppercase};
ghost use Rattle.filenames.specs.Names.{is_allowed, is_dot, is_blank, is_field};

/// Returns the index of the first such byte in a text, or the text's length if there is none.
pub fn find_byte(text: &[u8], byte: u8) -> usize
    ensures place { result ≡ position_or_len (λ b. b == byte) text.now }
    ensures within { result ≤ length text.now }
{
    for place in 0..text.len() {
        if text[place] == byte {
            return place;
        }
    }
    text.len()
}

/// Returns the text before the first `.`, and the text after it.
pub fn split_at_dot(text: &[u8]) -> (&[u8], &[u8])
    ensures name { result.0.now ≡ before_first is_dot text.now }
    ensures kind { result.1.now ≡ after_first is_dot text.now }
{
    let end = find_byte(text, b'.');
    if end < text.len() {
        return (&text[..end], &text[end + 1..]);
    }
    (text, &text[end..])
}

/// Returns whether a byte may be in a name in upper case: A to Z, 0 to 9, `$`, `#`, `@`, `-` or `_`.
pub fn is_allowed(byte: u8) -> bool
    ensures { result ≡ is_allowed byte }
{
    // Most bytes of names are letters, which take two comparisons.
    if byte >= b'A' {
        return byte <= b'Z' || byte == b'_';
    }
    byte.is_ascii_digit() || byte == b'$' || byte == b'#' || byte == b'@' || byte == b'-'
}

/// Returns whether all bytes of a text may be in a name, after its letters are converted to upper case.
pub fn all_allowed(text: &[u8]) -> bool
    ensures { result ≡ list_all is_allowed (map to_ascii_uppercase text.now) }
{
    for i in 0..text.len() {
        if !is_allowed(text[i].to_ascii_uppercase()) {
            return false;
        }
    }
    true
}

/// Copies a text to the start of a field, with its letters in upper case.
pub fn copy_uppercase(field: &mut [u8], text: &[u8])
    requires { length text.now ≤ length field.old }
    ensures { field.new ≡ map to_ascii_uppercase text.now ++ drop (length text.now) field.old }
{
    for i in 0..text.len() {
        field[i] = text[i].to_ascii_uppercase();
    }
}

/// Returns whether a field is bytes of a name followed only by blanks.
pub fn is_field(field: &[u8]) -> bool
    ensures { result ≡ is_field field.now }
{
    for i in 0..field.len() {
        if !is_allowed(field[i]) {
            return all_blank(&field[i..]);
        }
    }
    true
}

/// Returns the bytes of a field before its blanks.
pub fn field_text(field: &[u8]) -> &str
    requires { is_field field.now ≡ true }
    ensures { result.now ≡ before_first is_blank field.now }
{
    let end = find_byte(field, b' ');
    str::from_utf8(&field[..end]).unwrap()
}

// Returns whether all bytes are blanks.
fn all_blank(text: &[u8]) -> bool
    ensures { result ≡ list_all is_blank text.now }
{
    text.iter().all(|b| *b == b' ')
}
