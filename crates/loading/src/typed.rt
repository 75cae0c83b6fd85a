// A script as typed text.

ghost use Rattle.std.specs.Prelude.{◌≡◌, [], IfErr, IfOk, MatchOption, OnOk, option_map};
ghost use Rattle.loading.specs.Typed as typed_scripts;
ghost use Rattle.loading.specs.Loading.{IsTypedFault, IsTypedScript};

use faults::Fault;
use hex::FromHex;
use std::alloc::{AllocError, Global};

// Returns the byte of the two hexadecimal digits with which a text begins, and the text after them.
fn by_digits(text: &[u8]) -> Option<(u8, &[u8])>
    ensures { option_map (λ r. (r.0, r.1.now)) result ≡ typed_scripts.by_digits text.now }
{
    if text.len() < 2 {
        return None;
    }
    let (digits, rest) = text.split_at(2);
    match <[u8; 1] as FromHex>::from_hex(digits) {
        Ok(bytes) => Some((bytes[0], rest)),
        Err(_) => None,
    }
}

// Returns the byte of a letter after a backslash.
fn letter_byte(letter: u8) -> Option<u8>
    ensures { result ≡ typed_scripts.letter_byte letter }
{
    match letter {
        b'r' => Some(b'\r'),
        b'n' => Some(b'\n'),
        b't' => Some(b'\t'),
        b'\\' => Some(b'\\'),
        _ => None,
    }
}

// Returns the byte of the text after a backslash, and the text after it.
fn escaped(text: &[u8]) -> Option<(u8, &[u8])>
    ensures { option_map (λ r. (r.0, r.1.now)) result ≡ typed_scripts.escaped text.now }
{
    let (letter, rest) = text.split_first()?;
    if *letter == b'x' {
        return by_digits(rest);
    }
    Some((letter_byte(*letter)?, rest))
}

// Returns the first byte of a text, and the text after it.
fn first_typed(text: &[u8]) -> Option<(u8, &[u8])>
    ensures { option_map (λ r. (r.0, r.1.now)) result ≡ typed_scripts.first_typed text.now }
{
    let (first, rest) = text.split_first()?;
    if *first == b'\\' {
        return escaped(rest);
    }
    Some((*first, rest))
}

// Returns the bytes of a text.
fn typed_bytes<'a>(alloc: Global, text: &'a str) -> Result<Vec<u8>, Fault<'a>>
    ensures bytes { IfOk result (λ bytes. typed_scripts.Gives text.entry.now bytes.items []) }
    ensures fault { IfErr result (IsTypedFault text.entry) }
{
    let mut bytes = Vec::new(alloc);
    let mut left = text.as_bytes();
    while !left.is_empty() {
        let Some((byte, rest)) = first_typed(left) else {
            return Err(Fault::BadEscape(text));
        };
        let Ok(()) = bytes.push(byte) else {
            return Err(Fault::OutOfMemory);
        };
        left = rest;
    }
    Ok(bytes)
}

// Adds a carriage return to bytes that do not end with one.
fn end_line(bytes: &mut Vec<u8>) -> Result<(), AllocError>
    ensures { OnOk result (bytes.new.items ≡ typed_scripts.as_line bytes.old.items) }
{
    match bytes.last() {
        Some(b'\r') => Ok(()),
        _ => Ok(bytes.push(b'\r')?),
    }
}

/// Returns the script of a text, if there is one.
pub fn typed_script<'a>(alloc: Global, text: Option<&'a str>) -> Result<Option<Vec<u8>>, Fault<'a>>
    ensures script { IfOk result
        (λ script. IsTypedScript text.entry (option_map (λ bytes. bytes.items) script)) }
    ensures fault { IfErr result (λ fault. MatchOption text.entry ⊥ (λ t. IsTypedFault t fault)) }
{
    let Some(text) = text else {
        return Ok(None);
    };
    let mut bytes = typed_bytes(alloc, text)?;
    end_line(&mut bytes)?;
    Ok(Some(bytes))
}
