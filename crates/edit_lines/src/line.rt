ghost use Rattle.std.specs.Prelude.{◌≡◌, ℕ, ◌<◌, ◌∷◌, [], List, length, MatchBool, MatchOption, codes};
ghost use Rattle.std.specs.List.{AllPass};
ghost use Rattle.hex.specs.Hex.{is_hex_digit};
ghost use Rattle.edit_lines.specs.Allocating.{NamesBytes};
ghost use Rattle.edit_lines.specs.EditLine.{EditLine, IsAddress, IsCommand, IsHexText, IsName, IsNumber};
ghost use Rattle.edit_lines.specs.Parsing.{AreSplit, Finds, Parses};
ghost use Rattle.edit_lines.specs.Pieces.{first_piece, other_pieces, pieces, words_of};
ghost use Rattle.edit_lines.specs.declared.line.Command.{Command};

use hex::{FromHex, FromHexError};
use hostfiles::Name;
use machine::Bytes;
use memchr::memchr;
use replay::Edit;
use std::alloc::{AllocError, Global};
use std::str;

/// The command of a line of an edit text.
#[derive(Drop)]
pub enum Command {
    /// An edit of the session: `insert AT HEX`, `replace AT HEX`, `remove AT COUNT`, `poke ADDR HEX`, `file NAME HEX`,
    /// `gone NAME` or `limit N`.
    Edit(Edit),
    /// A run of the session and its report: `run`.
    Run,
    /// The removal of the N oldest checkpoints: `drop N`. No later reply depends on it.
    DropOldest(u64),
}

/// The words of a line, if there are at most three.
#[derive(Clone, Copy)]
enum Words<'a> {
    /// One word.
    One(&'a [u8]),
    /// Two words.
    Two(&'a [u8], &'a [u8]),
    /// Three words.
    Three(&'a [u8], &'a [u8], &'a [u8]),
    /// Four words or more.
    More,
}

/// Returns the first word of a line, and the rest after its blank, if there is a blank.
fn split_word(line: &[u8]) -> (&[u8], Option<&[u8]>)
    ensures word { result.0.now ≡ first_piece 32 line.now }
    ensures rest { MatchOption result.1 (other_pieces 32 line.now ≡ [])
        (λ r. other_pieces 32 line.now ≡ pieces 32 r.now) }
{
    match memchr(b' ', line) {
        Some(at) => (&line[..at], Some(&line[at + 1..])),
        None => (line, None),
    }
}

/// Splits a line into its words.
fn split(line: &[u8]) -> Words<'_>
    ensures { AreSplit (words_of line.now) result }
{
    let (first, rest) = split_word(line);
    let Some(rest) = rest else {
        return Words::One(first);
    };
    let (second, rest) = split_word(rest);
    let Some(rest) = rest else {
        return Words::Two(first, second);
    };
    let (third, rest) = split_word(rest);
    if rest.is_some() {
        return Words::More;
    }
    Words::Three(first, second, third)
}

/// Parses a number of one to ten decimal digits.
fn number(word: &[u8]) -> Option<u64>
    ensures { Finds (IsNumber word.now) result }
{
    if word.is_empty() || word.len() > 10 {
        return None;
    }
    let mut n = 0u64;
    for i in 0..word.len() {
        let digit = word[i];
        if !(b'0' <= digit && digit <= b'9') {
            return None;
        }
        n = n * 10 + u64::from(digit - b'0');
    }
    Some(n)
}

/// Returns whether a byte is a hexadecimal digit, in either case.
fn is_digit(byte: u8) -> bool
    ensures { result ≡ is_hex_digit byte }
{
    b'A' <= byte && byte <= b'F' || b'a' <= byte && byte <= b'f' || b'0' <= byte && byte <= b'9'
}

/// Returns whether all bytes of a word are hexadecimal digits.
fn are_digits(word: &[u8]) -> bool
    ensures { MatchBool result (AllPass is_hex_digit word.now) (AllPass is_hex_digit word.now → ⊥) }
{
    for i in 0..word.len() {
        if !is_digit(word[i]) {
            return false;
        }
    }
    true
}

/// Parses bytes: `-` for none, or two hexadecimal digits for each. An allocation can fail only for a word with bytes.
fn hex_bytes(alloc: Global, word: &[u8]) -> Result<Option<Bytes>, AllocError>
    ensures { Parses (IsHexText word.now) (λ bytes. 0 < length bytes) result }
{
    if word == b"-".as_slice() {
        return Ok(Some(Bytes::new(Vec::new(alloc))));
    }
    if word.is_empty() {
        return Ok(None);
    }
    match hex::decode(alloc, word) {
        Ok(bytes) => Ok(Some(Bytes::new(bytes))),
        Err(FromHexError::OutOfMemory) => {
            if are_digits(word) {
                return Err(AllocError);
            }
            Ok(None)
        }
        Err(_) => Ok(None),
    }
}

/// Parses an address of four hexadecimal digits.
fn address(word: &[u8]) -> Option<u16>
    ensures { Finds (IsAddress word.now) result }
{
    match <[u8; 2] as FromHex>::from_hex(word) {
        Ok(bytes) => Some(u16::from(bytes[0]) * 256 + u16::from(bytes[1])),
        Err(_) => None,
    }
}

/// Parses the name of a file, in either case: 1 to 8 bytes, then optionally a `.` and a type of up to 3 bytes. A letter A to D
/// and `:` before it name the drive, which is A by default.
fn name(word: &[u8]) -> Option<Name>
    ensures { Finds (IsName word.now) result }
{
    let Ok(text) = str::from_utf8(word) else {
        return None;
    };
    match Name::parse(text) {
        Ok(name) => Some(name),
        Err(_) => None,
    }
}

/// Parses the command of two words, of which the second is a number or a name.
fn two_word_command(verb: &[u8], word: &[u8]) -> Option<Command>
    ensures { Finds (IsCommand (verb.now ∷ word.now ∷ [])) result }
{
    if verb == b"gone".as_slice() {
        let name = name(word)?;
        return Some(Command::Edit(Edit::RemoveFile(name)));
    }
    let is_limit = verb == b"limit".as_slice();
    if !is_limit && verb != b"drop".as_slice() {
        return None;
    }
    match number(word) {
        Some(n) if is_limit => Some(Command::Edit(Edit::SetLimit(n))),
        Some(n) => Some(Command::DropOldest(n)),
        None => None,
    }
}

/// Parses the words after `poke`: an address and the bytes.
fn poke(alloc: Global, at: &[u8], bytes: &[u8]) -> Result<Option<Command>, AllocError>
    ensures { Parses (IsCommand (codes "poke" ∷ at.now ∷ bytes.now ∷ [])) NamesBytes result }
{
    let Some(at) = address(at) else {
        return Ok(None);
    };
    match hex_bytes(alloc, bytes)? {
        Some(bytes) => Ok(Some(Command::Edit(Edit::Poke(at, bytes)))),
        None => Ok(None),
    }
}

/// Parses the words after `insert`: an offset and the bytes.
fn insert(alloc: Global, at: &[u8], bytes: &[u8]) -> Result<Option<Command>, AllocError>
    ensures { Parses (IsCommand (codes "insert" ∷ at.now ∷ bytes.now ∷ [])) NamesBytes result }
{
    let Some(at) = number(at) else {
        return Ok(None);
    };
    match hex_bytes(alloc, bytes)? {
        Some(bytes) => Ok(Some(Command::Edit(Edit::Insert(at, bytes)))),
        None => Ok(None),
    }
}

/// Parses the words after `replace`: an offset and the bytes.
fn replace(alloc: Global, at: &[u8], bytes: &[u8]) -> Result<Option<Command>, AllocError>
    ensures { Parses (IsCommand (codes "replace" ∷ at.now ∷ bytes.now ∷ [])) NamesBytes result }
{
    let Some(at) = number(at) else {
        return Ok(None);
    };
    match hex_bytes(alloc, bytes)? {
        Some(bytes) => Ok(Some(Command::Edit(Edit::Replace(at, bytes)))),
        None => Ok(None),
    }
}

/// Parses the words after `remove`: an offset and a count.
fn remove(at: &[u8], count: &[u8]) -> Option<Command>
    ensures { Finds (IsCommand (codes "remove" ∷ at.now ∷ count.now ∷ [])) result }
{
    let at = number(at)?;
    let count = number(count)?;
    Some(Command::Edit(Edit::Remove(at, count)))
}

/// Parses the words after `file`: a name and the bytes.
fn set_file(alloc: Global, name_word: &[u8], bytes: &[u8]) -> Result<Option<Command>, AllocError>
    ensures { Parses (IsCommand (codes "file" ∷ name_word.now ∷ bytes.now ∷ [])) NamesBytes result }
{
    let Some(name) = name(name_word) else {
        return Ok(None);
    };
    match hex_bytes(alloc, bytes)? {
        Some(bytes) => Ok(Some(Command::Edit(Edit::SetFile(name, bytes)))),
        None => Ok(None),
    }
}

/// Parses the command of three words.
fn three_word_command(
    alloc: Global,
    verb: &[u8],
    at: &[u8],
    last: &[u8],
) -> Result<Option<Command>, AllocError>
    ensures { Parses (IsCommand (verb.now ∷ at.now ∷ last.now ∷ [])) NamesBytes result }
{
    if verb == b"insert".as_slice() {
        return insert(alloc, at, last);
    }
    if verb == b"replace".as_slice() {
        return replace(alloc, at, last);
    }
    if verb == b"remove".as_slice() {
        return Ok(remove(at, last));
    }
    if verb == b"poke".as_slice() {
        return poke(alloc, at, last);
    }
    if verb == b"file".as_slice() {
        return set_file(alloc, at, last);
    }
    Ok(None)
}

/// Parses a line without its 0AH, and returns its command, or `None` if it has none.
///
/// # Errors
///
/// Returns `Err` if an allocation fails for the bytes of a command. A line that has no command never fails.
pub fn parse_line(alloc: Global, line: &[u8]) -> Result<Option<Command>, AllocError>
    ensures { Parses (EditLine line.now) NamesBytes result }
{
    match split(line) {
        Words::One(verb) if verb == b"run".as_slice() => Ok(Some(Command::Run)),
        Words::Two(verb, word) => Ok(two_word_command(verb, word)),
        Words::Three(verb, at, last) => three_word_command(alloc, verb, at, last),
        _ => Ok(None),
    }
}

/// A line has at most one command.
pub fn lines_have_one_command()
    ensures { (line : List ℕ) (c d : Command) → EditLine line c → EditLine line d → c ≡ d }
{}
