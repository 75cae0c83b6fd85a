// Names of files.

ghost use Rattle.std.specs.Prelude.{◌≡◌, ◌<◌, ◌≤◌, ◌++◌, ◌↔◌, length, slice_index, slice_set, true, IsSome, IfSome};
ghost use Rattle.std.specs.Option.{option_map};
ghost use Rattle.filenames.specs.Drives.{drive_number};
ghost use Rattle.std.specs.List.{before_first};
ghost use Rattle.filenames.specs.Names.{name_of, name_without_drive, key_of, drive_of, drive_text, is_sayable, display_text, type_text, dot_text};
ghost use Rattle.filenames.specs.Names.{is_blank, name_field, type_field, ParsesBack, NamesAreSayable};

use crate::drive::Drive;
use crate::field::{all_allowed, copy_uppercase, field_text, is_allowed, is_field, split_at_dot};
use std::fmt;
use std::marker::Model;
use thiserror::Error;

/// The key of a file: the number of its drive, 0 to 3 for A to D, and the eleven bytes of its name, 8 for the name and 3 for
/// the type, each padded with blanks.
pub type Key = [u8; 12];

/// The name of a file on one of the drives A to D.
#[derive(Clone, Copy, PartialEq, Eq)]
pub struct Name {
    key: Key,
}

impl Model for Name {
    ghost use Rattle.std.specs.Prelude.{List, ℕ, true, ◌≡◌};
    ghost use Rattle.filenames.specs.Names.{is_sayable};

    ghost Value = { List ℕ };

    ghost view = { λ a. a.key };

    ghost invariant = { λ a. is_sayable a.key ≡ true };

    ghost inverse = { λ key. record { key = key } };
}

/// The pieces of a printed name, in order.
#[derive(Clone, Copy)]
pub struct Pieces<'a> {
    /// The letter and `:` of drives B to D; empty for drive A.
    pub drive: &'a str,
    /// The name without its type.
    pub name: &'a str,
    /// The `.` before a type; empty if there is no type.
    pub dot: &'a str,
    /// The type; empty if there is none.
    pub kind: &'a str,
}

/// The reason why a text is not a name.
#[derive(Clone, Copy, Debug, PartialEq, Eq, Error)]
pub enum NameError {
    /// No byte before the first `.`.
    #[error("the name is empty")]
    Empty,
    /// More than 8 bytes before the first `.`, or more than 3 after it.
    #[error("the name or its type is too long")]
    TooLong,
    /// A byte other than A to Z, a to z, 0 to 9, `$`, `#`, `@`, `-` and `_`.
    #[error("the name has a byte that no name may have")]
    BadByte,
    /// A `:` as the second byte, after a byte other than A to D and a to d.
    #[error("the drive is none of A to D")]
    BadLetter,
}

impl NameError {
    ghost use Rattle.filenames.specs.NameError.{name_error_number};

    /// Returns the number of the refusal, 1 to 4.
    pub fn number(self) -> u8
        ensures { result ≡ name_error_number self }
    {
        match self {
            NameError::Empty => 1,
            NameError::TooLong => 2,
            NameError::BadByte => 3,
            NameError::BadLetter => 4,
        }
    }
}

impl Name {
    ghost use Rattle.filenames.specs.NameError.{IsParsedAs};

    /// Parses a name: 1 to 8 bytes, optionally followed by `.` and a type of up to 3 bytes. A letter A to D and `:` before it
    /// select the drive, which is A without them. Letters are converted to upper case.
    ///
    /// # Errors
    ///
    /// `BadLetter` if it applies, otherwise the first of `Empty`, `TooLong` and `BadByte` that applies.
    #[tactic(auto, unfolding(crate::specs::Names::name_of))]
    pub fn parse(text: &str) -> Result<Name, NameError>
        ensures { IsParsedAs (name_of text.now) result }
    {
        let bytes = text.as_bytes();
        if bytes.len() > 1 && bytes[1] == b':' {
            return match drive_of(bytes[0]) {
                Some(drive) => Name::on_drive(drive, &bytes[2..]),
                None => Err(NameError::BadLetter),
            };
        }
        Name::on_drive(Drive::A, bytes)
    }

    // Parses a text without a drive letter as a name on a drive.
    #[tactic(auto, unfolding(crate::specs::Names::key_or_refusal))]
    fn on_drive(drive: Drive, text: &[u8]) -> Result<Name, NameError>
        ensures { IsParsedAs (name_without_drive (drive_number drive) text.now) result }
    {
        let (name, kind) = split_at_dot(text);
        if name.is_empty() {
            return Err(NameError::Empty);
        }
        if name.len() > 8 || kind.len() > 3 {
            return Err(NameError::TooLong);
        }
        if !all_allowed(name) || !all_allowed(kind) {
            return Err(NameError::BadByte);
        }
        Ok(Name {
            key: key_of(drive, name, kind),
        })
    }

    /// Returns the number of the drive and the eleven bytes of the name.
    pub fn key(&self) -> Key
        ensures key { result ≡ self.now }
        ensures sayable { is_sayable result ≡ true }
    {
        self.key
    }

    /// Creates a name from a valid key.
    pub fn from_valid_key(key: &Key) -> Name
        requires { is_sayable key.now ≡ true }
        ensures { result ≡ key.now }
    {
        Name { key: *key }
    }

    /// Returns the drive.
    pub fn drive(&self) -> Drive
        ensures { drive_number result ≡ slice_index self.now 0 }
    {
        Drive::from_number(self.key[0]).unwrap()
    }

    /// Returns the same name on another drive.
    pub fn with_drive(&self, drive: Drive) -> Name
        ensures moved { result ≡ slice_set self.now 0 (drive_number drive) }
        ensures drive { slice_index result 0 ≡ drive_number drive }
    {
        let mut key = self.key;
        key[0] = drive.number();
        Name { key }
    }

    /// Returns the pieces of the printed name.
    pub fn pieces(&self) -> Pieces<'_>
        ensures drive { result.drive.now ≡ drive_text (slice_index self.now 0) }
        ensures name { result.name.now ≡ before_first is_blank (name_field self.now) }
        ensures kind { result.kind.now ≡ before_first is_blank (type_field self.now) }
        ensures dot { result.dot.now ≡ dot_text result.kind.now }
        ensures printed { result.drive.now ++ result.name.now ++ result.dot.now ++ result.kind.now
            ≡ display_text self.now }
    {
        let kind = field_text(&self.key[9..12]);
        Pieces {
            drive: drive_text(self.drive()),
            name: field_text(&self.key[1..9]),
            dot: dot_before(kind),
            kind,
        }
    }

    /// Creates a name from a key, or returns `None` if the key is not valid. A key is valid if its first byte is 0 to 3, its
    /// next eight bytes are at least one byte of a name and then blanks, and its last three are bytes of a name and then
    /// blanks.
    pub fn from_key(key: &Key) -> Option<Name>
        ensures some { IfSome result (λ name. name ≡ key.now) }
        ensures exactly { IsSome result ↔ (is_sayable key.now ≡ true) }
    {
        if is_sayable(key) {
            return Some(Name::from_valid_key(key));
        }
        None
    }
}

impl fmt::Display for Name {
    ghost use Rattle.std.specs.Prelude.{Some};
    ghost use Rattle.filenames.specs.Names.{display_text};

    ghost output = { λ name. Some (display_text name) };

    fn fmt<W: fmt::Write>(&self, f: &mut fmt::Formatter<W>) -> fmt::Result {
        let Pieces {
            drive,
            name,
            dot,
            kind,
        } = self.pieces();
        write!(f, "{drive}{name}{dot}{kind}")
    }
}

/// Returns whether a key is valid, that is, the key of a name.
#[tactic(auto, unfolding(crate::specs::Names::is_sayable))]
pub fn is_sayable(key: &Key) -> bool
    ensures { result ≡ is_sayable key.now }
{
    key[0] < 4 && is_allowed(key[1]) && is_field(&key[1..9]) && is_field(&key[9..12])
}

// Returns the letter and `:` of a drive, or an empty text for drive A.
fn drive_text(drive: Drive) -> &'static str
    ensures { result.now ≡ drive_text (drive_number drive) }
{
    match drive {
        Drive::A => "",
        Drive::B => "B:",
        Drive::C => "C:",
        Drive::D => "D:",
    }
}

// Returns the text that is printed between a name and its type.
fn dot_before(kind: &str) -> &'static str
    ensures dot { result.now ≡ dot_text kind.now }
    ensures printed { result.now ++ kind.now ≡ type_text kind.now }
{
    if kind.is_empty() { "" } else { "." }
}

// Returns the drive with this letter, in either case.
fn drive_of(letter: u8) -> Option<Drive>
    ensures { option_map drive_number result ≡ drive_of letter }
{
    match letter.to_ascii_uppercase() {
        b'A' => Some(Drive::A),
        b'B' => Some(Drive::B),
        b'C' => Some(Drive::C),
        b'D' => Some(Drive::D),
        _ => None,
    }
}

// Returns the key of a name and a type that fit.
fn key_of(drive: Drive, name: &[u8], kind: &[u8]) -> Key
    requires name { length name.now ≤ 8 }
    requires kind { length kind.now ≤ 3 }
    ensures { result ≡ key_of (drive_number drive) name.now kind.now }
{
    let mut key = [b' '; 12];
    key[0] = drive.number();
    copy_uppercase(&mut key[1..9], name);
    copy_uppercase(&mut key[9..12], kind);
    key
}

/// A valid key is the key of its printed text, and the key of every text that is a name is valid. So the valid keys are
/// exactly the keys of names.
pub fn display_texts_parse_back()
    ensures printed { ParsesBack }
    ensures valid { NamesAreSayable }
{}
