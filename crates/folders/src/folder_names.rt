// Names of files in a folder, and their paths.

ghost use Rattle.std.specs.Prelude.{◌≡◌, ◌<◌, ◌^◌, ◌++◌, ℕ, List, true, codes, is_some, IfOk, IfSome, slice_index, string_bytes};
ghost use Rattle.filenames.specs.Drives.{drive_number};
ghost use Rattle.folders.specs.FolderNames.{key_in, folder_name, needs_slash, path_text};
ghost use Rattle.std.specs.Char.{is_ascii_digit};
ghost use Rattle.std.specs.List.{list_all};
ghost use Rattle.std.specs.Path.{rsplit_once};
ghost use Rattle.folders.specs.LeftNames.{before_number, is_left, is_number};
ghost use Rattle.folders.specs.Temporaries.{IsTemporaryOf, short_name, suffix, temporary_name};

use filenames::{Drive, Name};
use std::alloc::{AllocError, Global};

/// Returns the name of the host file for a file in the folder of a drive: on this drive, with the name and the type of the file.
/// Returns `None` if the file's name is not valid or has a `:`.
pub fn name_in_folder(drive: Drive, file: &str) -> Option<Name>
    ensures key { result ≡ key_in (drive_number drive) file.now }
    ensures drive { IfSome result (λ name. slice_index name 0 ≡ drive_number drive) }
{
    if file.as_bytes().contains(&b':') {
        return None;
    }
    match Name::parse(file) {
        Ok(name) => Some(name.with_drive(drive)),
        Err(_) => None,
    }
}

/// Returns the name of a file in the folder of its drive: as printed, without the letter and `:`.
pub fn file_name(alloc: Global, name: &Name) -> Result<String, AllocError>
    ensures { IfOk result (λ s. string_bytes s ≡ folder_name name.now) }
{
    let plain = name.with_drive(Drive::A);
    format!(in alloc; "{plain}")
}

// Returns what is after the name in a temporary path with this number.
fn suffix(alloc: Global, number: u32) -> Result<String, AllocError>
    ensures { IfOk result (λ s. string_bytes s ≡ suffix number) }
{
    if number == 0 {
        return String::from_str(alloc, ".new");
    }
    format!(in alloc; ".new.{number}")
}

// Returns a path in a folder, with a `.` before the name and this text after it.
fn temporary_in(alloc: Global, folder: &str, name: &str, suffix: &str) -> Result<String, AllocError>
    ensures { IfOk result (λ s.
        string_bytes s ≡ folder.now ++ codes "/." ++ name.now ++ suffix.now) }
{
    let mut path = String::from_str(alloc, folder)?;
    path.push_str("/.")?;
    path.push_str(name)?;
    path.push_str(suffix)?;
    Ok(path)
}

// The most bytes of a name to which more are added. A name in a folder can have 255.
const LONGEST: usize = 200;

// Returns the name of a file, or another for one that is so long that no text could be added.
fn short_name(name: &str) -> &str
    ensures { result.now ≡ short_name name.now }
{
    if name.len() > LONGEST { "cpmrun" } else { name }
}

/// Returns a path at which the file of a path can first be written: in the same folder, with a `.` before its name and `.new` after it, or
/// `.new.` and the number if that is not 0. The file of a long name is first written as if its name were `cpmrun`. No host file has such a
/// name on any drive, as it begins with a `.`.
pub fn temporary_path(alloc: Global, path: &str, number: u32) -> Result<String, AllocError>
    ensures { IfOk result (λ s. IsTemporaryOf path.now (string_bytes s)) }
{
    let suffix = suffix(alloc, number)?;
    match path.rsplit_once('/') {
        Some((folder, name)) => temporary_in(alloc, folder, short_name(name), suffix.as_str()),
        None => {
            let name = short_name(path);
            format!(in alloc; ".{name}{suffix}")
        }
    }
}

// Returns whether all bytes are decimal digits.
fn are_digits(text: &[u8]) -> bool
    ensures { result ≡ list_all is_ascii_digit text.now }
{
    text.iter().all(|byte| byte.is_ascii_digit())
}

// Returns whether a text is one or more decimal digits.
fn is_number(text: &str) -> bool
    ensures { result ≡ is_number text.now }
{
    !text.is_empty() && are_digits(text.as_bytes())
}

// Returns a name without the `.` and the number at its end, if there is one.
fn before_number(name: &str) -> &str
    ensures { result.now ≡ before_number name.now (rsplit_once 46 name.now) }
{
    match name.rsplit_once('.') {
        Some((front, last)) if is_number(last) => front,
        _ => name,
    }
}

/// Returns whether a run that ended early can have left new contents of a file under a name: `.NAME.new`, or that with a `.` and a number
/// after it, for the valid name of a file.
pub fn is_left_name(name: &str) -> bool
    ensures { result ≡ is_left name.now }
{
    let Some(rest) = name.strip_prefix('.') else {
        return false;
    };
    match before_number(rest).rsplit_once('.') {
        Some((file, last)) => last == "new" && name_in_folder(Drive::A, file).is_some(),
        None => false,
    }
}

/// The new contents of a file with a valid name are first written under a name that is listed if the run ends early.
pub fn temporary_names_are_left()
    ensures { (name : List ℕ) (number : ℕ) → number < 2 ^ 32
        → is_some (key_in 0 name) ≡ true → is_left (temporary_name name number) ≡ true }
{}

/// Returns the path of a file in a folder: the folder as given, a `/` unless the folder ends with one or is empty, and the file's
/// name.
pub fn path_in(alloc: Global, folder: &str, file: &str) -> Result<String, AllocError>
    ensures { IfOk result (λ s. string_bytes s ≡ path_text folder.now file.now) }
{
    let mut path = String::from_str(alloc, folder)?;
    if needs_slash(folder) {
        path.push_str("/")?;
    }
    path.push_str(file)?;
    Ok(path)
}

// Returns whether a folder needs a `/` before the name of a file.
fn needs_slash(folder: &str) -> bool
    ensures { result ≡ needs_slash folder.now }
{
    match folder.as_bytes().last() {
        Some(last) => *last != b'/',
        None => false,
    }
}
