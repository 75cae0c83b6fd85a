// The case of the names in a folder.

ghost use Rattle.std.specs.Prelude.{◌≡◌, length, map, string_bytes};
ghost use Rattle.std.specs.Char.{is_ascii_lowercase, is_ascii_uppercase};
ghost use Rattle.std.specs.List.{filter, list_any};
ghost use Rattle.filenames.specs.Drives.{drive_number};
ghost use Rattle.folders.specs.LetterCase as letter_case;

use crate::folder_names::name_in_folder;
use filenames::Drive;

// Returns whether a name has a letter in upper case.
fn has_upper(name: &str) -> bool
    ensures { result ≡ list_any is_ascii_uppercase name.now }
{
    name.as_bytes().iter().any(|byte| byte.is_ascii_uppercase())
}

// Returns whether a name has a letter in lower case.
fn has_lower(name: &str) -> bool
    ensures { result ≡ list_any is_ascii_lowercase name.now }
{
    name.as_bytes().iter().any(|byte| byte.is_ascii_lowercase())
}

// Returns whether a host file can have this name in the folder of a drive, with a letter in upper case.
fn is_upper(drive: Drive, name: &str) -> bool
    ensures { result ≡ letter_case.is_upper (drive_number drive) name.now }
{
    name_in_folder(drive, name).is_some() && has_upper(name)
}

// Returns whether a host file can have this name in the folder of a drive, with letters in lower case alone.
fn is_lower(drive: Drive, name: &str) -> bool
    ensures { result ≡ letter_case.is_lower (drive_number drive) name.now }
{
    name_in_folder(drive, name).is_some() && has_lower(name) && !has_upper(name)
}

// Returns how many of these names have letters in upper case.
fn upper_count(drive: Drive, names: &[String]) -> usize
    ensures { result ≡ length (filter
        (λ name. letter_case.is_upper (drive_number drive) (string_bytes name)) names.now) }
{
    names
        .iter()
        .filter(|name| is_upper(drive, name.as_str()))
        .count()
}

// Returns how many of these names have letters in lower case alone.
fn lower_count(drive: Drive, names: &[String]) -> usize
    ensures { result ≡ length (filter
        (λ name. letter_case.is_lower (drive_number drive) (string_bytes name)) names.now) }
{
    names
        .iter()
        .filter(|name| is_lower(drive, name.as_str()))
        .count()
}

/// Returns whether more of these names are in lower case than have letters in upper case.
pub(crate) fn prefers_lower(drive: Drive, names: &[String]) -> bool
    ensures { result ≡ letter_case.prefers_lower (drive_number drive) (map string_bytes names.now) }
{
    upper_count(drive, names) < lower_count(drive, names)
}
