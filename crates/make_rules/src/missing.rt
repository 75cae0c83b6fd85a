// Files that were asked for and are not there.

ghost use Rattle.std.specs.Prelude.{◌≡◌, ◌++◌, true, false, IfSome, IfNone, OnOk, map, string_bytes};
ghost use Rattle.make_rules.specs.Files as files;
ghost use Rattle.make_rules.specs.Paths.{Adds, AddsAbsent, collected};

use crate::carried::{as_read, fits_call};
use first_looks::FileSteps;
use folders::{DriveFolder, file_name, path_in};
use hostfiles::{HostFiles, Key, Name};
use std::alloc::{AllocError, Global};

/// The paths on which the targets depend.
#[derive(Drop)]
pub struct Paths {
    /// The program, if they depend on it.
    pub program: Vec<String>,
    /// The script, the files and the folders.
    pub others: Vec<String>,
    /// The paths of files that are not there, as a call has them.
    pub missing: Vec<String>,
    /// A comment about each of these files.
    pub comments: Vec<u8>,
}

/// Returns whether make takes a path for one of the targets.
pub fn is_target(path: &[u8], targets: &[String]) -> bool
    ensures { result ≡ files.is_target (map string_bytes targets.now) path.now }
{
    for target in targets {
        if as_read(path) == as_read(target.as_bytes()) {
            return true;
        }
    }
    false
}

// Adds a path that a call of make can have, unless make takes it for a target.
fn push_path(paths: &mut Vec<String>, targets: &[String], path: String) -> Result<(), AllocError>
    ensures { OnOk result (map string_bytes paths.new.items
        ≡ map string_bytes paths.old.items
        ++ files.path_in_call (map string_bytes targets.now) (string_bytes path)) }
{
    if fits_call(path.as_bytes()) && !is_target(path.as_bytes(), targets) {
        paths.push(path)?;
    }
    Ok(())
}

// Adds the folder in which a file would be new, if no call of make can have the file's path.
fn push_folder(
    alloc: Global,
    paths: &mut Vec<String>,
    targets: &[String],
    folder: &str,
    path: &str,
) -> Result<(), AllocError>
    ensures { OnOk result (map string_bytes paths.new.items
        ≡ map string_bytes paths.old.items
        ++ files.folder_unless_in_call (map string_bytes targets.now) folder.now path.now) }
{
    if fits_call(path.as_bytes()) || is_target(path.as_bytes(), targets) {
        return Ok(());
    }
    Ok(paths.push(path_in(alloc, folder, "")?)?)
}

// Appends a comment about a file that is not there.
fn push_comment(text: &mut Vec<u8>, path: &str) -> Result<(), AllocError>
    ensures { OnOk result (text.new.items ≡ text.old.items ++ files.comment path.now) }
{
    text.extend_from_slice(b"# not there: ")?;
    text.extend_from_slice(path.as_bytes())?;
    Ok(text.push(b'\n')?)
}

// Adds what a rule says about a file that is not there: a comment, its folder if no call can have its path, and its paths in a call, by
// its name in upper and in lower case.
fn push_absent(
    alloc: Global,
    paths: &mut Paths,
    targets: &[String],
    drive: &Option<DriveFolder<'_>>,
    name: &Name,
) -> Result<(), AllocError>
    ensures { let t = map string_bytes targets.now in let d = drive.now in let k = name.now in
        OnOk result (Adds (files.folder_of_absent t d k) (files.paths_in_call t d k)
        (files.comment_on_absent d k) (collected paths.old) (collected paths.new)) }
{
    let Some(drive) = drive else {
        return push_comment(&mut paths.comments, format!(in alloc; "{name}")?.as_str());
    };
    let folder = drive.folder;
    let name = file_name(alloc, name)?;
    let path = path_in(alloc, folder, name.as_str())?;
    push_comment(&mut paths.comments, path.as_str())?;
    push_folder(alloc, &mut paths.others, targets, folder, path.as_str())?;
    push_path(&mut paths.missing, targets, path)?;
    let name = name.as_str().to_ascii_lowercase(alloc)?;
    let path = path_in(alloc, folder, name.as_str())?;
    push_path(&mut paths.missing, targets, path)
}

// Returns the name of a file that was asked for, if it is valid and no host file has it.
fn absent_name(host: &HostFiles, key: &Key) -> Option<Name>
    ensures some { IfSome result (λ name. (files.is_absent host.now key.now ≡ true) × (name ≡ key.now)) }
    ensures none { IfNone result (files.is_absent host.now key.now ≡ false) }
{
    if host.has(key) {
        return None;
    }
    Name::from_key(key)
}

/// Adds what a rule says about the files that were asked for and are not there, in the order of the keys.
pub fn push_absent_files(
    alloc: Global,
    paths: &mut Paths,
    targets: &[String],
    host: &HostFiles,
    asked: &FileSteps,
    drives: &[Option<DriveFolder<'_>>; 4],
) -> Result<(), AllocError>
    ensures { OnOk result (AddsAbsent (map string_bytes targets.now) drives.now
        (files.absent_files host.now asked.now) (collected paths.old) (collected paths.new)) }
{
    let mut after: Option<Key> = None;
    while let Some(key) = asked.has.next_key(after) {
        if let Some(name) = absent_name(host, &key) {
            let drive = &drives[name.drive().number() as usize];
            push_absent(alloc, paths, targets, drive, &name)?;
        }
        after = Some(key);
    }
    Ok(())
}
