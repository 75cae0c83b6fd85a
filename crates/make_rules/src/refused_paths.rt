// The paths among the words that a rule for make cannot have.

ghost use Rattle.std.specs.Prelude.{◌≡◌, Some, false, IfOk, IfErr};
ghost use Rattle.std.specs.List.{list_any};
ghost use Rattle.make_rules.specs.RefusedPaths as refused_paths;

use crate::carried::is_carried;
use command_words::SessionWords;
use faults::Fault;
use folders::path_in;
use std::alloc::{AllocError, Global};

// What a path among the words is the path of.
#[derive(Clone, Copy)]
enum Kind {
    File,
    Folder,
}

// Returns whether a rule cannot have a path.
fn is_refused(alloc: Global, kind: Kind, path: &str) -> Result<bool, AllocError>
    ensures { IfOk result (λ is. is ≡ refused_paths.refuses kind (Some path.entry)) }
{
    match kind {
        Kind::File => Ok(!is_carried(path.as_bytes())),
        Kind::Folder => Ok(!is_carried(path_in(alloc, path, "")?.as_bytes())),
    }
}

// Returns the error for a path that a rule cannot have.
fn refusal<'a>(alloc: Global, path: &str) -> Fault<'a>
    ensures { refused_paths.IsRefused path.now result }
{
    match String::from_str(alloc, path) {
        Ok(path) => Fault::RulePath(path),
        Err(_) => Fault::OutOfMemory,
    }
}

// Checks whether a rule can have each of these paths.
fn check_each<'a>(alloc: Global, kind: Kind, paths: &[Option<&str>]) -> Result<(), Fault<'a>>
    ensures allowed { IfOk result (λ _. list_any (refused_paths.refuses kind) paths.now ≡ false) }
    ensures refused { IfErr result (refused_paths.FailsEach kind paths.now) }
{
    for path in paths {
        if let Some(path) = path
            && is_refused(alloc, kind, path)?
        {
            return Err(refusal(alloc, path));
        }
    }
    Ok(())
}

/// Checks whether a rule for make can have the paths among the words: its target or its file, the program, the script, the folders of
/// the host files, and the folders that are written.
///
/// # Errors
///
/// Returns `Err` with the first path that it cannot have, or if an allocation fails.
pub fn check_paths<'a>(
    alloc: Global,
    words: &SessionWords<'_>,
    path: &str,
    written: &[Option<&str>],
) -> Result<(), Fault<'a>>
    ensures allowed { IfOk result (λ _. refused_paths.refuses_rule words.now path.entry written.now ≡ false) }
    ensures refused { IfErr result (refused_paths.FailsPaths words.now path.entry written.now) }
{
    check_each(
        alloc,
        Kind::File,
        &[Some(path), Some(words.program), words.console],
    )?;
    check_each(alloc, Kind::Folder, words.files.as_slice())?;
    check_each(alloc, Kind::Folder, written)
}
