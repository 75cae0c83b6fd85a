// The request in the words of the command line.

ghost use Rattle.std.specs.Prelude.{IfOk, IfErr, map, string_bytes};
ghost use Rattle.command_words.specs.DependencyLine.{AreDependencyWordsOf, dependency_faults, dependency_matches};
ghost use Rattle.command_words.specs.ErrorClass.{HasErrorClass};
ghost use Rattle.command_words.specs.Clashes.{dependency_checks};
ghost use Rattle.faults.specs.declared.tool.Tool.TheVariants.{Cpmdeps};
ghost use Rattle.requests.specs.Requests.{FailsToTake, IsRequestOf};
ghost use Rattle.dependency_command.specs.AreDependencyWords.{AreDependencyWords};

use command_words::{DependencyWords, error_class, read_dependency_words};
use requests::{Fault, Request, Tool, clash_fault, request_of_error};
use std::alloc::Global;

/// Returns the request in the words after the program's name.
pub fn read_request<'a>(
    alloc: Global,
    words: &'a [String],
) -> Result<Request<DependencyWords<'a>>, Fault<'a>>
    ensures request { let texts = map string_bytes words.entry.now in
        IfOk result (IsRequestOf (AreDependencyWords texts) (HasErrorClass (dependency_faults texts))) }
    ensures fault { let texts = map string_bytes words.entry.now in
        IfErr result (FailsToTake Cpmdeps (HasErrorClass (dependency_faults texts))
        (AreDependencyWordsOf (dependency_matches texts)) dependency_checks) }
{
    match read_dependency_words(alloc, words) {
        Ok(words) => match words.clash() {
            Some(clash) => Err(clash_fault(alloc, Tool::Cpmdeps, clash)),
            None => Ok(Request::Session(words)),
        },
        Err(error) => request_of_error(error_class(&error), format!(in alloc; "{error}")),
    }
}
