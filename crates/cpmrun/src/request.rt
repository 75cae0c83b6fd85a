// The request in the words of the command line.

ghost use Rattle.std.specs.Prelude.{IfOk, IfErr, map, string_bytes};
ghost use Rattle.command_words.specs.Clashes.{run_checks};
ghost use Rattle.command_words.specs.ErrorClass.{HasErrorClass};
ghost use Rattle.command_words.specs.RunLine.{AreWordsOf, run_faults, run_matches};
ghost use Rattle.faults.specs.declared.tool.Tool.TheVariants.{Cpmrun};
ghost use Rattle.requests.specs.Requests.{FailsToTake, IsRequestOf};
ghost use Rattle.cpmrun.specs.AreWords.{AreWords};

use command_words::{Words, error_class, read_words};
use requests::{Fault, Request, Tool, clash_fault, request_of_error};
use std::alloc::Global;

/// Returns the request in the words after the program's name.
pub fn read_request<'a>(alloc: Global, words: &'a [String]) -> Result<Request<Words<'a>>, Fault<'a>>
    ensures request { let texts = map string_bytes words.entry.now in
        IfOk result (IsRequestOf (AreWords texts) (HasErrorClass (run_faults texts))) }
    ensures fault { let texts = map string_bytes words.entry.now in
        IfErr result (FailsToTake Cpmrun (HasErrorClass (run_faults texts))
        (AreWordsOf (run_matches texts)) run_checks) }
{
    match read_words(alloc, words) {
        Ok(words) => match words.clash() {
            Some(clash) => Err(clash_fault(alloc, Tool::Cpmrun, clash)),
            None => Ok(Request::Session(words)),
        },
        Err(error) => request_of_error(error_class(&error), format!(in alloc; "{error}")),
    }
}
