// The request in the words of the command line.

ghost use Rattle.std.specs.Prelude.{IfOk, IfErr, map, string_bytes};
ghost use Rattle.command_words.specs.ErrorClass.{HasErrorClass};
ghost use Rattle.command_words.specs.Clashes.{trace_checks};
ghost use Rattle.command_words.specs.TraceLine.{AreTraceWordsOf, trace_faults, trace_matches};
ghost use Rattle.faults.specs.declared.tool.Tool.TheVariants.{Cpmtrace};
ghost use Rattle.requests.specs.Requests.{FailsToTake, IsRequestOf};
ghost use Rattle.trace_command.specs.AreTraceWords.{AreTraceWords};

use command_words::{TraceWords, error_class, read_trace_words};
use requests::{Fault, Request, Tool, clash_fault, request_of_error};
use std::alloc::Global;

/// Returns the request in the words after the program's name.
pub fn read_request<'a>(
    alloc: Global,
    words: &'a [String],
) -> Result<Request<TraceWords<'a>>, Fault<'a>>
    ensures request { let texts = map string_bytes words.entry.now in
        IfOk result (IsRequestOf (AreTraceWords texts) (HasErrorClass (trace_faults texts))) }
    ensures fault { let texts = map string_bytes words.entry.now in
        IfErr result (FailsToTake Cpmtrace (HasErrorClass (trace_faults texts))
        (AreTraceWordsOf (trace_matches texts)) trace_checks) }
{
    match read_trace_words(alloc, words) {
        Ok(words) => match words.clash() {
            Some(clash) => Err(clash_fault(alloc, Tool::Cpmtrace, clash)),
            None => Ok(Request::Session(words)),
        },
        Err(error) => request_of_error(error_class(&error), format!(in alloc; "{error}")),
    }
}
