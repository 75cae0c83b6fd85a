// The whole program except its `main`.

ghost use Rattle.std.specs.Prelude.{◌≡◌, IfErr, OnOk, map, string_bytes};
ghost use Rattle.folders.specs.Failures.{KeepsFiles};
ghost use Rattle.requests.specs.World.{world};
ghost use Rattle.streams.specs.Streams.{Output};
ghost use Rattle.faults.specs.Faults.{file_paths};
ghost use Rattle.requests.specs.Programs.{Ends, EndsWell, FaultOf};
ghost use Rattle.trace_command.specs.Program.{cpmtrace};

use crate::choice::read_choice;
use crate::request::read_request;
use folders::FileSystem;
use loading::load;
use requests::{Fault, Request, Tool, print_information, report_fault};
use streams::Writer;
use tracing::write_trace;

/// Executes the command that the words describe.
fn run<'a, S: FileSystem, O: Writer>(
    system: &mut S,
    words: &'a [String],
    out: &mut O,
) -> Result<(), Fault<'a>>
    ensures done { OnOk result ((err : Output) → EndsWell cpmtrace (map string_bytes words.entry.now) 0
        (world (S.files system.old) (O.output out.old) err)
        (world (S.files system.new) (O.output out.new) err)) }
    ensures fault { IfErr result (λ fault. (err : Output) → FaultOf cpmtrace
        (map string_bytes words.entry.now)
        (world (S.files system.old) (O.output out.old) err)
        (world (S.files system.new) (O.output out.new) err) fault) }
    ensures unchanged { KeepsFiles file_paths result (S.files system.old) (S.files system.new) }
{
    let words = match read_request(system.alloc(), words)? {
        Request::Session(words) => words,
        Request::Information(text) => return print_information(text.as_str(), out),
    };
    let choice = read_choice(system.alloc(), &words)?;
    let loaded = load(system, &words.session)?;
    write_trace(system.alloc(), &loaded.session, &choice, out)
}

/// Prints the trace of the run of a session, for the words after the program's name and over the files of a file system, and returns
/// the exit status. The status is 0 if the trace or help was written to `out`; the run may have stopped by any cause. Otherwise it is 1 or
/// 12, and `err` reports the error. No file changes.
pub fn trace_command<S: FileSystem, O: Writer, E: Writer>(
    system: &mut S,
    words: &[String],
    out: &mut O,
    err: &mut E,
) -> u8
    ensures ends { Ends cpmtrace (map string_bytes words.now) result
        (world (S.files system.old) (O.output out.old) (E.output err.old))
        (world (S.files system.new) (O.output out.new) (E.output err.new)) }
    ensures files { (S.files system.new).bytes ≡ (S.files system.old).bytes }
{
    match run(system, words, out) {
        Ok(()) => 0,
        Err(fault) => report_fault(Tool::Cpmtrace, fault, err),
    }
}
