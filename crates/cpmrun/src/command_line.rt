// The whole program except its `main`.

ghost use Rattle.std.specs.Prelude.{◌≡◌, ◌<◌, None, IfOk, IfErr, OnOk, OnErr, map, string_bytes};
ghost use Rattle.machine.specs.Inputs.{Session};
ghost use Rattle.replay.specs.Options.{refusal_of};
ghost use Rattle.replay.specs.RunnerView.{with_no_checkpoint};
ghost use Rattle.folders.specs.Failures.{KeepsFiles, ReportsPaths};
ghost use Rattle.faults.specs.Faults.{file_paths};
ghost use Rattle.requests.specs.Programs.{Ends, EndsWell, FaultOf};
ghost use Rattle.cpmrun.specs.Ends.{BreaksOffWith, BreaksReplay, cpmrun};
ghost use Rattle.cpmrun.specs.MeteredEnds.{WritesReplayBy, metered, options_of};
ghost use Rattle.requests.specs.World.{world};
ghost use Rattle.streams.specs.Streams.{Output};
ghost use Rattle.folders.specs.FileSystem.{text_at};

use crate::request::read_request;
use crate::word_run::run_words;
use command_words::Words;
use edit_lines::{Ending, Reader, ReplayFault, Writer, replay};
use folders::FileSystem;
use loading::{load, open};
use machine::{Meter, Session};
use replay::{Options, Runner};
use requests::{Fault, Request, Tool, print_information, report_fault};
use std::alloc::Global;

/// Returns the options for checkpoints in the words.
fn options(words: &Words<'_>) -> Options
    ensures { result ≡ options_of words.now }
{
    Options {
        spacing: words.spacing,
        slots: words.slots,
    }
}

/// Replays the edit lines of the reader over a new runner of the session. The errors are those of `replay`; if memory for the
/// runner runs out, nothing was read and nothing written.
fn replay_session<R: Reader, W: Writer>(
    alloc: Global,
    session: Session,
    options: Options,
    meter: &mut Meter,
    reader: &mut R,
    writer: &mut W,
) -> Result<Ending, ReplayFault>
    requires options { refusal_of options ≡ None }
    requires meter { meter.old ≡ 0 }
    ensures ok { OnOk result (WritesReplayBy (R.input reader.old).left (with_no_checkpoint session options)
        (W.output writer.old) (W.output writer.new) meter.new) }
    ensures fault { IfErr result
        (λ f. BreaksOffWith f (R.input reader.old).left session (W.output writer.old) (W.output writer.new)) }
    ensures read { result ≡ Err ReplayFault.Read
        → (R.input reader.old).failures < (R.input reader.new).failures }
{
    let mut runner = Runner::with_valid_options(alloc, session, options)?;
    replay(alloc, &mut runner, meter, reader, writer)
}

/// Replays the edit lines of the file of this path.
fn replay_file<'a, S: FileSystem, O: Writer>(
    system: &mut S,
    path: &'a str,
    session: Session,
    options: Options,
    meter: &mut Meter,
    out: &mut O,
) -> Result<(), Fault<'a>>
    requires options { refusal_of options ≡ None }
    requires meter { meter.old ≡ 0 }
    ensures done { OnOk result
        (WritesReplayBy (text_at (S.files system.old).bytes path.now) (with_no_checkpoint session options)
        (O.output out.old) (O.output out.new) meter.new) }
    ensures fault { IfErr result
        (BreaksReplay path.now (text_at (S.files system.old).bytes path.now) session
        (O.output out.old) (O.output out.new)) }
    ensures unchanged { KeepsFiles file_paths result (S.files system.old) (S.files system.new) }
{
    let mut edits = open(system, path)?;
    match replay_session(system.alloc(), session, options, meter, &mut edits, out) {
        Ok(_) => Ok(()),
        Err(ReplayFault::Malformed(line)) => Err(Fault::Malformed(line)),
        Err(ReplayFault::LineTooLong(line)) => Err(Fault::TooLong(line)),
        Err(ReplayFault::Read) => {
            system.note_failed_read(path, &edits);
            Err(Fault::CannotRead(path))
        }
        Err(ReplayFault::Write) => Err(Fault::CannotWrite),
        Err(ReplayFault::OutOfMemory) => Err(Fault::OutOfMemory),
    }
}

/// Executes the command that the words describe, and returns the exit status if there was no error.
fn run<'a, S: FileSystem, O: Writer, E: Writer>(
    system: &mut S,
    words: &'a [String],
    meter: &mut Meter,
    out: &mut O,
    err: &mut E,
) -> Result<u8, Fault<'a>>
    requires { meter.old ≡ 0 }
    ensures done { IfOk result (λ status. EndsWell (metered meter.new)
        (map string_bytes words.entry.now) status
        (world (S.files system.old) (O.output out.old) (E.output err.old))
        (world (S.files system.new) (O.output out.new) (E.output err.new))) }
    ensures fault { IfErr result (λ fault. (old new : Output) → FaultOf (metered meter.new)
        (map string_bytes words.entry.now) (world (S.files system.old) (O.output out.old) old)
        (world (S.files system.new) (O.output out.new) new) fault) }
    ensures unreported { OnErr result (E.output err.new ≡ E.output err.old) }
    ensures failed { ReportsPaths file_paths result (S.files system.old) (S.files system.new) }
{
    let words = match read_request(system.alloc(), words)? {
        Request::Session(words) => words,
        Request::Information(text) => {
            print_information(text.as_str(), out)?;
            return Ok(0);
        }
    };
    let Some(path) = words.edits else {
        return run_words(system, &words, out, err);
    };
    let loaded = load(system, &words.session())?;
    let session = loaded.into_session();
    replay_file(system, path, session, options(&words), meter, out)?;
    Ok(0)
}

/// Runs the program as `command` does, with a meter that counts the steps that a replay of edit lines executes.
pub fn metered_command<S: FileSystem, O: Writer, E: Writer>(
    system: &mut S,
    words: &[String],
    meter: &mut Meter,
    out: &mut O,
    err: &mut E,
) -> u8
    requires { meter.old ≡ 0 }
    ensures { Ends (metered meter.new) (map string_bytes words.now) result
        (world (S.files system.old) (O.output out.old) (E.output err.old))
        (world (S.files system.new) (O.output out.new) (E.output err.new)) }
{
    match run(system, words, meter, out, err) {
        Ok(status) => status,
        Err(fault) => report_fault(Tool::Cpmrun, fault, err),
    }
}

/// Runs the program for the words after its name, over the files of a file system, and returns the exit status. The status is 0
/// if help was requested, if the edit lines were replayed to their end with their replies written to `out`, or if the one run
/// came to the warm start; 3 to 10 report another stop of that run. Otherwise it is 1, 2 or 12, and `err` reports the error.
pub fn command<S: FileSystem, O: Writer, E: Writer>(
    system: &mut S,
    words: &[String],
    out: &mut O,
    err: &mut E,
) -> u8
    ensures { Ends cpmrun (map string_bytes words.now) result
        (world (S.files system.old) (O.output out.old) (E.output err.old))
        (world (S.files system.new) (O.output out.new) (E.output err.new)) }
{
    metered_command(system, words, &mut Meter::new(), out, err)
}
