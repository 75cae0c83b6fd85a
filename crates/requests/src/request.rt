// The request in the words of a command line.

ghost use Rattle.std.specs.Prelude.{◌≡◌, ◌⊎◌, IfOk, IfErr, string_bytes};
ghost use Rattle.faults.specs.Faults.{usage_text, value_text};
ghost use Rattle.requests.specs.Requests.{FailsToParse, IsRequestOf, IsUsageError, WritesSomeText, clash_reason};

use command_words::{Clash, ErrorClass};
use faults::{Fault, Tool, value_text};
use std::alloc::{AllocError, Global};
use std::env::{self, Env};
use std::io::ErrorKind;
use streams::{Writer, write_all};

/// Returns the words after the name of a program.
///
/// # Errors
///
/// Returns `Err` if a word is not UTF-8, which is a usage error, or if an allocation fails.
pub fn program_words<'a, R: Alloc<A = Global> + Env>(rt: &R) -> Result<Vec<String>, Fault<'a>>
    ensures { IfErr result (λ fault. (fault ≡ Fault.NotText) ⊎ (fault ≡ Fault.OutOfMemory)) }
{
    match env::args(rt) {
        Ok(args) => Ok(args.skip(1).collect::<Vec<String>>(rt.alloc())?),
        Err(error) if error.kind() == ErrorKind::OutOfMemory => Err(Fault::OutOfMemory),
        Err(_) => Err(Fault::NotText),
    }
}

/// Returns the program by whose name this process was called.
pub fn called_tool<R: Env>(rt: &R) -> Tool {
    let mut path = [0; 4096];
    match rt.arg(0, &mut path) {
        Ok(length) => Tool::called_by(&path[..length]),
        Err(_) => Tool::Cpmrun,
    }
}

/// The request in words that are no usage error.
#[derive(Drop)]
pub enum Request<W> {
    /// A session, with the words that describe it and what is to be done with it.
    Session(W),
    /// Help or the version, with the text.
    Information(String),
}

/// Returns the request of words that were not read, by the class of their error and by its text, which is an error if there was no
/// memory for it.
///
/// # Errors
///
/// Returns `Err` if the words are a usage error or an allocation failed.
pub fn request_of_error<'a, W>(
    class: ErrorClass,
    text: Result<String, AllocError>,
) -> Result<Request<W>, Fault<'a>>
    ensures request { IfOk result (IsRequestOf (λ w. ⊥) (λ outcome. class ≡ outcome)) }
    ensures fault { IfErr result (FailsToParse (λ outcome. class ≡ outcome)) }
{
    match (class, text) {
        (ErrorClass::Information, Ok(text)) => Ok(Request::Information(text)),
        (ErrorClass::UsageError, Ok(text)) => Err(Fault::Usage(text)),
        _ => Err(Fault::OutOfMemory),
    }
}

// Returns the reason of a clash, worded as `clap` words it.
fn clash_reason(alloc: Global, clash: Clash) -> Result<String, AllocError>
    ensures { IfOk result (λ s. string_bytes s ≡ clash_reason clash) }
{
    match clash {
        Clash::Both(first, second) => {
            format!(in alloc; "the argument '{first}' cannot be used with '{second}'")
        }
        Clash::SameFolder(first, second) => {
            format!(in alloc;
                "the argument '{first}' cannot be used with '{second}': both are the same folder"
            )
        }
        Clash::Missing(option) => {
            format!(in alloc; "the following required arguments were not provided:\n  {option}")
        }
    }
}

// Returns the text of the usage error of a clash, worded as `clap` words it.
fn clash_text(alloc: Global, tool: Tool, clash: Clash) -> Result<String, AllocError>
    ensures { IfOk result (λ s. string_bytes s ≡ usage_text tool (clash_reason clash)) }
{
    let reason = clash_reason(alloc, clash)?;
    let name = tool.name();
    format!(in alloc;
        "error: {reason}\n\nUsage: {name} [OPTIONS] <PROGRAM> [TAIL]\n\nFor more information, try '--help'.\n"
    )
}

/// Returns the usage error of words with two options that exclude each other, or with one that needs another.
pub fn clash_fault<'a>(alloc: Global, tool: Tool, clash: Clash) -> Fault<'a>
    ensures { IsUsageError (usage_text tool (clash_reason clash)) result }
{
    match clash_text(alloc, tool, clash) {
        Ok(text) => Fault::Usage(text),
        Err(_) => Fault::OutOfMemory,
    }
}

/// Returns the usage error of an option with a value that it cannot have, worded as `clap` words it.
pub fn taken_fault<'a>(alloc: Global, value: &str, option: &str, mistake: &str) -> Fault<'a>
    ensures { IsUsageError (value_text value.now option.now mistake.now) result }
{
    match value_text(alloc, value, option, mistake) {
        Ok(text) => Fault::Usage(text),
        Err(_) => Fault::OutOfMemory,
    }
}

/// Writes help or the version.
///
/// # Errors
///
/// Returns `Err` if writing fails.
pub fn print_information<'a, O: Writer>(text: &str, out: &mut O) -> Result<(), Fault<'a>>
    ensures writes { WritesSomeText (O.output out.old) (O.output out.new) result }
    ensures fault { IfErr result (λ f. f ≡ Fault.CannotWrite) }
{
    match write_all(out, text.as_bytes()) {
        Ok(()) => Ok(()),
        Err(_) => Err(Fault::CannotWrite),
    }
}
