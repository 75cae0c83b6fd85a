// The choice of steps that the words describe.

ghost use Rattle.std.specs.Prelude.{◌≡◌, ℕ, IfErr, IfOk, List, None, Some};
ghost use Rattle.std.specs.Borrow.{Bor};
ghost use Rattle.std.specs.Char.{is_ascii_hexdigit};
ghost use Rattle.std.specs.List.{list_all};
ghost use Rattle.trace_command.specs.Choices as choices;
ghost use Rattle.trace_command.specs.Choices.{IsChoiceOf, RefusesValue};

use command_words::TraceWords;
use filenames::{Key, Name};
use requests::{Fault, taken_fault};
use std::alloc::Global;
use tracing::{CellRange, Choice};

/// An option that chooses steps, with a value that `clap` takes as any text.
#[derive(Clone, Copy)]
pub enum Filter {
    /// `--at`
    At,
    /// `--writes`
    Writes,
    /// `--reads`
    Reads,
    /// `--file`
    File,
}

impl Filter {
    ghost use Rattle.std.specs.Prelude.{◌≡◌};
    ghost use Rattle.trace_command.specs.Choices as choices;

    // Returns the option with the name of its value.
    fn option(self) -> &'static str
        ensures { result.now ≡ choices.option_text self }
    {
        match self {
            Filter::At => "--at <ADDR>",
            Filter::Writes => "--writes <RANGE>",
            Filter::Reads => "--reads <RANGE>",
            Filter::File => "--file <NAME>",
        }
    }

    // Returns what is wrong with a value that the option cannot have.
    fn mistake(self) -> &'static str
        ensures { result.now ≡ choices.mistake_text self }
    {
        match self {
            Filter::At => "not an address of 1 to 4 hexadecimal digits",
            Filter::Writes | Filter::Reads => "not ADDR or ADDR-ADDR with the lower address first",
            Filter::File => "not a name of a file on the drives A to D",
        }
    }
}

// Returns whether all bytes are hexadecimal digits.
fn are_digits(text: &[u8]) -> bool
    ensures { result ≡ list_all is_ascii_hexdigit text.now }
{
    text.iter().all(|b| b.is_ascii_hexdigit())
}

// Returns whether a text is 1 to 4 hexadecimal digits.
fn is_address(text: &str) -> bool
    ensures { result ≡ choices.is_address text.now }
{
    let digits = text.as_bytes();
    !digits.is_empty() && digits.len() <= 4 && are_digits(digits)
}

// Returns the address of a text.
fn address_of(text: &str) -> Option<u16>
    ensures { result ≡ choices.address_of text.now }
{
    if !is_address(text) {
        return None;
    }
    u16::from_str_radix(text, 16).ok()
}

// Returns the cells from the first address to the last.
fn cells_between(first: Option<u16>, last: Option<u16>) -> Option<CellRange>
    ensures { result ≡ choices.cells_between first last }
{
    match (first, last) {
        (Some(first), Some(last)) if first <= last => Some(CellRange { first, last }),
        _ => None,
    }
}

// Returns the cells of a text with an address, or with two and a hyphen between them.
fn cells_of(text: &str) -> Option<CellRange>
    ensures { result ≡ choices.cells_of text.now }
{
    match text.split_once('-') {
        Some((first, last)) => cells_between(address_of(first), address_of(last)),
        None => cells_between(address_of(text), address_of(text)),
    }
}

// Returns the key of a name.
fn file_of(text: &str) -> Option<Key>
    ensures { result ≡ choices.file_of text.now }
{
    match Name::parse(text) {
        Ok(name) => Some(name.key()),
        Err(_) => None,
    }
}

// Returns the value that was read of an option's text, which must have one.
fn value_of<'a, T: Drop>(
    alloc: Global,
    filter: Filter,
    text: Option<&str>,
    value: Option<T>,
) -> Result<Option<T>, Fault<'a>>
    ensures value { IfOk result (λ v. (v ≡ value) × (v ≡ None → text.entry ≡ None)) }
    ensures fault { IfErr result (λ fault. (value ≡ None)
        × (t : Bor (List ℕ)) × (text.entry ≡ Some t) × choices.IsBadText filter t.now fault) }
{
    match (text, value) {
        (Some(text), None) => Err(taken_fault(alloc, text, filter.option(), filter.mistake())),
        (_, value) => Ok(value),
    }
}

/// Returns the choice that the words describe.
///
/// # Errors
///
/// Returns `Err` if an option has a value that it cannot have.
pub fn read_choice<'a>(alloc: Global, words: &TraceWords<'_>) -> Result<Choice, Fault<'a>>
    ensures choice { IfOk result (IsChoiceOf words.now) }
    ensures fault { IfErr result (RefusesValue words.now) }
{
    let (at, file) = (words.at, words.file);
    let (writes, reads) = (words.writes, words.reads);
    Ok(Choice {
        instructions: words.steps,
        from: words.from.unwrap_or(0),
        to: words.to.unwrap_or(u64::MAX),
        at: value_of(alloc, Filter::At, at, at.and_then(address_of))?,
        writes: value_of(alloc, Filter::Writes, writes, writes.and_then(cells_of))?,
        reads: value_of(alloc, Filter::Reads, reads, reads.and_then(cells_of))?,
        file: value_of(alloc, Filter::File, file, file.and_then(file_of))?,
        last: words.last,
    })
}
