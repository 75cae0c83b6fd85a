// The beginning of a line, and lines with one step.

ghost use Rattle.std.specs.Prelude.{◌≡◌, ◌++◌, false};
ghost use Rattle.filenames.specs.Names.{is_sayable};
ghost use Rattle.streams.specs.Pushing.{more};
ghost use Rattle.dependency_lines.specs.Heads.{head_text, name_text, step_line};

use crate::words::{IndexFormat, push_step};
use filenames::{Key, Name};
use report_lines::{push_key, push_named};
use streams::Text;

/// The beginning of a line: a word, and the name that it is about, if it is about one; and how places after it are printed.
#[derive(Clone, Copy)]
pub struct Head<'a> {
    /// The word, with a blank after it before a name.
    pub word: &'a [u8],
    /// The key of the name.
    pub key: Option<Key>,
    /// How places are printed.
    pub format: IndexFormat,
}

impl<'a> Head<'a> {
    /// Returns the head of a line that is about no name, with numbers.
    pub fn alone(word: &'a [u8]) -> Head<'a>
        ensures text { head_text result ≡ word.now }
        ensures format { result.format ≡ IndexFormat.Number }
    {
        Head {
            word,
            key: None,
            format: IndexFormat::Number,
        }
    }

    /// Returns the head of a line of cells.
    pub fn of_cells(word: &'a [u8]) -> Head<'a>
        ensures text { head_text result ≡ word.now }
        ensures format { result.format ≡ IndexFormat.Cell }
    {
        Head {
            word,
            key: None,
            format: IndexFormat::Cell,
        }
    }

    /// Returns the head of a line about a name, with numbers.
    pub fn about(word: &'a [u8], key: &Key) -> Head<'a>
        ensures text { head_text result ≡ word.now ++ name_text key.now }
        ensures format { result.format ≡ IndexFormat.Number }
    {
        Head {
            word,
            key: Some(*key),
            format: IndexFormat::Number,
        }
    }
}

/// Appends a head.
pub fn push_head<X: Text>(text: &mut X, head: &Head<'_>)
    ensures { X.pushed text.new ≡ more (X.pushed text.old) (head_text head.now) }
{
    let Some(key) = head.key else {
        text.push(head.word);
        return;
    };
    match Name::from_key(&key) {
        Some(name) => push_named(text, head.word, &name),
        None => push_digits(text, head.word, &key),
    }
}

// Appends a word, and then the bytes of a key that is not the key of a name.
fn push_digits<X: Text>(text: &mut X, word: &[u8], key: &Key)
    requires { is_sayable key.now ≡ false }
    ensures { X.pushed text.new ≡ more (X.pushed text.old) (word.now ++ name_text key.now) }
{
    text.push(word);
    push_key(text, key)
}

/// Appends a line that ends with the first step, or nothing without a step.
pub fn push_step_line<X: Text>(text: &mut X, head: &Head<'_>, step: Option<u64>)
    ensures { X.pushed text.new ≡ more (X.pushed text.old)
        (step_line (head_text head.now) step) }
{
    let Some(step) = step else {
        return;
    };
    push_head(text, head);
    push_step(text, step)
}
