// A reader over a text.

ghost use Rattle.std.specs.Prelude.{None, vec_len, ◌≤◌};

use edit_lines::{Failed, Reader};

/// The bytes of a text, read in pieces of at most `longest` bytes.
#[derive(Drop)]
pub struct Pieces<'a> {
    rest: &'a [u8],
    longest: usize,
}

impl Pieces<'_> {
    /// Returns a reader over a text.
    pub fn new(text: &[u8], longest: usize) -> Pieces<'_> {
        Pieces {
            rest: text,
            longest,
        }
    }
}

impl Reader for Pieces<'_> {
    ghost input = { λ _. record { left = None; failures = 0 } };

    fn read(&mut self, piece: &mut [u8]) -> Result<usize, Failed> {
        let count = self.longest.min(piece.len()).min(self.rest.len());
        let (first, rest) = self.rest.split_at(count);
        piece[..count].copy_from_slice(first);
        self.rest = rest;
        Ok(count)
    }
}
