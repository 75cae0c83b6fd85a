ghost use Rattle.std.specs.Prelude.{◌≡◌, ◌+◌, ◌<◌, ◌≤◌, ◌++◌, [], length, IfErr, IfOk, OnErr, OnOk, vec_capacity, vec_len};
ghost use Rattle.edit_lines.specs.declared.limits.TheConstants.{LINE_LIMIT, LINES_LIMIT};

use crate::ending::ReplayFault;
use crate::limits::{LINE_LIMIT, LINES_LIMIT};
use std::alloc::{AllocError, Global};

/// The beginning of a line that was read, and the number of lines that were executed. There is room for the longest line.
#[derive(Drop)]
pub struct LineBuffer {
    pub line: Vec<u8>,
    pub lines: u64,
    ghost short: { vec_len line ≤ LINE_LIMIT },
    ghost few: { lines ≤ LINES_LIMIT },
    ghost roomy: { LINE_LIMIT ≤ vec_capacity line },
}

impl LineBuffer {
    /// Allocates the buffer, before any line was read.
    pub fn new(alloc: Global) -> Result<LineBuffer, AllocError>
        ensures empty { IfOk result (λ buffer. buffer.line.items ≡ []) }
        ensures none { IfOk result (λ buffer. buffer.lines ≡ 0) }
    {
        Ok(LineBuffer {
            line: Vec::with_capacity(alloc, LINE_LIMIT)?,
            lines: 0,
        })
    }

    /// Appends the next part of a line, which has no 0AH.
    ///
    /// # Errors
    ///
    /// Returns `LineTooLong` if the line would be too long. The buffer is then unchanged.
    pub fn push_part(&mut self, part: &[u8]) -> Result<(), ReplayFault>
        ensures lines { self.new.lines ≡ self.old.lines }
        ensures ok { OnOk result (self.new.line.items ≡ self.old.line.items ++ part.now) }
        ensures err { IfErr result (λ fault. (fault ≡ ReplayFault.LineTooLong (self.old.lines + 1))
            × (LINE_LIMIT < length self.old.line.items + length part.now)) }
        ensures unchanged { OnErr result (self.new.line.items ≡ self.old.line.items) }
    {
        if part.len() > LINE_LIMIT - self.line.len() {
            return Err(ReplayFault::LineTooLong(self.lines + 1));
        }
        self.line.extend_from_slice(part)?;
        Ok(())
    }
}
