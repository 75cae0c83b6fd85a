ghost use Rattle.std.specs.Prelude.{◌≡◌, ◌≤◌, ◌<◌, ◌+◌, length, reverse, ◌++◌, IfOk, OnOk};
ghost use Rattle.console_calls.specs.Line.{no_line, echo_of, line_with_byte, line_after_backspace, line_after_rubout, type_byte};
ghost use Rattle.console_calls.specs.LineAgrees.{line_step_of, look_count_of, FitsIn, TakesLine};

use std::alloc::{AllocError, Global};
use std::marker::Model;

/// A line that is taken from the script: the bytes that are stored, and the bytes that are sent to the console.
#[derive(Drop)]
pub(crate) struct Line {
    stored: Vec<u8>,
    sends: Vec<u8>,
}

impl Model for Line {
    ghost use Rattle.std.specs.Prelude.{reverse};
    ghost use Rattle.console_calls.specs.Line as line;

    ghost Value = { line.Line };

    ghost view = { λ l. record { stored = reverse l.stored.items; sends = l.sends.items } };
}

/// What a byte does to a line.
#[derive(Clone, Copy)]
pub(crate) enum LineStep {
    /// The line continues.
    Goes,
    /// The line ends.
    Ends,
    /// The byte is a warm boot.
    Boots,
}

/// How a line ended, and the number of script offsets that were looked at for it.
#[derive(Drop)]
pub(crate) enum LineEnd {
    Ended(Line, usize),
    Booted(usize),
    Short(usize),
}

impl Line {
    /// Creates an empty line.
    pub(crate) fn new(alloc: Global) -> Line
        ensures { result ≡ no_line }
    {
        Line {
            stored: Vec::new(alloc),
            sends: Vec::new(alloc),
        }
    }

    /// Returns the number of bytes that are stored.
    pub(crate) fn len(&self) -> usize
        ensures { result ≡ length self.now.stored }
    {
        self.stored.len()
    }

    /// Returns the bytes that are stored.
    pub(crate) fn text(&self) -> &[u8]
        ensures { result.now ≡ reverse self.now.stored }
    {
        self.stored.as_slice()
    }

    /// Returns the bytes that are sent.
    pub(crate) fn sends(&self) -> &[u8]
        ensures { result.now ≡ self.now.sends }
    {
        self.sends.as_slice()
    }

    // Applies a byte of the script to the line.
    fn take(&mut self, byte: u8) -> Result<LineStep, AllocError>
        ensures typed { IfOk result (λ t. line_step_of t self.new ≡ type_byte self.old byte) }
        ensures longer { length self.new.stored ≤ length self.old.stored + 1 }
    {
        match byte {
            b'\r' | b'\n' => {
                self.sends.push(b'\r')?;
                return Ok(LineStep::Ends);
            }
            0x08 => self.backspace()?,
            0x7f => self.rub_out()?,
            0x03 if self.stored.is_empty() => return Ok(LineStep::Boots),
            _ => self.store(byte)?,
        }
        Ok(LineStep::Goes)
    }

    fn store(&mut self, byte: u8) -> Result<(), AllocError>
        ensures ok { OnOk result (self.new ≡ line_with_byte byte self.old) }
        ensures longer { length self.new.stored ≤ length self.old.stored + 1 }
    {
        self.stored.push(byte)?;
        self.echo(byte)
    }

    fn backspace(&mut self) -> Result<(), AllocError>
        ensures ok { OnOk result (self.new ≡ line_after_backspace self.old.stored self.old) }
        ensures longer { length self.new.stored ≤ length self.old.stored }
    {
        if self.stored.pop().is_some() {
            self.sends.extend_from_slice(&[0x08, b' ', 0x08])?;
        }
        Ok(())
    }

    fn rub_out(&mut self) -> Result<(), AllocError>
        ensures ok { OnOk result (self.new ≡ line_after_rubout self.old.stored self.old) }
        ensures longer { length self.new.stored ≤ length self.old.stored }
    {
        let Some(last) = self.stored.pop() else {
            return Ok(());
        };
        self.echo(last)
    }

    // Sends a stored byte, a control byte as `^` and a letter.
    fn echo(&mut self, byte: u8) -> Result<(), AllocError>
        ensures ok { OnOk result (self.new ≡ record self.old { sends = self.old.sends ++ echo_of byte }) }
        ensures stored { self.new.stored ≡ self.old.stored }
    {
        if byte < b' ' {
            self.sends.extend_from_slice(&[b'^', byte + 0x40])?;
        } else {
            self.sends.push(byte)?;
        }
        Ok(())
    }
}

/// Takes a line of at most `capacity` bytes from a script whose next byte is at `cursor`. `Err` means out of memory.
pub(crate) fn take_line(
    alloc: Global,
    script: &[u8],
    cursor: usize,
    capacity: u8,
) -> Result<LineEnd, AllocError>
    requires { cursor < 9223372036854775808 }
    ensures types { IfOk result (TakesLine script.now capacity cursor) }
    ensures looks { IfOk result (λ e. cursor + look_count_of e ≤ 9223372036854775808) }
    ensures fits { IfOk result (λ e. FitsIn capacity cursor e) }
{
    let mut line = Line::new(alloc);
    let mut taken = 0;
    for offset in cursor..script.len() {
        if line.len() >= capacity as usize {
            return Ok(LineEnd::Ended(line, taken));
        }
        match line.take(script[offset])? {
            LineStep::Goes => taken += 1,
            LineStep::Ends => return Ok(LineEnd::Ended(line, taken + 1)),
            LineStep::Boots => return Ok(LineEnd::Booted(taken + 1)),
        }
    }
    if line.len() >= capacity as usize {
        return Ok(LineEnd::Ended(line, taken));
    }
    Ok(LineEnd::Short(taken + 1))
}
