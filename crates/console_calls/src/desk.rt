ghost use Rattle.std.specs.Prelude.{◌≡◌, ◌≤◌, ◌<◌, ◌+◌, ℕ, true, false, length, Ok, IfOk, OnOk, OnErr, IfSome, IfNone};
ghost use Rattle.console_calls.specs.Desk as desk;
ghost use Rattle.console_calls.specs.Desk.{first_desk, printed_byte, tab_blanks, sent_byte, echoed_byte, is_echoed};
ghost use Rattle.console_calls.specs.DeskAfter.{SendsText, sent_bytes, unmoved_byte, at_spot, desk_taking, desk_back};
ghost use Rattle.console_calls.specs.ScriptLooks.{IsSpotOf, LeavesOut, LooksAhead, is_within};

use crate::script_looks::ScriptLooks;
use directory::Search;
use filenames::Drive;
use std::alloc::{AllocError, Global};
use std::marker::Model;

/// The buffer address at the start and after a reset, in page zero.
pub(crate) const FIRST_BUFFER: u16 = 0x0080;

/// All of a desk except its text: the cursor, which is the number of script bytes taken, the column, the buffer address
/// of the file calls, the current drive, and where a search of the directory continues, if there is one.
#[derive(Clone, Copy)]
pub struct Spot {
    cursor: usize,
    column: usize,
    buffer: u16,
    drive: Drive,
    search: Option<Search>,
}

impl Spot {
    /// Returns a copy of the spot. Allocates nothing, so it is never an `Err`.
    pub fn snapshot(&self) -> Result<Spot, AllocError>
        ensures { result ≡ Ok self.now }
    {
        Ok(*self)
    }
}

/// What the BDOS keeps besides memory and files: the cursor of the script, the text and the column of the console, the
/// buffer address, the current drive and the search. It also has the script offsets that were looked at, which are not
/// part of a state of the machine.
#[derive(Drop)]
pub struct Desk {
    spot: Spot,
    text: Vec<u8>,
    looks: ScriptLooks,
}

impl Model for Desk {
    ghost use Rattle.std.specs.Prelude.{length, ◌≤◌, ◌<◌};
    ghost use Rattle.console_calls.specs.ScriptLooks.{DeskLooks};

    ghost Value = { DeskLooks };

    ghost view = { λ d. record {
      desk = record { spot = d.spot; text = d.text.items };
      looks = d.looks;
    } };

    ghost invariant = { λ d. record {
      column : d.spot.column ≤ length d.text.items;
      cursor : d.spot.cursor < 9223372036854775808;
      from : d.looks.from ≤ d.spot.cursor;
      to : d.spot.cursor ≤ d.looks.to;
      bound : d.looks.to ≤ 9223372036854775808;
    } };
}

/// A state to roll back to, with the length of the text in place of the text.
#[derive(Clone, Copy)]
pub(crate) struct Savepoint {
    spot: Spot,
    length: usize,
}

impl Desk {
    /// Creates a desk with nothing taken and nothing sent, the buffer in page zero, and A as the current drive. Allocates
    /// nothing.
    pub fn new(alloc: Global) -> Desk
        ensures desk { result.desk ≡ first_desk }
        ensures looks { (k : ℕ) → is_within result.looks k ≡ false }
    {
        let spot = Spot {
            cursor: 0,
            column: 0,
            buffer: FIRST_BUFFER,
            drive: Drive::A,
            search: None,
        };
        Desk {
            spot,
            text: Vec::new(alloc),
            looks: ScriptLooks { from: 0, to: 0 },
        }
    }

    /// Creates a desk from a spot and its text, with no offset looked at.
    pub fn from_parts(spot: Spot, text: Vec<u8>) -> Desk
        requires { IsSpotOf spot (length text.items) }
        ensures desk { result.desk ≡ record { spot = spot; text = text.items } }
        ensures looks { (k : ℕ) → is_within result.looks k ≡ false }
    {
        let looks = ScriptLooks {
            from: spot.cursor,
            to: spot.cursor,
        };
        Desk { spot, text, looks }
    }

    /// Returns all of the desk except its text.
    pub fn spot(&self) -> Spot
        ensures spot { result ≡ self.now.desk.spot }
        ensures within { IsSpotOf result (length self.now.desk.text) }
    {
        let Desk {
            spot,
            text: _,
            looks: _,
        } = self;
        *spot
    }

    /// Consumes the desk and returns its text.
    pub fn into_text(self) -> Vec<u8>
        ensures { result.items ≡ self.desk.text }
    {
        self.text
    }

    /// Prints a byte on the console. A tab becomes blanks up to the next column that is a multiple of 8. An `Err` means out
    /// of memory and changes nothing.
    pub fn print(&mut self, byte: u8) -> Result<(), AllocError>
        ensures { SendsText self.old (λ column. printed_byte column byte) result self.new }
    {
        if byte == b'\t' {
            return self.tab();
        }
        self.send(byte)
    }

    /// Returns all bytes sent to the console.
    pub fn text(&self) -> &[u8]
        ensures { result.now ≡ self.now.desk.text }
    {
        self.text.as_slice()
    }

    /// Returns a copy of the desk, or `Err` if allocation fails.
    pub fn snapshot(&self) -> Result<Desk, AllocError>
        ensures { IfOk result (λ d. d ≡ self.now) }
    {
        let spot = self.spot;
        let looks = self.looks;
        let mut text = Vec::new(*self.text.allocator());
        text.extend_from_slice(&self.text)?;
        Ok(Desk { spot, text, looks })
    }

    /// Returns a desk at the same spot, whose text is only as long as its column: to try what a call does. `Err` means out of memory.
    pub fn at_same_spot(&self) -> Result<Desk, AllocError>
        ensures { IfOk result (λ d. d.desk.spot ≡ self.now.desk.spot) }
    {
        let text = Vec::from_slice(*self.text.allocator(), &self.text[..self.spot.column])?;
        Ok(Desk::from_parts(self.spot, text))
    }

    /// Returns whether the run looked at an offset of the script: at its byte, or that there is none.
    pub fn looked(&self, at: u64) -> bool
        ensures { result ≡ is_within self.now.looks at }
    {
        self.looks.from as u64 <= at && at < self.looks.to as u64
    }

    /// Forgets which script offsets were looked at.
    pub fn forget_looks(&mut self)
        ensures desk { self.new.desk ≡ self.old.desk }
        ensures looks { (k : ℕ) → is_within self.new.looks k ≡ false }
    {
        self.looks.from = self.spot.cursor;
        self.looks.to = self.spot.cursor;
    }

    /// Removes and returns one of the script offsets that were looked at; `None` if there is none.
    pub fn take_look(&mut self) -> Option<u64>
        ensures desk { self.new.desk ≡ self.old.desk }
        ensures one { IfSome result (λ k. is_within self.old.looks k ≡ true) }
        ensures taken { IfSome result (λ k. LeavesOut self.old.looks k self.new.looks) }
        ensures none { IfNone result ((j : ℕ) → is_within self.old.looks j ≡ false) }
        ensures same { IfNone result (self.new ≡ self.old) }
    {
        let ScriptLooks { from, to } = self.looks;
        if from < self.spot.cursor {
            self.looks.from = from + 1;
            return Some(from as u64);
        }
        if from == to {
            return None;
        }
        self.looks.to = to - 1;
        Some((to - 1) as u64)
    }

    /// Returns the buffer address, at which records are read and written.
    pub fn buffer(&self) -> u16
        ensures { result ≡ self.now.desk.spot.buffer }
    {
        self.spot.buffer
    }

    /// Sets the buffer address.
    pub fn set_buffer(&mut self, buffer: u16)
        ensures desk { self.new.desk
            ≡ at_spot self.old.desk (record self.old.desk.spot { buffer = buffer }) }
        ensures looks { self.new.looks ≡ self.old.looks }
    {
        self.spot.buffer = buffer;
    }

    /// Returns the current drive.
    pub fn drive(&self) -> Drive
        ensures { result ≡ self.now.desk.spot.drive }
    {
        self.spot.drive
    }

    /// Sets the current drive.
    pub fn set_drive(&mut self, drive: Drive)
        ensures desk { self.new.desk ≡ at_spot self.old.desk (record self.old.desk.spot { drive = drive }) }
        ensures looks { self.new.looks ≡ self.old.looks }
    {
        self.spot.drive = drive;
    }

    /// Returns where a search of the directory continues, if there is one.
    pub fn search(&self) -> Option<Search>
        ensures { result ≡ self.now.desk.spot.search }
    {
        self.spot.search
    }

    /// Sets where a search of the directory continues.
    pub fn set_search(&mut self, search: Option<Search>)
        ensures desk { self.new.desk
            ≡ at_spot self.old.desk (record self.old.desk.spot { search = search }) }
        ensures looks { self.new.looks ≡ self.old.looks }
    {
        self.spot.search = search;
    }

    /// Returns the allocator of the text.
    pub fn allocator(&self) -> Global {
        *self.text.allocator()
    }

    /// Returns the number of script bytes taken, which is the offset of the next byte.
    pub(crate) fn cursor(&self) -> usize
        ensures cursor { result ≡ self.now.desk.spot.cursor }
        ensures bound { result < 9223372036854775808 }
    {
        self.spot.cursor
    }

    /// Looks at `count` offsets of the script, from the cursor on.
    pub(crate) fn look(&mut self, count: usize)
        requires { self.old.desk.spot.cursor + count ≤ 9223372036854775808 }
        ensures desk { self.new.desk ≡ self.old.desk }
        ensures looks { LooksAhead self.old.looks self.old.desk.spot.cursor count self.new.looks }
    {
        let to = self.spot.cursor + count;
        if self.looks.to < to {
            self.looks.to = to;
        }
    }

    /// Takes `count` bytes of the script, which looks at their offsets.
    pub(crate) fn take(&mut self, count: usize)
        requires { self.old.desk.spot.cursor + count < 9223372036854775808 }
        ensures desk { self.new.desk ≡ desk_taking self.old.desk count }
        ensures looks { LooksAhead self.old.looks self.old.desk.spot.cursor count self.new.looks }
    {
        let cursor = self.spot.cursor + count;
        if self.looks.to < cursor {
            self.looks.to = cursor;
        }
        self.spot.cursor = cursor;
    }

    /// Returns the current state, to roll back to.
    pub(crate) fn savepoint(&self) -> Savepoint
        ensures spot { result.spot ≡ self.now.desk.spot }
        ensures length { result.length ≡ length self.now.desk.text }
        ensures within { result.spot.column ≤ result.length }
    {
        Savepoint {
            spot: self.spot,
            length: self.text.len(),
        }
    }

    /// Removes what was sent since the savepoint.
    pub(crate) fn roll_back(&mut self, savepoint: Savepoint)
        requires within { savepoint.spot.column ≤ savepoint.length }
        requires earlier { savepoint.length ≤ length self.old.desk.text }
        requires cursor { savepoint.spot.cursor ≡ self.old.desk.spot.cursor }
        ensures desk { self.new.desk ≡ desk_back savepoint.spot savepoint.length self.old.desk }
        ensures looks { self.new.looks ≡ self.old.looks }
    {
        self.text.truncate(savepoint.length);
        self.spot = savepoint.spot;
    }

    fn send(&mut self, byte: u8) -> Result<(), AllocError>
        ensures { SendsText self.old (λ column. sent_byte column byte) result self.new }
    {
        self.text.push(byte)?;
        self.spot.column = column_after(self.spot.column, byte);
        Ok(())
    }

    /// Appends a byte to the text and leaves the column unchanged. An `Err` means out of memory and changes nothing.
    pub(crate) fn append(&mut self, byte: u8) -> Result<(), AllocError>
        ensures { SendsText self.old (λ column. unmoved_byte column byte) result self.new }
    {
        self.text.push(byte)?;
        Ok(())
    }

    /// Sends bytes without expanding tabs. An `Err` means out of memory and changes nothing.
    pub(crate) fn send_all(&mut self, bytes: &[u8]) -> Result<(), AllocError>
        ensures { SendsText self.old (λ column. sent_bytes column bytes.now) result self.new }
    {
        self.text.extend_from_slice(bytes)?;
        self.spot.column = column_after_all(self.spot.column, bytes);
        Ok(())
    }

    fn tab(&mut self) -> Result<(), AllocError>
        ensures { SendsText self.old tab_blanks result self.new }
    {
        let blanks = 8 - self.spot.column % 8;
        self.text.extend_from_slice(&[b' '; 8][..blanks])?;
        self.spot.column += blanks;
        Ok(())
    }

    /// Prints a byte of the script if function 1 echoes it: a byte from 20H on, a backspace, a tab, a line feed or a
    /// carriage return. An `Err` means out of memory and changes nothing.
    pub(crate) fn echo(&mut self, byte: u8) -> Result<(), AllocError>
        ensures sends { SendsText self.old (λ column. echoed_byte column byte) result self.new }
        ensures grows { OnErr result (is_echoed byte ≡ true) }
    {
        if matches!(byte, 0x20..|0x08| 0x09 | 0x0a | 0x0d) {
            return self.print(byte);
        }
        Ok(())
    }
}

// Returns the column after a byte was sent.
fn column_after(column: usize, byte: u8) -> usize
    requires { column + 1 < 18446744073709551616 }
    ensures column { result ≡ desk.column_after column byte }
    ensures within { result ≤ column + 1 }
{
    match byte {
        b'\r' => 0,
        0x08 => column.saturating_sub(1),
        0..=0x1f | 0x7f => column,
        _ => column + 1,
    }
}

// Returns the column after bytes were sent.
fn column_after_all(column: usize, bytes: &[u8]) -> usize
    requires { column + length bytes.now < 18446744073709551616 }
    ensures column { result ≡ desk.column_after_all column bytes.now }
    ensures within { result ≤ column + length bytes.now }
{
    let mut after = column;
    for byte in bytes {
        after = column_after(after, *byte);
    }
    after
}
