// Page zero with a command tail.

ghost use Rattle.std.specs.Prelude.{◌≡◌, ◌+◌, ◌≤◌, length};
ghost use Rattle.command_tail.specs.PageZero.{page_zero, page_with_tail, tail_cells, with_bytes_at};

use crate::word::{drive_and_name, split_word};
use filenames::copy_uppercase;

/// The maximum length of a command tail, in bytes.
pub const TAIL_LIMIT: usize = 126;

/// The jump to the warm start, the I/O byte, the drive, and the jump to the BDOS.
const JUMPS: [u8; 8] = [0xc3, 0x03, 0xff, 0, 0, 0xc3, 0x06, 0xfe];

/// Returns page zero with a command tail of at most 126 bytes, whose letters are converted to upper case.
///
/// At 0000H and 0005H are the jumps to the warm start and to the BDOS. At 005CH and 006CH are the drive byte and the
/// name of the tail's first and second word. At 0080H is 0 for an empty tail, else the tail's length plus one, a blank
/// and the tail.
pub fn page_zero(tail: &[u8]) -> [u8; 256]
    requires { length tail.now ≤ TAIL_LIMIT }
    ensures { result ≡ page_zero tail.now }
{
    let mut raised = [0; TAIL_LIMIT];
    copy_uppercase(&mut raised, tail);
    page_with_tail(&raised[..tail.len()])
}

// Returns page zero with a tail in upper case.
fn page_with_tail(tail: &[u8]) -> [u8; 256]
    requires { length tail.now ≤ TAIL_LIMIT }
    ensures { result ≡ page_with_tail tail.now }
{
    let (first, rest) = split_word(tail);
    let (second, _) = split_word(rest);
    let mut page = [0; 256];
    write(&mut page, 0, &JUMPS);
    write(&mut page, 0x5c, &drive_and_name(first));
    write(&mut page, 0x6c, &drive_and_name(second));
    write(&mut page, 0x80, &tail_cells(tail));
    page
}

// Overwrites the cells from an address on.
fn write(cells: &mut [u8], at: usize, bytes: &[u8])
    requires { at + length bytes.now ≤ length cells.old }
    ensures { cells.new ≡ with_bytes_at cells.old at bytes.now }
{
    cells[at..at + bytes.len()].copy_from_slice(bytes);
}

// Returns the cells from 0080H on.
fn tail_cells(tail: &[u8]) -> [u8; 128]
    requires { length tail.now ≤ TAIL_LIMIT }
    ensures { result ≡ tail_cells tail.now }
{
    let mut cells = [0; 128];
    if tail.is_empty() {
        return cells;
    }
    cells[0] = tail.len() as u8 + 1;
    cells[1] = b' ';
    write(&mut cells, 2, tail);
    cells
}
