// The cells of control blocks and of the buffer.

ghost use Rattle.std.specs.Prelude.{◌≡◌, ◌≤◌, ◌<◌, ◌++◌, ℕ, IsTrue, OnOk, OnErr, length};
ghost use Rattle.i8080.specs.Memory.{write_all};
ghost use Rattle.i8080.specs.Registers.{onward};
ghost use Rattle.i8080.specs.End.{cells_from};
ghost use Rattle.i8080.specs.Performs.{KeepsReady, Reads, Writes, WritesUnready};
ghost use Rattle.bdos.specs.FileCalls.{bytes_at, place_cells};

use i8080::{Bus, fetch};
use std::alloc::AllocError;

/// Reads the cells from an address on; the cell after 0FFFFH is 0000H. It is inlined into each call that reads cells,
/// so that their count is known there.
#[tactic(auto, using(i8080::proofs::ReadyLemmas::readiness))]
#[inline(always)]
pub fn fetch_cells<B: Bus>(bus: &mut B, at: u16, cells: &mut [u8])
    requires { length cells.old ≤ 128 }
    ensures reads { Reads (bytes_at (length cells.old) at) (B.memory bus.old) cells.new (B.memory bus.new) }
    ensures length { length cells.new ≡ length cells.old }
    ensures kept { KeepsReady (B.is_ready bus.old) (B.is_ready bus.new) }
{
    if !bus.cells_at_once(at, cells) {
        fetch_each(bus, at, cells);
    }
}

// Reads the cells one by one, for when a read of some of them is a look or the memory cannot copy them at once.
#[tactic(auto, using(i8080::proofs::ReadyLemmas::readiness))]
#[inline(never)]
fn fetch_each<B: Bus>(bus: &mut B, at: u16, cells: &mut [u8])
    requires { length cells.old ≤ 128 }
    ensures reads { Reads (bytes_at (length cells.old) at) (B.memory bus.old) cells.new (B.memory bus.new) }
    ensures length { length cells.new ≡ length cells.old }
    ensures kept { KeepsReady (B.is_ready bus.old) (B.is_ready bus.new) }
{
    let mut address = at;
    for i in 0..cells.len() {
        cells[i] = fetch(bus, address);
        address = address.wrapping_add(1);
    }
}

/// Writes bytes into the cells from an address on, after all of them are ready. `Err` means out of memory: one of them was
/// not ready, and nothing is written. It is inlined, as `fetch_cells` is.
#[tactic(auto, using(crate::proofs::Unready::unready_cells))]
#[inline(always)]
pub fn put_cells<B: Bus>(bus: &mut B, at: u16, bytes: &[u8]) -> Result<(), AllocError>
    requires { length bytes.now ≤ 128 }
    ensures writes { Writes (cells_from at bytes.now) (B.memory bus.old) result (B.memory bus.new) }
    ensures refused { OnErr result (WritesUnready (B.is_ready bus.old) (cells_from at bytes.now)) }
{
    bus.ready_cells(at, bytes.len() as u16)?;
    bus.write_cells(at, bytes);
    Ok(())
}

/// Makes the three bytes of a control block that hold its sequential record number ready to be written.
pub fn ready_place<B: Bus>(bus: &mut B, at: u16) -> Result<(), AllocError>
    ensures extent { OnOk result (IsTrue (B.is_ready bus.new (onward at 12))) }
    ensures high { OnOk result (IsTrue (B.is_ready bus.new (onward at 14))) }
    ensures low { OnOk result (IsTrue (B.is_ready bus.new (onward at 32))) }
    ensures refused { (n : ℕ) → OnErr result (WritesUnready (B.is_ready bus.old) (place_cells at n)) }
    ensures kept { (q : ℕ) → IsTrue (B.is_ready bus.old q) → IsTrue (B.is_ready bus.new q) }
    ensures memory { B.memory bus.new ≡ B.memory bus.old }
{
    bus.ready(at.wrapping_add(12))?;
    bus.ready(at.wrapping_add(14))?;
    bus.ready(at.wrapping_add(32))
}

/// Writes the sequential record number of a control block, whose three bytes are ready.
pub fn write_place<B: Bus>(bus: &mut B, at: u16, record_number: u32)
    requires extent { IsTrue (B.is_ready bus.old (onward at 12)) }
    requires high { IsTrue (B.is_ready bus.old (onward at 14)) }
    requires low { IsTrue (B.is_ready bus.old (onward at 32)) }
    ensures own { (B.memory bus.new).own ≡ write_all (B.memory bus.old).own (place_cells at record_number) }
    ensures looks { (B.memory bus.new).looks ≡ (B.memory bus.old).looks }
    ensures beneath { (B.memory bus.new).beneath ≡ (B.memory bus.old).beneath }
    ensures lender { (B.memory bus.new).lender ≡ (B.memory bus.old).lender }
{
    bus.write(at.wrapping_add(12), (record_number / 128 % 32) as u8);
    bus.write(at.wrapping_add(14), (record_number / 4096 % 256) as u8);
    bus.write(at.wrapping_add(32), (record_number % 128) as u8);
}

/// Writes a record into the buffer, and then the sequential record number of a control block, after all cells are
/// ready. `Err` means out of memory and writes nothing. It is inlined, as `fetch_cells` is.
#[tactic(auto, using(crate::proofs::Runs::written_both, crate::proofs::Unready::put_both))]
#[inline(always)]
pub fn put_record<B: Bus>(
    bus: &mut B,
    buffer: u16,
    bytes: &[u8],
    at: u16,
    record_number: u32,
) -> Result<(), AllocError>
    requires bytes { length bytes.now ≤ 128 }
    ensures writes { Writes (cells_from buffer bytes.now ++ place_cells at record_number)
        (B.memory bus.old) result (B.memory bus.new) }
    ensures refused { OnErr result (WritesUnready (B.is_ready bus.old)
        (cells_from buffer bytes.now ++ place_cells at record_number)) }
{
    bus.ready_cells(buffer, bytes.len() as u16)?;
    ready_place(bus, at)?;
    bus.write_cells(buffer, bytes);
    write_place(bus, at, record_number);
    Ok(())
}
