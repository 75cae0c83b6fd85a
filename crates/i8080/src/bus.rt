ghost use Rattle.std.specs.Prelude.{◌≡◌, ◌<◌, ℕ, Bool, true, false, IsTrue, OnOk, OnErr, IfSome, length, slice_index};
ghost use Rattle.i8080.specs.Memory.{Memory, bytes, look, with_look, with_writes};
ghost use Rattle.i8080.specs.Reading.{Cell, Done};
ghost use Rattle.i8080.specs.Registers.{onward, word};
ghost use Rattle.i8080.specs.Instruction.{one_byte, word_at};
ghost use Rattle.i8080.specs.End.{cells_from};
ghost use Rattle.i8080.specs.Performs.{KeepsReady, Reads};

use crate::registers::word_of;
use std::alloc::AllocError;

/// A memory in which a cell may have to be made ready before it is written.
pub trait Bus {
    /// The written bytes, the bytes beneath them and the looks.
    ghost memory: { Self → Memory };

    /// Whether a cell may be written.
    ghost is_ready: { Self → ℕ → Bool };

    /// Makes a cell ready to be written. No byte changes.
    ///
    /// # Errors
    ///
    /// An allocation failed, which is only possible if the cell was not ready. The same cells are ready as before.
    fn ready(&mut self, a: u16) -> Result<(), AllocError>
        ensures ready { OnOk result (IsTrue (is_ready self.new a)) }
        ensures err { OnErr result (is_ready self.new ≡ is_ready self.old) }
        ensures refused { OnErr result (is_ready self.old a ≡ false) }
        ensures kept { (q : ℕ) → IsTrue (is_ready self.old q) → IsTrue (is_ready self.new q) }
        ensures memory { memory self.new ≡ memory self.old };

    /// Returns the byte of a cell. This is a look, unless the cell was written.
    fn read(&mut self, a: u16) -> u8
        ensures value { result ≡ bytes (memory self.old) a }
        ensures kept { (q : ℕ) → IsTrue (is_ready self.old q) → IsTrue (is_ready self.new q) }
        ensures memory { memory self.new ≡ with_look a (memory self.old) };

    /// Writes a ready cell.
    fn write(&mut self, a: u16, value: u8)
        requires { IsTrue (is_ready self.old a) }
        ensures kept { (q : ℕ) → IsTrue (is_ready self.old q) → IsTrue (is_ready self.new q) }
        ensures memory { memory self.new ≡ with_writes (one_byte a value) (memory self.old) };

    /// Makes `count` cells ready, starting at `at`; the cell after 0FFFFH is 0000H. No byte changes.
    ///
    /// # Errors
    ///
    /// An allocation failed, which is only possible if one of the cells was not ready. Cells that were ready stay ready, and some
    /// of the others may be ready too.
    #[tactic(auto, using(crate::proofs::ReadyLemmas::unready_before))]
    fn ready_cells(&mut self, at: u16, count: u16) -> Result<(), AllocError>
        ensures ready { OnOk result ((i : ℕ) → i < count → IsTrue (is_ready self.new (onward at i))) }
        ensures refused { OnErr result ((i : ℕ) × (i < count) × (is_ready self.old (onward at i) ≡ false)) }
        ensures kept { (q : ℕ) → IsTrue (is_ready self.old q) → IsTrue (is_ready self.new q) }
        ensures memory { memory self.new ≡ memory self.old }
    {
        for i in 0..count {
            self.ready(at.wrapping_add(i))?;
        }
        Ok(())
    }

    /// Writes bytes to ready cells, starting at `at`; the cell after 0FFFFH is 0000H. Allocates nothing.
    fn write_cells(&mut self, at: u16, values: &[u8])
        requires ready { (i : ℕ) → i < length values.now → IsTrue (is_ready self.old (onward at i)) }
        ensures kept { (q : ℕ) → IsTrue (is_ready self.old q) → IsTrue (is_ready self.new q) }
        ensures memory { memory self.new ≡ with_writes (cells_from at values.now) (memory self.old) }
    {
        let mut address = at;
        for value in values {
            self.write(address, *value);
            address = address.wrapping_add(1);
        }
    }

    /// Copies the bytes of cells, starting at `at`, and returns `true`, if the memory can do this at once and without a look;
    /// the cell after 0FFFFH is 0000H. On `false`, the bytes in `cells` are unspecified: read the cells one by one.
    fn cells_at_once(&self, at: u16, cells: &mut [u8]) -> bool
        ensures length { length cells.new ≡ length cells.old }
        ensures value { result ≡ true → (i : ℕ) → i < length cells.old
            → slice_index cells.new i ≡ bytes (memory self.now) (onward at i) }
        ensures unlooked { result ≡ true → (i : ℕ) → i < length cells.old
            → look (memory self.now).own (memory self.now).looks (onward at i) ≡ (memory self.now).looks }
    {
        let _ = (at, cells.len());
        false
    }

    /// Returns the word at an address, with its low byte in the addressed cell and its high byte in the next one, if the
    /// memory can read both at once and without a look; the cell after 0FFFFH is 0000H. On `None`, read the cells one by one.
    fn known_word(&self, a: u16) -> Option<u16>
        ensures value { IfSome result (λ w. w
            ≡ word (bytes (memory self.now) a) (bytes (memory self.now) (onward a 1))) }
        ensures low { IfSome result (λ _.
            look (memory self.now).own (memory self.now).looks a ≡ (memory self.now).looks) }
        ensures high { IfSome result (λ _.
            look (memory self.now).own (memory self.now).looks (onward a 1) ≡ (memory self.now).looks) }
    {
        let _ = a;
        None
    }
}

/// Reads the byte of a cell.
#[inline(always)]
pub fn fetch<B: Bus>(bus: &mut B, a: u16) -> u8
    ensures reads { Reads (Cell a Done) (B.memory bus.old) result (B.memory bus.new) }
    ensures kept { KeepsReady (B.is_ready bus.old) (B.is_ready bus.new) }
{
    bus.read(a)
}

/// Reads the word at an address, with its low byte in the addressed cell and its high byte in the next one. The cell after
/// 0FFFFH is 0000H. Tries `known_word` first, which is faster and returns most words.
#[tactic(auto, using(crate::proofs::ReadyLemmas::readiness))]
#[inline(always)]
pub fn fetch_word<B: Bus>(bus: &mut B, a: u16) -> u16
    ensures reads { Reads (word_at a Done) (B.memory bus.old) result (B.memory bus.new) }
    ensures kept { KeepsReady (B.is_ready bus.old) (B.is_ready bus.new) }
{
    match bus.known_word(a) {
        Some(word) => word,
        None => fetch_word_apart(bus, a),
    }
}

// Reads a word cell by cell. Out of line, because `known_word` returns most words.
#[tactic(auto, using(crate::proofs::ReadyLemmas::readiness))]
#[inline(never)]
fn fetch_word_apart<B: Bus>(bus: &mut B, a: u16) -> u16
    ensures reads { Reads (word_at a Done) (B.memory bus.old) result (B.memory bus.new) }
    ensures kept { KeepsReady (B.is_ready bus.old) (B.is_ready bus.new) }
{
    let low = fetch(bus, a);
    let high = fetch(bus, a.wrapping_add(1));
    word_of(low, high)
}
