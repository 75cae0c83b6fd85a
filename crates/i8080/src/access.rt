ghost use Rattle.std.specs.Prelude.{◌≡◌, ◌<◌, ℕ, Bool, true, false, IsTrue, IsOk, IfOk, OnOk, OnErr};
ghost use Rattle.i8080.specs.Memory.{Memory, bytes, look, with_writes};
ghost use Rattle.i8080.specs.Reading.{Cell, Done};
ghost use Rattle.i8080.specs.Registers.{onward};
ghost use Rattle.i8080.specs.Opcodes.{decoded};
ghost use Rattle.i8080.specs.Operands.{byte_count};
ghost use Rattle.i8080.specs.Instruction.{one_byte, one_word, word_at};
ghost use Rattle.i8080.specs.Performs.{KeepsReady, Reads, WritesUnready};
ghost use Rattle.i8080.specs.Attempts.{AreReadable, IsKept, MayRead, MayWrite};

use crate::bus::{Bus, fetch, fetch_word};
use crate::registers::word_of;
use std::alloc::AllocError;

/// The opcode of HLT.
pub const HLT: u8 = 0x76;

/// A memory that may refuse a read or a write. Each `Bus` is one that refuses no read.
pub trait Access {
    /// Why a read or a write was refused.
    type Refusal: Drop;

    /// The written bytes, the bytes beneath them and the looks.
    ghost memory: { Self → Memory };

    /// Whether a cell may be written.
    ghost is_ready: { Self → ℕ → Bool };

    /// Whether no read is refused, and a write only if its cell was not ready. If not, a read is no look.
    ghost is_sure: { Bool };

    /// Whether `try_read` never refuses a cell, and `operand` and `operand_word` may read it.
    ghost is_readable: { Self → ℕ → Bool };

    /// The address below which opcodes are kept.
    ghost opcode_limit: { ℕ };

    /// Makes a cell ready to be written. No byte changes.
    ///
    /// # Errors
    ///
    /// The memory refuses the write. Cells that were ready stay ready.
    fn make_ready(&mut self, a: u16) -> Result<(), Self::Refusal>
        ensures ready { OnOk result (IsTrue (is_ready self.new a)) }
        ensures unready { OnErr result (is_sure ≡ true → is_ready self.old a ≡ false) }
        ensures kept { (q : ℕ) → IsTrue (is_ready self.old q) → IsTrue (is_ready self.new q) }
        ensures memory { memory self.new ≡ memory self.old };

    /// Reads the byte of a cell. If the memory is sure, this is a look, unless the cell was written.
    ///
    /// # Errors
    ///
    /// The memory refuses the read.
    fn try_read(&mut self, a: u16) -> Result<u8, Self::Refusal>
        ensures value { IfOk result (λ v. v ≡ bytes (memory self.old) a) }
        ensures looks { OnOk result ((memory self.new).looks
            ≡ look (memory self.old).own (memory self.old).looks a) }
        ensures refused { OnErr result (is_sure ≡ false) }
        ensures readable { IsTrue (is_readable self.old a) → IsOk result }
        ensures quiet { is_sure ≡ false → (memory self.new).looks ≡ (memory self.old).looks }
        ensures kept { (q : ℕ) → IsTrue (is_ready self.old q) → IsTrue (is_ready self.new q) }
        ensures own { (memory self.new).own ≡ (memory self.old).own }
        ensures beneath { (memory self.new).beneath ≡ (memory self.old).beneath }
        ensures lender { (memory self.new).lender ≡ (memory self.old).lender };

    /// Returns the byte of a cell as an opcode, or HLT if the memory does not keep it as one. This is no look. A memory that keeps
    /// opcodes a second time can return them faster than it reads, and need not test whether their operands can be read.
    fn opcode(&self, a: u16) -> u8
        ensures value { IsKept result → result ≡ bytes (memory self.now) a }
        ensures unlooked { IsKept result
            → look (memory self.now).own (memory self.now).looks a ≡ (memory self.now).looks }
        ensures low { IsKept result → a < opcode_limit }
        ensures readable { IsKept result
            → AreReadable (is_readable self.now) a (byte_count (decoded result)) };

    /// Reads the byte after the opcode of this cell. If the memory is sure, this is a look, unless the cell was written.
    fn operand(&mut self, pc: u16) -> u8
        requires { AreReadable (is_readable self.old) pc 2 }
        ensures reads { Reads (Cell (onward pc 1) Done) (memory self.old) result (memory self.new) }
        ensures quiet { is_sure ≡ false → (memory self.new).looks ≡ (memory self.old).looks }
        ensures kept { KeepsReady (is_ready self.old) (is_ready self.new) };

    /// Reads the word after the opcode of this cell, low byte first. If the memory is sure, each byte is a look, unless its cell was
    /// written.
    fn operand_word(&mut self, pc: u16) -> u16
        requires { AreReadable (is_readable self.old) pc 3 }
        ensures reads { Reads (word_at (onward pc 1) Done) (memory self.old) result (memory self.new) }
        ensures quiet { is_sure ≡ false → (memory self.new).looks ≡ (memory self.old).looks }
        ensures kept { KeepsReady (is_ready self.old) (is_ready self.new) };

    /// Reads the word at an address, with its low byte in the addressed cell and its high byte in the next one. The cell after
    /// 0FFFFH is 0000H.
    ///
    /// # Errors
    ///
    /// The memory refuses one of the reads.
    #[tactic(auto, using(crate::proofs::ReadyLemmas::readiness))]
    #[inline(always)]
    fn try_word(&mut self, a: u16) -> Result<u16, Self::Refusal>
        ensures reads { MayRead is_sure (word_at a Done) (memory self.old) result (memory self.new) }
        ensures kept { KeepsReady (is_ready self.old) (is_ready self.new) }
    {
        let low = self.try_read(a)?;
        let high = self.try_read(a.wrapping_add(1))?;
        Ok(word_of(low, high))
    }

    /// Writes a ready cell.
    fn put(&mut self, a: u16, value: u8)
        requires { IsTrue (is_ready self.old a) }
        ensures kept { (q : ℕ) → IsTrue (is_ready self.old q) → IsTrue (is_ready self.new q) }
        ensures memory { memory self.new ≡ with_writes (one_byte a value) (memory self.old) };

    /// Writes the word at an address, low byte first, after making both cells ready. No byte changes before both are.
    ///
    /// # Errors
    ///
    /// The memory refuses the write.
    #[tactic(auto, using(crate::proofs::ReadyLemmas::first_unready, crate::proofs::ReadyLemmas::second_unready, crate::proofs::ReadyLemmas::unready_before))]
    #[inline(always)]
    fn store_word(&mut self, a: u16, value: u16) -> Result<(), Self::Refusal>
        ensures writes { MayWrite (one_word a value) (memory self.old) result (memory self.new) }
        ensures unready { OnErr result (is_sure ≡ true
            → WritesUnready (is_ready self.old) (one_word a value)) }
    {
        let above = a.wrapping_add(1);
        self.make_ready(a)?;
        self.make_ready(above)?;
        self.put(a, (value % 256) as u8);
        self.put(above, (value / 256) as u8);
        Ok(())
    }
}

// Reads the byte of a cell.
#[inline(always)]
pub(crate) fn read_byte<M: Access>(bus: &mut M, a: u16) -> Result<u8, M::Refusal>
    ensures reads { MayRead M.is_sure (Cell a Done) (M.memory bus.old) result (M.memory bus.new) }
    ensures kept { KeepsReady (M.is_ready bus.old) (M.is_ready bus.new) }
{
    bus.try_read(a)
}

impl<B: Bus> Access for B {
    type Refusal = AllocError;

    ghost memory = { λ s. B.memory s };

    ghost is_ready = { λ s. B.is_ready s };

    ghost is_sure = { true };

    ghost is_readable = { λ s q. true };

    ghost opcode_limit = { 0 };

    #[inline(always)]
    fn make_ready(&mut self, a: u16) -> Result<(), AllocError> {
        self.ready(a)
    }

    #[inline(always)]
    fn try_read(&mut self, a: u16) -> Result<u8, AllocError> {
        Ok(self.read(a))
    }

    #[inline(always)]
    fn opcode(&self, a: u16) -> u8 {
        let _ = a;
        HLT
    }

    #[inline(always)]
    fn operand(&mut self, pc: u16) -> u8 {
        fetch(self, pc.wrapping_add(1))
    }

    #[inline(always)]
    fn operand_word(&mut self, pc: u16) -> u16 {
        fetch_word(self, pc.wrapping_add(1))
    }

    #[inline(always)]
    fn try_word(&mut self, a: u16) -> Result<u16, AllocError> {
        Ok(fetch_word(self, a))
    }

    #[inline(always)]
    fn put(&mut self, a: u16, value: u8) {
        self.write(a, value);
    }
}
