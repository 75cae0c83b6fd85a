ghost use Rattle.std.specs.Prelude.{◌≡◌, ◌==◌, ◌+◌, ◌*◌, ◌<◌, ◌≤◌, ◌⊎◌, ℕ, true, false, if◌then◌else◌, IfOk, IfNone, IfSome, length, vec_len, slice_index, get_or};
ghost use Rattle.pagemem.specs.Learned.{AreKnown, IsLearned};
ghost use Rattle.i8080.specs.Registers.{word};
ghost use Rattle.i8080.specs.Attempts.{IsKept};
ghost use Rattle.i8080.specs.Opcodes.{decoded};
ghost use Rattle.i8080.specs.Operands.{byte_count};
ghost use Rattle.i8080.specs.declared.access.TheConstants.{HLT};

use crate::looks::{CELLS, blank_marks};
use crate::page::all_set;
use i8080::{HLT, byte_count, word_of};
use std::alloc::{AllocError, Global};

/// One cell more than memory has, which is never known: the byte after the last cell is not the high byte of a word here.
const CELLS_AND_END: usize = CELLS + 1;

/// The marks of two known cells as one word.
const BOTH_MARKED: u16 = 0x0101;

/// The first cell of the system area, where no opcode is learned.
pub const SYSTEM_AREA: u16 = 0xfe00;

/// The bytes of the known cells. A read of a known cell returns its byte and is no new look, so that it needs neither the pages
/// nor the looks. A learned opcode is the byte of a cell below the system area at which an instruction began, each byte of which is
/// known: its operand is read without a test.
#[derive(Drop)]
pub struct Known {
    marks: Vec<bool>,
    bytes: Vec<u8>,
    opcodes: Vec<u8>,
    ghost all_marks: { vec_len marks ≡ 65537 },
    ghost all_bytes: { vec_len bytes ≡ 65537 },
    ghost all_opcodes: { vec_len opcodes ≡ 65536 },
    ghost end: { get_or marks.items 65536 false ≡ false },
    ghost learned: { (q : ℕ) → IsKept (get_or opcodes.items q HLT)
        → IsLearned (λ cell. get_or marks.items cell false) (slice_index bytes.items q) q
        (get_or opcodes.items q HLT) },
}

impl Known {
    ghost use Rattle.pagemem.specs.Known.{is_known, byte_in, opcode_in, IsWholeAt};

    /// Creates a set with no cells. `Err` means out of memory.
    pub fn new(alloc: Global) -> Result<Known, AllocError>
        ensures { IfOk result (λ k. (q : ℕ) → is_known k q ≡ false) }
    {
        let marks = blank_marks(alloc, CELLS_AND_END)?;
        let bytes = vec![in alloc; 0; CELLS_AND_END]?;
        let opcodes = blank_opcodes(alloc, CELLS)?;
        Ok(Known {
            marks,
            bytes,
            opcodes,
        })
    }

    /// Returns the byte of a cell, or `None` if the cell is not known.
    #[inline(always)]
    pub fn get(&self, a: u16) -> Option<u8>
        ensures known { IfSome result (λ _. is_known self.now a ≡ true) }
        ensures unknown { IfNone result (is_known self.now a ≡ false) }
        ensures byte { IfSome result (λ v. v ≡ byte_in self.now a) }
    {
        if self.marks[a as usize] {
            return Some(self.byte(a));
        }
        None
    }

    // Returns the byte that is kept for a cell.
    #[inline(always)]
    fn byte(&self, a: u16) -> u8
        ensures { result ≡ byte_in self.now a }
    {
        self.bytes[a as usize]
    }

    /// Returns the word at an address, low byte first, if both of its cells are known. The word at 0FFFFH is not returned.
    #[inline(always)]
    pub fn word(&self, a: u16) -> Option<u16>
        ensures low { IfSome result (λ _. is_known self.now a ≡ true) }
        ensures high { IfSome result (λ _. is_known self.now (a + 1) ≡ true) }
        ensures inside { IfSome result (λ _. a < 65535) }
        ensures word { IfSome result (λ w. w ≡ word (byte_in self.now a) (byte_in self.now (a + 1))) }
    {
        let at = a as usize;
        // As numbers, so that both marks are read and compared at once.
        let marks = word_of(u8::from(self.marks[at]), u8::from(self.marks[at + 1]));
        if marks == BOTH_MARKED {
            return Some(word_of(self.bytes[at], self.bytes[at + 1]));
        }
        None
    }

    /// Returns the byte after a known cell, which is known too.
    #[inline(always)]
    pub fn byte_after(&self, a: u16) -> u8
        requires { AreKnown (is_known self.now) a 2 }
        ensures inside { a < 65535 }
        ensures byte { result ≡ byte_in self.now (a + 1) }
    {
        self.bytes[a as usize + 1]
    }

    /// Returns the word after a known cell, low byte first. Both of its cells are known too.
    #[inline(always)]
    pub fn word_after(&self, a: u16) -> u16
        requires { AreKnown (is_known self.now) a 3 }
        ensures inside { a < 65534 }
        ensures word { result ≡ word (byte_in self.now (a + 1)) (byte_in self.now (a + 2)) }
    {
        let at = a as usize;
        word_of(self.bytes[at + 1], self.bytes[at + 2])
    }

    /// Copies the bytes of consecutive cells, starting at `at`, if all of them are known. Returns `false` otherwise; the bytes in
    /// `cells` are then unspecified.
    #[inline(always)]
    pub fn copy_to(&self, at: u16, cells: &mut [u8]) -> bool
        requires { at + length cells.old ≤ 65536 }
        ensures length { length cells.new ≡ length cells.old }
        ensures known { result ≡ true → (i : ℕ) → i < length cells.old → is_known self.now (at + i) ≡ true }
        ensures bytes { result ≡ true → (i : ℕ) → i < length cells.old
            → slice_index cells.new i ≡ byte_in self.now (at + i) }
    {
        let from = usize::from(at);
        if !self.are_known(from, cells.len()) {
            return false;
        }
        cells.copy_from_slice(&self.bytes[from..from + cells.len()]);
        true
    }

    // Returns whether each of consecutive cells is known.
    #[inline(always)]
    fn are_known(&self, from: usize, count: usize) -> bool
        requires { from + count ≤ 65536 }
        ensures known { result ≡ true → AreKnown (is_known self.now) from count }
        ensures unknown { AreKnown (is_known self.now) from count → result ≡ true }
    {
        all_set(&self.marks[from..from + count])
    }

    /// Returns the learned opcode of a cell, or HLT if it has none.
    #[inline(always)]
    pub fn opcode(&self, a: u16) -> u8
        ensures kept { result ≡ opcode_in self.now a }
        ensures known { IsKept result → is_known self.now a ≡ true }
        ensures operand { IsKept result → AreKnown (is_known self.now) a (byte_count (decoded result)) }
        ensures byte { IsKept result → result ≡ byte_in self.now a }
        ensures low { IsKept result → a < SYSTEM_AREA }
    {
        self.opcodes[a as usize]
    }

    /// Learns the byte of a cell as an opcode, if each byte of the instruction is known and the cell is below the system area.
    #[inline(always)]
    pub fn learn_opcode(&mut self, a: u16)
        ensures marks { (q : ℕ) → is_known self.new q ≡ is_known self.old q }
        ensures bytes { (q : ℕ) → byte_in self.new q ≡ byte_in self.old q }
        ensures learned { IsWholeAt self.old a → a < SYSTEM_AREA
            → opcode_in self.new a ≡ byte_in self.old a }
    {
        let byte = self.byte(a);
        if a < SYSTEM_AREA && self.are_known(a as usize, byte_count(byte)) {
            self.opcodes[a as usize] = byte;
        }
    }

    /// Sets the byte of a cell, which is known from then on. No opcode is learned there.
    #[tactic(auto, using(crate::proofs::Laws::set_read))]
    #[inline(always)]
    pub fn set(&mut self, a: u16, value: u8)
        ensures marks { (q : ℕ) → is_known self.new q ≡ (if q == a then true else is_known self.old q) }
        ensures bytes { (q : ℕ) → byte_in self.new q ≡ (if q == a then value else byte_in self.old q) }
    {
        self.marks[a as usize] = true;
        self.bytes[a as usize] = value;
        self.opcodes[a as usize] = HLT;
    }

    /// Sets the bytes of consecutive cells, starting at `at`, which may be known from then on.
    #[inline(always)]
    pub fn set_cells(&mut self, at: u16, values: &[u8])
        requires { at + length values.now ≤ 65536 }
        ensures inside { (i : ℕ) → i < length values.now
            → byte_in self.new (at + i) ≡ slice_index values.now i }
        ensures outside { (q : ℕ) → (q < at) ⊎ (at + length values.now ≤ q)
            → (is_known self.new q ≡ is_known self.old q) × (byte_in self.new q ≡ byte_in self.old q) }
    {
        let from = usize::from(at);
        mark_cells(&mut self.marks, from, values.len(), true);
        copy_cells(&mut self.bytes, from, values);
        clear_cells(&mut self.opcodes, from, values.len());
    }

    /// Removes a cell.
    #[inline(always)]
    pub fn remove(&mut self, a: u16)
        ensures marks { (q : ℕ) → is_known self.new q ≡ (if q == a then false else is_known self.old q) }
        ensures bytes { (q : ℕ) → byte_in self.new q ≡ byte_in self.old q }
    {
        self.remove_cells(a as usize, 1);
    }

    /// Removes the cells of a page.
    pub fn remove_page(&mut self, page: usize)
        requires { page < 256 }
        ensures kept { (q : ℕ) → is_known self.new q ≡ true → is_known self.old q ≡ true }
        ensures gone { (q : ℕ) → is_known self.new q ≡ true → (q < 256 * page) ⊎ (256 * page + 256 ≤ q) }
        ensures bytes { (q : ℕ) → byte_in self.new q ≡ byte_in self.old q }
    {
        self.remove_cells(256 * page, 256);
    }

    // Removes consecutive cells, and the opcodes of the instructions that they may belong to.
    #[inline(always)]
    fn remove_cells(&mut self, from: usize, count: usize)
        requires { from + count ≤ 65536 }
        ensures removed { (i : ℕ) → i < count → is_known self.new (from + i) ≡ false }
        ensures kept { (q : ℕ) → (q < from) ⊎ (from + count ≤ q)
            → is_known self.new q ≡ is_known self.old q }
        ensures bytes { (q : ℕ) → byte_in self.new q ≡ byte_in self.old q }
    {
        mark_cells(&mut self.marks, from, count, false);
        // An instruction has at most three bytes.
        let first = from.saturating_sub(2);
        clear_cells(&mut self.opcodes, first, from + count - first);
    }
}

// Returns `count` cells, none of which has a learned opcode.
#[tactic(auto, using(crate::proofs::LearnedLemmas::none_kept))]
fn blank_opcodes(alloc: Global, count: usize) -> Result<Vec<u8>, AllocError>
    ensures len { IfOk result (λ v. vec_len v ≡ count) }
    ensures none { IfOk result (λ v. (q : ℕ) → get_or v.items q HLT ≡ HLT) }
{
    vec![in alloc; HLT; count]
}

// Sets the marks of consecutive cells.
#[inline(always)]
fn mark_cells(marks: &mut Vec<bool>, from: usize, count: usize, mark: bool)
    requires { from + count ≤ vec_len marks.old }
    ensures length { vec_len marks.new ≡ vec_len marks.old }
    ensures inside { (i : ℕ) → i < count → get_or marks.new.items (from + i) false ≡ mark }
    ensures outside { (q : ℕ) → (q < from) ⊎ (from + count ≤ q)
        → get_or marks.new.items q false ≡ get_or marks.old.items q false }
{
    let part = &mut marks[from..from + count];
    part.fill(mark);
}

// Copies bytes to consecutive cells.
#[inline(always)]
fn copy_cells(bytes: &mut Vec<u8>, from: usize, values: &[u8])
    requires { from + length values.now ≤ vec_len bytes.old }
    ensures length { vec_len bytes.new ≡ vec_len bytes.old }
    ensures inside { (i : ℕ) → i < length values.now
        → slice_index bytes.new.items (from + i) ≡ slice_index values.now i }
    ensures outside { (q : ℕ) → (q < from) ⊎ (from + length values.now ≤ q)
        → slice_index bytes.new.items q ≡ slice_index bytes.old.items q }
{
    let part = &mut bytes[from..from + values.len()];
    part.copy_from_slice(values);
}

// Removes the opcodes of consecutive cells.
#[inline(always)]
fn clear_cells(opcodes: &mut Vec<u8>, from: usize, count: usize)
    requires { from + count ≤ vec_len opcodes.old }
    ensures length { vec_len opcodes.new ≡ vec_len opcodes.old }
    ensures inside { (i : ℕ) → i < count → get_or opcodes.new.items (from + i) HLT ≡ HLT }
    ensures outside { (q : ℕ) → (q < from) ⊎ (from + count ≤ q)
        → get_or opcodes.new.items q HLT ≡ get_or opcodes.old.items q HLT }
{
    let part = &mut opcodes[from..from + count];
    part.fill(HLT);
}
