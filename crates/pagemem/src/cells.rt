ghost use Rattle.std.specs.Prelude.{◌≡◌, true, false, ◌<◌, ◌≤◌, ◌+◌, ◌/◌, ◌%◌, ℕ, vec_len, IsTrue, IfOk, OnOk, OnErr, None, length, get_or, slice_index};
ghost use Rattle.pagemem.specs.Pages.{IsLaid, IsNotOwned, own_at, ready_at, is_owned_at};
ghost use Rattle.i8080.specs.End.{cells_from};
ghost use Rattle.i8080.specs.Memory.{write, write_all};

use crate::page::{Slot, all_set};
use std::alloc::{AllocError, Global};

/// The written bytes, in 256 pages. A page is allocated when one of its cells is first made ready to be written; a cell that
/// was not written has no byte here.
#[derive(Drop)]
pub struct Cells {
    slots: Vec<Slot>,
    alloc: Global,
    ghost all_slots: { vec_len slots ≡ 256 },
}

impl Cells {
    ghost use Rattle.pagemem.specs.Cells.{own_in, is_ready_in};

    /// Creates cells of which none is written. `Err` means out of memory.
    pub fn new(alloc: Global) -> Result<Cells, AllocError>
        ensures { IfOk result (λ c. own_in c ≡ (λ _. None)) }
    {
        let slots = blank_slots(alloc, 256)?;
        Ok(Cells { slots, alloc })
    }

    /// Makes the page of a cell owned, so that the cell may be written. No byte changes. `Err` means out of memory; the cell was
    /// then not ready, and nothing has changed.
    #[tactic(auto, using(crate::proofs::Laws::one_slot_owned))]
    #[inline(always)]
    pub fn ready(&mut self, a: u16) -> Result<(), AllocError>
        ensures ready { OnOk result (IsTrue (is_ready_in self.new a)) }
        ensures err { OnErr result (is_ready_in self.new ≡ is_ready_in self.old) }
        ensures refused { OnErr result (is_ready_in self.old a ≡ false) }
        ensures kept { (q : ℕ) → IsTrue (is_ready_in self.old q) → IsTrue (is_ready_in self.new q) }
        ensures own { own_in self.new ≡ own_in self.old }
    {
        let slot = &mut self.slots[(a / 256) as usize];
        slot.make_owned(self.alloc)
    }

    /// Returns whether a cell may be written.
    #[inline(always)]
    pub fn is_ready(&self, a: u16) -> bool
        ensures { result ≡ is_ready_in self.now a }
    {
        match &self.slots[(a / 256) as usize] {
            Slot::Owned(_) => true,
            Slot::Empty | Slot::Shared(_) => false,
        }
    }

    /// Returns whether a page exists. In any other page, no cell was written.
    #[tactic(auto, unfolding(crate::specs::Pages::own_at))]
    pub fn has_page(&self, page: usize) -> bool
        requires { page < 256 }
        ensures { result ≡ false → (q : ℕ) → q / 256 ≡ page → own_in self.now q ≡ None }
    {
        match &self.slots[page] {
            Slot::Empty => false,
            Slot::Owned(_) | Slot::Shared(_) => true,
        }
    }

    /// Returns the allocator.
    pub fn allocator(&self) -> Global {
        self.alloc
    }

    /// Returns the byte that was last written to a cell, or `None` if none was.
    #[tactic(auto, unfolding(crate::specs::Pages::own_at))]
    #[inline(always)]
    pub fn written(&self, a: u16) -> Option<u8>
        ensures { result ≡ own_in self.now a }
    {
        let at = (a % 256) as u8;
        match &self.slots[(a / 256) as usize] {
            Slot::Empty => None,
            Slot::Owned(page) => page.get(at),
            Slot::Shared(page) => page.get(at),
        }
    }

    /// Writes a ready cell.
    #[tactic(auto, using(crate::proofs::Laws::own_write, crate::proofs::Laws::ready_kept))]
    #[inline(always)]
    pub fn write(&mut self, a: u16, value: u8)
        requires { IsTrue (is_ready_in self.old a) }
        ensures kept { (q : ℕ) → IsTrue (is_ready_in self.old q) → IsTrue (is_ready_in self.new q) }
        ensures own { own_in self.new ≡ write (own_in self.old) a value }
    {
        let slot = &mut self.slots[(a / 256) as usize];
        match slot {
            Slot::Owned(page) => page.set((a % 256) as u8, value),
            Slot::Empty => unreachable!(),
            Slot::Shared(_) => unreachable!(),
        }
    }

    /// Writes bytes to ready cells of one page, starting at `at`.
    #[tactic(auto, using(crate::proofs::Laws::ready_kept, crate::proofs::RunLaws::own_write_all))]
    #[inline(always)]
    pub fn write_in_page(&mut self, at: u16, values: &[u8])
        requires ready { IsTrue (is_ready_in self.old at) }
        requires page { at % 256 + length values.now ≤ 256 }
        ensures kept { (q : ℕ) → IsTrue (is_ready_in self.old q) → IsTrue (is_ready_in self.new q) }
        ensures own { own_in self.new ≡ write_all (own_in self.old) (cells_from at values.now) }
    {
        let slot = &mut self.slots[(at / 256) as usize];
        match slot {
            Slot::Owned(page) => page.set_cells((at % 256) as u8, values),
            Slot::Empty => unreachable!(),
            Slot::Shared(_) => unreachable!(),
        }
    }

    /// Copies the bytes of cells of one page, starting at `at`: the written byte of a cell, or its byte of `beneath` if it
    /// was not written. Returns `true` if each cell was written or is marked; on `false`, the bytes in `cells` are
    /// unspecified.
    #[inline(always)]
    pub fn copy_over(&self, at: u16, beneath: &[u8], marks: &[bool], cells: &mut [u8]) -> bool
        requires page { at % 256 + length cells.old ≤ 256 }
        requires beneath { length beneath.now ≡ length cells.old }
        requires marks { length marks.now ≡ length cells.old }
        ensures length { length cells.new ≡ length cells.old }
        ensures laid { result ≡ true → (i : ℕ) → i < length cells.old
            → IsLaid (own_in self.now (at + i)) (slice_index beneath.now i) (get_or marks.now i false)
            (slice_index cells.new i) }
    {
        let from = (at % 256) as usize;
        match &self.slots[(at / 256) as usize] {
            Slot::Empty => copy_marked(beneath, marks, cells),
            Slot::Owned(page) => page.copy_over(from, beneath, marks, cells),
            Slot::Shared(page) => page.copy_over(from, beneath, marks, cells),
        }
    }

    /// Makes the owned pages shared, by a copy of each, so that a snapshot only needs a reference to each. No byte changes. `Err`
    /// means out of memory; a page was then owned, and some may now be shared.
    pub fn share(&mut self) -> Result<(), AllocError>
        ensures shared { OnOk result ((q : ℕ) → is_ready_in self.new q ≡ false) }
        ensures refused { OnErr result ((q : ℕ) × IsTrue (is_ready_in self.old q)) }
        ensures own { own_in self.new ≡ own_in self.old }
    {
        let alloc = self.alloc;
        share_slots(&mut self.slots, alloc)
    }

    /// Returns a copy of the cells. Shared pages get one more owner; owned pages are copied. `Err` means out of memory.
    pub fn snapshot(&self) -> Result<Cells, AllocError>
        ensures own { IfOk result (λ c. own_in c ≡ own_in self.now) }
        ensures ready { IfOk result (λ c. (q : ℕ) → is_ready_in c q ≡ is_ready_in self.now q) }
    {
        let slots = copied_slots(&self.slots, self.alloc)?;
        Ok(Cells {
            slots,
            alloc: self.alloc,
        })
    }
}

// Makes one slot shared if its page is owned.
#[tactic(auto, using(crate::proofs::Laws::own_same, crate::proofs::Laws::shared_kept))]
fn make_shared(slots: &mut [Slot], at: usize, alloc: Global) -> Result<(), AllocError>
    requires { at < length slots.old }
    ensures len { length slots.new ≡ length slots.old }
    ensures shared { OnOk result (IsNotOwned slots.new at) }
    ensures refused { OnErr result (IsTrue (is_owned_at slots.old at)) }
    ensures others { (i : ℕ) → IsNotOwned slots.old i → OnOk result (IsNotOwned slots.new i) }
    ensures own { own_at slots.new ≡ own_at slots.old }
{
    let slot = &mut slots[at];
    slot.share(alloc)
}

// Does the same as `Page::copy_over` for a page without written cells.
#[inline(always)]
fn copy_marked(beneath: &[u8], marks: &[bool], cells: &mut [u8]) -> bool
    requires beneath { length beneath.now ≡ length cells.old }
    requires marks { length marks.now ≡ length cells.old }
    ensures length { length cells.new ≡ length cells.old }
    ensures laid { result ≡ true → (i : ℕ) → i < length cells.old
        → IsLaid None (slice_index beneath.now i) (get_or marks.now i false) (slice_index cells.new i) }
{
    cells.copy_from_slice(beneath);
    all_set(marks)
}

// Makes all slots with an owned page shared.
fn share_slots(slots: &mut [Slot], alloc: Global) -> Result<(), AllocError>
    ensures shared { OnOk result ((q : ℕ) → ready_at slots.new q ≡ false) }
    ensures refused { OnErr result ((q : ℕ) × IsTrue (ready_at slots.old q)) }
    ensures own { own_at slots.new ≡ own_at slots.old }
{
    for i in 0..slots.len() {
        make_shared(slots, i, alloc)?;
    }
    Ok(())
}

// Returns `count` empty slots.
#[tactic(auto, using(crate::proofs::Laws::more_empty, crate::proofs::Laws::own_blank))]
fn blank_slots(alloc: Global, count: u16) -> Result<Vec<Slot>, AllocError>
    ensures len { IfOk result (λ v. vec_len v ≡ count) }
    ensures own { IfOk result (λ v. own_at v.items ≡ (λ _. None)) }
{
    let mut slots = Vec::with_capacity(alloc, count as usize)?;
    for i in 0..count {
        slots.push(Slot::Empty)?;
    }
    Ok(slots)
}

// Returns copies of the slots.
fn copied_slots(slots: &[Slot], alloc: Global) -> Result<Vec<Slot>, AllocError>
    ensures len { IfOk result (λ v. vec_len v ≡ length slots.now) }
    ensures own { IfOk result (λ v. own_at v.items ≡ own_at slots.now) }
    ensures ready { IfOk result (λ v. (q : ℕ) → ready_at v.items q ≡ ready_at slots.now q) }
{
    let mut copies = Vec::with_capacity(alloc, slots.len())?;
    for slot in slots {
        copies.push(slot.snapshot(alloc)?)?;
    }
    Ok(copies)
}
