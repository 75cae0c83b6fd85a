ghost use Rattle.std.specs.Prelude.{◌≡◌, ◌+◌, ◌<◌, ◌≤◌, ℕ, true, false, None, Some, IfOk, IsTrue, OnOk, OnErr, cond, length, get_or, slice_index};
ghost use Rattle.pagemem.specs.Pages.{page_own, slot_own, is_owned, IsLaid};
ghost use Rattle.i8080.specs.End.{cells_from};
ghost use Rattle.i8080.specs.Memory.{write, write_all};

use std::alloc::{AllocError, Global};
use std::rc::Rc;

/// The bytes of 256 cells, and which of them were written.
#[derive(Clone, Copy)]
pub struct Page {
    pub bytes: [u8; 256],
    pub written: [bool; 256],
}

/// A page that does not exist yet, is owned, or is shared with a snapshot.
#[derive(Drop)]
pub enum Slot {
    Empty,
    Owned(Box<Page>),
    Shared(Rc<Page>),
}

impl Page {
    /// Returns a page with no written cell.
    pub fn blank() -> Page
        ensures { page_own result ≡ (λ _. None) }
    {
        Page {
            bytes: [0; 256],
            written: [false; 256],
        }
    }

    /// Returns the byte of a cell of the page, or `None` if the cell was not written.
    #[tactic(auto, unfolding(crate::specs::Pages::page_own))]
    #[inline(always)]
    pub fn get(&self, at: u8) -> Option<u8>
        ensures { result ≡ page_own self.now at }
    {
        let at = at as usize;
        if self.written[at] {
            Some(self.bytes[at])
        } else {
            None
        }
    }

    /// Writes a cell of the page.
    #[inline(always)]
    pub fn set(&mut self, at: u8, value: u8)
        ensures { page_own self.new ≡ write (page_own self.old) at value }
    {
        let at = at as usize;
        self.bytes[at] = value;
        self.written[at] = true;
    }

    /// Writes cells of the page, starting at `from`.
    #[inline(always)]
    pub fn set_cells(&mut self, from: u8, values: &[u8])
        requires { from + length values.now ≤ 256 }
        ensures { page_own self.new ≡ write_all (page_own self.old) (cells_from from values.now) }
    {
        let start = usize::from(from);
        let end = start + values.len();
        let (bytes, written) = (&mut self.bytes, &mut self.written);
        bytes[start..end].copy_from_slice(values);
        written[start..end].fill(true);
    }

    /// Copies the bytes of cells of the page, starting at `from`: the written byte of a cell, or its byte of `beneath` if it
    /// was not written. Returns `true` if each cell was written or is marked; on `false`, the bytes in `cells` are
    /// unspecified.
    #[inline(always)]
    pub fn copy_over(&self, from: usize, beneath: &[u8], marks: &[bool], cells: &mut [u8]) -> bool
        requires page { from + length cells.old ≤ 256 }
        requires beneath { length beneath.now ≡ length cells.old }
        requires marks { length marks.now ≡ length cells.old }
        ensures length { length cells.new ≡ length cells.old }
        ensures laid { result ≡ true → (i : ℕ) → i < length cells.old
            → IsLaid (page_own self.now (from + i)) (slice_index beneath.now i) (get_or marks.now i false)
            (slice_index cells.new i) }
    {
        let mut is_known = true;
        for i in 0..cells.len() {
            let is_written = self.written[from + i];
            cells[i] = either(is_written, self.bytes[from + i], beneath[i]);
            is_known &= is_written | marks[i];
        }
        is_known
    }
}

// Returns whether all marks are set.
#[inline(always)]
pub(crate) fn all_set(marks: &[bool]) -> bool
    ensures set { result ≡ true → (i : ℕ) → i < length marks.now → get_or marks.now i false ≡ true }
    ensures unset { ((i : ℕ) → i < length marks.now → get_or marks.now i false ≡ true) → result ≡ true }
{
    let mut is_set = true;
    for i in 0..marks.len() {
        // Without a branch, so that several marks are read at a time.
        is_set &= marks[i];
    }
    is_set
}

// Returns one of two bytes. Both are available, so that no jump is needed and several are selected at a time.
#[inline(always)]
fn either(is_first: bool, first: u8, second: u8) -> u8
    ensures { result ≡ cond is_first first second }
{
    if is_first { first } else { second }
}

impl Slot {
    /// Makes the page owned: a new page, or a copy of a shared one. Only a page that is not owned allocates. `Err` means out of
    /// memory; the slot is then unchanged.
    #[inline(always)]
    pub fn make_owned(&mut self, alloc: Global) -> Result<(), AllocError>
        ensures owned { OnOk result (IsTrue (is_owned self.new)) }
        ensures refused { OnErr result (is_owned self.old ≡ false) }
        ensures kept { IsTrue (is_owned self.old) → IsTrue (is_owned self.new) }
        ensures own { slot_own self.new ≡ slot_own self.old }
        ensures err { OnErr result (self.new ≡ self.old) }
    {
        if let Slot::Owned(_) = self {
            return Ok(());
        }
        self.own(alloc)
    }

    // Makes a page owned that is not owned yet. Out of line, because most writes find an owned page.
    #[cold]
    #[inline(never)]
    fn own(&mut self, alloc: Global) -> Result<(), AllocError>
        ensures owned { OnOk result (IsTrue (is_owned self.new)) }
        ensures refused { OnErr result (is_owned self.old ≡ false) }
        ensures kept { IsTrue (is_owned self.old) → IsTrue (is_owned self.new) }
        ensures own { slot_own self.new ≡ slot_own self.old }
        ensures err { OnErr result (self.new ≡ self.old) }
    {
        let page = match self {
            Slot::Owned(_) => return Ok(()),
            Slot::Empty => Page::blank(),
            Slot::Shared(page) => **page,
        };
        *self = Slot::Owned(Box::new(alloc, page)?);
        Ok(())
    }

    /// Makes an owned page shared, by a copy of it. `Err` means out of memory; the slot is then unchanged.
    pub fn share(&mut self, alloc: Global) -> Result<(), AllocError>
        ensures shared { OnOk result (is_owned self.new ≡ false) }
        ensures refused { OnErr result (IsTrue (is_owned self.old)) }
        ensures own { slot_own self.new ≡ slot_own self.old }
        ensures err { OnErr result (self.new ≡ self.old) }
    {
        let page = match self {
            Slot::Owned(page) => **page,
            Slot::Empty | Slot::Shared(_) => return Ok(()),
        };
        *self = Slot::Shared(Rc::new(alloc, page)?);
        Ok(())
    }

    /// Returns a slot with the same contents: a shared page gets one more owner, and an owned page is copied. `Err` means out
    /// of memory.
    pub fn snapshot(&self, alloc: Global) -> Result<Slot, AllocError>
        ensures own { IfOk result (λ s. slot_own s ≡ slot_own self.now) }
        ensures owned { IfOk result (λ s. is_owned s ≡ is_owned self.now) }
    {
        match self {
            Slot::Empty => Ok(Slot::Empty),
            Slot::Owned(page) => {
                let page = **page;
                Ok(Slot::Owned(Box::new(alloc, page)?))
            }
            Slot::Shared(page) => Ok(Slot::Shared(page.clone()?)),
        }
    }
}
