ghost use Rattle.std.specs.Prelude.{◌≡◌, ◌<◌, ◌≤◌, ◌+◌, ◌∷◌, ◌++◌, [], ℕ, IfOk, IfNone, IfSome, length, slice_index, false, get_or, count_by, vec_len, if◌then◌else◌};
ghost use Rattle.i8080.specs.Memory.{is_among};

use std::alloc::{AllocError, Global};
use std::marker::Model;

/// The cells that were looked at, each once, in the order of their first looks. Only `new` and `snapshot` allocate, and the
/// other calls take constant time.
#[derive(Drop)]
pub struct Looks {
    // Whether each cell is in `order`.
    marks: Vec<bool>,
    order: Vec<u16>,
    count: usize,
}

impl Model for Looks {
    ghost use Rattle.std.specs.Prelude.{List, ℕ, take};
    ghost use Rattle.pagemem.specs.CellMarks.{ListsMarks};

    ghost Value = { List ℕ };

    ghost view = { λ l. take l.count l.order.items };

    ghost invariant = { λ l. ListsMarks l.marks.items l.order.items l.count };
}

impl Looks {
    /// Creates a set with no looks. `Err` means out of memory.
    pub fn new(alloc: Global) -> Result<Looks, AllocError>
        ensures { IfOk result (λ l. l ≡ []) }
    {
        let marks = blank_marks(alloc, CELLS)?;
        let order = blank_order(alloc, CELLS)?;
        Ok(Looks {
            marks,
            order,
            count: 0,
        })
    }

    /// Returns whether a cell was looked at.
    #[inline(always)]
    pub fn contains(&self, a: u16) -> bool
        ensures { result ≡ is_among a self.now }
    {
        let at = a as usize;
        self.marks[at]
    }

    /// Appends a look at a cell, unless the cell was looked at before.
    #[inline(always)]
    pub fn add(&mut self, a: u16)
        ensures { self.new ≡ (if is_among a self.old then self.old else self.old ++ a ∷ []) }
    {
        if !self.marks[a as usize] {
            self.marks[a as usize] = true;
            self.order[self.count] = a;
            self.count += 1;
        }
    }

    /// Returns for each of `count` cells, starting at `at`, whether it was looked at.
    #[inline(always)]
    pub fn marks(&self, at: u16, count: usize) -> &[bool]
        requires { at + count ≤ 65536 }
        ensures length { length result.now ≡ count }
        ensures marks { (i : ℕ) → i < count → get_or result.now i false ≡ is_among (at + i) self.now }
    {
        let from = usize::from(at);
        &self.marks[from..from + count]
    }

    /// Returns the number of cells that were looked at.
    #[inline(always)]
    pub fn len(&self) -> usize
        ensures { result ≡ length self.now }
    {
        self.count
    }

    /// Returns the cell of the look with this index, in the order of the looks.
    pub fn nth(&self, index: usize) -> u16
        requires { index < length self.now }
        ensures { result ≡ slice_index self.now index }
    {
        self.order[index]
    }

    /// Removes the last look and returns its cell, or `None` if there are no looks.
    pub fn take(&mut self) -> Option<u16>
        ensures none { IfNone result ((self.old ≡ []) × (self.new ≡ [])) }
        ensures some { IfSome result (λ a. self.old ≡ self.new ++ a ∷ []) }
    {
        if self.count == 0 {
            return None;
        }
        self.count -= 1;
        let a = self.order[self.count];
        self.marks[a as usize] = false;
        Some(a)
    }

    /// Returns a copy. `Err` means out of memory.
    pub fn snapshot(&self) -> Result<Looks, AllocError>
        ensures { IfOk result (λ l. l ≡ self.now) }
    {
        let marks = self.marks.clone()?;
        let order = self.order.clone()?;
        Ok(Looks {
            marks,
            order,
            count: self.count,
        })
    }
}

// The number of cells.
pub(crate) const CELLS: usize = 65_536;

// Returns `count` marks, none of which is set.
#[tactic(auto, using(crate::proofs::ListingLemmas::none_marked, crate::proofs::ListingLemmas::none_counted))]
pub(crate) fn blank_marks(alloc: Global, count: usize) -> Result<Vec<bool>, AllocError>
    ensures len { IfOk result (λ v. vec_len v ≡ count) }
    ensures none { IfOk result (λ v. (q : ℕ) → get_or v.items q false ≡ false) }
    ensures counted { IfOk result (λ v. count_by (λ b. b) v.items ≡ 0) }
{
    vec![in alloc; false; count]
}

// Allocates an order of `count` entries, with unspecified contents.
fn blank_order(alloc: Global, count: usize) -> Result<Vec<u16>, AllocError>
    ensures { IfOk result (λ v. vec_len v ≡ count) }
{
    vec![in alloc; 0; count]
}
