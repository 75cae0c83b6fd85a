// A set of drives.

ghost use Rattle.std.specs.Prelude.{◌≡◌, ℕ, false, true, get_or, IfSome, IfNone};
ghost use Rattle.std.specs.FinMap as finmap;
ghost use Rattle.keymaps.specs.Walks.{IsAbsent};

use std::marker::Model;

/// A set of drives, each given by a byte. Its functions allocate nothing.
#[derive(Drop)]
pub struct DriveSet {
    marks: [bool; 256],
    count: usize,
}

impl Model for DriveSet {
    ghost use Rattle.std.specs.Prelude.{◌≡◌};
    ghost use Rattle.std.specs.Ordering.{nat_cmp};
    ghost use Rattle.std.specs.FinMap as finmap;
    ghost use Rattle.std.specs.Coded.{coded_ℕ};
    ghost use base.Stored.{coded_unit};
    ghost use Rattle.keymaps.specs.Marks.{marked_numbers};

    ghost Value = { finmap.FinMap nat_cmp (Unit {0}) };

    ghost coded = { finmap.code coded_ℕ coded_unit };

    ghost view = { λ a. marked_numbers a.marks };

    ghost invariant = { λ a. a.count ≡ finmap.len (marked_numbers a.marks) };
}

impl DriveSet {
    /// Creates an empty set.
    pub fn new() -> Self
        ensures { result ≡ finmap.empty }
    {
        Self {
            marks: [false; 256],
            count: 0,
        }
    }

    /// Returns the number of drives.
    pub fn len(&self) -> usize
        ensures { result ≡ finmap.len self.now }
    {
        self.count
    }

    /// Returns whether a drive is in the set.
    pub fn contains(&self, drive: u8) -> bool
        ensures { result ≡ finmap.contains_key self.now drive }
    {
        self.marks[drive as usize]
    }

    /// Inserts a drive.
    pub fn insert(&mut self, drive: u8)
        ensures { self.new ≡ finmap.insert self.old drive tt }
    {
        if !self.marks[drive as usize] {
            self.marks[drive as usize] = true;
            self.count += 1;
        }
    }

    /// Returns a copy of the set.
    pub fn snapshot(&self) -> DriveSet
        ensures { result ≡ self.now }
    {
        DriveSet {
            marks: self.marks,
            count: self.count,
        }
    }

    /// Removes all drives.
    pub fn clear(&mut self)
        ensures { self.new ≡ finmap.empty }
    {
        if self.count != 0 {
            self.marks = [false; 256];
            self.count = 0;
        }
    }

    /// Removes and returns one of the drives, or `None` if the set is empty.
    pub fn pop(&mut self) -> Option<u8>
        ensures there { IfSome result (λ drive. finmap.contains_key self.old drive ≡ true) }
        ensures some { IfSome result (λ drive. self.new ≡ finmap.remove self.old drive) }
        ensures none { IfNone result ((self.new ≡ self.old)
            × ((drive : ℕ) → IsAbsent self.old drive)) }
    {
        if self.count == 0 {
            return None;
        }
        let Some(drive) = first_mark(&self.marks) else {
            return None;
        };
        self.marks[drive as usize] = false;
        self.count -= 1;
        Some(drive)
    }
}

// Returns the index of the first mark that is set.
fn first_mark(marks: &[bool; 256]) -> Option<u8>
    ensures there { IfSome result (λ drive. get_or marks.now drive false ≡ true) }
    ensures none { IfNone result ((drive : ℕ) → get_or marks.now drive false ≡ false) }
{
    for drive in 0..256 {
        if marks[drive] {
            return Some(drive as u8);
        }
    }
    None
}
