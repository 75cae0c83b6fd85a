// Sets of pairs of a key and a record number.

ghost use Rattle.std.specs.Prelude.{◌≡◌, OnOk, OnErr, IfOk, IfSome, IfNone, ℕ, List, true};
ghost use Rattle.std.specs.FinMap as finmap;
ghost use Rattle.keymaps.specs.Walks.{IsAbsent};

use filenames::Key;
use std::alloc::{AllocError, Global};
use std::collections::BTreeMap;
use std::marker::Model;

/// A set of records of files, each given by the key of its file and its record number. The first one needs no allocation.
#[derive(Drop)]
pub struct RecordSet {
    // If this is `None`, `rest` is empty; otherwise this record is not in `rest`.
    first: Option<(Key, u32)>,
    rest: BTreeMap<(Key, u32), ()>,
}

impl Model for RecordSet {
    ghost use Rattle.std.specs.Prelude.{List, ℕ};
    ghost use Rattle.std.specs.FinMap as finmap;
    ghost use Rattle.std.specs.Coded.{coded_ℕ, coded_list, coded×};
    ghost use base.Stored.{coded_unit};
    ghost use Rattle.keymaps.specs.Order.{record_cmp};
    ghost use Rattle.keymaps.specs.Firsts.{with_first, IsFirstApart};

    ghost Value = { finmap.FinMap record_cmp (Unit {0}) };

    ghost coded = { finmap.code (coded× (coded_list coded_ℕ) coded_ℕ) coded_unit };

    ghost view = { λ a. with_first a.first (finmap.from_entries a.rest.entries) };

    ghost invariant = { λ a. IsFirstApart a.first (finmap.from_entries {R = record_cmp} a.rest.entries) };
}

impl RecordSet {
    /// Creates an empty set. Allocates nothing.
    pub fn new(alloc: Global) -> Self
        ensures { result ≡ finmap.empty }
    {
        Self {
            first: None,
            rest: BTreeMap::new(alloc),
        }
    }

    /// Returns the number of records.
    pub fn len(&self) -> usize
        ensures { result ≡ finmap.len self.now }
    {
        match self.first {
            None => 0,
            Some(_) => self.rest.len() + 1,
        }
    }

    /// Returns whether a record is in the set.
    pub fn contains(&self, key: &Key, place: u32) -> bool
        ensures { result ≡ finmap.contains_key self.now (key.now, place) }
    {
        match self.first {
            None => false,
            Some(first) => first == (*key, place) || self.rest.contains_key(&(*key, place)),
        }
    }

    /// Inserts a record. Allocates nothing if the set is empty or has the record. On `Err`, which means out of memory, the
    /// set is unchanged.
    pub fn insert(&mut self, key: Key, place: u32) -> Result<(), AllocError>
        ensures ok { OnOk result (self.new ≡ finmap.insert self.old (key, place) tt) }
        ensures err { OnErr result (self.new ≡ self.old) }
        ensures absent { OnErr result (IsAbsent self.old (key, place)) }
    {
        let Some(first) = self.first else {
            self.first = Some((key, place));
            return Ok(());
        };
        if first == (key, place) {
            return Ok(());
        }
        self.rest.insert((key, place), ())?;
        Ok(())
    }

    /// Returns a copy of the set. `Err` means out of memory.
    pub fn snapshot(&self) -> Result<RecordSet, AllocError>
        ensures { IfOk result (λ m. m ≡ self.now) }
    {
        Ok(RecordSet {
            first: self.first,
            rest: self.rest.clone()?,
        })
    }

    /// Removes all records. Allocates nothing.
    pub fn clear(&mut self)
        ensures { self.new ≡ finmap.empty }
    {
        self.first = None;
        if self.rest.len() != 0 {
            self.rest.clear();
        }
    }

    /// Removes and returns one of the records, or `None` if the set is empty. Allocates nothing.
    pub fn pop(&mut self) -> Option<(Key, u32)>
        ensures there { IfSome result (λ p. finmap.contains_key self.old p ≡ true) }
        ensures some { IfSome result (λ p. self.new ≡ finmap.remove self.old p) }
        ensures none { IfNone result ((self.new ≡ self.old)
            × ((p : List ℕ × ℕ) → IsAbsent self.old p)) }
    {
        if let Some((record, _)) = self.rest.pop_first() {
            return Some(record);
        }
        self.first.take()
    }
}
