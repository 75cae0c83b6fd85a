// A set of keys.

ghost use Rattle.std.specs.Prelude.{◌≡◌, OnOk, OnErr, IfOk, IfSome, IfNone, ℕ, List, true};
ghost use Rattle.std.specs.FinMap as finmap;
ghost use Rattle.keymaps.specs.Walks.{IsAbsent};

use crate::map::KeyMap;
use filenames::Key;
use std::alloc::{AllocError, Global};
use std::marker::Model;

/// A set of keys of files. The first key needs no allocation.
#[derive(Drop)]
pub struct KeySet {
    // If this is `None`, `rest` is empty; otherwise this key is not in `rest`.
    first: Option<Key>,
    rest: KeyMap<()>,
}

impl Model for KeySet {
    ghost use Rattle.std.specs.Ordering.{nat_cmp};
    ghost use Rattle.std.specs.Cmp.Lexicographic.{slice_cmp};
    ghost use Rattle.std.specs.FinMap as finmap;
    ghost use Rattle.std.specs.Coded.{coded_ℕ, coded_list};
    ghost use base.Stored.{coded_unit};
    ghost use Rattle.keymaps.specs.Firsts.{with_first, IsFirstApart};

    ghost Value = { finmap.FinMap (slice_cmp nat_cmp) (Unit {0}) };

    ghost coded = { finmap.code (coded_list coded_ℕ) coded_unit };

    ghost view = { λ a. with_first a.first a.rest };

    ghost invariant = { λ a. IsFirstApart a.first a.rest };
}

impl KeySet {
    /// Creates an empty set. Allocates nothing.
    pub fn new(alloc: Global) -> Self
        ensures { result ≡ finmap.empty }
    {
        Self {
            first: None,
            rest: KeyMap::new(alloc),
        }
    }

    /// Returns the number of keys.
    pub fn len(&self) -> usize
        ensures { result ≡ finmap.len self.now }
    {
        match self.first {
            None => 0,
            Some(_) => self.rest.len() + 1,
        }
    }

    /// Returns whether a key is in the set.
    pub fn contains_key(&self, key: &Key) -> bool
        ensures { result ≡ finmap.contains_key self.now key.now }
    {
        match self.first {
            None => false,
            Some(first) => first == *key || self.rest.contains_key(key),
        }
    }

    /// Inserts a key. Allocates nothing if the set is empty or has the key. On `Err`, which means out of memory, the set is
    /// unchanged.
    pub fn insert(&mut self, key: Key) -> Result<(), AllocError>
        ensures ok { OnOk result (self.new ≡ finmap.insert self.old key tt) }
        ensures err { OnErr result (self.new ≡ self.old) }
        ensures absent { OnErr result (IsAbsent self.old key) }
    {
        let Some(first) = self.first else {
            self.first = Some(key);
            return Ok(());
        };
        if first == key {
            return Ok(());
        }
        self.rest.insert(key, ())
    }

    /// Returns a copy of the set. `Err` means out of memory.
    pub fn snapshot(&self) -> Result<KeySet, AllocError>
        ensures { IfOk result (λ m. m ≡ self.now) }
    {
        Ok(KeySet {
            first: self.first,
            rest: self.rest.snapshot()?,
        })
    }

    /// Removes all keys. Allocates nothing.
    pub fn clear(&mut self)
        ensures { self.new ≡ finmap.empty }
    {
        self.first = None;
        self.rest.clear();
    }

    /// Removes and returns one of the keys, or `None` if the set is empty. Allocates nothing.
    pub fn pop(&mut self) -> Option<Key>
        ensures there { IfSome result (λ key. finmap.contains_key self.old key ≡ true) }
        ensures some { IfSome result (λ key. self.new ≡ finmap.remove self.old key) }
        ensures none { IfNone result ((self.new ≡ self.old) × ((x : List ℕ) → IsAbsent self.old x)) }
    {
        if let Some(key) = self.rest.pop() {
            return Some(key);
        }
        self.first.take()
    }
}
