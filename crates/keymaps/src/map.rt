// Maps with keys of files.

ghost use Rattle.std.specs.Prelude.{◌≡◌, ◌<◌, ◌+◌, ◌||◌, ℕ, List, true, IfOk, OnOk, OnErr, IfSome, IfNone, IsSome, None, Some, option_map, option_copied};
ghost use Rattle.std.specs.FinMap as finmap;
ghost use Rattle.std.specs.Fn.{FnOnceReturnsAtMut};
ghost use Rattle.keymaps.specs.Order.{Skips, IsLeastAbove};
ghost use Rattle.keymaps.specs.Walks.{IsAbsent, IsInNeither, count_above, if_below};

use crate::ordered::OrderedKey;
use filenames::Key;
use std::alloc::{AllocError, Global};
use std::cmp::Ordering;
use std::collections::BTreeMap;
use std::marker::Model;
use std::mem::replace;
use std::ops::Bound;

/// A map from keys of files to values, in the order of the keys' bytes.
#[derive(Drop)]
pub struct KeyMap<V> {
    map: BTreeMap<OrderedKey, V>,
}

impl<V> Model for KeyMap<V> {
    ghost use Rattle.std.specs.Ordering.{nat_cmp};
    ghost use Rattle.std.specs.Cmp.Lexicographic.{slice_cmp};
    ghost use Rattle.std.specs.FinMap as finmap;
    ghost use Rattle.std.specs.Coded.{coded_ℕ, coded_list};

    ghost Value = { finmap.FinMap (slice_cmp nat_cmp) V };

    ghost coded = { finmap.code (coded_list coded_ℕ) V.code };

    ghost view = { λ a. finmap.from_entries a.map.entries };
}

impl<V: Clone> KeyMap<V> {
    /// Returns a copy with clones of the values, which equals the map if each clone equals its value. `Err` means out of
    /// memory.
    pub fn snapshot(&self) -> Result<KeyMap<V>, AllocError>
        ensures { ((x y : V) → V.is_clone x y → y ≡ x) → IfOk result (λ m. m ≡ self.now) }
    {
        Ok(KeyMap {
            map: self.map.clone()?,
        })
    }
}

impl<V: Drop> KeyMap<V> {
    /// Creates an empty map. Allocates nothing.
    pub fn new(alloc: Global) -> Self
        ensures { result ≡ finmap.empty }
    {
        Self {
            map: BTreeMap::new(alloc),
        }
    }

    /// Returns the number of keys.
    pub fn len(&self) -> usize
        ensures len { result ≡ finmap.len self.now }
        ensures small { result < 9223372036854775808 }
    {
        self.map.len()
    }

    /// Returns the value of a key, or `None` if the key is absent.
    pub fn get(&self, key: &Key) -> Option<&V>
        ensures { option_copied result ≡ finmap.get self.now key.now }
    {
        self.map.get(&OrderedKey::new(*key))
    }

    /// Returns whether a key is present.
    pub fn contains_key(&self, key: &Key) -> bool
        ensures { result ≡ finmap.contains_key self.now key.now }
    {
        self.map.contains_key(&OrderedKey::new(*key))
    }

    /// Inserts a key with a value, which replaces its old value if there is one. Only a key that is absent allocates. On `Err`,
    /// which means out of memory, the map is unchanged.
    pub fn insert(&mut self, key: Key, value: V) -> Result<(), AllocError>
        ensures ok { OnOk result (self.new ≡ finmap.insert self.old key value) }
        ensures err { OnErr result (self.new ≡ self.old) }
        ensures absent { OnErr result (IsAbsent self.old key) }
    {
        self.map.insert(OrderedKey::new(key), value)?;
        Ok(())
    }

    /// Removes a key and returns its value, or `None` if the key is absent.
    pub fn remove(&mut self, key: &Key) -> Option<V>
        ensures value { result ≡ finmap.get self.old key.now }
        ensures removed { self.new ≡ finmap.remove self.old key.now }
    {
        self.map.remove(&OrderedKey::new(*key))
    }

    /// Replaces the value of a key that is present. Allocates nothing.
    pub fn put(&mut self, key: &Key, value: V)
        requires { finmap.contains_key self.old key.now ≡ true }
        ensures { self.new ≡ finmap.insert self.old key.now value }
    {
        self.replace(key, value);
    }

    /// Replaces the value of a key and returns the old one. If the key is absent, returns `None` and changes nothing.
    /// Allocates nothing.
    pub fn replace(&mut self, key: &Key, value: V) -> Option<V>
        ensures value { result ≡ finmap.get self.old key.now }
        ensures some { IsSome result → self.new ≡ finmap.insert self.old key.now value }
        ensures none { IfNone result (self.new ≡ self.old) }
    {
        let Some(place) = self.map.get_mut(&OrderedKey::new(*key)) else {
            return None;
        };
        Some(replace(place, value))
    }

    /// Calls `change` with the value of a key, to change it in place, and returns the result of the call. If the key is
    /// absent, returns `None` and changes nothing. Only `change` may allocate.
    pub fn change<R, F: FnOnce(&mut V) -> R>(&mut self, key: &Key, change: F) -> Option<R>
        requires { F.IsAlwaysCallable change }
        ensures some { IfSome result (λ r. (v : V) × (w : V) × (finmap.get self.old key.now ≡ Some v)
            × FnOnceReturnsAtMut F.FnOnce change v r w × (self.new ≡ finmap.insert self.old key.now w)) }
        ensures none { IfNone result (finmap.get self.old key.now ≡ None) }
        ensures same { IfNone result (self.new ≡ self.old) }
    {
        let Some(place) = self.map.get_mut(&OrderedKey::new(*key)) else {
            return None;
        };
        Some(change(place))
    }

    /// Removes all keys. Allocates nothing.
    pub fn clear(&mut self)
        ensures { self.new ≡ finmap.empty }
    {
        if self.map.len() != 0 {
            self.map.clear();
        }
    }

    /// Removes and returns one of the keys, or `None` if the map is empty. Allocates nothing.
    pub fn pop(&mut self) -> Option<Key>
        ensures there { IfSome result (λ key. finmap.contains_key self.old key ≡ true) }
        ensures some { IfSome result (λ key. self.new ≡ finmap.remove self.old key) }
        ensures none { IfNone result ((self.new ≡ self.old) × ((x : List ℕ) → IsAbsent self.old x)) }
    {
        let Some(first) = self.map.pop_first() else {
            return None;
        };
        Some(*first.0.key())
    }

    // Returns the least key and its value.
    fn first(&self) -> Option<(&Key, &V)>
        ensures there { IfSome result (λ e. finmap.get self.now e.0.now ≡ Some e.1.now) }
        ensures least { Skips None (IsAbsent self.now) (option_map (λ e. e.0.now) result) }
    {
        let mut all = self.map.range(..);
        match all.next() {
            Some((least, value)) => Some((least.key(), value)),
            None => None,
        }
    }

    // Returns the least key above `low` and its value.
    fn above(&self, low: Key) -> Option<(&Key, &V)>
        ensures there { IfSome result (λ e. finmap.get self.now e.0.now ≡ Some e.1.now) }
        ensures least { Skips (Some low) (IsAbsent self.now) (option_map (λ e. e.0.now) result) }
    {
        let past = Bound::Excluded(OrderedKey::new(low));
        let mut rest = self.map.range((past, Bound::Unbounded));
        match rest.next() {
            Some((least, value)) => Some((least.key(), value)),
            None => None,
        }
    }

    /// Returns the least key above `after` and its value, or `None` if there is no such key. Every key is above `None`.
    pub fn next_key_value(&self, after: Option<Key>) -> Option<(&Key, &V)>
        ensures there { IfSome result (λ e. finmap.get self.now e.0.now ≡ Some e.1.now) }
        ensures least { Skips after (IsAbsent self.now) (option_map (λ e. e.0.now) result) }
        ensures fewer { IfSome result
            (λ e. count_above self.now (Some e.0.now) < count_above self.now after) }
    {
        match after {
            None => self.first(),
            Some(low) => self.above(low),
        }
    }

    /// Returns the least key above `after`, or `None` if there is no such key. Every key is above `None`.
    pub fn next_key(&self, after: Option<Key>) -> Option<Key>
        ensures least { IsLeastAbove after (finmap.contains_key self.now) result }
        ensures fewer { IfSome result (λ k. count_above self.now (Some k) < count_above self.now after) }
    {
        Some(*self.next_key_value(after)?.0)
    }
}

impl KeyMap<u64> {
    /// Removes each key whose value is `limit` or more. Allocates nothing.
    pub fn retain_below(&mut self, limit: u64)
        ensures { (q : List ℕ) → finmap.get self.new q ≡ if_below limit (finmap.get self.old q) }
    {
        self.map.retain(|_, number| *number < limit);
    }
}

/// A key of at least one of two maps, with its value in each.
#[derive(Clone, Copy)]
pub struct KeyOfBoth<'a, V, W> {
    /// The key.
    pub key: Key,
    /// The value in the first map, if the key is present there.
    pub first: Option<&'a V>,
    /// The value in the second map, if the key is present there.
    pub second: Option<&'a W>,
}

// Joins a key and its values.
fn key_with<'a, V, W>(key: &Key, first: Option<&'a V>, second: Option<&'a W>) -> KeyOfBoth<'a, V, W>
    ensures key { result.key ≡ key.now }
    ensures first { result.first ≡ first.entry }
    ensures second { result.second ≡ second.entry }
{
    KeyOfBoth {
        key: *key,
        first,
        second,
    }
}

/// Returns the least key above `after` of both maps together, with its value in each map, or `None` if there is no such key.
/// Every key is above `None`.
pub fn next_of_both<'a, V: Drop, W: Drop>(
    first: &'a KeyMap<V>,
    second: &'a KeyMap<W>,
    after: Option<Key>,
) -> Option<KeyOfBoth<'a, V, W>>
    ensures first { IfSome result (λ e. option_copied e.first ≡ finmap.get first.entry.now e.key) }
    ensures second { IfSome result (λ e. option_copied e.second ≡ finmap.get second.entry.now e.key) }
    ensures present { IfSome result (λ e.
        (finmap.contains_key first.entry.now e.key || finmap.contains_key second.entry.now e.key) ≡ true) }
    ensures least { Skips after (IsInNeither first.entry.now second.entry.now)
        (option_map (λ e. e.key) result) }
    ensures fewer { IfSome result (λ e.
        count_above first.entry.now (Some e.key) + count_above second.entry.now (Some e.key)
        < count_above first.entry.now after + count_above second.entry.now after) }
{
    let Some((x, v)) = first.next_key_value(after) else {
        let (y, w) = second.next_key_value(after)?;
        return Some(key_with(y, None, Some(w)));
    };
    let Some((y, w)) = second.next_key_value(after) else {
        return Some(key_with(x, Some(v), None));
    };
    match x.cmp(y) {
        Ordering::Less => Some(key_with(x, Some(v), None)),
        Ordering::Equal => Some(key_with(x, Some(v), Some(w))),
        Ordering::Greater => Some(key_with(y, None, Some(w))),
    }
}
