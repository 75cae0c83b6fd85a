// Keys as the maps store them: two keys compare as the numbers that their bytes represent.

ghost use Rattle.std.specs.Prelude.{◌≡◌, ◌<◌, ℕ, refl, nat_eq, slice_index};
ghost use Rattle.std.specs.Ordering.{nat_cmp, as_partial_cmp};
ghost use Rattle.std.specs.Slice.Scan.{big_endian};
ghost use Rattle.std.specs.Cmp.{partial_equiv_from_equiv};
ghost use Rattle.std.specs.Cmp.Lexicographic.{pointwise, slice_cmp, nat_list_eq_equiv, nat_list_cmp_total, texts_po, texts_ties};

use filenames::Key;
use std::cmp::Ordering;
use std::marker::Model;

/// A key in the order of its bytes. Two keys compare as numbers, at once and not byte by byte.
#[derive(Clone, Copy)]
pub(crate) struct OrderedKey {
    bytes: Key,
}

impl Model for OrderedKey {
    ghost use Rattle.std.specs.Prelude.{List, ℕ};

    ghost Value = { List ℕ };

    ghost view = { λ a. a.bytes };

    ghost inverse = { λ bytes. record { bytes = bytes } };
}

impl OrderedKey {
    /// Creates an ordered key.
    pub(crate) fn new(key: Key) -> Self
        ensures { result ≡ key }
    {
        Self { bytes: key }
    }

    /// Returns the key itself.
    pub(crate) fn key(&self) -> &Key
        ensures { result.now ≡ self.now }
    {
        &self.bytes
    }
}

// Returns the number that the bytes represent, first byte highest.
fn as_number(key: &Key) -> u128
    ensures number { result ≡ big_endian 0 key.now }
    ensures bytes { (i : ℕ) → slice_index key.now i < 256 }
{
    let first = u64::from_be_bytes([
        key[0], key[1], key[2], key[3], key[4], key[5], key[6], key[7],
    ]);
    let last = u32::from_be_bytes([key[8], key[9], key[10], key[11]]);
    u128::from(first) * 4_294_967_296 + u128::from(last)
}

impl PartialEq for OrderedKey {
    ghost eq = { pointwise nat_eq };

    ghost laws = { partial_equiv_from_equiv nat_list_eq_equiv };

    fn eq(&self, other: &OrderedKey) -> bool {
        as_number(&self.bytes) == as_number(&other.bytes)
    }
}

impl Eq for OrderedKey {
    ghost laws = { nat_list_eq_equiv };
}

impl PartialOrd for OrderedKey {
    ghost partial_cmp = { as_partial_cmp (slice_cmp nat_cmp) };

    ghost laws = { texts_po };

    fn partial_cmp(&self, other: &OrderedKey) -> Option<Ordering> {
        Some(self.cmp(other))
    }
}

impl Ord for OrderedKey {
    ghost cmp = { slice_cmp nat_cmp };

    ghost total = { nat_list_cmp_total };

    ghost matches_partial_cmp = { λ x y. refl };

    ghost matches_eq = { texts_ties };

    fn cmp(&self, other: &OrderedKey) -> Ordering {
        as_number(&self.bytes).cmp(&as_number(&other.bytes))
    }
}
