// The results of directory searches.

use crate::keys::ALL;
use cpmfiles::{Key, Table};
use std::alloc::AllocError;

/// An entry: the file's key, the extent, and its count.
pub type Found = (Key, u16, u8);

// Returns the bytes of an entry.
fn entry((key, extent, count): &Found) -> [u8; 32] {
    let mut bytes = [0; 32];
    for i in 1..12 {
        bytes[i] = key[i];
    }
    bytes[12] = (extent % 32) as u8;
    bytes[14] = (extent / 32 % 16) as u8;
    bytes[15] = *count;
    bytes
}

/// Returns whether a pattern finds exactly these entries, in this order.
pub fn finds(
    table: &mut Table<'_>,
    pattern: &Key,
    ex: u8,
    wanted: &[Found],
) -> Result<bool, AllocError> {
    let mut last = None;
    for found in wanted {
        let next = Some(entry(found));
        if table.next_entry(pattern, ex, last)? != next {
            return Ok(false);
        }
        last = next;
    }
    Ok(table.next_entry(pattern, ex, last)?.is_none())
}

/// Returns whether a pattern finds one entry, of these bytes.
pub fn finds_bytes(
    table: &mut Table<'_>,
    pattern: &Key,
    ex: u8,
    wanted: &[u8; 32],
) -> Result<bool, AllocError> {
    let found = table.next_entry(pattern, ex, None)?;
    Ok(found == Some(*wanted) && table.next_entry(pattern, ex, found)?.is_none())
}

/// Returns whether a file has exactly this many full extents, in order, and no other entry.
pub fn finds_full(table: &mut Table<'_>, key: &Key, count: u16) -> Result<bool, AllocError> {
    let mut last = None;
    for extent in 0..count {
        let next = Some(entry(&(*key, extent, 128)));
        if table.next_entry(key, b'?', last)? != next {
            return Ok(false);
        }
        last = next;
    }
    Ok(table.next_entry(key, b'?', last)?.is_none())
}

/// Returns whether the search for all entries of drive A continues from an entry as expected.
pub fn finds_next(
    table: &mut Table<'_>,
    last: &Found,
    wanted: Option<&Found>,
) -> Result<bool, AllocError> {
    let next = table.next_entry(&ALL, b'?', Some(entry(last)))?;
    Ok(next == wanted.map(entry))
}
