// The calls of a table.

use crate::acts::Act::{
    self, Delete, Extent, Fill, Find, FindBytes, FindFull, FindNext, Has, Make, Read, Records,
    Rename, Write, WriteOther,
};
use crate::contents::{filled, filled_but};
use crate::finding::{finds, finds_bytes, finds_full, finds_next};
use cpmfiles::{Key, Record, Table};
use std::alloc::AllocError;

/// Returns whether the result of a question to a table is as expected.
pub fn ask(table: &mut Table<'_>, act: Act<'_>) -> Result<bool, AllocError> {
    Ok(match act {
        Has(key, there) => table.has(&key)? == there,
        Records(key, count) => table.records(&key)? == count,
        Extent(key, e, count) => table.extent(&key, e)? == count,
        Read(key, place, byte) => reads(table, &key, place, byte)?,
        _ => false,
    })
}

// Returns whether a record is read as expected. If it cannot be read, the bytes that were there before stay.
fn reads(
    table: &mut Table<'_>,
    key: &Key,
    place: u32,
    wanted: Option<u8>,
) -> Result<bool, AllocError> {
    let mut found = filled(0xee);
    let is_read = table.read(key, place, &mut found)?;
    Ok(is_read == wanted.is_some() && found == filled(wanted.unwrap_or(0xee)))
}

/// Returns whether the result of a change through a table is as expected.
pub fn change(table: &mut Table<'_>, act: Act<'_>) -> Result<bool, AllocError> {
    Ok(match act {
        Write(key, place, byte, done) => writes(table, &key, place, &filled(byte), done)?,
        WriteOther(key, place, at) => writes(table, &key, place, &filled_but(at), true)?,
        Fill(key, place, byte, done) => fills(table, &key, place, byte, done)?,
        Make(key, done) => table.make(&key)? == done,
        Delete(key, count) => table.delete(&key)? == count,
        Rename(old, new, done) => table.rename(&old, &new)? == done,
        _ => false,
    })
}

fn writes(
    table: &mut Table<'_>,
    key: &Key,
    place: u32,
    record: &Record,
    done: bool,
) -> Result<bool, AllocError> {
    Ok(place < 65_536 && table.write(key, place, record)? == done)
}

fn fills(
    table: &mut Table<'_>,
    key: &Key,
    place: u32,
    byte: u8,
    done: bool,
) -> Result<bool, AllocError> {
    Ok(place < 65_536 && table.write_filled(key, place, &filled(byte))? == done)
}

/// Returns whether a search of a table finds this.
pub fn search(table: &mut Table<'_>, act: Act<'_>) -> Result<bool, AllocError> {
    match act {
        Find(pattern, ex, entries) => finds(table, &pattern, ex, entries),
        FindBytes(pattern, ex, bytes) => finds_bytes(table, &pattern, ex, bytes),
        FindFull(key, count) => finds_full(table, &key, count),
        FindNext(last, next) => finds_next(table, &last, next.as_ref()),
        _ => Ok(false),
    }
}
