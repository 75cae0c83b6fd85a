// Host files that are set, and the results.

use crate::acts::Act::{self, HostCount, HostKeys, HostRecord, HostRecords, Remove, Set, SetMany};
use crate::contents::filled_up;
use crate::telling::{Names, are_keys};
use cpmfiles::{Changes, FilesError, HostFiles, Key, Name};
use std::alloc::{AllocError, Global};
use std::test::Fail;

/// Bytes, each with the number of its repetitions.
pub type Bytes<'a> = &'a [(u8, usize)];

fn bytes_of(alloc: Global, bytes: Bytes<'_>) -> Result<Vec<u8>, AllocError> {
    let mut list = Vec::new(alloc);
    for (byte, count) in bytes {
        let length = list.len().saturating_add(*count);
        list.resize(length, *byte)?;
    }
    Ok(list)
}

/// Sets a file of these bytes.
pub fn set(
    host: &mut HostFiles,
    alloc: Global,
    text: &str,
    bytes: Bytes<'_>,
) -> Result<Result<(), FilesError>, Fail> {
    let name = Name::parse(text)?;
    let list = bytes_of(alloc, bytes)?;
    Ok(host.set(name, list.as_slice()))
}

// Returns the number of a refusal, or 0 if the file was set.
fn number_of(answer: Result<(), FilesError>) -> u8 {
    match answer {
        Ok(()) => 0,
        Err(refused) => refused.number(),
    }
}

// Returns one of a thousand names, spread over all four drives.
fn numbered(n: usize) -> Key {
    let mut key = *b"\0F          ";
    key[0] = (n % 4) as u8;
    key[2] = b'0' + (n / 100 % 10) as u8;
    key[3] = b'0' + (n / 10 % 10) as u8;
    key[4] = b'0' + (n % 10) as u8;
    key
}

// Sets `count` files of one record, and returns whether each has a name.
fn set_many(host: &mut HostFiles, count: usize) -> Result<bool, FilesError> {
    for n in 0..count {
        let Some(name) = Name::from_key(&numbered(n)) else {
            return Ok(false);
        };
        host.set(name, b"x")?;
    }
    Ok(true)
}

/// Returns whether the result of setting, removing or reading host files is as expected.
pub fn serve(
    host: &mut HostFiles,
    alloc: Global,
    changes: &Changes,
    act: Act<'_>,
) -> Result<bool, Fail> {
    Ok(match act {
        Set(text, bytes, number) => number_of(set(host, alloc, text, bytes)?) == number,
        SetMany(count) => set_many(host, count)?,
        Remove(text, there) => host.remove(&Name::parse(text)?) == there,
        HostCount(count) => host.len() == count,
        HostRecords(text, count) => host.records(&Name::parse(text)?) == count,
        HostRecord(text, place, count) => {
            host.record(&Name::parse(text)?, place) == count.map(filled_up)
        }
        HostKeys(keys) => are_keys(host, changes, Names::Host, keys),
        _ => false,
    })
}
