// `cpmfiles`: names, control blocks, host files, what a run does to them, and both joined.

use cpmfiles::{Ask, Changes, Fcb, FilesError, HostFiles, Journal, Key, Name, NameError, Table};
use std::alloc::{AllocError, Global};

/// Calls each function of a name and of a control block once.
pub fn names(text: &str, bytes: &[u8; 36]) -> Result<Option<Name>, NameError> {
    let name: Name = Name::parse(text)?;
    let key: Key = name.key();
    let mut block: Fcb = Fcb::from_bytes(bytes);
    block.set_place(65_536);
    let _place: (u32, u32) = (block.place(), block.random());
    let _bytes: [u8; 36] = block.to_bytes();
    let _keys: ([u8; 11], [u8; 11]) = (block.key(), block.new_key());
    let _others: (u8, u8, u8) = (block.dr(), block.ex(), block.r2());
    Ok(Name::from_key(&key))
}

/// Calls each function of host files once.
pub fn host_files(alloc: Global, name: Name, bytes: &[u8]) -> Result<bool, FilesError> {
    let mut files: HostFiles = HostFiles::new(alloc);
    files.set(name, bytes)?;
    let _count: Option<u32> = files.records(&name);
    let _record: Option<[u8; 128]> = files.record(&name, 0);
    let _next: Option<Name> = files.next(Some(&name));
    let changes: Changes = Changes::new(alloc);
    let _count_with: Option<u32> = files.records_with(&changes, &name);
    let _record_with: Option<[u8; 128]> = files.record_with(&changes, &name, 0);
    let _next_with: Option<Name> = files.next_with(&changes, None);
    Ok(files.remove(&name))
}

/// Calls each function of a table once.
pub fn table(table: &mut Table<'_>, key: &Key, bytes: &mut [u8; 128]) -> Result<(), AllocError> {
    let _has: bool = table.has(key)?;
    let _count: Option<u32> = table.records(key)?;
    let _extent: Option<u8> = table.extent(key, 0)?;
    let _read: bool = table.read(key, 0, bytes)?;
    let _written: bool = table.write(key, 65_535, bytes)?;
    let _filled: bool = table.write_filled(key, 65_535, bytes)?;
    let _made: bool = table.make(key)?;
    let _deleted: u64 = table.delete(key)?;
    let _renamed: bool = table.rename(key, key)?;
    let _entry: Option<[u8; 32]> = table.next_entry(key, 0, None)?;
    Ok(())
}

/// Calls each function of changes once.
pub fn changes(alloc: Global, key: Key) -> Result<Journal, AllocError> {
    let host = HostFiles::new(alloc);
    let mut changes: Changes = Changes::new(alloc);
    let mut joined: Table<'_> = Table::new(&host, &mut changes);
    let _has: bool = joined.has(&key)?;
    let mut copy: Changes = changes.snapshot()?;
    for ask in [
        Ask::Has(key),
        Ask::Length(key),
        Ask::Rec(key, 0),
        Ask::Directory(0),
    ] {
        let _is_looked: bool = copy.looked(&ask);
    }
    let _look: Option<Ask> = copy.take_look();
    copy.journal.snapshot()
}
