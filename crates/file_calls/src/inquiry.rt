// The questions of each file call, and what it finds. A call that needs its file finds the value 0FFH if there is none;
// function 35 finds that there is no length. `Err` means out of memory, which is possible only if the call asks the host
// files something that was not asked before, so never for a file that the run made.

ghost use Rattle.std.specs.Prelude.{◌≡◌, slice_index, length, true, IfOk, OnErr, Ok};
ghost use Rattle.std.specs.Option.{option_map};
ghost use Rattle.hostfiles.specs.Entries.{position_of, count_at};
ghost use Rattle.hostfiles.specs.FileLooks.{look_length, HasNewAsk};
ghost use Rattle.hostfiles.specs.FileView.{view_own};
ghost use Rattle.hostfiles.specs.Asking.{AsksFor};
ghost use Rattle.file_calls.specs.Findings as calls;
ghost use Rattle.file_calls.specs.Findings.{missing_value, search_finding};
ghost use Rattle.file_calls.specs.DistinctKeys.{HasDistinctKeys};
ghost use Rattle.file_calls.specs.TableView.{shape_of_view};
ghost use Rattle.file_calls.specs.Asks.{Asks, is_asking};

use crate::block::Block;
use crate::finding::{Finding, Write};
use cpmfiles::{Changes, EXTENT_RECORDS, FileLooks, HostFiles, Key, RECORD_LIMIT, asking};
use hostfiles::{FileView, Gap, Search};
use std::alloc::AllocError;

// Returns the length of a file in records, holes included.
#[tactic(auto, using(crate::proofs::Shapes::places))]
fn length(file: &FileView<'_>, looks: &mut FileLooks) -> Result<u32, AllocError>
    ensures asks { AsksFor result (length (shape_of_view file.now))
        (look_length (view_own file.now) file.now.key) looks.old looks.new }
    ensures refused { OnErr result
        (HasNewAsk looks.old (look_length (view_own file.now) file.now.key looks.old)) }
{
    file.ask_length(looks)
}

// Returns the record count of an extent.
#[tactic(auto, using(crate::proofs::Shapes::counted))]
fn count(file: &FileView<'_>, extent: u32) -> u8
    ensures { result ≡ count_at (shape_of_view file.now) extent }
{
    file.count(extent)
}

/// Finds the record count of the extent that the control block names (function 15).
#[tactic(auto, using(crate::proofs::Extending::asked_in_turn))]
pub fn open_file(
    host: &HostFiles,
    changes: &mut Changes,
    block: &Block,
) -> Result<Finding, AllocError>
    ensures asks { Asks (calls.open_file block.now) host.now changes.old result changes.new }
    ensures apart { IfOk result HasDistinctKeys }
{
    let key = block.key();
    let file = FileView::find(host, &changes.journal, &key);
    if !file.ask_presence(&mut changes.looks)? {
        return Ok(Finding::Value(0xff));
    }
    length(&file, &mut changes.looks)?;
    Ok(Finding::Opened(count(&file, block.fcb.ex() as u32)))
}

/// Finds whether the file is there: the value 0 if it is (function 16).
#[tactic(auto, using(crate::proofs::Extending::asked_in_turn))]
pub fn close_file(
    host: &HostFiles,
    changes: &mut Changes,
    block: &Block,
) -> Result<Finding, AllocError>
    ensures asks { Asks (calls.close_file block.now) host.now changes.old result changes.new }
    ensures apart { IfOk result HasDistinctKeys }
{
    if !asking::has(host, changes, &block.key())? {
        return Ok(Finding::Value(0xff));
    }
    Ok(Finding::Value(0))
}

/// Finds the first matching entry after the one that was returned last, in the current files (function 18). Without a
/// search it asks nothing and finds no entry. Allocates nothing.
#[tactic(auto, using(crate::proofs::Extending::extends_same))]
#[inline(always)]
pub fn search_next(host: &HostFiles, changes: &mut Changes, last: Option<Search>) -> Finding
    ensures asks { Asks (calls.search_next last) host.now changes.old (Ok result) changes.new }
    ensures apart { HasDistinctKeys result }
{
    match last {
        Some(last) => search(host, changes, &last.pattern, last.extent, Some(last.last)),
        None => Finding::NoEntry,
    }
}

/// Finds the first matching entry of the directory, after the given entry if there is one. Allocates nothing.
#[tactic(auto, using(crate::proofs::Drives::same_entry))]
#[inline(always)]
pub fn search(
    host: &HostFiles,
    changes: &mut Changes,
    pattern: &Key,
    extent: u8,
    after: Option<[u8; 32]>,
) -> Finding
    ensures asks { let last = option_map (position_of (slice_index pattern.now 0)) after in
        Asks (search_finding pattern.now extent last) host.now changes.old (Ok result) changes.new }
    ensures apart { HasDistinctKeys result }
{
    match asking::search(host, changes, pattern, extent, after) {
        Some(last) => Finding::FirstEntry(Search {
            pattern: *pattern,
            extent,
            last,
        }),
        None => Finding::NoEntry,
    }
}

/// Finds the record at the sequential record number, or the value 1 if there is no record (function 20).
#[tactic(auto, using(crate::proofs::Extending::asked_in_turn))]
pub fn read_sequential(
    host: &HostFiles,
    changes: &mut Changes,
    block: &Block,
) -> Result<Finding, AllocError>
    ensures asks { Asks (calls.read_sequential block.now) host.now changes.old result changes.new }
    ensures apart { IfOk result HasDistinctKeys }
{
    let key = block.key();
    let place = block.fcb.place();
    let file = FileView::find(host, &changes.journal, &key);
    if !file.ask_presence(&mut changes.looks)? {
        return Ok(Finding::Value(0xff));
    }
    if place >= length(&file, &mut changes.looks)? {
        return Ok(Finding::Value(1));
    }
    match file.ask_record(&mut changes.looks, place)? {
        Some(record) => Ok(Finding::Found(record, place + 1)),
        None => Ok(Finding::Value(1)),
    }
}

/// Finds the record to be written at the sequential record number, or the value 2 if that is past 65,535 (function 21).
#[tactic(auto, using(crate::proofs::Extending::asked_in_turn))]
pub fn write_sequential(
    host: &HostFiles,
    changes: &mut Changes,
    block: &Block,
) -> Result<Finding, AllocError>
    ensures asks { Asks (calls.write_sequential block.now) host.now changes.old result changes.new }
    ensures apart { IfOk result HasDistinctKeys }
{
    let key = block.key();
    let place = block.fcb.place();
    let file = FileView::find(host, &changes.journal, &key);
    if !file.ask_presence(&mut changes.looks)? {
        return Ok(Finding::Value(0xff));
    }
    if place >= RECORD_LIMIT {
        return Ok(Finding::Value(2));
    }
    Ok(Finding::Write(Write {
        key,
        length: length(&file, &mut changes.looks)?,
        place: place as u16,
        next: place + 1,
        gap: Gap::Holes,
    }))
}

/// Finds the file to be made, or the value 0FFH if its key is invalid or a file has it (function 22).
#[tactic(auto, using(crate::proofs::Extending::asked_in_turn))]
pub fn make_file(
    host: &HostFiles,
    changes: &mut Changes,
    block: &Block,
) -> Result<Finding, AllocError>
    ensures asks { Asks (calls.make_file block.now) host.now changes.old result changes.new }
    ensures apart { IfOk result HasDistinctKeys }
    ensures grows { OnErr result (is_asking (calls.make_file block.now) ≡ true) }
{
    let key = block.key();
    if !asking::can_make(host, changes, &key)? {
        return Ok(Finding::Value(0xff));
    }
    Ok(Finding::Make(key))
}

/// Finds the file to be renamed, or the value 0FFH if it cannot be (function 23).
#[tactic(auto, using(crate::proofs::Extending::asked_in_turn))]
pub fn rename_file(
    host: &HostFiles,
    changes: &mut Changes,
    block: &Block,
) -> Result<Finding, AllocError>
    ensures asks { Asks (calls.rename_file block.now) host.now changes.old result changes.new }
    ensures apart { IfOk result HasDistinctKeys }
    ensures grows { OnErr result (is_asking (calls.rename_file block.now) ≡ true) }
{
    let (old, new) = (block.key(), block.new_key());
    if !asking::can_rename(host, changes, &old, &new)? {
        return Ok(Finding::Value(0xff));
    }
    Ok(Finding::Rename(old, new))
}

/// Finds the record at the random record number, or a value: 6 if the number is past 65,535, else 1 or 4 if there is no
/// record (function 33).
#[tactic(auto, using(crate::proofs::Extending::asked_in_turn))]
pub fn read_random(
    host: &HostFiles,
    changes: &mut Changes,
    block: &Block,
) -> Result<Finding, AllocError>
    ensures asks { Asks (calls.read_random block.now) host.now changes.old result changes.new }
    ensures apart { IfOk result HasDistinctKeys }
{
    let key = block.key();
    let place = block.fcb.random();
    let file = FileView::find(host, &changes.journal, &key);
    if !file.ask_presence(&mut changes.looks)? {
        return Ok(Finding::Value(0xff));
    }
    if block.fcb.r2() != 0 {
        return Ok(Finding::Value(6));
    }
    if place >= length(&file, &mut changes.looks)? {
        return Ok(Finding::Value(missing_value(&file, place)));
    }
    match file.ask_record(&mut changes.looks, place)? {
        Some(record) => Ok(Finding::Found(record, place)),
        None => Ok(Finding::Value(missing_value(&file, place))),
    }
}

// Returns the value for a random record number without a record: 4 if its extent holds no record, else 1.
fn missing_value(file: &FileView<'_>, place: u32) -> u8
    ensures { result ≡ missing_value (shape_of_view file.now) place }
{
    if count(file, place / EXTENT_RECORDS) == 0 {
        4
    } else {
        1
    }
}

/// Finds the record to be written at the random record number, or the value 6 if that is past 65,535 (functions 34 and
/// 40). Function 34 leaves holes in the gap before the record, and function 40 writes zeros there.
#[tactic(auto, using(crate::proofs::Extending::asked_in_turn))]
pub fn write_random(
    host: &HostFiles,
    changes: &mut Changes,
    block: &Block,
    gap: Gap,
) -> Result<Finding, AllocError>
    ensures asks { Asks (calls.write_random gap block.now) host.now changes.old result changes.new }
    ensures apart { IfOk result HasDistinctKeys }
{
    let key = block.key();
    let place = block.fcb.random();
    let file = FileView::find(host, &changes.journal, &key);
    if !file.ask_presence(&mut changes.looks)? {
        return Ok(Finding::Value(0xff));
    }
    if block.fcb.r2() != 0 {
        return Ok(Finding::Value(6));
    }
    Ok(Finding::Write(Write {
        key,
        length: length(&file, &mut changes.looks)?,
        place: place as u16,
        next: place,
        gap,
    }))
}

/// Finds the length of the file, or that there is no file (function 35).
#[tactic(auto, using(crate::proofs::Extending::asked_in_turn, crate::proofs::Shapes::places))]
pub fn file_size(
    host: &HostFiles,
    changes: &mut Changes,
    block: &Block,
) -> Result<Finding, AllocError>
    ensures asks { Asks (calls.file_size block.now) host.now changes.old result changes.new }
    ensures apart { IfOk result HasDistinctKeys }
{
    match asking::records(host, changes, &block.key())? {
        Some(places) => Ok(Finding::Length(places)),
        None => Ok(Finding::NoLength),
    }
}
