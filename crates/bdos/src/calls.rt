ghost use Rattle.std.specs.Prelude.{◌≡◌, ◌≤◌, List, ℕ, true, false, Ok, OnErr, length, if◌then◌else◌};
ghost use Rattle.file_calls.specs.TableView.{table_view};
ghost use Rattle.i8080.specs.Performs.{Reads};
ghost use Rattle.bdos.specs.FileCalls.{file_call, delete_call, search_next_call, drive_of_byte};
ghost use Rattle.bdos.specs.FileCalls.{block_reading};
ghost use Rattle.bdos.specs.BlockParts.{byte_count};
ghost use Rattle.file_calls.specs.Findings.{block_length};
ghost use Rattle.bdos.specs.SystemCalls.{call, system_function};
ghost use Rattle.bdos.specs.declared.function.SystemFunction.TheVariants.{OfDesk};
ghost use Rattle.bdos.specs.Growth.{IfOfFiles, NeedsMemoryFor};
ghost use Rattle.console_calls.specs.Growth.{may_grow};
ghost use Rattle.bdos.specs.PerformsSystemCall.{MakesSystemCall};
ghost use Rattle.i8080.specs.Performs.{KeepsReady};
ghost use Rattle.console_calls.specs.PerformsCall.{scene};

use crate::cells::fetch_cells;
use crate::findings::apply_finding;
use crate::function::SystemFunction;
use console_calls::{Cause, Desk, Served, console_call, return_to};
use file_calls::{Block, FileFunction, Table, delete_files, search_next};
use filenames::{Drive, Fcb};
use i8080::{Bus, Regs, fetch, fetch_word, word_of};
use std::alloc::AllocError;

/// Executes the call whose number is in C. [Interface Guide 1979, system function summary]
///
/// If the call stops or fails, the registers, the written cells, the desk and the files are unchanged, and only the
/// set of looks may have grown, by no more than the whole call looks at.
///
/// # Errors
///
/// `Err` means out of memory. A call of files needs it to note a question to the host files that was not asked before, to change
/// files, or to write a cell that is not ready; a call of the console to send a byte or to collect a line, and function 8 to write a
/// cell that is not ready. Functions 9 and 10 may fail although they would print nothing or stop.
#[tactic(auto, unfolding(crate::specs::SystemCalls::call))]
#[inline(always)]
pub fn call<B: Bus>(
    regs: &mut Regs,
    bus: &mut B,
    table: &mut Table<'_>,
    desk: &mut Desk,
    script: &[u8],
) -> Result<Served, AllocError>
    ensures makes { (n : ℕ) → length script.now ≤ n → MakesSystemCall (call n) script.now
        (scene regs.old (B.memory bus.old) desk.old) (table_view table.old) result
        (scene regs.new (B.memory bus.new) desk.new) (table_view table.new) }
    ensures grows { OnErr result (system_function regs.old.c ≡ OfDesk
        → may_grow regs.old desk.old.desk.spot script.now ≡ true) }
    ensures needs { (n : ℕ) → OnErr result (IfOfFiles (system_function regs.old.c)
        (NeedsMemoryFor (call n) script.now (scene regs.old (B.memory bus.old) desk.old)
        (table_view table.old) (B.is_ready bus.old))) }
    ensures io_byte { OnErr result (regs.old.c ≡ 8 → B.is_ready bus.old 3 ≡ false) }
{
    match SystemFunction::decode(regs.c) {
        SystemFunction::OfFile(function) => file_call(regs, bus, table, desk, function),
        SystemFunction::SearchNext => search_next_call(regs, bus, table, desk),
        SystemFunction::DeleteFile => delete_call(regs, bus, table, desk),
        SystemFunction::OfDesk => console_call(regs, bus, desk, script),
    }
}

// Executes a call that names a file by a control block.
#[inline(never)]
fn file_call<B: Bus>(
    regs: &mut Regs,
    bus: &mut B,
    table: &mut Table<'_>,
    desk: &mut Desk,
    function: FileFunction,
) -> Result<Served, AllocError>
    ensures makes { (script : List ℕ) → MakesSystemCall (file_call function) script
        (scene regs.old (B.memory bus.old) desk.old) (table_view table.old) result
        (scene regs.new (B.memory bus.new) desk.new) (table_view table.new) }
    ensures needs { (script : List ℕ) → OnErr result (NeedsMemoryFor (file_call function) script
        (scene regs.old (B.memory bus.old) desk.old) (table_view table.old) (B.is_ready bus.old)) }
{
    let at = word_of(regs.e, regs.d);
    let dr = fetch(bus, at);
    let Some(drive) = drive_of_byte(desk.drive(), dr) else {
        return Ok(Served::Stop(Cause::BadDrive(dr)));
    };
    let block = fetch_block(bus, at, drive, dr, block_length(function));
    let to = fetch_word(bus, regs.sp);
    match &function.inquire(table.host, table.changes, &block) {
        Ok(finding) => apply_finding(finding, regs, bus, table, desk, to),
        Err(error) => Err(*error),
    }
}

// Executes function 19, which deletes files.
#[inline(never)]
fn delete_call<B: Bus>(
    regs: &mut Regs,
    bus: &mut B,
    table: &mut Table<'_>,
    desk: &Desk,
) -> Result<Served, AllocError>
    ensures makes { (script : List ℕ) → MakesSystemCall delete_call script
        (scene regs.old (B.memory bus.old) desk.now) (table_view table.old) result
        (scene regs.new (B.memory bus.new) desk.now) (table_view table.new) }
    ensures needs { (script : List ℕ) → OnErr result (NeedsMemoryFor delete_call script
        (scene regs.old (B.memory bus.old) desk.now) (table_view table.old) (B.is_ready bus.old)) }
{
    let at = word_of(regs.e, regs.d);
    let dr = fetch(bus, at);
    let Some(drive) = drive_of_byte(desk.drive(), dr) else {
        return Ok(Served::Stop(Cause::BadDrive(dr)));
    };
    let block = fetch_block(bus, at, drive, dr, BlockLength::Sequential);
    let to = fetch_word(bus, regs.sp);
    let value = deletion_value(delete_files(table, &block)?);
    return_to(regs, value, to);
    Ok(Served::Went)
}

// Returns the value of a deletion: 0 if a file was deleted, else 0FFH.
fn deletion_value(is_some_deleted: bool) -> u16
    ensures { result ≡ (if is_some_deleted then 0 else 0xff) }
{
    if is_some_deleted { 0 } else { 0xff }
}

// Executes function 18, which continues a search.
#[inline(never)]
fn search_next_call<B: Bus>(
    regs: &mut Regs,
    bus: &mut B,
    table: &mut Table<'_>,
    desk: &mut Desk,
) -> Result<Served, AllocError>
    ensures makes { (script : List ℕ) → MakesSystemCall search_next_call script
        (scene regs.old (B.memory bus.old) desk.old) (table_view table.old) result
        (scene regs.new (B.memory bus.new) desk.new) (table_view table.new) }
    ensures needs { (script : List ℕ) → OnErr result (NeedsMemoryFor search_next_call script
        (scene regs.old (B.memory bus.old) desk.old) (table_view table.old) (B.is_ready bus.old)) }
{
    let to = fetch_word(bus, regs.sp);
    let finding = search_next(table.host, table.changes, desk.search());
    apply_finding(&finding, regs, bus, table, desk, to)
}

/// Returns the drive that the first byte of a control block names, if it names one.
pub fn drive_of_byte(current: Drive, dr: u8) -> Option<Drive>
    ensures { result ≡ drive_of_byte current dr }
{
    match dr {
        0 => Some(current),
        _ => Drive::from_number(dr - 1),
    }
}

/// The part of a control block that a call reads.
#[derive(Clone, Copy)]
pub(crate) enum BlockLength {
    /// 33 bytes: all but the random record number.
    Sequential,
    /// 36 bytes.
    Random,
}

// Returns the part of a control block that a call reads.
fn block_length(function: FileFunction) -> BlockLength
    ensures { byte_count result ≡ block_length function }
{
    if function.has_random_place() {
        return BlockLength::Random;
    }
    BlockLength::Sequential
}

// Reads the control block at an address, whose drive byte was already read. Bytes that are not read are zeros.
fn fetch_block<B: Bus>(bus: &mut B, at: u16, drive: Drive, dr: u8, length: BlockLength) -> Block
    ensures reads { Reads (block_reading drive dr (byte_count length) at)
        (B.memory bus.old) result (B.memory bus.new) }
    ensures kept { KeepsReady (B.is_ready bus.old) (B.is_ready bus.new) }
{
    let mut bytes = [0; 36];
    bytes[0] = dr;
    match length {
        BlockLength::Sequential => fetch_cells(bus, at.wrapping_add(1), &mut bytes[1..33]),
        BlockLength::Random => fetch_cells(bus, at.wrapping_add(1), &mut bytes[1..]),
    }
    Block {
        drive,
        fcb: Fcb::from_bytes(&bytes),
    }
}
