// What a call does with what it found.

#![tactic(auto, using(crate::proofs::Parts::still_looked_at))]

ghost use Rattle.std.specs.Prelude.{◌≡◌, ◌≢◌, ◌≤◌, ◌/◌, ◌%◌, List, [], ◌∷◌, ◌++◌, ℕ, Ok, OnOk, OnErr, length};
ghost use Rattle.console_calls.specs.ConsoleCalls.{at_caller};
ghost use Rattle.console_calls.specs.declared.served.Served.TheVariants.{Went};
ghost use Rattle.file_calls.specs.TableView.{TableView, table_view};
ghost use Rattle.file_calls.specs.DistinctKeys.{HasDistinctKeys};
ghost use Rattle.file_calls.specs.Changes.{Unchanged, Stored};
ghost use Rattle.file_calls.specs.Deletes.{own_after_change};
ghost use Rattle.file_calls.specs.declared.finding.Finding.TheVariants as finding;
ghost use Rattle.i8080.specs.End.{cells_from};
ghost use Rattle.i8080.specs.Registers.{onward, word};
ghost use Rattle.bdos.specs.FileCalls.{call_with_finding, return_with, directory_record, random_cells};
ghost use Rattle.bdos.specs.FileCalls.{random_bytes, opened_bytes, made_bytes};
ghost use Rattle.bdos.specs.PerformsSystemCall.{MakesSystemCall};
ghost use Rattle.console_calls.specs.PerformsCall.{scene};
ghost use Rattle.interaction_trees.specs.Tree.{result_of};
ghost use Rattle.i8080.specs.Performs.{WritesUnready};
ghost use Rattle.bdos.specs.FileCalls.{place_cells};
ghost use Rattle.bdos.specs.SystemQuestions.{SystemAnswers};
ghost use Rattle.bdos.specs.Growth.{Grows};

use crate::cells::{fetch_cells, put_cells, put_record, ready_place, write_place};
use console_calls::{Desk, Served, return_to};
use file_calls::{Finding, Table, Write};
use hostfiles::{Key, RECORD_BYTES, Record, Search};
use i8080::{Bus, Regs, word_of};
use std::alloc::AllocError;

/// Completes a call by what it found, and returns to the caller at `to`.
///
/// # Errors
///
/// `Err` means out of memory, to change files or to write a cell that is not ready; the registers, cells, desk and files are
/// unchanged. A finding that is a value, or that no entry matches, is never an `Err`.
#[inline(always)]
pub fn apply_finding<B: Bus>(
    finding: &Finding,
    regs: &mut Regs,
    bus: &mut B,
    table: &mut Table<'_>,
    desk: &mut Desk,
    to: u16,
) -> Result<Served, AllocError>
    requires { HasDistinctKeys finding.now }
    ensures makes { (script : List ℕ) →
        MakesSystemCall (λ r spot. call_with_finding finding.now r spot to) script
        (scene regs.old (B.memory bus.old) desk.old) (table_view table.old) result
        (scene regs.new (B.memory bus.new) desk.new) (table_view table.new) }
    ensures needs { (f : SystemAnswers) → OnErr result (Grows (B.is_ready bus.old)
        (result_of f (call_with_finding finding.now regs.old desk.old.desk.spot to))) }
{
    let block = word_of(regs.e, regs.d);
    match finding {
        Finding::Value(value) => Ok(returned(regs, *value, to)),
        Finding::Opened(count) => {
            put_cells(bus, block.wrapping_add(13), &opened_bytes(*count))?;
            Ok(returned(regs, 0, to))
        }
        Finding::FirstEntry(search) => {
            put_cells(bus, desk.buffer(), &directory_record(&search.last))?;
            desk.set_search(Some(*search));
            Ok(returned(regs, 0, to))
        }
        Finding::NoEntry => {
            desk.set_search(None);
            Ok(returned(regs, 0xff, to))
        }
        Finding::Found(bytes, next) => {
            put_record(bus, desk.buffer(), bytes, block, *next)?;
            Ok(returned(regs, 0, to))
        }
        Finding::Write(write) => store(regs, bus, table, desk, write, to),
        Finding::Make(key) => make(regs, bus, table, desk, key, to),
        Finding::Rename(old, new) => {
            table.changes.journal.rename(old, new)?;
            Ok(returned(regs, 0, to))
        }
        Finding::Length(length) => return_place(regs, bus, desk, *length, 0, to),
        Finding::NoLength => return_place(regs, bus, desk, 0, 0xff, to),
        Finding::RandomPlace(number) => return_place(regs, bus, desk, *number, 0, to),
    }
}

// Returns to the caller at `to` with a value.
fn returned(regs: &mut Regs, value: u8, to: u16) -> Served
    ensures went { result ≡ Went }
    ensures regs { regs.new ≡ at_caller value to regs.old }
{
    return_to(regs, u16::from(value), to);
    Served::Went
}

// Writes a random record number into the bytes 33 to 35 of the control block, and completes the call with a value.
fn return_place<B: Bus>(
    regs: &mut Regs,
    bus: &mut B,
    desk: &Desk,
    record_number: u32,
    value: u8,
    to: u16,
) -> Result<Served, AllocError>
    ensures makes { (script : List ℕ) (v : TableView) →
        let cells = random_cells (word regs.old.e regs.old.d) record_number in
        MakesSystemCall (λ r spot. return_with value r spot to cells Unchanged) script
        (scene regs.old (B.memory bus.old) desk.now) v result
        (scene regs.new (B.memory bus.new) desk.now) v }
    ensures refused { OnErr result (WritesUnready (B.is_ready bus.old)
        (random_cells (word regs.old.e regs.old.d) record_number)) }
{
    let at = word_of(regs.e, regs.d).wrapping_add(33);
    put_cells(bus, at, &random_bytes(record_number))?;
    Ok(returned(regs, value, to))
}

// Returns a directory record with this first entry; the other entries are unused.
fn directory_record(entry: &[u8; 32]) -> Record
    ensures { result ≡ directory_record entry.now }
{
    let mut bytes = [0xe5; RECORD_BYTES];
    bytes[..32].copy_from_slice(entry);
    bytes
}

// Writes the record in the buffer to a file, and a sequential record number into the control block.
fn store<B: Bus>(
    regs: &mut Regs,
    bus: &mut B,
    table: &mut Table<'_>,
    desk: &Desk,
    write: &Write,
    to: u16,
) -> Result<Served, AllocError>
    ensures { (script : List ℕ) →
        MakesSystemCall (λ r spot. call_with_finding (finding.Write write.now) r spot to) script
        (scene regs.old (B.memory bus.old) desk.now) (table_view table.old) result
        (scene regs.new (B.memory bus.new) desk.now) (table_view table.new) }
{
    let mut bytes = [0; RECORD_BYTES];
    fetch_cells(bus, desk.buffer(), &mut bytes);
    let block = word_of(regs.e, regs.d);
    ready_place(bus, block)?;
    write_record(table, write, &bytes)?;
    write_place(bus, block, write.next);
    Ok(returned(regs, 0, to))
}

// Writes a record to a file; the gap before it becomes holes or zeros. An `Err` changes no file.
fn write_record(table: &mut Table<'_>, write: &Write, bytes: &Record) -> Result<(), AllocError>
    ensures ok { OnOk result ((table_view table.new).own ≡
        own_after_change (Stored write.now bytes.now) (table_view table.old).own) }
    ensures err { OnErr result ((table_view table.new).own ≡ (table_view table.old).own) }
    ensures looks { (table_view table.new).looks ≡ (table_view table.old).looks }
    ensures host { (table_view table.new).host ≡ (table_view table.old).host }
    ensures lender { (table_view table.new).lender ≡ (table_view table.old).lender }
{
    let journal = &mut table.changes.journal;
    let place = write.place as u32;
    journal.write(&write.key, write.length, place, bytes, write.gap)
}

// Makes an empty file, and clears the bytes 13 to 31 of the control block.
fn make<B: Bus>(
    regs: &mut Regs,
    bus: &mut B,
    table: &mut Table<'_>,
    desk: &Desk,
    key: &Key,
    to: u16,
) -> Result<Served, AllocError>
    ensures { (script : List ℕ) →
        MakesSystemCall (λ r spot. call_with_finding (finding.Make key.now) r spot to) script
        (scene regs.old (B.memory bus.old) desk.now) (table_view table.old) result
        (scene regs.new (B.memory bus.new) desk.now) (table_view table.new) }
{
    let at = word_of(regs.e, regs.d).wrapping_add(13);
    bus.ready_cells(at, 19)?;
    table.changes.journal.make(key)?;
    bus.write_cells(at, &made_bytes());
    Ok(returned(regs, 0, to))
}

// Returns the bytes 13 to 31 of a control block that is opened at an extent with this record count.
#[tactic(auto, unfolding(crate::specs::FileCalls::opened_bytes))]
fn opened_bytes(count: u8) -> [u8; 19]
    ensures { result ≡ opened_bytes count }
{
    let mut bytes = [0; 19];
    bytes[2] = count;
    bytes
}

// Returns the bytes 13 to 31 of a control block whose file is made.
#[tactic(auto, unfolding(crate::specs::FileCalls::made_bytes))]
fn made_bytes() -> [u8; 19]
    ensures { result ≡ made_bytes }
{
    [0; 19]
}

// Returns the three bytes of a random record number, the low byte first.
#[tactic(auto, unfolding(crate::specs::FileCalls::random_bytes))]
fn random_bytes(record_number: u32) -> [u8; 3]
    ensures { result ≡ random_bytes record_number }
{
    [
        (record_number % 256) as u8,
        (record_number / 256 % 256) as u8,
        (record_number / 65_536 % 256) as u8,
    ]
}
