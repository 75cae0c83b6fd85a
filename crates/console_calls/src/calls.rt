#![tactic(auto, using(crate::proofs::Looking::until_it_failed))]

ghost use Rattle.std.specs.Prelude.{◌≡◌, ◌≤◌, ◌<◌, ◌==◌, ℕ, List, length, not, true, false, slice_get, is_some, IsSome, IsTrue};
ghost use Rattle.std.specs.Prelude.{OnOk, OnErr, if◌then◌else◌, Ok};
ghost use Rattle.std.specs.Option.{option_map_or};
ghost use Rattle.i8080.specs.Instruction.{word_at};
ghost use Rattle.i8080.specs.Memory.{write_all};
ghost use Rattle.i8080.specs.Performs.{Reads};
ghost use Rattle.i8080.specs.Reading.{Done};
ghost use Rattle.i8080.specs.Registers.{onward};
ghost use Rattle.console_calls.specs.ConsoleCalls as calls;
ghost use Rattle.console_calls.specs.ConsoleCalls.{at_caller, line_cells};
ghost use Rattle.console_calls.specs.Desk.{is_echoed};
ghost use Rattle.console_calls.specs.Growth.{may_grow};
ghost use Rattle.console_calls.specs.PerformsCall.{MakesCall, scene};
ghost use Rattle.console_calls.specs.Printing.{Prints, Scans};
ghost use Rattle.console_calls.specs.declared.served.Served.TheVariants.{Went};

use crate::cause::Cause;
use crate::desk::{Desk, FIRST_BUFFER};
use crate::line::{LineEnd, take_line};
use crate::served::Served;
use filenames::Drive;
use i8080::{Bus, Regs, fetch, fetch_word, word_of};
use std::alloc::AllocError;

/// The address of the I/O byte.
const IO_BYTE: u16 = 0x0003;

/// The version that function 12 returns: 2.2.
const VERSION: u16 = 0x0022;

/// The drives A to D, a bit for each.
const DRIVES: u16 = 0x000f;

/// Executes the call whose number is in C. [Interface Guide 1979, system function summary]
///
/// If it stops or fails, the registers, the written cells and the desk are unchanged. It may have looked at cells and, if
/// it stops, at offsets of the script.
///
/// # Errors
///
/// `Err` means out of memory. Only functions 2, 9 and 10 can run out of memory, function 8 if the cell of the I/O byte is not
/// ready, function 1 if it echoes its byte, and function 6 if it sends one. With more memory, functions 9 and 10 might still have stopped.
#[tactic(auto, unfolding(crate::specs::ConsoleCalls::console_call))]
pub fn console_call<B: Bus>(
    regs: &mut Regs,
    bus: &mut B,
    desk: &mut Desk,
    script: &[u8],
) -> Result<Served, AllocError>
    ensures makes { (n : ℕ) → length script.now ≤ n → MakesCall (calls.console_call n) script.now
        (scene regs.old (B.memory bus.old) desk.old) result (scene regs.new (B.memory bus.new) desk.new) }
    ensures grows { OnErr result
        (may_grow regs.old desk.old.desk.spot script.now ≡ true) }
    ensures io_byte { OnErr result (regs.old.c ≡ 8 → B.is_ready bus.old 3 ≡ false) }
{
    match regs.c {
        0 => Ok(Served::Stop(Cause::WarmBoot)),
        1 => console_input(regs, bus, desk, script),
        2 => console_output(regs, bus, desk),
        6 => direct_console(regs, bus, desk, script),
        7 => Ok(get_io_byte(regs, bus, desk)),
        8 => set_io_byte(regs, bus, desk),
        9 => string_output(regs, bus, desk),
        10 => line_input(regs, bus, desk, script),
        11 => Ok(console_status(regs, bus, desk, script)),
        12 => Ok(completed(regs, bus, VERSION)),
        13 => {
            desk.set_buffer(FIRST_BUFFER);
            desk.set_drive(Drive::A);
            Ok(completed(regs, bus, 0))
        }
        14 => Ok(select_disk(regs, bus, desk)),
        24 => Ok(completed(regs, bus, DRIVES)),
        25 => Ok(completed(regs, bus, u16::from(desk.drive().number()))),
        26 => {
            desk.set_buffer(word_of(regs.e, regs.d));
            Ok(completed(regs, bus, 0))
        }
        number => Ok(Served::Stop(Cause::Unsupported(number))),
    }
}

// Executes function 1, which takes a byte of the script, echoes it if it is graphic or one of CR, LF, tab and backspace,
// and returns it.
fn console_input<B: Bus>(
    regs: &mut Regs,
    bus: &mut B,
    desk: &mut Desk,
    script: &[u8],
) -> Result<Served, AllocError>
    ensures makes { MakesCall calls.console_input script.now
        (scene regs.old (B.memory bus.old) desk.old) result (scene regs.new (B.memory bus.new) desk.new) }
    ensures grows { OnErr result
        (option_map_or is_echoed (slice_get script.now desk.old.desk.spot.cursor) false ≡ true) }
{
    let Some(byte) = byte_at(script, desk.cursor()) else {
        desk.look(1);
        return Ok(Served::Stop(Cause::ConsoleExhausted));
    };
    desk.echo(byte)?;
    desk.take(1);
    Ok(completed(regs, bus, u16::from(byte)))
}

// Executes function 6: input if E is 0FFH, else output.
fn direct_console<B: Bus>(
    regs: &mut Regs,
    bus: &mut B,
    desk: &mut Desk,
    script: &[u8],
) -> Result<Served, AllocError>
    ensures makes { MakesCall calls.direct_console script.now
        (scene regs.old (B.memory bus.old) desk.old) result (scene regs.new (B.memory bus.new) desk.new) }
    ensures grows { OnErr result (not (regs.old.e == 0xff) ≡ true) }
{
    if regs.e == 0xff {
        return Ok(direct_input(regs, bus, desk, script));
    }
    direct_output(regs, bus, desk)
}

// Executes function 6 with 0FFH in E, which takes a byte of the script, or returns 0 if none is left.
fn direct_input<B: Bus>(regs: &mut Regs, bus: &mut B, desk: &mut Desk, script: &[u8]) -> Served
    ensures { MakesCall calls.direct_input script.now
        (scene regs.old (B.memory bus.old) desk.old) (Ok result)
        (scene regs.new (B.memory bus.new) desk.new) }
{
    let Some(byte) = byte_at(script, desk.cursor()) else {
        desk.look(1);
        return completed(regs, bus, 0);
    };
    desk.take(1);
    completed(regs, bus, u16::from(byte))
}

// Executes function 6 with another E, which sends E.
fn direct_output<B: Bus>(
    regs: &mut Regs,
    bus: &mut B,
    desk: &mut Desk,
) -> Result<Served, AllocError>
    ensures { (script : List ℕ) → MakesCall calls.direct_output script
        (scene regs.old (B.memory bus.old) desk.old) result (scene regs.new (B.memory bus.new) desk.new) }
{
    desk.append(regs.e)?;
    Ok(completed(regs, bus, 0))
}

// Executes function 11, which returns whether a byte of the script is left.
fn console_status<B: Bus>(regs: &mut Regs, bus: &mut B, desk: &mut Desk, script: &[u8]) -> Served
    ensures { MakesCall calls.console_status script.now
        (scene regs.old (B.memory bus.old) desk.old) (Ok result)
        (scene regs.new (B.memory bus.new) desk.new) }
{
    let status = console_state(script, desk.cursor());
    desk.look(1);
    completed(regs, bus, status)
}

// Executes function 2, which prints E.
fn console_output<B: Bus>(
    regs: &mut Regs,
    bus: &mut B,
    desk: &mut Desk,
) -> Result<Served, AllocError>
    ensures { (script : List ℕ) → MakesCall calls.console_output script
        (scene regs.old (B.memory bus.old) desk.old) result (scene regs.new (B.memory bus.new) desk.new) }
{
    desk.print(regs.e)?;
    Ok(completed(regs, bus, 0))
}

// Executes function 7, which returns the I/O byte.
fn get_io_byte<B: Bus>(regs: &mut Regs, bus: &mut B, desk: &Desk) -> Served
    ensures { (script : List ℕ) → MakesCall calls.get_io_byte script
        (scene regs.old (B.memory bus.old) desk.now) (Ok result)
        (scene regs.new (B.memory bus.new) desk.now) }
{
    let byte = fetch(bus, IO_BYTE);
    completed(regs, bus, u16::from(byte))
}

// Executes function 8, which sets the I/O byte to E.
#[tactic(auto, using(crate::proofs::Looking::until_it_failed, i8080::proofs::ReadyLemmas::unready_before))]
fn set_io_byte<B: Bus>(regs: &mut Regs, bus: &mut B, desk: &Desk) -> Result<Served, AllocError>
    ensures makes { (script : List ℕ) → MakesCall calls.set_io_byte script
        (scene regs.old (B.memory bus.old) desk.now) result (scene regs.new (B.memory bus.new) desk.now) }
    ensures refused { OnErr result (B.is_ready bus.old 3 ≡ false) }
{
    let to = fetch_word(bus, regs.sp);
    bus.ready(IO_BYTE)?;
    bus.write(IO_BYTE, regs.e);
    return_to(regs, 0, to);
    Ok(Served::Went)
}

// Executes function 14, which sets the current drive. Stops if there is no such drive.
fn select_disk<B: Bus>(regs: &mut Regs, bus: &mut B, desk: &mut Desk) -> Served
    ensures { (script : List ℕ) → MakesCall calls.select_disk script
        (scene regs.old (B.memory bus.old) desk.old) (Ok result)
        (scene regs.new (B.memory bus.new) desk.new) }
{
    let Some(drive) = Drive::from_number(regs.e) else {
        return Served::Stop(Cause::BadDrive(regs.e));
    };
    desk.set_drive(drive);
    completed(regs, bus, 0)
}

// Executes function 9, which prints the string at DE.
fn string_output<B: Bus>(
    regs: &mut Regs,
    bus: &mut B,
    desk: &mut Desk,
) -> Result<Served, AllocError>
    ensures { (script : List ℕ) → MakesCall calls.string_output script
        (scene regs.old (B.memory bus.old) desk.old) result (scene regs.new (B.memory bus.new) desk.new) }
{
    let to = fetch_word(bus, regs.sp);
    if !print_string(bus, desk, word_of(regs.e, regs.d))? {
        return Ok(Served::Stop(Cause::NoDollar));
    }
    return_to(regs, 0, to);
    Ok(Served::Went)
}

// Returns the script byte at an offset; `None` if the script ends before it.
fn byte_at(script: &[u8], offset: usize) -> Option<u8>
    ensures byte { result ≡ slice_get script.now offset }
    ensures within { IsSome result → offset < length script.now }
{
    script.get(offset).copied()
}

// Returns the status for function 11 with the cursor at an offset: 0FFH if the script has a byte there, else 0.
fn console_state(script: &[u8], offset: usize) -> u16
    ensures { result ≡ (if is_some (slice_get script.now offset) then 0xff else 0) }
{
    if byte_at(script, offset).is_some() {
        0xff
    } else {
        0
    }
}

// Executes function 10, which takes a line of the script.
#[tactic(auto, using(crate::proofs::Looking::after_the_capacity))]
fn line_input<B: Bus>(
    regs: &mut Regs,
    bus: &mut B,
    desk: &mut Desk,
    script: &[u8],
) -> Result<Served, AllocError>
    ensures { (n : ℕ) → length script.now ≤ n → MakesCall (calls.line_input n) script.now
        (scene regs.old (B.memory bus.old) desk.old) result (scene regs.new (B.memory bus.new) desk.new) }
{
    let at = word_of(regs.e, regs.d);
    let capacity = fetch(bus, at);
    let (line, taken) = match take_line(desk.allocator(), script, desk.cursor(), capacity)? {
        LineEnd::Ended(line, taken) => (line, taken),
        LineEnd::Booted(looks) => {
            desk.look(looks);
            return Ok(Served::Stop(Cause::WarmBoot));
        }
        LineEnd::Short(looks) => {
            desk.look(looks);
            return Ok(Served::Stop(Cause::ConsoleExhausted));
        }
    };
    let to = fetch_word(bus, regs.sp);
    ready_line(bus, at, line.len() as u8)?;
    desk.send_all(line.sends())?;
    desk.take(taken);
    store_line(bus, at, line.text());
    return_to(regs, 0, to);
    Ok(Served::Went)
}

// Makes the cells of a line ready to be written: one for the count, and one for each byte.
fn ready_line<B: Bus>(bus: &mut B, at: u16, count: u8) -> Result<(), AllocError>
    ensures count { OnOk result (IsTrue (B.is_ready bus.new (onward at 1))) }
    ensures text { OnOk result ((i : ℕ) → i < count
        → IsTrue (B.is_ready bus.new (onward (onward at 2) i))) }
    ensures memory { B.memory bus.new ≡ B.memory bus.old }
{
    bus.ready(at.wrapping_add(1))?;
    bus.ready_cells(at.wrapping_add(2), u16::from(count))
}

// Writes the cells of a line, which are ready: the count, and each byte.
fn store_line<B: Bus>(bus: &mut B, at: u16, text: &[u8])
    requires short { length text.now ≤ 255 }
    requires count { IsTrue (B.is_ready bus.old (onward at 1)) }
    requires text { (i : ℕ) → i < length text.now
        → IsTrue (B.is_ready bus.old (onward (onward at 2) i)) }
    ensures own { (B.memory bus.new).own ≡ write_all (B.memory bus.old).own (line_cells at text.now) }
    ensures looks { (B.memory bus.new).looks ≡ (B.memory bus.old).looks }
    ensures beneath { (B.memory bus.new).beneath ≡ (B.memory bus.old).beneath }
    ensures lender { (B.memory bus.new).lender ≡ (B.memory bus.old).lender }
{
    bus.write(at.wrapping_add(1), text.len() as u8);
    bus.write_cells(at.wrapping_add(2), text);
}

// Completes a call that has still to read its return address, with a value.
fn completed<B: Bus>(regs: &mut Regs, bus: &mut B, value: u16) -> Served
    ensures went { result ≡ Went }
    ensures reads { Reads (word_at regs.old.sp Done) (B.memory bus.old) regs.new.pc (B.memory bus.new) }
    ensures regs { regs.new ≡ at_caller value regs.new.pc regs.old }
{
    let to = fetch_word(bus, regs.sp);
    return_to(regs, value, to);
    Served::Went
}

/// Sets the registers for the return to the caller at `to`: HL gets the value, A is L and B is H, and the return
/// address is popped. [Interface Guide 1979, operating system call conventions]
pub fn return_to(regs: &mut Regs, value: u16, to: u16)
    ensures { regs.new ≡ at_caller value to regs.old }
{
    let low = (value % 256) as u8;
    let high = (value / 256) as u8;
    regs.a = low;
    regs.b = high;
    regs.h = high;
    regs.l = low;
    regs.sp = regs.sp.wrapping_add(2);
    regs.pc = to;
}

// Prints the string at an address, up to its `$`, and returns whether there is a `$`. If there is none, and on an
// `Err`, the desk is unchanged.
fn print_string<B: Bus>(bus: &mut B, desk: &mut Desk, at: u16) -> Result<bool, AllocError>
    ensures prints { Prints at (B.memory bus.old) desk.old.desk result (B.memory bus.new) desk.new.desk }
    ensures looks { desk.new.looks ≡ desk.old.looks }
{
    let savepoint = desk.savepoint();
    let found = print_until_dollar(bus, desk, at);
    if found != Ok(true) {
        desk.roll_back(savepoint);
    }
    found
}

// Prints the bytes from an address up to the first `$`, and returns whether there is a `$`. If there is none, and on
// an `Err`, some bytes stay printed.
#[tactic(auto, using(crate::proofs::Scanning::byte_by_byte))]
fn print_until_dollar<B: Bus>(bus: &mut B, desk: &mut Desk, at: u16) -> Result<bool, AllocError>
    ensures scans { Scans at (B.memory bus.old) desk.old.desk result (B.memory bus.new) desk.new.desk }
    ensures looks { desk.new.looks ≡ desk.old.looks }
{
    let mut address = at;
    for _cell in 0..65_536u32 {
        let byte = fetch(bus, address);
        if byte == b'$' {
            return Ok(true);
        }
        desk.print(byte)?;
        address = address.wrapping_add(1);
    }
    Ok(false)
}
