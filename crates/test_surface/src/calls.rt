// `bdos`: the desk, and the calls over any memory and files.

use bdos::{Cause, Desk, Served, Spot, call};
use cpmfiles::Table;
use i8080::{Bus, Regs};
use std::alloc::{AllocError, Global};

/// Calls each function of a desk once.
pub fn desk(alloc: Global) -> Result<Spot, AllocError> {
    let desk: Desk = Desk::new(alloc);
    let mut copy: Desk = desk.snapshot()?;
    let _is_looked: bool = copy.looked(u64::MAX);
    let _look: Option<u64> = copy.take_look();
    copy.spot().snapshot()
}

/// Makes a call, and returns the number of the cause of a stop.
pub fn make_call<B: Bus>(
    regs: &mut Regs,
    bus: &mut B,
    table: &mut Table<'_>,
    desk: &mut Desk,
    script: &[u8],
) -> Result<Option<u8>, AllocError> {
    match call(regs, bus, table, desk, script)? {
        Served::Went => Ok(None),
        Served::Stop(cause) => Ok(Some(number_of(cause))),
    }
}

// Returns a number for each cause.
fn number_of(cause: Cause) -> u8 {
    match cause {
        Cause::WarmBoot => 1,
        Cause::Halt => 2,
        Cause::Limit => 3,
        Cause::Undefined(_byte) => 4,
        Cause::SystemArea(_address) => 5,
        Cause::ConsoleExhausted => 6,
        Cause::NoDollar => 7,
        Cause::Unsupported(_number) => 8,
        Cause::BadDrive(_drive) => 9,
    }
}
