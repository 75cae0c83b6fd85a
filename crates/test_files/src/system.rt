// The calls of the system, over a plain memory, files and a desk.

use crate::acts::Act::{self, Are, AreAll, Call, Printed, Put, PutAll, Selected, Stack, Stops};
use bdos::{Desk, Served, call};
use cpmfiles::Table;
use i8080::{Bus, Flags, Regs};
use pagemem::PlainMemory;
use std::alloc::{AllocError, Global};

/// The address to which each call returns.
const CALLER: u16 = 0x0345;

/// The address of records, unless an act sets another.
const BUFFER: u16 = 0x0300;

/// A memory, a desk, and the address of the return address of calls.
#[derive(Drop)]
pub struct System {
    memory: PlainMemory,
    desk: Desk,
    stack: u16,
}

impl System {
    /// Returns a memory of zeros, except the return address at 0FDFEH, and a new desk.
    pub fn new(alloc: Global) -> Result<System, AllocError> {
        let mut system = System {
            memory: PlainMemory::new(vec![in alloc; 0; 65_536]?),
            desk: Desk::new(alloc),
            stack: 0,
        };
        system.desk.set_buffer(BUFFER);
        system.set_stack(0xfdfe);
        Ok(system)
    }

    fn set_stack(&mut self, at: u16) {
        self.stack = at;
        self.put(at, &[(CALLER % 256) as u8, (CALLER / 256) as u8]);
    }

    fn put(&mut self, at: u16, bytes: &[u8]) {
        let mut address = at;
        for byte in bytes {
            self.memory.write(address, *byte);
            address = address.wrapping_add(1);
        }
    }

    fn put_all(&mut self, at: u16, count: u16, byte: u8) {
        for i in 0..count {
            self.memory.write(at.wrapping_add(i), byte);
        }
    }

    fn are(&mut self, at: u16, bytes: &[u8]) -> bool {
        let mut address = at;
        for byte in bytes {
            if self.memory.read(address) != *byte {
                return false;
            }
            address = address.wrapping_add(1);
        }
        true
    }

    fn are_all(&mut self, at: u16, count: u16, byte: u8) -> bool {
        for i in 0..count {
            if self.memory.read(at.wrapping_add(i)) != byte {
                return false;
            }
        }
        true
    }

    // Makes a call, and returns whether it ends like this, with the registers of the call or those after it.
    fn ends(
        &mut self,
        table: &mut Table<'_>,
        before: Regs,
        served: Served,
        after: Regs,
    ) -> Result<bool, AllocError> {
        let mut regs = before;
        let System { memory, desk, .. } = self;
        Ok(call(&mut regs, memory, table, desk, &[])? == served && regs == after)
    }
}

// Returns the registers before a call with a word in DE.
fn calling(stack: u16, number: u8, word: u16) -> Regs {
    Regs {
        a: 0x11,
        b: 0x22,
        c: number,
        d: (word / 256) as u8,
        e: (word % 256) as u8,
        h: 0x33,
        l: 0x44,
        sp: stack,
        pc: 0xfe06,
        flags: Flags {
            s: true,
            z: false,
            ac: true,
            p: false,
            cy: true,
        },
    }
}

// Returns the registers after a call that returns a value of one byte, which is in A and L.
fn returned(calling: Regs, value: u8) -> Regs {
    Regs {
        a: value,
        b: 0,
        h: 0,
        l: value,
        sp: calling.sp.wrapping_add(2),
        pc: CALLER,
        ..calling
    }
}

/// Returns whether memory, the desk and the calls are as expected.
pub fn execute(
    system: &mut System,
    table: &mut Table<'_>,
    act: Act<'_>,
) -> Result<bool, AllocError> {
    match act {
        Put(at, bytes) => system.put(at, bytes),
        PutAll(at, count, byte) => system.put_all(at, count, byte),
        Stack(at) => system.set_stack(at),
        Call(number, word, value) => {
            let before = calling(system.stack, number, word);
            return system.ends(table, before, Served::Went, returned(before, value));
        }
        Stops(number, word, cause) => {
            let before = calling(system.stack, number, word);
            return system.ends(table, before, Served::Stop(cause), before);
        }
        Are(at, bytes) => return Ok(system.are(at, bytes)),
        AreAll(at, count, byte) => return Ok(system.are_all(at, count, byte)),
        Selected(drive, buffer) => {
            return Ok(system.desk.drive() == drive && system.desk.buffer() == buffer);
        }
        Printed(text) => return Ok(system.desk.text() == text),
        _ => return Ok(false),
    }
    Ok(true)
}
