// `i8080`: flags, registers, opcodes and instructions.

use i8080::{Bus, Did, Flags, Op, Regs, decode, execute};
use std::alloc::AllocError;

/// Calls each function of the processor once, over any memory.
pub fn processor<B: Bus>(regs: &mut Regs, bus: &mut B, value: u8) -> Result<(), AllocError> {
    let flags: Flags = Flags::from_byte(value);
    let _byte: u8 = flags.byte();
    let _op: Option<Op> = decode(value);
    bus.ready(0x0100)?;
    let _cell: u8 = bus.read(0x0100);
    bus.write(0x0100, value);
    let did: Did = execute(regs, bus)?;
    match did {
        Did::Went | Did::Halt | Did::Undefined(_) => {}
    }
    Ok(())
}
