// The instructions. Each is given PC apart from the other registers, and returns where the next instruction is: a loop over them keeps
// PC in a register of the processor, where `regs.pc` would go through memory in every step. Each reads first, then makes cells ready and
// writes them, and sets the registers last, so that the registers and the bytes of memory are unchanged if the memory refuses.

#![tactic(auto, using(crate::proofs::ReadyLemmas::readiness))]

ghost use Rattle.std.specs.Prelude.{◌≡◌, true, OnErr};
ghost use Rattle.i8080.specs.Reading.{Done};
ghost use Rattle.i8080.specs.Performs.{KeepsReady, WritesUnready};
ghost use Rattle.i8080.specs.Attempts.{AreReadable, Attempts, MayRead, MayWrite};
ghost use Rattle.i8080.specs.Moves.{Moves};
ghost use Rattle.i8080.specs.Instruction.{from_place, to_place, base_of, one_byte, pushing};
ghost use Rattle.i8080.specs.declared.opcode.Source.TheVariants.{At, Immediate};
ghost use Rattle.i8080.specs.declared.opcode.Op.TheVariants.{Nop, Mov, MovToMemory, Mvi, Lxi, Lda, Sta, Lhld, Shld, Ldax, Stax, Xchg, Accumulate, Inr, Dcr, Inx, Dcx, Dad, Rotate, Daa, Cma, Stc, Cmc, Jmp, JumpIf, Call, CallIf, Ret, RetIf, Rst, Pchl, Push, Pop, Xthl, Sphl, In, Out};

use crate::access::{Access, read_byte};
use crate::flags::Flags;
use crate::opcode::{Arithmetic, Base, Condition, Pair, Place, Register, Restart, Rotation, Saved};
use crate::outcome::Did;
use crate::registers::{Regs, word_of};

// Whether a part of an instruction was done, or why the memory refused.
type Part<M> = Result<Did, <M as Access>::Refusal>;

// Where the next instruction is, or why the memory refused.
type Next<M> = Result<u16, <M as Access>::Refusal>;

// Reads a register, or the cell at HL.
#[inline(always)]
fn operand<M: Access>(regs: &Regs, bus: &mut M, place: Place) -> Result<u8, M::Refusal>
    ensures reads { MayRead M.is_sure (from_place place regs.now Done)
        (M.memory bus.old) result (M.memory bus.new) }
    ensures kept { KeepsReady (M.is_ready bus.old) (M.is_ready bus.new) }
{
    match place {
        Place::InRegister(register) => Ok(regs.get(register)),
        Place::Memory => read_byte(bus, regs.pair(Pair::Hl)),
    }
}

// Writes a byte, after making its cell ready.
#[tactic(auto, using(crate::proofs::ReadyLemmas::first_unready))]
#[inline(always)]
fn store<M: Access>(bus: &mut M, a: u16, value: u8) -> Result<(), M::Refusal>
    ensures writes { MayWrite (one_byte a value) (M.memory bus.old) result (M.memory bus.new) }
    ensures unready { OnErr result (M.is_sure ≡ true
        → WritesUnready (M.is_ready bus.old) (one_byte a value)) }
{
    bus.make_ready(a)?;
    bus.put(a, value);
    Ok(())
}

// Sets a register, or writes the cell at HL.
#[inline(always)]
fn set_place<M: Access>(regs: &mut Regs, bus: &mut M, place: Place, value: u8) -> Part<M>
    ensures { Attempts M.is_sure (to_place place value regs.old)
        regs.old (M.memory bus.old) (M.is_ready bus.old) result regs.new (M.memory bus.new) }
{
    match place {
        Place::InRegister(register) => regs.set(register, value),
        Place::Memory => store(bus, regs.pair(Pair::Hl), value)?,
    }
    Ok(Did::Went)
}

// Pushes a word.
#[inline(always)]
fn push_word<M: Access>(regs: &mut Regs, bus: &mut M, value: u16) -> Part<M>
    ensures { Attempts M.is_sure (pushing value regs.old)
        regs.old (M.memory bus.old) (M.is_ready bus.old) result regs.new (M.memory bus.new) }
{
    let top = regs.sp.wrapping_sub(2);
    bus.store_word(top, value)?;
    regs.sp = top;
    Ok(Did::Went)
}

// Returns the address for LDAX or STAX.
#[inline(always)]
fn base_of(regs: &Regs, base: Base) -> u16
    ensures { result ≡ base_of base regs.now }
{
    match base {
        Base::InBc => regs.pair(Pair::Bc),
        Base::InDe => regs.pair(Pair::De),
    }
}

// Executes NOP, DI or EI; DI and EI do nothing here.
#[inline(always)]
pub fn nop<M: Access>(regs: &mut Regs, pc: u16, _bus: &mut M) -> Next<M>
    ensures { Moves M.is_sure Nop pc regs.old (M.memory _bus.old) (M.is_ready _bus.old)
        result regs.new (M.memory _bus.new) }
{
    Ok(pc.wrapping_add(1))
}

#[inline(always)]
pub fn mov<M: Access>(regs: &mut Regs, pc: u16, bus: &mut M, to: Register, from: Place) -> Next<M>
    ensures { Moves M.is_sure (Mov to from) pc regs.old (M.memory bus.old) (M.is_ready bus.old)
        result regs.new (M.memory bus.new) }
{
    let value = operand(regs, bus, from)?;
    regs.set(to, value);
    Ok(pc.wrapping_add(1))
}

#[inline(always)]
pub fn mov_to_memory<M: Access>(regs: &mut Regs, pc: u16, bus: &mut M, from: Register) -> Next<M>
    ensures { Moves M.is_sure (MovToMemory from) pc regs.old (M.memory bus.old) (M.is_ready bus.old)
        result regs.new (M.memory bus.new) }
{
    store(bus, regs.pair(Pair::Hl), regs.get(from))?;
    Ok(pc.wrapping_add(1))
}

#[inline(always)]
pub fn mvi<M: Access>(regs: &mut Regs, pc: u16, bus: &mut M, to: Place) -> Next<M>
    requires { AreReadable (M.is_readable bus.old) pc 2 }
    ensures { Moves M.is_sure (Mvi to) pc regs.old (M.memory bus.old) (M.is_ready bus.old)
        result regs.new (M.memory bus.new) }
{
    let value = bus.operand(pc);
    set_place(regs, bus, to, value)?;
    Ok(pc.wrapping_add(2))
}

#[inline(always)]
pub fn lxi<M: Access>(regs: &mut Regs, pc: u16, bus: &mut M, to: Pair) -> Next<M>
    requires { AreReadable (M.is_readable bus.old) pc 3 }
    ensures { Moves M.is_sure (Lxi to) pc regs.old (M.memory bus.old) (M.is_ready bus.old)
        result regs.new (M.memory bus.new) }
{
    let value = bus.operand_word(pc);
    regs.set_pair(to, value);
    Ok(pc.wrapping_add(3))
}

#[inline(always)]
pub fn lda<M: Access>(regs: &mut Regs, pc: u16, bus: &mut M) -> Next<M>
    requires { AreReadable (M.is_readable bus.old) pc 3 }
    ensures { Moves M.is_sure Lda pc regs.old (M.memory bus.old) (M.is_ready bus.old)
        result regs.new (M.memory bus.new) }
{
    let from = bus.operand_word(pc);
    regs.a = read_byte(bus, from)?;
    Ok(pc.wrapping_add(3))
}

#[inline(always)]
pub fn sta<M: Access>(regs: &mut Regs, pc: u16, bus: &mut M) -> Next<M>
    requires { AreReadable (M.is_readable bus.old) pc 3 }
    ensures { Moves M.is_sure Sta pc regs.old (M.memory bus.old) (M.is_ready bus.old)
        result regs.new (M.memory bus.new) }
{
    let to = bus.operand_word(pc);
    store(bus, to, regs.a)?;
    Ok(pc.wrapping_add(3))
}

#[inline(always)]
pub fn lhld<M: Access>(regs: &mut Regs, pc: u16, bus: &mut M) -> Next<M>
    requires { AreReadable (M.is_readable bus.old) pc 3 }
    ensures { Moves M.is_sure Lhld pc regs.old (M.memory bus.old) (M.is_ready bus.old)
        result regs.new (M.memory bus.new) }
{
    let from = bus.operand_word(pc);
    let value = bus.try_word(from)?;
    regs.set_pair(Pair::Hl, value);
    Ok(pc.wrapping_add(3))
}

#[inline(always)]
pub fn shld<M: Access>(regs: &mut Regs, pc: u16, bus: &mut M) -> Next<M>
    requires { AreReadable (M.is_readable bus.old) pc 3 }
    ensures { Moves M.is_sure Shld pc regs.old (M.memory bus.old) (M.is_ready bus.old)
        result regs.new (M.memory bus.new) }
{
    let to = bus.operand_word(pc);
    bus.store_word(to, regs.pair(Pair::Hl))?;
    Ok(pc.wrapping_add(3))
}

#[inline(always)]
pub fn ldax<M: Access>(regs: &mut Regs, pc: u16, bus: &mut M, base: Base) -> Next<M>
    ensures { Moves M.is_sure (Ldax base) pc regs.old (M.memory bus.old) (M.is_ready bus.old)
        result regs.new (M.memory bus.new) }
{
    regs.a = read_byte(bus, base_of(regs, base))?;
    Ok(pc.wrapping_add(1))
}

#[inline(always)]
pub fn stax<M: Access>(regs: &mut Regs, pc: u16, bus: &mut M, base: Base) -> Next<M>
    ensures { Moves M.is_sure (Stax base) pc regs.old (M.memory bus.old) (M.is_ready bus.old)
        result regs.new (M.memory bus.new) }
{
    store(bus, base_of(regs, base), regs.a)?;
    Ok(pc.wrapping_add(1))
}

#[inline(always)]
pub fn xchg<M: Access>(regs: &mut Regs, pc: u16, _bus: &mut M) -> Next<M>
    ensures { Moves M.is_sure Xchg pc regs.old (M.memory _bus.old) (M.is_ready _bus.old)
        result regs.new (M.memory _bus.new) }
{
    let (hl, de) = (regs.pair(Pair::Hl), regs.pair(Pair::De));
    regs.set_pair(Pair::Hl, de);
    regs.set_pair(Pair::De, hl);
    Ok(pc.wrapping_add(1))
}

#[inline(always)]
pub fn accumulate<M: Access>(
    regs: &mut Regs,
    pc: u16,
    bus: &mut M,
    function: Arithmetic,
    from: Place,
) -> Next<M>
    ensures { Moves M.is_sure (Accumulate function (At from)) pc
        regs.old (M.memory bus.old) (M.is_ready bus.old) result regs.new (M.memory bus.new) }
{
    let value = operand(regs, bus, from)?;
    regs.accumulate(function, value);
    Ok(pc.wrapping_add(1))
}

#[inline(always)]
pub fn accumulate_immediate<M: Access>(
    regs: &mut Regs,
    pc: u16,
    bus: &mut M,
    function: Arithmetic,
) -> Next<M>
    requires { AreReadable (M.is_readable bus.old) pc 2 }
    ensures { Moves M.is_sure (Accumulate function Immediate) pc
        regs.old (M.memory bus.old) (M.is_ready bus.old) result regs.new (M.memory bus.new) }
{
    let value = bus.operand(pc);
    regs.accumulate(function, value);
    Ok(pc.wrapping_add(2))
}

#[inline(always)]
pub fn inr<M: Access>(regs: &mut Regs, pc: u16, bus: &mut M, at: Place) -> Next<M>
    ensures { Moves M.is_sure (Inr at) pc regs.old (M.memory bus.old) (M.is_ready bus.old)
        result regs.new (M.memory bus.new) }
{
    let value = operand(regs, bus, at)?;
    let more = value.wrapping_add(1);
    set_place(regs, bus, at, more)?;
    regs.flags = Flags::after(more, value % 16 == 15, regs.flags.cy);
    Ok(pc.wrapping_add(1))
}

#[inline(always)]
pub fn dcr<M: Access>(regs: &mut Regs, pc: u16, bus: &mut M, at: Place) -> Next<M>
    ensures { Moves M.is_sure (Dcr at) pc regs.old (M.memory bus.old) (M.is_ready bus.old)
        result regs.new (M.memory bus.new) }
{
    let value = operand(regs, bus, at)?;
    let less = value.wrapping_sub(1);
    set_place(regs, bus, at, less)?;
    regs.flags = Flags::after(less, value % 16 != 0, regs.flags.cy);
    Ok(pc.wrapping_add(1))
}

#[inline(always)]
pub fn inx<M: Access>(regs: &mut Regs, pc: u16, _bus: &mut M, at: Pair) -> Next<M>
    ensures { Moves M.is_sure (Inx at) pc regs.old (M.memory _bus.old) (M.is_ready _bus.old)
        result regs.new (M.memory _bus.new) }
{
    let value = regs.pair(at).wrapping_add(1);
    regs.set_pair(at, value);
    Ok(pc.wrapping_add(1))
}

#[inline(always)]
pub fn dcx<M: Access>(regs: &mut Regs, pc: u16, _bus: &mut M, at: Pair) -> Next<M>
    ensures { Moves M.is_sure (Dcx at) pc regs.old (M.memory _bus.old) (M.is_ready _bus.old)
        result regs.new (M.memory _bus.new) }
{
    let value = regs.pair(at).wrapping_sub(1);
    regs.set_pair(at, value);
    Ok(pc.wrapping_add(1))
}

#[inline(always)]
pub fn dad<M: Access>(regs: &mut Regs, pc: u16, _bus: &mut M, from: Pair) -> Next<M>
    ensures { Moves M.is_sure (Dad from) pc regs.old (M.memory _bus.old) (M.is_ready _bus.old)
        result regs.new (M.memory _bus.new) }
{
    let whole = u32::from(regs.pair(Pair::Hl)) + u32::from(regs.pair(from));
    regs.flags.cy = whole >= 65536;
    regs.set_pair(Pair::Hl, (whole % 65536) as u16);
    Ok(pc.wrapping_add(1))
}

#[inline(always)]
pub fn rotate<M: Access>(regs: &mut Regs, pc: u16, _bus: &mut M, way: Rotation) -> Next<M>
    ensures { Moves M.is_sure (Rotate way) pc regs.old (M.memory _bus.old) (M.is_ready _bus.old)
        result regs.new (M.memory _bus.new) }
{
    let a = regs.a;
    let doubled = (u16::from(a) * 2 % 256) as u8;
    let carry = u8::from(regs.flags.cy);
    (regs.a, regs.flags.cy) = match way {
        Rotation::Rlc => (doubled + a / 128, a / 128 == 1),
        Rotation::Rrc => (a / 2 + 128 * (a % 2), a % 2 == 1),
        Rotation::Ral => (doubled + carry, a / 128 == 1),
        Rotation::Rar => (a / 2 + 128 * carry, a % 2 == 1),
    };
    Ok(pc.wrapping_add(1))
}

#[inline(always)]
pub fn daa<M: Access>(regs: &mut Regs, pc: u16, _bus: &mut M) -> Next<M>
    ensures { Moves M.is_sure Daa pc regs.old (M.memory _bus.old) (M.is_ready _bus.old)
        result regs.new (M.memory _bus.new) }
{
    let six = if regs.a % 16 > 9 || regs.flags.ac {
        6
    } else {
        0
    };
    let sum = u16::from(regs.a) + u16::from(six);
    let cy = regs.flags.cy || sum >= 160;
    let ac = regs.a % 16 + six >= 16;
    regs.a = ((sum + 96 * u16::from(cy)) % 256) as u8;
    regs.flags = Flags::after(regs.a, ac, cy);
    Ok(pc.wrapping_add(1))
}

#[inline(always)]
pub fn cma<M: Access>(regs: &mut Regs, pc: u16, _bus: &mut M) -> Next<M>
    ensures { Moves M.is_sure Cma pc regs.old (M.memory _bus.old) (M.is_ready _bus.old)
        result regs.new (M.memory _bus.new) }
{
    regs.a = 255 - regs.a;
    Ok(pc.wrapping_add(1))
}

#[inline(always)]
pub fn stc<M: Access>(regs: &mut Regs, pc: u16, _bus: &mut M) -> Next<M>
    ensures { Moves M.is_sure Stc pc regs.old (M.memory _bus.old) (M.is_ready _bus.old)
        result regs.new (M.memory _bus.new) }
{
    regs.flags.cy = true;
    Ok(pc.wrapping_add(1))
}

#[inline(always)]
pub fn cmc<M: Access>(regs: &mut Regs, pc: u16, _bus: &mut M) -> Next<M>
    ensures { Moves M.is_sure Cmc pc regs.old (M.memory _bus.old) (M.is_ready _bus.old)
        result regs.new (M.memory _bus.new) }
{
    regs.flags.cy = !regs.flags.cy;
    Ok(pc.wrapping_add(1))
}

#[inline(always)]
pub fn jmp<M: Access>(regs: &mut Regs, pc: u16, bus: &mut M) -> Next<M>
    requires { AreReadable (M.is_readable bus.old) pc 3 }
    ensures { Moves M.is_sure Jmp pc regs.old (M.memory bus.old) (M.is_ready bus.old)
        result regs.new (M.memory bus.new) }
{
    Ok(bus.operand_word(pc))
}

#[inline(always)]
pub fn jump_if<M: Access>(regs: &mut Regs, pc: u16, bus: &mut M, condition: Condition) -> Next<M>
    requires { AreReadable (M.is_readable bus.old) pc 3 }
    ensures { Moves M.is_sure (JumpIf condition) pc regs.old (M.memory bus.old) (M.is_ready bus.old)
        result regs.new (M.memory bus.new) }
{
    let to = bus.operand_word(pc);
    if !condition.is_met(regs.flags) {
        return Ok(pc.wrapping_add(3));
    }
    Ok(to)
}

#[inline(always)]
pub fn call<M: Access>(regs: &mut Regs, pc: u16, bus: &mut M) -> Next<M>
    requires { AreReadable (M.is_readable bus.old) pc 3 }
    ensures { Moves M.is_sure Call pc regs.old (M.memory bus.old) (M.is_ready bus.old)
        result regs.new (M.memory bus.new) }
{
    let to = bus.operand_word(pc);
    push_word(regs, bus, pc.wrapping_add(3))?;
    Ok(to)
}

#[inline(always)]
pub fn call_if<M: Access>(regs: &mut Regs, pc: u16, bus: &mut M, condition: Condition) -> Next<M>
    requires { AreReadable (M.is_readable bus.old) pc 3 }
    ensures { Moves M.is_sure (CallIf condition) pc regs.old (M.memory bus.old) (M.is_ready bus.old)
        result regs.new (M.memory bus.new) }
{
    let to = bus.operand_word(pc);
    if !condition.is_met(regs.flags) {
        return Ok(pc.wrapping_add(3)); // not called
    }
    push_word(regs, bus, pc.wrapping_add(3))?;
    Ok(to)
}

#[inline(always)]
pub fn ret<M: Access>(regs: &mut Regs, pc: u16, bus: &mut M) -> Next<M>
    ensures { Moves M.is_sure Ret pc regs.old (M.memory bus.old) (M.is_ready bus.old)
        result regs.new (M.memory bus.new) }
{
    let to = bus.try_word(regs.sp)?;
    regs.sp = regs.sp.wrapping_add(2);
    Ok(to)
}

#[inline(always)]
pub fn ret_if<M: Access>(regs: &mut Regs, pc: u16, bus: &mut M, condition: Condition) -> Next<M>
    ensures { Moves M.is_sure (RetIf condition) pc regs.old (M.memory bus.old) (M.is_ready bus.old)
        result regs.new (M.memory bus.new) }
{
    if condition.is_met(regs.flags) {
        return ret(regs, pc, bus);
    }
    Ok(pc.wrapping_add(1))
}

#[inline(always)]
pub fn rst<M: Access>(regs: &mut Regs, pc: u16, bus: &mut M, restart: Restart) -> Next<M>
    ensures { Moves M.is_sure (Rst restart) pc regs.old (M.memory bus.old) (M.is_ready bus.old)
        result regs.new (M.memory bus.new) }
{
    push_word(regs, bus, pc.wrapping_add(1))?;
    Ok(8 * u16::from(restart as u8))
}

#[inline(always)]
pub fn pchl<M: Access>(regs: &mut Regs, pc: u16, _bus: &mut M) -> Next<M>
    ensures { Moves M.is_sure Pchl pc regs.old (M.memory _bus.old) (M.is_ready _bus.old)
        result regs.new (M.memory _bus.new) }
{
    Ok(regs.pair(Pair::Hl))
}

#[inline(always)]
pub fn push<M: Access>(regs: &mut Regs, pc: u16, bus: &mut M, what: Saved) -> Next<M>
    ensures { Moves M.is_sure (Push what) pc regs.old (M.memory bus.old) (M.is_ready bus.old)
        result regs.new (M.memory bus.new) }
{
    let value = match what {
        Saved::BcPair => regs.pair(Pair::Bc),
        Saved::DePair => regs.pair(Pair::De),
        Saved::HlPair => regs.pair(Pair::Hl),
        Saved::Psw => word_of(regs.flags.byte(), regs.a),
    };
    push_word(regs, bus, value)?;
    Ok(pc.wrapping_add(1))
}

#[inline(always)]
pub fn pop<M: Access>(regs: &mut Regs, pc: u16, bus: &mut M, what: Saved) -> Next<M>
    ensures { Moves M.is_sure (Pop what) pc regs.old (M.memory bus.old) (M.is_ready bus.old)
        result regs.new (M.memory bus.new) }
{
    let value = bus.try_word(regs.sp)?;
    match what {
        Saved::BcPair => regs.set_pair(Pair::Bc, value),
        Saved::DePair => regs.set_pair(Pair::De, value),
        Saved::HlPair => regs.set_pair(Pair::Hl, value),
        Saved::Psw => {
            regs.a = (value / 256) as u8;
            regs.flags = Flags::from_byte((value % 256) as u8);
        }
    }
    regs.sp = regs.sp.wrapping_add(2);
    Ok(pc.wrapping_add(1))
}

#[inline(always)]
pub fn xthl<M: Access>(regs: &mut Regs, pc: u16, bus: &mut M) -> Next<M>
    ensures { Moves M.is_sure Xthl pc regs.old (M.memory bus.old) (M.is_ready bus.old)
        result regs.new (M.memory bus.new) }
{
    let value = bus.try_word(regs.sp)?;
    bus.store_word(regs.sp, regs.pair(Pair::Hl))?;
    regs.set_pair(Pair::Hl, value);
    Ok(pc.wrapping_add(1))
}

#[inline(always)]
pub fn sphl<M: Access>(regs: &mut Regs, pc: u16, _bus: &mut M) -> Next<M>
    ensures { Moves M.is_sure Sphl pc regs.old (M.memory _bus.old) (M.is_ready _bus.old)
        result regs.new (M.memory _bus.new) }
{
    regs.sp = regs.pair(Pair::Hl);
    Ok(pc.wrapping_add(1))
}

#[inline(always)]
pub fn input<M: Access>(regs: &mut Regs, pc: u16, bus: &mut M) -> Next<M>
    requires { AreReadable (M.is_readable bus.old) pc 2 }
    ensures { Moves M.is_sure In pc regs.old (M.memory bus.old) (M.is_ready bus.old)
        result regs.new (M.memory bus.new) }
{
    bus.operand(pc);
    regs.a = 255;
    Ok(pc.wrapping_add(2))
}

#[inline(always)]
pub fn output<M: Access>(regs: &mut Regs, pc: u16, bus: &mut M) -> Next<M>
    requires { AreReadable (M.is_readable bus.old) pc 2 }
    ensures { Moves M.is_sure Out pc regs.old (M.memory bus.old) (M.is_ready bus.old)
        result regs.new (M.memory bus.new) }
{
    bus.operand(pc);
    Ok(pc.wrapping_add(2))
}
