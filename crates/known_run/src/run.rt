ghost use Rattle.std.specs.Prelude.{◌≡◌, ◌≤◌, true, false, Ok, IfNone, IfSome};
ghost use Rattle.i8080.specs.Attempts.{AreReadable, IsKept};
ghost use Rattle.i8080.specs.Opcodes.{decoded};
ghost use Rattle.i8080.specs.Operands.{byte_count};
ghost use Rattle.i8080.specs.Moves.{Moves, MovesByte, did_next, pc_after, with_pc};
ghost use Rattle.i8080.specs.declared.opcode.Arithmetic.TheVariants.{Add, Adc, Sub, Sbb, Ana, Xra, Ora, Cmp};
ghost use Rattle.i8080.specs.declared.opcode.Op.TheVariants.{Accumulate, Mov};
ghost use Rattle.i8080.specs.declared.opcode.Register.TheVariants.{B, C, D, E, H, L, A};
ghost use Rattle.i8080.specs.declared.opcode.Source.TheVariants.{At};
ghost use Rattle.known_run.specs.KnownRun.{RunsKnown};

use i8080::instructions::{
    accumulate, accumulate_immediate, call, call_if, cma, cmc, daa, dad, dcr, dcx, input, inr, inx,
    jmp, jump_if, lda, ldax, lhld, lxi, mov, mov_to_memory, mvi, nop, output, pchl, pop, push, ret,
    ret_if, rotate, rst, shld, sphl, sta, stax, stc, xchg, xthl,
};
use i8080::opcode::{Arithmetic, Base, Condition, Pair, Place, Register, Restart, Rotation, Saved};
use i8080::{Access, Did, Regs};

const IN_B: Place = Place::InRegister(Register::B);

const IN_C: Place = Place::InRegister(Register::C);

const IN_D: Place = Place::InRegister(Register::D);

const IN_E: Place = Place::InRegister(Register::E);

const IN_H: Place = Place::InRegister(Register::H);

const IN_L: Place = Place::InRegister(Register::L);

const IN_A: Place = Place::InRegister(Register::A);

const AT_HL: Place = Place::Memory;

// How many instructions were executed, and where the next one is: the loop has PC in a local variable, and `regs.pc` is out of date there.
#[derive(Drop)]
struct Ran {
    done: u64,
    pc: u16,
}

#[inline(always)]
fn add<M: Access>(regs: &mut Regs, pc: u16, bus: &mut M, from: Place) -> Result<u16, M::Refusal>
    ensures { Moves M.is_sure (Accumulate Add (At from)) pc regs.old (M.memory bus.old) (M.is_ready bus.old)
        result regs.new (M.memory bus.new) }
{
    accumulate(regs, pc, bus, Arithmetic::Add, from)
}

#[inline(always)]
fn adc<M: Access>(regs: &mut Regs, pc: u16, bus: &mut M, from: Place) -> Result<u16, M::Refusal>
    ensures { Moves M.is_sure (Accumulate Adc (At from)) pc regs.old (M.memory bus.old) (M.is_ready bus.old)
        result regs.new (M.memory bus.new) }
{
    accumulate(regs, pc, bus, Arithmetic::Adc, from)
}

#[inline(always)]
fn sub<M: Access>(regs: &mut Regs, pc: u16, bus: &mut M, from: Place) -> Result<u16, M::Refusal>
    ensures { Moves M.is_sure (Accumulate Sub (At from)) pc regs.old (M.memory bus.old) (M.is_ready bus.old)
        result regs.new (M.memory bus.new) }
{
    accumulate(regs, pc, bus, Arithmetic::Sub, from)
}

#[inline(always)]
fn sbb<M: Access>(regs: &mut Regs, pc: u16, bus: &mut M, from: Place) -> Result<u16, M::Refusal>
    ensures { Moves M.is_sure (Accumulate Sbb (At from)) pc regs.old (M.memory bus.old) (M.is_ready bus.old)
        result regs.new (M.memory bus.new) }
{
    accumulate(regs, pc, bus, Arithmetic::Sbb, from)
}

#[inline(always)]
fn ana<M: Access>(regs: &mut Regs, pc: u16, bus: &mut M, from: Place) -> Result<u16, M::Refusal>
    ensures { Moves M.is_sure (Accumulate Ana (At from)) pc regs.old (M.memory bus.old) (M.is_ready bus.old)
        result regs.new (M.memory bus.new) }
{
    accumulate(regs, pc, bus, Arithmetic::Ana, from)
}

#[inline(always)]
fn xra<M: Access>(regs: &mut Regs, pc: u16, bus: &mut M, from: Place) -> Result<u16, M::Refusal>
    ensures { Moves M.is_sure (Accumulate Xra (At from)) pc regs.old (M.memory bus.old) (M.is_ready bus.old)
        result regs.new (M.memory bus.new) }
{
    accumulate(regs, pc, bus, Arithmetic::Xra, from)
}

#[inline(always)]
fn ora<M: Access>(regs: &mut Regs, pc: u16, bus: &mut M, from: Place) -> Result<u16, M::Refusal>
    ensures { Moves M.is_sure (Accumulate Ora (At from)) pc regs.old (M.memory bus.old) (M.is_ready bus.old)
        result regs.new (M.memory bus.new) }
{
    accumulate(regs, pc, bus, Arithmetic::Ora, from)
}

#[inline(always)]
fn cmp<M: Access>(regs: &mut Regs, pc: u16, bus: &mut M, from: Place) -> Result<u16, M::Refusal>
    ensures { Moves M.is_sure (Accumulate Cmp (At from)) pc regs.old (M.memory bus.old) (M.is_ready bus.old)
        result regs.new (M.memory bus.new) }
{
    accumulate(regs, pc, bus, Arithmetic::Cmp, from)
}

// Executes the instruction of one of the opcodes that programs use least, which have a jump table of their own. Returns `None`,
// and changes nothing, for any other byte.
#[tactic(auto, using(crate::proofs::KnownRunLemmas::operand_readable), unfolding(i8080::specs::Opcodes::decoded))]
#[inline(always)]
fn rare<M: Access>(
    regs: &mut Regs,
    pc: u16,
    bus: &mut M,
    byte: u8,
) -> Option<Result<u16, M::Refusal>>
    requires { IsKept byte → AreReadable (M.is_readable bus.old) pc (byte_count (decoded byte)) }
    ensures executed { IfSome result (λ next. MovesByte M.is_sure byte pc
        regs.old (M.memory bus.old) (M.is_ready bus.old) next regs.new (M.memory bus.new)) }
    ensures regs { IfNone result (regs.new ≡ regs.old) }
    ensures memory { IfNone result (M.memory bus.new ≡ M.memory bus.old) }
{
    match byte {
        0x02 => Some(stax(regs, pc, bus, Base::InBc)),
        0x25 => Some(dcr(regs, pc, bus, IN_H)),
        0x2d => Some(dcr(regs, pc, bus, IN_L)),
        0x31 => Some(lxi(regs, pc, bus, Pair::Sp)),
        0x33 => Some(inx(regs, pc, bus, Pair::Sp)),
        0x39 => Some(dad(regs, pc, bus, Pair::Sp)),
        0x3b => Some(dcx(regs, pc, bus, Pair::Sp)),
        0x3f => Some(cmc(regs, pc, bus)),
        0x40 => Some(mov(regs, pc, bus, Register::B, IN_B)),
        0x45 => Some(mov(regs, pc, bus, Register::B, IN_L)),
        0x49 => Some(mov(regs, pc, bus, Register::C, IN_C)),
        0x52 => Some(mov(regs, pc, bus, Register::D, IN_D)),
        0x55 => Some(mov(regs, pc, bus, Register::D, IN_L)),
        0x5b => Some(mov(regs, pc, bus, Register::E, IN_E)),
        0x63 => Some(mov(regs, pc, bus, Register::H, IN_E)),
        0x64 => Some(mov(regs, pc, bus, Register::H, IN_H)),
        0x65 => Some(mov(regs, pc, bus, Register::H, IN_L)),
        0x6c => Some(mov(regs, pc, bus, Register::L, IN_H)),
        0x6d => Some(mov(regs, pc, bus, Register::L, IN_L)),
        0x74 => Some(mov_to_memory(regs, pc, bus, Register::H)),
        0x75 => Some(mov_to_memory(regs, pc, bus, Register::L)),
        0x7f => Some(mov(regs, pc, bus, Register::A, IN_A)),
        0x88 => Some(adc(regs, pc, bus, IN_B)),
        0x8a => Some(adc(regs, pc, bus, IN_D)),
        0x8b => Some(adc(regs, pc, bus, IN_E)),
        0x8c => Some(adc(regs, pc, bus, IN_H)),
        0x8d => Some(adc(regs, pc, bus, IN_L)),
        0x8e => Some(adc(regs, pc, bus, AT_HL)),
        0x90 => Some(sub(regs, pc, bus, IN_B)),
        0x91 => Some(sub(regs, pc, bus, IN_C)),
        0x92 => Some(sub(regs, pc, bus, IN_D)),
        0x94 => Some(sub(regs, pc, bus, IN_H)),
        0x95 => Some(sub(regs, pc, bus, IN_L)),
        0x98 => Some(sbb(regs, pc, bus, IN_B)),
        0x99 => Some(sbb(regs, pc, bus, IN_C)),
        0x9b => Some(sbb(regs, pc, bus, IN_E)),
        0x9c => Some(sbb(regs, pc, bus, IN_H)),
        0x9d => Some(sbb(regs, pc, bus, IN_L)),
        0x9e => Some(sbb(regs, pc, bus, AT_HL)),
        0x9f => Some(sbb(regs, pc, bus, IN_A)),
        0xa0 => Some(ana(regs, pc, bus, IN_B)),
        0xa1 => Some(ana(regs, pc, bus, IN_C)),
        0xa2 => Some(ana(regs, pc, bus, IN_D)),
        0xa3 => Some(ana(regs, pc, bus, IN_E)),
        0xa4 => Some(ana(regs, pc, bus, IN_H)),
        0xa5 => Some(ana(regs, pc, bus, IN_L)),
        0xa8 => Some(xra(regs, pc, bus, IN_B)),
        0xa9 => Some(xra(regs, pc, bus, IN_C)),
        0xaa => Some(xra(regs, pc, bus, IN_D)),
        0xab => Some(xra(regs, pc, bus, IN_E)),
        0xac => Some(xra(regs, pc, bus, IN_H)),
        0xad => Some(xra(regs, pc, bus, IN_L)),
        0xae => Some(xra(regs, pc, bus, AT_HL)),
        0xc7 => Some(rst(regs, pc, bus, Restart::Rst0)),
        0xcf => Some(rst(regs, pc, bus, Restart::Rst1)),
        0xd3 => Some(output(regs, pc, bus)),
        0xd4 => Some(call_if(regs, pc, bus, Condition::NoCarry)),
        0xd7 => Some(rst(regs, pc, bus, Restart::Rst2)),
        0xdb => Some(input(regs, pc, bus)),
        0xdc => Some(call_if(regs, pc, bus, Condition::Carry)),
        0xde => Some(accumulate_immediate(regs, pc, bus, Arithmetic::Sbb)),
        0xdf => Some(rst(regs, pc, bus, Restart::Rst3)),
        0xe0 => Some(ret_if(regs, pc, bus, Condition::ParityOdd)),
        0xe2 => Some(jump_if(regs, pc, bus, Condition::ParityOdd)),
        0xe4 => Some(call_if(regs, pc, bus, Condition::ParityOdd)),
        0xe7 => Some(rst(regs, pc, bus, Restart::Rst4)),
        0xe8 => Some(ret_if(regs, pc, bus, Condition::ParityEven)),
        0xea => Some(jump_if(regs, pc, bus, Condition::ParityEven)),
        0xec => Some(call_if(regs, pc, bus, Condition::ParityEven)),
        0xef => Some(rst(regs, pc, bus, Restart::Rst5)),
        0xf0 => Some(ret_if(regs, pc, bus, Condition::Plus)),
        0xf2 => Some(jump_if(regs, pc, bus, Condition::Plus)),
        0xf3 => Some(nop(regs, pc, bus)),
        0xf4 => Some(call_if(regs, pc, bus, Condition::Plus)),
        0xf7 => Some(rst(regs, pc, bus, Restart::Rst6)),
        0xf8 => Some(ret_if(regs, pc, bus, Condition::Minus)),
        0xf9 => Some(sphl(regs, pc, bus)),
        0xfa => Some(jump_if(regs, pc, bus, Condition::Minus)),
        0xfb => Some(nop(regs, pc, bus)),
        0xfc => Some(call_if(regs, pc, bus, Condition::Minus)),
        _ => None,
    }
}

// Executes at most `steps` instructions that programs use most, up to the first other one or the first that the memory refuses.
//
// The match has an arm for each byte, so that its jump table needs no test of the byte.
#[tactic(auto, using(crate::proofs::KnownRunLemmas::operand_readable), unfolding(i8080::specs::Opcodes::decoded))]
#[inline(always)]
fn run_common<M: Access>(regs: &mut Regs, pc: u16, bus: &mut M, steps: u64) -> Ran
    requires { M.is_sure ≡ false }
    ensures within { result.done ≤ steps }
    ensures ran { RunsKnown M.memory M.opcode_limit result.done (with_pc pc regs.old) bus.old
        (with_pc result.pc regs.new) bus.new }
{
    let mut pc = pc;
    let mut done = 0;
    while done < steps {
        let byte = bus.opcode(pc);
        let next = match byte {
            0x00 => nop(regs, pc, bus),
            0x01 => lxi(regs, pc, bus, Pair::Bc),
            0x02 => return Ran { done, pc },
            0x03 => inx(regs, pc, bus, Pair::Bc),
            0x04 => inr(regs, pc, bus, IN_B),
            0x05 => dcr(regs, pc, bus, IN_B),
            0x06 => mvi(regs, pc, bus, IN_B),
            0x07 => rotate(regs, pc, bus, Rotation::Rlc),
            0x08 => return Ran { done, pc },
            0x09 => dad(regs, pc, bus, Pair::Bc),
            0x0a => ldax(regs, pc, bus, Base::InBc),
            0x0b => dcx(regs, pc, bus, Pair::Bc),
            0x0c => inr(regs, pc, bus, IN_C),
            0x0d => dcr(regs, pc, bus, IN_C),
            0x0e => mvi(regs, pc, bus, IN_C),
            0x0f => rotate(regs, pc, bus, Rotation::Rrc),
            0x10 => return Ran { done, pc },
            0x11 => lxi(regs, pc, bus, Pair::De),
            0x12 => stax(regs, pc, bus, Base::InDe),
            0x13 => inx(regs, pc, bus, Pair::De),
            0x14 => inr(regs, pc, bus, IN_D),
            0x15 => dcr(regs, pc, bus, IN_D),
            0x16 => mvi(regs, pc, bus, IN_D),
            0x17 => rotate(regs, pc, bus, Rotation::Ral),
            0x18 => return Ran { done, pc },
            0x19 => dad(regs, pc, bus, Pair::De),
            0x1a => ldax(regs, pc, bus, Base::InDe),
            0x1b => dcx(regs, pc, bus, Pair::De),
            0x1c => inr(regs, pc, bus, IN_E),
            0x1d => dcr(regs, pc, bus, IN_E),
            0x1e => mvi(regs, pc, bus, IN_E),
            0x1f => rotate(regs, pc, bus, Rotation::Rar),
            0x20 => return Ran { done, pc },
            0x21 => lxi(regs, pc, bus, Pair::Hl),
            0x22 => shld(regs, pc, bus),
            0x23 => inx(regs, pc, bus, Pair::Hl),
            0x24 => inr(regs, pc, bus, IN_H),
            0x25 => return Ran { done, pc },
            0x26 => mvi(regs, pc, bus, IN_H),
            0x27 => daa(regs, pc, bus),
            0x28 => return Ran { done, pc },
            0x29 => dad(regs, pc, bus, Pair::Hl),
            0x2a => lhld(regs, pc, bus),
            0x2b => dcx(regs, pc, bus, Pair::Hl),
            0x2c => inr(regs, pc, bus, IN_L),
            0x2d => return Ran { done, pc },
            0x2e => mvi(regs, pc, bus, IN_L),
            0x2f => cma(regs, pc, bus),
            0x30 => return Ran { done, pc },
            0x31 => return Ran { done, pc },
            0x32 => sta(regs, pc, bus),
            0x33 => return Ran { done, pc },
            0x34 => inr(regs, pc, bus, AT_HL),
            0x35 => dcr(regs, pc, bus, AT_HL),
            0x36 => mvi(regs, pc, bus, AT_HL),
            0x37 => stc(regs, pc, bus),
            0x38 => return Ran { done, pc },
            0x39 => return Ran { done, pc },
            0x3a => lda(regs, pc, bus),
            0x3b => return Ran { done, pc },
            0x3c => inr(regs, pc, bus, IN_A),
            0x3d => dcr(regs, pc, bus, IN_A),
            0x3e => mvi(regs, pc, bus, IN_A),
            0x3f => return Ran { done, pc },
            0x40 => return Ran { done, pc },
            0x41 => mov(regs, pc, bus, Register::B, IN_C),
            0x42 => mov(regs, pc, bus, Register::B, IN_D),
            0x43 => mov(regs, pc, bus, Register::B, IN_E),
            0x44 => mov(regs, pc, bus, Register::B, IN_H),
            0x45 => return Ran { done, pc },
            0x46 => mov(regs, pc, bus, Register::B, AT_HL),
            0x47 => mov(regs, pc, bus, Register::B, IN_A),
            0x48 => mov(regs, pc, bus, Register::C, IN_B),
            0x49 => return Ran { done, pc },
            0x4a => mov(regs, pc, bus, Register::C, IN_D),
            0x4b => mov(regs, pc, bus, Register::C, IN_E),
            0x4c => mov(regs, pc, bus, Register::C, IN_H),
            0x4d => mov(regs, pc, bus, Register::C, IN_L),
            0x4e => mov(regs, pc, bus, Register::C, AT_HL),
            0x4f => mov(regs, pc, bus, Register::C, IN_A),
            0x50 => mov(regs, pc, bus, Register::D, IN_B),
            0x51 => mov(regs, pc, bus, Register::D, IN_C),
            0x52 => return Ran { done, pc },
            0x53 => mov(regs, pc, bus, Register::D, IN_E),
            0x54 => mov(regs, pc, bus, Register::D, IN_H),
            0x55 => return Ran { done, pc },
            0x56 => mov(regs, pc, bus, Register::D, AT_HL),
            0x57 => mov(regs, pc, bus, Register::D, IN_A),
            0x58 => mov(regs, pc, bus, Register::E, IN_B),
            0x59 => mov(regs, pc, bus, Register::E, IN_C),
            0x5a => mov(regs, pc, bus, Register::E, IN_D),
            0x5b => return Ran { done, pc },
            0x5c => mov(regs, pc, bus, Register::E, IN_H),
            0x5d => mov(regs, pc, bus, Register::E, IN_L),
            0x5e => mov(regs, pc, bus, Register::E, AT_HL),
            0x5f => mov(regs, pc, bus, Register::E, IN_A),
            0x60 => mov(regs, pc, bus, Register::H, IN_B),
            0x61 => mov(regs, pc, bus, Register::H, IN_C),
            0x62 => mov(regs, pc, bus, Register::H, IN_D),
            0x63 => return Ran { done, pc },
            0x64 => return Ran { done, pc },
            0x65 => return Ran { done, pc },
            0x66 => mov(regs, pc, bus, Register::H, AT_HL),
            0x67 => mov(regs, pc, bus, Register::H, IN_A),
            0x68 => mov(regs, pc, bus, Register::L, IN_B),
            0x69 => mov(regs, pc, bus, Register::L, IN_C),
            0x6a => mov(regs, pc, bus, Register::L, IN_D),
            0x6b => mov(regs, pc, bus, Register::L, IN_E),
            0x6c => return Ran { done, pc },
            0x6d => return Ran { done, pc },
            0x6e => mov(regs, pc, bus, Register::L, AT_HL),
            0x6f => mov(regs, pc, bus, Register::L, IN_A),
            0x70 => mov_to_memory(regs, pc, bus, Register::B),
            0x71 => mov_to_memory(regs, pc, bus, Register::C),
            0x72 => mov_to_memory(regs, pc, bus, Register::D),
            0x73 => mov_to_memory(regs, pc, bus, Register::E),
            0x74 => return Ran { done, pc },
            0x75 => return Ran { done, pc },
            0x76 => return Ran { done, pc },
            0x77 => mov_to_memory(regs, pc, bus, Register::A),
            0x78 => mov(regs, pc, bus, Register::A, IN_B),
            0x79 => mov(regs, pc, bus, Register::A, IN_C),
            0x7a => mov(regs, pc, bus, Register::A, IN_D),
            0x7b => mov(regs, pc, bus, Register::A, IN_E),
            0x7c => mov(regs, pc, bus, Register::A, IN_H),
            0x7d => mov(regs, pc, bus, Register::A, IN_L),
            0x7e => mov(regs, pc, bus, Register::A, AT_HL),
            0x7f => return Ran { done, pc },
            0x80 => add(regs, pc, bus, IN_B),
            0x81 => add(regs, pc, bus, IN_C),
            0x82 => add(regs, pc, bus, IN_D),
            0x83 => add(regs, pc, bus, IN_E),
            0x84 => add(regs, pc, bus, IN_H),
            0x85 => add(regs, pc, bus, IN_L),
            0x86 => add(regs, pc, bus, AT_HL),
            0x87 => add(regs, pc, bus, IN_A),
            0x88 => return Ran { done, pc },
            0x89 => adc(regs, pc, bus, IN_C),
            0x8a => return Ran { done, pc },
            0x8b => return Ran { done, pc },
            0x8c => return Ran { done, pc },
            0x8d => return Ran { done, pc },
            0x8e => return Ran { done, pc },
            0x8f => adc(regs, pc, bus, IN_A),
            0x90 => return Ran { done, pc },
            0x91 => return Ran { done, pc },
            0x92 => return Ran { done, pc },
            0x93 => sub(regs, pc, bus, IN_E),
            0x94 => return Ran { done, pc },
            0x95 => return Ran { done, pc },
            0x96 => sub(regs, pc, bus, AT_HL),
            0x97 => sub(regs, pc, bus, IN_A),
            0x98 => return Ran { done, pc },
            0x99 => return Ran { done, pc },
            0x9a => sbb(regs, pc, bus, IN_D),
            0x9b => return Ran { done, pc },
            0x9c => return Ran { done, pc },
            0x9d => return Ran { done, pc },
            0x9e => return Ran { done, pc },
            0x9f => return Ran { done, pc },
            0xa0 => return Ran { done, pc },
            0xa1 => return Ran { done, pc },
            0xa2 => return Ran { done, pc },
            0xa3 => return Ran { done, pc },
            0xa4 => return Ran { done, pc },
            0xa5 => return Ran { done, pc },
            0xa6 => ana(regs, pc, bus, AT_HL),
            0xa7 => ana(regs, pc, bus, IN_A),
            0xa8 => return Ran { done, pc },
            0xa9 => return Ran { done, pc },
            0xaa => return Ran { done, pc },
            0xab => return Ran { done, pc },
            0xac => return Ran { done, pc },
            0xad => return Ran { done, pc },
            0xae => return Ran { done, pc },
            0xaf => xra(regs, pc, bus, IN_A),
            0xb0 => ora(regs, pc, bus, IN_B),
            0xb1 => ora(regs, pc, bus, IN_C),
            0xb2 => ora(regs, pc, bus, IN_D),
            0xb3 => ora(regs, pc, bus, IN_E),
            0xb4 => ora(regs, pc, bus, IN_H),
            0xb5 => ora(regs, pc, bus, IN_L),
            0xb6 => ora(regs, pc, bus, AT_HL),
            0xb7 => ora(regs, pc, bus, IN_A),
            0xb8 => cmp(regs, pc, bus, IN_B),
            0xb9 => cmp(regs, pc, bus, IN_C),
            0xba => cmp(regs, pc, bus, IN_D),
            0xbb => cmp(regs, pc, bus, IN_E),
            0xbc => cmp(regs, pc, bus, IN_H),
            0xbd => cmp(regs, pc, bus, IN_L),
            0xbe => cmp(regs, pc, bus, AT_HL),
            0xbf => cmp(regs, pc, bus, IN_A),
            0xc0 => ret_if(regs, pc, bus, Condition::NotZero),
            0xc1 => pop(regs, pc, bus, Saved::BcPair),
            0xc2 => jump_if(regs, pc, bus, Condition::NotZero),
            0xc3 => jmp(regs, pc, bus),
            0xc4 => call_if(regs, pc, bus, Condition::NotZero),
            0xc5 => push(regs, pc, bus, Saved::BcPair),
            0xc6 => accumulate_immediate(regs, pc, bus, Arithmetic::Add),
            0xc7 => return Ran { done, pc },
            0xc8 => ret_if(regs, pc, bus, Condition::Zero),
            0xc9 => ret(regs, pc, bus),
            0xca => jump_if(regs, pc, bus, Condition::Zero),
            0xcb => return Ran { done, pc },
            0xcc => call_if(regs, pc, bus, Condition::Zero),
            0xcd => call(regs, pc, bus),
            0xce => accumulate_immediate(regs, pc, bus, Arithmetic::Adc),
            0xcf => return Ran { done, pc },
            0xd0 => ret_if(regs, pc, bus, Condition::NoCarry),
            0xd1 => pop(regs, pc, bus, Saved::DePair),
            0xd2 => jump_if(regs, pc, bus, Condition::NoCarry),
            0xd3 => return Ran { done, pc },
            0xd4 => return Ran { done, pc },
            0xd5 => push(regs, pc, bus, Saved::DePair),
            0xd6 => accumulate_immediate(regs, pc, bus, Arithmetic::Sub),
            0xd7 => return Ran { done, pc },
            0xd8 => ret_if(regs, pc, bus, Condition::Carry),
            0xd9 => return Ran { done, pc },
            0xda => jump_if(regs, pc, bus, Condition::Carry),
            0xdb => return Ran { done, pc },
            0xdc => return Ran { done, pc },
            0xdd => return Ran { done, pc },
            0xde => return Ran { done, pc },
            0xdf => return Ran { done, pc },
            0xe0 => return Ran { done, pc },
            0xe1 => pop(regs, pc, bus, Saved::HlPair),
            0xe2 => return Ran { done, pc },
            0xe3 => xthl(regs, pc, bus),
            0xe4 => return Ran { done, pc },
            0xe5 => push(regs, pc, bus, Saved::HlPair),
            0xe6 => accumulate_immediate(regs, pc, bus, Arithmetic::Ana),
            0xe7 => return Ran { done, pc },
            0xe8 => return Ran { done, pc },
            0xe9 => pchl(regs, pc, bus),
            0xea => return Ran { done, pc },
            0xeb => xchg(regs, pc, bus),
            0xec => return Ran { done, pc },
            0xed => return Ran { done, pc },
            0xee => accumulate_immediate(regs, pc, bus, Arithmetic::Xra),
            0xef => return Ran { done, pc },
            0xf0 => return Ran { done, pc },
            0xf1 => pop(regs, pc, bus, Saved::Psw),
            0xf2 => return Ran { done, pc },
            0xf3 => return Ran { done, pc },
            0xf4 => return Ran { done, pc },
            0xf5 => push(regs, pc, bus, Saved::Psw),
            0xf6 => accumulate_immediate(regs, pc, bus, Arithmetic::Ora),
            0xf7 => return Ran { done, pc },
            0xf8 => return Ran { done, pc },
            0xf9 => return Ran { done, pc },
            0xfa => return Ran { done, pc },
            0xfb => return Ran { done, pc },
            0xfc => return Ran { done, pc },
            0xfe => accumulate_immediate(regs, pc, bus, Arithmetic::Cmp),
            0xff => rst(regs, pc, bus, Restart::Rst7),
            // 0FDH, the only byte that is left.
            _ => return Ran { done, pc },
        };
        match next {
            Ok(to) => pc = to,
            Err(_) => return Ran { done, pc },
        }
        done += 1;
    }
    Ran { done, pc }
}

// Does the same for at most one of the other instructions.
#[inline(always)]
fn run_rare<M: Access>(regs: &mut Regs, pc: u16, bus: &mut M, steps: u64) -> Ran
    requires { M.is_sure ≡ false }
    ensures within { result.done ≤ steps }
    ensures ran { RunsKnown M.memory M.opcode_limit result.done (with_pc pc regs.old) bus.old
        (with_pc result.pc regs.new) bus.new }
{
    if steps == 0 {
        return Ran { done: 0, pc };
    }
    let byte = bus.opcode(pc);
    match rare(regs, pc, bus, byte) {
        Some(Ok(to)) => Ran { done: 1, pc: to },
        Some(Err(_)) | None => Ran { done: 0, pc },
    }
}

/// Executes at most `steps` instructions, up to the first whose opcode the memory does not keep, that it refuses, or that is an
/// undefined byte; the opcode of HLT is never kept. Returns the number of executed instructions. No clause says that it does not end
/// earlier, which would only cost time.
///
/// The loop contains the code of every instruction and calls nothing.
#[inline(always)]
pub fn run_known<M: Access>(regs: &mut Regs, bus: &mut M, steps: u64) -> u64
    requires { M.is_sure ≡ false }
    ensures within { result ≤ steps }
    ensures ran { RunsKnown M.memory M.opcode_limit result regs.old bus.old regs.new bus.new }
{
    let mut pc = regs.pc;
    let mut left = steps;
    let mut count = 1;
    while count > 0 {
        let common = run_common(regs, pc, bus, left);
        left -= common.done;
        let rare = run_rare(regs, common.pc, bus, left);
        (count, pc) = (rare.done, rare.pc);
        left -= count;
    }
    regs.pc = pc;
    steps - left
}
