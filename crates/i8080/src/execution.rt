// Fetches and decodes the opcode at PC, and executes its instruction.

ghost use Rattle.std.specs.Prelude.{◌≡◌, ℕ, IsTrue, MatchOption, IfNone, IfSome};
ghost use Rattle.i8080.specs.Performs.{Performs};
ghost use Rattle.i8080.specs.Instruction.{instruction};
ghost use Rattle.i8080.specs.Attempts.{Tries};
ghost use Rattle.i8080.specs.Moves.{Moves};
ghost use Rattle.i8080.specs.declared.opcode.Op.TheVariants.{Hlt};

use crate::access::Access;
use crate::bus::{Bus, fetch};
use crate::decoder::decode;
use crate::instructions::{
    accumulate, accumulate_immediate, call, call_if, cma, cmc, daa, dad, dcr, dcx, input, inr, inx,
    jmp, jump_if, lda, ldax, lhld, lxi, mov, mov_to_memory, mvi, nop, output, pchl, pop, push, ret,
    ret_if, rotate, rst, shld, sphl, sta, stax, stc, xchg, xthl,
};
use crate::opcode::{Op, Source};
use crate::outcome::Did;
use crate::registers::Regs;
use std::alloc::AllocError;

/// Executes the instruction at PC. On `Halt`, `Undefined` and `Err`, the registers and the bytes of memory are unchanged.
///
/// # Errors
///
/// An allocation failed, which is only possible if the instruction writes a cell that was not ready.
#[tactic(auto, using(crate::proofs::ReadyLemmas::readiness, crate::proofs::AttemptLemmas::sure_performs), unfolding(crate::specs::Instruction::instruction))]
pub fn execute<B: Bus>(regs: &mut Regs, bus: &mut B) -> Result<Did, AllocError>
    ensures { Performs (instruction regs.old) regs.old (B.memory bus.old) (B.is_ready bus.old)
        result regs.new (B.memory bus.new) }
{
    let byte = fetch(bus, regs.pc);
    match decode(byte) {
        Some(op) => perform(regs, bus, op),
        None => Ok(Did::Undefined(byte)),
    }
}

// Executes an instruction whose opcode was read.
fn perform<M: Access>(regs: &mut Regs, bus: &mut M, op: Op) -> Result<Did, M::Refusal>
    requires { (q : ℕ) → IsTrue (M.is_readable bus.old q) }
    ensures { Tries M.is_sure op regs.old (M.memory bus.old) (M.is_ready bus.old)
        result regs.new (M.memory bus.new) }
{
    let pc = regs.pc;
    match go_on(regs, pc, bus, op) {
        Some(Ok(next)) => {
            regs.pc = next;
            Ok(Did::Went)
        }
        Some(Err(refusal)) => {
            // `go_on` may leave any PC in the registers.
            regs.pc = pc;
            Err(refusal)
        }
        None => Ok(Did::Halt),
    }
}

// Executes an instruction whose PC is given. Returns `None`, and changes nothing, for HLT.
fn go_on<M: Access>(
    regs: &mut Regs,
    pc: u16,
    bus: &mut M,
    op: Op,
) -> Option<Result<u16, M::Refusal>>
    requires { (q : ℕ) → IsTrue (M.is_readable bus.old q) }
    ensures moved { IfSome result (λ next. Moves M.is_sure op pc regs.old (M.memory bus.old)
        (M.is_ready bus.old) next regs.new (M.memory bus.new)) }
    ensures halted { IfNone result (op ≡ Hlt) }
    ensures regs { IfNone result (regs.new ≡ regs.old) }
    ensures memory { IfNone result (M.memory bus.new ≡ M.memory bus.old) }
{
    match op {
        Op::Nop | Op::Di | Op::Ei => Some(nop(regs, pc, bus)),
        Op::Mov(to, from) => Some(mov(regs, pc, bus, to, from)),
        Op::MovToMemory(from) => Some(mov_to_memory(regs, pc, bus, from)),
        Op::Mvi(to) => Some(mvi(regs, pc, bus, to)),
        Op::Lxi(to) => Some(lxi(regs, pc, bus, to)),
        Op::Lda => Some(lda(regs, pc, bus)),
        Op::Sta => Some(sta(regs, pc, bus)),
        Op::Lhld => Some(lhld(regs, pc, bus)),
        Op::Shld => Some(shld(regs, pc, bus)),
        Op::Ldax(base) => Some(ldax(regs, pc, bus, base)),
        Op::Stax(base) => Some(stax(regs, pc, bus, base)),
        Op::Xchg => Some(xchg(regs, pc, bus)),
        Op::Accumulate(function, Source::At(from)) => Some(accumulate(
            regs, pc, bus, function, from,
        )),
        Op::Accumulate(function, Source::Immediate) => Some(accumulate_immediate(
            regs, pc, bus, function,
        )),
        Op::Inr(at) => Some(inr(regs, pc, bus, at)),
        Op::Dcr(at) => Some(dcr(regs, pc, bus, at)),
        Op::Inx(at) => Some(inx(regs, pc, bus, at)),
        Op::Dcx(at) => Some(dcx(regs, pc, bus, at)),
        Op::Dad(from) => Some(dad(regs, pc, bus, from)),
        Op::Rotate(way) => Some(rotate(regs, pc, bus, way)),
        Op::Daa => Some(daa(regs, pc, bus)),
        Op::Cma => Some(cma(regs, pc, bus)),
        Op::Stc => Some(stc(regs, pc, bus)),
        Op::Cmc => Some(cmc(regs, pc, bus)),
        Op::Jmp => Some(jmp(regs, pc, bus)),
        Op::JumpIf(condition) => Some(jump_if(regs, pc, bus, condition)),
        Op::Call => Some(call(regs, pc, bus)),
        Op::CallIf(condition) => Some(call_if(regs, pc, bus, condition)),
        Op::Ret => Some(ret(regs, pc, bus)),
        Op::RetIf(condition) => Some(ret_if(regs, pc, bus, condition)),
        Op::Rst(restart) => Some(rst(regs, pc, bus, restart)),
        Op::Pchl => Some(pchl(regs, pc, bus)),
        Op::Push(what) => Some(push(regs, pc, bus, what)),
        Op::Pop(what) => Some(pop(regs, pc, bus, what)),
        Op::Xthl => Some(xthl(regs, pc, bus)),
        Op::Sphl => Some(sphl(regs, pc, bus)),
        Op::In => Some(input(regs, pc, bus)),
        Op::Out => Some(output(regs, pc, bus)),
        Op::Hlt => None,
    }
}
