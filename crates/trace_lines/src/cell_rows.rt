// The cells that an instruction reads and writes.

ghost use Rattle.std.specs.Prelude.{◌≡◌, ◌≤◌, ◌++◌, ℕ, map, true};
ghost use Rattle.i8080.specs.Instruction.{base_of, operation};
ghost use Rattle.i8080.specs.Operands.{operand_count};
ghost use Rattle.i8080.specs.Performs.{writes_of};
ghost use Rattle.i8080.specs.Reading.{asked, end_of};
ghost use Rattle.i8080.specs.Registers.{onward};
ghost use Rattle.machine.specs.Runs.{state_of};
ghost use Rattle.accesses.specs.Accesses.{read_cells, written_cells};
ghost use Rattle.trace_lines.specs.Rows.{operand_in, operation_at, row};
ghost use Rattle.trace_lines.specs.StepLines.{cell_in};
ghost use Rattle.machine.specs.Step.{is_instruction};

use i8080::opcode::{Base, Op, Pair, Place, Source};
use i8080::{Regs, byte_count, decode, word_of};
use machine::Run;

/// Cells in a row: at most three, from an address on. The cell after 0FFFFH is 0000H.
#[derive(Clone, Copy, Debug, PartialEq, Eq)]
pub struct CellRow {
    pub at: u16,
    pub count: u16,
    ghost short: { count ≤ 3 },
}

impl CellRow {
    // Makes a row.
    fn new(at: u16, count: u16) -> CellRow
        requires { count ≤ 3 }
        ensures at { result.at ≡ at }
        ensures count { result.count ≡ count }
    {
        CellRow { at, count }
    }
}

// Returns the address for LDAX and STAX.
fn base_of(base: Base, regs: &Regs) -> u16
    ensures { result ≡ base_of base regs.now }
{
    match base {
        Base::InBc => regs.pair(Pair::Bc),
        Base::InDe => regs.pair(Pair::De),
    }
}

// Returns the operation of the instruction at the PC of a run. An undefined byte is taken for NOP, which reads and writes no other cell either.
fn operation_at(run: &Run<'_>) -> Op
    ensures { result ≡ operation_at (state_of run.now) }
{
    decode(run.byte(run.regs().pc)).unwrap_or(Op::Nop)
}

// Returns the word after the opcode at the PC of a run.
fn operand_at(run: &Run<'_>) -> u16
    ensures { let w = state_of run.now in result ≡ operand_in (cell_in w) w.core.regs }
{
    let next = run.regs().pc.wrapping_add(1);
    word_of(run.byte(next), run.byte(next.wrapping_add(1)))
}

// Returns the cells that an instruction with this operand writes.
fn written_by(op: Op, regs: &Regs, operand: u16) -> CellRow
    ensures cells { (byte : ℕ → ℕ) → operand ≡ operand_in byte regs.now
        → map (λ c. c.0) (writes_of (end_of (operation op regs.now) byte)) ≡ row result.at result.count }
    ensures pair { result.count ≤ 2 }
{
    let below = regs.sp.wrapping_sub(2);
    match op {
        Op::MovToMemory(_)
        | Op::Mvi(Place::Memory)
        | Op::Inr(Place::Memory)
        | Op::Dcr(Place::Memory) => CellRow::new(regs.pair(Pair::Hl), 1),
        Op::Stax(base) => CellRow::new(base_of(base, regs), 1),
        Op::Sta => CellRow::new(operand, 1),
        Op::Shld => CellRow::new(operand, 2),
        Op::Xthl => CellRow::new(regs.sp, 2),
        Op::Call | Op::Rst(_) | Op::Push(_) => CellRow::new(below, 2),
        Op::CallIf(condition) if condition.is_met(regs.flags) => CellRow::new(below, 2),
        _ => CellRow::new(0, 0),
    }
}

/// Returns the cells that the instruction at the PC of a run writes: at most two.
pub fn written_row(run: &Run<'_>) -> CellRow
    ensures cells { let w = state_of run.now in is_instruction w.core ≡ true
        → written_cells run.now.session w ≡ row result.at result.count }
    ensures pair { result.count ≤ 2 }
{
    written_by(operation_at(run), &run.regs(), operand_at(run))
}

// Returns the cells that an instruction with this operand reads besides its own bytes.
fn read_by(op: Op, regs: &Regs, operand: u16) -> CellRow
    ensures { (byte : ℕ → ℕ) → operand ≡ operand_in byte regs.now
        → asked (operation op regs.now) byte
        ≡ row (onward regs.now.pc 1) (operand_count op) ++ row result.at result.count }
{
    match op {
        Op::Mov(_, Place::Memory)
        | Op::Accumulate(_, Source::At(Place::Memory))
        | Op::Inr(Place::Memory)
        | Op::Dcr(Place::Memory) => CellRow::new(regs.pair(Pair::Hl), 1),
        Op::Ldax(base) => CellRow::new(base_of(base, regs), 1),
        Op::Lda => CellRow::new(operand, 1),
        Op::Lhld => CellRow::new(operand, 2),
        Op::Ret | Op::Pop(_) | Op::Xthl => CellRow::new(regs.sp, 2),
        Op::RetIf(condition) if condition.is_met(regs.flags) => CellRow::new(regs.sp, 2),
        _ => CellRow::new(0, 0),
    }
}

/// Returns the cells that the instruction at the PC of a run reads: its own bytes, and others.
pub fn read_rows(run: &Run<'_>) -> (CellRow, CellRow)
    ensures { let w = state_of run.now in is_instruction w.core ≡ true → read_cells run.now.session w
        ≡ row result.0.at result.0.count ++ row result.1.at result.1.count }
{
    let regs = run.regs();
    let own = CellRow::new(regs.pc, byte_count(run.byte(regs.pc)) as u16);
    (own, read_by(operation_at(run), &regs, operand_at(run)))
}
