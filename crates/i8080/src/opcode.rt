/// A register of 8 bits.
#[derive(Clone, Copy, Debug, PartialEq, Eq)]
pub enum Register {
    B,
    C,
    D,
    E,
    H,
    L,
    A,
}

/// A register, or the memory cell at HL.
#[derive(Clone, Copy, Debug, PartialEq, Eq)]
pub enum Place {
    InRegister(Register),
    Memory,
}

/// A register pair, or the stack pointer.
#[derive(Clone, Copy, Debug, PartialEq, Eq)]
pub enum Pair {
    Bc,
    De,
    Hl,
    Sp,
}

/// What PUSH saves: a register pair, or the accumulator and the flags.
#[derive(Clone, Copy, Debug, PartialEq, Eq)]
pub enum Saved {
    BcPair,
    DePair,
    HlPair,
    Psw,
}

/// The operand of an operation on the accumulator: a register, the cell at HL, or the byte after the opcode.
#[derive(Clone, Copy, Debug, PartialEq, Eq)]
pub enum Source {
    At(Place),
    Immediate,
}

/// An operation on the accumulator.
#[derive(Clone, Copy, Debug, PartialEq, Eq)]
pub enum Arithmetic {
    Add,
    Adc,
    Sub,
    Sbb,
    Ana,
    Xra,
    Ora,
    Cmp,
}

/// The condition of a jump, a call or a return.
#[derive(Clone, Copy, Debug, PartialEq, Eq)]
pub enum Condition {
    NotZero,
    Zero,
    NoCarry,
    Carry,
    ParityOdd,
    ParityEven,
    Plus,
    Minus,
}

/// The register pair with the address for LDAX and STAX.
#[derive(Clone, Copy, Debug, PartialEq, Eq)]
pub enum Base {
    InBc,
    InDe,
}

/// A rotation of the accumulator.
#[derive(Clone, Copy, Debug, PartialEq, Eq)]
pub enum Rotation {
    Rlc,
    Rrc,
    Ral,
    Rar,
}

/// One of the eight restarts.
#[derive(Clone, Copy, Debug, PartialEq, Eq)]
pub enum Restart {
    Rst0,
    Rst1,
    Rst2,
    Rst3,
    Rst4,
    Rst5,
    Rst6,
    Rst7,
}

/// An instruction, by its mnemonic. `Accumulate` is ADD to CMP and ADI to CPI, `Rotate` is RLC to RAR, and `JumpIf`, `CallIf`
/// and `RetIf` are the conditional forms of JMP, CALL and RET.
#[derive(Clone, Copy)]
pub enum Op {
    Nop,
    Hlt,
    /// MOV to a register.
    Mov(Register, Place),
    /// MOV M, from a register.
    MovToMemory(Register),
    Mvi(Place),
    Lxi(Pair),
    Lda,
    Sta,
    Lhld,
    Shld,
    Ldax(Base),
    Stax(Base),
    Xchg,
    Accumulate(Arithmetic, Source),
    Inr(Place),
    Dcr(Place),
    Inx(Pair),
    Dcx(Pair),
    Dad(Pair),
    Rotate(Rotation),
    Daa,
    Cma,
    Stc,
    Cmc,
    Jmp,
    JumpIf(Condition),
    Call,
    CallIf(Condition),
    Ret,
    RetIf(Condition),
    Rst(Restart),
    Pchl,
    Push(Saved),
    Pop(Saved),
    Xthl,
    Sphl,
    In,
    Out,
    Di,
    Ei,
}
