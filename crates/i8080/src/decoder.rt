ghost use Rattle.std.specs.Prelude.{◌≡◌, ◌≢◌, ◌<◌, ◌≤◌, ◌/◌, ◌%◌, ℕ, true, false, None, MatchOption};
ghost use Rattle.i8080.specs.declared.opcode.Op.{Op};
ghost use Rattle.i8080.specs.Opcodes.{opcode_of, place_code, pair_code, arithmetic_code, condition_code, decoded, is_undefined, NoneHas, OneHas};
ghost use Rattle.i8080.specs.Operands.{byte_count, operand_count};

use crate::opcode::{
    Arithmetic, Base, Condition, Op, Pair, Place, Register, Restart, Rotation, Saved, Source,
};

fn place(code: u8) -> Place
    requires { code < 8 }
    ensures { place_code result ≡ code }
{
    match code {
        0 => Place::InRegister(Register::B),
        1 => Place::InRegister(Register::C),
        2 => Place::InRegister(Register::D),
        3 => Place::InRegister(Register::E),
        4 => Place::InRegister(Register::H),
        5 => Place::InRegister(Register::L),
        6 => Place::Memory,
        _ => Place::InRegister(Register::A),
    }
}

fn pair(code: u8) -> Pair
    requires { code < 4 }
    ensures { pair_code result ≡ code }
{
    match code {
        0 => Pair::Bc,
        1 => Pair::De,
        2 => Pair::Hl,
        _ => Pair::Sp,
    }
}

fn arithmetic(code: u8) -> Arithmetic
    requires { code < 8 }
    ensures { arithmetic_code result ≡ code }
{
    match code {
        0 => Arithmetic::Add,
        1 => Arithmetic::Adc,
        2 => Arithmetic::Sub,
        3 => Arithmetic::Sbb,
        4 => Arithmetic::Ana,
        5 => Arithmetic::Xra,
        6 => Arithmetic::Ora,
        _ => Arithmetic::Cmp,
    }
}

fn condition(code: u8) -> Condition
    requires { code < 8 }
    ensures { condition_code result ≡ code }
{
    match code {
        0 => Condition::NotZero,
        1 => Condition::Zero,
        2 => Condition::NoCarry,
        3 => Condition::Carry,
        4 => Condition::ParityOdd,
        5 => Condition::ParityEven,
        6 => Condition::Plus,
        _ => Condition::Minus,
    }
}

// Decodes 00H to 3FH.
#[tactic(auto, unfolding(crate::specs::Opcodes::decoded))]
fn first_quarter(byte: u8) -> Option<Op>
    requires { byte / 64 ≡ 0 }
    ensures { MatchOption result (decoded byte ≡ None) (λ op. opcode_of op ≡ byte) }
{
    let (code, odd) = (byte / 16, byte / 8 % 2 == 1);
    Some(match byte % 8 {
        0 => match byte {
            0x00 => Op::Nop,
            0x08 | 0x10 | 0x18 | 0x20 | 0x28 | 0x30 | 0x38 => return None,
            _ => unreachable!(),
        },
        1 if odd => Op::Dad(pair(code)),
        1 => Op::Lxi(pair(code)),
        2 => match byte {
            0x02 => Op::Stax(Base::InBc),
            0x12 => Op::Stax(Base::InDe),
            0x22 => Op::Shld,
            0x32 => Op::Sta,
            0x0a => Op::Ldax(Base::InBc),
            0x1a => Op::Ldax(Base::InDe),
            0x2a => Op::Lhld,
            _ => Op::Lda,
        },
        3 if odd => Op::Dcx(pair(code)),
        3 => Op::Inx(pair(code)),
        4 => Op::Inr(place(byte / 8)),
        5 => Op::Dcr(place(byte / 8)),
        6 => Op::Mvi(place(byte / 8)),
        _ => match byte {
            0x07 => Op::Rotate(Rotation::Rlc),
            0x0f => Op::Rotate(Rotation::Rrc),
            0x17 => Op::Rotate(Rotation::Ral),
            0x1f => Op::Rotate(Rotation::Rar),
            0x27 => Op::Daa,
            0x2f => Op::Cma,
            0x37 => Op::Stc,
            _ => Op::Cmc,
        },
    })
}

// Decodes 0C0H to 0FFH.
#[tactic(auto, unfolding(crate::specs::Opcodes::decoded))]
fn last_quarter(byte: u8) -> Option<Op>
    requires { byte / 64 ≡ 3 }
    ensures { MatchOption result (decoded byte ≡ None) (λ op. opcode_of op ≡ byte) }
{
    let code = byte / 8 % 8;
    Some(match byte % 8 {
        0 => Op::RetIf(condition(code)),
        1 => match byte {
            0xc1 => Op::Pop(Saved::BcPair),
            0xd1 => Op::Pop(Saved::DePair),
            0xe1 => Op::Pop(Saved::HlPair),
            0xf1 => Op::Pop(Saved::Psw),
            0xc9 => Op::Ret,
            0xd9 => return None,
            0xe9 => Op::Pchl,
            _ => Op::Sphl,
        },
        2 => Op::JumpIf(condition(code)),
        3 => match byte {
            0xc3 => Op::Jmp,
            0xcb => return None,
            0xd3 => Op::Out,
            0xdb => Op::In,
            0xe3 => Op::Xthl,
            0xeb => Op::Xchg,
            0xf3 => Op::Di,
            _ => Op::Ei,
        },
        4 => Op::CallIf(condition(code)),
        5 => match byte {
            0xc5 => Op::Push(Saved::BcPair),
            0xd5 => Op::Push(Saved::DePair),
            0xe5 => Op::Push(Saved::HlPair),
            0xf5 => Op::Push(Saved::Psw),
            0xcd => Op::Call,
            0xdd | 0xed | 0xfd => return None,
            _ => unreachable!(),
        },
        6 => Op::Accumulate(arithmetic(code), Source::Immediate),
        _ => match code {
            0 => Op::Rst(Restart::Rst0),
            1 => Op::Rst(Restart::Rst1),
            2 => Op::Rst(Restart::Rst2),
            3 => Op::Rst(Restart::Rst3),
            4 => Op::Rst(Restart::Rst4),
            5 => Op::Rst(Restart::Rst5),
            6 => Op::Rst(Restart::Rst6),
            _ => Op::Rst(Restart::Rst7),
        },
    })
}

/// Returns the instruction with this opcode, or `None` if the byte is undefined.
#[tactic(auto, using(crate::proofs::Decoding::decoded_some))]
pub fn decode(byte: u8) -> Option<Op>
    ensures decoded { result ≡ decoded byte }
    ensures opcode { MatchOption result ((op : Op) → opcode_of op ≢ byte) (λ op. opcode_of op ≡ byte) }
{
    match byte / 64 {
        0 => first_quarter(byte),
        1 => Some(match (place(byte / 8 % 8), place(byte % 8)) {
            (Place::InRegister(to), from) => Op::Mov(to, from),
            (Place::Memory, Place::InRegister(from)) => Op::MovToMemory(from),
            (Place::Memory, Place::Memory) => Op::Hlt,
        }),
        2 => Some(Op::Accumulate(arithmetic(byte / 8 % 8), Source::At(place(byte % 8)))),
        _ => last_quarter(byte),
    }
}

/// Returns how many operand bytes follow the opcode of this instruction. [8080 manual 1975, chapter 4, instruction set]
pub fn operand_count(op: Op) -> usize
    ensures { result ≡ operand_count op }
{
    match op {
        Op::Mvi(_) | Op::Accumulate(_, Source::Immediate) | Op::In | Op::Out => 1,
        Op::Lxi(_) | Op::Lda | Op::Sta | Op::Lhld | Op::Shld => 2,
        Op::Jmp | Op::JumpIf(_) | Op::Call | Op::CallIf(_) => 2,
        _ => 0,
    }
}

/// Returns how many bytes the instruction with this opcode has, 1 to 3, or 1 for an undefined byte.
/// [8080 manual 1975, chapter 4, instruction set]
pub fn byte_count(opcode: u8) -> usize
    ensures count { result ≡ byte_count (decoded opcode) }
    ensures range { (1 ≤ result) × (result ≤ 3) }
{
    match decode(opcode) {
        None => 1,
        Some(op) => 1 + operand_count(op),
    }
}

/// No two instructions have the same opcode.
pub fn opcodes_differ()
    ensures { (p q : Op) → opcode_of p ≡ opcode_of q → p ≡ q }
{}

/// Each of the twelve undefined bytes is the opcode of no instruction, and each of the other 244 bytes is the opcode of
/// exactly one.
pub fn bytes_have_one_instruction()
    ensures undefined { (byte : ℕ) → byte < 256 → is_undefined byte ≡ true → NoneHas byte }
    ensures defined { (byte : ℕ) → byte < 256 → is_undefined byte ≡ false → OneHas byte }
{}
