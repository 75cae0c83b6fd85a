// What no contract can say: that the definitions are the 8080's. The instructions are compared with the manual's examples and with a
// second computation.

use crate::fixtures::blank;
use i8080::opcode::Arithmetic::{self, Adc, Add, Ana, Cmp, Ora, Sbb, Sub, Xra};
use i8080::{
    Bus, Did, Flags, Regs, bytes_have_one_instruction, decode, execute, opcodes_differ, word_of,
};
use pagemem::PlainMemory;
use std::alloc::AllocError;
use std::process::Abort;

// The twelve bytes that are no opcode.
const UNDEFINED: [u8; 12] = [
    0x08, 0x10, 0x18, 0x20, 0x28, 0x30, 0x38, 0xcb, 0xd9, 0xdd, 0xed, 0xfd,
];

// Returns registers that are 0 except A, AC and CY.
fn start(a: u8, ac: bool, cy: bool) -> Regs {
    let mut regs = Regs::default();
    regs.a = a;
    regs.flags.ac = ac;
    regs.flags.cy = cy;
    regs
}

#[test]
fn each_byte_goes_on_halts_or_is_undefined(rt: HostRuntime) -> Result<(), AllocError> {
    let mut memory = blank(rt.alloc())?;
    each_byte_ends_as_wanted(&rt, &mut memory)?;
    opcodes_differ();
    bytes_have_one_instruction();
    Ok(())
}

fn each_byte_ends_as_wanted(rt: &impl Abort, memory: &mut PlainMemory) -> Result<(), AllocError> {
    for byte in 0..=255 {
        assert!(rt; ends_as_wanted(memory, byte)?, "at {byte}");
    }
    Ok(())
}

// Returns whether the instruction of a byte ends as expected, and changes the registers exactly if it is executed.
fn ends_as_wanted(memory: &mut PlainMemory, byte: u8) -> Result<bool, AllocError> {
    memory.write(0x100, byte);
    let mut before = start(1, false, false);
    before.pc = 0x100;
    let mut regs = before;
    let did = execute(&mut regs, memory)?;
    let undefined = UNDEFINED.contains(&byte);
    let wanted = match byte {
        0x76 => Did::Halt,
        _ if undefined => Did::Undefined(byte),
        _ => Did::Went,
    };
    let is_same = regs == before;
    Ok(did == wanted && decode(byte).is_none() == undefined && is_same == (wanted != Did::Went))
}

// Returns S, Z, AC, P, CY, with S, Z and P computed from the value.
fn flags_of(value: u8, ac: bool, cy: bool) -> Flags {
    let mut even = true;
    let mut rest = value;
    for _ in 0..8u8 {
        even ^= rest % 2 == 1;
        rest /= 2;
    }
    Flags {
        s: value > 127,
        z: value < 1,
        ac,
        p: even,
        cy,
    }
}

// Returns the sum of two bytes and a carry, computed bit by bit, with the carries out of bit 3 and bit 7.
fn sum_by_bits(a: u8, b: u8, carry_in: bool) -> (u8, bool, bool) {
    let (mut sum, mut carry, mut half) = (0, carry_in, false);
    let mut bit: u8 = 1;
    for place in 0..8u8 {
        let (x, y) = (a & bit != 0, b & bit != 0);
        if (x != y) != carry {
            sum |= bit;
        }
        carry = x && y || carry && x != y;
        if place == 3 {
            half = carry;
        }
        bit = bit.wrapping_mul(2);
    }
    (sum, half, carry)
}

// Returns the accumulator and the flags after an operation on it.
fn second_way(function: Arithmetic, a: u8, value: u8, cy: bool) -> (u8, Flags) {
    let borrow = match function {
        Sbb => i16::from(cy),
        _ => 0,
    };
    let difference = i16::from(a) - i16::from(value) - borrow;
    let low_difference = i16::from(a & 15) - i16::from(value & 15) - borrow;
    let byte = (difference & 255) as u8;
    let difference_flags = flags_of(byte, low_difference >= 0, difference < 0);
    match function {
        Add | Adc => {
            let carry_in = cy && function == Adc;
            let (sum, half, carry) = sum_by_bits(a, value, carry_in);
            (sum, flags_of(sum, half, carry))
        }
        Sub | Sbb => (byte, difference_flags),
        Cmp => (a, difference_flags),
        Ana => (a & value, flags_of(a & value, (a | value) & 8 != 0, false)),
        Xra => (a ^ value, flags_of(a ^ value, false, false)),
        Ora => (a | value, flags_of(a | value, false, false)),
    }
}

// Returns the registers after the instruction of one byte.
fn after(memory: &mut PlainMemory, byte: u8, before: Regs) -> Result<Regs, AllocError> {
    memory.write(0, byte);
    let mut regs = before;
    execute(&mut regs, memory)?;
    Ok(regs)
}

#[test]
fn arithmetic_agrees_with_a_second_way(rt: HostRuntime) -> Result<(), AllocError> {
    let mut memory = blank(rt.alloc())?;
    arithmetic_agrees(&rt, &mut memory)
}

// Each operation, with the opcodes of its forms for register B and for an immediate byte.
fn arithmetic_agrees(rt: &impl Abort, memory: &mut PlainMemory) -> Result<(), AllocError> {
    for (function, held, immediate) in [
        (Add, 0x80, 0xc6),
        (Adc, 0x88, 0xce),
        (Sub, 0x90, 0xd6),
        (Sbb, 0x98, 0xde),
        (Ana, 0xa0, 0xe6),
        (Xra, 0xa8, 0xee),
        (Ora, 0xb0, 0xf6),
        (Cmp, 0xb8, 0xfe),
    ] {
        operation_agrees(rt, memory, function, [(held, 1), (immediate, 2)])?;
    }
    Ok(())
}

// Checks each instruction of the operation, which has a byte and a length.
fn operation_agrees(
    rt: &impl Abort,
    memory: &mut PlainMemory,
    function: Arithmetic,
    instructions: [(u8, u16); 2],
) -> Result<(), AllocError> {
    for value in 0..=255 {
        memory.write(1, value);
        for a in 0..=255 {
            for cy in [false, true] {
                let mut before = start(a, false, cy);
                before.b = value;
                let wanted = second_way(function, a, value, cy);
                let agrees = both_agree(memory, instructions, before, wanted)?;
                assert!(rt; agrees, "{function:?} at {a}, {value}, {cy}");
            }
        }
    }
    Ok(())
}

// Returns whether each of two instructions leaves this accumulator and these flags.
fn both_agree(
    memory: &mut PlainMemory,
    instructions: [(u8, u16); 2],
    before: Regs,
    wanted: (u8, Flags),
) -> Result<bool, AllocError> {
    for (byte, length) in instructions {
        let regs = after(memory, byte, before)?;
        if (regs.a, regs.flags) != wanted || regs.pc != length {
            return Ok(false);
        }
    }
    Ok(true)
}

#[test]
fn one_operand_agrees_with_a_second_way(rt: HostRuntime) -> Result<(), AllocError> {
    let mut memory = blank(rt.alloc())?;
    one_operand_agrees(&rt, &mut memory)
}

fn one_operand_agrees(rt: &impl Abort, memory: &mut PlainMemory) -> Result<(), AllocError> {
    for a in 0..=255u8 {
        for (ac, cy) in [(false, false), (false, true), (true, false), (true, true)] {
            let before = start(a, ac, cy);
            for (byte, wanted, flags) in second_ways(before) {
                let regs = after(memory, byte, before)?;
                let agrees = regs.a == wanted && regs.flags == flags && regs.pc == 1;
                assert!(rt; agrees, "{byte} at {a}, {ac}, {cy}");
            }
        }
    }
    Ok(())
}

// Returns the accumulator and its flags after a decimal adjustment.
fn adjusted(before: Regs) -> (u8, Flags) {
    let low = if before.a & 15 > 9 || before.flags.ac {
        6
    } else {
        0
    };
    let (first, half, over) = sum_by_bits(before.a, low, false);
    let high = over || first / 16 > 9 || before.flags.cy;
    let (decimal, _, _) = sum_by_bits(first, if high { 0x60 } else { 0 }, false);
    (decimal, flags_of(decimal, half, high))
}

// Returns, for the byte of each instruction, the accumulator and the flags after it.
fn second_ways(before: Regs) -> [(u8, u8, Flags); 10] {
    let (a, cy) = (before.a, before.flags.cy);
    let (more, more_half, _) = sum_by_bits(a, 1, false);
    let (less, less_half, _) = sum_by_bits(a, 255, false);
    let (decimal, decimal_flags) = adjusted(before);
    let carry = u8::from(cy);
    let (left, right) = (a.rotate_left(1), a.rotate_right(1));
    let (mut top, mut bottom) = (before.flags, before.flags);
    top.cy = a > 127;
    bottom.cy = a & 1 != 0;
    let (mut other, mut set) = (before.flags, before.flags);
    other.cy = cy == false;
    set.cy = true;
    [
        (0x3c, more, flags_of(more, more_half, cy)), // INR A
        (0x3d, less, flags_of(less, less_half, cy)), // DCR A
        (0x27, decimal, decimal_flags), // DAA
        (0x07, left, top), // RLC
        (0x0f, right, bottom), // RRC
        (0x17, left & 254 | carry, top), // RAL
        (0x1f, right & 127 | carry.rotate_right(1), bottom), // RAR
        (0x2f, 255 - a, before.flags), // CMA
        (0x3f, a, other), // CMC
        (0x37, a, set), // STC
    ]
}

// Returns registers in which each pair and the stack pointer have the same word.
fn filled(low: u8, high: u8, cy: bool) -> Regs {
    let mut regs = start(1, true, cy);
    (regs.b, regs.c) = (high, low);
    (regs.d, regs.e) = (high, low);
    (regs.h, regs.l) = (high, low);
    regs.sp = word_of(low, high);
    regs
}

// Returns A and the flag byte, BC, DE, HL, SP and PC.
fn words_of(regs: Regs) -> [u16; 6] {
    [
        word_of(regs.flags.byte(), regs.a),
        word_of(regs.c, regs.b),
        word_of(regs.e, regs.d),
        word_of(regs.l, regs.h),
        regs.sp,
        regs.pc,
    ]
}

// Returns the sum of two words, computed by their bytes, with the carry.
fn sum_of_words(a: u16, b: u16) -> (u16, bool) {
    let (low, _, carry) = sum_by_bits((a % 256) as u8, (b % 256) as u8, false);
    let (high, _, over) = sum_by_bits((a / 256) as u8, (b / 256) as u8, carry);
    (word_of(low, high), over)
}

#[test]
fn a_pair_counts_up_and_down(rt: HostRuntime) -> Result<(), AllocError> {
    let mut memory = blank(rt.alloc())?;
    pairs_count(&rt, &mut memory)
}

fn pairs_count(rt: &impl Abort, memory: &mut PlainMemory) -> Result<(), AllocError> {
    for word in 0..=65_535u16 {
        assert!(rt; counts(memory, word)?, "at {word}");
    }
    Ok(())
}

// Returns whether each pair counts up and down, and nothing else changes.
fn counts(memory: &mut PlainMemory, word: u16) -> Result<bool, AllocError> {
    let before = filled((word % 256) as u8, (word / 256) as u8, true);
    let kept = word_of(before.flags.byte(), before.a);
    let (more, _) = sum_of_words(word, 1);
    let (less, _) = sum_of_words(word, 0xffff);
    for (byte, wanted) in [
        (0x03, [kept, more, word, word, word, 1]), // INX B
        (0x13, [kept, word, more, word, word, 1]), // INX D
        (0x23, [kept, word, word, more, word, 1]), // INX H
        (0x33, [kept, word, word, word, more, 1]), // INX SP
        (0x0b, [kept, less, word, word, word, 1]), // DCX B
        (0x1b, [kept, word, less, word, word, 1]), // DCX D
        (0x2b, [kept, word, word, less, word, 1]), // DCX H
        (0x3b, [kept, word, word, word, less, 1]), // DCX SP
    ] {
        if words_of(after(memory, byte, before)?) != wanted {
            return Ok(false);
        }
    }
    Ok(true)
}

#[test]
fn a_pair_is_added_to_hl(rt: HostRuntime) -> Result<(), AllocError> {
    let mut memory = blank(rt.alloc())?;
    pairs_are_added(&rt, &mut memory)
}

fn pairs_are_added(rt: &impl Abort, memory: &mut PlainMemory) -> Result<(), AllocError> {
    for (high, low) in [(0, 0), (0, 1), (0, 255), (127, 255), (128, 0), (255, 255)] {
        for word in 0..=65_535u16 {
            for cy in [false, true] {
                let before = filled(low, high, cy);
                assert!(rt;
                    is_added(memory, before, word)?,
                    "{word}, {high}, {low}, {cy}"
                );
            }
        }
    }
    Ok(())
}

// Returns whether the word of the other pairs, and then a word itself, is added to this word in HL.
fn is_added(memory: &mut PlainMemory, others: Regs, word: u16) -> Result<bool, AllocError> {
    let mut before = others;
    (before.h, before.l) = ((word / 256) as u8, (word % 256) as u8);
    let other = others.sp;
    let (sum, over) = sum_of_words(word, other);
    let (twice, twice_over) = sum_of_words(word, word);
    for (byte, wanted, carry) in [
        (0x09, sum, over), // DAD B
        (0x19, sum, over), // DAD D
        (0x29, twice, twice_over), // DAD H
        (0x39, sum, over), // DAD SP
    ] {
        let mut flags = before.flags;
        flags.cy = carry;
        let kept = word_of(flags.byte(), before.a);
        let words = words_of(after(memory, byte, before)?);
        if words != [kept, other, other, wanted, other, 1] {
            return Ok(false);
        }
    }
    Ok(true)
}

#[test]
fn flag_byte_and_manual_examples(rt: HostRuntime) -> Result<(), AllocError> {
    for byte in 0..=255 {
        assert!(rt; Flags::from_byte(byte).byte() == byte & 0xd7 | 2);
    }
    let mut memory = blank(rt.alloc())?;
    manual_examples(&rt, &mut memory)
}

fn manual_examples(rt: &impl Abort, memory: &mut PlainMemory) -> Result<(), AllocError> {
    let regs = after(memory, 0x27, start(0x9b, false, false))?;
    assert!(rt; [regs.a, regs.flags.byte()] == [0x01, 0x13]);
    let mut before = Regs::default();
    (before.b, before.c) = (0x33, 0x9f);
    (before.h, before.l) = (0xa1, 0x7b);
    let regs = after(memory, 0x09, before)?;
    assert!(rt; [regs.h, regs.l, regs.flags.byte()] == [0xd5, 0x1a, 0x02]);
    Ok(())
}
