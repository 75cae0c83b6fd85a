// The text of an instruction, from a table by its opcode and the digits of its operand.

ghost use Rattle.std.specs.Prelude.{◌≡◌, ◌<◌, ◌≤◌, map, slice_index, Some};
ghost use Rattle.hex.specs.Hex.{upper_digits};
ghost use Rattle.i8080.specs.Opcodes.{decoded};
ghost use Rattle.i8080.specs.declared.opcode.Op.{Op};
ghost use Rattle.mnemonics.specs.Mnemonics as spec;
ghost use Rattle.mnemonics.specs.Mnemonics.{instruction_text, mnemonic, named};
ghost use Rattle.streams.specs.Pushing.{more};

use arrayvec::ArrayString;
use i8080::{decode, operand_count};
use streams::Text;

// The text before the operand for each opcode, in order.
const OPENINGS: [&str; 256] = [
    "NOP", "LXI B,", "STAX B", "INX B", "INR B", "DCR B", "MVI B,", "RLC", "DB ", "DAD B",
    "LDAX B", "DCX B", "INR C", "DCR C", "MVI C,", "RRC", "DB ", "LXI D,", "STAX D", "INX D",
    "INR D", "DCR D", "MVI D,", "RAL", "DB ", "DAD D", "LDAX D", "DCX D", "INR E", "DCR E",
    "MVI E,", "RAR", "DB ", "LXI H,", "SHLD ", "INX H", "INR H", "DCR H", "MVI H,", "DAA", "DB ",
    "DAD H", "LHLD ", "DCX H", "INR L", "DCR L", "MVI L,", "CMA", "DB ", "LXI SP,", "STA ",
    "INX SP", "INR M", "DCR M", "MVI M,", "STC", "DB ", "DAD SP", "LDA ", "DCX SP", "INR A",
    "DCR A", "MVI A,", "CMC", "MOV B,B", "MOV B,C", "MOV B,D", "MOV B,E", "MOV B,H", "MOV B,L",
    "MOV B,M", "MOV B,A", "MOV C,B", "MOV C,C", "MOV C,D", "MOV C,E", "MOV C,H", "MOV C,L",
    "MOV C,M", "MOV C,A", "MOV D,B", "MOV D,C", "MOV D,D", "MOV D,E", "MOV D,H", "MOV D,L",
    "MOV D,M", "MOV D,A", "MOV E,B", "MOV E,C", "MOV E,D", "MOV E,E", "MOV E,H", "MOV E,L",
    "MOV E,M", "MOV E,A", "MOV H,B", "MOV H,C", "MOV H,D", "MOV H,E", "MOV H,H", "MOV H,L",
    "MOV H,M", "MOV H,A", "MOV L,B", "MOV L,C", "MOV L,D", "MOV L,E", "MOV L,H", "MOV L,L",
    "MOV L,M", "MOV L,A", "MOV M,B", "MOV M,C", "MOV M,D", "MOV M,E", "MOV M,H", "MOV M,L", "HLT",
    "MOV M,A", "MOV A,B", "MOV A,C", "MOV A,D", "MOV A,E", "MOV A,H", "MOV A,L", "MOV A,M",
    "MOV A,A", "ADD B", "ADD C", "ADD D", "ADD E", "ADD H", "ADD L", "ADD M", "ADD A", "ADC B",
    "ADC C", "ADC D", "ADC E", "ADC H", "ADC L", "ADC M", "ADC A", "SUB B", "SUB C", "SUB D",
    "SUB E", "SUB H", "SUB L", "SUB M", "SUB A", "SBB B", "SBB C", "SBB D", "SBB E", "SBB H",
    "SBB L", "SBB M", "SBB A", "ANA B", "ANA C", "ANA D", "ANA E", "ANA H", "ANA L", "ANA M",
    "ANA A", "XRA B", "XRA C", "XRA D", "XRA E", "XRA H", "XRA L", "XRA M", "XRA A", "ORA B",
    "ORA C", "ORA D", "ORA E", "ORA H", "ORA L", "ORA M", "ORA A", "CMP B", "CMP C", "CMP D",
    "CMP E", "CMP H", "CMP L", "CMP M", "CMP A", "RNZ", "POP B", "JNZ ", "JMP ", "CNZ ", "PUSH B",
    "ADI ", "RST 0", "RZ", "RET", "JZ ", "DB ", "CZ ", "CALL ", "ACI ", "RST 1", "RNC", "POP D",
    "JNC ", "OUT ", "CNC ", "PUSH D", "SUI ", "RST 2", "RC", "DB ", "JC ", "IN ", "CC ", "DB ",
    "SBI ", "RST 3", "RPO", "POP H", "JPO ", "XTHL", "CPO ", "PUSH H", "ANI ", "RST 4", "RPE",
    "PCHL", "JPE ", "XCHG", "CPE ", "DB ", "XRI ", "RST 5", "RP", "POP PSW", "JP ", "DI", "CP ",
    "PUSH PSW", "ORI ", "RST 6", "RM", "SPHL", "JM ", "EI", "CM ", "DB ", "CPI ", "RST 7",
];

// Returns the text at this opcode in a table of the texts before the operand.
fn entry(table: &'static [&'static str; 256], opcode: u8) -> &'static str
    requires { map (λ t. t.now) table.now ≡ spec.openings }
    ensures { result.now ≡ spec.opening_text (decoded opcode) }
{
    table[usize::from(opcode)]
}

// Returns a digit in upper case.
fn digit(value: u8) -> char
    requires { value < 16 }
    ensures value { result ≡ slice_index upper_digits value }
    ensures ascii { result < 128 }
{
    char::from(b"0123456789ABCDEF"[usize::from(value)])
}

/// Returns the two digits of a byte, in upper case.
#[tactic(auto, unfolding(hex::specs::Hex::encode_with))]
pub fn byte_digits(byte: u8) -> ArrayString<2>
    ensures { result.bytes ≡ spec.digits byte }
{
    let mut digits = ArrayString::new();
    digits.push(digit(byte / 16));
    digits.push(digit(byte % 16));
    digits
}

// Appends the digits of the first byte of a number, with a 0 before a letter.
fn push_first_digits<X: Text>(text: &mut X, byte: u8)
    ensures { X.pushed text.new ≡ more (X.pushed text.old) (spec.first_digits byte) }
{
    if byte >= 0xa0 {
        text.push(b"0");
    }
    text.push(byte_digits(byte).as_bytes())
}

// Appends a byte as a number.
fn push_literal<X: Text>(text: &mut X, byte: u8)
    ensures { X.pushed text.new ≡ more (X.pushed text.old) (spec.byte_text byte) }
{
    push_first_digits(text, byte);
    text.push(b"H")
}

// Appends a word as a number.
fn push_word<X: Text>(text: &mut X, low: u8, high: u8)
    ensures { X.pushed text.new ≡ more (X.pushed text.old) (spec.word_text low high) }
{
    push_first_digits(text, high);
    text.push(byte_digits(low).as_bytes());
    text.push(b"H")
}

/// Appends the instruction that begins with these bytes, as `JMP 0100H`, or `DB` and the first byte if that is undefined.
/// The notation is Intel's. [8080 manual 1975, chapter 4, instruction set]
pub fn push_instruction<X: Text>(text: &mut X, opcode: u8, second: u8, third: u8)
    ensures { X.pushed text.new
        ≡ more (X.pushed text.old) (instruction_text (decoded opcode) opcode second third) }
{
    text.push(entry(&OPENINGS, opcode).as_bytes());
    match decode(opcode) {
        None => push_literal(text, opcode),
        Some(op) => match operand_count(op) {
            0 => {}
            1 => push_literal(text, second),
            _ => push_word(text, second, third),
        },
    }
}

/// Each instruction is found by its text before the operand, so no two instructions have the same text.
pub fn mnemonics_differ()
    ensures found { (op : Op) → named (mnemonic op) ≡ Some op }
    ensures differ { (p q : Op) → mnemonic p ≡ mnemonic q → p ≡ q }
{}
