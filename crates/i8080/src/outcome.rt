/// How an instruction ended: it was executed, it was HLT, or the byte at PC is the opcode of no instruction.
#[derive(Clone, Copy, Debug, PartialEq, Eq)]
pub enum Did {
    Went,
    Halt,
    Undefined(u8),
}
