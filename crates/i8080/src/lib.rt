//! The registers, flags and instructions of the Intel 8080, over any memory.
//!
//! - `registers`, `flags`: the registers, the register pairs and the operations on the accumulator; the five flags and the
//!   conditions on them
//! - `opcode`, `decoder`: the instructions, without the bytes that follow the opcode; decoding of a byte, and how many bytes follow
//! - `bus`: `Bus`, the trait of a memory, and reads and writes of more than one cell
//! - `access`: `Access`, the trait of a memory that may refuse a read or a write, as each `Bus` is
//! - `instructions`: one function for each kind of instruction
//! - `execution`, `outcome`: `execute`, which reads and executes the instruction at PC; how an instruction ended
//!
//! `Bus` has more methods than `ready`, `read` and `write`, for cells in a row and for words. Each has a default; the views of
//! `pagemem` override them for speed. `lender` lets a contract say that a borrowed memory is still the same one.
#![tactic(auto)]

mod access;
mod bus;
mod decoder;
mod execution;
mod flags;
pub mod instructions;
pub mod opcode;
mod outcome;
mod registers;

pub use access::{Access, HLT};
pub use bus::{Bus, fetch, fetch_word};
pub use decoder::{byte_count, bytes_have_one_instruction, decode, opcodes_differ, operand_count};
pub use execution::execute;
pub use flags::Flags;
pub use opcode::Op;
pub use outcome::Did;
pub use registers::{Regs, word_of};
