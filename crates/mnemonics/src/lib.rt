//! The text of an instruction of the Intel 8080, in the notation of Intel's manual. No memory is allocated.
//!
//! - `text`: the text of an instruction with its operand
#![tactic(auto)]

mod text;

pub use text::{byte_digits, mnemonics_differ, push_instruction};
