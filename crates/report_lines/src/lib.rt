//! The lines of a report, appended to a text. No memory is allocated.
//!
//! - `first_lines`: the lines of the stop, the steps and the registers, and the line of the console text
//! - `changed_lines`, `hex_digits`: the lines of the changed files; bytes, and names by their bytes, as hexadecimal digits
#![tactic(auto)]

mod changed_lines;
mod first_lines;
mod hex_digits;

pub use changed_lines::{FileFilter, push_changed_files, push_named};
pub use first_lines::{push_text, regs_words, report_head, stop_line, word_digits};
pub use hex_digits::{push_hex, push_key};
pub use mnemonics::byte_digits;
