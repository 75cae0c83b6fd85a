//! The lines of a trace: of calls, and of instructions.
//!
//! - `forms`, `file_texts`, `escapes`, `call_lines`: what the lines of calls show
//! - `cell_rows`, `step_lines`: the cells that an instruction reads and writes; the lines of instructions
#![tactic(auto)]

mod call_lines;
mod cell_rows;
mod escapes;
mod file_texts;
mod forms;
mod step_lines;

pub use call_lines::{block_at, push_call_end, push_call_start};
pub use cell_rows::{CellRow, read_rows, written_row};
pub use file_texts::key_on;
pub use forms::{Argument, argument_of};
pub use step_lines::{bytes_of, push_changes, push_step_start};
