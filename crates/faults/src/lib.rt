//! The errors of the programs, with their statuses and messages.
//!
//! - `fault`: the errors
//! - `message`: their messages
//! - `shown`, `tool`: texts with escapes for control characters; the programs whose names they begin with
#![tactic(auto)]

mod fault;
mod message;
mod shown;
mod tool;

pub use fault::{Fault, report_fault};
pub use message::value_text;
pub use shown::push_shown;
pub use tool::Tool;
