//! Page zero as a program finds it, with its command tail. [Interface Guide 1979, page zero]
//!
//! - `word`, `page`: the words of a command tail, with the drive and the name in a word; page zero
#![tactic(auto)]

mod page;
mod word;

pub use page::{TAIL_LIMIT, page_zero};
