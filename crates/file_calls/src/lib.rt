//! What the file calls of CP/M 2.2 ask about the files, what they find, and which of their questions are passed
//! on to the host files.
//!
//! - `block`: a file control block on its drive, and the keys that it names
//! - `finding`: what a call found, which says what it is to do
//! - `inquiry`: what each call asks and finds, with one function for each
//! - `function`: the calls that find something, by name
//! - `delete`: the deletion of files
//! - `laws`: the laws that the answers of the host files determine those of the current files, and that what a run did
//!   stays sound
#![tactic(auto)]

mod block;
mod delete;
mod finding;
mod function;
mod inquiry;
mod laws;

pub use block::Block;
pub use cpmfiles::Table;
pub use delete::delete_files;
pub use finding::{Finding, Write};
pub use function::FileFunction;
pub use inquiry::search_next;
pub use laws::{host_files_answer, own_files_are_sound};
