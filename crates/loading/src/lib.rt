//! Loading of the session that a command line describes, from the files and folders that it names.
//!
//! - `loading`: reading the program, the script and the host files, and making the session
//! - `typed`: a script as typed text
#![tactic(auto)]

mod loading;
mod typed;

pub use loading::{Inputs, Loaded, load, load_with, open, read_inputs};
