//! The request that a program has in the words of its command line, and how it ends.
//!
//! - `request`: the request
#![tactic(auto)]

mod request;

pub use faults::{Fault, Tool, report_fault};
pub use request::{
    Request, called_tool, clash_fault, print_information, program_words, request_of_error,
    taken_fault,
};
