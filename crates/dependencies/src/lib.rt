//! What the run of a session depends on: each question that it asks its session, with the first step that asks it.
//!
//! - `dependencies`: the run that notes them
//! - `bios`: whether a run looked for the BIOS
//! - `rows`: indexes in a row that were asked for
//! - `laws`: the law that a session which answers these questions alike runs alike
#![tactic(auto)]

mod bios;
mod dependencies;
mod laws;
mod rows;

pub use bios::bios_look;
pub use dependencies::{Dependencies, run_noting_looks};
pub use laws::dependencies_decide;
pub use rows::{Joining, Row, StepTable, next_row};
