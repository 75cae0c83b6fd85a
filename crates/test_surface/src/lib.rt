//! Every public call with its arguments and its result, so that a call that is missing or has another form does not compile.
//!
//! - `surface`: the table of their names, to which lines are added and from which none is removed
//! - `processor`, `memory`: `i8080`; `pagemem`
//! - `files`, `calls`: `cpmfiles`; `bdos`
//! - `sessions`, `program`: `machine` and `replay`; `cpmrun`
#![tactic(auto)]

pub mod calls;
pub mod files;
pub mod memory;
pub mod processor;
pub mod program;
pub mod sessions;
pub mod surface;
