//! Whether the next call of a run writes and reads given cells, by a trial of the call.
//!
//! - `ranges`: ranges of cells, and whether one of their cells was written or looked at
//! - `call`: the filters of a call
#![tactic(auto)]

mod call;
mod ranges;

pub use call::call_passes;
pub use machine::SpareMemory;
pub use ranges::CellRange;
