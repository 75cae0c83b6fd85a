//! What a run may ask of its session, and for each question the first step that asked it.
//!
//! - `question`: a question of a run to its session
//! - `first_looks`: the first step of each question
//! - `first_steps`: the first step that looked at each index of one kind
//! - `sequential_steps`: the same, in less memory, for indexes that are mostly looked at in ascending order
//! - `record_steps`, `file_steps`: the first steps of the records of files, and of each question to the host files
//! - `touch`: the first of these steps that the change of a file touches
#![tactic(auto)]

pub mod file_steps;
pub mod first_looks;
pub mod first_steps;
pub mod question;
pub mod record_steps;
pub mod sequential_steps;
pub mod touch;

pub use file_steps::FileSteps;
pub use first_looks::FirstLooks;
pub use first_steps::FirstSteps;
pub use question::Question;
pub use record_steps::RecordSteps;
pub use sequential_steps::SequentialSteps;
