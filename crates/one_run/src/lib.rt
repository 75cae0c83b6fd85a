//! One run of a session, without edits: its texts, what is to be done with its changed files, and its stop.
//!
//! - `running`: the run, whose console text and trace are written while it runs
//! - `changed`: the list of its changed files
//! - `left`, `room`: what ended runs left on the disks; whether a disk has room for the changed files
//! - `planning`: what is to be done with the files of the list
//! - `dry_run`: what would be done with them
//! - `reporting`: its stop, and what became of the files
//! - `explanations`, `system_names`: where it stopped, and what to do; what a program can call that is not here
//!
//! What callers name of `tracing` is re-exported.
#![tactic(auto)]

mod changed;
mod dry_run;
mod explanations;
mod left;
mod planning;
mod reporting;
mod room;
mod running;
mod system_names;

pub use changed::{Entry, changed_entries, first_unplaced, is_any_on_disk};
pub use dry_run::{Foretold, Verb, foretell, report_foretold};
pub use explanations::push_explanation;
pub use left::left_paths;
pub use planning::{Turn, plan_turn};
pub use reporting::{Disks, Report, report_stop, stop_status};
pub use room::check_room;
pub use running::{RunFault, Start, run_to_end};
pub use tracing::{each_call, no_step};
