//! Edits and reruns of a session. Each rerun has the result of a cold run of the current session.
//!
//! - `edit`, `change`, `touch`: edits and their refusals; the change that an accepted edit makes; the first step that a change
//!   touches
//! - `ring`: checkpoints, and the steps at which they are due
//! - `run`, `rerun`: the loop from one due step to the next; where a rerun begins, and what it leaves
//! - `runner`, `options`, `report`: `Runner`; how often and how many checkpoints are made; the result of a rerun
//!
//! `Report` borrows the runner through one field and owns no memory. A result that borrows from `&mut self` leaves no last value of
//! `self` for a plain clause, so the clause on it is a starred one (`ends`): it says what the runner is once the report is gone.
//!
//! There is no library for C. Rattle passes no owned value to C, so a runner, a session and a report would need handles, with rules
//! of lifetime that nothing proves. `--edits /dev/stdin` serves every language through a pipe; `python/vembrusk` has a client.
#![tactic(auto)]

mod change;
mod edit;
mod options;
mod report;
mod rerun;
mod ring;
mod run;
mod runner;
mod touch;

pub use edit::{Edit, EditError};
pub use options::{Options, OptionsError};
pub use report::Report;
pub use runner::{Runner, plain_run_is_cold, prefix_dependence};
