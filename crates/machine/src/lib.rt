//! A session of one program, the state of its run, and its steps.
//!
//! - `session`, `bytes`: a session, its limits and its edits; bytes as a value
//! - `state`: a state of a run: the registers, the overlay, the desk, and what was done to the files
//! - `system_area`: a step in the system area: the calls, and the stops there
//! - `stretch`, `laws`: `run_and_note` executes steps, notes their looks and counts them, and `step` executes one step; the laws that the
//!   plain machine makes the same steps, and which cells an instruction writes and reads
//! - `run`, `noting`, `whole_run`: a run in progress, as a value; the looks that a run notes; a run that has ended
//! - `saved_state`, `meter`: a saved state, and the state that is restored from it; the count of executed steps
//! - `trial`: the cells that the next call of a run writes and reads, by a trial
//!
//! Bytes in an edit are of the type `Bytes`, since contracts would compare a `Vec` with its capacity. `State::load_over` and
//! `SavedState::overlay` take the session, so that its image is the one that the known cells of the state belong to. `run_and_note`
//! requires this of its session (`IsBound`), and `step` does not.
//!
//! A meter can't be copied. Who may make one can't be a contract: `tests/check/test_sources.py` checks that only `command`, the
//! tests and `embedding` do.
#![tactic(auto)]

mod bytes;
mod laws;
mod meter;
mod noting;
mod run;
mod saved_state;
mod session;
mod state;
mod stretch;
mod system_area;
mod trial;
mod whole_run;

pub use bytes::Bytes;
pub use command_tail::TAIL_LIMIT;
pub use console_calls::{Cause, Desk, Spot};
pub use first_looks::Question;
pub use hostfiles::{Changes, HostFile, HostFiles, Journal, Name};
pub use i8080::Regs;
pub use laws::{instruction_cells, plain_machine_is_laid};
pub use meter::Meter;
pub use noting::{Noting, RunNotes};
pub use pagemem::BlankMarks;
pub use run::Run;
pub use saved_state::SavedState;
pub use session::{
    PROGRAM_LIMIT, PROGRAM_START, SCRIPT_LIMIT, STEP_LIMIT, Session, SessionError, limits,
};
pub use state::State;
pub use stretch::{run_and_note, step};
pub use trial::{SpareMemory, next_cells};
pub use whole_run::WholeRun;
