ghost use Rattle.std.specs.Prelude.{◌≡◌, IfOk};
ghost use Rattle.dependencies.specs.Dependencies.{AreDependencies};

use first_looks::FirstLooks;
use machine::{Cause, Noting, Run, Session, WholeRun};
use std::alloc::{AllocError, Global};

/// What the run of a session depends on, and how it ends.
#[derive(Drop)]
pub struct Dependencies {
    /// For each question that was asked, the first step that asked it. A stop asks as the step after the last one.
    pub looks: FirstLooks,
    /// The number of steps.
    pub steps: u64,
    /// Why the run ended.
    pub cause: Cause,
}

impl Dependencies {
    /// Runs a session to its limit or to a stop, and notes each question that it asks.
    ///
    /// # Errors
    ///
    /// `Err` means out of memory.
    pub fn of_run(alloc: Global, session: &Session) -> Result<Dependencies, AllocError>
        ensures { IfOk result (λ d. AreDependencies session.now d.looks d.steps d.cause) }
    {
        let whole = run_noting_looks(alloc, session)?;
        Ok(Dependencies {
            looks: whole.looks,
            steps: whole.steps,
            cause: whole.cause,
        })
    }
}

/// Runs a session to its limit or to a stop, and notes each question that it asks.
///
/// # Errors
///
/// `Err` means out of memory.
pub fn run_noting_looks<'s>(alloc: Global, session: &'s Session) -> Result<WholeRun<'s>, AllocError>
    ensures session { IfOk result (λ run. run.session.now ≡ session.now) }
    ensures looks { IfOk result (λ run. AreDependencies session.now run.looks run.steps run.cause) }
{
    let run = Run::start(alloc, session, Noting::Looks)?;
    run.finish()
}
