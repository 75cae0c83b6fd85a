// First steps of questions, and what the change of a host file touches.

use crate::acts::Act::{self, EraseFrom, Note, StepOf, Touch};
use cpmfiles::{Ask, HostFiles};
use first_looks::FileSteps;
use std::alloc::{AllocError, Global};
use std::marker::Model;

/// First steps of questions, and a step that none of them is past.
#[derive(Drop)]
pub struct Steps {
    files: FileSteps,
    latest: u64,
}

impl Model for Steps {
    ghost use Rattle.std.specs.Prelude.{ℕ, ◌≤◌};

    ghost Value = { ℕ };

    ghost view = { λ s. s.latest };

    ghost invariant = { λ s. s.files.records.latest ≤ s.latest };
}

impl Steps {
    /// Returns a table in which no question has a step.
    pub fn new(alloc: Global) -> Steps {
        Steps {
            files: FileSteps::new(alloc),
            latest: 0,
        }
    }

    // Notes a question at a step. Returns `false` if another step is later, or none could be later.
    fn note(&mut self, ask: &Ask, step: u64) -> Result<bool, AllocError> {
        if step < self.latest || step >= u64::from(u32::MAX) {
            return Ok(false);
        }
        self.latest = step;
        self.files.note(ask, step)?;
        Ok(true)
    }

    fn erase_from(&mut self, from: u64) {
        self.latest = self.latest.min(from);
        self.files.erase_from(from);
    }
}

/// Returns whether steps that are noted, erased or read are as expected. Steps are noted in order.
pub fn step(
    steps: &mut Steps,
    host: &HostFiles,
    next: &HostFiles,
    act: Act<'_>,
) -> Result<bool, AllocError> {
    match act {
        Note(ask, step) => return steps.note(&ask, step),
        EraseFrom(from) => steps.erase_from(from),
        StepOf(ask, step) => return Ok(steps.files.get(&ask) == step),
        Touch(least, key, step) => {
            return Ok(
                steps
                    .files
                    .touch_of_change(least, host, &key, next.file(&key))
                    == step,
            );
        }
        _ => return Ok(false),
    }
    Ok(true)
}
