ghost use Rattle.std.specs.Prelude.{◌≡◌, ◌<◌, ◌≤◌, ◌==◌, [], ℕ, None, OnOk, OnErr, length, slice_index, true};
ghost use Rattle.std.specs.List.Sorted.{IsNonDecreasing};
ghost use Rattle.first_looks.specs.Noting.{step_below, or_else, step_if};
ghost use Rattle.first_looks.specs.FirstSteps.{step_in};
ghost use Rattle.first_looks.specs.SequentialSteps.{IsEarliestFrom};

use crate::first_steps::FirstSteps;
use std::alloc::{AllocError, Global};
use std::marker::Model;

/// For each index the first step that looked at it, if there is one. Indexes that are looked at in ascending order,
/// from 0 on, need 32 bits each; their steps never decrease. An index that is looked at out of order is stored apart.
#[derive(Drop)]
pub struct SequentialSteps {
    in_turn: Vec<u32>,
    others: FirstSteps,
}

impl Model for SequentialSteps {
    ghost use Rattle.std.specs.Prelude.{max};
    ghost use Rattle.first_looks.specs.FirstSteps.{Steps};
    ghost use Rattle.first_looks.specs.SequentialSteps.{AreSequential, all_steps, last_step};

    ghost Value = { Steps };

    ghost view = { λ p. record {
      entries = all_steps p.in_turn.items p.others.entries;
      latest = max (last_step p.in_turn.items) p.others.latest;
    } };

    ghost invariant = { λ p. AreSequential p.in_turn.items p.others.entries };
}

impl SequentialSteps {
    /// Creates first steps with no step noted. Allocates nothing.
    pub fn new(alloc: Global) -> SequentialSteps
        ensures { result ≡ record { entries = []; latest = 0 } }
    {
        SequentialSteps {
            in_turn: Vec::new(alloc),
            others: FirstSteps::new(alloc),
        }
    }

    /// Returns the first step that looked at an index, if there is one.
    pub fn get(&self, index: usize) -> Option<u64>
        ensures { result ≡ step_in self.now.entries index }
    {
        match self.in_turn.get(index) {
            Some(step) => Some(u64::from(*step)),
            None => self.others.get(index),
        }
    }

    /// Returns an index from which on no index has a step.
    pub fn end(&self) -> usize
        ensures { result ≡ length self.now.entries }
    {
        self.in_turn.len().max(self.others.end())
    }

    /// Returns whether an index has a step and no later index has an earlier one. It may also return `false` if an index
    /// was looked at out of order.
    pub fn is_earliest_from(&self, index: usize) -> bool
        ensures { result ≡ true → IsEarliestFrom self.now.entries index }
    {
        let next = self.in_turn.len();
        index < next && self.others.end() <= next
    }

    /// Notes a step at an index; an index that has a step keeps it. The step is below 4,294,967,295, and no step that was
    /// noted before is later.
    ///
    /// # Errors
    ///
    /// `Err` means out of memory; every index keeps its step. An index that has a step is never an `Err`.
    pub fn note(&mut self, index: usize, step: u64) -> Result<(), AllocError>
        requires held { step < 4294967295 }
        requires latest { self.old.latest ≤ step }
        ensures ok { OnOk result ((k : ℕ) → step_in self.new.entries k
            ≡ or_else (step_in self.old.entries k) (step_if (k == index) step)) }
        ensures err { OnErr result ((k : ℕ) → step_in self.new.entries k ≡ step_in self.old.entries k) }
        ensures refused { OnErr result (step_in self.old.entries index ≡ None) }
        ensures latest { self.new.latest ≤ step }
    {
        let next = self.in_turn.len();
        if index < next {
            return Ok(());
        }
        if index == next && self.others.get(index).is_none() {
            self.in_turn.push(step as u32)?;
            return Ok(());
        }
        self.others.note(index, step)
    }

    /// Erases every step from `from` on. Allocates nothing. The first of the indexes in ascending order is found by binary
    /// search.
    pub fn erase_from(&mut self, from: u64)
        ensures entries { (k : ℕ) → step_in self.new.entries k
            ≡ step_below from (step_in self.old.entries k) }
        ensures latest { (self.new.latest ≤ self.old.latest) × (self.new.latest ≤ from) }
    {
        let left = count_below(&self.in_turn, from);
        self.in_turn.truncate(left);
        self.others.erase_from(from);
    }
}

// Returns the number of steps below `from`, of steps that never decrease.
fn count_below(steps: &[u32], from: u64) -> usize
    requires { IsNonDecreasing steps.now }
    ensures count { result ≤ length steps.now }
    ensures below { (k : ℕ) → k < result → slice_index steps.now k < from }
    ensures past { (k : ℕ) → result ≤ k → k < length steps.now → from ≤ slice_index steps.now k }
{
    steps.partition_point(|step| u64::from(*step) < from)
}
