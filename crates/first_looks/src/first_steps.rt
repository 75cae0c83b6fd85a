ghost use Rattle.std.specs.Prelude.{◌≡◌, ◌<◌, ◌≤◌, ◌==◌, [], ℕ, None, OnOk, OnErr, if◌then◌else◌, vec_len, length};
ghost use Rattle.first_looks.specs.Noting.{step_below, or_else, step_if};
ghost use Rattle.first_looks.specs.FirstSteps.{IsInOrder, latest_of, step_at, step_in};

use std::alloc::{AllocError, Global};
use std::marker::Model;

/// Marks "no step". No run gets this far.
const NO_STEP: u32 = u32::MAX;

/// An index, and the first step that looked at it.
#[derive(Clone, Copy)]
pub struct Look {
    pub index: usize,
    pub step: u32,
}

/// For each index the first step that looked at it, if there is one. An index is the address of a cell, an offset of
/// the script or a record number. The indexes with a step are also stored in the order of their steps, so that the
/// latest are found without a search.
#[derive(Drop)]
pub struct FirstSteps {
    steps: Vec<u32>,
    looks: Vec<Look>,
}

impl Model for FirstSteps {
    ghost use Rattle.std.specs.Prelude.{map};
    ghost use Rattle.first_looks.specs.FirstSteps.{Steps, IsInOrder, latest_of, step_or_none};

    ghost Value = { Steps };

    ghost view = { λ f. record {
      entries = map step_or_none f.steps.items;
      latest = latest_of f.looks.items;
    } };

    ghost invariant = { λ f. IsInOrder f.steps.items f.looks.items };
}

impl FirstSteps {
    /// Creates first steps with no step noted. Allocates nothing.
    pub fn new(alloc: Global) -> FirstSteps
        ensures { result ≡ record { entries = []; latest = 0 } }
    {
        FirstSteps {
            steps: Vec::new(alloc),
            looks: Vec::new(alloc),
        }
    }

    /// Returns the first step that looked at an index, if there is one.
    #[tactic(auto, using(crate::proofs::EntryLemmas::entry_at))]
    pub fn get(&self, index: usize) -> Option<u64>
        ensures { result ≡ step_in self.now.entries index }
    {
        match self.steps.get(index) {
            Some(step) if *step != NO_STEP => Some(u64::from(*step)),
            _ => None,
        }
    }

    /// Returns an index from which on no index has a step.
    pub fn end(&self) -> usize
        ensures { result ≡ length self.now.entries }
    {
        self.steps.len()
    }

    /// Notes a step at an index; an index that has a step keeps it. The step is below 4,294,967,295, and no step that was
    /// noted before is later.
    ///
    /// # Errors
    ///
    /// `Err` means out of memory; every index keeps its step. An index that has a step is never an `Err`.
    #[tactic(auto, using(crate::proofs::EntryLemmas::entry_at))]
    pub fn note(&mut self, index: usize, step: u64) -> Result<(), AllocError>
        requires held { step < 4294967295 }
        requires latest { self.old.latest ≤ step }
        ensures ok { OnOk result ((k : ℕ) → step_in self.new.entries k
            ≡ or_else (step_in self.old.entries k) (step_if (k == index) step)) }
        ensures err { OnErr result ((k : ℕ) → step_in self.new.entries k ≡ step_in self.old.entries k) }
        ensures refused { OnErr result (step_in self.old.entries index ≡ None) }
        ensures latest { self.new.latest ≤ step }
    {
        grow_past(&mut self.steps, index)?;
        if self.steps[index] == NO_STEP {
            let step = step as u32;
            self.looks.push(Look { index, step })?;
            self.steps[index] = step;
        }
        Ok(())
    }

    /// Erases every step from `from` on. Visits only the erased steps and allocates nothing.
    #[tactic(auto, using(crate::proofs::EntryLemmas::entry_at))]
    pub fn erase_from(&mut self, from: u64)
        ensures entries { (k : ℕ) → step_in self.new.entries k
            ≡ step_below from (step_in self.old.entries k) }
        ensures latest { (self.new.latest ≤ self.old.latest) × (self.new.latest ≤ from) }
    {
        erase_from(&mut self.steps, &mut self.looks, from);
    }
}

// Makes room for the step of an index, and changes no step.
fn grow_past(steps: &mut Vec<u32>, index: usize) -> Result<(), AllocError>
    ensures room { OnOk result (index < vec_len steps.new) }
    ensures refused { OnErr result (step_at steps.old.items index ≡ None) }
    ensures same { (k : ℕ) → step_at steps.new.items k ≡ step_at steps.old.items k }
{
    while steps.len() <= index {
        steps.push(NO_STEP)?;
    }
    Ok(())
}

// Erases every step from `from` on.
fn erase_from(steps: &mut Vec<u32>, looks: &mut Vec<Look>, from: u64)
    requires { IsInOrder steps.old.items looks.old.items }
    ensures entries { (k : ℕ) → step_at steps.new.items k ≡ step_below from (step_at steps.old.items k) }
    ensures latest { (latest_of looks.new.items ≤ latest_of looks.old.items)
        × (latest_of looks.new.items ≤ from) }
    ensures order { IsInOrder steps.new.items looks.new.items }
{
    while let Some(last) = looks.last() {
        let Look { index, step } = *last;
        if u64::from(step) < from {
            return;
        }
        let _ = looks.pop();
        erase_at(steps, index, from);
    }
}

// Erases the step of an index if it is `from` or later.
fn erase_at(steps: &mut Vec<u32>, index: usize, from: u64)
    ensures { (k : ℕ) → step_at steps.new.items k
        ≡ (if k == index then step_below from (step_at steps.old.items k) else step_at steps.old.items k) }
{
    if index < steps.len() && u64::from(steps[index]) >= from {
        steps[index] = NO_STEP;
    }
}
