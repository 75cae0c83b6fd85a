// The first steps of the records of files.

ghost use Rattle.std.specs.Prelude.{◌≡◌, ◌≤◌, ◌<◌, [], Some, None, IfSome, OnOk, OnErr, option_copied, option_map};
ghost use Rattle.keymaps.specs.Order.{Skips};
ghost use Rattle.first_looks.specs.RecordSteps.{ErasesRecords, NotesRecord, SameRecordSteps, step_of_record, steps_of};

use crate::sequential_steps::SequentialSteps;
use hostfiles::Key;
use std::alloc::{AllocError, Global};
use std::collections::BTreeMap;
use std::marker::Model;
use std::ops::Bound;

/// For each record of a file that was asked for, the first step that asked for it.
#[derive(Drop)]
pub struct RecordSteps {
    files: BTreeMap<Key, SequentialSteps>,
    latest: u64,
    alloc: Global,
}

impl Model for RecordSteps {
    ghost use Rattle.first_looks.specs.RecordSteps.{AreWithin, RecordNotes, record_notes_code};

    ghost Value = { RecordNotes };

    ghost coded = { record_notes_code };

    ghost view = { λ r. record {
      files = r.files.entries;
      latest = r.latest;
    } };

    ghost invariant = { λ r. AreWithin r.latest r.files.entries };
}

impl RecordSteps {
    /// Creates record steps with no step noted. Allocates nothing.
    pub fn new(alloc: Global) -> Self
        ensures { result ≡ record { files = []; latest = 0 } }
    {
        Self {
            files: BTreeMap::new(alloc),
            latest: 0,
            alloc,
        }
    }

    /// Returns the steps of the records of a file, if one was noted.
    pub fn file(&self, key: &Key) -> Option<&SequentialSteps>
        ensures { option_copied result ≡ steps_of self.now.files key.now }
    {
        self.files.get(key)
    }

    /// Returns the step of a record, if it has one.
    pub fn get(&self, key: &Key, number: u32) -> Option<u64>
        ensures { result ≡ step_of_record self.now key.now number }
    {
        match self.file(key) {
            Some(steps) => steps.get(number as usize),
            None => None,
        }
    }

    /// Returns the least key with steps above `after`, and its steps, or `None` if there is none. Every key is above `None`.
    pub fn next_file(&self, after: Option<Key>) -> Option<(&Key, &SequentialSteps)>
        ensures there { IfSome result (λ e. steps_of self.now.files e.0.now ≡ Some e.1.now) }
        ensures least { Skips after (λ x. steps_of self.now.files x ≡ None)
            (option_map (λ e. e.0.now) result) }
    {
        let start = match after {
            Some(key) => Bound::Excluded(key),
            None => Bound::Unbounded,
        };
        let mut rest = self.files.range((start, Bound::Unbounded));
        let (key, steps) = rest.next()?;
        Some((key, steps))
    }

    /// Notes a step for a record; a record that has a step keeps it. The step is below 4,294,967,295, and no step that was
    /// noted before is later.
    ///
    /// # Errors
    ///
    /// `Err` means out of memory; every record keeps its step. A record that has a step is never an `Err`.
    pub fn note(&mut self, key: &Key, number: u32, step: u64) -> Result<(), AllocError>
        requires held { step < 4294967295 }
        requires latest { self.old.latest ≤ step }
        ensures ok { OnOk result (NotesRecord self.old key.now number step self.new) }
        ensures err { OnErr result (SameRecordSteps self.old self.new) }
        ensures refused { OnErr result (step_of_record self.old key.now number ≡ None) }
        ensures latest { self.new.latest ≤ step }
    {
        self.latest = step;
        if let Some(steps) = self.files.get_mut(key) {
            return steps.note(number as usize, step);
        }
        let mut steps = SequentialSteps::new(self.alloc);
        steps.note(number as usize, step)?;
        self.files.insert(*key, steps)?;
        Ok(())
    }

    /// Erases every step from `from` on. Visits no file if no step is that late. Allocates nothing.
    pub fn erase_from(&mut self, from: u64)
        ensures entries { ErasesRecords from self.old self.new }
        ensures latest { (self.new.latest ≤ self.old.latest) × (self.new.latest ≤ from) }
    {
        if self.latest < from {
            return;
        }
        self.latest = from;
        self.files.retain(|_, steps| {
            steps.erase_from(from);
            true
        });
    }
}
