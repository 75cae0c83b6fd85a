// The first steps of the questions to the host files.

ghost use Rattle.std.specs.Prelude.{◌≡◌, ◌<◌, ◌≤◌, OnOk, OnErr, None};
ghost use Rattle.hostfiles.specs.declared.looks.Ask.{Ask as HostAsk};
ghost use Rattle.first_looks.specs.FileSteps.{ErasesSteps, NotesStep, SameSteps, NoteMayFail, step_below, step_of_ask};

use crate::record_steps::RecordSteps;
use hostfiles::Ask;
use keymaps::KeyMap;
use std::alloc::{AllocError, Global};

/// For each question to the host files that was asked, the first step that asked it.
#[derive(Drop)]
pub struct FileSteps {
    /// The steps of the keys whose presence was asked for.
    pub has: KeyMap<u64>,
    /// The steps of the keys whose lengths were asked for.
    pub lengths: KeyMap<u64>,
    /// The steps of the records that were asked for.
    pub records: RecordSteps,
    /// For each drive whose directory was asked for, the step.
    pub directories: [Option<u64>; 256],
}

impl FileSteps {
    /// Creates first steps with no step noted. Allocates nothing.
    pub fn new(alloc: Global) -> Self
        ensures steps { (q : HostAsk) → step_of_ask result q ≡ None }
        ensures latest { result.records.latest ≡ 0 }
    {
        Self {
            has: KeyMap::new(alloc),
            lengths: KeyMap::new(alloc),
            records: RecordSteps::new(alloc),
            directories: [None; 256],
        }
    }

    /// Returns the step of a question, if it has one.
    pub fn get(&self, ask: &Ask) -> Option<u64>
        ensures { result ≡ step_of_ask self.now ask.now }
    {
        match *ask {
            Ask::Has(key) => self.has.get(&key).copied(),
            Ask::Length(key) => self.lengths.get(&key).copied(),
            Ask::Rec(key, k) => self.records.get(&key, k),
            Ask::Directory(drive) => self.directories[drive as usize],
        }
    }

    /// Notes a step for a question; a question that has a step keeps it. The step is below 4,294,967,295, and no step of a
    /// record is later.
    ///
    /// # Errors
    ///
    /// `Err` means out of memory; each question keeps its step. A question that has a step or is about a directory is never
    /// an `Err`.
    pub fn note(&mut self, ask: &Ask, step: u64) -> Result<(), AllocError>
        requires held { step < 4294967295 }
        requires latest { self.old.records.latest ≤ step }
        ensures ok { OnOk result (NotesStep self.old ask.now step self.new) }
        ensures err { OnErr result (SameSteps self.old self.new) }
        ensures latest { self.new.records.latest ≤ step }
        ensures refusal { OnErr result (NoteMayFail self.old ask.now) }
    {
        if self.get(ask).is_some() {
            return Ok(());
        }
        match *ask {
            Ask::Has(key) => self.has.insert(key, step),
            Ask::Length(key) => self.lengths.insert(key, step),
            Ask::Rec(key, k) => self.records.note(&key, k, step),
            Ask::Directory(drive) => {
                self.directories[drive as usize] = Some(step);
                Ok(())
            }
        }
    }

    /// Erases every step from `from` on. Allocates nothing.
    pub fn erase_from(&mut self, from: u64)
        ensures steps { (q : HostAsk) → step_of_ask self.new q ≡ step_below from (step_of_ask self.old q) }
        ensures latest { (self.new.records.latest ≤ self.old.records.latest)
            × (self.new.records.latest ≤ from) }
    {
        self.has.retain_below(from);
        self.lengths.retain_below(from);
        self.records.erase_from(from);
        erase_drives(&mut self.directories, from);
    }
}

// Erases every step of a drive from `from` on.
fn erase_drives(directories: &mut [Option<u64>], from: u64)
    ensures { ErasesSteps from directories.old directories.new }
{
    for step in directories.iter_mut() {
        *step = step_below(*step, from);
    }
}

// Returns the step if it is below `from`.
fn step_below(step: Option<u64>, from: u64) -> Option<u64>
    ensures { result ≡ step_below from step }
{
    match step {
        Some(step) if step < from => Some(step),
        _ => None,
    }
}
