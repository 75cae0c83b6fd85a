ghost use Rattle.std.specs.Prelude.{◌≡◌, ◌+◌, ◌^◌, ◌<◌, ◌≤◌, [], None, OnOk, OnErr, length, true};
ghost use Rattle.hostfiles.specs.declared.looks.Ask.{Ask as HostAsk};
ghost use Rattle.first_looks.specs.FileSteps.{step_of_ask};
ghost use Rattle.first_looks.specs.FirstLooks.{ErasesLooks, NotesLooks, SameLooks, step_of, with_seen};
ghost use Rattle.first_looks.specs.Questions.{same_question};
ghost use Rattle.first_looks.specs.SequentialSteps.{IsEarliestFrom};

use crate::file_steps::FileSteps;
use crate::first_steps::FirstSteps;
use crate::question::Question;
use crate::sequential_steps::SequentialSteps;
use std::alloc::{AllocError, Global};
use std::marker::Model;

/// The first looks: for each question the first step that asked it, for all steps below `seen`.
#[derive(Drop)]
pub struct FirstLooks {
    cells: FirstSteps,
    offsets: SequentialSteps,
    files: FileSteps,
    seen: u64,
}

impl Model for FirstLooks {
    ghost use Rattle.std.specs.Prelude.{◌≤◌};
    ghost use Rattle.std.specs.Coded.{codes};
    ghost use Rattle.first_looks.specs.Codes.{file_steps_code};
    ghost use Rattle.first_looks.specs.FirstLooks.{FirstLooksView};

    ghost Value = { FirstLooksView };

    ghost coded = { Prim.hlevel (codes, file_steps_code) };

    ghost view = { λ t. record {
      cells = t.cells.entries;
      offsets = t.offsets.entries;
      files = t.files;
      seen = t.seen;
    } };

    ghost invariant = { λ t. (t.cells.latest ≤ t.seen) × (t.offsets.latest ≤ t.seen)
        × (t.files.records.latest ≤ t.seen) };
}

impl FirstLooks {
    /// Creates first looks with no step noted and `seen` = 0. Allocates nothing.
    pub fn new(alloc: Global) -> FirstLooks
        ensures cells { result.cells ≡ [] }
        ensures offsets { result.offsets ≡ [] }
        ensures seen { result.seen ≡ 0 }
        ensures files { (a : HostAsk) → step_of_ask result.files a ≡ None }
    {
        FirstLooks {
            cells: FirstSteps::new(alloc),
            offsets: SequentialSteps::new(alloc),
            files: FileSteps::new(alloc),
            seen: 0,
        }
    }

    /// Returns the step below which every look is noted.
    #[inline(always)]
    pub fn seen(&self) -> u64
        ensures { result ≡ self.now.seen }
    {
        self.seen
    }

    /// Returns the first step that asked a question, if one is noted.
    #[inline(always)]
    pub fn get(&self, question: &Question) -> Option<u64>
        ensures { result ≡ step_of self.now question.now }
    {
        match question {
            Question::Cell(at) => self.cells.get(usize::from(*at)),
            Question::Script(offset) => self.offsets.get(*offset),
            Question::Host(ask) => self.files.get(ask),
        }
    }

    /// Returns the first steps of the cells, by address.
    pub fn cells(&self) -> &FirstSteps
        ensures { result.now.entries ≡ self.now.cells }
    {
        &self.cells
    }

    /// Returns the first steps of the script offsets.
    pub fn offsets(&self) -> &SequentialSteps
        ensures { result.now.entries ≡ self.now.offsets }
    {
        &self.offsets
    }

    /// Returns the end of the noted script offsets: no noted look is at this offset or past it.
    pub fn script_end(&self) -> usize
        ensures { result ≡ length self.now.offsets }
    {
        self.offsets.end()
    }

    /// Returns `true` only if this script offset was looked at and no offset past it was looked at earlier. It may return
    /// `false` if the offsets were not looked at in order.
    pub fn is_earliest_from(&self, offset: usize) -> bool
        ensures { result ≡ true → IsEarliestFrom self.now.offsets offset }
    {
        self.offsets.is_earliest_from(offset)
    }

    /// Returns the first steps of the questions to the host files.
    pub fn files(&self) -> &FileSteps
        ensures { result.now ≡ self.now.files }
    {
        &self.files
    }

    /// Notes a question as asked by step `seen`; a question that has a step keeps it.
    ///
    /// # Errors
    ///
    /// `Err` means out of memory; every question keeps its step. A question that has a step is never an `Err`.
    pub fn note(&mut self, question: &Question) -> Result<(), AllocError>
        requires { self.old.seen < 4294967295 }
        ensures ok { OnOk result (NotesLooks self.old self.new (λ q. same_question q question.now)) }
        ensures err { OnErr result (SameLooks self.old self.new) }
        ensures refused { OnErr result (step_of self.old question.now ≡ None) }
        ensures seen { self.new.seen ≡ self.old.seen }
    {
        let step = self.seen;
        match question {
            Question::Cell(at) => self.cells.note(usize::from(*at), step),
            Question::Script(offset) => self.offsets.note(*offset, step),
            Question::Host(ask) => self.files.note(ask, step),
        }
    }

    /// Advances `seen` by one step.
    #[inline(always)]
    pub fn next_step(&mut self)
        requires { self.old.seen + 1 < 2 ^ 64 }
        ensures { self.new ≡ with_seen self.old (self.old.seen + 1) }
    {
        self.seen += 1;
    }

    /// Moves `seen` up to a step, after steps that looked at nothing new.
    pub fn advance_to(&mut self, step: u64)
        requires { self.old.seen ≤ step }
        ensures { self.new ≡ with_seen self.old step }
    {
        self.seen = step;
    }

    /// Erases every step that is `from` or later, and sets `seen` to `from`. Allocates nothing.
    pub fn erase_from(&mut self, from: u64)
        requires { from ≤ self.old.seen }
        ensures steps { ErasesLooks from self.old self.new }
        ensures seen { self.new.seen ≡ from }
    {
        self.cells.erase_from(from);
        self.offsets.erase_from(from);
        self.files.erase_from(from);
        self.seen = from;
    }
}
