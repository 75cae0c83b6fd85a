ghost use Rattle.std.specs.Prelude.{◌≡◌, ◌<◌, ◌≤◌, false, IfOk, OnOk, OnErr, length};
ghost use Rattle.first_looks.specs.FirstLooks.{NotesLooks, SameBelow};
ghost use Rattle.machine.specs.Machine.{cell_at, start, HasNoLooks, HasNoQuestions, is_looked_at, looks_from};
ghost use Rattle.machine.specs.TakesQuestion.{TakesQuestion};
ghost use Rattle.machine.specs.Bound.{IsBound};
ghost use Rattle.machine.specs.Session.{IsSession};

use crate::session::{STEP_LIMIT, Session};
use console_calls::Desk;
use first_looks::{FirstLooks, Question};
use hostfiles::Changes;
use i8080::Regs;
use pagemem::{BlankMarks, Cells, Overlay};
use std::alloc::{AllocError, Global};
use std::marker::Model;

/// A state of a run with its looks: the registers, the overlay with what was written and the cells that were looked at,
/// the desk with the script offsets that were looked at, and the changes with what was done to the files and the
/// questions to the host files. Everything else is the session's.
#[derive(Drop)]
pub struct State {
    pub regs: Regs,
    pub overlay: Overlay,
    pub desk: Desk,
    pub changes: Changes,
}

impl Model for State {
    ghost use Rattle.std.specs.Coded.{codes};
    ghost use Rattle.pagemem.specs.Overlay.{own_of, parts_beneath};
    ghost use Rattle.machine.specs.StateView.{StateView, cells_code, changes_code, looks_code};
    ghost use Rattle.machine.specs.WrittenCells.{devices_of, state_with};
    ghost use Rattle.machine.specs.TakesStep.{looks_in};

    ghost Value = { StateView };

    ghost coded = { Prim.hlevel (codes, cells_code, changes_code, looks_code) };

    ghost view = { λ r. record {
      state = state_with r.regs (devices_of r.desk r.changes) (own_of r.overlay);
      looked = looks_in r.overlay (devices_of r.desk r.changes);
      beneath = parts_beneath r.overlay;
    } };
}

impl State {
    /// Returns the loaded state of a session: nothing is written, and nothing was looked at.
    ///
    /// # Errors
    ///
    /// `Err` means out of memory.
    pub fn load(alloc: Global, session: &Session) -> Result<State, AllocError>
        ensures state { IfOk result (λ r. r.state ≡ start) }
        ensures looked { IfOk result (λ r. HasNoLooks r.looked) }
        ensures bound { IfOk result (λ r. IsBound session.now r) }
        ensures session { OnOk result (IsSession session.now) }
    {
        State::load_over(alloc, session, BlankMarks::new(alloc)?)
    }

    /// Returns the loaded state of a session, over memory for its marks that an earlier run may have given back.
    ///
    /// # Errors
    ///
    /// `Err` means out of memory.
    pub fn load_over(
        alloc: Global,
        session: &Session,
        marks: BlankMarks,
    ) -> Result<State, AllocError>
        ensures state { IfOk result (λ r. r.state ≡ start) }
        ensures looked { IfOk result (λ r. HasNoLooks r.looked) }
        ensures bound { IfOk result (λ r. IsBound session.now r) }
        ensures session { OnOk result (IsSession session.now) }
    {
        let cells = Cells::new(alloc)?;
        Ok(State {
            regs: Regs {
                sp: 0xfdfe,
                pc: 0x0100,
                ..Regs::default()
            },
            overlay: Overlay::from_parts(marks, cells, session.beneath()),
            desk: Desk::new(alloc),
            changes: Changes::new(alloc),
        })
    }

    /// Returns the byte of a cell in a state of a session. This is no look.
    pub fn byte(&self, session: &Session, at: u16) -> u8
        ensures { result ≡ cell_at session.now self.now.state at }
    {
        self.overlay.written(at).unwrap_or(session.image().at(at))
    }

    /// Returns the number of cells that were looked at.
    #[inline(always)]
    pub fn look_count(&self) -> usize
        ensures { result ≡ length self.now.looked.cells }
    {
        self.overlay.look_count()
    }

    /// Removes and returns one of the new looks: the cell that was looked at after `next` others, with `next` then one more;
    /// or else a script offset or a question to the host files; `None` if there are none. The state and its cells stay.
    pub fn take_question(&mut self, next: &mut usize) -> Option<Question>
        requires { next.old ≤ length self.old.looked.cells }
        ensures taken { TakesQuestion next.old self.old.looked result next.new self.new.looked }
        ensures state { self.new.state ≡ self.old.state }
        ensures beneath { self.new.beneath ≡ self.old.beneath }
    {
        if *next < self.look_count() {
            let cell = self.overlay.nth_look(*next);
            *next += 1;
            return Some(Question::Cell(cell));
        }
        if let Some(offset) = self.desk.take_look() {
            return Some(Question::Script(offset as usize));
        }
        // This is the usual case, and it moves no question.
        if self.changes.looks.is_empty() {
            return None;
        }
        match self.changes.take_look() {
            Some(ask) => Some(Question::Host(ask)),
            None => None,
        }
    }

    /// Notes each new look as a look of the step that `first_looks` has not seen yet: the cells from index `from` on, and the
    /// script offsets and the questions to the host files, which are removed. The state and its cells stay.
    ///
    /// # Errors
    ///
    /// `Err` means out of memory. The noted steps below that step are then unchanged.
    #[inline(never)]
    pub fn note_looks(
        &mut self,
        from: usize,
        first_looks: &mut FirstLooks,
    ) -> Result<(), AllocError>
        requires few { from ≤ length self.old.looked.cells }
        requires seen { first_looks.old.seen ≤ STEP_LIMIT }
        ensures ok { OnOk result (HasNoQuestions self.new.looked
            × NotesLooks first_looks.old first_looks.new (is_looked_at (looks_from from self.old.looked))) }
        ensures err { OnErr result (SameBelow first_looks.old first_looks.new) }
        ensures seen { first_looks.new.seen ≡ first_looks.old.seen }
        ensures state { self.new.state ≡ self.old.state }
        ensures cells { self.new.looked.cells ≡ self.old.looked.cells }
        ensures beneath { self.new.beneath ≡ self.old.beneath }
    {
        let mut next = from;
        while let Some(question) = self.take_question(&mut next) {
            first_looks.note(&question)?;
        }
        Ok(())
    }

    /// Forgets the script offsets that were looked at, and the questions to the host files. The state and the cells that
    /// were looked at are unchanged. Allocates nothing.
    #[inline(always)]
    pub fn forget_questions(&mut self)
        ensures state { self.new.state ≡ self.old.state }
        ensures cells { self.new.looked.cells ≡ self.old.looked.cells }
        ensures none { HasNoQuestions self.new.looked }
        ensures beneath { self.new.beneath ≡ self.old.beneath }
    {
        self.desk.forget_looks();
        // This is the usual case, and it writes nothing.
        if self.changes.looks.is_empty() {
            return;
        }
        self.changes.looks.clear();
    }
}
