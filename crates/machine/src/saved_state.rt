ghost use Rattle.std.specs.Prelude.{◌≡◌, [], IfOk, length, List, ℕ};
ghost use Rattle.hostfiles.specs.FileLooks.{no_looks};
ghost use Rattle.machine.specs.Machine.{HasNoLooks};
ghost use Rattle.machine.specs.SavedState.{state_with_text, saved_state_of};
ghost use Rattle.machine.specs.WrittenCells.{written_cells};

use crate::session::Session;
use crate::state::State;
use console_calls::{Desk, Spot};
use hostfiles::{Changes, FileLooks, Journal};
use i8080::Regs;
use pagemem::{BlankMarks, Cells, Overlay};
use std::alloc::{AllocError, Global};
use std::marker::Model;

/// A saved state: the registers, what was written, what was done to the files, and the desk with the length of its text
/// in place of the text. It holds no looks.
#[derive(Drop)]
pub struct SavedState {
    regs: Regs,
    cells: Cells,
    spot: Spot,
    text_length: usize,
    journal: Journal,
}

impl Model for SavedState {
    ghost use Rattle.std.specs.Coded.{codes};
    ghost use Rattle.pagemem.specs.Cells.{own_in};
    ghost use Rattle.console_calls.specs.ScriptLooks.{IsSpotOf};
    ghost use Rattle.machine.specs.StateView.{cells_code, changes_code};
    ghost use Rattle.machine.specs.WrittenCells.{written_cells};
    ghost use Rattle.machine.specs.SavedState.{SavedState};

    ghost Value = { SavedState };

    ghost coded = { Prim.hlevel (codes, cells_code, changes_code) };

    ghost view = { λ k. record {
      regs = k.regs;
      spot = k.spot;
      length = k.text_length;
      own = record { cells = written_cells (own_in k.cells); files = k.journal.entries };
    } };

    ghost invariant = { λ k. IsSpotOf k.spot k.text_length };
}

impl State {
    /// Saves the state. Its pages are shared with the saved state from now on; nothing that contracts see of it changes.
    ///
    /// # Errors
    ///
    /// `Err` means out of memory.
    pub fn save(&mut self) -> Result<SavedState, AllocError>
        ensures kept { IfOk result (λ k. k ≡ saved_state_of self.old.state) }
        ensures same { self.new ≡ self.old }
    {
        let journal = self.changes.journal.snapshot()?;
        let cells = self.overlay.shared_cells()?;
        Ok(SavedState {
            regs: self.regs,
            cells,
            spot: self.desk.spot(),
            text_length: self.desk.text().len(),
            journal,
        })
    }

    /// Consumes the state and returns it as a saved state, its text, and the memory for its marks. Allocates nothing.
    pub fn into_saved(self) -> (SavedState, Vec<u8>, BlankMarks)
        ensures kept { result.0 ≡ saved_state_of self.state }
        ensures text { result.1.items ≡ self.state.core.desk.text }
    {
        let State {
            regs,
            overlay,
            desk,
            changes,
        } = self;
        let Changes { journal, looks: _ } = changes;
        let spot = desk.spot();
        let text = desk.into_text();
        let (cells, marks) = overlay.into_parts();
        let kept = SavedState {
            regs,
            cells,
            spot,
            text_length: text.len(),
            journal,
        };
        (kept, text, marks)
    }
}

impl SavedState {
    ghost use Rattle.pagemem.specs.Overlay.{own_of, looks_of, beneath_of};
    ghost use Rattle.pagemem.specs.ImageParts.{image_with};
    ghost use Rattle.machine.specs.Machine.{cell_at};
    ghost use Rattle.machine.specs.Session.{image_of};

    /// Returns the length of the text, in bytes.
    pub fn text_length(&self) -> usize
        ensures { result ≡ self.now.length }
    {
        self.text_length
    }

    /// Returns the registers.
    pub fn regs(&self) -> Regs
        ensures { result ≡ self.now.regs }
    {
        self.regs
    }

    /// Returns what was written as an overlay with no looks, for runs of this session, over the given memory for its marks. `Err`
    /// means out of memory.
    pub fn overlay(&self, session: &Session, marks: BlankMarks) -> Result<Overlay, AllocError>
        ensures own { IfOk result (λ o. written_cells (own_of o) ≡ self.now.own.cells) }
        ensures looks { IfOk result (λ o. looks_of o ≡ []) }
        ensures beneath { IfOk result (λ o. beneath_of o ≡ image_of session.now) }
    {
        let cells = self.cells.snapshot()?;
        Ok(Overlay::from_parts(marks, cells, session.beneath()))
    }

    /// Returns what was done to the files, with no looks at the host files. `Err` means out of memory.
    pub fn changes(&self, alloc: Global) -> Result<Changes, AllocError>
        ensures files { IfOk result (λ c. c.journal.entries ≡ self.now.own.files) }
        ensures looks { IfOk result (λ c. c.looks ≡ no_looks) }
    {
        Ok(Changes {
            journal: self.journal.snapshot()?,
            looks: FileLooks::new(alloc),
        })
    }

    /// Restores the state from what was written, what was done to the files, and the text. Allocates nothing.
    pub fn resume(&self, overlay: Overlay, changes: Changes, text: Vec<u8>) -> State
        requires own { written_cells (own_of overlay) ≡ self.now.own.cells }
        requires looks { looks_of overlay ≡ [] }
        requires files { changes.journal.entries ≡ self.now.own.files }
        requires asks { changes.looks ≡ no_looks }
        requires text { length text.items ≡ self.now.length }
        ensures state { result.state ≡ state_with_text self.now text.items }
        ensures looked { HasNoLooks result.looked }
        ensures beneath { image_with result.beneath ≡ beneath_of overlay }
    {
        State {
            regs: self.regs,
            overlay,
            desk: Desk::from_parts(self.spot, text),
            changes,
        }
    }

    /// Returns what was done to the files.
    pub fn journal(&self) -> &Journal
        ensures { result.now.entries ≡ self.now.own.files }
    {
        &self.journal
    }

    /// Returns the byte of a cell: the written byte, or else the session's.
    pub fn cell(&self, session: &Session, a: u16) -> u8
        ensures { (text : List ℕ) → result ≡ cell_at session.now (state_with_text self.now text) a }
    {
        match self.cells.written(a) {
            Some(byte) => byte,
            None => session.image().at(a),
        }
    }
}
