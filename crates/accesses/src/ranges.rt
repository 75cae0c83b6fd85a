// Ranges of cells, and filters of written cells and of looks.

ghost use Rattle.std.specs.Prelude.{is_some};
ghost use Rattle.i8080.specs.Memory.{is_among};
ghost use Rattle.pagemem.specs.Overlay.{looks_of, own_of};
ghost use Rattle.accesses.specs.Ranges.{Finds};

use pagemem::Overlay;

/// The cells from one address to another, both included.
#[derive(Clone, Copy, Debug, PartialEq, Eq)]
pub struct CellRange {
    pub first: u16,
    pub last: u16,
}

/// Returns whether a cell of a range was written.
pub(crate) fn is_any_written(noted: &Overlay, range: CellRange) -> bool
    ensures { Finds (λ a. is_some (own_of noted.now a)) range result }
{
    for cell in range.first..=range.last {
        if noted.written(cell).is_some() {
            return true;
        }
    }
    false
}

/// Returns whether a cell of a range was looked at.
pub(crate) fn is_any_looked(noted: &Overlay, range: CellRange) -> bool
    ensures { Finds (λ a. is_among a (looks_of noted.now)) range result }
{
    for cell in range.first..=range.last {
        if noted.looked(cell) {
            return true;
        }
    }
    false
}
