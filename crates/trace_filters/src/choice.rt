// Which steps have a line.

use accesses::CellRange;
use filenames::Key;

/// Which steps of a run have a line: the ones that pass all of these.
#[derive(Clone, Copy, Debug, PartialEq, Eq)]
pub struct Choice {
    /// Whether instructions have lines too, and not calls alone.
    pub instructions: bool,
    /// The first step.
    pub from: u64,
    /// The last step.
    pub to: u64,
    /// The only PC.
    pub at: Option<u16>,
    /// The cells of which a step must write one.
    pub writes: Option<CellRange>,
    /// The cells of which a step must read one.
    pub reads: Option<CellRange>,
    /// The file that a call must name.
    pub file: Option<Key>,
    /// How many lines are left, counted from the end.
    pub last: Option<u64>,
}
