// Indexes in a row that were asked for.

ghost use Rattle.std.specs.Prelude.{◌≡◌, ◌<◌, [], Some, IfSome, IfNone, length};
ghost use Rattle.first_looks.specs.FirstSteps.{step_in};
ghost use Rattle.dependencies.specs.Rows.{IsFirstRow, joins, rows_from};

use first_looks::{FirstSteps, SequentialSteps};

/// Indexes in a row that were asked for.
#[derive(Clone, Copy)]
pub struct Row {
    /// The first index.
    pub first: usize,
    /// The index behind the last one.
    pub end: usize,
    /// The first step that asked for one of them.
    pub step: u64,
}

/// Which neighbours belong to one row.
#[derive(Clone, Copy, Debug, PartialEq, Eq)]
pub enum Joining {
    /// All of them.
    Joined,
    /// Those that the same step asked for first.
    ByStep,
}

impl Joining {
    // Returns whether neighbours with these steps belong to one row.
    fn join(self, first: u64, second: u64) -> bool
        ensures { result ≡ joins self first second }
    {
        match self {
            Joining::Joined => true,
            Joining::ByStep => first == second,
        }
    }
}

/// For each index of one kind the first step that asked for it, if there is one.
pub trait StepTable {
    ghost use Rattle.std.specs.Prelude.{ℕ, List, Option};

    ghost steps: { Self → List (Option ℕ) };

    /// Returns the first step that asked for an index, if there is one.
    fn step_at(&self, index: usize) -> Option<u64>
        ensures { result ≡ step_in (steps self.now) index };

    /// Returns an index from which on no index was asked for.
    fn end(&self) -> usize
        ensures { result ≡ length (steps self.now) };
}

impl StepTable for FirstSteps {
    ghost steps = { λ t. t.entries };

    fn step_at(&self, index: usize) -> Option<u64> {
        self.get(index)
    }

    fn end(&self) -> usize {
        FirstSteps::end(self)
    }
}

impl StepTable for SequentialSteps {
    ghost steps = { λ t. t.entries };

    fn step_at(&self, index: usize) -> Option<u64> {
        self.get(index)
    }

    fn end(&self) -> usize {
        SequentialSteps::end(self)
    }
}

/// Returns the first row of the indexes from `from` on; `None` if no index from `from` on was asked for.
pub fn next_row<T: StepTable>(table: &T, joining: Joining, from: usize) -> Option<Row>
    ensures some { IfSome result (λ r. IsFirstRow joining (T.steps table.now) from r) }
    ensures none { IfNone result (rows_from joining (T.steps table.now) from ≡ []) }
{
    let end = table.end();
    let mut first = from;
    while first < end {
        if let Some(step) = table.step_at(first) {
            return Some(row_from(table, joining, first, step, end));
        }
        first += 1;
    }
    None
}

// Returns the row that begins with this index, which `step` asked for first.
fn row_from<T: StepTable>(table: &T, joining: Joining, first: usize, step: u64, end: usize) -> Row
    requires end { end ≡ length (T.steps table.now) }
    requires first { first < end }
    requires there { step_in (T.steps table.now) first ≡ Some step }
    ensures { IsFirstRow joining (T.steps table.now) first result }
{
    let mut row = Row {
        first,
        end: first + 1,
        step,
    };
    while row.end < end {
        match table.step_at(row.end) {
            Some(step) if joining.join(row.step, step) => {
                row.end += 1;
                row.step = row.step.min(step);
            }
            _ => return row,
        }
    }
    row
}
