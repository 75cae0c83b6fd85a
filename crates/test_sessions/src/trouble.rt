// Why a session is given up.

use std::alloc::AllocError;
use std::test::Fail;

/// What differs from the expected result.
#[derive(Clone, Copy, PartialEq, Eq, Debug)]
pub enum Difference {
    /// A run ended by another cause.
    Cause,
    /// A run ended after another number of steps.
    Steps,
    /// There are more or fewer rows.
    Left,
    /// A question has another answer.
    Answer,
}

/// Why a session is given up.
#[derive(Clone, Copy, PartialEq, Eq, Debug)]
pub enum Trouble {
    /// An allocation failed.
    OutOfMemory,
    /// A name, a host file, a session or its options are refused.
    Refused,
    /// The number of a question, counted from 1, or 0 for the run, and what differs.
    Differs(usize, Difference),
}

impl From<AllocError> for Trouble {
    fn from(_error: AllocError) -> Trouble {
        Trouble::OutOfMemory
    }
}

/// Returns the outcome of a case, with the name of the case in an error.
pub fn name_failure(name: &str, outcome: Result<(), Trouble>) -> Result<(), Fail> {
    match outcome {
        Ok(()) => Ok(()),
        Err(trouble) => Err(Fail::new(format_args!("{name}: {trouble:?}"))),
    }
}
