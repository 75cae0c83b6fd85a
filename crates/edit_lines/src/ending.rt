use std::alloc::AllocError;
use streams::Failed;
use thiserror::Error;

/// How a replay ends without an error.
#[derive(Clone, Copy, Debug)]
pub struct Ending {
    /// The number of lines, all of which were executed: at most 1,000,000.
    pub lines: u64,
}

/// Why a replay ends early. Lines are numbered from 1.
#[derive(Clone, Copy, Debug, PartialEq, Eq, Error)]
pub enum ReplayFault {
    /// The line of this number is no edit line, or it is past the 1,000,000th. The lines before it were executed, and exactly
    /// their replies written.
    #[error("line {0} is malformed")]
    Malformed(u64),
    /// The line of this number has more than 65,536 bytes. The lines before it were executed, and exactly their replies written.
    #[error("line {0} is too long")]
    LineTooLong(u64),
    /// The reader failed. The lines whose 0AH was read were executed, and exactly their replies written.
    #[error("the edit lines could not be read")]
    Read,
    /// The writer failed. Some first lines were executed, and a prefix of their replies written.
    #[error("the replies could not be written")]
    Write,
    /// An allocation failed: before anything was read, or at a line that may need one. The lines before it were executed, and exactly
    /// their replies written.
    #[error("out of memory")]
    OutOfMemory,
}

impl From<AllocError> for ReplayFault {
    ghost use Rattle.std.specs.Prelude.{◌≡◌};
    ghost use Rattle.edit_lines.specs.declared.ending.ReplayFault.TheVariants.{OutOfMemory};

    ghost from_gives = { λ _ fault. fault ≡ OutOfMemory };

    fn from(_: AllocError) -> Self {
        Self::OutOfMemory
    }
}

impl From<Failed> for ReplayFault {
    ghost use Rattle.std.specs.Prelude.{◌≡◌};
    ghost use Rattle.edit_lines.specs.declared.ending.ReplayFault.TheVariants.{Write};

    ghost from_gives = { λ _ fault. fault ≡ Write };

    fn from(_: Failed) -> Self {
        Self::Write
    }
}
