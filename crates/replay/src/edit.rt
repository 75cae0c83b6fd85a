ghost use Rattle.std.specs.Prelude.{◌≡◌};

use machine::{Bytes, Name};
use std::alloc::AllocError;
use thiserror::Error;

/// An edit of the session.
#[derive(Drop)]
pub enum Edit {
    /// An insertion of bytes into the script before an offset.
    Insert(u64, Bytes),
    /// A replacement of the script's bytes from an offset on; the length of the script stays the same.
    Replace(u64, Bytes),
    /// A removal of bytes from the script: `Remove(offset, count)`.
    Remove(u64, u64),
    /// A replacement of the program's bytes from an address on.
    Poke(u16, Bytes),
    /// A host file, new or replaced, with these bytes, padded with 1AH to whole records.
    SetFile(Name, Bytes),
    /// The removal of a host file.
    RemoveFile(Name),
    /// A new limit, in steps.
    SetLimit(u64),
}

/// The reason why an edit is refused.
#[derive(Clone, Copy, Debug, PartialEq, Eq, Error)]
pub enum EditError {
    /// The offset, or the end of the bytes to replace or remove, is past the end of the script.
    #[error("past the end of the script")]
    PastEnd,
    /// The script would have more than 1,048,576 bytes.
    #[error("the script is too long")]
    ScriptTooLong,
    /// There is no host file of this name.
    #[error("no such file")]
    NoSuchFile,
    /// The file has more than 8,388,608 bytes.
    #[error("the file is too long")]
    FileTooLong,
    /// There are 512 host files already.
    #[error("there are too many files")]
    TooManyFiles,
    /// The bytes of a poke are not all inside the program.
    #[error("outside the program")]
    OutsideProgram,
    /// The limit is more than 4,000,000,000 steps.
    #[error("the limit is too large")]
    LimitTooLarge,
    /// An allocation failed. Only insertions and files that are set can fail in this way.
    #[error("out of memory")]
    OutOfMemory,
}

impl From<AllocError> for EditError {
    ghost use Rattle.replay.specs.declared.edit.EditError.TheVariants.{OutOfMemory};

    ghost from_gives = { λ _ refusal. refusal ≡ OutOfMemory };

    fn from(_: AllocError) -> Self {
        Self::OutOfMemory
    }
}

impl EditError {
    ghost use Rattle.replay.specs.EditAnswers.{edit_error_number};

    /// Returns the number of the refusal, 1 to 8.
    pub fn number(self) -> u8
        ensures { result ≡ edit_error_number self }
    {
        match self {
            EditError::PastEnd => 1,
            EditError::ScriptTooLong => 2,
            EditError::NoSuchFile => 3,
            EditError::FileTooLong => 4,
            EditError::TooManyFiles => 5,
            EditError::OutsideProgram => 6,
            EditError::LimitTooLarge => 7,
            EditError::OutOfMemory => 8,
        }
    }
}
