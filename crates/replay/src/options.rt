ghost use Rattle.std.specs.Prelude.{◌≡◌};

use std::alloc::AllocError;
use thiserror::Error;

/// How checkpoints are made.
#[derive(Clone, Copy, Debug, PartialEq, Eq)]
pub struct Options {
    /// The number of steps from one due checkpoint to the next, 1 to 1,000,000,000. A checkpoint is due at each multiple.
    pub spacing: u64,
    /// The largest number of checkpoints that are kept, 1 to 4,096.
    pub slots: usize,
}

/// The reason why options are refused.
#[derive(Clone, Copy, Debug, PartialEq, Eq, Error)]
pub enum OptionsError {
    /// The spacing is not 1 to 1,000,000,000 steps.
    #[error("the spacing is out of range")]
    Spacing,
    /// The number of slots is not 1 to 4,096.
    #[error("the count of slots is out of range")]
    Slots,
    /// An allocation failed.
    #[error("out of memory")]
    OutOfMemory,
}

impl From<AllocError> for OptionsError {
    ghost use Rattle.replay.specs.declared.options.OptionsError.TheVariants.{OutOfMemory};

    ghost from_gives = { λ _ refusal. refusal ≡ OutOfMemory };

    fn from(_: AllocError) -> Self {
        Self::OutOfMemory
    }
}

impl OptionsError {
    ghost use Rattle.replay.specs.Options.{options_error_number};

    /// Returns the number of the refusal, 1 to 3.
    pub fn number(self) -> u8
        ensures { result ≡ options_error_number self }
    {
        match self {
            OptionsError::Spacing => 1,
            OptionsError::Slots => 2,
            OptionsError::OutOfMemory => 3,
        }
    }
}
