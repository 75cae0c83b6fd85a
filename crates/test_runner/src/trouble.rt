// Why the commands are given up.

use std::alloc::AllocError;
use std::io;
use std::io::ErrorKind;

/// Why the commands are given up.
#[derive(Clone, Copy, PartialEq, Eq)]
pub enum Trouble {
    /// An allocation failed twice for one command.
    OutOfMemory,
    /// A file or standard output failed.
    Device,
    /// This program has no such words.
    Words,
    /// A host file is refused with this number.
    FileRefused(u8),
    /// The session is refused with this number.
    SessionRefused(u8),
    /// The options are refused with this number.
    OptionsRefused(u8),
    /// A host file is there although memory for it ran out.
    RefusedFileThere,
    /// An edit that needs no memory reported out of memory.
    EditWantsMemory,
    /// An edit that ran out of memory left another session or other checkpoints.
    EditLeftOther,
    /// A run that ran out of memory left another session, or lost a checkpoint.
    RunLeftOther,
}

impl From<AllocError> for Trouble {
    fn from(_error: AllocError) -> Trouble {
        Trouble::OutOfMemory
    }
}

impl From<io::Error> for Trouble {
    fn from(error: io::Error) -> Trouble {
        if error.kind() == ErrorKind::OutOfMemory {
            Trouble::OutOfMemory
        } else {
            Trouble::Device
        }
    }
}

impl Trouble {
    /// Returns the message.
    pub fn text(self) -> &'static str {
        match self {
            Trouble::OutOfMemory => "out of memory twice",
            Trouble::Device => "a file or standard output failed",
            Trouble::Words => "unknown words",
            Trouble::FileRefused(_) => "a host file is refused",
            Trouble::SessionRefused(_) => "the session is refused",
            Trouble::OptionsRefused(_) => "the options are refused",
            Trouble::RefusedFileThere => "a host file is there although memory for it ran out",
            Trouble::EditWantsMemory => "an edit that needs no memory reports out of memory",
            Trouble::EditLeftOther => "an edit that ran out of memory changed something",
            Trouble::RunLeftOther => "a run that ran out of memory changed something",
        }
    }
}
