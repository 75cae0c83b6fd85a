ghost use Rattle.std.specs.Prelude.{◌≡◌, string_bytes};
ghost use Rattle.folders.specs.Failures.{io_paths};
ghost use Rattle.folders.specs.Faults.{FailsBy, IsReadFault, IsWriteFault, failure_paths};

use filenames::Name;
use std::alloc::AllocError;
use std::io;
use std::io::ErrorKind;

/// An error of a folder or of a file in it.
#[derive(Drop)]
pub enum Fault {
    /// The folder or the file of this path could not be read.
    CannotRead(String),
    /// The file of this path could not be written.
    CannotWrite(String),
    /// The file of the first path could not be moved there: its contents are in the file of the second path, and those of other files,
    /// which were to be moved later, in the files of these paths.
    CannotMove(String, String, Vec<String>),
    /// What is at this path is not what was loaded from it.
    Changed(String),
    /// What is at this path is no regular file.
    Irregular(String),
    /// Beside this path no temporary name is free.
    Crowded(String),
    /// The changed file of this name is on a drive without a folder.
    NoFolder(Name),
    /// Two files in a folder have this name, the first such by its key.
    TwoFiles(Name),
    /// The folder of this path would have more files than a drive can have.
    TooManyFiles(String),
    /// Two files in a folder would have this name.
    WouldBeTwo(Name),
    /// The host file of this name is refused, with the number of `FilesError`: 1 for more than 8,388,608 bytes, 2 for a 513th
    /// file.
    Refused(Name, u8),
}

/// Why folders are not read, or a file is not written.
#[derive(Drop)]
pub enum Failure {
    /// An error of a folder or a file.
    AtFault(Fault),
    /// A failed allocation.
    OutOfMemory,
}

impl From<AllocError> for Failure {
    ghost use Rattle.std.specs.Prelude.{◌≡◌};
    ghost use Rattle.folders.specs.declared.fault.Failure.TheVariants.{OutOfMemory};

    ghost from_gives = { λ _ failure. failure ≡ OutOfMemory };

    fn from(_: AllocError) -> Self {
        Self::OutOfMemory
    }
}

/// Returns the failure for an error of reading the file or folder of this path.
pub fn read_failure(error: io::Error, path: String) -> Failure
    ensures fault { FailsBy (IsReadFault (string_bytes path)) result }
    ensures paths { failure_paths result ≡ io_paths (string_bytes path) error }
{
    if error.kind() == ErrorKind::OutOfMemory {
        return Failure::OutOfMemory;
    }
    Failure::AtFault(Fault::CannotRead(path))
}

/// Returns the failure for an error of writing the file of this path.
pub fn write_failure(error: io::Error, path: String) -> Failure
    ensures fault { FailsBy (IsWriteFault (string_bytes path)) result }
    ensures paths { failure_paths result ≡ io_paths (string_bytes path) error }
{
    if error.kind() == ErrorKind::OutOfMemory {
        return Failure::OutOfMemory;
    }
    Failure::AtFault(Fault::CannotWrite(path))
}
