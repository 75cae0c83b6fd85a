ghost use Rattle.std.specs.Prelude.{◌≡◌};
ghost use Rattle.clap.specs.Values.{kind_of};
ghost use Rattle.command_words.specs.ErrorClass.{error_class};

use clap::Error;
use clap::error::ErrorKind;

/// What a program is to do with an error of `read_words`, `read_dependency_words` or `read_trace_words`.
#[derive(Clone, Copy, Debug, PartialEq, Eq)]
pub enum ErrorClass {
    /// A request for help or the version. The error's text goes to standard output; the status is 0.
    Information,
    /// A usage error. The error's text goes to standard error; the status is 1.
    UsageError,
    /// A failed allocation. The program prints its own message instead of the error's text; the status is 12.
    OutOfMemory,
}

/// Returns what an error of `clap` means for the program, by its kind.
pub fn error_class(error: &Error) -> ErrorClass
    ensures { result ≡ error_class (kind_of error.now) }
{
    match error.kind() {
        ErrorKind::OutOfMemory => ErrorClass::OutOfMemory,
        ErrorKind::DisplayHelp | ErrorKind::DisplayVersion => ErrorClass::Information,
        _ => ErrorClass::UsageError,
    }
}
