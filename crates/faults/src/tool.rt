// The programs, and the names by which they are called.

/// A program whose errors are reported.
#[derive(Clone, Copy, Debug, PartialEq, Eq)]
pub enum Tool {
    /// `cpmrun`
    Cpmrun,
    /// `cpmdeps`
    Cpmdeps,
    /// `cpmtrace`
    Cpmtrace,
}

impl Tool {
    ghost use Rattle.std.specs.Prelude.{◌≡◌};
    ghost use Rattle.faults.specs.Faults.{called_by, name_of};

    /// Returns the name of the program.
    pub fn name(self) -> &'static str
        ensures { result.now ≡ name_of self }
    {
        match self {
            Tool::Cpmrun => "cpmrun",
            Tool::Cpmdeps => "cpmdeps",
            Tool::Cpmtrace => "cpmtrace",
        }
    }

    /// Returns the program that is called by a path, which ends with its name. Any other name is one of `cpmrun`.
    pub fn called_by(path: &[u8]) -> Tool
        ensures { result ≡ called_by path.now }
    {
        if path == b"cpmdeps".as_slice() || path.ends_with(b"/cpmdeps") {
            Tool::Cpmdeps
        } else if path == b"cpmtrace".as_slice() || path.ends_with(b"/cpmtrace") {
            Tool::Cpmtrace
        } else {
            Tool::Cpmrun
        }
    }
}
