ghost use Rattle.std.specs.Prelude.{◌≡◌};
ghost use Rattle.bdos.specs.SystemCalls.{system_function};

use file_calls::FileFunction;

/// The kind of call that a number names.
#[derive(Clone, Copy, Debug, PartialEq, Eq)]
pub enum SystemFunction {
    /// A call that names a file by a control block.
    OfFile(FileFunction),
    /// 18: returns the next matching entry of the directory.
    SearchNext,
    /// 19: deletes files.
    DeleteFile,
    /// A call for the console or the drives, or no call.
    OfDesk,
}

impl SystemFunction {
    /// Returns the kind of call that a number names.
    pub fn decode(number: u8) -> SystemFunction
        ensures { result ≡ system_function number }
    {
        match number {
            15 => SystemFunction::OfFile(FileFunction::Open),
            16 => SystemFunction::OfFile(FileFunction::Close),
            17 => SystemFunction::OfFile(FileFunction::SearchFirst),
            18 => SystemFunction::SearchNext,
            19 => SystemFunction::DeleteFile,
            20 => SystemFunction::OfFile(FileFunction::ReadSequential),
            21 => SystemFunction::OfFile(FileFunction::WriteSequential),
            22 => SystemFunction::OfFile(FileFunction::Make),
            23 => SystemFunction::OfFile(FileFunction::Rename),
            33 => SystemFunction::OfFile(FileFunction::ReadRandom),
            34 => SystemFunction::OfFile(FileFunction::WriteRandom),
            35 => SystemFunction::OfFile(FileFunction::FileSize),
            36 => SystemFunction::OfFile(FileFunction::SetRandomRecord),
            40 => SystemFunction::OfFile(FileFunction::WriteRandomZeroFill),
            _ => SystemFunction::OfDesk,
        }
    }
}
