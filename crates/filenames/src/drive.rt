// The drives.

/// One of the drives A to D.
#[derive(Clone, Copy, Debug, PartialEq, Eq)]
pub enum Drive {
    /// The first drive.
    A,
    /// The second drive.
    B,
    /// The third drive.
    C,
    /// The fourth drive.
    D,
}

impl Drive {
    ghost use Rattle.std.specs.Prelude.{◌≡◌, ◌<◌};
    ghost use Rattle.filenames.specs.Drives.{drive_at, drive_number};

    /// All drives, in the order of their numbers.
    pub const ALL: [Drive; 4] = [Drive::A, Drive::B, Drive::C, Drive::D];

    /// Returns the number of the drive, 0 to 3 for A to D.
    pub fn number(self) -> u8
        ensures number { result ≡ drive_number self }
        ensures within { result < 4 }
    {
        match self {
            Drive::A => 0,
            Drive::B => 1,
            Drive::C => 2,
            Drive::D => 3,
        }
    }

    /// Returns the drive with this number, or `None` if the number exceeds 3.
    pub fn from_number(number: u8) -> Option<Drive>
        ensures { result ≡ drive_at number }
    {
        match number {
            0 => Some(Drive::A),
            1 => Some(Drive::B),
            2 => Some(Drive::C),
            3 => Some(Drive::D),
            _ => None,
        }
    }
}
