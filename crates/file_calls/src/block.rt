ghost use Rattle.std.specs.Prelude.{◌≡◌, ◌∷◌};
ghost use Rattle.hostfiles.specs.Drives.{drive_number};
ghost use Rattle.file_calls.specs.Findings.{key_of, new_key_of};

use hostfiles::{Drive, Fcb, Key};

/// A file control block with the drive that it is for.
#[derive(Clone, Copy)]
pub struct Block {
    /// The drive that the control block names.
    pub drive: Drive,
    /// The control block.
    pub fcb: Fcb,
}

impl Block {
    /// Returns the key of the file that the control block names, at its bytes 1 to 11.
    pub fn key(&self) -> Key
        ensures { result ≡ key_of self.now }
    {
        on_drive(self.drive, self.fcb.key())
    }

    /// Returns the new key of a rename, at bytes 17 to 27.
    pub fn new_key(&self) -> Key
        ensures { result ≡ new_key_of self.now }
    {
        on_drive(self.drive, self.fcb.new_key())
    }
}

// Returns the key of a name on a drive.
fn on_drive(drive: Drive, name: [u8; 11]) -> Key
    ensures { result ≡ drive_number drive ∷ name }
{
    let mut key = [drive.number(); 12];
    key[1..12].copy_from_slice(&name);
    key
}
