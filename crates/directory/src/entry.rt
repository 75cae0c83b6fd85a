// Directory entries.

ghost use Rattle.std.specs.Prelude.{◌≡◌, ◌<◌};
ghost use Rattle.directory.specs.Entries.{entry_bytes, position_of};

use keymaps::Key;

/// A directory entry. A file has one for each extent with a record, or one for extent 0 if its length is 0.
#[derive(Clone, Copy)]
pub struct Entry {
    /// The file's key.
    pub key: Key,
    /// The extent, 0 to 511.
    pub extent: u16,
    /// The greatest index within the extent that has a record, plus one: 1 to 128, or 0 if the length of the file is 0.
    pub count: u8,
}

/// The position of an entry in the directory.
#[derive(Clone, Copy)]
pub struct Position {
    /// The file's key.
    pub key: Key,
    /// The extent.
    pub extent: u16,
}

/// A directory search, which resumes after the entry that it returned last.
#[derive(Clone, Copy)]
pub struct Search {
    /// The drive and the name that are searched for; the name may contain `?`.
    pub pattern: Key,
    /// The extent that is searched for, or 63 (`?`) for every extent.
    pub extent: u8,
    /// The bytes of the entry that was returned last.
    pub last: [u8; 32],
}

impl Entry {
    /// Returns the 32 bytes of the entry: 0, the eleven bytes of the name, the extent modulo 32, 0, the extent divided by 32,
    /// the count, and sixteen zeros.
    pub fn to_bytes(&self) -> [u8; 32]
        requires { self.now.extent < 512 }
        ensures { result ≡ entry_bytes self.now }
    {
        let key = self.key;
        let mut bytes = [0; 32];
        bytes[1..12].copy_from_slice(&key[1..12]);
        bytes[12] = (self.extent % 32) as u8;
        bytes[14] = (self.extent / 32) as u8;
        bytes[15] = self.count;
        bytes
    }
}

impl Position {
    /// Returns the position of the entry with these 32 bytes, on a drive.
    pub fn from_bytes(drive: u8, bytes: &[u8; 32]) -> Position
        ensures { result ≡ position_of drive bytes.now }
    {
        let mut key = [drive; 12];
        key[1..12].copy_from_slice(&bytes[1..12]);
        Position {
            key,
            extent: bytes[12] as u16 + 32 * bytes[14] as u16,
        }
    }
}
