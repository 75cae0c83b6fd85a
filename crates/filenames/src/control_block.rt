// File control blocks.

ghost use Rattle.std.specs.Prelude.{◌≡◌, ◌≤◌, ◌<◌, length, slice_index};
ghost use Rattle.filenames.specs.ControlBlock.{place_of, random_place_of, name_at, with_place};

use std::marker::Model;

/// The 36 bytes of a file control block [Interface Guide 1979, file control blocks]: dr 0, name and type 1 to 11, ex 12, s1
/// 13, s2 14, rc 15, d0 to d15 16 to 31, cr 32, r0 to r2 33 to 35.
#[derive(Clone, Copy, PartialEq, Eq)]
pub struct Fcb {
    bytes: [u8; 36],
}

impl Model for Fcb {
    ghost use Rattle.std.specs.Prelude.{List, ℕ, length, ◌≡◌};

    ghost Value = { List ℕ };

    ghost view = { λ a. a.bytes };

    ghost inverse = { λ bytes. record { bytes = bytes } };
}

impl Fcb {
    /// Creates a control block from its bytes.
    pub fn from_bytes(bytes: &[u8; 36]) -> Fcb
        ensures { result ≡ bytes.now }
    {
        Fcb { bytes: *bytes }
    }

    /// Returns the bytes.
    pub fn to_bytes(&self) -> [u8; 36]
        ensures { result ≡ self.now }
    {
        self.bytes
    }

    /// Returns the drive byte: 0 for the current drive, 1 to 4 for A to D.
    pub fn dr(&self) -> u8
        ensures { result ≡ slice_index self.now 0 }
    {
        self.bytes[0]
    }

    /// Returns the eleven bytes of name and type, bytes 1 to 11.
    pub fn key(&self) -> [u8; 11]
        ensures { result ≡ name_at self.now 1 }
    {
        name_bytes(&self.bytes[1..12])
    }

    /// Returns the eleven bytes of the new name and type of a rename, bytes 17 to 27.
    pub fn new_key(&self) -> [u8; 11]
        ensures { result ≡ name_at self.now 17 }
    {
        name_bytes(&self.bytes[17..28])
    }

    /// Returns the extent byte, ex.
    pub fn ex(&self) -> u8
        ensures { result ≡ slice_index self.now 12 }
    {
        self.bytes[12]
    }

    /// Returns the sequential record number: 4096 times s2, plus 128 times ex, plus cr.
    pub fn place(&self) -> u32
        ensures { result ≡ place_of self.now }
    {
        4096 * self.bytes[14] as u32 + 128 * self.bytes[12] as u32 + self.bytes[32] as u32
    }

    /// Sets the sequential record number, at most 65,536: cr becomes the number modulo 128, ex the number divided by 128,
    /// modulo 32, and s2 the number divided by 4096.
    pub fn set_place(&mut self, place: u32)
        requires { place ≤ 65536 }
        ensures { self.new ≡ with_place self.old place }
    {
        self.bytes[12] = (place / 128 % 32) as u8;
        self.bytes[14] = (place / 4096) as u8;
        self.bytes[32] = (place % 128) as u8;
    }

    /// Returns the low two bytes of the random record number, r0 and r1, as a number below 65,536.
    pub fn random(&self) -> u32
        ensures place { result ≡ random_place_of self.now }
        ensures within { result < 65536 }
    {
        self.bytes[33] as u32 + 256 * self.bytes[34] as u32
    }

    /// Returns the overflow byte of the random record number, r2.
    pub fn r2(&self) -> u8
        ensures { result ≡ slice_index self.now 35 }
    {
        self.bytes[35]
    }
}

// Returns eleven bytes as an array.
fn name_bytes(bytes: &[u8]) -> [u8; 11]
    requires { length bytes.now ≡ 11 }
    ensures { result ≡ bytes.now }
{
    let mut copy = [0; 11];
    copy.copy_from_slice(bytes);
    copy
}
