ghost use Rattle.std.specs.Prelude.{◌≡◌, ℕ, Bool, true, vec_len};

use i8080::Bus;
use std::alloc::AllocError;

/// A list of 65,536 bytes, all of which count as written.
#[derive(Drop)]
pub struct PlainMemory {
    bytes: Vec<u8>,
    ghost whole: { vec_len bytes ≡ 65536 },
}

impl PlainMemory {
    ghost use Rattle.pagemem.specs.Plain.{plain_own, plain_memory};

    /// Creates a memory of 65,536 bytes.
    pub fn new(bytes: Vec<u8>) -> PlainMemory
        requires { vec_len bytes ≡ 65536 }
        ensures { (plain_memory result).own ≡ plain_own bytes.items }
    {
        PlainMemory { bytes }
    }
}

impl Bus for PlainMemory {
    ghost use Rattle.pagemem.specs.Plain.{plain_memory};

    ghost memory = { λ m. plain_memory m };

    ghost is_ready = { λ _. λ _. true };

    #[inline]
    fn ready(&mut self, _a: u16) -> Result<(), AllocError> {
        Ok(())
    }

    #[inline]
    fn read(&mut self, a: u16) -> u8 {
        self.bytes[a as usize]
    }

    #[inline]
    fn write(&mut self, a: u16, value: u8) {
        self.bytes[a as usize] = value;
    }
}
