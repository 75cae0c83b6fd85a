ghost use Rattle.std.specs.Prelude.{ℕ, Bool, false};
ghost use Rattle.pagemem.specs.Overlay.{is_ready_at, is_readable_at, memory_of};
ghost use Rattle.pagemem.specs.declared.known.TheConstants.{SYSTEM_AREA};

use crate::overlay::Overlay;
use i8080::Access;

/// A cell is not known, or its page is not owned.
#[derive(Clone, Copy, Debug, PartialEq, Eq)]
pub struct Refused;

// The known cells alone, over the image that they belong to.
impl Access for Overlay {
    type Refusal = Refused;

    ghost memory = { λ o. memory_of o };

    ghost is_ready = { λ o. is_ready_at o };

    ghost is_sure = { false };

    ghost is_readable = { λ o. is_readable_at o };

    ghost opcode_limit = { SYSTEM_AREA };

    #[inline(always)]
    fn make_ready(&mut self, a: u16) -> Result<(), Refused> {
        if self.is_ready(a) {
            return Ok(());
        }
        Err(Refused)
    }

    #[inline(always)]
    fn try_read(&mut self, a: u16) -> Result<u8, Refused> {
        self.known(a).ok_or(Refused)
    }

    #[inline(always)]
    fn opcode(&self, a: u16) -> u8 {
        self.learned_opcode(a)
    }

    #[inline(always)]
    fn operand(&mut self, pc: u16) -> u8 {
        self.known.byte_after(pc)
    }

    #[inline(always)]
    fn operand_word(&mut self, pc: u16) -> u16 {
        self.known.word_after(pc)
    }

    #[inline(always)]
    fn try_word(&mut self, a: u16) -> Result<u16, Refused> {
        self.known_word(a).ok_or(Refused)
    }

    #[inline(always)]
    fn put(&mut self, a: u16, value: u8) {
        self.write(a, value)
    }

    // A word over the end of a page is refused, so that one page is tested and written.
    #[inline(always)]
    fn store_word(&mut self, a: u16, value: u16) -> Result<(), Refused> {
        if a % 256 == 255 || !self.is_ready(a) {
            return Err(Refused);
        }
        self.write_word(a, value);
        Ok(())
    }
}
