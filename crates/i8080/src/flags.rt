ghost use Rattle.std.specs.Prelude.{◌≡◌};
ghost use Rattle.i8080.specs.Flags.{byte_of, flags_in, flags_after};
ghost use Rattle.i8080.specs.Instruction.{is_met};

use crate::opcode::Condition;

/// The flags: sign `s`, zero `z`, auxiliary carry `ac`, parity `p` and carry `cy`.
#[derive(Clone, Copy, Debug, PartialEq, Eq, Default)]
pub struct Flags {
    pub s: bool,
    pub z: bool,
    pub ac: bool,
    pub p: bool,
    pub cy: bool,
}

impl Flags {
    /// Returns the flag byte, `S Z 0 AC 0 P 1 CY` from bit 7 down.
    #[inline(always)]
    pub fn byte(self) -> u8
        ensures { result ≡ byte_of self }
    {
        let high = u8::from(self.s) * 128 + u8::from(self.z) * 64 + u8::from(self.ac) * 16;
        high + u8::from(self.p) * 4 + 2 + u8::from(self.cy)
    }

    /// Returns the five flags of a flag byte. The other three bits are ignored.
    #[inline(always)]
    pub fn from_byte(byte: u8) -> Flags
        ensures { result ≡ flags_in byte }
    {
        Flags {
            s: byte / 128 % 2 == 1,
            z: byte / 64 % 2 == 1,
            ac: byte / 16 % 2 == 1,
            p: byte / 4 % 2 == 1,
            cy: byte % 2 == 1,
        }
    }

    // Returns the flags after a result, with the given carries.
    #[inline(always)]
    pub(crate) fn after(value: u8, ac: bool, cy: bool) -> Flags
        ensures { result ≡ flags_after value ac cy }
    {
        Flags {
            s: value >= 128,
            z: value == 0,
            ac,
            p: value.count_ones() % 2 == 0,
            cy,
        }
    }
}

impl Condition {
    /// Returns whether the flags meet the condition.
    #[inline(always)]
    pub fn is_met(self, flags: Flags) -> bool
        ensures { result ≡ is_met self flags }
    {
        match self {
            Condition::NotZero => !flags.z,
            Condition::Zero => flags.z,
            Condition::NoCarry => !flags.cy,
            Condition::Carry => flags.cy,
            Condition::ParityOdd => !flags.p,
            Condition::ParityEven => flags.p,
            Condition::Plus => !flags.s,
            Condition::Minus => flags.s,
        }
    }
}
