ghost use Rattle.std.specs.Prelude.{◌≡◌, ◌≤◌};
ghost use Rattle.i8080.specs.Instruction.{accumulate, sum_into, difference_into, logic_into};
ghost use Rattle.i8080.specs.Registers.{value_of, with_value, pair_of, with_pair, word};

use crate::flags::Flags;
use crate::opcode::{Arithmetic, Pair, Register};

/// The 8-bit registers `a` to `l`, the stack pointer `sp`, the program counter `pc` and the flags.
#[derive(Clone, Copy, Debug, PartialEq, Eq, Default)]
pub struct Regs {
    pub c: u8,
    pub b: u8,
    pub e: u8,
    pub d: u8,
    pub l: u8,
    pub h: u8,
    pub sp: u16,
    pub pc: u16,
    pub a: u8,
    pub flags: Flags,
}

/// Returns the word with these two bytes.
#[inline(always)]
pub fn word_of(low: u8, high: u8) -> u16
    ensures { result ≡ word low high }
{
    u16::from(low) + 256 * u16::from(high)
}

impl Regs {
    // Returns the byte in a register.
    #[inline(always)]
    pub(crate) fn get(self, register: Register) -> u8
        ensures { result ≡ value_of register self }
    {
        match register {
            Register::B => self.b,
            Register::C => self.c,
            Register::D => self.d,
            Register::E => self.e,
            Register::H => self.h,
            Register::L => self.l,
            Register::A => self.a,
        }
    }

    // Sets a register.
    #[inline(always)]
    pub(crate) fn set(&mut self, register: Register, value: u8)
        ensures { self.new ≡ with_value register value self.old }
    {
        match register {
            Register::B => self.b = value,
            Register::C => self.c = value,
            Register::D => self.d = value,
            Register::E => self.e = value,
            Register::H => self.h = value,
            Register::L => self.l = value,
            Register::A => self.a = value,
        }
    }

    /// Returns the word in a register pair.
    #[inline(always)]
    pub fn pair(self, pair: Pair) -> u16
        ensures { result ≡ pair_of pair self }
    {
        match pair {
            Pair::Bc => word_of(self.c, self.b),
            Pair::De => word_of(self.e, self.d),
            Pair::Hl => word_of(self.l, self.h),
            Pair::Sp => self.sp,
        }
    }

    /// Sets a register pair.
    #[inline(always)]
    pub fn set_pair(&mut self, pair: Pair, value: u16)
        ensures { self.new ≡ with_pair pair value self.old }
    {
        let low = (value % 256) as u8;
        let high = (value / 256) as u8;
        match pair {
            Pair::Bc => (self.b, self.c) = (high, low),
            Pair::De => (self.d, self.e) = (high, low),
            Pair::Hl => (self.h, self.l) = (high, low),
            Pair::Sp => self.sp = value,
        }
    }

    // Adds a byte and a carry of 0 or 1 to the accumulator, and sets the flags.
    #[inline(always)]
    fn add(&mut self, value: u8, carry: u8)
        requires { carry ≤ 1 }
        ensures { self.new ≡ sum_into value carry self.old }
    {
        let whole = u16::from(self.a) + u16::from(value) + u16::from(carry);
        let ac = self.a % 16 + value % 16 + carry >= 16;
        self.a = (whole % 256) as u8;
        self.flags = Flags::after(self.a, ac, whole >= 256);
    }

    // Subtracts a byte and a borrow of 0 or 1 from the accumulator, by adding the complement, and sets the flags.
    #[inline(always)]
    fn subtract(&mut self, value: u8, borrow: u8)
        requires { borrow ≤ 1 }
        ensures { self.new ≡ difference_into value borrow self.old }
    {
        self.add(255 - value, 1 - borrow);
        self.flags.cy = !self.flags.cy;
    }

    #[inline(always)]
    fn set_logic(&mut self, value: u8, ac: bool)
        ensures { self.new ≡ logic_into value ac self.old }
    {
        self.a = value;
        self.flags = Flags::after(value, ac, false);
    }

    // Applies an operation to the accumulator and the flags.
    #[inline(always)]
    pub(crate) fn accumulate(&mut self, function: Arithmetic, value: u8)
        ensures { self.new ≡ accumulate function value self.old }
    {
        let a = self.a;
        let carry = u8::from(self.flags.cy);
        match function {
            Arithmetic::Add => self.add(value, 0),
            Arithmetic::Adc => self.add(value, carry),
            Arithmetic::Sub => self.subtract(value, 0),
            Arithmetic::Sbb => self.subtract(value, carry),
            Arithmetic::Ana => self.set_logic(a & value, a / 8 % 2 == 1 || value / 8 % 2 == 1),
            Arithmetic::Xra => self.set_logic(a ^ value, false),
            Arithmetic::Ora => self.set_logic(a | value, false),
            Arithmetic::Cmp => {
                self.subtract(value, 0);
                self.a = a;
            }
        }
    }
}
