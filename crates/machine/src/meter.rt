ghost use Rattle.std.specs.Prelude.{◌≡◌, ◌+◌, ◌<◌, ◌^◌};

use std::marker::Model;

/// A counter of executed steps. It is not `Clone`, `Copy` or `Default`, so a count is passed on and never restarted.
#[derive(Drop)]
pub struct Meter {
    count: u64,
}

impl Model for Meter {
    ghost use Rattle.std.specs.Prelude.{ℕ};

    ghost Value = { ℕ };

    ghost view = { λ m. m.count };
}

impl Meter {
    /// Creates a meter at 0.
    pub fn new() -> Meter
        ensures { result ≡ 0 }
    {
        Meter { count: 0 }
    }

    /// Returns the number of steps counted.
    pub fn count(&self) -> u64
        ensures { result ≡ self.now }
    {
        self.count
    }

    /// Counts `steps` more steps.
    pub(crate) fn tick_by(&mut self, steps: u64)
        requires { self.old + steps < 2 ^ 64 }
        ensures { self.new ≡ self.old + steps }
    {
        self.count += steps;
    }

    /// Counts one more step.
    #[inline(always)]
    pub fn tick(&mut self)
        requires { self.old + 1 < 2 ^ 64 }
        ensures { self.new ≡ self.old + 1 }
    {
        self.tick_by(1);
    }
}
