//! The number of a finish.
ghost use Rattle.std.specs.Prelude.{◌≡◌};

use std::marker::Model;

/// A finish's number among all that there are, from 0 on. Contracts see the number.
#[derive(Clone, Copy, Debug, PartialEq, Eq)]
pub struct FinishNumber {
    number: u32,
}

impl Model for FinishNumber {
    ghost use Rattle.std.specs.Prelude.{ℕ};

    ghost Value = { ℕ };

    ghost view = { λ f. f.number };

    ghost inverse = { λ n. record { number = n } };
}

impl FinishNumber {
    /// The finish of this number.
    pub fn of(number: u32) -> FinishNumber
        ensures { result ≡ number }
    {
        FinishNumber { number }
    }

    /// Its number.
    pub fn get(self) -> u32
        ensures { result ≡ self }
    {
        self.number
    }

    /// Its place in a list with a line for each finish.
    pub fn place(self) -> usize
        ensures { result ≡ self }
    {
        self.number as usize
    }
}
