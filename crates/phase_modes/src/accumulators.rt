//! The index of an accumulator.
ghost use Rattle.std.specs.Prelude.{◌≡◌};

use std::marker::Model;

/// The place of one of a phaser's accumulators, from 0 on. Contracts see the number.
#[derive(Clone, Copy, Debug, PartialEq, Eq)]
pub struct AccumulatorIndex {
    number: u8,
}

impl Model for AccumulatorIndex {
    ghost use Rattle.std.specs.Prelude.{ℕ};

    ghost Value = { ℕ };

    ghost view = { λ a. a.number };

    ghost inverse = { λ n. record { number = n } };
}

impl AccumulatorIndex {
    /// The accumulator of this number.
    pub fn of(number: u8) -> AccumulatorIndex
        ensures { result ≡ number }
    {
        AccumulatorIndex { number }
    }

    /// Its number.
    pub fn get(self) -> u8
        ensures { result ≡ self }
    {
        self.number
    }
}
