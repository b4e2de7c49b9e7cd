//! The number of a phaser.
ghost use Rattle.std.specs.Prelude.{◌≡◌};

use std::marker::Model;

/// A phaser's number among all that there are, from 0 on. Contracts see the number.
#[derive(Clone, Copy, Debug, PartialEq, Eq)]
pub struct PhaserNumber {
    number: u32,
}

impl Model for PhaserNumber {
    ghost use Rattle.std.specs.Prelude.{ℕ};

    ghost Value = { ℕ };

    ghost view = { λ p. p.number };

    ghost inverse = { λ n. record { number = n } };
}

impl PhaserNumber {
    /// The phaser of this number.
    pub fn of(number: u32) -> PhaserNumber
        ensures { result ≡ number }
    {
        PhaserNumber { number }
    }

    /// Its number.
    pub fn get(self) -> u32
        ensures { result ≡ self }
    {
        self.number
    }

    /// Its place in a list with a line for each phaser.
    pub fn place(self) -> usize
        ensures { result ≡ self }
    {
        self.number as usize
    }
}
