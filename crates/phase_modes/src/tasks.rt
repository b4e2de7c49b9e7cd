//! The numbers of tasks.
ghost use Rattle.std.specs.Prelude.{◌≡◌};

use std::marker::Model;

/// The number of a task of a run, or of one that calls the phasers of a table. Contracts see the
/// number.
#[derive(Clone, Copy, Debug, PartialEq, Eq)]
pub struct TaskNumber {
    number: u32,
}

impl Model for TaskNumber {
    ghost use Rattle.std.specs.Prelude.{ℕ};

    ghost Value = { ℕ };

    ghost view = { λ t. t.number };

    ghost inverse = { λ n. record { number = n } };
}

impl TaskNumber {
    /// The task of this number.
    pub fn of(number: u32) -> TaskNumber
        ensures { result ≡ number }
    {
        TaskNumber { number }
    }

    /// Its number.
    pub fn get(self) -> u32
        ensures { result ≡ self }
    {
        self.number
    }

    /// Its place in a list with a line for each task.
    pub fn place(self) -> usize
        ensures { result ≡ self }
    {
        self.number as usize
    }
}

/// The number of a task at a phaser that lives long, which gives its numbers out. Contracts see the
/// number.
#[derive(Clone, Copy, Debug, PartialEq, Eq)]
pub struct LongTaskNumber {
    number: u64,
}

impl Model for LongTaskNumber {
    ghost use Rattle.std.specs.Prelude.{ℕ};

    ghost Value = { ℕ };

    ghost view = { λ t. t.number };

    ghost inverse = { λ n. record { number = n } };
}

impl LongTaskNumber {
    /// The task of this number.
    pub fn of(number: u64) -> LongTaskNumber
        ensures { result ≡ number }
    {
        LongTaskNumber { number }
    }

    /// Its number.
    pub fn get(self) -> u64
        ensures { result ≡ self }
    {
        self.number
    }
}
