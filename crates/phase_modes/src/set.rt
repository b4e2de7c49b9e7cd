//! The set.
ghost use Rattle.std.specs.Prelude.{◌≡◌, ◌==◌, ◌||◌, ◌<◌, ◌≤◌, ℕ, false, IfOk, IfErr};
ghost use Rattle.phase_modes.specs.Numbers.{has_number};

use crate::Refusal;
use std::alloc::Global;
use std::marker::Model;

/// A set of numbers below a size. Contracts see the size, and by `has_number` of
/// each number whether it is in the set.
#[derive(Drop)]
pub struct NumberSet {
    /// How many numbers there are.
    size: u32,
    /// 64 numbers to a word, the lowest bit first.
    words: Vec<u64>,
}

impl Model for NumberSet {
    ghost use Rattle.std.specs.Prelude.{◌≤◌, ◌*◌, length};
    ghost use Rattle.phase_modes.specs.Numbers.{Numbers};

    ghost Value = { Numbers };

    ghost view = { λ s. record { size = s.size; words = s.words.items } };

    ghost invariant = { λ s. s.size ≤ 64 * length s.words.items };
}

impl NumberSet {
    /// An empty set of the numbers below the size, which is at most 65,536. All memory is taken
    /// here; `Memory` if it is refused.
    pub fn new(alloc: Global, size: u32) -> Result<NumberSet, Refusal>
        requires { size ≤ 65536 }
        ensures size { IfOk result (λ s. s.size ≡ size) }
        ensures empty { IfOk result (λ s. (n : ℕ) → has_number s n ≡ false) }
        ensures memory { IfErr result (λ r. r ≡ Refusal.Memory) }
    {
        let words = vec![in alloc; 0; size as usize / 64 + 1]?;
        Ok(NumberSet { size, words })
    }

    /// Whether the number is in the set.
    pub fn contains(&self, number: u32) -> bool
        requires { number < self.now.size }
        ensures { result ≡ has_number self.now number }
    {
        let word = self.words[number as usize / 64];
        word >> (number % 64) & 1 == 1
    }

    /// Puts the number into the set.
    pub fn insert(&mut self, number: u32)
        requires { number < self.old.size }
        ensures size { self.new.size ≡ self.old.size }
        ensures has { (n : ℕ) → has_number self.new n ≡ (number == n || has_number self.old n) }
    {
        self.words[number as usize / 64] |= 1 << (number % 64);
    }
}
