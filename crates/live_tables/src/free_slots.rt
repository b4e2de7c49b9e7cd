//! Which slots of a table are free, by their numbers.
ghost use Rattle.std.specs.Prelude.{◌≡◌, ◌+◌, ◌^◌, ◌<◌, ◌≤◌, ◌⊎◌, ◌∷◌, ◌++◌, [], IfOk, IfErr, IfSome, OnSome, IfNone, vec_len, vec_capacity};

use phase_modes::Refusal;
use std::alloc::Global;

/// How many slots a table has, how many of them are free, and how often one was taken and given back
/// since the table was made: `free + taken == slots + given_back`.
#[derive(Clone, Copy, Debug, PartialEq, Eq)]
pub struct SlotCounts {
    pub slots: usize,
    pub free: usize,
    pub taken: u64,
    pub given_back: u64,
}

/// The numbers of a table's free slots, and how often one was taken and given back.
#[derive(Drop)]
pub struct FreeSlots {
    pub numbers: Vec<u32>,
    pub slots: usize,
    pub taken: u64,
    pub given_back: u64,
    ghost counted: { vec_len numbers + taken ≡ slots + given_back },
    ghost within: { given_back ≤ taken },
    ghost room: { slots ≤ vec_capacity numbers },
}

impl FreeSlots {
    /// The slots of a table, of which the first `used` are taken from the start. `Memory` if the list
    /// gets none.
    pub fn new(alloc: Global, slots: u32, used: u32) -> Result<FreeSlots, Refusal>
        requires { used ≤ slots }
        ensures slots { IfOk result (λ f. f.slots ≡ slots) }
        ensures taken { IfOk result (λ f. (f.taken ≡ used) × (f.given_back ≡ 0)) }
        ensures memory { IfErr result (λ r. r ≡ Refusal.Memory) }
    {
        let mut numbers = Vec::with_capacity(alloc, slots as usize)?;
        for number in (used..slots).rev() {
            numbers.push_reserved(number);
        }
        Ok(FreeSlots {
            numbers,
            slots: slots as usize,
            taken: u64::from(used),
            given_back: 0,
        })
    }

    /// The number of a free slot, which is free no more. `None` if there is none, or if 2^64 - 1 were
    /// taken already.
    pub fn take(&mut self) -> Option<u32>
        ensures found { IfSome result (λ n. self.old.numbers.items ≡ self.new.numbers.items ++ n ∷ []) }
        ensures taken { OnSome result (self.new.taken ≡ self.old.taken + 1) }
        ensures none { IfNone result ((self.old.numbers.items ≡ []) ⊎ (self.old.taken + 1 ≡ 2 ^ 64)) }
        ensures kept { IfNone result
            ((self.new.numbers.items ≡ self.old.numbers.items) × (self.new.taken ≡ self.old.taken)) }
        ensures given_back { self.new.given_back ≡ self.old.given_back }
        ensures slots { self.new.slots ≡ self.old.slots }
    {
        if self.taken == u64::MAX {
            return None;
        }
        let number = self.numbers.pop()?;
        self.taken += 1;
        Some(number)
    }

    /// The slot is free again. Nothing happens if all that were taken have been given back.
    pub fn give_back(&mut self, number: u32)
        ensures back { self.old.given_back < self.old.taken
            → (self.new.numbers.items ≡ self.old.numbers.items ++ number ∷ [])
            × (self.new.given_back ≡ self.old.given_back + 1) }
        ensures kept { self.old.taken ≤ self.old.given_back → self.new ≡ self.old }
        ensures taken { self.new.taken ≡ self.old.taken }
        ensures slots { self.new.slots ≡ self.old.slots }
    {
        if self.given_back < self.taken {
            self.numbers.push_reserved(number);
            self.given_back += 1;
        }
    }

    /// How many slots are free, and how often one was taken and given back.
    pub fn counts(&self) -> SlotCounts
        ensures free { result.free ≡ vec_len self.now.numbers }
        ensures taken { (result.taken ≡ self.now.taken) × (result.given_back ≡ self.now.given_back) }
        ensures slots { result.slots ≡ self.now.slots }
        ensures within { result.given_back ≤ result.taken }
        ensures counted { result.free + result.taken ≡ result.slots + result.given_back }
    {
        SlotCounts {
            slots: self.slots,
            free: self.numbers.len(),
            taken: self.taken,
            given_back: self.given_back,
        }
    }
}
