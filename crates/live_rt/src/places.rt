//! Where the phasers are that a task holds, and what it has seen of them.
ghost use Rattle.std.specs.Prelude.{◌≡◌, ◌==◌, ◌<◌, ℕ, [], false, None, Some, find, length, map, option_map, IfOk, IfErr, IfSome, OnOk, OnErr};
ghost use Rattle.std.specs.List.{position_or_len};
ghost use Rattle.live_rt.specs.inner.Places.{spot, in_slot};

use crate::names::Names;
use live_tables::{At, SlotFront};
use phase_modes::Refusal;
use phaser_core::LongTask;
use std::alloc::Global;
use std::marker::{Model, PhantomData};

/// How many phasers a task holds at once, at most.
const MOST_HELD: usize = 16;

/// Where a phaser is that a task holds, the task's number on it, and what the task has seen of its slot.
#[derive(Drop)]
pub(crate) struct Place<J: Names> {
    pub(crate) at: At,
    pub(crate) me: LongTask,
    pub(crate) seen: SlotFront,
    pub(crate) of: PhantomData<J>,
    ghost named: { seen.log ≡ J.SlotLogs.slots at.slot },
}

impl<J: Names> Place<J> {
    /// A phaser that the task of this number there has seen so.
    pub(crate) fn new(at: At, me: LongTask, seen: SlotFront) -> Place<J>
        requires { seen.log ≡ J.SlotLogs.slots at.slot }
        ensures { (result.at ≡ at) × (result.me ≡ me) × (result.seen ≡ seen) }
    {
        Place {
            at,
            me,
            seen,
            of: PhantomData,
        }
    }
}

/// The places of the phasers that a task holds. Contracts see each as a `Spot`.
#[derive(Drop)]
pub(crate) struct Places<J: Names> {
    list: Vec<Place<J>>,
}

impl<J: Names> Model for Places<J> {
    ghost use Rattle.std.specs.Prelude.{List, map};
    ghost use Rattle.live_rt.specs.inner.Places.{Spot, spot};

    ghost Value = { List Spot };

    ghost view = { λ s. map (λ p. spot p.at p.me p.seen.items) s.list.items };
}

/// The first place in this slot.
fn place_in<J: Names>(list: &[Place<J>], slot: u32) -> Option<usize>
    ensures there { IfSome result (λ i. (i < length list.now) × (i ≡ position_or_len (λ p. p.at.slot == slot) list.now)) }
    ensures none { result ≡ None → find (λ p. p.at.slot == slot) list.now ≡ None }
{
    for i in 0..list.len() {
        if list[i].at.slot == slot {
            return Some(i);
        }
    }
    None
}

impl<J: Names> Places<J> {
    /// None, with the memory for as many as a task may hold; `Memory` if that is refused.
    pub(crate) fn new(alloc: Global) -> Result<Places<J>, Refusal>
        ensures none { IfOk result (λ p. p ≡ []) }
        ensures memory { IfErr result (λ e. e ≡ Refusal.Memory) }
    {
        Ok(Places {
            list: Vec::with_capacity(alloc, MOST_HELD)?,
        })
    }

    /// A copy of the place in this slot.
    pub(crate) fn get(&mut self, slot: u32) -> Option<Place<J>>
        ensures found { option_map (λ p. spot p.at p.me p.seen.items) result ≡ in_slot slot self.old }
        ensures same { self.new ≡ self.old }
    {
        let i = place_in(&self.list, slot)?;
        let place = &mut self.list[i];
        Some(Place::new(place.at, place.me, place.seen.again()))
    }

    /// Puts the place there instead of the one that is in its slot; if there is none, it stays so.
    pub(crate) fn set(&mut self, place: Place<J>)
        ensures here { IfSome (in_slot place.at.slot self.new) (λ p. p ≡ spot place.at place.me place.seen.items) }
        ensures others { (n : ℕ) → n == place.at.slot ≡ false → in_slot n self.new ≡ in_slot n self.old }
    {
        if let Some(i) = place_in(&self.list, place.at.slot) {
            self.list[i] = place;
        }
    }

    /// Adds the place, instead of the one that is in its slot if there is one. `Memory` if there is none,
    /// and then all stays as it was.
    pub(crate) fn add(&mut self, place: Place<J>) -> Result<(), Refusal>
        ensures here { OnOk result (in_slot place.at.slot self.new ≡ Some (spot place.at place.me place.seen.items)) }
        ensures others { (n : ℕ) → n == place.at.slot ≡ false → in_slot n self.new ≡ in_slot n self.old }
        ensures refused { OnErr result (self.new ≡ self.old) }
        ensures memory { IfErr result (λ e. e ≡ Refusal.Memory) }
    {
        match place_in(&self.list, place.at.slot) {
            Some(i) => self.list[i] = place,
            None => {
                if self.list.push(place).is_err() {
                    return Err(Refusal::Memory);
                }
            }
        }
        Ok(())
    }

    /// Takes the place in this slot away.
    pub(crate) fn remove(&mut self, slot: u32)
        ensures gone { in_slot slot self.new ≡ None }
        ensures others { (n : ℕ) → n == slot ≡ false → in_slot n self.new ≡ in_slot n self.old }
    {
        self.list.retain(|place| place.at.slot != slot);
    }
}
