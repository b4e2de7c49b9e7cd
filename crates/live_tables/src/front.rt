//! The logs of the slots, and what a caller has seen of one.
ghost use Rattle.std.specs.Prelude.{◌≡◌, ◌⊎◌, ℕ, [], All, IfOk, IfErr, vec_len};
ghost use Rattle.phase_model.specs.Laws.{IsLegal};
ghost use Rattle.phase_model.specs.Ordering.{IsOrdered};
ghost use Rattle.world_model.specs.Laws.{IsFolded};
ghost use Rattle.told_history.specs.Stories.{GoesOn};
ghost use Rattle.told_history.specs.Tails.{IsTail};
ghost use Rattle.live_tables.specs.Slots.{told_of, AreLegal, noted};

use crate::noted::SlotNoted;
use phase_model::{Terms, legal_is_ordered};
use phase_modes::Refusal;
use std::alloc::Global;
use std::marker::{Brand, Model, PhantomData};
use told_history::{LongEvent, Whole, front_of, includes};

/// The names of the slots' logs, by the slots' numbers. Each run picks them.
pub trait SlotLogs {
    ghost use Rattle.std.specs.Prelude.{ℕ};

    ghost slots: { ℕ → ℕ };
}

impl SlotLogs for Brand {
    ghost slots = { λ _. 0 };
}

/// A beginning of a slot's log that was seen: in it each phaser's history is legal. Contracts see
/// the log's name and its entries. It has no bytes.
#[derive(Drop)]
pub struct SlotFront {
    seen: told_history::Front<SlotNoted>,
    of: PhantomData<()>,
}

impl Model for SlotFront {
    ghost use Rattle.live_tables.specs.Slots.{SlotSight, AreLegal};

    ghost Value = { SlotSight };

    ghost view = { λ f. record { log = f.seen.name; items = f.seen.items } };

    ghost invariant = { λ f. AreLegal f.seen.items };
}

impl SlotFront {
    /// All of the log, as seen now.
    #[inline(always)]
    pub(crate) fn of_log(log: &mut Whole<SlotNoted>) -> SlotFront
        requires { AreLegal log.old.items }
        ensures same { log.new ≡ log.old }
        ensures all { (result.log ≡ log.old.name) × (result.items ≡ log.old.items) }
    {
        SlotFront {
            seen: front_of(log),
            of: PhantomData,
        }
    }

    /// What was seen is a beginning of the log.
    #[inline(always)]
    pub(crate) fn begins(&mut self, log: &mut Whole<SlotNoted>)
        requires name { self.old.log ≡ log.old.name }
        ensures same { log.new ≡ log.old }
        ensures kept { self.new ≡ self.old }
        ensures begins { IsTail self.old.items log.old.items }
    {
        includes(log, self.seen.again());
    }

    /// All of the log is seen now.
    #[inline(always)]
    pub(crate) fn see_all(&mut self, log: &mut Whole<SlotNoted>)
        requires name { self.old.log ≡ log.old.name }
        requires legal { AreLegal log.old.items }
        ensures same { log.new ≡ log.old }
        ensures all { (self.new.log ≡ log.old.name) × (self.new.items ≡ log.old.items) }
        ensures on { (k : ℕ) → GoesOn (told_of k self.old.items) (told_of k self.new.items) }
    {
        self.begins(log);
        *self = SlotFront::of_log(log);
    }

    /// A copy.
    #[inline(always)]
    pub fn again(&mut self) -> SlotFront
        ensures { (result ≡ self.old) × (self.new ≡ self.old) }
    {
        SlotFront {
            seen: self.seen.again(),
            of: PhantomData,
        }
    }

    /// Of two beginnings of one slot's log each phaser's history goes on from one to the other.
    #[inline(always)]
    pub fn agrees(&mut self, other: SlotFront)
        requires { other.log ≡ self.old.log }
        ensures same { self.new ≡ self.old }
        ensures agree { ((k : ℕ) → GoesOn (told_of k other.items) (told_of k self.old.items))
            ⊎ ((k : ℕ) → GoesOn (told_of k self.old.items) (told_of k other.items)) }
    {
        let SlotFront { seen, of: _ } = other;
        self.seen.agrees(seen);
    }

    /// Of each phaser that was ever in the slot the history is legal and ordered: whatever was passed
    /// in it was closed. And what a look in it saw is the fold of all values that were sent for a
    /// closed phase.
    #[inline(always)]
    pub fn is_legal(&self)
        ensures legal { (k : ℕ) → IsLegal (told_of k self.now.items) }
        ensures ordered { (k : ℕ) → IsOrdered (told_of k self.now.items).past }
        ensures folded { (k : ℕ) → IsFolded (told_of k self.now.items).terms.ops (told_of k self.now.items).past }
    {
        let _of = self.of;
        legal_is_ordered();
    }
}

/// Notes the event of the phaser of this number, if there is one.
#[inline(always)]
pub(crate) fn note(log: &mut Whole<SlotNoted>, number: u64, terms: Terms, event: Option<LongEvent>)
    ensures name { log.new.name ≡ log.old.name }
    ensures items { log.new.items ≡ noted number terms event log.old.items }
{
    match event {
        Some(event) => log.add(&SlotNoted {
            number,
            terms,
            event,
        }),
        None => {}
    }
}

/// So many logs without an entry, each under a new name: one for each slot of a table. `Memory` if
/// their list gets none.
pub fn new_slot_logs(alloc: Global, slots: u32) -> Result<Vec<Whole<SlotNoted>>, Refusal>
    ensures number { IfOk result (λ v. vec_len v ≡ slots) }
    ensures empty { IfOk result (λ v. All (λ w. w.items ≡ []) v.items) }
    ensures memory { IfErr result (λ e. e ≡ Refusal.Memory) }
{
    let mut logs = Vec::new(alloc);
    for _number in 0..slots {
        logs.push(Whole::new())?;
    }
    Ok(logs)
}
