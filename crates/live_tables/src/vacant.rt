//! A slot in which no phaser is.
ghost use Rattle.std.specs.Prelude.{◌≡◌, ◌+◌, ◌∷◌, ◌<◌, ◌≤◌, ℕ, []};
ghost use Rattle.phase_model.specs.declared.history.Event.TheVariants.{Make};
ghost use Rattle.phase_model.specs.Tasks.{live_count};
ghost use Rattle.long_locks.specs.Told.{story_of};
ghost use Rattle.live_tables.specs.Slots.{told_of, past_of, AreLegal};

use crate::front::{SlotFront, SlotLogs, note};
use crate::noted::SlotNoted;
use crate::resident::Resident;
use long_locks::LongCell;
use phase_modes::Mode;
use phaser_core::LongTask;
use std::marker::PhantomData;
use told_history::{LongEvent, Whole};

/// A slot in which no phaser is: the number of the next one, and the whole of the slot's log.
#[derive(Drop)]
pub(crate) struct Vacant<J: SlotLogs> {
    pub(crate) slot: u32,
    pub(crate) number: u64,
    pub(crate) whole: Whole<SlotNoted>,
    pub(crate) of: PhantomData<J>,
    ghost named: { whole.name ≡ J.slots slot },
    ghost legal: { AreLegal whole.items },
    ghost later: { (k : ℕ) → number ≤ k → past_of k whole.items ≡ [] },
    ghost gone: { (k : ℕ) → live_count (past_of k whole.items) ≡ 0 },
}

impl<J: SlotLogs> Vacant<J> {
    /// A slot in which no phaser ever was.
    pub(crate) fn new(slot: u32, whole: Whole<SlotNoted>) -> Vacant<J>
        requires name { whole.name ≡ J.slots slot }
        requires empty { whole.items ≡ [] }
        ensures { (result.slot ≡ slot) × (result.number ≡ 0) }
    {
        Vacant {
            slot,
            number: 0,
            whole,
            of: PhantomData,
        }
    }

    /// The slot in which the phaser of this number was last. The next one has the number after it.
    pub(crate) fn after(
        slot: u32,
        number: u64,
        whole: Whole<SlotNoted>,
        of: PhantomData<J>,
    ) -> Vacant<J>
        requires next { number < 18446744073709551615 }
        requires name { whole.name ≡ J.slots slot }
        requires legal { AreLegal whole.items }
        requires later { (k : ℕ) → number < k → past_of k whole.items ≡ [] }
        requires gone { (k : ℕ) → live_count (past_of k whole.items) ≡ 0 }
        ensures { (result.slot ≡ slot) × (result.number ≡ number + 1) }
    {
        Vacant {
            slot,
            number: number + 1,
            whole,
            of,
        }
    }

    /// This phaser, which was made just now, comes to be in the slot, under the slot's next number.
    pub(crate) fn open<T: Drop>(
        self,
        cell: LongCell<T>,
        maker: LongTask,
        mode: Mode,
    ) -> (Resident<T, J>, SlotFront)
        requires made { cell.state.story ≡ story_of cell.state.story.terms (Make maker mode ∷ []) }
        ensures place { (result.0.slot ≡ self.slot) × (result.0.number ≡ self.number) }
        ensures log { result.1.log ≡ J.slots self.slot }
        ensures made { told_of self.number result.1.items ≡ cell.state.story }
    {
        let Vacant {
            slot,
            number,
            whole,
            of,
        } = self;
        let mut whole = whole;
        let terms = cell.state.history().terms();
        note(
            &mut whole,
            number,
            terms,
            Some(LongEvent::Make(maker, mode)),
        );
        let mut resident = Resident {
            slot,
            number,
            cell,
            whole,
            of,
        };
        let front = resident.front();
        (resident, front)
    }
}
