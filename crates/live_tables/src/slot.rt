//! A slot: a phaser, or none.
ghost use Rattle.std.specs.Prelude.{◌≡◌, ◌∷◌, ◌==◌, ℕ, [], true, IfOk, OnErr, IfSome, IfNone, is_some};
ghost use Rattle.phase_model.specs.declared.call.Call.TheVariants.{Drop as drop_task};
ghost use Rattle.phase_model.specs.declared.history.Event.TheVariants.{Make};
ghost use Rattle.phase_model.specs.Replies.{done_result};
ghost use Rattle.phase_model.specs.Tasks.{live_count};
ghost use Rattle.told_history.specs.Stories.{GoesOn, IsAnswered};
ghost use Rattle.long_locks.specs.Told.{story_of};
ghost use Rattle.live_tables.specs.Slots.{told_of, without_value};

use crate::front::{SlotFront, SlotLogs};
use crate::must_be::must_be;
use crate::resident::Resident;
use crate::vacant::Vacant;
use long_locks::{LongCell, Out};
use phase_modes::{Mode, Refusal};
use phaser_core::LongTask;
use std::mem;
use std::sync::Wait;

/// Where a phaser is, and which of those that were ever there.
#[derive(Clone, Copy, Debug, PartialEq, Eq)]
pub struct At {
    pub slot: u32,
    pub number: u64,
}

/// What stands behind a slot's lock.
#[derive(Drop)]
pub(crate) enum Slot<T, J: SlotLogs> {
    Free(Vacant<J>),
    Taken(Resident<T, J>),
    /// While a phaser comes or goes; and for good once 2^64 of them were there.
    Between,
}

impl<T, J: SlotLogs> Slot<T, J> {
    /// The phaser that was asked for. None if nobody is registered on it, since all have left it; its
    /// whole history is seen then.
    #[inline(always)]
    pub(crate) fn find<R: Wait>(
        &mut self,
        rt: &R,
        at: At,
        me: &mut SlotFront,
    ) -> Option<&mut Resident<T, J>>
        requires log { me.old.log ≡ J.slots at.slot }
        ensures here { IfSome result (λ r. (r.now.slot ≡ at.slot) × (r.now.number ≡ at.number)) }
        ensures gone { IfNone result (live_count (told_of at.number me.new.items).past ≡ 0) }
        ensures on { (k : ℕ) → GoesOn (told_of k me.old.items) (told_of k me.new.items) }
        ensures log { me.new.log ≡ me.old.log }
    {
        match self {
            Slot::Taken(resident) => {
                must_be(rt, resident.slot == at.slot);
                if resident.number == at.number {
                    return Some(resident);
                }
                me.see_all(&mut resident.whole);
                None
            }
            Slot::Free(vacant) => {
                must_be(rt, vacant.slot == at.slot);
                me.see_all(&mut vacant.whole);
                None
            }
            Slot::Between => {
                must_be(rt, false);
                unreachable!()
            }
        }
    }

    /// Takes what stands there, and leaves nothing.
    fn take(&mut self) -> Slot<T, J> {
        mem::replace(self, Slot::Between)
    }

    /// Takes the phaser that was found, and leaves nothing.
    fn take_resident<R: Wait>(&mut self, rt: &R, at: At) -> Resident<T, J>
        ensures here { (result.slot ≡ at.slot) × (result.number ≡ at.number) }
    {
        let Slot::Taken(resident) = self.take() else {
            must_be(rt, false);
            unreachable!()
        };
        must_be(rt, resident.slot == at.slot);
        must_be(rt, resident.number == at.number);
        resident
    }
}

impl<T: Drop, J: SlotLogs> Slot<T, J> {
    /// This phaser, which was made just now, comes to be in the slot of this number, which is free.
    pub(crate) fn open<R: Wait>(
        &mut self,
        rt: &R,
        slot: u32,
        cell: LongCell<T>,
        maker: LongTask,
        mode: Mode,
    ) -> (At, SlotFront)
        requires made { cell.state.story ≡ story_of cell.state.story.terms (Make maker mode ∷ []) }
        ensures place { result.0.slot ≡ slot }
        ensures log { result.1.log ≡ J.slots slot }
        ensures made { told_of result.0.number result.1.items ≡ cell.state.story }
    {
        let Slot::Free(vacant) = self.take() else {
            must_be(rt, false);
            unreachable!()
        };
        must_be(rt, vacant.slot == slot);
        let at = At {
            slot,
            number: vacant.number,
        };
        let (resident, front) = vacant.open(cell, maker, mode);
        *self = Slot::Taken(resident);
        (at, front)
    }

    /// The task leaves the phaser. If it was the last one, the slot is free then, and the phaser comes
    /// out.
    pub(crate) fn leave<R: Wait>(
        &mut self,
        rt: &R,
        at: At,
        me: &mut SlotFront,
        out: &mut Out<T>,
        task: LongTask,
    ) -> Result<Option<LongCell<T>>, Refusal>
        requires log { me.old.log ≡ J.slots at.slot }
        requires empty { out.old ≡ [] }
        ensures told { IsAnswered (λ _ r. without_value result ≡ done_result r) (drop_task task)
            (told_of at.number me.old.items) (told_of at.number me.new.items) }
        ensures last { IfOk result (λ phaser. is_some phaser ≡ (live_count (told_of at.number me.new.items).past == 0)) }
        ensures others { (k : ℕ) → GoesOn (told_of k me.old.items) (told_of k me.new.items) }
        ensures log { me.new.log ≡ me.old.log }
        ensures refused { OnErr result (out.new ≡ []) }
    {
        let Some(_phaser) = self.find(rt, at, me) else {
            return Err(Refusal::NotRegistered);
        };
        self.leave_found(rt, at, me, out, task)
    }

    /// The same on a phaser that was found.
    fn leave_found<R: Wait>(
        &mut self,
        rt: &R,
        at: At,
        me: &mut SlotFront,
        out: &mut Out<T>,
        task: LongTask,
    ) -> Result<Option<LongCell<T>>, Refusal>
        requires log { me.old.log ≡ J.slots at.slot }
        requires empty { out.old ≡ [] }
        ensures told { IsAnswered (λ _ r. without_value result ≡ done_result r) (drop_task task)
            (told_of at.number me.old.items) (told_of at.number me.new.items) }
        ensures last { IfOk result (λ phaser. is_some phaser ≡ (live_count (told_of at.number me.new.items).past == 0)) }
        ensures others { (k : ℕ) → GoesOn (told_of k me.old.items) (told_of k me.new.items) }
        ensures log { me.new.log ≡ me.old.log }
        ensures refused { OnErr result (out.new ≡ []) }
    {
        let mut resident = self.take_resident(rt, at);
        if let Err(refusal) = resident.leave(me, out, task) {
            *self = Slot::Taken(resident);
            return Err(refusal);
        }
        if resident.cell.state.registered() > 0 {
            *self = Slot::Taken(resident);
            return Ok(None);
        }
        let (vacant, phaser) = resident.close(rt);
        *self = Slot::Free(vacant);
        Ok(Some(phaser))
    }
}
