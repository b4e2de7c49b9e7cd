//! A phaser that is in a slot.
ghost use Rattle.std.specs.Prelude.{◌≡◌, ◌≢◌, ◌+◌, ◌<◌, ◌==◌, ℕ, [], true, false, IfOk, OnErr, Err};
ghost use Rattle.phase_modes.specs.Lists.{is_empty};
ghost use Rattle.phase_modes.specs.Mode.{can_wait};
ghost use Rattle.phase_model.specs.declared.call.Call.TheVariants.{Register as register, Signal as signal, Pass as pass, SingleDone as single_done, Send as send, Look as look, Drop as drop_task};
ghost use Rattle.phase_model.specs.Phases.{IsClosed};
ghost use Rattle.phase_model.specs.Replies.{done_result};
ghost use Rattle.phase_model.specs.Tasks.{has_mode, live_count};
ghost use Rattle.phase_model.specs.Answers.{signal_result, pass_result, look_result};
ghost use Rattle.phaser_core.specs.Parking.{freed, goes_on, IsBack, has_signalled, IsBackFromSignal};
ghost use Rattle.told_history.specs.Stories.{GoesOn, IsAnswered};
ghost use Rattle.long_locks.specs.Told.{IsSignalAnswer, IsPassAnswer, IfPassed, HasLooked};
ghost use Rattle.live_tables.specs.Slots.{told_of, past_of, AreLegal, IsNumbered};

use crate::front::{SlotFront, SlotLogs, note};
use crate::must_be::must_be;
use crate::noted::SlotNoted;
use crate::vacant::Vacant;
use long_locks::{
    LongCell, Out, PassAnswer, SignalAnswer, done_event, look_event, pass_event, register_event,
    signal_event,
};
use phase_model::LongLook;
use phase_modes::{Mode, Refusal};
use phaser_core::{LongTask, Phase};
use std::marker::PhantomData;
use std::sync::Wait;
use told_history::{LongEvent, Whole};

/// A phaser with those who wait at it, its number, and the whole of its slot's log, which has no bytes.
/// Each call adds the event that its answer tells, and nothing else.
#[derive(Drop)]
pub(crate) struct Resident<T, J: SlotLogs> {
    pub(crate) slot: u32,
    pub(crate) number: u64,
    pub(crate) cell: LongCell<T>,
    pub(crate) whole: Whole<SlotNoted>,
    pub(crate) of: PhantomData<J>,
    ghost named: { whole.name ≡ J.slots slot },
    ghost told: { told_of number whole.items ≡ cell.state.story },
    ghost made: { is_empty (past_of number whole.items) ≡ false },
    ghost legal: { AreLegal whole.items },
    ghost later: { (k : ℕ) → number < k → past_of k whole.items ≡ [] },
    ghost gone: { (k : ℕ) → (number == k) ≡ false → live_count (past_of k whole.items) ≡ 0 },
}

impl<T, J: SlotLogs> Resident<T, J> {
    /// All that was done in the slot so far, as seen now.
    #[inline(always)]
    pub(crate) fn front(&mut self) -> SlotFront
        ensures same { (self.new.cell ≡ self.old.cell) × (self.new.slot ≡ self.old.slot) × (self.new.number ≡ self.old.number) }
        ensures log { result.log ≡ J.slots self.old.slot }
        ensures here { told_of self.old.number result.items ≡ self.old.cell.state.story }
        ensures all { result.items ≡ self.old.whole.items }
    {
        SlotFront::of_log(&mut self.whole)
    }

    /// The phaser's `register`, under the number that is returned.
    #[inline(always)]
    pub(crate) fn register(
        &mut self,
        me: &mut SlotFront,
        parent: LongTask,
        mode: Mode,
    ) -> Result<LongTask, Refusal>
        requires log { me.old.log ≡ J.slots self.old.slot }
        ensures told { IsNumbered result (λ n. register parent n mode)
            (told_of self.old.number me.old.items) (told_of self.old.number me.new.items) }
        ensures numbered { (result ≢ Err Refusal.RegisteredTwice) × (result ≢ Err Refusal.TasksFull) }
        ensures others { (k : ℕ) → GoesOn (told_of k me.old.items) (told_of k me.new.items) }
        ensures now { told_of self.new.number me.new.items ≡ self.new.cell.state.story }
        ensures log { me.new.log ≡ me.old.log }
        ensures place { (self.new.slot ≡ self.old.slot) × (self.new.number ≡ self.old.number) }
    {
        let terms = self.cell.state.history().terms();
        me.begins(&mut self.whole);
        let answer = self.cell.register(parent, mode);
        let event = register_event(parent, mode, answer);
        note(&mut self.whole, self.number, terms, event);
        *me = self.front();
        answer
    }

    /// The phaser's `send`.
    #[inline(always)]
    pub(crate) fn send(
        &mut self,
        me: &mut SlotFront,
        task: LongTask,
        accumulator: u8,
        value: i32,
    ) -> Result<(), Refusal>
        requires log { me.old.log ≡ J.slots self.old.slot }
        ensures told { IsAnswered (λ _ r. result ≡ done_result r) (send task accumulator value)
            (told_of self.old.number me.old.items) (told_of self.old.number me.new.items) }
        ensures others { (k : ℕ) → GoesOn (told_of k me.old.items) (told_of k me.new.items) }
        ensures now { told_of self.new.number me.new.items ≡ self.new.cell.state.story }
        ensures log { me.new.log ≡ me.old.log }
        ensures place { (self.new.slot ≡ self.old.slot) × (self.new.number ≡ self.old.number) }
    {
        let terms = self.cell.state.history().terms();
        me.begins(&mut self.whole);
        let answer = self.cell.send(task, accumulator, value);
        let event = done_event(LongEvent::Send(task, accumulator, value), answer);
        note(&mut self.whole, self.number, terms, event);
        *me = self.front();
        answer
    }

    /// The phaser's `look`. What was seen is the fold of all values that were sent for the phase before
    /// the task's own, which was closed.
    #[inline(always)]
    pub(crate) fn look(
        &mut self,
        me: &mut SlotFront,
        task: LongTask,
        accumulator: u8,
    ) -> Result<LongLook, Refusal>
        requires log { me.old.log ≡ J.slots self.old.slot }
        ensures told { IsAnswered (λ _ r. result ≡ look_result r) (look task accumulator)
            (told_of self.old.number me.old.items) (told_of self.old.number me.new.items) }
        ensures seen { IfOk result (λ x. HasLooked (told_of self.old.number me.new.items).terms.ops task accumulator
            (told_of self.old.number me.new.items).past x) }
        ensures others { (k : ℕ) → GoesOn (told_of k me.old.items) (told_of k me.new.items) }
        ensures now { told_of self.new.number me.new.items ≡ self.new.cell.state.story }
        ensures log { me.new.log ≡ me.old.log }
        ensures place { (self.new.slot ≡ self.old.slot) × (self.new.number ≡ self.old.number) }
    {
        let terms = self.cell.state.history().terms();
        me.begins(&mut self.whole);
        let answer = self.cell.look(task, accumulator);
        let event = look_event(task, accumulator, answer);
        note(&mut self.whole, self.number, terms, event);
        *me = self.front();
        me.is_legal();
        answer
    }

    /// The phaser's `signal`. The item comes back, or it is parked; those whom it wakes are put into
    /// `out`.
    #[inline(always)]
    pub(crate) fn signal(
        &mut self,
        me: &mut SlotFront,
        out: &mut Out<T>,
        task: LongTask,
        proposed: Option<u32>,
        item: T,
    ) -> SignalAnswer<T>
        requires log { me.old.log ≡ J.slots self.old.slot }
        requires empty { out.old ≡ [] }
        ensures told { IsAnswered (λ _ r. IsSignalAnswer item (signal_result r) result) (signal task proposed)
            (told_of self.old.number me.old.items) (told_of self.old.number me.new.items) }
        ensures item { IsBackFromSignal item result }
        ensures others { (k : ℕ) → GoesOn (told_of k me.old.items) (told_of k me.new.items) }
        ensures now { told_of self.new.number me.new.items ≡ self.new.cell.state.story }
        ensures log { me.new.log ≡ me.old.log }
        ensures place { (self.new.slot ≡ self.old.slot) × (self.new.number ≡ self.old.number) }
        ensures out { out.new ≡ freed self.new.cell.state.story self.old.cell.parked.items }
        ensures nobody { has_signalled result ≡ false → out.new ≡ [] }
    {
        let terms = self.cell.state.history().terms();
        me.begins(&mut self.whole);
        let answer = self.cell.signal(out, task, proposed, item);
        let event = signal_event(task, proposed, &answer);
        note(&mut self.whole, self.number, terms, event);
        *me = self.front();
        answer
    }

    /// The phaser's `pass`. The item comes back, or it is parked; those whom it wakes are put into
    /// `out`. If a task that can wait has passed a phase, each who was registered then, and can signal,
    /// had signalled that phase.
    #[inline(always)]
    pub(crate) fn pass(
        &mut self,
        me: &mut SlotFront,
        out: &mut Out<T>,
        task: LongTask,
        item: T,
    ) -> PassAnswer<T, Phase>
        requires log { me.old.log ≡ J.slots self.old.slot }
        requires empty { out.old ≡ [] }
        ensures told { IsAnswered (λ h r. IsPassAnswer item (pass_result h r) result) (pass task)
            (told_of self.old.number me.old.items) (told_of self.old.number me.new.items) }
        ensures closed { IfPassed result (λ p. has_mode can_wait task (told_of self.old.number me.new.items).past ≡ true
            → IsClosed p (told_of self.old.number me.new.items).past) }
        ensures item { IsBack item result }
        ensures others { (k : ℕ) → GoesOn (told_of k me.old.items) (told_of k me.new.items) }
        ensures now { told_of self.new.number me.new.items ≡ self.new.cell.state.story }
        ensures log { me.new.log ≡ me.old.log }
        ensures place { (self.new.slot ≡ self.old.slot) × (self.new.number ≡ self.old.number) }
        ensures out { out.new ≡ freed self.new.cell.state.story self.old.cell.parked.items }
        ensures nobody { goes_on result ≡ false → out.new ≡ [] }
    {
        let terms = self.cell.state.history().terms();
        me.begins(&mut self.whole);
        let answer = self.cell.pass(out, task, item);
        let event = pass_event(task, &answer);
        note(&mut self.whole, self.number, terms, event);
        *me = self.front();
        me.is_legal();
        answer
    }

    /// The phaser's `single_done`. Those whom it wakes are put into `out`.
    #[inline(always)]
    pub(crate) fn single_done(
        &mut self,
        me: &mut SlotFront,
        out: &mut Out<T>,
        task: LongTask,
    ) -> Result<(), Refusal>
        requires log { me.old.log ≡ J.slots self.old.slot }
        requires empty { out.old ≡ [] }
        ensures told { IsAnswered (λ _ r. result ≡ done_result r) (single_done task)
            (told_of self.old.number me.old.items) (told_of self.old.number me.new.items) }
        ensures others { (k : ℕ) → GoesOn (told_of k me.old.items) (told_of k me.new.items) }
        ensures now { told_of self.new.number me.new.items ≡ self.new.cell.state.story }
        ensures log { me.new.log ≡ me.old.log }
        ensures place { (self.new.slot ≡ self.old.slot) × (self.new.number ≡ self.old.number) }
        ensures out { out.new ≡ freed self.new.cell.state.story self.old.cell.parked.items }
        ensures refused { OnErr result (out.new ≡ []) }
    {
        let terms = self.cell.state.history().terms();
        me.begins(&mut self.whole);
        let answer = self.cell.single_done(out, task);
        let event = done_event(LongEvent::Did(task), answer);
        note(&mut self.whole, self.number, terms, event);
        *me = self.front();
        answer
    }

    /// The phaser's `leave`. Those whom it wakes are put into `out`.
    #[inline(always)]
    pub(crate) fn leave(
        &mut self,
        me: &mut SlotFront,
        out: &mut Out<T>,
        task: LongTask,
    ) -> Result<(), Refusal>
        requires log { me.old.log ≡ J.slots self.old.slot }
        requires empty { out.old ≡ [] }
        ensures told { IsAnswered (λ _ r. result ≡ done_result r) (drop_task task)
            (told_of self.old.number me.old.items) (told_of self.old.number me.new.items) }
        ensures others { (k : ℕ) → GoesOn (told_of k me.old.items) (told_of k me.new.items) }
        ensures now { told_of self.new.number me.new.items ≡ self.new.cell.state.story }
        ensures log { me.new.log ≡ me.old.log }
        ensures place { (self.new.slot ≡ self.old.slot) × (self.new.number ≡ self.old.number) }
        ensures out { out.new ≡ freed self.new.cell.state.story self.old.cell.parked.items }
        ensures refused { OnErr result (out.new ≡ []) }
    {
        let terms = self.cell.state.history().terms();
        me.begins(&mut self.whole);
        let answer = self.cell.leave(out, task);
        let event = done_event(LongEvent::Drop(task), answer);
        note(&mut self.whole, self.number, terms, event);
        *me = self.front();
        answer
    }
}

impl<T, J: SlotLogs> Resident<T, J> {
    /// The slot without the phaser, and the phaser. The next one in the slot has the number after it:
    /// after 2^64 phasers in one slot there is none, and this would wait for ever.
    pub(crate) fn close<R: Wait>(self, rt: &R) -> (Vacant<J>, LongCell<T>)
        requires { live_count self.cell.state.story.past ≡ 0 }
        ensures slot { result.0.slot ≡ self.slot }
        ensures next { result.0.number ≡ self.number + 1 }
        ensures phaser { result.1 ≡ self.cell }
    {
        let Resident {
            slot,
            number,
            cell,
            whole,
            of,
        } = self;
        must_be(rt, number < u64::MAX);
        (Vacant::after(slot, number, whole, of), cell)
    }
}
