//! What stands behind the lock: the phaser with those who wait, and the whole of its history.
ghost use Rattle.std.specs.Prelude.{◌≡◌, [], true, false, map, IfOk, OnErr, Err, ◌≢◌};
ghost use Rattle.phase_modes.specs.Mode.{can_wait};
ghost use Rattle.phase_model.specs.declared.call.Call.TheVariants.{Make as make, Register as register, Signal as signal, Pass as pass, SingleDone as single_done, Send as send, Look as look, Drop as drop_task};
ghost use Rattle.phase_model.specs.Phases.{IsClosed};
ghost use Rattle.phase_model.specs.Replies.{done_result};
ghost use Rattle.phase_model.specs.Tasks.{has_mode};
ghost use Rattle.phase_model.specs.Answers.{signal_result, pass_result, look_result};
ghost use Rattle.phaser_core.specs.Parking.{is_parked, waiting, freed, parking, has_to_wait, goes_on, answered, IsBack, has_signalled, is_held, signal_answered, IsBackFromSignal};
ghost use Rattle.told_history.specs.Wide.{event_of};
ghost use Rattle.told_history.specs.Tails.{IsTail};
ghost use Rattle.long_locks.specs.Events.{with_one, make_event, register_event, signal_event, pass_event, look_event, done_event};
ghost use Rattle.long_locks.specs.Told.{story_of, IsAnswered, IsNumbered, IsSignalAnswer, IsPassAnswer, IfPassed, HasLooked};

use crate::cell::LongCell;
use crate::events::{
    done_event, look_event, make_event, note, pass_event, register_event, signal_event,
};
use crate::front::{Front, Naming};
use phase_model::LongLook;
use phase_modes::{Mode, Refusal};
use phaser_core::{LongTask, Out, ParkedCall, PassAnswer, Phase, SignalAnswer};
use std::marker::PhantomData;
use told_history::{LongEvent, Whole};

/// A phaser that lives long with those who wait at it, and the whole of its history, which has no
/// bytes.
///
/// Each call adds the event that its answer tells, and nothing else: its clause `added`. Its clause
/// `told` says what the caller was answered: the phaser's reply, at a place of its one history. `me`
/// has then seen the history up to that place, with the event.
#[derive(Drop)]
pub struct ReceiptCell<J: Naming, T> {
    pub cell: LongCell<T>,
    whole: Whole<LongEvent>,
    of: PhantomData<J>,
    ghost named: { whole.name ≡ J.log },
    ghost told: { cell.state.story ≡ story_of J.terms (map event_of whole.items) },
}

impl<J: Naming, T> ReceiptCell<J, T> {
    /// A phaser that nobody has made yet, under a name.
    pub fn new(cell: LongCell<T>, whole: Whole<LongEvent>) -> ReceiptCell<J, T>
        requires name { whole.name ≡ J.log }
        requires empty { whole.items ≡ [] }
        requires story { cell.state.story ≡ story_of J.terms [] }
        ensures { result.cell ≡ cell }
    {
        ReceiptCell {
            cell,
            whole,
            of: PhantomData,
        }
    }

    /// All that was done so far, as seen now.
    #[inline(always)]
    pub fn front(&mut self) -> Front<J>
        ensures same { self.new.cell ≡ self.old.cell }
        ensures all { result ≡ self.old.cell.state.story.past }
    {
        Front::of_log(&mut self.whole)
    }

    /// What was seen is a beginning of it.
    #[inline(always)]
    pub fn includes(&mut self, seen: &mut Front<J>)
        ensures same { (self.new.cell ≡ self.old.cell) × (seen.new ≡ seen.old) }
        ensures begins { IsTail seen.old self.old.cell.state.story.past }
    {
        seen.begins(&mut self.whole);
    }

    /// The phaser's `make`, under the number that is returned.
    #[inline(always)]
    pub fn make(&mut self, me: &mut Front<J>, mode: Mode) -> Result<LongTask, Refusal>
        ensures told { IsNumbered result J.terms (λ n. make n mode) me.old me.new }
        ensures begins { IsTail me.old self.old.cell.state.story.past }
        ensures added { self.new.cell.state.story.past ≡ with_one (make_event mode result) self.old.cell.state.story.past }
        ensures now { me.new ≡ self.new.cell.state.story.past }
        ensures parked { self.new.cell.parked ≡ self.old.cell.parked }
    {
        me.begins(&mut self.whole);
        let answer = self.cell.make(mode);
        note(&mut self.whole, make_event(mode, answer));
        *me = self.front();
        answer
    }

    /// The phaser's `register`, under the number that is returned.
    #[inline(always)]
    pub fn register(
        &mut self,
        me: &mut Front<J>,
        parent: LongTask,
        mode: Mode,
    ) -> Result<LongTask, Refusal>
        ensures told { IsNumbered result J.terms (λ n. register parent n mode) me.old me.new }
        ensures numbered { (result ≢ Err Refusal.RegisteredTwice) × (result ≢ Err Refusal.TasksFull) }
        ensures begins { IsTail me.old self.old.cell.state.story.past }
        ensures added { self.new.cell.state.story.past ≡ with_one (register_event parent mode result) self.old.cell.state.story.past }
        ensures now { me.new ≡ self.new.cell.state.story.past }
        ensures parked { self.new.cell.parked ≡ self.old.cell.parked }
    {
        me.begins(&mut self.whole);
        let answer = self.cell.register(parent, mode);
        note(&mut self.whole, register_event(parent, mode, answer));
        *me = self.front();
        answer
    }

    /// The phaser's `send`.
    #[inline(always)]
    pub fn send(
        &mut self,
        me: &mut Front<J>,
        task: LongTask,
        accumulator: u8,
        value: i32,
    ) -> Result<(), Refusal>
        ensures told { IsAnswered (λ _ r. result ≡ done_result r) J.terms (send task accumulator value) me.old me.new }
        ensures begins { IsTail me.old self.old.cell.state.story.past }
        ensures added { self.new.cell.state.story.past ≡ with_one (done_event (LongEvent.Send task accumulator value) result) self.old.cell.state.story.past }
        ensures now { me.new ≡ self.new.cell.state.story.past }
        ensures parked { self.new.cell.parked ≡ self.old.cell.parked }
    {
        me.begins(&mut self.whole);
        let answer = self.cell.send(task, accumulator, value);
        let event = LongEvent::Send(task, accumulator, value);
        note(&mut self.whole, done_event(event, answer));
        *me = self.front();
        answer
    }

    /// The phaser's `look`.
    #[inline(always)]
    pub fn look(
        &mut self,
        me: &mut Front<J>,
        task: LongTask,
        accumulator: u8,
    ) -> Result<LongLook, Refusal>
        ensures told { IsAnswered (λ _ r. result ≡ look_result r) J.terms (look task accumulator) me.old me.new }
        ensures seen { IfOk result (λ x. HasLooked J.terms.ops task accumulator me.new x) }
        ensures begins { IsTail me.old self.old.cell.state.story.past }
        ensures added { self.new.cell.state.story.past ≡ with_one (look_event task accumulator result) self.old.cell.state.story.past }
        ensures now { me.new ≡ self.new.cell.state.story.past }
        ensures parked { self.new.cell.parked ≡ self.old.cell.parked }
    {
        me.begins(&mut self.whole);
        let answer = self.cell.look(task, accumulator);
        note(&mut self.whole, look_event(task, accumulator, answer));
        *me = self.front();
        me.is_legal();
        answer
    }

    /// The phaser's `signal`. The item comes back, or it is parked; those whom it wakes are put into
    /// `out`.
    #[inline(always)]
    pub fn signal(
        &mut self,
        me: &mut Front<J>,
        out: &mut Out<T>,
        task: LongTask,
        number: Option<u32>,
        item: T,
    ) -> SignalAnswer<T>
        requires { out.old ≡ [] }
        ensures told { IsAnswered (λ _ r. IsSignalAnswer item (signal_result r) result) J.terms (signal task number) me.old me.new }
        ensures begins { IsTail me.old self.old.cell.state.story.past }
        ensures added { self.new.cell.state.story.past ≡ with_one (signal_event task number result) self.old.cell.state.story.past }
        ensures now { me.new ≡ self.new.cell.state.story.past }
        ensures item { IsBackFromSignal item result }
        ensures parked { self.new.cell.parked.items
            ≡ parking (is_held (signal_answered self.old.cell.state.story task number))
            (is_parked task self.old.cell.parked.items)
            (record { task = task; call = ParkedCall.Signal number; item = item })
            (waiting self.new.cell.state.story self.old.cell.parked.items) }
        ensures out { out.new ≡ freed self.new.cell.state.story self.old.cell.parked.items }
        ensures nobody { has_signalled result ≡ false → out.new ≡ [] }
    {
        me.begins(&mut self.whole);
        let answer = self.cell.signal(out, task, number, item);
        note(&mut self.whole, signal_event(task, number, &answer));
        *me = self.front();
        answer
    }

    /// The phaser's `pass`. The item comes back, or it is parked; those whom it wakes are put into
    /// `out`. If a task that can wait has passed a phase, each who was registered then, and can
    /// signal, had signalled that phase.
    #[inline(always)]
    pub fn pass(
        &mut self,
        me: &mut Front<J>,
        out: &mut Out<T>,
        task: LongTask,
        item: T,
    ) -> PassAnswer<T, Phase>
        requires { out.old ≡ [] }
        ensures told { IsAnswered (λ h r. IsPassAnswer item (pass_result h r) result) J.terms (pass task) me.old me.new }
        ensures closed { IfPassed result (λ p. has_mode can_wait task me.new ≡ true → IsClosed p me.new) }
        ensures begins { IsTail me.old self.old.cell.state.story.past }
        ensures added { self.new.cell.state.story.past ≡ with_one (pass_event task result) self.old.cell.state.story.past }
        ensures now { me.new ≡ self.new.cell.state.story.past }
        ensures item { IsBack item result }
        ensures parked { self.new.cell.parked.items ≡ parking (has_to_wait (answered self.old.cell.state.story task))
            (is_parked task self.old.cell.parked.items)
            (record { task = task; call = ParkedCall.Pass; item = item })
            (waiting self.new.cell.state.story self.old.cell.parked.items) }
        ensures out { out.new ≡ freed self.new.cell.state.story self.old.cell.parked.items }
        ensures nobody { goes_on result ≡ false → out.new ≡ [] }
    {
        me.begins(&mut self.whole);
        let answer = self.cell.pass(out, task, item);
        note(&mut self.whole, pass_event(task, &answer));
        *me = self.front();
        me.is_legal();
        answer
    }

    /// The phaser's `single_done`. Those whom it wakes are put into `out`.
    #[inline(always)]
    pub fn single_done(
        &mut self,
        me: &mut Front<J>,
        out: &mut Out<T>,
        task: LongTask,
    ) -> Result<(), Refusal>
        requires { out.old ≡ [] }
        ensures told { IsAnswered (λ _ r. result ≡ done_result r) J.terms (single_done task) me.old me.new }
        ensures begins { IsTail me.old self.old.cell.state.story.past }
        ensures added { self.new.cell.state.story.past ≡ with_one (done_event (LongEvent.Did task) result) self.old.cell.state.story.past }
        ensures now { me.new ≡ self.new.cell.state.story.past }
        ensures parked { self.new.cell.parked.items ≡ waiting self.new.cell.state.story self.old.cell.parked.items }
        ensures out { out.new ≡ freed self.new.cell.state.story self.old.cell.parked.items }
        ensures refused { OnErr result (out.new ≡ []) }
    {
        me.begins(&mut self.whole);
        let answer = self.cell.single_done(out, task);
        note(&mut self.whole, done_event(LongEvent::Did(task), answer));
        *me = self.front();
        answer
    }

    /// The phaser's `leave`. Those whom it wakes are put into `out`.
    #[inline(always)]
    pub fn leave(
        &mut self,
        me: &mut Front<J>,
        out: &mut Out<T>,
        task: LongTask,
    ) -> Result<(), Refusal>
        requires { out.old ≡ [] }
        ensures told { IsAnswered (λ _ r. result ≡ done_result r) J.terms (drop_task task) me.old me.new }
        ensures begins { IsTail me.old self.old.cell.state.story.past }
        ensures added { self.new.cell.state.story.past ≡ with_one (done_event (LongEvent.Drop task) result) self.old.cell.state.story.past }
        ensures now { me.new ≡ self.new.cell.state.story.past }
        ensures parked { self.new.cell.parked.items ≡ waiting self.new.cell.state.story self.old.cell.parked.items }
        ensures out { out.new ≡ freed self.new.cell.state.story self.old.cell.parked.items }
        ensures refused { OnErr result (out.new ≡ []) }
    {
        me.begins(&mut self.whole);
        let answer = self.cell.leave(out, task);
        note(&mut self.whole, done_event(LongEvent::Drop(task), answer));
        *me = self.front();
        answer
    }
}
