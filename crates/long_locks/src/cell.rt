//! A phaser that lives long, and the items of those who wait at it.
ghost use Rattle.std.specs.Prelude.{◌≡◌, ◌+◌, [], ◌≤◌, false, IfOk, IfErr, OnErr, Ok, Err, Some, ◌≢◌};
ghost use Rattle.std.specs.VecDeque.{deque_len, deque_capacity};
ghost use Rattle.phaser_core.specs.LongLife.{long_limits};
ghost use Rattle.phase_model.specs.declared.call.Call.TheVariants.{Make as make, Register as register, Signal as signal, Pass as pass, SingleDone as single_done, Send as send, Look as look, Drop as drop_task};
ghost use Rattle.phase_model.specs.Replies.{reply, after, done_result};
ghost use Rattle.phase_model.specs.Answers.{look_result};
ghost use Rattle.phaser_core.specs.Parking.{is_parked, waiting, freed, locked_pass, parking, has_to_wait, goes_on, answered, IsBack, locked_signal, has_signalled, is_held, signal_answered, IsBackFromSignal};
ghost use Rattle.phaser_core.specs.Settled.{IsSettled};

use phase_model::{Bound, LongLook, Ops};
use phase_modes::{Mode, Refusal};
use phaser_core::{
    Asked, LongPhaser, LongTask, Out, Parked, ParkedCall, PassAnswer, Phase, SignalAnswer,
    has_gone_on, is_phase_open, may_be_parked, may_come_near, may_leave, may_part_proposers,
    release_if, settle_pass, settle_signal,
};
use std::alloc::Global;
use std::collections::VecDeque;

/// A phaser that lives long, and the items of those who wait for it, at most one of each task.
///
/// The type keeps, at each moment that the phaser's lock is free, what the field `kept` says.
#[derive(Drop)]
pub struct LongCell<T> {
    pub state: LongPhaser,
    pub parked: VecDeque<Parked<T>>,
    ghost kept: { IsSettled state.story parked.items },
    ghost seats: { 256 ≤ deque_capacity parked },
    ghost seated: { deque_len parked ≤ 256 },
}

impl<T> LongCell<T> {
    /// The phaser's `make`, with its refusals. It wakes nobody.
    pub fn make(&mut self, mode: Mode) -> Result<LongTask, Refusal>
        ensures number { IfOk result (λ t. t ≡ self.old.state.next) }
        ensures done { IfOk result (λ _. done_result (reply self.old.state.story (make self.old.state.next mode)) ≡ Ok tt) }
        ensures refused { IfErr result (λ r. done_result (reply self.old.state.story (make self.old.state.next mode)) ≡ Err r) }
        ensures history { self.new.state.story
            ≡ after self.old.state.story (reply self.old.state.story (make self.old.state.next mode)) }
        ensures next { IfOk result (λ t. self.new.state.next ≡ t + 1) }
        ensures kept { IfErr result (λ _. self.new.state.next ≡ self.old.state.next) }
        ensures parked { self.new.parked ≡ self.old.parked }
    {
        self.state.make(mode)
    }

    /// The phaser's `register`, with its refusals. It wakes nobody.
    pub fn register(&mut self, parent: LongTask, mode: Mode) -> Result<LongTask, Refusal>
        ensures number { IfOk result (λ t. t ≡ self.old.state.next) }
        ensures done { IfOk result (λ _.
            done_result (reply self.old.state.story (register parent self.old.state.next mode)) ≡ Ok tt) }
        ensures refused { IfErr result (λ r.
            done_result (reply self.old.state.story (register parent self.old.state.next mode)) ≡ Err r) }
        ensures numbered { (result ≢ Err Refusal.RegisteredTwice) × (result ≢ Err Refusal.TasksFull) }
        ensures history { self.new.state.story
            ≡ after self.old.state.story (reply self.old.state.story (register parent self.old.state.next mode)) }
        ensures next { IfOk result (λ t. self.new.state.next ≡ t + 1) }
        ensures kept { IfErr result (λ _. self.new.state.next ≡ self.old.state.next) }
        ensures parked { self.new.parked ≡ self.old.parked }
    {
        self.state.register(parent, mode)
    }

    /// The phaser's `send`, with its refusals. It wakes nobody.
    pub fn send(&mut self, task: LongTask, accumulator: u8, value: i32) -> Result<(), Refusal>
        ensures reply { result ≡ done_result (reply self.old.state.story (send task accumulator value)) }
        ensures history { self.new.state.story
            ≡ after self.old.state.story (reply self.old.state.story (send task accumulator value)) }
        ensures next { self.new.state.next ≡ self.old.state.next }
        ensures parked { self.new.parked ≡ self.old.parked }
    {
        self.state.send(task, accumulator, value)
    }

    /// The phaser's `look`, with its refusals. It wakes nobody.
    pub fn look(&mut self, task: LongTask, accumulator: u8) -> Result<LongLook, Refusal>
        ensures reply { result ≡ look_result (reply self.old.state.story (look task accumulator)) }
        ensures history { self.new.state.story
            ≡ after self.old.state.story (reply self.old.state.story (look task accumulator)) }
        ensures next { self.new.state.next ≡ self.old.state.next }
        ensures parked { self.new.parked ≡ self.old.parked }
    {
        self.state.look(task, accumulator)
    }

    /// The phaser's `signal`, with its refusals; a task that is too far ahead of a waiter leaves its
    /// item here instead, or has it back with `NotNow` if it is parked already. The items of all
    /// whom it wakes are put into `out`.
    pub fn signal(
        &mut self,
        out: &mut Out<T>,
        task: LongTask,
        number: Option<u32>,
        item: T,
    ) -> SignalAnswer<T>
        requires { out.old ≡ [] }
        ensures answer { result ≡ locked_signal (signal_answered self.old.state.story task number)
            (is_parked task self.old.parked.items) item }
        ensures history { self.new.state.story
            ≡ after self.old.state.story (reply self.old.state.story (signal task number)) }
        ensures next { self.new.state.next ≡ self.old.state.next }
        ensures item { IsBackFromSignal item result }
        ensures parked { self.new.parked.items
            ≡ parking (is_held (signal_answered self.old.state.story task number))
            (is_parked task self.old.parked.items)
            (record { task = task; call = ParkedCall.Signal number; item = item })
            (waiting self.new.state.story self.old.parked.items) }
        ensures out { out.new ≡ freed self.new.state.story self.old.parked.items }
        ensures nobody { has_signalled result ≡ false → out.new ≡ [] }
    {
        let LongCell { state, parked } = self;
        let others = may_part_proposers(state, number);
        let was_open = is_phase_open(state, parked);
        let answer = state.signal(task, number);
        let is_open = is_phase_open(state, parked);
        release_if(may_leave(others, was_open, is_open), state, parked, out);
        settle_signal(answer, parked, task, number, item)
    }

    /// The phaser's `leave`, with its refusals. The items of all whom it wakes are put into `out`,
    /// the leaving task's own too if it was parked.
    pub fn leave(&mut self, out: &mut Out<T>, task: LongTask) -> Result<(), Refusal>
        requires { out.old ≡ [] }
        ensures reply { result ≡ done_result (reply self.old.state.story (drop_task task)) }
        ensures history { self.new.state.story
            ≡ after self.old.state.story (reply self.old.state.story (drop_task task)) }
        ensures next { self.new.state.next ≡ self.old.state.next }
        ensures parked { self.new.parked.items ≡ waiting self.new.state.story self.old.parked.items }
        ensures out { out.new ≡ freed self.new.state.story self.old.parked.items }
        ensures refused { OnErr result (out.new ≡ []) }
    {
        let LongCell { state, parked } = self;
        let own = may_be_parked(state, task);
        let was_open = is_phase_open(state, parked);
        let answer = state.leave(task);
        let is_open = is_phase_open(state, parked);
        release_if(may_leave(own, was_open, is_open), state, parked, out);
        answer
    }

    /// The phaser's `single_done`, with its refusals. The items of all whom it wakes are put
    /// into `out`.
    pub fn single_done(&mut self, out: &mut Out<T>, task: LongTask) -> Result<(), Refusal>
        requires { out.old ≡ [] }
        ensures reply { result ≡ done_result (reply self.old.state.story (single_done task)) }
        ensures history { self.new.state.story
            ≡ after self.old.state.story (reply self.old.state.story (single_done task)) }
        ensures next { self.new.state.next ≡ self.old.state.next }
        ensures parked { self.new.parked.items ≡ waiting self.new.state.story self.old.parked.items }
        ensures out { out.new ≡ freed self.new.state.story self.old.parked.items }
        ensures refused { OnErr result (out.new ≡ []) }
    {
        let LongCell { state, parked } = self;
        let answer = state.single_done(task);
        release_if(answer.is_ok(), state, parked, out);
        answer
    }

    /// The phaser's `pass`, with its refusals; a task that has to wait leaves its item here
    /// instead, or has it back with `NotNow` if it is parked already. The items of all whom it
    /// wakes are put into `out`: those who waited to signal, for the bound.
    pub fn pass(&mut self, out: &mut Out<T>, task: LongTask, item: T) -> PassAnswer<T, Phase>
        requires { out.old ≡ [] }
        ensures answer { result
            ≡ locked_pass (answered self.old.state.story task) (is_parked task self.old.parked.items) item }
        ensures history { self.new.state.story
            ≡ after self.old.state.story (reply self.old.state.story (pass task)) }
        ensures next { self.new.state.next ≡ self.old.state.next }
        ensures item { IsBack item result }
        ensures parked { self.new.parked.items ≡ parking (has_to_wait (answered self.old.state.story task))
            (is_parked task self.old.parked.items)
            (record { task = task; call = ParkedCall.Pass; item = item })
            (waiting self.new.state.story self.old.parked.items) }
        ensures out { out.new ≡ freed self.new.state.story self.old.parked.items }
        ensures nobody { goes_on result ≡ false → out.new ≡ [] }
    {
        let LongCell { state, parked } = self;
        let bounded = state.is_bounded();
        let answer = state.pass(task);
        let gone_on = has_gone_on(answer);
        let is_near = may_come_near(bounded, gone_on, state, parked);
        release_if(is_near, state, parked, out);
        settle_pass(answer, parked, task, item)
    }
}

impl<T: Drop> LongCell<T> {
    /// A phaser that nobody has made yet, with the operators of its accumulators and its bound, at
    /// which nobody waits. All memory that it will ever need is taken here; `Memory` if that is
    /// refused.
    pub fn new(alloc: Global, ops: Ops, bound: Bound) -> Result<LongCell<T>, Refusal>
        ensures story { IfOk result (λ c. c.state.story ≡ record { limits = long_limits; terms = record { ops = ops; bound = Some bound }; past = [] }) }
        ensures next { IfOk result (λ c. c.state.next ≡ 0) }
        ensures empty { IfOk result (λ c. c.parked.items ≡ []) }
        ensures memory { IfErr result (λ r. r ≡ Refusal.Memory) }
    {
        let parked = VecDeque::with_capacity(alloc, 256)?;
        // Last, since it is the dearest to give back if another gets no memory.
        let state = LongPhaser::new(alloc, ops, bound)?;
        Ok(LongCell { state, parked })
    }
}
