//! The phaser. Each call is the engine's, and each new task gets the next number.
ghost use Rattle.std.specs.Prelude.{◌≡◌, ◌≢◌, ◌+◌, [], true, Some, IfOk, IfErr, Ok, Err};
ghost use Rattle.phase_model.specs.Ordering.{IsOrdered};
ghost use Rattle.phase_model.specs.Phases.{is_closed};
ghost use Rattle.phase_model.specs.Rules.{is_legal};
ghost use Rattle.phase_model.specs.declared.call.Call.TheVariants.{Make as make, Register as register, Signal as signal, Pass as pass, SingleDone as single_done, Send as send, Look as look, Drop as drop_task};
ghost use Rattle.phase_model.specs.Replies.{reply, after, done_result};
ghost use Rattle.phase_model.specs.Tasks.{live_count};
ghost use Rattle.phase_model.specs.Waiting.{would_wait, signal_would_wait, is_in_open_phase};
ghost use Rattle.phase_model.specs.Answers.{signal_result, pass_result, look_result};
ghost use Rattle.phase_model.specs.Registration.{registration};
ghost use Rattle.told_history.specs.Wide.{limits_of};
ghost use Rattle.phaser_core.specs.LongLife.{long_limits};

use phase_model::{Bound, LongLook, LongPassing, Ops, Signalling};
use phase_modes::{LongReg, Mode, Refusal};
use phaser_engine::Engine;
use std::alloc::Global;
use std::marker::Model;
use told_history::{LongLimits, Told};

/// The number of a task.
pub type LongTask = u64;

/// The number of a phase.
pub type Phase = u64;

/// How many events there is room for: with one each nanosecond, for 146 years.
const MOST_EVENTS: u64 = 1 << 62;

/// A phaser with room for 2^62 events and for 256 registrations at once, whose memory is
/// all taken by `new`. Contracts see all that was ever done on it, which nothing stores, and the
/// number that it gives out next.
#[derive(Drop)]
pub struct LongPhaser {
    engine: Engine,
    /// Each number that was ever registered is below it.
    next: LongTask,
}

impl Model for LongPhaser {
    ghost use Rattle.phaser_core.specs.LongLife.{Numbered, IsNumbered};

    ghost Value = { Numbered };

    ghost view = { λ p. record { story = p.engine.story; next = p.next } };

    ghost invariant = { λ p. IsNumbered p.next p.engine.story };
}

impl LongPhaser {
    /// A phaser that nobody has made yet, with the operators of its accumulators. A signaller may be
    /// ahead of a waiter by as many phases as the bound says: 2 makes nobody wait at a barrier who
    /// wouldn't wait anyway, and for producers and consumers it is the length of the queue. What was
    /// folded is kept for two phases more than the bound. All memory that it will ever need is taken
    /// here; `Memory` if that is refused.
    pub fn new(alloc: Global, ops: Ops, bound: Bound) -> Result<LongPhaser, Refusal>
        ensures empty { IfOk result (λ p. p.story ≡ record { limits = long_limits; terms = record { ops = ops; bound = Some bound }; past = [] }) }
        ensures next { IfOk result (λ p. p.next ≡ 0) }
        ensures memory { IfErr result (λ r. r ≡ Refusal.Memory) }
    {
        let window = bound.phases() + 2;
        let engine = Engine::new(alloc, limits(), ops, Some(bound), window)?;
        Ok(LongPhaser { engine, next: 0 })
    }

    /// Makes the phaser, and registers its maker at phase 0, under the number that is returned.
    ///
    /// Refused: `NotNow` if it is made already.
    pub fn make(&mut self, mode: Mode) -> Result<LongTask, Refusal>
        ensures number { IfOk result (λ t. t ≡ self.old.next) }
        ensures done { IfOk result (λ _. done_result (reply self.old.story (make self.old.next mode)) ≡ Ok tt) }
        ensures refused { IfErr result (λ r. done_result (reply self.old.story (make self.old.next mode)) ≡ Err r) }
        ensures history { self.new.story ≡ after self.old.story (reply self.old.story (make self.old.next mode)) }
        ensures next { IfOk result (λ t. self.new.next ≡ t + 1) }
        ensures kept { IfErr result (λ _. self.new.next ≡ self.old.next) }
    {
        let maker = self.next;
        self.engine.make(maker, mode)?;
        self.next = maker + 1;
        Ok(maker)
    }

    /// Registers a child where its parent stands, under the number that is returned. Nobody ever had
    /// that number.
    ///
    /// Refused, in this order: `NotRegistered` (the parent), `MoreThanParent`, `RegsFull`,
    /// `HistoryFull`.
    pub fn register(&mut self, parent: LongTask, mode: Mode) -> Result<LongTask, Refusal>
        ensures number { IfOk result (λ t. t ≡ self.old.next) }
        ensures done { IfOk result (λ _. done_result (reply self.old.story (register parent self.old.next mode)) ≡ Ok tt) }
        ensures refused { IfErr result (λ r.
            done_result (reply self.old.story (register parent self.old.next mode)) ≡ Err r) }
        ensures numbered { (result ≢ Err Refusal.RegisteredTwice) × (result ≢ Err Refusal.TasksFull) }
        ensures history { self.new.story
            ≡ after self.old.story (reply self.old.story (register parent self.old.next mode)) }
        ensures next { IfOk result (λ t. self.new.next ≡ t + 1) }
        ensures kept { IfErr result (λ _. self.new.next ≡ self.old.next) }
    {
        let child = self.next;
        // There were as many events as numbers, so there is one more.
        let _ = self.engine.history();
        self.engine.register(parent, child, mode, false)?;
        self.next = child + 1;
        Ok(child)
    }

    /// Signals the task's phase; with a number it proposes the single of that number for it. It is
    /// not yet made while a waiter is as many phases behind as the phaser's bound says.
    ///
    /// Refused, in this order: `NotRegistered`, `NoSignal`, `NoSingle` (with a number only),
    /// `AlreadySignalled`, `SingleMismatch`, then the reply is not yet (`NotYet`), then
    /// `HistoryFull`.
    #[inline(always)]
    pub fn signal(&mut self, task: LongTask, number: Option<u32>) -> Result<Signalling, Refusal>
        ensures reply { result ≡ signal_result (reply self.old.story (signal task number)) }
        ensures history { self.new.story ≡ after self.old.story (reply self.old.story (signal task number)) }
        ensures next { self.new.next ≡ self.old.next }
    {
        self.engine.signal(task, number)
    }

    /// Asks to end the task's turn. A task that only signals waits for nobody; any other waits
    /// until its phase is closed and the phase's single, if one was proposed, is done. The first of
    /// the proposers that asks once the phase is closed claims the single instead.
    ///
    /// Refused, in this order: `NotRegistered`, `NotSignalled`, then the reply is not yet
    /// (`NotYet`), then `HistoryFull`.
    #[inline(always)]
    pub fn pass(&mut self, task: LongTask) -> Result<LongPassing, Refusal>
        ensures reply { result ≡ pass_result self.old.story.past (reply self.old.story (pass task)) }
        ensures history { self.new.story ≡ after self.old.story (reply self.old.story (pass task)) }
        ensures next { self.new.next ≡ self.old.next }
    {
        self.engine.pass(task)
    }

    /// Reports the single done that the task had claimed.
    ///
    /// Refused, in this order: `NotRegistered`, `NotNow` if the task isn't the claimer.
    pub fn single_done(&mut self, task: LongTask) -> Result<(), Refusal>
        ensures reply { result ≡ done_result (reply self.old.story (single_done task)) }
        ensures history { self.new.story ≡ after self.old.story (reply self.old.story (single_done task)) }
        ensures next { self.new.next ≡ self.old.next }
    {
        self.engine.single_done(task)
    }

    /// Sends a value to an accumulator. It counts for the phase that the task hasn't signalled yet.
    ///
    /// Refused, in this order: `NotRegistered`, `NoSignal`, `NoAccumulator`, `HistoryFull`.
    pub fn send(&mut self, task: LongTask, accumulator: u8, value: i32) -> Result<(), Refusal>
        ensures reply { result ≡ done_result (reply self.old.story (send task accumulator value)) }
        ensures history { self.new.story
            ≡ after self.old.story (reply self.old.story (send task accumulator value)) }
        ensures next { self.new.next ≡ self.old.next }
    {
        self.engine.send(task, accumulator, value)
    }

    /// What an accumulator holds of the values sent for the phase before the task's own.
    ///
    /// Refused, in this order: `NotRegistered`, `NoWait`, `NoAccumulator`, `NoPhaseYet`,
    /// `HistoryFull`.
    pub fn look(&mut self, task: LongTask, accumulator: u8) -> Result<LongLook, Refusal>
        ensures reply { result ≡ look_result (reply self.old.story (look task accumulator)) }
        ensures history { self.new.story
            ≡ after self.old.story (reply self.old.story (look task accumulator)) }
        ensures next { self.new.next ≡ self.old.next }
    {
        self.engine.look(task, accumulator)
    }

    /// Drops the task from the phaser. What it sent still counts, and its number is never given out
    /// again.
    ///
    /// Refused, in this order: `NotRegistered`, `NotNow` if the task proposed a single that
    /// isn't done.
    pub fn leave(&mut self, task: LongTask) -> Result<(), Refusal>
        ensures reply { result ≡ done_result (reply self.old.story (drop_task task)) }
        ensures history { self.new.story ≡ after self.old.story (reply self.old.story (drop_task task)) }
        ensures next { self.new.next ≡ self.old.next }
    {
        self.engine.drop_task(task)
    }

    /// Whether each task that is registered now and can signal has signalled the phase.
    pub fn closed(&self, phase: Phase) -> bool
        ensures { result ≡ is_closed phase self.now.story.past }
    {
        self.engine.closed(phase)
    }

    /// How the task is registered now.
    pub fn registration(&self, task: LongTask) -> Option<LongReg>
        ensures { result ≡ registration task self.now.story.past }
    {
        self.engine.registration(task)
    }

    /// Whether a pass of the task would be answered `NotYet`.
    pub fn would_wait(&self, task: LongTask) -> bool
        ensures { result ≡ would_wait self.now.story task }
    {
        self.engine.would_wait(task)
    }

    /// Whether a signal of the task would be answered `NotYet`.
    pub fn signal_would_wait(&self, task: LongTask, number: Option<u32>) -> bool
        ensures { result ≡ signal_would_wait self.now.story task number }
    {
        self.engine.signal_would_wait(task, number)
    }

    /// Whether the task is registered and the phase at which it stands isn't closed.
    pub fn is_in_open_phase(&self, task: LongTask) -> bool
        ensures { result ≡ is_in_open_phase self.now.story task }
    {
        self.engine.is_in_open_phase(task)
    }

    /// How many tasks are registered now. If none is, nobody will ever be again.
    pub fn registered(&self) -> usize
        ensures { result ≡ live_count self.now.story.past }
    {
        self.engine.registered()
    }

    /// All that was done on the phaser, of which the proofs alone know more than how much it was. It
    /// is legal, and no wait in it passed a phase before every signaller, registered then or later,
    /// had signalled it.
    pub fn history(&self) -> &Told
        ensures history { result.now ≡ self.now.story }
        ensures legal { is_legal self.now.story.limits self.now.story.terms self.now.story.past ≡ true }
        ensures ordered { IsOrdered self.now.story.past }
    {
        self.engine.history()
    }
}

/// The limits of a long life.
fn limits() -> LongLimits
    ensures { limits_of result ≡ long_limits }
{
    LongLimits {
        acts: 1,
        finishes: 1,
        history: MOST_EVENTS,
        phasers: 1,
        regs: 256,
        tasks: MOST_EVENTS + 1,
    }
}
