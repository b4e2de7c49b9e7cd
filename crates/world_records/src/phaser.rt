//! A phaser as a world keeps it: contracts see its story alone.
ghost use Rattle.std.specs.Prelude.{◌≡◌, [], length, true, IfOk, IfErr};
ghost use Rattle.phase_modes.specs.Limits.{limits_fit};
ghost use Rattle.phase_modes.specs.Lists.{is_empty};
ghost use Rattle.phase_model.specs.Rules.{is_legal, is_permitted};
ghost use Rattle.phase_model.specs.declared.call.Call.TheVariants.{Make as make, Register as register, Signal as signal, Pass as pass, SingleDone as single_done, Send as send, Look as look, Drop as drop_task};
ghost use Rattle.phase_model.specs.Replies.{reply, returned, after, done_result};
ghost use Rattle.phase_model.specs.Waiting.{signal_would_wait, would_wait};
ghost use Rattle.phase_model.specs.Answers.{signal_result, pass_result, look_result, made_with};
ghost use Rattle.phase_model.specs.Registration.{registration};
ghost use Rattle.world_records.specs.Kept.{blank_story};

use phase_model::{Call, Event, History, Look, Reply, Terms};
use phase_modes::{Limits, Mode, Refusal, Reg, TaskNumber};
use phaser_core::{Passing, PhaserState, Signalling};
use std::alloc::Global;
use std::marker::Model;

/// A phaser of a world.
#[derive(Drop)]
pub struct KeptPhaser {
    state: PhaserState,
}

impl Model for KeptPhaser {
    ghost use Rattle.phase_model.specs.Rules.{Story};

    ghost Value = { Story };

    ghost view = { λ p. p.state.story };
}

impl KeptPhaser {
    /// A phaser that nobody has made yet.
    pub fn blank(alloc: Global, limits: Limits) -> Result<KeptPhaser, Refusal>
        requires { limits_fit limits ≡ true }
        ensures blank { IfOk result (λ p. p ≡ blank_story limits) }
        ensures memory { IfErr result (λ r. r ≡ Refusal.Memory) }
    {
        let state = PhaserState::blank(alloc, limits)?;
        Ok(KeptPhaser { state })
    }

    /// Makes it with these operators and this bound, and registers its maker.
    pub fn make_with(&mut self, task: TaskNumber, mode: Mode, terms: Terms) -> Result<(), Refusal>
        ensures reply { result ≡ done_result (reply self.old (make task mode)) }
        ensures history { self.new ≡ made_with self.old terms (reply self.old (make task mode)) }
    {
        self.state
            .make_with(task.get(), mode, terms.ops, terms.bound)
    }

    /// Registers a child where its parent stands.
    pub fn register(
        &mut self,
        parent: TaskNumber,
        child: TaskNumber,
        mode: Mode,
    ) -> Result<(), Refusal>
        ensures reply { result ≡ done_result (reply self.old (register parent child mode)) }
        ensures history { self.new ≡ after self.old (reply self.old (register parent child mode)) }
    {
        self.state.register(parent.get(), child.get(), mode)
    }

    /// Asks to signal the task's phase.
    pub fn signal(&mut self, task: TaskNumber, number: Option<u32>) -> Result<Signalling, Refusal>
        ensures reply { result ≡ signal_result (reply self.old (signal task number)) }
        ensures history { self.new ≡ after self.old (reply self.old (signal task number)) }
    {
        self.state.signal(task.get(), number)
    }

    /// Asks to end the task's turn.
    pub fn pass(&mut self, task: TaskNumber) -> Result<Passing, Refusal>
        ensures reply { result ≡ pass_result self.old.past (reply self.old (pass task)) }
        ensures history { self.new ≡ after self.old (reply self.old (pass task)) }
    {
        self.state.pass(task.get())
    }

    /// Reports the single done that the task had claimed.
    pub fn single_done(&mut self, task: TaskNumber) -> Result<(), Refusal>
        ensures reply { result ≡ done_result (reply self.old (single_done task)) }
        ensures history { self.new ≡ after self.old (reply self.old (single_done task)) }
    {
        self.state.single_done(task.get())
    }

    /// Sends a value to an accumulator.
    pub fn send(&mut self, task: TaskNumber, accumulator: u8, value: i32) -> Result<(), Refusal>
        ensures reply { result ≡ done_result (reply self.old (send task accumulator value)) }
        ensures history { self.new ≡ after self.old (reply self.old (send task accumulator value)) }
    {
        self.state.send(task.get(), accumulator, value)
    }

    /// What an accumulator holds for the task.
    pub fn look(&mut self, task: TaskNumber, accumulator: u8) -> Result<Look, Refusal>
        ensures reply { result ≡ look_result (reply self.old (look task accumulator)) }
        ensures history { self.new ≡ after self.old (reply self.old (look task accumulator)) }
    {
        self.state.look(task.get(), accumulator)
    }

    /// Drops the task.
    pub fn drop_task(&mut self, task: TaskNumber) -> Result<(), Refusal>
        ensures reply { result ≡ done_result (reply self.old (drop_task task)) }
        ensures history { self.new ≡ after self.old (reply self.old (drop_task task)) }
    {
        self.state.drop_task(task.get())
    }

    /// What a call would be answered now.
    pub fn reply_to(&self, call: Call) -> Reply
        ensures { result ≡ returned self.now.past (reply self.now call) }
    {
        self.state.reply_to(call)
    }

    /// Whether a pass of the task would be answered not yet.
    pub fn would_wait(&self, task: TaskNumber) -> bool
        ensures { result ≡ would_wait self.now task }
    {
        self.state.would_wait(task.get())
    }

    /// Whether a signal of the task with this number would be answered not yet.
    pub fn signal_would_wait(&self, task: TaskNumber, number: Option<u32>) -> bool
        ensures { result ≡ signal_would_wait self.now task number }
    {
        self.state.signal_would_wait(task.get(), number)
    }

    /// How the task is registered now.
    pub fn registration(&self, task: TaskNumber) -> Option<Reg>
        ensures { result ≡ registration task self.now.past }
    {
        self.state.registration(task.get())
    }

    /// Whether the task may claim the single of its phase.
    pub fn may_claim(&self, task: TaskNumber) -> bool
        ensures { result ≡ is_permitted self.now.limits self.now.terms self.now.past (Event.Claim task) }
    {
        self.state.may_claim(task.get())
    }

    /// Whether the task may report the single done that it claimed.
    pub fn may_report(&self, task: TaskNumber) -> bool
        ensures { result ≡ is_permitted self.now.limits self.now.terms self.now.past (Event.Did task) }
    {
        self.state.may_report(task.get())
    }

    /// Whether nobody has made it.
    pub fn is_unmade(&self) -> bool
        ensures { result ≡ is_empty self.now.past }
    {
        self.state.history().len() == 0
    }

    /// All that was done on it.
    pub fn history(&self) -> &History
        ensures history { result.now ≡ self.now }
        ensures legal { is_legal self.now.limits self.now.terms self.now.past ≡ true }
    {
        self.state.history()
    }
}
