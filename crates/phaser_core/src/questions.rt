//! Questions on a phaser. They are the engine's, and change nothing.
ghost use Rattle.std.specs.Prelude.{◌≡◌, ◌<◌, true, length, is_some, IfSome, Some, slice_get};
ghost use Rattle.std.specs.Option.{option_map};
ghost use Rattle.phase_model.specs.Phases.{is_closed};
ghost use Rattle.phase_model.specs.Replies.{reply, returned};
ghost use Rattle.phase_model.specs.Rules.{is_full, is_permitted};
ghost use Rattle.phase_model.specs.Values.{fold, sent};
ghost use Rattle.phase_model.specs.Waiting.{would_wait, signal_would_wait, is_in_open_phase};
ghost use Rattle.phase_model.specs.Registration.{registration};
ghost use Rattle.phaser_engine.specs.Window.{is_needed};

use crate::state::PhaserState;
use phase_model::{Call, Event, Look, Reply, short_look};
use phase_modes::Reg;

impl PhaserState {
    /// What `apply` would reply to the call now.
    pub fn reply_to(&self, call: Call) -> Reply
        ensures { result ≡ returned self.now.story.past (reply self.now.story call) }
    {
        let is_known = match call {
            Call::Register(_, child, _) => self.history.has_registered(child),
            _ => false,
        };
        // So there is room for phases and sums.
        self.limits_fit();
        self.engine.reply_to(call, is_known)
    }

    /// Whether each task that is registered now and can signal has signalled the phase.
    pub fn closed(&self, phase: u32) -> bool
        ensures { result ≡ is_closed phase self.now.story.past }
    {
        self.engine.closed(phase as u64)
    }

    /// Whether an event that registers nobody and proposes nothing has no room in the history.
    pub fn is_full(&self) -> bool
        ensures { result ≡ is_full self.now.story.limits self.now.story.past }
    {
        self.engine.is_full()
    }

    /// What the values sent to an accumulator for a closed phase fold to; of a phase that isn't
    /// closed it is what was folded so far. None if there is no such accumulator, or the phase
    /// is not below the limit of the history's events, so that no value can be sent for it, or it
    /// is given up. A phase is given up only once each live task that can wait has passed the phase
    /// after it.
    pub fn fold_at(&self, accumulator: u8, phase: u32) -> Option<Look>
        ensures accumulator { IfSome result (λ x. accumulator < length self.now.story.terms.ops) }
        ensures phase { IfSome result (λ x. phase < self.now.story.limits.history) }
        ensures kept { accumulator < length self.now.story.terms.ops → phase < self.now.story.limits.history
            → is_needed phase self.now.story.past ≡ true → is_some result ≡ true }
        ensures fold { IfSome result (λ x. is_closed phase self.now.story.past ≡ true → Some x
            ≡ option_map (λ op. fold op (sent accumulator phase self.now.story.past))
            (slice_get self.now.story.terms.ops accumulator)) }
    {
        // So there is room for the sum.
        self.limits_fit();
        match self.engine.fold_at(accumulator, phase as u64) {
            Some(look) => Some(short_look(look)),
            None => None,
        }
    }

    /// How many comparisons of task numbers the last call made that changes the phaser: at most 9
    /// for each registration that it looked up. `make` looks up none, and `register` two.
    pub fn compared(&self) -> u32
        ensures { result ≡ self.now.compared }
    {
        self.engine.compared()
    }

    /// How the task is registered now.
    pub fn registration(&self, task: u32) -> Option<Reg>
        ensures { result ≡ registration task self.now.story.past }
    {
        // So there is room for the phase.
        self.limits_fit();
        match self.engine.registration(task as u64) {
            Some(reg) => Some(reg.short()),
            None => None,
        }
    }

    /// Whether the task may claim the single of its phase: its next `pass` then claims it.
    pub fn may_claim(&self, task: u32) -> bool
        ensures { result
            ≡ is_permitted self.now.story.limits self.now.story.terms self.now.story.past (Event.Claim task) }
    {
        self.engine.may_claim(task as u64)
    }

    /// Whether the task may report the single done that it claimed.
    pub fn may_report(&self, task: u32) -> bool
        ensures { result
            ≡ is_permitted self.now.story.limits self.now.story.terms self.now.story.past (Event.Did task) }
    {
        self.engine.may_report(task as u64)
    }

    /// Whether a pass of the task would be answered `NotYet`.
    pub fn would_wait(&self, task: u32) -> bool
        ensures { result ≡ would_wait self.now.story task }
    {
        self.engine.would_wait(task as u64)
    }

    /// Whether a signal of the task would be answered `NotYet`.
    pub fn signal_would_wait(&self, task: u32, number: Option<u32>) -> bool
        ensures { result ≡ signal_would_wait self.now.story task number }
    {
        self.engine.signal_would_wait(task as u64, number)
    }

    /// Whether the task is registered and the phase at which it stands isn't closed.
    pub fn is_in_open_phase(&self, task: u32) -> bool
        ensures { result ≡ is_in_open_phase self.now.story task }
    {
        self.engine.is_in_open_phase(task as u64)
    }
}
