//! A phaser that is asked who would have to wait.
ghost use Rattle.std.specs.Prelude.{◌≡◌, false, is_some, IfSome, IfNone};
ghost use Rattle.phase_model.specs.Tasks.{is_live};
ghost use Rattle.phase_model.specs.Waiting.{would_wait, signal_would_wait, is_in_open_phase};

use crate::{LongPhaser, PhaserState};

/// A phaser, by the questions that are asked for those who are parked at it. Tasks are numbered by
/// 64 bits, whatever the phaser has; a number that it can't have is one that isn't registered.
pub trait Asked {
    ghost use Rattle.phase_model.specs.Rules.{Story};

    /// All that was ever done on it.
    ghost story: { Self → Story };

    /// Whether a pass of the task would be answered `NotYet`.
    fn waits_to_pass(&self, task: u64) -> bool
        ensures { result ≡ would_wait (story self.now) task };

    /// Whether a signal of the task would be answered `NotYet`.
    fn waits_to_signal(&self, task: u64, number: Option<u32>) -> bool
        ensures { result ≡ signal_would_wait (story self.now) task number };

    /// Whether the task is registered and the phase at which it stands isn't closed.
    fn stands_in_open_phase(&self, task: u64) -> bool
        ensures { result ≡ is_in_open_phase (story self.now) task };

    /// Whether it has a bound, so that a task may have to wait for its signal.
    fn is_bounded(&self) -> bool
        ensures { result ≡ is_some (story self.now).terms.bound };
}

/// The number as the phaser has it; none if it is too large to be registered.
fn narrow(state: &PhaserState, task: u64) -> Option<u32>
    ensures same { IfSome result (λ t. t ≡ task) }
    ensures unknown { IfNone result (is_live task state.now.story.past ≡ false) }
{
    match u32::try_from(task) {
        Ok(task) => Some(task),
        Err(_) => {
            // Each number that is registered is below this one.
            let _tasks = state.history().limits().tasks;
            None
        }
    }
}

impl Asked for PhaserState {
    ghost story = { λ p. p.story };

    fn waits_to_pass(&self, task: u64) -> bool {
        match narrow(self, task) {
            Some(task) => self.would_wait(task),
            None => false,
        }
    }

    fn waits_to_signal(&self, task: u64, number: Option<u32>) -> bool {
        match narrow(self, task) {
            Some(task) => self.signal_would_wait(task, number),
            None => false,
        }
    }

    fn stands_in_open_phase(&self, task: u64) -> bool {
        match narrow(self, task) {
            Some(task) => self.is_in_open_phase(task),
            None => false,
        }
    }

    fn is_bounded(&self) -> bool {
        self.history().bound().is_some()
    }
}

impl Asked for LongPhaser {
    ghost story = { λ p. p.story };

    fn waits_to_pass(&self, task: u64) -> bool {
        self.would_wait(task)
    }

    fn waits_to_signal(&self, task: u64, number: Option<u32>) -> bool {
        self.signal_would_wait(task, number)
    }

    fn stands_in_open_phase(&self, task: u64) -> bool {
        self.is_in_open_phase(task)
    }

    fn is_bounded(&self) -> bool {
        self.history().bound().is_some()
    }
}
