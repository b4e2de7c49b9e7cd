//! Questions on a phaser for whoever keeps a list of waiting tasks. They change nothing.
ghost use Rattle.std.specs.Prelude.{◌≡◌};
ghost use Rattle.phase_model.specs.Waiting.{would_wait, signal_would_wait, is_in_open_phase};

use crate::state::Engine;
use crate::turn::{Turn, Unmade};
use crate::view::{View, view_of};
use reg_table::Comparisons;

impl Engine {
    /// Whether a pass of the task would be answered `NotYet`.
    pub fn would_wait(&self, task: u64) -> bool
        ensures { result ≡ would_wait self.now.story task }
    {
        let mut comparisons = Comparisons::none();
        let view = view_of!(self);
        match view.may_pass(task, &mut comparisons) {
            Ok(Turn::Waits) => true,
            _ => false,
        }
    }

    /// Whether a signal of the task would be answered `NotYet`.
    pub fn signal_would_wait(&self, task: u64, number: Option<u32>) -> bool
        ensures { result ≡ signal_would_wait self.now.story task number }
    {
        let mut comparisons = Comparisons::none();
        let view = view_of!(self);
        match view.may_signal(task, number, &mut comparisons) {
            Err(Unmade::Held) => true,
            _ => false,
        }
    }

    /// Whether the task is registered and the phase at which it stands isn't closed.
    pub fn is_in_open_phase(&self, task: u64) -> bool
        ensures { result ≡ is_in_open_phase self.now.story task }
    {
        let mut comparisons = Comparisons::none();
        match self.table.find(task, &mut comparisons) {
            Some((_, entry)) => !self.table.is_closed(entry.reg.phase),
            None => false,
        }
    }
}
