//! Questions on one task of a phaser. They change nothing.
ghost use Rattle.std.specs.Prelude.{◌≡◌, ◌≤◌, IfSome};
ghost use Rattle.phase_model.specs.Rules.{is_permitted};
ghost use Rattle.phase_model.specs.Registration.{registration};

use crate::state::Engine;
use crate::view::{View, view_of};
use phase_model::Event;
use phase_modes::LongReg;
use reg_table::Comparisons;

impl Engine {
    /// How the task is registered now.
    pub fn registration(&self, task: u64) -> Option<LongReg>
        ensures registration { result ≡ registration task self.now.story.past }
        ensures early { IfSome result (λ r. r.phase ≤ self.now.story.limits.history) }
    {
        let mut comparisons = Comparisons::none();
        match self.table.find(task, &mut comparisons) {
            Some((_, entry)) => Some(entry.reg),
            None => None,
        }
    }

    /// Whether the task may claim the single of its phase: its next `pass` then claims it.
    pub fn may_claim(&self, task: u64) -> bool
        ensures { result
            ≡ is_permitted self.now.story.limits self.now.story.terms self.now.story.past (Event.Claim task) }
    {
        let mut comparisons = Comparisons::none();
        let view = view_of!(self);
        view.is_claimer(task, &mut comparisons)
    }

    /// Whether the task may report the single done that it claimed.
    pub fn may_report(&self, task: u64) -> bool
        ensures { result
            ≡ is_permitted self.now.story.limits self.now.story.terms self.now.story.past (Event.Did task) }
    {
        let mut comparisons = Comparisons::none();
        let view = view_of!(self);
        view.is_reporter(task, &mut comparisons)
    }
}
