//! What is reported of a task by its record.
ghost use Rattle.std.specs.Prelude.{◌≡◌, ◌&&◌, not, slice_get};
ghost use Rattle.world_records.specs.inner.Queries.{drop_or, shut_or, kept_condition};
ghost use Rattle.world_records.specs.StandsFor.{end_of};

use super::KeptTask;
use crate::Plan;
use finish_core::FinishEvent;
use phase_modes::TaskNumber;
use world_model::{Condition, Step, WorldEvent};

impl KeptTask {
    /// What it is about; a number without a task is about nothing.
    pub fn condition(&self) -> Option<Condition>
        ensures { result ≡ kept_condition self.now }
    {
        if self.ended {
            return Some(Condition::Ended);
        }
        if !self.born {
            return None;
        }
        Some(match self.plan {
            Plan::Idle => Condition::Idle,
            Plan::Signalling(_, _) => Condition::Signalling,
            Plan::Turning => Condition::Turning,
            Plan::Spawning(_, _, _) => Condition::Spawning,
            Plan::Shutting => Condition::Shutting,
            Plan::Ending(_) => Condition::Ending,
        })
    }

    /// Whether it was spawned, or is the root, and hasn't ended.
    pub fn goes_on(&self) -> bool
        ensures { result ≡ (self.now.is_born && not self.now.is_ended) }
    {
        self.born && !self.ended
    }

    /// The event with which it ends.
    pub fn end(&self, own: TaskNumber) -> WorldEvent
        ensures { result ≡ end_of own self.now }
    {
        if own.get() == 0 {
            WorldEvent::Finish(0, FinishEvent::Shut)
        } else {
            WorldEvent::Finish(self.home, FinishEvent::Ended(own.get()))
        }
    }

    /// The next event of a task that ends, if it drops this child first.
    pub fn ending(&self, own: TaskNumber, child: TaskNumber) -> WorldEvent
        ensures { result ≡ drop_or child (slice_get self.now.left 0)
            (drop_or own (slice_get self.now.phasers 0)
            (shut_or self.now.innermost (end_of own self.now))) }
    {
        if let Some(phaser) = self.left.first().copied() {
            return WorldEvent::Phaser(phaser, Step::Drop(child.get()));
        }
        if let Some(phaser) = self.phasers.first().copied() {
            return WorldEvent::Phaser(phaser, Step::Drop(own.get()));
        }
        match self.innermost {
            Some(finish) => WorldEvent::Finish(finish, FinishEvent::Shut),
            None => self.end(own),
        }
    }
}
