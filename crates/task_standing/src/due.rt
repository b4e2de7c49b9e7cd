//! The event that comes next of a task.
ghost use Rattle.std.specs.Prelude.{◌≡◌, ◌==◌, ◌∷◌, ◌++◌, [], List, slice_get, find};
ghost use Rattle.world_model.specs.Due.{due};
ghost use Rattle.world_model.specs.declared.event.WorldEvent.{WorldEvent as Event};
ghost use Rattle.task_standing.specs.Standing.{owes, inner_of};
ghost use Rattle.task_standing.specs.StillToMake.{still_to_make, still_with, shuts_of, end_of, planned, event_of};
ghost use Rattle.task_standing.specs.Histories.{IsAbout, IsAboutWith};

use crate::held::Held;
use crate::plan::{Due, Plan};
use crate::standing::Standing;
use phase_modes::Phased;

impl Standing {
    /// The phaser at this place of those that it holds.
    fn held_at(&self, place: u32) -> Option<Held>
        ensures { result ≡ slice_get self.now.holding place }
    {
        self.holding.get(place as usize).copied()
    }

    /// The first phaser on which it owes a signal.
    fn first_owing(&self) -> Option<Held>
        ensures { result ≡ find owes self.now.holding }
    {
        for i in 0..self.holding.len() {
            let held = self.holding[i];
            if held.owes() {
                return Some(held);
            }
        }
        None
    }

    /// The first phaser that was made in this finish.
    fn first_in(&self, finish: u32) -> Option<Held>
        ensures { result ≡ find (λ h. h.finish == finish) self.now.holding }
    {
        for i in 0..self.holding.len() {
            let held = self.holding[i];
            if held.finish == finish {
                return Some(held);
            }
        }
        None
    }

    /// What comes if it is to signal.
    fn to_signal(&self, number: Option<u32>, turns: bool) -> Due
        ensures { event_of self.now.number result
            ≡ slice_get (planned self.now (Plan.Signalling number turns)) 0 }
    {
        match self.first_owing() {
            Some(held) => Due::Signal(held.phaser, number),
            None if turns => self.to_pass(0),
            None => Due::Step,
        }
    }

    /// What comes if it is to pass from this place on.
    fn to_pass(&self, next: u32) -> Due
        ensures { event_of self.now.number result ≡ slice_get (planned self.now (Plan.Turning next)) 0 }
    {
        match self.held_at(next) {
            Some(held) => Due::Pass(held.phaser),
            None => Due::Step,
        }
    }

    /// What comes if it is to spawn this child.
    fn to_spawn(&self, child: u32, pairs: &Phased, made: u32) -> Due
        ensures { event_of self.now.number result
            ≡ slice_get (planned self.now (Plan.Spawning child pairs.now made)) 0 }
    {
        match pairs.get(made) {
            Some(pair) => Due::Register(child, pair),
            None => Due::Spawn(child, self.inner()),
        }
    }

    /// What comes if it is to shut its innermost finish.
    fn to_shut(&self) -> Due
        ensures { event_of self.now.number result ≡ slice_get (planned self.now Plan.Shutting) 0 }
    {
        let finish = self.inner();
        match self.first_in(finish) {
            Some(held) => Due::Leave(held.phaser),
            None => Due::Shut(finish),
        }
    }

    /// What comes if it is to end, once it holds no phaser.
    fn to_close(&self) -> Due
        ensures { event_of self.now.number result
            ≡ slice_get (shuts_of self.now.finishes ++ end_of self.now ∷ []) 0 }
    {
        match self.finishes.last().copied() {
            Some(finish) => Due::Shut(finish),
            None if self.number == 0 => Due::Close,
            None => Due::End(self.home),
        }
    }

    /// What comes if it is to end.
    fn to_end(&self) -> Due
        ensures { event_of self.now.number result ≡ slice_get (planned self.now Plan.Ending) 0 }
    {
        match self.held_at(0) {
            Some(held) => Due::Leave(held.phaser),
            None => self.to_close(),
        }
    }

    /// The event that comes next, by what the task knows of itself; the drops of a child that was
    /// never born aside. A pass stands for the claim of a single and its report too.
    pub fn due(&self) -> Due
        ensures next { event_of self.now.number result ≡ slice_get (still_to_make self.now) 0 }
        ensures world { (w : List Event) → IsAbout w self.now
            → event_of self.now.number result ≡ slice_get (due self.now.number w) 0 }
    {
        match &self.plan {
            Plan::Idle => Due::Step,
            Plan::Signalling(number, turns) => self.to_signal(*number, *turns),
            Plan::Turning(next) => self.to_pass(*next),
            Plan::Spawning(child, pairs, made) => self.to_spawn(*child, pairs, *made),
            Plan::Shutting => self.to_shut(),
            Plan::Ending => self.to_end(),
        }
    }

    /// The same of a task with a child that was never born: if the task ends, the
    /// child leaves its phasers first.
    pub fn due_with(&self, unborn: &Standing) -> Due
        ensures next { event_of self.now.number result ≡ slice_get (still_with unborn.now self.now) 0 }
        ensures world { (w : List Event) → IsAboutWith w unborn.now self.now
            → event_of self.now.number result ≡ slice_get (due self.now.number w) 0 }
    {
        if matches!(self.plan, Plan::Ending) {
            if let Some(held) = unborn.held_at(0) {
                return Due::DropChild(held.phaser, unborn.number);
            }
        }
        self.due()
    }
}
