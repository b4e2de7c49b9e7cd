//! What a world reports of a task.
ghost use Rattle.std.specs.Prelude.{◌≡◌, ◌&&◌, not, List, slice_get};
ghost use Rattle.world_model.specs.declared.event.WorldEvent.{WorldEvent as Event};
ghost use Rattle.world_model.specs.TaskConditions.{condition_of};
ghost use Rattle.world_model.specs.Clock.{clock};
ghost use Rattle.world_model.specs.Due.{next_event};
ghost use Rattle.world_model.specs.Numbers.{is_named};
ghost use Rattle.world_model.specs.Able.{is_able};
ghost use Rattle.phase_model.specs.Waiting.{signal_would_wait, would_wait};
ghost use Rattle.world_records.specs.Kept.{task_at, story_at, inner_at};
ghost use Rattle.world_records.specs.inner.Queries.{turn_event, drop_or, shut_or, kept_next, kept_condition, waits_at, able_at};
ghost use Rattle.world_records.specs.StandsFor.{StandsFor, end_of};

use super::Tables;
use finish_core::FinishEvent;
use phase_modes::{FinishNumber, PhaserNumber, TaskNumber};
use world_model::{Condition, Step, WorldEvent};
use world_records::Plan;

impl Tables {
    /// What the task is about; `None` if it hasn't been spawned.
    pub(crate) fn condition(&self, task: TaskNumber) -> Option<Condition>
        ensures { (w : List Event) → StandsFor w self.now → result ≡ condition_of task w }
    {
        self.kept_condition(task)
    }

    fn kept_condition(&self, task: TaskNumber) -> Option<Condition>
        ensures { result ≡ kept_condition (task_at self.now task) }
    {
        if task.place() >= self.tasks.len() {
            return None;
        }
        let line = &self.tasks[task.place()];
        line.condition()
    }

    /// Whether a spawn has named the number, or it is the root's.
    pub(crate) fn is_named(&self, task: TaskNumber) -> bool
        ensures { (w : List Event) → StandsFor w self.now → result ≡ is_named task w }
    {
        self.kept_named(task)
    }

    pub(super) fn kept_named(&self, task: TaskNumber) -> bool
        ensures { result ≡ (task_at self.now task).is_named }
    {
        if task.place() >= self.tasks.len() {
            return false;
        }
        let line = &self.tasks[task.place()];
        line.is_named()
    }

    /// How many turns the task has completed, those of its spawner at the spawn among them.
    pub(crate) fn clock(&self, task: TaskNumber) -> u32
        ensures { (w : List Event) → StandsFor w self.now → result ≡ clock task w }
    {
        self.kept_clock(task)
    }

    fn kept_clock(&self, task: TaskNumber) -> u32
        ensures { result ≡ (task_at self.now task).clock }
    {
        if task.place() >= self.tasks.len() {
            return 0;
        }
        let line = &self.tasks[task.place()];
        line.clock()
    }

    /// The event that continues the task's act, if it is in the middle of one.
    pub(crate) fn next_event(&self, task: TaskNumber) -> Option<WorldEvent>
        ensures { (w : List Event) → StandsFor w self.now → result ≡ next_event self.now.limits task w }
    {
        self.kept_next(task)
    }

    /// Whether the task can go on now: some event of its own would be made. It can't if it has
    /// to wait for others, and if it has ended or was never spawned.
    pub(crate) fn able(&self, task: TaskNumber) -> bool
        ensures { (w : List Event) → StandsFor w self.now → result ≡ is_able self.now.limits w task }
    {
        self.kept_able(task)
    }

    fn kept_able(&self, task: TaskNumber) -> bool
        ensures { result ≡ able_at self.now task }
    {
        if task.place() >= self.tasks.len() {
            return false;
        }
        let line = &self.tasks[task.place()];
        line.goes_on() && !self.waits(self.kept_next(task))
    }

    /// Whether an event that comes next has to wait for others.
    fn waits(&self, next: Option<WorldEvent>) -> bool
        ensures { result ≡ waits_at self.now next }
    {
        match next {
            Some(WorldEvent::Phaser(phaser, Step::Pass(task))) => self.would_wait(
                PhaserNumber::of(phaser),
                TaskNumber::of(task),
            ),
            Some(WorldEvent::Phaser(phaser, Step::Sig(task, number))) => {
                self.signal_would_wait(PhaserNumber::of(phaser), TaskNumber::of(task), number)
            }
            Some(WorldEvent::Finish(finish, FinishEvent::Shut)) => !self.all_ended(FinishNumber::of(
                finish,
            )),
            _ => false,
        }
    }

    /// Whether a pass of the task would be answered not yet. A number without a phaser refuses it.
    fn would_wait(&self, phaser: PhaserNumber, task: TaskNumber) -> bool
        ensures { result ≡ would_wait (story_at self.now phaser) task }
    {
        if phaser.place() >= self.phasers.len() {
            return false;
        }
        let state = &self.phasers[phaser.place()];
        state.would_wait(task)
    }

    /// The same of a signal with this number.
    fn signal_would_wait(&self, phaser: PhaserNumber, task: TaskNumber, number: Option<u32>) -> bool
        ensures { result ≡ signal_would_wait (story_at self.now phaser) task number }
    {
        if phaser.place() >= self.phasers.len() {
            return false;
        }
        let state = &self.phasers[phaser.place()];
        state.signal_would_wait(task, number)
    }

    /// What comes if a pass is due: the single may come first.
    fn turn_event(&self, phaser: PhaserNumber, task: TaskNumber) -> WorldEvent
        ensures { result ≡ turn_event self.now task phaser }
    {
        if self.may_claim(phaser, task) {
            WorldEvent::Phaser(phaser.get(), Step::Claim(task.get()))
        } else if self.may_report(phaser, task) {
            WorldEvent::Phaser(phaser.get(), Step::Did(task.get()))
        } else {
            WorldEvent::Phaser(phaser.get(), Step::Pass(task.get()))
        }
    }

    pub(crate) fn kept_next(&self, task: TaskNumber) -> Option<WorldEvent>
        ensures { result ≡ kept_next self.now task }
    {
        if task.place() >= self.tasks.len() {
            return None;
        }
        let line = &self.tasks[task.place()];
        let first = line.first_left();
        match line.plan() {
            Plan::Idle => None,
            Plan::Signalling(number, _) => {
                let phaser = first?;
                Some(WorldEvent::Phaser(phaser, Step::Sig(task.get(), number)))
            }
            Plan::Turning => {
                let phaser = first?;
                Some(self.turn_event(PhaserNumber::of(phaser), task))
            }
            Plan::Spawning(child, pairs, made) => Some(match pairs.get(made) {
                Some(pair) => WorldEvent::Phaser(
                    pair.phaser,
                    Step::Reg(task.get(), child, pair.mode),
                ),
                None => WorldEvent::Finish(line.inner().get(), FinishEvent::Spawned(child)),
            }),
            Plan::Shutting => Some(match first {
                Some(phaser) => WorldEvent::Phaser(phaser, Step::Drop(task.get())),
                None => WorldEvent::Finish(line.inner().get(), FinishEvent::Shut),
            }),
            Plan::Ending(child) => Some(line.ending(task, TaskNumber::of(child))),
        }
    }
}
