//! The drops of an act under way.
ghost use Rattle.std.specs.Prelude.{◌≡◌, ◌<◌, length, IfOk, IfErr, true};
ghost use Rattle.phase_model.specs.Replies.{reply, done_result};
ghost use Rattle.phase_model.specs.declared.call.Call.TheVariants.{Drop as drop_task};
ghost use Rattle.world_records.specs.Kept.{story_at, task_at};
ghost use Rattle.world_records.specs.inner.Steps.{phaser_called};
ghost use Rattle.world_records.specs.inner.DropSteps.{dropper_at, is_to_drop, task_gone, drop_answer, drop_state};
ghost use Rattle.world_records.specs.StandsFor.{IsStep};

use super::*;
use phase_modes::{PhaserNumber, TaskNumber};
use world_model::{Reply, Step, WorldEvent};

impl Tables {
    /// Who drops the task: itself, or the spawner of a child that was never spawned.
    fn dropper(&self, task: TaskNumber) -> TaskNumber
        ensures { result ≡ dropper_at self.now task }
    {
        if task.place() >= self.tasks.len() {
            return TaskNumber::of(0);
        }
        let line = &self.tasks[task.place()];
        if line.is_born() { task } else { line.spawner() }
    }

    /// Whether the actor's next event is that the task leaves the phaser.
    fn is_to_drop(&self, actor: TaskNumber, phaser: PhaserNumber, task: TaskNumber) -> bool
        ensures to { result ≡ is_to_drop (task_at self.now actor) actor phaser task }
        ensures place { result ≡ true → actor < length self.now.tasks }
    {
        if actor.place() >= self.tasks.len() {
            return false;
        }
        let line = &self.tasks[actor.place()];
        line.is_to_drop(actor, phaser, task)
    }

    /// Drops a task from a phaser. A number without a phaser knows no task.
    fn drop_on(&mut self, phaser: PhaserNumber, task: TaskNumber) -> Result<(), Refusal>
        ensures reply { result ≡ done_result (reply (story_at self.old phaser) (drop_task task)) }
        ensures state { IfOk result (λ _. self.new ≡ phaser_called self.old phaser (drop_task task)) }
        ensures place { IfOk result (λ _. phaser < length self.old.phasers) }
        ensures kept { IfErr result (λ _. self.new ≡ self.old) }
    {
        if phaser.place() >= self.phasers.len() {
            return Err(Refusal::NotRegistered);
        }
        let state = &mut self.phasers[phaser.place()];
        state.drop_task(task)?;
        Ok(())
    }

    /// A drop of an act under way.
    fn drop_due(&mut self, phaser: PhaserNumber, task: TaskNumber) -> Result<Reply, Refusal>
        ensures answer { result ≡ drop_answer self.old phaser task }
        ensures state { self.new ≡ drop_state self.old phaser task }
    {
        let actor = self.dropper(task);
        if !self.is_to_drop(actor, phaser, task) {
            return Err(Refusal::NotNow);
        }
        self.drop_on(phaser, task)?;
        if task.place() < self.tasks.len() {
            let gone = &mut self.tasks[task.place()];
            gone.note_gone(phaser);
        }
        let line = &mut self.tasks[actor.place()];
        line.note_drop();
        Ok(Reply::Done)
    }

    /// The step that makes a drop of an act under way.
    pub(super) fn step_drop(
        &mut self,
        phaser: PhaserNumber,
        task: TaskNumber,
    ) -> Result<Reply, Refusal>
        ensures { IsStep (WorldEvent.Phaser phaser (Step.Drop task)) self.old self.new result }
    {
        self.drop_due(phaser, task)
    }
}
