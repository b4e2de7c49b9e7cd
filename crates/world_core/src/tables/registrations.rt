//! The registration of a child that is being spawned.
ghost use Rattle.std.specs.Prelude.{◌≡◌, ◌<◌, length, IfOk, IfErr, true};
ghost use Rattle.phase_model.specs.Replies.{reply, done_result};
ghost use Rattle.phase_model.specs.declared.call.Call.TheVariants.{Register as register};
ghost use Rattle.world_records.specs.Kept.{story_at, task_at};
ghost use Rattle.world_records.specs.inner.Steps.{phaser_called};
ghost use Rattle.world_records.specs.inner.RegisterSteps.{has_place, is_to_register, register_answer, register_state};
ghost use Rattle.world_records.specs.StandsFor.{IsStep};

use super::*;
use phase_modes::{Mode, PhaserNumber, TaskNumber};
use world_model::{Reply, Step, WorldEvent};

impl Tables {
    /// Whether the parent's next event is to register the child on the phaser in the mode.
    fn is_to_register(
        &self,
        phaser: PhaserNumber,
        parent: TaskNumber,
        child: TaskNumber,
        mode: Mode,
    ) -> bool
        ensures to { result ≡ is_to_register (task_at self.now parent) phaser child mode }
        ensures place { result ≡ true → parent < length self.now.tasks }
    {
        if parent.place() >= self.tasks.len() {
            return false;
        }
        let line = &self.tasks[parent.place()];
        line.is_to_register(phaser, child, mode)
    }

    /// Whether the task has a line, and room for another phaser in it.
    fn has_place(&self, task: TaskNumber) -> bool
        ensures { result ≡ has_place self.now task }
    {
        if task.place() >= self.tasks.len() {
            return false;
        }
        let line = &self.tasks[task.place()];
        line.has_room()
    }

    /// Registers a child on a phaser. A number without a phaser knows no task.
    fn register_on(
        &mut self,
        phaser: PhaserNumber,
        parent: TaskNumber,
        child: TaskNumber,
        mode: Mode,
    ) -> Result<(), Refusal>
        ensures reply { result ≡ done_result (reply (story_at self.old phaser) (register parent child mode)) }
        ensures state { IfOk result (λ _. self.new
            ≡ phaser_called self.old phaser (register parent child mode)) }
        ensures place { IfOk result (λ _. phaser < length self.old.phasers) }
        ensures kept { IfErr result (λ _. self.new ≡ self.old) }
    {
        if phaser.place() >= self.phasers.len() {
            return Err(Refusal::NotRegistered);
        }
        let state = &mut self.phasers[phaser.place()];
        state.register(parent, child, mode)?;
        Ok(())
    }

    /// A registration of a spawn under way.
    fn register_child(
        &mut self,
        phaser: PhaserNumber,
        parent: TaskNumber,
        child: TaskNumber,
        mode: Mode,
    ) -> Result<Reply, Refusal>
        ensures answer { result ≡ register_answer self.old phaser parent child mode }
        ensures state { self.new ≡ register_state self.old phaser parent child mode }
    {
        if !self.is_to_register(phaser, parent, child, mode) || !self.has_place(child) {
            return Err(Refusal::NotNow);
        }
        self.register_on(phaser, parent, child, mode)?;
        let joined = &mut self.tasks[child.place()];
        joined.note_joining(phaser);
        let line = &mut self.tasks[parent.place()];
        line.note_registration();
        Ok(Reply::Done)
    }

    /// The step that registers a child.
    pub(super) fn step_register(
        &mut self,
        phaser: PhaserNumber,
        parent: TaskNumber,
        child: TaskNumber,
        mode: Mode,
    ) -> Result<Reply, Refusal>
        ensures { IsStep (WorldEvent.Phaser phaser (Step.Reg parent child mode)) self.old self.new result }
    {
        self.register_child(phaser, parent, child, mode)
    }
}
