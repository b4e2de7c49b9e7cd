//! The acts on a phaser that take one event: a value is sent, or looked at.
ghost use Rattle.std.specs.Prelude.{◌≡◌, IfOk, IfErr};
ghost use Rattle.phase_model.specs.Replies.{reply, done_result};
ghost use Rattle.phase_model.specs.declared.call.Call.TheVariants.{Send as send, Look as look};
ghost use Rattle.phase_model.specs.Answers.{look_result};
ghost use Rattle.world_records.specs.Kept.{story_at};
ghost use Rattle.world_records.specs.inner.Steps.{phaser_called};
ghost use Rattle.world_records.specs.inner.Sends.{send_answer, send_state, look_answer, look_state};
ghost use Rattle.world_records.specs.StandsFor.{IsStep};

use super::Tables;
use phase_model::Look;
use phase_modes::{PhaserNumber, Refusal, TaskNumber};
use world_model::{Reply, Step, WorldEvent};

impl Tables {
    /// Sends a value to an accumulator of a phaser for a task. A number without a phaser knows no
    /// task.
    fn send_on(
        &mut self,
        phaser: PhaserNumber,
        task: TaskNumber,
        accumulator: u8,
        value: i32,
    ) -> Result<(), Refusal>
        ensures reply { result
            ≡ done_result (reply (story_at self.old phaser) (send task accumulator value)) }
        ensures state { IfOk result (λ _. self.new
            ≡ phaser_called self.old phaser (send task accumulator value)) }
        ensures kept { IfErr result (λ _. self.new ≡ self.old) }
    {
        if phaser.place() >= self.phasers.len() {
            return Err(Refusal::NotRegistered);
        }
        let state = &mut self.phasers[phaser.place()];
        state.send(task, accumulator, value)?;
        Ok(())
    }

    /// Looks at an accumulator of a phaser for a task. A number without a phaser knows no task.
    fn look_on(
        &mut self,
        phaser: PhaserNumber,
        task: TaskNumber,
        accumulator: u8,
    ) -> Result<Look, Refusal>
        ensures reply { result ≡ look_result (reply (story_at self.old phaser) (look task accumulator)) }
        ensures state { IfOk result (λ _. self.new ≡ phaser_called self.old phaser (look task accumulator)) }
        ensures kept { IfErr result (λ _. self.new ≡ self.old) }
    {
        if phaser.place() >= self.phasers.len() {
            return Err(Refusal::NotRegistered);
        }
        let state = &mut self.phasers[phaser.place()];
        let seen = state.look(task, accumulator)?;
        Ok(seen)
    }

    /// Sends a value.
    fn send_value(
        &mut self,
        phaser: PhaserNumber,
        task: TaskNumber,
        accumulator: u8,
        value: i32,
    ) -> Result<Reply, Refusal>
        ensures answer { result ≡ send_answer self.old phaser task accumulator value }
        ensures state { self.new ≡ send_state self.old phaser task accumulator value }
    {
        self.may_act(task, false, true)?;
        self.send_on(phaser, task, accumulator, value)?;
        let line = &mut self.tasks[task.place()];
        line.note_act();
        Ok(Reply::Done)
    }

    /// Looks at a value.
    fn look_at(
        &mut self,
        phaser: PhaserNumber,
        task: TaskNumber,
        accumulator: u8,
    ) -> Result<Reply, Refusal>
        ensures answer { result ≡ look_answer self.old phaser task accumulator }
        ensures state { self.new ≡ look_state self.old phaser task accumulator }
    {
        self.may_act(task, false, true)?;
        let seen = self.look_on(phaser, task, accumulator)?;
        let line = &mut self.tasks[task.place()];
        line.note_act();
        Ok(Reply::Value(seen))
    }

    /// The step that sends a value.
    pub(super) fn step_send(
        &mut self,
        phaser: PhaserNumber,
        task: TaskNumber,
        accumulator: u8,
        value: i32,
    ) -> Result<Reply, Refusal>
        ensures { IsStep (WorldEvent.Phaser phaser (Step.Send task accumulator value))
            self.old self.new result }
    {
        self.send_value(phaser, task, accumulator, value)
    }

    /// The step that looks at a value.
    pub(super) fn step_look(
        &mut self,
        phaser: PhaserNumber,
        task: TaskNumber,
        accumulator: u8,
    ) -> Result<Reply, Refusal>
        ensures { IsStep (WorldEvent.Phaser phaser (Step.Look task accumulator)) self.old self.new result }
    {
        self.look_at(phaser, task, accumulator)
    }
}
