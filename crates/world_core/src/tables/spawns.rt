//! The spawn of a child.
ghost use Rattle.std.specs.Prelude.{◌≡◌, ◌<◌, length, IfOk, IfErr, true};
ghost use Rattle.finish_core.specs.Replies.{reply as answer};
ghost use Rattle.world_records.specs.Kept.{finish_at, task_at};
ghost use Rattle.world_records.specs.inner.SpawnSteps.{spawner_at, is_to_spawn, spawn_wanted, spawn_answer, spawn_state, finish_spawned};
ghost use Rattle.world_records.specs.StandsFor.{IsStep};

use super::Tables;
use finish_core::FinishEvent;
use phase_modes::{FinishNumber, Refusal, TaskNumber};
use world_model::{Reply, WorldEvent};

impl Tables {
    /// Who began to spawn the task; a number without a task has the root.
    fn spawner(&self, child: TaskNumber) -> TaskNumber
        ensures { result ≡ spawner_at self.now child }
    {
        if child.place() >= self.tasks.len() {
            return TaskNumber::of(0);
        }
        let line = &self.tasks[child.place()];
        line.spawner()
    }

    /// Whether the task's next event is to spawn this child in this finish.
    fn is_to_spawn(&self, task: TaskNumber, finish: FinishNumber, child: TaskNumber) -> bool
        ensures to { result ≡ is_to_spawn (task_at self.now task) finish child }
        ensures place { result ≡ true → task < length self.now.tasks }
    {
        if task.place() >= self.tasks.len() {
            return false;
        }
        let line = &self.tasks[task.place()];
        line.is_to_spawn(finish, child)
    }

    /// Asks a finish to note a spawn. A number without a finish has none open.
    fn spawn_in(&mut self, finish: FinishNumber, child: TaskNumber) -> Result<(), Refusal>
        ensures reply { result ≡ answer (finish_at self.old finish).tasks (finish_at self.old finish).past
            (FinishEvent.Spawned child) }
        ensures state { IfOk result (λ _. self.new ≡ finish_spawned self.old finish child) }
        ensures place { IfOk result (λ _. finish < length self.old.finishes) }
        ensures kept { IfErr result (λ _. self.new ≡ self.old) }
    {
        if finish.place() >= self.finishes.len() {
            return Err(Refusal::NotNow);
        }
        let state = &mut self.finishes[finish.place()];
        state.spawned(child.get())?;
        Ok(())
    }

    /// The spawn of a child that was named.
    fn spawn_child(&mut self, finish: FinishNumber, child: TaskNumber) -> Result<Reply, Refusal>
        ensures answer { result ≡ spawn_answer self.old finish child }
        ensures state { self.new ≡ spawn_state self.old finish child }
    {
        let spawner = self.spawner(child);
        if !self.is_to_spawn(spawner, finish, child) || child.place() >= self.tasks.len() {
            return Err(Refusal::NotNow);
        }
        self.spawn_in(finish, child)?;
        let clock = self.tasks[spawner.place()].clock();
        let born = &mut self.tasks[child.place()];
        born.note_birth(finish, clock);
        let line = &mut self.tasks[spawner.place()];
        line.note_spawn();
        Ok(Reply::Done)
    }

    /// The step that spawns a child.
    pub(super) fn step_spawn(
        &mut self,
        finish: FinishNumber,
        child: TaskNumber,
    ) -> Result<Reply, Refusal>
        ensures { IsStep (WorldEvent.Finish finish (FinishEvent.Spawned child)) self.old self.new result }
    {
        self.spawn_child(finish, child)
    }
}
