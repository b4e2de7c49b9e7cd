//! How a task ends, and how a finish is shut.
ghost use Rattle.std.specs.Prelude.{◌≡◌, ◌<◌, length, get_or, IfOk, IfErr, true};
ghost use Rattle.finish_core.specs.Finish.{all_ended};
ghost use Rattle.world_records.specs.inner.FinishSteps.{said, finish_called, end_asked, end_answer, end_noted, end_state, owner_in, shut_asked, shut_answer, shut_noted, shut_state};
ghost use Rattle.world_records.specs.Kept.{finish_at};
ghost use Rattle.world_records.specs.StandsFor.{IsStep};

use super::Tables;
use finish_core::FinishEvent;
use phase_modes::{FinishNumber, Refusal, TaskNumber};
use world_model::{Reply, WorldEvent};
use world_records::Plan;

impl Tables {
    /// Whether the task's next event is to end in this finish.
    fn is_to_end(&self, finish: FinishNumber, task: TaskNumber) -> bool
        ensures to { result ≡ end_asked self.now finish task }
        ensures place { result ≡ true → task < length self.now.tasks }
    {
        if task.place() >= self.tasks.len() {
            return false;
        }
        match self.kept_next(task) {
            Some(WorldEvent::Finish(f, FinishEvent::Ended(t))) => f == finish.get()
                && t == task.get(),
            _ => false,
        }
    }

    /// Notes in a finish that the task has ended.
    fn end_in(&mut self, finish: FinishNumber, task: TaskNumber) -> Result<(), Refusal>
        ensures reply { result ≡ said (finish_at self.old finish) (FinishEvent.Ended task) }
        ensures state { IfOk result (λ _. self.new ≡ finish_called self.old finish (FinishEvent.Ended task)) }
        ensures kept { IfErr result (λ _. self.new ≡ self.old) }
    {
        if finish.place() >= self.finishes.len() {
            return Err(Refusal::NotNow);
        }
        let state = &mut self.finishes[finish.place()];
        state.ended(task.get())?;
        Ok(())
    }

    /// The end of a task.
    fn end_due(&mut self, finish: FinishNumber, task: TaskNumber) -> Result<Reply, Refusal>
        ensures answer { result ≡ end_answer self.old finish task }
        ensures state { self.new ≡ end_state self.old finish task }
    {
        if !self.is_to_end(finish, task) {
            return Err(Refusal::NotNow);
        }
        self.end_in(finish, task)?;
        let line = &mut self.tasks[task.place()];
        line.note_end();
        Ok(Reply::Done)
    }

    /// The step that ends a task.
    pub(super) fn step_end(
        &mut self,
        finish: FinishNumber,
        task: TaskNumber,
    ) -> Result<Reply, Refusal>
        ensures { IsStep (WorldEvent.Finish finish (FinishEvent.Ended task)) self.old self.new result }
    {
        self.end_due(finish, task)
    }

    /// Who opened the finish.
    fn owner(&self, finish: FinishNumber) -> TaskNumber
        ensures { result ≡ owner_in self.now finish }
    {
        if finish.place() >= self.owners.len() {
            return TaskNumber::of(0);
        }
        TaskNumber::of(self.owners[finish.place()])
    }

    /// Whether the next event of the finish's owner is to shut it.
    fn is_to_shut(&self, finish: FinishNumber) -> bool
        ensures to { result ≡ shut_asked self.now finish }
        ensures place { result ≡ true → owner_in self.now finish < length self.now.tasks }
    {
        let owner = self.owner(finish);
        if owner.place() >= self.tasks.len() {
            return false;
        }
        match self.kept_next(owner) {
            Some(WorldEvent::Finish(f, FinishEvent::Shut)) => f == finish.get(),
            _ => false,
        }
    }

    /// Whether each task in the finish has ended.
    pub(super) fn all_ended(&self, finish: FinishNumber) -> bool
        ensures { result ≡ all_ended (finish_at self.now finish).past }
    {
        if finish.place() >= self.finishes.len() {
            return true;
        }
        let state = &self.finishes[finish.place()];
        state.all_ended()
    }

    /// Shuts a finish in which all tasks have ended.
    fn shut_in(&mut self, finish: FinishNumber) -> Result<(), Refusal>
        ensures reply { result ≡ said (finish_at self.old finish) FinishEvent.Shut }
        ensures state { IfOk result (λ _. self.new ≡ finish_called self.old finish FinishEvent.Shut) }
        ensures place { IfOk result (λ _. finish < length self.old.outers) }
        ensures kept { IfErr result (λ _. self.new ≡ self.old) }
    {
        if finish.place() >= self.finishes.len() {
            return Err(Refusal::NotNow);
        }
        let state = &mut self.finishes[finish.place()];
        state.shut()?;
        Ok(())
    }

    /// The shut of a finish: it has to wait for the tasks in it.
    fn shut_due(&mut self, finish: FinishNumber) -> Result<Reply, Refusal>
        ensures answer { result ≡ shut_answer self.old finish }
        ensures state { self.new ≡ shut_state self.old finish }
    {
        if !self.is_to_shut(finish) {
            return Err(Refusal::NotNow);
        }
        if !self.all_ended(finish) {
            return Ok(Reply::NotYet);
        }
        let owner = self.owner(finish);
        self.shut_in(finish)?;
        let line = &mut self.tasks[owner.place()];
        line.note_shut(finish, owner, &self.outers);
        Ok(Reply::Done)
    }

    /// The step that shuts a finish.
    pub(super) fn step_shut(&mut self, finish: FinishNumber) -> Result<Reply, Refusal>
        ensures { IsStep (WorldEvent.Finish finish FinishEvent.Shut) self.old self.new result }
    {
        self.shut_due(finish)
    }
}
