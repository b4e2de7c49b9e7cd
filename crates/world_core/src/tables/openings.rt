//! The opening of a finish.
ghost use Rattle.std.specs.Prelude.{◌≡◌, ◌<◌, not, length, IfOk};
ghost use Rattle.phase_modes.specs.Lists.{is_empty};
ghost use Rattle.phase_modes.specs.Refusal.{first_refusal};
ghost use Rattle.world_records.specs.Kept.{finish_at};
ghost use Rattle.world_model.specs.ActConditions.{free_unless};
ghost use Rattle.world_records.specs.inner.Steps.{open_conditions, open_answer, open_state};
ghost use Rattle.world_records.specs.StandsFor.{IsStep};

use super::Tables;
use finish_core::FinishEvent;
use phase_modes::{FinishNumber, Refusal, TaskNumber};
use world_model::{Reply, WorldEvent};

impl Tables {
    #[tactic(auto, using(world_records::proofs::Calls::none_at_all))]
    /// Whether the number is a finish's.
    fn is_finish(&self, finish: FinishNumber) -> bool
        ensures { result ≡ not (is_empty (finish_at self.now finish).past) }
    {
        if finish.place() >= self.finishes.len() {
            return false;
        }
        let state = &self.finishes[finish.place()];
        !state.history().is_empty()
    }

    /// What the opening of a finish is refused by.
    pub(super) fn may_open(&self, finish: FinishNumber, task: TaskNumber) -> Result<(), Refusal>
        ensures answer { result ≡ free_unless (first_refusal (open_conditions self.now finish task)) }
        ensures task { IfOk result (λ _. task < length self.now.tasks) }
        ensures finish { IfOk result (λ _. finish < length self.now.finishes) }
        ensures owner { IfOk result (λ _. finish < length self.now.owners) }
        ensures outer { IfOk result (λ _. finish < length self.now.outers) }
    {
        self.may_act(task, self.is_finish(finish), true)?;
        if finish.get() >= self.limits.finishes {
            return Err(Refusal::FinishesFull);
        }
        Ok(())
    }

    /// Opens a finish.
    fn open_finish(&mut self, finish: FinishNumber, task: TaskNumber) -> Result<Reply, Refusal>
        ensures answer { result ≡ open_answer self.old finish task }
        ensures state { self.new ≡ open_state self.old finish task }
    {
        self.may_open(finish, task)?;
        let state = &mut self.finishes[finish.place()];
        let _opened = state.opened(task.get());
        let line = &mut self.tasks[task.place()];
        let outer = line.innermost();
        line.note_opening(finish);
        self.owners[finish.place()] = task.get();
        self.outers[finish.place()] = outer;
        Ok(Reply::Done)
    }

    /// The step that opens a finish.
    pub(super) fn step_open(
        &mut self,
        finish: FinishNumber,
        task: TaskNumber,
    ) -> Result<Reply, Refusal>
        ensures { IsStep (WorldEvent.Finish finish (FinishEvent.Opened task)) self.old self.new result }
    {
        self.open_finish(finish, task)
    }
}
