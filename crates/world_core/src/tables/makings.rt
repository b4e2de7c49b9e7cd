//! The making of a phaser.
ghost use Rattle.std.specs.Prelude.{◌≡◌, ◌<◌, not, length, IfOk, IfErr, Some, None};
ghost use Rattle.phase_modes.specs.Lists.{is_empty};
ghost use Rattle.phase_modes.specs.Refusal.{first_refusal};
ghost use Rattle.phase_model.specs.Replies.{reply, done_result};
ghost use Rattle.phase_model.specs.declared.call.Call.TheVariants.{Make as make};
ghost use Rattle.world_records.specs.Kept.{story_at, task_at};
ghost use Rattle.world_model.specs.ActConditions.{free_unless};
ghost use Rattle.world_records.specs.inner.Registering.{make_conditions, make_answer, make_state, phaser_made};
ghost use Rattle.world_records.specs.StandsFor.{IsStep};

use super::*;
use phase_model::Terms;
use phase_modes::{Mode, PhaserNumber, TaskNumber};
use world_model::{Reply, Step, WorldEvent};

impl Tables {
    #[tactic(auto, using(world_records::proofs::PhasersKept::some_at_all))]
    /// Whether the number is a phaser's.
    fn is_phaser(&self, phaser: PhaserNumber) -> bool
        ensures { result ≡ not (is_empty (story_at self.now phaser).past) }
    {
        if phaser.place() >= self.phasers.len() {
            return false;
        }
        let state = &self.phasers[phaser.place()];
        state.history().len() > 0
    }

    /// How many phasers there are: as many as the limits say.
    fn most_phasers(&self) -> u32
        ensures most { result ≡ self.now.limits.phasers }
        ensures phasers { length self.now.phasers ≡ result }
        ensures enclosing { length self.now.enclosing ≡ result }
    {
        self.limits.phasers
    }

    /// What the making of a phaser is refused by before the phaser is asked.
    pub(super) fn may_make(&self, phaser: PhaserNumber, task: TaskNumber) -> Result<(), Refusal>
        ensures answer { result ≡ free_unless (first_refusal (make_conditions self.now phaser task)) }
        ensures free { IfOk result (λ _. first_refusal (make_conditions self.now phaser task) ≡ None) }
        ensures refused { IfErr result (λ r. first_refusal (make_conditions self.now phaser task) ≡ Some r) }
        ensures task { IfOk result (λ _. task < length self.now.tasks) }
        ensures phaser { IfOk result (λ _. phaser < length self.now.phasers) }
        ensures enclosing { IfOk result (λ _. phaser < length self.now.enclosing) }
        ensures room { IfOk result (λ _. length (task_at self.now task).phasers < 16) }
    {
        self.may_act(task, self.is_phaser(phaser), true)?;
        let line = &self.tasks[task.place()];
        if phaser.get() >= self.most_phasers() {
            return Err(Refusal::PhasersFull);
        }
        if !line.has_room() {
            return Err(Refusal::PhasersFull);
        }
        Ok(())
    }

    /// Asks a phaser to be made.
    fn make_on(
        &mut self,
        phaser: PhaserNumber,
        task: TaskNumber,
        mode: Mode,
        terms: Terms,
    ) -> Result<(), Refusal>
        requires { phaser < length self.old.phasers }
        ensures reply { result ≡ done_result (reply (story_at self.old phaser) (make task mode)) }
        ensures state { IfOk result (λ _. self.new ≡ phaser_made self.old phaser task mode terms) }
        ensures kept { IfErr result (λ _. self.new ≡ self.old) }
    {
        let state = &mut self.phasers[phaser.place()];
        state.make_with(task, mode, terms)?;
        Ok(())
    }

    /// Makes a phaser.
    fn make_phaser(
        &mut self,
        phaser: PhaserNumber,
        task: TaskNumber,
        mode: Mode,
        terms: Terms,
    ) -> Result<Reply, Refusal>
        ensures answer { result ≡ make_answer self.old phaser task mode }
        ensures state { self.new ≡ make_state self.old phaser task mode terms }
        ensures phasers { length self.old.phasers ≡ self.old.limits.phasers }
        ensures enclosing { length self.old.enclosing ≡ self.old.limits.phasers }
    {
        let _most = self.most_phasers();
        self.may_make(phaser, task)?;
        self.make_on(phaser, task, mode, terms)?;
        let line = &mut self.tasks[task.place()];
        let inner = line.inner();
        line.note_making(phaser);
        self.enclosing[phaser.place()] = inner.get();
        Ok(Reply::Done)
    }

    /// The step that makes a phaser.
    pub(super) fn step_make(
        &mut self,
        phaser: PhaserNumber,
        task: TaskNumber,
        mode: Mode,
        terms: Terms,
    ) -> Result<Reply, Refusal>
        ensures { IsStep (WorldEvent.Phaser phaser (Step.Make task mode terms)) self.old self.new result }
    {
        self.make_phaser(phaser, task, mode, terms)
    }
}
