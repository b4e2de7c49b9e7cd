//! Which tasks are known to have ended, so that a round doesn't ask each of them again.
ghost use Rattle.std.specs.Prelude.{ℕ, ◌≡◌, ◌+◌, ◌<◌, ◌≤◌, List, [], length, set, slice_get, true, IfOk, IfErr};
ghost use Rattle.phase_modes.specs.declared.refusal.Refusal.TheVariants.{Memory as NoMemory};
ghost use Rattle.world_model.specs.declared.event.WorldEvent.{WorldEvent as Event};
ghost use Rattle.world_model.specs.Tasks.{is_ended};
ghost use Rattle.schedule_run.specs.inner.Ended.{HaveEnded, known};

use phase_modes::{Limits, Refusal};
use std::alloc::Global;

/// For each task's number, how many tasks from it on are known to have ended.
#[derive(Drop)]
pub(crate) struct Ended {
    pub runs: Vec<u32>,
}

impl Ended {
    /// Nothing is known yet. `Memory` if there is too little for a count for each task.
    pub(crate) fn new(alloc: Global, limits: Limits) -> Result<Ended, Refusal>
        ensures known { IfOk result (λ e. (w : List Event) → HaveEnded w e.runs.items) }
        ensures memory { IfErr result (λ e. e ≡ NoMemory) }
    {
        let runs = vec![in alloc; 0; limits.tasks as usize]?;
        Ok(Ended { runs })
    }

    /// How many tasks from this one on are known to have ended.
    fn from(&self, task: u32) -> u32
        ensures { result ≡ known (slice_get self.now.runs.items task) }
    {
        let place = task as usize;
        if place >= self.runs.len() {
            return 0;
        }
        self.runs[place]
    }

    /// So many tasks from this one on have ended.
    fn note(&mut self, task: u32, run: u32)
        ensures { (w : List Event) → HaveEnded w self.old.runs.items
            → ((i : ℕ) → i < run → is_ended (task + i) w ≡ true) → HaveEnded w self.new.runs.items }
    {
        let place = task as usize;
        if place < self.runs.len() {
            self.runs[place] = run;
        }
    }

    /// This task has ended.
    pub(crate) fn note_one(&mut self, task: u32)
        ensures { (w : List Event) → HaveEnded w self.old.runs.items → is_ended task w ≡ true
            → HaveEnded w self.new.runs.items }
    {
        self.note(task, 1);
    }

    /// Takes the run of tasks that follows the one from this task on into it. So a row of ended tasks
    /// is soon passed over in one step.
    fn widen(&mut self, task: u32)
        ensures { (w : List Event) → HaveEnded w self.old.runs.items → HaveEnded w self.new.runs.items }
    {
        let run = self.from(task);
        if let Some(next) = task.checked_add(run) {
            let more = self.from(next);
            if let Some(both) = run.checked_add(more) {
                self.note(task, both);
            }
        }
    }

    /// The first task from this one on that isn't known to have ended; `tasks` if all below have.
    pub(crate) fn first_left(&mut self, task: u32, tasks: u32) -> u32
        requires { task ≤ tasks }
        ensures from { task ≤ result }
        ensures below { result ≤ tasks }
        ensures over { (w : List Event) → HaveEnded w self.old.runs.items
            → (i : ℕ) → task + i < result → is_ended (task + i) w ≡ true }
        ensures known { (w : List Event) → HaveEnded w self.old.runs.items → HaveEnded w self.new.runs.items }
    {
        let over = self.from(task);
        if over > 0 {
            self.widen(task);
        }
        task.saturating_add(over).min(tasks)
    }
}
