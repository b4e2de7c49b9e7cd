//! The live world, and the calls that never wait.
ghost use Rattle.std.specs.Prelude.{◌≡◌, ◌<◌, ◌≤◌, ◌⊎◌, ◌==◌, ◌∷◌, [], List, true, false, length, IfOk, IfErr, OnOk, OnErr, Ok, Err};
ghost use Rattle.finish_core.specs.declared.event.FinishEvent.TheVariants.{Opened, Spawned, Ended};
ghost use Rattle.world_model.specs.Replies.{reply};
ghost use Rattle.world_model.specs.Scopes.{inner};
ghost use Rattle.world_model.specs.Tasks.{home};
ghost use Rattle.world_model.specs.declared.event.Begun.TheVariants.{Async, End};
ghost use Rattle.world_model.specs.declared.event.WorldEvent.{WorldEvent as Event};
ghost use Rattle.world_model.specs.declared.event.WorldEvent.TheVariants.{Finish, Begin};
ghost use Rattle.live_world.specs.Live.{live_limits, task_at, finish_at, is_there, is_free, inner_at};
ghost use Rattle.live_world.specs.StandsFor.{StandsFor};
ghost use Rattle.live_world.specs.inner.Steps.{MayAct, MayEnd, MayNotAct, OpenRefused, SpawnRefused, EndRefused, first_state, left, opened, spawned, unparked};

use crate::at::{FinishAt, TaskAt};
use crate::finish_row::FinishRow;
use crate::slots::{put_finish, put_task, vacant_finish, vacant_task};
use crate::task_row::{MOST_ACTS, TaskRow};
use phase_modes::Refusal;
use std::alloc::Global;
use std::marker::Model;

/// How many finishes, and how many tasks, there may ever be.
const MOST_NUMBERS: u64 = 1 << 62;

/// The tasks and finishes that are alive. Contracts see a `LiveState`, which stands for a legal
/// history of a world.
#[derive(Drop)]
pub struct LiveWorld {
    alloc: Global,
    tasks: Vec<TaskRow>,
    finishes: Vec<FinishRow>,
    next_task: u64,
    next_finish: u64,
    /// A slot of each kind that is free, if it isn't taken.
    free_task: u32,
    free_finish: u32,
}

impl Model for LiveWorld {
    ghost use Rattle.live_world.specs.Live.{LiveState};

    ghost Value = { LiveState };

    ghost view = { λ s. record {
      tasks = s.tasks.items;
      finishes = s.finishes.items;
      next_task = s.next_task;
      next_finish = s.next_finish;
    } };
}

impl LiveWorld {
    /// A world in which nothing has happened yet: the root runs, in finish 0. `Memory` if there is
    /// none for their slots.
    pub fn new(alloc: Global) -> Result<LiveWorld, Refusal>
        ensures stands { IfOk result (λ s. StandsFor [] s) }
        ensures root { IfOk result (λ s. is_there s (record { slot = 0; number = 0 }) ≡ true) }
        ensures memory { IfErr result (λ r. r ≡ Refusal.Memory) }
    {
        LiveWorld::first(alloc)
    }

    /// The name of the root.
    pub fn root(&self) -> TaskAt
        ensures { result ≡ record { slot = 0; number = 0 } }
    {
        TaskAt { slot: 0, number: 0 }
    }

    fn first(alloc: Global) -> Result<LiveWorld, Refusal>
        ensures first { IfOk result (λ s. s ≡ first_state) }
        ensures memory { IfErr result (λ r. r ≡ Refusal.Memory) }
    {
        let mut tasks = Vec::with_capacity(alloc, 1)?;
        let mut finishes = Vec::with_capacity(alloc, 1)?;
        tasks.push_reserved(TaskRow::born(alloc, 0, FinishAt { slot: 0, number: 0 }));
        finishes.push_reserved(FinishRow::opened(0));
        Ok(LiveWorld {
            alloc,
            tasks,
            finishes,
            next_task: 1,
            next_finish: 1,
            free_task: 0,
            free_finish: 0,
        })
    }

    /// The slot of a task that may begin an act.
    fn may_act(&self, task: TaskAt) -> Result<u32, Refusal>
        ensures slot { IfOk result (λ i. i ≡ task.slot) }
        ensures may { IfOk result (λ i. MayAct self.now task) }
        ensures refused { IfErr result (λ r. MayNotAct self.now task r) }
    {
        if (task.slot as usize) >= self.tasks.len() {
            return Err(Refusal::NotNow);
        }
        let row = &self.tasks[task.slot as usize];
        if !row.has(task.number) {
            return Err(Refusal::NotNow);
        }
        if !row.is_free() {
            return Err(Refusal::NotNow);
        }
        if row.acts() >= MOST_ACTS {
            return Err(Refusal::ActsFull);
        }
        Ok(task.slot)
    }

    /// The task opens a finish, which is its innermost one then.
    ///
    /// Refused, in this order: `NotNow` if the task isn't there or is in an act, `ActsFull` after 2^62
    /// acts of the task, `FinishesFull` after 2^62 finishes, `Memory`. Then nothing changes.
    pub fn open(&mut self, task: TaskAt) -> Result<FinishAt, Refusal>
        ensures stands { (w : List Event) → StandsFor w self.old → IfOk result (λ f.
            StandsFor (Finish f.number (Opened task.number) ∷ w) self.new) }
        ensures answer { (w : List Event) → StandsFor w self.old → is_there self.old task ≡ true
            → IfErr result (λ r. (r ≡ Refusal.Memory)
            ⊎ (reply live_limits w (Finish self.old.next_finish (Opened task.number)) ≡ Err r)) }
        ensures gone { is_there self.old task ≡ false → result ≡ Err Refusal.NotNow }
        ensures unchanged { OnErr result (self.new ≡ self.old) }
    {
        self.open_now(task)
    }

    fn open_now(&mut self, task: TaskAt) -> Result<FinishAt, Refusal>
        ensures may { IfOk result (λ f. MayAct self.old task) }
        ensures opened { IfOk result (λ f. self.new ≡ opened self.old task.slot f.slot) }
        ensures named { IfOk result (λ f. f.number ≡ self.old.next_finish) }
        ensures vacant { IfOk result (λ f. (finish_at self.old f.slot).taken ≡ false) }
        ensures within { IfOk result (λ f. f.slot ≤ length self.old.finishes) }
        ensures below { IfOk result (λ f. self.old.next_finish < 4611686018427387904) }
        ensures unchanged { OnErr result (self.new ≡ self.old) }
        ensures refused { IfErr result (λ r. OpenRefused self.old task r) }
    {
        match self.may_act(task) {
            Ok(place) => self.open_in(place),
            Err(refusal) => Err(refusal),
        }
    }

    /// Opens the next finish for the task in this slot.
    fn open_in(&mut self, place: u32) -> Result<FinishAt, Refusal>
        requires within { place < length self.old.tasks }
        requires acts { (task_at self.old place).acts < 4611686018427387904 }
        ensures opened { IfOk result (λ f. self.new ≡ opened self.old place f.slot) }
        ensures named { IfOk result (λ f. f.number ≡ self.old.next_finish) }
        ensures vacant { IfOk result (λ f. (finish_at self.old f.slot).taken ≡ false) }
        ensures within { IfOk result (λ f. f.slot ≤ length self.old.finishes) }
        ensures below { IfOk result (λ f. self.old.next_finish < 4611686018427387904) }
        ensures unchanged { OnErr result (self.new ≡ self.old) }
        ensures refused { IfErr result (λ r. (r ≡ Refusal.Memory)
            ⊎ (r ≡ Refusal.FinishesFull) × (4611686018427387904 ≤ self.old.next_finish)) }
    {
        let number = self.next_finish;
        if number >= MOST_NUMBERS {
            return Err(Refusal::FinishesFull);
        }
        let slot = vacant_finish(&mut self.finishes, self.free_finish)?;
        let finish = FinishAt { slot, number };
        self.tasks[place as usize].note_opening(finish)?;
        put_finish(&mut self.finishes, slot, FinishRow::opened(number));
        self.next_finish = number + 1;
        Ok(finish)
    }

    /// The task spawns a child in its innermost finish, on no phaser.
    ///
    /// Refused, in this order: `NotNow` if the task isn't there or is in an act, `ActsFull` after 2^62
    /// acts of the task, `TasksFull` after 2^62 tasks, `Memory`. Then nothing changes.
    pub fn spawn(&mut self, task: TaskAt) -> Result<TaskAt, Refusal>
        ensures stands { (w : List Event) → StandsFor w self.old → IfOk result (λ c.
            StandsFor (Finish (inner task.number w) (Spawned c.number)
            ∷ Begin task.number (Async c.number []) ∷ w) self.new) }
        ensures answer { (w : List Event) → StandsFor w self.old → is_there self.old task ≡ true
            → IfErr result (λ r. (r ≡ Refusal.Memory)
            ⊎ (reply live_limits w (Begin task.number (Async self.old.next_task [])) ≡ Err r)) }
        ensures gone { is_there self.old task ≡ false → result ≡ Err Refusal.NotNow }
        ensures unchanged { OnErr result (self.new ≡ self.old) }
    {
        self.spawn_now(task)
    }

    fn spawn_now(&mut self, task: TaskAt) -> Result<TaskAt, Refusal>
        ensures may { IfOk result (λ c. MayAct self.old task) }
        ensures spawned { IfOk result (λ c. self.new ≡ spawned self.old task.slot c.slot) }
        ensures named { IfOk result (λ c. c.number ≡ self.old.next_task) }
        ensures vacant { IfOk result (λ c. (task_at self.old c.slot).taken ≡ false) }
        ensures within { IfOk result (λ c. c.slot ≤ length self.old.tasks) }
        ensures below { IfOk result (λ c. self.old.next_task < 4611686018427387904) }
        ensures home { IfOk result (λ c. (inner_at (task_at self.old task.slot)).slot < length self.old.finishes) }
        ensures unchanged { OnErr result (self.new ≡ self.old) }
        ensures refused { IfErr result (λ r. SpawnRefused self.old task r) }
    {
        match self.may_act(task) {
            Ok(place) => self.spawn_in(place),
            Err(refusal) => Err(refusal),
        }
    }

    /// Spawns the next task for the task in this slot.
    fn spawn_in(&mut self, place: u32) -> Result<TaskAt, Refusal>
        requires within { place < length self.old.tasks }
        requires acts { (task_at self.old place).acts < 4611686018427387904 }
        ensures spawned { IfOk result (λ c. self.new ≡ spawned self.old place c.slot) }
        ensures named { IfOk result (λ c. c.number ≡ self.old.next_task) }
        ensures vacant { IfOk result (λ c. (task_at self.old c.slot).taken ≡ false) }
        ensures within { IfOk result (λ c. c.slot ≤ length self.old.tasks) }
        ensures below { IfOk result (λ c. self.old.next_task < 4611686018427387904) }
        ensures home { IfOk result (λ c. (inner_at (task_at self.old place)).slot < length self.old.finishes) }
        ensures unchanged { OnErr result (self.new ≡ self.old) }
        ensures refused { IfErr result (λ r. (r ≡ Refusal.Memory)
            ⊎ ((r ≡ Refusal.NotNow) × (length self.old.finishes ≤ (inner_at (task_at self.old place)).slot))
            ⊎ ((r ≡ Refusal.TasksFull) × (4611686018427387904 ≤ self.old.next_task))) }
    {
        let number = self.next_task;
        if number >= MOST_NUMBERS {
            return Err(Refusal::TasksFull);
        }
        let home = self.tasks[place as usize].inner();
        if home.slot as usize >= self.finishes.len() {
            return Err(Refusal::NotNow);
        }
        // Each task that goes on has a slot, so there is no memory for so many.
        if self.finishes[home.slot as usize].alive() >= MOST_NUMBERS {
            return Err(Refusal::Memory);
        }
        let slot = vacant_task(&mut self.tasks, self.free_task)?;
        self.tasks[place as usize].note_act();
        self.free_task = next_free(&self.tasks, slot, self.free_task);
        put_task(
            &mut self.tasks,
            slot,
            TaskRow::born(self.alloc, number, home),
        );
        self.finishes[home.slot as usize].note_birth();
        self.next_task = number + 1;
        Ok(TaskAt { slot, number })
    }

    /// A task other than the root ends, in the finish in which it was spawned. The root's end is
    /// still to come.
    ///
    /// Refused, in this order: `NotNow` if the task isn't there or is in an act, `FinishOpen` if it
    /// has a finish open. Then nothing changes.
    pub fn end(&mut self, task: TaskAt) -> Result<(), Refusal>
        ensures stands { (w : List Event) → StandsFor w self.old → OnOk result
            (StandsFor (Finish (home task.number w) (Ended task.number) ∷ Begin task.number End ∷ w) self.new) }
        ensures answer { (w : List Event) → StandsFor w self.old → is_there self.old task ≡ true
            → (task.number == 0) ≡ false
            → IfErr result (λ r. reply live_limits w (Begin task.number End) ≡ Err r) }
        ensures gone { is_there self.old task ≡ false → result ≡ Err Refusal.NotNow }
        ensures unchanged { OnErr result (self.new ≡ self.old) }
    {
        self.end_now(task)
    }

    fn end_now(&mut self, task: TaskAt) -> Result<(), Refusal>
        ensures may { OnOk result (MayEnd self.old task) }
        ensures left { OnOk result (self.new ≡ left self.old task.slot) }
        ensures unchanged { OnErr result (self.new ≡ self.old) }
        ensures refused { IfErr result (λ r. EndRefused self.old task r) }
    {
        match self.may_end(task) {
            Ok(home) => {
                self.leave(task.slot, home);
                Ok(())
            }
            Err(refusal) => Err(refusal),
        }
    }

    /// The slot of the home of a task that may end.
    fn may_end(&self, task: TaskAt) -> Result<u32, Refusal>
        ensures may { OnOk result (MayEnd self.now task) }
        ensures home { IfOk result (λ h. h ≡ (task_at self.now task.slot).home.slot) }
        ensures refused { IfErr result (λ r. EndRefused self.now task r) }
    {
        if (task.slot as usize) >= self.tasks.len() {
            return Err(Refusal::NotNow);
        }
        let row = &self.tasks[task.slot as usize];
        if !row.has(task.number) {
            return Err(Refusal::NotNow);
        }
        if task.number == 0 {
            return Err(Refusal::NotNow);
        }
        if !row.is_free() {
            return Err(Refusal::NotNow);
        }
        if !row.has_shut_all() {
            return Err(Refusal::FinishOpen);
        }
        let home = row.home().slot;
        if home as usize >= self.finishes.len() {
            return Err(Refusal::NotNow);
        }
        Ok(home)
    }

    /// The task in this slot ends, in the finish in the other.
    fn leave(&mut self, place: u32, home: u32)
        requires within { place < length self.old.tasks }
        requires is_home { home ≡ (task_at self.old place).home.slot }
        requires home { home < length self.old.finishes }
        ensures { self.new ≡ left self.old place }
    {
        self.tasks[place as usize].leave(self.free_task);
        self.free_task = place;
        let freed = self.finishes[home as usize].note_end();
        unpark(&mut self.tasks, freed);
    }
}

/// The slot that is free after this one, which is taken now. A wrong one costs a new slot: whoever
/// takes a slot looks whether it is free.
fn next_free(rows: &[TaskRow], slot: u32, free: u32) -> u32 {
    if (slot as usize) < rows.len() {
        rows[slot as usize].next_free()
    } else {
        free
    }
}

/// The task of this slot, if there is one, need not wait any more.
fn unpark(rows: &mut Vec<TaskRow>, slot: Option<u32>)
    ensures { rows.new.items ≡ unparked slot rows.old.items }
{
    if let Some(slot) = slot {
        if (slot as usize) < rows.len() {
            rows[slot as usize].unpark();
        }
    }
}
