//! The world of many phasers, finishes and tasks.
ghost use Rattle.std.specs.Prelude.{◌≡◌, false, List, [], true, IfOk, IfErr};
ghost use Rattle.phase_modes.specs.Limits.{limits_fit};
ghost use Rattle.world_model.specs.declared.event.WorldEvent.{WorldEvent as Event};
ghost use Rattle.world_model.specs.TaskConditions.{condition_of};
ghost use Rattle.world_model.specs.Clock.{clock};
ghost use Rattle.world_model.specs.Due.{next_event};
ghost use Rattle.world_model.specs.Able.{is_able, is_stuck};
ghost use Rattle.world_model.specs.Drawing.{least_unused, own_pairs};
ghost use Rattle.world_model.specs.Report.{report_of};
ghost use Rattle.world_model.specs.Numbers.{is_phaser, is_finish, is_named};
ghost use Rattle.world_records.specs.StandsFor.{StandsFor, IsStep};
ghost use Rattle.trace_model.specs.Explained.{event_of};
ghost use Rattle.trace_model.specs.Views.{viewed};

use crate::tables::{Tables, Unused};
use phase_modes::{Limits, Phased, Refusal, TaskNumber};
use std::alloc::Global;
use std::marker::Model;
use trace_model::EventView;
use world_model::{Condition, Reply, WorldEvent, WorldReport};

/// Many phasers, finishes and tasks at once. Contracts see what it keeps; there is always a legal
/// history for which that stands, and what a world reports is read off each such history.
///
/// A step costs what the acting task's phasers cost, however many others there are, and takes no
/// memory: all of it is taken by `new`.
#[derive(Drop)]
pub struct World {
    tables: Tables,
}

impl Model for World {
    ghost use Rattle.world_records.specs.WorldState.{WorldState};
    ghost use Rattle.world_records.specs.StandsFor.{IsWorld};

    ghost Value = { WorldState };

    ghost view = { λ a. a.tables };

    ghost invariant = { λ a. IsWorld a.tables };
}

impl World {
    /// A world in which nothing has happened yet: task 0 runs, and finish 0 is open. All memory
    /// that its steps will ever need is taken here; `Memory` if that is refused.
    pub fn new(alloc: Global, limits: Limits) -> Result<World, Refusal>
        requires { limits_fit limits ≡ true }
        ensures limits { IfOk result (λ s. s.limits ≡ limits) }
        ensures stands { IfOk result (λ s. StandsFor [] s) }
        ensures memory { IfErr result (λ r. r ≡ Refusal.Memory) }
    {
        let tables = Tables::new(alloc, limits)?;
        Ok(World { tables })
    }

    /// One event: it is made, has to wait (`NotYet`), or is refused. Only if it is made does
    /// anything change.
    pub fn step(&mut self, event: &WorldEvent) -> Result<Reply, Refusal>
        ensures { IsStep event.now self.old self.new result }
    {
        self.tables.step(event)
    }

    /// The same of an event as a trace lends it. What a look saw there is not asked.
    pub fn step_traced(&mut self, event: EventView<'_>) -> Result<Reply, Refusal>
        ensures { IsStep (event_of (viewed event.entry)) self.old self.new result }
    {
        self.tables.step_traced(event)
    }

    /// What the task is about; `None` if it hasn't been spawned.
    pub fn condition(&self, task: u32) -> Option<Condition>
        ensures { (w : List Event) → StandsFor w self.now → result ≡ condition_of task w }
    {
        self.tables.condition(TaskNumber::of(task))
    }

    /// Whether the number is a task's: the root's, or one that a spawn has named, made or not yet.
    pub fn is_named(&self, task: u32) -> bool
        ensures { (w : List Event) → StandsFor w self.now → result ≡ is_named task w }
    {
        self.tables.is_named(TaskNumber::of(task))
    }

    /// How many turns the task has completed, those of its spawner at the spawn among them.
    pub fn clock(&self, task: u32) -> u32
        ensures { (w : List Event) → StandsFor w self.now → result ≡ clock task w }
    {
        self.tables.clock(TaskNumber::of(task))
    }

    /// Whether the task can go on now: some event of its own would be made. It can't if it has
    /// to wait for others, and if it has ended or was never spawned.
    pub fn able(&self, task: u32) -> bool
        ensures { (w : List Event) → StandsFor w self.now → result ≡ is_able self.now.limits w task }
    {
        self.tables.able(TaskNumber::of(task))
    }

    /// The event that continues the task's act, if it is in the middle of one.
    pub fn next_event(&self, task: u32) -> Option<WorldEvent>
        ensures { (w : List Event) → StandsFor w self.now
            → result ≡ next_event self.now.limits task w }
    {
        self.tables.next_event(TaskNumber::of(task))
    }

    /// The least numbers that aren't in use.
    pub fn unused(&self) -> Unused
        ensures phaser { (w : List Event) → StandsFor w self.now
            → result.phaser ≡ least_unused (λ n. is_phaser n w) self.now.limits.phasers }
        ensures task { (w : List Event) → StandsFor w self.now
            → result.task ≡ least_unused (λ t. is_named t w) self.now.limits.tasks }
        ensures finish { (w : List Event) → StandsFor w self.now
            → result.finish ≡ least_unused (λ f. is_finish f w) self.now.limits.finishes }
    {
        self.tables.unused()
    }

    /// All phasers of the task, in the order in which it got them, each in its own mode: what a
    /// spawn names that hands them all on.
    pub fn own_pairs(&self, task: u32) -> Phased
        ensures { (w : List Event) → StandsFor w self.now → result ≡ own_pairs task w }
    {
        self.tables.own_pairs(TaskNumber::of(task))
    }

    /// What the phasers, the tasks and the finishes add up to, by rising number. Each phaser's
    /// history is read once. The lines take memory; `Memory` if that is refused.
    pub fn report(&self, alloc: Global) -> Result<WorldReport, Refusal>
        ensures report { (w : List Event) → StandsFor w self.now
            → IfOk result (λ r. r ≡ report_of self.now.limits w) }
        ensures memory { IfErr result (λ r. r ≡ Refusal.Memory) }
    {
        self.tables.report(alloc)
    }

    /// It does nothing. Its contract is a law of each world: there is a history for which it stands,
    /// and in each such history some task is able, as long as some task hasn't ended. What is asked of
    /// the world by `able` is what those histories answer.
    pub fn some_task_goes_on(&self)
        ensures world { (w : List Event) × StandsFor w self.now × (is_stuck self.now.limits w ≡ false) }
        ensures able { (w : List Event) → StandsFor w self.now → is_stuck self.now.limits w ≡ false }
    {
        let _tables = &self.tables;
    }
}
