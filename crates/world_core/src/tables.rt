//! What a world keeps, by number: its phasers, its finishes and its tasks.
//! `world` is the public face.
ghost use Rattle.std.specs.Prelude.{◌≡◌, ◌<◌, not, nat_lt, length, IfOk, IfErr, true, [], ◌∷◌, replicate, set};
ghost use Rattle.phase_modes.specs.Limits.{limits_fit};
ghost use Rattle.phase_modes.specs.Refusal.{first_refusal};
ghost use Rattle.finish_core.specs.Finish.{fresh};
ghost use Rattle.finish_core.specs.declared.event.FinishEvent.TheVariants.{Opened as opened};
ghost use Rattle.world_records.specs.Kept.{blank_task, root_task, blank_story, first_state, task_at, is_ready};
ghost use Rattle.world_model.specs.ActConditions.{free_unless};
ghost use Rattle.world_records.specs.inner.Steps.{first_conditions};
ghost use Rattle.world_records.specs.StandsFor.{StandsFor};

use finish_core::FinishState;
use phase_modes::{Limits, Refusal, TaskNumber};
use std::alloc::Global;
use std::marker::Model;
use world_records::{KeptPhaser, KeptTask};

mod begins;
mod drops;
mod ends;
mod failures;
mod makings;
mod may_spawn;
mod openings;
mod queries;
mod refusals;
mod registrations;
mod report;
mod sends;
mod spawns;
mod steps;
mod turns;
mod unused;

pub use unused::Unused;

/// The tables of a world, each with a line for each number.
#[derive(Drop)]
pub(crate) struct Tables {
    limits: Limits,
    phasers: Vec<KeptPhaser>,
    enclosing: Vec<u32>,
    finishes: Vec<FinishState>,
    owners: Vec<u32>,
    outers: Vec<Option<u32>>,
    tasks: Vec<KeptTask>,
}

impl Model for Tables {
    ghost use Rattle.std.specs.Prelude.{◌≡◌, length};
    ghost use Rattle.world_records.specs.WorldState.{WorldState};

    ghost Value = { WorldState };

    ghost use Rattle.world_records.specs.inner.Sizes.{IsSized};

    ghost view = { λ a. record {
      limits = a.limits;
      phasers = a.phasers.items;
      enclosing = a.enclosing.items;
      finishes = a.finishes.items;
      owners = a.owners.items;
      outers = a.outers.items;
      tasks = a.tasks.items;
    } };

    ghost invariant = { λ a. IsSized a.limits a.phasers.items a.enclosing.items a.finishes.items
        a.owners.items a.outers.items a.tasks.items };
}

/// A blank phaser for each number.
fn blank_phasers(alloc: Global, limits: Limits) -> Result<Vec<KeptPhaser>, Refusal>
    requires { limits_fit limits ≡ true }
    ensures blank { IfOk result (λ v. v.items ≡ replicate limits.phasers (blank_story limits)) }
    ensures memory { IfErr result (λ r. r ≡ Refusal.Memory) }
{
    let Ok(mut phasers) = Vec::with_capacity(alloc, limits.phasers as usize) else {
        return Err(Refusal::Memory);
    };
    for _ in 0..limits.phasers {
        phasers.push_reserved(KeptPhaser::blank(alloc, limits)?);
    }
    Ok(phasers)
}

/// A fresh finish for each number.
fn fresh_finishes(alloc: Global, limits: Limits) -> Result<Vec<FinishState>, Refusal>
    requires { limits_fit limits ≡ true }
    ensures fresh { IfOk result (λ v. v.items ≡ replicate limits.finishes (fresh limits.tasks)) }
    ensures memory { IfErr result (λ r. r ≡ Refusal.Memory) }
{
    let Ok(mut finishes) = Vec::with_capacity(alloc, limits.finishes as usize) else {
        return Err(Refusal::Memory);
    };
    for _ in 0..limits.finishes {
        finishes.push_reserved(FinishState::new(alloc, limits.tasks)?);
    }
    Ok(finishes)
}

/// A blank record for each task number.
fn blank_tasks(alloc: Global, limits: Limits) -> Result<Vec<KeptTask>, Refusal>
    ensures blank { IfOk result (λ v. v.items ≡ replicate limits.tasks blank_task) }
    ensures memory { IfErr result (λ r. r ≡ Refusal.Memory) }
{
    let Ok(mut tasks) = Vec::with_capacity(alloc, limits.tasks as usize) else {
        return Err(Refusal::Memory);
    };
    for _ in 0..limits.tasks {
        tasks.push_reserved(KeptTask::blank(alloc)?);
    }
    Ok(tasks)
}

/// The finishes of a world in which nothing has happened yet: finish 0 is open.
fn first_finishes(alloc: Global, limits: Limits) -> Result<Vec<FinishState>, Refusal>
    requires { limits_fit limits ≡ true }
    ensures first { IfOk result (λ v. v.items ≡ set (replicate limits.finishes (fresh limits.tasks)) 0
        (record { tasks = limits.tasks; past = opened 0 ∷ [] })) }
    ensures memory { IfErr result (λ r. r ≡ Refusal.Memory) }
{
    let mut finishes = fresh_finishes(alloc, limits)?;
    let first = &mut finishes[0];
    let _opened = first.opened(0);
    Ok(finishes)
}

/// The tasks of a world in which nothing has happened yet: task 0 runs.
fn first_tasks(alloc: Global, limits: Limits) -> Result<Vec<KeptTask>, Refusal>
    requires { limits_fit limits ≡ true }
    ensures first { IfOk result (λ v. v.items ≡ set (replicate limits.tasks blank_task) 0 root_task) }
    ensures memory { IfErr result (λ r. r ≡ Refusal.Memory) }
{
    let mut tasks = blank_tasks(alloc, limits)?;
    let root = &mut tasks[0];
    root.become_root();
    Ok(tasks)
}

impl Tables {
    /// A world in which nothing has happened yet. All memory that its steps will ever need is taken
    /// here; `Memory` if that is refused.
    pub(crate) fn new(alloc: Global, limits: Limits) -> Result<Tables, Refusal>
        requires { limits_fit limits ≡ true }
        ensures limits { IfOk result (λ s. s.limits ≡ limits) }
        ensures stands { IfOk result (λ s. StandsFor [] s) }
        ensures memory { IfErr result (λ r. r ≡ Refusal.Memory) }
    {
        let tables = Tables::first(alloc, limits)?;
        Ok(tables)
    }

    fn first(alloc: Global, limits: Limits) -> Result<Tables, Refusal>
        requires { limits_fit limits ≡ true }
        ensures first { IfOk result (λ s. s ≡ first_state limits) }
        ensures memory { IfErr result (λ r. r ≡ Refusal.Memory) }
    {
        let Ok(enclosing) = vec![in alloc; 0; limits.phasers as usize] else {
            return Err(Refusal::Memory);
        };
        let Ok(owners) = vec![in alloc; 0; limits.finishes as usize] else {
            return Err(Refusal::Memory);
        };
        let Ok(outers) = vec![in alloc; None; limits.finishes as usize] else {
            return Err(Refusal::Memory);
        };
        let finishes = first_finishes(alloc, limits)?;
        let tasks = first_tasks(alloc, limits)?;
        // Last, since they are the dearest to give back if others get no memory.
        let phasers = blank_phasers(alloc, limits)?;
        Ok(Tables {
            limits,
            phasers,
            enclosing,
            finishes,
            owners,
            outers,
            tasks,
        })
    }

    /// Whether the task may begin an act.
    fn is_ready(&self, task: TaskNumber) -> bool
        ensures ready { result ≡ is_ready (task_at self.now task) }
        ensures place { result ≡ true → task < length self.now.tasks }
    {
        if task.place() >= self.tasks.len() {
            return false;
        }
        let line = &self.tasks[task.place()];
        line.is_idle()
    }

    /// Whether the task's acts are at their limit.
    fn is_worn(&self, task: TaskNumber) -> bool
        ensures { result ≡ not (nat_lt (task_at self.now task).acts self.now.limits.acts) }
    {
        if task.place() >= self.tasks.len() {
            return self.limits.acts == 0;
        }
        let line = &self.tasks[task.place()];
        line.acts() >= self.limits.acts
    }

    /// What an act is refused by before it is looked at for itself: `used` is whether the number
    /// that it wants to give is in use, `counted` whether it is a counted act.
    fn may_act(&self, task: TaskNumber, used: bool, counted: bool) -> Result<(), Refusal>
        ensures answer { result ≡ free_unless (first_refusal (first_conditions self.now task used counted)) }
        ensures place { IfOk result (λ _. task < length self.now.tasks) }
    {
        if !self.is_ready(task) {
            return Err(Refusal::NotNow);
        }
        if used {
            return Err(Refusal::NotNow);
        }
        if counted && self.is_worn(task) {
            return Err(Refusal::ActsFull);
        }
        Ok(())
    }
}
