//! What a world keeps of one task.
ghost use Rattle.std.specs.Prelude.{◌≡◌, ◌≤◌, ◌&&◌, not, length, filter, slice_get, vec_capacity, IfOk, IfErr, true};
ghost use Rattle.world_records.specs.Kept.{blank_task, inner_at, is_idle_plan, past_in};
ghost use Rattle.world_records.specs.inner.Facts.{owes};
ghost use Rattle.world_records.specs.inner.Steps.{turn_begun, passing, is_to_signal, signal_noted, is_to_pass, pass_noted, opening};

use crate::Plan;
use crate::phaser::KeptPhaser;
use phase_modes::{FinishNumber, PhaserNumber, Refusal, TaskNumber};
use std::alloc::Global;
use std::marker::Model;

pub(crate) mod begins;
mod drops;
mod ends;
mod giving_up;
mod pairs;
mod phasers;
mod queries;
mod registrations;
mod report_line;
mod spawns;

/// How many phasers a task is on at once, at most.
pub const MOST_PHASERS: usize = 16;

/// What a world keeps of one task.
#[derive(Drop)]
pub struct KeptTask {
    pub(crate) plan: Plan,
    pub(crate) left: Vec<u32>,
    pub(crate) phasers: Vec<u32>,
    pub(crate) innermost: Option<u32>,
    pub(crate) clock: u32,
    pub(crate) acts: u32,
    pub(crate) home: u32,
    pub(crate) spawner: u32,
    pub(crate) named: bool,
    pub(crate) born: bool,
    pub(crate) ended: bool,
    pub(crate) refused: Option<u8>,
}

impl Model for KeptTask {
    ghost use Rattle.std.specs.Prelude.{◌≤◌, length, vec_capacity};
    ghost use Rattle.world_records.specs.TaskState.{TaskState};

    ghost Value = { TaskState };

    ghost view = { λ t. record {
      plan = t.plan;
      left = t.left.items;
      phasers = t.phasers.items;
      innermost = t.innermost;
      clock = t.clock;
      acts = t.acts;
      home = t.home;
      spawner = t.spawner;
      is_named = t.named;
      is_born = t.born;
      is_ended = t.ended;
      refused = t.refused;
    } };

    ghost invariant = { λ t. (16 ≤ vec_capacity t.left) × (16 ≤ vec_capacity t.phasers)
        × (length t.phasers.items ≤ 16) };
}

impl KeptTask {
    /// A number that no task has yet. `Memory` if there is none for its lists.
    pub fn blank(alloc: Global) -> Result<KeptTask, Refusal>
        ensures blank { IfOk result (λ t. t ≡ blank_task) }
        ensures memory { IfErr result (λ r. r ≡ Refusal.Memory) }
    {
        let Ok(left) = Vec::with_capacity(alloc, MOST_PHASERS) else {
            return Err(Refusal::Memory);
        };
        let Ok(phasers) = Vec::with_capacity(alloc, MOST_PHASERS) else {
            return Err(Refusal::Memory);
        };
        Ok(KeptTask {
            plan: Plan::Idle,
            left,
            phasers,
            innermost: None,
            clock: 0,
            acts: 0,
            home: 0,
            spawner: 0,
            named: false,
            born: false,
            ended: false,
            refused: None,
        })
    }

    /// Makes it the root, which runs from the start.
    pub fn become_root(&mut self)
        ensures { self.new ≡ record self.old { is_named = true; is_born = true } }
    {
        self.named = true;
        self.born = true;
    }

    /// Whether it may begin an act.
    pub fn is_idle(&self) -> bool
        ensures { result ≡ (self.now.is_born && not self.now.is_ended && is_idle_plan self.now.plan) }
    {
        self.born && !self.ended && matches!(self.plan, Plan::Idle)
    }

    /// What it is about.
    pub fn plan(&self) -> Plan
        ensures { result ≡ self.now.plan }
    {
        self.plan
    }

    /// The first number of those that are left.
    pub fn first_left(&self) -> Option<u32>
        ensures { result ≡ slice_get self.now.left 0 }
    {
        self.left.first().copied()
    }

    /// How many acts it has begun.
    pub fn acts(&self) -> u32
        ensures { result ≡ self.now.acts }
    {
        self.acts
    }

    /// Notes the phasers on which the task owes a signal as those that are left.
    pub fn owe(&mut self, task: TaskNumber, phasers: &[KeptPhaser])
        ensures { self.new
            ≡ record self.old { left = filter (λ n. owes task (past_in phasers.now n)) self.old.phasers } }
    {
        list_owed(&mut self.left, &self.phasers, phasers, task);
    }

    /// Begins a turn, whose signals are left, with this number.
    pub fn begin_turn(&mut self, number: Option<u32>)
        ensures { self.new ≡ turn_begun number self.old }
    {
        self.acts = self.acts.saturating_add(1);
        if self.left.is_empty() {
            self.begin_passes();
        } else {
            self.plan = Plan::Signalling(number, true);
        }
    }

    /// Whether its next event is to signal with this number on this phaser.
    pub fn is_to_signal(&self, phaser: PhaserNumber, number: Option<u32>) -> bool
        ensures { result ≡ is_to_signal self.now phaser number }
    {
        match self.plan {
            Plan::Signalling(wanted, _) => self.left.first().copied() == Some(phaser.get())
                && wanted == number,
            _ => false,
        }
    }

    /// Whether its next event is to pass this phaser, the single aside.
    pub fn is_to_pass(&self, phaser: PhaserNumber) -> bool
        ensures { result ≡ is_to_pass self.now phaser }
    {
        matches!(self.plan, Plan::Turning) && self.left.first().copied() == Some(phaser.get())
    }

    /// Its innermost own open finish.
    pub fn innermost(&self) -> Option<u32>
        ensures { result ≡ self.now.innermost }
    {
        self.innermost
    }

    /// Its innermost open finish: the one that it was spawned in, if it has none of its own.
    pub fn inner(&self) -> FinishNumber
        ensures { result ≡ inner_at self.now }
    {
        FinishNumber::of(self.innermost.unwrap_or(self.home))
    }

    /// Notes that it opened this finish.
    pub fn note_opening(&mut self, finish: FinishNumber)
        ensures { self.new ≡ opening finish self.old }
    {
        self.innermost = Some(finish.get());
        self.acts = self.acts.saturating_add(1);
    }

    /// Notes that the first pass was made: with the last one the turn is ended.
    pub fn note_pass(&mut self)
        ensures { self.new ≡ pass_noted self.old }
    {
        if self.left.len() > 1 {
            let _made = self.left.remove(0);
        } else {
            self.left.clear();
            self.plan = Plan::Idle;
            self.clock = self.clock.saturating_add(1);
        }
    }

    /// Notes that the first signal was made: after the last one a turn goes on to its passes, and a
    /// plain signal is done.
    pub fn note_signal(&mut self)
        ensures { self.new ≡ signal_noted self.old }
    {
        if self.left.len() > 1 {
            let _made = self.left.remove(0);
        } else if matches!(self.plan, Plan::Signalling(_, true)) && !self.phasers.is_empty() {
            list_all(&mut self.left, &self.phasers);
            self.plan = Plan::Turning;
        } else {
            self.left.clear();
            self.plan = Plan::Idle;
        }
    }

    /// Comes to the passes of a turn; without phasers the turn is ended at once.
    pub fn begin_passes(&mut self)
        ensures { self.new ≡ passing self.old }
    {
        if self.phasers.is_empty() {
            self.left.clear();
            self.plan = Plan::Idle;
            self.clock = self.clock.saturating_add(1);
        } else {
            list_all(&mut self.left, &self.phasers);
            self.plan = Plan::Turning;
        }
    }
}

/// Lists those of the numbers on whose phasers the task owes a signal.
fn list_owed(left: &mut Vec<u32>, own: &[u32], phasers: &[KeptPhaser], task: TaskNumber)
    requires few { length own.now ≤ 16 }
    requires room { 16 ≤ vec_capacity left.old }
    ensures left { left.new.items ≡ filter (λ n. owes task (past_in phasers.now n)) own.now }
    ensures room { 16 ≤ vec_capacity left.new }
{
    left.clear();
    for i in 0..own.len() {
        if is_owed(phasers, PhaserNumber::of(own[i]), task) {
            left.push_reserved(own[i]);
        }
    }
}

/// Lists all of the numbers.
fn list_all(left: &mut Vec<u32>, own: &[u32])
    requires few { length own.now ≤ 16 }
    requires room { 16 ≤ vec_capacity left.old }
    ensures left { left.new.items ≡ own.now }
    ensures room { 16 ≤ vec_capacity left.new }
{
    left.clear();
    for i in 0..own.len() {
        left.push_reserved(own[i]);
    }
}

/// Whether the task owes a signal on this phaser. A number without a phaser is owed none.
fn is_owed(phasers: &[KeptPhaser], phaser: PhaserNumber, task: TaskNumber) -> bool
    ensures { result ≡ owes task (past_in phasers.now phaser) }
{
    if phaser.place() >= phasers.len() {
        return false;
    }
    let state = &phasers[phaser.place()];
    match state.registration(task) {
        Some(reg) => reg.mode.can_signal() && !reg.ahead,
        None => false,
    }
}
