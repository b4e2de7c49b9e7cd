//! What a task's record says and notes of an act that the task begins.
ghost use Rattle.std.specs.Prelude.{◌≡◌, ◌≤◌, ◌==◌, not, get_or, length, vec_capacity, is_some};
ghost use Rattle.std.specs.List.{list_any};
ghost use Rattle.world_records.specs.Kept.{past_in};
ghost use Rattle.world_records.specs.inner.Facts.{leads, owes, has_single};
ghost use Rattle.world_records.specs.inner.Steps.{passing};
ghost use Rattle.world_records.specs.inner.Begins.{counted, signals_begun, enclosed, shut_begun, end_begun, spawn_begun, named_for};

use super::{KeptTask, is_owed};
use crate::Plan;
use crate::phaser::KeptPhaser;
use phase_modes::{FinishNumber, Phased, PhaserNumber, TaskNumber};

impl KeptTask {
    /// Whether it has signalled on one of its phasers since its last turn there.
    pub fn leads_anywhere(&self, task: TaskNumber, phasers: &[KeptPhaser]) -> bool
        ensures { result ≡ list_any (λ n. leads task (past_in phasers.now n)) self.now.phasers }
    {
        any_leading(&self.phasers, phasers, task)
    }

    /// Whether it owes a signal on one of its phasers.
    pub fn owes_anywhere(&self, task: TaskNumber, phasers: &[KeptPhaser]) -> bool
        ensures { result ≡ list_any (λ n. owes task (past_in phasers.now n)) self.now.phasers }
    {
        any_owed(&self.phasers, phasers, task)
    }

    /// Whether it may propose no single on one of its phasers.
    pub fn lacks_single(&self, task: TaskNumber, phasers: &[KeptPhaser]) -> bool
        ensures { result ≡ list_any (λ n. not (has_single task (past_in phasers.now n))) self.now.phasers }
    {
        any_without_single(&self.phasers, phasers, task)
    }

    /// Whether it is on exactly one phaser.
    pub fn is_on_one(&self) -> bool
        ensures { result ≡ (length self.now.phasers == 1) }
    {
        self.phasers.len() == 1
    }

    /// Whether a finish of its own is open.
    pub fn has_finish(&self) -> bool
        ensures { result ≡ is_some self.now.innermost }
    {
        self.innermost.is_some()
    }

    /// Whether a spawn has named it.
    pub fn is_named(&self) -> bool
        ensures { result ≡ self.now.is_named }
    {
        self.named
    }

    /// Notes one act more.
    pub fn note_act(&mut self)
        ensures { self.new ≡ counted self.old }
    {
        self.acts = self.acts.saturating_add(1);
    }

    /// Begins a plain signal, on the phasers that are left.
    pub fn begin_signals(&mut self)
        ensures { self.new ≡ signals_begun self.old }
    {
        self.acts = self.acts.saturating_add(1);
        if self.left.is_empty() {
            self.plan = Plan::Idle;
        } else {
            self.plan = Plan::Signalling(None, false);
        }
    }

    /// Begins a turn that signals nothing.
    pub fn begin_wait(&mut self)
        ensures { self.new ≡ passing (counted self.old) }
    {
        self.acts = self.acts.saturating_add(1);
        self.begin_passes();
    }

    /// Begins to spawn this child on these phasers.
    pub fn begin_spawn(&mut self, child: TaskNumber, pairs: Phased)
        ensures { self.new ≡ spawn_begun child pairs self.old }
    {
        self.acts = self.acts.saturating_add(1);
        self.plan = Plan::Spawning(child.get(), pairs, 0);
    }

    /// Notes that this task begins to spawn it.
    pub fn note_name(&mut self, spawner: TaskNumber)
        ensures { self.new ≡ named_for spawner self.old }
    {
        self.named = true;
        self.spawner = spawner.get();
    }

    /// Begins to shut its innermost finish; the phasers that this encloses are left.
    pub fn begin_shut(&mut self, enclosing: &[u32])
        ensures { self.new ≡ shut_begun enclosing.now self.old }
    {
        self.acts = self.acts.saturating_add(1);
        let finish = self.inner();
        list_enclosed(&mut self.left, &self.phasers, enclosing, finish);
        self.plan = Plan::Shutting;
    }

    /// Begins its end; this child is dropped from no phaser.
    pub fn begin_end(&mut self, child: TaskNumber)
        ensures { self.new ≡ end_begun child self.old }
    {
        self.left.clear();
        self.plan = Plan::Ending(child.get());
    }
}

/// Whether the task leads on one of the numbers' phasers.
fn any_leading(own: &[u32], phasers: &[KeptPhaser], task: TaskNumber) -> bool
    ensures { result ≡ list_any (λ n. leads task (past_in phasers.now n)) own.now }
{
    let mut any = false;
    for i in 0..own.len() {
        any = any || is_leading(phasers, PhaserNumber::of(own[i]), task);
    }
    any
}

/// Whether the task owes a signal on one of the numbers' phasers.
fn any_owed(own: &[u32], phasers: &[KeptPhaser], task: TaskNumber) -> bool
    ensures { result ≡ list_any (λ n. owes task (past_in phasers.now n)) own.now }
{
    let mut any = false;
    for i in 0..own.len() {
        any = any || is_owed(phasers, PhaserNumber::of(own[i]), task);
    }
    any
}

/// Whether the task may propose no single on one of the numbers' phasers.
fn any_without_single(own: &[u32], phasers: &[KeptPhaser], task: TaskNumber) -> bool
    ensures { result ≡ list_any (λ n. not (has_single task (past_in phasers.now n))) own.now }
{
    let mut any = false;
    for i in 0..own.len() {
        any = any || !may_single(phasers, PhaserNumber::of(own[i]), task);
    }
    any
}

/// Whether the task has signalled on this phaser since its last turn. On a number without a phaser
/// it has not.
fn is_leading(phasers: &[KeptPhaser], phaser: PhaserNumber, task: TaskNumber) -> bool
    ensures { result ≡ leads task (past_in phasers.now phaser) }
{
    if phaser.place() >= phasers.len() {
        return false;
    }
    let state = &phasers[phaser.place()];
    match state.registration(task) {
        Some(reg) => reg.ahead,
        None => false,
    }
}

/// Whether the task's mode on this phaser has singles. A number without a phaser has no mode.
fn may_single(phasers: &[KeptPhaser], phaser: PhaserNumber, task: TaskNumber) -> bool
    ensures { result ≡ has_single task (past_in phasers.now phaser) }
{
    if phaser.place() >= phasers.len() {
        return false;
    }
    let state = &phasers[phaser.place()];
    match state.registration(task) {
        Some(reg) => reg.mode.can_single(),
        None => false,
    }
}

/// The finish that encloses this phaser, as it is read: finish 0 for a number without a phaser.
pub fn enclosing_of(enclosing: &[u32], phaser: PhaserNumber) -> FinishNumber
    ensures { result ≡ get_or enclosing.now phaser 0 }
{
    if phaser.place() >= enclosing.len() {
        return FinishNumber::of(0);
    }
    FinishNumber::of(enclosing[phaser.place()])
}

/// Lists those of the numbers that the finish encloses.
fn list_enclosed(left: &mut Vec<u32>, own: &[u32], enclosing: &[u32], finish: FinishNumber)
    requires few { length own.now ≤ 16 }
    requires room { 16 ≤ vec_capacity left.old }
    ensures left { left.new.items ≡ enclosed enclosing.now finish own.now }
    ensures room { 16 ≤ vec_capacity left.new }
{
    left.clear();
    for i in 0..own.len() {
        if enclosing_of(enclosing, PhaserNumber::of(own[i])).get() == finish.get() {
            left.push_reserved(own[i]);
        }
    }
}
