//! What a world offers for a task's next act: numbers that aren't in use, and the task's phasers.
ghost use Rattle.std.specs.Prelude.{◌≡◌, ◌≤◌, not, List, length, map, get_or};
ghost use Rattle.phase_modes.specs.Lists.{is_empty};
ghost use Rattle.finish_core.specs.Finish.{fresh};
ghost use Rattle.world_model.specs.declared.event.WorldEvent.{WorldEvent as Event};
ghost use Rattle.world_model.specs.Drawing.{least_unused, own_pairs};
ghost use Rattle.world_model.specs.Numbers.{is_phaser, is_finish, is_named};
ghost use Rattle.world_records.specs.Kept.{blank_task, past_in};
ghost use Rattle.world_records.specs.inner.Drawings.{mode_at, pairs_at};
ghost use Rattle.world_records.specs.StandsFor.{StandsFor};

use super::Tables;
use finish_core::FinishState;
use phase_modes::{Mode, Pair, Phased, PhaserNumber, TaskNumber};
use world_records::{KeptPhaser, KeptTask};

/// The least numbers of each kind that aren't in use; if all are, the limit itself, under which
/// an act that names it is refused.
#[derive(Clone, Copy, Debug, PartialEq, Eq)]
pub struct Unused {
    pub phaser: u32,
    pub task: u32,
    pub finish: u32,
}

impl Tables {
    /// All phasers of the task, in the order in which it got them, each in its own mode: what a
    /// spawn names that hands them all on.
    pub(crate) fn own_pairs(&self, task: TaskNumber) -> Phased
        ensures { (w : List Event) → StandsFor w self.now → result ≡ own_pairs task w }
    {
        self.kept_pairs(task)
    }

    fn kept_pairs(&self, task: TaskNumber) -> Phased
        ensures { result ≡ pairs_at self.now task }
    {
        if task.place() >= self.tasks.len() {
            return Phased::none();
        }
        let line = &self.tasks[task.place()];
        line.pairs(task, &self.phasers)
    }

    /// The least numbers that aren't in use.
    pub(crate) fn unused(&self) -> Unused
        ensures phaser { (w : List Event) → StandsFor w self.now
            → result.phaser ≡ least_unused (λ n. is_phaser n w) self.now.limits.phasers }
        ensures task { (w : List Event) → StandsFor w self.now
            → result.task ≡ least_unused (λ t. is_named t w) self.now.limits.tasks }
        ensures finish { (w : List Event) → StandsFor w self.now
            → result.finish ≡ least_unused (λ f. is_finish f w) self.now.limits.finishes }
    {
        Unused {
            phaser: self.unmade(),
            task: self.unnamed(),
            finish: self.unopened(),
        }
    }

    fn unmade(&self) -> u32
        ensures { result ≡ least_unused (λ n. not (is_empty (past_in self.now.phasers n)))
            self.now.limits.phasers }
    {
        first_unmade(&self.phasers, self.limits.phasers)
    }

    fn unnamed(&self) -> u32
        ensures { result ≡ least_unused (λ t. (get_or self.now.tasks t blank_task).is_named)
            self.now.limits.tasks }
    {
        first_unnamed(&self.tasks, self.limits.tasks)
    }

    fn unopened(&self) -> u32
        ensures { result ≡ least_unused (λ f. not (is_empty (get_or self.now.finishes f (fresh 0)).past))
            self.now.limits.finishes }
    {
        first_unopened(&self.finishes, self.limits.finishes)
    }
}

#[tactic(auto, using(world_records::proofs::Least::least_found, world_records::proofs::Least::least_later, world_records::proofs::Least::least_none))]
/// The first phaser that nobody made.
fn first_unmade(phasers: &[KeptPhaser], limit: u32) -> u32
    ensures { result ≡ least_unused (λ n. not (is_empty (past_in phasers.now n))) limit }
{
    for number in 0..limit {
        if !is_made(phasers, number) {
            return number;
        }
    }
    limit
}

#[tactic(auto, using(world_records::proofs::Least::least_found, world_records::proofs::Least::least_later, world_records::proofs::Least::least_none))]
/// The first task number that no spawn named.
fn first_unnamed(tasks: &[KeptTask], limit: u32) -> u32
    ensures { result ≡ least_unused (λ t. (get_or tasks.now t blank_task).is_named) limit }
{
    for number in 0..limit {
        if !is_named_in(tasks, number) {
            return number;
        }
    }
    limit
}

#[tactic(auto, using(world_records::proofs::Least::least_found, world_records::proofs::Least::least_later, world_records::proofs::Least::least_none))]
/// The first finish that nobody opened.
fn first_unopened(finishes: &[FinishState], limit: u32) -> u32
    ensures { result ≡ least_unused (λ f. not (is_empty (get_or finishes.now f (fresh 0)).past)) limit }
{
    for number in 0..limit {
        if !is_begun(finishes, number) {
            return number;
        }
    }
    limit
}

/// Whether the number is a phaser's.
fn is_made(phasers: &[KeptPhaser], number: u32) -> bool
    ensures { result ≡ not (is_empty (past_in phasers.now number)) }
{
    if number as usize >= phasers.len() {
        return false;
    }
    let state = &phasers[number as usize];
    !state.is_unmade()
}

/// Whether a spawn named the number, or it is the root's.
fn is_named_in(tasks: &[KeptTask], number: u32) -> bool
    ensures { result ≡ (get_or tasks.now number blank_task).is_named }
{
    if number as usize >= tasks.len() {
        return false;
    }
    let line = &tasks[number as usize];
    line.is_named()
}

#[tactic(auto, using(world_records::proofs::Calls::none_at_all))]
/// Whether the number is a finish's.
fn is_begun(finishes: &[FinishState], number: u32) -> bool
    ensures { result ≡ not (is_empty (get_or finishes.now number (fresh 0)).past) }
{
    if number as usize >= finishes.len() {
        return false;
    }
    let state = &finishes[number as usize];
    !state.history().is_empty()
}
