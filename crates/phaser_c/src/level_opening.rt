//! A phaser goes over to tasks that stand level, and comes back.
ghost use Rattle.std.specs.Prelude.{◌≡◌, ◌≢◌, ◌≤◌, ◌==◌, ◌⊎◌, ℕ, [], true, false, None, Some, IfOk, IfErr, IfSome, IsTrue, MatchBool, MatchOption, ◌+◌, slice_get, MatchResult, vec_len, length, is_some};
ghost use Rattle.phase_modes.specs.declared.refusal.Refusal.TheVariants.{NotNow, Memory};
ghost use Rattle.level_phaser.specs.declared.keeper.Door.TheVariants.{Unopened as IsUnopened, Open as IsOpen};
ghost use Rattle.level_phaser.specs.declared.phaser.LevelPhaser.{LevelPhaser as Level};
ghost use Rattle.level_phaser.specs.Keeping.{are_apart, Holds};
ghost use Rattle.phaser_c.specs.LevelOpened.{may_open, IsOpenTo, IsKeptBy, IsBack, HasTaken, IsOf};
ghost use Rattle.phaser_c.specs.declared.answer.ExportAnswer.TheVariants.{Refused as refused};

use crate::answer::ExportAnswer;
use crate::level_keeper::LevelKeeper;
use crate::waiting::Waiting;
use level_phaser::{Door, Keeper, LevelPhaser, Member};
use long_locks::LongCell;
use phase_model::{Bound, Ops};
use phase_modes::Refusal;
use std::alloc::Global;

/// A table can't be opened: why, and the phaser.
#[derive(Drop)]
pub(crate) struct Unopened {
    pub(crate) waiting: Box<Waiting>,
    pub(crate) answer: ExportAnswer,
}

/// Whether none of these tasks is there twice.
fn are_apart(tasks: &[u64]) -> bool
    ensures { result ≡ are_apart tasks.now }
{
    for at in 0..tasks.len() {
        if tasks[at + 1..].contains(&tasks[at]) {
            return false;
        }
    }
    true
}

impl Waiting {
    /// Whether these are all tasks, and they stand level while nobody is parked.
    fn may_open(&self, tasks: &[u64]) -> bool
        ensures { result ≡ may_open tasks.now self.now.cell }
    {
        tasks.len() <= 256
            && self.cell.state.registered() == tasks.len()
            && self.level_of(tasks).is_some()
            && are_apart(tasks)
    }
}

/// A table that nobody has opened.
fn make_unopened(alloc: Global) -> Option<Keeper<LevelPhaser>>
    ensures { IfSome result (λ k. k.door ≡ IsUnopened) }
{
    let bound = Bound::of(1)?;
    let spare = LevelPhaser::new(alloc, Ops::none(), bound).ok()?;
    Keeper::new(alloc, spare).ok()
}

/// A keeper of a table that nobody has opened, for this phaser.
fn keeper_of(alloc: Global, waiting: Box<Waiting>) -> Result<Box<LevelKeeper>, Unopened>
    requires { waiting.value.cell.parked.items ≡ [] }
    ensures made { IfOk result (λ k. (k.value.keeper.door ≡ IsUnopened) × (k.value.waiting.value ≡ waiting.value)) }
    ensures refused { IfErr result (λ u. (u.waiting.value ≡ waiting.value) × (u.answer ≡ refused Memory)) }
{
    let Some(keeper) = make_unopened(alloc) else {
        return Err(Unopened {
            waiting,
            answer: ExportAnswer::Refused(Refusal::Memory),
        });
    };
    match Box::new(alloc, LevelKeeper { keeper, waiting }) {
        Ok(held) => Ok(held),
        Err(failed) => Err(Unopened {
            waiting: failed.value.waiting,
            answer: ExportAnswer::Refused(Refusal::Memory),
        }),
    }
}

/// A table that is open for these tasks, which share the phaser.
pub(crate) fn open(
    alloc: Global,
    waiting: Box<Waiting>,
    tasks: &[u64],
) -> Result<Box<LevelKeeper>, Unopened>
    ensures opened { IfOk result (λ k. (may_open tasks.now waiting.value.cell ≡ true)
        × IsOpenTo tasks.now waiting.value.cell k.value) }
    ensures refused { IfErr result (λ u. (u.waiting.value ≡ waiting.value)
        × (((u.answer ≡ refused NotNow) × (may_open tasks.now waiting.value.cell ≡ false)) ⊎ (u.answer ≡ refused Memory))) }
{
    if !waiting.may_open(tasks) {
        return Err(Unopened {
            waiting,
            answer: ExportAnswer::Refused(Refusal::NotNow),
        });
    }
    let Ok(list) = Vec::from_slice(alloc, tasks) else {
        return Err(Unopened {
            waiting,
            answer: ExportAnswer::Refused(Refusal::Memory),
        });
    };
    let Ok(numbers) = Vec::from_slice(alloc, tasks) else {
        return Err(Unopened {
            waiting,
            answer: ExportAnswer::Refused(Refusal::Memory),
        });
    };
    let mut held = keeper_of(alloc, waiting)?;
    held.open(list, numbers);
    Ok(held)
}

impl LevelKeeper {
    /// The phaser that lies here is changed for that of the table, which isn't open.
    fn trade(&mut self, mut tasks: Vec<u64>)
        requires shut { self.old.keeper.door ≢ IsOpen }
        requires few { vec_len tasks ≤ 256 }
        ensures same { (self.new.keeper.door ≡ self.old.keeper.door)
            × (self.new.keeper.seat.me.0 ≡ self.old.keeper.seat.me.0)
            × (self.new.keeper.phase ≡ self.old.keeper.phase) }
        ensures here { (d : Level) → Holds d self.old.keeper.seat.me
            → self.new.waiting.value.cell.state ≡ d.phaser }
        ensures there { (d : Level) × Holds d self.new.keeper.seat.me
            × (d.phaser ≡ self.old.waiting.value.cell.state) × (d.tasks ≡ tasks) }
    {
        let LevelKeeper { keeper, waiting } = self;
        let Waiting { cell, freed: _ } = waiting.as_mut();
        let LongCell { state, parked: _ } = cell;
        keeper.trade(state, &mut tasks);
        // So the history is legal, and phases are ordered in it.
        let _ = state.history();
    }

    /// The table is opened.
    fn open(&mut self, list: Vec<u64>, numbers: Vec<u64>)
        requires unopened { self.old.keeper.door ≡ IsUnopened }
        requires tasks { (list.items ≡ numbers.items) × (vec_len list ≡ length numbers.items)
            × (may_open numbers.items self.old.waiting.value.cell ≡ true) }
        ensures { IsOpenTo numbers.items self.old.waiting.value.cell self.new }
    {
        self.trade(list);
        self.keeper.open(numbers);
    }

    /// The table is closed, if it can be now: then the phaser lies here.
    pub(crate) fn close(&mut self, alloc: Global) -> bool
        ensures { MatchBool result (IsBack self.old self.new.waiting.value)
            (IsKeptBy self.old self.new × (self.new.keeper.taken ≡ self.old.keeper.taken)) }
    {
        if self.keeper.door != Door::Open || !self.keeper.close() {
            return false;
        }
        self.trade(Vec::new(alloc));
        true
    }

    /// The next task that nobody has taken.
    pub(crate) fn take(&mut self) -> Option<Member<LevelPhaser>>
        ensures { IsKeptBy self.old self.new × MatchOption result (self.new.keeper.taken ≡ self.old.keeper.taken)
            (λ m. (self.new.keeper.taken ≡ self.old.keeper.taken + 1)
            × (slice_get self.old.keeper.numbers.items self.old.keeper.taken ≡ Some m.task) × IsOf self.old m) }
    {
        if self.keeper.door != Door::Open {
            return None;
        }
        self.keeper.take()
    }
}
