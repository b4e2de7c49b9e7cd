//! Whether a task may spawn a child on some of its phasers.
ghost use Rattle.std.specs.Prelude.{◌≡◌, ◌<◌, get_or, length, take, [], true, IfOk};
ghost use Rattle.std.specs.List.{list_any};
ghost use Rattle.phase_modes.specs.Refusal.{first_refusal};
ghost use Rattle.phase_model.specs.Registration.{registration};
ghost use Rattle.world_records.specs.Kept.{task_at, past_in, inner_at};
ghost use Rattle.world_model.specs.ActConditions.{free_unless, pair_names, hand_conditions, pair_conditions};
ghost use Rattle.world_records.specs.inner.Facts.{facts};
ghost use Rattle.world_records.specs.inner.Begins.{begin_refusal};

use super::Tables;
use phase_modes::{FinishNumber, Mode, Pair, Phased, PhaserNumber, Refusal, Reg, TaskNumber};
use world_model::Begun;
use world_records::{KeptPhaser, enclosing_of};

/// How the task is registered on this phaser now. A number without a phaser knows no task.
fn registration_on(phasers: &[KeptPhaser], phaser: PhaserNumber, task: TaskNumber) -> Option<Reg>
    ensures { result ≡ registration task (past_in phasers.now phaser) }
{
    if phaser.place() >= phasers.len() {
        return None;
    }
    let state = &phasers[phaser.place()];
    state.registration(task)
}

/// Whether one of the pairs is on this phaser.
fn is_among(pairs: &[Pair], phaser: PhaserNumber) -> bool
    ensures { result ≡ list_any (pair_names phaser) pairs.now }
{
    let mut any = false;
    for i in 0..pairs.len() {
        any = any || pairs[i].phaser == phaser.get();
    }
    any
}

impl Tables {
    /// The innermost open finish of a task.
    fn inner_of(&self, task: TaskNumber) -> FinishNumber
        requires { task < length self.now.tasks }
        ensures { result ≡ inner_at (task_at self.now task) }
    {
        let line = &self.tasks[task.place()];
        line.inner()
    }

    /// What handing on the phaser of a pair is refused by, if the spawn has named others before.
    fn may_hand(&self, task: TaskNumber, before: &[Pair], pair: Pair) -> Result<(), Refusal>
        requires { task < length self.now.tasks }
        ensures { result ≡ free_unless (first_refusal (hand_conditions (facts self.now task) (list_any (pair_names pair.phaser) before.now) pair)) }
    {
        let Some(reg) = registration_on(&self.phasers, PhaserNumber::of(pair.phaser), task) else {
            return Err(Refusal::NotRegistered);
        };
        if !Mode::within(pair.mode, reg.mode) {
            return Err(Refusal::MoreThanParent);
        }
        if enclosing_of(&self.enclosing, PhaserNumber::of(pair.phaser)).get()
            != self.inner_of(task).get()
        {
            return Err(Refusal::OutsideScope);
        }
        if is_among(before, PhaserNumber::of(pair.phaser)) {
            return Err(Refusal::RegisteredTwice);
        }
        Ok(())
    }

    /// What handing on these phasers is refused by, pair by pair.
    fn may_hand_on(&self, task: TaskNumber, pairs: &[Pair]) -> Result<(), Refusal>
        requires { task < length self.now.tasks }
        ensures { result ≡ free_unless (first_refusal (pair_conditions (facts self.now task) [] pairs.now)) }
    {
        for i in 0..pairs.len() {
            if let Err(refusal) = self.may_hand(task, &pairs[..i], pairs[i]) {
                return Err(refusal);
            }
        }
        Ok(())
    }

    /// How many tasks there are: as many as the limits say.
    pub(super) fn most_tasks(&self) -> u32
        ensures most { result ≡ self.now.limits.tasks }
        ensures tasks { length self.now.tasks ≡ result }
    {
        self.limits.tasks
    }

    /// What a spawn is refused by.
    pub(super) fn may_spawn(
        &self,
        task: TaskNumber,
        child: TaskNumber,
        pairs: Phased,
    ) -> Result<(), Refusal>
        ensures answer { result ≡ free_unless (begin_refusal self.now task (Begun.Async child pairs)) }
        ensures place { IfOk result (λ _. task < length self.now.tasks) }
        ensures child { IfOk result (λ _. child < length self.now.tasks) }
    {
        self.may_act(task, self.kept_named(child), true)?;
        if child.get() >= self.most_tasks() {
            return Err(Refusal::TasksFull);
        }
        self.may_hand_on(task, pairs.as_slice())
    }
}
