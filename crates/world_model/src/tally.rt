//! What a phaser's events add up to so far.
ghost use Rattle.std.specs.Prelude.{◌≡◌, ◌+◌, ℕ, IfOk, IfErr};
ghost use Rattle.world_model.specs.SumLines.{IsWithin};
ghost use Rattle.world_model.specs.inner.Tallied.{noted, no_events, IsNotable};

use crate::TotalsLine;
use crate::folds::FoldTable;
use crate::progress::{Progress, fresh_tasks, note_progress, phase_of};
use crate::totals::{no_totals, with_event};
use phase_model::{Event, Ops};
use phase_modes::Refusal;
use std::alloc::Global;
use std::marker::Model;

/// How far each task has come, what the accumulators folded, and the totals.
#[derive(Drop)]
pub(crate) struct Tally {
    pub(crate) tasks: Vec<Progress>,
    pub(crate) folds: FoldTable,
    pub(crate) totals: TotalsLine,
}

impl Model for Tally {
    ghost use Rattle.world_model.specs.inner.Tallied.{Tallied};

    ghost Value = { Tallied };

    ghost view = { λ t. record { tasks = t.tasks.items; folds = t.folds; totals = t.totals } };
}

impl Tally {
    /// No event yet, of so many tasks and with these accumulators.
    pub(crate) fn new(alloc: Global, tasks: u32, ops: Ops) -> Result<Tally, Refusal>
        ensures empty { IfOk result (λ t. t ≡ no_events tasks ops) }
        ensures memory { IfErr result (λ r. r ≡ Refusal.Memory) }
    {
        let tasks = fresh_tasks(alloc, tasks)?;
        Ok(Tally {
            tasks,
            folds: FoldTable::new(alloc, ops),
            totals: no_totals(),
        })
    }

    /// Takes one event more in.
    pub(crate) fn note(&mut self, event: Event) -> Result<(), Refusal>
        requires { IsNotable self.old event }
        ensures noted { IfOk result (λ _. self.new ≡ noted event self.old) }
        ensures within { IfOk result (λ _. (n : ℕ) → IsWithin n self.old.totals
            → IsWithin (n + 1) self.new.totals) }
        ensures memory { IfErr result (λ r. r ≡ Refusal.Memory) }
    {
        let phase = phase_of(&self.tasks, event);
        self.folds.note(event, phase)?;
        note_progress(&mut self.tasks, event);
        self.totals = with_event(self.totals, event);
        Ok(())
    }
}
