//! What a world is reported as.
ghost use Rattle.std.specs.Prelude.{◌≡◌, List, IfOk, IfErr};
ghost use Rattle.world_model.specs.declared.event.WorldEvent.{WorldEvent as Event};
ghost use Rattle.world_model.specs.Report.{report_of};
ghost use Rattle.world_records.specs.inner.Reports.{kept_report};
ghost use Rattle.world_records.specs.StandsFor.{StandsFor};

use super::Tables;
use crate::report_rows::{finish_rows, phaser_rows, task_rows};
use phase_modes::Refusal;
use std::alloc::Global;
use world_model::WorldReport;

impl Tables {
    /// The report of the world: each phaser's history is read once. `Memory` if there is too
    /// little for the lines.
    pub(crate) fn report(&self, alloc: Global) -> Result<WorldReport, Refusal>
        ensures report { (w : List Event) → StandsFor w self.now
            → IfOk result (λ r. r ≡ report_of self.now.limits w) }
        ensures memory { IfErr result (λ r. r ≡ Refusal.Memory) }
    {
        self.kept_report(alloc)
    }

    fn kept_report(&self, alloc: Global) -> Result<WorldReport, Refusal>
        ensures report { IfOk result (λ r. r ≡ kept_report self.now) }
        ensures memory { IfErr result (λ r. r ≡ Refusal.Memory) }
    {
        let phasers = phaser_rows(alloc, &self.phasers, self.limits.phasers)?;
        let tasks = task_rows(alloc, &self.tasks, self.limits.tasks)?;
        let finishes = finish_rows(alloc, &self.finishes, self.limits.finishes)?;
        Ok(WorldReport {
            phasers: phasers.lines,
            tasks,
            finishes,
            totals: phasers.totals,
        })
    }
}
