//! What a phaser's history adds up to.
ghost use Rattle.std.specs.Prelude.{◌≡◌, ◌∷◌, [], true, IfOk, IfErr};
ghost use Rattle.phase_model.specs.Rules.{is_legal};
ghost use Rattle.world_model.specs.Report.{totals_line};
ghost use Rattle.world_model.specs.SumLines.{lines_of, IsWithin};
ghost use Rattle.world_model.specs.inner.Tallied.{StandsFor};

use crate::tally::Tally;
use crate::{PhaserLines, TotalsLine};
use phase_model::History;
use phase_modes::Refusal;
use std::alloc::Global;

/// What a phaser adds up to: its own lines, and its part of the totals.
#[derive(Drop)]
pub struct PhaserSums {
    pub lines: PhaserLines,
    pub totals: TotalsLine,
}

/// What the phaser with this number and history adds up to, found in one pass over its events, the
/// oldest first. `Memory` if there is too little for the lines, or for a line of each task.
pub fn phaser_sums(alloc: Global, phaser: u32, history: &History) -> Result<PhaserSums, Refusal>
    requires { is_legal history.now.limits history.now.terms history.now.past ≡ true }
    ensures lines { IfOk result (λ s. s.lines ≡ lines_of phaser history.now) }
    ensures totals { IfOk result (λ s. s.totals ≡ totals_line (history.now.past ∷ [])) }
    ensures few { IfOk result (λ s. IsWithin 65536 s.totals) }
    ensures memory { IfErr result (λ r. r ≡ Refusal.Memory) }
{
    let tally = tally_of(alloc, history)?;
    let Tally {
        tasks: _,
        folds,
        totals,
    } = tally;
    Ok(PhaserSums {
        lines: folds.into_lines(phaser),
        totals,
    })
}

/// What the events add up to.
fn tally_of(alloc: Global, history: &History) -> Result<Tally, Refusal>
    requires { is_legal history.now.limits history.now.terms history.now.past ≡ true }
    ensures stands { IfOk result (λ t. StandsFor t history.now.past) }
    ensures ops { IfOk result (λ t. t.folds.ops ≡ history.now.terms.ops) }
    ensures few { IfOk result (λ t. IsWithin 65536 t.totals) }
    ensures memory { IfErr result (λ r. r ≡ Refusal.Memory) }
{
    let mut tally = Tally::new(alloc, history.limits().tasks, history.ops())?;
    let events = history.events();
    for i in 0..events.len() {
        tally.note(events[i])?;
    }
    Ok(tally)
}
