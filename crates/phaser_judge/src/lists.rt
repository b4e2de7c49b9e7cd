//! A whole list of events.
ghost use Rattle.std.specs.Prelude.{◌≡◌, ◌≢◌, reverse, IfOk, IfErr};
ghost use Rattle.phaser_judge.specs.Reasons.{IsFirstRefused};
ghost use Rattle.phaser_judge.specs.Renaming.{AreLegal};

use crate::event::NamedEvent;
use crate::judge::Judge;
use crate::refused::Refused;
use std::alloc::Global;

/// Judges these events, the oldest first: `Ok` exactly if at every moment each phaser's history is legal,
/// else why the first is refused that isn't. `Memory` says nothing of them.
pub fn judge_all(alloc: Global, events: &[NamedEvent]) -> Result<(), Refused>
    ensures legal { IfOk result (λ _. AreLegal (reverse events.now)) }
    ensures reason { IfErr result (λ r. r ≢ Refused.Memory → IsFirstRefused events.now r) }
    ensures illegal { IfErr result (λ r. r ≢ Refused.Memory → AreLegal (reverse events.now) → ⊥) }
{
    let mut judge = Judge::new(alloc);
    for event in events {
        judge.event(event)?;
    }
    Ok(())
}
