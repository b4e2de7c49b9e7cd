//! A phaser for threads that wait, and the list in which it leaves those whom a call frees.
ghost use Rattle.std.specs.Prelude.{◌≡◌, [], Some, IfOk, IfErr};
ghost use Rattle.phaser_core.specs.LongLife.{long_limits};

use long_locks::{FreedList, LongCell, Then};
use phase_model::{Bound, Ops};
use phase_modes::Refusal;
use std::alloc::Global;

/// A cell, and the list, which is empty between two calls.
#[derive(Drop)]
pub(crate) struct Waiting {
    pub(crate) cell: LongCell<Then>,
    pub(crate) freed: FreedList,
    pub(crate) ghost empty: { freed ≡ [] },
}

impl Waiting {
    /// A phaser that nobody has made yet, with these operators and this bound. All memory that it
    /// will ever need is taken here; `Memory` if that is refused.
    pub(crate) fn new(alloc: Global, ops: Ops, bound: Bound) -> Result<Waiting, Refusal>
        ensures story { IfOk result (λ w. w.cell.state.story
            ≡ record { limits = long_limits; terms = record { ops = ops; bound = Some bound }; past = [] }) }
        ensures next { IfOk result (λ w. w.cell.state.next ≡ 0) }
        ensures queue { IfOk result (λ w. w.cell.parked.items ≡ []) }
        ensures memory { IfErr result (λ r. r ≡ Refusal.Memory) }
    {
        let cell = LongCell::new(alloc, ops, bound)?;
        let freed = FreedList::new(alloc)?;
        Ok(Waiting { cell, freed })
    }
}
