//! A task, as its thread has it.
ghost use Rattle.std.specs.Prelude.{◌≡◌, ◌<◌};
ghost use Rattle.std.specs.Option.{ForSome};
ghost use Rattle.std.specs.Arc.{arc_value};
ghost use Rattle.level_phaser.specs.inner.Steps.{IsSized, InStage};

use crate::round::GivenSend;
use crate::stage::Stage;
use crate::state::LevelState;
use crate::view::{LevelSeat, LevelTable};
use std::alloc::Global;
use std::sync::Arc;

/// A task at the barrier. One that is dropped without `leave` stays registered, and the others wait
/// for it for ever.
#[derive(Drop)]
pub struct Member<S: LevelState> {
    pub(crate) board: Arc<LevelTable<S>, Global>,
    /// What contracts know of the task.
    pub seat: LevelSeat<S>,
    /// Its number, which no other task gets.
    pub task: u64,
    /// The phase in which it stands, or waits.
    pub phase: u64,
    pub stage: Stage,
    /// A value that it sends once it comes.
    pub kept: Option<GivenSend>,
    /// How many accumulators there are.
    pub width: u64,
    /// Whether its row has a word that isn't 0.
    pub(crate) is_shown: bool,
    /// Whether it has gone on, and told nothing since.
    pub(crate) is_fresh: bool,
    ghost seated: { seat.table_id ≡ (arc_value board).shared.table_id },
    ghost sized: { IsSized (arc_value board).shared.table_id },
    ghost stands: { InStage stage task phase width is_shown is_fresh seat.me },
    ghost tellable: { ForSome kept (λ k. (k.accumulator < width) × (task < 256)) },
}
