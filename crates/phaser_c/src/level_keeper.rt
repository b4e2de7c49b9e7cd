//! What opened a table to tasks that stand level.
ghost use Rattle.std.specs.Prelude.{◌≡◌, []};

use crate::waiting::Waiting;
use level_phaser::{Keeper, LevelPhaser};

/// The keeper, and the box in which the phaser lies again once the table is closed. Till then it has
/// a phaser that nobody uses.
#[derive(Drop)]
pub(crate) struct LevelKeeper {
    pub(crate) keeper: Keeper<LevelPhaser>,
    pub(crate) waiting: Box<Waiting>,
    pub(crate) ghost nobody: { waiting.value.cell.parked.items ≡ [] },
}
