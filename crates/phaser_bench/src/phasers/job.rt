//! What is to be measured of phasers alone.
ghost use Rattle.std.specs.Prelude.{◌≤◌};

use super::kind::Kind;

/// What is to be measured of phasers alone.
#[derive(Clone, Copy, Debug, PartialEq, Eq)]
pub struct CoreJob {
    /// The calls.
    pub kind: Kind,
    /// How many tasks are registered on each phaser.
    pub tasks: u32,
    /// How many phasers are filled, one after the other.
    pub phasers: u32,
    ghost tasks_fit: { (1 ≤ tasks) × (tasks ≤ 256) },
    ghost phasers_fit: { (1 ≤ phasers) × (phasers ≤ 1000) },
}
