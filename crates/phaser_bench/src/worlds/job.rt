//! What is to be measured of worlds.
ghost use Rattle.std.specs.Prelude.{◌≤◌};

use super::kind::Kind;

/// What is to be measured of worlds.
#[derive(Clone, Copy, Debug, PartialEq, Eq)]
pub struct WorldsJob {
    /// What the two tasks signal each other in.
    pub kind: Kind,
    /// How many turns they have in each world, at most.
    pub turns: u32,
    /// How many worlds are made, one after the other.
    pub worlds: u32,
    ghost turns_fit: { turns ≤ 65536 },
    ghost worlds_fit: { (1 ≤ worlds) × (worlds ≤ 1000) },
}
