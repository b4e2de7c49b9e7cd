//! What an events file holds.
ghost use Rattle.std.specs.Prelude.{◌≡◌, true};
ghost use Rattle.phase_modes.specs.Limits.{limits_fit};

use phase_model::{Bound, Call, Ops};
use phase_modes::Limits;

/// An events file: one phaser, and the calls on it.
#[derive(Debug, Drop)]
pub struct EventsFile {
    /// The limits of the phaser. A key that the file doesn't name has its default.
    pub limits: Limits,
    /// The operators of its accumulators.
    pub ops: Ops,
    /// Its bound, if it has one.
    pub bound: Option<Bound>,
    /// The calls, in order.
    pub calls: Vec<Call>,
    ghost fit: { limits_fit limits ≡ true },
}
