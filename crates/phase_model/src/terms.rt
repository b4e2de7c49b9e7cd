//! What a phaser is made with: the operators of its accumulators, and its bound.
ghost use Rattle.std.specs.Prelude.{◌≡◌, ◌<◌, ◌≤◌, ◌⊎◌, MatchOption};

use crate::ops::Ops;
use std::marker::Model;

/// By how many phases at most a signaller may be ahead of a waiter: 1 to 65,536. Contracts see the
/// number.
#[derive(Clone, Copy, Debug, PartialEq, Eq)]
pub struct Bound {
    phases: u32,
}

impl Model for Bound {
    ghost use Rattle.std.specs.Prelude.{ℕ, ◌≤◌};

    ghost Value = { ℕ };

    ghost view = { λ b. b.phases };

    ghost invariant = { λ b. (1 ≤ b.phases) × (b.phases ≤ 65536) };

    ghost inverse = { λ n. record { phases = n } };
}

impl Bound {
    /// The bound of so many phases; none if they aren't 1 to 65,536.
    pub fn of(phases: u32) -> Option<Bound>
        ensures { MatchOption result ((phases ≡ 0) ⊎ (65536 < phases)) (λ b. b ≡ phases) }
    {
        if phases == 0 || 65536 < phases {
            return None;
        }
        Some(Bound { phases })
    }

    /// How many phases.
    pub fn phases(self) -> u32
        ensures phases { result ≡ self }
        ensures least { 1 ≤ result }
        ensures most { result ≤ 65536 }
    {
        self.phases
    }
}

/// What a phaser is made with.
#[derive(Clone, Copy, Debug, PartialEq, Eq)]
pub struct Terms {
    /// The operators of its accumulators.
    pub ops: Ops,
    /// By how many phases at most a signaller may be ahead of a waiter, if that is bounded.
    pub bound: Option<Bound>,
}

impl Terms {
    ghost use Rattle.phase_model.specs.Rules.{no_terms};

    /// No accumulators, and no bound.
    pub fn none() -> Terms
        ensures { result ≡ no_terms }
    {
        Terms {
            ops: Ops::none(),
            bound: None,
        }
    }
}
