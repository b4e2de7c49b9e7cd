//! What a run leaves, and who hears of its tasks' ends.
ghost use Rattle.std.specs.Prelude.{◌≡◌, ◌↔◌, true};
ghost use Rattle.live_rt.specs.Gone.{AreAllGone};

use crate::pulses::Pulses;
use phase_modes::Refusal;
use tasks_in_flight::Body;
use world_model::TotalsLine;

/// What a run leaves.
#[derive(Drop)]
pub struct Ended<B> {
    /// The root's body as it stood after its last `step` or `single`.
    pub root: B,
    /// What the root was refused, if it ended by that.
    pub refused: Option<Refusal>,
    pub counts: Counts,
}

/// How many there ever were, and how many of them are gone.
#[derive(Clone, Copy, Debug, PartialEq, Eq)]
pub struct Counts {
    /// The root and all tasks that were spawned.
    pub tasks: u64,
    /// The tasks that have ended.
    pub ended: u64,
    /// The tasks that ended because they were refused something.
    pub refused: u64,
    /// The phasers that were made, and those that all tasks have left.
    pub phasers: u64,
    pub gone: u64,
    /// The finishes that were opened, the one round all tasks with them, and those that are shut.
    pub finishes: u64,
    pub shut: u64,
    /// What was done on all phasers.
    pub totals: TotalsLine,
}

impl Counts {
    /// Whether nobody is left: each task has ended, each phaser is gone, and each finish is shut.
    pub fn are_all_gone(self) -> bool
        ensures { (result ≡ true) ↔ AreAllGone self }
    {
        self.ended == self.tasks && self.gone == self.phasers && self.shut == self.finishes
    }
}

/// Hears of each task that ends, the root aside, with its body and what it was refused if it ended by
/// that. It is called by the worker before the task's finish knows, while no lock is held: whoever
/// has shut a finish knows that all its tasks were heard of.
pub trait Ends<B: Body> {
    ghost use Rattle.std.specs.Prelude.{◌≡◌, None};

    /// What is told of a body that has asked for its task's end. By default nothing. What follows from what
    /// the body says then can be told: `run_live` asks for that (`tells`).
    ghost told: { B → Type 0 } = { λ _. Unit {0} };

    /// The task of this body has ended.
    fn ended(&self, body: B, refused: Option<Refusal>)
        requires told { refused ≡ None → ∥ told body ∥₁ };

    /// A worker has driven a task for a stretch, of at most 64 events. Here a run can show how far it
    /// is. Does nothing if it isn't written.
    fn beat(&self, _pulses: &Pulses) {}
}

/// Drops each body.
pub struct Unheard;

impl<B: Body> Ends<B> for Unheard {
    fn ended(&self, _body: B, _refused: Option<Refusal>) {}
}
