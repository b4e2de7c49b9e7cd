//! The kinds of calls through a table.
ghost use Rattle.std.specs.Prelude.{◌≡◌, MatchOption, ◌≢◌};
ghost use Rattle.phaser_bench.specs.LocksKind.{name_of};

/// What is done on a phaser, phase by phase.
#[derive(Clone, Copy, Debug, PartialEq, Eq)]
pub enum Kind {
    /// Nothing: what is left is the making of the phasers.
    Nothing,
    /// All tasks signal, and then all pass.
    Turn,
    /// One task signals and passes, ahead of another that never signals. All others wait, parked,
    /// and no signal wakes one of them.
    Ahead,
    /// One task signals and passes, and then all others pass.
    Follow,
    /// As in `Follow`, but all others ask first, so that they are parked, and the signal wakes
    /// all of them.
    Free,
}

impl Kind {
    /// The kind of this name; none if no kind has it.
    pub fn of_name(name: &str) -> Option<Kind>
        ensures { MatchOption result ((k : _) → name_of k ≢ name.now) (λ k. name_of k ≡ name.now) }
    {
        match name {
            "none" => Some(Kind::Nothing),
            "turn" => Some(Kind::Turn),
            "ahead" => Some(Kind::Ahead),
            "follow" => Some(Kind::Follow),
            "free" => Some(Kind::Free),
            _ => None,
        }
    }
}
