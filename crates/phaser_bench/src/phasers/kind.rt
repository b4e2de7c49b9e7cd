//! The kinds of calls of phasers alone.
ghost use Rattle.std.specs.Prelude.{◌≡◌, MatchOption, ◌≢◌};
ghost use Rattle.phaser_bench.specs.CoreKind.{name_of};

/// Which calls a phaser's history is filled with.
#[derive(Clone, Copy, Debug, PartialEq, Eq)]
pub enum Kind {
    /// None: what is left is the making of the phasers.
    Nothing,
    /// Rounds in which all tasks signal, and then all pass.
    Turn,
    /// Sends to the accumulator.
    Send,
    /// Looks at the accumulator.
    Look,
    /// Registrations of a child, each followed by its drop.
    Drop,
    /// The rounds of `Turn` on a phaser that lives long.
    Long,
}

impl Kind {
    /// The kind of this name; none if no kind has it.
    pub fn of_name(name: &str) -> Option<Kind>
        ensures { MatchOption result ((k : _) → name_of k ≢ name.now) (λ k. name_of k ≡ name.now) }
    {
        match name {
            "none" => Some(Kind::Nothing),
            "turn" => Some(Kind::Turn),
            "send" => Some(Kind::Send),
            "look" => Some(Kind::Look),
            "drop" => Some(Kind::Drop),
            "long" => Some(Kind::Long),
            _ => None,
        }
    }
}
