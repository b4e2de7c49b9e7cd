//! The kinds of steps that are measured.
ghost use Rattle.std.specs.Prelude.{◌≡◌, MatchOption, ◌≢◌};
ghost use Rattle.phaser_bench.specs.WorldsKind.{name_of};

/// What two tasks signal each other in.
#[derive(Clone, Copy, Debug, PartialEq, Eq)]
pub enum Kind {
    /// In two phasers, without a world: the calls of the phasers alone.
    Calls,
    /// In a world of their own.
    Alone,
    /// In a world in which 15 other phasers and 200 other tasks stand by.
    Beside,
    /// In a world of their own, of which a report is made at the end.
    Reported,
    /// In a world of their own at the default limits.
    Default,
    /// In a world of their own at the greatest limits.
    Greatest,
}

impl Kind {
    /// The kind of this name; none if no kind has it.
    pub fn of_name(name: &str) -> Option<Kind>
        ensures { MatchOption result ((k : _) → name_of k ≢ name.now) (λ k. name_of k ≡ name.now) }
    {
        match name {
            "calls" => Some(Kind::Calls),
            "alone" => Some(Kind::Alone),
            "beside" => Some(Kind::Beside),
            "reported" => Some(Kind::Reported),
            "default" => Some(Kind::Default),
            "greatest" => Some(Kind::Greatest),
            _ => None,
        }
    }
}
