//! The worked example. The function does nothing: its contract says it, and the check computes it.
ghost use Rattle.task_standing.specs.Examples.{HalfATurn};

/// The root in the middle of a turn, and what it knows then.
pub fn half_a_turn()
    ensures { HalfATurn }
{}
