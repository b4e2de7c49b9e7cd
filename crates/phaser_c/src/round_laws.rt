//! That a round is the calls of its tasks. The function does nothing: its contract is the law, and
//! the check proves it.
ghost use Rattle.phaser_c.specs.RoundCalls.{RoundIsCalls};

/// A round ends as the single calls of its tasks do.
pub fn round_is_calls()
    ensures { RoundIsCalls }
{}
