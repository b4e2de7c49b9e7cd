//! The laws of runs by picks, and of the place at which a history leaves its program. Each function
//! does nothing: its contract says the law, and the check proves it.
ghost use Rattle.trace_walk.specs.Laws.{PlacesAreFirst, RoundsMove, RunsAreLegal, RunsFollow, RunsGiveUp};

/// Each event of a run by picks is one that the world accepts where it stands.
pub fn runs_are_legal()
    ensures { RunsAreLegal }
{}

/// Each act of a run by picks, made or refused, is its task's next one.
pub fn runs_follow()
    ensures { RunsFollow }
{}

/// As long as the root hasn't ended, some task moves in each round of a run.
pub fn rounds_move()
    ensures { RoundsMove }
{}

/// Each task that gives up in a run does so by the number of the refusal that it meets: never for
/// want of memory, and for full registrations only if a registration of its own is refused.
pub fn runs_give_up()
    ensures { RunsGiveUp }
{}

/// The place at which a history is said to leave its program is the first at which it does.
pub fn places_are_first()
    ensures { PlacesAreFirst }
{}
