//! What holds of singles in every legal history. Each function does nothing: its contract is the
//! law, and the check proves it.
ghost use Rattle.phase_model.specs.SingleLaws.{OneClaimAndOneReport, SinglesAreAnswered, SinglesHaveRoom, SinglesStandBetween};

/// A phase of a legal history is claimed at most once and reported at most once, and not claimed
/// after the report.
pub fn one_claim_and_one_report()
    ensures { OneClaimAndOneReport }
{}

/// The claim and the report of a phase stand after all signals of the phase and before all passes
/// of it by tasks that can wait.
pub fn singles_stand_between()
    ensures { SinglesStandBetween }
{}

/// A legal history has room for each claim, report and drop that it permits.
pub fn singles_have_room()
    ensures { SinglesHaveRoom }
{}

/// A pass that may claim does claim, and no report and no drop is refused because the history is
/// full.
pub fn singles_are_answered()
    ensures { SinglesAreAnswered }
{}
