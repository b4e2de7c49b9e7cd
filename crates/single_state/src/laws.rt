//! What holds of every list of calls.
ghost use Rattle.single_state.specs.Laws.{ClaimsAreUnique, ReportsAreUnique};

/// Over all calls that keep what `propose` asks of its caller, at most one claim of each phase is
/// answered `Ok`.
pub fn claims_are_unique()
    ensures { ClaimsAreUnique }
{}

/// Over the same calls, at most one report that a phase's single is done is answered `Ok`.
pub fn reports_are_unique()
    ensures { ReportsAreUnique }
{}
