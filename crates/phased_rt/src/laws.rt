//! What a run's trace has of each phaser, each finish and each task. The function does nothing: its contract
//! says it, and the check proves it.
ghost use Rattle.phased_rt.specs.Traced.{FinishesAreTraced, LogsAreTraced, PhasersAreTraced};

/// The trace of a run that `run` answered has of each phaser and of each finish exactly the part that
/// the run is told by: a legal history, of finish 0 without its opening, which is nobody's event. Of
/// each task's log it has exactly the log that the task left.
pub fn runs_are_traced()
    ensures phasers { PhasersAreTraced }
    ensures finishes { FinishesAreTraced }
    ensures logs { LogsAreTraced }
{}
