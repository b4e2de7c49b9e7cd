//! What holds of those who wait. Each function does nothing: its contract is the law, and the check
//! proves it.
ghost use Rattle.phase_model.specs.Waiting.{AllWaitInOnePhase, OthersFreeNobody, OthersFreeNoSignaller};

/// Only a signal, a single's report and a drop can wake a task that waits to pass.
pub fn others_free_nobody()
    ensures { OthersFreeNobody }
{}

/// All tasks that wait to pass at a phaser stand at the same phase of it.
pub fn all_wait_in_one_phase()
    ensures { AllWaitInOnePhase }
{}

/// Only a proposal, a pass and a drop can wake a task that waits to signal.
pub fn others_free_no_signaller()
    ensures { OthersFreeNoSignaller }
{}
