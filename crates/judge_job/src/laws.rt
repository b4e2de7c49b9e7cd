//! What holds of every log that is accepted. The function does nothing: its contract is the law, and the
//! check proves it.
ghost use Rattle.judge_job.specs.Logs.{AcceptedLogsAreLegal};

/// In a log that is accepted each phaser's history since it was last made is legal at every moment, with
/// the tasks' numbers replaced by fresh ones.
#[tactic(auto, using(crate::proofs::Legal::accepted_logs_are_legal))]
pub fn accepted_logs_are_legal()
    ensures { AcceptedLogsAreLegal }
{}
