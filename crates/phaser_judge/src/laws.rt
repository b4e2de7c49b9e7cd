//! What holds of every list of events. The function does nothing: its contract is the law, and the check
//! proves it.
ghost use Rattle.phaser_judge.specs.Renaming.{AcceptedAreLegal};

/// Handed a list of events, a judge accepts them all exactly if at every moment each phaser's history
/// since it was last made is legal, with the tasks' numbers replaced by fresh ones.
#[tactic(auto, using(crate::proofs::Lives::accepted_are_legal))]
pub fn accepted_are_legal()
    ensures { AcceptedAreLegal }
{}
