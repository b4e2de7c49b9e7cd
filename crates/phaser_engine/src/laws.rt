//! What the code rests on that is a law of all legal histories.
ghost use Rattle.phaser_engine.specs.Lazy.{LateFoldsAreFolds};
ghost use Rattle.phaser_engine.specs.Making.{BothMakeAlike};

/// Folding a task's values when it signals, or is dropped, gives the folds of each closed phase.
pub fn late_folds_are_folds()
    ensures { LateFoldsAreFolds }
{}

/// `new` then `make`, and `blank` then `make_with`, are answered alike, and leave equal histories,
/// limits and operators.
pub fn both_make_alike()
    ensures { BothMakeAlike }
{}
