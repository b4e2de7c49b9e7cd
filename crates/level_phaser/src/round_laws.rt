//! What holds of every round of tasks that stand level. Each function does nothing: its contract is
//! the law, and the check proves it.
ghost use Rattle.level_phaser.specs.RoundLaws.{LevelRound, LevelLooks};

/// No call of a round of level tasks is answered otherwise than in a round.
pub fn level_round()
    ensures { LevelRound }
{}

/// Tasks that stand in one phase see the same in each accumulator.
pub fn level_looks()
    ensures { LevelLooks }
{}
