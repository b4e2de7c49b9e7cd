//! The report of a world: what its phasers, tasks and finishes add up to, by rising number.
use phase_model::Look;
use std::marker::Model;
use std::vec::Vec;

/// What an accumulator folded in a phase, both counted from 0.
#[derive(Clone, Copy, Debug, PartialEq, Eq)]
pub struct FoldLine {
    pub phase: u32,
    pub acc: u32,
    pub value: Look,
}

/// A phaser that was made: how many phases it had, and what its accumulators folded, phase by
/// phase and in each phase by their index. The last phase is the last that was signalled, passed
/// or sent for.
#[derive(Drop)]
pub struct PhaserLines {
    pub phaser: u32,
    pub phases: u32,
    pub folds: Vec<FoldLine>,
}

impl Model for PhaserLines {
    ghost use Rattle.world_model.specs.Report.{PhaserReport};

    ghost Value = { PhaserReport };

    ghost view = { λ s. record { phaser = s.phaser; phases = s.phases; folds = s.folds.items } };
}

/// The root or a task that was spawned, with the number of the refusal by which it ended, if one
/// did.
#[derive(Clone, Copy, Debug, PartialEq, Eq)]
pub struct TaskLine {
    pub task: u32,
    pub refused: Option<u8>,
}

/// A finish that was opened, and how many tasks were spawned in it, those inside further finishes
/// aside.
#[derive(Clone, Copy, Debug, PartialEq, Eq)]
pub struct FinishLine {
    pub finish: u32,
    pub tasks: u32,
}

/// Sums over all phasers: registrations (making is one), signals, passes, drops and sends, the sum
/// of the positive values sent and that of the negative values' magnitudes.
#[derive(Clone, Copy, Debug, PartialEq, Eq)]
pub struct TotalsLine {
    pub registered: u64,
    pub signals: u64,
    pub passes: u64,
    pub drops: u64,
    pub sends: u64,
    pub up: u64,
    pub down: u64,
}

/// All of it.
#[derive(Drop)]
pub struct WorldReport {
    pub phasers: Vec<PhaserLines>,
    pub tasks: Vec<TaskLine>,
    pub finishes: Vec<FinishLine>,
    pub totals: TotalsLine,
}

impl Model for WorldReport {
    ghost use Rattle.world_model.specs.Report.{Report};

    ghost Value = { Report };

    ghost view = { λ s. record {
      phasers = s.phasers.items;
      tasks = s.tasks.items;
      finishes = s.finishes.items;
      totals = s.totals;
    } };
}
