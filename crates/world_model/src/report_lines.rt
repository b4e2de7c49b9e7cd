//! The lines that a report is printed as.
ghost use Rattle.std.specs.Prelude.{◌≡◌, flat_map};
ghost use Rattle.std.specs.Fmt.{WritesOnOk};
ghost use Rattle.world_model.specs.ReportLines.{fold_row, phaser_text, task_row, finish_row};

use crate::report::{FinishLine, FoldLine, PhaserLines, TaskLine, TotalsLine, WorldReport};
use phase_model::Look;
use phase_modes::Refusal;
use std::fmt;

impl fmt::Display for FoldLine {
    ghost use Rattle.std.specs.Prelude.{Some};
    ghost use Rattle.world_model.specs.ReportLines.{fold_text};

    ghost output = { λ l. Some (fold_text l) };

    /// `phase 0 acc 1 value 30`, or `phase 0 acc 1 none`.
    fn fmt<W: fmt::Write>(&self, f: &mut fmt::Formatter<W>) -> fmt::Result {
        match self.value {
            Look::Value(value) => write!(f, "phase {} acc {} value {value}", self.phase, self.acc),
            Look::Nothing => write!(f, "phase {} acc {} none", self.phase, self.acc),
        }
    }
}

impl fmt::Display for PhaserLines {
    ghost use Rattle.std.specs.Prelude.{Some};
    ghost use Rattle.world_model.specs.ReportLines.{phaser_text};

    ghost output = { λ r. Some (phaser_text r) };

    /// `phaser 0 phases 1`, and then `phaser 0` with each fold; a newline after each.
    fn fmt<W: fmt::Write>(&self, f: &mut fmt::Formatter<W>) -> fmt::Result {
        write!(f, "phaser {} phases {}\n", self.phaser, self.phases)?;
        write_folds(f, self.phaser, &self.folds)
    }
}

impl fmt::Display for TaskLine {
    ghost use Rattle.std.specs.Prelude.{Some};
    ghost use Rattle.world_model.specs.ReportLines.{task_text};

    ghost output = { λ l. Some (task_text l) };

    /// `task 1 ended`, or `task 1 refused 12 OutsideScope`; without a newline.
    fn fmt<W: fmt::Write>(&self, f: &mut fmt::Formatter<W>) -> fmt::Result {
        let Some(number) = self.refused else {
            return write!(f, "task {} ended", self.task);
        };
        write!(f, "task {} refused {number}", self.task)?;
        match Refusal::of_number(number) {
            Some(refusal) => write!(f, " {}", refusal.name()),
            None => Ok(()),
        }
    }
}

impl fmt::Display for FinishLine {
    ghost use Rattle.std.specs.Prelude.{Some};
    ghost use Rattle.world_model.specs.ReportLines.{finish_text};

    ghost output = { λ l. Some (finish_text l) };

    /// `finish 0 tasks 2`; without a newline.
    fn fmt<W: fmt::Write>(&self, f: &mut fmt::Formatter<W>) -> fmt::Result {
        write!(f, "finish {} tasks {}", self.finish, self.tasks)
    }
}

impl fmt::Display for TotalsLine {
    ghost use Rattle.std.specs.Prelude.{Some};
    ghost use Rattle.world_model.specs.ReportLines.{totals_text};

    ghost output = { λ l. Some (totals_text l) };

    /// `totals registered 3 signals 4 passes 4 drops 3 sends 4 up 33 down 0`; without a newline.
    fn fmt<W: fmt::Write>(&self, f: &mut fmt::Formatter<W>) -> fmt::Result {
        write!(
            f,
            "totals registered {} signals {}",
            self.registered, self.signals
        )?;
        write!(
            f,
            " passes {} drops {} sends {}",
            self.passes, self.drops, self.sends
        )?;
        write!(f, " up {} down {}", self.up, self.down)
    }
}

impl fmt::Display for WorldReport {
    ghost use Rattle.std.specs.Prelude.{Some};
    ghost use Rattle.world_model.specs.ReportLines.{report_text};

    ghost output = { λ r. Some (report_text r) };

    /// The lines of the phasers, the tasks, the finishes, and the totals; a newline after each.
    fn fmt<W: fmt::Write>(&self, f: &mut fmt::Formatter<W>) -> fmt::Result {
        write_phasers(f, &self.phasers)?;
        write_tasks(f, &self.tasks)?;
        write_finishes(f, &self.finishes)?;
        write!(f, "{}\n", self.totals)
    }
}

/// The lines of a phaser's folds.
fn write_folds<W: fmt::Write>(
    f: &mut fmt::Formatter<W>,
    phaser: u32,
    folds: &[FoldLine],
) -> fmt::Result
    ensures { WritesOnOk W.write_str_gives f.old result (flat_map (fold_row phaser) folds.now) f.new }
{
    for fold in folds {
        write!(f, "phaser {phaser} {fold}\n")?;
    }
    Ok(())
}

/// The lines of all phasers.
fn write_phasers<W: fmt::Write>(f: &mut fmt::Formatter<W>, phasers: &[PhaserLines]) -> fmt::Result
    ensures { WritesOnOk W.write_str_gives f.old result (flat_map phaser_text phasers.now) f.new }
{
    for phaser in phasers {
        write!(f, "{phaser}")?;
    }
    Ok(())
}

/// The lines of all tasks.
fn write_tasks<W: fmt::Write>(f: &mut fmt::Formatter<W>, tasks: &[TaskLine]) -> fmt::Result
    ensures { WritesOnOk W.write_str_gives f.old result (flat_map task_row tasks.now) f.new }
{
    for task in tasks {
        write!(f, "{task}\n")?;
    }
    Ok(())
}

/// The lines of all finishes.
fn write_finishes<W: fmt::Write>(f: &mut fmt::Formatter<W>, finishes: &[FinishLine]) -> fmt::Result
    ensures { WritesOnOk W.write_str_gives f.old result (flat_map finish_row finishes.now) f.new }
{
    for finish in finishes {
        write!(f, "{finish}\n")?;
    }
    Ok(())
}
