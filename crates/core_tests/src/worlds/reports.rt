//! What the worked examples are reported as.
use super::Row::*;
use super::TableEvent::*;
use super::*;
use crate::asserted::equal;

/// A line of a report, the totals aside.
#[derive(Clone, Copy, Debug, PartialEq, Eq)]
pub(super) enum Line {
    /// The phaser had so many phases.
    Phaser(u32, u32),
    /// The phaser's first accumulator, a sum, folded to this in the phase.
    Sum(u32, u32, i64),
    /// Something else of the phaser's.
    Fold(u32, FoldLine),
    /// The task ended, by the refusal of this number if one is given.
    Task(u32, Option<u8>),
    /// So many tasks were spawned in the finish.
    Finish(u32, u32),
}

/// No phaser did anything.
pub(super) const NOTHING: TotalsLine = TotalsLine {
    registered: 0,
    signals: 0,
    passes: 0,
    drops: 0,
    sends: 0,
    up: 0,
    down: 0,
};

fn fold_of(phaser: u32, line: FoldLine) -> Line {
    match line {
        FoldLine {
            phase,
            acc: 0,
            value: Look::Value(sum),
        } => Line::Sum(phaser, phase, sum),
        other => Line::Fold(phaser, other),
    }
}

/// Adds the lines of a phaser.
fn add_phaser(list: &mut Vec<Line>, lines: &PhaserLines) -> Result<(), Refusal> {
    list.push(Line::Phaser(lines.phaser, lines.phases))?;
    for fold in &lines.folds {
        list.push(fold_of(lines.phaser, *fold))?;
    }
    Ok(())
}

/// Adds all lines but the totals.
fn add_lines(list: &mut Vec<Line>, report: &WorldReport) -> Result<(), Refusal> {
    for lines in &report.phasers {
        add_phaser(list, lines)?;
    }
    for line in &report.tasks {
        list.push(Line::Task(line.task, line.refused))?;
    }
    for line in &report.finishes {
        list.push(Line::Finish(line.finish, line.tasks))?;
    }
    Ok(())
}

/// The report has these lines, the totals aside.
fn lines_are(
    rt: &impl Abort,
    alloc: Global,
    report: &WorldReport,
    expected: &[Line],
) -> Result<(), Refusal> {
    let mut list = Vec::new(alloc);
    add_lines(&mut list, report)?;
    equal(rt, list.as_slice(), expected);
    Ok(())
}

/// The world is reported so.
fn is_reported(
    rt: &impl Abort,
    alloc: Global,
    world: &World,
    lines: &[Line],
    totals: TotalsLine,
) -> Result<(), Refusal> {
    let report = world.report(alloc)?;
    equal(rt, report.totals, totals);
    lines_are(rt, alloc, &report, lines)
}

/// The world that the tables leave, at the default limits, is reported so.
pub(super) fn reported(
    rt: &impl Abort,
    alloc: Global,
    tables: &[&[Row]],
    lines: &[Line],
    totals: TotalsLine,
) -> Result<(), Refusal> {
    let world = play(rt, alloc, Limits::default(), tables)?;
    is_reported(rt, alloc, &world, lines, totals)
}

/// Nothing was done yet: the root stands there, and finish 0.
#[test]
fn a_fresh_world_is_reported(rt: HostRuntime) -> Result<(), Refusal> {
    const LINES: [Line; 2] = [Line::Task(0, None), Line::Finish(0, 0)];
    reported(&rt, rt.alloc(), &[], &LINES, NOTHING)
}

/// One task alone takes a turn, and ends.
#[test]
fn smallest_trace(rt: HostRuntime) -> Result<(), Refusal> {
    const ROWS: [Row; 7] = [
        Done(Make(0, 0, Mode::SigWait)),
        Done(Begin(0, Begun::Next)),
        Done(On(0, Step::Sig(0, None))),
        Passed(0, 0, 0),
        Done(Begin(0, Begun::End)),
        Done(On(0, Step::Drop(0))),
        Done(Within(0, FinishEvent::Shut)),
    ];
    const LINES: [Line; 3] = [Line::Phaser(0, 1), Line::Task(0, None), Line::Finish(0, 0)];
    const TOTALS: TotalsLine = TotalsLine {
        registered: 1,
        signals: 1,
        passes: 1,
        drops: 1,
        ..NOTHING
    };
    reported(&rt, rt.alloc(), &[&ROWS], &LINES, TOTALS)
}
