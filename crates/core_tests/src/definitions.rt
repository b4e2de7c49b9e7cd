//! The types as another crate builds them. What holds of them is proved by the laws.
use crate::asserted::equal;
use finish_core::FinishEvent;
use phase_model::{Look, Terms};
use phase_modes::{Mode, Phased, PhaserNumber};
use std::alloc::Global;
use std::process::Abort;
use std::test::Fail;
use world_model::{
    Begun, FinishLine, FoldLine, PhaserLines, Reply, Step, TaskLine, TotalsLine, Tried, WorldEvent,
    WorldReport,
};

#[test]
fn events_are_values(rt: HostRuntime) -> Result<(), Fail> {
    let begun = WorldEvent::Begin(0, Begun::Async(1, Phased::none()));
    let copied = begun;
    assert!(rt; copied == begun);
    assert!(rt; begun != WorldEvent::Begin(0, Begun::Next));
    assert!(rt; begun != WorldEvent::Refuse(0, Tried::Begun(Begun::Next), 12));
    let made = WorldEvent::Phaser(0, Step::Make(0, Mode::SigWait, Terms::none()));
    assert!(rt; made != WorldEvent::Phaser(0, Step::Drop(0)));
    assert!(rt; made != WorldEvent::Finish(0, FinishEvent::Shut));
    assert!(rt; Reply::Value(Look::Value(3)) != Reply::NotYet);
    Ok(())
}

/// The lines of one phaser.
fn one_phaser(
    alloc: Global,
    phaser: PhaserNumber,
    phases: u32,
    folds: &[FoldLine],
) -> Result<Vec<PhaserLines>, Fail> {
    let mut phasers = Vec::with_capacity(alloc, 1)?;
    phasers.push(PhaserLines {
        phaser: phaser.get(),
        phases,
        folds: folds.to_vec(alloc)?,
    })?;
    Ok(phasers)
}

#[test]
fn reports_are_lists_of_lines(rt: HostRuntime) -> Result<(), Fail> {
    const FOLDS: [FoldLine; 1] = [FoldLine {
        phase: 0,
        acc: 0,
        value: Look::Value(3),
    }];
    const TASKS: [TaskLine; 1] = [TaskLine {
        task: 0,
        refused: Some(12),
    }];
    const TOTALS: TotalsLine = TotalsLine {
        registered: 1,
        signals: 0,
        passes: 0,
        drops: 1,
        sends: 1,
        up: 3,
        down: 0,
    };
    let report = WorldReport {
        phasers: one_phaser(rt.alloc(), PhaserNumber::of(0), 1, FOLDS.as_slice())?,
        tasks: TASKS.to_vec(rt.alloc())?,
        finishes: Vec::new(rt.alloc()),
        totals: TOTALS,
    };
    is_read(&rt, &report);
    Ok(())
}

/// The refusal on the first line of a task.
fn first_refused(report: &WorldReport) -> Option<u8> {
    report.tasks.first().and_then(|line| line.refused)
}

/// The fields of the report above.
fn is_read(rt: &impl Abort, report: &WorldReport) {
    equal(rt, report.phasers.len(), 1);
    equal(rt, first_refused(report), Some(12));
    equal(rt, report.finishes.len(), 0);
    equal(rt, report.totals.up, 3);
}

/// A report with something of each kind.
fn two_phases(alloc: Global) -> Result<WorldReport, Fail> {
    const FOLDS: [FoldLine; 2] = [
        FoldLine {
            phase: 0,
            acc: 0,
            value: Look::Value(-3),
        },
        FoldLine {
            phase: 1,
            acc: 0,
            value: Look::Nothing,
        },
    ];
    const TASKS: [TaskLine; 2] = [
        TaskLine {
            task: 0,
            refused: None,
        },
        TaskLine {
            task: 7,
            refused: Some(12),
        },
    ];
    const FINISHES: [FinishLine; 1] = [FinishLine {
        finish: 0,
        tasks: 1,
    }];
    const TOTALS: TotalsLine = TotalsLine {
        registered: 2,
        signals: 3,
        passes: 4,
        drops: 5,
        sends: 6,
        up: 0,
        down: 3,
    };
    Ok(WorldReport {
        phasers: one_phaser(alloc, PhaserNumber::of(4), 2, FOLDS.as_slice())?,
        tasks: TASKS.to_vec(alloc)?,
        finishes: FINISHES.to_vec(alloc)?,
        totals: TOTALS,
    })
}

/// The report is printed so.
fn is_printed(
    rt: &impl Abort,
    alloc: Global,
    report: &WorldReport,
    expected: &str,
) -> Result<(), Fail> {
    let printed = report.to_string(alloc)?;
    equal(rt, printed.as_str(), expected);
    Ok(())
}

#[test]
fn a_report_is_printed_line_by_line(rt: HostRuntime) -> Result<(), Fail> {
    let report = two_phases(rt.alloc())?;
    is_printed(
        &rt,
        rt.alloc(),
        &report,
        concat!(
            "phaser 4 phases 2\n",
            "phaser 4 phase 0 acc 0 value -3\n",
            "phaser 4 phase 1 acc 0 none\n",
            "task 0 ended\n",
            "task 7 refused 12 OutsideScope\n",
            "finish 0 tasks 1\n",
            "totals registered 2 signals 3 passes 4 drops 5 sends 6 up 0 down 3\n"
        ),
    )
}
