//! What is printed of small runs, and of runs that were refused.
mod going;
mod on_workers;
mod on_world;

use crate::ended::Ended;
use job_ends::Status;
use phase_model::Look;
use phase_modes::Refusal;
use run_jobs::{Kernel, end_kernel};
use std::alloc::Global;
use std::process::Abort;
use std::test::Fail;
use world_model::{FoldLine, PhaserLines, TaskLine, TotalsLine, WorldReport};

const ONE_CELL: TotalsLine = TotalsLine {
    registered: 2,
    signals: 1,
    passes: 1,
    drops: 2,
    sends: 2,
    up: 6,
    down: 0,
};

/// A report of phaser 0 with these values phase by phase, and of as many tasks as there are
/// refusals here.
fn report_of(
    alloc: Global,
    values: &[i64],
    refused: &[Option<u8>],
    totals: TotalsLine,
) -> Result<WorldReport, Refusal> {
    let mut folds = Vec::new(alloc);
    for (phase, value) in (0..).zip(values) {
        folds.push(FoldLine {
            phase,
            acc: 0,
            value: Look::Value(*value),
        })?;
    }
    let mut phasers = Vec::new(alloc);
    phasers.push(PhaserLines {
        phaser: 0,
        phases: 2,
        folds,
    })?;
    let mut tasks = Vec::new(alloc);
    for (task, refused) in (0..).zip(refused) {
        tasks.push(TaskLine {
            task,
            refused: *refused,
        })?;
    }
    Ok(WorldReport {
        phasers,
        tasks,
        finishes: Vec::new(alloc),
        totals,
    })
}

/// How the command ends, what it prints, and what it reports.
fn ends(
    rt: &impl Abort,
    alloc: Global,
    kernel: Kernel,
    ran: Result<WorldReport, Refusal>,
    wanted: &Ended<'_>,
) {
    let mut out = Vec::new(alloc);
    let mut faults = Vec::new(alloc);
    let status = end_kernel(alloc, kernel, ran, &mut out, &mut faults);
    assert!(rt; status == wanted.status);
    assert!(rt; out.as_slice() == wanted.lines.as_bytes());
    assert!(rt; faults.as_slice() == wanted.faults.as_bytes());
}

#[test]
fn results_are_printed(rt: HostRuntime) {
    ends(
        &rt,
        rt.alloc(),
        Kernel::Pipeline(0),
        report_of(rt.alloc(), &[1, 2], &[None, None, None], ONE_CELL),
        &Ended::done(
            "items 1 2\ntotals registered 2 signals 1 passes 1 drops 2 sends 2 up 6 down 0\n",
        ),
    );
}

#[test]
fn refusals_are_told(rt: HostRuntime) {
    ends(
        &rt,
        rt.alloc(),
        Kernel::Stencil(1),
        report_of(rt.alloc(), &[4], &[None, Some(23), Some(15)], ONE_CELL),
        &Ended::refused("refused 23 Memory\n"),
    );
    ends(
        &rt,
        rt.alloc(),
        Kernel::Stencil(1),
        Err(Refusal::SharesDiffer),
        &Ended::refused("refused 26 SharesDiffer\n"),
    );
}

// A writer that is full is a fault.
#[test]
fn results_that_cannot_be_written(rt: HostRuntime) -> Result<(), Fail> {
    let mut full = [0u8; 3];
    let mut out = &mut full[..];
    let mut faults = Vec::new(rt.alloc());
    let ran = report_of(rt.alloc(), &[4, 2], &[None, None], ONE_CELL);
    let status = end_kernel(rt.alloc(), Kernel::Stencil(1), ran, &mut out, &mut faults);
    assert!(rt; status == Status::Fault);
    assert!(rt; faults.as_slice() == b"fault write\n".as_slice());
    Ok(())
}
