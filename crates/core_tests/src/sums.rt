//! Each public function once, with values worked out by hand.
use crate::asserted::equal;
use finish_core::FinishEvent;
use phase_model::{Event, History, Look, Op, Ops, explain};
use phase_modes::{Limits, Mode, Refusal};
use std::alloc::Global;
use std::process::Abort;
use std::test::Fail;
use world_model::{
    FinishLine, FoldLine, PhaserLines, PhaserSums, TotalsLine, finish_line, no_totals, phaser_sums,
    plus,
};

/// Two tasks send for phase 0, then task 1 for phase 1, while task 0 ends its turn.
const EVENTS: [Event; 10] = [
    Event::Make(0, Mode::SigWait),
    Event::Reg(0, 1, Mode::Sig),
    Event::Send(0, 0, 3),
    Event::Send(1, 1, -5),
    Event::Sig(1, None),
    Event::Send(1, 0, 4),
    Event::Sig(0, None),
    Event::Pass(0),
    Event::Look(0, 0, Look::Value(3)),
    Event::Drop(1),
];

/// A sum and a least.
fn two_ops() -> Ops {
    let mut ops = Ops::none();
    for op in [Op::Sum, Op::Least] {
        if ops.len() < 4 {
            ops.push(op);
        }
    }
    ops
}

/// The history of these events.
fn history_of(alloc: Global, events: &[Event]) -> Result<History, Refusal> {
    let limits = Limits::default();
    if !limits.fits() {
        return Err(Refusal::NotNow);
    }
    let mut history = History::new(alloc, limits, two_ops(), None)?;
    for event in events {
        if history.len() >= history.limits().history {
            return Err(Refusal::HistoryFull);
        }
        history.add(*event);
    }
    Ok(history)
}

/// What the accumulators fold.
const FOLDS: [FoldLine; 4] = [
    FoldLine {
        phase: 0,
        acc: 0,
        value: Look::Value(3),
    },
    FoldLine {
        phase: 0,
        acc: 1,
        value: Look::Value(-5),
    },
    FoldLine {
        phase: 1,
        acc: 0,
        value: Look::Value(4),
    },
    FoldLine {
        phase: 1,
        acc: 1,
        value: Look::Nothing,
    },
];

const TOTALS: TotalsLine = TotalsLine {
    registered: 2,
    signals: 2,
    passes: 1,
    drops: 1,
    sends: 3,
    up: 7,
    down: 5,
};

/// The sums of the history of these events, as those of phaser 7.
fn sums_of(alloc: Global, events: &[Event]) -> Result<PhaserSums, Refusal> {
    let history = history_of(alloc, events)?;
    explain(&history)?;
    phaser_sums(alloc, 7, &history)
}

fn lines_are(rt: &impl Abort, lines: &PhaserLines, folds: &[FoldLine]) {
    equal(rt, lines.phaser, 7);
    equal(rt, lines.phases, 2);
    assert!(rt; lines.folds.as_slice() == folds);
}

fn totals_are(rt: &impl Abort, totals: TotalsLine) {
    assert_eq!(rt; totals, TOTALS);
    equal(rt, plus(no_totals(), totals), TOTALS);
    equal(rt, plus(TOTALS, TOTALS).up, 14);
}

#[test]
fn a_phaser_is_summed(rt: HostRuntime) -> Result<(), Fail> {
    let sums = sums_of(rt.alloc(), EVENTS.as_slice())?;
    lines_are(&rt, &sums.lines, FOLDS.as_slice());
    totals_are(&rt, sums.totals);
    Ok(())
}

#[test]
fn a_finish_is_counted(rt: HostRuntime) {
    const FINISHED: [FinishEvent; 4] = [
        FinishEvent::Opened(0),
        FinishEvent::Spawned(1),
        FinishEvent::Ended(1),
        FinishEvent::Spawned(2),
    ];
    const LINE: FinishLine = FinishLine {
        finish: 3,
        tasks: 2,
    };
    equal(&rt, finish_line(3, FINISHED.as_slice()), LINE);
}
