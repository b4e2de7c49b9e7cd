//! Worked examples of finishes and turns: each event with its reply, and the report at the end.
use super::Places::*;
use super::Row::*;
use super::TableEvent::*;
use super::reports::{Line, NOTHING, reported};
use super::*;

/// A child may not have a phaser of an outer finish: the spawn is refused, and so the task ends.
/// That the phaser is outside its scope may be noted, and no other number.
#[test]
fn outside_scope(rt: HostRuntime) -> Result<(), Refusal> {
    const ROWS: [Row; 10] = [
        Done(Make(0, 0, Mode::SigWait)),
        Done(Within(1, FinishEvent::Opened(0))),
        Refused(Spawn(0, 1, At(0, Mode::Sig)), Refusal::OutsideScope),
        Refused(RefuseSpawn(0, 1, At(0, Mode::Sig), 11), Refusal::NotNow),
        Done(RefuseSpawn(0, 1, At(0, Mode::Sig), 12)),
        Done(On(0, Step::Drop(0))),
        Done(Within(1, FinishEvent::Shut)),
        Done(Within(0, FinishEvent::Shut)),
        Is(0, Some(Condition::Ended)),
        NoneDue(0),
    ];
    const LINES: [Line; 4] = [
        Line::Phaser(0, 0),
        Line::Task(0, Some(12)),
        Line::Finish(0, 0),
        Line::Finish(1, 0),
    ];
    const TOTALS: TotalsLine = TotalsLine {
        registered: 1,
        drops: 1,
        ..NOTHING
    };
    reported(&rt, rt.alloc(), &[&ROWS], &LINES, TOTALS)
}

/// The owner of finish 1 waits for a task that its child spawned: the first shut has to wait.
#[test]
fn nested_finish(rt: HostRuntime) -> Result<(), Refusal> {
    const ROWS: [Row; 19] = [
        Done(Within(1, FinishEvent::Opened(0))),
        Done(Spawn(0, 1, Nowhere)),
        Done(Within(1, FinishEvent::Spawned(1))),
        Done(Spawn(1, 2, Nowhere)),
        Done(Within(1, FinishEvent::Spawned(2))),
        Done(Begin(1, Begun::End)),
        Done(Within(1, FinishEvent::Ended(1))),
        Done(Begin(0, Begun::Shut)),
        NotYet(Within(1, FinishEvent::Shut)),
        Is(0, Some(Condition::Shutting)),
        Able(0, false),
        Able(2, true),
        Done(Begin(2, Begun::Next)),
        Done(Begin(2, Begun::End)),
        Done(Within(1, FinishEvent::Ended(2))),
        Done(Within(1, FinishEvent::Shut)),
        Done(Begin(0, Begun::End)),
        Done(Within(0, FinishEvent::Shut)),
        Is(1, Some(Condition::Ended)),
    ];
    const LINES: [Line; 5] = [
        Line::Task(0, None),
        Line::Task(1, None),
        Line::Task(2, None),
        Line::Finish(0, 0),
        Line::Finish(1, 2),
    ];
    reported(&rt, rt.alloc(), &[&ROWS], &LINES, NOTHING)
}

/// The owner leaves a phaser of its finish before it waits for the child, which waits there.
#[test]
fn owner_leaves_before_shut(rt: HostRuntime) -> Result<(), Refusal> {
    const ROWS: [Row; 20] = [
        Done(Within(1, FinishEvent::Opened(0))),
        Done(Make(0, 0, Mode::SigWait)),
        Done(Spawn(0, 1, At(0, Mode::Wait))),
        Done(On(0, Step::Reg(0, 1, Mode::Wait))),
        Done(Within(1, FinishEvent::Spawned(1))),
        Done(Begin(1, Begun::Next)),
        NotYet(On(0, Step::Pass(1))),
        Done(Begin(0, Begun::Shut)),
        Refused(Within(1, FinishEvent::Shut), Refusal::NotNow),
        Done(On(0, Step::Drop(0))),
        NotYet(Within(1, FinishEvent::Shut)),
        Passed(0, 1, 0),
        Done(Begin(1, Begun::End)),
        Done(On(0, Step::Drop(1))),
        Done(Within(1, FinishEvent::Ended(1))),
        Done(Within(1, FinishEvent::Shut)),
        Done(Begin(0, Begun::End)),
        Done(Within(0, FinishEvent::Shut)),
        Clock(1, 1),
        Clock(0, 0),
    ];
    const LINES: [Line; 5] = [
        Line::Phaser(0, 1),
        Line::Task(0, None),
        Line::Task(1, None),
        Line::Finish(0, 0),
        Line::Finish(1, 1),
    ];
    const TOTALS: TotalsLine = TotalsLine {
        registered: 2,
        passes: 1,
        drops: 2,
        ..NOTHING
    };
    reported(&rt, rt.alloc(), &[&ROWS], &LINES, TOTALS)
}

/// Two tasks, each a signaller of the phaser on which the other waits; the root leaves, and waits
/// for both.
const TWO_SPAWNED: [Row; 14] = [
    Done(Make(0, 0, Mode::SigWait)),
    Done(Make(1, 0, Mode::SigWait)),
    Done(Spawn(0, 1, AtTwo((0, Mode::Sig), (1, Mode::Wait)))),
    Done(On(0, Step::Reg(0, 1, Mode::Sig))),
    Done(On(1, Step::Reg(0, 1, Mode::Wait))),
    Done(Within(0, FinishEvent::Spawned(1))),
    Done(Spawn(0, 2, AtTwo((1, Mode::Sig), (0, Mode::Wait)))),
    Done(On(1, Step::Reg(0, 2, Mode::Sig))),
    Done(On(0, Step::Reg(0, 2, Mode::Wait))),
    Done(Within(0, FinishEvent::Spawned(2))),
    Done(Begin(0, Begun::End)),
    Done(On(0, Step::Drop(0))),
    Done(On(1, Step::Drop(0))),
    NotYet(Within(0, FinishEvent::Shut)),
];

/// A turn of both: the first has to wait on phaser 1 until the second has signalled there.
fn crossed_turn(phase: u32) -> [Row; 9] {
    [
        Done(Begin(1, Begun::Next)),
        Done(On(0, Step::Sig(1, None))),
        Passed(0, 1, phase),
        NotYet(On(1, Step::Pass(1))),
        Done(Begin(2, Begun::Next)),
        Done(On(1, Step::Sig(2, None))),
        Passed(1, 2, phase),
        Passed(0, 2, phase),
        Passed(1, 1, phase),
    ]
}

/// A turn of the second alone.
fn lone_turn(phase: u32) -> [Row; 4] {
    [
        Done(Begin(2, Begun::Next)),
        Done(On(1, Step::Sig(2, None))),
        Passed(1, 2, phase),
        Passed(0, 2, phase),
    ]
}

/// The second task's end, and the root's.
const LAST_ENDS: [Row; 5] = [
    Done(Begin(2, Begun::End)),
    Done(On(1, Step::Drop(2))),
    Done(On(0, Step::Drop(2))),
    Done(Within(0, FinishEvent::Ended(2))),
    Done(Within(0, FinishEvent::Shut)),
];

/// Two tasks that signal each other on two phasers: three turns of each.
#[test]
fn crossed_signals(rt: HostRuntime) -> Result<(), Refusal> {
    const FIRST_ENDS: [Row; 8] = [
        Clock(1, 3),
        Clock(2, 3),
        Is(3, None),
        Named(3, false),
        Done(Begin(1, Begun::End)),
        Done(On(0, Step::Drop(1))),
        Done(On(1, Step::Drop(1))),
        Done(Within(0, FinishEvent::Ended(1))),
    ];
    const LINES: [Line; 6] = [
        Line::Phaser(0, 3),
        Line::Phaser(1, 3),
        Line::Task(0, None),
        Line::Task(1, None),
        Line::Task(2, None),
        Line::Finish(0, 2),
    ];
    const TOTALS: TotalsLine = TotalsLine {
        registered: 6,
        signals: 6,
        passes: 12,
        drops: 6,
        ..NOTHING
    };
    reported(
        &rt,
        rt.alloc(),
        &[
            &TWO_SPAWNED,
            &crossed_turn(0),
            &crossed_turn(1),
            &crossed_turn(2),
            &FIRST_ENDS,
            &LAST_ENDS,
            &[Is(0, Some(Condition::Ended))],
        ],
        &LINES,
        TOTALS,
    )
}

/// The same with a wait put first in the first child: it is refused, and the other goes on alone.
#[test]
fn crossed_signals_refused(rt: HostRuntime) -> Result<(), Refusal> {
    const FIRST_ENDS: [Row; 5] = [
        Refused(Begin(1, Begun::Wait), Refusal::NotSignalled),
        Done(Refuse(1, Tried::Begun(Begun::Wait), 6)),
        Done(On(0, Step::Drop(1))),
        Done(On(1, Step::Drop(1))),
        Done(Within(0, FinishEvent::Ended(1))),
    ];
    const LINES: [Line; 6] = [
        Line::Phaser(0, 3),
        Line::Phaser(1, 3),
        Line::Task(0, None),
        Line::Task(1, Some(6)),
        Line::Task(2, None),
        Line::Finish(0, 2),
    ];
    const TOTALS: TotalsLine = TotalsLine {
        registered: 6,
        signals: 3,
        passes: 6,
        drops: 6,
        ..NOTHING
    };
    reported(
        &rt,
        rt.alloc(),
        &[
            &TWO_SPAWNED,
            &FIRST_ENDS,
            &lone_turn(0),
            &lone_turn(1),
            &lone_turn(2),
            &LAST_ENDS,
            &[Clock(1, 0), Clock(2, 3)],
        ],
        &LINES,
        TOTALS,
    )
}

/// One statement for two proposers and a plain waiter: another number makes its task fail, the
/// first proposer claims, and the others wait for its report.
#[test]
fn one_single(rt: HostRuntime) -> Result<(), Refusal> {
    const ROWS: [Row; 26] = [
        Done(Make(0, 0, Mode::Single)),
        Done(Spawn(0, 1, At(0, Mode::Single))),
        Done(On(0, Step::Reg(0, 1, Mode::Single))),
        Done(Within(0, FinishEvent::Spawned(1))),
        Done(Spawn(0, 2, At(0, Mode::Wait))),
        Done(On(0, Step::Reg(0, 2, Mode::Wait))),
        Done(Within(0, FinishEvent::Spawned(2))),
        Done(Begin(0, Begun::NextSingle(7))),
        Refused(On(0, Step::Sig(0, None)), Refusal::NotNow),
        Done(On(0, Step::Sig(0, Some(7)))),
        NotYet(On(0, Step::Pass(0))),
        Done(Begin(1, Begun::NextSingle(8))),
        Refused(On(0, Step::Sig(1, Some(8))), Refusal::SingleMismatch),
        Done(Fail(1, 7)),
        Done(On(0, Step::Drop(1))),
        Done(Begin(2, Begun::Wait)),
        NotYet(On(0, Step::Pass(2))),
        Refused(On(0, Step::Pass(0)), Refusal::NotNow),
        Done(On(0, Step::Claim(0))),
        NotYet(On(0, Step::Pass(2))),
        Refused(On(0, Step::Pass(0)), Refusal::NotNow),
        Done(On(0, Step::Did(0))),
        Passed(0, 2, 0),
        Passed(0, 0, 0),
        Clock(0, 1),
        Is(1, Some(Condition::Ending)),
    ];
    const LINES: [Line; 5] = [
        Line::Phaser(0, 1),
        Line::Task(0, None),
        Line::Task(1, Some(7)),
        Line::Task(2, None),
        Line::Finish(0, 2),
    ];
    const TOTALS: TotalsLine = TotalsLine {
        registered: 3,
        signals: 1,
        passes: 2,
        drops: 1,
        ..NOTHING
    };
    reported(&rt, rt.alloc(), &[&ROWS], &LINES, TOTALS)
}

/// A turn in which both tasks send a value first.
fn sending_turn(phase: u32, first: i32, second: i32) -> [Row; 9] {
    [
        Done(On(0, Step::Send(1, 0, first))),
        Done(Begin(1, Begun::Next)),
        Done(On(0, Step::Sig(1, None))),
        Done(On(0, Step::Send(2, 0, second))),
        Done(Begin(2, Begun::Next)),
        NotYet(On(0, Step::Pass(1))),
        Done(On(0, Step::Sig(2, None))),
        Passed(0, 2, phase),
        Passed(0, 1, phase),
    ]
}

/// Two workers send for two phases, and the root leaves.
#[test]
fn two_senders(rt: HostRuntime) -> Result<(), Refusal> {
    const SPAWNED: [Row; 9] = [
        Done(MakeSum(0, 0, Mode::SigWait)),
        Done(Spawn(0, 1, At(0, Mode::SigWait))),
        Done(On(0, Step::Reg(0, 1, Mode::SigWait))),
        Done(Within(0, FinishEvent::Spawned(1))),
        Done(Spawn(0, 2, At(0, Mode::SigWait))),
        Done(On(0, Step::Reg(0, 2, Mode::SigWait))),
        Done(Within(0, FinishEvent::Spawned(2))),
        Done(Begin(0, Begun::End)),
        Done(On(0, Step::Drop(0))),
    ];
    const SENDERS_END: [Row; 7] = [
        Done(Begin(1, Begun::End)),
        Done(On(0, Step::Drop(1))),
        Done(Within(0, FinishEvent::Ended(1))),
        Done(Begin(2, Begun::End)),
        Done(On(0, Step::Drop(2))),
        Done(Within(0, FinishEvent::Ended(2))),
        Done(Within(0, FinishEvent::Shut)),
    ];
    const LINES: [Line; 7] = [
        Line::Phaser(0, 2),
        Line::Sum(0, 0, 3),
        Line::Sum(0, 1, 30),
        Line::Task(0, None),
        Line::Task(1, None),
        Line::Task(2, None),
        Line::Finish(0, 2),
    ];
    const TOTALS: TotalsLine = TotalsLine {
        registered: 3,
        signals: 4,
        passes: 4,
        drops: 3,
        sends: 4,
        up: 33,
        down: 0,
    };
    reported(
        &rt,
        rt.alloc(),
        &[
            &SPAWNED,
            &sending_turn(0, 1, 2),
            &[Saw(0, 1, Look::Value(3))],
            &sending_turn(1, 10, 20),
            &SENDERS_END,
        ],
        &LINES,
        TOTALS,
    )
}
