//! The plain functions on histories that are written out by hand.
use crate::asserted::{equal, equal_at};
use phase_model::{
    Event, History, Look, Op, Ops, Reply, allowed, claimed, closed, did, down_of, explain, fold,
    live, proposed, signals, up_of, waits,
};
use phase_modes::{Limits, Mode, Refusal};
use std::alloc::Global;
use std::process::Abort;
use std::test::Fail;

/// A history of these events, with room for so many.
fn history_of(alloc: Global, most: u32, ops: Ops, events: &[Event]) -> Result<History, Refusal> {
    let limits = Limits {
        history: most,
        ..Limits::default()
    };
    if !limits.fits() {
        return Err(Refusal::NotNow);
    }
    let mut history = History::new(alloc, limits, ops, None)?;
    for event in events {
        if history.len() >= history.limits().history {
            return Err(Refusal::HistoryFull);
        }
        history.add(*event);
    }
    Ok(history)
}

/// One accumulator of each kind.
fn three_ops() -> Ops {
    let mut ops = Ops::none();
    for op in [Op::Sum, Op::Least, Op::Greatest] {
        if ops.len() < 4 {
            ops.push(op);
        }
    }
    ops
}

#[test]
fn operators_are_a_list(rt: HostRuntime) -> Result<(), Fail> {
    let ops = three_ops();
    equal(&rt, ops.len(), 3);
    equal(&rt, ops.get(2), Some(Op::Greatest));
    equal(&rt, ops.get(3), None);
    assert!(rt; ops.as_slice() == [Op::Sum, Op::Least, Op::Greatest].as_slice());
    assert!(rt; ops == three_ops());
    Ok(())
}

/// A task sends 3 twice; another signals, and sends 3 after that; the first signals, passes and
/// looks.
const VALUES: [Event; 9] = [
    Event::Make(0, Mode::SigWait),
    Event::Reg(0, 1, Mode::Sig),
    Event::Send(0, 0, 3),
    Event::Send(0, 0, 3),
    Event::Sig(1, None),
    Event::Send(1, 0, 3),
    Event::Sig(0, None),
    Event::Pass(0),
    Event::Look(0, 0, Look::Value(6)),
];

/// The history is of nine events, with three operators, and explained.
fn is_of_values(rt: &impl Abort, history: &History) {
    equal(rt, history.len(), 9);
    equal(rt, history.events().len(), 9);
    equal(rt, history.ops().len(), 3);
    equal(rt, explain(history), Ok(()));
}

#[test]
fn values_count_for_the_phase_not_yet_signalled(rt: HostRuntime) -> Result<(), Fail> {
    const FOLDS: [((u8, u32), Option<Look>); 4] = [
        ((0, 0), Some(Look::Value(6))),
        ((0, 1), Some(Look::Value(3))),
        ((1, 0), Some(Look::Nothing)),
        ((3, 0), None),
    ];
    let history = history_of(rt.alloc(), 100, three_ops(), VALUES.as_slice())?;
    is_of_values(&rt, &history);
    for ((accumulator, phase), expected) in FOLDS {
        equal_at(
            &rt,
            ("phase", phase),
            fold(&history, accumulator, phase),
            expected,
        );
    }
    Ok(())
}

/// How far the tasks of VALUES have come, and which phases are closed.
fn tasks_stand(rt: &impl Abort, history: &History) {
    assert!(rt; live(history, 1));
    assert!(rt; !live(history, 2));
    equal(rt, signals(history, 0), 1);
    equal(rt, waits(history, 0), 1);
    equal(rt, waits(history, 1), 0);
    assert!(rt; closed(history, 0));
    assert!(rt; !closed(history, 1));
}

/// Each event may follow the history, or may not.
fn allows(rt: &impl Abort, history: &History, rows: &[(Event, bool)]) {
    for (event, may_follow) in rows {
        equal_at(rt, event, allowed(history, *event), *may_follow);
    }
}

#[test]
fn tasks_come_this_far(rt: HostRuntime) -> Result<(), Fail> {
    const NEXT: [(Event, bool); 3] = [
        (Event::Pass(1), true),
        (Event::Pass(0), false),
        (Event::Drop(1), true),
    ];
    let history = history_of(rt.alloc(), 100, three_ops(), VALUES.as_slice())?;
    tasks_stand(&rt, &history);
    allows(&rt, &history, NEXT.as_slice());
    Ok(())
}

/// Of phase 0: the number that was proposed, and whether it is claimed and done.
fn single_stands(rt: &impl Abort, history: &History, is_claimed: bool, is_done: bool) {
    equal(rt, proposed(history, 0), Some(7));
    equal(rt, claimed(history, 0), is_claimed);
    equal(rt, did(history, 0), is_done);
    assert!(rt; !did(history, 1));
}

#[test]
fn single_is_proposed(rt: HostRuntime) -> Result<(), Fail> {
    const EVENTS: [Event; 2] = [Event::Make(0, Mode::Single), Event::Sig(0, Some(7))];
    const NEXT: [(Event, bool); 2] = [(Event::Claim(0), true), (Event::Pass(0), false)];
    let history = history_of(rt.alloc(), 100, Ops::none(), EVENTS.as_slice())?;
    single_stands(&rt, &history, false, false);
    allows(&rt, &history, NEXT.as_slice());
    Ok(())
}

#[test]
fn single_is_claimed_and_done(rt: HostRuntime) -> Result<(), Fail> {
    const EVENTS: [Event; 4] = [
        Event::Make(0, Mode::Single),
        Event::Sig(0, Some(7)),
        Event::Claim(0),
        Event::Did(0),
    ];
    const NEXT: [(Event, bool); 1] = [(Event::Pass(0), true)];
    let history = history_of(rt.alloc(), 100, Ops::none(), EVENTS.as_slice())?;
    single_stands(&rt, &history, true, true);
    allows(&rt, &history, NEXT.as_slice());
    Ok(())
}

#[test]
fn first_fault_is_found(rt: HostRuntime) -> Result<(), Fail> {
    const EVENTS: [Event; 5] = [
        Event::Make(0, Mode::SigWait),
        Event::Sig(0, None),
        Event::Pass(0),
        Event::Pass(0),
        Event::Drop(9),
    ];
    let history = history_of(rt.alloc(), 100, Ops::none(), EVENTS.as_slice())?;
    equal(&rt, explain(&history), Err(Refusal::NotExplained(4)));
    Ok(())
}

#[test]
fn last_places_are_for_drops(rt: HostRuntime) -> Result<(), Fail> {
    const EVENTS: [Event; 3] = [
        Event::Make(0, Mode::SigWait),
        Event::Sig(0, None),
        Event::Pass(0),
    ];
    const NEXT: [(Event, bool); 2] = [(Event::Sig(0, None), false), (Event::Drop(0), true)];
    let history = history_of(rt.alloc(), 4, Ops::none(), EVENTS.as_slice())?;
    equal(&rt, history.limits().history, 4);
    allows(&rt, &history, NEXT.as_slice());
    Ok(())
}

#[test]
fn operators_have_names(rt: HostRuntime) -> Result<(), Fail> {
    const NAMES: [(Op, &str); 3] = [
        (Op::Sum, "sum"),
        (Op::Least, "least"),
        (Op::Greatest, "greatest"),
    ];
    for (op, name) in NAMES {
        assert!(rt; op.name() == name);
        equal(&rt, Op::of_name(name), Some(op));
    }
    equal(&rt, Op::of_name("Sum"), None);
    Ok(())
}

#[test]
fn replies_are_printed(rt: HostRuntime) -> Result<(), Fail> {
    const LINES: [(Reply, &str); 7] = [
        (Reply::Done, "ok"),
        (Reply::Phase(3), "ok phase 3"),
        (Reply::Claim(4_294_967_295), "claim 4294967295"),
        (Reply::Saw(Look::Value(-4)), "value -4"),
        (Reply::Saw(Look::Nothing), "none"),
        (Reply::NotYet, "not yet"),
        (
            Reply::Refused(Refusal::NoAccumulator),
            "refused 9 NoAccumulator",
        ),
    ];
    for (reply, line) in LINES {
        let printed = reply.to_string(rt.alloc())?;
        equal(&rt, printed.as_str(), line);
    }
    Ok(())
}

#[test]
fn values_weigh_upwards_or_downwards(rt: HostRuntime) -> Result<(), Fail> {
    equal(&rt, (up_of(5), down_of(5)), (5, 0));
    equal(&rt, (up_of(0), down_of(0)), (0, 0));
    equal(&rt, (up_of(-5), down_of(-5)), (0, 5));
    equal(&rt, down_of(i32::MIN), 2_147_483_648);
    Ok(())
}
