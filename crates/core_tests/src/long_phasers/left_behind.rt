//! Tasks that the others leave far behind, or that are gone.
use super::*;
use crate::asserted::equal;

/// The value of the sum in the phase: 3 for each phase before it and 7 more.
fn sum_of(phase: u32) -> i64 {
    i64::from(phase).saturating_mul(3).saturating_add(7)
}

/// Tasks 0 and 1 send what makes the phase's sum, signal, end their turn, and see it.
fn quick_phase(rt: &impl Abort, phaser: &mut LongPhaser, phase: u32) {
    let change = i32::try_from(phase).unwrap_or(0);
    sends(rt, phaser, 0, change);
    sends(rt, phaser, 1, change.saturating_mul(2).saturating_add(7));
    signals(rt, phaser, 0);
    signals(rt, phaser, 1);
    goes_on(rt, phaser, TaskNumber::of(0), phase, sum_of(phase));
    goes_on(rt, phaser, TaskNumber::of(1), phase, sum_of(phase));
}

/// Tasks 0 and 1, which signal and wait, and task 2, which only waits, where a signaller may be
/// 2,000 phases ahead.
fn with_slow_waiter(rt: &impl Abort, alloc: Global) -> Result<LongPhaser, Refusal> {
    const OTHERS: [Row; 2] = [
        (Call::Register(0, 1, Mode::SigWait), Reply::Done),
        (Call::Register(0, 2, Mode::Wait), Reply::Done),
    ];
    let mut phaser = made(alloc, 1, 2_000)?;
    all_reply(rt, &mut phaser, OTHERS.as_slice());
    Ok(phaser)
}

/// The quick ones go on alone for a thousand phases. The slow one reads 300 of them, and leaves; the
/// quick ones go on, farther than the bound would have let them.
#[test]
fn a_slow_waiter_leaves(rt: HostRuntime) -> Result<(), Fail> {
    let mut phaser = with_slow_waiter(&rt, rt.alloc())?;
    for phase in 0..1_000 {
        quick_phase(&rt, &mut phaser, phase);
    }
    let slow = TaskNumber::of(2);
    for phase in 0..300 {
        goes_on(&rt, &mut phaser, slow, phase, sum_of(phase));
    }
    replies(&rt, &mut phaser, Call::Drop(2), Reply::Done);
    sees(&rt, &mut phaser, 0, sum_of(999));
    sees(&rt, &mut phaser, 1, sum_of(999));
    for phase in 1_000..6_000 {
        quick_phase(&rt, &mut phaser, phase);
    }
    Ok(())
}

/// A slow waiter holds the quick ones if they are 2,000 phases ahead, and not before, until it
/// leaves.
#[test]
fn a_slow_waiter_holds_the_others(rt: HostRuntime) -> Result<(), Fail> {
    const HELD: [Row; 5] = [
        (Call::Signal(0, None), Reply::NotYet),
        (Call::Signal(1, None), Reply::NotYet),
        (Call::Pass(0), Reply::Refused(Refusal::NotSignalled)),
        (Call::Drop(2), Reply::Done),
        (Call::Look(2, 0), Reply::Refused(Refusal::NotRegistered)),
    ];
    let mut phaser = with_slow_waiter(&rt, rt.alloc())?;
    for phase in 0..2_000 {
        quick_phase(&rt, &mut phaser, phase);
    }
    all_reply(&rt, &mut phaser, HELD.as_slice());
    for phase in 2_000..5_000 {
        quick_phase(&rt, &mut phaser, phase);
    }
    Ok(())
}

/// How a task is registered that has ended 10,000 turns.
fn after_ten_thousand(mode: Mode) -> LongReg {
    LongReg {
        mode,
        phase: 10_000,
        ahead: false,
    }
}

/// The signallers send and signal, and end their turn of the phase at once.
fn signallers_go_on(rt: &impl Abort, phaser: &mut LongPhaser, phase: u32) {
    for task in 1..3 {
        sends(rt, phaser, task, 5);
        signals(rt, phaser, task);
        replies(rt, phaser, Call::Pass(task), Reply::Phase(phase));
    }
}

/// Without a waiter nothing holds a signaller, whatever the bound.
#[test]
fn all_waiters_are_gone(rt: HostRuntime) -> Result<(), Fail> {
    const SIGNALLERS: [Row; 3] = [
        (Call::Register(0, 1, Mode::Sig), Reply::Done),
        (Call::Register(0, 2, Mode::Sig), Reply::Done),
        (Call::Drop(0), Reply::Done),
    ];
    let mut phaser = made(rt.alloc(), 1, 1)?;
    all_reply(&rt, &mut phaser, SIGNALLERS.as_slice());
    for phase in 0..10_000 {
        signallers_go_on(&rt, &mut phaser, phase);
    }
    let reg = Some(after_ten_thousand(Mode::Sig));
    equal(&rt, phaser.registration(1), reg);
    equal(&rt, phaser.registration(2), reg);
    assert!(&rt; phaser.closed(9_999));
    assert!(&rt; !phaser.closed(10_000));
    Ok(())
}

/// Two waiters end their turn of the phase, in which nothing was sent.
fn waiters_go_on(rt: &impl Abort, phaser: &mut LongPhaser, phase: u32) {
    for task in 1..3 {
        goes_on(rt, phaser, TaskNumber::of(task), phase, 0);
        replies(rt, phaser, Call::Look(task, 1), Reply::Saw(Look::Nothing));
    }
}

/// Without a signaller each phase is closed. What the last signaller sent still counts for the phase
/// that it never signalled.
#[test]
fn all_signallers_are_gone(rt: HostRuntime) -> Result<(), Fail> {
    const WAITERS: [Row; 8] = [
        (Call::Register(0, 1, Mode::Wait), Reply::Done),
        (Call::Register(0, 2, Mode::Wait), Reply::Done),
        (Call::Send(0, 0, 5), Reply::Done),
        (Call::Drop(0), Reply::Done),
        (Call::Pass(1), Reply::Phase(0)),
        (Call::Look(1, 0), Reply::Saw(Look::Value(5))),
        (Call::Pass(2), Reply::Phase(0)),
        (Call::Look(2, 0), Reply::Saw(Look::Value(5))),
    ];
    let mut phaser = made(rt.alloc(), 2, 1)?;
    all_reply(&rt, &mut phaser, WAITERS.as_slice());
    for phase in 1..10_000 {
        waiters_go_on(&rt, &mut phaser, phase);
    }
    let reg = Some(after_ten_thousand(Mode::Wait));
    equal(&rt, phaser.registration(1), reg);
    equal(&rt, phaser.registration(2), reg);
    Ok(())
}
