//! Worked examples of limits and of refused acts: each event with its reply.
use super::Places::*;
use super::Row::*;
use super::TableEvent::*;
use super::*;

/// Hands the rows to a fresh world with these limits.
fn plays(rt: &impl Abort, alloc: Global, limits: Limits, rows: &[Row]) -> Result<(), Refusal> {
    let _world = play(rt, alloc, limits, &[rows])?;
    Ok(())
}

/// Limits that the root meets: of acts, tasks, finishes and phasers.
#[test]
fn limits_of_the_root(rt: HostRuntime) -> Result<(), Refusal> {
    const ACTS: [Row; 5] = [
        Done(Begin(0, Begun::Next)),
        Done(Begin(0, Begun::Next)),
        Refused(Begin(0, Begun::Next), Refusal::ActsFull),
        Done(Refuse(0, Tried::Begun(Begun::Next), 19)),
        Done(Within(0, FinishEvent::Shut)),
    ];
    const TASKS: [Row; 3] = [
        Refused(Spawn(0, 1, Nowhere), Refusal::TasksFull),
        Done(RefuseSpawn(0, 1, Nowhere, 17)),
        Done(Within(0, FinishEvent::Shut)),
    ];
    const FINISHES: [Row; 3] = [
        Refused(Within(1, FinishEvent::Opened(0)), Refusal::FinishesFull),
        Done(Refuse(0, Tried::Open(1), 18)),
        Done(Within(0, FinishEvent::Shut)),
    ];
    const PHASERS: [Row; 5] = [
        Done(Make(0, 0, Mode::Sig)),
        Refused(Make(1, 0, Mode::Sig), Refusal::PhasersFull),
        Done(RefuseMake(0, 1, Mode::Sig, 16)),
        Done(On(0, Step::Drop(0))),
        Done(Within(0, FinishEvent::Shut)),
    ];
    let mut limits = Limits::default();
    limits.acts = 2;
    plays(&rt, rt.alloc(), limits, &ACTS)?;
    let mut limits = Limits::default();
    limits.tasks = 1;
    plays(&rt, rt.alloc(), limits, &TASKS)?;
    let mut limits = Limits::default();
    limits.finishes = 1;
    plays(&rt, rt.alloc(), limits, &FINISHES)?;
    let mut limits = Limits::default();
    limits.phasers = 1;
    plays(&rt, rt.alloc(), limits, &PHASERS)
}

/// Acts that the root is refused: an end inside an open finish, a shut of none, a single without a
/// phaser, a value for a phaser that isn't there.
#[test]
fn refused_acts_of_the_root(rt: HostRuntime) -> Result<(), Refusal> {
    const END: [Row; 5] = [
        Done(Within(1, FinishEvent::Opened(0))),
        Refused(Begin(0, Begun::End), Refusal::FinishOpen),
        Done(Refuse(0, Tried::Begun(Begun::End), 20)),
        Done(Within(1, FinishEvent::Shut)),
        Done(Within(0, FinishEvent::Shut)),
    ];
    const SHUT: [Row; 3] = [
        Refused(Begin(0, Begun::Shut), Refusal::NoFinish),
        Done(Refuse(0, Tried::Begun(Begun::Shut), 21)),
        Done(Within(0, FinishEvent::Shut)),
    ];
    const SINGLE: [Row; 3] = [
        Refused(Begin(0, Begun::NextSingle(1)), Refusal::OnePhaserOnly),
        Done(Refuse(0, Tried::Begun(Begun::NextSingle(1)), 8)),
        Done(Within(0, FinishEvent::Shut)),
    ];
    const SEND: [Row; 3] = [
        Refused(On(u32::MAX, Step::Send(0, 0, 1)), Refusal::NotRegistered),
        Done(Refuse(0, Tried::Send(u32::MAX, 0, 1), 1)),
        Done(Within(0, FinishEvent::Shut)),
    ];
    for rows in [&END[..], &SHUT[..], &SINGLE[..], &SEND[..]] {
        plays(&rt, rt.alloc(), Limits::default(), rows)?;
    }
    Ok(())
}

/// A spawn that fails halfway: the child that was never spawned leaves its phaser first.
#[test]
fn unborn_child_dropped(rt: HostRuntime) -> Result<(), Refusal> {
    const ROWS: [Row; 23] = [
        Done(Make(0, 0, Mode::SigWait)),
        Done(Make(1, 0, Mode::SigWait)),
        Done(Spawn(0, 1, At(1, Mode::Wait))),
        Done(On(1, Step::Reg(0, 1, Mode::Wait))),
        Done(Within(0, FinishEvent::Spawned(1))),
        Done(Spawn(0, 2, AtTwo((0, Mode::Sig), (1, Mode::Sig)))),
        Done(On(0, Step::Reg(0, 2, Mode::Sig))),
        Refused(On(1, Step::Reg(0, 2, Mode::Sig)), Refusal::RegsFull),
        Done(Fail(0, 14)),
        Refused(On(0, Step::Drop(0)), Refusal::NotNow),
        Done(On(0, Step::Drop(2))),
        Done(On(0, Step::Drop(0))),
        Done(Begin(1, Begun::Next)),
        NotYet(On(1, Step::Pass(1))),
        Done(On(1, Step::Drop(0))),
        NotYet(Within(0, FinishEvent::Shut)),
        Passed(1, 1, 0),
        Done(Begin(1, Begun::End)),
        Done(On(1, Step::Drop(1))),
        Done(Within(0, FinishEvent::Ended(1))),
        Done(Within(0, FinishEvent::Shut)),
        Is(2, None),
        Named(2, true),
    ];
    let two_regs = Limits {
        regs: 2,
        ..Limits::default()
    };
    plays(&rt, rt.alloc(), two_regs, &ROWS)
}

/// A history that is full in the middle of a turn: what the turn had already made stays.
#[test]
fn history_full_in_next(rt: HostRuntime) -> Result<(), Refusal> {
    const ROWS: [Row; 17] = [
        Done(Make(0, 0, Mode::SigWait)),
        Done(MakeSum(1, 0, Mode::SigWait)),
        Done(On(1, Step::Send(0, 0, 7))),
        Done(Begin(0, Begun::Next)),
        Done(On(0, Step::Sig(0, None))),
        Done(On(1, Step::Sig(0, None))),
        Passed(0, 0, 0),
        Passed(1, 0, 0),
        Done(Begin(0, Begun::Next)),
        Done(On(0, Step::Sig(0, None))),
        Refused(On(1, Step::Sig(0, None)), Refusal::HistoryFull),
        Refused(Fail(0, 14), Refusal::NotNow),
        Done(Fail(0, 15)),
        Done(On(0, Step::Drop(0))),
        Done(On(1, Step::Drop(0))),
        Done(Within(0, FinishEvent::Shut)),
        Clock(0, 1),
    ];
    let five_events = Limits {
        history: 5,
        ..Limits::default()
    };
    plays(&rt, rt.alloc(), five_events, &ROWS)
}
