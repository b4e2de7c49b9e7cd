//! Each call of a lock that gives receipts: two tasks send, propose a single, end their turn, look
//! and leave.
ghost use Rattle.std.specs.Prelude.{◌≡◌, [], Some};

use crate::asserted::equal;
use long_locks::{Front, LongLock, Naming, Out, PassAnswer, SignalAnswer};
use phase_model::{Bound, Look, Op, Ops};
use phase_modes::{Mode, Refusal};
use phaser_core::{LongTask, Phase};
use std::alloc::Global;
use std::marker::Brand;
use std::process::Abort;
use std::sync::Wait;
use std::test::Fail;
use told_history::{LongEvent, Whole};

/// How a pass or a signal ended. The items are told apart by their numbers.
#[derive(Clone, Copy, Debug, PartialEq, Eq)]
enum Ended {
    Signalled(u32),
    Passed(u32, Phase),
    Claimed(u32, u32),
    Parked,
    Refused(u32, Refusal),
}

/// The single that both propose.
const SINGLE: u32 = 5;

/// The task signals, with this item. The item of whom this wakes too.
fn signal<J: Naming, R: Wait>(
    rt: &R,
    alloc: Global,
    lock: &LongLock<J, u32>,
    me: &mut Front<J>,
    task: LongTask,
    item: u32,
) -> Result<(Ended, Option<u32>), Refusal> {
    let mut out = Out::new(alloc)?;
    let ended = match lock.lock(rt).signal(me, &mut out, task, Some(SINGLE), item) {
        SignalAnswer::Signalled(item) => Ended::Signalled(item),
        SignalAnswer::Parked => Ended::Parked,
        SignalAnswer::Refused(item, refusal) => Ended::Refused(item, refusal),
    };
    Ok((ended, out.take()))
}

/// The task asks to pass, with this item.
fn pass<J: Naming, R: Wait>(
    rt: &R,
    alloc: Global,
    lock: &LongLock<J, u32>,
    me: &mut Front<J>,
    task: LongTask,
    item: u32,
) -> Result<Ended, Refusal> {
    let mut out = Out::new(alloc)?;
    match lock.lock(rt).pass(me, &mut out, task, item) {
        PassAnswer::Passed(item, phase) => Ok(Ended::Passed(item, phase)),
        PassAnswer::Claimed(item, number) => Ok(Ended::Claimed(item, number)),
        PassAnswer::Parked => Ok(Ended::Parked),
        PassAnswer::Refused(item, refusal) => Ok(Ended::Refused(item, refusal)),
    }
}

/// The task reports its single done. The item of whom this wakes.
fn single_done<J: Naming, R: Wait>(
    rt: &R,
    alloc: Global,
    lock: &LongLock<J, u32>,
    me: &mut Front<J>,
    task: LongTask,
) -> Result<Option<u32>, Refusal> {
    let mut out = Out::new(alloc)?;
    lock.lock(rt).single_done(me, &mut out, task)?;
    Ok(out.take())
}

fn leave<J: Naming, R: Wait>(
    rt: &R,
    alloc: Global,
    lock: &LongLock<J, u32>,
    me: &mut Front<J>,
    task: LongTask,
) -> Result<(), Refusal> {
    let mut out = Out::new(alloc)?;
    lock.lock(rt).leave(me, &mut out, task)
}

/// The calls on a new phaser with one sum: how many events they are.
fn calls<J: Naming, R: Wait + Abort>(
    rt: &R,
    alloc: Global,
    ops: Ops,
    bound: Bound,
    whole: Whole<LongEvent>,
) -> Result<u64, Refusal>
    requires name { whole.name ≡ J.log }
    requires empty { whole.items ≡ [] }
    requires terms { J.terms ≡ record { ops = ops; bound = Some bound } }
{
    let (lock, front) = LongLock::<J, u32>::new(alloc, ops, bound, whole)?;
    let mut me = front;
    equal(rt, lock.lock(rt).make(&mut me, Mode::Single), Ok(0));
    equal(rt, lock.lock(rt).register(&mut me, 0, Mode::Single), Ok(1));
    equal(rt, lock.lock(rt).send(&mut me, 0, 0, 3), Ok(()));
    equal(rt, lock.lock(rt).send(&mut me, 1, 0, 4), Ok(()));
    equal(
        rt,
        signal(rt, alloc, &lock, &mut me, 0, 10)?,
        (Ended::Signalled(10), None),
    );
    equal(rt, pass(rt, alloc, &lock, &mut me, 0, 11)?, Ended::Parked);
    equal(
        rt,
        signal(rt, alloc, &lock, &mut me, 1, 20)?,
        (Ended::Signalled(20), Some(11)),
    );
    equal(
        rt,
        pass(rt, alloc, &lock, &mut me, 0, 12)?,
        Ended::Claimed(12, SINGLE),
    );
    equal(rt, pass(rt, alloc, &lock, &mut me, 1, 21)?, Ended::Parked);
    equal(rt, single_done(rt, alloc, &lock, &mut me, 0)?, Some(21));
    equal(
        rt,
        pass(rt, alloc, &lock, &mut me, 0, 13)?,
        Ended::Passed(13, 0),
    );
    equal(
        rt,
        pass(rt, alloc, &lock, &mut me, 1, 22)?,
        Ended::Passed(22, 0),
    );
    equal(rt, lock.lock(rt).look(&mut me, 0, 0), Ok(Look::Value(7)));
    equal(rt, lock.lock(rt).look(&mut me, 1, 0), Ok(Look::Value(7)));
    leave(rt, alloc, &lock, &mut me, 0)?;
    leave(rt, alloc, &lock, &mut me, 1)?;
    Ok(lock.into_cell().cell.state.history().len())
}

/// Two registrations, two values, two signals, a claim, its report, two passes, two looks, and both
/// leave.
#[test]
fn each_call_of_the_lock(rt: HostRuntime) -> Result<(), Fail> {
    let mut one_sum = Ops::none();
    one_sum.push(Op::Sum);
    let bound = Bound::of(2).ok_or(Refusal::NotNow)?;
    let events = calls::<Brand, HostRuntime>(&rt, rt.alloc(), one_sum, bound, Whole::new())?;
    equal(&rt, events, 14);
    Ok(())
}
