//! Those who wait at a phaser that lives long: on one cell a waiter whom the last signal wakes, a
//! signaller whom a pass wakes, and one whom a task wakes that leaves; and each call of its lock.
ghost use Rattle.std.specs.Prelude.{◌≡◌, [], Some};

use crate::asserted::{equal, equal_at};
use long_locks::{Front, LongCell, LongLock, Naming, Out, PassAnswer, SignalAnswer};
use phase_model::{Bound, Look, Op, Ops};
use phase_modes::{Mode, Refusal};
use phaser_core::{LongTask, Phase};
use std::alloc::Global;
use std::marker::Brand;
use std::process::Abort;
use std::sync::Wait;
use std::test::Fail;
use told_history::{LongEvent, Whole};

/// What a call is answered. The items are told apart by their numbers.
#[derive(Clone, Copy, Debug, PartialEq, Eq)]
enum Answer {
    Signalled(u32),
    Passed(u32, Phase),
    Claimed(u32, u32),
    Left,
    Parked,
    Refused(u32, Refusal),
}

/// A call of a task. To a signal and to a pass it brings an item.
#[derive(Clone, Copy, Debug, PartialEq, Eq)]
enum Call {
    Signal(LongTask, u32),
    Pass(LongTask, u32),
    Leave(LongTask),
}

/// A call, what it is answered, and the item of whom it wakes.
type Row = (Call, Answer, Option<u32>);

fn of_pass(answer: PassAnswer<u32, Phase>) -> Answer {
    match answer {
        PassAnswer::Passed(item, phase) => Answer::Passed(item, phase),
        PassAnswer::Claimed(item, number) => Answer::Claimed(item, number),
        PassAnswer::Parked => Answer::Parked,
        PassAnswer::Refused(item, refusal) => Answer::Refused(item, refusal),
    }
}

fn of_signal(answer: SignalAnswer<u32>) -> Answer {
    match answer {
        SignalAnswer::Signalled(item) => Answer::Signalled(item),
        SignalAnswer::Parked => Answer::Parked,
        SignalAnswer::Refused(item, refusal) => Answer::Refused(item, refusal),
    }
}

/// Makes the call. Returns the item of whom it wakes too.
fn answer_to(
    alloc: Global,
    cell: &mut LongCell<u32>,
    call: Call,
) -> Result<(Answer, Option<u32>), Refusal> {
    let mut out = Out::new(alloc)?;
    let answer = match call {
        Call::Signal(task, item) => of_signal(cell.signal(&mut out, task, None, item)),
        Call::Pass(task, item) => of_pass(cell.pass(&mut out, task, item)),
        Call::Leave(task) => {
            cell.leave(&mut out, task)?;
            Answer::Left
        }
    };
    Ok((answer, out.take()))
}

/// The calls are answered so, one after the other.
fn are_answered(
    rt: &impl Abort,
    alloc: Global,
    cell: &mut LongCell<u32>,
    rows: &[Row],
) -> Result<(), Fail> {
    for (call, answer, woken) in rows {
        equal_at(rt, *call, answer_to(alloc, cell, *call)?, (*answer, *woken));
    }
    Ok(())
}

/// A phaser with this bound, made by task 0, who signals and waits.
fn made(rt: &impl Abort, alloc: Global, bound: u32) -> Result<LongCell<u32>, Refusal> {
    let bound = Bound::of(bound).ok_or(Refusal::NotNow)?;
    let mut cell = LongCell::new(alloc, Ops::none(), bound)?;
    equal(rt, cell.make(Mode::SigWait), Ok(0));
    Ok(cell)
}

/// Task 0 waits for the signal of task 1. While it is parked it has its second item back.
#[test]
fn waiter_wakes(rt: HostRuntime) -> Result<(), Fail> {
    const ROWS: [Row; 6] = [
        (Call::Signal(0, 10), Answer::Signalled(10), None),
        (Call::Pass(0, 11), Answer::Parked, None),
        (
            Call::Pass(0, 12),
            Answer::Refused(12, Refusal::NotNow),
            None,
        ),
        (Call::Signal(1, 20), Answer::Signalled(20), Some(11)),
        (Call::Pass(0, 13), Answer::Passed(13, 0), None),
        (Call::Pass(1, 21), Answer::Passed(21, 0), None),
    ];
    let mut cell = made(&rt, rt.alloc(), 2)?;
    equal(&rt, cell.register(0, Mode::SigWait), Ok(1));
    are_answered(&rt, rt.alloc(), &mut cell, &ROWS)
}

/// A bound of 1: task 1, who only signals, is held until task 2, who only waits, has passed.
#[test]
fn signaller_wakes(rt: HostRuntime) -> Result<(), Fail> {
    const ROWS: [Row; 6] = [
        (Call::Leave(0), Answer::Left, None),
        (Call::Signal(1, 10), Answer::Signalled(10), None),
        (Call::Pass(1, 11), Answer::Passed(11, 0), None),
        (Call::Signal(1, 12), Answer::Parked, None),
        (Call::Pass(2, 20), Answer::Passed(20, 0), Some(12)),
        (Call::Signal(1, 13), Answer::Signalled(13), None),
    ];
    let mut cell = made(&rt, rt.alloc(), 1)?;
    equal(&rt, cell.register(0, Mode::Sig), Ok(1));
    equal(&rt, cell.register(0, Mode::Wait), Ok(2));
    are_answered(&rt, rt.alloc(), &mut cell, &ROWS)
}

/// A bound of 1: task 0 is held by task 1, who only waits, and goes on once that one has left.
#[test]
fn leaving_wakes(rt: HostRuntime) -> Result<(), Fail> {
    const ROWS: [Row; 5] = [
        (Call::Signal(0, 10), Answer::Signalled(10), None),
        (Call::Pass(0, 11), Answer::Passed(11, 0), None),
        (Call::Signal(0, 12), Answer::Parked, None),
        (Call::Leave(1), Answer::Left, Some(12)),
        (Call::Signal(0, 13), Answer::Signalled(13), None),
    ];
    let mut cell = made(&rt, rt.alloc(), 1)?;
    equal(&rt, cell.register(0, Mode::Wait), Ok(1));
    are_answered(&rt, rt.alloc(), &mut cell, &ROWS)
}

/// Task 0 makes the phaser, and registers task 1, which leaves.
fn registered<J: Naming, R: Abort + Wait>(
    rt: &R,
    alloc: Global,
    lock: &LongLock<J, u32>,
    me: &mut Front<J>,
) -> Result<(), Refusal> {
    equal(rt, lock.lock(rt).make(me, Mode::Single), Ok(0));
    equal(rt, lock.lock(rt).register(me, 0, Mode::SigWait), Ok(1));
    equal(
        rt,
        lock.lock(rt).leave(me, &mut Out::new(alloc)?, 1),
        Ok(()),
    );
    Ok(())
}

/// Task 0 signals, and proposes the single of this number.
fn proposed<J: Naming, R: Abort + Wait>(
    rt: &R,
    alloc: Global,
    lock: &LongLock<J, u32>,
    me: &mut Front<J>,
    number: u32,
) -> Result<Answer, Refusal> {
    let mut out = Out::new(alloc)?;
    Ok(of_signal(lock.lock(rt).signal(me, &mut out, 0, Some(number), 10)))
}

/// Task 0 asks to pass, with this item.
fn passed<J: Naming, R: Abort + Wait>(
    rt: &R,
    alloc: Global,
    lock: &LongLock<J, u32>,
    me: &mut Front<J>,
    item: u32,
) -> Result<Answer, Refusal> {
    let mut out = Out::new(alloc)?;
    Ok(of_pass(lock.lock(rt).pass(me, &mut out, 0, item)))
}

/// Task 0 reports the single done.
fn reported<J: Naming, R: Abort + Wait>(
    rt: &R,
    alloc: Global,
    lock: &LongLock<J, u32>,
    me: &mut Front<J>,
) -> Result<(), Refusal> {
    let mut out = Out::new(alloc)?;
    lock.lock(rt).single_done(me, &mut out, 0)
}

/// At a new phaser with one sum task 0 sends 7 and proposes the single of number 3; it claims that,
/// reports it done, ends its turn, and sees the sum.
fn calls<J: Naming, R: Abort + Wait>(
    rt: &R,
    alloc: Global,
    ops: Ops,
    bound: Bound,
    whole: Whole<LongEvent>,
) -> Result<(), Refusal>
    requires name { whole.name ≡ J.log }
    requires empty { whole.items ≡ [] }
    requires terms { J.terms ≡ record { ops = ops; bound = Some bound } }
{
    let (lock, front) = LongLock::<J, u32>::new(alloc, ops, bound, whole)?;
    let mut me = front;
    registered(rt, alloc, &lock, &mut me)?;
    equal(rt, lock.lock(rt).send(&mut me, 0, 0, 7), Ok(()));
    let signalled = proposed(rt, alloc, &lock, &mut me, 3)?;
    equal(rt, signalled, Answer::Signalled(10));
    let claimed = passed(rt, alloc, &lock, &mut me, 11)?;
    equal(rt, claimed, Answer::Claimed(11, 3));
    reported(rt, alloc, &lock, &mut me)?;
    let gone = passed(rt, alloc, &lock, &mut me, 12)?;
    equal(rt, gone, Answer::Passed(12, 0));
    equal(rt, lock.lock(rt).look(&mut me, 0, 0), Ok(Look::Value(7)));
    equal(rt, lock.lock(rt).cell.parked.len(), 0);
    Ok(())
}

/// Each call of the lock.
#[test]
fn locked_calls(rt: HostRuntime) -> Result<(), Fail> {
    let mut one_sum = Ops::none();
    one_sum.push(Op::Sum);
    let bound = Bound::of(2).ok_or(Refusal::NotNow)?;
    calls::<Brand, HostRuntime>(&rt, rt.alloc(), one_sum, bound, Whole::new())?;
    Ok(())
}
