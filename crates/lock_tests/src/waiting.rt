//! Those who wait at a phaser whose cell makes their calls: a barrier, a producer whom the bound
//! holds, a single that a freed task claims, and tasks that leave. Each is a table of calls.
ghost use Rattle.std.specs.Prelude.{◌≡◌, []};

use crate::asserted::equal;
use long_locks::{AskAnswer, Ended, Freed, FreedList, LongCell, Out, Parked, ParkedCall, Then};
use phase_model::{Bound, Look, Op, Ops};
use phase_modes::{Mode, Refusal};
use phaser_core::LongTask;
use std::alloc::Global;
use std::process::Abort;
use std::test::Fail;

#[derive(Clone, Copy)]
enum Act {
    /// Task 0 registers one more.
    Register(Mode),
    Signal(LongTask),
    Pass(LongTask),
    Next(LongTask, Option<u32>),
    Done(LongTask),
    Leave(LongTask),
}

/// What a call answers, if it has an answer, and the first two whom it frees.
type Heard = (Option<AskAnswer>, Option<Freed>, Option<Freed>);

const QUIET: Heard = (None, None, None);

const PARKED: Heard = (Some(AskAnswer::Parked), None, None);

const NOT_NOW: Heard = (
    Some(AskAnswer::Ended(Ended::Refused(Refusal::NotNow))),
    None,
    None,
);

const SIGNALLED: Heard = (Some(AskAnswer::Ended(Ended::Signalled)), None, None);

const PASSED_0: Heard = (Some(AskAnswer::Ended(Ended::Passed(0))), None, None);

const PASSED_1: Heard = (Some(AskAnswer::Ended(Ended::Passed(1))), None, None);

/// The task makes its call.
fn ask(
    cell: &mut LongCell<Then>,
    freed: &mut FreedList,
    task: LongTask,
    call: ParkedCall,
    item: Then,
) -> AskAnswer
    requires { freed.old ≡ [] }
{
    cell.ask(freed, Parked { task, call, item })
}

/// The call of this row, whose list of freed tasks is empty.
fn answered(
    cell: &mut LongCell<Then>,
    freed: &mut FreedList,
    act: Act,
) -> Result<Option<AskAnswer>, Refusal>
    requires { freed.old ≡ [] }
{
    match act {
        Act::Register(mode) => {
            let _child = cell.register(0, mode)?;
            Ok(None)
        }
        Act::Signal(task) => {
            let call = ParkedCall::Signal(None);
            Ok(Some(ask(cell, freed, task, call, Then::Return)))
        }
        Act::Pass(task) => Ok(Some(ask(cell, freed, task, ParkedCall::Pass, Then::Return))),
        Act::Next(task, number) => {
            let call = ParkedCall::Signal(number);
            Ok(Some(ask(cell, freed, task, call, Then::Pass)))
        }
        Act::Done(task) => {
            cell.single_done_telling(freed, task)?;
            Ok(None)
        }
        Act::Leave(task) => {
            cell.leave_telling(freed, task)?;
            Ok(None)
        }
    }
}

fn heard(alloc: Global, cell: &mut LongCell<Then>, act: Act) -> Result<Heard, Refusal> {
    let mut freed = Out::new(alloc)?;
    let answer = answered(cell, &mut freed, act)?;
    Ok((answer, freed.take(), freed.take()))
}

/// A phaser with this bound, made by task 0 in this mode, on which the calls are made.
fn run(
    rt: &impl Abort,
    alloc: Global,
    bound: u32,
    mode: Mode,
    rows: &[(Act, Heard)],
) -> Result<(), Refusal> {
    let bound = Bound::of(bound).ok_or(Refusal::NotNow)?;
    let mut cell = LongCell::new(alloc, Ops::none(), bound)?;
    equal(rt, cell.make(mode), Ok(0));
    for (act, want) in rows {
        equal(rt, heard(alloc, &mut cell, *act)?, *want);
    }
    Ok(())
}

/// The last of three frees the two others. Whom it didn't free yet may call nothing else.
const BARRIER: [(Act, Heard); 7] = [
    (Act::Register(Mode::SigWait), QUIET),
    (Act::Register(Mode::SigWait), QUIET),
    (Act::Next(0, None), PARKED),
    (Act::Next(1, None), PARKED),
    (Act::Pass(0), NOT_NOW),
    (
        Act::Next(2, None),
        (
            Some(AskAnswer::Ended(Ended::Passed(0))),
            Some(Freed {
                task: 0,
                ended: Ended::Passed(0),
            }),
            Some(Freed {
                task: 1,
                ended: Ended::Passed(0),
            }),
        ),
    ),
    (Act::Next(1, None), PARKED),
];

/// A bound of 1: task 1, who only signals, is held until task 2, who only waits, has passed: first
/// its signal alone, and then the whole of its turn.
const PRODUCER: [(Act, Heard); 9] = [
    (Act::Register(Mode::Sig), QUIET),
    (Act::Register(Mode::Wait), QUIET),
    (Act::Leave(0), QUIET),
    (Act::Next(1, None), PASSED_0),
    (Act::Signal(1), PARKED),
    (
        Act::Pass(2),
        (
            Some(AskAnswer::Ended(Ended::Passed(0))),
            Some(Freed {
                task: 1,
                ended: Ended::Signalled,
            }),
            None,
        ),
    ),
    (Act::Pass(1), PASSED_1),
    (Act::Next(1, None), PARKED),
    (
        Act::Pass(2),
        (
            Some(AskAnswer::Ended(Ended::Passed(1))),
            Some(Freed {
                task: 1,
                ended: Ended::Passed(2),
            }),
            None,
        ),
    ),
];

/// Task 0 proposes the single of number 3 and waits. The signal of task 1 frees it, with the claim;
/// task 1 waits until it is done.
const SINGLE: [(Act, Heard); 5] = [
    (Act::Register(Mode::SigWait), QUIET),
    (Act::Next(0, Some(3)), PARKED),
    (
        Act::Next(1, None),
        (
            Some(AskAnswer::Parked),
            Some(Freed {
                task: 0,
                ended: Ended::Claimed(3),
            }),
            None,
        ),
    ),
    (
        Act::Done(0),
        (
            None,
            Some(Freed {
                task: 1,
                ended: Ended::Passed(0),
            }),
            None,
        ),
    ),
    (Act::Pass(0), PASSED_0),
];

/// Task 1 leaves, and frees task 0, who waited for its signal. Task 0 waits for task 2 then, and
/// leaves while it does.
const LEAVING: [(Act, Heard); 6] = [
    (Act::Register(Mode::SigWait), QUIET),
    (Act::Next(0, None), PARKED),
    (
        Act::Leave(1),
        (
            None,
            Some(Freed {
                task: 0,
                ended: Ended::Passed(0),
            }),
            None,
        ),
    ),
    (Act::Register(Mode::SigWait), QUIET),
    (Act::Next(0, None), PARKED),
    (
        Act::Leave(0),
        (
            None,
            Some(Freed {
                task: 0,
                ended: Ended::Refused(Refusal::NotRegistered),
            }),
            None,
        ),
    ),
];

#[test]
fn barrier_of_three(rt: HostRuntime) -> Result<(), Fail> {
    run(&rt, rt.alloc(), 2, Mode::SigWait, &BARRIER)?;
    Ok(())
}

#[test]
fn held_producer(rt: HostRuntime) -> Result<(), Fail> {
    run(&rt, rt.alloc(), 1, Mode::SigWait, &PRODUCER)?;
    Ok(())
}

#[test]
fn claimed_single(rt: HostRuntime) -> Result<(), Fail> {
    run(&rt, rt.alloc(), 2, Mode::Single, &SINGLE)?;
    Ok(())
}

#[test]
fn leaving_frees(rt: HostRuntime) -> Result<(), Fail> {
    run(&rt, rt.alloc(), 2, Mode::SigWait, &LEAVING)?;
    Ok(())
}

/// Task 0, alone at a phaser with one sum, sends 7, signals, and sees the sum in its next phase.
#[test]
fn sum_seen(rt: HostRuntime) -> Result<(), Fail> {
    let alloc = rt.alloc();
    let mut ops = Ops::none();
    ops.push(Op::Sum);
    let bound = Bound::of(2).ok_or(Refusal::NotNow)?;
    let mut cell = LongCell::new(alloc, ops, bound)?;
    equal(&rt, cell.make(Mode::SigWait), Ok(0));
    equal(&rt, cell.send(0, 0, 7), Ok(()));
    equal(&rt, heard(alloc, &mut cell, Act::Signal(0))?, SIGNALLED);
    equal(&rt, heard(alloc, &mut cell, Act::Pass(0))?, PASSED_0);
    equal(&rt, cell.look(0, 0), Ok(Look::Value(7)));
    Ok(())
}
