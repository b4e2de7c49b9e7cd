//! A phaser that stores no history, called from outside: by the rows of the worked examples, by
//! drawn calls beside a stored phaser, and through lives of thousands of phases.
use crate::asserted::{equal, equal_at};
use crate::drawn::{Dice, without_number};
use phase_model::{Bound, Call, LongLook, LongPassing, Look, Ops, Reply};
use phase_modes::{Limits, LongReg, Mode, Refusal, Reg, TaskNumber};
use phaser_core::{LongPhaser, Passing, PhaserState, Signalling};
use std::alloc::Global;
use std::process::Abort;
use std::test::Fail;
use worked_examples::*;

mod drawing;
mod edges;
mod left_behind;
mod pairs;
mod rows;

/// A phaser that nobody has made yet, with the first so many accumulators; `NotNow` if the bound
/// is none.
fn fresh(alloc: Global, operators: usize, bound: u32) -> Result<LongPhaser, Refusal> {
    let bound = Bound::of(bound).ok_or(Refusal::NotNow)?;
    LongPhaser::new(alloc, first_ops(operators), bound)
}

/// Such a phaser, made by task 0, which signals and waits.
fn made(alloc: Global, operators: usize, bound: u32) -> Result<LongPhaser, Refusal> {
    let mut phaser = fresh(alloc, operators, bound)?;
    phaser.make(Mode::SigWait)?;
    Ok(phaser)
}

/// A number of 64 bits as one of 32; the greatest if they have no room for it.
fn short(number: u64) -> u32 {
    u32::try_from(number).unwrap_or(u32::MAX)
}

/// The reply to a registration, which has to give out this number.
fn given(rt: &impl Abort, number: u32, answer: Result<u64, Refusal>) -> Reply {
    match answer {
        Ok(task) => {
            equal(rt, task, u64::from(number));
            Reply::Done
        }
        Err(refusal) => Reply::Refused(refusal),
    }
}

fn done(answer: Result<(), Refusal>) -> Reply {
    match answer {
        Ok(()) => Reply::Done,
        Err(refusal) => Reply::Refused(refusal),
    }
}

fn signalled(answer: Result<Signalling, Refusal>) -> Reply {
    match answer {
        Ok(Signalling::Signalled) => Reply::Done,
        Ok(Signalling::NotYet) => Reply::NotYet,
        Err(refusal) => Reply::Refused(refusal),
    }
}

fn passed(answer: Result<LongPassing, Refusal>) -> Reply {
    match answer {
        Ok(Passing::Passed(phase)) => Reply::Phase(short(phase)),
        Ok(Passing::Claimed(number)) => Reply::Claim(number),
        Ok(Passing::NotYet) => Reply::NotYet,
        Err(refusal) => Reply::Refused(refusal),
    }
}

fn looked(answer: Result<LongLook, Refusal>) -> Reply {
    match answer {
        Ok(Look::Value(sum)) => Reply::Saw(Look::Value(i64::try_from(sum).unwrap_or(i64::MAX))),
        Ok(Look::Nothing) => Reply::Saw(Look::Nothing),
        Err(refusal) => Reply::Refused(refusal),
    }
}

/// Makes the call, and returns the reply. If a task is registered, the call names the number that
/// it has to be given.
fn reply_of(rt: &impl Abort, phaser: &mut LongPhaser, call: Call) -> Reply {
    match call {
        Call::Make(task, mode) => given(rt, task, phaser.make(mode)),
        Call::Register(parent, child, mode) => given(
            rt,
            child,
            phaser.register(u64::from(parent), mode),
        ),
        Call::Signal(task, number) => signalled(phaser.signal(u64::from(task), number)),
        Call::Pass(task) => passed(phaser.pass(u64::from(task))),
        Call::SingleDone(task) => done(phaser.single_done(u64::from(task))),
        Call::Send(task, accumulator, value) => done(phaser.send(
            u64::from(task),
            accumulator,
            value,
        )),
        Call::Look(task, accumulator) => looked(phaser.look(u64::from(task), accumulator)),
        Call::Drop(task) => done(phaser.leave(u64::from(task))),
    }
}

/// The call is replied to as it has to be.
fn replies(rt: &impl Abort, phaser: &mut LongPhaser, call: Call, wanted: Reply) {
    equal_at(rt, call, reply_of(rt, phaser, call), wanted);
}

/// Each call is replied to as its row says.
fn all_reply(rt: &impl Abort, phaser: &mut LongPhaser, rows: &[Row]) {
    for (call, wanted) in rows {
        replies(rt, phaser, *call, *wanted);
    }
}

/// The task ends its turn of the phase, and sees this sum.
fn goes_on(rt: &impl Abort, phaser: &mut LongPhaser, task: TaskNumber, phase: u32, sum: i64) {
    let task = task.get();
    replies(rt, phaser, Call::Pass(task), Reply::Phase(phase));
    sees(rt, phaser, task, sum);
}

/// The task sees this sum.
fn sees(rt: &impl Abort, phaser: &mut LongPhaser, task: u32, sum: i64) {
    replies(
        rt,
        phaser,
        Call::Look(task, 0),
        Reply::Saw(Look::Value(sum)),
    );
}

/// The task sends the value to the sum.
fn sends(rt: &impl Abort, phaser: &mut LongPhaser, task: u32, value: i32) {
    replies(rt, phaser, Call::Send(task, 0, value), Reply::Done);
}

/// The task signals, and nothing holds it.
fn signals(rt: &impl Abort, phaser: &mut LongPhaser, task: u32) {
    replies(rt, phaser, Call::Signal(task, None), Reply::Done);
}
