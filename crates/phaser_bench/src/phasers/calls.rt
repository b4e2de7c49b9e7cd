//! Phasers that are made ready, and filled with calls.

use super::job::CoreJob;
use super::kind::Kind;
use super::long::calls_on_long;
use phase_model::{Op, Ops};
use phase_modes::{Limits, Mode, Refusal};
use phaser_core::PhaserState;
use std::alloc::Global;

/// The limits of a file that asks for a history of 65,536 events and 4,096 tasks.
const LIMITS: Limits = Limits {
    acts: 4_096,
    finishes: 64,
    history: 65_536,
    phasers: 64,
    regs: 256,
    tasks: 4_096,
};

/// One turn: all signal, and then all pass. In a full history the calls are refused, and leave it
/// as it is.
fn turn(state: &mut PhaserState, tasks: u32) {
    for task in 0..tasks {
        let _ = state.signal(task, None);
    }
    for task in 0..tasks {
        let _ = state.pass(task);
    }
}

/// Each task sends once.
fn send(state: &mut PhaserState, tasks: u32) {
    for task in 0..tasks {
        let _ = state.send(task, 0, 1);
    }
}

/// Each task looks once.
fn look(state: &mut PhaserState, tasks: u32) {
    for task in 0..tasks {
        let _ = state.look(task, 0);
    }
}

/// The first task registers a child and drops it, with each number that is still free. If all
/// registrations are taken, the last task goes first.
fn register_and_drop(state: &mut PhaserState, tasks: u32) {
    if tasks == LIMITS.regs {
        let _ = state.drop_task(tasks - 1);
    }
    for child in tasks..LIMITS.tasks {
        let _ = state.register(0, child, Mode::SigWait);
        let _ = state.drop_task(child);
    }
}

/// Registers so many tasks, which all have one turn.
fn register_all(state: &mut PhaserState, tasks: u32) -> Result<(), Refusal> {
    state.make(0, Mode::SigWait)?;
    for task in 1..tasks {
        state.register(0, task, Mode::SigWait)?;
    }
    turn(state, tasks);
    Ok(())
}

/// A phaser with one sum, on which so many tasks are registered that have all had one turn.
fn ready(alloc: Global, tasks: u32) -> Result<PhaserState, Refusal> {
    let mut ops = Ops::none();
    ops.push(Op::Sum);
    let mut state = PhaserState::new(alloc, LIMITS, ops, None)?;
    register_all(&mut state, tasks)?;
    Ok(state)
}

/// Applies calls of the kind, in turn over the tasks, until the history is full, and drops until no
/// task number is free.
fn fill(state: &mut PhaserState, kind: Kind, tasks: u32) {
    for _ in 0..LIMITS.history {
        if state.is_full() {
            return;
        }
        match kind {
            Kind::Nothing => return,
            Kind::Turn => turn(state, tasks),
            Kind::Send => send(state, tasks),
            Kind::Look => look(state, tasks),
            Kind::Drop => return register_and_drop(state, tasks),
            Kind::Long => return,
        }
    }
}

/// Makes the calls of the job on one phaser.
fn calls_on_one(alloc: Global, job: CoreJob) -> Result<u64, Refusal> {
    match job.kind {
        Kind::Long => calls_on_long(alloc, job),
        _ => calls_on_stored(alloc, job),
    }
}

/// Fills a phaser, and returns how many calls of the kind were done. Each is one event.
fn calls_on_stored(alloc: Global, job: CoreJob) -> Result<u64, Refusal> {
    let mut state = ready(alloc, job.tasks)?;
    let before = state.history().len();
    fill(&mut state, job.kind, job.tasks);
    Ok(u64::from(state.history().len().saturating_sub(before)))
}

/// Makes the job's calls on its phasers one after the other, and returns how many were done in
/// all. An error is `Memory`, if a phaser got none.
pub fn calls_on_all(alloc: Global, job: CoreJob) -> Result<u64, Refusal> {
    let mut calls: u64 = 0;
    for _ in 0..job.phasers {
        calls = calls.saturating_add(calls_on_one(alloc, job)?);
    }
    Ok(calls)
}
