//! A phaser called from outside: each call is a row of a table beside its reply, and the state that
//! the calls leave is compared with the plain functions over its history.
use crate::asserted::{equal, equal_at, holds_at};
use crate::drawn::Dice;
use phase_model::{
    Bound, Call, Event, History, Look, Ops, Reply, Terms, allowed, claimed, closed, did, explain,
    fold, live, proposed, signals, waits,
};
use phase_modes::{Limits, Mode, Refusal, TaskNumber};
use phaser_core::{Passing, PhaserState, Signalling};
use std::alloc::Global;
use std::process::Abort;
use std::test::Fail;
use worked_examples::{Example, PLAIN, Row, first_ops};

mod blank;
mod comparing;
mod examples;
mod generator;
mod hindmost;
mod peer;
mod side_by_side;
mod waiting;

/// A phaser that nobody has made yet; `NotNow` if the limits are none.
fn fresh(
    alloc: Global,
    limits: Limits,
    ops: Ops,
    bound: Option<Bound>,
) -> Result<PhaserState, Refusal> {
    if !limits.fits() {
        return Err(Refusal::NotNow);
    }
    PhaserState::new(alloc, limits, ops, bound)
}

/// The phaser that the example's calls leave, each with the reply of its row.
fn play(rt: &impl Abort, alloc: Global, example: &Example) -> Result<PhaserState, Refusal> {
    let Terms { ops, bound } = example.terms();
    let mut state = fresh(alloc, example.limits(), ops, bound)?;
    for (call, expected) in example.rows {
        equal_at(rt, call, state.apply(*call), *expected);
    }
    agrees_with_plain(rt, &state);
    Ok(state)
}

/// The mode in which the task was registered, none if it never was.
fn mode_in(history: &History, task: u32) -> Option<Mode> {
    for event in history.events() {
        match event {
            Event::Make(t, mode) | Event::Reg(_, t, mode) if *t == task => return Some(*mode),
            _ => {}
        }
    }
    None
}

fn is_signaller(history: &History, task: u32) -> bool {
    mode_in(history, task).is_some_and(|mode| mode.can_signal())
}

/// Whether the task keeps the phase open: it is registered now, can signal and hasn't signalled it.
fn keeps_open(history: &History, task: TaskNumber, phase: u32) -> bool {
    let task = task.get();
    live(history, task) && is_signaller(history, task) && signals(history, task) <= phase
}

/// How many tasks are registered now.
fn live_count(history: &History) -> u32 {
    (0..history.limits().tasks)
        .filter(|task| live(history, *task))
        .count() as u32
}

/// How many events the open single still needs. Its phase is below the number of events.
fn reserve(history: &History) -> u32 {
    for phase in 0..history.len() {
        if proposed(history, phase).is_some() && !did(history, phase) {
            return if claimed(history, phase) { 1 } else { 2 };
        }
    }
    0
}

/// Whether one of the tasks 0 to 3 may still look at the phase: it is registered now, can wait and
/// hasn't passed the phase after it.
fn is_needed(history: &History, phase: u32) -> bool {
    (0..4).any(|task| {
        live(history, task)
            && mode_in(history, task).is_some_and(|mode| mode.can_wait())
            && waits(history, task).saturating_sub(1) <= phase
    })
}

/// The state says of the tasks 0 to 3 and the phases 0 to 3 what the plain functions say of its
/// history, which keeps to every rule.
fn agrees_with_plain(rt: &impl Abort, state: &PhaserState) {
    let history = state.history();
    equal(rt, explain(history), Ok(()));
    for phase in 0..4 {
        equal_at(
            rt,
            ("phase", phase),
            state.closed(phase),
            closed(history, phase),
        );
        for task in 0..4 {
            holds_at(
                rt,
                ("task", task),
                !(state.closed(phase) && keeps_open(history, TaskNumber::of(task), phase)),
            );
        }
        let needed = is_needed(history, phase);
        for accumulator in 0..4 {
            let seen = state.fold_at(accumulator, phase);
            let sent = fold(history, accumulator, phase);
            if state.closed(phase) {
                holds_at(rt, ("phase", phase), seen == sent || seen.is_none());
            }
            if needed {
                equal_at(rt, ("phase", phase), seen.is_some(), sent.is_some());
            }
        }
    }
    let needed = u64::from(history.len())
        + 1
        + u64::from(live_count(history))
        + u64::from(reserve(history));
    equal(
        rt,
        state.is_full(),
        needed > u64::from(history.limits().history),
    );
}
