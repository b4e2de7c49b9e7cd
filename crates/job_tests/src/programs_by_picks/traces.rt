//! Traces held against programs. The worked examples' traces are written out by hand.
use super::{program_of, unbounded};
use crate::asserted::equal;
use finish_core::FinishEvent;
use phase_modes::{Limits, Mode, Pair, Phased, Refusal, TaskNumber};
use schedule_run::follows;
use std::alloc::Global;
use std::process::Abort;
use std::test::Fail;
use trace_model::{Trace, TracedEvent, TracedStep};
use world_model::{Begun, Tried};

/// The place at which these events leave the program of this text; none if they follow it.
fn place_in(alloc: Global, text: &str, events: &[TracedEvent]) -> Result<Option<u64>, Fail> {
    let program = program_of(alloc, text)?;
    let mut trace = Trace::new(alloc, Limits::default());
    let mut ticket = 0_u64;
    for event in events {
        ticket = ticket.saturating_add(1);
        trace
            .push(ticket, *event)
            .map_err(|_| Fail::from("memory"))?;
    }
    match follows(alloc, &program, &trace) {
        Ok(()) => Ok(None),
        Err(Refusal::NotExplained(place)) => Ok(Some(place)),
        Err(_) => Err(Fail::from("memory")),
    }
}

/// The events leave the program of this text at this place; none if they follow it.
fn leaves_at(
    rt: &impl Abort,
    alloc: Global,
    text: &str,
    events: &[TracedEvent],
    expected: Option<u64>,
) -> Result<(), Fail> {
    let place = place_in(alloc, text, events)?;
    equal(rt, place, expected);
    Ok(())
}

fn of_phaser(n: u32, step: TracedStep) -> TracedEvent {
    TracedEvent::Phaser(n, step)
}

fn of_finish(f: u32, event: FinishEvent) -> TracedEvent {
    TracedEvent::Finish(f, event)
}

fn begin(task: u32, begun: Begun) -> TracedEvent {
    TracedEvent::Begin(task, begun)
}

/// The root makes the phaser.
fn made(n: u32, mode: Mode) -> TracedEvent {
    TracedEvent::Phaser(n, TracedStep::Make(0, mode, unbounded()))
}

/// The pairs of these phasers, each in its mode.
fn pairs(list: &[(u32, Mode)]) -> Phased {
    let mut phased = Phased::none();
    for (phaser, mode) in list {
        if phased.len() < 16 {
            phased.push(Pair {
                phaser: *phaser,
                mode: *mode,
            });
        }
    }
    phased
}

const SMALLEST: &str = r#"{"main":[["new","p","SIG_WAIT",[]],["next"]]}"#;

fn smallest_trace() -> [TracedEvent; 7] {
    [
        made(0, Mode::SigWait),
        begin(0, Begun::Next),
        of_phaser(0, TracedStep::Sig(0, None)),
        of_phaser(0, TracedStep::Pass(0)),
        begin(0, Begun::End),
        of_phaser(0, TracedStep::Drop(0)),
        of_finish(0, FinishEvent::Shut),
    ]
}

const NESTED: &str = r#"{"main":[["open"],["async",[],[["async",[],[["next"]]]]],["shut"]]}"#;

fn nested_finish() -> [TracedEvent; 14] {
    [
        of_finish(1, FinishEvent::Opened(0)),
        begin(0, Begun::Async(1, Phased::none())),
        of_finish(1, FinishEvent::Spawned(1)),
        begin(1, Begun::Async(2, Phased::none())),
        of_finish(1, FinishEvent::Spawned(2)),
        begin(1, Begun::End),
        of_finish(1, FinishEvent::Ended(1)),
        begin(0, Begun::Shut),
        begin(2, Begun::Next),
        begin(2, Begun::End),
        of_finish(1, FinishEvent::Ended(2)),
        of_finish(1, FinishEvent::Shut),
        begin(0, Begun::End),
        of_finish(0, FinishEvent::Shut),
    ]
}

#[test]
fn traces_follow_their_own_programs(rt: HostRuntime) -> Result<(), Fail> {
    leaves_at(&rt, rt.alloc(), SMALLEST, &smallest_trace(), None)?;
    leaves_at(&rt, rt.alloc(), NESTED, &nested_finish(), None)?;
    leaves_at(&rt, rt.alloc(), SMALLEST, &nested_finish(), Some(1))?;
    leaves_at(&rt, rt.alloc(), NESTED, &smallest_trace(), Some(1))
}

const OUTSIDE_SCOPE: &str =
    r#"{"main":[["new","p","SIG_WAIT",[]],["open"],["async",[["p","SIG"]],[["next"]]],["shut"]]}"#;

/// The spawn on a phaser from outside the finish, on this phaser, is refused by this task.
fn refused_spawn(phaser: u32, task: TaskNumber) -> [TracedEvent; 6] {
    [
        made(0, Mode::SigWait),
        of_finish(1, FinishEvent::Opened(0)),
        TracedEvent::Refuse(
            task.get(),
            Tried::Begun(Begun::Async(1, pairs(&[(phaser, Mode::Sig)]))),
            12,
        ),
        of_phaser(0, TracedStep::Drop(0)),
        of_finish(1, FinishEvent::Shut),
        of_finish(0, FinishEvent::Shut),
    ]
}

#[test]
fn refusals_are_the_tasks_own(rt: HostRuntime) -> Result<(), Fail> {
    let root = TaskNumber::of(0);
    leaves_at(
        &rt,
        rt.alloc(),
        OUTSIDE_SCOPE,
        &refused_spawn(0, root),
        None,
    )?;
    leaves_at(
        &rt,
        rt.alloc(),
        OUTSIDE_SCOPE,
        &refused_spawn(0, TaskNumber::of(1)),
        Some(3),
    )?;
    leaves_at(
        &rt,
        rt.alloc(),
        OUTSIDE_SCOPE,
        &refused_spawn(1, root),
        Some(3),
    )
}

const SENDERS: &str =
    r#"{"main":[["new","p","SIG",[]],["new","p","SIG",[]],["repeat",2,[["send","p",0,7]]],["look","q",1]]}"#;

/// A name that is given again means the later phaser; one without a meaning means none.
fn named_twice(meant: u32, value: i32) -> [TracedEvent; 5] {
    [
        made(4, Mode::Sig),
        made(9, Mode::Sig),
        of_phaser(9, TracedStep::Send(0, 0, 7)),
        of_phaser(meant, TracedStep::Send(0, 0, value)),
        TracedEvent::Refuse(0, Tried::Look(u32::MAX, 1), 1),
    ]
}

#[test]
fn changed_acts_are_found(rt: HostRuntime) -> Result<(), Fail> {
    leaves_at(&rt, rt.alloc(), SENDERS, &named_twice(9, 7), None)?;
    leaves_at(&rt, rt.alloc(), SENDERS, &named_twice(4, 7), Some(4))?;
    leaves_at(&rt, rt.alloc(), SENDERS, &named_twice(9, 8), Some(4))
}

const ALL: &str =
    r#"{"main":[["new","p","SIG_WAIT",[]],["new","q","SIG",[]],["async_all",[]],["async_all",[]]]}"#;

/// Two spawns on all phasers, the second after the root has left phaser 1.
fn all_twice(first: &[(u32, Mode)], second: &[(u32, Mode)]) -> [TracedEvent; 5] {
    [
        made(0, Mode::SigWait),
        made(1, Mode::Sig),
        begin(0, Begun::Async(1, pairs(first))),
        of_phaser(1, TracedStep::Drop(0)),
        begin(0, Begun::Async(2, pairs(second))),
    ]
}

/// The phasers of two spawns, one after the other, and the place at which that leaves the program.
type Spawns = (&'static [(u32, Mode)], &'static [(u32, Mode)], Option<u64>);

fn spawns_leave_at(rt: &impl Abort, alloc: Global, spawns: &Spawns) -> Result<(), Fail> {
    let (first, second, expected) = spawns;
    leaves_at(rt, alloc, ALL, &all_twice(first, second), *expected)
}

#[test]
fn a_spawn_on_all_phasers_names_those_that_are_held(rt: HostRuntime) -> Result<(), Fail> {
    const BOTH: &[(u32, Mode)] = &[(0, Mode::SigWait), (1, Mode::Sig)];
    const TURNED: &[(u32, Mode)] = &[(1, Mode::Sig), (0, Mode::SigWait)];
    const OTHER: &[(u32, Mode)] = &[(0, Mode::SigWait), (1, Mode::SigWait)];
    const ONE: &[(u32, Mode)] = &[(0, Mode::SigWait)];
    const ROWS: [Spawns; 5] = [
        (BOTH, ONE, None),
        (ONE, ONE, Some(3)),
        (TURNED, ONE, Some(3)),
        (OTHER, ONE, Some(3)),
        (BOTH, BOTH, Some(5)),
    ];
    for spawns in &ROWS {
        spawns_leave_at(&rt, rt.alloc(), spawns)?;
    }
    Ok(())
}

#[test]
fn tasks_may_have_any_number(rt: HostRuntime) -> Result<(), Fail> {
    let most = u32::MAX;
    let ends = [begin(7, Begun::End), begin(most, Begun::End)];
    leaves_at(&rt, rt.alloc(), SMALLEST, &ends, None)?;
    let waits = [begin(7, Begun::End), begin(7, Begun::Wait)];
    leaves_at(&rt, rt.alloc(), SMALLEST, &waits, Some(2))?;
    let spawned = [
        of_finish(1, FinishEvent::Opened(0)),
        begin(0, Begun::Async(most, Phased::none())),
        begin(most, Begun::Async(2, Phased::none())),
        begin(2, Begun::Next),
        begin(most, Begun::Shut),
    ];
    leaves_at(&rt, rt.alloc(), NESTED, &spawned, Some(5))
}
