//! A trace that a world explains, with its report, and changed ones, each with its first fault.
use super::*;
use crate::asserted::equal;
use finish_core::FinishEvent;
use phase_model::{Look, Op, Ops, Terms};
use phase_modes::Mode;
use trace_model::TracedStep;
use world_model::WorldReport;

fn on(phaser: u32, step: TracedStep) -> TracedEvent {
    TracedEvent::Phaser(phaser, step)
}

fn begin(task: u32, begun: Begun) -> TracedEvent {
    TracedEvent::Begin(task, begun)
}

fn within(finish: u32, event: FinishEvent) -> TracedEvent {
    TracedEvent::Finish(finish, event)
}

/// What replaying the trace of these entries gives.
fn replayed(alloc: Global, entries: &[Entry]) -> Result<Result<WorldReport, Refusal>, Fail> {
    let trace = trace_of(alloc, entries)?;
    Ok(replay(alloc, &trace))
}

/// The lines of the report of an explained trace.
fn lines_of(alloc: Global, entries: &[Entry]) -> Result<String, Fail> {
    let report = replayed(alloc, entries)?.map_err(|_| Fail::from("not explained"))?;
    Ok(report.to_string(alloc)?)
}

/// The trace of these entries is explained, and these are the lines of its report.
fn has_lines(rt: &impl Abort, alloc: Global, entries: &[Entry], lines: &str) -> Result<(), Fail> {
    let reported = lines_of(alloc, entries)?;
    equal(rt, reported.as_str(), lines);
    Ok(())
}

/// The place at which a trace is first at fault; none if it is explained.
fn fault_of(alloc: Global, entries: &[Entry]) -> Result<Option<u64>, Fail> {
    match replayed(alloc, entries)? {
        Ok(_) => Ok(None),
        Err(Refusal::NotExplained(place)) => Ok(Some(place)),
        Err(_) => Err(Fail::from("another refusal")),
    }
}

/// The trace of these entries is first at fault at this place, or explained.
fn is_at(
    rt: &impl Abort,
    alloc: Global,
    entries: &[Entry],
    place: Option<u64>,
) -> Result<(), Fail> {
    equal(rt, fault_of(alloc, entries)?, place);
    Ok(())
}

/// One task makes a phaser, ends one turn on it, and ends.
fn smallest(tickets: &[u64; 7]) -> [Entry; 7] {
    [
        (
            tickets[0],
            on(0, TracedStep::Make(0, Mode::SigWait, Terms::none())),
        ),
        (tickets[1], begin(0, Begun::Next)),
        (tickets[2], on(0, TracedStep::Sig(0, None))),
        (tickets[3], on(0, TracedStep::Pass(0))),
        (tickets[4], begin(0, Begun::End)),
        (tickets[5], on(0, TracedStep::Drop(0))),
        (tickets[6], within(0, FinishEvent::Shut)),
    ]
}

/// The smallest trace with these tickets is first at fault at this place, or explained.
fn is_at_with(
    rt: &impl Abort,
    alloc: Global,
    tickets: &[u64; 7],
    place: Option<u64>,
) -> Result<(), Fail> {
    let entries = smallest(tickets);
    is_at(rt, alloc, entries.as_slice(), place)
}

/// The owner of finish 1 shuts it before the end of a task that its child spawned.
fn shut_too_early() -> [Entry; 14] {
    [
        (1, within(1, FinishEvent::Opened(0))),
        (2, begin(0, Begun::Async(1, Phased::none()))),
        (3, within(1, FinishEvent::Spawned(1))),
        (4, begin(1, Begun::Async(2, Phased::none()))),
        (5, within(1, FinishEvent::Spawned(2))),
        (6, begin(1, Begun::End)),
        (7, within(1, FinishEvent::Ended(1))),
        (8, begin(0, Begun::Shut)),
        (9, begin(2, Begun::Next)),
        (10, begin(2, Begun::End)),
        (11, within(1, FinishEvent::Shut)),
        (12, within(1, FinishEvent::Ended(2))),
        (13, begin(0, Begun::End)),
        (14, within(0, FinishEvent::Shut)),
    ]
}

/// A ticket that is less than that before, tickets that leave numbers out, no event at all, and a
/// finish that is shut too early.
#[test]
fn changed_traces(rt: HostRuntime) -> Result<(), Fail> {
    is_at_with(&rt, rt.alloc(), &[1, 2, 3, 4, 2, 6, 7], Some(5))?;
    is_at_with(&rt, rt.alloc(), &[0, 2, 3, 14, 15, 70, 700], None)?;
    is_at(&rt, rt.alloc(), &[], Some(1))?;
    let too_early = shut_too_early();
    is_at(&rt, rt.alloc(), too_early.as_slice(), Some(11))
}

/// One accumulator, a sum.
fn one_sum() -> Terms {
    let mut ops = Ops::none();
    if ops.len() < 4 {
        ops.push(Op::Sum);
    }
    Terms { ops, bound: None }
}

/// A task that looks at what it sent, and saw this.
fn seen(look: Look) -> [Entry; 9] {
    [
        (10, on(0, TracedStep::Make(0, Mode::SigWait, one_sum()))),
        (20, on(0, TracedStep::Send(0, 0, 5))),
        (30, begin(0, Begun::Next)),
        (40, on(0, TracedStep::Sig(0, None))),
        (50, on(0, TracedStep::Pass(0))),
        (60, on(0, TracedStep::Look(0, 0, look))),
        (70, begin(0, Begun::End)),
        (80, on(0, TracedStep::Drop(0))),
        (90, within(0, FinishEvent::Shut)),
    ]
}

#[test]
fn look_with_its_answer(rt: HostRuntime) -> Result<(), Fail> {
    let five = seen(Look::Value(5));
    has_lines(
        &rt,
        rt.alloc(),
        five.as_slice(),
        concat!(
            "phaser 0 phases 1\n",
            "phaser 0 phase 0 acc 0 value 5\n",
            "task 0 ended\n",
            "finish 0 tasks 0\n",
            "totals registered 1 signals 1 passes 1 drops 1 sends 1 up 5 down 0\n"
        ),
    )?;
    let six = seen(Look::Value(6));
    is_at(&rt, rt.alloc(), six.as_slice(), Some(6))?;
    let nothing = seen(Look::Nothing);
    is_at(&rt, rt.alloc(), nothing.as_slice(), Some(6))
}
