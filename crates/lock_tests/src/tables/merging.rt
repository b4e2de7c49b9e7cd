//! The parts of a table's phasers, merged to a trace by the tickets that were drawn.
ghost use Rattle.std.specs.Prelude.{◌≡◌, true};
ghost use Rattle.phase_modes.specs.Limits.{limits_fit};

use super::*;
use crate::asserted::{equal, holds_at};
use phase_model::{Event, History, Ops, Terms, explain};
use trace_model::{Part, Trace, TracedEvent, TracedStep};
use trace_replay::merge;

/// What the step leaves in the phaser's history.
fn event_of(step: TracedStep) -> Event {
    match step {
        TracedStep::Make(task, mode, _) => Event::Make(task, mode),
        TracedStep::Reg(parent, child, mode) => Event::Reg(parent, child, mode),
        TracedStep::Sig(task, number) => Event::Sig(task, number),
        TracedStep::Claim(task) => Event::Claim(task),
        TracedStep::Did(task) => Event::Did(task),
        TracedStep::Pass(task) => Event::Pass(task),
        TracedStep::Send(task, accumulator, value) => Event::Send(task, accumulator, value),
        TracedStep::Look(task, accumulator, seen) => Event::Look(task, accumulator, seen),
        TracedStep::Drop(task) => Event::Drop(task),
    }
}

/// Adds the step's event if there is room.
fn add(history: &mut History, step: TracedStep) {
    if history.len() < history.limits().history {
        history.add(event_of(step));
    }
}

/// The step, if the event is one on this phaser.
fn step_on(phaser: u32, event: TracedEvent) -> Option<TracedStep> {
    match event {
        TracedEvent::Phaser(number, step) if number == phaser => Some(step),
        _ => None,
    }
}

/// What a phaser has that nobody has made.
fn no_terms() -> Terms {
    Terms {
        ops: Ops::none(),
        bound: None,
    }
}

/// What a making brings.
fn terms_of(step: TracedStep) -> Terms {
    match step {
        TracedStep::Make(_, _, terms) => terms,
        _ => no_terms(),
    }
}

/// What the part begins with.
fn first_terms_of(phaser: u32, part: &Part) -> Terms {
    if part.len() == 0 {
        return no_terms();
    }
    match step_on(phaser, part.entry(0).1) {
        Some(step) => terms_of(step),
        None => no_terms(),
    }
}

/// What the trace has of this phaser, as a history.
fn projection(
    alloc: Global,
    limits: Limits,
    trace: &Trace,
    phaser: u32,
    part: &Part,
) -> Result<History, Refusal>
    requires { limits_fit limits ≡ true }
{
    let Terms { ops, bound } = first_terms_of(phaser, part);
    let mut history = History::new(alloc, limits, ops, bound)?;
    for place in 0..trace.len() {
        if let Some(step) = step_on(phaser, trace.entry(place).1.event()) {
            add(&mut history, step);
        }
    }
    Ok(history)
}

/// Whether the trace has of this phaser exactly the part's entries, in the part's order.
fn has_in_order(trace: &Trace, phaser: u32, part: &Part) -> bool {
    let mut next = 0usize;
    for place in 0..trace.len() {
        let (ticket, event) = trace.entry(place);
        let entry = (ticket, event.event());
        if step_on(phaser, entry.1).is_some() {
            let stands = next < part.len() && part.entry(next) == entry;
            if !stands || part.ticket(next) != ticket {
                return false;
            }
            next += 1;
        }
    }
    next == part.len()
}

/// Each event has the next ticket, from 1 on: whoever drew one kept it.
fn tickets_rise(rt: &impl Abort, trace: &Trace) {
    for place in 0..trace.len() {
        equal(rt, trace.entry(place).0, place as u64 + 1);
    }
}

/// What the trace has of each phaser is its part, and a history that is explained.
fn is_each_told(
    rt: &impl Abort,
    alloc: Global,
    limits: Limits,
    trace: &Trace,
    parts: &[Part],
) -> Result<(), Refusal>
    requires { limits_fit limits ≡ true }
{
    let mut phaser = 0u32;
    for part in parts {
        holds_at(rt, ("phaser", phaser), has_in_order(trace, phaser, part));
        let history = projection(alloc, limits, trace, phaser, part)?;
        equal(rt, explain(&history), Ok(()));
        phaser = phaser.saturating_add(1);
    }
    Ok(())
}

/// How many events all parts have.
fn events_in(parts: &[Part]) -> u64 {
    let mut events = 0u64;
    for part in parts {
        events = events.saturating_add(part.len() as u64);
    }
    events
}

/// How many events the parts have. They are merged to a trace of as many, which tells each part.
pub(super) fn merged(
    rt: &impl Abort,
    alloc: Global,
    limits: Limits,
    parts: &[Part],
) -> Result<u64, Refusal>
    requires { limits_fit limits ≡ true }
{
    let events = events_in(parts);
    let trace = merge(alloc, limits, parts)?;
    equal(rt, trace.len() as u64, events);
    tickets_rise(rt, &trace);
    is_each_told(rt, alloc, limits, &trace, parts)?;
    Ok(events)
}
