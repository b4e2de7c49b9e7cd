//! Parts that are merged, and parts that can't be; and traces that are replayed.
use super::{Entry, are_alike, trace_of};
use crate::asserted::equal;
use phase_modes::{Limits, Phased, Refusal};
use std::alloc::Global;
use std::process::Abort;
use std::test::Fail;
use trace_model::{Log, Part, Trace, TracedEvent};
use trace_replay::{merge, replay};
use world_model::Begun;

mod worked;

/// The end of this task.
fn end(task: u32) -> TracedEvent {
    TracedEvent::Begin(task, Begun::End)
}

/// A part with these tickets, whose events are the ends of this task.
fn part_of(alloc: Global, task: u32, tickets: &[u64]) -> Result<Part, Fail> {
    let mut log = Log::new(alloc, 2).map_err(|_| Fail::from("memory"))?;
    for ticket in tickets {
        if !log.has_room() {
            return Err(Fail::from("no room"));
        }
        log.add(*ticket, end(task));
    }
    Ok(Part::of_log(log))
}

/// Two parts with these tickets, of the tasks 1 and 2.
fn two_parts(alloc: Global, first: &[u64], second: &[u64]) -> Result<Vec<Part>, Fail> {
    let mut parts = Vec::new(alloc);
    parts.push(part_of(alloc, 1, first)?)?;
    parts.push(part_of(alloc, 2, second)?)?;
    Ok(parts)
}

/// What merging those two parts gives.
fn merged(alloc: Global, first: &[u64], second: &[u64]) -> Result<Result<Trace, Refusal>, Fail> {
    let parts = two_parts(alloc, first, second)?;
    Ok(merge(alloc, Limits::default(), &parts))
}

/// The place at which two parts are first at fault.
fn place_of(alloc: Global, first: &[u64], second: &[u64]) -> Result<Option<u64>, Fail> {
    match merged(alloc, first, second)? {
        Ok(_) => Ok(None),
        Err(Refusal::NotExplained(place)) => Ok(Some(place)),
        Err(_) => Err(Fail::from("another refusal")),
    }
}

/// The trace has these events, and the limits of a file that names none.
fn has_events(
    rt: &impl Abort,
    alloc: Global,
    trace: &Trace,
    entries: &[Entry],
) -> Result<(), Fail> {
    let wanted = trace_of(alloc, entries)?;
    are_alike(rt, trace, &wanted);
    Ok(())
}

/// Two parts with these tickets are merged to a trace of these events.
fn is_merged(
    rt: &impl Abort,
    alloc: Global,
    first: &[u64],
    second: &[u64],
    entries: &[Entry],
) -> Result<(), Fail> {
    match merged(alloc, first, second)? {
        Ok(trace) => has_events(rt, alloc, &trace, entries),
        Err(_) => Err(Fail::from("refused")),
    }
}

#[test]
fn parts_by_rising_ticket(rt: HostRuntime) -> Result<(), Fail> {
    let entries = [(1, end(2)), (2, end(1)), (5, end(1)), (9, end(2))];
    is_merged(&rt, rt.alloc(), &[2, 5], &[1, 9], entries.as_slice())
}

/// The same if no ticket is left out.
#[test]
fn parts_in_turn(rt: HostRuntime) -> Result<(), Fail> {
    let entries = [(1, end(2)), (2, end(1)), (3, end(2)), (4, end(1))];
    is_merged(&rt, rt.alloc(), &[2, 4], &[1, 3], entries.as_slice())
}

/// Two parts with these tickets are first at fault at this place, or have no fault.
fn is_at(
    rt: &impl Abort,
    alloc: Global,
    first: &[u64],
    second: &[u64],
    place: Option<u64>,
) -> Result<(), Fail> {
    equal(rt, place_of(alloc, first, second)?, place);
    Ok(())
}

#[test]
fn the_least_place_at_fault(rt: HostRuntime) -> Result<(), Fail> {
    is_at(&rt, rt.alloc(), &[], &[], None)?;
    is_at(&rt, rt.alloc(), &[1, 4], &[2, 4, 6], Some(4))?;
    is_at(&rt, rt.alloc(), &[1, 7, 3], &[2], Some(3))?;
    is_at(&rt, rt.alloc(), &[5, 5], &[], Some(2))?;
    is_at(&rt, rt.alloc(), &[9, 0], &[3], Some(1))
}
