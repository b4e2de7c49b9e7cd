//! A trace and a part as another crate builds them, and their events in a world.
use super::{fill, trace_of};
use crate::asserted::equal;
use crate::entries::entry_of;
use finish_core::FinishEvent;
use phase_model::Look;
use phase_modes::{Limits, Refusal};
use std::alloc::Global;
use std::process::Abort;
use std::test::Fail;
use trace_model::{EventView, Log, Part, ShortStep, Trace, TracedEvent, TracedStep};
use world_model::{Reply, Step, Tried, WorldEvent};

/// A long event, here of this task.
fn refused(task: u32) -> TracedEvent {
    TracedEvent::Refuse(task, Tried::Open(64), 18)
}

fn shut(finish: u32) -> TracedEvent {
    TracedEvent::Finish(finish, FinishEvent::Shut)
}

/// The trace has so many events, and these limits.
fn has_events(rt: &impl Abort, trace: &Trace, events: usize, limits: Limits) {
    equal(rt, trace.len(), events);
    equal(rt, trace.limits(), limits);
}

/// The trace has one event, which is the part's first too.
fn is_first_of(rt: &impl Abort, part: &Part, trace: &Trace) {
    assert_eq!(rt; trace.len(), 1);
    assert!(rt; 0 < part.len());
    assert!(rt; part.entry(0) == entry_of(trace, 0));
}

/// A part with this event.
fn part_with(alloc: Global, ticket: u64, event: TracedEvent) -> Result<Part, Fail> {
    let mut log = Log::new(alloc, 1).map_err(|_| Fail::from("memory"))?;
    log.add(ticket, event);
    Ok(Part::of_log(log))
}

/// A trace keeps its first event as a part does, and the next one after it.
fn keeps_order(rt: &impl Abort, part: &Part, trace: &mut Trace) -> Result<(), Fail> {
    let look = TracedStep::Look(3, 1, Look::Value(-5));
    fill(trace, &[(9, shut(0))])?;
    is_first_of(rt, part, trace);
    fill(trace, &[(2, TracedEvent::Phaser(0, look))])?;
    has_events(rt, trace, 2, Limits::default());
    Ok(())
}

#[test]
fn events_are_kept_in_order(rt: HostRuntime) -> Result<(), Fail> {
    let part = part_with(rt.alloc(), 9, shut(0))?;
    let mut trace = Trace::new(rt.alloc(), Limits::default());
    keeps_order(&rt, &part, &mut trace)
}

/// Three of the six events are in their places.
fn are_in_their_places(rt: &impl Abort, trace: &Trace) {
    assert!(rt; 5 < trace.len());
    assert!(rt; entry_of(trace, 2) == (5, shut(1)));
    assert!(rt; entry_of(trace, 3) == (6, refused(1)));
    assert!(rt; entry_of(trace, 5) == (6, refused(2)));
}

#[test]
fn long_events_in_their_places(rt: HostRuntime) -> Result<(), Fail> {
    let entries = [
        (5, shut(0)),
        (6, refused(0)),
        (5, shut(1)),
        (6, refused(1)),
        (5, shut(2)),
        (6, refused(2)),
    ];
    let trace = trace_of(rt.alloc(), entries.as_slice())?;
    are_in_their_places(&rt, &trace);
    Ok(())
}

/// The trace, which has no event, takes one.
fn takes_one(rt: &impl Abort, trace: &mut Trace, limits: Limits) -> Result<(), Fail> {
    has_events(rt, trace, 0, limits);
    fill(trace, &[(1, shut(0))])?;
    has_events(rt, trace, 1, limits);
    Ok(())
}

#[test]
fn room_for_events_has_none(rt: HostRuntime) -> Result<(), Fail> {
    let limits = Limits {
        tasks: 7,
        ..Limits::default()
    };
    let mut trace = Trace::with_capacity(rt.alloc(), limits, 1).map_err(|_| Fail::from("memory"))?;
    takes_one(&rt, &mut trace, limits)
}

/// The look is answered -5, and nothing else.
fn saw_minus_five(rt: &impl Abort, look: EventView<'_>) {
    assert!(rt; look.is_answered(Ok(Reply::Value(Look::Value(-5)))));
    assert!(rt; !look.is_answered(Ok(Reply::Value(Look::Value(5)))));
    assert!(rt; !look.is_answered(Ok(Reply::Value(Look::Nothing))));
    assert!(rt; !look.is_answered(Err(Refusal::NoPhaseYet)));
}

#[test]
fn a_look_is_answered_what_it_saw(rt: HostRuntime) -> Result<(), Fail> {
    let step = TracedStep::Look(3, 1, Look::Value(-5));
    let look = TracedEvent::Phaser(7, step);
    assert!(rt; step.step() == Step::Look(3, 1));
    assert!(rt; look.event() == WorldEvent::Phaser(7, Step::Look(3, 1)));
    saw_minus_five(&rt, EventView::Phaser(7, ShortStep::Saw(1, 3, -5)));
    let nothing = EventView::Phaser(7, ShortStep::SawNothing(3, 1));
    assert!(rt; nothing.is_answered(Ok(Reply::Value(Look::Nothing))));
    assert!(rt; !nothing.is_answered(Ok(Reply::Value(Look::Value(0)))));
    Ok(())
}

/// The event ends a run; a reply that it is done makes it, one that has it wait or is refused doesn't.
fn ends_a_run(rt: &impl Abort, shut: EventView<'_>) {
    assert!(rt; shut.ends_run());
    assert!(rt; shut.is_answered(Ok(Reply::Done)));
    assert!(rt; !shut.is_answered(Ok(Reply::NotYet)));
    assert!(rt; !shut.is_answered(Err(Refusal::NotNow)));
}

#[test]
fn the_shut_of_finish_0_ends_a_run(rt: HostRuntime) -> Result<(), Fail> {
    ends_a_run(&rt, EventView::Finish(0, FinishEvent::Shut));
    assert!(rt; !EventView::Finish(1, FinishEvent::Shut).ends_run());
    Ok(())
}
