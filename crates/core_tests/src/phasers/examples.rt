//! The worked examples, on a phaser alone: what each call is replied, and of some what the calls
//! leave.
use super::*;
use crate::asserted::{equal, equal_at};
use worked_examples::*;

/// An accumulator and a phase, and the fold there.
type Seen = ((u8, u32), Option<Look>);

/// Each call is replied to as its row says.
fn replies(rt: &impl Abort, alloc: Global, example: &Example) -> Result<(), Fail> {
    let _state = play(rt, alloc, example)?;
    Ok(())
}

/// The phaser has these folds.
fn folds(rt: &impl Abort, state: &PhaserState, rows: &[Seen]) {
    for ((accumulator, phase), fold) in rows {
        equal_at(
            rt,
            ("phase", phase),
            state.fold_at(*accumulator, *phase),
            *fold,
        );
    }
}

/// Each call is replied to as its row says, and the phaser that they leave has these folds.
fn replies_and_folds(
    rt: &impl Abort,
    alloc: Global,
    example: &Example,
    seen: &[Seen],
) -> Result<(), Fail> {
    let state = play(rt, alloc, example)?;
    folds(rt, &state, seen);
    Ok(())
}

/// Each call is replied to as its row says, and the history that they leave is of these events, and
/// is full or isn't.
fn replies_and_events(
    rt: &impl Abort,
    alloc: Global,
    example: &Example,
    events: &[Event],
    is_full: bool,
) -> Result<(), Fail> {
    let state = play(rt, alloc, example)?;
    assert!(rt; state.history().events() == events);
    equal(rt, state.is_full(), is_full);
    Ok(())
}

/// What a new phaser with four accumulators says of itself.
fn is_new(rt: &impl Abort, state: &PhaserState) {
    equal(rt, state.history().len(), 0);
    equal(rt, state.history().ops(), first_ops(4));
    equal(rt, state.history().limits(), Limits::default());
    assert!(rt; !state.is_full());
    assert!(rt; state.closed(0), "nobody is registered");
}

#[test]
fn new_is_not_always_out_of_memory(rt: HostRuntime) -> Result<(), Fail> {
    let state = fresh(rt.alloc(), PLAIN.limits(), first_ops(4), None)?;
    is_new(&rt, &state);
    agrees_with_plain(&rt, &state);
    Ok(())
}

#[test]
fn one_task_turn(rt: HostRuntime) -> Result<(), Fail> {
    const EVENTS: [Event; 3] = [
        Event::Make(0, Mode::SigWait),
        Event::Sig(0, None),
        Event::Pass(0),
    ];
    replies_and_events(&rt, rt.alloc(), &ONE_TASK_TURN, EVENTS.as_slice(), false)
}

#[test]
fn late_reader(rt: HostRuntime) -> Result<(), Fail> {
    // The reader has passed three phases: it may look at the last of them alone.
    const SEEN: [Seen; 2] = [((0, 1), None), ((0, 2), Some(Look::Value(3)))];
    replies_and_folds(&rt, rt.alloc(), &LATE_READER, SEEN.as_slice())
}

/// The first phase is closed and the second isn't, and there is room for more events.
fn first_phase_is_over(rt: &impl Abort, state: &PhaserState) {
    assert!(rt; state.closed(0));
    assert!(rt; !state.closed(1));
    assert!(rt; !state.is_full());
}

#[test]
fn two_tasks_turn(rt: HostRuntime) -> Result<(), Fail> {
    let state = play(&rt, rt.alloc(), &TWO_TASKS_TURN)?;
    first_phase_is_over(&rt, &state);
    Ok(())
}

#[test]
fn waiter_alone(rt: HostRuntime) -> Result<(), Fail> {
    replies(&rt, rt.alloc(), &WAITER_ALONE)
}

#[test]
fn split_phase_child(rt: HostRuntime) -> Result<(), Fail> {
    replies(&rt, rt.alloc(), &SPLIT_PHASE_CHILD)
}

#[test]
fn signaller_runs_ahead(rt: HostRuntime) -> Result<(), Fail> {
    replies(&rt, rt.alloc(), &SIGNALLER_RUNS_AHEAD)
}

#[test]
fn value_of_dropped_sender(rt: HostRuntime) -> Result<(), Fail> {
    replies(&rt, rt.alloc(), &VALUE_OF_DROPPED_SENDER)
}

#[test]
fn empty_folds(rt: HostRuntime) -> Result<(), Fail> {
    replies(&rt, rt.alloc(), &EMPTY_FOLDS)
}

#[test]
fn extreme_values(rt: HostRuntime) -> Result<(), Fail> {
    replies(&rt, rt.alloc(), &EXTREME_VALUES)
}

#[test]
fn value_after_signal(rt: HostRuntime) -> Result<(), Fail> {
    // Task 0 alone can wait, and may look at phase 1 and later ones.
    const SEEN: [Seen; 5] = [
        ((0, 0), None),
        ((0, 1), Some(Look::Value(3))),
        ((0, 2), Some(Look::Value(0))),
        ((0, 4_096), None),
        ((1, 0), None),
    ];
    replies_and_folds(&rt, rt.alloc(), &VALUE_AFTER_SIGNAL, SEEN.as_slice())
}

#[test]
fn single_statement(rt: HostRuntime) -> Result<(), Fail> {
    replies(&rt, rt.alloc(), &SINGLE_STATEMENT)
}

#[test]
fn history_full(rt: HostRuntime) -> Result<(), Fail> {
    const EVENTS: [Event; 4] = [
        Event::Make(0, Mode::SigWait),
        Event::Sig(0, None),
        Event::Pass(0),
        Event::Drop(0),
    ];
    replies_and_events(&rt, rt.alloc(), &HISTORY_FULL, EVENTS.as_slice(), true)
}

#[test]
fn refusals_in_order(rt: HostRuntime) -> Result<(), Fail> {
    replies(&rt, rt.alloc(), &REFUSALS_IN_ORDER)
}

#[test]
fn registrations_full(rt: HostRuntime) -> Result<(), Fail> {
    replies(&rt, rt.alloc(), &REGISTRATIONS_FULL)
}

#[test]
fn no_room_for_a_single(rt: HostRuntime) -> Result<(), Fail> {
    const EVENTS: [Event; 2] = [Event::Make(0, Mode::Single), Event::Sig(0, None)];
    replies_and_events(
        &rt,
        rt.alloc(),
        &NO_ROOM_FOR_A_SINGLE,
        EVENTS.as_slice(),
        false,
    )
}

#[test]
fn room_for_a_single(rt: HostRuntime) -> Result<(), Fail> {
    const EVENTS: [Event; 5] = [
        Event::Make(0, Mode::Single),
        Event::Sig(0, Some(7)),
        Event::Claim(0),
        Event::Did(0),
        Event::Drop(0),
    ];
    replies_and_events(&rt, rt.alloc(), &ROOM_FOR_A_SINGLE, EVENTS.as_slice(), true)
}

#[test]
fn plain_waiter_holds_still(rt: HostRuntime) -> Result<(), Fail> {
    replies(&rt, rt.alloc(), &PLAIN_WAITER_HOLDS_STILL)
}

#[test]
fn bounded_signaller(rt: HostRuntime) -> Result<(), Fail> {
    replies(&rt, rt.alloc(), &BOUNDED_SIGNALLER)
}

#[test]
fn bound_and_refusals(rt: HostRuntime) -> Result<(), Fail> {
    replies(&rt, rt.alloc(), &BOUND_AND_REFUSALS)
}
