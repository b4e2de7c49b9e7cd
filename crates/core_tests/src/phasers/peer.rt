//! A slow phaser: nothing but a history, and what the plain functions say of it.
use super::*;

/// The first refusal whose cause stands.
fn first_of(causes: &[(bool, Refusal)]) -> Option<Refusal> {
    for (stands, refusal) in causes {
        if *stands {
            return Some(*refusal);
        }
    }
    None
}

fn is_waiter(history: &History, task: u32) -> bool {
    mode_in(history, task).is_some_and(|mode| mode.can_wait())
}

fn may_propose(history: &History, task: u32) -> bool {
    mode_in(history, task).is_some_and(|mode| mode.can_single())
}

fn has_no(history: &History, accumulator: u8) -> bool {
    history.ops().get(accumulator).is_none()
}

/// Whether the parent's mode allows its child this one.
fn is_within(history: &History, parent: u32, mode: Mode) -> bool {
    mode_in(history, parent).is_some_and(|of_parent| Mode::within(mode, of_parent))
}

fn is_mismatch(history: &History, phase: u32, number: Option<u32>) -> bool {
    number.is_some() && proposed(history, phase).is_some_and(|other| Some(other) != number)
}

/// A registration that is asked for.
#[derive(Clone, Copy)]
struct Registering {
    parent: u32,
    child: u32,
    mode: Mode,
}

fn register_causes(history: &History, asked: Registering) -> Option<Refusal> {
    let Registering {
        parent,
        child,
        mode,
    } = asked;
    let limits = history.limits();
    let causes = [
        (!live(history, parent), Refusal::NotRegistered),
        (!is_within(history, parent, mode), Refusal::MoreThanParent),
        (child >= limits.tasks, Refusal::TasksFull),
        (mode_in(history, child).is_some(), Refusal::RegisteredTwice),
        (live_count(history) >= limits.regs, Refusal::RegsFull),
    ];
    first_of(causes.as_slice())
}

fn signal_causes(history: &History, task: u32, number: Option<u32>) -> Option<Refusal> {
    let no_single = number.is_some() && !may_propose(history, task);
    let signalled = signals(history, task);
    let causes = [
        (!live(history, task), Refusal::NotRegistered),
        (!is_signaller(history, task), Refusal::NoSignal),
        (no_single, Refusal::NoSingle),
        (signalled != waits(history, task), Refusal::AlreadySignalled),
        (
            is_mismatch(history, signalled, number),
            Refusal::SingleMismatch,
        ),
    ];
    first_of(causes.as_slice())
}

fn pass_causes(history: &History, task: u32) -> Option<Refusal> {
    let is_ahead = u64::from(signals(history, task)) == u64::from(waits(history, task)) + 1;
    let causes = [
        (!live(history, task), Refusal::NotRegistered),
        (
            is_signaller(history, task) && !is_ahead,
            Refusal::NotSignalled,
        ),
    ];
    first_of(causes.as_slice())
}

fn send_causes(history: &History, task: u32, accumulator: u8) -> Option<Refusal> {
    let causes = [
        (!live(history, task), Refusal::NotRegistered),
        (!is_signaller(history, task), Refusal::NoSignal),
        (has_no(history, accumulator), Refusal::NoAccumulator),
    ];
    first_of(causes.as_slice())
}

fn look_causes(history: &History, task: u32, accumulator: u8) -> Option<Refusal> {
    let causes = [
        (!live(history, task), Refusal::NotRegistered),
        (!is_waiter(history, task), Refusal::NoWait),
        (has_no(history, accumulator), Refusal::NoAccumulator),
        (waits(history, task) == 0, Refusal::NoPhaseYet),
    ];
    first_of(causes.as_slice())
}

/// The first refusal of the call whose cause stands, room aside.
fn cause(history: &History, call: Call) -> Option<Refusal> {
    match call {
        Call::Make(task, _) => {
            let causes = [
                (history.len() > 0, Refusal::NotNow),
                (task >= history.limits().tasks, Refusal::TasksFull),
            ];
            first_of(causes.as_slice())
        }
        Call::Register(parent, child, mode) => {
            let asked = Registering {
                parent,
                child,
                mode,
            };
            register_causes(history, asked)
        }
        Call::Signal(task, number) => signal_causes(history, task, number),
        Call::Pass(task) => pass_causes(history, task),
        Call::SingleDone(task) | Call::Drop(task) => {
            let causes = [
                (!live(history, task), Refusal::NotRegistered),
                (!allowed(history, event_for(history, call)), Refusal::NotNow),
            ];
            first_of(causes.as_slice())
        }
        Call::Send(task, accumulator, _) => send_causes(history, task, accumulator),
        Call::Look(task, accumulator) => look_causes(history, task, accumulator),
    }
}

/// Whether a task that waits may not pass yet, if it may claim nothing.
fn is_early(history: &History, task: u32) -> bool {
    let phase = waits(history, task);
    let is_settled = proposed(history, phase).is_none() || did(history, phase);
    is_waiter(history, task) && !(closed(history, phase) && is_settled)
}

/// Whether a signal of this phase would leave the task as many phases behind as the bound is.
fn falls_behind(history: &History, bound: Bound, phase: u32, task: TaskNumber) -> bool {
    let task = task.get();
    let least = u64::from(waits(history, task)) + u64::from(bound.phases());
    live(history, task) && is_waiter(history, task) && least <= u64::from(phase)
}

/// Whether the task's signal would go beyond the bound.
fn is_too_far(history: &History, task: u32) -> bool {
    let Some(bound) = history.bound() else {
        return false;
    };
    let phase = signals(history, task);
    (0..history.limits().tasks).any(|other| falls_behind(
        history,
        bound,
        phase,
        TaskNumber::of(other),
    ))
}

/// Whether the call has to wait, where no refusal stands.
fn must_wait(history: &History, call: Call) -> bool {
    match call {
        Call::Signal(task, _) => is_too_far(history, task),
        Call::Pass(task) => is_early(history, task),
        _ => false,
    }
}

/// What the task sees of the accumulator: the phase before its own.
fn seen_by(history: &History, task: u32, accumulator: u8) -> Look {
    let phase = waits(history, task).saturating_sub(1);
    fold(history, accumulator, phase).unwrap_or(Look::Nothing)
}

/// The event that the call adds if it is done.
fn event_for(history: &History, call: Call) -> Event {
    match call {
        Call::Make(task, mode) => Event::Make(task, mode),
        Call::Register(parent, child, mode) => Event::Reg(parent, child, mode),
        Call::Signal(task, number) => Event::Sig(task, number),
        Call::Pass(task) => {
            if allowed(history, Event::Claim(task)) {
                Event::Claim(task)
            } else {
                Event::Pass(task)
            }
        }
        Call::SingleDone(task) => Event::Did(task),
        Call::Send(task, accumulator, value) => Event::Send(task, accumulator, value),
        Call::Look(task, accumulator) => Event::Look(
            task,
            accumulator,
            seen_by(history, task, accumulator),
        ),
        Call::Drop(task) => Event::Drop(task),
    }
}

/// The reply to a call that adds this event.
fn reply_for(history: &History, event: Event) -> Reply {
    match event {
        Event::Pass(task) => Reply::Phase(waits(history, task)),
        Event::Claim(task) => { Reply::Claim(proposed(history, waits(history, task)).unwrap_or(0)) }
        Event::Look(_, _, seen) => Reply::Saw(seen),
        _ => Reply::Done,
    }
}

/// The reply to the call, and the event that it adds if it is done.
pub(super) fn expected(history: &History, call: Call) -> (Reply, Option<Event>) {
    let event = event_for(history, call);
    if allowed(history, event) {
        return (reply_for(history, event), Some(event));
    }
    if let Some(refusal) = cause(history, call) {
        return (Reply::Refused(refusal), None);
    }
    if must_wait(history, call) {
        return (Reply::NotYet, None);
    }
    (Reply::Refused(Refusal::HistoryFull), None)
}
