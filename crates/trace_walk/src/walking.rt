//! Whether the acts of a trace are those that its tasks' bodies give: one walk over its events, with a
//! seat for each task.
ghost use Rattle.std.specs.Prelude.{◌≡◌, ℕ, ◌≤◌, [], List, length, option_map, reverse, take, Some, IfOk, IfErr};
ghost use Rattle.phase_modes.specs.declared.refusal.Refusal.TheVariants.{Memory as NoMemory};
ghost use Rattle.trace_walk.specs.Scripts.{act_of, parent_by};
ghost use Rattle.trace_model.specs.Explained.{event_of};
ghost use Rattle.trace_model.specs.Views.{long_event, viewed};
ghost use Rattle.trace_walk.specs.Walking.{first_astray, told_by, AnswersPlace};
ghost use Rattle.trace_walk.specs.inner.Seats.{seat_of, child_named, body_handed, seat_given, AreTold, IsTaken};

use crate::acts::actor;
use crate::given::is_given;
use crate::going::Goes;
use crate::seats::Seats;
use job_script::{Act, Answer};
use phase_model::Look;
use phase_modes::Refusal;
use std::alloc::Global;
use trace_model::{EventView, LargeEvent, ShortStep, Trace};

/// What the task of an act hears of a long event.
fn long_answer(event: &LargeEvent) -> Answer
    ensures { result ≡ told_by (long_event event.now) }
{
    match event {
        LargeEvent::Make(phaser, _, _, _) => Answer::Made(*phaser),
        LargeEvent::Async(_, child, _) => Answer::Spawned(*child),
        LargeEvent::Refuse(_, _, _) => Answer::Done,
    }
}

/// The same of any event that a trace lends.
fn answer_to(event: EventView<'_>) -> Answer
    ensures { result ≡ told_by (viewed event.entry) }
{
    match event {
        EventView::Phaser(_, ShortStep::Saw(_, _, value)) => Answer::Saw(Look::Value(value)),
        EventView::Phaser(_, ShortStep::SawNothing(_, _)) => Answer::Saw(Look::Nothing),
        EventView::Long(event) => long_answer(event),
        _ => Answer::Done,
    }
}

/// The child that an event names.
fn child_of(event: EventView<'_>) -> Option<u32>
    ensures { result ≡ child_named (viewed event.entry) }
{
    match event {
        EventView::Long(LargeEvent::Async(_, child, _)) => Some(*child),
        _ => None,
    }
}

/// The body that an act hands to a child.
fn body_of<B: Drop>(act: Act<B>) -> Option<B>
    ensures { result ≡ body_handed act }
{
    match act {
        Act::Async(body, _) | Act::AsyncAll(body) => Some(body),
        _ => None,
    }
}

/// Gives the child of an act its seat, if the act is a spawn.
fn seat_child<B: Goes>(
    seats: &mut Seats<B>,
    event: EventView<'_>,
    act: Act<B>,
) -> Result<(), Refusal>
    ensures given { IfOk result (λ _. (t : ℕ) → seat_of seats.new.seats t
        ≡ seat_given (parent_by t (event_of (viewed event.entry))) act (seat_of seats.old.seats t)) }
    ensures memory { IfErr result (λ e. e ≡ NoMemory) }
{
    let Some(child) = child_of(event) else {
        return Ok(());
    };
    let Some(body) = body_of(act) else {
        return Ok(());
    };
    seats.give(child, body)
}

/// Whether the act that an event makes or refuses is the one due of its task, after so many of a trace
/// before it; the task goes past it then. It is not in line, so that a walk's other events don't pay
/// for the room that an act needs.
#[inline(never)]
fn takes_act<B: Goes>(
    seats: &mut Seats<B>,
    trace: &Trace,
    count: usize,
    task: u32,
    event: EventView<'_>,
) -> Result<bool, Refusal>
    requires count { count ≤ length trace.now.events }
    requires own { option_map (λ m. m.task) (act_of (event_of (viewed event))) ≡ Some task }
    ensures taken { (root : B) → AreTold B.next root (reverse (take count trace.now.events)) (seat_of seats.old.seats)
        → IfOk result (λ b. IsTaken B.next root (reverse (take count trace.now.events)) (viewed event.entry)
        (seat_of seats.new.seats) b) }
    ensures memory { IfErr result (λ e. e ≡ NoMemory) }
{
    let act = seats.next_act(task, answer_to(event));
    if !is_given(trace, count, event, &act) {
        return Ok(false);
    }
    seat_child(seats, event, act)?;
    Ok(true)
}

/// Whether an event is no act, or the one due of its task after so many of a trace before it; it is
/// gone past then.
fn takes<B: Goes>(
    seats: &mut Seats<B>,
    trace: &Trace,
    count: usize,
    event: EventView<'_>,
) -> Result<bool, Refusal>
    requires { count ≤ length trace.now.events }
    ensures taken { (root : B) → AreTold B.next root (reverse (take count trace.now.events)) (seat_of seats.old.seats)
        → IfOk result (λ b. IsTaken B.next root (reverse (take count trace.now.events)) (viewed event.entry)
        (seat_of seats.new.seats) b) }
    ensures memory { IfErr result (λ e. e ≡ NoMemory) }
{
    match actor(event) {
        Some(task) => takes_act(seats, trace, count, task, event),
        None => Ok(true),
    }
}

/// Whether each act of a trace, made or refused, is the one that its task's body gives next: `Ok`, or
/// `NotExplained` with the place of the first event that isn't, counted from 1. A body hears what the
/// trace tells of each act before, and a task that nobody spawned has its end alone. Any trace is
/// taken, whether a world explains it or not. `Memory` if there is too little for the bodies. A
/// spawn on all phasers goes over the events before it, once for each phaser that its task ever came
/// to.
pub fn walk<B: Goes>(alloc: Global, root: B, trace: &Trace) -> Result<(), Refusal>
    ensures { AnswersPlace (first_astray B.next root [] 0 trace.now.events) result }
{
    let mut seats = Seats::new(alloc, root)?;
    for i in 0..trace.len() {
        let (_, event) = trace.entry(i);
        if !takes(&mut seats, trace, i, event)? {
            return Err(Refusal::NotExplained(i as u64 + 1));
        }
    }
    Ok(())
}
