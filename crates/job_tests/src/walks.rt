//! Traces gone through by a body of the tests' own, and what a walk is made of.
use crate::asserted::{equal, holds_at};
use job_script::{Act, Answer};
use phase_model::{Look, Ops};
use phase_modes::{Limits, Mode, Phased, Refusal};
use std::alloc::Global;
use std::test::Fail;
use trace_model::{Trace, TracedEvent, TracedStep};
use trace_walk::{Goes, Numbers, Seat, event_of, tried_of, walk};
use world_model::{Begun, Step, Tried, WorldEvent};

/// A body that looks until it sees a value, and signals then.
#[derive(Drop)]
struct Waiter;

impl Goes for Waiter {
    ghost use Rattle.job_tests.specs.Waiters.{waits_for_values};

    ghost next = { waits_for_values };

    fn go(&mut self, heard: Answer) -> Act<Waiter> {
        match heard {
            Answer::Saw(Look::Value(_)) => Act::Signal,
            _ => Act::Look(0, 0),
        }
    }
}

/// What a walk by that body answers to these events.
fn walked(alloc: Global, events: &[TracedEvent]) -> Result<Result<(), Refusal>, Fail> {
    let mut trace = Trace::new(alloc, Limits::default());
    for (place, event) in events.iter().enumerate() {
        trace
            .push(place as u64, *event)
            .map_err(|_| Fail::from("memory"))?;
    }
    Ok(walk(alloc, Waiter, &trace))
}

fn looked(task: u32, seen: Look) -> TracedEvent {
    TracedEvent::Phaser(0, TracedStep::Look(task, 0, seen))
}

/// The body hears what the trace tells, though no world would explain it.
#[test]
fn a_body_hears_what_the_trace_tells(rt: HostRuntime) -> Result<(), Fail> {
    let nothing = looked(0, Look::Nothing);
    let seven = looked(0, Look::Value(7));
    let signal = TracedEvent::Begin(0, Begun::Signal);
    let waited = [nothing, seven, signal, nothing];
    equal(&rt, walked(rt.alloc(), &waited)?, Ok(()));
    let another = [nothing, nothing, signal];
    equal(
        &rt,
        walked(rt.alloc(), &another)?,
        Err(Refusal::NotExplained(3)),
    );
    Ok(())
}

/// Whom nobody spawned has its end alone, as often as it likes.
#[test]
fn a_task_without_a_seat_ends(rt: HostRuntime) -> Result<(), Fail> {
    let end = TracedEvent::Begin(5, Begun::End);
    equal(&rt, walked(rt.alloc(), &[end, end])?, Ok(()));
    let looks = [end, looked(5, Look::Nothing)];
    equal(
        &rt,
        walked(rt.alloc(), &looks)?,
        Err(Refusal::NotExplained(2)),
    );
    Ok(())
}

/// A seat gives one act after the other, by what its task hears.
#[test]
fn a_seat_goes_on_by_what_it_hears(rt: HostRuntime) -> Result<(), Fail> {
    let mut seat = Seat::begun(Waiter);
    let first = seat.next_act(Answer::Saw(Look::Value(7)));
    holds_at(&rt, 1, matches!(first, Act::Look(0, 0)));
    let second = seat.next_act(Answer::Done);
    holds_at(&rt, 2, matches!(second, Act::Signal));
    Ok(())
}

/// The number that a `new` draws is the phaser's, and the event that makes it is the task's.
#[test]
fn an_act_is_tried_with_the_numbers_that_it_draws(rt: HostRuntime) -> Result<(), Fail> {
    let numbers = Numbers {
        phaser: 3,
        task: 4,
        finish: 5,
    };
    let act: Act<Waiter> = Act::New(Mode::Sig, Ops::none(), None);
    let tried = tried_of(Phased::none(), numbers, &act);
    holds_at(&rt, "act", matches!(tried, Tried::New(3, Mode::Sig, _)));
    let event = event_of(9, tried);
    holds_at(
        &rt,
        "event",
        matches!(event, WorldEvent::Phaser(3, Step::Make(9, Mode::Sig, _))),
    );
    Ok(())
}
