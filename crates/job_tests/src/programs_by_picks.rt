//! Programs stepped through task by task, and acts as the world knows them.
use crate::asserted::holds_at;
use finish_core::FinishEvent;
use job_script::{Act, Answer, Program, ScriptBody, read_program};
use phase_model::{Look, Ops, Terms};
use phase_modes::{Limits, Mode, Pair, Phased};
use std::alloc::Global;
use std::process::Abort;
use std::test::Fail;
use trace_model::{EventView, LargeEvent, ShortAct, Trace, TracedEvent, TracedStep};
use trace_walk::{actor, is_given};
use world_model::{Begun, Tried};

mod runs;
mod traces;

fn program_of(alloc: Global, text: &str) -> Result<Program, Fail> {
    match read_program(alloc, text.as_bytes()) {
        Ok(program) => Ok(program),
        Err(_) => Err(Fail::from("the text is a program")),
    }
}

/// The one phaser 3, in mode `SIG`.
fn one_phaser() -> Phased {
    let mut own = Phased::none();
    own.push(Pair {
        phaser: 3,
        mode: Mode::Sig,
    });
    own
}

/// No accumulators and no bound.
fn unbounded() -> Terms {
    Terms {
        ops: Ops::none(),
        bound: None,
    }
}

/// A trace with this one event.
fn one_event(alloc: Global, event: TracedEvent) -> Result<Trace, Fail> {
    let mut trace = Trace::new(alloc, Limits::default());
    trace.push(1, event).map_err(|_| Fail::from("memory"))?;
    Ok(trace)
}

/// A trace in which the root made the one phaser 3, and nothing else was done.
fn one_making(alloc: Global) -> Result<Trace, Fail> {
    let made = TracedStep::Make(0, Mode::Sig, unbounded());
    one_event(alloc, TracedEvent::Phaser(3, made))
}

/// An event that makes an act of the root, and the act.
type Row = (TracedEvent, Tried);

/// Whether it is the root's event, and the body's act after this trace is the one that it makes or
/// refuses, the numbers that it drew among it; a wait isn't.
fn is_roots(trace: &Trace, event: EventView<'_>, act: &Act<ScriptBody<'_>>) -> bool {
    let wait = EventView::Begin(0, ShortAct::Wait);
    actor(event) == Some(0)
        && is_given(trace, trace.len(), event, act)
        && !is_given(trace, trace.len(), wait, act)
}

/// Whether that is so of the row's event, as a trace lends it, and of the refusal of its act.
fn is_tried_so(
    alloc: Global,
    trace: &Trace,
    row: &Row,
    act: &Act<ScriptBody<'_>>,
) -> Result<bool, Fail> {
    let (event, tried) = row;
    let refused = LargeEvent::Refuse(0, *tried, 1);
    let held = one_event(alloc, *event)?;
    if held.len() == 0 {
        return Ok(false);
    }
    let (_, lent) = held.entry(0);
    Ok(is_roots(trace, lent, act) && is_roots(trace, EventView::Long(&refused), act))
}

/// The body's next act, after this answer, is the row's.
fn gives_next(
    rt: &impl Abort,
    alloc: Global,
    trace: &Trace,
    body: &mut ScriptBody<'_>,
    answer: Answer,
    row: &Row,
) -> Result<(), Fail> {
    let Ok(act) = body.step(answer) else {
        return Err(Fail::from("an act"));
    };
    let is_so = is_tried_so(alloc, trace, row, &act)?;
    holds_at(rt, row.0, is_so);
    Ok(())
}

/// The root of the program of this text gives the rows' acts, one after the other; each is answered as a
/// making is.
fn gives(rt: &impl Abort, alloc: Global, text: &str, rows: &[Row]) -> Result<(), Fail> {
    let program = program_of(alloc, text)?;
    let trace = one_making(alloc)?;
    let mut root = program.root();
    let mut answer = Answer::Started;
    for row in rows {
        gives_next(rt, alloc, &trace, &mut root, answer, row)?;
        answer = Answer::Made(7);
    }
    Ok(())
}

/// The beginning of a spawn of task 4 on the one phaser.
fn one_child() -> Begun {
    Begun::Async(4, one_phaser())
}

#[test]
fn acts_are_tried(rt: HostRuntime) -> Result<(), Fail> {
    const TEXT: &str =
        r#"{"main":[["new","p","SIG",[]],["open"],["send","p",1,-2],["look","p",1],["next"],["async_all",[]]]}"#;
    let making = TracedStep::Make(0, Mode::Sig, unbounded());
    let rows = [
        (
            TracedEvent::Phaser(3, making),
            Tried::New(3, Mode::Sig, unbounded()),
        ),
        (
            TracedEvent::Finish(5, FinishEvent::Opened(0)),
            Tried::Open(5),
        ),
        (
            TracedEvent::Phaser(7, TracedStep::Send(0, 1, -2)),
            Tried::Send(7, 1, -2),
        ),
        (
            TracedEvent::Phaser(7, TracedStep::Look(0, 1, Look::Nothing)),
            Tried::Look(7, 1),
        ),
        (
            TracedEvent::Begin(0, Begun::Next),
            Tried::Begun(Begun::Next),
        ),
        (
            TracedEvent::Begin(0, one_child()),
            Tried::Begun(one_child()),
        ),
        (TracedEvent::Begin(0, Begun::End), Tried::Begun(Begun::End)),
    ];
    gives(&rt, rt.alloc(), TEXT, rows.as_slice())
}

/// Whether nobody acts by this event, and it isn't the end that a body gives.
fn is_no_act(trace: &Trace, event: EventView<'_>) -> bool {
    let end: Act<ScriptBody<'_>> = Act::End;
    actor(event).is_none() && !is_given(trace, trace.len(), event, &end)
}

#[test]
fn events_that_are_no_acts(rt: HostRuntime) -> Result<(), Fail> {
    let events = [
        TracedEvent::Phaser(0, TracedStep::Pass(1)),
        TracedEvent::Finish(0, FinishEvent::Spawned(1)),
        TracedEvent::Fail(1, 15),
    ];
    for event in events {
        let held = one_event(rt.alloc(), event)?;
        assert!(rt; 0 < held.len());
        let (_, lent) = held.entry(0);
        assert!(rt; is_no_act(&held, lent));
    }
    Ok(())
}
