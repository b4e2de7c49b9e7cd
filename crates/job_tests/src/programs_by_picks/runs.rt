//! A program run by picks, with the events that it makes, one by one. The worked examples and
//! their traces stand in `examples/schedules` alone.
use crate::asserted::{equal, holds_at};
use crate::entries::entry_of;
use finish_core::FinishEvent;
use job_script::read_program;
use phase_model::{Op, Ops, Terms};
use phase_modes::{Mode, Pair, Phased};
use schedule_run::{Run, run_picks};
use std::alloc::Global;
use std::process::Abort;
use std::test::Fail;
use trace_model::{TracedEvent, TracedStep};
use world_model::Begun;

/// The run of the program that this text spells.
fn run_of(alloc: Global, text: &str, picks: &[u32]) -> Result<Run, Fail> {
    let Ok(program) = read_program(alloc, text.as_bytes()) else {
        return Err(Fail::from("the text is a program"));
    };
    match run_picks(alloc, &program, picks) {
        Ok(run) => Ok(run),
        Err(_) => Err(Fail::from("memory")),
    }
}

/// A place of a trace, counted from 0, and the event there.
type Placed = (usize, TracedEvent);

/// The event at this place of the trace has the next ticket, and is this one.
fn event_is(run: &Run, place: usize, event: TracedEvent) -> bool {
    place < run.trace.len() && entry_of(&run.trace, place) == (place as u64 + 1, event)
}

/// The trace has so many events, and at these places these ones.
fn trace_is(rt: &impl Abort, run: &Run, len: usize, rows: &[Placed]) {
    equal(rt, run.trace.len(), len);
    for (place, event) in rows {
        holds_at(rt, ("place", place), event_is(run, *place, *event));
    }
}

/// The phaser 1 alone, in mode `SIG`.
fn phaser_1() -> Phased {
    let mut named = Phased::none();
    named.push(Pair {
        phaser: 1,
        mode: Mode::Sig,
    });
    named
}

/// What the root does before its child's first act.
fn root_begins() -> [Placed; 5] {
    let none = Terms {
        ops: Ops::none(),
        bound: None,
    };
    let mut ops = Ops::none();
    ops.push(Op::Sum);
    let one = Terms { ops, bound: None };
    [
        (
            0,
            TracedEvent::Phaser(0, TracedStep::Make(0, Mode::Sig, none)),
        ),
        (
            1,
            TracedEvent::Phaser(1, TracedStep::Make(0, Mode::Sig, one)),
        ),
        (2, TracedEvent::Begin(0, Begun::Async(1, phaser_1()))),
        (3, TracedEvent::Phaser(1, TracedStep::Reg(0, 1, Mode::Sig))),
        (4, TracedEvent::Finish(0, FinishEvent::Spawned(1))),
    ]
}

/// The child sends to the phaser that its parent made last, and ends; the root goes on and ends.
const BOTH_END: [Placed; 13] = [
    (5, TracedEvent::Phaser(1, TracedStep::Send(1, 0, 1))),
    (6, TracedEvent::Begin(1, Begun::End)),
    (7, TracedEvent::Phaser(1, TracedStep::Drop(1))),
    (8, TracedEvent::Finish(0, FinishEvent::Ended(1))),
    (9, TracedEvent::Begin(0, Begun::Next)),
    (10, TracedEvent::Phaser(0, TracedStep::Sig(0, None))),
    (11, TracedEvent::Phaser(1, TracedStep::Sig(0, None))),
    (12, TracedEvent::Phaser(0, TracedStep::Pass(0))),
    (13, TracedEvent::Phaser(1, TracedStep::Pass(0))),
    (14, TracedEvent::Begin(0, Begun::End)),
    (15, TracedEvent::Phaser(0, TracedStep::Drop(0))),
    (16, TracedEvent::Phaser(1, TracedStep::Drop(0))),
    (17, TracedEvent::Finish(0, FinishEvent::Shut)),
];

/// Task 1 is picked before it is born, and task 9 is none.
const OWN_PICKS: [u32; 12] = [1, 9, 0, 0, 0, 0, 0, 1, 1, 1, 1, 9];

#[test]
fn each_task_has_its_own_acts(rt: HostRuntime) -> Result<(), Fail> {
    let text =
        r#"{"limits":{"tasks":2},"main":[["new","q","SIG",[]],["new","p","SIG",["sum"]],["async",[["p","SIG"]],[["send","p",0,1]]],["next"]]}"#;
    let run = run_of(rt.alloc(), text, &OWN_PICKS)?;
    trace_is(&rt, &run, 18, &root_begins());
    trace_is(&rt, &run, 18, &BOTH_END);
    Ok(())
}
