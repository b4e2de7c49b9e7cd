//! What is asked of a run's trace is answered of the trace that comes back, below and from the count of
//! events on from which the question has a thread of its own if there are two workers.
ghost use Rattle.std.specs.Prelude.{◌<◌, ◌≤◌};

use crate::asserted::equal_at;
use job_script::{Program, read_program};
use phase_modes::Refusal;
use phased_rt::{OpenGate, Question, Workers, run_and_ask};
use schedule_run::follows;
use std::alloc::Global;
use std::process::Abort;
use std::sync::Wait;
use std::test::Fail;
use std::thread::Threads;
use trace_model::Trace;

/// How many events a trace has, and whether it follows a program.
#[derive(Drop)]
struct CountAndFollow<'p> {
    program: &'p Program,
}

impl<'p> Question for CountAndFollow<'p> {
    type Answer = (usize, Result<(), Refusal>);

    fn ask(&self, alloc: Global, trace: &Trace) -> (usize, Result<(), Refusal>) {
        (trace.len(), follows(alloc, self.program, trace))
    }
}

/// The root makes a phaser, 1 event, goes 1,363 or 1,364 phases, 3 events each, and ends, 3 events.
const SHORT: &str =
    r#"{"main":[["new","p","SIG_WAIT",[]],["repeat",681,[["next"],["next"]]],["next"]]}"#;

const LONG: &str = r#"{"main":[["new","p","SIG_WAIT",[]],["repeat",682,[["next"],["next"]]]]}"#;

/// What is run, what its trace is asked to follow, how many events it has, and the answer. If one of
/// both has a phase more, they part after 1 + 3 · 1363 events.
const ROWS: [(&str, &str, usize, Result<(), Refusal>); 4] = [
    (SHORT, SHORT, 4093, Ok(())),
    (SHORT, LONG, 4093, Err(Refusal::NotExplained(4091))),
    (LONG, LONG, 4096, Ok(())),
    (LONG, SHORT, 4096, Err(Refusal::NotExplained(4091))),
];

/// Runs one program, and asks of the other.
fn check_row<R: Abort + Threads + Wait + Sync>(
    rt: &R,
    alloc: Global,
    texts: (&str, &str),
    workers: u32,
    wanted: (usize, Result<(), Refusal>),
) -> Result<(), Fail>
    requires { (0 < workers) × (workers ≤ 16) }
{
    let program = read_program(alloc, texts.0.as_bytes())?;
    let asked = read_program(alloc, texts.1.as_bytes())?;
    let question = CountAndFollow { program: &asked };
    let (report, answer) = run_and_ask(
        Workers {
            rt,
            number: workers,
        },
        alloc,
        program.root(),
        program.limits(),
        &OpenGate,
        &question,
    )?;
    equal_at(rt, ("workers", workers), answer, wanted);
    equal_at(rt, ("workers", workers), report.trace.len(), wanted.0);
    Ok(())
}

#[test]
fn answered_of_the_trace(rt: HostRuntime) -> Result<(), Fail> {
    for (run, asked, events, answer) in ROWS {
        for workers in [1, 2, 16] {
            check_row(&rt, rt.alloc(), (run, asked), workers, (events, answer))?;
        }
    }
    Ok(())
}
