//! A trace is replayed, and what its caller asks of it is asked: at once, if that saves time.
ghost use Rattle.std.specs.Prelude.{Ok, Err, IfOk, IfErr};
ghost use Rattle.trace_replay.specs.Replaying.{Replays};

use crate::question::Question;
use phase_modes::Refusal;
use std::alloc::Global;
use std::thread;
use std::thread::Threads;
use trace_model::Trace;
use trace_replay::replay;
use world_model::WorldReport;

/// From so many events on a thread is started for the question.
const MANY: usize = 4096;

/// The replay in this thread, the question in one of its own if one can be made.
fn asked_beside<Q: Question + Sync, R: Threads>(
    rt: &R,
    alloc: Global,
    trace: &Trace,
    question: &Q,
) -> Result<(WorldReport, Q::Answer), Refusal>
    ensures replayed { IfOk result (λ r. Replays trace.now (Ok r.0)) }
    ensures answered { IfOk result (λ r. Q.answers question.now trace.now r.1) }
    ensures refused { IfErr result (λ e. Replays trace.now (Err e)) }
{
    let (answer, world) = thread::join(rt, || question.ask(alloc, trace), || replay(alloc, trace));
    Ok((world?, answer))
}

/// The replay, and then the question.
fn asked_after<Q: Question>(
    alloc: Global,
    trace: &Trace,
    question: &Q,
) -> Result<(WorldReport, Q::Answer), Refusal>
    ensures replayed { IfOk result (λ r. Replays trace.now (Ok r.0)) }
    ensures answered { IfOk result (λ r. Q.answers question.now trace.now r.1) }
    ensures refused { IfErr result (λ e. Replays trace.now (Err e)) }
{
    let world = replay(alloc, trace)?;
    Ok((world, question.ask(alloc, trace)))
}

/// The report of the trace's replay, and the answer of the question on that trace. What the replay is
/// refused by comes first. Both go on at once for two workers or more and a trace that has many events.
pub(crate) fn asked_of<Q: Question + Sync, R: Threads>(
    rt: &R,
    alloc: Global,
    workers: u32,
    trace: &Trace,
    question: &Q,
) -> Result<(WorldReport, Q::Answer), Refusal>
    ensures replayed { IfOk result (λ r. Replays trace.now (Ok r.0)) }
    ensures answered { IfOk result (λ r. Q.answers question.now trace.now r.1) }
    ensures refused { IfErr result (λ e. Replays trace.now (Err e)) }
{
    if workers >= 2 && trace.len() >= MANY {
        asked_beside(rt, alloc, trace, question)
    } else {
        asked_after(alloc, trace, question)
    }
}
