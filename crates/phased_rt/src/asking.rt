//! A whole run, of whose trace its caller asks something besides.
ghost use Rattle.std.specs.Prelude.{◌≡◌, ◌<◌, ◌≤◌, ℕ, true, reverse, IfOk, IfErr};
ghost use Rattle.phase_modes.specs.Limits.{limits_fit};
ghost use Rattle.phase_model.specs.Rules.{Story};
ghost use Rattle.world_model.specs.Report.{report_of};
ghost use Rattle.trace_model.specs.Explained.{past, is_explained};
ghost use Rattle.tasks_in_flight.specs.Heard.{nothing, at_start};
ghost use Rattle.tasks_in_flight.specs.Refused.{IsRunRefused};
ghost use Rattle.phased_rt.specs.Left.{IsLeftByAll};
ghost use Rattle.phased_rt.specs.Says.{SaysOfTrace, SaysOfEach};
ghost use Rattle.phased_rt.specs.Told.{IsToldBy};
ghost use Rattle.phased_rt.specs.Totals.{AreTotals};

use crate::question::Question;
use crate::report::Report;
use crate::told::told_of;
use crate::workers::Workers;
use crate::{Body, Gate, run_tasks};
use phase_modes::{Limits, Refusal};
use std::alloc::Global;
use std::sync::Wait;
use std::thread::Threads;

/// The same as `run`, and the answer of a question on the run's trace. It is asked by a thread of its
/// own, while this one replays the trace, if there are two workers or more and 4,096 events or
/// more; else once the trace is replayed. A run that can't be told is refused, whatever was answered.
pub fn run_and_ask<B: Body + Send, G: Gate + Sync, Q: Question + Sync, R: Threads + Wait + Sync>(
    workers: Workers<'_, R>,
    alloc: Global,
    root: B,
    limits: Limits,
    gate: &G,
    question: &Q,
) -> Result<(Report<B>, Q::Answer), Refusal>
    requires limits { limits_fit limits ≡ true }
    requires workers { (0 < workers.number) × (workers.number ≤ 16) }
    ensures limits { IfOk result (λ r. r.0.trace.limits ≡ limits) }
    ensures explained { IfOk result (λ r. is_explained r.0.trace ≡ true) }
    ensures world { IfOk result (λ r. r.0.world ≡ report_of limits (past (reverse r.0.trace.events))) }
    ensures left { IfOk result (λ r. IsLeftByAll r.0.trace.events) }
    ensures told { IfOk result (λ r. IsToldBy limits r.0.trace.events r.0.totals) }
    ensures totals { IfOk result (λ r. AreTotals limits r.0.trace.events r.0.world.totals r.0.totals) }
    ensures says { IfOk result (λ r. ((stories : ℕ → Story) → B.shows root 0 nothing (at_start (λ n. 0) stories)) → SaysOfTrace B.shows limits r.0.trace.events r.0.root) }
    ensures each { IfOk result (λ r. ((stories : ℕ → Story) → B.shows root 0 nothing (at_start (λ n. 0) stories)) → SaysOfEach B.shows limits r.0.trace.events) }
    ensures answered { IfOk result (λ r. Q.answers question.now r.0.trace r.1) }
    ensures refused { IfErr result (λ e. IsRunRefused e) }
{
    let Workers { rt, number } = workers;
    let remains = run_tasks(rt, alloc, root, limits, number, gate)?;
    told_of(rt, alloc, limits, number, remains, question)
}
