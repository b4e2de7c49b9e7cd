//! A whole run: its workers work, and what they leave is told.
ghost use Rattle.std.specs.Prelude.{◌≡◌, ◌<◌, ◌≤◌, ℕ, true, reverse, IfOk, IfErr};
ghost use Rattle.phase_modes.specs.Limits.{limits_fit};
ghost use Rattle.phase_model.specs.Rules.{Story};
ghost use Rattle.world_model.specs.Report.{report_of};
ghost use Rattle.trace_model.specs.Explained.{past, is_explained};
ghost use Rattle.tasks_in_flight.specs.Heard.{nothing, at_start};
ghost use Rattle.tasks_in_flight.specs.Refused.{IsRunRefused};
ghost use Rattle.phased_rt.specs.Left.{IsLeftByAll};
ghost use Rattle.phased_rt.specs.Says.{SaysOfTrace, SaysOfEach};
ghost use Rattle.phased_rt.specs.Told.{IsToldBy};
ghost use Rattle.phased_rt.specs.Totals.{AreTotals};

use crate::question::NoQuestion;
use crate::report::Report;
use crate::told::told_of;
use crate::{Body, Gate, run_tasks};
use phase_modes::{Limits, Refusal};
use std::alloc::Global;
use std::sync::Wait;
use std::thread::Threads;

/// Runs the root, and every task that comes of it, by 1 to 16 workers, each in a thread of its own
/// if one can be made, until the root has ended. `gate` is called round each step of a body; `OpenGate` does nothing.
///
/// A task that is refused something ends by itself, and the others go on: it is a line of the
/// report, and no error. `Memory` if the tables, the workers or the report get none; a task that
/// gets none for a child, a finish or a step ends by 23 alone. `NotExplained` if the run can't be
/// told: at a place from 1 on if the trace that was put together isn't explained there, at 0
/// if a lock or the queue answered what no run can bring about. Neither is meant to come.
pub fn run<B: Body + Send, G: Gate + Sync, R: Threads + Wait + Sync>(
    rt: &R,
    alloc: Global,
    root: B,
    limits: Limits,
    workers: u32,
    gate: &G,
) -> Result<Report<B>, Refusal>
    requires limits { limits_fit limits ≡ true }
    requires workers { (0 < workers) × (workers ≤ 16) }
    ensures limits { IfOk result (λ r. r.trace.limits ≡ limits) }
    ensures explained { IfOk result (λ r. is_explained r.trace ≡ true) }
    ensures world { IfOk result (λ r. r.world ≡ report_of limits (past (reverse r.trace.events))) }
    ensures left { IfOk result (λ r. IsLeftByAll r.trace.events) }
    ensures told { IfOk result (λ r. IsToldBy limits r.trace.events r.totals) }
    ensures totals { IfOk result (λ r. AreTotals limits r.trace.events r.world.totals r.totals) }
    ensures says { IfOk result (λ r. ((stories : ℕ → Story) → B.shows root 0 nothing (at_start (λ n. 0) stories)) → SaysOfTrace B.shows limits r.trace.events r.root) }
    ensures each { IfOk result (λ r. ((stories : ℕ → Story) → B.shows root 0 nothing (at_start (λ n. 0) stories)) → SaysOfEach B.shows limits r.trace.events) }
    ensures refused { IfErr result (λ e. IsRunRefused e) }
{
    let remains = run_tasks(rt, alloc, root, limits, workers, gate)?;
    let (report, ()) = told_of(rt, alloc, limits, 1, remains, &NoQuestion)?;
    Ok(report)
}
