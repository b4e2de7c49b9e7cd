//! What a run made, told by what it leaves.
ghost use Rattle.std.specs.Prelude.{◌≡◌, ◌++◌, true, reverse, IfOk, IfErr};
ghost use Rattle.phase_modes.specs.Limits.{limits_fit};
ghost use Rattle.world_model.specs.Report.{report_of};
ghost use Rattle.trace_model.specs.Explained.{past, is_explained};
ghost use Rattle.tasks_in_flight.specs.Refused.{IsRunRefused};
ghost use Rattle.task_remains.specs.Remaining.{AreRemains};
ghost use Rattle.tasks_in_flight.specs.Said.{IsSaid, AreSaid, IsSaidOf};
ghost use Rattle.phased_rt.specs.Left.{IsLeftByAll};
ghost use Rattle.phased_rt.specs.Says.{SaysOfTrace, SaysOfEach};
ghost use Rattle.phased_rt.specs.Told.{IsToldBy};
ghost use Rattle.phased_rt.specs.Totals.{AreTotals};

use crate::question::Question;
use crate::report::{Report, reported};
use crate::{Body, Remains};
use phase_modes::{Limits, Refusal};
use std::alloc::Global;
use std::thread::Threads;
use trace_model::Part;

/// All parts in a row.
fn joined(phasers: Vec<Part>, finishes: Vec<Part>, logs: Vec<Part>) -> Result<Vec<Part>, Refusal>
    ensures parts { IfOk result (λ parts. parts.items ≡ (phasers.items ++ finishes.items) ++ logs.items) }
    ensures memory { IfErr result (λ e. e ≡ Refusal.Memory) }
{
    let mut parts = phasers;
    let mut finishes = finishes;
    let mut logs = logs;
    parts.append(&mut finishes)?;
    parts.append(&mut logs)?;
    Ok(parts)
}

/// What a run of so many workers made, by what it leaves, and the answer of a question on its trace.
/// `NotExplained` if the parts merge to no trace that a world explains.
pub(crate) fn told_of<B: Body, Q: Question + Sync, R: Threads>(
    rt: &R,
    alloc: Global,
    limits: Limits,
    workers: u32,
    remains: Remains<B>,
    question: &Q,
) -> Result<(Report<B>, Q::Answer), Refusal>
    requires limits { limits_fit limits ≡ true }
    requires remains { AreRemains limits remains.phasers.items remains.finishes.items remains.logs.items remains.totals }
    ensures limits { IfOk result (λ r. r.0.trace.limits ≡ limits) }
    ensures explained { IfOk result (λ r. is_explained r.0.trace ≡ true) }
    ensures world { IfOk result (λ r. r.0.world ≡ report_of limits (past (reverse r.0.trace.events))) }
    ensures left { IfOk result (λ r. IsLeftByAll r.0.trace.events) }
    ensures told { IfOk result (λ r. IsToldBy limits r.0.trace.events r.0.totals) }
    ensures totals { IfOk result (λ r. AreTotals limits r.0.trace.events r.0.world.totals r.0.totals) }
    ensures says { IfOk result (λ r. IsSaid B.shows limits remains.phasers.items remains.logs.items remains.root → SaysOfTrace B.shows limits r.0.trace.events r.0.root) }
    ensures each { IfOk result (λ r. AreSaid (IsSaidOf B.shows) limits remains.phasers.items remains.logs.items → SaysOfEach B.shows limits r.0.trace.events) }
    ensures answered { IfOk result (λ r. Q.answers question.now r.0.trace r.1) }
    ensures refused { IfErr result (λ e. IsRunRefused e) }
{
    let Remains {
        phasers,
        finishes,
        logs,
        totals,
        root,
    } = remains;
    let parts = joined(phasers, finishes, logs)?;
    let (world, trace, answer) = reported(rt, alloc, limits, workers, &parts, question)?;
    let report = Report {
        world,
        totals,
        trace,
        root,
    };
    Ok((report, answer))
}
