//! What a run is reported as, by the parts that it leaves.
ghost use Rattle.std.specs.Prelude.{◌≡◌, true, reverse, IfOk, IfErr};
ghost use Rattle.phase_modes.specs.Limits.{limits_fit};
ghost use Rattle.world_model.specs.Report.{report_of};
ghost use Rattle.trace_model.specs.Explained.{past, is_explained};
ghost use Rattle.trace_model.specs.Parts.{IsTraceOf};
ghost use Rattle.tasks_in_flight.specs.Refused.{IsRunRefused};
ghost use Rattle.phased_rt.specs.Left.{IsLeftByAll};

use crate::asked::asked_of;
use crate::question::Question;
use phase_modes::{Limits, Refusal};
use share_book::Totals;
use std::alloc::Global;
use std::thread::Threads;
use trace_model::{Part, Trace};
use trace_replay::merge;
use world_model::WorldReport;

/// What a run made.
#[derive(Drop)]
pub struct Report<B> {
    /// The report of the history that the trace is.
    pub world: WorldReport,
    /// What all phasers together add up to.
    pub totals: Totals,
    pub trace: Trace,
    /// The root's body as it stood after its last `step` or `single`.
    pub root: B,
}

#[tactic(auto, using(trace_model::proofs::Faults::faultless, crate::proofs::Refusals::merge_refused, crate::proofs::Refusals::replay_refused))]
/// The trace of these parts, the report of the run of so many workers that left them, and the answer
/// of a question on the trace. `NotExplained` if the parts merge to no trace that a world explains,
/// `Memory` if there is too little for it.
pub(crate) fn reported<Q: Question + Sync, R: Threads>(
    rt: &R,
    alloc: Global,
    limits: Limits,
    workers: u32,
    parts: &[Part],
    question: &Q,
) -> Result<(WorldReport, Trace, Q::Answer), Refusal>
    requires { limits_fit limits ≡ true }
    ensures limits { IfOk result (λ r. r.1.limits ≡ limits) }
    ensures of_parts { IfOk result (λ r. IsTraceOf parts.now r.1.events) }
    ensures explained { IfOk result (λ r. is_explained r.1 ≡ true) }
    ensures world { IfOk result (λ r. r.0 ≡ report_of limits (past (reverse r.1.events))) }
    ensures left { IfOk result (λ r. IsLeftByAll r.1.events) }
    ensures answered { IfOk result (λ r. Q.answers question.now r.1 r.2) }
    ensures refused { IfErr result (λ e. IsRunRefused e) }
{
    let trace = merge(alloc, limits, parts)?;
    let (world, answer) = asked_of(rt, alloc, workers, &trace, question)?;
    Ok((world, trace, answer))
}
