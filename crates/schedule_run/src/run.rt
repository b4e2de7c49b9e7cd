//! A program run by picks: what came of it, and its trace.
ghost use Rattle.std.specs.Prelude.{ℕ, ◌≡◌, map, length, reverse, IfOk, IfErr, true};
ghost use Rattle.std.specs.List.{range_with_len};
ghost use Rattle.phase_modes.specs.declared.refusal.Refusal.TheVariants.{Memory as NoMemory};
ghost use Rattle.world_model.specs.Report.{report_of};
ghost use Rattle.trace_walk.specs.Follows.{follows};
ghost use Rattle.trace_walk.specs.Laws.{AllGiveUp};
ghost use Rattle.trace_walk.specs.Picks.{run_within};
ghost use Rattle.trace_model.specs.Explained.{is_explained, past};

use crate::runner::played;
use job_script::Program;
use phase_modes::Refusal;
use std::alloc::Global;
use trace_model::Trace;
use world_model::WorldReport;

/// What came of a program's run, and its trace.
#[derive(Drop)]
pub struct Run {
    pub report: WorldReport,
    pub trace: Trace,
}

/// The program's run by these picks. Each pick is a task's number, and makes at most one event of
/// that task: one that has to wait, has ended, or was never spawned makes none. After the list the
/// tasks are picked by number, round after round, until the root has ended. The trace's tickets
/// count from 1. `Memory` if there is too little for the run, its trace or its report.
pub fn run_picks(alloc: Global, program: &Program, picks: &[u32]) -> Result<Run, Refusal>
    ensures limits { IfOk result (λ r. r.trace.limits ≡ program.now.limits) }
    ensures explained { IfOk result (λ r. is_explained r.trace ≡ true) }
    // The tickets are 1, 2, 3 and so on.
    ensures tickets { IfOk result (λ r. map (λ e. e.0) r.trace.events
        ≡ range_with_len 1 (length r.trace.events)) }
    ensures by_picks { IfOk result (λ r. (n : ℕ)
        × (past (reverse r.trace.events) ≡ run_within n program.now picks.now)) }
    ensures follows { IfOk result (λ r. follows program.now (past (reverse r.trace.events)) ≡ true) }
    // No task gives up for want of memory,
    // and none for full registrations but if its own is refused.
    ensures give_up { IfOk result (λ r. AllGiveUp program.now.limits (past (reverse r.trace.events))) }
    ensures report { IfOk result (λ r. r.report
        ≡ report_of program.now.limits (past (reverse r.trace.events))) }
    ensures memory { IfErr result (λ e. e ≡ NoMemory) }
{
    let runner = played(alloc, program, picks)?;
    let report = runner.recorded.world.report(alloc)?;
    let trace = runner.into_trace();
    Ok(Run { report, trace })
}
