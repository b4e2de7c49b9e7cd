//! Runs a program by workers, and asks of the trace whether it follows the program.
ghost use Rattle.std.specs.Prelude.{◌≡◌, ◌<◌, ◌≤◌, true, reverse, IfOk, IfErr};
ghost use Rattle.world_model.specs.Report.{report_of};
ghost use Rattle.trace_model.specs.Explained.{past};
ghost use Rattle.tasks_in_flight.specs.Refused.{IsRunRefused};
ghost use Rattle.run_jobs.specs.Worked.{IsRunOf};

use job_script::{Program, ScriptBody};
use phase_modes::Refusal;
use phased_rt::{OpenGate, Question, Report, Workers, run_and_ask};
use schedule_run::follows;
use std::alloc::Global;
use std::sync::Wait;
use std::thread::Threads;
use trace_model::Trace;

/// Whether a trace follows the program.
#[derive(Drop)]
struct Follows<'p> {
    program: &'p Program,
}

impl<'p> Question for Follows<'p> {
    ghost use Rattle.std.specs.Prelude.{◌≡◌, true, IfOk};
    ghost use Rattle.trace_walk.specs.Follows.{follows};
    ghost use Rattle.schedule_run.specs.Following.{first_not_next};
    ghost use Rattle.trace_walk.specs.History.{history};
    ghost use Rattle.trace_walk.specs.Walking.{AnswersPlace};

    type Answer = Result<(), Refusal>;

    ghost answers = { λ q trace answer. AnswersPlace (first_not_next q.program.now trace) answer
        × IfOk answer (λ _. follows q.program.now (history trace.events) ≡ true) };

    fn ask(&self, alloc: Global, trace: &Trace) -> Result<(), Refusal> {
        follows(alloc, self.program, trace)
    }
}

#[tactic(auto, using(crate::proofs::Answered::refused_so))]
/// Runs a program by these workers. `NotExplained` if the run can't be told, or, at the place of
/// the first event that isn't its task's next one, if it doesn't follow the program.
pub fn run_program<'p, R: Threads + Wait + Sync>(
    workers: Workers<'_, R>,
    alloc: Global,
    program: &'p Program,
) -> Result<Report<ScriptBody<'p>>, Refusal>
    requires { (0 < workers.number) × (workers.number ≤ 16) }
    ensures ran { IfOk result (λ r. IsRunOf program.now r.trace) }
    ensures world { IfOk result (λ r. r.world ≡ report_of program.now.limits (past (reverse r.trace.events))) }
    ensures refused { IfErr result (λ e. IsRunRefused e) }
{
    let (report, followed) = run_and_ask(
        workers,
        alloc,
        program.root(),
        program.limits(),
        &OpenGate,
        &Follows { program },
    )?;
    followed?;
    Ok(report)
}
