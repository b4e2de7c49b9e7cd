//! Whether a trace follows a program.
ghost use Rattle.std.specs.Prelude.{◌≡◌, ℕ, true, false, Err, IfOk};
ghost use Rattle.trace_walk.specs.Follows.{follows};
ghost use Rattle.schedule_run.specs.Following.{first_not_next};
ghost use Rattle.trace_walk.specs.History.{history};
ghost use Rattle.trace_walk.specs.Walking.{AnswersPlace};

use job_script::Program;
use phase_modes::Refusal;
use std::alloc::Global;
use trace_model::Trace;
use trace_walk::walk;

/// Whether each act of a trace, made or refused, is its task's next one by the program: `Ok`, or
/// `NotExplained` with the place of the first event that isn't, counted from 1. Any trace is
/// taken, whether the world explains it or not. `Memory` if there is too little for the tasks.
/// A spawn on all phasers goes over the events before it, once for each phaser that its task ever
/// was on.
pub fn follows(alloc: Global, program: &Program, trace: &Trace) -> Result<(), Refusal>
    ensures place { AnswersPlace (first_not_next program.now trace.now) result }
    ensures follows { IfOk result (λ _. follows program.now (history trace.now.events) ≡ true) }
    ensures leaves { (k : ℕ) → result ≡ Err (Refusal.NotExplained k)
        → follows program.now (history trace.now.events) ≡ false }
{
    walk(alloc, program.root(), trace)
}
