//! Runs a kernel by workers, and prints what it gave.
ghost use Rattle.std.specs.Prelude.{◌≡◌, ◌≢◌, ◌<◌, ◌≤◌, Result, Ok, None, length};
ghost use Rattle.std.specs.Io.KnownBytes.{Appends, Keeps};
ghost use Rattle.phase_modes.specs.declared.refusal.Refusal.{Refusal as Refusals};
ghost use Rattle.world_model.specs.Report.{Report};
ghost use Rattle.job_kernels.specs.PipelineTasks as piping;
ghost use Rattle.job_kernels.specs.Stencil.{AtMost};
ghost use Rattle.job_kernels.specs.StencilTasks as cells;
ghost use Rattle.job_kernels.specs.Results.{refusal_of};
ghost use Rattle.job_ends.specs.Ends.{ReportsStatus};
ghost use Rattle.run_jobs.specs.Printed.{kernel_text, IsOfEnd};
ghost use Rattle.run_jobs.specs.KernelsWorked.{IsKernelRun, stencil_text, pipeline_text};

use crate::printing::{Kernel, end_kernel};
use job_ends::Status;
use job_kernels::{PipelineBody, PipelineSize, StencilBody};
use phase_modes::{Limits, Refusal};
use phased_rt::{Body, OpenGate, Question, Workers, run_and_ask};
use std::alloc::Global;
use std::io::Write;
use std::sync::Wait;
use std::thread::Threads;
use trace_model::Trace;
use trace_walk::{Goes, goes_by};
use world_model::WorldReport;

/// Whether a trace goes by this root's body and those that come of it.
#[derive(Drop)]
struct GoesBy<B: Drop> {
    root: B,
}

impl<B: Goes + Copy> Question for GoesBy<B> {
    ghost use Rattle.std.specs.Prelude.{true, IfOk, IfErr};
    ghost use Rattle.trace_walk.specs.History.{history};
    ghost use Rattle.trace_model.specs.Explained.{is_explained};
    ghost use Rattle.trace_walk.specs.Going as going;

    type Answer = Result<(), Refusal>;

    ghost answers = { λ q trace answer.
        (is_explained trace ≡ true → IfOk answer (λ _. going.goes_by B.next q.root (history trace.events) ≡ true))
        × (is_explained trace ≡ true → IfErr answer (going.IsRefusedAt B.next q.root trace.events)) };

    fn ask(&self, alloc: Global, trace: &Trace) -> Result<(), Refusal> {
        goes_by(alloc, self.root, trace)
    }
}

/// The report of the root's run under the default limits, once its trace was seen to go by the root's
/// body and those that come of it.
fn report_of<B: Body + Goes + Copy + Send + Sync, R: Threads + Wait + Sync>(
    workers: Workers<'_, R>,
    alloc: Global,
    root: B,
) -> Result<WorldReport, Refusal>
    requires { (0 < workers.number) × (workers.number ≤ 16) }
    ensures { IsKernelRun B.next root result }
{
    let (report, gone) = run_and_ask(
        workers,
        alloc,
        root,
        Limits::default(),
        &OpenGate,
        &GoesBy { root },
    )?;
    match gone {
        Ok(()) => Ok(report.world),
        Err(refusal) => Err(refusal),
    }
}

/// Runs the root by these workers, and ends the command of its kernel.
fn kernel_on<B: Body + Goes + Copy + Send + Sync, R: Threads + Wait + Sync, W: Write, F: Write>(
    workers: Workers<'_, R>,
    alloc: Global,
    kernel: Kernel,
    root: B,
    out: &mut W,
    faults: &mut F,
) -> Status
    requires { (0 < workers.number) × (workers.number ≤ 16) }
    ensures done { result ≡ Status.Done → (r : Report) × IsKernelRun B.next root (Ok r) × (refusal_of r ≡ None)
        × Appends (W.contents out.old) (W.contents out.new) (kernel_text kernel r) }
    ensures quiet { result ≡ Status.Done → Keeps (F.contents faults.old) (F.contents faults.new) }
    ensures refused { result ≡ Status.Refused → Keeps (W.contents out.old) (W.contents out.new) }
    ensures reported { result ≢ Status.Done → (ran : Result Report Refusals) × IsKernelRun B.next root ran
        × ReportsStatus (IsOfEnd ran) result (F.contents faults.old) (F.contents faults.new) }
    ensures usage { result ≢ Status.Usage }
{
    let ran = report_of(workers, alloc, root);
    end_kernel(alloc, kernel, ran, out, faults)
}

/// Runs the stencil over these first values for so many steps, by these workers, and prints its
/// cells. The line of a failure goes to `faults`; if it can't be written, the status stays what it
/// is.
pub fn stencil_on<R: Threads + Wait + Sync, W: Write, F: Write>(
    workers: Workers<'_, R>,
    alloc: Global,
    first: &[u32],
    steps: u32,
    out: &mut W,
    faults: &mut F,
) -> Status
    requires few { length first.now ≤ 16 }
    requires workers { (0 < workers.number) × (workers.number ≤ 16) }
    // Exactly the cells and the totals of one run, in which no task was refused.
    ensures done { result ≡ Status.Done → (r : Report) × IsKernelRun cells.stencil_next (cells.root_task first.now steps) (Ok r) × (refusal_of r ≡ None)
        × Appends (W.contents out.old) (W.contents out.new) (kernel_text (Kernel.Stencil steps) r) }
    // They are the cells of the stencil, and its totals: so the arguments alone say what is written.
    ensures cells { result ≡ Status.Done → AtMost cells.greatest first.now
        → Appends (W.contents out.old) (W.contents out.new) (stencil_text first.now steps) }
    ensures quiet { result ≡ Status.Done → Keeps (F.contents faults.old) (F.contents faults.new) }
    ensures refused { result ≡ Status.Refused → Keeps (W.contents out.old) (W.contents out.new) }
    // What is reported is the line of a failure of one run with this status.
    ensures reported { result ≢ Status.Done → (ran : Result Report Refusals) × IsKernelRun cells.stencil_next (cells.root_task first.now steps) ran
        × ReportsStatus (IsOfEnd ran) result (F.contents faults.old) (F.contents faults.new) }
    ensures usage { result ≢ Status.Usage }
{
    let root = StencilBody::root(first, steps);
    kernel_on(workers, alloc, Kernel::Stencil(steps), root, out, faults)
}

/// Runs the pipeline of so many stages over so many items, by these workers, and prints its items.
/// The line of a failure goes to `faults`; if it can't be written, the status stays what it is.
pub fn pipeline_on<R: Threads + Wait + Sync, W: Write, F: Write>(
    workers: Workers<'_, R>,
    alloc: Global,
    size: PipelineSize,
    out: &mut W,
    faults: &mut F,
) -> Status
    requires stages { size.stages ≤ 15 }
    requires items { size.items ≤ 100 }
    requires workers { (0 < workers.number) × (workers.number ≤ 16) }
    // Exactly the items and the totals of one run, in which no task was refused.
    ensures done { result ≡ Status.Done → (r : Report) × IsKernelRun piping.pipeline_next (piping.root_task size.stages size.items) (Ok r) × (refusal_of r ≡ None)
        × Appends (W.contents out.old) (W.contents out.new) (kernel_text (Kernel.Pipeline size.stages) r) }
    // They are the items of the pipeline, in order, and its totals: so the arguments alone say what is
    // written.
    ensures items { result ≡ Status.Done
        → Appends (W.contents out.old) (W.contents out.new) (pipeline_text size.stages size.items) }
    ensures quiet { result ≡ Status.Done → Keeps (F.contents faults.old) (F.contents faults.new) }
    ensures refused { result ≡ Status.Refused → Keeps (W.contents out.old) (W.contents out.new) }
    // What is reported is the line of a failure of one run with this status.
    ensures reported { result ≢ Status.Done → (ran : Result Report Refusals) × IsKernelRun piping.pipeline_next (piping.root_task size.stages size.items) ran
        × ReportsStatus (IsOfEnd ran) result (F.contents faults.old) (F.contents faults.new) }
    ensures usage { result ≢ Status.Usage }
{
    let root = PipelineBody::root(size);
    kernel_on(
        workers,
        alloc,
        Kernel::Pipeline(size.stages),
        root,
        out,
        faults,
    )
}
