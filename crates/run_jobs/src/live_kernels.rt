//! Runs a kernel by workers without a store, and prints what it gave and what can be known of the run.
ghost use Rattle.std.specs.Prelude.{◌≡◌, ◌≢◌, ◌<◌, ◌≤◌, OnOk, IfOk, IfErr, length};
ghost use Rattle.std.specs.Io.KnownBytes.{Appends, Keeps};
ghost use Rattle.std.specs.String.{string_bytes};
ghost use Rattle.job_kernels.specs.PipelineTasks.{most_items};
ghost use Rattle.job_ends.specs.Ends.{status_of, ReportsStatus};
ghost use Rattle.run_jobs.specs.LiveKernels.{IsOfLive, LivesKernel, live_kernel_text};

use crate::living::{Progress, lines_of, live_run};
use crate::printing::{Kernel, push_text, push_values};
use crate::row::{Leaves, Row};
use job_ends::{Failure, Status, put_text};
use job_kernels::{PipelineBody, PipelineSize, StencilBody};
use live_rt::Counts;
use phase_modes::Refusal;
use phased_rt::Workers;
use std::alloc::Global;
use std::io::Write;
use std::sync::Wait;
use std::thread::Threads;

/// The lines of a kernel's run: the values that its tasks left, and what is counted.
fn kernel_lines_of(
    alloc: Global,
    kernel: Kernel,
    values: &[i64],
    counts: Counts,
) -> Result<String, Refusal>
    ensures lines { IfOk result (λ text. string_bytes text ≡ live_kernel_text kernel values.now counts) }
    ensures memory { IfErr result (λ e. e ≡ Refusal.Memory) }
{
    let lines = lines_of(alloc, counts)?;
    let mut text = String::new(alloc);
    push_text(&mut text, kernel.word())?;
    push_values(alloc, &mut text, values)?;
    push_text(&mut text, "\n")?;
    push_text(&mut text, lines.as_str())?;
    Ok(text)
}

/// A kernel, its root, and how many values its tasks leave.
struct Root<B> {
    kernel: Kernel,
    body: B,
    values: u32,
}

/// Runs the root by these workers, and writes the values that were left and what is counted. Nothing is
/// written before the run is over, and nothing if a task was refused.
fn kernel_into<B: Leaves + Send, R: Threads + Wait + Sync, W: Write, P: Progress + Sync>(
    workers: Workers<'_, R>,
    alloc: Global,
    root: Root<B>,
    progress: &P,
    out: &mut W,
) -> Result<(), Failure>
    requires { (0 < workers.number) × (workers.number ≤ 16) }
    ensures done { OnOk result (LivesKernel root.kernel root.values (λ text.
        Appends (W.contents out.old) (W.contents out.new) text)) }
    ensures refused { IfErr result (λ f. status_of f ≡ Status.Refused → Keeps (W.contents out.old) (W.contents out.new)) }
    ensures failure { IfErr result IsOfLive }
{
    let Root {
        kernel,
        body,
        values,
    } = root;
    let row = Row::new(alloc, values)?;
    let lived = live_run(workers, alloc, body, &row, progress)?;
    if let Some(refusal) = lived.refused {
        return Err(Failure::Refused(refusal));
    }
    let values = row.values(alloc)?;
    let lines = kernel_lines_of(alloc, kernel, &values, lived.counts)?;
    put_text(out, lines.as_str())?;
    Ok(())
}

/// Runs the root by these workers, and ends the command of its kernel.
fn live_kernel_on<
    B: Leaves + Send,
    R: Threads + Wait + Sync,
    W: Write,
    F: Write,
    P: Progress + Sync,
>(
    workers: Workers<'_, R>,
    alloc: Global,
    root: Root<B>,
    progress: &P,
    out: &mut W,
    faults: &mut F,
) -> Status
    requires { (0 < workers.number) × (workers.number ≤ 16) }
    ensures done { result ≡ Status.Done → LivesKernel root.kernel root.values (λ text.
        Appends (W.contents out.old) (W.contents out.new) text) }
    ensures quiet { result ≡ Status.Done → Keeps (F.contents faults.old) (F.contents faults.new) }
    ensures refused { result ≡ Status.Refused → Keeps (W.contents out.old) (W.contents out.new) }
    ensures reported { result ≢ Status.Done → ReportsStatus IsOfLive result
        (F.contents faults.old) (F.contents faults.new) }
    ensures usage { result ≢ Status.Usage }
{
    match kernel_into(workers, alloc, root, progress, out) {
        Ok(()) => Status::Done,
        Err(failure) => failure.end(alloc, faults).status,
    }
}

/// Runs the stencil over these first values for so many steps, by these workers, without a store, and
/// prints a line of its cells and then what is counted. The line of a failure goes to `faults`; if it
/// can't be written, the status stays what it is.
///
/// If a task is refused something, so is the run: by what the root was refused, or else by what was heard
/// of first.
///
/// That the cells are those of the stencil isn't proved, only tested: it is proved that there are as many as
/// first values, and that no task was refused and nobody is left.
pub fn live_stencil_on<R: Threads + Wait + Sync, W: Write, F: Write, P: Progress + Sync>(
    workers: Workers<'_, R>,
    alloc: Global,
    first: &[u32],
    steps: u32,
    progress: &P,
    out: &mut W,
    faults: &mut F,
) -> Status
    requires few { length first.now ≤ 16 }
    requires workers { (0 < workers.number) × (workers.number ≤ 16) }
    ensures done { result ≡ Status.Done → LivesKernel (Kernel.Stencil steps) (length first.now) (λ text.
        Appends (W.contents out.old) (W.contents out.new) text) }
    ensures quiet { result ≡ Status.Done → Keeps (F.contents faults.old) (F.contents faults.new) }
    ensures refused { result ≡ Status.Refused → Keeps (W.contents out.old) (W.contents out.new) }
    ensures reported { result ≢ Status.Done → ReportsStatus IsOfLive result
        (F.contents faults.old) (F.contents faults.new) }
    ensures usage { result ≢ Status.Usage }
{
    let root = Root {
        kernel: Kernel::Stencil(steps),
        body: StencilBody::root(first, steps),
        values: first.len() as u32,
    };
    live_kernel_on(workers, alloc, root, progress, out, faults)
}

/// Runs the pipeline of so many stages over so many items, by these workers, without a store, and prints a
/// line of its items and then what is counted. The line of a failure goes to `faults`; if it can't be
/// written, the status stays what it is. The values of all items are kept until the end.
///
/// If a task is refused something, so is the run: by what the root was refused, or else by what was heard
/// of first.
///
/// That the items are those of the pipeline isn't proved, only tested: it is proved that there are as many
/// as went in, and that no task was refused and nobody is left.
pub fn live_pipeline_on<R: Threads + Wait + Sync, W: Write, F: Write, P: Progress + Sync>(
    workers: Workers<'_, R>,
    alloc: Global,
    size: PipelineSize,
    progress: &P,
    out: &mut W,
    faults: &mut F,
) -> Status
    requires stages { size.stages ≤ 15 }
    requires items { size.items ≤ most_items }
    requires workers { (0 < workers.number) × (workers.number ≤ 16) }
    ensures done { result ≡ Status.Done → LivesKernel (Kernel.Pipeline size.stages) size.items (λ text.
        Appends (W.contents out.old) (W.contents out.new) text) }
    ensures quiet { result ≡ Status.Done → Keeps (F.contents faults.old) (F.contents faults.new) }
    ensures refused { result ≡ Status.Refused → Keeps (W.contents out.old) (W.contents out.new) }
    ensures reported { result ≢ Status.Done → ReportsStatus IsOfLive result
        (F.contents faults.old) (F.contents faults.new) }
    ensures usage { result ≢ Status.Usage }
{
    let root = Root {
        kernel: Kernel::Pipeline(size.stages),
        body: PipelineBody::root(size),
        values: size.items,
    };
    live_kernel_on(workers, alloc, root, progress, out, faults)
}
