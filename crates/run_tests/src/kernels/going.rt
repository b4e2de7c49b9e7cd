//! Whether the trace of a run goes by the body that was run, and by another, and is replayed.
ghost use Rattle.std.specs.Prelude.{◌≤◌, ◌<◌};

use crate::asserted::{equal, equal_at};
use job_kernels::{PipelineBody, PipelineSize, StencilBody};
use phase_modes::{Limits, Refusal};
use phased_rt::{OpenGate, run};
use std::alloc::Global;
use std::process::Abort;
use std::sync::Wait;
use std::test::Fail;
use std::thread::Threads;
use trace_model::{EventView, ShortStep, Trace};
use trace_replay::replay;
use trace_walk::goes_by;
use world_model::WorldReport;

/// The place of the first value that is sent, counted from 1; 0 if none is.
fn first_send(trace: &Trace) -> u64 {
    for place in 0..trace.len() {
        if let (_, EventView::Phaser(_, ShortStep::Send(_, _, _))) = trace.entry(place) {
            return place as u64 + 1;
        }
    }
    0
}

/// The lines of a report.
fn text_of(alloc: Global, report: &WorldReport) -> Result<String, Refusal> {
    match format!(in alloc; "{report}") {
        Ok(text) => Ok(text),
        Err(_) => Err(Refusal::Memory),
    }
}

/// A run of one cell of 4 goes by its body; by that of a cell of 5 it does up to the first value.
fn cells_go<R: Threads + Wait + Sync + Abort>(
    rt: &R,
    alloc: Global,
    workers: u32,
) -> Result<(), Fail>
    requires { (0 < workers) × (workers ≤ 16) }
{
    let root = StencilBody::root(&[4], 2);
    let report = run(rt, alloc, root, Limits::default(), workers, &OpenGate)?;
    equal_at(
        rt,
        ("workers", workers),
        goes_by(alloc, root, &report.trace),
        Ok(()),
    );
    let other = goes_by(alloc, StencilBody::root(&[5], 2), &report.trace);
    let place = first_send(&report.trace);
    equal_at(
        rt,
        ("workers", workers),
        other,
        Err(Refusal::NotExplained(place)),
    );
    Ok(())
}

/// The trace of the run of eight cells by 16 workers is replayed to the run's report.
#[test]
fn stencil_eight_cells_is_replayed(rt: HostRuntime) -> Result<(), Fail> {
    let root = StencilBody::root(&[0, 0, 0, 256, 0, 0, 0, 0], 5);
    let report = run(&rt, rt.alloc(), root, Limits::default(), 16, &OpenGate)?;
    let replayed = replay(rt.alloc(), &report.trace)?;
    let ours = text_of(rt.alloc(), &report.world)?;
    let theirs = text_of(rt.alloc(), &replayed)?;
    equal(&rt, theirs.as_str(), ours.as_str());
    Ok(())
}

#[test]
fn stencil_goes_by_its_body(rt: HostRuntime) -> Result<(), Fail> {
    for workers in [1, 2, 16] {
        cells_go(&rt, rt.alloc(), workers)?;
    }
    Ok(())
}

/// A run of a pipeline goes by its body, and not by that of a pipeline of one stage more, whose root
/// makes one phaser more: by that it does up to the root's first spawn, its fourth event.
#[test]
fn pipeline_goes_by_its_body(rt: HostRuntime) -> Result<(), Fail> {
    let root = PipelineBody::root(PipelineSize {
        stages: 2,
        items: 3,
    });
    let report = run(&rt, rt.alloc(), root, Limits::default(), 2, &OpenGate)?;
    equal(&rt, goes_by(rt.alloc(), root, &report.trace), Ok(()));
    let longer = PipelineBody::root(PipelineSize {
        stages: 3,
        items: 3,
    });
    let other = goes_by(rt.alloc(), longer, &report.trace);
    equal(&rt, other, Err(Refusal::NotExplained(4)));
    Ok(())
}
