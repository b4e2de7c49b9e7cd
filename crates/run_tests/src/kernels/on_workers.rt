//! Both kernels by 1, 2 and 16 workers, as their commands print them. Smaller ones and a longer row
//! stand in `examples/commands` alone.
ghost use Rattle.std.specs.Prelude.{◌≤◌, ◌<◌, length};

use super::ends;
use crate::asserted::holds_at;
use crate::ended::Ended;
use job_ends::Status;
use job_kernels::{
    PipelineBody, PipelineSize, StencilBody, cells_of, items_of, pipeline_plain, stencil_plain,
};
use phase_modes::{Limits, Refusal};
use phased_rt::{Body, OpenGate, Workers, run};
use run_jobs::{Kernel, pipeline_on, stencil_on};
use std::alloc::Global;
use std::process::Abort;
use std::sync::Wait;
use std::test::Fail;
use std::thread::Threads;
use world_model::WorldReport;

/// The report of the world in which the workers ran this task.
fn world_of<B: Body + Send, R: Threads + Wait + Sync>(
    rt: &R,
    alloc: Global,
    root: B,
    workers: u32,
) -> Result<WorldReport, Refusal>
    requires some { 0 < workers }
    requires few { workers ≤ 16 }
{
    Ok(run(rt, alloc, root, Limits::default(), workers, &OpenGate)?.world)
}

/// Whether both lists hold the same numbers.
fn are_same(plain: &[u32], seen: &[i64]) -> bool {
    plain.iter().map(|x| i64::from(*x)).eq(seen.iter().copied())
}

/// The stencil by so many workers gives these lines, and what one thread gives; so its
/// command writes them.
fn stencil_prints<R: Threads + Wait + Sync + Abort>(
    rt: &R,
    alloc: Global,
    first: &[u32],
    steps: u32,
    lines: &str,
) -> Result<(), Fail>
    requires { length first.now ≤ 16 }
{
    let plain = stencil_plain(alloc, first, steps)?;
    for workers in [1, 2, 16] {
        let world = world_of(rt, alloc, StencilBody::root(first, steps), workers)?;
        let cells = cells_of(alloc, &world, steps)?;
        holds_at(rt, ("workers", workers), are_same(&plain, &cells));
        ends(
            rt,
            alloc,
            Kernel::Stencil(steps),
            Ok(world),
            &Ended::done(lines),
        );
        let mut out = Vec::new(alloc);
        let mut faults = Vec::new(alloc);
        let by = Workers {
            rt,
            number: workers,
        };
        let status = stencil_on(by, alloc, first, steps, &mut out, &mut faults);
        holds_at(rt, ("workers", workers), status == Status::Done);
        holds_at(rt, ("workers", workers), out.as_slice() == lines.as_bytes());
    }
    Ok(())
}

/// The pipeline by so many workers gives these lines, and what one thread gives; so its
/// command writes them.
fn pipeline_prints<R: Threads + Wait + Sync + Abort>(
    rt: &R,
    alloc: Global,
    size: PipelineSize,
    lines: &str,
) -> Result<(), Fail>
    requires stages { size.stages ≤ 15 }
    requires items { size.items ≤ 100 }
{
    let plain = pipeline_plain(alloc, size)?;
    for workers in [1, 2, 16] {
        let world = world_of(rt, alloc, PipelineBody::root(size), workers)?;
        let seen = items_of(alloc, &world, size.stages)?;
        holds_at(rt, ("workers", workers), are_same(&plain, &seen));
        ends(
            rt,
            alloc,
            Kernel::Pipeline(size.stages),
            Ok(world),
            &Ended::done(lines),
        );
        let mut out = Vec::new(alloc);
        let mut faults = Vec::new(alloc);
        let by = Workers {
            rt,
            number: workers,
        };
        let status = pipeline_on(by, alloc, size, &mut out, &mut faults);
        holds_at(rt, ("workers", workers), status == Status::Done);
        holds_at(rt, ("workers", workers), out.as_slice() == lines.as_bytes());
    }
    Ok(())
}

// In two steps the cells 8 4 0 become 5 4 1, since 20, 16 and 4 are divided by 4, and then to 3 3
// 1, since 14, 14 and 6 are. The root makes 3 phasers, and the tasks are on 2, 3 and 2 of them: 10
// registrations, and as many drops. In each step each of the 3 tasks signals on its own phaser, and
// passes all of its own: 3 * 2 signals, and 7 * 2 passes. Each sends 3 values, together 12 at
// first, then 10, then 7.
#[test]
fn stencil_three_cells(rt: HostRuntime) -> Result<(), Fail> {
    stencil_prints(
        &rt,
        rt.alloc(),
        &[8, 4, 0],
        2,
        "cells 3 3 1\n\
         totals registered 10 signals 6 passes 14 drops 10 sends 9 up 29 down 0\n",
    )
}

// The items 1 and 2 become 2 and 3 behind the first stage, to 4 and 5, and to 7 and 8: with those
// of the source 3, 5, 9 and 15, in 4 * 2 sends. The root makes 4 phasers, the source is on one, the
// 3 stages on two each, and the sink on one: 12 registrations, and as many drops. The source takes
// 2 turns, the stages 2, 3 and 4, since each waits for a phase more, and the sink 5. Source and
// stages signal once in each: 2 + 9 signals. The source and the sink pass one phaser in each, the
// stages two: 2 + 2 * 9 + 5 passes.
#[test]
fn pipeline_three_stages(rt: HostRuntime) -> Result<(), Fail> {
    pipeline_prints(
        &rt,
        rt.alloc(),
        PipelineSize {
            stages: 3,
            items: 2,
        },
        "items 7 8\ntotals registered 12 signals 11 passes 25 drops 12 sends 8 up 32 down 0\n",
    )
}

// The largest of both, 16 cells in 100 steps, and 15 stages for 100 items.
#[test]
fn largest(rt: HostRuntime) -> Result<(), Fail> {
    let first = [1_000_000; 16];
    let plain = stencil_plain(rt.alloc(), &first, 100)?;
    let world = world_of(&rt, rt.alloc(), StencilBody::root(&first, 100), 16)?;
    let cells = cells_of(rt.alloc(), &world, 100)?;
    assert!(rt; are_same(&plain, &cells));
    let size = PipelineSize {
        stages: 15,
        items: 100,
    };
    let plain = pipeline_plain(rt.alloc(), size)?;
    let world = world_of(&rt, rt.alloc(), PipelineBody::root(size), 16)?;
    let items = items_of(rt.alloc(), &world, 15)?;
    assert!(rt; are_same(&plain, &items));
    Ok(())
}
