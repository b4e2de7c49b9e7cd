//! Both kernels run on a world, one event of each task in turn, and are compared with the functions
//! of one thread. What is to come out was set down before the code was written.
ghost use Rattle.std.specs.Prelude.{◌≤◌, length};

use job_kernels::{
    PipelineBody, PipelineSize, StencilBody, cells_of, items_of, lowest_refused, pipeline_plain,
    refusal_of, stencil_plain,
};
use job_script::{Act, Answer};
use phase_model::Terms;
use phase_modes::{Limits, Refusal};
use phased_rt::Body;
use std::alloc::Global;
use std::process::Abort;
use std::test::Fail;
use world_core::World;
use world_model::{Begun, Condition, Reply, Step, TaskLine, TotalsLine, WorldEvent, WorldReport};

/// A task, and what it hears before its next act.
#[derive(Drop)]
struct Seat<B: Drop> {
    body: B,
    answer: Answer,
}

/// A world, and its tasks by number.
#[derive(Drop)]
struct Run<B: Drop> {
    world: World,
    seats: Vec<Seat<B>>,
}

/// The event by which the task makes the act, the body of the child that it spawns, and what it
/// hears if the act is made.
fn made<B: Body>(world: &World, task: u32, act: Act<B>) -> (WorldEvent, Option<B>, Answer) {
    let unused = world.unused();
    let phaser = unused.phaser;
    let child = unused.task;
    match act {
        Act::New(mode, ops, bound) => (
            WorldEvent::Phaser(phaser, Step::Make(task, mode, Terms { ops, bound })),
            None,
            Answer::Made(phaser),
        ),
        Act::Async(body, pairs) => (
            WorldEvent::Begin(task, Begun::Async(child, pairs)),
            Some(body),
            Answer::Spawned(child),
        ),
        Act::Send(phaser, accumulator, value) => (
            WorldEvent::Phaser(phaser, Step::Send(task, accumulator, value)),
            None,
            Answer::Done,
        ),
        Act::Look(phaser, accumulator) => (
            WorldEvent::Phaser(phaser, Step::Look(task, accumulator)),
            None,
            Answer::Done,
        ),
        Act::Next => (WorldEvent::Begin(task, Begun::Next), None, Answer::Done),
        _ => (WorldEvent::Begin(task, Begun::End), None, Answer::Done),
    }
}

impl<B: Body> Run<B> {
    /// The task's next act.
    fn act(&mut self, task: u32) -> Result<(), Refusal> {
        let Some(seat) = self.seats.get_mut(task as usize) else {
            return Ok(());
        };
        let act = seat.body.step(seat.answer)?;
        let (event, child, answer) = made(&self.world, task, act);
        let heard = match self.world.step(&event)? {
            Reply::Value(look) => Answer::Saw(look),
            _ => answer,
        };
        if let Some(seat) = self.seats.get_mut(task as usize) {
            seat.answer = heard;
        }
        if let Some(body) = child {
            self.seats.push(Seat {
                body,
                answer: Answer::Started,
            })?;
        }
        Ok(())
    }

    /// An event of the task, if it can go on.
    fn turn(&mut self, task: u32) -> Result<(), Refusal> {
        if let Some(event) = self.world.next_event(task) {
            self.world.step(&event)?;
            return Ok(());
        }
        match self.world.condition(task) {
            Some(Condition::Idle) => self.act(task),
            _ => Ok(()),
        }
    }

    /// An event of each task in turn, in more rounds than any of these runs has events.
    fn rounds(&mut self) -> Result<(), Refusal> {
        for _round in 0..4_096 {
            for task in 0..18 {
                self.turn(task)?;
            }
        }
        Ok(())
    }
}

/// What the tasks of this root give.
fn report_of<B: Body>(alloc: Global, root: B) -> Result<WorldReport, Refusal> {
    let world = World::new(alloc, Limits::default())?;
    let mut seats = Vec::new(alloc);
    seats.push(Seat {
        body: root,
        answer: Answer::Started,
    })?;
    let mut run = Run { world, seats };
    run.rounds()?;
    run.world.report(alloc)
}

/// Whether both lists hold the same numbers.
fn are_same(plain: &[u32], seen: &[i64]) -> bool {
    plain.iter().map(|x| i64::from(*x)).eq(seen.iter().copied())
}

/// The stencil by its tasks and in one thread.
fn stencil(
    alloc: Global,
    first: &[u32],
    steps: u32,
) -> Result<(Vec<u32>, Vec<i64>, TotalsLine), Refusal>
    requires { length first.now ≤ 16 }
{
    let plain = stencil_plain(alloc, first, steps)?;
    let report = report_of(alloc, StencilBody::root(first, steps))?;
    let cells = cells_of(alloc, &report, steps)?;
    Ok((plain, cells, report.totals))
}

/// The pipeline by its tasks and in one thread.
fn pipeline(alloc: Global, size: PipelineSize) -> Result<(Vec<u32>, Vec<i64>, TotalsLine), Refusal>
    requires stages { size.stages ≤ 15 }
    requires items { size.items ≤ 100 }
{
    let plain = pipeline_plain(alloc, size)?;
    let report = report_of(alloc, PipelineBody::root(size))?;
    let values = items_of(alloc, &report, size.stages)?;
    Ok((plain, values, report.totals))
}

/// Both gave these numbers, and the tasks these totals.
fn gave(
    rt: &impl Abort,
    ran: Result<(Vec<u32>, Vec<i64>, TotalsLine), Refusal>,
    expected: &[u32],
    totals: TotalsLine,
) {
    match ran {
        Ok((plain, seen, counted)) => {
            assert!(rt; plain.as_slice() == expected);
            assert!(rt; are_same(expected, &seen));
            assert!(rt; counted == totals);
        }
        Err(_) => assert!(rt; false),
    }
}

#[test]
fn heat_spreads(rt: HostRuntime) -> Result<(), Fail> {
    gave(
        &rt,
        stencil(rt.alloc(), &[0, 0, 0, 256, 0, 0, 0, 0], 5),
        &[11, 30, 52, 63, 52, 30, 11, 2],
        TotalsLine {
            registered: 30,
            signals: 40,
            passes: 110,
            drops: 30,
            sends: 48,
            up: 1530,
            down: 0,
        },
    );
    Ok(())
}

#[test]
fn two_stages(rt: HostRuntime) -> Result<(), Fail> {
    let size = PipelineSize {
        stages: 2,
        items: 3,
    };
    gave(
        &rt,
        pipeline(rt.alloc(), size),
        &[4, 5, 6],
        TotalsLine {
            registered: 9,
            signals: 10,
            passes: 22,
            drops: 9,
            sends: 9,
            up: 30,
            down: 0,
        },
    );
    Ok(())
}

/// A report of as many tasks as there are refusals here, and of nothing else.
fn refused_report(alloc: Global, refused: &[Option<u8>]) -> Result<WorldReport, Refusal> {
    let mut tasks = Vec::new(alloc);
    for (task, refused) in (0..).zip(refused) {
        tasks.push(TaskLine {
            task,
            refused: *refused,
        })?;
    }
    Ok(WorldReport {
        phasers: Vec::new(alloc),
        tasks,
        finishes: Vec::new(alloc),
        totals: TotalsLine {
            registered: 0,
            signals: 0,
            passes: 0,
            drops: 0,
            sends: 0,
            up: 0,
            down: 0,
        },
    })
}

#[test]
fn lowest_refusal(rt: HostRuntime) -> Result<(), Fail> {
    let none = refused_report(rt.alloc(), &[None, None])?;
    assert!(rt; lowest_refused(&none).is_none());
    assert!(rt; refusal_of(&none).is_none());
    let two = refused_report(rt.alloc(), &[None, Some(15), None, Some(23)])?;
    let Some(line) = lowest_refused(&two) else {
        panic!(rt; "none was refused");
    };
    let printed = format!(in rt.alloc(); "{line}")?;
    assert!(rt; printed.as_str() == "task 1 refused 15 HistoryFull");
    let Some(refusal) = refusal_of(&two) else {
        panic!(rt; "there is no refusal");
    };
    let printed = format!(in rt.alloc(); "{refusal}")?;
    assert!(rt; printed.as_str() == "refused 15 HistoryFull");
    Ok(())
}
