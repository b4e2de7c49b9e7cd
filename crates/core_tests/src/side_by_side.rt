//! The world and the slow world side by side, over 3,000 events.
ghost use Rattle.std.specs.Prelude.{◌<◌};

use crate::asserted::{equal_at, holds_at};
use finish_core::FinishEvent;
use generator::Dice;
use peer::{Answer, Plain};
use phase_model::{Bound, Op, Ops, Terms};
use phase_modes::{Limits, Mode, Pair, Phased, PhaserNumber, Refusal};
use std::alloc::Global;
use std::process::Abort;
use world_core::World;
use world_model::{Begun, Reply, Step, Tried, WorldEvent};

mod generator;
mod past;
mod peer;

/// A world in which nothing has happened; `NotNow` if the limits are none.
fn fresh(alloc: Global, limits: Limits) -> Result<World, Refusal> {
    if !limits.fits() {
        return Err(Refusal::NotNow);
    }
    World::new(alloc, limits)
}

fn on(phaser: u32, step: Step) -> WorldEvent {
    WorldEvent::Phaser(phaser, step)
}

fn within(finish: u32, event: FinishEvent) -> WorldEvent {
    WorldEvent::Finish(finish, event)
}

fn begin(task: u32, begun: Begun) -> WorldEvent {
    WorldEvent::Begin(task, begun)
}

/// One accumulator, a sum.
fn one_sum(bound: Option<Bound>) -> Terms {
    let mut ops = Ops::none();
    if ops.len() < 4 {
        ops.push(Op::Sum);
    }
    Terms { ops, bound }
}

/// One pair.
fn one_pair(phaser: u32, mode: Mode) -> Phased {
    let mut list = Phased::none();
    if list.len() < 16 {
        list.push(Pair { phaser, mode });
    }
    list
}

/// How many events were made, by kind, how many had to wait, signals among them, and how many were
/// refused.
#[derive(Clone, Copy, Debug, PartialEq, Eq)]
struct Counts {
    made: [u32; 16],
    waiting: u32,
    held: u32,
    refused: u32,
}

/// The kind of a step, of nine.
fn kind_of_step(step: &Step) -> usize
    ensures { result < 9 }
{
    match step {
        Step::Make(_, _, _) => 0,
        Step::Reg(_, _, _) => 1,
        Step::Sig(_, _) => 2,
        Step::Claim(_) => 3,
        Step::Did(_) => 4,
        Step::Pass(_) => 5,
        Step::Send(_, _, _) => 6,
        Step::Look(_, _) => 7,
        Step::Drop(_) => 8,
    }
}

/// The kind of an event, of 16.
fn kind_of(event: &WorldEvent) -> usize
    ensures { result < 16 }
{
    match event {
        WorldEvent::Phaser(_, step) => kind_of_step(step),
        WorldEvent::Finish(_, FinishEvent::Opened(_)) => 9,
        WorldEvent::Finish(_, FinishEvent::Spawned(_)) => 10,
        WorldEvent::Finish(_, FinishEvent::Ended(_)) => 11,
        WorldEvent::Finish(_, FinishEvent::Shut) => 12,
        WorldEvent::Begin(_, _) => 13,
        WorldEvent::Refuse(_, _, _) => 14,
        WorldEvent::Fail(_, _) => 15,
    }
}

/// Whether the event signals.
fn signals(event: &WorldEvent) -> bool {
    matches!(event, WorldEvent::Phaser(_, Step::Sig(_, _)))
}

impl Counts {
    fn add_waiting(&mut self, event: &WorldEvent) {
        self.waiting = self.waiting.saturating_add(1);
        self.held = self.held.saturating_add(u32::from(signals(event)));
    }

    fn add(&mut self, event: &WorldEvent, answer: Result<Reply, Refusal>) {
        match answer {
            Err(_) => self.refused = self.refused.saturating_add(1),
            Ok(Reply::NotYet) => self.add_waiting(event),
            Ok(_) => {
                let kind = kind_of(event);
                self.made[kind] = self.made[kind].saturating_add(1);
            }
        }
    }
}

/// Small limits, so that each of them is met.
fn limits_of(world: u32) -> Limits {
    Limits {
        history: 8 + 12 * (world % 4),
        regs: 2 + world % 3,
        tasks: 7,
        phasers: 3,
        finishes: 3,
        acts: 4 + 6 * (world % 5),
    }
}

/// What both say of the task.
fn agrees_on(rt: &impl Abort, world: &World, plain: &Plain, task: u32) {
    let expected = plain.next_event(task);
    equal_at(rt, ("task", task), world.next_event(task), expected);
}

/// Both say the same of each task.
fn agree(rt: &impl Abort, world: &World, plain: &Plain) {
    for task in 0..8 {
        agrees_on(rt, world, plain, task);
    }
}

/// Hands an event to the world, which gives the reply of its peer.
fn replies(rt: &impl Abort, world: &mut World, event: &WorldEvent, reply: Answer) {
    equal_at(rt, event, world.step(event), reply);
}

/// Hands an event to the world and to its peer, and compares what they reply and what they say of
/// each task.
fn step_both(
    rt: &impl Abort,
    world: &mut World,
    plain: &mut Plain,
    event: &WorldEvent,
    counts: &mut Counts,
) -> Result<(), Refusal> {
    let reply = plain.step(event)?;
    replies(rt, world, event, reply);
    agree(rt, world, plain);
    counts.add(event, reply);
    Ok(())
}

/// The root makes a phaser with this bound, and spawns a task that signals there: if the root
/// doesn't pass, the bound holds it up.
fn play_producer(
    rt: &impl Abort,
    bound: Bound,
    world: &mut World,
    plain: &mut Plain,
    counts: &mut Counts,
) -> Result<(), Refusal> {
    let made = on(0, Step::Make(0, Mode::SigWait, one_sum(Some(bound))));
    step_both(rt, world, plain, &made, counts)?;
    let spawned = begin(0, Begun::Async(1, one_pair(0, Mode::Sig)));
    step_both(rt, world, plain, &spawned, counts)
}

/// Hands events to the world and to a fresh peer: those of a bounded producer, if there is a bound,
/// and 50 that are drawn.
fn play_beside(
    rt: &impl Abort,
    mut plain: Plain,
    bound: Option<Bound>,
    world: &mut World,
    dice: &mut Dice,
    counts: &mut Counts,
) -> Result<(), Refusal> {
    if let Some(bound) = bound {
        play_producer(rt, bound, world, &mut plain, counts)?;
    }
    for _ in 0..50 {
        let event = dice.event(&plain)?;
        step_both(rt, world, &mut plain, &event, counts)?;
    }
    Ok(())
}

/// Hands these events to a fresh world and to its peer.
fn play_both(
    rt: &impl Abort,
    alloc: Global,
    limits: Limits,
    bound: Option<Bound>,
    dice: &mut Dice,
    counts: &mut Counts,
) -> Result<(), Refusal> {
    let mut world = fresh(alloc, limits)?;
    play_beside(
        rt,
        Plain::new(alloc, limits)?,
        bound,
        &mut world,
        dice,
        counts,
    )
}

/// Plays 60 worlds, of which half begin with a producer bounded by one phase.
fn play_all(rt: &impl Abort, alloc: Global, counts: &mut Counts) -> Result<(), Refusal> {
    let mut dice = Dice::new();
    for world in 0..60 {
        let bound = if world % 2 == 0 { Bound::of(1) } else { None };
        play_both(rt, alloc, limits_of(world), bound, &mut dice, counts)?;
    }
    Ok(())
}

#[test]
fn side_by_side(rt: HostRuntime) -> Result<(), Refusal> {
    let mut counts = Counts {
        made: [0; 16],
        waiting: 0,
        held: 0,
        refused: 0,
    };
    play_all(&rt, rt.alloc(), &mut counts)?;
    for kind in 0..16 {
        holds_at(&rt, ("none made of kind", kind), counts.made[kind] > 0);
    }
    assert!(rt; counts.waiting > 100);
    assert!(rt; counts.held > 20);
    assert!(rt; counts.refused > 400);
    Ok(())
}
