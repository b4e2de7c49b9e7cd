//! Two tasks that signal each other on two phasers of a world.
ghost use Rattle.std.specs.Prelude.{◌≡◌, true};
ghost use Rattle.phase_modes.specs.Limits.{limits_fit};

use finish_core::FinishEvent;
use phase_model::Terms;
use phase_modes::{Limits, Mode, Pair, Phased, Refusal, TaskNumber};
use std::alloc::Global;
use world_core::World;
use world_model::{Begun, Reply, Step, WorldEvent};

/// How many steps a turn of both tasks takes.
const TURN: u64 = 8;

/// The task that makes the phasers that stand by, and spawns the tasks.
const KEEPER: u32 = 3;

fn on(phaser: u32, step: Step) -> WorldEvent {
    WorldEvent::Phaser(phaser, step)
}

/// The task makes the phaser, without accumulators and unbounded.
fn made(phaser: u32, task: TaskNumber) -> WorldEvent {
    on(phaser, Step::Make(task.get(), Mode::SigWait, Terms::none()))
}

/// The pairs of a spawn on these phasers.
fn named(pairs: &[Pair]) -> Phased {
    let mut list = Phased::none();
    for pair in pairs {
        if list.len() < 16 {
            list.push(*pair);
        }
    }
    list
}

/// Whether the event was made: neither refused, nor to wait.
fn is_made(answer: Result<Reply, Refusal>) -> bool {
    !matches!(answer, Err(_) | Ok(Reply::NotYet))
}

/// A task that is spawned, and by whom.
#[derive(Clone, Copy)]
struct Spawned {
    parent: u32,
    child: u32,
}

/// The parent spawns the child, with the phasers of these pairs.
fn spawn(world: &mut World, spawned: Spawned, pairs: &[Pair]) -> Result<(), Refusal> {
    let Spawned { parent, child } = spawned;
    world.step(&WorldEvent::Begin(parent, Begun::Async(child, named(pairs))))?;
    for pair in pairs {
        world.step(&on(pair.phaser, Step::Reg(parent, child, pair.mode)))?;
    }
    world.step(&WorldEvent::Finish(0, FinishEvent::Spawned(child)))?;
    Ok(())
}

/// The root makes both phasers, spawns task 1, which signals on the first, and task 2, which
/// signals on the second, and each waits on the other's.
fn spawn_both(world: &mut World) -> Result<(), Refusal> {
    let root = TaskNumber::of(0);
    world.step(&made(0, root))?;
    world.step(&made(1, root))?;
    let signals = |phaser| Pair {
        phaser,
        mode: Mode::Sig,
    };
    let waits = |phaser| Pair {
        phaser,
        mode: Mode::Wait,
    };
    let first = Spawned {
        parent: 0,
        child: 1,
    };
    let second = Spawned {
        parent: 0,
        child: 2,
    };
    spawn(world, first, &[signals(0), waits(1)])?;
    spawn(world, second, &[signals(1), waits(0)])
}

/// The root leaves both phasers, and waits for its tasks.
fn leave(world: &mut World) -> Result<(), Refusal> {
    world.step(&WorldEvent::Begin(0, Begun::End))?;
    world.step(&on(0, Step::Drop(0)))?;
    world.step(&on(1, Step::Drop(0)))?;
    Ok(())
}

/// The keeper makes 15 phasers and spawns 199 tasks, each on one of these. All of them stand by.
fn stand_by(world: &mut World) -> Result<(), Refusal> {
    let keeper = Spawned {
        parent: 0,
        child: KEEPER,
    };
    spawn(world, keeper, &[])?;
    for phaser in 2..17 {
        world.step(&made(phaser, TaskNumber::of(KEEPER)))?;
    }
    for child in 4..203 {
        let pair = Pair {
            phaser: 2 + child % 15,
            mode: Mode::SigWait,
        };
        let other = Spawned {
            parent: KEEPER,
            child,
        };
        spawn(world, other, &[pair])?;
    }
    Ok(())
}

/// A turn of both tasks, so that neither has to wait.
fn turn() -> [WorldEvent; 8] {
    [
        WorldEvent::Begin(1, Begun::Next),
        on(0, Step::Sig(1, None)),
        on(0, Step::Pass(1)),
        WorldEvent::Begin(2, Begun::Next),
        on(1, Step::Sig(2, None)),
        on(1, Step::Pass(2)),
        on(0, Step::Pass(2)),
        on(1, Step::Pass(1)),
    ]
}

/// Hands the events to the world, and returns how many were made.
fn step_all(world: &mut World, events: &[WorldEvent]) -> u64 {
    let mut steps: u64 = 0;
    for event in events {
        if is_made(world.step(event)) {
            steps = steps.saturating_add(1);
        }
    }
    steps
}

/// A world in which both tasks went on, and how many steps were made in their turns.
#[derive(Drop)]
pub struct TurnedWorld {
    pub world: World,
    pub steps: u64,
}

/// Makes a world, in which others stand by if that is wanted, and has both tasks go on for so
/// many turns, or until the histories are full.
pub fn turned(
    alloc: Global,
    limits: Limits,
    others: bool,
    turns: u32,
) -> Result<TurnedWorld, Refusal>
    requires { limits_fit limits ≡ true }
{
    let mut world = World::new(alloc, limits)?;
    spawn_both(&mut world)?;
    if others {
        stand_by(&mut world)?;
    }
    leave(&mut world)?;
    let events = turn();
    let mut steps: u64 = 0;
    for _ in 0..turns {
        let made = step_all(&mut world, events.as_slice());
        steps = steps.saturating_add(made);
        if made < TURN {
            break;
        }
    }
    Ok(TurnedWorld { world, steps })
}
