//! Slots that are used again, by tasks and finishes whose numbers come once.
use crate::asserted::equal;
use live_world::{FinishAt, LiveWorld, TaskAt};
use phase_modes::Refusal;
use std::alloc::Global;

/// What the calls of one small run answered.
#[derive(Clone, Copy, Debug, PartialEq, Eq)]
struct Answers {
    finish: FinishAt,
    first: TaskAt,
    second: TaskAt,
    ended: Result<(), Refusal>,
    ended_again: Result<(), Refusal>,
    spawned_by_gone: Result<TaskAt, Refusal>,
    third: TaskAt,
    inner: FinishAt,
    ended_open: Result<(), Refusal>,
}

/// The root opens a finish and spawns a task, which spawns another and ends. The root spawns one
/// more, and the second opens a finish.
fn played(alloc: Global) -> Result<Answers, Refusal> {
    let mut world = LiveWorld::new(alloc)?;
    let root = world.root();
    let finish = world.open(root)?;
    let first = world.spawn(root)?;
    let second = world.spawn(first)?;
    let ended = world.end(first);
    let ended_again = world.end(first);
    let spawned_by_gone = world.spawn(first);
    let third = world.spawn(root)?;
    let inner = world.open(second)?;
    let ended_open = world.end(second);
    Ok(Answers {
        finish,
        first,
        second,
        ended,
        ended_again,
        spawned_by_gone,
        third,
        inner,
        ended_open,
    })
}

/// The third task gets the first one's slot, and a number of its own. The first one's name is gone.
#[test]
fn slots_are_used_again(rt: HostRuntime) -> Result<(), Refusal> {
    const WANTED: Answers = Answers {
        finish: FinishAt { slot: 1, number: 1 },
        first: TaskAt { slot: 1, number: 1 },
        second: TaskAt { slot: 2, number: 2 },
        ended: Ok(()),
        ended_again: Err(Refusal::NotNow),
        spawned_by_gone: Err(Refusal::NotNow),
        third: TaskAt { slot: 1, number: 3 },
        inner: FinishAt { slot: 2, number: 2 },
        ended_open: Err(Refusal::FinishOpen),
    };
    equal(&rt, played(rt.alloc())?, WANTED);
    Ok(())
}
