//! What is read off a list of world events, the oldest first: slow, and nothing is kept.
use super::*;

/// The task that the event spawns.
fn spawned_by(event: WorldEvent) -> Option<u32> {
    match event {
        WorldEvent::Finish(_, FinishEvent::Spawned(task)) => Some(task),
        _ => None,
    }
}

/// The task that the event ends; the root ends with the shut of finish 0.
fn ended_by(event: WorldEvent) -> Option<u32> {
    match event {
        WorldEvent::Finish(_, FinishEvent::Ended(task)) => Some(task),
        WorldEvent::Finish(0, FinishEvent::Shut) => Some(0),
        _ => None,
    }
}

/// The phaser on which the event registers a task, and the task.
fn registered_by(event: WorldEvent) -> Option<(u32, u32)> {
    match event {
        WorldEvent::Phaser(phaser, Step::Make(task, _, _)) => Some((phaser, task)),
        WorldEvent::Phaser(phaser, Step::Reg(_, task, _)) => Some((phaser, task)),
        _ => None,
    }
}

pub(super) fn is_born(events: &[WorldEvent], task: u32) -> bool {
    task == 0 || events.iter().any(|event| spawned_by(*event) == Some(task))
}

pub(super) fn is_ended(events: &[WorldEvent], task: u32) -> bool {
    events.iter().any(|event| ended_by(*event) == Some(task))
}

/// Who named the task as its child; the root for a number that nobody named.
pub(super) fn spawner(events: &[WorldEvent], task: u32) -> u32 {
    for event in events {
        match *event {
            WorldEvent::Begin(by, Begun::Async(child, _)) if child == task => return by,
            _ => {}
        }
    }
    0
}

pub(super) fn is_named(events: &[WorldEvent], task: u32) -> bool {
    for event in events {
        match *event {
            WorldEvent::Begin(_, Begun::Async(child, _)) if child == task => return true,
            _ => {}
        }
    }
    task == 0
}

pub(super) fn home(events: &[WorldEvent], task: u32) -> u32 {
    for event in events {
        match *event {
            WorldEvent::Finish(finish, FinishEvent::Spawned(born)) if born == task => {
                return finish;
            }
            _ => {}
        }
    }
    0
}

pub(super) fn is_phaser(events: &[WorldEvent], phaser: u32) -> bool {
    for event in events {
        match *event {
            WorldEvent::Phaser(made, Step::Make(_, _, _)) if made == phaser => return true,
            _ => {}
        }
    }
    false
}

pub(super) fn is_finish(events: &[WorldEvent], finish: u32) -> bool {
    for event in events {
        match *event {
            WorldEvent::Finish(opened, FinishEvent::Opened(_)) if opened == finish => return true,
            _ => {}
        }
    }
    finish == 0
}

fn is_open(events: &[WorldEvent], finish: u32) -> bool {
    let shut = WorldEvent::Finish(finish, FinishEvent::Shut);
    is_finish(events, finish) && !events.iter().any(|event| *event == shut)
}

/// Who opened the finish; finish 0 is the root's.
pub(super) fn owner(events: &[WorldEvent], finish: u32) -> u32 {
    for event in events {
        match *event {
            WorldEvent::Finish(opened, FinishEvent::Opened(task)) if opened == finish => {
                return task;
            }
            _ => {}
        }
    }
    0
}

/// Whether each task that was spawned in the finish has ended.
pub(super) fn all_ended(events: &[WorldEvent], finish: u32) -> bool {
    for event in events {
        match *event {
            WorldEvent::Finish(home, FinishEvent::Spawned(task)) => {
                if home == finish && !is_ended(events, task) {
                    return false;
                }
            }
            _ => {}
        }
    }
    true
}

pub(super) fn is_live(events: &[WorldEvent], phaser: PhaserNumber, task: u32) -> bool {
    let phaser = phaser.get();
    let left = on(phaser, Step::Drop(task));
    let joined = events
        .iter()
        .any(|event| registered_by(*event) == Some((phaser, task)));
    joined && !events.iter().any(|event| *event == left)
}

/// Adds the phaser on which the event registers the task, if it still is.
fn add_phaser(
    list: &mut Vec<u32>,
    events: &[WorldEvent],
    task: u32,
    event: WorldEvent,
) -> Result<(), Refusal> {
    if let Some((phaser, joined)) = registered_by(event)
        && joined == task
        && is_live(events, PhaserNumber::of(phaser), task)
    {
        list.push(phaser)?;
    }
    Ok(())
}

/// The phasers on which the task is registered now, in the order in which it got them.
pub(super) fn phasers_of(
    events: &[WorldEvent],
    task: u32,
    alloc: Global,
) -> Result<Vec<u32>, Refusal> {
    let mut list = Vec::new(alloc);
    for event in events {
        add_phaser(&mut list, events, task, *event)?;
    }
    Ok(list)
}

/// Adds the finish that the task opens by the event, if it is still open.
fn add_finish(
    list: &mut Vec<u32>,
    events: &[WorldEvent],
    task: u32,
    event: WorldEvent,
) -> Result<(), Refusal> {
    match event {
        WorldEvent::Finish(finish, FinishEvent::Opened(by)) => {
            if by == task && is_open(events, finish) {
                list.push(finish)?;
            }
        }
        _ => {}
    }
    Ok(())
}

/// The task's own open finishes, the innermost first.
pub(super) fn open_finishes(
    events: &[WorldEvent],
    task: u32,
    alloc: Global,
) -> Result<Vec<u32>, Refusal> {
    let mut list = Vec::new(alloc);
    for event in events.iter().rev() {
        add_finish(&mut list, events, task, *event)?;
    }
    Ok(list)
}

/// The innermost open finish of the task: its own, or the one in which it was spawned.
pub(super) fn inner(events: &[WorldEvent], task: u32) -> u32 {
    for event in events.iter().rev() {
        match *event {
            WorldEvent::Finish(finish, FinishEvent::Opened(by)) => {
                if by == task && is_open(events, finish) {
                    return finish;
                }
            }
            _ => {}
        }
    }
    home(events, task)
}

/// The finish that encloses the phaser: its maker's innermost one when it was made.
pub(super) fn enclosing(events: &[WorldEvent], phaser: u32) -> u32 {
    for i in 0..events.len() {
        match events[i] {
            WorldEvent::Phaser(made, Step::Make(task, _, _)) => {
                if made == phaser {
                    return inner(&events[..i], task);
                }
            }
            _ => {}
        }
    }
    0
}

/// Whether the event is a counted act of the task.
fn is_act(event: WorldEvent, task: u32) -> bool {
    match event {
        WorldEvent::Phaser(_, Step::Make(by, _, _))
        | WorldEvent::Phaser(_, Step::Send(by, _, _))
        | WorldEvent::Phaser(_, Step::Look(by, _))
        | WorldEvent::Finish(_, FinishEvent::Opened(by)) => by == task,
        WorldEvent::Begin(_, Begun::End) => false,
        WorldEvent::Begin(by, _) => by == task,
        _ => false,
    }
}

pub(super) fn acts(events: &[WorldEvent], task: u32) -> usize {
    events.iter().filter(|event| is_act(**event, task)).count()
}

/// By whom the event is made.
pub(super) fn actor(events: &[WorldEvent], event: &WorldEvent) -> u32 {
    match *event {
        WorldEvent::Phaser(_, Step::Drop(task)) => {
            if is_born(events, task) {
                task
            } else {
                spawner(events, task)
            }
        }
        WorldEvent::Phaser(_, Step::Make(task, _, _))
        | WorldEvent::Phaser(_, Step::Reg(task, _, _))
        | WorldEvent::Phaser(_, Step::Sig(task, _))
        | WorldEvent::Phaser(_, Step::Claim(task))
        | WorldEvent::Phaser(_, Step::Did(task))
        | WorldEvent::Phaser(_, Step::Pass(task))
        | WorldEvent::Phaser(_, Step::Send(task, _, _))
        | WorldEvent::Phaser(_, Step::Look(task, _))
        | WorldEvent::Finish(_, FinishEvent::Opened(task))
        | WorldEvent::Finish(_, FinishEvent::Ended(task))
        | WorldEvent::Begin(task, _)
        | WorldEvent::Refuse(task, _, _)
        | WorldEvent::Fail(task, _) => task,
        WorldEvent::Finish(_, FinishEvent::Spawned(task)) => spawner(events, task),
        WorldEvent::Finish(finish, FinishEvent::Shut) => owner(events, finish),
    }
}
