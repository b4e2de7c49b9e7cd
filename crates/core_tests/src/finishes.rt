//! Each public call by hand, and many calls side by side with the slow plain function.
ghost use Rattle.std.specs.Prelude.{◌<◌};

use crate::asserted::{equal, equal_at, holds_at};
use finish_core::{FinishEvent, FinishState, allowed};
use phase_modes::Refusal;
use std::alloc::Global;
use std::process::Abort;
use std::test::Fail;

const DONE: Result<(), Refusal> = Ok(());

const NOT_NOW: Result<(), Refusal> = Err(Refusal::NotNow);

const FULL: Result<(), Refusal> = Err(Refusal::TasksFull);

/// Where a finish stands: not open, or open with tasks that run, or with none.
#[derive(Clone, Copy, Debug, PartialEq, Eq)]
enum Standing {
    NotOpen,
    Running,
    Idle,
}

fn stands(finish: &FinishState) -> Option<Standing> {
    match (finish.is_open(), finish.all_ended(), finish.may_shut()) {
        (false, true, false) => Some(Standing::NotOpen),
        (true, false, false) => Some(Standing::Running),
        (true, true, true) => Some(Standing::Idle),
        _ => None,
    }
}

/// A call, its reply, and where the finish stands then.
type Row = (FinishEvent, Result<(), Refusal>, Standing);

fn answers(rt: &impl Abort, finish: &mut FinishState, rows: &[Row]) {
    for (call, reply, expected) in rows {
        equal_at(rt, ("at", call), make(finish, *call), *reply);
        equal_at(rt, ("after", call), stands(finish), Some(*expected));
    }
}

/// The finish is for so many tasks, and has this history.
fn holds(rt: &impl Abort, finish: &FinishState, tasks: u32, events: &[FinishEvent]) {
    equal(rt, finish.tasks(), tasks);
    assert!(rt; finish.history() == events);
}

#[test]
fn shut_waits_for_each_task(rt: HostRuntime) -> Result<(), Fail> {
    const ROWS: [Row; 16] = [
        (FinishEvent::Spawned(1), NOT_NOW, Standing::NotOpen),
        (FinishEvent::Shut, NOT_NOW, Standing::NotOpen),
        (FinishEvent::Opened(0), DONE, Standing::Idle),
        (FinishEvent::Spawned(1), DONE, Standing::Running),
        (FinishEvent::Spawned(2), DONE, Standing::Running),
        (FinishEvent::Spawned(1), NOT_NOW, Standing::Running),
        (FinishEvent::Spawned(256), FULL, Standing::Running),
        (FinishEvent::Ended(3), NOT_NOW, Standing::Running),
        (FinishEvent::Shut, NOT_NOW, Standing::Running),
        (FinishEvent::Ended(1), DONE, Standing::Running),
        (FinishEvent::Ended(1), NOT_NOW, Standing::Running),
        (FinishEvent::Ended(2), DONE, Standing::Idle),
        (FinishEvent::Shut, DONE, Standing::NotOpen),
        (FinishEvent::Spawned(3), NOT_NOW, Standing::NotOpen),
        (FinishEvent::Ended(2), NOT_NOW, Standing::NotOpen),
        (FinishEvent::Opened(0), NOT_NOW, Standing::NotOpen),
    ];
    const ALL: [FinishEvent; 6] = [
        FinishEvent::Opened(0),
        FinishEvent::Spawned(1),
        FinishEvent::Spawned(2),
        FinishEvent::Ended(1),
        FinishEvent::Ended(2),
        FinishEvent::Shut,
    ];
    let mut finish = FinishState::new(rt.alloc(), 256)?;
    answers(&rt, &mut finish, ROWS.as_slice());
    holds(&rt, &finish, 256, ALL.as_slice());
    Ok(())
}

#[test]
fn owner_has_no_limit(rt: HostRuntime) -> Result<(), Fail> {
    const ROWS: [Row; 5] = [
        (FinishEvent::Opened(4_000_000_000), DONE, Standing::Idle),
        (FinishEvent::Spawned(1), FULL, Standing::Idle),
        (FinishEvent::Spawned(0), DONE, Standing::Running),
        (FinishEvent::Ended(0), DONE, Standing::Idle),
        (FinishEvent::Shut, DONE, Standing::NotOpen),
    ];
    const ALL: [FinishEvent; 4] = [
        FinishEvent::Opened(4_000_000_000),
        FinishEvent::Spawned(0),
        FinishEvent::Ended(0),
        FinishEvent::Shut,
    ];
    let mut finish = FinishState::new(rt.alloc(), 1)?;
    answers(&rt, &mut finish, ROWS.as_slice());
    holds(&rt, &finish, 1, ALL.as_slice());
    Ok(())
}

#[test]
fn plain_function_by_hand(rt: HostRuntime) {
    let opened = [FinishEvent::Opened(0)];
    let running = [FinishEvent::Opened(0), FinishEvent::Spawned(5)];
    let rows = [
        (allowed(&[], 8, FinishEvent::Opened(9)), true),
        (allowed(&[], 8, FinishEvent::Shut), false),
        (allowed(&opened, 8, FinishEvent::Opened(0)), false),
        (allowed(&opened, 8, FinishEvent::Shut), true),
        (allowed(&opened, 8, FinishEvent::Spawned(7)), true),
        (allowed(&opened, 8, FinishEvent::Spawned(8)), false),
        (allowed(&running, 8, FinishEvent::Spawned(5)), false),
        (allowed(&running, 8, FinishEvent::Ended(5)), true),
        (allowed(&running, 8, FinishEvent::Ended(4)), false),
        (allowed(&running, 8, FinishEvent::Shut), false),
    ];
    for (is_allowed, expected) in rows {
        equal(&rt, is_allowed, expected);
    }
}

/// The next number of a multiplicative congruential generator.
fn next(seed: u32) -> u32 {
    (u64::from(seed) * 48_271 % 2_147_483_647) as u32
}

/// The call that a number stands for: mostly spawns and ends, of nine task numbers.
fn call_of(number: u32) -> FinishEvent {
    let task = number / 16 % 9;
    match number % 16 {
        0 => FinishEvent::Opened(task),
        1 | 2 => FinishEvent::Shut,
        3..=7 => FinishEvent::Spawned(task),
        _ => FinishEvent::Ended(task),
    }
}

fn kind_of(call: FinishEvent) -> usize
    ensures { result < 4 }
{
    match call {
        FinishEvent::Opened(_) => 0,
        FinishEvent::Spawned(_) => 1,
        FinishEvent::Ended(_) => 2,
        FinishEvent::Shut => 3,
    }
}

fn make(finish: &mut FinishState, call: FinishEvent) -> Result<(), Refusal> {
    match call {
        FinishEvent::Opened(owner) => finish.opened(owner),
        FinishEvent::Spawned(child) => finish.spawned(child),
        FinishEvent::Ended(child) => finish.ended(child),
        FinishEvent::Shut => finish.shut(),
    }
}

/// The reply by the plain function. A call that only a higher limit would allow finds it full.
fn reply_by(events: &[FinishEvent], tasks: u32, call: FinishEvent) -> Result<(), Refusal> {
    if allowed(events, tasks, call) {
        Ok(())
    } else if allowed(events, u32::MAX, call) {
        Err(Refusal::TasksFull)
    } else {
        Err(Refusal::NotNow)
    }
}

/// Calls that were done, refused as not now, and refused for the limit, by kind.
#[derive(Clone, Copy, Default)]
struct Counts {
    done: [u32; 4],
    not_now: [u32; 4],
    full: u32,
}

impl Counts {
    fn add(&mut self, call: FinishEvent, reply: Result<(), Refusal>) {
        let kind = kind_of(call);
        match reply {
            Ok(()) => self.done[kind] = self.done[kind].saturating_add(1),
            Err(Refusal::NotNow) => self.not_now[kind] = self.not_now[kind].saturating_add(1),
            Err(_) => self.full = self.full.saturating_add(1),
        }
    }
}

/// Makes the call on the finish, and on the events by the plain function, and compares.
fn is_answered_alike(
    rt: &impl Abort,
    finish: &mut FinishState,
    events: &mut Vec<FinishEvent>,
    call: FinishEvent,
) -> Result<Result<(), Refusal>, Fail> {
    let may_shut = allowed(events, 8, FinishEvent::Shut);
    equal_at(rt, ("before", call), finish.may_shut(), may_shut);
    let expected = reply_by(events, 8, call);
    equal_at(rt, ("at", call), make(finish, call), expected);
    if expected.is_ok() {
        events.push(call)?;
    }
    Ok(expected)
}

/// Sixty calls on a new finish. They are counted.
fn sixty_calls(
    rt: &impl Abort,
    alloc: Global,
    seed: &mut u32,
    counts: &mut Counts,
) -> Result<(), Fail> {
    let mut finish = FinishState::new(alloc, 8)?;
    let mut events = Vec::new(alloc);
    for _call in 0..60 {
        *seed = next(*seed);
        let call = call_of(*seed);
        let reply = is_answered_alike(rt, &mut finish, &mut events, call)?;
        counts.add(call, reply);
    }
    holds(rt, &finish, 8, &events);
    Ok(())
}

#[test]
fn side_by_side_with_the_plain_function(rt: HostRuntime) -> Result<(), Fail> {
    let mut seed = 20_241;
    let mut counts = Counts::default();
    for _round in 0..40 {
        sixty_calls(&rt, rt.alloc(), &mut seed, &mut counts)?;
    }
    for kind in 0..4 {
        holds_at(&rt, ("none done of kind", kind), counts.done[kind] > 0);
        holds_at(
            &rt,
            ("none refused of kind", kind),
            counts.not_now[kind] > 0,
        );
    }
    assert!(rt; counts.full > 0, "none at the limit");
    Ok(())
}
