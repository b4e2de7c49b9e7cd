//! An owner that waits for two children, and the logs that they leave.
ghost use Rattle.std.specs.Prelude.{◌≡◌, ◌<◌, IfOk};

use crate::asserted::{equal, equal_at};
use finish_core::FinishEvent;
use phase_modes::{Limits, Refusal, TaskNumber};
use scope_locks::{FinishParts, FinishTable, Out, ShutAnswer, Tickets};
use std::alloc::Global;
use std::process::Abort;
use std::sync::Wait;
use std::test::Fail;
use trace_model::{Part, TracedEvent};

/// What a shut answered, with the item that came back.
#[derive(Clone, Copy, Debug, PartialEq, Eq)]
enum Shutting {
    Done(u32),
    Parked,
    Refused(u32, Refusal),
}

fn answer_of(answer: ShutAnswer<u32>) -> Shutting {
    match answer {
        ShutAnswer::Done(item) => Shutting::Done(item),
        ShutAnswer::Parked => Shutting::Parked,
        ShutAnswer::Refused(item, refusal) => Shutting::Refused(item, refusal),
    }
}

/// A table of as many finishes, and for as many tasks, as these limits allow.
fn table_for(alloc: Global, limits: Limits) -> Result<FinishTable<u32, u32>, Refusal>
    ensures { IfOk result (λ t. t.finishes ≡ limits.finishes) }
{
    if !limits.fits() {
        return Err(Refusal::NotNow);
    }
    FinishTable::new(alloc, limits)
}

/// What the owner's shut is answered.
fn shut<R: Wait>(
    rt: &R,
    table: &FinishTable<u32, u32>,
    tickets: &Tickets,
    number: usize,
    item: u32,
) -> Shutting
    requires { number < table.now.finishes }
{
    answer_of(table.shut(rt, number, tickets, item))
}

/// The root's finish is open, and the other isn't.
fn root_is_open<R: Abort + Wait>(rt: &R, table: &FinishTable<u32, u32>, tickets: &Tickets)
    requires { table.now.finishes ≡ 2 }
{
    const NOT_OPEN: Shutting = Shutting::Refused(100, Refusal::NotNow);
    equal(rt, shut(rt, table, tickets, 1, 100), NOT_OPEN);
    equal(rt, table.opened(rt, 0, tickets, 0), Err(Refusal::NotNow));
    equal(rt, shut(rt, table, tickets, 0, 100), Shutting::Done(100));
}

/// The root's finish is open from the start; before the other is opened it can't be shut.
#[test]
fn finishes_at_first(rt: HostRuntime) -> Result<(), Fail> {
    let limits = Limits {
        finishes: 2,
        tasks: 4,
        ..Limits::default()
    };
    let table = table_for(rt.alloc(), limits)?;
    root_is_open(&rt, &table, &Tickets::new());
    Ok(())
}

/// In each of the three finishes task 1 may be spawned, and number 2 is past the limit.
fn take_two_tasks<R: Abort + Wait>(rt: &R, table: &FinishTable<u32, u32>, tickets: &Tickets)
    requires { table.now.finishes ≡ 3 }
{
    const PAST: Result<(), Refusal> = Err(Refusal::TasksFull);
    equal(rt, table.opened(rt, 1, tickets, 0), Ok(()));
    equal(rt, table.opened(rt, 2, tickets, 0), Ok(()));
    for finish in 0..3 {
        equal_at(
            rt,
            ("finish", finish),
            table.spawned(rt, finish, tickets, 2),
            PAST,
        );
        equal_at(
            rt,
            ("finish", finish),
            table.spawned(rt, finish, tickets, 1),
            Ok(()),
        );
    }
}

/// Of its limits a table takes how many finishes there are, and each finish the limit of task numbers.
#[test]
fn finishes_have_the_limits(rt: HostRuntime) -> Result<(), Fail> {
    let limits = Limits {
        finishes: 3,
        tasks: 2,
        ..Limits::default()
    };
    let table = table_for(rt.alloc(), limits)?;
    take_two_tasks(&rt, &table, &Tickets::new());
    equal(&rt, table.into_parts().parts.len(), 3);
    Ok(())
}

/// Finish 1 is opened, and has two tasks.
fn opens_with_two<R: Abort + Wait>(rt: &R, table: &FinishTable<u32, u32>, tickets: &Tickets)
    requires { table.now.finishes ≡ 2 }
{
    equal(rt, table.opened(rt, 1, tickets, 0), Ok(()));
    equal(rt, table.spawned(rt, 1, tickets, 1), Ok(()));
    equal(rt, table.spawned(rt, 1, tickets, 2), Ok(()));
}

/// The owner is parked, and has its item back if it asks again.
fn parks_its_owner<R: Abort + Wait>(rt: &R, table: &FinishTable<u32, u32>, tickets: &Tickets)
    requires { table.now.finishes ≡ 2 }
{
    const AGAIN: Shutting = Shutting::Refused(101, Refusal::NotNow);
    equal(rt, shut(rt, table, tickets, 1, 100), Shutting::Parked);
    equal(rt, shut(rt, table, tickets, 1, 101), AGAIN);
}

/// The log that a task's end gives back, if it is refused, and the owner that it wakes.
type Back = (Option<u32>, Option<u32>);

/// The task ends in finish 1, and leaves this log.
fn end<R: Wait>(
    rt: &R,
    alloc: Global,
    table: &FinishTable<u32, u32>,
    tickets: &Tickets,
    task: TaskNumber,
    log: u32,
) -> Result<Back, Refusal>
    requires { table.now.finishes ≡ 2 }
{
    let mut out = Out::new(alloc)?;
    let refused = table.ended(rt, 1, tickets, task.get(), log, &mut out).err();
    Ok((refused, out.take()))
}

/// Each task ends with its log, and what comes back is as its row says.
fn end_all<R: Abort + Wait>(
    rt: &R,
    alloc: Global,
    table: &FinishTable<u32, u32>,
    tickets: &Tickets,
    rows: &[(u32, u32, Back)],
)
    requires { table.now.finishes ≡ 2 }
{
    for (task, log, back) in rows {
        let came = end(rt, alloc, table, tickets, TaskNumber::of(*task), *log);
        equal_at(rt, ("task", task), came, Ok(*back));
    }
}

/// Whether these are the logs of the tasks that have ended in this finish, the first first.
fn are_logs(parts: &FinishParts<u32>, finish: usize, logs: &[u32]) -> bool {
    match parts.logs.get(finish) {
        Some(left) => left.as_slice() == logs,
        None => false,
    }
}

/// The root's finish tells nothing of its opening, and of finish 1 each event is told, with the
/// tickets that were drawn.
fn tell_five(rt: &impl Abort, parts: &[Part]) {
    assert_eq!(rt; parts.len(), 2);
    equal(rt, parts[0].len(), 0);
    assert_eq!(rt; parts[1].len(), 5);
    let opened = TracedEvent::Finish(1, FinishEvent::Opened(0));
    let ended = TracedEvent::Finish(1, FinishEvent::Ended(1));
    assert!(rt; parts[1].entry(0) == (1, opened));
    assert!(rt; parts[1].entry(4) == (5, ended));
}

/// The tasks that ended in finish 1 left these logs, the first first.
fn leaves_logs(rt: &impl Abort, table: FinishTable<u32, u32>, logs: &[u32]) {
    let parts = table.into_parts();
    assert!(rt; are_logs(&parts, 1, logs));
    tell_five(rt, &parts.parts);
}

/// Task 3 isn't of the finish; the last of its two tasks wakes the owner.
#[test]
fn parked_owner(rt: HostRuntime) -> Result<(), Fail> {
    const ENDS: [(u32, u32, Back); 3] = [
        (3, 33, (Some(33), None)),
        (2, 22, (None, None)),
        (1, 11, (None, Some(100))),
    ];
    let limits = Limits {
        finishes: 2,
        tasks: 4,
        ..Limits::default()
    };
    let table = table_for(rt.alloc(), limits)?;
    let tickets = Tickets::new();
    equal(&rt, table.place(1, Refusal::FinishesFull), Ok(1));
    equal(
        &rt,
        table.place(2, Refusal::FinishesFull),
        Err(Refusal::FinishesFull),
    );
    opens_with_two(&rt, &table, &tickets);
    parks_its_owner(&rt, &table, &tickets);
    end_all(&rt, rt.alloc(), &table, &tickets, ENDS.as_slice());
    leaves_logs(&rt, table, &[22, 11]);
    Ok(())
}
