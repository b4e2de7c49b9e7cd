//! Finishes that come and go: each call of a finish, of its cell and of the table; a slot that is used
//! again; all slots taken; an owner that waits for the last task; and two threads.
ghost use Rattle.std.specs.Prelude.{◌≡◌, [], IfOk};

use crate::asserted::{equal, equal_at};
use live_tables::{LiveFinishes, LongFinish, LongFinishCell, ShutAnswer, SlotCounts};
use phase_modes::Refusal;
use phaser_core::Out;
use std::alloc::Global;
use std::process::Abort;
use std::sync::Wait;
use std::test::Fail;
use std::thread;
use std::thread::Threads;

/// What a call is answered that can't be done now.
const NOT_NOW: Result<(), Refusal> = Err(Refusal::NotNow);

/// What a shut answered, with the item that came back.
#[derive(Clone, Copy, Debug, PartialEq, Eq)]
enum Shutting {
    Done(u32),
    Parked,
    Refused(u32, Refusal),
}

fn answer_of(answer: ShutAnswer<u32>) -> Shutting {
    match answer {
        ShutAnswer::Done(item) => Shutting::Done(item),
        ShutAnswer::Parked => Shutting::Parked,
        ShutAnswer::Refused(item, refusal) => Shutting::Refused(item, refusal),
    }
}

/// A finish that owner 7 opens, with one task, which ends before it is shut.
#[test]
fn counted_finish(rt: HostRuntime) {
    let mut finish = LongFinish::new();
    equal(&rt, finish.spawned(), NOT_NOW);
    equal(&rt, finish.opened(7), Ok(()));
    equal(&rt, finish.opened(7), NOT_NOW);
    equal(&rt, finish.is_open(), true);
    equal(&rt, finish.spawned(), Ok(()));
    equal(&rt, finish.may_shut(), false);
    equal(&rt, finish.shut(), NOT_NOW);
    equal(&rt, finish.ended(), Ok(()));
    equal(&rt, finish.ended(), NOT_NOW);
    equal(&rt, finish.may_shut(), true);
    equal(&rt, finish.shut(), Ok(()));
    equal(&rt, finish.is_open(), false);
    equal(&rt, finish.spawned(), NOT_NOW);
    finish.is_legal();
}

/// One end on a cell: its answer, and the owner that it wakes.
fn end_in_cell(
    alloc: Global,
    cell: &mut LongFinishCell<u32>,
) -> Result<(Result<(), Refusal>, Option<u32>), Refusal> {
    let mut out = Out::new(alloc)?;
    let answer = cell.ended(&mut out);
    Ok((answer, out.take()))
}

/// An owner that is parked in a cell leaves with the end of the one task.
#[test]
fn parked_in_a_cell(rt: HostRuntime) -> Result<(), Fail> {
    let mut cell = LongFinishCell::open(7);
    equal(&rt, cell.spawned(), Ok(()));
    equal(&rt, answer_of(cell.shut(100)), Shutting::Parked);
    let ended = end_in_cell(rt.alloc(), &mut cell)?;
    equal(&rt, ended, (Ok(()), Some(100)));
    equal(&rt, answer_of(cell.shut(100)), Shutting::Done(100));
    Ok(())
}

/// A table of so many slots, if that is more than none.
fn table_of(alloc: Global, slots: u32) -> Result<LiveFinishes<u32>, Refusal>
    ensures { IfOk result (λ f. f.slots ≡ slots) }
{
    if slots == 0 {
        return Err(Refusal::NotNow);
    }
    LiveFinishes::new(alloc, slots)
}

/// What the owner's shut is answered.
fn shut<R: Wait>(rt: &R, finishes: &LiveFinishes<u32>, finish: u32, item: u32) -> Shutting {
    answer_of(finishes.shut(rt, finish, item))
}

/// One end: its answer, and the owner that it wakes.
fn end<R: Wait>(
    rt: &R,
    alloc: Global,
    finishes: &LiveFinishes<u32>,
    finish: u32,
) -> Result<(Result<(), Refusal>, Option<u32>), Refusal> {
    let mut out = Out::new(alloc)?;
    let answer = finishes.ended(rt, finish, &mut out);
    Ok((answer, out.take()))
}

/// In a table of two slots owner 7 opens finish 1, with one task, which ends before it is shut. Then
/// finish 0 is shut too.
fn open_and_shut<R: Abort + Wait>(
    rt: &R,
    alloc: Global,
    finishes: &LiveFinishes<u32>,
) -> Result<(), Refusal> {
    equal(rt, finishes.counts(rt).free, 1);
    equal(rt, finishes.open(rt, 7), Ok(1));
    equal(rt, finishes.counts(rt).free, 0);
    equal(rt, finishes.spawned(rt, 1), Ok(()));
    equal(rt, end(rt, alloc, finishes, 1)?, (Ok(()), None));
    equal(rt, shut(rt, finishes, 1, 100), Shutting::Done(100));
    equal(rt, finishes.counts(rt).free, 1);
    equal(rt, shut(rt, finishes, 0, 101), Shutting::Done(101));
    Ok(())
}

/// Two finishes were opened, finish 0 from the start, and both are shut.
#[test]
fn finish_in_a_slot(rt: HostRuntime) -> Result<(), Fail> {
    let finishes = table_of(rt.alloc(), 2)?;
    equal(&rt, finishes.slots, 2);
    open_and_shut(&rt, rt.alloc(), &finishes)?;
    let counts = SlotCounts {
        slots: 2,
        free: 2,
        taken: 2,
        given_back: 2,
    };
    equal(&rt, finishes.counts(&rt), counts);
    Ok(())
}

/// The first finish of slot 1 has a task more than the second: what was spawned and has ended in the
/// first counts for nothing in the second.
fn use_twice<R: Abort + Wait>(
    rt: &R,
    alloc: Global,
    finishes: &LiveFinishes<u32>,
) -> Result<(), Refusal> {
    equal(rt, finishes.open(rt, 7), Ok(1));
    equal(rt, finishes.spawned(rt, 1), Ok(()));
    equal(rt, end(rt, alloc, finishes, 1)?, (Ok(()), None));
    equal(rt, shut(rt, finishes, 1, 100), Shutting::Done(100));
    equal(rt, finishes.open(rt, 8), Ok(1));
    equal(rt, end(rt, alloc, finishes, 1)?, (NOT_NOW, None));
    equal(rt, shut(rt, finishes, 1, 101), Shutting::Done(101));
    Ok(())
}

/// A slot is used again, and its second finish begins anew.
#[test]
fn slot_used_again(rt: HostRuntime) -> Result<(), Fail> {
    let finishes = table_of(rt.alloc(), 2)?;
    use_twice(&rt, rt.alloc(), &finishes)?;
    Ok(())
}

/// Of three slots finish 0 has one; the other two are taken, and one of them is given back.
fn take_all<R: Abort + Wait>(rt: &R, finishes: &LiveFinishes<u32>) {
    const FULL: Result<u32, Refusal> = Err(Refusal::FinishesFull);
    equal(rt, finishes.open(rt, 7), Ok(1));
    equal(rt, finishes.open(rt, 7), Ok(2));
    equal(rt, finishes.open(rt, 7), FULL);
    equal(rt, shut(rt, finishes, 1, 100), Shutting::Done(100));
    equal(rt, finishes.open(rt, 7), Ok(1));
    equal(rt, finishes.open(rt, 7), FULL);
}

/// Once all slots are taken no finish is opened, until one is shut.
#[test]
fn all_slots_are_taken(rt: HostRuntime) -> Result<(), Fail> {
    let finishes = table_of(rt.alloc(), 3)?;
    take_all(&rt, &finishes);
    Ok(())
}

/// Each call on a slot that has no finish, and on one that the table hasn't.
fn ask_for_none<R: Abort + Wait>(
    rt: &R,
    alloc: Global,
    finishes: &LiveFinishes<u32>,
) -> Result<(), Refusal> {
    const REFUSED: Shutting = Shutting::Refused(100, Refusal::NotNow);
    for number in [1, 2, u32::MAX] {
        let row = ("finish", number);
        equal_at(rt, row, finishes.spawned(rt, number), NOT_NOW);
        equal_at(rt, row, end(rt, alloc, finishes, number)?, (NOT_NOW, None));
        equal_at(rt, row, shut(rt, finishes, number, 100), REFUSED);
    }
    Ok(())
}

/// Of two slots the second is free, and there is no third.
#[test]
fn no_finish_is_there(rt: HostRuntime) -> Result<(), Fail> {
    let finishes = table_of(rt.alloc(), 2)?;
    ask_for_none(&rt, rt.alloc(), &finishes)?;
    equal(&rt, finishes.counts(&rt).free, 1);
    Ok(())
}

/// The owner waits for two tasks, and another shut is refused meanwhile. The first end wakes nobody, the
/// second wakes the owner.
fn wait_for_two<R: Abort + Wait>(
    rt: &R,
    alloc: Global,
    finishes: &LiveFinishes<u32>,
) -> Result<(), Refusal> {
    const AGAIN: Shutting = Shutting::Refused(101, Refusal::NotNow);
    equal(rt, finishes.open(rt, 7), Ok(1));
    equal(rt, finishes.spawned(rt, 1), Ok(()));
    equal(rt, finishes.spawned(rt, 1), Ok(()));
    equal(rt, shut(rt, finishes, 1, 100), Shutting::Parked);
    equal(rt, shut(rt, finishes, 1, 101), AGAIN);
    equal(rt, end(rt, alloc, finishes, 1)?, (Ok(()), None));
    equal(rt, end(rt, alloc, finishes, 1)?, (Ok(()), Some(100)));
    equal(rt, finishes.counts(rt).free, 0);
    equal(rt, shut(rt, finishes, 1, 100), Shutting::Done(100));
    equal(rt, finishes.counts(rt).free, 1);
    Ok(())
}

/// The owner is parked until the last task has ended, and shuts the finish then.
#[test]
fn owner_waits_for_the_last(rt: HostRuntime) -> Result<(), Fail> {
    let finishes = table_of(rt.alloc(), 2)?;
    wait_for_two(&rt, rt.alloc(), &finishes)?;
    Ok(())
}

/// How many finishes each thread opens, and how many tasks of the root's finish each ends.
const TURNS: u32 = 1000;

/// A finish with one task is opened and shut: whether each call was done, and nobody woken.
fn turn<R: Wait>(
    rt: &R,
    finishes: &LiveFinishes<u32>,
    out: &mut Out<u32>,
    owner: u32,
) -> Result<bool, Refusal>
    requires { out.old ≡ [] }
{
    let finish = finishes.open(rt, u64::from(owner))?;
    finishes.spawned(rt, finish)?;
    finishes.ended(rt, finish, out)?;
    let nobody = out.take().is_none();
    Ok(nobody && shut(rt, finishes, finish, owner) == Shutting::Done(owner))
}

/// As many finishes, one after another: whether each was opened and shut.
fn open_many<R: Wait>(
    rt: &R,
    alloc: Global,
    finishes: &LiveFinishes<u32>,
    owner: u32,
) -> Result<bool, Refusal> {
    let mut all = true;
    for _turn in 0..TURNS {
        let mut out = Out::new(alloc)?;
        all &= turn(rt, finishes, &mut out, owner)?;
    }
    Ok(all)
}

/// Two threads, each with a finish at a time.
fn open_apart<R: Abort + Threads + Wait + Sync>(
    rt: &R,
    alloc: Global,
    finishes: &LiveFinishes<u32>,
) {
    let (first, second) = thread::join(
        rt,
        move || open_many(rt, alloc, finishes, 1),
        move || open_many(rt, alloc, finishes, 2),
    );
    equal(rt, first, Ok(true));
    equal(rt, second, Ok(true));
}

/// Two threads open and shut finishes at the same time, in two slots beside the root's.
#[test]
fn two_threads_open(rt: HostRuntime) -> Result<(), Fail> {
    let finishes = table_of(rt.alloc(), 3)?;
    open_apart(&rt, rt.alloc(), &finishes);
    let counts = SlotCounts {
        slots: 3,
        free: 2,
        taken: 2001,
        given_back: 2000,
    };
    equal(&rt, finishes.counts(&rt), counts);
    Ok(())
}

/// As many ends in the root's finish: how many of them woke an owner.
fn end_many<R: Wait>(rt: &R, alloc: Global, finishes: &LiveFinishes<u32>) -> Result<u32, Refusal> {
    let mut woken = 0;
    for _turn in 0..TURNS {
        let (answer, owner) = end(rt, alloc, finishes, 0)?;
        answer?;
        if owner == Some(100) {
            woken += 1;
        }
    }
    Ok(woken)
}

/// Two threads end 1,000 tasks each: together they wake the owner once.
fn end_apart<R: Abort + Threads + Wait + Sync>(
    rt: &R,
    alloc: Global,
    finishes: &LiveFinishes<u32>,
) {
    for _task in 0..2 * TURNS {
        equal(rt, finishes.spawned(rt, 0), Ok(()));
    }
    equal(rt, shut(rt, finishes, 0, 100), Shutting::Parked);
    let woken = thread::join(
        rt,
        move || end_many(rt, alloc, finishes),
        move || end_many(rt, alloc, finishes),
    );
    let once = woken == (Ok(1), Ok(0)) || woken == (Ok(0), Ok(1));
    assert!(rt; once, "{woken:?}");
    equal(rt, end(rt, alloc, finishes, 0), Ok((NOT_NOW, None)));
    equal(rt, shut(rt, finishes, 0, 100), Shutting::Done(100));
}

/// The ends of two threads wake the owner of the root's finish once, with the last of them.
#[test]
fn two_threads_end(rt: HostRuntime) -> Result<(), Fail> {
    let finishes = table_of(rt.alloc(), 1)?;
    end_apart(&rt, rt.alloc(), &finishes);
    equal(&rt, finishes.counts(&rt).free, 1);
    Ok(())
}
