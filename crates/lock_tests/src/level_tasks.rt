//! Tasks at the barrier without a lock: each call as worked out by hand, and threads that turn
//! phases while tasks join, send and leave. No clause says that a task is ever let go, so these
//! have to.
use crate::asserted::{equal, equal_at};
use level_phaser::{LevelPhaser, Member, Stage};
use phase_model::{Bound, LongLook, Look, Op, Ops};
use phase_modes::Refusal;
use std::alloc::Global;
use std::process::Abort;
use std::sync::Wait;
use std::test::Fail;
use std::thread;
use std::thread::Threads;

type Task = Member<LevelPhaser>;

/// A call of the task at this place of the list. `Join` adds the new task to the list.
#[derive(Clone, Copy, Debug, PartialEq, Eq)]
enum Call {
    Join(usize),
    Come(usize),
    Look(usize),
    Send(usize, u8, i32),
    LookAt(usize),
    Leave(usize),
}

/// What it is answered. `Busy` if it is to be asked again, `Wrong` if the task isn't where it may
/// ask.
#[derive(Clone, Copy, Debug, PartialEq, Eq)]
enum Answer {
    Joined(u64),
    Is(bool),
    Sent(Result<(), Refusal>),
    Seen(Result<LongLook, Refusal>),
    Busy,
    Wrong,
}

/// The first task of a phaser with one sum.
fn first(alloc: Global) -> Result<Task, Refusal> {
    first_with(alloc, Op::Sum)
}

/// The first task of a phaser with one accumulator.
fn first_with(alloc: Global, op: Op) -> Result<Task, Refusal> {
    let mut ops = Ops::none();
    ops.push(op);
    let bound = Bound::of(2).ok_or(Refusal::NotNow)?;
    let phaser = LevelPhaser::new(alloc, ops, bound)?;
    match Member::new(alloc, phaser) {
        Ok(task) => Ok(task),
        Err(_) => Err(Refusal::Memory),
    }
}

/// No test gets so far. A task has to stand below the last phase that there is a number for.
const MOST_PHASES: u64 = 1_000_000;

fn come(task: &mut Task) -> Answer {
    if task.stage != Stage::Stands || task.phase >= MOST_PHASES {
        return Answer::Wrong;
    }
    Answer::Is(task.come())
}

fn look(task: &mut Task) -> Answer {
    if task.stage != Stage::Waits || task.phase >= MOST_PHASES {
        return Answer::Wrong;
    }
    Answer::Is(task.look())
}

fn send(task: &mut Task, accumulator: u8, value: i32) -> Answer {
    if task.stage != Stage::Stands {
        return Answer::Wrong;
    }
    match task.send(accumulator, value) {
        Some(outcome) => Answer::Sent(outcome),
        None => Answer::Busy,
    }
}

fn look_at(task: &mut Task) -> Answer {
    if task.stage != Stage::Stands {
        return Answer::Wrong;
    }
    match task.look_at(0) {
        Some(seen) => Answer::Seen(seen),
        None => Answer::Busy,
    }
}

fn leave(task: &mut Task) -> Answer {
    if task.stage != Stage::Stands || task.phase >= MOST_PHASES {
        return Answer::Wrong;
    }
    Answer::Is(task.leave())
}

fn join(task: &mut Task) -> Option<Task> {
    if task.stage != Stage::Stands {
        return None;
    }
    task.join()
}

fn joined(tasks: &mut Vec<Task>, parent: usize) -> Answer {
    let Some(task) = tasks.get_mut(parent) else {
        return Answer::Wrong;
    };
    let Some(child) = join(task) else {
        return Answer::Busy;
    };
    let number = child.task;
    match tasks.push(child) {
        Ok(()) => Answer::Joined(number),
        Err(_) => Answer::Wrong,
    }
}

/// The call of a task at this place.
fn on_task(tasks: &mut [Task], at: usize, call: Call) -> Answer {
    let Some(task) = tasks.get_mut(at) else {
        return Answer::Wrong;
    };
    match call {
        Call::Come(_) => come(task),
        Call::Look(_) => look(task),
        Call::Send(_, accumulator, value) => send(task, accumulator, value),
        Call::LookAt(_) => look_at(task),
        Call::Leave(_) => leave(task),
        Call::Join(_) => Answer::Wrong,
    }
}

fn answer_to(tasks: &mut Vec<Task>, call: Call) -> Answer {
    match call {
        Call::Join(at) => joined(tasks, at),
        Call::Come(at)
        | Call::Look(at)
        | Call::Send(at, _, _)
        | Call::LookAt(at)
        | Call::Leave(at) => on_task(tasks.as_mut_slice(), at, call),
    }
}

const DONE: Answer = Answer::Sent(Ok(()));

/// The sum that a task sees.
fn sum(value: i128) -> Answer {
    Answer::Seen(Ok(Look::Value(value)))
}

const ROWS: [(Call, Answer); 33] = [
    // Phase 0: task 2 joins by task 1 once task 0 has come.
    (Call::LookAt(0), Answer::Seen(Err(Refusal::NoPhaseYet))),
    (Call::Join(0), Answer::Joined(1)),
    (Call::Send(0, 0, 5), DONE),
    (
        Call::Send(0, 1, 9),
        Answer::Sent(Err(Refusal::NoAccumulator)),
    ),
    (Call::Send(1, 0, 7), DONE),
    (Call::Come(0), Answer::Is(false)),
    (Call::Look(0), Answer::Is(false)),
    (Call::Come(0), Answer::Wrong),
    (Call::Join(1), Answer::Joined(2)),
    (Call::Come(1), Answer::Is(false)),
    (Call::Send(2, 0, -2), DONE),
    (Call::Look(0), Answer::Is(false)),
    (Call::Come(2), Answer::Is(true)),
    (Call::LookAt(2), Answer::Seen(Ok(Look::Value(10)))),
    (Call::Look(0), Answer::Is(true)),
    (Call::LookAt(0), Answer::Seen(Ok(Look::Value(10)))),
    // Phase 1: task 1, who hears of its end only now, is the last that is missing, and leaves.
    (Call::Send(0, 0, 1), DONE),
    (Call::Come(0), Answer::Is(false)),
    (Call::Come(2), Answer::Is(false)),
    (Call::Look(2), Answer::Is(false)),
    (Call::Look(1), Answer::Is(true)),
    (Call::LookAt(1), Answer::Seen(Ok(Look::Value(10)))),
    (Call::Leave(1), Answer::Is(true)),
    (Call::Leave(1), Answer::Wrong),
    (Call::Look(0), Answer::Is(true)),
    (Call::LookAt(0), Answer::Seen(Ok(Look::Value(1)))),
    (Call::Look(2), Answer::Is(true)),
    // Phase 2: task 2 leaves while task 0 is missing; then task 0 is alone, and leaves too.
    (Call::Leave(2), Answer::Is(true)),
    (Call::Come(0), Answer::Is(true)),
    (Call::LookAt(0), Answer::Seen(Ok(Look::Value(0)))),
    (Call::Leave(0), Answer::Is(true)),
    (Call::Come(0), Answer::Wrong),
    (Call::Join(0), Answer::Busy),
];

/// A value that is kept, one that is told at once, and rows that show nothing any more.
const KEPT: [(Call, Answer); 35] = [
    (Call::Join(0), Answer::Joined(1)),
    (Call::Join(0), Answer::Joined(2)),
    // Phase 0: the second value of task 0 is told before the first one.
    (Call::Send(0, 0, 3), DONE),
    (Call::Send(0, 0, 4), DONE),
    (Call::Send(1, 0, -10), DONE),
    (Call::Send(2, 0, 100), DONE),
    (Call::Come(2), Answer::Is(false)),
    (Call::Come(0), Answer::Is(false)),
    (Call::Come(1), Answer::Is(true)),
    (Call::Look(0), Answer::Is(true)),
    (Call::Look(2), Answer::Is(true)),
    (Call::LookAt(2), Answer::Seen(Ok(Look::Value(97)))),
    // Phase 1: task 1 alone sends.
    (Call::Come(0), Answer::Is(false)),
    (Call::Send(1, 0, 8), DONE),
    (Call::Come(1), Answer::Is(false)),
    (Call::Come(2), Answer::Is(true)),
    (Call::Look(0), Answer::Is(true)),
    (Call::Look(1), Answer::Is(true)),
    (Call::LookAt(0), Answer::Seen(Ok(Look::Value(8)))),
    // Phase 2: nobody sends.
    (Call::Come(1), Answer::Is(false)),
    (Call::Come(2), Answer::Is(false)),
    (Call::Come(0), Answer::Is(true)),
    (Call::Look(1), Answer::Is(true)),
    (Call::Look(2), Answer::Is(true)),
    (Call::LookAt(1), Answer::Seen(Ok(Look::Value(0)))),
    // Phase 3: task 2 sends what it keeps before it leaves, and ends the round.
    (Call::Send(1, 0, i32::MIN), DONE),
    (Call::Come(1), Answer::Is(false)),
    (Call::Send(0, 0, i32::MAX), DONE),
    (Call::Come(0), Answer::Is(false)),
    (Call::Send(2, 0, 5), DONE),
    (Call::Leave(2), Answer::Is(false)),
    (Call::Leave(2), Answer::Is(true)),
    (Call::Look(0), Answer::Is(true)),
    (Call::LookAt(0), Answer::Seen(Ok(Look::Value(4)))),
    (Call::Look(1), Answer::Is(true)),
];

/// The least value: who goes on reads it, and who joins or tells something asks for it.
const LEAST: [(Call, Answer); 31] = [
    (Call::Join(0), Answer::Joined(1)),
    (Call::LookAt(1), Answer::Seen(Err(Refusal::NoPhaseYet))),
    (Call::Send(0, 0, -1), DONE),
    (Call::Come(0), Answer::Is(false)),
    (Call::Come(1), Answer::Is(true)),
    (Call::LookAt(1), Answer::Seen(Ok(Look::Value(-1)))),
    (Call::Look(0), Answer::Is(true)),
    (Call::LookAt(0), Answer::Seen(Ok(Look::Value(-1)))),
    // Phase 1: task 2 joins, task 1 tells its second value, and task 0 leaves.
    (Call::Join(1), Answer::Joined(2)),
    (Call::LookAt(2), Answer::Seen(Ok(Look::Value(-1)))),
    (Call::Send(1, 0, i32::MAX), DONE),
    (Call::Send(1, 0, i32::MIN), DONE),
    (Call::LookAt(1), Answer::Seen(Ok(Look::Value(-1)))),
    (Call::LookAt(0), Answer::Seen(Ok(Look::Value(-1)))),
    (Call::Leave(0), Answer::Is(true)),
    (Call::LookAt(2), Answer::Seen(Ok(Look::Value(-1)))),
    (Call::Come(2), Answer::Is(false)),
    (Call::LookAt(1), Answer::Seen(Ok(Look::Value(-1)))),
    (Call::Come(1), Answer::Is(true)),
    (
        Call::LookAt(1),
        Answer::Seen(Ok(Look::Value(-2_147_483_648))),
    ),
    (Call::Look(2), Answer::Is(true)),
    (
        Call::LookAt(2),
        Answer::Seen(Ok(Look::Value(-2_147_483_648))),
    ),
    // Phase 2: nobody sends.
    (Call::Come(1), Answer::Is(false)),
    (Call::Come(2), Answer::Is(true)),
    (Call::LookAt(2), NONE_SENT),
    (Call::Look(1), Answer::Is(true)),
    (Call::LookAt(1), NONE_SENT),
    // Phase 3: task 1 leaves, and task 2 ends the round alone.
    (Call::Leave(1), Answer::Is(true)),
    (Call::Send(2, 0, 3), DONE),
    (Call::Come(2), Answer::Is(true)),
    (Call::LookAt(2), Answer::Seen(Ok(Look::Value(3)))),
];

/// There is no least of no values.
const NONE_SENT: Answer = Answer::Seen(Ok(Look::Nothing));

/// Each call in order, on the first task of a phaser.
fn compare(rt: &impl Abort, alloc: Global, rows: &[(Call, Answer)]) -> Result<(), Fail> {
    compare_from(rt, alloc, first(alloc)?, rows)
}

/// The same, on this task.
fn compare_from(
    rt: &impl Abort,
    alloc: Global,
    task: Task,
    rows: &[(Call, Answer)],
) -> Result<(), Fail> {
    let mut tasks = Vec::new(alloc);
    tasks.push(task)?;
    for (call, answer) in rows {
        equal_at(rt, *call, answer_to(&mut tasks, *call), *answer);
    }
    Ok(())
}

#[test]
fn each_call_of_a_task(rt: HostRuntime) -> Result<(), Fail> {
    compare(&rt, rt.alloc(), &ROWS)
}

#[test]
fn values_that_are_kept(rt: HostRuntime) -> Result<(), Fail> {
    compare(&rt, rt.alloc(), &KEPT)
}

#[test]
fn looks_while_tasks_join_and_leave(rt: HostRuntime) -> Result<(), Fail> {
    let task = first_with(rt.alloc(), Op::Least)?;
    compare_from(&rt, rt.alloc(), task, &LEAST)
}

/// A value that is taken from a task is not sent: in phase 0 only -2 is.
#[test]
fn a_kept_value_is_taken(rt: HostRuntime) -> Result<(), Fail> {
    let mut task = first(rt.alloc())?;
    equal(&rt, task.take_kept().is_none(), true);
    equal(&rt, send(&mut task, 0, 5), DONE);
    match task.take_kept() {
        Some(kept) => equal(&rt, (kept.task, kept.accumulator, kept.value), (0, 0, 5)),
        None => equal(&rt, false, true),
    }
    equal(&rt, task.take_kept().is_none(), true);
    equal(&rt, send(&mut task, 0, -2), DONE);
    equal(&rt, come(&mut task), Answer::Is(true));
    equal(&rt, look_at(&mut task), sum(-2));
    equal(&rt, task.take_kept().is_none(), true);
    Ok(())
}

/// So many tasks join and leave: those after them have no row.
const MANY: u64 = 300;

#[test]
fn tasks_without_a_row(rt: HostRuntime) -> Result<(), Fail> {
    let mut tasks = Vec::new(rt.alloc());
    tasks.push(first(rt.alloc())?)?;
    for number in 1..MANY {
        equal(&rt, joined(&mut tasks, 0), Answer::Joined(number));
        equal(&rt, answer_to(&mut tasks, Call::Leave(1)), Answer::Is(true));
        tasks.pop();
    }
    let rows = [
        (Call::Join(0), Answer::Joined(MANY)),
        (Call::Send(1, 0, 7), DONE),
        (Call::Send(0, 0, 1), DONE),
        (Call::Come(1), Answer::Is(false)),
        (Call::Come(0), Answer::Is(true)),
        (Call::LookAt(0), sum(8)),
        (Call::Look(1), Answer::Is(true)),
        (Call::Leave(1), Answer::Is(true)),
        (Call::Leave(0), Answer::Is(true)),
    ];
    for (call, answer) in &rows {
        equal_at(&rt, *call, answer_to(&mut tasks, *call), *answer);
    }
    Ok(())
}

const THREADS: usize = 4;

const PHASES: u64 = 300;

/// What a child sends.
const OF_CHILD: i32 = 100;

/// Until others hold nothing: the new task.
fn join_soon<R: Wait>(rt: &R, task: &mut Task) -> Option<Task> {
    for _ in rt.forever() {
        if let Some(child) = join(task) {
            return Some(child);
        }
        thread::yield_now();
    }
    None
}

/// Until others hold nothing: whether the value was sent.
fn send_soon<R: Wait>(rt: &R, task: &mut Task, value: i32) -> bool {
    for _ in rt.forever() {
        match send(task, 0, value) {
            Answer::Busy => thread::yield_now(),
            answer => return answer == DONE,
        }
    }
    false
}

/// Until others hold nothing: what the sum is.
fn look_soon<R: Wait>(rt: &R, task: &mut Task) -> Answer {
    for _ in rt.forever() {
        match look_at(task) {
            Answer::Busy => thread::yield_now(),
            answer => return answer,
        }
    }
    Answer::Busy
}

/// Until others hold nothing: the task leaves.
fn leave_soon<R: Wait>(rt: &R, task: &mut Task) {
    for _ in rt.forever() {
        if leave(task) != Answer::Is(false) {
            return;
        }
        thread::yield_now();
    }
}

/// Until the others have come: the task may go on.
fn go_on<R: Wait>(rt: &R, task: &mut Task) {
    for _ in rt.forever() {
        if look(task) != Answer::Is(false) {
            return;
        }
        thread::yield_now();
    }
}

/// One phase, in which a child of the task sends as well. The sum that the task sees then.
fn with_child<R: Wait>(rt: &R, task: &mut Task, number: i32) -> Answer {
    let Some(mut child) = join_soon(rt, task) else {
        return Answer::Busy;
    };
    if !send_soon(rt, &mut child, OF_CHILD) || come(&mut child) != Answer::Is(false) {
        return Answer::Wrong;
    }
    let seen = alone(rt, task, number);
    go_on(rt, &mut child);
    if look_soon(rt, &mut child) != seen {
        return Answer::Wrong;
    }
    leave_soon(rt, &mut child);
    seen
}

/// One phase: the task sends its number, comes, and waits. The sum that it sees then.
fn alone<R: Wait>(rt: &R, task: &mut Task, number: i32) -> Answer {
    if !send_soon(rt, task, number) {
        return Answer::Wrong;
    }
    if come(task) == Answer::Is(false) {
        go_on(rt, task);
    }
    look_soon(rt, task)
}

/// In every second phase a child takes part. How often the task saw what all had sent.
fn play<R: Wait>(rt: &R, task: Task, number: i32) -> u64 {
    let mut task = task;
    let mut right = 0u64;
    for phase in 0..PHASES {
        let has_child = phase % 2 == 0;
        let seen = if has_child {
            with_child(rt, &mut task, number)
        } else {
            alone(rt, &mut task, number)
        };
        // The tasks' numbers are 1 to 4.
        let wanted = if has_child { sum(410) } else { sum(10) };
        if seen == wanted {
            right = right.saturating_add(1);
        }
    }
    leave_soon(rt, &mut task);
    right
}

/// The tasks that play, one for each thread.
fn players(alloc: Global) -> Result<Vec<Task>, Fail> {
    let mut tasks = Vec::new(alloc);
    let mut maker = first(alloc)?;
    for _ in 1..THREADS {
        if let Some(task) = join(&mut maker) {
            tasks.push(task)?;
        }
    }
    tasks.push(maker)?;
    Ok(tasks)
}

/// Each task in a thread of its own. How often one saw what all had sent.
fn play_all<R: Threads + Wait + Sync>(
    rt: &R,
    alloc: Global,
    tasks: Vec<Task>,
) -> Result<u64, Fail> {
    thread::scope(thread::scope_env(), rt, |scope| -> Result<u64, Fail> {
        let mut threads = Vec::new(alloc);
        let mut number = 0i32;
        for task in tasks {
            number = number.saturating_add(1);
            threads.push(scope.spawn(move || play(rt, task, number))?)?;
        }
        let mut right = 0u64;
        for thread in threads {
            right = right.saturating_add(thread.join(rt));
        }
        Ok(right)
    })
}

#[test]
fn threads_turn_phases(rt: HostRuntime) -> Result<(), Fail> {
    let tasks = players(rt.alloc())?;
    equal(
        &rt,
        play_all(&rt, rt.alloc(), tasks)?,
        THREADS as u64 * PHASES,
    );
    Ok(())
}
