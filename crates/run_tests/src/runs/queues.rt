//! The run queue with real threads.
ghost use Rattle.std.specs.Prelude.{◌≡◌, ◌<◌, ◌≤◌, vec_len};
ghost use Rattle.task_queue.specs.Accounts.{AreTogether};

use phase_modes::Refusal;
use std::alloc::Global;
use std::collections::VecDeque;
use std::sync::Wait;
use std::sync::atomic::{AtomicU64, Ordering};
use std::thread;
use std::thread::Threads;
use std::time::{Clock, Duration};
use task_queue::{RunQueue, Seat};
use tasks_in_flight::Hand;

// Whether an item was put from the seat at this place.
fn put_at<R: Wait>(
    rt: &R,
    queue: &RunQueue<u32>,
    seats: &mut Vec<Seat<u32>>,
    at: usize,
    item: u32,
) -> bool
    requires at { at < vec_len seats.old }
    requires together { AreTogether seats.old.items }
    ensures length { vec_len seats.new ≡ vec_len seats.old }
    ensures together { AreTogether seats.new.items }
{
    queue.put(rt, &mut seats[at], item).is_ok()
}

// Whether this item was taken with the seat at this place.
fn take_at<R: Wait>(
    rt: &R,
    queue: &RunQueue<u32>,
    seats: &mut Vec<Seat<u32>>,
    at: usize,
    item: Option<u32>,
) -> bool
    requires at { at < vec_len seats.old }
    requires together { AreTogether seats.old.items }
    ensures length { vec_len seats.new ≡ vec_len seats.old }
    ensures together { AreTogether seats.new.items }
{
    queue.take(rt, &mut seats[at]) == item
}

#[test]
fn first_in_first_out(rt: HostRuntime) -> Result<(), Refusal> {
    let (queue, mut seats) = RunQueue::new(rt.alloc(), 1, 2)?;
    for item in 0..100u32 {
        assert!(rt; put_at(&rt, &queue, &mut seats, 0, item));
    }
    for item in 0..60u32 {
        assert!(rt; take_at(&rt, &queue, &mut seats, 0, Some(item)));
    }
    queue.close(&rt);
    let rest = queue.into_rest(seats)?;
    assert!(rt; rest.len() == 40);
    assert!(rt; rest[0] == 60 && rest[39] == 99);
    Ok(())
}

// A run that is given up, as one is that was refused memory, leaves its tasks where they are: else one that
// never ends would go on for ever.
#[test]
fn a_hand_stops_at_a_closed_queue(rt: HostRuntime) -> Result<(), Refusal> {
    let (queue, mut seats) = RunQueue::new(rt.alloc(), 1, 4)?;
    let Some(seat) = seats.pop() else {
        return Err(Refusal::SharesDiffer);
    };
    let kept = VecDeque::new(rt.alloc());
    let mut hand = Hand { seat, kept };
    hand.give(&rt, &queue, 7u32)?;
    hand.give(&rt, &queue, 8)?;
    assert!(rt; hand.next(&rt, &queue) == Some(7));
    queue.close(&rt);
    assert!(rt; hand.next(&rt, &queue).is_none());
    Ok(())
}

// What a worker puts first, so many items from the first on, of the first half of all.
#[derive(Clone, Copy)]
struct Part {
    first: u32,
    share: u32,
    half: u32,
}

// Puts the first half of what there is to put from this seat, and then takes until the queue is
// closed. Whoever takes an item of the first half puts its fellow, that many further on, and whoever
// is done with the last of all closes the queue. Nobody takes while it still owes a put, so not all
// can wait. Whoever fails closes the queue for the others.
fn work<R: Wait>(
    rt: &R,
    alloc: Global,
    queue: &RunQueue<u32>,
    left: &AtomicU64,
    job: (Part, Seat<u32>),
) -> Result<Vec<u32>, Refusal> {
    let (part, mut seat) = job;
    let worked = put_and_take(rt, alloc, queue, left, part, &mut seat);
    if worked.is_err() {
        queue.close(rt);
    }
    worked
}

fn put_and_take<R: Wait>(
    rt: &R,
    alloc: Global,
    queue: &RunQueue<u32>,
    left: &AtomicU64,
    part: Part,
    seat: &mut Seat<u32>,
) -> Result<Vec<u32>, Refusal> {
    let Part { first, share, half } = part;
    let mut items = Vec::new(alloc);
    for step in 0..share {
        put_one(rt, queue, seat, first.wrapping_add(step))?;
    }
    for _ in rt.forever() {
        let Some(item) = queue.take(rt, seat) else {
            break;
        };
        items.push(item)?;
        if item < half {
            put_one(rt, queue, seat, item.wrapping_add(half))?;
        }
        count_down(rt, queue, left);
    }
    Ok(items)
}

fn put_one<R: Wait>(
    rt: &R,
    queue: &RunQueue<u32>,
    seat: &mut Seat<u32>,
    item: u32,
) -> Result<(), Refusal> {
    if queue.put(rt, seat, item).is_err() {
        return Err(Refusal::Memory);
    }
    Ok(())
}

fn count_down<R: Wait>(rt: &R, queue: &RunQueue<u32>, left: &AtomicU64) {
    if left.fetch_sub(1, Ordering::SeqCst) == 1 {
        queue.close(rt);
    }
}

// How many workers there are, and how many items each of them puts.
#[derive(Clone, Copy)]
struct Crowd {
    workers: u32,
    share: u32,
}

// Each worker puts its items, and each of them brings a second one: each comes out once, and
// nothing is left.
fn each_once<R: Threads + Wait + Sync>(rt: &R, alloc: Global, crowd: Crowd) -> Result<bool, Refusal>
    requires { crowd.workers ≤ 16 }
{
    let Crowd { workers, share } = crowd;
    let (queue, seats) = RunQueue::new(alloc, workers, 4)?;
    let half = workers.wrapping_mul(share);
    let all = half.wrapping_mul(2);
    let left = AtomicU64::new(all as u64);
    let mut jobs = Vec::new(alloc);
    let mut first = 0u32;
    for seat in seats {
        let part = Part { first, share, half };
        jobs.push((part, seat))?;
        first = first.wrapping_add(share);
    }
    let done = thread::map_vec(rt, jobs, &|job| work(rt, alloc, &queue, &left, job))?;
    let mut table = vec![in alloc; 0u32; all as usize]?;
    let mut sum = 0u64;
    for took in done {
        let items = took?;
        for item in items {
            sum = sum.wrapping_add(item as u64);
            if let Some(times) = table.get_mut(item as usize) {
                *times = times.wrapping_add(1);
            }
        }
    }
    let most = all as u64;
    Ok(table.iter().all(|&times| times == 1) && sum == most.wrapping_mul(most.wrapping_sub(1)) / 2)
}

#[test]
fn one_worker_takes_each_once(rt: HostRuntime) -> Result<(), Refusal> {
    let crowd = Crowd {
        workers: 1,
        share: 5_000,
    };
    assert!(rt; each_once(&rt, rt.alloc(), crowd)?);
    Ok(())
}

#[test]
fn two_workers_take_each_once(rt: HostRuntime) -> Result<(), Refusal> {
    let crowd = Crowd {
        workers: 2,
        share: 2_500,
    };
    assert!(rt; each_once(&rt, rt.alloc(), crowd)?);
    Ok(())
}

#[test]
fn sixteen_workers_take_each_once(rt: HostRuntime) -> Result<(), Refusal> {
    let crowd = Crowd {
        workers: 16,
        share: 312,
    };
    assert!(rt; each_once(&rt, rt.alloc(), crowd)?);
    Ok(())
}

#[test]
fn close_wakes_all(rt: HostRuntime) -> Result<(), Refusal> {
    let alloc = rt.alloc();
    let (queue, seats) = RunQueue::new(alloc, 16, 4)?;
    let waiting = AtomicU64::new(0);
    let queue_in = &queue;
    let jobs = seats;
    let slept = thread::map_vec(
        &rt,
        jobs,
        &|seat| sleep_or_close(&rt, queue_in, &waiting, seat),
    )?;
    assert!(rt; slept.len() == 16);
    assert!(rt; slept.iter().all(|&none| none));
    Ok(())
}

// The last of 16 closes the queue, the others wait for an item. Whether nobody got one.
fn sleep_or_close<R: Wait>(
    rt: &R,
    queue: &RunQueue<u32>,
    waiting: &AtomicU64,
    mut seat: Seat<u32>,
) -> bool {
    if waiting.fetch_add(1, Ordering::SeqCst) == 15 {
        queue.close(rt);
    }
    queue.take(rt, &mut seat).is_none()
}

// So many rows of so many items each, the giver's pause before each of them by so many microseconds longer
// than before the last, from none on. If each takes one, a taker that has one of a row takes no second.
#[derive(Clone, Copy)]
struct Rows {
    count: u32,
    length: u32,
    step: u64,
    each_takes_one: bool,
}

#[test]
fn each_put_is_taken_by_another(rt: HostRuntime) -> Result<(), Refusal> {
    let rows = Rows {
        count: 200,
        length: 1,
        step: 0,
        each_takes_one: false,
    };
    assert!(rt; rows_are_taken(&rt, rt.alloc(), rows)?);
    Ok(())
}

#[test]
fn a_row_of_puts_is_taken_by_others(rt: HostRuntime) -> Result<(), Refusal> {
    let rows = Rows {
        count: 50,
        length: 4,
        step: 0,
        each_takes_one: false,
    };
    assert!(rt; rows_are_taken(&rt, rt.alloc(), rows)?);
    Ok(())
}

// Whoever looks sleeps after some 150 microseconds, so these pauses end while the takers look, lie
// down, and begin to sleep. A row whose put wakes less than three in all would be waited for without
// end.
#[test]
fn no_wake_is_lost_around_lying_down(rt: HostRuntime) -> Result<(), Refusal> {
    let rows = Rows {
        count: 500,
        length: 3,
        step: 2,
        each_takes_one: true,
    };
    assert!(rt; rows_are_taken(&rt, rt.alloc(), rows)?);
    Ok(())
}

#[test]
fn no_wake_is_lost_in_deep_sleep(rt: HostRuntime) -> Result<(), Refusal> {
    let rows = Rows {
        count: 60,
        length: 3,
        step: 100,
        each_takes_one: true,
    };
    assert!(rt; rows_are_taken(&rt, rt.alloc(), rows)?);
    Ok(())
}

// Whether each item of these rows, given by one of four workers, is taken by another.
fn rows_are_taken<R: Threads + Wait + Clock + Sync>(
    rt: &R,
    alloc: Global,
    rows: Rows,
) -> Result<bool, Refusal> {
    let (queue, seats) = RunQueue::new(alloc, 4, 4)?;
    let turns = AtomicU64::new(0);
    let taken = AtomicU64::new(0);
    let queue_in = &queue;
    let done = thread::map_vec(
        rt,
        seats,
        &|seat| {
            if turns.fetch_add(1, Ordering::SeqCst) == 0 {
                give(rt, queue_in, &taken, rows, seat)
            } else {
                take_all(rt, queue_in, &taken, rows, seat)
            }
        },
    )?;
    let all = u64::from(rows.count).wrapping_mul(u64::from(rows.length));
    Ok(done.iter().all(|&none| none) && taken.load(Ordering::SeqCst) == all)
}

// Gives these rows to the others, each only once the one before was taken, so that mostly the others
// sleep, and closes the queue. It takes none itself: an item whose put wakes nobody would never be
// taken. Whether nothing is left then.
fn give<R: Wait + Clock>(
    rt: &R,
    queue: &RunQueue<u32>,
    taken: &AtomicU64,
    rows: Rows,
    mut seat: Seat<u32>,
) -> bool {
    let mut given = 0u64;
    for row in 0..rows.count {
        let pause = u64::from(row).wrapping_mul(rows.step);
        thread::sleep(rt, Duration::from_micros(pause));
        put_row(rt, queue, rows.length, &mut seat);
        given = given.saturating_add(u64::from(rows.length));
        wait_for(rt, taken, given);
    }
    queue.close(rt);
    queue.take(rt, &mut seat).is_none()
}

// Puts so many items, and wakes workers for all of them at once.
fn put_row<R: Wait>(rt: &R, queue: &RunQueue<u32>, row: u32, seat: &mut Seat<u32>) {
    let mut puts = 0u64;
    for item in 0..row {
        if queue.put_quietly(seat, item).is_ok() {
            puts = puts.saturating_add(1);
        }
    }
    queue.wake(rt, puts);
}

fn wait_for<R: Wait>(rt: &R, taken: &AtomicU64, wanted: u64) {
    for _ in rt.forever() {
        if taken.load(Ordering::SeqCst) >= wanted {
            return;
        }
        thread::yield_now();
    }
}

// Takes until the queue is closed, and if each takes one waits after each item until its row is taken.
// Whether nothing is left then.
fn take_all<R: Wait>(
    rt: &R,
    queue: &RunQueue<u32>,
    taken: &AtomicU64,
    rows: Rows,
    mut seat: Seat<u32>,
) -> bool {
    let length = u64::from(rows.length).max(1);
    for _ in rt.forever() {
        if queue.take(rt, &mut seat).is_none() {
            break;
        }
        let before = taken.fetch_add(1, Ordering::SeqCst);
        if rows.each_takes_one {
            wait_for(
                rt,
                taken,
                (before / length).wrapping_add(1).wrapping_mul(length),
            );
        }
    }
    queue.take(rt, &mut seat).is_none()
}

#[test]
fn seats_are_counted(rt: HostRuntime) -> Result<(), Refusal> {
    let (queue, mut seats) = RunQueue::new(rt.alloc(), 2, 1)?;
    assert!(rt;
        queue
            .put(&rt, &mut seats[0], Box::new(rt.alloc(), 7u32)?)
            .is_ok()
    );
    let _gone = seats.pop();
    assert!(rt; queue.into_rest(seats).err() == Some(Refusal::SharesDiffer));
    Ok(())
}

#[test]
fn what_others_put_is_stolen(rt: HostRuntime) -> Result<(), Refusal> {
    let (queue, mut seats) = RunQueue::new(rt.alloc(), 3, 1)?;
    assert!(rt; put_at(&rt, &queue, &mut seats, 1, 5));
    assert!(rt; put_at(&rt, &queue, &mut seats, 2, 6));
    assert!(rt; put_at(&rt, &queue, &mut seats, 2, 7));
    assert!(rt; take_at(&rt, &queue, &mut seats, 0, Some(5)));
    assert!(rt; take_at(&rt, &queue, &mut seats, 0, Some(6)));
    queue.close(&rt);
    assert!(rt; take_at(&rt, &queue, &mut seats, 1, Some(7)));
    assert!(rt; take_at(&rt, &queue, &mut seats, 1, None));
    assert!(rt; queue.into_rest(seats)?.is_empty());
    Ok(())
}

// The seats the other way round.
fn turned<T>(seats: Vec<Seat<T>>) -> Vec<Seat<T>>
    requires { AreTogether seats.items }
    ensures length { vec_len result ≡ vec_len seats }
    ensures together { AreTogether result.items }
{
    let mut seats = seats;
    seats.reverse();
    seats
}

#[test]
fn seats_come_back_in_any_order(rt: HostRuntime) -> Result<(), Refusal> {
    let (queue, mut seats) = RunQueue::new(rt.alloc(), 3, 1)?;
    assert!(rt; put_at(&rt, &queue, &mut seats, 0, 1));
    assert!(rt; put_at(&rt, &queue, &mut seats, 1, 2));
    assert!(rt; put_at(&rt, &queue, &mut seats, 2, 3));
    assert!(rt; put_at(&rt, &queue, &mut seats, 2, 4));
    let rest = queue.into_rest(turned(seats))?;
    assert!(rt; rest.len() == 4);
    assert!(rt; rest[0] == 1 && rest[1] == 2 && rest[2] == 3 && rest[3] == 4);
    Ok(())
}
