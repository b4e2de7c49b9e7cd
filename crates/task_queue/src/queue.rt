//! The queue of all workers.
//!
//! A worker that finds its own deque empty looks at the others' now and then, and then lies down and
//! sleeps. One that looks is a looker, and one that has lain down a sleeper until it is called. One
//! word counts both. A put wakes nobody if there is a looker, which finds what was put. So a row of
//! puts wakes one at most. A looker that finds an item looks no longer; if it was the last one it
//! calls a sleeper in its place, so that as many come as find work.
//!
//! A looker steals only from a worker that has taken nothing of its own between two looks, some
//! microseconds apart. A worker that takes items faster is done with them before they are worth
//! their way to another processor, where two workers would wait for each other at one lock.
//!
//! No wake-up is lost. What is claimed: while an item is held whose put has ended, and somebody
//! sleeps, there is a looker, or one that was the last of them is about to call a sleeper.
//! A put pushes, and then reads the word, by adding 0. All that is added to the word has one order.
//!
//! - If the put reads that there are no sleepers, then whoever sleeps later has lain down after that.
//!   A worker that has lain down searches all deques once more before it sleeps, whatever the pace
//!   of their owners. So it finds the item, unless another took it.
//! - If the put reads that there are lookers, one of them or a later one is the first that leaves none
//!   behind, if any ever does. If it leaves by lying down, it searches after that, as above. If it has
//!   found an item, it reads the word after it has left, as a put does, and calls a sleeper if there
//!   are any and no looker.
//! - If the put reads that there are sleepers and no looker, it calls one.
//!
//! Whoever calls reads the word again, under the lock. If all still sleep it counts one of them as
//! called, and at once as a looker in place of a sleeper, and rings. Else it has read one of
//! the first two cases. So what is claimed passes from each that looks to the next. Those who
//! have lain down are the sleepers and those called that haven't risen, since all three counts
//! change under the lock. Who rises takes a call if there is one, and else leaves the sleepers. So it
//! doesn't matter whom the bell wakes, or whether the one who takes the call has slept at all:
//! each who has lain down can take it, and nobody sleeps, or goes on sleeping, while a call is there.
//! One whom the bell wakes too late, as another took the call, sleeps on. The lookers' claim
//! then stands with that other. One who has lain down and finds an item by its last search rises
//! first, and so leaves as a looker, with the same duty.
//!
//! To close sets a flag under the lock, and rings for all. Who has read the flag searches once more.
ghost use Rattle.std.specs.Prelude.{◌≡◌, ◌<◌, ◌≤◌, IfOk, IfErr, MatchResult, MatchOption, vec_len, ◌⊎◌, ◌≢◌};
ghost use Rattle.task_queue.specs.Accounts.{HasPut, IsSame, HasTaken, AreFresh, AreTogether, IsConserved};

use crate::closing::rest_of;
use crate::idle::Idle;
use crate::opening::seat_all;
use crate::pace::{Noted, Paces};
use crate::seat::Seat;
use phase_modes::Refusal;
use std::alloc::Global;
use std::hint::spin_loop;
use std::marker::PhantomData;
use std::sync::{Mutex, Wait};
use std::thread;

// How often a looker looks before it lies down.
const LOOKS: u32 = 50;

// The same, if others look.
const FEW_LOOKS: u32 = 3;

// How often a looker yields between two looks, and how long it pauses before each time: together
// some 2 to 9 microseconds, as long as a pause takes on the processor.
const YIELDS: u32 = 4;

const PAUSES: u32 = 40;

/// A queue of items with a first-in-first-out deque for each of its workers.
#[derive(Drop)]
pub struct RunQueue<T> {
    alloc: Global,
    workers: usize,
    idle: Idle,
    paces: Paces,
    // Its items go from thread to thread, and none is read by two at once.
    items: PhantomData<Mutex<T>>,
}

// Lets other threads run, and some time pass.
fn pause() {
    for _ in 0..YIELDS {
        spin();
        thread::yield_now();
    }
}

fn spin() {
    for _ in 0..PAUSES {
        spin_loop();
    }
}

impl<T: Drop> RunQueue<T> {
    /// A queue, and a seat for each of its 1 to 16 workers. `room` items fit into each deque before
    /// it grows. `Memory` if memory is refused.
    pub fn new(
        alloc: Global,
        workers: u32,
        room: usize,
    ) -> Result<(RunQueue<T>, Vec<Seat<T>>), Refusal>
        requires { workers ≤ 16 }
        ensures workers { IfOk result (λ r. (r.0.workers ≡ workers) × (vec_len r.1 ≡ workers)) }
        ensures seats { IfOk result (λ r. AreTogether r.1.items × AreFresh r.1.items) }
        ensures memory { IfErr result (λ e. e ≡ Refusal.Memory) }
    {
        let Ok(seats) = seat_all(alloc, workers, room) else {
            return Err(Refusal::Memory);
        };
        let Ok(paces) = Paces::new(alloc, workers) else {
            return Err(Refusal::Memory);
        };
        let queue = RunQueue {
            alloc,
            workers: workers as usize,
            idle: Idle::new(),
            paces,
            items: PhantomData,
        };
        Ok((queue, seats))
    }

    /// What the deques still hold, worker by worker, once all seats are back, in whatever order.
    /// `SharesDiffer` if their number isn't that of the workers, `Memory` if memory is refused;
    /// the items are dropped then.
    pub fn into_rest(self, seats: Vec<Seat<T>>) -> Result<Vec<T>, Refusal>
        requires { vec_len seats ≡ self.workers → AreTogether seats.items }
        ensures left { IfOk result (λ rest. IsConserved seats.items rest.items) }
        ensures number { IfOk result (λ _. vec_len seats ≡ self.workers) }
        ensures differ { IfErr result (λ e. ((e ≡ Refusal.Memory) × (vec_len seats ≡ self.workers))
            ⊎ ((e ≡ Refusal.SharesDiffer) × (vec_len seats ≢ self.workers))) }
    {
        if seats.len() != self.workers {
            return Err(Refusal::SharesDiffer);
        }
        let Ok(rest) = rest_of(self.alloc, seats) else {
            return Err(Refusal::Memory);
        };
        Ok(rest)
    }
}

impl<T> RunQueue<T> {
    /// Puts an item last into the deque of this seat's worker, and wakes one of those that sleep if
    /// nobody else looks for one. The item comes back if the deque refuses it, for memory or another
    /// cause.
    pub fn put<R: Wait>(&self, rt: &R, seat: &mut Seat<T>, item: T) -> Result<(), T>
        ensures { MatchResult result (λ _. HasPut seat.old item seat.new)
            (λ x. (x ≡ item) × IsSame seat.old seat.new) }
    {
        self.put_quietly(seat, item)?;
        self.wake(rt, 1);
        Ok(())
    }

    /// The same, but nobody is woken: `wake` has to follow, once all of a row are put.
    pub fn put_quietly(&self, seat: &mut Seat<T>, item: T) -> Result<(), T>
        ensures { MatchResult result (λ _. HasPut seat.old item seat.new)
            (λ x. (x ≡ item) × IsSame seat.old seat.new) }
    {
        seat.put(item)
    }

    /// Wakes one worker for so many items that were put quietly, if all that are idle sleep. It wakes
    /// the next when it has found one of them.
    pub fn wake<R: Wait>(&self, rt: &R, puts: u64) {
        if puts > 0 {
            self.idle.wake(rt);
        }
    }

    /// Takes the first item of this worker's deque, or else of another worker's that has one; waits
    /// if there is none. None once the queue is closed and no item was found after that.
    ///
    /// If all workers wait nobody is left to wake them: a worker that others wait for puts first,
    /// and one that is done or fails closes the queue.
    pub fn take<R: Wait>(&self, rt: &R, seat: &mut Seat<T>) -> Option<T>
        ensures { MatchOption result (IsSame seat.old seat.new)
            (λ x. HasTaken seat.old x seat.new) }
    {
        if let Some(item) = seat.pop() {
            self.show_pace(seat);
            return Some(item);
        }
        self.idle.begin_to_look();
        let found = self.search(rt, seat);
        self.idle.stop_looking(rt);
        found
    }

    /// Closes the queue: whoever waits or comes to take gets what is left, and then None.
    pub fn close<R: Wait>(&self, rt: &R) {
        self.idle.close(rt);
    }

    /// Whether it is closed. Once it is, it stays so.
    pub fn is_closed(&self) -> bool {
        self.idle.is_closed()
    }

    // Shows the lookers, if there are any, that this worker has taken an item of its own.
    fn show_pace(&self, seat: &Seat<T>) {
        if self.idle.is_looked_for() {
            self.paces.step(seat.worker);
        }
    }

    // Takes from another worker's deque, for a looker whose own is empty; waits if there is none.
    fn search<R: Wait>(&self, rt: &R, seat: &mut Seat<T>) -> Option<T>
        ensures { MatchOption result (IsSame seat.old seat.new)
            (λ x. HasTaken seat.old x seat.new) }
    {
        for _ in rt.forever() {
            if let Some(item) = self.look(rt, seat) {
                return Some(item);
            }
            self.idle.lie_down(rt);
            let is_closed = self.idle.is_closed();
            if let Some(item) = seat.steal(rt) {
                self.idle.get_up(rt);
                return Some(item);
            }
            if is_closed {
                self.idle.get_up(rt);
                return None;
            }
            self.idle.sleep(rt);
        }
        unreachable!()
    }

    // Looks for some time at the deques of the slow.
    fn look<R: Wait>(&self, rt: &R, seat: &mut Seat<T>) -> Option<T>
        ensures { MatchOption result (IsSame seat.old seat.new)
            (λ x. HasTaken seat.old x seat.new) }
    {
        let mut noted = Noted::new();
        for look in 0..LOOKS {
            if let Some(item) = seat.steal_from_slow(rt, &self.paces, &mut noted) {
                return Some(item);
            }
            if self.idle.is_closed() || (look >= FEW_LOOKS && self.idle.do_several_look()) {
                return None;
            }
            pause();
        }
        None
    }
}
