//! Seats in their workers' order.
ghost use Rattle.std.specs.Prelude.{◌≡◌, ◌<◌, Contains, map, IfOk, length};
ghost use Rattle.std.specs.List.{HoldsAt};
ghost use Rattle.task_queue.specs.Accounts.{HaveAll};
ghost use Rattle.task_queue.specs.inner.Emptied.{IsOrdered, IsOut};

use crate::opening::add;
use crate::seat::Seat;
use std::alloc::{AllocError, Global};

// If the seat of this worker is.
fn place_of<T>(seats: &[Seat<T>], worker: usize) -> usize
    requires { Contains (map (λ s. s.worker) seats.now) worker }
    ensures within { result < length seats.now }
    ensures place { HoldsAt (λ s. s.worker ≡ worker) seats.now result }
{
    for (at, seat) in seats.iter().enumerate() {
        if seat.worker == worker {
            return at;
        }
    }
    unreachable!()
}

// Takes the seat of this worker out.
fn take_seat<T>(seats: &mut Vec<Seat<T>>, worker: usize) -> Seat<T>
    requires { Contains (map (λ s. s.worker) seats.old.items) worker }
    ensures worker { result.worker ≡ worker }
    ensures out { IsOut seats.old.items result seats.new.items }
{
    let at = place_of(seats, worker);
    seats.remove(at)
}

// The same seats, in their workers' order.
pub fn in_order<T: Drop>(alloc: Global, seats: Vec<Seat<T>>) -> Result<Vec<Seat<T>>, AllocError>
    requires { HaveAll seats.items }
    ensures { IfOk result (λ ordered. IsOrdered seats.items ordered.items) }
{
    let mut seats = seats;
    let mut ordered = Vec::new(alloc);
    let workers = seats.len();
    for worker in 0..workers {
        let seat = take_seat(&mut seats, worker);
        add(&mut ordered, seat)?;
    }
    Ok(ordered)
}
