//! The queue of the tasks that can be run, with a deque for each worker.
//!
//! # What it is
//!
//! A worker puts tasks into its own deque and takes them from its front, first in, first out; to take
//! one of its own it asks for no lock. If its own has none it looks for another worker's, yields,
//! and after some looks sleeps until somebody puts one or closes the queue. It steals the first of a
//! worker that takes its own slowly: items that are done in a microsecond aren't worth the
//! way. A put wakes one sleeper if nobody looks, and the worker that finds a task wakes the next, so
//! that as many come as find work. Closing wakes all. Each worker has a `Seat`, which goes with its thread.
//!
//! # A caller
//!
//! ```rust
//! let (queue, seats) = RunQueue::new(alloc, workers, 64)?;
//! // each worker, in a thread of its own, with its seat
//! while let Some(task) = queue.take(rt, &mut seat) {
//!     if let Err(task) = queue.put(rt, &mut seat, task.step()) {
//!         mine.push(task)?;
//!     }
//! }
//! // whoever sees that all is done
//! queue.close(rt);
//! // after the joins, with all seats
//! let left = queue.into_rest(seats)?;
//! ```
//!
//! # What is promised
//!
//! A seat is seen as what was put from it and what was taken with it, from each deque. A `put` that
//! is Ok and a `take` that gives an item make one of these lists longer by it, and nothing else
//! changes them. `into_rest` counts deque by deque: what the owner put is, each as often, what all
//! seats took from it together with what comes back. So no item is lost, made or given twice.
//!
//! # What is not
//!
//! That `take` answers None only if nothing is held, in which order items of different workers
//! come, that a sleeper wakes, and that any call returns: tests show the first and the third.
#![tactic(auto)]

mod closing;
mod deque;
mod idle;
mod opening;
mod order;
mod pace;
mod queue;
mod reach;
mod rest;
mod rule;
mod seat;
mod steals;

pub use queue::RunQueue;
pub use seat::Seat;
