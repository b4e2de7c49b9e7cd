//! One worker of a run: it takes a task from the queue, asks its body for an act, and makes the
//! task's events one by one, each under the lock of one phaser or finish. A task that has to wait is
//! parked behind that lock, and whoever makes the event that wakes it puts it into the queue. No lock
//! is held while a body runs.
#![tactic(auto)]

mod acts;
mod calls;
mod driver;
mod worker;

pub use worker::{Numbers, Shared, Worker};
