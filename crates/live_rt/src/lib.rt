//! Tasks over phasers and finishes, run by several workers for as long as the program lives.
//!
//! # A caller
//!
//! A task is a `Body`: it hears the outcome of its last act, and gives its next one. The root's comes
//! back at the end, with what it kept.
//!
//! ```rust
//! let room = Room { phasers: 64, finishes: 64 };
//! let ended = run_live(rt, alloc, root, room, 4, &Unheard, &OpenGate)?;
//! println!(rt; "{} tasks, all ended", ended.counts.tasks)?;
//! ```
//!
//! # How it goes
//!
//! A worker takes a task from the queue, asks its body for an act, and makes the task's events one by
//! one, each under the lock of one phaser or finish. A task that has to wait is parked behind that lock,
//! and the worker whose event wakes it puts it into the queue. Tasks, phasers and finishes come and go, and
//! their slots are used again. No event is stored, so memory is that of what is alive at once.
//!
//! # What is promised
//!
//! `run_live` says it at its place. To have a run stored, traced and replayed, give the same bodies to
//! `phased_rt::run`.
#![tactic(auto)]

mod acts;
mod calls;
mod driver;
mod ended;
mod entry;
mod moves;
mod names;
mod places;
mod pulses;
mod room;
mod shared;
mod staff;
mod task;

pub use ended::{Counts, Ended, Ends, Unheard};
pub use entry::run_live;
pub use job_script::{Act, Answer};
pub use phase_modes::Phased;
pub use pulses::Pulses;
pub use room::Room;
pub use tasks_in_flight::{Body, Gate, OpenGate};
