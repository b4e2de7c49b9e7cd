//! Tasks in flight: the bodies that they run, what they know and have seen, and what they note of
//! themselves. `task_worker` drives these tasks, and what runs a body by itself (`goes_by`, the kernels)
//! needs no more than this.
//!
//! Both runtimes, with a store and without, have their workers from here too: the threads (`Crew`), how a
//! worker takes and gives tasks (`Hand`), and how it asks a body for an act (`Acts`, `step`). What each makes
//! of an act it says itself. Nothing here takes a phaser's lock.
//!
//! A task keeps, of its body, that what the body says stays true of what the task has seen: so a body
//! that is stepped with an answer to another act, or not at all, is refused here.
#![tactic(auto)]

mod acts;
mod begun;
mod body;
mod crew;
mod diary;
mod hand;
mod moves;
mod naming;
mod task;

pub use acts::{Acts, step};
pub use begun::{answer_to, begun_by};
pub use body::{Body, Gate, OpenGate};
pub use crew::{Crew, in_threads, told};
pub use diary::Diary;
pub use hand::{Hand, put_root};
pub use naming::{RunNaming, Supposing};
pub use task::{Item, RootLeft, Task, TaskLeft};
