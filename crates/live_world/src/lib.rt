//! A live world: the tasks and finishes that are alive, in slots that are used again. It stores no history.
//! Each call makes the events of one task's act, and the world stands for the legal history with just these more (`StandsFor`).
//! Phasers, the acts that wait (`shut`, `signal`, `wait`, `next`), the root's end and the list of the freed are still to come.
#![tactic(auto)]

mod at;
mod course;
mod finish_row;
mod laws;
mod slots;
mod task_row;
mod world;

pub use at::{FinishAt, TaskAt};
pub use course::Course;
pub use laws::{
    counts_tell, not_all_are_parked, parked_tasks_wait, shutters_wait, waiters_are_not_able,
};
pub use world::LiveWorld;
