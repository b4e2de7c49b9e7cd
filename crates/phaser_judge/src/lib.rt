//! Judges the events of phasers as they come. A `Judge` is handed the events of any number of phasers
//! one after the other, as a runtime's log has them, and says of each whether it could happen there. It
//! keeps no history: its memory is that of the phasers that are there and of the tasks registered on
//! them, however long they live.
//!
//! The runtime names phasers and tasks by any numbers. A phaser is gone with its last task, and its
//! number may be used again; so may a task's once it has left. With the tasks' numbers replaced by fresh
//! ones in the order of their registration, what was accepted is a legal history of each phaser, and
//! whatever leaves it one is accepted.
#![tactic(auto)]

mod calls;
mod event;
mod judge;
mod judged;
mod laws;
mod lists;
mod names;
mod owing;
mod phasers;
mod refused;
mod totals;

pub use event::{Named, NamedEvent};
pub use judge::Judge;
pub use laws::accepted_are_legal;
pub use lists::judge_all;
pub use owing::Owing;
pub use refused::Refused;
pub use totals::Totals;
