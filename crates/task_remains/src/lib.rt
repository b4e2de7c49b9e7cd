//! What a run leaves once its workers are done: its tables and the logs of its tasks, as parts of a
//! trace, no two logs of one task; and what all phasers together add up to.
#![tactic(auto)]

mod logs;
mod remains;

pub use remains::{Remains, gathered};
