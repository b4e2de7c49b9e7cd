//! Programs and traces: which acts a task has left after a history, what a run by picks makes, and
//! whether the acts of a trace are those that its tasks' bodies give.
//!
//! A body is told by a function of what it is and of what it hears; a trace tells the outcome of each
//! act. So one walk over its events asks it of a program's tasks and of any other bodies, of any trace,
//! explained or not. It runs no task.
#![tactic(auto)]

mod acts;
mod examples;
mod following;
mod given;
mod going;
mod laws;
mod phasers_held;
mod same_act;
mod seats;
mod walking;

pub use acts::{Numbers, actor, event_of, tried_of};
pub use examples::{worked_limits, worked_refused_acts, worked_runs};
pub use following::goes_by;
pub use given::is_given;
pub use going::Goes;
pub use laws::{places_are_first, rounds_move, runs_are_legal, runs_follow, runs_give_up};
pub use seats::Seat;
pub use walking::walk;
