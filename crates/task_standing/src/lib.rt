//! What a task in flight knows of itself: the phasers that it holds, the finishes that it has open,
//! how many acts it has begun, and what it is about.
//!
//! From that alone, with no lock, come the event that is next and the refusal that an act meets. Both
//! are what a world answers in each history that has the task so.
//!
//! ```rust
//! let mut standing = Standing::new(alloc, TaskNumber::of(0), FinishNumber::of(0))?;
//! standing.may_try(limits, &Tried::Begun(Begun::Next))?;
//! standing.begin(Plan::Signalling(None, true));
//! let due = standing.due();
//! ```
//!
//! What it knows stays what the world's history says of it, event by event: the laws hold over all
//! legal histories of a world, and run nothing.
#![tactic(auto)]

mod children;
mod due;
mod examples;
mod held;
mod laws;
mod plan;
mod refusals;
mod standing;

pub use children::{
    children_are_born, children_join, children_leave, children_start_fresh, failures_end_with,
    others_leave_with, parents_go_on_alone, unborn_stay,
};
pub use examples::half_a_turn;
pub use held::Held;
pub use laws::{
    begins_begin, births_end_spawns, events_are_noted, failures_end, leaves_leave, looks_are_acts,
    makings_hold, notes_stay_true, openings_open, others_leave, pass_unmarks, plans_name_few,
    refusals_end, registrations_register, roots_start_fresh, sends_are_acts, shuts_shut,
    signal_marks, singles_leave, unborn_are_named,
};
pub use plan::{Due, Plan};
pub use standing::Standing;
