//! What is done with a trace: the parts of a run's log are merged to its trace, and a trace is
//! replayed on a world.
#![tactic(auto)]

mod merging;
mod player;
mod turns;

pub use merging::merge;
pub use player::replay;
