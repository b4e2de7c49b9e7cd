//! The engine of a phaser, for one thread. Every call is answered as the definition over the past
//! events says, and adds exactly the event that it says. The past stands in the contracts alone:
//! what is kept is a table of registrations, where the hindmost of them stand, cells for a window of
//! phases, and the last single.
#![tactic(auto)]

mod accumulators;
mod laws;
mod line_partials;
mod membership;
mod rear;
mod roll;
mod state;
mod turn;
mod view;

pub use laws::{both_make_alike, late_folds_are_folds};
pub use phase_model::{Passing, Signalling};
pub use state::Engine;
