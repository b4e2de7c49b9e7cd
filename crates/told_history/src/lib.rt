//! What only proofs read: a log, what was seen of it, and the history of a phaser. None of them has
//! bytes for its events, and no event is stored. The methods do nothing at run time, except that a
//! history counts its events.
#![tactic(auto)]

mod front;
mod log;
mod told;
mod wide;

pub use front::{Front, front_of, includes};
pub use log::Whole;
pub use told::Told;
pub use wide::{LongEvent, LongLimits};
