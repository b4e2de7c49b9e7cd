//! What a world keeps of one task, and of one phaser: what each is about, and what it notes. In
//! `specs/` stands what each event is answered and leaves, as definitions of all that a world keeps.
#![tactic(auto)]

mod phaser;
mod plan;
mod task;

pub use phaser::KeptPhaser;
pub use plan::Plan;
pub use task::begins::enclosing_of;
pub use task::{KeptTask, MOST_PHASERS};
