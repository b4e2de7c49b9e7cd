//! The statement that one task runs between two phases: what was last proposed on a phaser, who
//! claimed it, and whether it is done. Every call takes the same time and no memory.
#![tactic(auto)]

mod laws;
mod single;
mod statement;

pub use laws::{claims_are_unique, reports_are_unique};
pub use single::Single;
pub use statement::{Stage, Statement};
