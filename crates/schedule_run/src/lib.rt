//! Runs of programs by picks, and whether a trace follows a program.
#![tactic(auto)]

mod bodies;
mod ended;
mod following;
mod notes;
mod record;
mod run;
mod runner;

pub use following::follows;
pub use run::{Run, run_picks};
