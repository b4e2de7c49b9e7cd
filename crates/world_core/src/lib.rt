//! Many phasers, finishes and tasks at once, kept up to date event by event: what each event is
//! answered, and what each task is about.
#![tactic(auto)]

mod report_rows;
mod tables;
mod world;

pub use tables::Unused;
// For those who run tasks without a world: no crate here uses it.
pub use trace_model::Log;
pub use world::World;
