//! Tasks over phasers and finishes, run by several workers.
//!
//! # A caller
//!
//! A task is a `Body`: it hears the outcome of its last act, and gives its next one. The root's comes
//! back in the report, with what it kept.
//!
//! ```rust
//! let report = run(rt, alloc, root, Limits::default(), 4, &OpenGate)?;
//! println!(rt; "{}", report.world)?;
//! ```
//!
//! # How it goes
//!
//! The workers run the tasks (`run_tasks`), and leave a part for each phaser and finish, the tasks' logs
//! and the sums. How one worker goes on stands in `task_worker`, and what they leave together in
//! `task_remains`. Then the parts are merged to a trace, and that is replayed on a world.
//!
//! # What is promised
//!
//! If `run` answers Ok, its trace is one of a legal history for each phaser and finish and of
//! logs, a world explains it, and the report is that of its history: each wait of it passed when its
//! phase was closed, and each fold is of exactly the values sent. Its parts are what the locks held,
//! as far as bodies heard of them: what the root's body says of what its task made, sent, saw, signalled
//! and passed is said of the trace (`says`), and so is what the body of each task said that ended by
//! itself (`each`). The contract says no more than the trace does: not that it ends, nor in which order
//! tasks go on.
#![tactic(auto)]

mod asked;
mod asking;
mod entry;
mod laws;
mod question;
mod report;
mod running;
mod staff;
mod team;
mod told;
mod workers;

pub use asking::run_and_ask;
pub use entry::run_tasks;
pub use job_script::{Act, Answer};
pub use laws::runs_are_traced;
pub use phase_modes::Phased;
pub use question::Question;
pub use report::Report;
pub use running::run;
pub use task_remains::Remains;
pub use tasks_in_flight::{Body, Gate, OpenGate};
pub use workers::Workers;
