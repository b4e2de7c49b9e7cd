//! The words of the command line, as a job.
#![tactic(auto)]

mod command_line;
mod lists;
mod words;

pub use command_line::{Every, Job, NoJob, Value, job_of};
