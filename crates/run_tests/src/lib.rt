//! Tests of what runs on workers, and of what each run gives, which call what these crates export: the
//! jobs of `run_jobs`, and below them `phased_rt`, `live_rt`, `tasks_in_flight`, `task_queue`, `job_kernels`, `trace_walk` and `run_laws`.
//!
//! A library of tests alone: if they stood in the crates themselves, these would be proved once
//! more with each change of a test.
#![tactic(auto)]

#[cfg(test)]
mod asserted;
#[cfg(test)]
mod certain_runs;
#[cfg(test)]
mod certificates;
#[cfg(test)]
mod ended;
#[cfg(test)]
mod kernels;
#[cfg(test)]
mod live_runs;
#[cfg(test)]
mod runs;
