//! Tests of `share_book`, `scope_locks`, `long_locks`, `level_phaser`, `table_receipts`, `live_tables` and
//! the numbers with types of `phase_modes`, which call what these export.
//!
//! A library of tests alone: if they stood in the crates themselves, these would be proved once
//! more with each change of a test.
#![tactic(auto)]

#[cfg(test)]
mod asserted;
#[cfg(test)]
mod books;
#[cfg(test)]
mod finishes;
#[cfg(test)]
mod level_tasks;
#[cfg(test)]
mod live_finishes;
#[cfg(test)]
mod live_phasers;
#[cfg(test)]
mod long_waiters;
#[cfg(test)]
mod numbers;
#[cfg(test)]
mod receipts;
#[cfg(test)]
mod replies;
#[cfg(test)]
mod run_tables;
#[cfg(test)]
mod tables;
#[cfg(test)]
mod waiter;
#[cfg(test)]
mod waiting;
