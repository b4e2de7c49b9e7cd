//! Calls through a table of phasers, each behind its lock, by threads: without receipts, and with
//! them.

mod calls;
pub mod job;
pub mod kind;
pub mod plain;
pub mod receipts;
mod threads;
