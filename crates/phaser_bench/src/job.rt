//! What is to be measured: calls of phasers alone, calls through a table, without receipts or with
//! them, or steps of worlds.
use crate::locks::job::LocksJob;
use crate::phasers::job::CoreJob;
use crate::worlds::job::WorldsJob;

/// What is to be measured.
#[derive(Clone, Copy, Debug, PartialEq, Eq)]
pub enum Job {
    /// Calls of phasers alone.
    Core(CoreJob),
    /// Calls through a table of phasers.
    Locks(LocksJob),
    /// The same calls with receipts.
    Receipts(LocksJob),
    /// Steps of worlds.
    Worlds(WorldsJob),
}
