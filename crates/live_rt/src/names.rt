//! What a run's types are named by: the logs of its slots, and what its bodies suppose.
use live_tables::SlotLogs;
use tasks_in_flight::Supposing;

/// The slots' logs, and what has to hold for what a run's bodies say.
pub(crate) trait Names: SlotLogs + Supposing {}

impl<J: SlotLogs + Supposing> Names for J {}
