//! Phasers and finishes that come and go in the slots of tables, one after another in each. Each slot is
//! behind a lock of its own. Of each phaser and finish that was ever in a slot there is one legal history.
//! Nothing stores it: it stands in the proofs alone. The calls on a phaser give receipts.
#![tactic(auto)]

mod finish;
mod finish_cell;
mod finish_event;
mod finish_slot;
mod finishes;
mod free_slots;
mod front;
mod must_be;
mod noted;
mod phasers;
mod resident;
mod slot;
mod vacant;

pub use finish::LongFinish;
pub use finish_cell::LongFinishCell;
pub use finish_core::ShutAnswer;
pub use finish_event::LongFinishEvent;
pub use finishes::LiveFinishes;
pub use free_slots::SlotCounts;
pub use front::{SlotFront, SlotLogs, new_slot_logs};
pub use noted::SlotNoted;
pub use phasers::LivePhasers;
pub use slot::At;
