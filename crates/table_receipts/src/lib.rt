//! Phasers that threads share, behind locks, whose calls give receipts: what a caller is answered is
//! the phaser's reply at a known place of the phaser's one history. Receipts have no bytes.
#![tactic(auto)]

mod caller;
mod cell;
mod front;
mod fronts;
mod locked;
mod logs;
mod naming;
mod noted;
mod table;

pub use caller::Caller;
pub use front::{Front, PhaserLog};
pub use fronts::Fronts;
pub use locked::LockedPhaser;
pub use logs::{PhaserLogs, new_logs};
pub use naming::{Logs, Named, Naming};
pub use noted::Noted;
pub use table::{ReceiptParts, ReceiptTable};
