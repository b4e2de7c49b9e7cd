//! A phaser that lives long, shared by threads.
//!
//! A `LongLock` is the phaser behind a lock. Its calls give receipts: what a caller is answered is the
//! phaser's reply at a known place of the phaser's one history. Receipts have no bytes. Behind the lock
//! stands a `LongCell`, which is the phaser with the items of those who wait at it, and the whole of its
//! history. Neither grows by what is done.
//!
//! `with_long_phaser` makes one, and lets the workers of a `Crew` share it, each in a thread of its own.
//!
//! A `LongCell<Then>` is for threads that wait. A call that has to wait is parked, and what it is
//! answered at last comes back with the call of another task, which frees it. So a thread that wakes
//! has its answer, and takes no lock. The cell has no lock: the caller's own is around it.
#![tactic(auto)]

mod answer;
mod cell;
mod course;
mod crew;
mod entry;
mod events;
mod front;
mod lock;
mod own;
mod receipt_cell;
mod settle;
mod threads;
mod waiting;

pub use answer::{AskAnswer, Ended, Freed, FreedList};
pub use cell::LongCell;
pub use course::Then;
pub use crew::{Crew, Worker};
pub use entry::with_long_phaser;
pub use events::{done_event, look_event, pass_event, register_event, signal_event};
pub use front::{Front, Naming};
pub use lock::LongLock;
pub use phaser_core::{Out, Parked, ParkedCall, PassAnswer, SignalAnswer};
pub use receipt_cell::ReceiptCell;
