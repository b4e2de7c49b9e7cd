//! What stands behind a phaser's lock: its state, the tickets of its events, its book, and the items of
//! those who wait for it.
#![tactic(auto)]

mod cell;
mod posts;
mod tickets;

pub use cell::PhaserCell;
pub use phaser_core::{Out, Parked, ParkedCall, PassAnswer, SignalAnswer};
pub use posts::{Locked, Post};
pub use tickets::Tickets;
