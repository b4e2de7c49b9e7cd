//! The books of a run: how many events there were, and what was sent, once by phaser and once by
//! worker. Each entry is held by tokens that can be neither made nor lost, so the workers' shares
//! that come back at the end show what the phasers did.
#![tactic(auto)]

mod amounts;
mod blanks;
mod books;
mod gathering;
mod ledgers;
mod opening;
mod posting;
mod tally;

pub use blanks::Blanks;
pub use books::{Books, PhaserBook, Shares};
pub use gathering::{Totals, gather};
pub use ledgers::{Ledgers, Seven, SharedLedgers};
pub use opening::open;
pub use posting::post;
