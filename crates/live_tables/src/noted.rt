//! What a slot's log tells.

use phase_model::Terms;
use told_history::LongEvent;

/// One event of a phaser: which phaser of the slot it is, what that was made with, and the event.
#[derive(Clone, Copy)]
pub struct SlotNoted {
    pub number: u64,
    pub terms: Terms,
    pub event: LongEvent,
}
