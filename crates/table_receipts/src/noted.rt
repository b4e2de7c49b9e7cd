//! What a phaser's log tells.
use phase_model::{Event, Terms};

/// One event of a phaser, with what the phaser was made with.
#[derive(Clone, Copy)]
pub struct Noted {
    pub terms: Terms,
    pub event: Event,
}
