//! Phasers and finishes that threads share. A table has one lock for each phaser or finish by its
//! number.
#![tactic(auto)]

mod finish;
mod finishes;
mod lock;
mod phasers;

pub use finish::FinishCell;
pub use finish_core::ShutAnswer;
pub use finishes::{FinishParts, FinishTable};
pub use phaser_cell::{
    Out, Parked, ParkedCall, PassAnswer, PhaserCell, Post, SignalAnswer, Tickets,
};
pub use phasers::{PhaserParts, PhaserTable};
