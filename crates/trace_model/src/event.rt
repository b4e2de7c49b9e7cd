//! The events of a trace: those of a world, but a look with what it saw.
use finish_core::FinishEvent;
use phase_model::{Look, Terms};
use phase_modes::Mode;
use world_model::{Begun, Tried};

/// One step on a phaser, as it was made. The first number is the acting task's, in `Reg` the
/// parent's. Accumulators are numbered from 0.
#[derive(Clone, Copy, Debug, PartialEq, Eq)]
pub enum TracedStep {
    /// The task made the phaser with these terms, and was registered in this mode.
    Make(u32, Mode, Terms),
    /// The parent registered a child, in this mode.
    Reg(u32, u32, Mode),
    /// The task signalled its phase, with a number if it proposed a single.
    Sig(u32, Option<u32>),
    /// The task claimed the single of its phase.
    Claim(u32),
    /// The task reported the single that it had claimed done.
    Did(u32),
    /// The task ended its turn on this phaser.
    Pass(u32),
    /// The task sent a value to an accumulator.
    Send(u32, u8, i32),
    /// The task looked at an accumulator, and saw this.
    Look(u32, u8, Look),
    /// The task left the phaser.
    Drop(u32),
}

/// One event of a run.
#[derive(Clone, Copy, Debug, PartialEq, Eq)]
pub enum TracedEvent {
    /// A step on the phaser of this number.
    Phaser(u32, TracedStep),
    /// An event of the finish of this number.
    Finish(u32, FinishEvent),
    /// An entry of a task's log: it began an act.
    Begin(u32, Begun),
    /// An entry: the act was refused by the refusal of this number, and the task ended.
    Refuse(u32, Tried, u8),
    /// An entry: the task gave up what it was about, by the refusal of this number, and ended.
    Fail(u32, u8),
}
