//! The events, as a runtime names what they are about.
use phase_model::{Bound, LongLook, Ops};
use phase_modes::Mode;

/// One event of a phaser. The phaser and its tasks go by whatever numbers the runtime chose.
#[derive(Clone, Copy, Debug, PartialEq, Eq)]
pub struct NamedEvent {
    pub phaser: u64,
    pub event: Named,
}

/// What happened at a phaser. The first number is the acting task's, in `Reg` the parent's.
/// Accumulators are numbered from 0.
#[derive(Clone, Copy, Debug, PartialEq, Eq)]
pub enum Named {
    /// The task made the phaser with these operators, and was registered in this mode. A signaller may
    /// be ahead of a waiter by as many phases as the bound says. Without a bound it is 65,536 phases, and
    /// a signal beyond them is refused as one that had to wait. The judge takes 272 bytes for each phase
    /// of the bound, 18 megabytes without one; at a barrier a bound of 2 says the same as none.
    Make(u64, Mode, Ops, Option<Bound>),
    /// The parent registered a child, in this mode.
    Reg(u64, u64, Mode),
    /// The task signalled its phase, with a number if it proposed a single.
    Sig(u64, Option<u32>),
    /// The task claimed the single of its phase, to run it.
    Claim(u64),
    /// The task reported the single that it had claimed done.
    Did(u64),
    /// The task ended its turn.
    Pass(u64),
    /// The task sent a value to an accumulator.
    Send(u64, u8, i32),
    /// The task looked at an accumulator, and saw this.
    Look(u64, u8, LongLook),
    /// The task left the phaser. With its last task the phaser is gone, and its number is free again.
    Drop(u64),
}
