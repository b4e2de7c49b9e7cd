//! Limits and events with numbers of 64 bits.
ghost use Rattle.std.specs.Prelude.{◌≡◌};
ghost use Rattle.told_history.specs.Wide.{limits_of};

use phase_model::LongLook;
use phase_modes::{Limits, Mode};

/// Limits, of which those that grow with a long life have 64 bits: the events of a phaser and the
/// task numbers.
#[derive(Clone, Copy, Debug, PartialEq, Eq)]
pub struct LongLimits {
    pub acts: u32,
    pub finishes: u32,
    pub history: u64,
    pub phasers: u32,
    pub regs: u32,
    pub tasks: u64,
}

impl LongLimits {
    /// The same limits.
    pub fn of(limits: Limits) -> LongLimits
        ensures { limits_of result ≡ limits }
    {
        LongLimits {
            acts: limits.acts,
            finishes: limits.finishes,
            history: u64::from(limits.history),
            phasers: limits.phasers,
            regs: limits.regs,
            tasks: u64::from(limits.tasks),
        }
    }
}

/// One event of a phaser, as `phase_model::Event`, with task numbers of 64 bits and sums of 128.
#[derive(Clone, Copy)]
pub enum LongEvent {
    Make(u64, Mode),
    Reg(u64, u64, Mode),
    Sig(u64, Option<u32>),
    Claim(u64),
    Did(u64),
    Pass(u64),
    Send(u64, u8, i32),
    Look(u64, u8, LongLook),
    Drop(u64),
}
