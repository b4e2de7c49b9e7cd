//! What tests with drawn calls share: a small generator, always the same, and kinds of replies.
use phase_model::{Look, Reply};
use phase_modes::Mode;

const MODES: [Mode; 4] = [Mode::Sig, Mode::Wait, Mode::SigWait, Mode::Single];

const VALUES: [i32; 6] = [3, 0, -5, 2_147_483_647, -2_147_483_648, 17];

/// A multiplicative congruential generator.
#[derive(Drop)]
pub struct Dice {
    last: u32,
}

impl Dice {
    pub fn new() -> Dice {
        Dice { last: 20_261 }
    }

    /// A number below this one, 0 if there is none.
    pub fn below(&mut self, bound: u32) -> u32 {
        self.last = (u64::from(self.last) * 48_271 % 2_147_483_647) as u32;
        (self.last >> 8).checked_rem(bound).unwrap_or(0)
    }

    /// Half of the modes are `SINGLE`.
    pub fn mode(&mut self) -> Mode {
        MODES
            .get(self.below(6) as usize)
            .copied()
            .unwrap_or(Mode::Single)
    }

    pub fn value(&mut self) -> i32 {
        VALUES.get(self.below(6) as usize).copied().unwrap_or(1)
    }

    /// The number of a single, if any.
    pub fn number(&mut self) -> Option<u32> {
        match self.below(8) {
            0 | 1 => None,
            2..=4 => Some(8),
            _ => Some(7),
        }
    }

    pub fn accumulator(&mut self) -> u8 {
        u8::try_from(self.below(5)).unwrap_or(4)
    }
}

/// The reply with its number made 0.
pub fn without_number(reply: Reply) -> Reply {
    match reply {
        Reply::Phase(_) => Reply::Phase(0),
        Reply::Claim(_) => Reply::Claim(0),
        Reply::Saw(Look::Value(_)) => Reply::Saw(Look::Value(0)),
        other => other,
    }
}
