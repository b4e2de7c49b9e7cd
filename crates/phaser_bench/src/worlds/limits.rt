//! The limits of the worlds that are measured.
ghost use Rattle.std.specs.Prelude.{◌≡◌, true};
ghost use Rattle.phase_modes.specs.Limits.{limits_fit};

use super::kind::Kind;
use phase_modes::Limits;

/// The longest histories, and room for two phasers and 15 others.
const LONG: Limits = Limits {
    acts: 65_536,
    finishes: 64,
    history: 65_536,
    phasers: 17,
    regs: 256,
    tasks: 256,
};

const GREATEST: Limits = Limits {
    acts: 65_536,
    finishes: 1_024,
    history: 65_536,
    phasers: 64,
    regs: 256,
    tasks: 4_096,
};

/// The limits of the kind's worlds.
pub fn limits_of(kind: Kind) -> Limits
    ensures fit { limits_fit result ≡ true }
{
    match kind {
        Kind::Calls | Kind::Alone | Kind::Beside | Kind::Reported => LONG,
        Kind::Default => Limits::default(),
        Kind::Greatest => GREATEST,
    }
}
