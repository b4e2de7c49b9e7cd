//! Answers of a phaser that lives long, by the narrower numbers of one that doesn't.
ghost use Rattle.std.specs.Prelude.{◌≡◌};
ghost use Rattle.phase_model.specs.Short.{IsShortLook, IsShortPassing};

use crate::answer::{LongPassing, Passing};
use crate::{LongLook, Look};

/// The same look by 64 bits, if they have room for its sum.
pub fn short_look(look: LongLook) -> Look
    requires { IsShortLook look }
    ensures { result ≡ look }
{
    match look {
        Look::Value(value) => Look::Value(value as i64),
        Look::Nothing => Look::Nothing,
    }
}

/// The same answer of a pass by 32 bits, if they have room for its phase.
pub fn short_passing(passing: LongPassing) -> Passing
    requires { IsShortPassing passing }
    ensures { result ≡ passing }
{
    match passing {
        Passing::Passed(phase) => Passing::Passed(phase as u32),
        Passing::Claimed(number) => Passing::Claimed(number),
        Passing::NotYet => Passing::NotYet,
    }
}
