//! What the engine answers, as the stored phaser says it: a stored history has at most 65,536
//! events, so phases have 32 bits, and sums 64.
ghost use Rattle.std.specs.Prelude.{◌≡◌, IfOk};
ghost use Rattle.phase_model.specs.Short.{IsShortLook, IsShortPassing};

use phase_model::{LongLook, LongPassing, Look, Passing, short_look, short_passing};
use phase_modes::Refusal;

/// The answer of a pass.
#[inline(always)]
pub(crate) fn short_pass(answer: Result<LongPassing, Refusal>) -> Result<Passing, Refusal>
    requires { IfOk answer (λ x. IsShortPassing x) }
    ensures { result ≡ answer }
{
    match answer {
        Ok(passing) => Ok(short_passing(passing)),
        Err(refusal) => Err(refusal),
    }
}

/// The answer of a look.
#[inline(always)]
pub(crate) fn short_seen(answer: Result<LongLook, Refusal>) -> Result<Look, Refusal>
    requires { IfOk answer (λ x. IsShortLook x) }
    ensures { result ≡ answer }
{
    match answer {
        Ok(seen) => Ok(short_look(seen)),
        Err(refusal) => Err(refusal),
    }
}
