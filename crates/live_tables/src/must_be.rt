//! What no clause says and is looked at while a table runs.
ghost use Rattle.std.specs.Prelude.{◌≡◌, true};

use std::sync::Wait;

/// It is so: else this waits for ever.
#[inline(always)]
pub(crate) fn must_be<R: Wait>(rt: &R, so: bool)
    ensures { so ≡ true }
{
    for _ in rt.forever() {
        if so {
            return;
        }
    }
    unreachable!()
}
