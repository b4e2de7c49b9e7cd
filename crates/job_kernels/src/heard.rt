//! What the bodies of both kernels give and hear.
ghost use Rattle.std.specs.Prelude.{◌≡◌, ◌≤◌, ◌∷◌, [], IfSome};
ghost use Rattle.job_kernels.specs.Tasks.{seen_in, value_of, pair_on};

use job_script::Answer;
use phase_model::{Look, Op, Ops};
use phase_modes::{Mode, Pair};

/// One accumulator, which folds so.
pub(crate) fn operator(op: Op) -> Ops
    ensures { result ≡ op ∷ [] }
{
    let mut ops = Ops::none();
    ops.push(op);
    ops
}

/// A phaser of a spawn.
pub(crate) fn pair(phaser: u32, mode: Mode) -> Pair
    ensures { result ≡ pair_on phaser mode }
{
    Pair { phaser, mode }
}

/// The value that was seen, if one was: a number that isn't negative and at most this.
pub(crate) fn seen_in(answer: Answer, greatest: u32) -> Option<u32>
    ensures seen { result ≡ seen_in greatest answer }
    ensures small { IfSome result (λ v. v ≤ greatest) }
{
    let Answer::Saw(Look::Value(value)) = answer else {
        return None;
    };
    match u32::try_from(value) {
        Ok(value) if value <= greatest => Some(value),
        _ => None,
    }
}

/// The value that was seen; 0 if none was.
pub(crate) fn value_of(answer: Answer, greatest: u32) -> u32
    ensures seen { result ≡ value_of greatest answer }
    ensures small { result ≤ greatest }
{
    seen_in(answer, greatest).unwrap_or(0)
}
