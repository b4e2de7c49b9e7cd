//! Loops over the passes of one deque.
ghost use Rattle.std.specs.Prelude.{◌≡◌, ℕ, ◌++◌, ◌∷◌, [], ◌<◌, ◌+◌, ◌-◌, All, IfOk, OnOk, vec_len};
ghost use Rattle.std.specs.List.{flat_map};
ghost use Rattle.crossbeam_deque.specs.Handles.{worker_view, worker_deque, worker_flavor, view, IsPassOf};
ghost use Rattle.task_queue.specs.Fair.{hand, weigh};
ghost use Rattle.task_queue.specs.inner.Passes.{parts_of, put_of, taken_of};

use crate::deque;
use crate::deque::Deque;
use crate::rule::Hand;
use crossbeam_deque::Pass;
use std::alloc::{AllocError, Global};

/// Joins passes of the deque, one after another.
pub fn join_passes<T: Drop>(own: &mut Deque<T>, passes: Vec<Pass<T, Hand<T>>>)
    requires part { 0 < (worker_view own.old).parts }
    requires table { All (λ p. IsPassOf (worker_deque own.old) p) passes.items }
    ensures same { (worker_deque own.new ≡ worker_deque own.old) × (worker_flavor own.new ≡ worker_flavor own.old) }
    ensures parts { (worker_view own.new).parts ≡ (worker_view own.old).parts + weigh parts_of passes.items }
    ensures put { (worker_view own.new).put ≡ (worker_view own.old).put ++ flat_map put_of passes.items }
    ensures taken { (worker_view own.new).taken ≡ (worker_view own.old).taken ++ flat_map taken_of passes.items }
{
    for pass in passes {
        deque::absorb(own, pass);
    }
}

/// What the deque holds, once all passes are joined. What was put is what was taken before and this, each as often.
pub fn drain<T: Drop>(alloc: Global, own: &mut Deque<T>) -> Result<Vec<T>, AllocError>
    requires whole { (worker_view own.old).parts ≡ 17 }
    requires fifo { worker_flavor own.old ≡ 0 }
    ensures { IfOk result (λ v. (h : T → ℕ) → weigh h (worker_view own.old).put ≡ weigh h (worker_view own.old).taken + weigh h v.items) }
{
    let mut rest = Vec::new(alloc);
    while let Some(item) = deque::take(own) {
        if rest.push(item).is_err() {
            return Err(AllocError);
        }
    }
    Ok(rest)
}
