//! A worker's deque: what each of its calls changes in the view that the caller has of it.
ghost use Rattle.std.specs.Prelude.{◌≡◌, ◌++◌, ◌∷◌, [], ◌<◌, ◌+◌, ◌-◌, MatchResult, MatchOption, IfOk, IfSome, IfNone, ℕ, length, ◌≤◌};
ghost use Rattle.crossbeam_deque.specs.Handles.{worker_view, worker_deque, worker_flavor, view, IsPassOf, stealer_deque, stealer_flavor};
ghost use Rattle.crossbeam_deque.specs.Steals.{MatchSteal};
ghost use Rattle.task_queue.specs.Fair.{hand, weigh};

use crate::rule::{Cut, Fair, Hand, Puts, Steals, Takes};
use crossbeam_deque::{Pass, Steal, Stealer, Worker};
use std::alloc::{AllocError, Global};

/// A worker's own deque.
pub type Deque<T> = Worker<T, Global, Hand<T>, Fair>;

/// What steals from a worker's deque.
pub type Thief<T> = Stealer<T, Global, Hand<T>, Fair>;

/// An empty deque with room for so many items, first in, first out; all 17 parts are its owner's.
pub fn fresh<T: Drop>(alloc: Global, room: usize) -> Result<Deque<T>, AllocError>
    ensures { IfOk result (λ d. (worker_view d ≡ hand 17 [] []) × (worker_flavor d ≡ 0)) }
{
    Deque::fifo_as(alloc, room)
}

/// The owner puts an item last, or has it back if the deque refuses it.
pub fn put<T>(own: &mut Deque<T>, item: T) -> Result<(), T>
    requires { 0 < (worker_view own.old).parts }
    ensures same { (worker_deque own.new ≡ worker_deque own.old) × (worker_flavor own.new ≡ worker_flavor own.old) }
    ensures view { MatchResult result (λ _. worker_view own.new ≡ hand (worker_view own.old).parts ((worker_view own.old).put ++ item ∷ []) (worker_view own.old).taken) (λ x. (x ≡ item) × (worker_view own.new ≡ worker_view own.old)) }
{
    own.push_as::<Puts>(item)
}

/// The owner takes the first item. None only if nothing is held, once all parts are the owner's.
pub fn take<T>(own: &mut Deque<T>) -> Option<T>
    requires part { 0 < (worker_view own.old).parts }
    requires fifo { worker_flavor own.old ≡ 0 }
    ensures same { (worker_deque own.new ≡ worker_deque own.old) × (worker_flavor own.new ≡ worker_flavor own.old) }
    ensures empty { IfNone result ((worker_view own.old).parts ≡ 17 → (h : T → ℕ) → weigh h (worker_view own.old).put ≡ weigh h (worker_view own.old).taken) }
    ensures within { IfSome result (λ _. (worker_view own.old).parts ≡ 17 → length (worker_view own.new).taken ≤ length (worker_view own.new).put) }
    ensures view { MatchOption result (worker_view own.new ≡ worker_view own.old) (λ x. worker_view own.new ≡ hand (worker_view own.old).parts (worker_view own.old).put ((worker_view own.old).taken ++ x ∷ [])) }
{
    own.pop_as::<Takes>()
}

/// Takes the first item by a pass; `Retry` if another thread came first.
pub fn steal<T>(thief: &Thief<T>, pass: &mut Pass<T, Hand<T>>) -> Steal<T>
    requires part { 0 < (view pass.old).parts }
    requires table { IsPassOf (stealer_deque thief.now) pass.old }
    requires fifo { stealer_flavor thief.now ≡ 0 }
    ensures same { IsPassOf (stealer_deque thief.now) pass.new }
    ensures view { MatchSteal result (view pass.new ≡ view pass.old) (view pass.new ≡ view pass.old) (λ x. view pass.new ≡ hand (view pass.old).parts (view pass.old).put ((view pass.old).taken ++ x ∷ [])) }
{
    thief.steal_as::<Steals>(pass)
}

/// Makes a pass of one of the owner's parts.
pub fn another<T>(own: &mut Deque<T>) -> Pass<T, Hand<T>>
    requires { 1 < (worker_view own.old).parts }
    ensures same { (worker_deque own.new ≡ worker_deque own.old) × (worker_flavor own.new ≡ worker_flavor own.old) }
    ensures own { worker_view own.new ≡ hand ((worker_view own.old).parts - 1) (worker_view own.old).put (worker_view own.old).taken }
    ensures pass { IsPassOf (worker_deque own.old) result × (view result ≡ hand 1 [] []) }
{
    own.another::<Cut>()
}

/// Joins a pass to the owner's parts, with all that was taken by it.
pub fn absorb<T>(own: &mut Deque<T>, pass: Pass<T, Hand<T>>)
    requires part { 0 < (worker_view own.old).parts }
    requires table { IsPassOf (worker_deque own.old) pass }
    ensures same { (worker_deque own.new ≡ worker_deque own.old) × (worker_flavor own.new ≡ worker_flavor own.old) }
    ensures own { worker_view own.new ≡ hand ((worker_view own.old).parts + (view pass).parts) ((worker_view own.old).put ++ (view pass).put) ((worker_view own.old).taken ++ (view pass).taken) }
{
    own.absorb::<Cut>(pass)
}
