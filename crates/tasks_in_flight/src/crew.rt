//! Workers, each in a thread of its own, whatever they work at, and by what one of them is refused.
ghost use Rattle.std.specs.Prelude.{◌≡◌, ℕ, ◌<◌, All, IfOk, IfErr, vec_len, slice_index_or};
ghost use Rattle.tasks_in_flight.specs.Refused.{IsRunRefused};

use phase_modes::Refusal;
use std::alloc::AllocError;
use std::sync::Wait;
use std::thread;
use std::thread::Threads;

/// What workers of this type share.
pub trait Crew<W> {
    /// What a worker keeps while it works. By default nothing.
    ghost stays: { W → W → Type 0 } = { λ _ _. Unit {0} };

    /// Works as long as there is something to do.
    fn work<R: Wait>(&self, rt: &R, worker: W) -> Result<W, Refusal>
        ensures stays { IfOk result (λ w. stays worker w) }
        ensures refused { IfErr result (λ e. IsRunRefused e) };
}

/// Lets each worker work in a thread of its own, if one can be made. What each answers, in their order.
pub fn in_threads<W: Send + Drop, C: Crew<W> + Sync, R: Threads + Wait + Sync>(
    rt: &R,
    crew: &C,
    staff: Vec<W>,
) -> Result<Vec<Result<W, Refusal>>, AllocError>
    ensures number { IfOk result (λ v. vec_len v ≡ vec_len staff) }
    ensures refused { IfOk result (λ v. All (λ r. IfErr r (λ e. IsRunRefused e)) v.items) }
    ensures stays { IfOk result (λ v. (i : ℕ) (d : W) (r : _) → i < vec_len staff
        → IfOk (slice_index_or v.items i r) (λ w. C.stays (slice_index_or staff.items i d) w)) }
{
    // In a function of its own the closure names no type that it neither takes nor captures.
    thread::map_vec(rt, staff, &|worker| crew.work(rt, worker))
}

/// What is answered if a call on a phaser or a finish was refused that no act under way can be
/// refused. Memory may be wanting anywhere.
pub fn told(refusal: Refusal) -> Refusal
    ensures { IsRunRefused result }
{
    match refusal {
        Refusal::Memory => Refusal::Memory,
        _ => Refusal::NotExplained(0),
    }
}
