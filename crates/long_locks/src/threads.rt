//! Jobs, each in a thread of its own, whoever does them. In a function of its own the closure names no type that it
//! neither takes nor captures, as the borrow checker asks.
ghost use Rattle.std.specs.Prelude.{◌≡◌, IfOk, vec_len};

use std::alloc::AllocError;
use std::sync::Wait;
use std::thread;
use std::thread::Threads;

/// What does a job, and gives an `X` back.
pub(crate) trait Work<J, X> {
    fn work<R: Wait>(&self, rt: &R, job: J) -> X;
}

/// Does each job in a thread of its own. What comes back, in their order.
pub(crate) fn in_threads<
    J: Send + Drop,
    X: Send + Drop,
    W: Work<J, X> + Sync,
    R: Threads + Wait + Sync,
>(rt: &R, who: &W, jobs: Vec<J>) -> Result<Vec<X>, AllocError>
    ensures { IfOk result (λ v. vec_len v ≡ vec_len jobs) }
{
    thread::map_vec(rt, jobs, &|job| who.work(rt, job))
}
