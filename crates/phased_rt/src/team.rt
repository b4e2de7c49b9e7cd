//! The workers of a run as a crew.
ghost use Rattle.task_queue.specs.Accounts.{IsSeatOf};

use phase_modes::Refusal;
use std::sync::Wait;
use task_worker::{Shared, Worker};
use tasks_in_flight::{Body, Crew, Gate, RunNaming};

/// What all workers share, with the gate round each step.
#[derive(Drop)]
pub(crate) struct Team<'a, B: Body, K: RunNaming, G: Gate> {
    pub(crate) shared: &'a Shared<B, K>,
    pub(crate) gate: &'a G,
}

impl<'a, B: Body, K: RunNaming, G: Gate> Crew<Worker<B, K>> for Team<'a, B, K, G> {
    ghost stays = { λ old new. IsSeatOf old.hand.seat new.hand.seat };

    fn work<R: Wait>(&self, rt: &R, worker: Worker<B, K>) -> Result<Worker<B, K>, Refusal> {
        self.shared.work(rt, self.gate, worker)
    }
}
