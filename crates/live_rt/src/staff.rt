//! The workers of a run, from the seats that they are given to what they hand back.
ghost use Rattle.std.specs.Prelude.{◌≡◌, All, IfErr};
ghost use Rattle.tasks_in_flight.specs.Refused.{IsRunRefused};

use crate::driver::Team;
use crate::ended::Ends;
use crate::names::Names;
use crate::shared::{Sums, Worker};
use crate::task::{Item, RootLeft};
use phase_modes::Refusal;
use phaser_core::Out;
use std::alloc::Global;
use std::collections::VecDeque;
use std::sync::Wait;
use std::thread::Threads;
use task_queue::Seat;
use tasks_in_flight::{Body, Gate, Hand, in_threads};

/// What the workers hand back: what they counted, and what the root leaves.
#[derive(Drop)]
pub(crate) struct Left<B: Body, J: Names> {
    pub(crate) sums: Sums,
    pub(crate) root: Option<RootLeft<B, J>>,
}

/// A worker at each seat.
pub(crate) fn staff_of<B: Body, J: Names>(
    alloc: Global,
    seats: Vec<Seat<Item<B, J>>>,
) -> Result<Vec<Worker<B, J>>, Refusal>
    ensures memory { IfErr result (λ e. e ≡ Refusal.Memory) }
{
    let mut staff = Vec::new(alloc);
    let mut number = 0u32;
    for seat in seats {
        staff.push(Worker {
            number,
            hand: Hand {
                seat,
                kept: VecDeque::new(alloc),
            },
            out: Out::new(alloc)?,
            sums: Sums::none(),
            root: None,
        })?;
        number = number.saturating_add(1);
    }
    Ok(staff)
}

/// Takes in what one worker hands back. Tasks that it still has are dropped.
fn take_back<B: Body, J: Names>(left: &mut Left<B, J>, worker: Worker<B, J>) {
    let Worker { sums, root, .. } = worker;
    left.sums = left.sums.with(sums);
    if let Some(root) = root {
        left.root = Some(root);
    }
}

/// What all workers hand back, or the first that something was amiss for.
fn left_of<B: Body, J: Names>(
    done: Vec<Result<Worker<B, J>, Refusal>>,
) -> Result<Left<B, J>, Refusal>
    requires { All (λ r. IfErr r (λ e. IsRunRefused e)) done.items }
    ensures refused { IfErr result (λ e. IsRunRefused e) }
{
    let mut left = Left {
        sums: Sums::none(),
        root: None,
    };
    for worker in done {
        take_back(&mut left, worker?);
    }
    Ok(left)
}

/// Runs the workers until all of them are done.
pub(crate) fn work_all<
    B: Body + Send,
    J: Names + Send + Sync,
    E: Ends<B> + Sync,
    G: Gate + Sync,
    R: Threads + Wait + Sync,
>(team: &Team<'_, B, J, E, G, R>, staff: Vec<Worker<B, J>>) -> Result<Left<B, J>, Refusal>
    ensures refused { IfErr result (λ e. IsRunRefused e) }
{
    let done = in_threads(team.rt, team, staff)?;
    left_of(done)
}
