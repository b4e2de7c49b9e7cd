//! The workers of a run, from the seats that they are given to what they hand back.
ghost use Rattle.std.specs.Prelude.{◌≡◌, [], ◌∷◌, ◌++◌, ◌+◌, ◌<◌, true, map, vec_len, All, IfOk, IfErr, OnOk};
ghost use Rattle.phase_modes.specs.Limits.{limits_fit};
ghost use Rattle.share_book.specs.Opening.{AreAllParts};
ghost use Rattle.task_queue.specs.Accounts.{AreTogether, IsConserved};
ghost use Rattle.phased_rt.specs.inner.Back.{AreBack, AreSeatsIn};
ghost use Rattle.tasks_in_flight.specs.Refused.{IsRunRefused};
ghost use Rattle.task_remains.specs.Remaining.{AreRemains};
ghost use Rattle.tasks_in_flight.specs.Said.{IsSaid, AreSaid};

use crate::team::Team;
use phase_modes::{Limits, Refusal};
use phaser_cell::Out;
use share_book::{SharedLedgers, Shares};
use std::alloc::Global;
use std::collections::VecDeque;
use std::sync::Wait;
use std::thread::Threads;
use task_queue::{RunQueue, Seat};
use task_remains::{Remains, gathered};
use task_worker::{Shared, Worker};
use tasks_in_flight::{Body, Gate, Hand, Item, RootLeft, RunNaming, in_threads};

/// What the workers hand back: their seats and shares, and what the root leaves.
#[derive(Drop)]
struct Left<B: Body, K: RunNaming> {
    seats: Vec<Seat<Item<B, K>>>,
    shares: Vec<Shares<K>>,
    root: Option<RootLeft<B, K>>,
}

/// A worker at each seat, with a share each.
fn seated<B: Body, K: RunNaming>(
    alloc: Global,
    limits: Limits,
    seats: Vec<Seat<Item<B, K>>>,
    shares: Vec<Shares<K>>,
) -> Result<Vec<Worker<B, K>>, Refusal>
    requires { vec_len shares ≡ vec_len seats }
    ensures staff { IfOk result (λ v. map (λ w. w.hand.seat) v.items ≡ seats.items) }
    ensures number { IfOk result (λ v. vec_len v ≡ vec_len seats) }
    ensures memory { IfErr result (λ e. e ≡ Refusal.Memory) }
{
    let mut shares = shares;
    let mut staff = Vec::new(alloc);
    let mut number = 0u32;
    for seat in seats {
        let Some(mine) = shares.pop() else {
            unreachable!()
        };
        let hand = Hand {
            seat,
            kept: VecDeque::with_capacity(alloc, limits.tasks as usize)?,
        };
        staff.push(Worker {
            number,
            hand,
            shares: mine,
            out: Out::new(alloc)?,
            root: None,
        })?;
        number = number.saturating_add(1);
    }
    Ok(staff)
}

/// The workers of a queue's seats, with a share each.
pub(crate) fn staff_of<B: Body, K: RunNaming>(
    alloc: Global,
    limits: Limits,
    seats: Vec<Seat<Item<B, K>>>,
    shares: Vec<Shares<K>>,
) -> Result<Vec<Worker<B, K>>, Refusal>
    requires number { vec_len shares ≡ vec_len seats }
    requires together { AreTogether seats.items }
    ensures together { IfOk result (λ v. AreTogether (map (λ w. w.hand.seat) v.items)) }
    ensures number { IfOk result (λ v. vec_len v ≡ vec_len seats) }
    ensures memory { IfErr result (λ e. e ≡ Refusal.Memory) }
{
    seated(alloc, limits, seats, shares)
}

/// Takes in what one worker hands back.
fn take_back<B: Body, K: RunNaming>(
    left: &mut Left<B, K>,
    worker: Worker<B, K>,
) -> Result<(), Refusal>
    ensures seats { OnOk result (left.new.seats.items ≡ left.old.seats.items ++ worker.hand.seat ∷ []) }
    ensures shares { OnOk result (vec_len left.new.shares ≡ vec_len left.old.shares + 1) }
    ensures memory { IfErr result (λ e. e ≡ Refusal.Memory) }
{
    let Worker {
        hand,
        shares,
        root,
        ..
    } = worker;
    left.seats.push(hand.seat)?;
    left.shares.push(shares)?;
    if let Some(root) = root {
        left.root = Some(root);
    }
    Ok(())
}

/// What all workers hand back.
fn left_of<B: Body, K: RunNaming>(
    alloc: Global,
    done: Vec<Result<Worker<B, K>, Refusal>>,
) -> Result<Left<B, K>, Refusal>
    requires { All (λ r. IfErr r (λ e. IsRunRefused e)) done.items }
    ensures seats { IfOk result (λ l. AreSeatsIn (λ w. w.hand.seat) done.items l.seats.items) }
    ensures shares { IfOk result (λ l. vec_len l.shares ≡ vec_len done) }
    ensures refused { IfErr result (λ e. IsRunRefused e) }
{
    let mut left = Left {
        seats: Vec::new(alloc),
        shares: Vec::new(alloc),
        root: None,
    };
    for worker in done {
        take_back(&mut left, worker?)?;
    }
    Ok(left)
}

/// Sees that no task is left in the queue: each that was put was taken as often. `NotExplained`
/// if one is.
fn none_left<B: Body, K: RunNaming>(
    queue: RunQueue<Item<B, K>>,
    seats: Vec<Seat<Item<B, K>>>,
) -> Result<(), Refusal>
    requires number { vec_len seats ≡ queue.workers }
    requires together { AreTogether seats.items }
    ensures none { IfOk result (λ _. IsConserved seats.items []) }
    ensures refused { IfErr result (λ e. IsRunRefused e) }
{
    let rest = queue.into_rest(seats)?;
    if !rest.is_empty() {
        return Err(Refusal::NotExplained(0));
    }
    Ok(())
}

/// Runs the workers, each in a thread of its own if one can be made, until all of them are done.
fn work_all<K: RunNaming + SharedLedgers, B: Body + Send, G: Gate + Sync, R: Threads + Wait + Sync>(
    rt: &R,
    shared: &Shared<B, K>,
    staff: Vec<Worker<B, K>>,
    gate: &G,
) -> Result<Left<B, K>, Refusal>
    ensures seats { IfOk result (λ l. AreBack (map (λ w. w.hand.seat) staff.items) l.seats.items) }
    ensures shares { IfOk result (λ l. vec_len l.shares ≡ vec_len staff) }
    ensures refused { IfErr result (λ e. IsRunRefused e) }
{
    let done = in_threads(rt, &Team { shared, gate }, staff)?;
    left_of(shared.alloc, done)
}

/// Gathers what the workers leave. `NotExplained` if the root has left nothing, or if two logs
/// are of one task.
fn gather_all<K: RunNaming, B: Body, R: Wait>(
    rt: &R,
    shared: Shared<B, K>,
    left: Left<B, K>,
) -> Result<Remains<B>, Refusal>
    requires fit { limits_fit shared.limits ≡ true }
    requires phasers { shared.phasers.phasers ≡ shared.limits.phasers }
    requires finishes { shared.finishes.finishes ≡ shared.limits.finishes }
    requires workers { AreAllParts (vec_len left.shares) K.EventsByWorker.parts K.UpByWorker.parts K.DownByWorker.parts }
    requires seats { vec_len left.seats ≡ shared.queue.workers }
    requires together { AreTogether left.seats.items }
    requires books { AreAllParts shared.limits.phasers K.EventsByPhaser.parts K.UpByPhaser.parts K.DownByPhaser.parts }
    ensures remains { IfOk result (λ r. AreRemains shared.limits r.phasers.items r.finishes.items r.logs.items r.totals) }
    ensures says { IfOk result (λ r. K.Supposing.supposed → IsSaid B.Body.shows shared.limits r.phasers.items r.logs.items r.root) }
    ensures each { IfOk result (λ r. K.Supposing.supposed → AreSaid K.Supposing.told shared.limits r.phasers.items r.logs.items) }
    ensures refused { IfErr result (λ e. IsRunRefused e) }
{
    let Left {
        seats,
        shares,
        root,
    } = left;
    let Shared {
        alloc,
        limits,
        phasers,
        finishes,
        queue,
        ..
    } = shared;
    none_left(queue, seats)?;
    let Some(root) = root else {
        return Err(Refusal::NotExplained(0));
    };
    let of_phasers = phasers.into_parts(rt);
    let of_finishes = finishes.into_parts();
    gathered(alloc, limits, of_phasers, of_finishes, shares, root)
}

/// Runs the workers, and gathers what they leave.
pub(crate) fn run_staff<
    K: RunNaming + SharedLedgers,
    B: Body + Send,
    G: Gate + Sync,
    R: Threads + Wait + Sync,
>(rt: &R, shared: Shared<B, K>, staff: Vec<Worker<B, K>>, gate: &G) -> Result<Remains<B>, Refusal>
    requires fit { limits_fit shared.limits ≡ true }
    requires phasers { shared.phasers.phasers ≡ shared.limits.phasers }
    requires finishes { shared.finishes.finishes ≡ shared.limits.finishes }
    requires workers { AreAllParts (vec_len staff) K.EventsByWorker.parts K.UpByWorker.parts K.DownByWorker.parts }
    requires seats { vec_len staff ≡ shared.queue.workers }
    requires together { AreTogether (map (λ w. w.hand.seat) staff.items) }
    requires books { AreAllParts shared.limits.phasers K.EventsByPhaser.parts K.UpByPhaser.parts K.DownByPhaser.parts }
    ensures remains { IfOk result (λ r. AreRemains shared.limits r.phasers.items r.finishes.items r.logs.items r.totals) }
    ensures says { IfOk result (λ r. K.Supposing.supposed → IsSaid B.Body.shows shared.limits r.phasers.items r.logs.items r.root) }
    ensures each { IfOk result (λ r. K.Supposing.supposed → AreSaid K.Supposing.told shared.limits r.phasers.items r.logs.items) }
    ensures refused { IfErr result (λ e. IsRunRefused e) }
{
    let left = work_all(rt, &shared, staff, gate)?;
    gather_all(rt, shared, left)
}
