//! The entry: it makes the tables, the queue and the workers, lets them work, and tells what they leave.
ghost use Rattle.std.specs.Prelude.{◌≡◌, ◌<◌, ◌≤◌, ℕ, [], true, All, IfOk, IfErr, IfSome, slice_get, vec_len};
ghost use Rattle.tasks_in_flight.specs.Refused.{IsRunRefused};
ghost use Rattle.live_rt.specs.Rooms.{has_room};
ghost use Rattle.live_rt.specs.Gone.{AreAllGone};
ghost use Rattle.live_rt.specs.Said.{HasSaid, StartsWell, Tells};

use crate::driver::Team;
use crate::ended::{Counts, Ended, Ends};
use crate::names::Names;
use crate::pulses::Pulses;
use crate::room::Room;
use crate::shared::{Shared, no_limits};
use crate::staff::{Left, staff_of, work_all};
use crate::task::{Item, Task};
use crossbeam_utils::CachePadded;
use live_tables::{LiveFinishes, LivePhasers, SlotLogs, SlotNoted, new_slot_logs};
use phase_modes::{FinishNumber, Refusal, TaskNumber};
use std::alloc::Global;
use std::marker::Brand;
use std::sync::Wait;
use std::sync::atomic::AtomicU64;
use std::thread::Threads;
use task_queue::RunQueue;
use tasks_in_flight::{Body, Gate, Supposing, put_root};
use told_history::Whole;

/// How many tasks fit into each worker's deque before it grows.
const FIRST_DEQUE: usize = 64;

/// By how many workers, with how many slots for finishes, for whom and through which gate.
#[derive(Drop)]
struct Setup<'a, E, G> {
    workers: u32,
    finishes: u32,
    ends: &'a E,
    gate: &'a G,
}

/// The root, before its first act.
fn root_of<B: Body, J: Names>(alloc: Global, body: B) -> Result<Item<B, J>, Refusal>
    requires root { ∥ (J.Supposing.supposed → StartsWell B.Body.shows body) ∥₁ }
    ensures memory { IfErr result (λ e. e ≡ Refusal.Memory) }
{
    let number = TaskNumber::of(0);
    let home = FinishNumber::of(0);
    Ok(Item::of(Task::new(alloc, number, body, home)?))
}

/// What is told of a run that is over. `NotExplained(0)` if the root has left nothing, or somebody is
/// still there.
fn ended_of<B: Body, J: Names, R: Wait>(
    rt: &R,
    shared: &Shared<B, J>,
    left: Left<B, J>,
) -> Result<Ended<B>, Refusal>
    ensures says { IfOk result (λ r. ∥ (J.Supposing.supposed → HasSaid B.Body.shows r.root 0) ∥₁) }
    ensures nobody { IfOk result (λ r. AreAllGone r.counts) }
    ensures refused { IfErr result (λ e. IsRunRefused e) }
{
    let Left { sums, root } = left;
    let Some(root) = root else {
        return Err(Refusal::NotExplained(0));
    };
    let phasers = shared.phasers.counts(rt);
    let finishes = shared.finishes.counts(rt);
    let counts = Counts {
        tasks: sums.spawned.saturating_add(1),
        ended: sums.ended,
        refused: sums.refused,
        phasers: phasers.taken,
        gone: phasers.given_back,
        finishes: finishes.taken,
        shut: finishes.given_back,
        totals: sums.totals,
    };
    if !counts.are_all_gone() {
        return Err(Refusal::NotExplained(0));
    }
    Ok(Ended {
        root: root.body,
        refused: root.refused,
        counts,
    })
}

/// The workers work, over tables whose logs have these names.
fn run_in<
    B: Body + Send,
    J: SlotLogs + Supposing + Send + Sync,
    E: Ends<B> + Sync,
    G: Gate + Sync,
    R: Threads + Wait + Sync,
>(
    rt: &R,
    alloc: Global,
    root: B,
    logs: Vec<Whole<SlotNoted>>,
    setup: Setup<'_, E, G>,
) -> Result<Ended<B>, Refusal>
    requires few { vec_len logs ≤ 65536 }
    requires names { (i : ℕ) → IfSome (slice_get logs.items i) (λ w. w.name ≡ J.SlotLogs.slots i) }
    requires empty { All (λ w. w.items ≡ []) logs.items }
    requires finishes { 0 < setup.finishes }
    requires workers { (0 < setup.workers) × (setup.workers ≤ 16) }
    requires root { ∥ (J.Supposing.supposed → StartsWell B.Body.shows root) ∥₁ }
    requires tells { ∥ Tells J.Supposing.supposed B.Body.shows E.Ends.told ∥₁ }
    ensures says { IfOk result (λ r. ∥ (J.Supposing.supposed → HasSaid B.Body.shows r.root 0) ∥₁) }
    ensures nobody { IfOk result (λ r. AreAllGone r.counts) }
    ensures refused { IfErr result (λ e. IsRunRefused e) }
{
    let (queue, mut seats) = RunQueue::new(alloc, setup.workers, FIRST_DEQUE)?;
    let root = root_of::<B, J>(alloc, root)?;
    put_root(rt, &queue, &mut seats, root)?;
    let staff = staff_of::<B, J>(alloc, seats)?;
    let shared = Shared {
        alloc,
        limits: no_limits(),
        phasers: LivePhasers::new(alloc, logs)?,
        finishes: LiveFinishes::new(alloc, setup.finishes)?,
        queue,
        pulses: Pulses::new(alloc, setup.workers)?,
        children: CachePadded::new(AtomicU64::new(0)),
    };
    let team = Team {
        rt,
        shared: &shared,
        ends: setup.ends,
        gate: setup.gate,
    };
    let left = work_all(&team, staff)?;
    ended_of(rt, &shared, left)
}

/// Runs the root, and every task that comes of it, by 1 to 16 workers, each in a thread of its own
/// if one can be made, until the root has ended. It may take for ever. `ends` hears of each task that
/// ends, and `gate` is called round each step of a body.
///
/// Tasks, phasers and finishes come and go, and nothing is stored of them: there is no limit of tasks,
/// phases or events, and memory is that of what is alive at once. If the root's body says nothing false
/// before its first act, then it says nothing false in the end (`says`), of beginnings of legal
/// histories. Nor does any other that has asked for its task's end: what follows from what it says then
/// is told to `ends` (`tells`). A phaser has to have a bound (`NotNow`), and a value that is looked at
/// has to fit 64 bits (`HistoryFull`). A task that is refused something ends by itself, and the others
/// go on.
///
/// `Memory` if the tables, the workers or the queue get none; a task that gets none for a child, a
/// phaser, a finish or a step ends by that alone. `NotExplained(0)` if a lock or the queue answered
/// what no run can bring about; it isn't meant to come.
pub fn run_live<B: Body + Send, E: Ends<B> + Sync, G: Gate + Sync, R: Threads + Wait + Sync>(
    rt: &R,
    alloc: Global,
    root: B,
    room: Room,
    workers: u32,
    ends: &E,
    gate: &G,
) -> Result<Ended<B>, Refusal>
    requires room { has_room room ≡ true }
    requires workers { (0 < workers) × (workers ≤ 16) }
    requires tells { Tells (StartsWell B.shows root) B.shows E.told }
    ensures says { IfOk result (λ r. ∥ (StartsWell B.shows root → HasSaid B.shows r.root 0) ∥₁) }
    ensures nobody { IfOk result (λ r. AreAllGone r.counts) }
    ensures refused { IfErr result (λ e. IsRunRefused e) }
{
    let logs = new_slot_logs(alloc, room.phasers)?;
    let setup = Setup {
        workers,
        finishes: room.finishes,
        ends,
        gate,
    };
    run_in::<B, Brand, E, G, R>(rt, alloc, root, logs, setup)
}
