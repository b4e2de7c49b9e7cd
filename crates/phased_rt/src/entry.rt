//! The entry: it makes the tables, the queue and the workers, lets them work, and gathers what they leave.
ghost use Rattle.std.specs.Prelude.{◌≡◌, ◌<◌, ◌≤◌, ℕ, [], true, All, IfOk, IfErr, IfSome, map, slice_get, vec_len};
ghost use Rattle.phase_modes.specs.Limits.{limits_fit};
ghost use Rattle.phase_model.specs.Rules.{Story};
ghost use Rattle.share_book.specs.Opening.{IsNamed, IsParted};
ghost use Rattle.task_queue.specs.Accounts.{AreTogether};
ghost use Rattle.tasks_in_flight.specs.Heard.{nothing, at_start};
ghost use Rattle.tasks_in_flight.specs.Refused.{IsRunRefused};
ghost use Rattle.task_remains.specs.Remaining.{AreRemains};
ghost use Rattle.tasks_in_flight.specs.Said.{IsSaid, AreSaid, IsSaidOf};
ghost use Rattle.tasks_in_flight.specs.inner.Ready.{Tells};

use crate::staff::{run_staff, staff_of};
use phase_modes::{FinishNumber, Limits, Refusal, TaskNumber};
use phaser_cell::Tickets;
use scope_locks::FinishTable;
use share_book::{Blanks, Seven, SharedLedgers, Shares, open};
use std::alloc::Global;
use std::marker::Brand;
use std::sync::ledger::Ledger;
use std::sync::{Mutex, Wait};
use std::thread::Threads;
use table_receipts::{Fronts, Logs, Named, Noted, PhaserLogs, ReceiptTable, new_logs};
use task_queue::RunQueue;
use task_remains::Remains;
use task_worker::{Numbers, Shared, Worker};
use tasks_in_flight::{Body, Gate, Item, RunNaming, Supposing, Task, TaskLeft, put_root};
use told_history::Whole;

/// What a run's ledgers and logs are to be named by.
#[derive(Drop)]
struct Unnamed {
    blanks: Blanks,
    logs: Vec<Whole<Noted>>,
}

/// The root, before its first act.
fn root_of<K: RunNaming, B: Body, R: Wait>(
    rt: &R,
    alloc: Global,
    limits: Limits,
    phasers: &ReceiptTable<Item<B, K>, K>,
    root: B,
) -> Result<Item<B, K>, Refusal>
    requires all { phasers.now.phasers ≡ K.Logs.limits.phasers }
    requires root { K.Supposing.supposed → (stories : ℕ → Story) → B.Body.shows root 0 nothing (at_start (λ n. 0) stories) }
    ensures memory { IfErr result (λ e. e ≡ Refusal.Memory) }
{
    let fronts = Fronts::of(alloc, rt, phasers)?;
    let number = TaskNumber::of(0);
    let home = FinishNumber::of(0);
    Ok(Item::of(Task::new(alloc, number, root, home, limits.acts, fronts)?))
}

/// The tables of a run, and a share of its books for each worker.
#[derive(Drop)]
struct Tables<B: Body, K: RunNaming> {
    phasers: ReceiptTable<Item<B, K>, K>,
    finishes: FinishTable<Item<B, K>, Mutex<TaskLeft<K>>>,
    shares: Vec<Shares<K>>,
}

/// The tables, with books of these ledgers.
fn tables_of<B: Body, K: RunNaming>(
    alloc: Global,
    limits: Limits,
    unnamed: Unnamed,
) -> Result<Tables<B, K>, Refusal>
    requires names { IsNamed unnamed.blanks K.EventsByPhaser.name K.EventsByWorker.name K.UpByPhaser.name
        K.UpByWorker.name K.DownByPhaser.name K.DownByWorker.name K.Room.name }
    requires parts { IsParted unnamed.blanks K.EventsByPhaser.parts K.EventsByWorker.parts K.UpByPhaser.parts
        K.UpByWorker.parts K.DownByPhaser.parts K.DownByWorker.parts K.Room.parts }
    requires blanks { unnamed.blanks.phasers ≡ limits.phasers }
    requires limits { limits_fit limits ≡ true }
    requires limited { limits ≡ K.Logs.limits }
    requires logs { (i : ℕ) → IfSome (slice_get unnamed.logs.items i) (λ w. w.name ≡ K.Logs.logs i) }
    requires empty { All (λ w. w.items ≡ []) unnamed.logs.items }
    requires each { vec_len unnamed.logs ≡ limits.phasers }
    ensures phasers { IfOk result (λ t. t.phasers.phasers ≡ limits.phasers) }
    ensures finishes { IfOk result (λ t. t.finishes.finishes ≡ limits.finishes) }
    ensures shares { IfOk result (λ t. vec_len t.shares ≡ unnamed.blanks.workers) }
    ensures memory { IfErr result (λ e. e ≡ Refusal.Memory) }
{
    let Unnamed { blanks, logs } = unnamed;
    let (books, phasers, shares) = open::<K>(alloc, blanks)?;
    let logs = PhaserLogs::<K>::of(alloc, logs)?;
    let phasers = ReceiptTable::new(alloc, limits, books, phasers, logs)?;
    let finishes = FinishTable::new(alloc, limits)?;
    Ok(Tables {
        phasers,
        finishes,
        shares,
    })
}

/// The queue, in which the root stands, and a worker for each share.
fn manned<K: RunNaming, B: Body, R: Wait>(
    rt: &R,
    alloc: Global,
    limits: Limits,
    workers: u32,
    shares: Vec<Shares<K>>,
    root: Item<B, K>,
) -> Result<(RunQueue<Item<B, K>>, Vec<Worker<B, K>>), Refusal>
    requires some { (0 < workers) × (workers ≤ 16) }
    requires shares { vec_len shares ≡ workers }
    ensures workers { IfOk result (λ r. (r.0.workers ≡ workers) × (vec_len r.1 ≡ workers)) }
    ensures together { IfOk result (λ r. AreTogether (map (λ w. w.hand.seat) r.1.items)) }
    ensures memory { IfErr result (λ e. e ≡ Refusal.Memory) }
{
    let (queue, mut seats) = RunQueue::new(alloc, workers, limits.tasks as usize)?;
    put_root(rt, &queue, &mut seats, root)?;
    let staff = staff_of::<B, K>(alloc, limits, seats, shares)?;
    Ok((queue, staff))
}

/// The workers work, with books of these ledgers.
fn run_in<K: RunNaming + SharedLedgers, B: Body + Send, G: Gate + Sync, R: Threads + Wait + Sync>(
    rt: &R,
    alloc: Global,
    root: B,
    limits: Limits,
    unnamed: Unnamed,
    gate: &G,
) -> Result<Remains<B>, Refusal>
    requires names { IsNamed unnamed.blanks K.EventsByPhaser.name K.EventsByWorker.name K.UpByPhaser.name
        K.UpByWorker.name K.DownByPhaser.name K.DownByWorker.name K.Room.name }
    requires parts { IsParted unnamed.blanks K.EventsByPhaser.parts K.EventsByWorker.parts K.UpByPhaser.parts
        K.UpByWorker.parts K.DownByPhaser.parts K.DownByWorker.parts K.Room.parts }
    requires blanks { unnamed.blanks.phasers ≡ limits.phasers }
    requires workers { (0 < unnamed.blanks.workers) × (unnamed.blanks.workers ≤ 16) }
    requires limits { limits_fit limits ≡ true }
    requires limited { limits ≡ K.Logs.limits }
    requires logs { (i : ℕ) → IfSome (slice_get unnamed.logs.items i) (λ w. w.name ≡ K.Logs.logs i) }
    requires empty { All (λ w. w.items ≡ []) unnamed.logs.items }
    requires each { vec_len unnamed.logs ≡ limits.phasers }
    requires root { K.Supposing.supposed → (stories : ℕ → Story) → B.Body.shows root 0 nothing (at_start (λ n. 0) stories) }
    requires tells { ∥ Tells B.Body.shows K.Supposing.told ∥₁ }
    ensures remains { IfOk result (λ r. AreRemains limits r.phasers.items r.finishes.items r.logs.items r.totals) }
    ensures says { IfOk result (λ r. K.Supposing.supposed → IsSaid B.Body.shows limits r.phasers.items r.logs.items r.root) }
    ensures each { IfOk result (λ r. K.Supposing.supposed → AreSaid K.Supposing.told limits r.phasers.items r.logs.items) }
    ensures refused { IfErr result (λ e. IsRunRefused e) }
{
    let workers = unnamed.blanks.workers;
    let Tables {
        phasers,
        finishes,
        shares,
    } = tables_of::<B, K>(alloc, limits, unnamed)?;
    let root = root_of(rt, alloc, limits, &phasers, root)?;
    let (queue, staff) = manned(rt, alloc, limits, workers, shares, root)?;
    let shared = Shared {
        alloc,
        limits,
        phasers,
        finishes,
        queue,
        tickets: Tickets::new(),
        numbers: Numbers::new(),
    };
    run_staff(rt, shared, staff, gate)
}

// Names the ledgers and the logs.
fn run_over<
    B: Body + Send,
    G: Gate + Sync,
    R: Threads + Wait + Sync,
    EP: Ledger + Send + Sync,
    EW: Ledger + Send + Sync,
    UP: Ledger + Send + Sync,
    UW: Ledger + Send + Sync,
    DP: Ledger + Send + Sync,
    DW: Ledger + Send + Sync,
    RM: Ledger + Send + Sync,
    L: Logs + Supposing + Send + Sync,
>(
    rt: &R,
    alloc: Global,
    root: B,
    limits: Limits,
    unnamed: Unnamed,
    gate: &G,
) -> Result<Remains<B>, Refusal>
    requires names { IsNamed unnamed.blanks EP.name EW.name UP.name UW.name DP.name DW.name RM.name }
    requires parts { IsParted unnamed.blanks EP.parts EW.parts UP.parts UW.parts DP.parts DW.parts RM.parts }
    requires blanks { unnamed.blanks.phasers ≡ limits.phasers }
    requires workers { (0 < unnamed.blanks.workers) × (unnamed.blanks.workers ≤ 16) }
    requires limits { limits_fit limits ≡ true }
    requires limited { limits ≡ L.Logs.limits }
    requires logs { (i : ℕ) → IfSome (slice_get unnamed.logs.items i) (λ w. w.name ≡ L.Logs.logs i) }
    requires empty { All (λ w. w.items ≡ []) unnamed.logs.items }
    requires each { vec_len unnamed.logs ≡ limits.phasers }
    requires root { L.Supposing.supposed → (stories : ℕ → Story) → B.Body.shows root 0 nothing (at_start (λ n. 0) stories) }
    requires tells { ∥ Tells B.Body.shows L.Supposing.told ∥₁ }
    ensures remains { IfOk result (λ r. AreRemains limits r.phasers.items r.finishes.items r.logs.items r.totals) }
    ensures says { IfOk result (λ r. L.Supposing.supposed → IsSaid B.Body.shows limits r.phasers.items r.logs.items r.root) }
    ensures each { IfOk result (λ r. L.Supposing.supposed → AreSaid L.Supposing.told limits r.phasers.items r.logs.items) }
    ensures refused { IfErr result (λ e. IsRunRefused e) }
{
    run_in::<Named<Seven<EP, EW, UP, UW, DP, DW, RM>, L>, B, G, R>(
        rt, alloc, root, limits, unnamed, gate,
    )
}

/// Runs the root, and every task that comes of it, by so many workers, each in a thread of its own
/// if one can be made, until the root has ended. `gate` is called round each step of a body.
///
/// If the root's body says nothing false before its first act, whatever was seen, then it says
/// nothing false in the end (`says`), and no body of a task does that has begun to end (`each`).
///
/// A task that is refused something ends by itself, and the others go on. `Memory` if the tables,
/// the workers or the logs' parts get none; `NotExplained(0)` if a lock or the queue answered what
/// no run can bring about, or two tasks have one number.
pub fn run_tasks<B: Body + Send, G: Gate + Sync, R: Threads + Wait + Sync>(
    rt: &R,
    alloc: Global,
    root: B,
    limits: Limits,
    workers: u32,
    gate: &G,
) -> Result<Remains<B>, Refusal>
    requires limits { limits_fit limits ≡ true }
    requires workers { (0 < workers) × (workers ≤ 16) }
    ensures remains { IfOk result (λ r. AreRemains limits r.phasers.items r.finishes.items r.logs.items r.totals) }
    ensures says { IfOk result (λ r. ((stories : ℕ → Story) → B.shows root 0 nothing (at_start (λ n. 0) stories)) → IsSaid B.shows limits r.phasers.items r.logs.items r.root) }
    ensures each { IfOk result (λ r. ((stories : ℕ → Story) → B.shows root 0 nothing (at_start (λ n. 0) stories)) → AreSaid (IsSaidOf B.shows) limits r.phasers.items r.logs.items) }
    ensures refused { IfErr result (λ e. IsRunRefused e) }
{
    let logs = new_logs(alloc, limits.phasers)?;
    let unnamed = Unnamed {
        blanks: Blanks::new(limits.phasers, workers),
        logs,
    };
    run_over::<B, G, R, Brand, Brand, Brand, Brand, Brand, Brand, Brand, Brand>(
        rt, alloc, root, limits, unnamed, gate,
    )
}
