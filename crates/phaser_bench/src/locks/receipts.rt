//! The run of a job by calls with receipts, as that without them.
ghost use Rattle.std.specs.Prelude.{◌≡◌, ◌<◌, ℕ, [], true, All, IfOk, IfSome, slice_get, vec_len};
ghost use Rattle.phase_modes.specs.Limits.{limits_fit};
ghost use Rattle.share_book.specs.Opening.{IsNamed, IsParted};

use super::calls::{Calls, call_all, is_drained};
use super::job::LocksJob;
use super::threads::{LIMITS, given_back, numbered, phasers_of};
use phase_model::{Ops, Terms};
use phase_modes::{Limits, Mode, Refusal};
use scope_locks::{Out, Tickets};
use share_book::{Blanks, Seven, SharedLedgers, Shares, gather, open};
use std::alloc::Global;
use std::marker::Brand;
use std::sync::Wait;
use std::sync::ledger::Ledger;
use std::thread;
use std::thread::Threads;
use table_receipts::{
    Caller, Front, Logs, Named, Naming, Noted, PhaserLogs, ReceiptTable, new_logs,
};
use told_history::Whole;

/// A thread's calls of a table whose calls give receipts.
#[derive(Drop)]
struct Receipted<'a, K: Naming, R> {
    table: &'a ReceiptTable<u32, K>,
    /// The phaser that is called.
    number: usize,
    by: Caller<'a, u32, K, R>,
    /// What was seen of that phaser.
    me: Front<K>,
    ghost there: { number < table.now.phasers },
    ghost named: { me.log ≡ K.Logs.logs number },
}

impl<'a, K: Naming, R: Wait> Calls for Receipted<'a, K, R> {
    type Runtime = R;

    fn take_up(&mut self, number: usize) -> bool {
        let is_there = number < self.table.phasers;
        if is_there {
            self.me = self.table.lock(self.by.rt, number).front();
            self.number = number;
        }
        is_there
    }

    fn make(&mut self, task: u32, mode: Mode, ops: Ops) -> Result<(), Refusal> {
        let terms = Terms { ops, bound: None };
        self.table
            .lock(self.by.rt, self.number)
            .make(&mut self.by, &mut self.me, task, mode, &terms)
    }

    fn register(&mut self, child: u32, mode: Mode) -> Result<(), Refusal> {
        self.table
            .lock(self.by.rt, self.number)
            .register(&mut self.by, &mut self.me, 0, child, mode)
    }

    fn signal(&mut self, task: u32) {
        if is_drained(&mut self.by.out) {
            let _signalled = self
                .table
                .lock(self.by.rt, self.number)
                .signal(&mut self.by, &mut self.me, task, None, task);
        }
    }

    fn pass(&mut self, task: u32) {
        if is_drained(&mut self.by.out) {
            let _passed = self
                .table
                .lock(self.by.rt, self.number)
                .pass(&mut self.by, &mut self.me, task, task);
        }
    }
}

/// A table of phasers that nobody has made yet, and the workers' shares.
fn fresh<K: Naming>(
    alloc: Global,
    limits: Limits,
    blanks: Blanks,
    logs: Vec<Whole<Noted>>,
) -> Result<(ReceiptTable<u32, K>, Vec<Shares<K>>), Refusal>
    requires names { IsNamed blanks K.EventsByPhaser.name K.EventsByWorker.name K.UpByPhaser.name
        K.UpByWorker.name K.DownByPhaser.name K.DownByWorker.name K.Room.name }
    requires parts { IsParted blanks K.EventsByPhaser.parts K.EventsByWorker.parts K.UpByPhaser.parts
        K.UpByWorker.parts K.DownByPhaser.parts K.DownByWorker.parts K.Room.parts }
    requires fit { limits_fit limits ≡ true }
    requires limits { limits ≡ K.Logs.limits }
    requires logs { (i : ℕ) → IfSome (slice_get logs.items i) (λ w. w.name ≡ K.Logs.logs i) }
    requires empty { All (λ w. w.items ≡ []) logs.items }
    requires each { vec_len logs ≡ blanks.phasers }
    ensures phasers { IfOk result (λ r. r.0.phasers ≡ blanks.phasers) }
{
    let (books, phasers, shares) = open::<K>(alloc, blanks)?;
    let logs = PhaserLogs::<K>::of(alloc, logs)?;
    let table = ReceiptTable::new(alloc, limits, books, phasers, logs)?;
    Ok((table, shares))
}

/// One thread's part.
fn work<K: Naming, R: Wait>(
    rt: &R,
    alloc: Global,
    table: &ReceiptTable<u32, K>,
    tickets: &Tickets,
    job: LocksJob,
    worker: (u32, Shares<K>),
) -> Result<Shares<K>, Refusal> {
    let (thread, mine) = worker;
    if table.phasers == 0 {
        return Ok(mine);
    }
    let mut calls = Receipted {
        table,
        number: 0,
        by: Caller {
            rt,
            tickets,
            mine,
            out: Out::new(alloc)?,
        },
        me: table.lock(rt, 0).front(),
    };
    call_all(&mut calls, thread, job)?;
    let Receipted {
        table: _,
        number: _,
        by,
        me: _,
    } = calls;
    Ok(by.mine)
}

/// All workers' parts, each in a thread. Returns their shares.
fn work_all<K: Naming + SharedLedgers, R: Threads + Wait + Sync>(
    rt: &R,
    alloc: Global,
    table: &ReceiptTable<u32, K>,
    tickets: &Tickets,
    job: LocksJob,
    shares: Vec<Shares<K>>,
) -> Result<Vec<Shares<K>>, Refusal> {
    let staff = numbered(alloc, shares)?;
    let done = thread::map_vec(
        rt,
        staff,
        &|worker| { work(rt, alloc, table, tickets, job, worker) },
    )?;
    given_back(alloc, done)
}

/// How many events there were on the table's phasers.
fn events_on<K: Naming, R: Wait>(
    rt: &R,
    table: ReceiptTable<u32, K>,
    shares: Vec<Shares<K>>,
) -> Result<u64, Refusal> {
    let left = table.into_parts(rt);
    Ok(gather(shares, left.phasers, left.books)?.events)
}

fn events_over<K: Naming + SharedLedgers, R: Threads + Wait + Sync>(
    rt: &R,
    alloc: Global,
    limits: Limits,
    blanks: Blanks,
    logs: Vec<Whole<Noted>>,
    job: LocksJob,
) -> Result<u64, Refusal>
    requires names { IsNamed blanks K.EventsByPhaser.name K.EventsByWorker.name K.UpByPhaser.name
        K.UpByWorker.name K.DownByPhaser.name K.DownByWorker.name K.Room.name }
    requires parts { IsParted blanks K.EventsByPhaser.parts K.EventsByWorker.parts K.UpByPhaser.parts
        K.UpByWorker.parts K.DownByPhaser.parts K.DownByWorker.parts K.Room.parts }
    requires fit { limits_fit limits ≡ true }
    requires limits { limits ≡ K.Logs.limits }
    requires logs { (i : ℕ) → IfSome (slice_get logs.items i) (λ w. w.name ≡ K.Logs.logs i) }
    requires empty { All (λ w. w.items ≡ []) logs.items }
    requires each { vec_len logs ≡ blanks.phasers }
{
    let (table, shares) = fresh::<K>(alloc, limits, blanks, logs)?;
    let tickets = Tickets::new();
    let shares = work_all(rt, alloc, &table, &tickets, job, shares)?;
    events_on(rt, table, shares)
}

// Names the ledgers and the logs.
fn named_events<
    R: Threads + Wait + Sync,
    A: Ledger + Send + Sync,
    B: Ledger + Send + Sync,
    C: Ledger + Send + Sync,
    D: Ledger + Send + Sync,
    E: Ledger + Send + Sync,
    F: Ledger + Send + Sync,
    G: Ledger + Send + Sync,
    L: Logs + Send + Sync,
>(
    rt: &R,
    alloc: Global,
    limits: Limits,
    blanks: Blanks,
    logs: Vec<Whole<Noted>>,
    job: LocksJob,
) -> Result<u64, Refusal>
    requires names { IsNamed blanks A.name B.name C.name D.name E.name F.name G.name }
    requires parts { IsParted blanks A.parts B.parts C.parts D.parts E.parts F.parts G.parts }
    requires fit { limits_fit limits ≡ true }
    requires limits { limits ≡ L.limits }
    requires logs { (i : ℕ) → IfSome (slice_get logs.items i) (λ w. w.name ≡ L.logs i) }
    requires empty { All (λ w. w.items ≡ []) logs.items }
    requires each { vec_len logs ≡ blanks.phasers }
{
    events_over::<Named<Seven<A, B, C, D, E, F, G>, L>, R>(rt, alloc, limits, blanks, logs, job)
}

/// Does the job, and returns how many events there were on all its phasers, makings and
/// registrations counted. `Memory` if a part got none.
pub fn events_of<R: Threads + Wait + Sync>(
    rt: &R,
    alloc: Global,
    job: LocksJob,
) -> Result<u64, Refusal> {
    let phasers = phasers_of(job);
    let logs = new_logs(alloc, phasers)?;
    named_events::<R, Brand, Brand, Brand, Brand, Brand, Brand, Brand, Brand>(
        rt,
        alloc,
        LIMITS,
        Blanks::new(phasers, job.threads),
        logs,
        job,
    )
}
