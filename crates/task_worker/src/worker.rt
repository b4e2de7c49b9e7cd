//! What the workers share, and what each has for itself.
ghost use Rattle.std.specs.Prelude.{◌≡◌, ◌<◌, [], IfOk};
ghost use Rattle.tasks_in_flight.specs.inner.Ready.{Tells};
ghost use Rattle.task_queue.specs.Accounts.{IsSeatOf};

use crossbeam_utils::CachePadded;
use phase_modes::{Limits, Refusal};
use phaser_cell::{Out, Tickets};
use scope_locks::FinishTable;
use share_book::Shares;
use std::alloc::Global;
use std::sync::atomic::{AtomicU64, Ordering};
use std::sync::{Mutex, Wait};
use table_receipts::{Caller, ReceiptTable};
use task_queue::RunQueue;
use tasks_in_flight::{Body, Hand, Item, RootLeft, RunNaming, TaskLeft};

/// The next numbers of phasers, tasks and finishes, each drawn from a word of its own.
#[derive(Drop)]
pub struct Numbers {
    phasers: CachePadded<AtomicU64>,
    tasks: CachePadded<AtomicU64>,
    finishes: CachePadded<AtomicU64>,
}

/// Draws the next number; those too large for a number are all the greatest, which no limit allows.
fn drawn(word: &AtomicU64) -> u32 {
    u32::try_from(word.fetch_add(1, Ordering::SeqCst)).unwrap_or(u32::MAX)
}

impl Numbers {
    /// Those of a run in which the root and finish 0 are there.
    pub fn new() -> Numbers {
        Numbers {
            phasers: CachePadded::new(AtomicU64::new(0)),
            tasks: CachePadded::new(AtomicU64::new(1)),
            finishes: CachePadded::new(AtomicU64::new(1)),
        }
    }

    pub(crate) fn phaser(&self) -> u32 {
        drawn(&self.phasers)
    }

    pub(crate) fn task(&self) -> u32 {
        drawn(&self.tasks)
    }

    pub(crate) fn finish(&self) -> u32 {
        drawn(&self.finishes)
    }
}

/// What all workers share.
#[derive(Drop)]
pub struct Shared<B: Body, K: RunNaming> {
    pub alloc: Global,
    pub limits: Limits,
    pub phasers: ReceiptTable<Item<B, K>, K>,
    /// What tasks left is behind a lock each, since what was seen is lent to no second thread.
    pub finishes: FinishTable<Item<B, K>, Mutex<TaskLeft<K>>>,
    pub queue: RunQueue<Item<B, K>>,
    pub tickets: Tickets,
    pub numbers: Numbers,
    ghost limited: { limits ≡ K.Logs.limits },
    ghost all: { phasers.phasers ≡ K.Logs.limits.phasers },
    ghost tells: { ∥ Tells B.Body.shows K.Supposing.told ∥₁ },
}

/// What a worker has for itself, before and after it works.
#[derive(Drop)]
pub struct Worker<B: Body, K: RunNaming> {
    pub number: u32,
    pub hand: Hand<Item<B, K>>,
    pub shares: Shares<K>,
    pub out: Out<Item<B, K>>,
    /// What the root leaves, once it has ended.
    pub root: Option<RootLeft<B, K>>,
    ghost empty: { out ≡ [] },
}

/// A worker at work: it calls the table.
#[derive(Drop)]
pub(crate) struct Busy<'a, B: Body, K: RunNaming, R: Wait> {
    pub(crate) number: u32,
    pub(crate) hand: Hand<Item<B, K>>,
    pub(crate) by: Caller<'a, Item<B, K>, K, R>,
    pub(crate) root: Option<RootLeft<B, K>>,
    ghost empty: { by.out ≡ [] },
}

impl<'a, B: Body, K: RunNaming, R: Wait> Busy<'a, B, K, R> {
    /// The worker begins to work.
    pub(crate) fn of(rt: &'a R, tickets: &'a Tickets, worker: Worker<B, K>) -> Busy<'a, B, K, R>
        ensures { result.hand ≡ worker.hand }
    {
        let Worker {
            number,
            hand,
            shares,
            out,
            root,
        } = worker;
        let by = Caller {
            rt,
            tickets,
            mine: shares,
            out,
        };
        Busy {
            number,
            hand,
            by,
            root,
        }
    }

    /// It has ended its work.
    pub(crate) fn into_worker(self) -> Worker<B, K>
        ensures { result.hand ≡ self.entry.hand }
    {
        let Busy {
            number,
            hand,
            by,
            root,
        } = self;
        let Caller { mine, out, .. } = by;
        Worker {
            number,
            hand,
            shares: mine,
            out,
            root,
        }
    }
}

impl<B: Body, K: RunNaming> Shared<B, K> {
    /// The phaser's place in the table; the refusal if no phaser has the number.
    pub(crate) fn place(&self, phaser: u32, refusal: Refusal) -> Result<usize, Refusal>
        ensures place { IfOk result (λ n. n < K.Logs.limits.phasers) }
        ensures same { IfOk result (λ n. n ≡ phaser) }
    {
        self.phasers.place(phaser, refusal)
    }

    /// The next task to be run. None once the queue is closed.
    pub(crate) fn next<R: Wait>(&self, busy: &mut Busy<'_, B, K, R>) -> Option<Item<B, K>>
        ensures seat { IsSeatOf busy.old.hand.seat busy.new.hand.seat }
    {
        busy.hand.next(busy.by.rt, &self.queue)
    }
}
