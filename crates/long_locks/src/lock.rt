//! A phaser that lives long, behind a lock, with receipts.
ghost use Rattle.std.specs.Prelude.{◌≡◌, [], Some, IfOk, IfErr};

use crate::cell::LongCell;
use crate::front::{Front, Naming};
use crate::receipt_cell::ReceiptCell;
use crossbeam_utils::CachePadded;
use phase_model::{Bound, Ops};
use phase_modes::Refusal;
use std::alloc::Global;
use std::sync::{Mutex, MutexGuard, Wait};
use told_history::{LongEvent, Whole};

/// A phaser that lives long, behind a lock of its own, with the whole of its history. Threads that
/// take other locks write no line of a processor's cache that this one has.
#[derive(Drop)]
pub struct LongLock<J: Naming, T> {
    cell: CachePadded<Mutex<ReceiptCell<J, T>>>,
}

impl<J: Naming, T: Drop> LongLock<J, T> {
    /// A phaser that nobody has made yet, with the operators of its accumulators and its bound, and
    /// what is seen of its history: nothing. All memory that it will ever need is taken here;
    /// `Memory` if that is refused.
    pub fn new(
        alloc: Global,
        ops: Ops,
        bound: Bound,
        whole: Whole<LongEvent>,
    ) -> Result<(LongLock<J, T>, Front<J>), Refusal>
        requires name { whole.name ≡ J.log }
        requires empty { whole.items ≡ [] }
        requires terms { J.terms ≡ record { ops = ops; bound = Some bound } }
        ensures seen { IfOk result (λ r. r.1 ≡ []) }
        ensures memory { IfErr result (λ r. r ≡ Refusal.Memory) }
    {
        let mut cell = ReceiptCell::new(LongCell::new(alloc, ops, bound)?, whole);
        let front = cell.front();
        let lock = LongLock {
            cell: CachePadded::new(Mutex::new(cell)),
        };
        Ok((lock, front))
    }
}

impl<J: Naming, T> LongLock<J, T> {
    /// The phaser, and the whole of its history: each front of it is a beginning of that.
    pub fn into_cell(self) -> ReceiptCell<J, T> {
        self.cell.into_inner().into_inner()
    }

    /// Takes the lock, and lends what stands behind it until the guard is dropped. Each call is made
    /// on that: `lock.lock(rt).send(&mut me, task, 0, 7)`. No other comes between the calls that are
    /// made on one guard.
    pub fn lock<R: Wait>(&self, rt: &R) -> MutexGuard<'_, ReceiptCell<J, T>> {
        self.cell.lock(rt)
    }
}
