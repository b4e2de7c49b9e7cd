//! The phasers of a run by their numbers, each behind a lock of its own, and the run's books.
//!
//! A call is made on the phaser that its lock lends (`LockedPhaser`).
ghost use Rattle.std.specs.Prelude.{◌≡◌, ◌+◌, [], ◌<◌, ◌≤◌, true, All, IfOk, IfErr, map, vec_len, vec_capacity};
ghost use Rattle.std.specs.VecDeque.{deque_len};
ghost use Rattle.phase_modes.specs.Limits.{limits_fit};
ghost use Rattle.share_book.specs.Accounts.{nothing, IsWithin, amount_of};
ghost use Rattle.phaser_cell.specs.Telling.{ArePhaserParts};
ghost use Rattle.table_receipts.specs.Parts.{AreLogged};

use crate::caller::Caller;
use crate::cell::ReceiptCell;
use crate::front::PhaserLog;
use crate::locked::LockedPhaser;
use crate::logs::{NumberedLog, PhaserLogs};
use crate::naming::Naming;
use crossbeam_utils::CachePadded;
use phase_modes::{Limits, Refusal};
use phaser_cell::PhaserCell;
use share_book::{Books, PhaserBook, Totals};
use std::alloc::Global;
use std::sync::{Mutex, Wait};
use trace_model::Part;

/// The phasers of a run, numbered from 0, each with the whole of its log, and the run's books.
/// Threads that take other locks write no line of a processor's cache that a lock of this has.
#[derive(Drop)]
pub struct ReceiptTable<T, K: Naming> {
    /// How many phasers there are, at most 64.
    pub phasers: usize,
    cells: Vec<CachePadded<Mutex<ReceiptCell<T, K>>>>,
    books: CachePadded<Mutex<Books<K>>>,
    /// Behind a lock, since tokens of a ledger are lent to no second thread.
    parts: Mutex<Room<K>>,
    ghost all: { vec_len cells ≡ phasers },
    ghost few: { phasers ≤ 64 },
}

/// Room for what `into_parts` gives.
#[derive(Drop)]
struct Room<K: Naming> {
    parts: Vec<Part>,
    phasers: Vec<PhaserBook<K>>,
    logs: Vec<PhaserLog<K>>,
    ghost no_parts: { parts.items ≡ [] },
    ghost no_books: { phasers.items ≡ [] },
    ghost no_logs: { logs.items ≡ [] },
    ghost room_for_parts: { 64 ≤ vec_capacity parts },
    ghost room_for_books: { 64 ≤ vec_capacity phasers },
    ghost room_for_logs: { 64 ≤ vec_capacity logs },
}

impl<K: Naming> Room<K> {
    /// Room for as many phasers as a run has at most; `Memory` if that is refused.
    fn new(alloc: Global) -> Result<Room<K>, Refusal>
        ensures memory { IfErr result (λ r. r ≡ Refusal.Memory) }
    {
        Ok(Room {
            parts: Vec::with_capacity(alloc, 64)?,
            phasers: Vec::with_capacity(alloc, 64)?,
            logs: Vec::with_capacity(alloc, 64)?,
        })
    }
}

/// What a table held, phaser by phaser in order: the histories with their tickets, as parts of a
/// trace, the phasers' books and their logs; and the books of all.
#[derive(Drop)]
pub struct ReceiptParts<K: Naming> {
    pub parts: Vec<Part>,
    pub phasers: Vec<PhaserBook<K>>,
    pub logs: Vec<PhaserLog<K>>,
    pub books: Books<K>,
}

/// It is so: else this waits for ever.
#[inline(always)]
fn must_be<R: Wait>(rt: &R, so: bool)
    ensures { so ≡ true }
{
    for _ in rt.forever() {
        if so {
            return;
        }
    }
    unreachable!()
}

/// For each of the books a phaser that nobody has made yet, with its log, behind a lock of its own.
fn locked_cells<T: Drop, K: Naming>(
    alloc: Global,
    limits: Limits,
    books: Vec<PhaserBook<K>>,
    logs: PhaserLogs<K>,
) -> Result<Vec<CachePadded<Mutex<ReceiptCell<T, K>>>>, Refusal>
    requires fit { limits_fit limits ≡ true }
    requires limits { limits ≡ K.Logs.limits }
    requires fresh { All (λ b. (b.totals ≡ nothing) × (b.room ≡ 65536)) books.items }
    requires logs { deque_len logs.logs ≡ vec_len books }
    ensures cells { IfOk result (λ v. vec_len v ≡ vec_len books) }
    ensures memory { IfErr result (λ r. r ≡ Refusal.Memory) }
{
    let mut logs = logs.logs;
    let mut cells = Vec::new(alloc);
    for book in books {
        let Some(NumberedLog { number, log }) = logs.pop_front() else {
            unreachable!()
        };
        let cell = PhaserCell::new(alloc, limits, book)?;
        let cell = ReceiptCell { cell, number, log };
        cells.push(CachePadded::new(Mutex::new(cell)))?;
    }
    Ok(cells)
}

/// Adds a cell's history with its tickets, its book and its log to those of the phasers before it.
/// The cell has the number that comes next, or this waits for ever.
fn take_apart<T: Drop, K: Naming, R: Wait>(
    rt: &R,
    cell: ReceiptCell<T, K>,
    parts: &mut Vec<Part>,
    of_phasers: &mut Vec<PhaserBook<K>>,
    logs: &mut Vec<PhaserLog<K>>,
)
    requires few { vec_len parts.old < 64 }
    requires room_for_part { 64 ≤ vec_capacity parts.old }
    requires room_for_book { vec_len of_phasers.old < vec_capacity of_phasers.old }
    requires room_for_log { vec_len logs.old < vec_capacity logs.old }
    requires told { ArePhaserParts 0 parts.old.items (map (λ b. b.totals) of_phasers.old.items) }
    requires logged { AreLogged K.Logs.logs 0 parts.old.items logs.old.items }
    ensures part { vec_len parts.new ≡ vec_len parts.old + 1 }
    ensures book { vec_len of_phasers.new ≡ vec_len of_phasers.old + 1 }
    ensures log { vec_len logs.new ≡ vec_len logs.old + 1 }
    ensures room_for_parts { vec_capacity parts.new ≡ vec_capacity parts.old }
    ensures room_for_books { vec_capacity of_phasers.new ≡ vec_capacity of_phasers.old }
    ensures room_for_logs { vec_capacity logs.new ≡ vec_capacity logs.old }
    ensures told { ArePhaserParts 0 parts.new.items (map (λ b. b.totals) of_phasers.new.items) }
    ensures logged { AreLogged K.Logs.logs 0 parts.new.items logs.new.items }
{
    let number = parts.len() as u32;
    must_be(rt, cell.number == number);
    let ReceiptCell { cell, log, .. } = cell;
    let PhaserCell {
        state,
        drawn,
        book,
        parked: _,
    } = cell;
    parts.push_reserved(Part::of_phaser(number, state.into_history(), drawn));
    of_phasers.push_reserved(book);
    logs.push_reserved(log);
}

impl<T: Drop, K: Naming> ReceiptTable<T, K> {
    /// One phaser for each of the phasers' books and logs, with these limits, made by nobody yet. The
    /// books are those of one `open`, in order. All memory that the table will ever need is taken
    /// here; `Memory` if that is refused.
    pub fn new(
        alloc: Global,
        limits: Limits,
        books: Books<K>,
        phasers: Vec<PhaserBook<K>>,
        logs: PhaserLogs<K>,
    ) -> Result<ReceiptTable<T, K>, Refusal>
        requires fit { limits_fit limits ≡ true }
        requires limits { limits ≡ K.Logs.limits }
        requires few { vec_len phasers ≤ 64 }
        requires fresh { All (λ b. (b.totals ≡ nothing) × (b.room ≡ 65536)) phasers.items }
        requires logs { deque_len logs.logs ≡ vec_len phasers }
        ensures phasers { IfOk result (λ t. t.phasers ≡ vec_len phasers) }
        ensures memory { IfErr result (λ r. r ≡ Refusal.Memory) }
    {
        let cells = locked_cells(alloc, limits, phasers, logs)?;
        Ok(ReceiptTable {
            phasers: cells.len(),
            cells,
            books: CachePadded::new(Mutex::new(books)),
            parts: Mutex::new(Room::new(alloc)?),
        })
    }

    /// The histories with their tickets, the phasers' books, their logs and the books, once no other
    /// thread has the table. Items that were still parked are dropped. Each front of a phaser is a
    /// beginning of its log.
    pub fn into_parts<R: Wait>(self, rt: &R) -> ReceiptParts<K>
        ensures phasers { (vec_len result.parts ≡ self.phasers) × (vec_len result.phasers ≡ self.phasers) × (vec_len result.logs ≡ self.phasers) }
        ensures told { ArePhaserParts 0 result.parts.items (map (λ b. b.totals) result.phasers.items) }
        ensures logged { AreLogged K.Logs.logs 0 result.parts.items result.logs.items }
    {
        let ReceiptTable {
            phasers: _,
            cells,
            books,
            parts,
        } = self;
        let Room {
            mut parts,
            mut phasers,
            mut logs,
        } = parts.into_inner();
        for cell in cells {
            let cell = cell.into_inner().into_inner();
            take_apart(rt, cell, &mut parts, &mut phasers, &mut logs);
        }
        ReceiptParts {
            parts,
            phasers,
            logs,
            books: books.into_inner().into_inner(),
        }
    }
}

impl<T, K: Naming> ReceiptTable<T, K> {
    /// The place in the table of the phaser of this number; this refusal if the table has none.
    pub fn place(&self, phaser: u32, refusal: Refusal) -> Result<usize, Refusal>
        ensures place { IfOk result (λ n. (n ≡ phaser) × (n < self.now.phasers)) }
        ensures unknown { IfErr result (λ e. (e ≡ refusal) × (self.now.phasers ≤ phaser)) }
    {
        let number = phaser as usize;
        if number < self.phasers {
            Ok(number)
        } else {
            Err(refusal)
        }
    }

    /// Takes the phaser's lock, and lends the phaser until it is dropped: its calls are made on that.
    /// What stands at a place has the place's number, or this waits for ever; no caller can exchange
    /// what it is lent.
    #[inline(always)]
    pub fn lock<R: Wait>(&self, rt: &R, phaser: usize) -> LockedPhaser<'_, T, K>
        requires { phaser < self.now.phasers }
        ensures { result.number ≡ phaser }
    {
        let cell = self.cells[phaser].lock(rt);
        must_be(rt, cell.number as usize == phaser);
        LockedPhaser::of(cell, &self.books)
    }

    /// Takes the books' lock, and answers what all phasers together add up to so far: of no kind
    /// less than what this worker has posted.
    pub fn so_far<R: Wait>(&self, by: &mut Caller<'_, T, K, R>) -> Totals
        ensures within { IsWithin by.new.mine (amount_of result) }
        ensures same { by.new ≡ by.old }
    {
        let mut books = self.books.lock(by.rt);
        books.so_far(&mut by.mine)
    }
}
