//! Finishes by slot, each behind a lock of its own.
ghost use Rattle.std.specs.Prelude.{◌≡◌, ◌+◌, [], ◌<◌, ◌≤◌, true, Err, IfOk, IfErr, OnErr, length, vec_len};
ghost use Rattle.finish_core.specs.Shutting.{IsBackFromShut};
ghost use Rattle.live_tables.specs.Counted.{IfShutRefused, IsSpawnRefused};

use crate::finish_slot::FinishSlot;
use crate::free_slots::{FreeSlots, SlotCounts};
use crate::must_be::must_be;
use crossbeam_utils::CachePadded;
use finish_core::ShutAnswer;
use phase_modes::Refusal;
use phaser_core::Out;
use std::alloc::Global;
use std::sync::{Mutex, Wait};

/// Finishes by slot, each behind a lock of its own, and the numbers of the slots that are free.
/// Threads that take other locks write no line of a processor's cache that a lock of this has.
///
/// A finish is named by its slot. Once it is shut, the slot's next finish has that name.
#[derive(Drop)]
pub struct LiveFinishes<T> {
    /// How many slots there are: so many finishes can be open at once.
    pub slots: usize,
    cells: Vec<CachePadded<Mutex<FinishSlot<T>>>>,
    free: CachePadded<Mutex<FreeSlots>>,
    ghost all: { vec_len cells ≡ slots },
}

/// So many slots. In the first is an open finish, which task 0 owns; the others are free.
fn locked_slots<T: Drop>(
    alloc: Global,
    slots: usize,
) -> Result<Vec<CachePadded<Mutex<FinishSlot<T>>>>, Refusal>
    ensures slots { IfOk result (λ v. vec_len v ≡ slots) }
    ensures memory { IfErr result (λ r. r ≡ Refusal.Memory) }
{
    let mut cells = Vec::with_capacity(alloc, slots)?;
    for number in 0..slots {
        let mut slot = FinishSlot::new();
        if number == 0 {
            let _opened = slot.open(0);
        }
        cells.push_reserved(CachePadded::new(Mutex::new(slot)));
    }
    Ok(cells)
}

impl<T: Drop> LiveFinishes<T> {
    /// So many slots. Finish 0 is open from the start, and task 0 owns it; the other slots are free.
    /// All memory that the table will ever need is taken here; `Memory` if that is refused.
    pub fn new(alloc: Global, slots: u32) -> Result<LiveFinishes<T>, Refusal>
        requires { 0 < slots }
        ensures slots { IfOk result (λ f. f.slots ≡ slots) }
        ensures memory { IfErr result (λ r. r ≡ Refusal.Memory) }
    {
        let cells = locked_slots(alloc, slots as usize)?;
        let free = FreeSlots::new(alloc, slots, 1)?;
        Ok(LiveFinishes {
            slots: slots as usize,
            cells,
            free: CachePadded::new(Mutex::new(free)),
        })
    }

    /// Opens a finish in a free slot, and gives the slot's number. `FinishesFull` if no slot is free.
    /// Its history is empty but for the opening: of those that were in the slot before, nothing is
    /// left.
    pub fn open<R: Wait>(&self, rt: &R, owner: u64) -> Result<u32, Refusal>
        ensures place { IfOk result (λ n. n < self.now.slots) }
        ensures full { IfErr result (λ e. e ≡ Refusal.FinishesFull) }
    {
        let number = self.free_slot(rt)?;
        match self.cells.get(number as usize) {
            Some(slot) => {
                slot.lock(rt).open(owner)?;
                Ok(number)
            }
            None => Err(Refusal::FinishesFull),
        }
    }

    /// Shuts the finish in the slot, and the slot is free. If a task in it hasn't ended, the owner's
    /// item is parked instead, and leaves with the end of the last. `NotNow` if the slot is free or
    /// the table has none of that number, or an owner is parked already.
    pub fn shut<R: Wait>(&self, rt: &R, finish: u32, item: T) -> ShutAnswer<T>
        ensures item { IsBackFromShut item result }
        ensures refused { IfShutRefused result (λ r. r ≡ Refusal.NotNow) }
        ensures unknown { self.now.slots ≤ finish → result ≡ ShutAnswer.Refused item Refusal.NotNow }
    {
        let Some(slot) = self.cells.get(finish as usize) else {
            return ShutAnswer::Refused(item, Refusal::NotNow);
        };
        let answer = shut_in(rt, slot, item);
        if matches!(answer, ShutAnswer::Done(_)) {
            self.free.lock(rt).give_back(finish);
        }
        answer
    }

    /// The number of a free slot, which is free no more.
    fn free_slot<R: Wait>(&self, rt: &R) -> Result<u32, Refusal>
        ensures full { IfErr result (λ e. e ≡ Refusal.FinishesFull) }
    {
        self.free.lock(rt).take().ok_or(Refusal::FinishesFull)
    }
}

/// The slot's `shut`, under its lock.
fn shut_in<T: Drop, R: Wait>(rt: &R, slot: &Mutex<FinishSlot<T>>, item: T) -> ShutAnswer<T>
    ensures item { IsBackFromShut item result }
    ensures refused { IfShutRefused result (λ r. r ≡ Refusal.NotNow) }
{
    slot.lock(rt).shut(item)
}

impl<T> LiveFinishes<T> {
    /// One task more is spawned in the finish that is in the slot. `NotNow` if the slot is free, or the
    /// table has none of that number; `TasksFull` after 2^62 tasks.
    pub fn spawned<R: Wait>(&self, rt: &R, finish: u32) -> Result<(), Refusal>
        ensures refused { IfErr result IsSpawnRefused }
        ensures unknown { self.now.slots ≤ finish → result ≡ Err Refusal.NotNow }
    {
        match self.cells.get(finish as usize) {
            Some(slot) => slot.lock(rt).spawned(),
            None => Err(Refusal::NotNow),
        }
    }

    /// One of the tasks of the finish that is in the slot has ended. An owner that it wakes leaves into
    /// `out`. `NotNow` if the slot is free, the table has none of that number, or as many tasks have
    /// ended as were spawned.
    pub fn ended<R: Wait>(&self, rt: &R, finish: u32, out: &mut Out<T>) -> Result<(), Refusal>
        requires { out.old ≡ [] }
        ensures refused { IfErr result (λ e. e ≡ Refusal.NotNow) }
        ensures unknown { self.now.slots ≤ finish → result ≡ Err Refusal.NotNow }
        ensures few { length out.new ≤ 1 }
        ensures nobody { OnErr result (out.new ≡ []) }
    {
        match self.cells.get(finish as usize) {
            Some(slot) => slot.lock(rt).ended(out),
            None => Err(Refusal::NotNow),
        }
    }

    /// How many slots are free now (all of them once each finish that was opened is shut), how many
    /// finishes were opened (`taken`; finish 0 is one of them), and how many of them are shut
    /// (`given_back`).
    pub fn counts<R: Wait>(&self, rt: &R) -> SlotCounts
        ensures slots { result.slots ≡ self.now.slots }
        ensures counted { result.free + result.taken ≡ self.now.slots + result.given_back }
        ensures within { result.given_back ≤ result.taken }
    {
        let counts = self.free.lock(rt).counts();
        must_be(rt, counts.slots == self.slots);
        counts
    }
}
