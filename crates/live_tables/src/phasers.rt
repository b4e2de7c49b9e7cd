//! The phasers of a run that come and go, each in a slot behind a lock of its own.
ghost use Rattle.std.specs.Prelude.{◌≡◌, ◌≢◌, ◌+◌, ◌^◌, ◌<◌, ◌≤◌, ◌==◌, ◌⊎◌, ◌∷◌, ℕ, [], true, false, All, Some, Err, IfOk, IfErr, IfSome, OnErr, slice_get, vec_len};
ghost use Rattle.phase_modes.specs.Mode.{can_wait};
ghost use Rattle.phase_model.specs.declared.call.Call.TheVariants.{Register as register, Signal as signal, Pass as pass, SingleDone as single_done, Send as send, Look as look, Drop as drop_task};
ghost use Rattle.phase_model.specs.declared.history.Event.TheVariants.{Make};
ghost use Rattle.phase_model.specs.Phases.{IsClosed};
ghost use Rattle.phase_model.specs.Replies.{done_result};
ghost use Rattle.phase_model.specs.Tasks.{has_mode, live_count};
ghost use Rattle.phase_model.specs.Answers.{signal_result, pass_result, look_result};
ghost use Rattle.phaser_core.specs.Parking.{goes_on, IsBack, has_signalled, IsBackFromSignal};
ghost use Rattle.told_history.specs.Stories.{GoesOn, IsAnswered};
ghost use Rattle.long_locks.specs.Told.{story_of, IsSignalAnswer, IsPassAnswer, IfPassed, HasLooked};
ghost use Rattle.live_tables.specs.Slots.{told_of, IsNumbered, without_value};

use crate::free_slots::{FreeSlots, SlotCounts};
use crate::front::{SlotFront, SlotLogs};
use crate::must_be::must_be;
use crate::noted::SlotNoted;
use crate::slot::{At, Slot};
use crate::vacant::Vacant;
use crossbeam_utils::CachePadded;
use long_locks::{LongCell, Out, PassAnswer, SignalAnswer};
use phase_model::{Bound, LongLook, Ops};
use phase_modes::{Mode, Refusal};
use phaser_core::{LongTask, Phase};
use std::alloc::Global;
use std::sync::{Mutex, Wait};
use told_history::Whole;

/// Phasers that come and go, each in a slot, and the numbers of the slots that are free. A slot is
/// used again once all tasks have left its phaser; the next phaser there has another number.
///
/// A call names its phaser by where it is (`At`), and brings what its caller has seen of the slot,
/// `me`. Its clause `told` says what the caller was answered: the phaser's reply, at a place of its one
/// history, which `me` has now seen. On a phaser that is gone, or never was there, a call is refused with
/// `NotRegistered`. Threads that take other locks write no line of a processor's
/// cache that a lock of this has.
#[derive(Drop)]
pub struct LivePhasers<T, J: SlotLogs> {
    /// How many slots there are.
    pub slots: usize,
    cells: Vec<CachePadded<Mutex<Slot<T, J>>>>,
    free: CachePadded<Mutex<FreeSlots>>,
    ghost all: { vec_len cells ≡ slots },
}

/// For each of the logs a slot in which no phaser ever was, behind a lock of its own.
fn free_cells<T: Drop, J: SlotLogs>(
    alloc: Global,
    logs: Vec<Whole<SlotNoted>>,
) -> Result<Vec<CachePadded<Mutex<Slot<T, J>>>>, Refusal>
    requires few { vec_len logs < 2 ^ 32 }
    requires names { (i : ℕ) → IfSome (slice_get logs.items i) (λ w. w.name ≡ J.slots i) }
    requires empty { All (λ w. w.items ≡ []) logs.items }
    ensures cells { IfOk result (λ v. vec_len v ≡ vec_len logs) }
    ensures memory { IfErr result (λ e. e ≡ Refusal.Memory) }
{
    let mut cells = Vec::with_capacity(alloc, logs.len())?;
    let mut number = 0u32;
    for log in logs {
        let slot = Slot::Free(Vacant::new(number, log));
        cells.push(CachePadded::new(Mutex::new(slot)))?;
        number = number.saturating_add(1);
    }
    Ok(cells)
}

/// A phaser with these operators and this bound, made by a task in this mode, and the task's number
/// on it.
fn made<T: Drop>(
    alloc: Global,
    ops: Ops,
    bound: Bound,
    mode: Mode,
) -> Result<(LongCell<T>, LongTask), Refusal>
    ensures made { IfOk result (λ r. r.0.state.story ≡ story_of (record { ops = ops; bound = Some bound }) (Make r.1 mode ∷ [])) }
    ensures number { IfOk result (λ r. r.1 ≡ 0) }
    ensures memory { IfErr result (λ e. e ≡ Refusal.Memory) }
{
    let mut cell = LongCell::new(alloc, ops, bound)?;
    let maker = cell.make(mode)?;
    Ok((cell, maker))
}

impl<T: Drop, J: SlotLogs> LivePhasers<T, J> {
    /// A slot for each of the logs, in their order, all of them free. `Memory` if they get none: what a
    /// phaser needs is taken by `open`.
    pub fn new(alloc: Global, logs: Vec<Whole<SlotNoted>>) -> Result<LivePhasers<T, J>, Refusal>
        requires few { vec_len logs < 2 ^ 32 }
        requires names { (i : ℕ) → IfSome (slice_get logs.items i) (λ w. w.name ≡ J.slots i) }
        requires empty { All (λ w. w.items ≡ []) logs.items }
        ensures slots { IfOk result (λ t. t.slots ≡ vec_len logs) }
        ensures memory { IfErr result (λ e. e ≡ Refusal.Memory) }
    {
        let free = FreeSlots::new(alloc, logs.len() as u32, 0)?;
        let cells = free_cells(alloc, logs)?;
        Ok(LivePhasers {
            slots: cells.len(),
            cells,
            free: CachePadded::new(Mutex::new(free)),
        })
    }

    /// Takes a free slot, and makes a phaser in it, with these operators and this bound. Its maker is
    /// registered in this mode, at phase 0. Where it is, what was seen of the slot, and the maker's
    /// number on it. The phaser's memory is taken here, while no lock is held.
    ///
    /// Refused, in this order: `Memory` if the phaser gets none, `PhasersFull` if all slots are taken.
    /// Neither takes a slot.
    pub fn open<R: Wait>(
        &self,
        rt: &R,
        alloc: Global,
        ops: Ops,
        bound: Bound,
        mode: Mode,
    ) -> Result<(At, SlotFront, LongTask), Refusal>
        ensures made { IfOk result (λ r. told_of r.0.number r.1.items
            ≡ story_of (record { ops = ops; bound = Some bound }) (Make r.2 mode ∷ [])) }
        ensures number { IfOk result (λ r. r.2 ≡ 0) }
        ensures log { IfOk result (λ r. r.1.log ≡ J.slots r.0.slot) }
        ensures place { IfOk result (λ r. r.0.slot < self.now.slots) }
        ensures refused { IfErr result (λ e. (e ≡ Refusal.Memory) ⊎ (e ≡ Refusal.PhasersFull)) }
    {
        let (cell, maker) = made(alloc, ops, bound, mode)?;
        let Some(slot) = self.free.lock(rt).take() else {
            return Err(Refusal::PhasersFull);
        };
        must_be(rt, (slot as usize) < self.slots);
        let (at, front) = self.cells[slot as usize]
            .lock(rt)
            .open(rt, slot, cell, maker, mode);
        Ok((at, front, maker))
    }

    /// The phaser's `leave`, with its refusals. Those whom it wakes are put into `out`. Whether the task
    /// was the last one that was registered: then the phaser is dropped with all its memory, and its slot
    /// is free again.
    pub fn leave<R: Wait>(
        &self,
        rt: &R,
        at: At,
        me: &mut SlotFront,
        out: &mut Out<T>,
        task: LongTask,
    ) -> Result<bool, Refusal>
        requires slot { at.slot < self.now.slots }
        requires log { me.old.log ≡ J.slots at.slot }
        requires empty { out.old ≡ [] }
        ensures told { IsAnswered (λ _ r. without_value result ≡ done_result r) (drop_task task)
            (told_of at.number me.old.items) (told_of at.number me.new.items) }
        ensures last { IfOk result (λ last. last ≡ (live_count (told_of at.number me.new.items).past == 0)) }
        ensures others { (k : ℕ) → GoesOn (told_of k me.old.items) (told_of k me.new.items) }
        ensures log { me.new.log ≡ me.old.log }
        ensures refused { OnErr result (out.new ≡ []) }
    {
        let left = self.cells[at.slot as usize]
            .lock(rt)
            .leave(rt, at, me, out, task)?;
        let Some(phaser) = left else {
            return Ok(false);
        };
        // Its memory is given back while no lock is held, and before another one comes into the slot.
        drop(phaser);
        self.free.lock(rt).give_back(at.slot);
        Ok(true)
    }
}

impl<T, J: SlotLogs> LivePhasers<T, J> {
    /// The phaser's `register`, with its refusals, under the number that is returned. Nobody ever had
    /// that number on it.
    pub fn register<R: Wait>(
        &self,
        rt: &R,
        at: At,
        me: &mut SlotFront,
        parent: LongTask,
        mode: Mode,
    ) -> Result<LongTask, Refusal>
        requires slot { at.slot < self.now.slots }
        requires log { me.old.log ≡ J.slots at.slot }
        ensures told { IsNumbered result (λ n. register parent n mode)
            (told_of at.number me.old.items) (told_of at.number me.new.items) }
        ensures numbered { (result ≢ Err Refusal.RegisteredTwice) × (result ≢ Err Refusal.TasksFull) }
        ensures others { (k : ℕ) → GoesOn (told_of k me.old.items) (told_of k me.new.items) }
        ensures log { me.new.log ≡ me.old.log }
    {
        let mut slot = self.cells[at.slot as usize].lock(rt);
        let Some(phaser) = slot.find(rt, at, me) else {
            return Err(Refusal::NotRegistered);
        };
        phaser.register(me, parent, mode)
    }

    /// The phaser's `send`, with its refusals.
    pub fn send<R: Wait>(
        &self,
        rt: &R,
        at: At,
        me: &mut SlotFront,
        task: LongTask,
        accumulator: u8,
        value: i32,
    ) -> Result<(), Refusal>
        requires slot { at.slot < self.now.slots }
        requires log { me.old.log ≡ J.slots at.slot }
        ensures told { IsAnswered (λ _ r. result ≡ done_result r) (send task accumulator value)
            (told_of at.number me.old.items) (told_of at.number me.new.items) }
        ensures others { (k : ℕ) → GoesOn (told_of k me.old.items) (told_of k me.new.items) }
        ensures log { me.new.log ≡ me.old.log }
    {
        let mut slot = self.cells[at.slot as usize].lock(rt);
        let Some(phaser) = slot.find(rt, at, me) else {
            return Err(Refusal::NotRegistered);
        };
        phaser.send(me, task, accumulator, value)
    }

    /// The phaser's `look`, with its refusals. What was seen is the fold of all values that were sent for
    /// the phase before the task's own, which was closed.
    pub fn look<R: Wait>(
        &self,
        rt: &R,
        at: At,
        me: &mut SlotFront,
        task: LongTask,
        accumulator: u8,
    ) -> Result<LongLook, Refusal>
        requires slot { at.slot < self.now.slots }
        requires log { me.old.log ≡ J.slots at.slot }
        ensures told { IsAnswered (λ _ r. result ≡ look_result r) (look task accumulator)
            (told_of at.number me.old.items) (told_of at.number me.new.items) }
        ensures seen { IfOk result (λ x. HasLooked (told_of at.number me.new.items).terms.ops task accumulator
            (told_of at.number me.new.items).past x) }
        ensures others { (k : ℕ) → GoesOn (told_of k me.old.items) (told_of k me.new.items) }
        ensures log { me.new.log ≡ me.old.log }
    {
        let mut slot = self.cells[at.slot as usize].lock(rt);
        let Some(phaser) = slot.find(rt, at, me) else {
            return Err(Refusal::NotRegistered);
        };
        phaser.look(me, task, accumulator)
    }

    /// The phaser's `signal`, with its refusals. The item comes back, or it is parked; those whom it
    /// wakes are put into `out`.
    pub fn signal<R: Wait>(
        &self,
        rt: &R,
        at: At,
        me: &mut SlotFront,
        out: &mut Out<T>,
        task: LongTask,
        proposed: Option<u32>,
        item: T,
    ) -> SignalAnswer<T>
        requires slot { at.slot < self.now.slots }
        requires log { me.old.log ≡ J.slots at.slot }
        requires empty { out.old ≡ [] }
        ensures told { IsAnswered (λ _ r. IsSignalAnswer item (signal_result r) result) (signal task proposed)
            (told_of at.number me.old.items) (told_of at.number me.new.items) }
        ensures item { IsBackFromSignal item result }
        ensures others { (k : ℕ) → GoesOn (told_of k me.old.items) (told_of k me.new.items) }
        ensures log { me.new.log ≡ me.old.log }
        ensures nobody { has_signalled result ≡ false → out.new ≡ [] }
    {
        let mut slot = self.cells[at.slot as usize].lock(rt);
        let Some(phaser) = slot.find(rt, at, me) else {
            return SignalAnswer::Refused(item, Refusal::NotRegistered);
        };
        phaser.signal(me, out, task, proposed, item)
    }

    /// The phaser's `pass`, with its refusals. The item comes back, or it is parked; those whom it wakes
    /// are put into `out`. If a task that can wait has passed a phase, each who was registered then, and
    /// can signal, had signalled that phase.
    pub fn pass<R: Wait>(
        &self,
        rt: &R,
        at: At,
        me: &mut SlotFront,
        out: &mut Out<T>,
        task: LongTask,
        item: T,
    ) -> PassAnswer<T, Phase>
        requires slot { at.slot < self.now.slots }
        requires log { me.old.log ≡ J.slots at.slot }
        requires empty { out.old ≡ [] }
        ensures told { IsAnswered (λ h r. IsPassAnswer item (pass_result h r) result) (pass task)
            (told_of at.number me.old.items) (told_of at.number me.new.items) }
        ensures closed { IfPassed result (λ p. has_mode can_wait task (told_of at.number me.new.items).past ≡ true
            → IsClosed p (told_of at.number me.new.items).past) }
        ensures item { IsBack item result }
        ensures others { (k : ℕ) → GoesOn (told_of k me.old.items) (told_of k me.new.items) }
        ensures log { me.new.log ≡ me.old.log }
        ensures nobody { goes_on result ≡ false → out.new ≡ [] }
    {
        let mut slot = self.cells[at.slot as usize].lock(rt);
        let Some(phaser) = slot.find(rt, at, me) else {
            return PassAnswer::Refused(item, Refusal::NotRegistered);
        };
        phaser.pass(me, out, task, item)
    }

    /// The phaser's `single_done`, with its refusals. Those whom it wakes are put into `out`.
    pub fn single_done<R: Wait>(
        &self,
        rt: &R,
        at: At,
        me: &mut SlotFront,
        out: &mut Out<T>,
        task: LongTask,
    ) -> Result<(), Refusal>
        requires slot { at.slot < self.now.slots }
        requires log { me.old.log ≡ J.slots at.slot }
        requires empty { out.old ≡ [] }
        ensures told { IsAnswered (λ _ r. result ≡ done_result r) (single_done task)
            (told_of at.number me.old.items) (told_of at.number me.new.items) }
        ensures others { (k : ℕ) → GoesOn (told_of k me.old.items) (told_of k me.new.items) }
        ensures log { me.new.log ≡ me.old.log }
        ensures refused { OnErr result (out.new ≡ []) }
    {
        let mut slot = self.cells[at.slot as usize].lock(rt);
        let Some(phaser) = slot.find(rt, at, me) else {
            return Err(Refusal::NotRegistered);
        };
        phaser.single_done(me, out, task)
    }

    /// How many slots are free now (all of them once each phaser was left by all its tasks), how many
    /// phasers there ever were (`taken`), and how many of them are gone (`given_back`).
    pub fn counts<R: Wait>(&self, rt: &R) -> SlotCounts
        ensures slots { result.slots ≡ self.now.slots }
        ensures within { result.given_back ≤ result.taken }
        ensures counted { result.free + result.taken ≡ self.now.slots + result.given_back }
    {
        let counts = self.free.lock(rt).counts();
        must_be(rt, counts.slots == self.slots);
        counts
    }
}
