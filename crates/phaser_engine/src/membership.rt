//! What `make`, `register` and `drop_task` are answered, read off the table. Nothing changes here.
ghost use Rattle.std.specs.Prelude.{◌≡◌, ◌+◌, ◌-◌, ◌≤◌, ◌^◌, ◌==◌, ℕ, length, ◌<◌, Some, false, true, slice_get, IfOk, IfErr, IfSome, OnOk, OnSome, ◌∷◌, []};
ghost use Rattle.std.specs.List.{list_any};
ghost use Rattle.phase_model.specs.declared.call.Call.TheVariants.{Register as register, Drop as drop_task, Make as make};
ghost use Rattle.phase_model.specs.Replies.{reply, refused, done};
ghost use Rattle.phase_model.specs.Tasks.{is_registered};
ghost use Rattle.reg_table.specs.Lines.{IsPlaceFor, HasNext};
ghost use Rattle.phaser_engine.specs.Table.{entry_of};

use crate::view::{View, has_room, owes_single};
use phase_model::Event;
use phase_modes::{LongReg, Mode, Refusal};
use reg_table::{Comparisons, Entry, MOST_LINES};

impl View<'_> {
    /// Whether the phaser may be made.
    pub(crate) fn may_make(&self, task: u64, mode: Mode) -> Result<(), Refusal>
        ensures refused { IfErr result (λ r. reply self.now.history.now (make task mode) ≡ refused r) }
        ensures done { IfOk result (λ u. reply self.now.history.now (make task mode)
            ≡ done (Event.Make task mode)) }
        ensures new { OnOk result (self.now.history.now.past ≡ []) }
        ensures place { OnOk result (task < self.now.history.now.limits.tasks) }
    {
        if self.history.len() > 0 {
            return Err(Refusal::NotNow);
        }
        if task >= self.history.limits().tasks {
            return Err(Refusal::TasksFull);
        }
        Ok(())
    }

    /// The registration of a child that may be registered, by its parent's line.
    #[inline(always)]
    pub(crate) fn may_join(
        &self,
        parent: Entry,
        child: u64,
        mode: Mode,
        is_known: bool,
    ) -> Result<LongReg, Refusal>
        requires known { is_known ≡ is_registered child self.now.history.now.past }
        requires line { (i : ℕ) × (slice_get self.now.table.now.lines i ≡ Some parent) }
        ensures refused { IfErr result (λ r. reply self.now.history.now (register parent.task child mode)
            ≡ refused r) }
        ensures done { IfOk result (λ r. reply self.now.history.now (register parent.task child mode)
            ≡ done (Event.Reg parent.task child mode)) }
        ensures entry { IfOk result (λ r. record { task = child; reg = r; proposed = false }
            ≡ entry_of (Event.Reg parent.task child mode ∷ self.now.history.now.past) child) }
        ensures next { IfOk result (λ r. HasNext r) }
        ensures room { OnOk result (length self.now.table.now.lines < self.now.history.now.limits.regs) }
        ensures absent { OnOk result (list_any (λ e. e.task == child) self.now.table.now.lines ≡ false) }
    {
        let Ok(joined) = parent.reg.child_of(mode) else {
            return Err(Refusal::MoreThanParent);
        };
        let limits = self.history.limits();
        if child >= limits.tasks {
            return Err(Refusal::TasksFull);
        }
        if is_known {
            return Err(Refusal::RegisteredTwice);
        }
        if self.table.len() >= limits.regs as usize {
            return Err(Refusal::RegsFull);
        }
        if !has_room(self.history, self.table.len() + 1, self.single.reserve()) {
            return Err(Refusal::HistoryFull);
        }
        Ok(joined)
    }

    /// The registration of a child that may be registered, if its line comes last and its parent's
    /// is where it is looked for first. `None` says nothing.
    #[inline(always)]
    pub(crate) fn may_register_last(
        &self,
        parent: u64,
        child: u64,
        mode: Mode,
        is_known: bool,
        comparisons: &mut Comparisons,
    ) -> Option<LongReg>
        requires known { is_known ≡ is_registered child self.now.history.now.past }
        requires counted { comparisons.old + 2 < 2 ^ 32 }
        ensures done { OnSome result (reply self.now.history.now (register parent child mode)
            ≡ done (Event.Reg parent child mode)) }
        ensures entry { IfSome result (λ r. record { task = child; reg = r; proposed = false }
            ≡ entry_of (Event.Reg parent child mode ∷ self.now.history.now.past) child) }
        ensures next { IfSome result (λ r. HasNext r) }
        ensures room { OnSome result (length self.now.table.now.lines < self.now.history.now.limits.regs) }
        ensures absent { OnSome result (list_any (λ e. e.task == child) self.now.table.now.lines ≡ false) }
        ensures last { OnSome result
            (IsPlaceFor child self.now.table.now.lines (length self.now.table.now.lines)) }
        ensures count { comparisons.new ≤ comparisons.old + 2 }
    {
        let Some((_, entry)) = self.table.guess(parent, comparisons) else {
            return None;
        };
        let Ok(joined) = self.may_join(entry, child, mode, is_known) else {
            return None;
        };
        if self.table.comes_last(child, comparisons) {
            Some(joined)
        } else {
            None
        }
    }

    /// The registration of a child that may be registered.
    pub(crate) fn may_register(
        &self,
        parent: u64,
        child: u64,
        mode: Mode,
        is_known: bool,
        comparisons: &mut Comparisons,
    ) -> Result<LongReg, Refusal>
        requires known { is_known ≡ is_registered child self.now.history.now.past }
        requires counted { comparisons.old + 9 < 2 ^ 32 }
        ensures refused { IfErr result (λ r. reply self.now.history.now (register parent child mode)
            ≡ refused r) }
        ensures done { IfOk result (λ r. reply self.now.history.now (register parent child mode)
            ≡ done (Event.Reg parent child mode)) }
        ensures entry { IfOk result (λ r. record { task = child; reg = r; proposed = false }
            ≡ entry_of (Event.Reg parent child mode ∷ self.now.history.now.past) child) }
        ensures next { IfOk result (λ r. HasNext r) }
        ensures room { OnOk result (length self.now.table.now.lines < self.now.history.now.limits.regs) }
        ensures absent { OnOk result (list_any (λ e. e.task == child) self.now.table.now.lines ≡ false) }
        ensures count { comparisons.new ≤ comparisons.old + 9 }
        ensures guessed { 0 < comparisons.old → length self.now.table.now.lines < 256
            → comparisons.new ≤ comparisons.old + 8 }
    {
        let Some((_, entry)) = self.table.find_after_guess(parent, comparisons) else {
            return Err(Refusal::NotRegistered);
        };
        self.may_join(entry, child, mode, is_known)
    }

    /// Whether the task's line stands last and it may be dropped, seen by at most one comparison,
    /// and by none if the table is full: then `find` may need all nine. `false` says nothing.
    #[inline(always)]
    pub(crate) fn may_drop_last(&self, task: u64, comparisons: &mut Comparisons) -> bool
        requires counted { comparisons.old + 1 < 2 ^ 32 }
        ensures done { result ≡ true → reply self.now.history.now (drop_task task)
            ≡ done (Event.Drop task) }
        ensures line { result ≡ true
            → slice_get self.now.table.now.lines (length self.now.table.now.lines - 1)
            ≡ Some (entry_of self.now.history.now.past task) }
        ensures count { comparisons.new ≤ comparisons.old + 1 }
        ensures full { 256 ≤ length self.now.table.now.lines → comparisons.new ≡ comparisons.old }
    {
        if self.table.len() >= MOST_LINES {
            return false;
        }
        match self.table.last_of(task, comparisons) {
            Some(entry) => !entry.proposed,
            None => false,
        }
    }

    /// Where the line of a task stands that may be dropped.
    pub(crate) fn may_drop(
        &self,
        task: u64,
        comparisons: &mut Comparisons,
    ) -> Result<usize, Refusal>
        requires counted { comparisons.old + 9 < 2 ^ 32 }
        ensures refused { IfErr result (λ r. reply self.now.history.now (drop_task task) ≡ refused r) }
        ensures done { IfOk result (λ i. reply self.now.history.now (drop_task task)
            ≡ done (Event.Drop task)) }
        ensures place { IfOk result (λ i. slice_get self.now.table.now.lines i
            ≡ Some (entry_of self.now.history.now.past task)) }
        ensures count { comparisons.new ≤ comparisons.old + 9 }
        ensures guessed { 0 < comparisons.old → length self.now.table.now.lines < 256
            → comparisons.new ≤ comparisons.old + 8 }
    {
        let Some((i, entry)) = self.table.find_after_guess(task, comparisons) else {
            return Err(Refusal::NotRegistered);
        };
        if owes_single(self.single, entry) {
            return Err(Refusal::NotNow);
        }
        Ok(i)
    }
}
