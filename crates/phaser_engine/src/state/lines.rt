//! How a task's line comes and goes: at the end of the roll, where nothing else has to move and one
//! or two comparisons show it, or else anywhere.
ghost use Rattle.std.specs.Prelude.{◌≡◌, ◌≤◌, ◌<◌, true, false};
ghost use Rattle.phase_model.specs.Rules.{with_event};
ghost use Rattle.phase_model.specs.Tasks.{is_registered, live_count};
ghost use Rattle.phase_model.specs.declared.call.Call.TheVariants.{Register as register, Drop as drop_task};
ghost use Rattle.phase_model.specs.Replies.{reply, after, done, done_result};

use crate::state::Engine;
use crate::view::{View, view_of};
use phase_model::Event;
use phase_modes::{Mode, Refusal};
use reg_table::{Comparisons, Entry, TaskNumber};
use told_history::LongEvent;

impl Engine {
    /// Registers a child whose line comes last, if that is allowed and the parent's line is where
    /// it is looked for first. Returns whether it did; else nothing has changed but the count.
    ///
    /// All that it does is inlined, so that hardly a register of the machine has to be saved: with
    /// few tasks that is most of the price of a call.
    #[inline(never)]
    pub(super) fn register_last(
        &mut self,
        parent: u64,
        child: u64,
        mode: Mode,
        is_known: bool,
    ) -> bool
        requires known { is_known ≡ is_registered child self.old.story.past }
        ensures done { result ≡ true → reply self.old.story (register parent child mode)
            ≡ done (Event.Reg parent child mode) }
        ensures history { result ≡ true
            → self.new.story ≡ with_event self.old.story (Event.Reg parent child mode) }
        ensures stays { result ≡ false → self.new.story ≡ self.old.story }
        ensures compared { self.new.compared ≤ 2 }
        ensures room { self.new.room ≡ self.old.room }
    {
        let mut comparisons = Comparisons::none();
        let view = view_of!(self);
        let joins = view.may_register_last(parent, child, mode, is_known, &mut comparisons);
        self.compared = comparisons;
        let Some(reg) = joins else {
            return false;
        };
        self.table.push(Entry {
            task: TaskNumber::of(child),
            reg,
            proposed: false,
        });
        self.history.add(LongEvent::Reg(parent, child, mode));
        true
    }

    /// Registers a child wherever its line stands. What was compared for it already counts.
    #[cold]
    #[inline(never)]
    pub(super) fn register_anywhere(
        &mut self,
        parent: u64,
        child: u64,
        mode: Mode,
        is_known: bool,
    ) -> Result<(), Refusal>
        requires known { is_known ≡ is_registered child self.old.story.past }
        requires compared { self.old.compared ≤ 2 }
        ensures reply { result ≡ done_result (reply self.old.story (register parent child mode)) }
        ensures history { self.new.story
            ≡ after self.old.story (reply self.old.story (register parent child mode)) }
        ensures compared { self.new.compared ≤ 18 }
        ensures room { self.new.room ≡ self.old.room }
    {
        let view = view_of!(self);
        let answer = view.may_register(parent, child, mode, is_known, &mut self.compared);
        let reg = answer?;
        let place = self.table.place_for(child, &mut self.compared);
        self.history.add(LongEvent::Reg(parent, child, mode));
        self.table.insert(
            place,
            Entry {
                task: TaskNumber::of(child),
                reg,
                proposed: false,
            },
        );
        Ok(())
    }

    /// Drops the task whose line stands last, if that is allowed, it holds nothing back, and it isn't
    /// alone the hindmost, so that no phase closes by it. Returns whether it did; else nothing has
    /// changed but the count.
    #[inline(never)]
    pub(super) fn drop_last(&mut self, task: u64) -> bool
        ensures done { result ≡ true → reply self.old.story (drop_task task) ≡ done (Event.Drop task) }
        ensures history { result ≡ true → self.new.story ≡ with_event self.old.story (Event.Drop task) }
        ensures stays { result ≡ false → self.new.story ≡ self.old.story }
        ensures compared { self.new.compared ≤ 1 }
        ensures room { self.new.room ≡ self.old.room }
        ensures full { 256 ≤ live_count self.old.story.past → self.new.compared ≡ 0 }
    {
        let mut comparisons = Comparisons::none();
        let view = view_of!(self);
        let leaves = view.may_drop_last(task, &mut comparisons);
        self.compared = comparisons;
        // There are at most four accumulators, so what a task holds back is all in its partial.
        let _ = self.history.ops().len();
        if !leaves || !self.table.pop() {
            return false;
        }
        self.history.add(LongEvent::Drop(task));
        true
    }

    /// Drops the task wherever its line stands. What was compared for it already counts; with a
    /// full table that is nothing, since `find` may need all nine comparisons there.
    #[cold]
    #[inline(never)]
    pub(super) fn drop_anywhere(&mut self, task: u64) -> Result<(), Refusal>
        requires compared { self.old.compared ≤ 1 }
        requires full { 256 ≤ live_count self.old.story.past → self.old.compared ≡ 0 }
        ensures reply { result ≡ done_result (reply self.old.story (drop_task task)) }
        ensures history { self.new.story ≡ after self.old.story (reply self.old.story (drop_task task)) }
        ensures compared { self.new.compared ≤ 9 }
        ensures room { self.new.room ≡ self.old.room }
    {
        let view = view_of!(self);
        let answer = view.may_drop(task, &mut self.compared);
        let i = answer?;
        self.history.add(LongEvent::Drop(task));
        let reg = self.table.get(i).reg;
        self.table.fold(i, reg.signals(), &mut self.cells);
        if self.table.remove(i) {
            self.cells.release_below(self.table.needed_from());
        }
        Ok(())
    }
}
