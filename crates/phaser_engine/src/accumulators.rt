//! What `send` and `look` are answered, read off the table and the cells. Nothing is changed here.
ghost use Rattle.std.specs.Prelude.{◌≡◌, length, ◌<◌, Some, slice_get, ◌≤◌, ◌+◌, ◌^◌, IfOk, IfErr};
ghost use Rattle.acc_cells.specs.Cells.{IsInReach};
ghost use Rattle.phase_model.specs.Rules.{look_of};
ghost use Rattle.phase_model.specs.declared.call.Call.TheVariants.{Send as send, Look as look};
ghost use Rattle.phase_model.specs.Replies.{reply, refused, done};
ghost use Rattle.phaser_engine.specs.Table.{Folds, entry_of};
ghost use Rattle.phaser_engine.specs.Window.{IsWindow};

use crate::view::{View, has_room};
use acc_cells::Cells;
use phase_model::{Event, LongLook};
use phase_modes::Refusal;
use reg_table::Comparisons;

impl View<'_> {
    /// Where the line of a task stands that may send a value.
    pub(crate) fn may_send(
        &self,
        task: u64,
        accumulator: u8,
        value: i32,
        comparisons: &mut Comparisons,
    ) -> Result<usize, Refusal>
        requires counted { comparisons.old + 9 < 2 ^ 32 }
        ensures refused { IfErr result (λ r. reply self.now.history.now (send task accumulator value)
            ≡ refused r) }
        ensures done { IfOk result (λ i. reply self.now.history.now (send task accumulator value)
            ≡ done (Event.Send task accumulator value)) }
        ensures place { IfOk result (λ i. slice_get self.now.table.now.lines i
            ≡ Some (entry_of self.now.history.now.past task)) }
        ensures accumulator { IfOk result (λ i. accumulator < 4) }
        ensures count { comparisons.new ≤ comparisons.old + 9 }
    {
        let Some((i, entry)) = self.table.find(task, comparisons) else {
            return Err(Refusal::NotRegistered);
        };
        if !entry.reg.mode.can_signal() {
            return Err(Refusal::NoSignal);
        }
        if accumulator as usize >= self.history.ops().len() {
            return Err(Refusal::NoAccumulator);
        }
        if !has_room(self.history, self.table.len(), self.single.reserve()) {
            return Err(Refusal::HistoryFull);
        }
        Ok(i)
    }

    /// What the task sees of an accumulator, if it may look.
    pub(crate) fn may_look(
        &self,
        cells: &Cells,
        task: u64,
        accumulator: u8,
        comparisons: &mut Comparisons,
    ) -> Result<LongLook, Refusal>
        requires folds { Folds self.now.history.now self.now.table.now.partials cells.now }
        requires window { IsWindow cells.now.from self.now.history.now.past }
        requires counted { comparisons.old + 9 < 2 ^ 32 }
        ensures refused { IfErr result (λ r. reply self.now.history.now (look task accumulator) ≡ refused r) }
        ensures done { IfOk result (λ x. reply self.now.history.now (look task accumulator)
            ≡ done (Event.Look task accumulator x)) }
        ensures reach { IfOk result (λ x. IsInReach self.now.history.now.limits.history x) }
        ensures count { comparisons.new ≤ comparisons.old + 9 }
    {
        let Some((_, entry)) = self.table.find(task, comparisons) else {
            return Err(Refusal::NotRegistered);
        };
        if !entry.reg.mode.can_wait() {
            return Err(Refusal::NoWait);
        }
        if accumulator as usize >= self.history.ops().len() {
            return Err(Refusal::NoAccumulator);
        }
        if entry.reg.phase == 0 {
            return Err(Refusal::NoPhaseYet);
        }
        if !has_room(self.history, self.table.len(), self.single.reserve()) {
            return Err(Refusal::HistoryFull);
        }
        Ok(cells.look(accumulator, entry.reg.phase - 1))
    }
}
