//! Calls of threads that wait, on a phaser that lives long: whoever goes on is told how its call ended.
ghost use Rattle.std.specs.Prelude.{Contains, ◌≡◌, [], ◌≤◌, true, length, OnErr, Ok};
ghost use Rattle.phase_model.specs.declared.call.Call.TheVariants.{SingleDone as single_done, Drop as drop_task};
ghost use Rattle.phase_model.specs.Replies.{reply, after, done_result};
ghost use Rattle.phaser_core.specs.Parking.{is_parked};
ghost use Rattle.long_locks.specs.Courses.{course};
ghost use Rattle.long_locks.specs.Turns.{standing, IsTurned};
ghost use Rattle.long_locks.specs.Calls.{called, answer_to, standing_after, is_turned_away};

use crate::answer::{AskAnswer, Ended, FreedList};
use crate::cell::LongCell;
use crate::course::{Then, answer_of};
use crate::own::{Way, advance, may_free};
use crate::settle::{park, settle_if};
use phase_modes::Refusal;
use phaser_core::{LongTask, Parked, is_parked, is_phase_open, may_be_parked, may_leave};

/// If the item of whoever is parked says what its call does then, the cell makes the call again as soon
/// as it may go on, and frees the task with the answer. So a thread that wakes has its answer.
impl LongCell<Then> {
    /// A task's own call, and then those of all who may go on by it. It is a signal or a pass with the
    /// phaser's refusals, or a signal and, once that is made, a pass: the end of a turn at a barrier. A
    /// task that has to wait is parked for whichever of the two has to. `NotNow` if it is parked
    /// already. If its signal is refused nothing changes; if its pass is refused the signal stands.
    pub fn ask(&mut self, freed: &mut FreedList, waiter: Parked<Then>) -> AskAnswer
        requires { freed.old ≡ [] }
        ensures answer { result ≡ answer_to (is_parked waiter.task self.old.parked.items)
            (called self.old.state.story waiter) }
        ensures turned { IsTurned
            (standing_after (is_parked waiter.task self.old.parked.items)
            (called self.old.state.story waiter) self.old.state.story self.old.parked.items)
            (standing self.new.state.story self.new.parked.items freed.new) }
        ensures refused { is_turned_away (is_parked waiter.task self.old.parked.items)
            (course self.old.state.story waiter.task waiter.call waiter.item) ≡ true
            → standing self.new.state.story self.new.parked.items freed.new
            ≡ standing self.old.state.story self.old.parked.items [] }
        ensures few { length freed.new ≤ 256 }
        ensures next { self.new.state.next ≡ self.old.state.next }
    {
        let LongCell { state, parked } = self;
        if is_parked(parked, waiter.task) {
            return AskAnswer::Ended(Ended::Refused(Refusal::NotNow));
        }
        let Way {
            course,
            may_go_on,
            waiter,
        } = advance(state, parked, waiter);
        park(course, waiter, parked);
        settle_if(may_go_on, state, parked, freed);
        answer_of(course)
    }

    /// The phaser's `single_done`, with its refusals. Whoever may go on by it is freed with its answer.
    pub fn single_done_telling(
        &mut self,
        freed: &mut FreedList,
        task: LongTask,
    ) -> Result<(), Refusal>
        requires { freed.old ≡ [] }
        ensures reply { result ≡ done_result (reply self.old.state.story (single_done task)) }
        ensures turned { IsTurned
            (standing (after self.old.state.story (reply self.old.state.story (single_done task)))
            self.old.parked.items [])
            (standing self.new.state.story self.new.parked.items freed.new) }
        ensures refused { OnErr result
            (standing self.new.state.story self.new.parked.items freed.new
            ≡ standing self.old.state.story self.old.parked.items []) }
        ensures few { length freed.new ≤ 256 }
        ensures next { self.new.state.next ≡ self.old.state.next }
    {
        let LongCell { state, parked } = self;
        let answer = state.single_done(task);
        settle_if(answer.is_ok(), state, parked, freed);
        answer
    }

    /// The phaser's `leave`, with its refusals. Whoever may go on by it is freed with its answer. A task that is parked and leaves is freed with
    /// `NotRegistered`.
    pub fn leave_telling(&mut self, freed: &mut FreedList, task: LongTask) -> Result<(), Refusal>
        requires { freed.old ≡ [] }
        ensures reply { result ≡ done_result (reply self.old.state.story (drop_task task)) }
        ensures turned { IsTurned
            (standing (after self.old.state.story (reply self.old.state.story (drop_task task)))
            self.old.parked.items [])
            (standing self.new.state.story self.new.parked.items freed.new) }
        ensures refused { OnErr result
            (standing self.new.state.story self.new.parked.items freed.new
            ≡ standing self.old.state.story self.old.parked.items []) }
        // It was parked.
        ensures told { result ≡ Ok tt → is_parked task self.old.parked.items ≡ true
            → Contains freed.new (record { task = task; ended = Ended.Refused Refusal.NotRegistered }) }
        ensures few { length freed.new ≤ 256 }
        ensures next { self.new.state.next ≡ self.old.state.next }
    {
        let LongCell { state, parked } = self;
        let own = may_be_parked(state, task);
        let was_open = is_phase_open(state, parked);
        let answer = state.leave(task);
        let is_open = is_phase_open(state, parked);
        let leaves = may_leave(own, was_open, is_open);
        settle_if(may_free(answer.is_ok(), leaves), state, parked, freed);
        answer
    }
}
