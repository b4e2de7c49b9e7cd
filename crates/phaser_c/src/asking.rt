//! Calls on a phaser for threads that wait, by which others may go on.
ghost use Rattle.std.specs.Prelude.{◌≡◌, ◌≤◌, [], length};
ghost use Rattle.phase_model.specs.declared.call.Call.TheVariants.{SingleDone as single_done, Drop as drop_task};
ghost use Rattle.phase_model.specs.Replies.{reply, done_result};
ghost use Rattle.phaser_c.specs.Waiting.{waiter, asked, stands, IsAsked, IsMade, IsLeft, IsGoneOn};

use crate::freed::{GivenFreed, tell_freed};
use crate::waiting::Waiting;
use long_locks::{AskAnswer, Parked, ParkedCall, Then};
use phase_modes::Refusal;
use phaser_core::LongTask;

/// A task's call that may have to wait.
#[derive(Clone, Copy, Debug, PartialEq, Eq)]
pub(crate) enum Asking {
    /// Its signal, with the number of the single that it proposes.
    Signal(Option<u32>),
    /// Its pass.
    Pass,
    /// Its signal, and then its pass.
    Next(Option<u32>),
}

impl Asking {
    /// The task, as it waits for this call.
    fn waiter(self, task: LongTask) -> Parked<Then>
        ensures { result ≡ waiter task self }
    {
        let (call, item) = match self {
            Asking::Signal(number) => (ParkedCall::Signal(number), Then::Return),
            Asking::Pass => (ParkedCall::Pass, Then::Return),
            Asking::Next(number) => (ParkedCall::Signal(number), Then::Pass),
        };
        Parked { task, call, item }
    }
}

impl Waiting {
    /// The task makes its call. Those whom it frees are told in the room.
    pub(crate) fn ask(
        &mut self,
        task: LongTask,
        asking: Asking,
        room: &mut [GivenFreed],
        count: &mut usize,
    ) -> AskAnswer
        requires { 256 ≤ length room.old }
        ensures answer { result ≡ asked self.old.cell (waiter task asking) }
        ensures made { IsGoneOn (IsAsked (waiter task asking)) self.old.cell self.new.cell room.old room.new count.new }
    {
        let Waiting { cell, freed } = self;
        let answer = cell.ask(freed, asking.waiter(task));
        tell_freed(freed, room, count);
        answer
    }

    /// The task reports the single done that it claimed. Those whom it frees are told in the room.
    pub(crate) fn single_done(
        &mut self,
        task: LongTask,
        room: &mut [GivenFreed],
        count: &mut usize,
    ) -> Result<(), Refusal>
        requires { 256 ≤ length room.old }
        ensures reply { result ≡ done_result (reply self.old.cell.state.story (single_done task)) }
        ensures made { IsGoneOn (IsMade (single_done task)) self.old.cell self.new.cell room.old room.new count.new }
    {
        let Waiting { cell, freed } = self;
        let outcome = cell.single_done_telling(freed, task);
        tell_freed(freed, room, count);
        outcome
    }

    /// The task leaves. Those whom it frees are told in the room.
    pub(crate) fn leave(
        &mut self,
        task: LongTask,
        room: &mut [GivenFreed],
        count: &mut usize,
    ) -> Result<(), Refusal>
        requires { 256 ≤ length room.old }
        ensures reply { result ≡ done_result (reply self.old.cell.state.story (drop_task task)) }
        ensures made { IsGoneOn (IsLeft task) self.old.cell self.new.cell room.old room.new count.new }
    {
        let Waiting { cell, freed } = self;
        let outcome = cell.leave_telling(freed, task);
        tell_freed(freed, room, count);
        outcome
    }
}
