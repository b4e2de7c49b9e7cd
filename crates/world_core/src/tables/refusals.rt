//! A task notes that an act of its own is refused, and ends.
ghost use Rattle.std.specs.Prelude.{◌≡◌, ◌<◌, length, true};
ghost use Rattle.world_records.specs.Kept.{story_at};
ghost use Rattle.world_model.specs.ActConditions.{free_unless};
ghost use Rattle.world_records.specs.inner.Refusals.{is_make, phaser_refusal, call_refusal, make_refusal, act_refusal, is_noted, refuse_noted, refuse_state};
ghost use Rattle.world_model.specs.GivingUp.{done_where};
ghost use Rattle.world_records.specs.StandsFor.{IsStep};

use super::Tables;
use phase_model::{Call, Reply as Returned};
use phase_modes::{FinishNumber, Mode, PhaserNumber, Refusal, TaskNumber};
use world_model::{Reply, Tried, WorldEvent};

impl Tables {
    #[tactic(auto, using(world_records::proofs::CallsAsked::past_refused))]
    /// What a phaser would refuse the call by. A number without a phaser knows no task.
    pub(super) fn may_call(&self, phaser: PhaserNumber, call: Call) -> Result<(), Refusal>
        requires { is_make call ≡ true → phaser < length self.now.phasers }
        ensures { result ≡ free_unless (phaser_refusal self.now phaser call) }
    {
        if phaser.place() >= self.phasers.len() {
            return Err(Refusal::NotRegistered);
        }
        let state = &self.phasers[phaser.place()];
        match state.reply_to(call) {
            Returned::Refused(refusal) => Err(refusal),
            _ => Ok(()),
        }
    }

    /// What an act is refused by that asks this of a phaser, and makes none.
    fn may_try_call(
        &self,
        phaser: PhaserNumber,
        task: TaskNumber,
        call: Call,
    ) -> Result<(), Refusal>
        requires { is_make call ≡ true → phaser < length self.now.phasers }
        ensures { result ≡ free_unless (call_refusal self.now task phaser call) }
    {
        self.may_act(task, false, true)?;
        self.may_call(phaser, call)
    }

    /// What the making of a phaser is refused by.
    fn may_try_make(
        &self,
        phaser: PhaserNumber,
        task: TaskNumber,
        mode: Mode,
    ) -> Result<(), Refusal>
        ensures { result ≡ free_unless (make_refusal self.now task phaser mode) }
    {
        self.may_make(phaser, task)?;
        self.may_call(phaser, Call::Make(task.get(), mode))
    }

    /// What the act is refused by.
    fn may_try(&self, task: TaskNumber, tried: &Tried) -> Result<(), Refusal>
        ensures { result ≡ free_unless (act_refusal self.now task tried.now) }
    {
        match *tried {
            Tried::Begun(begun) => self.may_begin(task, &begun),
            Tried::New(phaser, mode, _) => self.may_try_make(PhaserNumber::of(phaser), task, mode),
            Tried::Open(finish) => self.may_open(FinishNumber::of(finish), task),
            Tried::Send(phaser, accumulator, value) => self.may_try_call(
                PhaserNumber::of(phaser),
                task,
                Call::Send(task.get(), accumulator, value),
            ),
            Tried::Look(phaser, accumulator) => self.may_try_call(
                PhaserNumber::of(phaser),
                task,
                Call::Look(task.get(), accumulator),
            ),
        }
    }

    /// Ends the task by the refusal of this number, if it may be noted.
    fn give_up(&mut self, task: TaskNumber, noted: bool, number: u8) -> Result<Reply, Refusal>
        requires { noted ≡ true → task < length self.old.tasks }
        ensures answer { result ≡ done_where noted }
        ensures state { self.new ≡ refuse_state self.old task number noted }
    {
        if !noted {
            return Err(Refusal::NotNow);
        }
        let line = &mut self.tasks[task.place()];
        line.give_up(task, number);
        Ok(Reply::Done)
    }

    #[tactic(auto, using(world_records::proofs::RefuseMade::noted_within))]
    /// Notes that the act is refused by this number.
    fn refuse(&mut self, task: TaskNumber, tried: Tried, number: u8) -> Result<Reply, Refusal>
        ensures answer { result ≡ done_where (refuse_noted self.old task tried number) }
        ensures state { self.new
            ≡ refuse_state self.old task number (refuse_noted self.old task tried number) }
    {
        let refused = self.may_try(task, &tried);
        let noted = is_noted_by(refused, number);
        self.give_up(task, noted, number)
    }

    /// The step that notes that an act is refused.
    pub(super) fn step_refuse(
        &mut self,
        task: TaskNumber,
        tried: Tried,
        number: u8,
    ) -> Result<Reply, Refusal>
        ensures { IsStep (WorldEvent.Refuse task tried number) self.old self.new result }
    {
        self.refuse(task, tried, number)
    }
}

/// Whether the refusal has this number, and may be noted:
/// a wrong moment and want of memory may not.
fn is_noted_by(refused: Result<(), Refusal>, number: u8) -> bool
    ensures { result ≡ is_noted refused number }
{
    match refused {
        Ok(()) => false,
        Err(refusal) => refusal.number() == number && number != 22 && number != 23,
    }
}
