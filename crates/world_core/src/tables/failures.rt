//! A task gives up what it is about, and ends.
ghost use Rattle.std.specs.Prelude.{◌≡◌, ◌≤◌, ◌<◌, ◌==◌, length, take, true, Some, None};
ghost use Rattle.world_model.specs.PartReplies.{call_for};
ghost use Rattle.world_model.specs.GivingUp.{done_where, is_reg};
ghost use Rattle.world_records.specs.Kept.{task_at};
ghost use Rattle.world_records.specs.inner.Steps.{with_task};
ghost use Rattle.world_records.specs.inner.Refusals.{is_make};
ghost use Rattle.world_records.specs.inner.Failures.{next_refusal, has_number, may_fail_by, spawn_failed, failed, fail_state};
ghost use Rattle.world_records.specs.StandsFor.{IsStep};

use super::Tables;
use phase_model::Call;
use phase_modes::{PhaserNumber, Refusal, TaskNumber};
use world_model::{Reply, Step, WorldEvent};
use world_records::{MOST_PHASERS, Plan};

/// The call that makes the step on its phaser.
fn call_for(step: Step) -> Call
    ensures { result ≡ call_for step }
{
    match step {
        Step::Make(task, mode, _) => Call::Make(task, mode),
        Step::Reg(parent, child, mode) => Call::Register(parent, child, mode),
        Step::Sig(task, number) => Call::Signal(task, number),
        Step::Claim(task) => Call::Pass(task),
        Step::Did(task) => Call::SingleDone(task),
        Step::Pass(task) => Call::Pass(task),
        Step::Send(task, accumulator, value) => Call::Send(task, accumulator, value),
        Step::Look(task, accumulator) => Call::Look(task, accumulator),
        Step::Drop(task) => Call::Drop(task),
    }
}

/// Whether the call makes a phaser.
fn is_make(call: Call) -> bool
    ensures { result ≡ is_make call }
{
    matches!(call, Call::Make(_, _))
}

/// Whether there is a refusal, and it has this number.
fn has_number(refusal: Option<Refusal>, number: u8) -> bool
    ensures { result ≡ has_number refusal number }
{
    match refusal {
        Some(refusal) => refusal.number() == number,
        None => false,
    }
}

/// Whether the event registers a child.
fn is_reg(event: &WorldEvent) -> bool
    ensures { result ≡ is_reg event.now }
{
    matches!(*event, WorldEvent::Phaser(_, Step::Reg(_, _, _)))
}

impl Tables {
    /// What the event that comes next would be refused by. What a finish says is never a reason to
    /// give up.
    fn next_refusal(&self, next: Option<WorldEvent>) -> Option<Refusal>
        ensures { result ≡ next_refusal self.now next }
    {
        let Some(WorldEvent::Phaser(phaser, step)) = next else {
            return None;
        };
        let call = call_for(step);
        if is_make(call) {
            return None;
        }
        self.may_call(PhaserNumber::of(phaser), call).err()
    }

    /// Whether the task may give up by the refusal of this number.
    fn may_fail(&self, task: TaskNumber, number: u8) -> bool
        ensures { result ≡ may_fail_by self.now task number }
    {
        match number {
            7 | 15 => has_number(self.next_refusal(self.kept_next(task)), number),
            14 => match self.kept_next(task) {
                Some(next) => is_reg(&next),
                None => false,
            },
            23 => self.is_ready(task),
            _ => false,
        }
    }

    /// Copies the numbers of the phasers on which the task is to the front of the array, and
    /// returns how many they are.
    fn copy_phasers(&self, task: TaskNumber, numbers: &mut [u32; MOST_PHASERS]) -> usize
        ensures held { take result numbers.new ≡ (task_at self.now task).phasers }
        ensures few { result ≤ 16 }
    {
        if task.place() >= self.tasks.len() {
            return 0;
        }
        let line = &self.tasks[task.place()];
        line.copy_phasers(numbers)
    }

    /// Gives up the spawn of this child.
    fn give_up_spawn(&mut self, task: TaskNumber, child: TaskNumber, number: u8)
        requires { task < length self.old.tasks }
        ensures { self.new ≡ spawn_failed self.old task child number }
    {
        let mut numbers = [0; MOST_PHASERS];
        let count = self.copy_phasers(child, &mut numbers);
        let line = &mut self.tasks[task.place()];
        line.give_up_spawn(child, &numbers[..count], number);
    }

    /// Gives up what the task is about.
    fn give_in(&mut self, task: TaskNumber, number: u8)
        requires { task < length self.old.tasks }
        ensures { self.new ≡ failed self.old task number }
    {
        let line = &mut self.tasks[task.place()];
        match line.plan() {
            Plan::Spawning(child, _, _) => self.give_up_spawn(task, TaskNumber::of(child), number),
            _ => line.give_up(task, number),
        }
    }

    #[tactic(auto, using(world_records::proofs::FailMade::fail_within))]
    /// Gives up what the task is about, if it may by the refusal of this number.
    fn fail(&mut self, task: TaskNumber, number: u8) -> Result<Reply, Refusal>
        ensures answer { result ≡ done_where (may_fail_by self.old task number) }
        ensures state { self.new ≡ fail_state self.old task number }
    {
        if !self.may_fail(task, number) {
            return Err(Refusal::NotNow);
        }
        self.give_in(task, number);
        Ok(Reply::Done)
    }

    /// The step by which a task gives up.
    pub(super) fn step_fail(&mut self, task: TaskNumber, number: u8) -> Result<Reply, Refusal>
        ensures { IsStep (WorldEvent.Fail task number) self.old self.new result }
    {
        self.fail(task, number)
    }
}
