//! What a worker makes of the acts that a task's body gives.
ghost use Rattle.std.specs.Prelude.{◌≡◌, ℕ, true, None, Some, IfOk, IfSome, OnOk, if◌then◌else◌};
ghost use Rattle.job_script.specs.declared.act.Answer.TheVariants.{Started};
ghost use Rattle.world_model.specs.declared.event.WorldEvent.{WorldEvent};
ghost use Rattle.table_receipts.specs.Seen.{story_at};
ghost use Rattle.task_standing.specs.Noted.{noted};
ghost use Rattle.task_queue.specs.Accounts.{IsSeatOf};
ghost use Rattle.tasks_in_flight.specs.Heard.{nothing, at_start};
ghost use Rattle.tasks_in_flight.specs.inner.Ready.{HasAskedFor, HasAskedToSpawn, IsDue, seen_by};
ghost use Rattle.tasks_in_flight.specs.inner.GoingOn.{HasActed, given_up, tried_by};
ghost use Rattle.task_worker.specs.inner.Driven.{Replies};
ghost use Rattle.task_worker.specs.inner.Posted.{PostsAtMost};

use crate::worker::{Busy, Shared};
use job_script::Act;
use phase_model::{Bound, Ops, Terms};
use phase_modes::{FinishNumber, Mode, Phased, Refusal, TaskNumber};
use std::sync::Wait;
use tasks_in_flight::{Acts, Body, Gate, Item, RunNaming, Task, begun_by, step};
use world_model::{Begun, Tried};

/// What all workers share, with the gate round each step.
#[derive(Drop)]
struct Team<'a, B: Body, K: RunNaming, G: Gate> {
    shared: &'a Shared<B, K>,
    gate: &'a G,
}

impl<B: Body, K: RunNaming> Shared<B, K> {
    /// The task gives up what it is about, and ends.
    pub(crate) fn fail(&self, task: &mut Task<B, K>, refusal: Refusal) -> Result<(), Refusal>
        ensures { OnOk result (task.new.standing ≡ given_up task.old.standing) }
    {
        task.fail(self.tickets.draw(), refusal)
    }

    /// The act is refused, and the task ends.
    fn refuse(&self, task: &mut Task<B, K>, tried: Tried, refusal: Refusal) -> Result<(), Refusal>
        ensures { OnOk result (task.new.standing ≡ given_up task.old.standing) }
    {
        task.refuse(self.tickets.draw(), tried, refusal)
    }

    /// Whether the task may make the act, as far as it knows itself; if it may not, it comes to
    /// its end.
    fn may_try(&self, task: &mut Task<B, K>, tried: Tried) -> Result<bool, Refusal>
        ensures same { IfOk result (λ may. may ≡ true → task.new ≡ task.old) }
        ensures standing { IfOk result (λ may. task.new.standing ≡ tried_by may task.old.standing) }
    {
        match task.standing.may_try(self.limits, &tried) {
            Ok(()) => Ok(true),
            Err(refusal) => {
                self.refuse(task, tried, refusal)?;
                Ok(false)
            }
        }
    }

    /// Begins an act that goes on by a plan, if it isn't refused. Once it has ended the
    /// body hears of it, if it hears anything more. Whether it has begun.
    fn begin(&self, task: &mut Task<B, K>, begun: Begun) -> Result<bool, Refusal>
        requires { ∥ (K.Supposing.supposed → HasAskedFor B.Body.shows task.old.body task.old.log.task begun (seen_by task.old.fronts task.old.standing task.old.log.log)) ∥₁ }
        ensures begun { IfOk result (λ has_begun. task.new.standing
            ≡ if has_begun then noted (WorldEvent.Begin task.old.standing.number begun) task.old.standing
            else given_up task.old.standing) }
    {
        if !self.may_try(task, Tried::Begun(begun))? {
            return Ok(false);
        }
        task.begin(self.tickets.draw(), begun)?;
        Ok(true)
    }

    /// Begins to spawn a child. The child's memory is taken before the act is looked at.
    fn spawn(
        &self,
        task: &mut Task<B, K>,
        body: B,
        pairs: Phased,
    ) -> Result<Option<Box<Task<B, K>>>, Refusal>
        requires says { ∥ (K.Supposing.supposed → HasAskedToSpawn B.Body.shows task.old.body task.old.log.task pairs (seen_by task.old.fronts task.old.standing task.old.log.log)) ∥₁ }
        requires child { (its : ℕ) → ∥ (K.Supposing.supposed → (own : ℕ → ℕ) → B.Body.shows body its nothing (at_start own (λ n. story_at task.old.fronts n))) ∥₁ }
        ensures acted { OnOk result (HasActed (Replies task.old.fronts) task.old.standing task.new.standing) }
        ensures newborn { IfOk result (λ child. IfSome child (λ c. ∥ c.value.answer ≡ Some Started ∥₁)) }
    {
        let number = self.numbers.task();
        let its = TaskNumber::of(number);
        let Ok(child) = task.child(self.alloc, its, body, self.limits.acts) else {
            self.fail(task, Refusal::Memory)?;
            return Ok(None);
        };
        let has_begun = self.begin(task, Begun::Async(number, pairs))?;
        Ok(if has_begun { Some(child) } else { None })
    }

    /// Asks the body for its next act, and begins it, or makes it.
    pub(crate) fn step<G: Gate, R: Wait>(
        &self,
        gate: &G,
        busy: &mut Busy<'_, B, K, R>,
        item: &mut Item<B, K>,
    ) -> Result<(), Refusal>
        requires { IsDue None item.old.task.value.standing }
        ensures acted { OnOk result (HasActed (Replies item.old.task.value.fronts)
            item.old.task.value.standing item.new.task.value.standing) }
        ensures seat { IsSeatOf busy.old.hand.seat busy.new.hand.seat }
        ensures posted { PostsAtMost 1 busy.old.by.mine busy.new.by.mine }
    {
        let team = Team { shared: self, gate };
        item.unborn = step(&team, busy, &mut item.task)?;
        Ok(())
    }
}

impl<'a, 'b, B: Body, K: RunNaming, G: Gate, R: Wait> Acts<B, Task<B, K>, Busy<'b, B, K, R>>
    for Team<'a, B, K, G> {
    ghost use Rattle.std.specs.Prelude.{Ok};
    ghost use Rattle.std.proofs.Common.{rules, subst};
    ghost use Rattle.tasks_in_flight.specs.Heard.{asked_by, IsSpawned};

    ghost idle = { λ t. IsDue None t.standing };

    /// Its body says so, and so does each child that it spawns by the act.
    ghost asks = { λ act t. ∥ (K.Supposing.supposed → B.Body.shows t.body t.log.task (asked_by (Ok act)) (seen_by t.fronts t.standing t.log.log)) ∥₁
        × ((child : B) (its : ℕ) → IsSpawned child (Ok act)
        → ∥ (K.Supposing.supposed → (own : ℕ → ℕ) → B.Body.shows child its nothing (at_start own (λ n. story_at t.fronts n))) ∥₁) };

    ghost gives = { λ old given. (given.fronts ≡ old.fronts) × (given.standing ≡ old.standing) };

    ghost acts = { λ old new. HasActed (Replies old.fronts) old.standing new.standing };

    ghost bears = { λ _ child. ∥ child.answer ≡ Some Started ∥₁ };

    ghost notes = { λ old new. IsSeatOf old.hand.seat new.hand.seat × PostsAtMost 1 old.by.mine new.by.mine };

    ghost notes_nothing = { Prim.search rules };

    ghost acts_since = { λ old given new same acted. subst (λ k. HasActed (Replies old.fronts) k new.standing) same.1
        (subst (λ fronts. HasActed (Replies fronts) given.standing new.standing) same.0 acted) };

    fn next_act(
        &self,
        worker: &Busy<'b, B, K, R>,
        task: &mut Task<B, K>,
    ) -> Result<Result<Act<B>, Refusal>, Refusal> {
        // No clause says that a task which has begun to end isn't due to be stepped.
        if task.has_ended() {
            return Err(Refusal::NotNow);
        }
        self.gate.enter(worker.number, task.number());
        let given = task.next_act();
        self.gate.leave(worker.number, task.number());
        // Nor that something came of its last act.
        let Some(given) = given else {
            return Err(Refusal::NotNow);
        };
        Ok(given)
    }

    fn refuse_step(
        &self,
        _worker: &mut Busy<'b, B, K, R>,
        task: &mut Task<B, K>,
        refusal: Refusal,
    ) -> Result<(), Refusal> {
        self.shared.fail(task, refusal)
    }

    fn spawn(
        &self,
        _worker: &mut Busy<'b, B, K, R>,
        task: &mut Task<B, K>,
        body: B,
        pairs: Option<Phased>,
    ) -> Result<Option<Box<Task<B, K>>>, Refusal> {
        match pairs {
            Some(pairs) => self.shared.spawn(task, body, pairs),
            None => {
                let pairs = task.standing.pairs();
                self.shared.spawn(task, body, pairs)
            }
        }
    }

    /// The memory that the task needs to know the finish is taken before.
    fn open(&self, worker: &mut Busy<'b, B, K, R>, task: &mut Task<B, K>) -> Result<(), Refusal> {
        if task.reserve_opening().is_err() {
            return self.shared.fail(task, Refusal::Memory);
        }
        let finish = self.shared.numbers.finish();
        if !self.shared.may_try(task, Tried::Open(finish))? {
            return Ok(());
        }
        let opener = TaskNumber::of(task.number());
        self.shared
            .open_on(worker.by.rt, opener, FinishNumber::of(finish))?;
        task.opened(finish)
    }

    fn make(
        &self,
        worker: &mut Busy<'b, B, K, R>,
        task: &mut Task<B, K>,
        mode: Mode,
        ops: Ops,
        bound: Option<Bound>,
    ) -> Result<(), Refusal> {
        let terms = Terms { ops, bound };
        let phaser = self.shared.numbers.phaser();
        if !self.shared.may_try(task, Tried::New(phaser, mode, terms))? {
            return Ok(());
        }
        self.shared
            .make_on(&mut worker.by, task, phaser, mode, &terms)
    }

    fn send(
        &self,
        worker: &mut Busy<'b, B, K, R>,
        task: &mut Task<B, K>,
        phaser: u32,
        accumulator: u8,
        value: i32,
    ) -> Result<(), Refusal> {
        let tried = Tried::Send(phaser, accumulator, value);
        if !self.shared.may_try(task, tried)? {
            return Ok(());
        }
        match self
            .shared
            .send_on(&mut worker.by, task, phaser, accumulator, value)
        {
            Ok(()) => Ok(()),
            Err(refusal) => self.shared.refuse(task, tried, refusal),
        }
    }

    fn look(
        &self,
        worker: &mut Busy<'b, B, K, R>,
        task: &mut Task<B, K>,
        phaser: u32,
        accumulator: u8,
    ) -> Result<(), Refusal> {
        let tried = Tried::Look(phaser, accumulator);
        if !self.shared.may_try(task, tried)? {
            return Ok(());
        }
        match self
            .shared
            .look_on(&mut worker.by, task, phaser, accumulator)
        {
            Ok(()) => Ok(()),
            Err(refusal) => self.shared.refuse(task, tried, refusal),
        }
    }

    fn begin(
        &self,
        _worker: &mut Busy<'b, B, K, R>,
        task: &mut Task<B, K>,
        act: &Act<B>,
    ) -> Result<(), Refusal> {
        let Some(begun) = begun_by(act) else {
            return Err(Refusal::NotNow);
        };
        let _begun = self.shared.begin(task, begun)?;
        Ok(())
    }
}
