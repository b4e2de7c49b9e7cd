//! What a worker makes of the acts that a task's body gives.
ghost use Rattle.std.specs.Prelude.{◌≡◌, Some, IfSome, if◌then◌else◌};
ghost use Rattle.job_script.specs.declared.act.Answer.TheVariants.{Started};
ghost use Rattle.world_model.specs.declared.event.WorldEvent.{WorldEvent};
ghost use Rattle.task_standing.specs.Noted.{noted};
ghost use Rattle.tasks_in_flight.specs.inner.GoingOn.{HasActed, any_step, given_up, tried_by};
ghost use Rattle.live_rt.specs.inner.Says.{AsksFor, AsksToSpawn, IsUnborn, HasStepped};

use crate::driver::Team;
use crate::ended::Ends;
use crate::names::Names;
use crate::shared::{Shared, Worker, one_more};
use crate::task::Task;
use job_script::Act;
use phase_model::{Bound, Ops, Terms};
use phase_modes::{FinishNumber, Mode, Phased, Refusal, TaskNumber};
use std::sync::Wait;
use tasks_in_flight::{Acts, Body, Gate, begun_by};
use world_model::{Begun, Tried};

impl<B: Body, J: Names> Shared<B, J> {
    /// Whether the task may make the act, as far as it knows itself; if it may not, it comes to
    /// its end.
    fn may_try(&self, task: &mut Task<B, J>, tried: &Tried) -> bool
        ensures body { task.new.body ≡ task.old.body }
        ensures places { task.new.places ≡ task.old.places }
        ensures standing { task.new.standing ≡ tried_by result task.old.standing }
    {
        match task.standing.may_make(self.limits, tried) {
            Ok(()) => true,
            Err(refusal) => {
                task.give_up(refusal);
                false
            }
        }
    }

    /// Begins an act that goes on by a plan, if it isn't refused. Once it has ended the
    /// body hears of it, if it hears anything more. Whether it has begun.
    fn begin(&self, task: &mut Task<B, J>, begun: &Begun) -> bool
        requires { ∥ (J.Supposing.supposed → AsksFor B.Body.shows task.old.body begun.now task.old.places task.old.standing) ∥₁ }
        ensures places { task.new.places ≡ task.old.places }
        ensures begun { task.new.standing
            ≡ if result then noted (WorldEvent.Begin task.old.standing.number begun.now) task.old.standing
            else given_up task.old.standing }
    {
        match task.standing.may_begin(self.limits, begun) {
            Ok(()) => {
                task.begin(begun);
                true
            }
            Err(refusal) => {
                task.give_up(refusal);
                false
            }
        }
    }

    /// Begins to spawn a child. The child's memory is taken before the act is looked at.
    fn spawn(&self, task: &mut Task<B, J>, body: B, pairs: Phased) -> Option<Box<Task<B, J>>>
        requires says { ∥ (J.Supposing.supposed → AsksToSpawn B.Body.shows task.old.body body pairs task.old.places task.old.standing) ∥₁ }
        ensures acted { HasActed any_step task.old.standing task.new.standing }
        ensures newborn { IfSome result (λ c. ∥ c.value.answer ≡ Some Started ∥₁) }
        ensures says { IfSome result (λ c. ∥ (J.Supposing.supposed
            → IsUnborn B.Body.shows c.value.body c.value.standing.number c.value.places task.new.places) ∥₁) }
    {
        let number = self.child_number(task.standing.number());
        let home = FinishNumber::of(task.standing.inner());
        let its = TaskNumber::of(number);
        let Ok(child) = Task::new(self.alloc, its, body, home) else {
            task.give_up(Refusal::Memory);
            return None;
        };
        if self.begin(task, &Begun::Async(number, pairs)) {
            Some(child)
        } else {
            None
        }
    }
}

impl<'a, B: Body, J: Names, E: Ends<B>, G: Gate, R: Wait> Acts<B, Task<B, J>, Worker<B, J>>
    for Team<'a, B, J, E, G, R> {
    ghost use Rattle.std.specs.Prelude.{Ok, None};
    ghost use Rattle.std.proofs.Common.{subst};
    ghost use Rattle.tasks_in_flight.specs.inner.Ready.{IsDue};

    ghost idle = { λ t. IsDue None t.standing };

    ghost asks = { λ act t. ∥ (J.Supposing.supposed → HasStepped B.Body.shows t.body (Ok act) t.places t.standing) ∥₁ };

    ghost gives = { λ old given. given.standing ≡ old.standing };

    ghost acts = { λ old new. HasActed any_step old.standing new.standing };

    ghost bears = { λ t child. ∥ child.answer ≡ Some Started ∥₁
        × ∥ (J.Supposing.supposed → IsUnborn B.Body.shows child.body child.standing.number child.places t.places) ∥₁ };

    ghost notes_nothing = { λ w. tt };

    ghost acts_since = { λ old given new same acted. subst (λ k. HasActed any_step k new.standing) same acted };

    /// Inlined, what the body gives would be copied field by field.
    #[inline(never)]
    fn next_act(
        &self,
        worker: &Worker<B, J>,
        task: &mut Task<B, J>,
    ) -> Result<Result<Act<B>, Refusal>, Refusal> {
        self.gate.enter(worker.number, task.standing.number());
        let given = task.next_act();
        self.gate.leave(worker.number, task.standing.number());
        // No clause says that something came of its last act.
        let Some(given) = given else {
            return Err(Refusal::NotNow);
        };
        Ok(given)
    }

    fn refuse_step(
        &self,
        _worker: &mut Worker<B, J>,
        task: &mut Task<B, J>,
        refusal: Refusal,
    ) -> Result<(), Refusal> {
        task.give_up(refusal);
        Ok(())
    }

    fn spawn(
        &self,
        _worker: &mut Worker<B, J>,
        task: &mut Task<B, J>,
        body: B,
        pairs: Option<Phased>,
    ) -> Result<Option<Box<Task<B, J>>>, Refusal> {
        match pairs {
            Some(pairs) => Ok(self.shared.spawn(task, body, pairs)),
            None => {
                let pairs = task.standing.pairs();
                Ok(self.shared.spawn(task, body, pairs))
            }
        }
    }

    /// The memory that the task needs to know the finish is taken before.
    fn open(&self, _worker: &mut Worker<B, J>, task: &mut Task<B, J>) -> Result<(), Refusal> {
        if task.reserve_opening().is_err() {
            task.give_up(Refusal::Memory);
            return Ok(());
        }
        if !self.shared.may_try(task, &Tried::Open(0)) {
            return Ok(());
        }
        let opener = task.standing.number() as u64;
        match self.shared.finishes.open(self.rt, opener) {
            Ok(finish) => task.opened(finish),
            Err(refusal) => {
                task.give_up(refusal);
                Ok(())
            }
        }
    }

    /// A phaser has to have a bound: `NotNow` if it has none.
    fn make(
        &self,
        worker: &mut Worker<B, J>,
        task: &mut Task<B, J>,
        mode: Mode,
        ops: Ops,
        bound: Option<Bound>,
    ) -> Result<(), Refusal> {
        let terms = Terms { ops, bound };
        // Which number it gets is known once it is there; 0 is below every limit.
        if !self.shared.may_try(task, &Tried::New(0, mode, terms)) {
            return Ok(());
        }
        match self.shared.make_on(self.rt, task, mode, &terms) {
            Ok(()) => one_more(&mut worker.sums.totals.registered),
            Err(refusal) => task.give_up(refusal),
        }
        Ok(())
    }

    fn send(
        &self,
        worker: &mut Worker<B, J>,
        task: &mut Task<B, J>,
        phaser: u32,
        accumulator: u8,
        value: i32,
    ) -> Result<(), Refusal> {
        match self
            .shared
            .send_on(self.rt, task, phaser, accumulator, value)
        {
            Ok(()) => worker.sums.sent(value),
            Err(refusal) => task.give_up(refusal),
        }
        Ok(())
    }

    fn look(
        &self,
        _worker: &mut Worker<B, J>,
        task: &mut Task<B, J>,
        phaser: u32,
        accumulator: u8,
    ) -> Result<(), Refusal> {
        match self.shared.look_on(self.rt, task, phaser, accumulator) {
            Ok(()) => {}
            Err(refusal) => task.give_up(refusal),
        }
        Ok(())
    }

    fn begin(
        &self,
        _worker: &mut Worker<B, J>,
        task: &mut Task<B, J>,
        act: &Act<B>,
    ) -> Result<(), Refusal> {
        let Some(begun) = begun_by(act) else {
            return Err(Refusal::NotNow);
        };
        let _begun = self.shared.begin(task, &begun);
        Ok(())
    }
}
