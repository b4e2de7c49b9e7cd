//! How a worker drives a task, event by event.
ghost use Rattle.std.specs.Prelude.{◌≡◌, None, IfSome, option_map};
ghost use Rattle.task_standing.specs.StillToMake.{event_of};
ghost use Rattle.tasks_in_flight.specs.inner.GoingOn.{GoesBy, HasGoneOn, IfGoesOn, any_step, given_up};
ghost use Rattle.tasks_in_flight.specs.inner.Ready.{IsDue};
ghost use Rattle.live_rt.specs.Said.{Tells};

use crate::ended::Ends;
use crate::names::Names;
use crate::shared::{Shared, Worker, one_more};
use crate::task::{Item, RootLeft, Task};
use finish_core::ShutAnswer;
use phase_modes::{Pair, Refusal};
use phaser_core::{PassAnswer, SignalAnswer};
use std::marker::PhantomData;
use std::sync::Wait;
use task_standing::Due;
use tasks_in_flight::{Body, Crew, Gate, step, told};

/// How many steps and events of a task a worker makes before it takes another, if there is one. A
/// task that parks or ends makes fewer. So the queue is asked once for many events, and whoever
/// stands in it comes on soon.
const STRETCH: u32 = 64;

/// A task that goes on; none if it is parked or has ended.
type Next<B, J> = Option<Item<B, J>>;

/// What all workers share, who hears of the tasks' ends, and the gate round each step.
#[derive(Drop)]
pub(crate) struct Team<'a, B: Body, J: Names, E: Ends<B>, G: Gate, R: Wait> {
    pub(crate) rt: &'a R,
    pub(crate) shared: &'a Shared<B, J>,
    pub(crate) ends: &'a E,
    pub(crate) gate: &'a G,
    ghost tells: { ∥ Tells J.Supposing.supposed B.Body.shows E.Ends.told ∥₁ },
}

/// The task gives up by this refusal.
fn gives_up<B: Body, J: Names>(item: Item<B, J>, refusal: Refusal) -> Next<B, J>
    ensures { IfSome result (λ next. next.task.value.standing ≡ given_up item.task.value.standing) }
{
    let mut item = item;
    item.task.give_up(refusal);
    Some(item)
}

impl<'a, B: Body, J: Names, E: Ends<B>, G: Gate, R: Wait> Team<'a, B, J, E, G, R> {
    /// Runs the statement that the task has claimed, and reports it done. The pass comes again.
    fn run_single(
        &self,
        worker: &mut Worker<B, J>,
        item: Item<B, J>,
        phaser: u32,
        number: u32,
    ) -> Result<Next<B, J>, Refusal>
        ensures ran { IfGoesOn result (λ next. B.Body.ran item.task.value.body number next.task.value.body) }
        ensures standing { IfGoesOn result (λ next. next.task.value.standing ≡ item.task.value.standing) }
    {
        let mut item = item;
        item.task.run_single(number);
        self.shared
            .report_on(self.rt, worker, &mut item.task, phaser)?;
        Ok(Some(item))
    }

    /// Asks the body for its next act, and begins it, or makes it.
    fn step(&self, worker: &mut Worker<B, J>, item: Item<B, J>) -> Result<Next<B, J>, Refusal>
        requires { IsDue None item.task.value.standing }
        ensures made { IfGoesOn result (λ next. GoesBy any_step Due.Step item.task.value.standing next.task.value.standing) }
    {
        let mut item = item;
        // No clause says that a task which spawns a child isn't due to be stepped.
        if item.unborn.is_some() {
            return Err(Refusal::NotNow);
        }
        item.unborn = step(self, worker, &mut item.task)?;
        Ok(Some(item))
    }

    /// A task that is parked signals again once it is woken: its signal is still due.
    fn signal(
        &self,
        worker: &mut Worker<B, J>,
        item: Item<B, J>,
        phaser: u32,
        number: Option<u32>,
    ) -> Result<Next<B, J>, Refusal>
        requires { IsDue (event_of item.task.value.standing.number (Due.Signal phaser number)) item.task.value.standing }
        ensures made { IfGoesOn result (λ next. GoesBy any_step (Due.Signal phaser number) item.task.value.standing next.task.value.standing) }
    {
        match self
            .shared
            .signal_on(self.rt, worker, item, phaser, number)?
        {
            SignalAnswer::Signalled(signalled) => {
                one_more(&mut worker.sums.totals.signals);
                Ok(Some(signalled))
            }
            SignalAnswer::Parked => Ok(None),
            SignalAnswer::Refused(item, refusal) => Ok(gives_up(item, refusal)),
        }
    }

    fn pass(
        &self,
        worker: &mut Worker<B, J>,
        item: Item<B, J>,
        phaser: u32,
    ) -> Result<Next<B, J>, Refusal>
        requires { IsDue (event_of item.task.value.standing.number (Due.Pass phaser)) item.task.value.standing }
        ensures made { IfGoesOn result (λ next. GoesBy any_step (Due.Pass phaser) item.task.value.standing next.task.value.standing) }
    {
        match self.shared.pass_on(self.rt, worker, item, phaser)? {
            PassAnswer::Passed(passed, _) => {
                one_more(&mut worker.sums.totals.passes);
                Ok(Some(passed))
            }
            PassAnswer::Claimed(item, number) => self.run_single(worker, item, phaser, number),
            PassAnswer::Parked => Ok(None),
            PassAnswer::Refused(item, refusal) => Ok(gives_up(item, refusal)),
        }
    }

    /// The unborn child is registered for the next pair. Its number is for the clause alone.
    fn register(
        &self,
        worker: &mut Worker<B, J>,
        item: Item<B, J>,
        _child: u32,
        pair: Pair,
    ) -> Result<Next<B, J>, Refusal>
        ensures made { IfGoesOn result (λ next. GoesBy any_step (Due.Register _child pair) item.task.value.standing next.task.value.standing) }
    {
        let mut item = item;
        match self.shared.register_on(self.rt, &mut item, pair) {
            Ok(()) => {
                one_more(&mut worker.sums.totals.registered);
                Ok(Some(item))
            }
            Err(refusal) => Ok(gives_up(item, refusal)),
        }
    }

    /// The child is born, and any worker may run it.
    fn bear(
        &self,
        worker: &mut Worker<B, J>,
        item: Item<B, J>,
        child: u32,
        finish: u32,
    ) -> Result<Next<B, J>, Refusal>
        requires { IsDue (event_of item.task.value.standing.number (Due.Spawn child finish)) item.task.value.standing }
        ensures made { IfGoesOn result (λ next. GoesBy any_step (Due.Spawn child finish) item.task.value.standing next.task.value.standing) }
    {
        let Item { task, unborn } = item;
        let mut task = task;
        let Some(born) = unborn else {
            return Err(Refusal::NotNow);
        };
        self.shared.finishes.spawned(self.rt, finish)?;
        one_more(&mut worker.sums.spawned);
        task.bore();
        worker
            .hand
            .give(self.rt, &self.shared.queue, Item::of(born))?;
        Ok(Some(Item::of(task)))
    }

    /// The unborn child is taken off a phaser.
    fn drop_child(
        &self,
        worker: &mut Worker<B, J>,
        item: Item<B, J>,
        phaser: u32,
        child: u32,
    ) -> Result<Next<B, J>, Refusal>
        ensures made { IfGoesOn result (λ next. GoesBy any_step (Due.DropChild phaser child) item.task.value.standing next.task.value.standing) }
    {
        let mut item = item;
        // No clause says that a child has another number than its parent.
        if child == item.task.standing.number() {
            return Err(Refusal::NotNow);
        }
        let Some(unborn) = &mut item.unborn else {
            return Err(Refusal::NotNow);
        };
        self.shared.leave_on(self.rt, worker, unborn, phaser)?;
        item.note_child_gone(phaser);
        Ok(Some(item))
    }

    /// The task leaves a phaser.
    fn leave(
        &self,
        worker: &mut Worker<B, J>,
        item: Item<B, J>,
        phaser: u32,
    ) -> Result<Next<B, J>, Refusal>
        requires { IsDue (event_of item.task.value.standing.number (Due.Leave phaser)) item.task.value.standing }
        ensures made { IfGoesOn result (λ next. GoesBy any_step (Due.Leave phaser) item.task.value.standing next.task.value.standing) }
    {
        let mut item = item;
        self.shared
            .leave_on(self.rt, worker, &mut item.task, phaser)?;
        item.task.left(phaser);
        Ok(Some(item))
    }

    fn shut(&self, item: Item<B, J>, finish: u32) -> Result<Next<B, J>, Refusal>
        ensures made { IfGoesOn result (λ next. GoesBy any_step (Due.Shut finish) item.task.value.standing next.task.value.standing) }
    {
        // No clause says that finish 0 is shut by the root's end alone.
        if finish == 0 {
            return Err(Refusal::NotNow);
        }
        match self.shared.finishes.shut(self.rt, finish, item) {
            ShutAnswer::Done(shut) => {
                let mut item = shut;
                item.task.shut();
                Ok(Some(item))
            }
            ShutAnswer::Parked => Ok(None),
            ShutAnswer::Refused(_, refusal) => Err(refusal),
        }
    }

    /// The task ends, of which is heard first, and then its finish knows.
    fn end(
        &self,
        worker: &mut Worker<B, J>,
        item: Item<B, J>,
        finish: u32,
    ) -> Result<Next<B, J>, Refusal>
        ensures over { IfGoesOn result (λ _. ⊥) }
    {
        let Item { task, unborn: _ } = item;
        let Task {
            body,
            ends,
            refused,
            ..
        } = Box::into_inner(task);
        // No clause says that a task which ends was asked to, if it was refused nothing.
        if !ends && refused.is_none() {
            return Err(Refusal::NotNow);
        }
        worker.sums.ended(refused);
        self.ends.ended(body, refused);
        self.shared.end_on(self.rt, worker, finish)?;
        Ok(None)
    }

    /// The root shuts finish 0: the run is over, and what the root leaves is its worker's.
    fn close(&self, worker: &mut Worker<B, J>, item: Item<B, J>) -> Result<Next<B, J>, Refusal>
        ensures over { IfGoesOn result (λ _. ⊥) }
    {
        match self.shared.finishes.shut(self.rt, 0, item) {
            ShutAnswer::Done(item) => {
                let Item { task, unborn: _ } = item;
                // No clause says that a lock gives back the task that was parked there.
                if task.standing.number() > 0 {
                    return Err(Refusal::NotNow);
                }
                let Task { body, refused, .. } = Box::into_inner(task);
                worker.sums.ended(refused);
                worker.root = Some(RootLeft {
                    body,
                    refused,
                    of: PhantomData,
                });
                self.shared.queue.close(self.rt);
                Ok(None)
            }
            ShutAnswer::Parked => Ok(None),
            ShutAnswer::Refused(_, refusal) => Err(refusal),
        }
    }

    /// Makes the event that comes next, or asks the body for an act.
    fn go_on(&self, worker: &mut Worker<B, J>, item: Item<B, J>) -> Result<Next<B, J>, Refusal>
        ensures goes { IfGoesOn result (λ next. HasGoneOn any_step (option_map (λ c. c.value.standing) item.unborn)
            item.task.value.standing next.task.value.standing) }
    {
        match item.due() {
            Due::Step => self.step(worker, item),
            Due::Signal(phaser, number) => self.signal(worker, item, phaser, number),
            Due::Pass(phaser) => self.pass(worker, item, phaser),
            Due::Register(child, pair) => self.register(worker, item, child, pair),
            Due::Spawn(child, finish) => self.bear(worker, item, child, finish),
            Due::DropChild(phaser, child) => self.drop_child(worker, item, phaser, child),
            Due::Leave(phaser) => self.leave(worker, item, phaser),
            Due::Shut(finish) => self.shut(item, finish),
            Due::End(finish) => self.end(worker, item, finish),
            Due::Close => self.close(worker, item),
        }
    }

    /// Drives the task until it parks or ends, or for as long as a stretch is; then it waits in the
    /// queue for its next one.
    fn drive(&self, worker: &mut Worker<B, J>, item: Item<B, J>) -> Result<(), Refusal> {
        let mut driven = item;
        for _event in 0..STRETCH {
            match self.go_on(worker, driven)? {
                Some(item) => driven = item,
                None => return Ok(()),
            }
        }
        worker.hand.give(self.rt, &self.shared.queue, driven)
    }
}

impl<'a, B: Body, J: Names, E: Ends<B>, G: Gate, R: Wait> Crew<Worker<B, J>>
    for Team<'a, B, J, E, G, R> {
    /// Takes tasks and drives them, until the queue is closed. If something is amiss, the queue
    /// is closed first, so that nobody waits at it for ever.
    fn work<X: Wait>(&self, rt: &X, worker: Worker<B, J>) -> Result<Worker<B, J>, Refusal> {
        let mut worker = worker;
        for _ in rt.forever() {
            let Some(item) = worker.hand.next(rt, &self.shared.queue) else {
                return Ok(worker);
            };
            if let Err(refusal) = self.drive(&mut worker, item) {
                self.shared.queue.close(rt);
                return Err(told(refusal));
            }
            self.shared.pulses.note(worker.number, &worker.sums);
            self.ends.beat(&self.shared.pulses);
        }
        unreachable!()
    }
}
