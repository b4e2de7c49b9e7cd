//! The calls on phasers and finishes behind their locks, for the tasks that hold them. Those whom a call
//! wakes are given to the queue before it answers.
ghost use Rattle.std.specs.Prelude.{◌≡◌, ◌<◌, Some, IfOk, OnOk, OnErr};
ghost use Rattle.phase_model.specs.declared.terms.Terms.{Terms};
ghost use Rattle.world_model.specs.declared.event.Step.TheVariants.{Sig};
ghost use Rattle.task_standing.specs.Standing.{acted, registered_by};
ghost use Rattle.task_standing.specs.StillToMake.{event_of};
ghost use Rattle.tasks_in_flight.specs.Heard.{make, send, look};
ghost use Rattle.tasks_in_flight.specs.inner.GoingOn.{HasActed, IsOfSignal, IsOfPass, any_step};
ghost use Rattle.tasks_in_flight.specs.inner.Ready.{IsDue};
ghost use Rattle.live_rt.specs.inner.Places.{spot, in_slot};
ghost use Rattle.live_rt.specs.inner.Says.{Asks};

use crate::names::Names;
use crate::places::Place;
use crate::shared::{Shared, Worker, one_more};
use crate::task::{Item, Task};
use phase_model::{LongLook, Look, Terms};
use phase_modes::{Mode, Pair, Refusal};
use phaser_core::{PassAnswer, Phase, SignalAnswer};
use std::sync::Wait;
use task_standing::Due;
use tasks_in_flight::Body;

/// The same look by 64 bits; `HistoryFull` if they have no room for its sum, which takes 2^32 values of a
/// phase.
fn narrow(look: LongLook) -> Result<Look, Refusal>
    ensures { IfOk result (λ r. r ≡ look) }
{
    match look {
        Look::Nothing => Ok(Look::Nothing),
        Look::Value(value) => match i64::try_from(value) {
            Ok(value) => Ok(Look::Value(value)),
            Err(_) => Err(Refusal::HistoryFull),
        },
    }
}

impl<B: Body, J: Names> Shared<B, J> {
    /// A copy of the place of this phaser among those that the task holds, whose slot the table has.
    /// `NotRegistered` if there is none.
    fn held(&self, task: &mut Task<B, J>, phaser: u32) -> Result<Place<J>, Refusal>
        ensures place { IfOk result (λ p. in_slot phaser task.old.places ≡ Some (spot p.at p.me p.seen.items)) }
        ensures slot { IfOk result (λ p. (p.at.slot ≡ phaser) × (p.at.slot < self.now.phasers.slots)) }
        ensures body { task.new.body ≡ task.old.body }
        ensures answer { task.new.answer ≡ task.old.answer }
        ensures standing { task.new.standing ≡ task.old.standing }
        ensures places { task.new.places ≡ task.old.places }
    {
        match task.place(phaser) {
            Some(place) if (place.at.slot as usize) < self.phasers.slots => Ok(place),
            _ => Err(Refusal::NotRegistered),
        }
    }

    /// The body hears of the phaser that was made. `NotNow` if it would have no bound.
    pub(crate) fn make_on<R: Wait>(
        &self,
        rt: &R,
        task: &mut Task<B, J>,
        mode: Mode,
        terms: &Terms,
    ) -> Result<(), Refusal>
        requires says { ∥ (J.Supposing.supposed → Asks B.Body.shows task.old.body (make mode terms.now) task.old.places task.old.standing) ∥₁ }
        ensures acted { OnOk result (HasActed any_step task.old.standing task.new.standing) }
        ensures refused { OnErr result (task.new.standing ≡ task.old.standing) }
    {
        let Some(bound) = terms.bound else {
            return Err(Refusal::NotNow);
        };
        let (at, seen, me) = self.phasers.open(rt, self.alloc, terms.ops, bound, mode)?;
        task.made(Place::new(at, me, seen), mode)
    }

    /// The task registers its unborn child.
    pub(crate) fn register_on<R: Wait>(
        &self,
        rt: &R,
        item: &mut Item<B, J>,
        pair: Pair,
    ) -> Result<(), Refusal>
        ensures registered { OnOk result (item.new.task.value.standing
            ≡ record item.old.task.value.standing { plan = registered_by item.old.task.value.standing.plan }) }
        ensures refused { OnErr result (item.new.task.value.standing ≡ item.old.task.value.standing) }
    {
        let mut place = self.held(&mut item.task, pair.phaser)?;
        let (at, me) = (place.at, place.me);
        let child = self
            .phasers
            .register(rt, at, &mut place.seen, me, pair.mode)?;
        let seen = place.seen.again();
        item.note_registration(pair, Place::new(at, child, seen))?;
        item.task.registered(place);
        Ok(())
    }

    /// The body hears that the value was sent.
    pub(crate) fn send_on<R: Wait>(
        &self,
        rt: &R,
        task: &mut Task<B, J>,
        phaser: u32,
        accumulator: u8,
        value: i32,
    ) -> Result<(), Refusal>
        requires says { ∥ (J.Supposing.supposed → Asks B.Body.shows task.old.body (send phaser accumulator value) task.old.places task.old.standing) ∥₁ }
        ensures acted { OnOk result (task.new.standing ≡ acted task.old.standing) }
        ensures refused { OnErr result (task.new.standing ≡ task.old.standing) }
    {
        let mut place = self.held(task, phaser)?;
        let (at, me) = (place.at, place.me);
        self.phasers
            .send(rt, at, &mut place.seen, me, accumulator, value)?;
        task.sent(place);
        Ok(())
    }

    /// The body hears what was seen. `HistoryFull` if the sum has no room in 64 bits.
    pub(crate) fn look_on<R: Wait>(
        &self,
        rt: &R,
        task: &mut Task<B, J>,
        phaser: u32,
        accumulator: u8,
    ) -> Result<(), Refusal>
        requires says { ∥ (J.Supposing.supposed → Asks B.Body.shows task.old.body (look phaser accumulator) task.old.places task.old.standing) ∥₁ }
        ensures acted { OnOk result (task.new.standing ≡ acted task.old.standing) }
        ensures refused { OnErr result (task.new.standing ≡ task.old.standing) }
    {
        let mut place = self.held(task, phaser)?;
        let (at, me) = (place.at, place.me);
        let seen = self.phasers.look(rt, at, &mut place.seen, me, accumulator)?;
        let seen = narrow(seen)?;
        task.looked(place, seen);
        Ok(())
    }

    /// The item comes back, or it is parked.
    pub(crate) fn signal_on<R: Wait>(
        &self,
        rt: &R,
        worker: &mut Worker<B, J>,
        item: Item<B, J>,
        phaser: u32,
        proposed: Option<u32>,
    ) -> Result<SignalAnswer<Item<B, J>>, Refusal>
        requires { IsDue (event_of item.task.value.standing.number (Due.Signal phaser proposed)) item.task.value.standing }
        ensures told { IfOk result (IsOfSignal (λ i. i.task.value.standing) item.task.value.standing
            any_step phaser (Sig item.task.value.standing.number proposed)) }
    {
        let mut item = item;
        let mut place = match self.held(&mut item.task, phaser) {
            Ok(place) => place,
            Err(refusal) => return Ok(SignalAnswer::Refused(item, refusal)),
        };
        let (at, me) = (place.at, place.me);
        let Worker { hand, out, .. } = worker;
        let answer = self
            .phasers
            .signal(rt, at, &mut place.seen, out, me, proposed, item);
        hand.flush(rt, &self.queue, out)?;
        match answer {
            SignalAnswer::Signalled(signalled) => {
                let mut item = signalled;
                item.task.signalled(place, proposed);
                Ok(SignalAnswer::Signalled(item))
            }
            other => Ok(other),
        }
    }

    /// The item comes back, or it is parked.
    pub(crate) fn pass_on<R: Wait>(
        &self,
        rt: &R,
        worker: &mut Worker<B, J>,
        item: Item<B, J>,
        phaser: u32,
    ) -> Result<PassAnswer<Item<B, J>, Phase>, Refusal>
        requires { IsDue (event_of item.task.value.standing.number (Due.Pass phaser)) item.task.value.standing }
        ensures told { IfOk result (IsOfPass (λ i. i.task.value.standing) item.task.value.standing
            any_step phaser item.task.value.standing.number) }
    {
        let mut item = item;
        let mut place = match self.held(&mut item.task, phaser) {
            Ok(place) => place,
            Err(refusal) => return Ok(PassAnswer::Refused(item, refusal)),
        };
        let (at, me) = (place.at, place.me);
        let Worker { hand, out, .. } = worker;
        let answer = self.phasers.pass(rt, at, &mut place.seen, out, me, item);
        hand.flush(rt, &self.queue, out)?;
        match answer {
            PassAnswer::Passed(passed, phase) => {
                let mut item = passed;
                item.task.passed(place);
                Ok(PassAnswer::Passed(item, phase))
            }
            other => Ok(other),
        }
    }

    /// The task has run the statement that it claimed.
    pub(crate) fn report_on<R: Wait>(
        &self,
        rt: &R,
        worker: &mut Worker<B, J>,
        task: &mut Task<B, J>,
        phaser: u32,
    ) -> Result<(), Refusal>
        ensures body { task.new.body ≡ task.old.body }
        ensures places { task.new.places ≡ task.old.places }
        ensures standing { task.new.standing ≡ task.old.standing }
    {
        let mut place = self.held(task, phaser)?;
        let (at, me) = (place.at, place.me);
        let Worker { hand, out, .. } = worker;
        self.phasers.single_done(rt, at, &mut place.seen, out, me)?;
        hand.flush(rt, &self.queue, out)
    }

    /// The task leaves the phaser, which is gone with its last task. What it knows of itself stays.
    pub(crate) fn leave_on<R: Wait>(
        &self,
        rt: &R,
        worker: &mut Worker<B, J>,
        task: &mut Task<B, J>,
        phaser: u32,
    ) -> Result<(), Refusal>
        ensures body { task.new.body ≡ task.old.body }
        ensures answer { task.new.answer ≡ task.old.answer }
        ensures standing { task.new.standing ≡ task.old.standing }
        ensures places { task.new.places ≡ task.old.places }
    {
        let mut place = self.held(task, phaser)?;
        let (at, me) = (place.at, place.me);
        let Worker { hand, out, .. } = worker;
        let _gone = self.phasers.leave(rt, at, &mut place.seen, out, me)?;
        hand.flush(rt, &self.queue, out)?;
        one_more(&mut worker.sums.totals.drops);
        Ok(())
    }

    /// The task has ended in this finish, whose owner may go on by that.
    pub(crate) fn end_on<R: Wait>(
        &self,
        rt: &R,
        worker: &mut Worker<B, J>,
        finish: u32,
    ) -> Result<(), Refusal> {
        let Worker { hand, out, .. } = worker;
        let ended = self.finishes.ended(rt, finish, out);
        hand.flush(rt, &self.queue, out)?;
        ended
    }
}
