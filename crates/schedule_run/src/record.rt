//! The record of a run: its world, and the trace of what the world makes.
ghost use Rattle.std.specs.Prelude.{◌≡◌, ◌+◌, List, [], length, IfOk, IfErr, true};
ghost use Rattle.phase_modes.specs.Limits.{limits_fit};
ghost use Rattle.phase_modes.specs.declared.limits.Limits as limits;
ghost use Rattle.phase_modes.specs.declared.refusal.Refusal.TheVariants.{Memory as NoMemory};
ghost use Rattle.world_model.specs.declared.event.WorldEvent.{WorldEvent as Event};
ghost use Rattle.world_model.specs.Replies.{after, reply};
ghost use Rattle.trace_model.specs.Run.{with_event};
ghost use Rattle.schedule_run.specs.inner.Tracing.{seen, traced_step, traced};
ghost use Rattle.schedule_run.specs.inner.Records.{outcome_of, Records};

use phase_model::Look;
use phase_modes::{Limits, Refusal};
use std::alloc::Global;
use trace_model::{Trace, TracedEvent, TracedStep};
use world_core::World;
use world_model::{Begun, Reply, Step, Tried, WorldEvent};

/// What becomes of an event.
#[derive(Clone, Copy, Debug, PartialEq, Eq)]
pub(crate) enum Outcome {
    /// The world made it, and the trace has it.
    Made,
    /// It may be tried again once others have gone on.
    Waits,
    /// The world refuses it.
    Refused(Refusal),
}

/// The world of a run, and the trace of the events that it made.
#[derive(Drop)]
pub(crate) struct Record {
    pub world: World,
    pub trace: Trace,
}

/// What a look saw, by its answer.
fn seen(reply: &Reply) -> Look
    ensures { result ≡ seen reply.now }
{
    match reply {
        Reply::Value(look) => *look,
        _ => Look::Nothing,
    }
}

/// The step as a trace has it, if it was answered this.
fn traced_step(step: &Step, reply: &Reply) -> TracedStep
    ensures { result ≡ traced_step step.now reply.now }
{
    match step {
        Step::Make(task, mode, terms) => TracedStep::Make(*task, *mode, *terms),
        Step::Reg(parent, child, mode) => TracedStep::Reg(*parent, *child, *mode),
        Step::Sig(task, number) => TracedStep::Sig(*task, *number),
        Step::Claim(task) => TracedStep::Claim(*task),
        Step::Did(task) => TracedStep::Did(*task),
        Step::Pass(task) => TracedStep::Pass(*task),
        Step::Send(task, accumulator, value) => TracedStep::Send(*task, *accumulator, *value),
        Step::Look(task, accumulator) => TracedStep::Look(*task, *accumulator, seen(reply)),
        Step::Drop(task) => TracedStep::Drop(*task),
    }
}

/// The event as a trace has it, if it was answered this.
fn traced(event: &WorldEvent, reply: &Reply) -> TracedEvent
    ensures { result ≡ traced event.now reply.now }
{
    match event {
        WorldEvent::Phaser(phaser, step) => TracedEvent::Phaser(*phaser, traced_step(step, reply)),
        WorldEvent::Finish(finish, step) => TracedEvent::Finish(*finish, *step),
        WorldEvent::Begin(task, begun) => TracedEvent::Begin(*task, *begun),
        WorldEvent::Refuse(task, tried, number) => TracedEvent::Refuse(*task, *tried, *number),
        WorldEvent::Fail(task, number) => TracedEvent::Fail(*task, *number),
    }
}

/// Adds the event to the trace, with the next ticket; the first is 1.
fn add(trace: &mut Trace, event: &WorldEvent, reply: &Reply) -> Result<(), Refusal>
    ensures added { IfOk result (λ _. trace.new
        ≡ with_event trace.old (length trace.old.events + 1, traced event.now reply.now)) }
    ensures memory { IfErr result (λ r. r ≡ NoMemory) }
{
    let ticket = trace.len() as u64 + 1;
    trace.push(ticket, traced(event, reply))
}

impl Record {
    /// A record in which nothing has happened yet.
    pub(crate) fn new(alloc: Global, limits: Limits) -> Result<Record, Refusal>
        requires { limits_fit limits ≡ true }
        ensures stands { IfOk result (λ r. Records limits [] r.world r.trace) }
        ensures memory { IfErr result (λ r. r ≡ NoMemory) }
    {
        let world = World::new(alloc, limits)?;
        let trace = Trace::new(alloc, limits);
        Ok(Record { world, trace })
    }

    /// Makes the event, if the world lets it, and traces it. `Memory` if the trace can't grow:
    /// the world has made the event then.
    pub(crate) fn make(&mut self, event: &WorldEvent) -> Result<Outcome, Refusal>
        ensures outcome { IfOk result (λ o. (l : limits.Limits) (w : List Event)
            → Records l w self.old.world self.old.trace → o ≡ outcome_of (reply l w event.now)) }
        ensures stands { IfOk result (λ _. (l : limits.Limits) (w : List Event)
            → Records l w self.old.world self.old.trace
            → Records l (after w event.now (reply l w event.now)) self.new.world self.new.trace) }
        ensures memory { IfErr result (λ r. r ≡ NoMemory) }
    {
        let reply = match self.world.step(event) {
            Ok(reply) => reply,
            Err(refusal) => return Ok(Outcome::Refused(refusal)),
        };
        if matches!(reply, Reply::NotYet) {
            return Ok(Outcome::Waits);
        }
        add(&mut self.trace, event, &reply)?;
        Ok(Outcome::Made)
    }
}
