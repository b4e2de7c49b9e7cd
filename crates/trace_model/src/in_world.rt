//! A traced event in the world: the event that it is there, and whether a reply makes it, or is what a
//! look saw.
ghost use Rattle.std.specs.Prelude.{◌≡◌};
ghost use Rattle.world_model.specs.Replies.{is_made};
ghost use Rattle.trace_model.specs.Explained.{step_of, event_of, is_seen};

use crate::event::{TracedEvent, TracedStep};
use phase_model::Look;
use phase_modes::Refusal;
use world_model::{Reply, Step, WorldEvent};

pub(crate) fn is_seen(seen: Look, reply: Result<Reply, Refusal>) -> bool
    ensures { result ≡ is_seen seen reply }
{
    match (reply, seen) {
        (Ok(Reply::Value(Look::Value(read))), Look::Value(value)) => read == value,
        (Ok(Reply::Value(Look::Nothing)), Look::Nothing) => true,
        _ => false,
    }
}

pub(crate) fn is_made(reply: Result<Reply, Refusal>) -> bool
    ensures { result ≡ is_made reply }
{
    match reply {
        Err(_) | Ok(Reply::NotYet) => false,
        Ok(_) => true,
    }
}

impl TracedStep {
    /// The step of the world: what a look saw is no part of it.
    pub fn step(&self) -> Step
        ensures { result ≡ step_of self.now }
    {
        match *self {
            TracedStep::Make(task, mode, terms) => Step::Make(task, mode, terms),
            TracedStep::Reg(parent, child, mode) => Step::Reg(parent, child, mode),
            TracedStep::Sig(task, number) => Step::Sig(task, number),
            TracedStep::Claim(task) => Step::Claim(task),
            TracedStep::Did(task) => Step::Did(task),
            TracedStep::Pass(task) => Step::Pass(task),
            TracedStep::Send(task, accumulator, value) => Step::Send(task, accumulator, value),
            TracedStep::Look(task, accumulator, _) => Step::Look(task, accumulator),
            TracedStep::Drop(task) => Step::Drop(task),
        }
    }
}

impl TracedEvent {
    /// The event of the world.
    pub fn event(&self) -> WorldEvent
        ensures { result ≡ event_of self.now }
    {
        match *self {
            TracedEvent::Phaser(phaser, step) => WorldEvent::Phaser(phaser, step.step()),
            TracedEvent::Finish(finish, event) => WorldEvent::Finish(finish, event),
            TracedEvent::Begin(task, act) => WorldEvent::Begin(task, act),
            TracedEvent::Refuse(task, act, number) => WorldEvent::Refuse(task, act, number),
            TracedEvent::Fail(task, number) => WorldEvent::Fail(task, number),
        }
    }
}
