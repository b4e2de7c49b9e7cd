//! An event as a trace keeps it. Almost all events are short, so a long one is kept apart, and stands
//! here by its place there.
ghost use Rattle.std.specs.Prelude.{◌≡◌, List, length, IfOk, IfErr};
ghost use Rattle.trace_model.specs.declared.long.LargeEvent as longs;
ghost use Rattle.trace_model.specs.Views.{long_event, short_act, short_step, viewed};
ghost use Rattle.trace_model.specs.inner.Kept.{event_kept, IsWithin, Keeps};

use crate::event::{TracedEvent, TracedStep};
use crate::long::LargeEvent;
use crate::view::{EventView, ShortAct, ShortStep};
use finish_core::FinishEvent;
use phase_model::Look;
use world_model::Begun;

/// An event as a trace keeps it.
#[derive(Clone, Copy, Debug, PartialEq, Eq)]
pub(crate) enum Kept {
    Phaser(u32, ShortStep),
    Finish(u32, FinishEvent),
    Begin(u32, ShortAct),
    Fail(u32, u8),
    /// A long event, by its place among these.
    Long(usize),
}

/// The short form of a step on a phaser; the making of one is long.
fn short_step(phaser: u32, step: &TracedStep) -> Result<ShortStep, LargeEvent>
    ensures short { IfOk result (λ s. short_step s ≡ step.now) }
    ensures long { IfErr result (λ e. long_event e ≡ TracedEvent.Phaser phaser step.now) }
{
    match *step {
        TracedStep::Make(task, mode, terms) => Err(LargeEvent::Make(phaser, task, mode, terms)),
        TracedStep::Reg(parent, child, mode) => Ok(ShortStep::Reg(parent, child, mode)),
        TracedStep::Sig(task, number) => Ok(ShortStep::Sig(task, number)),
        TracedStep::Claim(task) => Ok(ShortStep::Claim(task)),
        TracedStep::Did(task) => Ok(ShortStep::Did(task)),
        TracedStep::Pass(task) => Ok(ShortStep::Pass(task)),
        TracedStep::Send(task, accumulator, value) => Ok(ShortStep::Send(task, accumulator, value)),
        TracedStep::Look(task, accumulator, Look::Value(value)) => {
            Ok(ShortStep::Saw(accumulator, task, value))
        }
        TracedStep::Look(task, accumulator, Look::Nothing) => {
            Ok(ShortStep::SawNothing(task, accumulator))
        }
        TracedStep::Drop(task) => Ok(ShortStep::Drop(task)),
    }
}

/// The short form of an act that a task begins; a spawn is long.
fn short_act(task: u32, act: &Begun) -> Result<ShortAct, LargeEvent>
    ensures short { IfOk result (λ s. short_act s ≡ act.now) }
    ensures long { IfErr result (λ e. long_event e ≡ TracedEvent.Begin task act.now) }
{
    match *act {
        Begun::Async(child, pairs) => Err(LargeEvent::Async(task, child, pairs)),
        Begun::Signal => Ok(ShortAct::Signal),
        Begun::Wait => Ok(ShortAct::Wait),
        Begun::Next => Ok(ShortAct::Next),
        Begun::NextSingle(number) => Ok(ShortAct::NextSingle(number)),
        Begun::Shut => Ok(ShortAct::Shut),
        Begun::End => Ok(ShortAct::End),
    }
}

impl Kept {
    /// The short form of an event, or the long event that it is.
    pub(crate) fn of(event: &TracedEvent) -> Result<Kept, LargeEvent>
        ensures short { IfOk result (λ k. (long : List longs.LargeEvent) → Keeps long k event.now) }
        ensures long { IfErr result (λ e. long_event e ≡ event.now) }
    {
        match event {
            TracedEvent::Phaser(phaser, step) => {
                Ok(Kept::Phaser(*phaser, short_step(*phaser, step)?))
            }
            TracedEvent::Finish(finish, event) => Ok(Kept::Finish(*finish, *event)),
            TracedEvent::Begin(task, act) => Ok(Kept::Begin(*task, short_act(*task, act)?)),
            TracedEvent::Refuse(task, act, number) => {
                Err(LargeEvent::Refuse(*task, *act, *number))
            }
            TracedEvent::Fail(task, number) => Ok(Kept::Fail(*task, *number)),
        }
    }

    /// The event as it is lent, if these are the long ones.
    pub(crate) fn view(self, long: &[LargeEvent]) -> EventView<'_>
        requires { IsWithin (length long.now) self }
        ensures { viewed result ≡ event_kept long.now self }
    {
        match self {
            Kept::Phaser(phaser, step) => EventView::Phaser(phaser, step),
            Kept::Finish(finish, event) => EventView::Finish(finish, event),
            Kept::Begin(task, act) => EventView::Begin(task, act),
            Kept::Fail(task, number) => EventView::Fail(task, number),
            Kept::Long(place) => EventView::Long(&long[place]),
        }
    }
}
