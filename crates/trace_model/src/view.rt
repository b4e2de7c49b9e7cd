//! An event of a trace, read where it stands. Almost all events are short, and are lent as they are
//! kept; a long event is kept apart, and is lent by reference.
ghost use Rattle.std.specs.Prelude.{◌≡◌};
ghost use Rattle.trace_model.specs.Explained.{is_answered, ends_run};
ghost use Rattle.trace_model.specs.Views.{short_step, short_act, viewed};

use crate::event::{TracedEvent, TracedStep};
use crate::in_world::{is_made, is_seen};
use crate::long::LargeEvent;
use finish_core::FinishEvent;
use phase_model::Look;
use phase_modes::{Mode, Refusal};
use world_model::{Begun, Reply};

/// A step on a phaser, but the making of one. The first number is the acting task's, in `Reg` the
/// parent's; in `Saw` the task is the second. Accumulators are numbered from 0.
#[derive(Clone, Copy, Debug, PartialEq, Eq)]
pub enum ShortStep {
    /// The parent registered a child, in this mode.
    Reg(u32, u32, Mode),
    /// The task signalled its phase, with a number if it proposed a single.
    Sig(u32, Option<u32>),
    /// The task claimed the single of its phase.
    Claim(u32),
    /// The task reported the single that it had claimed done.
    Did(u32),
    /// The task ended its turn on this phaser.
    Pass(u32),
    /// The task sent a value to an accumulator.
    Send(u32, u8, i32),
    /// The task looked at an accumulator, and saw this value. The accumulator stands first, and so
    /// takes no room.
    Saw(u8, u32, i64),
    /// The task looked at an accumulator, and saw nothing.
    SawNothing(u32, u8),
    /// The task left the phaser.
    Drop(u32),
}

impl ShortStep {
    /// The step.
    pub fn step(self) -> TracedStep
        ensures { result ≡ short_step self }
    {
        match self {
            ShortStep::Reg(parent, child, mode) => TracedStep::Reg(parent, child, mode),
            ShortStep::Sig(task, number) => TracedStep::Sig(task, number),
            ShortStep::Claim(task) => TracedStep::Claim(task),
            ShortStep::Did(task) => TracedStep::Did(task),
            ShortStep::Pass(task) => TracedStep::Pass(task),
            ShortStep::Send(task, accumulator, value) => TracedStep::Send(task, accumulator, value),
            ShortStep::Saw(accumulator, task, value) => {
                TracedStep::Look(task, accumulator, Look::Value(value))
            }
            ShortStep::SawNothing(task, accumulator) => {
                TracedStep::Look(task, accumulator, Look::Nothing)
            }
            ShortStep::Drop(task) => TracedStep::Drop(task),
        }
    }
}

/// An act that a task begins, but a spawn.
#[derive(Clone, Copy, Debug, PartialEq, Eq)]
pub enum ShortAct {
    /// To signal on each phaser where the task can.
    Signal,
    /// To pass each phaser, having signalled where it can.
    Wait,
    /// To signal where the task can and hasn't, and then to pass each phaser.
    Next,
    /// To propose a statement of this number on its one phaser, and to pass it.
    NextSingle(u32),
    /// To leave the phasers of its innermost own finish, and to shut it.
    Shut,
    /// To leave all phasers, and to end.
    End,
}

impl ShortAct {
    /// The act.
    pub fn act(self) -> Begun
        ensures { result ≡ short_act self }
    {
        match self {
            ShortAct::Signal => Begun::Signal,
            ShortAct::Wait => Begun::Wait,
            ShortAct::Next => Begun::Next,
            ShortAct::NextSingle(number) => Begun::NextSingle(number),
            ShortAct::Shut => Begun::Shut,
            ShortAct::End => Begun::End,
        }
    }
}

/// An event of a trace, which lends it.
#[derive(Clone, Copy, Debug)]
pub enum EventView<'a> {
    /// A step on the phaser of this number.
    Phaser(u32, ShortStep),
    /// An event of the finish of this number.
    Finish(u32, FinishEvent),
    /// An entry of a task's log: it began an act.
    Begin(u32, ShortAct),
    /// An entry: the task gave up what it was about, by the refusal of this number, and ended.
    Fail(u32, u8),
    /// A long event: the making of a phaser, a spawn, or a refusal.
    Long(&'a LargeEvent),
}

impl<'a> EventView<'a> {
    /// The event, which takes the room of the largest of its kinds: a walk does without it.
    pub fn event(self) -> TracedEvent
        ensures { result ≡ viewed self.entry }
    {
        match self {
            EventView::Phaser(phaser, step) => TracedEvent::Phaser(phaser, step.step()),
            EventView::Finish(finish, event) => TracedEvent::Finish(finish, event),
            EventView::Begin(task, act) => TracedEvent::Begin(task, act.act()),
            EventView::Fail(task, number) => TracedEvent::Fail(task, number),
            EventView::Long(event) => event.event(),
        }
    }

    /// Whether a reply makes the event, and answers a look what it saw.
    pub fn is_answered(self, reply: Result<Reply, Refusal>) -> bool
        ensures { result ≡ is_answered (viewed self.entry) reply }
    {
        match self {
            EventView::Phaser(_, ShortStep::Saw(_, _, value)) => is_seen(Look::Value(value), reply),
            EventView::Phaser(_, ShortStep::SawNothing(_, _)) => is_seen(Look::Nothing, reply),
            _ => is_made(reply),
        }
    }

    /// Whether it is the shut of finish 0, with which a run ends.
    pub fn ends_run(self) -> bool
        ensures { result ≡ ends_run (viewed self.entry) }
    {
        match self {
            EventView::Finish(finish, FinishEvent::Shut) => finish == 0,
            _ => false,
        }
    }
}
