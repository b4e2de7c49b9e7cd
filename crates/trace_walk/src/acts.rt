//! Acts as the world knows them: the one that a body gives, and the one that an event makes or
//! refuses, with the numbers that it draws.
ghost use Rattle.std.specs.Prelude.{◌≡◌, Some, option_map};
ghost use Rattle.trace_walk.specs.Follows.{drawn};
ghost use Rattle.trace_walk.specs.Picks.{event_of as event_made};
ghost use Rattle.trace_model.specs.Explained.{event_of};
ghost use Rattle.trace_model.specs.Views.{long_event, viewed};
ghost use Rattle.trace_walk.specs.Scripts.{act_of};
ghost use Rattle.trace_walk.specs.Given.{made_view, numbers_view, tried_of};

use finish_core::FinishEvent;
use job_script::Act;
use phase_model::Terms;
use phase_modes::Phased;
use trace_model::{EventView, LargeEvent, ShortStep};
use world_model::{Begun, Step, Tried, WorldEvent};

/// An act that a task made or was refused.
#[derive(Clone, Copy, Debug, PartialEq, Eq)]
pub(crate) struct MadeAct {
    pub task: u32,
    pub act: Tried,
}

/// The numbers that a `new`, a spawn and an `open` draw.
#[derive(Clone, Copy, Debug, PartialEq, Eq)]
pub struct Numbers {
    pub phaser: u32,
    pub task: u32,
    pub finish: u32,
}

/// The act as it is tried by a task that holds these phasers, if these numbers are drawn for it.
pub fn tried_of<B: Drop>(own: Phased, new: Numbers, act: &Act<B>) -> Tried
    ensures { result ≡ tried_of own (numbers_view new) act.now }
{
    match act {
        Act::New(mode, ops, bound) => {
            let terms = Terms {
                ops: *ops,
                bound: *bound,
            };
            Tried::New(new.phaser, *mode, terms)
        }
        Act::Async(_, pairs) => Tried::Begun(Begun::Async(new.task, *pairs)),
        Act::AsyncAll(_) => Tried::Begun(Begun::Async(new.task, own)),
        Act::OpenFinish => Tried::Open(new.finish),
        Act::ShutFinish => Tried::Begun(Begun::Shut),
        Act::Signal => Tried::Begun(Begun::Signal),
        Act::Wait => Tried::Begun(Begun::Wait),
        Act::Next => Tried::Begun(Begun::Next),
        Act::NextSingle(number) => Tried::Begun(Begun::NextSingle(*number)),
        Act::Send(phaser, accumulator, value) => Tried::Send(*phaser, *accumulator, *value),
        Act::Look(phaser, accumulator) => Tried::Look(*phaser, *accumulator),
        Act::End => Tried::Begun(Begun::End),
    }
}

/// The event by which a task makes an act.
pub fn event_of(task: u32, act: Tried) -> WorldEvent
    ensures { result ≡ event_made task act }
{
    match act {
        Tried::New(phaser, mode, terms) => {
            WorldEvent::Phaser(phaser, Step::Make(task, mode, terms))
        }
        Tried::Open(finish) => WorldEvent::Finish(finish, FinishEvent::Opened(task)),
        Tried::Send(phaser, accumulator, value) => {
            WorldEvent::Phaser(phaser, Step::Send(task, accumulator, value))
        }
        Tried::Look(phaser, accumulator) => {
            WorldEvent::Phaser(phaser, Step::Look(task, accumulator))
        }
        Tried::Begun(begun) => WorldEvent::Begin(task, begun),
    }
}

/// The act that a long event makes or refuses.
pub(crate) fn act_of(event: &LargeEvent) -> MadeAct
    ensures { Some (made_view result) ≡ act_of (event_of (long_event event.now)) }
{
    match *event {
        LargeEvent::Make(phaser, task, mode, terms) => MadeAct {
            task,
            act: Tried::New(phaser, mode, terms),
        },
        LargeEvent::Async(task, child, pairs) => MadeAct {
            task,
            act: Tried::Begun(Begun::Async(child, pairs)),
        },
        LargeEvent::Refuse(task, act, _) => MadeAct { task, act },
    }
}

/// The task whose act a long event makes or refuses.
fn actor_in(event: &LargeEvent) -> u32
    ensures { Some result ≡ option_map (λ m. m.task) (act_of (event_of (long_event event.now))) }
{
    match event {
        LargeEvent::Make(_, task, _, _)
        | LargeEvent::Async(task, _, _)
        | LargeEvent::Refuse(task, _, _) => *task,
    }
}

/// The task whose act an event of a trace makes or refuses; none for what continues an act, and for
/// a failure. It is asked first by what walks a trace: of the events of a `next` two in three are no
/// acts.
pub fn actor(event: EventView<'_>) -> Option<u32>
    ensures { result ≡ option_map (λ m. m.task) (act_of (event_of (viewed event.entry))) }
{
    match event {
        EventView::Phaser(
            _,
            ShortStep::Send(task, _, _)
            | ShortStep::Saw(_, task, _)
            | ShortStep::SawNothing(task, _),
        ) => Some(task),
        EventView::Finish(_, FinishEvent::Opened(task)) => Some(task),
        EventView::Begin(task, _) => Some(task),
        EventView::Long(event) => Some(actor_in(event)),
        _ => None,
    }
}

/// The numbers that an act has drawn; those that it gives to nothing are 0.
pub(crate) fn drawn(act: &Tried) -> Numbers
    ensures { numbers_view result ≡ drawn act.now }
{
    let none = Numbers {
        phaser: 0,
        task: 0,
        finish: 0,
    };
    match act {
        Tried::New(n, _, _) => Numbers { phaser: *n, ..none },
        Tried::Begun(Begun::Async(child, _)) => Numbers {
            task: *child,
            ..none
        },
        Tried::Open(f) => Numbers { finish: *f, ..none },
        _ => none,
    }
}
