//! Whether an event is the act that a task's body gives. A short event is compared as it stands: no
//! act is made of it.
ghost use Rattle.std.specs.Prelude.{◌≡◌, ◌≤◌, List, Some, length, take};
ghost use Rattle.phase_modes.specs.declared.phased.Pair as phased;
ghost use Rattle.world_model.specs.declared.event.Tried.TheVariants.{Begun as Beginning};
ghost use Rattle.world_model.specs.declared.event.WorldEvent.TheVariants.{Phaser};
ghost use Rattle.world_model.specs.declared.event.WorldEvent as events;
ghost use Rattle.trace_walk.specs.Follows.{same_act};
ghost use Rattle.trace_walk.specs.Scripts as acts;
ghost use Rattle.trace_walk.specs.Scripts.{act_of};
ghost use Rattle.trace_model.specs.Explained.{event_of, step_of};
ghost use Rattle.trace_model.specs.Views.{long_event, short_act, short_step, viewed};
ghost use Rattle.trace_walk.specs.History.{history};
ghost use Rattle.trace_walk.specs.Given.{gives, made_view, tried_of};

use crate::acts::{MadeAct, act_of, drawn, tried_of};
use crate::phasers_held::are_own_pairs;
use crate::same_act::is_same_act;
use finish_core::FinishEvent;
use job_script::Act;
use phase_modes::Phased;
use trace_model::{EventView, LargeEvent, ShortAct, ShortStep, Trace};
use world_model::{Begun, Tried};

/// Whether a body gives this step: a send or a look.
fn gives_step<B: Drop>(phaser: u32, step: ShortStep, act: &Act<B>) -> bool
    ensures { (w : List events.WorldEvent)
        → result ≡ gives w (act_of (Phaser phaser (step_of (short_step step)))) act.now }
{
    match (step, act) {
        (ShortStep::Send(_, accumulator, value), Act::Send(n, index, sent)) => {
            phaser == *n && accumulator == *index && value == *sent
        }
        (ShortStep::Saw(accumulator, _, _), Act::Look(n, index))
        | (ShortStep::SawNothing(_, accumulator), Act::Look(n, index)) => {
            phaser == *n && accumulator == *index
        }
        _ => false,
    }
}

/// Whether a body gives this act, which is no spawn.
fn gives_short<B: Drop>(begun: ShortAct, act: &Act<B>) -> bool
    ensures { (own : List phased.Pair) (new : acts.Numbers)
        → result ≡ same_act (Beginning (short_act begun)) (tried_of own new act.now) }
{
    match (begun, act) {
        (ShortAct::Signal, Act::Signal)
        | (ShortAct::Wait, Act::Wait)
        | (ShortAct::Next, Act::Next)
        | (ShortAct::Shut, Act::ShutFinish)
        | (ShortAct::End, Act::End) => true,
        (ShortAct::NextSingle(number), Act::NextSingle(other)) => number == *other,
        _ => false,
    }
}

/// Whether a body gives this act, whichever it is.
fn gives_made<B: Drop>(trace: &Trace, count: usize, made: &MadeAct, act: &Act<B>) -> bool
    requires { count ≤ length trace.now.events }
    ensures { result ≡ gives (history (take count trace.now.events)) (Some (made_view made.now)) act.now }
{
    match (act, &made.act) {
        (Act::AsyncAll(_), Tried::Begun(Begun::Async(_, pairs))) => {
            are_own_pairs(trace, count, made.task, pairs.as_slice())
        }
        _ => is_same_act(&made.act, &tried_of(Phased::none(), drawn(&made.act), act)),
    }
}

/// The same of a long event. It is not in line, so that a walk's other events don't pay for the room
/// that it needs.
#[inline(never)]
fn gives_long<B: Drop>(trace: &Trace, count: usize, event: &LargeEvent, act: &Act<B>) -> bool
    requires { count ≤ length trace.now.events }
    ensures { result ≡ gives (history (take count trace.now.events))
        (act_of (event_of (long_event event.now))) act.now }
{
    gives_made(trace, count, &act_of(event), act)
}

/// Whether an event is an act, made or refused, and the one that its task's body gives after so many
/// events of a trace, the numbers that it drew being any. Of a spawn on all phasers it goes over the
/// events before it, once for each phaser that the task ever was on.
pub fn is_given<B: Drop>(trace: &Trace, count: usize, event: EventView<'_>, act: &Act<B>) -> bool
    requires { count ≤ length trace.now.events }
    ensures { result ≡ gives (history (take count trace.now.events))
        (act_of (event_of (viewed event.entry))) act.now }
{
    match event {
        EventView::Phaser(phaser, step) => gives_step(phaser, step, act),
        EventView::Finish(_, FinishEvent::Opened(_)) => matches!(act, Act::OpenFinish),
        EventView::Begin(_, begun) => gives_short(begun, act),
        EventView::Long(event) => gives_long(trace, count, event, act),
        _ => false,
    }
}
