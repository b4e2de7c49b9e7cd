//! The phasers that a task holds, read off the events of a trace.
ghost use Rattle.std.specs.Prelude.{◌≡◌, ◌≤◌, ◌∷◌, List, Some, length, take};
ghost use Rattle.phase_model.specs.declared.history.Event.{Event as PhaserEvent};
ghost use Rattle.phase_model.specs.declared.terms.Terms.{Terms};
ghost use Rattle.world_model.specs.declared.event.WorldEvent as events;
ghost use Rattle.world_model.specs.Drawing.{own_pairs};
ghost use Rattle.world_model.specs.Parts.{event_for};
ghost use Rattle.world_model.specs.Tasks.{joined_by};
ghost use Rattle.trace_walk.specs.Follows.{same_pairs};
ghost use Rattle.trace_model.specs.Explained.{step_of, event_of};
ghost use Rattle.trace_model.specs.Views.{short_step, viewed};
ghost use Rattle.trace_walk.specs.History.{history};
ghost use Rattle.trace_walk.specs.inner.Holding.{stay_in, stay_of, mode_on, pair_by};

use crate::same_act::is_same_pair;
use phase_modes::{Mode, Pair, TaskNumber};
use trace_model::{EventView, LargeEvent, ShortStep, Trace};

/// What events say of a task and a phaser: the mode in which it was last registered there, and
/// whether it was dropped.
#[derive(Clone, Copy, Debug, PartialEq, Eq)]
struct Stay {
    mode: Option<Mode>,
    left: bool,
}

impl Stay {
    /// The same of a task that is registered once more, in this mode.
    fn in_mode(self, mode: Mode) -> Stay
        ensures { result ≡ record self { mode = Some mode } }
    {
        Stay {
            mode: Some(mode),
            ..self
        }
    }

    /// The same after one short step more on the phaser.
    fn after_step(self, task: TaskNumber, step: ShortStep) -> Stay
        ensures { (terms : Terms) (h : List PhaserEvent) → self ≡ stay_in task h
            → result ≡ stay_in task (event_for terms h (step_of (short_step step)) ∷ h) }
    {
        match step {
            ShortStep::Reg(_, t, mode) if t == task.get() => self.in_mode(mode),
            ShortStep::Drop(t) if t == task.get() => Stay { left: true, ..self },
            _ => self,
        }
    }

    /// The same after one event more.
    fn after(self, phaser: u32, task: TaskNumber, event: EventView<'_>) -> Stay
        ensures { (w : List events.WorldEvent) → self ≡ stay_of task phaser w
            → result ≡ stay_of task phaser (event_of (viewed event.entry) ∷ w) }
    {
        match event {
            EventView::Phaser(n, step) if n == phaser => self.after_step(task, step),
            EventView::Long(LargeEvent::Make(n, t, mode, _)) if *n == phaser && *t == task.get() =>
                { self.in_mode(*mode) }
            _ => self,
        }
    }
}

/// The mode in which a task is registered on a phaser after so many events of a trace; none if
/// it isn't.
fn mode_on(trace: &Trace, count: usize, phaser: u32, task: TaskNumber) -> Option<Mode>
    requires { count ≤ length trace.now.events }
    ensures { result ≡ mode_on task phaser (history (take count trace.now.events)) }
{
    let mut stay = Stay {
        mode: None,
        left: false,
    };
    for place in 0..count {
        let (_, event) = trace.entry(place);
        stay = stay.after(phaser, task, event);
    }
    if stay.left { None } else { stay.mode }
}

/// The phaser on which an event registers a task.
fn joined_by(task: u32, event: EventView<'_>) -> Option<u32>
    ensures { result ≡ joined_by task (event_of (viewed event.entry)) }
{
    match event {
        EventView::Phaser(n, ShortStep::Reg(_, t, _)) if t == task => Some(n),
        EventView::Long(LargeEvent::Make(n, t, _, _)) if *t == task => Some(*n),
        _ => None,
    }
}

/// The phaser on which an event registers a task, with the task's mode on it after so many events
/// of a trace; none if it isn't registered there any more.
fn pair_by(trace: &Trace, count: usize, task: u32, event: EventView<'_>) -> Option<Pair>
    requires { count ≤ length trace.now.events }
    ensures { result ≡ pair_by task (history (take count trace.now.events)) (event_of (viewed event.entry)) }
{
    let phaser = joined_by(task, event)?;
    let mode = mode_on(trace, count, phaser, TaskNumber::of(task))?;
    Some(Pair { phaser, mode })
}

/// Whether these are all phasers that a task holds after so many events of a trace, in the order in
/// which it got them and each in its own mode. It goes over the events once for each phaser
/// that the task ever was on, and once more.
pub(crate) fn are_own_pairs(trace: &Trace, count: usize, task: u32, pairs: &[Pair]) -> bool
    requires { count ≤ length trace.now.events }
    ensures { result ≡ same_pairs pairs.now (own_pairs task (history (take count trace.now.events))) }
{
    let mut found = 0;
    for place in 0..count {
        let (_, event) = trace.entry(place);
        if let Some(own) = pair_by(trace, count, task, event) {
            if found >= pairs.len() || !is_same_pair(pairs[found], own) {
                return false;
            }
            found += 1;
        }
    }
    found == pairs.len()
}
