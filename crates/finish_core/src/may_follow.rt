//! What may follow a list of events, computed from the whole list. It goes over lists with the
//! oldest event first, as they are stored.
ghost use Rattle.std.specs.Prelude.{◌≡◌, reverse};
ghost use Rattle.finish_core.specs.Finish.{is_open, is_spawned, has_ended, all_ended, is_allowed};

use crate::event::FinishEvent;

fn is_open(events: &[FinishEvent]) -> bool
    ensures { result ≡ is_open (reverse events.now) }
{
    !events.is_empty() && !events.iter().any(|event| event.shuts())
}

fn is_spawned(events: &[FinishEvent], task: u32) -> bool
    ensures { result ≡ is_spawned task (reverse events.now) }
{
    events.iter().any(|event| event.spawned().is_some_and(|spawned| spawned == task))
}

fn has_ended(events: &[FinishEvent], task: u32) -> bool
    ensures { result ≡ has_ended task (reverse events.now) }
{
    events.iter().any(|event| event.ends(task))
}

fn all_ended(events: &[FinishEvent]) -> bool
    ensures { result ≡ all_ended (reverse events.now) }
{
    events.iter().all(|event| event.spawned().is_none_or(|task| has_ended(events, task)))
}

/// Whether the event may follow those events, the oldest first, in a finish whose task numbers
/// are below `tasks`. It doesn't ask whether those events are legal themselves. Its time grows with
/// the square of their number.
pub fn allowed(events: &[FinishEvent], tasks: u32, event: FinishEvent) -> bool
    ensures { result ≡ is_allowed tasks (reverse events.now) event }
{
    match event {
        FinishEvent::Opened(_) => events.is_empty(),
        FinishEvent::Spawned(child) => {
            is_open(events) && !is_spawned(events, child) && child < tasks
        }
        FinishEvent::Ended(child) => {
            is_open(events) && is_spawned(events, child) && !has_ended(events, child)
        }
        FinishEvent::Shut => is_open(events) && all_ended(events),
    }
}
