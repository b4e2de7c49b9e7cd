//! Reads the events of a finish.
ghost use Rattle.std.specs.Prelude.{◌≡◌};
ghost use Rattle.serde_json.specs.View.{view};
ghost use Rattle.trace_text.specs.Form.{only_task_in, finish_event_in};

use finish_core::FinishEvent;
use job_script::{number_at, word_at};
use serde_json::Value;

/// The task of an event that has nothing else.
fn only_task_of(list: &Value) -> Option<u32>
    ensures { result ≡ only_task_in (view list.now) }
{
    if list.get(5).is_some() {
        return None;
    }
    number_at(list, 4)
}

/// An event of a finish, by its name.
#[tactic(auto, unfolding(crate::specs::Form::finish_event_in))]
pub(super) fn finish_event_of(list: &Value) -> Option<FinishEvent>
    ensures { result ≡ finish_event_in (view list.now) }
{
    match word_at(list, 3)? {
        "opened" => Some(FinishEvent::Opened(only_task_of(list)?)),
        "spawned" => Some(FinishEvent::Spawned(only_task_of(list)?)),
        "ended" => Some(FinishEvent::Ended(only_task_of(list)?)),
        "shut" => {
            if list.get(4).is_some() {
                return None;
            }
            Some(FinishEvent::Shut)
        }
        _ => None,
    }
}
