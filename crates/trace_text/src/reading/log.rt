//! Reads the entries of a task's log: an act begun, a refusal, a failure.
ghost use Rattle.std.specs.Prelude.{◌≡◌};
ghost use Rattle.serde_json.specs.View.{view};
ghost use Rattle.trace_text.specs.Form.{refusal_at, begin_in, refuse_in, fail_in, log_entry_in};

use super::act::{begun_of, tried_of};
use crate::version::Version;
use job_script::word_at;
use serde_json::Value;
use trace_model::TracedEvent;

/// How many refusals there are. Their numbers begin at 1.
pub(crate) const REFUSALS: u64 = 26;

/// The number of a refusal at an index of a list.
fn refusal_number_at(list: &Value, index: usize) -> Option<u8>
    ensures { result ≡ refusal_at index (view list.now) }
{
    let number = list.get(index)?.as_u64()?;
    if 1 <= number && number <= REFUSALS {
        Some(number as u8)
    } else {
        None
    }
}

#[tactic(auto, unfolding(crate::specs::Form::begin_in))]
fn begin_of(task: u32, list: &Value) -> Option<TracedEvent>
    ensures { result ≡ begin_in task (view list.now) }
{
    if list.get(5).is_some() {
        return None;
    }
    let act = begun_of(list.get(4)?)?;
    Some(TracedEvent::Begin(task, act))
}

#[tactic(auto, unfolding(crate::specs::Form::refuse_in))]
fn refuse_of(version: Version, task: u32, list: &Value) -> Option<TracedEvent>
    ensures { result ≡ refuse_in version task (view list.now) }
{
    if list.get(6).is_some() {
        return None;
    }
    let act = tried_of(version, list.get(4)?)?;
    let number = refusal_number_at(list, 5)?;
    Some(TracedEvent::Refuse(task, act, number))
}

#[tactic(auto, unfolding(crate::specs::Form::fail_in))]
fn fail_of(task: u32, list: &Value) -> Option<TracedEvent>
    ensures { result ≡ fail_in task (view list.now) }
{
    if list.get(5).is_some() {
        return None;
    }
    let number = refusal_number_at(list, 4)?;
    Some(TracedEvent::Fail(task, number))
}

/// An entry of the task's log, by its name.
#[tactic(auto, unfolding(crate::specs::Form::log_entry_in))]
pub(super) fn log_entry_of(version: Version, task: u32, list: &Value) -> Option<TracedEvent>
    ensures { result ≡ log_entry_in version task (view list.now) }
{
    match word_at(list, 3)? {
        "begin" => begin_of(task, list),
        "refuse" => refuse_of(version, task, list),
        "fail" => fail_of(task, list),
        _ => None,
    }
}
