//! Reads a trace: bytes to JSON, JSON to limits and events.
ghost use Rattle.std.specs.Prelude.{◌≡◌, option_map, IfSome, true};
ghost use Rattle.serde_json.specs.View.{view, items_view};
ghost use Rattle.phase_modes.specs.Limits.{limits_fit};
ghost use Rattle.job_script.specs.Words.{numbered_in};
ghost use Rattle.trace_text.specs.Form.{event_in, entry_in, version_in, outer_in, with_limits, form, form_of};
ghost use Rattle.job_script.specs.Reading.{reading, Gives};

mod act;
mod bound;
mod finish;
mod log;
mod step;
mod stream;

use crate::version::Version;
use finish::finish_event_of;
use job_script::{has_only_keys, json_of, limits_of, number_at, word_at};
use log::log_entry_of;
use phase_modes::{Limits, Refusal};
use serde_json::Value;
use std::alloc::Global;
use step::step_of;
use stream::streamed;
use trace_model::{Trace, TracedEvent};

/// An event, by what its number is of.
#[tactic(auto, unfolding(crate::specs::Form::event_in))]
fn event_of(version: Version, list: &Value) -> Option<TracedEvent>
    ensures { result ≡ event_in version (view list.now) }
{
    let kind = word_at(list, 1)?;
    let number = number_at(list, 2)?;
    match kind {
        "p" => {
            let step = step_of(version, list)?;
            Some(TracedEvent::Phaser(number, step))
        }
        "f" => {
            let event = finish_event_of(list)?;
            Some(TracedEvent::Finish(number, event))
        }
        "t" => log_entry_of(version, number, list),
        _ => None,
    }
}

/// A ticket and its event.
fn entry_of(version: Version, list: &Value) -> Option<(u64, TracedEvent)>
    ensures { result ≡ entry_in version (view list.now) }
{
    let ticket = list.get(0)?.as_u64()?;
    let event = event_of(version, list)?;
    Some((ticket, event))
}

/// The trace with all events, or the number of the first that is none.
fn trace_of(
    alloc: Global,
    limits: Limits,
    version: Version,
    items: &[Value],
) -> Result<Trace, Refusal>
    requires { limits_fit limits ≡ true }
    ensures { Gives (λ t. t) result
        (with_limits limits (numbered_in (entry_in version) 1 (items_view items.now))) }
{
    let mut trace = Trace::with_capacity(alloc, limits, items.len())?;
    for (index, item) in items.iter().enumerate() {
        let place = index as u64 + 1;
        let (ticket, event) = match entry_of(version, item) {
            None => return Err(Refusal::BadText(place)),
            Some(entry) => entry,
        };
        trace.push(ticket, event)?;
    }
    Ok(trace)
}

/// The version, if it is one that is read.
fn version_of(value: &Value) -> Option<Version>
    ensures { result ≡ version_in (view value.now) }
{
    match value.as_u64()? {
        1 => Some(Version::First),
        2 => Some(Version::Second),
        _ => None,
    }
}

/// What stands outside the events, and the events as JSON.
#[derive(Clone, Copy)]
struct Outer<'a> {
    limits: Limits,
    version: Version,
    events: &'a Vec<Value>,
}

/// The outer object, if nothing is wrong outside the events.
#[tactic(auto, unfolding(crate::specs::Form::outer_in))]
fn outer_of(file: &Value) -> Option<Outer<'_>>
    ensures outer { option_map (λ o. (o.limits, o.version, items_view o.events.now.items)) result
        ≡ outer_in (view file.now) }
    ensures fit { IfSome result (λ o. limits_fit o.limits ≡ true) }
{
    if !has_only_keys(file, &["events", "limits", "version"]) {
        return None;
    }
    let limits = limits_of(file)?;
    let version = version_of(file.get("version")?)?;
    let events = file.get("events")?.as_array()?;
    Some(Outer {
        limits,
        version,
        events,
    })
}

/// The trace that the value spells.
fn form_of_value(alloc: Global, value: &Value) -> Result<Trace, Refusal>
    ensures { Gives (λ t. t) result (form (view value.now)) }
{
    let outer = match outer_of(value) {
        None => return Err(Refusal::BadText(0)),
        Some(outer) => outer,
    };
    trace_of(alloc, outer.limits, outer.version, outer.events)
}

/// Reads the bytes of a trace, of version 1 or 2; each phaser of a text of version 1 is unbounded.
/// `BadText` if they are not of the form: its place is 0 if the bytes are no JSON or the outer
/// object is wrong, as where its version is another one, else the number of the first event that is
/// wrong, counted from 1: also of one that makes a phaser, or would have, in the form of the other
/// version. `Memory` if there is too little for the JSON value or for the events. Whether a run
/// makes such events is no matter of the text.
pub fn from_json(alloc: Global, bytes: &[u8]) -> Result<Trace, Refusal>
    ensures { Gives (λ t. t) result (form_of (reading bytes.now)) }
{
    if let Some(trace) = streamed(alloc, bytes) {
        return Ok(trace);
    }
    let value = json_of(alloc, bytes)?;
    form_of_value(alloc, &value)
}
