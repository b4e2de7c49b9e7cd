//! Reads a trace whose events come first in its text, entry by entry. What stands after them is read
//! before them: by it an entry is known.
ghost use Rattle.std.specs.Prelude.{◌≡◌, true, [], ◌∷◌, codes, length, ◌<◌, Some, None, Ok, IfSome, option_map};
ghost use Rattle.json.specs.Json.{read_key, value, items};
ghost use Rattle.json.specs.Json.{skip_value};
ghost use Rattle.serde_json.specs.Data.{Items, Data, array, object, no_items, no_members, put};
ghost use Rattle.serde_json.specs.Read.{of_json, of_items, converted, read};
ghost use Rattle.serde_json.specs.View.{view, members_view};
ghost use Rattle.phase_modes.specs.Limits.{limits_fit};
ghost use Rattle.job_script.specs.Words.{numbered_in};
ghost use Rattle.job_script.specs.Reading.{reading};
ghost use Rattle.trace_text.specs.Form.{entry_in, with_limits, form_of};
ghost use Rattle.trace_text.specs.inner.Streamed.{AtEvents, IsLast, IsRest, HasOuter, IsEntry, AreEntries, after};

use super::{entry_of, outer_of};
use crate::next_value;
use crate::version::Version;
use json::{Reader, Scratch, Token};
use phase_model::{Bound, Terms};
use phase_modes::Limits;
use serde_json::{Map, Value};
use std::alloc::Global;
use trace_model::{Trace, TracedEvent, TracedStep};
use world_model::{Begun, Tried};

/// How deep a member of the outer object may nest.
const MEMBER_DEPTH: usize = 126;

/// How deep an entry of the list of events may nest.
const ENTRY_DEPTH: usize = 125;

/// Passes the next key, if it is this one.
fn takes_key(reader: &mut Reader<'_>, key: &str) -> bool
    ensures { result ≡ true → read_key reader.old ≡ Some (Some key.now, reader.new) }
{
    match reader.next_key() {
        Ok(Some(next)) => next == key,
        _ => false,
    }
}

/// A reader that stands before the events, if they come first.
fn at_events<'a>(text: &'a str, scratch: &'a mut Scratch) -> Option<Reader<'a>>
    ensures { IfSome result (λ r. AtEvents text.now r) }
{
    let mut reader = Reader::new(text, scratch).ok()?;
    let Some(Token::BeginObject) = reader.next() else {
        return None;
    };
    if takes_key(&mut reader, "events") {
        Some(reader)
    } else {
        None
    }
}

/// The value of the last member, after which the text ends.
fn last_value(alloc: Global, reader: &mut Reader<'_>) -> Option<Value>
    ensures { IfSome result (λ v. IsLast reader.old (view v)) }
{
    let value = next_value(alloc, reader, MEMBER_DEPTH)?;
    let Ok(None) = reader.next_key() else {
        return None;
    };
    match reader.next() {
        None => Some(value),
        Some(_) => None,
    }
}

/// What stands after the events: the limits, where they are named, and the version.
#[derive(Drop)]
struct Rest {
    limits: Option<Value>,
    version: Value,
}

/// What stands after the events, in this order; none if something else does.
fn rest_of(alloc: Global, reader: &mut Reader<'_>) -> Option<Rest>
    ensures { IfSome result (λ r. IsRest reader.old (option_map view r.limits) (view r.version)) }
{
    match reader.next_key().ok()?? {
        "limits" => {
            let limits = next_value(alloc, reader, MEMBER_DEPTH)?;
            if !takes_key(reader, "version") {
                return None;
            }
            let version = last_value(alloc, reader)?;
            Some(Rest {
                limits: Some(limits),
                version,
            })
        }
        "version" => {
            let version = last_value(alloc, reader)?;
            Some(Rest {
                limits: None,
                version,
            })
        }
        _ => None,
    }
}

/// The members with one more.
fn with_member(
    alloc: Global,
    members: Map<String, Value>,
    key: &str,
    value: Value,
) -> Option<Map<String, Value>>
    ensures { IfSome result (λ m. members_view m.entries
        ≡ put key.now (view value) (members_view members.entries)) }
{
    let mut members = members;
    let name = String::from_str(alloc, key).ok()?;
    match members.insert(name, value) {
        Ok(_) => Some(members),
        Err(_) => None,
    }
}

/// The outer object with these members after a list of no events.
fn without_events(alloc: Global, rest: Rest) -> Option<Value>
    ensures { IfSome result (λ v. view v
        ≡ object (after (option_map view rest.limits) (view rest.version)
        (put (codes "events") (array no_items) no_members))) }
{
    let Rest { limits, version } = rest;
    let none = Value::Array(Vec::new(alloc));
    let mut members = with_member(alloc, Map::new(alloc), "events", none)?;
    if let Some(limits) = limits {
        members = with_member(alloc, members, "limits", limits)?;
    }
    let all = with_member(alloc, members, "version", version)?;
    Some(Value::Object(all))
}

/// The limits and the version, of a text in which the events come first.
fn outer_after(alloc: Global, text: &str, scratch: &mut Scratch) -> Option<(Limits, Version)>
    ensures outer { IfSome result (λ o. HasOuter text.now o.0 o.1) }
    ensures fit { IfSome result (λ o. limits_fit o.0 ≡ true) }
{
    let mut reader = at_events(text, scratch)?;
    reader.skip_value(MEMBER_DEPTH).ok()?;
    let rest = rest_of(alloc, &mut reader)?;
    let file = without_events(alloc, rest)?;
    let outer = outer_of(&file)?;
    Some((outer.limits, outer.version))
}

/// The next value, as an entry.
fn next_entry(
    alloc: Global,
    reader: &mut Reader<'_>,
    version: Version,
) -> Option<(u64, TracedEvent)>
    ensures { IfSome result (λ e. IsEntry version reader.old reader.new e) }
{
    let list = next_value(alloc, reader, ENTRY_DEPTH)?;
    entry_of(version, &list)
}

/// The trace with the entries of a list whose bracket is passed.
fn entries_of(
    alloc: Global,
    reader: &mut Reader<'_>,
    limits: Limits,
    version: Version,
) -> Option<Trace>
    requires { limits_fit limits ≡ true }
    ensures { IfSome result (λ t. AreEntries limits version reader.old reader.new t) }
{
    // The prover has to be shown the types inside an event: it doesn't find them by itself.
    let _step: Option<TracedStep> = None;
    let _begun: Option<Begun> = None;
    let _tried: Option<Tried> = None;
    let _terms: Option<Terms> = None;
    let _bound: Option<Bound> = None;
    let mut trace = Trace::new(alloc, limits);
    while !reader.take_end_array() {
        let (ticket, event) = next_entry(alloc, reader, version)?;
        trace.push(ticket, event).ok()?;
    }
    Some(trace)
}

/// The trace of a text in which the events come first, then the limits, if they are named, and
/// then the version. None of another text, and if something in it is wrong.
fn trace_of_text(alloc: Global, text: &str) -> Option<Trace>
    ensures { IfSome result (λ t. form_of (read text.now) ≡ Ok t) }
{
    let mut scratch = Scratch::new(alloc);
    let (limits, version) = outer_after(alloc, text, &mut scratch)?;
    let mut reader = at_events(text, &mut scratch)?;
    let Some(Token::BeginArray) = reader.next() else {
        return None;
    };
    entries_of(alloc, &mut reader, limits, version)
}

/// The same of bytes. No value is made of the whole text: beside the trace it takes as much memory
/// as the text, and what one entry takes.
pub(super) fn streamed(alloc: Global, bytes: &[u8]) -> Option<Trace>
    ensures { IfSome result (λ t. form_of (reading bytes.now) ≡ Ok t) }
{
    let text = std::str::from_utf8(bytes).ok()?;
    trace_of_text(alloc, text)
}
