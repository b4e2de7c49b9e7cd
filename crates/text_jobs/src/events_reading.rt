//! An events file, and how it is read: JSON to limits, operators, a bound and calls.
ghost use Rattle.std.specs.Prelude.{◌≡◌, option_map, IfSome, true};
ghost use Rattle.serde_json.specs.View.{view, items_view};
ghost use Rattle.phase_modes.specs.Limits.{limits_fit};
ghost use Rattle.job_script.specs.Reading.{reading, Gives};
ghost use Rattle.job_script.specs.Words.{numbered_in};
ghost use Rattle.text_jobs.specs.EventsForm.{make_in, register_in, signal_in, pass_in, did_in, send_in, look_in, drop_in, call_in, outer_in, form, form_of};
ghost use Rattle.text_jobs.specs.EventsReading.{form_view};

use crate::EventsFile;
use job_script::{
    accumulator_at, bound_of, has_only_keys, json_of, limits_of, mode_at, number_at, ops_of,
    value_at, word_at,
};
use phase_model::{Bound, Call, Ops};
use phase_modes::{Limits, Refusal};
use serde_json::Value;
use std::alloc::Global;

// ---- calls

#[tactic(auto, unfolding(crate::specs::EventsForm::make_in))]
fn make_of(list: &Value) -> Option<Call>
    ensures { result ≡ make_in (view list.now) }
{
    if list.get(3).is_some() {
        return None;
    }
    let task = number_at(list, 1)?;
    let mode = mode_at(list, 2)?;
    Some(Call::Make(task, mode))
}

#[tactic(auto, unfolding(crate::specs::EventsForm::register_in))]
fn register_of(list: &Value) -> Option<Call>
    ensures { result ≡ register_in (view list.now) }
{
    if list.get(4).is_some() {
        return None;
    }
    let parent = number_at(list, 1)?;
    let child = number_at(list, 2)?;
    let mode = mode_at(list, 3)?;
    Some(Call::Register(parent, child, mode))
}

#[tactic(auto, unfolding(crate::specs::EventsForm::signal_in))]
fn signal_of(list: &Value) -> Option<Call>
    ensures { result ≡ signal_in (view list.now) }
{
    if list.get(3).is_some() {
        return None;
    }
    let task = number_at(list, 1)?;
    if list.get(2).is_none() {
        return Some(Call::Signal(task, None));
    }
    let number = number_at(list, 2)?;
    Some(Call::Signal(task, Some(number)))
}

#[tactic(auto, unfolding(crate::specs::EventsForm::pass_in))]
fn pass_of(list: &Value) -> Option<Call>
    ensures { result ≡ pass_in (view list.now) }
{
    if list.get(2).is_some() {
        return None;
    }
    let task = number_at(list, 1)?;
    Some(Call::Pass(task))
}

#[tactic(auto, unfolding(crate::specs::EventsForm::did_in))]
fn did_of(list: &Value) -> Option<Call>
    ensures { result ≡ did_in (view list.now) }
{
    if list.get(2).is_some() {
        return None;
    }
    let task = number_at(list, 1)?;
    Some(Call::SingleDone(task))
}

#[tactic(auto, unfolding(crate::specs::EventsForm::send_in))]
fn send_of(list: &Value) -> Option<Call>
    ensures { result ≡ send_in (view list.now) }
{
    if list.get(4).is_some() {
        return None;
    }
    let task = number_at(list, 1)?;
    let accumulator = accumulator_at(list, 2)?;
    let value = value_at(list, 3)?;
    Some(Call::Send(task, accumulator, value))
}

#[tactic(auto, unfolding(crate::specs::EventsForm::look_in))]
fn look_of(list: &Value) -> Option<Call>
    ensures { result ≡ look_in (view list.now) }
{
    if list.get(3).is_some() {
        return None;
    }
    let task = number_at(list, 1)?;
    let accumulator = accumulator_at(list, 2)?;
    Some(Call::Look(task, accumulator))
}

#[tactic(auto, unfolding(crate::specs::EventsForm::drop_in))]
fn drop_of(list: &Value) -> Option<Call>
    ensures { result ≡ drop_in (view list.now) }
{
    if list.get(2).is_some() {
        return None;
    }
    let task = number_at(list, 1)?;
    Some(Call::Drop(task))
}

/// The call that a list spells: its first item is the name.
#[tactic(auto, unfolding(crate::specs::EventsForm::call_in))]
fn call_of(list: &Value) -> Option<Call>
    ensures { result ≡ call_in (view list.now) }
{
    match word_at(list, 0)? {
        "make" => make_of(list),
        "reg" => register_of(list),
        "sig" => signal_of(list),
        "pass" => pass_of(list),
        "did" => did_of(list),
        "send" => send_of(list),
        "look" => look_of(list),
        "drop" => drop_of(list),
        _ => None,
    }
}

/// All calls; `BadText` with the number of the first that is none.
fn calls_of(alloc: Global, items: &[Value]) -> Result<Vec<Call>, Refusal>
    ensures { Gives (λ v. v.items) result (numbered_in call_in 1 (items_view items.now)) }
{
    let mut calls = Vec::new(alloc);
    for (index, item) in items.iter().enumerate() {
        let place = index as u64 + 1;
        let call = match call_of(item) {
            None => return Err(Refusal::BadText(place)),
            Some(call) => call,
        };
        calls.push(call)?;
    }
    Ok(calls)
}

// ---- the file

/// What stands outside the calls, and the calls as JSON.
#[derive(Clone, Copy)]
struct Outer<'a> {
    limits: Limits,
    ops: Ops,
    bound: Option<Bound>,
    calls: &'a Vec<Value>,
}

/// The outer object, if nothing is wrong outside the calls.
#[tactic(auto, unfolding(crate::specs::EventsForm::outer_in))]
fn outer_of(file: &Value) -> Option<Outer<'_>>
    ensures outer { option_map (λ o. (o.limits, o.ops, o.bound, items_view o.calls.now.items)) result
        ≡ outer_in (view file.now) }
    ensures fit { IfSome result (λ o. limits_fit o.limits ≡ true) }
{
    if !has_only_keys(file, &["limits", "accs", "bound", "calls"]) {
        return None;
    }
    let limits = limits_of(file)?;
    let ops = match file.get("accs") {
        None => Ops::none(),
        Some(value) => ops_of(value)?,
    };
    let bound = match file.get("bound") {
        None => None,
        Some(value) => Some(bound_of(value)?),
    };
    let calls = file.get("calls")?.as_array()?;
    Some(Outer {
        limits,
        ops,
        bound,
        calls,
    })
}

/// The file that the value spells.
fn form_of_value(alloc: Global, value: &Value) -> Result<EventsFile, Refusal>
    ensures { Gives form_view result (form (view value.now)) }
{
    let outer = match outer_of(value) {
        None => return Err(Refusal::BadText(0)),
        Some(outer) => outer,
    };
    let calls = calls_of(alloc, outer.calls)?;
    Ok(EventsFile {
        limits: outer.limits,
        ops: outer.ops,
        bound: outer.bound,
        calls,
    })
}

/// Reads the bytes of an events file. `BadText` if they are not of the form: its place is 0
/// if the bytes are no JSON or the outer object is wrong, else the number of the first call that
/// is wrong, counted from 1. `Memory` if there is too little for the JSON value or for the
/// calls.
pub fn read_events(alloc: Global, bytes: &[u8]) -> Result<EventsFile, Refusal>
    ensures { Gives form_view result (form_of (reading bytes.now)) }
{
    let file = json_of(alloc, bytes)?;
    form_of_value(alloc, &file)
}
