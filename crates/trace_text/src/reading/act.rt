//! Reads the acts that a task begins, or is refused.
ghost use Rattle.std.specs.Prelude.{◌≡◌};
ghost use Rattle.serde_json.specs.View.{view, items_view};
ghost use Rattle.job_script.specs.Words.{all_in, at_most};
ghost use Rattle.trace_text.specs.Form.{pair_in, pairs_in, async_in, single_in, bare_act_in, begun_in, new_in, open_in, send_act_in, look_act_in, tried_in};

use super::bound::bound_after;
use crate::version::Version;
use job_script::{accumulator_at, mode_at, number_at, ops_at, value_at, word_at};
use phase_model::Terms;
use phase_modes::{Pair, Phased};
use serde_json::Value;
use world_model::{Begun, Tried};

#[tactic(auto, unfolding(crate::specs::Form::pair_in))]
fn pair_of(list: &Value) -> Option<Pair>
    ensures { result ≡ pair_in (view list.now) }
{
    if list.get(2).is_some() {
        return None;
    }
    let phaser = number_at(list, 0)?;
    let mode = mode_at(list, 1)?;
    Some(Pair { phaser, mode })
}

/// The pairs, if each item is one and there are at most sixteen.
fn all_pairs(items: &[Value]) -> Option<Phased>
    ensures { result ≡ at_most 16 (all_in pair_in (items_view items.now)) }
{
    let mut pairs = Phased::none();
    for item in items {
        match pair_of(item) {
            None => return None,
            Some(pair) => {
                if pairs.len() >= 16 {
                    return None;
                }
                pairs.push(pair);
            }
        }
    }
    Some(pairs)
}

/// A list of at most sixteen pairs.
fn pairs_of(value: &Value) -> Option<Phased>
    ensures { result ≡ pairs_in (view value.now) }
{
    let items = value.as_array()?;
    all_pairs(items)
}

#[tactic(auto, unfolding(crate::specs::Form::async_in))]
fn async_of(list: &Value) -> Option<Begun>
    ensures { result ≡ async_in (view list.now) }
{
    if list.get(3).is_some() {
        return None;
    }
    let child = number_at(list, 1)?;
    let pairs = pairs_of(list.get(2)?)?;
    Some(Begun::Async(child, pairs))
}

#[tactic(auto, unfolding(crate::specs::Form::single_in))]
fn single_of(list: &Value) -> Option<Begun>
    ensures { result ≡ single_in (view list.now) }
{
    if list.get(2).is_some() {
        return None;
    }
    let number = number_at(list, 1)?;
    Some(Begun::NextSingle(number))
}

/// An act that is its name alone.
#[tactic(auto, unfolding(crate::specs::Form::bare_act_in))]
fn bare_act_of(list: &Value, act: Begun) -> Option<Begun>
    ensures { result ≡ bare_act_in act (view list.now) }
{
    if list.get(1).is_some() {
        return None;
    }
    Some(act)
}

/// An act that takes more than one event, by its name.
#[tactic(auto, unfolding(crate::specs::Form::begun_in))]
pub(super) fn begun_of(list: &Value) -> Option<Begun>
    ensures { result ≡ begun_in (view list.now) }
{
    match word_at(list, 0)? {
        "async" => async_of(list),
        "signal" => bare_act_of(list, Begun::Signal),
        "wait" => bare_act_of(list, Begun::Wait),
        "next" => bare_act_of(list, Begun::Next),
        "single" => single_of(list),
        "shut" => bare_act_of(list, Begun::Shut),
        "end" => bare_act_of(list, Begun::End),
        _ => None,
    }
}

#[tactic(auto, unfolding(crate::specs::Form::new_in))]
fn new_of(version: Version, list: &Value) -> Option<Tried>
    ensures { result ≡ new_in version (view list.now) }
{
    let bound = bound_after(version, 4, list)?;
    let phaser = number_at(list, 1)?;
    let mode = mode_at(list, 2)?;
    let ops = ops_at(list, 3)?;
    Some(Tried::New(phaser, mode, Terms { ops, bound }))
}

#[tactic(auto, unfolding(crate::specs::Form::open_in))]
fn open_of(list: &Value) -> Option<Tried>
    ensures { result ≡ open_in (view list.now) }
{
    if list.get(2).is_some() {
        return None;
    }
    let finish = number_at(list, 1)?;
    Some(Tried::Open(finish))
}

#[tactic(auto, unfolding(crate::specs::Form::send_act_in))]
fn send_act_of(list: &Value) -> Option<Tried>
    ensures { result ≡ send_act_in (view list.now) }
{
    if list.get(4).is_some() {
        return None;
    }
    let phaser = number_at(list, 1)?;
    let accumulator = accumulator_at(list, 2)?;
    let value = value_at(list, 3)?;
    Some(Tried::Send(phaser, accumulator, value))
}

#[tactic(auto, unfolding(crate::specs::Form::look_act_in))]
fn look_act_of(list: &Value) -> Option<Tried>
    ensures { result ≡ look_act_in (view list.now) }
{
    if list.get(3).is_some() {
        return None;
    }
    let phaser = number_at(list, 1)?;
    let accumulator = accumulator_at(list, 2)?;
    Some(Tried::Look(phaser, accumulator))
}

/// Any act, by its name.
#[tactic(auto, unfolding(crate::specs::Form::tried_in))]
pub(super) fn tried_of(version: Version, list: &Value) -> Option<Tried>
    ensures { result ≡ tried_in version (view list.now) }
{
    match word_at(list, 0)? {
        "new" => new_of(version, list),
        "open" => open_of(list),
        "send" => send_act_of(list),
        "look" => look_act_of(list),
        _ => {
            let act = begun_of(list)?;
            Some(Tried::Begun(act))
        }
    }
}
