//! What the JSON value of an act says by itself: its names are not numbered, and the acts inside it
//! are not read.
ghost use Rattle.std.specs.Prelude.{◌≡◌, ◌≤◌, option_map, map, length, IfOk, IfErr, IfSome};
ghost use Rattle.std.specs.List.{list_all};
ghost use Rattle.serde_json.specs.View.{view, items_view};
ghost use Rattle.job_script.specs.Words.{all_in, at_most};
ghost use Rattle.phase_modes.specs.declared.refusal.Refusal.TheVariants.{Memory as NoMemory};
ghost use Rattle.job_script.specs.Names.{is_name_byte, is_name, name_in, name_at};
ghost use Rattle.job_script.specs.ActForms.{items_at, bound_after, plain_in, new_in, single_in, send_in, look_in, pair_in, async_in, async_all_in, repeat_in, said_in};
ghost use Rattle.job_script.specs.inner.SaidViews.{said_view, pair_view, HasFew};

use crate::head::Head;
use crate::{accumulator_at, bound_at, mode_at, number_at, number_of, ops_at, value_at, word_at};
use phase_model::{Bound, Terms};
use phase_modes::{Mode, Refusal};
use serde_json::Value;
use std::alloc::Global;

/// A phaser's name as it is written, and the mode in which a child is to be registered on it.
#[derive(Clone, Copy)]
pub(crate) struct NameMode<'v> {
    pub(crate) name: &'v str,
    pub(crate) mode: Mode,
}

/// What an act says by itself.
#[derive(Drop)]
pub(crate) enum Said<'v> {
    Plain(Head),
    New(&'v str, Mode, Terms),
    /// A `send` or a `look`, for the phaser of the name.
    At(Head, &'v str),
    Async(Vec<NameMode<'v>>, &'v Vec<Value>),
    AsyncAll(&'v Vec<Value>),
    Repeat(u32, &'v Vec<Value>),
}

fn is_name_byte(byte: u8) -> bool
    ensures { result ≡ is_name_byte byte }
{
    byte.is_ascii_alphanumeric() || byte == b'_'
}

fn are_name_bytes(bytes: &[u8]) -> bool
    ensures { result ≡ list_all is_name_byte bytes.now }
{
    bytes.iter().all(|byte| is_name_byte(*byte))
}

/// Whether it is a name: 1 to 32 letters, digits or underscores.
fn is_name(text: &str) -> bool
    ensures { result ≡ is_name text.now }
{
    1 <= text.len() && text.len() <= 32 && are_name_bytes(text.as_bytes())
}

fn name_of(value: &Value) -> Option<&str>
    ensures { option_map (λ n. n.now) result ≡ name_in (view value.now) }
{
    let name = value.as_str()?;
    if is_name(name) { Some(name) } else { None }
}

/// The name at an index of a list.
fn name_at(list: &Value, index: usize) -> Option<&str>
    ensures { option_map (λ n. n.now) result ≡ name_at index (view list.now) }
{
    name_of(list.get(index)?)
}

/// The list at an index of a list.
fn items_at(list: &Value, index: usize) -> Option<&Vec<Value>>
    ensures { option_map (λ v. items_view v.now.items) result ≡ items_at index (view list.now) }
{
    list.get(index)?.as_array()
}

#[tactic(auto, unfolding(crate::specs::ActForms::plain_in))]
fn plain_of<'v>(head: Head, list: &'v Value) -> Option<Said<'v>>
    ensures said { option_map said_view result ≡ plain_in head (view list.now) }
    ensures few { IfSome result HasFew }
{
    if list.get(1).is_some() {
        return None;
    }
    Some(Said::Plain(head))
}

/// What follows the operators of a `new`: nothing, or a bound alone.
fn bound_after_operators(list: &Value) -> Option<Option<Bound>>
    ensures { result ≡ bound_after 4 (view list.now) }
{
    if list.get(4).is_none() {
        return Some(None);
    }
    if list.get(5).is_some() {
        return None;
    }
    let bound = bound_at(list, 4)?;
    Some(Some(bound))
}

#[tactic(auto, unfolding(crate::specs::ActForms::new_in))]
fn new_of(list: &Value) -> Option<Said<'_>>
    ensures said { option_map said_view result ≡ new_in (view list.now) }
    ensures few { IfSome result HasFew }
{
    let bound = bound_after_operators(list)?;
    let name = name_at(list, 1)?;
    let mode = mode_at(list, 2)?;
    let ops = ops_at(list, 3)?;
    Some(Said::New(name, mode, Terms { ops, bound }))
}

#[tactic(auto, unfolding(crate::specs::ActForms::single_in))]
fn single_of(list: &Value) -> Option<Said<'_>>
    ensures said { option_map said_view result ≡ single_in (view list.now) }
    ensures few { IfSome result HasFew }
{
    if list.get(2).is_some() {
        return None;
    }
    let number = number_at(list, 1)?;
    Some(Said::Plain(Head::NextSingle(number)))
}

#[tactic(auto, unfolding(crate::specs::ActForms::send_in))]
fn send_of(list: &Value) -> Option<Said<'_>>
    ensures said { option_map said_view result ≡ send_in (view list.now) }
    ensures few { IfSome result HasFew }
{
    if list.get(4).is_some() {
        return None;
    }
    let name = name_at(list, 1)?;
    let accumulator = accumulator_at(list, 2)?;
    let value = value_at(list, 3)?;
    Some(Said::At(Head::Send(0, accumulator, value), name))
}

#[tactic(auto, unfolding(crate::specs::ActForms::look_in))]
fn look_of(list: &Value) -> Option<Said<'_>>
    ensures said { option_map said_view result ≡ look_in (view list.now) }
    ensures few { IfSome result HasFew }
{
    if list.get(3).is_some() {
        return None;
    }
    let name = name_at(list, 1)?;
    let accumulator = accumulator_at(list, 2)?;
    Some(Said::At(Head::Look(0, accumulator), name))
}

#[tactic(auto, unfolding(crate::specs::ActForms::pair_in))]
fn pair_of(list: &Value) -> Option<NameMode<'_>>
    ensures { option_map pair_view result ≡ pair_in (view list.now) }
{
    if list.get(2).is_some() {
        return None;
    }
    let name = name_at(list, 0)?;
    let mode = mode_at(list, 1)?;
    Some(NameMode { name, mode })
}

/// The pairs, if each item is one and there are at most sixteen.
fn pairs_of<'v>(alloc: Global, items: &'v [Value]) -> Result<Option<Vec<NameMode<'v>>>, Refusal>
    ensures pairs { IfOk result (λ o. option_map (λ v. map pair_view v.items) o
        ≡ at_most 16 (all_in pair_in (items_view items.now))) }
    ensures few { IfOk result (λ o. IfSome o (λ v. length v.items ≤ 16)) }
    ensures memory { IfErr result (λ e. e ≡ NoMemory) }
{
    let mut pairs = Vec::new(alloc);
    for item in items {
        match pair_of(item) {
            None => return Ok(None),
            Some(pair) => {
                if pairs.len() >= 16 {
                    return Ok(None);
                }
                pairs.push(pair)?;
            }
        }
    }
    Ok(Some(pairs))
}

#[tactic(auto, unfolding(crate::specs::ActForms::async_in))]
fn async_of<'v>(alloc: Global, list: &'v Value) -> Result<Option<Said<'v>>, Refusal>
    ensures said { IfOk result (λ o. option_map said_view o ≡ async_in (view list.now)) }
    ensures few { IfOk result (λ o. IfSome o HasFew) }
    ensures memory { IfErr result (λ e. e ≡ NoMemory) }
{
    if list.get(3).is_some() {
        return Ok(None);
    }
    let items = match items_at(list, 1) {
        None => return Ok(None),
        Some(items) => items,
    };
    let pairs = match pairs_of(alloc, items)? {
        None => return Ok(None),
        Some(pairs) => pairs,
    };
    match items_at(list, 2) {
        None => Ok(None),
        Some(body) => Ok(Some(Said::Async(pairs, body))),
    }
}

#[tactic(auto, unfolding(crate::specs::ActForms::async_all_in))]
fn async_all_of(list: &Value) -> Option<Said<'_>>
    ensures said { option_map said_view result ≡ async_all_in (view list.now) }
    ensures few { IfSome result HasFew }
{
    if list.get(2).is_some() {
        return None;
    }
    let body = items_at(list, 1)?;
    Some(Said::AsyncAll(body))
}

#[tactic(auto, unfolding(crate::specs::ActForms::repeat_in))]
fn repeat_of(list: &Value) -> Option<Said<'_>>
    ensures said { option_map said_view result ≡ repeat_in (view list.now) }
    ensures few { IfSome result HasFew }
{
    if list.get(3).is_some() {
        return None;
    }
    let times = number_of(list.get(1)?, 1000)?;
    let inner = items_at(list, 2)?;
    Some(Said::Repeat(times, inner))
}

/// What the act says: its first item is its name.
#[tactic(auto, unfolding(crate::specs::ActForms::said_in))]
pub(crate) fn said_of<'v>(alloc: Global, list: &'v Value) -> Result<Option<Said<'v>>, Refusal>
    ensures said { IfOk result (λ o. option_map said_view o ≡ said_in (view list.now)) }
    ensures few { IfOk result (λ o. IfSome o HasFew) }
    ensures memory { IfErr result (λ e. e ≡ NoMemory) }
{
    let name = match word_at(list, 0) {
        None => return Ok(None),
        Some(name) => name,
    };
    let said = match name {
        "new" => new_of(list),
        "async" => async_of(alloc, list)?,
        "async_all" => async_all_of(list),
        "open" => plain_of(Head::OpenFinish, list),
        "shut" => plain_of(Head::ShutFinish, list),
        "signal" => plain_of(Head::Signal, list),
        "wait" => plain_of(Head::Wait, list),
        "next" => plain_of(Head::Next, list),
        "single" => single_of(list),
        "send" => send_of(list),
        "look" => look_of(list),
        "repeat" => repeat_of(list),
        _ => None,
    };
    Ok(said)
}
