//! Reads a program: JSON to nested acts, with the place of the first fault.
ghost use Rattle.std.specs.Prelude.{◌≡◌, ◌≤◌, ◌+◌, ◌<◌, true, map, option_map, length, Some, None, IfOk, IfErr, IfSome};
ghost use Rattle.std.specs.Option.{option_map_or};
ghost use Rattle.serde_json.specs.View.{view, items_view};
ghost use Rattle.job_script.specs.Reading.{Gives, reading};
ghost use Rattle.phase_modes.specs.declared.refusal.Refusal.TheVariants.{Memory as NoMemory};
ghost use Rattle.phase_modes.specs.Limits.{limits_fit};
ghost use Rattle.serde_json.specs.Data.{no_items};
ghost use Rattle.job_script.specs.Acts.{flat_length, too_many, is_short_spawn};
ghost use Rattle.job_script.specs.Names.{number_of, numbered};
ghost use Rattle.job_script.specs.ActForms.{head_of, inner_of};
ghost use Rattle.job_script.specs.Form.{act_in, acts_in, outer_in, nothing_read, one_of, form, form_of};
ghost use Rattle.job_script.specs.inner.SaidViews.{pair_view, said_view, HasFew};
ghost use Rattle.job_script.specs.inner.ReadViews.{outer_view, list_view, one_view, GivesList, GivesOne};

use crate::head::{Head, Named, NamedList};
use crate::program::Program;
use crate::said::{NameMode, Said, said_of};
use crate::seen::Seen;
use crate::stored::{Body, Item, TOO_MANY};
use crate::{has_only_keys, json_of, limits_of};
use phase_modes::{Limits, Refusal};
use serde_json::Value;
use std::alloc::Global;

/// A list of acts as it was read, the place after it, and the place of the act with which its
/// length first passed ten thousand.
#[derive(Drop)]
pub(crate) struct List {
    pub(crate) body: Body,
    pub(crate) next: u64,
    pub(crate) passing: Option<u64>,
}

/// How deep acts may nest. JSON doesn't nest deeper.
const DEEPEST: u8 = 127;

/// The place after this one.
fn after(place: u64) -> Result<u64, Refusal>
    ensures next { IfOk result (λ n. n ≡ place + 1) }
    ensures memory { IfErr result (λ e. e ≡ NoMemory) }
{
    place.checked_add(1).ok_or(Refusal::Memory)
}

/// A pair of a spawn, its name numbered.
fn pair_numbered(
    alloc: Global,
    seen: &mut Seen,
    place: u64,
    pair: &NameMode<'_>,
) -> Result<Named, Refusal>
    ensures numbered { IfOk result (λ x. number_of seen.old place pair.now.name.now ≡ (x.name, seen.new)) }
    ensures mode { IfOk result (λ x. x.mode ≡ pair.now.mode) }
    ensures memory { IfErr result (λ e. e ≡ NoMemory) }
{
    let name = seen.number_of(alloc, place, pair.name)?;
    Ok(Named {
        name,
        mode: pair.mode,
    })
}

/// The names of a spawn, numbered.
fn numbered(
    alloc: Global,
    seen: &mut Seen,
    place: u64,
    pairs: &[NameMode<'_>],
) -> Result<NamedList, Refusal>
    requires { length pairs.now ≤ 16 }
    ensures numbered { IfOk result (λ xs. numbered seen.old place (map pair_view pairs.now)
        ≡ (xs, seen.new)) }
    ensures memory { IfErr result (λ e. e ≡ NoMemory) }
{
    let mut list = NamedList::none();
    for pair in pairs {
        let named = pair_numbered(alloc, seen, place, pair)?;
        list.push(named);
    }
    Ok(list)
}

/// What an act is, its names numbered, and the acts inside it as JSON.
fn head_of<'v>(
    alloc: Global,
    seen: &mut Seen,
    place: u64,
    said: Said<'v>,
) -> Result<(Head, Option<&'v Vec<Value>>), Refusal>
    requires { HasFew said }
    ensures head { IfOk result (λ x. head_of seen.old place (said_view said.entry) ≡ (x.0, seen.new)) }
    ensures inner { IfOk result (λ x. option_map_or (λ v. items_view v.now.items) x.1 no_items
        ≡ inner_of (said_view said.entry)) }
    ensures memory { IfErr result (λ e. e ≡ NoMemory) }
{
    Ok(match said {
        Said::Plain(head) => (head, None),
        Said::New(name, mode, terms) => {
            let number = seen.number_of(alloc, place, name)?;
            (Head::New(number, mode, terms), None)
        }
        Said::At(head, name) => {
            let number = seen.number_of(alloc, place, name)?;
            (head.with_name(number), None)
        }
        Said::Async(pairs, body) => {
            let list = numbered(alloc, seen, place, &pairs)?;
            (Head::Async(list), Some(body))
        }
        Said::AsyncAll(body) => (Head::AsyncAll, Some(body)),
        Said::Repeat(times, inner) => (Head::Repeat(times), Some(inner)),
    })
}

/// An act of which the acts inside it were read. A repeat that is too long is a fault at its
/// own place. A child's body that is too long is one at the act with which it is, and is not kept.
fn one_of(alloc: Global, seen: &mut Seen, place: u64, head: Head, list: List) -> Item
    requires { list.passing ≡ None → flat_length list.body < too_many }
    ensures one { one_view (result, list.next) seen.new ≡ one_of place head (list_view list seen.old) }
    ensures short { is_short_spawn result.head result.body ≡ true }
{
    match head {
        Head::Repeat(times) => {
            if u64::from(times) * u64::from(list.body.len()) > 10_000 {
                seen.note(place);
                return Item {
                    head,
                    body: list.body,
                };
            }
            Item {
                head,
                body: list.body,
            }
        }
        _ => match list.passing {
            None => Item {
                head,
                body: list.body,
            },
            Some(passing) => {
                seen.note(passing);
                Item {
                    head,
                    body: Body::empty(alloc),
                }
            }
        },
    }
}

/// An act, and the place after it.
#[cycle(acts)]
fn act_of(
    alloc: Global,
    seen: &mut Seen,
    value: &Value,
    place: u64,
    depth: u8,
) -> Result<(Item, u64), Refusal>
    ensures one { GivesOne result seen.new (act_in depth place seen.old (view value.now)) }
    ensures short { IfOk result (λ x. is_short_spawn x.0.head x.0.body ≡ true) }
{
    if depth == 0 {
        return Err(Refusal::BadText(seen.first_fault(place)));
    }
    let said = match said_of(alloc, value)? {
        None => return Err(Refusal::BadText(seen.first_fault(place))),
        Some(said) => said,
    };
    let (head, inner) = head_of(alloc, seen, place, said)?;
    let first = after(place)?;
    match inner {
        None => {
            let list = List {
                body: Body::empty(alloc),
                next: first,
                passing: None,
            };
            let item = one_of(alloc, seen, place, head, list);
            Ok((item, first))
        }
        Some(items) => match acts_of(alloc, seen, items, first, depth - 1) {
            Err(fault) => Err(fault),
            Ok(list) => {
                let next = list.next;
                let item = one_of(alloc, seen, place, head, list);
                Ok((item, next))
            }
        },
    }
}

/// The acts of a list, the first of which has this place.
#[cycle(acts)]
fn acts_of(
    alloc: Global,
    seen: &mut Seen,
    items: &[Value],
    first: u64,
    depth: u8,
) -> Result<List, Refusal>
    ensures list { GivesList result seen.new
        (acts_in depth (nothing_read first seen.old) (items_view items.now)) }
    ensures short { IfOk result (λ l. l.passing ≡ None → flat_length l.body < too_many) }
{
    let mut list = List {
        body: Body::empty(alloc),
        next: first,
        passing: None,
    };
    for value in items {
        let place = list.next;
        let (item, next) = act_of(alloc, seen, value, place, depth)?;
        list.body.push(item)?;
        list.next = next;
        if list.passing.is_none() && list.body.len() >= TOO_MANY {
            list.passing = Some(place);
        }
    }
    Ok(list)
}

/// The limits, and the list of the acts as JSON.
#[derive(Clone, Copy)]
pub(crate) struct Outer<'v> {
    pub(crate) limits: Limits,
    pub(crate) main: &'v Vec<Value>,
}

/// The outer object, if nothing is wrong outside the acts.
#[tactic(auto, unfolding(crate::specs::Form::outer_in))]
fn outer_of(value: &Value) -> Option<Outer<'_>>
    ensures outer { option_map outer_view result ≡ outer_in (view value.now) }
    ensures fit { IfSome result (λ o. limits_fit o.limits ≡ true) }
{
    if !has_only_keys(value, &["limits", "main"]) {
        return None;
    }
    let limits = limits_of(value)?;
    let main = value.get("main")?.as_array()?;
    Some(Outer { limits, main })
}

/// The program that the value spells.
fn program_of(alloc: Global, value: &Value) -> Result<Program, Refusal>
    ensures { Gives (λ p. p) result (form (view value.now)) }
{
    let outer = match outer_of(value) {
        None => return Err(Refusal::BadText(0)),
        Some(outer) => outer,
    };
    let mut seen = Seen::new(alloc);
    let main = acts_of(alloc, &mut seen, outer.main, 1, DEEPEST)?;
    if let Some(passing) = main.passing {
        seen.note(passing);
    }
    match seen.fault() {
        Some(place) => Err(Refusal::BadText(place)),
        None => Ok(Program::new(outer.limits, main.body)),
    }
}

/// Reads the bytes of a program. `BadText` if they are not of the form: its place is 0 if the
/// bytes are no JSON or the outer object is wrong, else the number of the first act that is at
/// fault, counted from 1 in the order of the text, an act before those inside it. `Memory` if
/// there is too little for the JSON value or for the acts.
pub fn read_program(alloc: Global, bytes: &[u8]) -> Result<Program, Refusal>
    ensures { Gives (λ p. p) result (form_of (reading bytes.now)) }
{
    let value = json_of(alloc, bytes)?;
    program_of(alloc, &value)
}
