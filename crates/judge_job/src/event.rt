//! What a line says of a phaser: by its name, what happened there.
ghost use Rattle.std.specs.Prelude.{◌≡◌, Some, None, [], true, option_map};
ghost use Rattle.json.specs.Json.{after_end_array};
ghost use Rattle.phase_modes.specs.Lists.{is_empty};
ghost use Rattle.judge_job.specs.Fronts.{Reads};
ghost use Rattle.judge_job.specs.Forms.{ops_from, ops_front, bound_in, bound_front, seen_front, make_in, reg_in, sig_in, sig_end, only_task_in, send_in, look_in, named_in, event_in};

use crate::items::{
    begins, is_last, mode, number, number_within, op, signed_of, value, whole_of, word,
};
use json::{Reader, Token};
use phase_model::{Bound, LongLook, Look, Ops};
use phaser_judge::{Named, NamedEvent};

/// At most four operators, up to the bracket that closes their list.
#[tactic(auto, using(crate::proofs::Operators::ops_from_more, crate::proofs::Operators::ops_from_none), unfolding(crate::specs::Forms::ops_from))]
fn ops_after(reader: &mut Reader<'_>) -> Option<Ops>
    ensures { Reads (ops_from 4 []) reader.old result reader.new }
{
    let mut ops = Ops::none();
    let mut room = 4usize;
    while room > 0 {
        if reader.take_end_array() {
            return Some(ops);
        }
        ops.push(op(reader)?);
        room -= 1;
    }
    if reader.take_end_array() {
        Some(ops)
    } else {
        None
    }
}

/// A list of at most four operators.
#[tactic(auto, unfolding(crate::specs::Forms::ops_front))]
fn ops(reader: &mut Reader<'_>) -> Option<Ops>
    ensures { Reads ops_front reader.old result reader.new }
{
    if !begins(reader) {
        return None;
    }
    ops_after(reader)
}

/// A phaser's bound, of the text of a number.
fn bound_of(text: &str) -> Option<Bound>
    ensures { result ≡ bound_in text.now }
{
    let number = whole_of(text)?;
    if number > 65536 {
        return None;
    }
    Bound::of(number as u32)
}

/// A bound, or null for none.
fn bound(reader: &mut Reader<'_>) -> Option<Option<Bound>>
    ensures { Reads bound_front reader.old result reader.new }
{
    match reader.next()? {
        Token::Null => Some(None),
        Token::Number(text) => Some(Some(bound_of(text)?)),
        _ => None,
    }
}

/// What was seen: a number, or null for nothing.
fn seen(reader: &mut Reader<'_>) -> Option<LongLook>
    ensures { Reads seen_front reader.old result reader.new }
{
    match reader.next()? {
        Token::Null => Some(Look::Nothing),
        Token::Number(text) => Some(Look::Value(i128::from(signed_of(text)?))),
        _ => None,
    }
}

#[tactic(auto, unfolding(crate::specs::Forms::make_in))]
fn make_of(reader: &mut Reader<'_>) -> Option<Named>
    ensures { result ≡ make_in reader.old }
{
    let task = number(reader)?;
    let mode = mode(reader)?;
    let ops = ops(reader)?;
    let bound = bound(reader)?;
    if is_last(reader) {
        Some(Named::Make(task, mode, ops, bound))
    } else {
        None
    }
}

#[tactic(auto, unfolding(crate::specs::Forms::reg_in))]
fn reg_of(reader: &mut Reader<'_>) -> Option<Named>
    ensures { result ≡ reg_in reader.old }
{
    let parent = number(reader)?;
    let child = number(reader)?;
    let mode = mode(reader)?;
    if is_last(reader) {
        Some(Named::Reg(parent, child, mode))
    } else {
        None
    }
}

/// What follows the task of a signal: the end of the list, or the number of a single before it.
fn sig_after(reader: &mut Reader<'_>, task: u64) -> Option<Named>
    ensures { result ≡ sig_end task reader.old (after_end_array reader.old) }
{
    if reader.take_end_array() {
        return if reader.next().is_none() {
            Some(Named::Sig(task, None))
        } else {
            None
        };
    }
    let number = number_within(reader, 4_294_967_295)?;
    if is_last(reader) {
        Some(Named::Sig(task, Some(number as u32)))
    } else {
        None
    }
}

#[tactic(auto, unfolding(crate::specs::Forms::sig_in))]
fn sig_of(reader: &mut Reader<'_>) -> Option<Named>
    ensures { result ≡ sig_in reader.old }
{
    let task = number(reader)?;
    sig_after(reader, task)
}

/// The task of what has nothing else.
#[tactic(auto, unfolding(crate::specs::Forms::only_task_in))]
fn only_task(reader: &mut Reader<'_>) -> Option<u64>
    ensures { result ≡ only_task_in reader.old }
{
    let task = number(reader)?;
    if is_last(reader) { Some(task) } else { None }
}

#[tactic(auto, unfolding(crate::specs::Forms::send_in))]
fn send_of(reader: &mut Reader<'_>) -> Option<Named>
    ensures { result ≡ send_in reader.old }
{
    let task = number(reader)?;
    let accumulator = number_within(reader, 255)?;
    let value = value(reader)?;
    if is_last(reader) {
        Some(Named::Send(task, accumulator as u8, value))
    } else {
        None
    }
}

#[tactic(auto, unfolding(crate::specs::Forms::look_in))]
fn look_of(reader: &mut Reader<'_>) -> Option<Named>
    ensures { result ≡ look_in reader.old }
{
    let task = number(reader)?;
    let accumulator = number_within(reader, 255)?;
    let seen = seen(reader)?;
    if is_last(reader) {
        Some(Named::Look(task, accumulator as u8, seen))
    } else {
        None
    }
}

/// What happened, by its name.
#[tactic(auto, unfolding(crate::specs::Forms::named_in))]
fn named_of(name: &str, reader: &mut Reader<'_>) -> Option<Named>
    ensures { result ≡ named_in name.now reader.old }
{
    match name {
        "make" => make_of(reader),
        "reg" => reg_of(reader),
        "sig" => sig_of(reader),
        "claim" => Some(Named::Claim(only_task(reader)?)),
        "did" => Some(Named::Did(only_task(reader)?)),
        "pass" => Some(Named::Pass(only_task(reader)?)),
        "send" => send_of(reader),
        "look" => look_of(reader),
        "drop" => Some(Named::Drop(only_task(reader)?)),
        _ => None,
    }
}

/// The number of a phaser, and what happened there.
#[tactic(auto, unfolding(crate::specs::Forms::event_in))]
pub(crate) fn event_of(reader: &mut Reader<'_>) -> Option<NamedEvent>
    ensures { result ≡ event_in reader.old }
{
    let phaser = number(reader)?;
    let name = word(reader)?;
    let event = named_of(name, reader)?;
    Some(NamedEvent { phaser, event })
}
