//! Reads what was done on a phaser, with what a look saw.
ghost use Rattle.std.specs.Prelude.{◌≡◌};
ghost use Rattle.serde_json.specs.View.{view};
ghost use Rattle.trace_text.specs.Form.{make_in, reg_in, sig_in, send_in, seen_in, look_in, task_step_in, step_in};
ghost use Rattle.trace_model.specs.declared.event.TracedStep.TheVariants as step;

use super::bound::bound_after;
use crate::version::Version;
use job_script::{accumulator_at, mode_at, number_at, ops_at, value_at, word_at};
use phase_model::{Look, Terms};
use serde_json::Value;
use trace_model::TracedStep;

#[tactic(auto, unfolding(crate::specs::Form::make_in))]
fn make_of(version: Version, list: &Value) -> Option<TracedStep>
    ensures { result ≡ make_in version (view list.now) }
{
    let bound = bound_after(version, 7, list)?;
    let task = number_at(list, 4)?;
    let mode = mode_at(list, 5)?;
    let ops = ops_at(list, 6)?;
    Some(TracedStep::Make(task, mode, Terms { ops, bound }))
}

#[tactic(auto, unfolding(crate::specs::Form::reg_in))]
fn reg_of(list: &Value) -> Option<TracedStep>
    ensures { result ≡ reg_in (view list.now) }
{
    if list.get(7).is_some() {
        return None;
    }
    let parent = number_at(list, 4)?;
    let child = number_at(list, 5)?;
    let mode = mode_at(list, 6)?;
    Some(TracedStep::Reg(parent, child, mode))
}

#[tactic(auto, unfolding(crate::specs::Form::sig_in))]
fn sig_of(list: &Value) -> Option<TracedStep>
    ensures { result ≡ sig_in (view list.now) }
{
    if list.get(6).is_some() {
        return None;
    }
    let task = number_at(list, 4)?;
    if list.get(5).is_none() {
        return Some(TracedStep::Sig(task, None));
    }
    let number = number_at(list, 5)?;
    Some(TracedStep::Sig(task, Some(number)))
}

#[tactic(auto, unfolding(crate::specs::Form::task_step_in))]
fn claim_of(list: &Value) -> Option<TracedStep>
    ensures { result ≡ task_step_in step.Claim (view list.now) }
{
    if list.get(5).is_some() {
        return None;
    }
    let task = number_at(list, 4)?;
    Some(TracedStep::Claim(task))
}

#[tactic(auto, unfolding(crate::specs::Form::task_step_in))]
fn did_of(list: &Value) -> Option<TracedStep>
    ensures { result ≡ task_step_in step.Did (view list.now) }
{
    if list.get(5).is_some() {
        return None;
    }
    let task = number_at(list, 4)?;
    Some(TracedStep::Did(task))
}

#[tactic(auto, unfolding(crate::specs::Form::task_step_in))]
fn pass_of(list: &Value) -> Option<TracedStep>
    ensures { result ≡ task_step_in step.Pass (view list.now) }
{
    if list.get(5).is_some() {
        return None;
    }
    let task = number_at(list, 4)?;
    Some(TracedStep::Pass(task))
}

#[tactic(auto, unfolding(crate::specs::Form::task_step_in))]
fn drop_of(list: &Value) -> Option<TracedStep>
    ensures { result ≡ task_step_in step.Drop (view list.now) }
{
    if list.get(5).is_some() {
        return None;
    }
    let task = number_at(list, 4)?;
    Some(TracedStep::Drop(task))
}

#[tactic(auto, unfolding(crate::specs::Form::send_in))]
fn send_of(list: &Value) -> Option<TracedStep>
    ensures { result ≡ send_in (view list.now) }
{
    if list.get(7).is_some() {
        return None;
    }
    let task = number_at(list, 4)?;
    let accumulator = accumulator_at(list, 5)?;
    let value = value_at(list, 6)?;
    Some(TracedStep::Send(task, accumulator, value))
}

/// What was seen: a number, or null for nothing.
fn seen_of(value: &Value) -> Option<Look>
    ensures { result ≡ seen_in (view value.now) }
{
    if value.is_null() {
        return Some(Look::Nothing);
    }
    let seen = value.as_i64()?;
    Some(Look::Value(seen))
}

#[tactic(auto, unfolding(crate::specs::Form::look_in))]
fn look_of(list: &Value) -> Option<TracedStep>
    ensures { result ≡ look_in (view list.now) }
{
    if list.get(7).is_some() {
        return None;
    }
    let task = number_at(list, 4)?;
    let accumulator = accumulator_at(list, 5)?;
    let seen = seen_of(list.get(6)?)?;
    Some(TracedStep::Look(task, accumulator, seen))
}

/// A step on a phaser, by its name.
#[tactic(auto, unfolding(crate::specs::Form::step_in))]
pub(super) fn step_of(version: Version, list: &Value) -> Option<TracedStep>
    ensures { result ≡ step_in version (view list.now) }
{
    match word_at(list, 3)? {
        "make" => make_of(version, list),
        "reg" => reg_of(list),
        "sig" => sig_of(list),
        "claim" => claim_of(list),
        "did" => did_of(list),
        "pass" => pass_of(list),
        "send" => send_of(list),
        "look" => look_of(list),
        "drop" => drop_of(list),
        _ => None,
    }
}
