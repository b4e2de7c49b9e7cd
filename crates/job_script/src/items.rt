//! The JSON value that bytes are, and the items of a list: numbers, values, words, modes, operators.
//! An item is none if it is absent, of another kind or out of its range.
ghost use Rattle.std.specs.Prelude.{◌≡◌, ◌↔◌, IsTrue, option_map};
ghost use Rattle.serde_json.specs.Errors.{IsMemory};
ghost use Rattle.serde_json.specs.View.{view, items_view};
ghost use Rattle.job_script.specs.Reading.{reading, json_read, Gives};
ghost use Rattle.job_script.specs.Words.{number_in, bound_in, bound_at, value_in, mode_in, op_in, word_at, number_at, accumulator_at, value_at, mode_at, all_in, at_most, ops_in, ops_at};

use phase_model::{Bound, Op, Ops};
use phase_modes::{Mode, Refusal};
use serde_json::{Category, Error, Value};
use std::alloc::Global;

// ---- JSON

fn is_memory(error: &Error) -> bool
    ensures { IsTrue result ↔ IsMemory error.now }
{
    error.classify() == Category::Memory
}

/// The JSON value that the bytes are. `BadText` at place 0 if they are none, nest deeper than
/// the JSON reader goes, or aren't UTF-8; `Memory` if there is too little for the value.
pub fn json_of(alloc: Global, bytes: &[u8]) -> Result<Value, Refusal>
    ensures { Gives view result (json_read (reading bytes.now)) }
{
    match Value::from_slice(alloc, bytes) {
        Ok(value) => Ok(value),
        Err(error) => {
            if is_memory(&error) {
                return Err(Refusal::Memory);
            }
            Err(Refusal::BadText(0))
        }
    }
}

// ---- numbers

/// A whole number that is at most `most`. As JSON is read, `-0`, `1.0` and `1e0` are no whole
/// numbers.
pub fn number_of(value: &Value, most: u32) -> Option<u32>
    ensures { result ≡ number_in most (view value.now) }
{
    let number = value.as_u64()?;
    if number <= u64::from(most) {
        Some(number as u32)
    } else {
        None
    }
}

/// The number of a task, a phaser, a finish or a single at an index of a list: 0 to 4,294,967,295.
pub fn number_at(list: &Value, index: usize) -> Option<u32>
    ensures { result ≡ number_at index (view list.now) }
{
    number_of(list.get(index)?, u32::MAX)
}

/// The accumulator's index at an index of a list: 0 to 255.
pub fn accumulator_at(list: &Value, index: usize) -> Option<u8>
    ensures { result ≡ accumulator_at index (view list.now) }
{
    let number = number_of(list.get(index)?, 255)?;
    Some(number as u8)
}

/// A phaser's bound: 1 to 65,536.
pub fn bound_of(value: &Value) -> Option<Bound>
    ensures { result ≡ bound_in (view value.now) }
{
    let number = number_of(value, 65536)?;
    Bound::of(number)
}

/// The bound at an index of a list.
pub fn bound_at(list: &Value, index: usize) -> Option<Bound>
    ensures { result ≡ bound_at index (view list.now) }
{
    bound_of(list.get(index)?)
}

fn value_of(value: &Value) -> Option<i32>
    ensures { result ≡ value_in (view value.now) }
{
    let number = value.as_i64()?;
    if number < i32::MIN as i64 || (i32::MAX as i64) < number {
        return None;
    }
    Some(number as i32)
}

/// The value at an index of a list: a whole number of 32 bits with a sign.
pub fn value_at(list: &Value, index: usize) -> Option<i32>
    ensures { result ≡ value_at index (view list.now) }
{
    value_of(list.get(index)?)
}

// ---- words

/// The word at an index of a list.
pub fn word_at(list: &Value, index: usize) -> Option<&str>
    ensures { option_map (λ word. word.now) result ≡ word_at index (view list.now) }
{
    list.get(index)?.as_str()
}

#[tactic(auto, unfolding(crate::specs::Words::mode_in))]
fn mode_of(value: &Value) -> Option<Mode>
    ensures { result ≡ mode_in (view value.now) }
{
    let name = value.as_str()?;
    Mode::of_name(name)
}

/// The mode that is named at an index of a list.
pub fn mode_at(list: &Value, index: usize) -> Option<Mode>
    ensures { result ≡ mode_at index (view list.now) }
{
    mode_of(list.get(index)?)
}

// ---- operators

#[tactic(auto, unfolding(crate::specs::Words::op_in))]
fn op_of(value: &Value) -> Option<Op>
    ensures { result ≡ op_in (view value.now) }
{
    let name = value.as_str()?;
    Op::of_name(name)
}

/// The operators, if each item is the name of one and there are at most four.
fn ops_named(items: &[Value]) -> Option<Ops>
    ensures { result ≡ at_most 4 (all_in op_in (items_view items.now)) }
{
    let mut ops = Ops::none();
    for item in items {
        match op_of(item) {
            None => return None,
            Some(op) => {
                if ops.len() >= 4 {
                    return None;
                }
                ops.push(op);
            }
        }
    }
    Some(ops)
}

/// The operators that a list names, at most four.
pub fn ops_of(list: &Value) -> Option<Ops>
    ensures { result ≡ ops_in (view list.now) }
{
    let items = list.as_array()?;
    ops_named(items)
}

/// The operators that the list at an index of a list names, at most four.
pub fn ops_at(list: &Value, index: usize) -> Option<Ops>
    ensures { result ≡ ops_at index (view list.now) }
{
    ops_of(list.get(index)?)
}
