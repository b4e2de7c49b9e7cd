//! Numbers in digits alone, and lists of them with commas between.
ghost use Rattle.std.specs.Prelude.{◌≡◌, ◌<◌, ◌≤◌, length, Some, IfErr, IfOk, IfSome, option_map};
ghost use Rattle.std.specs.Char.{is_ascii_digit};
ghost use Rattle.std.specs.List.{list_all};
ghost use Rattle.std.specs.Range.{range_inclusive_start, range_inclusive_end};
ghost use Rattle.command_words.specs.CommandLine.{IsOfValue, items_value, steps_value};
ghost use Rattle.command_words.specs.Lists.{count_in, every_in, first_in, amount_of, before_s, each_in, items_in, list_in, listed_in, most_items, most_steps, number_of_bits, number_within, steps_in, workers_in};

use crate::command_line::{Every, NoJob, Value};
use std::alloc::Global;
use std::ops::RangeInclusive;

/// How many picks a list has at most.
pub(crate) const MOST_PICKS: usize = 10_000;

/// The greatest pick.
pub(crate) const GREATEST_PICK: u32 = 4_294_967_295;

/// How many cells a stencil has at most.
pub(crate) const MOST_CELLS: usize = 16;

/// The greatest first value of a cell.
pub(crate) const GREATEST_CELL: u32 = 1_000_000;

/// Whether each byte is a digit.
fn is_digits(text: &str) -> bool
    ensures { result ≡ list_all is_ascii_digit text.now }
{
    text.as_bytes().iter().all(|byte| byte.is_ascii_digit())
}

/// The number that digits alone spell, if it has 32 bits.
#[tactic(auto, using(crate::proofs::Numbers::of_digits, crate::proofs::Numbers::of_others))]
fn number_of(text: &str) -> Option<u32>
    ensures { result ≡ number_of_bits 32 text.now }
{
    if is_digits(text) {
        text.parse().ok()
    } else {
        None
    }
}

/// The same, if it isn't out of range.
pub(crate) fn number_within(range: RangeInclusive<u32>, text: &str) -> Option<u32>
    ensures { result ≡ number_within (range_inclusive_start range) (range_inclusive_end range) text.now }
{
    let (least, greatest) = range.into_inner();
    let number = number_of(text)?;
    if least <= number && number <= greatest {
        Some(number)
    } else {
        None
    }
}

/// The numbers of a list, no more and none greater than are allowed; if it is none, the value
/// of this name is bad.
pub(crate) fn list_of(
    alloc: Global,
    name: Value,
    most: usize,
    greatest: u32,
    list: &str,
) -> Result<Vec<u32>, NoJob>
    ensures numbers { IfOk result (λ numbers. list_in most greatest list.now ≡ Some numbers.items) }
    ensures few { IfOk result (λ numbers. length numbers.items ≤ most) }
    ensures none { IfErr result (IsOfValue name (list_in most greatest list.now)) }
{
    let mut numbers = Vec::new(alloc);
    for piece in list.split(',') {
        let Some(number) = number_within(0..=greatest, piece) else {
            return Err(NoJob::BadValue(name));
        };
        if numbers.len() == most {
            return Err(NoJob::BadValue(name));
        }
        if numbers.push(number).is_err() {
            return Err(NoJob::Memory);
        }
    }
    Ok(numbers)
}

/// The picks that LIST spells, or none if it isn't given.
pub(crate) fn picks_of(alloc: Global, list: Option<&str>) -> Result<Vec<u32>, NoJob>
    ensures picks { IfOk result (λ picks. listed_in (option_map (λ t. t.now) list.entry) ≡ Some picks.items) }
    ensures none { IfErr result (IsOfValue Value.Picks (listed_in (option_map (λ t. t.now) list.entry))) }
{
    match list {
        Some(text) => list_of(alloc, Value::Picks, MOST_PICKS, GREATEST_PICK, text),
        None => Ok(Vec::new(alloc)),
    }
}

/// The first values of a stencil.
pub(crate) fn first_of(alloc: Global, list: &str) -> Result<Vec<u32>, NoJob>
    ensures first { IfOk result (λ first. first_in list.now ≡ Some first.items) }
    ensures few { IfOk result (λ first. length first.items ≤ MOST_CELLS) }
    ensures none { IfErr result (IsOfValue Value.First (first_in list.now)) }
{
    list_of(alloc, Value::First, MOST_CELLS, GREATEST_CELL, list)
}

/// The number that the text spells, if it isn't out of range; else the value of this name is bad.
pub(crate) fn value_of(name: Value, range: RangeInclusive<u32>, text: &str) -> Result<u32, NoJob>
    ensures number { IfOk result (λ n.
        number_within (range_inclusive_start range) (range_inclusive_end range) text.now ≡ Some n) }
    ensures within { IfOk result (λ n. (range_inclusive_start range ≤ n) × (n ≤ range_inclusive_end range)) }
    ensures none { IfErr result (IsOfValue name
        (number_within (range_inclusive_start range) (range_inclusive_end range) text.now)) }
{
    match number_within(range, text) {
        Some(number) => Ok(number),
        None => Err(NoJob::BadValue(name)),
    }
}

/// What the steps are to be.
fn steps_value(live: bool) -> Value
    ensures { result ≡ steps_value live }
{
    if live { Value::LiveSteps } else { Value::Steps }
}

/// How many steps a stencil goes at most: if its events aren't kept, any number of 32 bits.
fn most_steps(live: bool) -> u32
    ensures { result ≡ most_steps live }
{
    if live { 4_294_967_295 } else { 100 }
}

/// How many steps a stencil goes.
pub(crate) fn steps_of(text: &str, live: bool) -> Result<u32, NoJob>
    ensures steps { IfOk result (λ n. steps_in live text.now ≡ Some n) }
    ensures within { IfOk result (λ n. n ≤ most_steps live) }
    ensures none { IfErr result (IsOfValue (steps_value live) (steps_in live text.now)) }
{
    value_of(steps_value(live), 0..=most_steps(live), text)
}

/// How many stages a pipeline has.
pub(crate) fn stages_of(text: &str) -> Result<u32, NoJob>
    ensures stages { IfOk result (λ n. number_within 1 15 text.now ≡ Some n) }
    ensures within { IfOk result (λ n. (0 < n) × (n ≤ 15)) }
    ensures none { IfErr result (IsOfValue Value.Stages (number_within 1 15 text.now)) }
{
    value_of(Value::Stages, 1..=15, text)
}

/// What the items are to be.
fn items_value(live: bool) -> Value
    ensures { result ≡ items_value live }
{
    if live { Value::LiveItems } else { Value::Items }
}

/// How many items go through a pipeline at most: if its events aren't kept, as many as leave each item
/// small enough for a message.
fn most_items(live: bool) -> u32
    ensures { result ≡ most_items live }
{
    if live { 2_000_000_000 } else { 100 }
}

/// How many items go through a pipeline.
pub(crate) fn items_of(text: &str, live: bool) -> Result<u32, NoJob>
    ensures items { IfOk result (λ n. items_in live text.now ≡ Some n) }
    ensures within { IfOk result (λ n. n ≤ most_items live) }
    ensures none { IfErr result (IsOfValue (items_value live) (items_in live text.now)) }
{
    value_of(items_value(live), 0..=most_items(live), text)
}

/// How many workers: two, if that isn't given.
pub(crate) fn workers_of(text: Option<&str>) -> Result<u32, NoJob>
    ensures workers { IfOk result (λ n. workers_in (option_map (λ t. t.now) text.entry) ≡ Some n) }
    ensures within { IfOk result (λ n. (0 < n) × (n ≤ 16)) }
    ensures none { IfErr result (IsOfValue Value.Workers (workers_in (option_map (λ t. t.now) text.entry))) }
{
    match text {
        Some(text) => value_of(Value::Workers, 1..=16, text),
        None => Ok(2),
    }
}

/// The number that digits alone spell, if it has 64 bits.
#[tactic(auto, using(crate::proofs::Numbers::of_digits, crate::proofs::Numbers::of_others))]
fn long_of(text: &str) -> Option<u64>
    ensures { result ≡ number_of_bits 64 text.now }
{
    if is_digits(text) {
        text.parse().ok()
    } else {
        None
    }
}

/// The same, if it isn't 0.
fn count_of(text: &str) -> Option<u64>
    ensures count { result ≡ count_in text.now }
    ensures some { IfSome result (λ n. 0 < n) }
{
    let number = long_of(text)?;
    if 1 <= number { Some(number) } else { None }
}

/// The text before the `s` that ends it, if one does.
#[tactic(auto, using(crate::proofs::Seconds::before, crate::proofs::Seconds::no_s))]
fn before_s(text: &str) -> Option<&str>
    ensures { option_map (λ t. t.now) result ≡ before_s text.now }
{
    text.strip_suffix("s")
}

/// After how many events each time, or with an `s` after it, after how many seconds.
fn each_of(text: &str) -> Option<Every>
    ensures each { result ≡ each_in text.now }
    ensures some { IfSome result (λ e. 0 < amount_of e) }
{
    match before_s(text) {
        Some(front) => Some(Every::Seconds(count_of(front)?)),
        None => Some(Every::Events(count_of(text)?)),
    }
}

/// The same, if that is given.
pub(crate) fn every_of(text: Option<&str>) -> Result<Option<Every>, NoJob>
    ensures every { IfOk result (λ every. every_in (option_map (λ t. t.now) text.entry) ≡ Some every) }
    ensures some { IfOk result (λ every. IfSome every (λ e. 0 < amount_of e)) }
    ensures none { IfErr result (IsOfValue Value.Every (every_in (option_map (λ t. t.now) text.entry))) }
{
    let Some(text) = text else {
        return Ok(None);
    };
    match each_of(text) {
        Some(every) => Ok(Some(every)),
        None => Err(NoJob::BadValue(Value::Every)),
    }
}
