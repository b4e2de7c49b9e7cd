//! Merges parts in which the tickets of a run stand, nearly all of them and each once, with no
//! sorting: a table says of each ticket whose turn it is.
ghost use Rattle.std.specs.Prelude.{◌≡◌, ◌<◌, ℕ, length, replicate, true, IfOk, IfErr, IfSome};
ghost use Rattle.phase_modes.specs.Limits.{limits_fit};
ghost use Rattle.trace_replay.specs.inner.Turned.{IsTurned, AreTaken};

use phase_modes::{Limits, Refusal};
use std::alloc::{AllocError, Global};
use trace_model::{Part, Trace};

/// It is no part's turn.
const NOBODY: u32 = u32::MAX;

/// How many events the parts have, or the greatest number if they have more.
fn events_in(parts: &[Part]) -> usize {
    let mut events = 0usize;
    for part in parts {
        events = events.saturating_add(part.len());
    }
    events
}

/// Notes the part at its tickets, as far as the table goes.
fn note(turns: &mut [u32], number: u32, part: &Part) {
    for place in 0..part.len() {
        if let Some(turn) = turns.get_mut(part.ticket(place) as usize) {
            *turn = number;
        }
    }
}

/// Which part has the event of each ticket, for twice as many tickets as there are events. A guess:
/// the parts may have other tickets, and one more than once.
fn turns_of(alloc: Global, parts: &[Part]) -> Result<Vec<u32>, AllocError> {
    let tickets = events_in(parts).saturating_mul(2).saturating_add(1);
    let mut turns = vec![in alloc; NOBODY; tickets]?;
    let mut number = 0u32;
    for part in parts {
        note(turns.as_mut_slice(), number, part);
        number = number.saturating_add(1);
    }
    Ok(turns)
}

/// No entry is taken yet.
fn none_taken(alloc: Global, parts: usize) -> Result<Vec<usize>, AllocError>
    ensures { IfOk result (λ v. v.items ≡ replicate parts 0) }
{
    vec![in alloc; 0usize; parts]
}

/// Whether of each part all entries were taken.
fn are_taken(parts: &[Part], next: &[usize]) -> bool
    requires { length next.now ≡ length parts.now }
    ensures { result ≡ true → AreTaken parts.now next.now }
{
    for (number, part) in parts.iter().enumerate() {
        if next[number] != part.len() {
            return false;
        }
    }
    true
}

/// The trace of the parts, if these turns lead through all their entries by rising ticket. None
/// if they don't.
fn in_turn(
    alloc: Global,
    limits: Limits,
    parts: &[Part],
    turns: &[u32],
) -> Result<Option<Trace>, Refusal>
    requires { limits_fit limits ≡ true }
    ensures turned { IfOk result (λ o. IfSome o (λ t. IsTurned limits parts.now t)) }
    ensures memory { IfErr result (λ e. e ≡ Refusal.Memory) }
{
    let mut trace = Trace::with_capacity(alloc, limits, turns.len() / 2)?;
    let mut next = none_taken(alloc, parts.len())?;
    let mut last = 0;
    for turn in turns {
        let number = *turn as usize;
        if number < parts.len() {
            let part = &parts[number];
            let place = next[number];
            if place >= part.len() {
                return Ok(None);
            }
            let ticket = part.ticket(place);
            if ticket <= last {
                return Ok(None);
            }
            part.add_to(place, &mut trace)?;
            next[number] = place + 1;
            last = ticket;
        }
    }
    if are_taken(parts, &next) {
        Ok(Some(trace))
    } else {
        Ok(None)
    }
}

/// The trace of the parts, if the tickets are nearly dense, no event is at fault, and none has
/// ticket 0. None if it can't be told so.
pub(crate) fn merged_in_turn(
    alloc: Global,
    limits: Limits,
    parts: &[Part],
) -> Result<Option<Trace>, Refusal>
    requires { limits_fit limits ≡ true }
    ensures turned { IfOk result (λ o. IfSome o (λ t. IsTurned limits parts.now t)) }
    ensures memory { IfErr result (λ e. e ≡ Refusal.Memory) }
{
    let turns = turns_of(alloc, parts)?;
    in_turn(alloc, limits, parts, &turns)
}
