//! Whether a call can have woken somebody. If it can't, the parked ones are not gone through.
ghost use Rattle.std.specs.Prelude.{◌≡◌, option_map, ◌||◌, ◌&&◌, not, true, false, is_some};
ghost use Rattle.phase_model.specs.Waiting.{would_wait};
ghost use Rattle.phaser_core.specs.Firsts.{is_pass, first_to_pass, first_to_signal, is_phase_open, is_first_held, has_gone_on, is_made};

use crate::asked::Asked;
use crate::parked::{Parked, ParkedCall, would_park};
use phase_model::{Passing, Signalling};
use phase_modes::Refusal;
use std::collections::VecDeque;

fn is_pass(call: ParkedCall) -> bool
    ensures { result ≡ is_pass call }
{
    match call {
        ParkedCall::Pass => true,
        ParkedCall::Signal(_) => false,
    }
}

/// The first who waits to pass.
fn first_to_pass<T>(parked: &VecDeque<Parked<T>>) -> Option<&Parked<T>>
    ensures { option_map (λ p. p.now) result ≡ first_to_pass parked.now.items }
{
    parked.iter().find(|p| is_pass(p.call))
}

/// The first who waits to signal.
fn first_to_signal<T>(parked: &VecDeque<Parked<T>>) -> Option<&Parked<T>>
    ensures { option_map (λ p. p.now) result ≡ first_to_signal parked.now.items }
{
    parked.iter().find(|p| !is_pass(p.call))
}

/// Whether the phase of those who wait to pass isn't closed; if it is, they wait for its single.
/// All of them stand at the same phase, so the first shows it.
pub fn is_phase_open<S: Asked, T>(state: &S, parked: &VecDeque<Parked<T>>) -> bool
    ensures { result ≡ is_phase_open (S.story state.now) parked.now.items }
{
    match first_to_pass(parked) {
        Some(first) => state.stands_in_open_phase(first.task),
        None => true,
    }
}

/// Whether the first who waits to signal still has to. All of them stand at the same phase, so the
/// first shows it of all.
pub fn is_first_held<S: Asked, T>(state: &S, parked: &VecDeque<Parked<T>>) -> bool
    ensures { result ≡ is_first_held (S.story state.now) parked.now.items }
{
    match first_to_signal(parked) {
        Some(first) => would_park(state, first.task, first.call),
        None => true,
    }
}

/// Whether a signal or a drop may wake somebody: it closed the phase of those who wait to
/// pass, or there is another reason.
pub fn may_leave(otherwise: bool, was_open: bool, is_open: bool) -> bool
    ensures exactly { result ≡ (otherwise || (was_open && not is_open)) }
    ensures otherwise { otherwise ≡ true → result ≡ true }
    ensures closed { was_open ≡ true → is_open ≡ false → result ≡ true }
{
    otherwise || (was_open && !is_open)
}

/// Whether a pass has added an event. What it amounts to is the same for a turn's end and a claim.
pub fn has_gone_on<P: Copy>(answer: Result<Passing<P>, Refusal>) -> bool
    ensures { result ≡ has_gone_on answer }
{
    match answer {
        Ok(Passing::Passed(_)) | Ok(Passing::Claimed(_)) => true,
        Ok(Passing::NotYet) | Err(_) => false,
    }
}

/// Whether a signal has added an event.
pub fn is_made(answer: Result<Signalling, Refusal>) -> bool
    ensures { result ≡ is_made answer }
{
    match answer {
        Ok(Signalling::Signalled) => true,
        Ok(Signalling::NotYet) | Err(_) => false,
    }
}

/// Whether a signal may wake a task that waits to signal: by a proposal, after which one that
/// waits to propose another number is refused.
pub fn may_part_proposers<S: Asked>(state: &S, number: Option<u32>) -> bool
    ensures { result ≡ (is_some number && is_some (S.story state.now).terms.bound) }
{
    number.is_some() && state.is_bounded()
}

/// Whether the task itself may be parked. Without a bound, one that doesn't wait to pass isn't.
pub fn may_be_parked<S: Asked>(state: &S, task: u64) -> bool
    ensures { result ≡ (is_some (S.story state.now).terms.bound || would_wait (S.story state.now) task) }
{
    state.is_bounded() || state.waits_to_pass(task)
}

/// Whether a pass may have woken somebody: the first who waited to signal for the bound.
pub fn may_come_near<S: Asked, T>(
    bounded: bool,
    gone_on: bool,
    state: &S,
    parked: &VecDeque<Parked<T>>,
) -> bool
    ensures { result ≡ (bounded && gone_on && not (is_first_held (S.story state.now) parked.now.items)) }
{
    bounded && gone_on && !is_first_held(state, parked)
}
