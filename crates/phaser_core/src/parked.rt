//! The list of those who wait at a phaser: who is put in, and who is woken.
ghost use Rattle.std.specs.Prelude.{◌≡◌, Ok, [], ◌<◌, ◌≤◌, true, false};
ghost use Rattle.std.specs.VecDeque.{deque_len, deque_capacity};
ghost use Rattle.phase_model.specs.declared.answer.Signalling.TheVariants.{NotYet as Held};
ghost use Rattle.phase_model.specs.declared.answer.Passing.TheVariants.{NotYet};
ghost use Rattle.phaser_core.specs.Parking.{is_parked, would_park, all_wait, waiting, freed, locked_pass, goes_on, has_to_wait, IsBack, locked_signal, has_signalled, is_held, IsBackFromSignal, parking};
ghost use Rattle.phaser_core.specs.Firsts.{has_gone_on, is_made};

use crate::answer::{PassAnswer, SignalAnswer};
use crate::asked::Asked;
use crate::out::Out;
use phase_model::{Passing, Signalling};
use phase_modes::Refusal;
use std::collections::VecDeque;

/// The call for which a task is parked: it would still be answered `NotYet`.
#[derive(Clone, Copy, Debug, PartialEq, Eq)]
pub enum ParkedCall {
    /// Its pass.
    Pass,
    /// Its signal, with the number that it proposes.
    Signal(Option<u32>),
}

/// A task that waits at a phaser, and the item that leaves with it.
#[derive(Drop)]
pub struct Parked<T> {
    pub task: u64,
    pub call: ParkedCall,
    pub item: T,
}

/// Whether this call of the task would be answered `NotYet`.
pub(crate) fn would_park<S: Asked>(state: &S, task: u64, call: ParkedCall) -> bool
    ensures { result ≡ would_park (S.story state.now) task call }
{
    match call {
        ParkedCall::Pass => state.waits_to_pass(task),
        ParkedCall::Signal(number) => state.waits_to_signal(task, number),
    }
}

/// Wakes all who need no longer wait.
// Rare beside the calls that wake nobody, which it would make larger.
#[inline(never)]
fn release<S: Asked, T>(state: &S, parked: &mut VecDeque<Parked<T>>, out: &mut Out<T>)
    requires seats { 256 ≤ deque_capacity parked.old }
    requires seated { deque_len parked.old ≤ 256 }
    requires empty { out.old ≡ [] }
    ensures parked { parked.new.items ≡ waiting (S.story state.now) parked.old.items }
    ensures out { out.new ≡ freed (S.story state.now) parked.old.items }
    ensures seats { 256 ≤ deque_capacity parked.new }
    ensures seated { deque_len parked.new ≤ 256 }
{
    let turns = parked.len();
    for _turn in 0..turns {
        let Some(next) = parked.pop_front() else {
            unreachable!()
        };
        if would_park(state, next.task, next.call) {
            parked.push_back_reserved(next);
        } else {
            let Parked { item, .. } = next;
            out.put(item);
        }
    }
}

/// Wakes all who need no longer wait. If nobody can have been woken, the list isn't
/// gone through.
pub fn release_if<S: Asked, T>(
    may_leave: bool,
    state: &S,
    parked: &mut VecDeque<Parked<T>>,
    out: &mut Out<T>,
)
    requires seats { 256 ≤ deque_capacity parked.old }
    requires seated { deque_len parked.old ≤ 256 }
    requires empty { out.old ≡ [] }
    requires nobody { may_leave ≡ false → all_wait (S.story state.now) parked.old.items ≡ true }
    ensures parked { parked.new.items ≡ waiting (S.story state.now) parked.old.items }
    ensures out { out.new ≡ freed (S.story state.now) parked.old.items }
    ensures seats { 256 ≤ deque_capacity parked.new }
    ensures seated { deque_len parked.new ≤ 256 }
{
    if may_leave {
        release(state, parked, out);
    }
}

/// Whether the task is parked.
pub fn is_parked<T>(parked: &VecDeque<Parked<T>>, task: u64) -> bool
    ensures { result ≡ is_parked task parked.now.items }
{
    parked.iter().any(|p| p.task == task)
}

/// Hands the item back with the answer of a pass, or parks it if the task has to come again;
/// `NotNow` if the task is parked already.
pub fn settle_pass<P, T>(
    answer: Result<Passing<P>, Refusal>,
    parked: &mut VecDeque<Parked<T>>,
    task: u64,
    item: T,
) -> PassAnswer<T, P>
    requires seats { 256 ≤ deque_capacity parked.old }
    requires seated { deque_len parked.old ≤ 256 }
    requires place { answer ≡ Ok NotYet → is_parked task parked.old.items ≡ false
        → deque_len parked.old < 256 }
    ensures answer { result ≡ locked_pass answer (is_parked task parked.old.items) item }
    ensures goes_on { goes_on result ≡ has_gone_on answer }
    ensures item { IsBack item result }
    ensures parked { parked.new.items ≡ parking (has_to_wait answer) (is_parked task parked.old.items)
        (record { task = task; call = ParkedCall.Pass; item = item }) parked.old.items }
    ensures seats { 256 ≤ deque_capacity parked.new }
    ensures seated { deque_len parked.new ≤ 256 }
{
    match answer {
        Ok(Passing::Passed(phase)) => PassAnswer::Passed(item, phase),
        Ok(Passing::Claimed(number)) => PassAnswer::Claimed(item, number),
        Ok(Passing::NotYet) => {
            if is_parked(parked, task) {
                return PassAnswer::Refused(item, Refusal::NotNow);
            }
            let call = ParkedCall::Pass;
            parked.push_back_reserved(Parked { task, call, item });
            PassAnswer::Parked
        }
        Err(refusal) => PassAnswer::Refused(item, refusal),
    }
}

/// The same for the answer of a signal with this number.
pub fn settle_signal<T>(
    answer: Result<Signalling, Refusal>,
    parked: &mut VecDeque<Parked<T>>,
    task: u64,
    number: Option<u32>,
    item: T,
) -> SignalAnswer<T>
    requires seats { 256 ≤ deque_capacity parked.old }
    requires seated { deque_len parked.old ≤ 256 }
    requires place { answer ≡ Ok Held → is_parked task parked.old.items ≡ false → deque_len parked.old < 256 }
    ensures answer { result ≡ locked_signal answer (is_parked task parked.old.items) item }
    ensures signalled { has_signalled result ≡ is_made answer }
    ensures item { IsBackFromSignal item result }
    ensures parked { parked.new.items ≡ parking (is_held answer) (is_parked task parked.old.items)
        (record { task = task; call = ParkedCall.Signal number; item = item }) parked.old.items }
    ensures seats { 256 ≤ deque_capacity parked.new }
    ensures seated { deque_len parked.new ≤ 256 }
{
    match answer {
        Ok(Signalling::Signalled) => SignalAnswer::Signalled(item),
        Ok(Signalling::NotYet) => {
            if is_parked(parked, task) {
                return SignalAnswer::Refused(item, Refusal::NotNow);
            }
            let call = ParkedCall::Signal(number);
            parked.push_back_reserved(Parked { task, call, item });
            SignalAnswer::Parked
        }
        Err(refusal) => SignalAnswer::Refused(item, refusal),
    }
}
