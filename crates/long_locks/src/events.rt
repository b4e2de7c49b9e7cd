//! Which event a call has added, by its answer.
ghost use Rattle.std.specs.Prelude.{◌≡◌, map};
ghost use Rattle.told_history.specs.Wide.{event_of};
ghost use Rattle.long_locks.specs.Events.{with_one, make_event, register_event, signal_event, pass_event, look_event, done_event};

use phase_model::LongLook;
use phase_modes::{Mode, Refusal};
use phaser_core::{LongTask, PassAnswer, Phase, SignalAnswer};
use told_history::{LongEvent, Whole};

/// Adds the event, if there is one.
#[inline(always)]
pub(crate) fn note(log: &mut Whole<LongEvent>, event: Option<LongEvent>)
    ensures name { log.new.name ≡ log.old.name }
    ensures events { map event_of log.new.items ≡ with_one event (map event_of log.old.items) }
{
    match event {
        Some(event) => log.add(&event),
        None => {}
    }
}

/// That of a `make`.
#[inline(always)]
pub(crate) fn make_event(mode: Mode, answer: Result<LongTask, Refusal>) -> Option<LongEvent>
    ensures { result ≡ make_event mode answer }
{
    match answer {
        Ok(maker) => Some(LongEvent::Make(maker, mode)),
        Err(_) => None,
    }
}

/// That of a `register`.
#[inline(always)]
pub fn register_event(
    parent: LongTask,
    mode: Mode,
    answer: Result<LongTask, Refusal>,
) -> Option<LongEvent>
    ensures { result ≡ register_event parent mode answer }
{
    match answer {
        Ok(child) => Some(LongEvent::Reg(parent, child, mode)),
        Err(_) => None,
    }
}

/// That of a `signal`.
#[inline(always)]
pub fn signal_event<T>(
    task: LongTask,
    number: Option<u32>,
    answer: &SignalAnswer<T>,
) -> Option<LongEvent>
    ensures { result ≡ signal_event task number answer.now }
{
    match answer {
        SignalAnswer::Signalled(_) => Some(LongEvent::Sig(task, number)),
        SignalAnswer::Parked | SignalAnswer::Refused(_, _) => None,
    }
}

/// That of a `pass`.
#[inline(always)]
pub fn pass_event<T>(task: LongTask, answer: &PassAnswer<T, Phase>) -> Option<LongEvent>
    ensures { result ≡ pass_event task answer.now }
{
    match answer {
        PassAnswer::Passed(_, _) => Some(LongEvent::Pass(task)),
        PassAnswer::Claimed(_, _) => Some(LongEvent::Claim(task)),
        PassAnswer::Parked | PassAnswer::Refused(_, _) => None,
    }
}

/// That of a `look`.
#[inline(always)]
pub fn look_event(
    task: LongTask,
    accumulator: u8,
    answer: Result<LongLook, Refusal>,
) -> Option<LongEvent>
    ensures { result ≡ look_event task accumulator answer }
{
    match answer {
        Ok(seen) => Some(LongEvent::Look(task, accumulator, seen)),
        Err(_) => None,
    }
}

/// That of a call which is just done or refused.
#[inline(always)]
pub fn done_event(event: LongEvent, answer: Result<(), Refusal>) -> Option<LongEvent>
    ensures { result ≡ done_event event answer }
{
    match answer {
        Ok(()) => Some(event),
        Err(_) => None,
    }
}
