//! The answers of a table's calls, as the rows of the worked examples have them.
use phase_model::{Look, Reply};
use phase_modes::Refusal;
use scope_locks::{PassAnswer, SignalAnswer};
use worked_examples::Row;

pub(crate) fn plainly(answer: Result<(), Refusal>) -> Reply {
    match answer {
        Ok(()) => Reply::Done,
        Err(refusal) => Reply::Refused(refusal),
    }
}

pub(crate) fn looked(answer: Result<Look, Refusal>) -> Reply {
    match answer {
        Ok(seen) => Reply::Saw(seen),
        Err(refusal) => Reply::Refused(refusal),
    }
}

pub(crate) fn signalled(answer: SignalAnswer<u32>) -> Reply {
    match answer {
        SignalAnswer::Signalled(_) => Reply::Done,
        SignalAnswer::Parked => Reply::NotYet,
        SignalAnswer::Refused(_, refusal) => Reply::Refused(refusal),
    }
}

pub(crate) fn turned(answer: PassAnswer<u32>) -> Reply {
    match answer {
        PassAnswer::Passed(_, phase) => Reply::Phase(phase),
        PassAnswer::Claimed(_, number) => Reply::Claim(number),
        PassAnswer::Parked => Reply::NotYet,
        PassAnswer::Refused(_, refusal) => Reply::Refused(refusal),
    }
}

/// How many of the rows are events: those that are neither refused nor have to come again.
pub(crate) fn events_of_rows(rows: &[Row]) -> u64 {
    let mut events = 0u64;
    for (_call, reply) in rows {
        match reply {
            Reply::NotYet | Reply::Refused(_) => {}
            _ => events = events.saturating_add(1),
        }
    }
    events
}
