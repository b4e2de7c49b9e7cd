//! Who waits: the first of two tasks has signalled and the second hasn't, then both have. What
//! calls would be answered is asked before.
use super::*;
use crate::asserted::{equal, equal_at};

/// A task, whether it would wait, and whether it stands in an open phase.
type Stand = (u32, bool, bool);

fn stands(rt: &impl Abort, state: &PhaserState, rows: &[Stand]) {
    for (task, would_wait, is_in_open_phase) in rows {
        equal_at(rt, ("task", task), state.would_wait(*task), *would_wait);
        equal_at(
            rt,
            ("task", task),
            state.is_in_open_phase(*task),
            *is_in_open_phase,
        );
    }
}

/// Each call would be replied to as its row says.
fn would_be(rt: &impl Abort, state: &PhaserState, rows: &[Row]) {
    for (call, reply) in rows {
        equal_at(rt, call, state.reply_to(*call), *reply);
    }
}

#[test]
fn first_of_two_waits(rt: HostRuntime) -> Result<(), Fail> {
    const SIGNALLED: Example = Example {
        rows: &[
            (Call::Make(0, Mode::SigWait), Reply::Done),
            (Call::Register(0, 1, Mode::SigWait), Reply::Done),
            (Call::Signal(0, None), Reply::Done),
        ],
        ..PLAIN
    };
    // A pass of task 1, which hasn't signalled, would be refused, and so would one of task 2, which
    // isn't registered.
    const ONE_SIGNALLED: [Stand; 3] = [(0, true, true), (1, false, true), (2, false, false)];
    const REPLIES: [Row; 4] = [
        (Call::Pass(0), Reply::NotYet),
        (Call::Pass(1), Reply::Refused(Refusal::NotSignalled)),
        (Call::Drop(2), Reply::Refused(Refusal::NotRegistered)),
        (Call::Signal(1, None), Reply::Done),
    ];
    const BOTH_SIGNALLED: [Stand; 2] = [(0, false, false), (1, false, false)];
    let mut state = play(&rt, rt.alloc(), &SIGNALLED)?;
    stands(&rt, &state, ONE_SIGNALLED.as_slice());
    would_be(&rt, &state, REPLIES.as_slice());
    equal(&rt, state.signal(1, None), Ok(Signalling::Signalled));
    stands(&rt, &state, BOTH_SIGNALLED.as_slice());
    Ok(())
}
