//! The worked examples. Their tasks are numbered in the order in which they are registered, so these
//! are the numbers that have to be given out.
use super::*;
use crate::asserted::equal_at;

/// The bound of an example that has none: in none of them a signaller is so far ahead of a waiter.
const FAR: u32 = 65_536;

/// The examples, each with the number of its rows that are played, counted by hand.
///
/// Left out are those that need other limits, `HISTORY_FULL`, `NO_ROOM_FOR_A_SINGLE`,
/// `ROOM_FOR_A_SINGLE` and `REGISTRATIONS_FULL`, and `ASKED_AGAIN_WHILE_PARKED`, which is for a table.
const PLAYED: [(Example, u32); 15] = [
    (ONE_TASK_TURN, 3),
    (LATE_READER, 19),
    (TWO_TASKS_TURN, 7),
    (WAITER_ALONE, 4),
    (SPLIT_PHASE_CHILD, 10),
    (SIGNALLER_RUNS_AHEAD, 14),
    (VALUE_OF_DROPPED_SENDER, 9),
    (EMPTY_FOLDS, 9),
    (EXTREME_VALUES, 9),
    (VALUE_AFTER_SIGNAL, 14),
    (SINGLE_STATEMENT, 16),
    // All but the two that register task 1 once more.
    (REFUSALS_IN_ORDER, 10),
    (PLAIN_WAITER_HOLDS_STILL, 10),
    (BOUNDED_SIGNALLER, 9),
    (BOUND_AND_REFUSALS, 8),
];

/// Whether a phaser that gives the numbers out itself can refuse so: nobody can name a new task's
/// number.
fn can_be(reply: Reply) -> bool {
    reply != Reply::Refused(Refusal::RegisteredTwice)
}

/// Each call of the example is replied to as its row says. How many there were.
fn play(rt: &impl Abort, alloc: Global, example: &Example) -> Result<u32, Refusal> {
    let mut phaser = fresh(alloc, example.operators, example.bound.unwrap_or(FAR))?;
    let mut played: u32 = 0;
    for (call, wanted) in example.rows.iter().filter(|(_, reply)| can_be(*reply)) {
        replies(rt, &mut phaser, *call, *wanted);
        played = played.saturating_add(1);
    }
    Ok(played)
}

#[test]
fn examples_are_replied_to_as_their_rows_say(rt: HostRuntime) -> Result<(), Fail> {
    for (example, rows) in PLAYED.iter() {
        equal_at(&rt, example, play(&rt, rt.alloc(), example)?, *rows);
    }
    Ok(())
}

/// The maker and 255 others are registered: there is no room for another until one has left, and
/// then that one gets a number that nobody had.
#[test]
fn registrations_have_room_for_256(rt: HostRuntime) -> Result<(), Fail> {
    const FULL: [Row; 4] = [
        (
            Call::Register(0, 256, Mode::Sig),
            Reply::Refused(Refusal::RegsFull),
        ),
        (Call::Drop(7), Reply::Done),
        (Call::Register(0, 256, Mode::Sig), Reply::Done),
        (
            Call::Register(0, 257, Mode::Sig),
            Reply::Refused(Refusal::RegsFull),
        ),
    ];
    let mut phaser = made(rt.alloc(), 0, 1)?;
    for task in 1..256 {
        replies(
            &rt,
            &mut phaser,
            Call::Register(0, task, Mode::Sig),
            Reply::Done,
        );
    }
    all_reply(&rt, &mut phaser, FULL.as_slice());
    Ok(())
}
