//! Calls that are drawn for a phaser whose history is known.
use super::*;

/// A task number; the greatest are at the limit.
fn task(dice: &mut Dice) -> u32 {
    dice.below(6)
}

/// A task number, of a task that is registered now, unless four draws find none.
fn actor(dice: &mut Dice, history: &History) -> u32 {
    for _ in 0..4 {
        let task = task(dice);
        if live(history, task) {
            return task;
        }
    }
    task(dice)
}

/// A call that makes the phaser, in a mode that allows its children much.
fn make(dice: &mut Dice) -> Call {
    let task = task(dice);
    match dice.below(3) {
        0 => Call::Make(task, dice.mode()),
        _ => Call::Make(task, Mode::Single),
    }
}

/// A call on a phaser with this history.
pub(super) fn call(dice: &mut Dice, history: &History) -> Call {
    if history.len() == 0 && dice.below(4) > 0 {
        return make(dice);
    }
    let actor = actor(dice, history);
    match dice.below(32) {
        0 => make(dice),
        1..=4 => Call::Register(actor, task(dice), dice.mode()),
        5..=11 => Call::Signal(actor, dice.number()),
        12..=20 => Call::Pass(actor),
        21..=23 => Call::SingleDone(actor),
        24..=26 => Call::Send(actor, dice.accumulator(), dice.value()),
        27..=30 => Call::Look(actor, dice.accumulator()),
        _ => Call::Drop(actor),
    }
}
