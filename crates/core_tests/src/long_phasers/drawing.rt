//! Calls that are drawn for a phaser that gives the numbers out itself.
use super::*;

/// The task that sits where nobody does: no task has this number.
const NOBODY: u32 = u32::MAX;

/// Six seats with the tasks that make calls, and the number that is given out next.
#[derive(Drop)]
pub(super) struct Seats {
    tasks: [u32; 6],
    next: u32,
}

impl Seats {
    pub(super) fn new() -> Seats {
        Seats {
            tasks: [NOBODY; 6],
            next: 0,
        }
    }

    /// Each number that was given out is below it.
    pub(super) fn next(&self) -> u32 {
        self.next
    }

    /// The task of a drawn seat.
    fn task(&self, dice: &mut Dice) -> u32 {
        let seat = dice.below(6) as usize;
        self.tasks.get(seat).copied().unwrap_or(NOBODY)
    }

    /// The task of a drawn seat that is registered now, unless four draws find none.
    fn actor(&self, dice: &mut Dice, phaser: &LongPhaser) -> u32 {
        for _ in 0..4 {
            let task = self.task(dice);
            if phaser.registration(u64::from(task)).is_some() {
                return task;
            }
        }
        self.task(dice)
    }

    /// Whether a seat is free.
    fn has_free(&self, phaser: &LongPhaser) -> bool {
        self.tasks
            .iter()
            .any(|task| phaser.registration(u64::from(*task)).is_none())
    }

    /// A call that makes the phaser, in a mode that allows its children much.
    fn make(&self, dice: &mut Dice) -> Call {
        match dice.below(3) {
            0 => Call::Make(self.next, dice.mode()),
            _ => Call::Make(self.next, Mode::Single),
        }
    }

    /// A call that registers a task, or drops one where no seat is free.
    fn register(&self, dice: &mut Dice, phaser: &LongPhaser, actor: u32) -> Call {
        if self.has_free(phaser) {
            Call::Register(actor, self.next, dice.mode())
        } else {
            Call::Drop(actor)
        }
    }

    /// A call on the phaser.
    pub(super) fn call(&self, dice: &mut Dice, phaser: &LongPhaser) -> Call {
        if self.next == 0 && dice.below(4) > 0 {
            return self.make(dice);
        }
        let actor = self.actor(dice, phaser);
        match dice.below(32) {
            0 => self.make(dice),
            1..=4 => self.register(dice, phaser, actor),
            5..=11 => Call::Signal(actor, dice.number()),
            12..=20 => Call::Pass(actor),
            21..=23 => Call::SingleDone(actor),
            24..=26 => Call::Send(actor, dice.accumulator(), dice.value()),
            27..=30 => Call::Look(actor, dice.accumulator()),
            _ => Call::Drop(actor),
        }
    }

    /// The task that was registered sits down on the first seat that is free.
    pub(super) fn seat(&mut self, phaser: &LongPhaser) {
        for task in self.tasks.iter_mut() {
            if phaser.registration(u64::from(*task)).is_none() {
                *task = self.next;
                break;
            }
        }
        self.next = self.next.saturating_add(1);
    }
}
