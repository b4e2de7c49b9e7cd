//! World events that are drawn by a small generator, always the same ones.
use super::peer::Plain;
use super::*;

const MODES: [Mode; 4] = [Mode::Sig, Mode::Wait, Mode::SigWait, Mode::Single];

/// A multiplicative congruential generator.
#[derive(Drop)]
pub(super) struct Dice {
    last: u32,
}

impl Dice {
    pub(super) fn new() -> Dice {
        Dice { last: 20_261 }
    }

    /// A number below this one, 0 if there is none.
    fn below(&mut self, bound: u32) -> u32 {
        self.last = (u64::from(self.last) * 48_271 % 2_147_483_647) as u32;
        (self.last >> 8).checked_rem(bound).unwrap_or(0)
    }

    /// A task number, mostly a low one; the greatest is at the limit.
    fn task(&mut self) -> u32 {
        match self.below(4) {
            0 => self.below(8),
            _ => self.below(3),
        }
    }

    /// A task that goes on, unless six draws find none.
    fn actor(&mut self, plain: &Plain) -> u32 {
        for _ in 0..6 {
            let task = self.task();
            if plain.goes_on(task) {
                return task;
            }
        }
        self.task()
    }

    /// A phaser number, mostly one below the limit.
    fn phaser(&mut self) -> u32 {
        match self.below(8) {
            0 => 3,
            _ => self.below(3),
        }
    }

    fn finish(&mut self) -> u32 {
        self.below(4)
    }

    /// Half of the modes are `SINGLE`.
    fn mode(&mut self) -> Mode {
        MODES
            .get(self.below(6) as usize)
            .copied()
            .unwrap_or(Mode::Single)
    }

    fn number(&mut self) -> Option<u32> {
        match self.below(3) {
            0 => Some(7),
            _ => None,
        }
    }

    /// The number of a refusal, mostly one by which a task may fail.
    fn refusal(&mut self) -> u8 {
        match self.below(8) {
            0 | 1 => 7,
            2 | 3 => 14,
            4 | 5 => 15,
            6 => 23,
            _ => u8::try_from(self.below(24)).unwrap_or(0),
        }
    }

    /// A phaser, mostly in the mode in which the task is on it.
    fn pair(&mut self, plain: &Plain, task: u32) -> Pair {
        let phaser = self.phaser();
        let drawn = self.mode();
        let mode = match plain.registration(PhaserNumber::of(phaser), task) {
            Some(reg) => reg.mode,
            None => drawn,
        };
        match self.below(4) {
            0 => Pair {
                phaser,
                mode: drawn,
            },
            _ => Pair { phaser, mode },
        }
    }

    /// The pairs of a spawn, two at most.
    fn pairs(&mut self, plain: &Plain, task: u32) -> Phased {
        let mut list = Phased::none();
        for _ in 0..self.below(3) {
            if list.len() < 16 {
                list.push(self.pair(plain, task));
            }
        }
        list
    }

    fn begun(&mut self, plain: &Plain, task: u32) -> Begun {
        match self.below(12) {
            0..=3 => Begun::Async(self.below(8), self.pairs(plain, task)),
            4 => Begun::Signal,
            5 => Begun::Wait,
            6 | 7 => Begun::Next,
            8 => Begun::NextSingle(7),
            9 => Begun::NextSingle(8),
            10 => Begun::Shut,
            _ => match self.below(2) {
                0 => Begun::End,
                _ => Begun::Next,
            },
        }
    }

    fn tried(&mut self, plain: &Plain, task: u32) -> Tried {
        match self.below(8) {
            0 => Tried::New(self.phaser(), self.mode(), Terms::none()),
            1 => Tried::Open(self.finish()),
            2 => Tried::Send(self.phaser(), 0, 5),
            3 => Tried::Look(self.phaser(), 0),
            _ => Tried::Begun(self.begun(plain, task)),
        }
    }

    /// A step on a phaser, any that there is.
    fn step(&mut self, task: u32) -> Step {
        match self.below(16) {
            0 => Step::Make(task, self.mode(), one_sum(Bound::of(1))),
            1 => Step::Make(task, self.mode(), one_sum(Bound::of(2))),
            2 | 3 => Step::Make(task, self.mode(), one_sum(None)),
            4 => Step::Reg(task, self.task(), self.mode()),
            5 => Step::Sig(task, self.number()),
            6 => Step::Claim(task),
            7 => Step::Did(task),
            8 => Step::Pass(task),
            9..=11 => Step::Send(task, 0, 3),
            12..=14 => Step::Look(task, 0),
            _ => Step::Drop(task),
        }
    }

    fn finish_event(&mut self, task: u32) -> FinishEvent {
        match self.below(6) {
            0..=2 => FinishEvent::Opened(task),
            3 => FinishEvent::Spawned(task),
            4 => FinishEvent::Ended(task),
            _ => FinishEvent::Shut,
        }
    }

    /// An act that the task notes as refused, mostly by the number by which it is. The act is drawn
    /// twice alike, once to be asked for and once to be noted.
    fn refused(&mut self, plain: &Plain, task: u32) -> Result<WorldEvent, Refusal> {
        let mut alike = Dice { last: self.last };
        let answer = plain.act_reply(task, alike.tried(plain, task))?;
        let tried = self.tried(plain, task);
        let drawn = self.refusal();
        let number = match answer {
            Err(refusal) => refusal.number(),
            Ok(_) => drawn,
        };
        Ok(WorldEvent::Refuse(task, tried, number))
    }

    /// Any event of all, mostly this task's.
    fn any(&mut self, plain: &Plain, task: u32) -> Result<WorldEvent, Refusal> {
        Ok(match self.below(48) {
            0..=19 => on(self.phaser(), self.step(task)),
            20..=23 => within(self.finish(), self.finish_event(task)),
            24..=45 => begin(task, self.begun(plain, task)),
            46 => self.refused(plain, task)?,
            _ => WorldEvent::Fail(task, self.refusal()),
        })
    }

    /// An event: mostly the one that continues a task's act, if there is one.
    pub(super) fn event(&mut self, plain: &Plain) -> Result<WorldEvent, Refusal> {
        let task = self.actor(plain);
        if self.below(8) > 0
            && let Some(event) = plain.next_event(task)
        {
            return Ok(event);
        }
        self.any(plain, task)
    }
}
