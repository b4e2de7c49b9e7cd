//! A finish that counts its tasks.
ghost use Rattle.std.specs.Prelude.{◌≡◌, [], true};
ghost use Rattle.finish_core.specs.declared.event.FinishEvent.TheVariants.{Opened, Shut};
ghost use Rattle.finish_core.specs.Finish.{is_open, may_shut, is_legal_finish};
ghost use Rattle.finish_core.specs.Laws.{IsAwaited};
ghost use Rattle.finish_core.specs.Replies.{reply, after};
ghost use Rattle.live_tables.specs.Counted.{most_tasks, next_spawn, next_end, IsEvenOnceShut};

use crate::finish_event::LongFinishEvent;
use finish_core::shut_awaits_all;
use phase_modes::Refusal;
use std::marker::Model;
use told_history::Whole;

/// How many tasks a finish may ever have: with one each nanosecond, for 146 years.
const MOST_TASKS: u64 = 1 << 62;

/// A finish: whether it was opened and shut, and how many of its tasks were spawned and have ended.
/// Contracts see all that was ever done in it, which nothing stores. Tasks are counted: which of them
/// it was that ended isn't told.
#[derive(Drop)]
pub struct LongFinish {
    opened: bool,
    closed: bool,
    spawned: u64,
    ended: u64,
    log: Whole<LongFinishEvent>,
}

impl Model for LongFinish {
    ghost use Rattle.std.specs.Prelude.{map};
    ghost use Rattle.finish_core.specs.Finish.{FinishStory};
    ghost use Rattle.live_tables.specs.Counted.{event_of, most_tasks, IsCounted};

    ghost Value = { FinishStory };

    ghost view = { λ f. record { tasks = most_tasks; past = map event_of f.log.items } };

    ghost invariant = { λ f. IsCounted f.opened f.closed f.spawned f.ended (map event_of f.log.items) };
}

impl LongFinish {
    /// A finish that hasn't been opened. It takes no memory.
    pub fn new() -> LongFinish
        ensures { result ≡ record { tasks = most_tasks; past = [] } }
    {
        LongFinish {
            opened: false,
            closed: false,
            spawned: 0,
            ended: 0,
            log: Whole::new(),
        }
    }

    /// Opens it for an owner. Refused: `NotNow` if it was opened before.
    pub fn opened(&mut self, owner: u64) -> Result<(), Refusal>
        ensures reply { result ≡ reply self.old.tasks self.old.past (Opened owner) }
        ensures history { self.new ≡ after self.old (Opened owner) result }
    {
        if self.opened {
            return Err(Refusal::NotNow);
        }
        self.log.add(&LongFinishEvent::Opened(owner));
        self.opened = true;
        Ok(())
    }

    /// One task more is spawned in it. Refused: `NotNow` if it isn't open, `TasksFull` after 2^62
    /// tasks.
    pub fn spawned(&mut self) -> Result<(), Refusal>
        ensures reply { result ≡ reply self.old.tasks self.old.past (next_spawn self.old.past) }
        ensures history { self.new ≡ after self.old (next_spawn self.old.past) result }
    {
        if !self.is_open() {
            return Err(Refusal::NotNow);
        }
        if self.spawned >= MOST_TASKS {
            return Err(Refusal::TasksFull);
        }
        self.log.add(&LongFinishEvent::Spawned(self.spawned));
        self.spawned += 1;
        Ok(())
    }

    /// One of its tasks has ended. Refused: `NotNow` if it isn't open, or all have.
    pub fn ended(&mut self) -> Result<(), Refusal>
        ensures reply { result ≡ reply self.old.tasks self.old.past (next_end self.old.past) }
        ensures history { self.new ≡ after self.old (next_end self.old.past) result }
    {
        if !self.is_open() {
            return Err(Refusal::NotNow);
        }
        if self.ended >= self.spawned {
            return Err(Refusal::NotNow);
        }
        self.log.add(&LongFinishEvent::Ended(self.ended));
        self.ended += 1;
        Ok(())
    }

    /// Whether it is open.
    pub fn is_open(&self) -> bool
        ensures { result ≡ is_open self.now.past }
    {
        self.opened && !self.closed
    }

    /// Whether it is open and each of its tasks has ended.
    pub fn may_shut(&self) -> bool
        ensures { result ≡ may_shut self.now.past }
    {
        self.is_open() && self.ended == self.spawned
    }

    /// Shuts it. Refused: `NotNow` if it isn't open, or a task in it hasn't ended.
    pub fn shut(&mut self) -> Result<(), Refusal>
        ensures reply { result ≡ reply self.old.tasks self.old.past Shut }
        ensures history { self.new ≡ after self.old Shut result }
    {
        if !self.may_shut() {
            return Err(Refusal::NotNow);
        }
        self.log.add(&LongFinishEvent::Shut);
        self.closed = true;
        Ok(())
    }

    /// All that was done in it is legal: nothing came after the shut, and by then each task that was
    /// spawned in it had ended.
    pub fn is_legal(&self)
        ensures legal { is_legal_finish self.now.tasks self.now.past ≡ true }
        ensures awaited { IsAwaited self.now.past }
        ensures even { IsEvenOnceShut self.now.past }
    {
        let _counts = self.spawned;
        shut_awaits_all();
    }
}
