//! A slot in which finishes come and go, one after another.
ghost use Rattle.std.specs.Prelude.{◌≡◌, ◌∷◌, [], ◌≤◌, true, false, Ok, Err, Some, None, is_some, length, MatchOption, IsSomeAnd, OnErr};
ghost use Rattle.phase_modes.specs.declared.refusal.Refusal.TheVariants.{NotNow, FinishesFull};
ghost use Rattle.finish_core.specs.declared.answer.ShutAnswer.TheVariants.{Refused};
ghost use Rattle.finish_core.specs.declared.event.FinishEvent.TheVariants.{Opened};
ghost use Rattle.finish_core.specs.Replies.{reply, after};
ghost use Rattle.finish_core.specs.Shutting.{is_done, staying, let_go, locked_shut, owner_parking, IsBackFromShut};
ghost use Rattle.live_tables.specs.Counted.{most_tasks, next_spawn, next_end, IfShutRefused};

use crate::finish_cell::LongFinishCell;
use finish_core::ShutAnswer;
use phase_modes::Refusal;
use phaser_core::Out;

/// A slot, and the finish that is in it now.
#[derive(Drop)]
pub struct FinishSlot<T> {
    pub finish: Option<LongFinishCell<T>>,
}

impl<T: Drop> FinishSlot<T> {
    /// A slot that is free.
    pub fn new() -> FinishSlot<T>
        ensures { result.finish ≡ None }
    {
        FinishSlot { finish: None }
    }

    /// A new finish comes to be in the slot, open. Its history is empty but for that. `FinishesFull` if
    /// one is there.
    pub fn open(&mut self, owner: u64) -> Result<(), Refusal>
        ensures answer { MatchOption self.old.finish (result ≡ Ok tt) (λ _. result ≡ Err FinishesFull) }
        ensures finish { MatchOption self.old.finish
            (IsSomeAnd self.new.finish
            (λ c. (c.state ≡ record { tasks = most_tasks; past = Opened owner ∷ [] }) × (c.parked ≡ None)))
            (λ c. self.new.finish ≡ Some c) }
    {
        if self.finish.is_some() {
            return Err(Refusal::FinishesFull);
        }
        self.finish = Some(LongFinishCell::open(owner));
        Ok(())
    }

    /// Shuts the finish that is in the slot, which is free then, or parks its owner's item.
    pub fn shut(&mut self, item: T) -> ShutAnswer<T>
        ensures answer { MatchOption self.old.finish (result ≡ Refused item NotNow)
            (λ c. result ≡ locked_shut c.state.past (is_some c.parked) item) }
        ensures item { IsBackFromShut item result }
        ensures refused { IfShutRefused result (λ r. r ≡ NotNow) }
        ensures free { is_done result ≡ true → self.new.finish ≡ None }
        ensures stays { is_done result ≡ false → MatchOption self.old.finish (self.new.finish ≡ None)
            (λ c. IsSomeAnd self.new.finish
            (λ d. (d.state ≡ c.state) × (d.parked ≡ owner_parking c.state.past item c.parked))) }
    {
        let Some(finish) = &mut self.finish else {
            return ShutAnswer::Refused(item, Refusal::NotNow);
        };
        let answer = finish.shut(item);
        if matches!(answer, ShutAnswer::Done(_)) {
            self.finish = None;
        }
        answer
    }
}

impl<T> FinishSlot<T> {
    /// One task more is spawned in the finish that is in the slot. `NotNow` if none is.
    pub fn spawned(&mut self) -> Result<(), Refusal>
        ensures answer { MatchOption self.old.finish (result ≡ Err NotNow)
            (λ c. result ≡ reply c.state.tasks c.state.past (next_spawn c.state.past)) }
        ensures finish { MatchOption self.old.finish (self.new.finish ≡ None)
            (λ c. IsSomeAnd self.new.finish
            (λ d. (d.state ≡ after c.state (next_spawn c.state.past) result) × (d.parked ≡ c.parked))) }
    {
        match &mut self.finish {
            Some(finish) => finish.spawned(),
            None => Err(Refusal::NotNow),
        }
    }

    /// A task of the finish that is in the slot has ended. `NotNow` if none is. An owner that it wakes
    /// leaves into `out`.
    pub fn ended(&mut self, out: &mut Out<T>) -> Result<(), Refusal>
        requires { out.old ≡ [] }
        ensures answer { MatchOption self.old.finish (result ≡ Err NotNow)
            (λ c. result ≡ reply c.state.tasks c.state.past (next_end c.state.past)) }
        ensures finish { MatchOption self.old.finish (self.new.finish ≡ None)
            (λ c. IsSomeAnd self.new.finish
            (λ d. (d.state ≡ after c.state (next_end c.state.past) result)
            × (d.parked ≡ staying d.state.past c.parked) × (out.new ≡ let_go d.state.past c.parked))) }
        ensures few { length out.new ≤ 1 }
        ensures nobody { OnErr result (out.new ≡ []) }
    {
        match &mut self.finish {
            Some(finish) => finish.ended(out),
            None => Err(Refusal::NotNow),
        }
    }
}
