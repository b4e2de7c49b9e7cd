//! A finish that lives long, and its owner while that waits.
ghost use Rattle.std.specs.Prelude.{◌≡◌, ◌∷◌, [], true, false, is_some, ◌≤◌, None, Some, MatchOption, OnErr, length};
ghost use Rattle.phase_modes.specs.declared.refusal.Refusal.TheVariants.{NotNow};
ghost use Rattle.finish_core.specs.declared.event.FinishEvent.TheVariants.{Opened, Shut};
ghost use Rattle.finish_core.specs.Replies.{reply, after};
ghost use Rattle.finish_core.specs.Shutting.{is_done, holds_up, staying, let_go, locked_shut, owner_parking, IsBackFromShut};
ghost use Rattle.live_tables.specs.Counted.{most_tasks, next_spawn, next_end, IfShutRefused};

use crate::finish::LongFinish;
use finish_core::ShutAnswer;
use phase_modes::Refusal;
use phaser_core::Out;
use std::mem;

/// A finish, and its owner while that waits to shut it: only while some task in it hasn't ended.
#[derive(Drop)]
pub struct LongFinishCell<T> {
    pub state: LongFinish,
    pub parked: Option<T>,
    ghost waiting: { holds_up state.past parked ≡ true },
}

impl<T> LongFinishCell<T> {
    /// A new finish, which this owner has opened. It takes no memory.
    pub fn open(owner: u64) -> LongFinishCell<T>
        ensures history { result.state ≡ record { tasks = most_tasks; past = Opened owner ∷ [] } }
        ensures parked { result.parked ≡ None }
    {
        let mut state = LongFinish::new();
        let _done = state.opened(owner);
        LongFinishCell {
            state,
            parked: None,
        }
    }

    /// The finish's `spawned`. An owner that waits to shut it waits on.
    pub fn spawned(&mut self) -> Result<(), Refusal>
        ensures reply { result
            ≡ reply self.old.state.tasks self.old.state.past (next_spawn self.old.state.past) }
        ensures history { self.new.state ≡ after self.old.state (next_spawn self.old.state.past) result }
        ensures parked { self.new.parked ≡ self.old.parked }
    {
        self.state.spawned()
    }

    /// The finish's `ended`. An owner that it wakes leaves into `out`.
    pub fn ended(&mut self, out: &mut Out<T>) -> Result<(), Refusal>
        requires { out.old ≡ [] }
        ensures reply { result
            ≡ reply self.old.state.tasks self.old.state.past (next_end self.old.state.past) }
        ensures history { self.new.state ≡ after self.old.state (next_end self.old.state.past) result }
        ensures parked { self.new.parked ≡ staying self.new.state.past self.old.parked }
        ensures out { out.new ≡ let_go self.new.state.past self.old.parked }
        ensures few { length out.new ≤ 1 }
        ensures nobody { OnErr result (out.new ≡ []) }
    {
        let LongFinishCell { state, parked } = self;
        let answer = state.ended();
        if answer.is_ok() {
            free_owner(state, parked, out);
        }
        answer
    }

    /// Shuts the finish, or parks its owner's item if it is open and a task in it hasn't ended.
    pub fn shut(&mut self, item: T) -> ShutAnswer<T>
        ensures answer { result ≡ locked_shut self.old.state.past (is_some self.old.parked) item }
        ensures item { IsBackFromShut item result }
        ensures refused { IfShutRefused result (λ r. r ≡ NotNow) }
        ensures history { self.new.state
            ≡ after self.old.state Shut (reply self.old.state.tasks self.old.state.past Shut) }
        ensures kept { is_done result ≡ false → self.new.state ≡ self.old.state }
        ensures parked { self.new.parked ≡ owner_parking self.old.state.past item self.old.parked }
    {
        let LongFinishCell { state, parked } = self;
        match state.shut() {
            Ok(()) => ShutAnswer::Done(item),
            Err(refusal) => {
                if !state.is_open() {
                    return ShutAnswer::Refused(item, refusal);
                }
                match park_owner(parked, item) {
                    None => ShutAnswer::Parked,
                    Some(item) => ShutAnswer::Refused(item, refusal),
                }
            }
        }
    }
}

// Parks the owner's item, or hands it back if an owner is parked already.
fn park_owner<T>(parked: &mut Option<T>, item: T) -> Option<T>
    ensures { MatchOption parked.old
        ((result ≡ None) × (parked.new ≡ Some item))
        (λ y. (result ≡ Some item) × (parked.new ≡ Some y)) }
{
    match mem::replace(parked, Some(item)) {
        None => None,
        Some(owner) => mem::replace(parked, Some(owner)),
    }
}

// Wakes the owner if the finish may be shut.
fn free_owner<T>(state: &LongFinish, parked: &mut Option<T>, out: &mut Out<T>)
    requires empty { out.old ≡ [] }
    ensures parked { parked.new ≡ staying state.now.past parked.old }
    ensures out { out.new ≡ let_go state.now.past parked.old }
{
    if !state.may_shut() {
        return;
    }
    if let Some(owner) = parked.take() {
        out.put(owner);
    }
}
