//! The seats of a trace's tasks, as its events are gone through.
ghost use Rattle.std.specs.Prelude.{◌≡◌, ◌≢◌, ℕ, [], IfOk, IfErr};
ghost use Rattle.phase_modes.specs.declared.refusal.Refusal.TheVariants.{Memory as NoMemory};
ghost use Rattle.job_script.specs.declared.act.Answer.TheVariants.{Started};
ghost use Rattle.trace_walk.specs.Walking.{act_due, gone_on};
ghost use Rattle.trace_walk.specs.inner.Seats.{seat_of, AreTold, IsSeated};

use crate::going::Goes;
use job_script::{Act, Answer};
use phase_modes::Refusal;
use std::alloc::Global;
use std::collections::BTreeMap;

/// A task's body, and what it hears before its next act.
#[derive(Drop)]
pub struct Seat<B: Drop> {
    pub body: B,
    pub heard: Answer,
}

impl<B: Goes> Seat<B> {
    /// A task before its first act.
    pub fn begun(body: B) -> Seat<B>
        ensures body { result.body ≡ body }
        ensures heard { result.heard ≡ Started }
    {
        Seat {
            body,
            heard: Answer::Started,
        }
    }

    /// The next act, of which the task hears this unless something else is told of it.
    pub fn next_act(&mut self, heard: Answer) -> Act<B>
        ensures does { result ≡ (B.next self.old.heard self.old.body).0 }
        ensures body { self.new.body ≡ (B.next self.old.heard self.old.body).1 }
        ensures heard { self.new.heard ≡ heard }
    {
        let act = self.body.go(self.heard);
        self.heard = heard;
        act
    }
}

/// The tasks of a trace by their numbers, which may be any. A task has a seat from its spawn on.
#[derive(Drop)]
pub(crate) struct Seats<B: Drop> {
    pub seats: BTreeMap<u32, Seat<B>>,
}

impl<B: Goes> Seats<B> {
    /// The tasks before the first event: the root alone has a seat.
    pub(crate) fn new(alloc: Global, root: B) -> Result<Seats<B>, Refusal>
        ensures told { IfOk result (λ s. AreTold B.next root [] (seat_of s.seats)) }
        ensures memory { IfErr result (λ e. e ≡ NoMemory) }
    {
        let mut seats = Seats {
            seats: BTreeMap::new(alloc),
        };
        seats.give(0, root)?;
        Ok(seats)
    }

    /// Gives a task its seat.
    pub(crate) fn give(&mut self, task: u32, body: B) -> Result<(), Refusal>
        ensures seated { IfOk result (λ _. IsSeated task body (seat_of self.old.seats) (seat_of self.new.seats)) }
        ensures memory { IfErr result (λ e. e ≡ NoMemory) }
    {
        self.seats.insert(task, Seat::begun(body))?;
        Ok(())
    }

    /// The next act of a task, of which it hears this; its end if it has no seat.
    pub(crate) fn next_act(&mut self, task: u32, heard: Answer) -> Act<B>
        ensures act { result ≡ act_due B.next (seat_of self.old.seats task) }
        ensures own { seat_of self.new.seats task ≡ gone_on B.next heard (seat_of self.old.seats task) }
        ensures others { (u : ℕ) → u ≢ task → seat_of self.new.seats u ≡ seat_of self.old.seats u }
    {
        match self.seats.get_mut(&task) {
            Some(seat) => seat.next_act(heard),
            None => Act::End,
        }
    }
}
