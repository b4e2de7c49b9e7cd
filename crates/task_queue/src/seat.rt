//! A worker's seat at the queue.
ghost use Rattle.std.specs.Prelude.{◌≡◌, ◌++◌, ◌∷◌, [], MatchResult, MatchOption};
ghost use Rattle.task_queue.specs.Accounts.{HasPut, IsSame, HasTaken};

use crate::deque;
use crate::deque::Deque;
use crate::pace::{Noted, Paces};
use crate::reach::Reach;
use crate::steals::{steal_any, steal_slow};
use std::marker::Model;
use std::sync::Wait;

/// A worker's place at a queue: its own deque, and a reach to each worker's deque. Contracts see
/// whose it is, what was put from it, and what was taken with it from each deque.
#[derive(Drop)]
pub struct Seat<T> {
    pub(crate) worker: usize,
    pub(crate) own: Deque<T>,
    pub(crate) reaches: Vec<Reach<T>>,
}

impl<T> Model for Seat<T> {
    ghost use Rattle.task_queue.specs.Account.{Account};

    ghost Value = { Account T };

    ghost use Rattle.task_queue.specs.Seats.{account_of, IsSeated};

    ghost view = { λ s. account_of s.worker s.own s.reaches.items };

    ghost invariant = { λ s. IsSeated s.worker s.own s.reaches.items };
}

impl<T> Seat<T> {
    // Puts an item last into its own deque, or hands it back if the deque refuses it.
    pub(crate) fn put(&mut self, item: T) -> Result<(), T>
        ensures { MatchResult result (λ _. HasPut self.old item self.new)
            (λ x. (x ≡ item) × IsSame self.old self.new) }
    {
        deque::put(&mut self.own, item)
    }

    // Takes the first item of its own deque. Nobody else puts into that, so that it stays empty once
    // it was found so, until its owner puts.
    pub(crate) fn pop(&mut self) -> Option<T>
        ensures { MatchOption result (IsSame self.old self.new)
            (λ x. HasTaken self.old x self.new) }
    {
        deque::take(&mut self.own)
    }

    // Takes the first item of the next worker's deque that has one.
    pub(crate) fn steal<R: Wait>(&mut self, rt: &R) -> Option<T>
        ensures { MatchOption result (IsSame self.old self.new)
            (λ x. HasTaken self.old x self.new) }
    {
        steal_any(rt, self.reaches.as_mut_slice(), self.worker)
    }

    // The same, but only from a worker that has taken none of its own since it was noted.
    pub(crate) fn steal_from_slow<R: Wait>(
        &mut self,
        rt: &R,
        paces: &Paces,
        noted: &mut Noted,
    ) -> Option<T>
        ensures { MatchOption result (IsSame self.old self.new)
            (λ x. HasTaken self.old x self.new) }
    {
        steal_slow(rt, self.reaches.as_mut_slice(), self.worker, paces, noted)
    }
}
