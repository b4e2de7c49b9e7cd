//! A worker at the queue of a run's tasks: how it takes them, and how it gives those that can go on.
ghost use Rattle.std.specs.Prelude.{◌≡◌, ◌<◌, [], vec_len, IfErr};
ghost use Rattle.task_queue.specs.Accounts.{AreTogether, IsSeatOf};

use phase_modes::Refusal;
use phaser_core::Out;
use std::collections::VecDeque;
use std::sync::Wait;
use task_queue::{RunQueue, Seat};

/// A worker's seat at the queue, and the tasks that it has in hand.
#[derive(Drop)]
pub struct Hand<T> {
    pub seat: Seat<T>,
    /// Tasks that the queue had no memory for.
    pub kept: VecDeque<T>,
}

impl<T: Drop> Hand<T> {
    /// The next task to be run: one that the queue had no memory for, or one of the queue. None once
    /// the queue is closed, whatever there is: at the end of a run no task is left, and a run that
    /// can't go on is given up with its tasks.
    pub fn next<R: Wait>(&mut self, rt: &R, queue: &RunQueue<T>) -> Option<T>
        ensures seat { IsSeatOf self.old.seat self.new.seat }
    {
        if queue.is_closed() {
            return None;
        }
        if let Some(item) = self.kept.pop_front() {
            return Some(item);
        }
        queue.take(rt, &mut self.seat)
    }

    /// Gives a task to the queue, or keeps it if the queue has no memory for it; how many were
    /// given. Nobody is woken for it yet.
    fn put(&mut self, queue: &RunQueue<T>, item: T) -> Result<u64, Refusal>
        ensures seat { IsSeatOf self.old.seat self.new.seat }
    {
        match queue.put_quietly(&mut self.seat, item) {
            Ok(()) => Ok(1),
            Err(item) => match self.kept.push_back(item) {
                Ok(()) => Ok(0),
                Err(_) => Err(Refusal::Memory),
            },
        }
    }

    /// Gives a task to the queue.
    pub fn give<R: Wait>(&mut self, rt: &R, queue: &RunQueue<T>, item: T) -> Result<(), Refusal>
        ensures seat { IsSeatOf self.old.seat self.new.seat }
    {
        let put = self.put(queue, item)?;
        queue.wake(rt, put);
        Ok(())
    }

    /// Gives all whom a call woke to the queue, which wakes workers for them at once.
    pub fn flush<R: Wait>(
        &mut self,
        rt: &R,
        queue: &RunQueue<T>,
        out: &mut Out<T>,
    ) -> Result<(), Refusal>
        ensures seat { IsSeatOf self.old.seat self.new.seat }
        ensures out { out.new ≡ [] }
    {
        let mut given = Ok(());
        let mut puts = 0u64;
        while let Some(item) = out.take() {
            match self.put(queue, item) {
                Ok(put) => puts = puts.saturating_add(put),
                Err(refusal) => given = Err(refusal),
            }
        }
        queue.wake(rt, puts);
        given
    }
}

/// Puts the root into the queue, from the first seat. `Memory`, the only error, drops it.
pub fn put_root<T: Drop, R: Wait>(
    rt: &R,
    queue: &RunQueue<T>,
    seats: &mut Vec<Seat<T>>,
    root: T,
) -> Result<(), Refusal>
    requires some { 0 < vec_len seats.old }
    requires together { AreTogether seats.old.items }
    ensures number { vec_len seats.new ≡ vec_len seats.old }
    ensures together { AreTogether seats.new.items }
    ensures memory { IfErr result (λ e. e ≡ Refusal.Memory) }
{
    match queue.put(rt, &mut seats[0], root) {
        Ok(()) => Ok(()),
        Err(_) => Err(Refusal::Memory),
    }
}
