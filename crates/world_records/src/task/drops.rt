//! What a task's record keeps of the drops that it still has to make.
ghost use Rattle.std.specs.Prelude.{◌≡◌, ◌≤◌, ◌==◌, not, length, filter, vec_capacity};
ghost use Rattle.world_records.specs.inner.DropSteps.{is_to_drop, gone_from, drop_noted};

use super::*;
use phase_modes::{PhaserNumber, TaskNumber};

impl KeptTask {
    /// Whether its next event is that this task leaves this phaser; the first number is its own.
    pub fn is_to_drop(&self, own: TaskNumber, phaser: PhaserNumber, task: TaskNumber) -> bool
        ensures { result ≡ is_to_drop self.now own phaser task }
    {
        match self.plan {
            Plan::Shutting => self.left.first().copied() == Some(phaser.get())
                && own.get() == task.get(),
            Plan::Ending(child) => {
                if self.left.is_empty() {
                    self.phasers.first().copied() == Some(phaser.get()) && own.get() == task.get()
                } else {
                    self.left[0] == phaser.get() && child == task.get()
                }
            }
            _ => false,
        }
    }

    /// Whether it was spawned.
    pub fn is_born(&self) -> bool
        ensures { result ≡ self.now.is_born }
    {
        self.born
    }

    /// Notes that it has left this phaser.
    pub fn note_gone(&mut self, phaser: PhaserNumber)
        ensures { self.new ≡ gone_from phaser self.old }
    {
        take_off(&mut self.phasers, phaser.get());
    }

    /// Notes that the first drop was made.
    pub fn note_drop(&mut self)
        ensures { self.new ≡ drop_noted self.old }
    {
        if !self.left.is_empty() {
            let _made = self.left.remove(0);
        }
    }
}

/// Takes a number off the list.
fn take_off(list: &mut Vec<u32>, number: u32)
    ensures left { list.new.items ≡ filter (λ m. not (m == number)) list.old.items }
    ensures few { length list.new.items ≤ length list.old.items }
    ensures room { vec_capacity list.new ≡ vec_capacity list.old }
{
    list.retain(|m| *m != number);
}
