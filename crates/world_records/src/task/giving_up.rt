//! What a task's record notes if the task gives up what it is about, or what it tried.
ghost use Rattle.std.specs.Prelude.{◌≡◌, ◌≤◌, length, take};
ghost use Rattle.world_records.specs.inner.Refusals.{given_up};
ghost use Rattle.world_records.specs.inner.Failures.{spawn_given_up};

use super::{KeptTask, MOST_PHASERS, list_all};
use crate::Plan;
use phase_modes::TaskNumber;

impl KeptTask {
    /// Comes to its end by the refusal of this number; this child is dropped from no phaser.
    pub fn give_up(&mut self, child: TaskNumber, number: u8)
        ensures { self.new ≡ given_up child number self.old }
    {
        self.begin_end(child);
        self.refused = Some(number);
    }

    /// Gives up the spawn of this child by the refusal of this number; the child is to be dropped
    /// from these phasers.
    pub fn give_up_spawn(&mut self, child: TaskNumber, held: &[u32], number: u8)
        requires { length held.now ≤ 16 }
        ensures { self.new ≡ spawn_given_up child held.now number self.old }
    {
        list_all(&mut self.left, held);
        self.plan = Plan::Ending(child.get());
        self.refused = Some(number);
    }

    /// Copies the numbers of its phasers to the front of the array, and returns how many they are.
    pub fn copy_phasers(&self, numbers: &mut [u32; MOST_PHASERS]) -> usize
        ensures held { take result numbers.new ≡ self.now.phasers }
        ensures few { result ≤ 16 }
    {
        let count = self.phasers.len();
        numbers[..count].copy_from_slice(&self.phasers);
        count
    }
}
