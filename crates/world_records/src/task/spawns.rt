//! What a task's record keeps of a spawn under way.
ghost use Rattle.std.specs.Prelude.{◌≡◌};
ghost use Rattle.world_records.specs.inner.SpawnSteps.{is_to_spawn, born_in, spawn_noted};

use super::KeptTask;
use crate::Plan;
use phase_modes::{FinishNumber, TaskNumber};

impl KeptTask {
    /// Whether its next event is to spawn this child in this finish.
    pub fn is_to_spawn(&self, finish: FinishNumber, child: TaskNumber) -> bool
        ensures { result ≡ is_to_spawn self.now finish child }
    {
        match self.plan {
            Plan::Spawning(named, pairs, made) => made as usize >= pairs.len()
                && self.inner().get() == finish.get()
                && named == child.get(),
            _ => false,
        }
    }

    /// Who began to spawn it.
    pub fn spawner(&self) -> TaskNumber
        ensures { result ≡ self.now.spawner }
    {
        TaskNumber::of(self.spawner)
    }

    /// How many turns it has completed.
    pub fn clock(&self) -> u32
        ensures { result ≡ self.now.clock }
    {
        self.clock
    }

    /// Notes that it was spawned in this finish, by a task with this clock.
    pub fn note_birth(&mut self, finish: FinishNumber, clock: u32)
        ensures { self.new ≡ born_in finish clock self.old }
    {
        self.born = true;
        self.home = finish.get();
        self.clock = clock;
    }

    /// Notes that it has spawned its child.
    pub fn note_spawn(&mut self)
        ensures { self.new ≡ spawn_noted self.old }
    {
        self.plan = Plan::Idle;
        self.left.clear();
    }
}
