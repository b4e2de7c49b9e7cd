//! A task's phasers, each with its own mode there.
ghost use Rattle.std.specs.Prelude.{◌≡◌, ◌≤◌, length, map};
ghost use Rattle.world_records.specs.Kept.{past_in};
ghost use Rattle.world_records.specs.inner.Drawings.{mode_at};

use super::KeptTask;
use crate::phaser::KeptPhaser;
use phase_modes::{Mode, Pair, Phased, PhaserNumber, TaskNumber};

impl KeptTask {
    /// Its phasers, each in its own mode.
    pub fn pairs(&self, own: TaskNumber, phasers: &[KeptPhaser]) -> Phased
        ensures { result ≡ map (λ n. record { phaser = n; mode = mode_at own (past_in phasers.now n) })
            self.now.phasers }
    {
        list_pairs(&self.phasers, phasers, own)
    }
}

/// The numbers, each with the task's mode on its phaser.
fn list_pairs(own: &[u32], phasers: &[KeptPhaser], task: TaskNumber) -> Phased
    requires { length own.now ≤ 16 }
    ensures { result ≡ map (λ n. record { phaser = n; mode = mode_at task (past_in phasers.now n) }) own.now }
{
    let mut pairs = Phased::none();
    for i in 0..own.len() {
        pairs.push(Pair {
            phaser: own[i],
            mode: mode_on(phasers, PhaserNumber::of(own[i]), task),
        });
    }
    pairs
}

/// The task's mode on this phaser.
/// On a number without a phaser it has none, and is read as a waiter.
fn mode_on(phasers: &[KeptPhaser], phaser: PhaserNumber, task: TaskNumber) -> Mode
    ensures { result ≡ mode_at task (past_in phasers.now phaser) }
{
    if phaser.place() >= phasers.len() {
        return Mode::Wait;
    }
    let state = &phasers[phaser.place()];
    match state.registration(task) {
        Some(reg) => reg.mode,
        None => Mode::Wait,
    }
}
