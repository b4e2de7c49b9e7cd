//! Rounds of a phaser that lives long.

use super::job::CoreJob;
use phase_model::{Bound, Ops};
use phase_modes::{Mode, Refusal};
use phaser_core::LongPhaser;
use std::alloc::Global;

/// How many calls are made on a phaser: as many as the greatest history has room for.
const CALLS: u32 = 65_536;

/// A phaser on which so many tasks are registered. At a barrier a bound of 2 holds nobody.
fn ready(alloc: Global, tasks: u32) -> Result<LongPhaser, Refusal> {
    let bound = Bound::of(2).ok_or(Refusal::NotNow)?;
    let mut phaser = LongPhaser::new(alloc, Ops::none(), bound)?;
    let maker = phaser.make(Mode::SigWait)?;
    for _ in 1..tasks {
        phaser.register(maker, Mode::SigWait)?;
    }
    Ok(phaser)
}

/// One turn: all signal, and then all pass.
fn turn(phaser: &mut LongPhaser, tasks: u32) {
    for task in 0..tasks {
        let _ = phaser.signal(u64::from(task), None);
    }
    for task in 0..tasks {
        let _ = phaser.pass(u64::from(task));
    }
}

/// Makes a phaser, turns it, and returns how many calls were done. Each is one event.
pub(super) fn calls_on_long(alloc: Global, job: CoreJob) -> Result<u64, Refusal> {
    let mut phaser = ready(alloc, job.tasks)?;
    let before = phaser.history().len();
    for _ in 0..CALLS / (2 * job.tasks) {
        turn(&mut phaser, job.tasks);
    }
    Ok(phaser.history().len().saturating_sub(before))
}
