//! Steps of worlds, made one after the other, in each of which two tasks signal each other.

mod calls;
pub mod job;
pub mod kind;
mod limits;
mod steps;

use calls::calls_of_turns;
use job::WorldsJob;
use kind::Kind;
use limits::limits_of;
use phase_modes::Refusal;
use std::alloc::Global;
use steps::turned;

/// Makes one world, and returns how many steps were made in the turns of its two tasks.
fn steps_of_world(alloc: Global, kind: Kind, turns: u32) -> Result<u64, Refusal> {
    let others = kind == Kind::Beside;
    let made = turned(alloc, limits_of(kind), others, turns)?;
    if kind == Kind::Reported {
        made.world.report(alloc)?;
    }
    Ok(made.steps)
}

/// Makes what the kind is made in, and returns how many steps or calls were done there.
fn steps_of_one(alloc: Global, kind: Kind, turns: u32) -> Result<u64, Refusal> {
    match kind {
        Kind::Calls => calls_of_turns(alloc, limits_of(kind), turns),
        _ => steps_of_world(alloc, kind, turns),
    }
}

/// Makes the job's worlds one after the other, and returns how many steps were done in all. An
/// error is `Memory`, if a world got none.
pub fn steps_of(alloc: Global, job: WorldsJob) -> Result<u64, Refusal> {
    let mut steps: u64 = 0;
    for _ in 0..job.worlds {
        steps = steps.saturating_add(steps_of_one(alloc, job.kind, job.turns)?);
    }
    Ok(steps)
}
