//! A crowd: tasks that turn for ever, each by itself. More of them wait at once than a worker has room for at first.
ghost use Rattle.std.specs.Prelude.{◌<◌, ◌≤◌};

use crate::ROOM;
use live_rt::{Act, Answer, Body, OpenGate, Unheard, run_live};
use phase_modes::Refusal;
use std::alloc::Global;
use std::sync::Wait;
use std::thread::Threads;

/// A task's program: how many others it has still to start before it turns.
#[derive(Clone, Copy, Drop)]
struct Member {
    starts: u32,
}

impl Body for Member {
    fn step(&mut self, _answer: Answer) -> Result<Act<Member>, Refusal> {
        if self.starts > 0 {
            self.starts = self.starts.saturating_sub(1);
            return Ok(Act::AsyncAll(Member { starts: 0 }));
        }
        Ok(Act::Next)
    }

    fn single(&mut self, _number: u32) {}
}

/// So many tasks beside the root, until the run is refused something.
pub fn play<R: Threads + Wait + Sync>(
    rt: &R,
    alloc: Global,
    tasks: u32,
    workers: u32,
) -> anyhow::Result<String>
    requires { (0 < workers) × (workers ≤ 16) }
{
    let root = Member { starts: tasks };
    let ended = run_live(rt, alloc, root, ROOM, workers, &Unheard, &OpenGate)?;
    Ok(format!(in alloc; "{} tasks", ended.counts.tasks)?)
}
