//! A server: for each request a finish, a phaser and four tasks, which are all gone when it is done.
ghost use Rattle.std.specs.Prelude.{◌<◌, ◌≤◌};

use crate::ROOM;
use live_rt::{Act, Answer, Body, OpenGate, Unheard, run_live};
use phase_model::{Bound, Ops};
use phase_modes::{Mode, Refusal};
use std::alloc::Global;
use std::sync::Wait;
use std::thread::Threads;

/// How many tasks serve a request, and how often they meet.
const TASKS: u32 = 4;

const TURNS: u32 = 3;

/// What a task does next.
#[derive(Clone, Copy)]
enum Duty {
    /// The server takes a request if so many are left: it opens a finish, makes a phaser, starts the tasks
    /// and waits for them.
    Takes(u32),
    Makes(u32),
    Starts(u32, u32),
    Waits(u32),
    /// A task of a request meets the others so many times more.
    Meets(u32),
}

/// A task's program.
#[derive(Clone, Copy, Drop)]
struct Server {
    duty: Duty,
}

impl Body for Server {
    fn step(&mut self, _answer: Answer) -> Result<Act<Server>, Refusal> {
        let (act, next) = match self.duty {
            Duty::Takes(left) if left > 0 => (Act::OpenFinish, Duty::Makes(left - 1)),
            Duty::Makes(left) => (
                Act::New(Mode::SigWait, Ops::none(), Bound::of(2)),
                Duty::Starts(left, TASKS),
            ),
            Duty::Starts(left, tasks) if tasks > 0 => {
                let task = Server {
                    duty: Duty::Meets(TURNS),
                };
                (Act::AsyncAll(task), Duty::Starts(left, tasks - 1))
            }
            Duty::Starts(left, _) => (Act::ShutFinish, Duty::Waits(left)),
            Duty::Waits(left) if left > 0 => (Act::OpenFinish, Duty::Makes(left - 1)),
            Duty::Meets(left) if left > 0 => (Act::Next, Duty::Meets(left - 1)),
            ended => (Act::End, ended),
        };
        self.duty = next;
        Ok(act)
    }

    fn single(&mut self, _number: u32) {}
}

/// So many requests, one after the other.
pub fn play<R: Threads + Wait + Sync>(
    rt: &R,
    alloc: Global,
    requests: u32,
    workers: u32,
) -> anyhow::Result<String>
    requires { (0 < workers) × (workers ≤ 16) }
{
    let root = Server {
        duty: Duty::Takes(requests),
    };
    let ended = run_live(rt, alloc, root, ROOM, workers, &Unheard, &OpenGate)?;
    let counts = ended.counts;
    Ok(format!(in alloc;
        "{} phasers, {} tasks, {} turns",
        counts.phasers, counts.tasks, counts.totals.passes
    )?)
}
