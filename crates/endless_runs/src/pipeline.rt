//! A pipeline: one task sends items to a phaser whose bound is the queue's length, and another takes them.
ghost use Rattle.std.specs.Prelude.{◌<◌, ◌≤◌};

use crate::ROOM;
use live_rt::{Act, Answer, Body, Ends, OpenGate, Phased, run_live};
use phase_model::{Bound, Look, Op, Ops};
use phase_modes::{Mode, Pair, Refusal};
use std::alloc::Global;
use std::sync::Wait;
use std::sync::atomic::{AtomicI64, Ordering};
use std::thread::Threads;

/// How many items may be on their way.
const QUEUE: u32 = 64;

/// What a task does next.
#[derive(Clone, Copy)]
enum Stage {
    /// Makes the queue, and starts the others with so many items.
    Begins(u32),
    StartsFeeder(u32),
    StartsEater(u32),
    /// Sends the item of this number out of so many, and then signals it.
    Sends(u32, u32),
    Signals(u32, u32),
    /// Waits for an item if so many are still to come, and then looks at it.
    Waits(u32),
    Looks(u32),
    Ends,
}

/// A task's program, and what it took from the queue so far.
#[derive(Clone, Copy, Drop)]
struct Stager {
    stage: Stage,
    queue: u32,
    sum: i64,
}

fn stager_at(stage: Stage, queue: u32) -> Stager {
    Stager {
        stage,
        queue,
        sum: 0,
    }
}

fn one_sum() -> Ops {
    let mut ops = Ops::none();
    ops.push(Op::Sum);
    ops
}

/// The queue alone, in this mode.
fn on(queue: u32, mode: Mode) -> Phased {
    let mut pairs = Phased::none();
    pairs.push(Pair {
        phaser: queue,
        mode,
    });
    pairs
}

impl Body for Stager {
    fn step(&mut self, answer: Answer) -> Result<Act<Stager>, Refusal> {
        match answer {
            Answer::Made(queue) => self.queue = queue,
            Answer::Saw(Look::Value(item)) => self.sum = self.sum.saturating_add(item),
            _ => {}
        }
        let (act, next) = match self.stage {
            Stage::Begins(items) => (
                Act::New(Mode::SigWait, one_sum(), Bound::of(QUEUE)),
                Stage::StartsFeeder(items),
            ),
            Stage::StartsFeeder(items) => {
                let feeder = stager_at(Stage::Sends(0, items), self.queue);
                let act = Act::Async(feeder, on(self.queue, Mode::Sig));
                (act, Stage::StartsEater(items))
            }
            Stage::StartsEater(items) => {
                let eater = stager_at(Stage::Waits(items), self.queue);
                (Act::Async(eater, on(self.queue, Mode::Wait)), Stage::Ends)
            }
            Stage::Sends(item, items) if item < items => {
                let value = (item % 1_000) as i32;
                (Act::Send(self.queue, 0, value), Stage::Signals(item, items))
            }
            Stage::Signals(item, items) => {
                (Act::Next, Stage::Sends(item.saturating_add(1), items))
            }
            Stage::Waits(left) if left > 0 => (Act::Next, Stage::Looks(left - 1)),
            Stage::Looks(left) => (Act::Look(self.queue, 0), Stage::Waits(left)),
            _ => (Act::End, Stage::Ends),
        };
        self.stage = next;
        Ok(act)
    }

    fn single(&mut self, _number: u32) {}
}

/// Adds up what all tasks took from the queue.
#[derive(Drop)]
struct Taken {
    sum: AtomicI64,
}

impl Ends<Stager> for Taken {
    fn ended(&self, body: Stager, _refused: Option<Refusal>) {
        let _before = self.sum.fetch_add(body.sum, Ordering::SeqCst);
    }
}

/// So many items through the queue.
pub fn play<R: Threads + Wait + Sync>(
    rt: &R,
    alloc: Global,
    items: u32,
    workers: u32,
) -> anyhow::Result<String>
    requires { (0 < workers) × (workers ≤ 16) }
{
    let taken = Taken {
        sum: AtomicI64::new(0),
    };
    let root = stager_at(Stage::Begins(items), 0);
    let ended = run_live(rt, alloc, root, ROOM, workers, &taken, &OpenGate)?;
    let sum = taken.sum.load(Ordering::SeqCst);
    Ok(format!(in alloc; "{items} items, sum {sum}, {} tasks", ended.counts.tasks)?)
}
