//! A run hands its root's body back, with what that has kept.
ghost use Rattle.std.specs.Prelude.{◌<◌, ◌≤◌};

use crate::asserted::equal_at;
use phase_model::{Look, Op, Ops};
use phase_modes::{Limits, Mode, Refusal};
use phased_rt::{Act, Answer, Body, OpenGate, run};
use std::alloc::Global;
use std::process::Abort;
use std::sync::Wait;
use std::test::Fail;
use std::thread::Threads;

/// What a task does next.
#[derive(Clone, Copy)]
enum Next {
    Makes,
    Spawns,
    Sends,
    Turns,
    Looks,
    Ends,
}

/// A task that sends its number, ends its turn and keeps the sum that it sees. The root makes the
/// phaser, and spawns a second one.
#[derive(Clone, Copy)]
struct Keeper {
    next: Next,
    number: i32,
    seen: Option<i64>,
}

/// The operators of a phaser with one sum.
fn one_sum() -> Ops {
    let mut ops = Ops::none();
    ops.push(Op::Sum);
    ops
}

/// A task that sends 2.
const SECOND: Keeper = Keeper {
    next: Next::Sends,
    number: 2,
    seen: None,
};

impl Body for Keeper {
    fn step(&mut self, answer: Answer) -> Result<Act<Keeper>, Refusal> {
        if let Answer::Saw(Look::Value(sum)) = answer {
            self.seen = Some(sum);
        }
        let (act, next) = match self.next {
            Next::Makes => (Act::New(Mode::SigWait, one_sum(), None), Next::Spawns),
            Next::Spawns => (Act::AsyncAll(SECOND), Next::Sends),
            Next::Sends => (Act::Send(0, 0, self.number), Next::Turns),
            Next::Turns => (Act::Next, Next::Looks),
            Next::Looks => (Act::Look(0, 0), Next::Ends),
            Next::Ends => (Act::End, Next::Ends),
        };
        self.next = next;
        Ok(act)
    }

    fn single(&mut self, _number: u32) {}
}

/// The root sends 40 and the other task 2, both in phase 0; the root's body comes back with the sum
/// of these.
fn keeps_the_sum<R: Abort + Threads + Wait + Sync>(
    rt: &R,
    alloc: Global,
    workers: u32,
) -> Result<(), Fail>
    requires { (0 < workers) × (workers ≤ 16) }
{
    let root = Keeper {
        next: Next::Makes,
        number: 40,
        seen: None,
    };
    let report = run(rt, alloc, root, Limits::default(), workers, &OpenGate)?;
    equal_at(rt, ("workers", workers), report.root.number, 40);
    equal_at(rt, ("workers", workers), report.root.seen, Some(42));
    Ok(())
}

#[test]
fn root_comes_back(rt: HostRuntime) -> Result<(), Fail> {
    keeps_the_sum(&rt, rt.alloc(), 1)?;
    keeps_the_sum(&rt, rt.alloc(), 2)?;
    keeps_the_sum(&rt, rt.alloc(), 16)
}
