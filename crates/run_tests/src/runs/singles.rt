//! A statement is run once for each phase in which it was proposed, by whichever task claims it.
ghost use Rattle.std.specs.Prelude.{◌≡◌, ◌<◌, ◌≤◌, IfErr};

use crate::asserted::{equal, equal_at};
use phase_model::Ops;
use phase_modes::{Limits, Mode, Refusal};
use phased_rt::{Act, Answer, Body, OpenGate, run};
use std::alloc::Global;
use std::process::Abort;
use std::sync::atomic::{AtomicU64, Ordering};
use std::sync::{Arc, Wait};
use std::test::Fail;
use std::thread::Threads;

/// A task that spawns so many others, each on all its phasers, and proposes the statement 7 five
/// times.
#[derive(Drop)]
struct Proposer {
    made: bool,
    spawns: u32,
    turns: u32,
    runs: Arc<AtomicU64, Global>,
}

impl Proposer {
    fn child(&self) -> Result<Proposer, Refusal>
        ensures { IfErr result (λ e. e ≡ Refusal.Memory) }
    {
        match Arc::try_clone(&self.runs) {
            Ok(runs) => Ok(Proposer {
                made: true,
                spawns: 0,
                turns: 5,
                runs,
            }),
            Err(_) => Err(Refusal::Memory),
        }
    }
}

impl Body for Proposer {
    fn step(&mut self, _answer: Answer) -> Result<Act<Proposer>, Refusal> {
        if !self.made {
            self.made = true;
            return Ok(Act::New(Mode::Single, Ops::none(), None));
        }
        if self.spawns > 0 {
            self.spawns -= 1;
            return Ok(Act::AsyncAll(self.child()?));
        }
        if self.turns > 0 {
            self.turns -= 1;
            return Ok(Act::NextSingle(7));
        }
        Ok(Act::End)
    }

    fn single(&mut self, number: u32) {
        if number == 7 {
            let _before = self.runs.fetch_add(1, Ordering::SeqCst);
        }
    }
}

/// Three tasks propose the statement five times each, and it is run five times.
fn runs_once_a_turn<R: Abort + Threads + Wait + Sync>(
    rt: &R,
    alloc: Global,
    workers: u32,
) -> Result<(), Fail>
    requires { (0 < workers) × (workers ≤ 16) }
{
    let runs = Arc::new(alloc, AtomicU64::new(0))?;
    let root = Proposer {
        made: false,
        spawns: 2,
        turns: 5,
        runs: Arc::try_clone(&runs)?,
    };
    let report = run(rt, alloc, root, Limits::default(), workers, &OpenGate)?;
    equal_at(rt, ("workers", workers), runs.load(Ordering::SeqCst), 5);
    equal(rt, report.world.totals.passes, 15);
    Ok(())
}

#[test]
fn single_once(rt: HostRuntime) -> Result<(), Fail> {
    runs_once_a_turn(&rt, rt.alloc(), 1)?;
    runs_once_a_turn(&rt, rt.alloc(), 2)?;
    runs_once_a_turn(&rt, rt.alloc(), 16)
}
