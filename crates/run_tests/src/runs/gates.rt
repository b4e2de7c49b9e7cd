//! Two workers step two tasks at once: a gate holds the one until the other's step is over.
use crate::asserted::equal;
use job_script::read_program;
use phased_rt::{Gate, run};
use std::sync::atomic::{AtomicBool, AtomicU64, Ordering};
use std::test::Fail;
use std::thread;

/// Holds the first step of task 1 until the first step of task 2 is over, for so many turns at most.
#[derive(Drop)]
struct Turnstile {
    held: AtomicBool,
    over: AtomicBool,
    turns: AtomicU64,
}

const MOST_TURNS: u64 = 10_000_000;

impl Turnstile {
    /// How many turns pass until task 2's step is over.
    fn wait(&self) -> u64 {
        for turn in 0..MOST_TURNS {
            if self.over.load(Ordering::SeqCst) {
                return turn;
            }
            thread::yield_now();
        }
        MOST_TURNS
    }
}

impl Gate for Turnstile {
    fn enter(&self, _worker: u32, task: u32) {
        if task == 1 && !self.held.swap(true, Ordering::SeqCst) {
            self.turns.store(self.wait(), Ordering::SeqCst);
        }
    }

    fn leave(&self, _worker: u32, task: u32) {
        if task == 2 {
            self.over.store(true, Ordering::SeqCst);
        }
    }
}

const TWO_TASKS: &str = r#"{"main":[["async",[],[]],["async",[],[]]]}"#;

#[test]
fn two_workers_step_at_once(rt: HostRuntime) -> Result<(), Fail> {
    let program = read_program(rt.alloc(), TWO_TASKS.as_bytes())?;
    let gate = Turnstile {
        held: AtomicBool::new(false),
        over: AtomicBool::new(false),
        turns: AtomicU64::new(0),
    };
    let report = run(&rt, rt.alloc(), program.root(), program.limits(), 2, &gate)?;
    equal(&rt, report.world.tasks.len(), 3);
    assert!(rt; gate.held.load(Ordering::SeqCst), "task 1 was held");
    assert!(rt;
        gate.turns.load(Ordering::SeqCst) < MOST_TURNS,
        "task 2 went on meanwhile"
    );
    Ok(())
}
