//! No lock is held while a body runs: a task's `step` waits until another's `single` has begun, and
//! that until the first has gone on at the same phaser and the same finish.
use crate::asserted::equal;
use phase_model::Ops;
use phase_modes::{Limits, Mode, Pair, Phased, Refusal};
use phased_rt::{Act, Answer, Body, OpenGate, run};
use std::sync::atomic::{AtomicBool, Ordering};
use std::test::Fail;
use std::thread;

/// How far both tasks have come.
#[derive(Drop)]
struct Meeting {
    /// The root's `single` has begun.
    begun: AtomicBool,
    /// It began while the other's `step` ran.
    step_saw: AtomicBool,
    /// The other has spawned since.
    spawned: AtomicBool,
    /// It did so while the `single` ran.
    single_saw: AtomicBool,
}

const MOST_TURNS: u64 = 10_000_000;

/// Waits until the flag is set, for so many turns at most. Whether it is.
fn waits(flag: &AtomicBool) -> bool {
    for _turn in 0..MOST_TURNS {
        if flag.load(Ordering::SeqCst) {
            return true;
        }
        thread::yield_now();
    }
    false
}

/// What a task does next. The root makes phaser 0, spawns the other, and proposes the statement 7.
#[derive(Clone, Copy)]
enum Next {
    Makes,
    Spawns,
    Proposes,
    Signals,
    Meets,
    Tells,
    Ends,
}

#[derive(Clone, Copy)]
struct Meets<'a> {
    next: Next,
    meeting: &'a Meeting,
}

impl<'a> Meets<'a> {
    /// The other task, which only signals.
    fn other(&self) -> Act<Meets<'a>> {
        let mut pairs = Phased::none();
        pairs.push(Pair {
            phaser: 0,
            mode: Mode::Sig,
        });
        let next = Next::Signals;
        Act::Async(Meets { next, ..*self }, pairs)
    }

    /// It waits for the root's `single`, and then spawns a task on its phaser: an event of that, and
    /// one of the finish.
    fn meet(&self) -> Act<Meets<'a>> {
        let seen = waits(&self.meeting.begun);
        self.meeting.step_saw.store(seen, Ordering::SeqCst);
        let next = Next::Ends;
        Act::AsyncAll(Meets { next, ..*self })
    }

    /// It tells the root that it has spawned.
    fn tell(&self) -> Act<Meets<'a>> {
        self.meeting.spawned.store(true, Ordering::SeqCst);
        Act::End
    }
}

impl<'a> Body for Meets<'a> {
    fn step(&mut self, _answer: Answer) -> Result<Act<Meets<'a>>, Refusal> {
        let (act, next) = match self.next {
            Next::Makes => (Act::New(Mode::Single, Ops::none(), None), Next::Spawns),
            Next::Spawns => (self.other(), Next::Proposes),
            Next::Proposes => (Act::NextSingle(7), Next::Ends),
            Next::Signals => (Act::Signal, Next::Meets),
            Next::Meets => (self.meet(), Next::Tells),
            Next::Tells => (self.tell(), Next::Ends),
            Next::Ends => (Act::End, Next::Ends),
        };
        self.next = next;
        Ok(act)
    }

    fn single(&mut self, _number: u32) {
        self.meeting.begun.store(true, Ordering::SeqCst);
        let seen = waits(&self.meeting.spawned);
        self.meeting.single_saw.store(seen, Ordering::SeqCst);
    }
}

// The root can only claim its statement once the other has signalled, and takes the phaser's lock for
// that; the other takes it to register a task, and the finish's to spawn it.
#[test]
fn no_lock_while_a_body_runs(rt: HostRuntime) -> Result<(), Fail> {
    let meeting = Meeting {
        begun: AtomicBool::new(false),
        step_saw: AtomicBool::new(false),
        spawned: AtomicBool::new(false),
        single_saw: AtomicBool::new(false),
    };
    let next = Next::Makes;
    let root = Meets {
        next,
        meeting: &meeting,
    };
    let report = run(&rt, rt.alloc(), root, Limits::default(), 2, &OpenGate)?;
    equal(&rt, report.world.tasks.len(), 3);
    assert!(rt;
        meeting.step_saw.load(Ordering::SeqCst),
        "the single began while a step ran"
    );
    assert!(rt;
        meeting.single_saw.load(Ordering::SeqCst),
        "the other went on while the single ran"
    );
    Ok(())
}
