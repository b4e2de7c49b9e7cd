//! Runs without a store: a pipeline, a server, a program, and both kernels.
ghost use Rattle.std.specs.Prelude.{◌<◌, ◌≤◌};

use job_ends::Status;
use job_kernels::PipelineSize;
use live_rt::{Act, Answer, Body, Counts, Ends, OpenGate, Room, Unheard, run_live};
use phase_model::{Bound, Look, Op, Ops};
use phase_modes::{Mode, Pair, Phased, Refusal};
use run_jobs::{Silent, Workers, live_on, live_pipeline_on, live_stencil_on};
use std::alloc::Global;
use std::process::Abort;
use std::sync::Wait;
use std::sync::atomic::{AtomicU64, Ordering};
use std::thread::Threads;

/// What a task does.
#[derive(Clone, Copy)]
enum Job {
    Makes(u32),
    Feeds(u32),
    Eats(u32, i64),
    Turns(u32),
    Serves(u32),
}

#[derive(Drop)]
struct Hand {
    job: Job,
    at: u32,
    first: Option<u32>,
}

fn hand_for(job: Job) -> Hand {
    Hand {
        job,
        at: 0,
        first: None,
    }
}

fn one_sum() -> Ops {
    let mut ops = Ops::none();
    ops.push(Op::Sum);
    ops
}

fn on(phaser: u32, mode: Mode) -> Phased {
    let mut pairs = Phased::none();
    pairs.push(Pair { phaser, mode });
    pairs
}

impl Hand {
    fn pipes(&mut self, answer: Answer, items: u32) -> Act<Hand> {
        if let Answer::Made(phaser) = answer {
            self.first = Some(phaser);
        }
        let phaser = self.first.unwrap_or(0);
        match self.at {
            1 => Act::New(Mode::SigWait, one_sum(), Bound::of(64)),
            2 => Act::Async(hand_for(Job::Feeds(items)), on(phaser, Mode::Sig)),
            3 => Act::Async(hand_for(Job::Eats(items, 0)), on(phaser, Mode::Wait)),
            _ => Act::End,
        }
    }
}

impl Body for Hand {
    fn step(&mut self, answer: Answer) -> Result<Act<Hand>, Refusal> {
        self.at = self.at.saturating_add(1);
        if let Answer::Made(phaser) = answer {
            self.first = Some(phaser);
        }
        let odd = self.at % 2 == 1;
        let act = match self.job {
            Job::Makes(items) => self.pipes(answer, items),
            Job::Feeds(0) | Job::Turns(0) => Act::End,
            Job::Feeds(left) if odd => Act::Send(0, 0, 1),
            Job::Feeds(left) => {
                self.job = Job::Feeds(left - 1);
                Act::Next
            }
            Job::Eats(left, sum) => {
                if let Answer::Saw(Look::Value(value)) = answer {
                    self.job = Job::Eats(left, sum.saturating_add(value));
                }
                if odd && left == 0 {
                    Act::End
                } else if odd {
                    if let Job::Eats(left, sum) = self.job {
                        self.job = Job::Eats(left.saturating_sub(1), sum);
                    }
                    Act::Next
                } else {
                    Act::Look(0, 0)
                }
            }
            Job::Turns(left) if odd => Act::Send(self.first.unwrap_or(0), 0, 1),
            Job::Turns(left) => {
                self.job = Job::Turns(left - 1);
                Act::Next
            }
            Job::Serves(left) => match self.at {
                1 => Act::OpenFinish,
                2 => Act::New(Mode::SigWait, one_sum(), Bound::of(2)),
                3..=6 => Act::AsyncAll(Hand {
                    job: Job::Turns(3),
                    at: 0,
                    first: self.first,
                }),
                7 => Act::ShutFinish,
                _ if left == 0 => Act::End,
                _ => {
                    self.at = 1;
                    self.job = Job::Serves(left - 1);
                    Act::OpenFinish
                }
            },
        };
        Ok(act)
    }

    fn single(&mut self, _number: u32) {}
}

/// Adds up what the eaters ate.
#[derive(Drop)]
struct Eaten {
    sum: AtomicU64,
}

impl Ends<Hand> for Eaten {
    fn ended(&self, body: Hand, _refused: Option<Refusal>) {
        if let Job::Eats(_, sum) = body.job {
            let _ = self
                .sum
                .fetch_add(u64::try_from(sum).unwrap_or(0), Ordering::SeqCst);
        }
    }
}

fn equal<T: PartialEq + Drop>(rt: &impl Abort, one: T, other: T) {
    assert!(rt; one == other, "not equal");
}

fn counts<R: Abort + Threads + Wait + Sync>(rt: &R, alloc: Global, job: Job, workers: u32) -> Counts
    requires { (0 < workers) × (workers ≤ 16) }
{
    let room = Room {
        phasers: 4,
        finishes: 4,
    };
    match run_live(rt, alloc, hand_for(job), room, workers, &Unheard, &OpenGate) {
        Ok(ended) => {
            assert!(rt; ended.refused.is_none(), "refused");
            ended.counts
        }
        Err(_) => panic!(rt; "it failed"),
    }
}

#[test]
fn a_pipeline(rt: HostRuntime) {
    let eaten = Eaten {
        sum: AtomicU64::new(0),
    };
    let room = Room {
        phasers: 1,
        finishes: 1,
    };
    for workers in 1u32..=4 {
        let Ok(ended) = run_live(
            &rt,
            rt.alloc(),
            hand_for(Job::Makes(2000)),
            room,
            workers,
            &eaten,
            &OpenGate,
        ) else {
            panic!(&rt; "it failed");
        };
        equal(&rt, ended.counts.tasks, 3);
        equal(&rt, ended.counts.totals.sends, 2000);
        equal(&rt, ended.counts.totals.passes, 4000);
        equal(
            &rt,
            eaten.sum.load(Ordering::SeqCst),
            2000 * u64::from(workers),
        );
    }
}

#[test]
fn a_server(rt: HostRuntime) {
    for workers in 1u32..=4 {
        let counts = counts(&rt, rt.alloc(), Job::Serves(99), workers);
        equal(&rt, counts.tasks, 401);
        equal(&rt, counts.phasers, 100);
        equal(&rt, counts.finishes, 101);
        equal(&rt, counts.totals.sends, 1200);
        equal(&rt, counts.totals.passes, 1200);
        equal(&rt, counts.refused, 0);
    }
}

#[test]
fn a_program(rt: HostRuntime) {
    let text = r#"{"main":[["new","p","SIG_WAIT",["sum"]],
            ["async",[["p","SIG_WAIT"]],
                [["send","p",0,1],["next"],["send","p",0,10],["next"]]],
            ["async",[["p","SIG_WAIT"]],
                [["send","p",0,2],["next"],["send","p",0,20],["next"]]]]}"#;
    let mut out = Vec::new(rt.alloc());
    let mut faults = Vec::new(rt.alloc());
    let workers = Workers { rt: &rt, number: 2 };
    let _status = live_on(
        workers,
        rt.alloc(),
        text.as_bytes(),
        &Silent,
        &mut out,
        &mut faults,
    );
    let wanted = "tasks 3 ended 3 refused 0\nphasers 1\nfinishes 1\n\
        totals registered 3 signals 4 passes 4 drops 3 sends 4 up 33 down 0\n";
    assert!(&rt; out.as_slice() == wanted.as_bytes(), "other lines");
}

// As in `kernels/on_workers.rt`, where 8 4 0 becomes 3 3 1 in two steps: beside the root there is a task for
// each cell, with a phaser of its own.
#[test]
fn a_stencil(rt: HostRuntime) {
    let wanted = "cells 3 3 1\ntasks 4 ended 4 refused 0\nphasers 3\nfinishes 1\n\
        totals registered 10 signals 6 passes 14 drops 10 sends 9 up 29 down 0\n";
    for number in [1, 2, 4] {
        let mut out = Vec::new(rt.alloc());
        let mut faults = Vec::new(rt.alloc());
        let workers = Workers { rt: &rt, number };
        let status = live_stencil_on(
            workers,
            rt.alloc(),
            &[8, 4, 0],
            2,
            &Silent,
            &mut out,
            &mut faults,
        );
        equal(&rt, status, Status::Done);
        assert!(&rt; out.as_slice() == wanted.as_bytes(), "other lines");
    }
}

// The worked example `pipeline_two_stages`: beside the root there are a source, two stages and a sink, and a
// phaser between each two of them.
#[test]
fn items_through_stages(rt: HostRuntime) {
    let wanted = "items 4 5 6\ntasks 5 ended 5 refused 0\nphasers 3\nfinishes 1\n\
        totals registered 9 signals 10 passes 22 drops 9 sends 9 up 30 down 0\n";
    let size = PipelineSize {
        stages: 2,
        items: 3,
    };
    for number in [1, 2, 4] {
        let mut out = Vec::new(rt.alloc());
        let mut faults = Vec::new(rt.alloc());
        let workers = Workers { rt: &rt, number };
        let status = live_pipeline_on(workers, rt.alloc(), size, &Silent, &mut out, &mut faults);
        equal(&rt, status, Status::Done);
        assert!(&rt; out.as_slice() == wanted.as_bytes(), "other lines");
    }
}
