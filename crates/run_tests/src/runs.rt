//! Worked examples of runs by 1, 2 and 16 workers, with the lines that they print whatever the
//! order, and runs that print none.
ghost use Rattle.std.specs.Prelude.{◌<◌, ◌≤◌};

use crate::asserted::{equal, equal_at};
use crate::ended::Ended;
use job_ends::{Failure, Status};
use phase_modes::Refusal;
use run_jobs::{Workers, run_bytes, run_on};
use std::alloc::Global;
use std::process::Abort;
use std::sync::Wait;
use std::thread::Threads;

mod asked;
mod gates;
mod queues;
mod roots;
mod singles;
mod unlocked;

fn is_written(rt: &impl Abort, bytes: &[u8], text: &str) {
    equal(rt, bytes, text.as_bytes());
}

/// Runs the text by as many workers, and compares how that ends.
fn check_by<R: Abort + Threads + Wait + Sync>(
    rt: &R,
    alloc: Global,
    text: &str,
    workers: u32,
    wanted: &Ended<'_>,
)
    requires { (0 < workers) × (workers ≤ 16) }
{
    let mut out = Vec::new(alloc);
    let mut reported = Vec::new(alloc);
    let mut nowhere: Option<Vec<u8>> = None;
    let workers = Workers {
        rt,
        number: workers,
    };
    let ended = run_on(
        workers,
        alloc,
        text.as_bytes(),
        &mut out,
        &mut reported,
        &mut nowhere,
    );
    equal_at(rt, text, ended, wanted.status);
    is_written(rt, &out, wanted.lines);
    is_written(rt, &reported, wanted.faults);
}

/// By 1, 2 and 16 workers the text's run is reported by these lines.
fn reports<R: Abort + Threads + Wait + Sync>(rt: &R, alloc: Global, text: &str, lines: &str) {
    let wanted = Ended::done(lines);
    check_by(rt, alloc, text, 1, &wanted);
    check_by(rt, alloc, text, 2, &wanted);
    check_by(rt, alloc, text, 16, &wanted);
}

/// Programs, each with the lines of its report: values are sent, a finish waits for its task, and a
/// child is given up before it is born. The other examples stand in `examples/schedules` alone.
const PROGRAMS: [(&str, &str); 3] = [
    (
        r#"{"main":[["new","p","SIG_WAIT",["sum"]],
            ["async",[["p","SIG_WAIT"]],
                [["send","p",0,1],["next"],["send","p",0,10],["next"]]],
            ["async",[["p","SIG_WAIT"]],
                [["send","p",0,2],["next"],["send","p",0,20],["next"]]]]}"#,
        "phaser 0 phases 2\nphaser 0 phase 0 acc 0 value 3\nphaser 0 phase 1 acc 0 value 30\n\
         task 0 ended\ntask 1 ended\ntask 2 ended\nfinish 0 tasks 2\n\
         totals registered 3 signals 4 passes 4 drops 3 sends 4 up 33 down 0\n",
    ),
    (
        r#"{"main":[["open"],["new","p","SIG_WAIT",[]],["async",[["p","WAIT"]],[["next"]]],
            ["shut"]]}"#,
        "phaser 0 phases 1\ntask 0 ended\ntask 1 ended\nfinish 0 tasks 0\nfinish 1 tasks 1\n\
         totals registered 2 signals 0 passes 1 drops 2 sends 0 up 0 down 0\n",
    ),
    (
        r#"{"limits":{"regs":2},"main":[["new","p","SIG_WAIT",[]],["new","q","SIG_WAIT",[]],
            ["async",[["q","WAIT"]],[["next"]]],["async",[["p","SIG"],["q","SIG"]],[]]]}"#,
        "phaser 0 phases 0\nphaser 1 phases 1\ntask 0 refused 14 RegsFull\ntask 1 ended\n\
         finish 0 tasks 1\n\
         totals registered 4 signals 0 passes 1 drops 4 sends 0 up 0 down 0\n",
    ),
];

#[test]
fn worked_programs(rt: HostRuntime) {
    for (text, lines) in PROGRAMS {
        reports(&rt, rt.alloc(), text, lines);
    }
}

const SMALLEST: &str = r#"{"main":[["new","p","SIG_WAIT",[]],["next"]]}"#;

const SMALLEST_REPORT: &str = "phaser 0 phases 1\ntask 0 ended\nfinish 0 tasks 0\n\
    totals registered 1 signals 1 passes 1 drops 1 sends 0 up 0 down 0\n";

const SMALLEST_TRACE: &str = "{\"events\":[[1,\"p\",0,\"make\",0,\"SIG_WAIT\",[],null],\
    [2,\"t\",0,\"begin\",[\"next\"]],[3,\"p\",0,\"sig\",0],[4,\"p\",0,\"pass\",0],\
    [5,\"t\",0,\"begin\",[\"end\"]],[6,\"p\",0,\"drop\",0],[7,\"f\",0,\"shut\"]],\
    \"limits\":{\"acts\":4096,\"finishes\":64,\"history\":4096,\"phasers\":64,\"regs\":256,\
    \"tasks\":256},\"version\":2}\n";

fn is_trace(rt: &impl Abort, trace: Option<&Vec<u8>>, text: &str) {
    match trace {
        Some(trace) => is_written(rt, trace, text),
        None => assert!(rt; false, "no trace"),
    }
}

// One task makes its events in one order, and draws each ticket for one of them.
#[test]
fn smallest_trace(rt: HostRuntime) {
    let mut out = Vec::new(rt.alloc());
    let mut trace_out = Some(Vec::new(rt.alloc()));
    let done = run_bytes(
        Workers { rt: &rt, number: 2 },
        rt.alloc(),
        SMALLEST.as_bytes(),
        &mut out,
        &mut trace_out,
    );
    equal(&rt, done, Ok(()));
    is_written(&rt, &out, SMALLEST_REPORT);
    is_trace(&rt, trace_out.as_ref(), SMALLEST_TRACE);
}

// A trace that can't be written is a fault, and then there is no report.
#[test]
fn trace_fails(rt: HostRuntime) {
    let mut out = Vec::new(rt.alloc());
    let mut faults = Vec::new(rt.alloc());
    let mut full = [0u8; 20];
    let mut trace_out = Some(&mut full[..]);
    let status = run_on(
        Workers { rt: &rt, number: 2 },
        rt.alloc(),
        SMALLEST.as_bytes(),
        &mut out,
        &mut faults,
        &mut trace_out,
    );
    equal(&rt, status, Status::Fault);
    equal(&rt, out.len(), 0);
    equal(&rt, faults.as_slice(), b"fault write\n".as_slice());
}

#[test]
fn a_text_that_is_refused_has_no_trace(rt: HostRuntime) {
    let mut out = Vec::new(rt.alloc());
    let mut trace_out = Some(Vec::new(rt.alloc()));
    let worker = Workers { rt: &rt, number: 1 };
    let answer = run_bytes(worker, rt.alloc(), b"7", &mut out, &mut trace_out);
    equal(&rt, answer, Err(Failure::Refused(Refusal::BadText(0))));
    is_trace(&rt, trace_out.as_ref(), "");
}
