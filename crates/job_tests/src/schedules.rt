//! A worked example by its picks, a trace that says a bound, and schedules that print nothing. The
//! other examples stand in `examples/schedules` alone.
use crate::asserted::equal;
use job_ends::{Failure, Status};
use phase_modes::Refusal;
use std::process::Abort;
use text_jobs::{schedule_bytes, schedule_on};

mod programs;

fn is_written(rt: &impl Abort, bytes: &[u8], text: &str) {
    equal(rt, bytes, text.as_bytes());
}

/// Two tasks that send for two phases.
const TWO_SENDERS: &str = r#"{"main":[["new","p","SIG_WAIT",["sum"]],
    ["async",[["p","SIG_WAIT"]],[["send","p",0,1],["next"],["send","p",0,10],["next"]]],
    ["async",[["p","SIG_WAIT"]],[["send","p",0,2],["next"],["send","p",0,20],["next"]]]]}"#;

const TWO_SENDERS_REPORT: &str = "phaser 0 phases 2\nphaser 0 phase 0 acc 0 value 3\n\
    phaser 0 phase 1 acc 0 value 30\ntask 0 ended\ntask 1 ended\ntask 2 ended\nfinish 0 tasks 2\n\
    totals registered 3 signals 4 passes 4 drops 3 sends 4 up 33 down 0\n";

#[test]
fn two_senders(rt: HostRuntime) {
    let mut out = Vec::new(rt.alloc());
    let mut faults = Vec::new(rt.alloc());
    let mut nowhere: Option<Vec<u8>> = None;
    let ended = schedule_on(
        rt.alloc(),
        TWO_SENDERS.as_bytes(),
        &[9, 0, 0, 1, 0],
        &mut out,
        &mut faults,
        &mut nowhere,
    );
    equal(&rt, ended, Status::Done);
    is_written(&rt, &out, TWO_SENDERS_REPORT);
    is_written(&rt, &faults, "");
}

const SMALLEST: &str = r#"{"main":[["new","p","SIG_WAIT",[]],["next"]]}"#;

// A trace that can't be written is a fault, and then there is no report.
#[test]
fn trace_fails(rt: HostRuntime) {
    let mut out = Vec::new(rt.alloc());
    let mut faults = Vec::new(rt.alloc());
    let mut full = [0u8; 20];
    let mut trace_out = Some(&mut full[..]);
    let status = schedule_on(
        rt.alloc(),
        SMALLEST.as_bytes(),
        &[],
        &mut out,
        &mut faults,
        &mut trace_out,
    );
    equal(&rt, status, Status::Fault);
    equal(&rt, out.len(), 0);
    equal(&rt, faults.as_slice(), b"fault write\n".as_slice());
}

/// The trace begins with this text.
fn begins(rt: &impl Abort, trace: Option<&Vec<u8>>, text: &str) {
    match trace {
        Some(trace) => assert!(rt; trace.starts_with(text.as_bytes())),
        None => assert!(rt; false, "no trace"),
    }
}

/// A signaller that may be one phase ahead of a reader.
const BOUNDED: &str = r#"{"main":[["new","p","SIG_WAIT",["sum"],1],
    ["async",[["p","SIG"]],[["repeat",3,[["send","p",0,1],["next"]]]]],
    ["async",[["p","WAIT"]],[["repeat",3,[["next"],["look","p",0]]]]]]}"#;

const BOUNDED_REPORT: &str = "phaser 0 phases 3\nphaser 0 phase 0 acc 0 value 1\n\
    phaser 0 phase 1 acc 0 value 1\nphaser 0 phase 2 acc 0 value 1\n\
    task 0 ended\ntask 1 ended\ntask 2 ended\nfinish 0 tasks 2\n\
    totals registered 3 signals 3 passes 6 drops 3 sends 3 up 3 down 0\n";

const BOUNDED_START: &str = "{\"events\":[[1,\"p\",0,\"make\",0,\"SIG_WAIT\",[\"sum\"],1],\
    [2,\"t\",0,\"begin\",[\"async\",1,[[0,\"SIG\"]]]],[3,\"p\",0,\"reg\",0,1,\"SIG\"],";

// The trace of a run says the bound of each phaser.
#[test]
fn trace_of_a_bounded_run(rt: HostRuntime) {
    let mut out = Vec::new(rt.alloc());
    let mut trace_out = Some(Vec::new(rt.alloc()));
    let done = schedule_bytes(
        rt.alloc(),
        BOUNDED.as_bytes(),
        &[],
        &mut out,
        &mut trace_out,
    );
    equal(&rt, done, Ok(()));
    is_written(&rt, &out, BOUNDED_REPORT);
    begins(&rt, trace_out.as_ref(), BOUNDED_START);
}

fn is_trace(rt: &impl Abort, trace: Option<&Vec<u8>>, text: &str) {
    match trace {
        Some(trace) => is_written(rt, trace, text),
        None => assert!(rt; false, "no trace"),
    }
}

#[test]
fn a_text_that_is_refused_has_no_trace(rt: HostRuntime) {
    let mut out = Vec::new(rt.alloc());
    let mut trace_out = Some(Vec::new(rt.alloc()));
    let answer = schedule_bytes(rt.alloc(), b"7", &[], &mut out, &mut trace_out);
    equal(&rt, answer, Err(Failure::Refused(Refusal::BadText(0))));
    is_trace(&rt, trace_out.as_ref(), "");
}
