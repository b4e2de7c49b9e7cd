//! Runs of programs that have to be certain: the lines are the certificate's, by any number of workers.
ghost use Rattle.std.specs.Prelude.{◌<◌, ◌≤◌};

use crate::asserted::{equal, equal_at};
use crate::certificates::{CROWD, TWO_SENDERS, TWO_SENDERS_CERTIFICATE};
use crate::ended::Ended;
use job_ends::Status;
use run_jobs::{NoCertificate, Workers, certain_bytes, certain_on};
use run_laws::{Luck, LuckAt};
use std::alloc::Global;
use std::process::Abort;
use std::sync::Wait;
use std::thread::Threads;

/// Runs the text by as many workers, and compares how that ends. A trace is written if there are
/// lines, and else none.
fn check_by<R: Abort + Threads + Wait + Sync>(
    rt: &R,
    alloc: Global,
    text: &str,
    workers: u32,
    wanted: &Ended,
)
    requires { (0 < workers) × (workers ≤ 16) }
{
    let mut out = Vec::new(alloc);
    let mut reported = Vec::new(alloc);
    let mut trace: Option<Vec<u8>> = Some(Vec::new(alloc));
    let ended = certain_on(
        Workers {
            rt,
            number: workers,
        },
        alloc,
        text.as_bytes(),
        &mut out,
        &mut reported,
        &mut trace,
    );
    equal_at(rt, text, ended, wanted.status);
    equal_at(rt, text, out.as_slice(), wanted.lines.as_bytes());
    equal_at(rt, text, reported.as_slice(), wanted.faults.as_bytes());
    let is_traced = trace.is_some_and(|written| !written.is_empty());
    equal_at(rt, text, is_traced, wanted.status == Status::Done);
}

/// By 1, 2 and 16 workers the text's run ends so.
fn check<R: Abort + Threads + Wait + Sync>(rt: &R, alloc: Global, text: &str, wanted: &Ended) {
    check_by(rt, alloc, text, 1, wanted);
    check_by(rt, alloc, text, 2, wanted);
    check_by(rt, alloc, text, 16, wanted);
}

#[test]
fn certain_runs(rt: HostRuntime) {
    let wanted = Ended::done(TWO_SENDERS_CERTIFICATE);
    check(&rt, rt.alloc(), TWO_SENDERS, &wanted);
}

/// Texts whose program isn't certain, and what is said of each.
const UNCERTAIN: [(&str, &str); 2] = [
    (CROWD, "luck at 8: task 0 registers task 2 on phaser 0\n"),
    (
        r#"{"main":[["next"],["jump"]]}"#,
        "refused 24 BadText at 2\n",
    ),
];

#[test]
fn uncertain_programs_are_not_run(rt: HostRuntime) {
    for (text, faults) in UNCERTAIN {
        check(&rt, rt.alloc(), text, &Ended::refused(faults));
    }
}

#[test]
fn why_a_program_is_not_run(rt: HostRuntime) {
    let mut out = Vec::new(rt.alloc());
    let mut nowhere: Option<Vec<u8>> = None;
    let workers = Workers { rt: &rt, number: 2 };
    let answer = certain_bytes(
        workers,
        rt.alloc(),
        CROWD.as_bytes(),
        &mut out,
        &mut nowhere,
    );
    let at = LuckAt {
        place: 8,
        luck: Luck::Registered(0, 2, 0),
    };
    equal(&rt, answer, Err(NoCertificate::Luck(at)));
    equal(&rt, out.len(), 0);
}

// Lines that can't be written are a fault.
#[test]
fn a_certain_run_that_cannot_be_written(rt: HostRuntime) {
    let mut full = [0u8; 20];
    let mut faults = Vec::new(rt.alloc());
    let mut nowhere: Option<Vec<u8>> = None;
    let status = certain_on(
        Workers { rt: &rt, number: 2 },
        rt.alloc(),
        TWO_SENDERS.as_bytes(),
        &mut &mut full[..],
        &mut faults,
        &mut nowhere,
    );
    equal(&rt, status, Status::Fault);
    equal(&rt, faults.as_slice(), b"fault write\n".as_slice());
}
