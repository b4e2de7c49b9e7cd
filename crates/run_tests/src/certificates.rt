//! What programs are certified to give, and the first event in which luck has a part.
use crate::asserted::{equal, equal_at};
use job_ends::Status;
use job_script::read_program;
use run_jobs::{NoCertificate, certify_bytes, certify_on};
use run_laws::{Luck, LuckAt, NoAnswer, certify, first_luck};
use schedule_run::run_picks;
use std::alloc::Global;
use std::process::Abort;
use std::test::Fail;

// Two tasks send for two phases.
pub(crate) const TWO_SENDERS: &str = r#"{"main":[["new","p","SIG_WAIT",["sum"]],
    ["async",[["p","SIG_WAIT"]],[["send","p",0,1],["next"],["send","p",0,10],["next"]]],
    ["async",[["p","SIG_WAIT"]],[["send","p",0,2],["next"],["send","p",0,20],["next"]]]]}"#;

const TWO_SENDERS_REPORT: &str = "phaser 0 phases 2\nphaser 0 phase 0 acc 0 value 3\n\
    phaser 0 phase 1 acc 0 value 30\ntask 0 ended\ntask 1 ended\ntask 2 ended\nfinish 0 tasks 2\n\
    totals registered 3 signals 4 passes 4 drops 3 sends 4 up 33 down 0\n";

pub(crate) const TWO_SENDERS_CERTIFICATE: &str =
    "phaser 0 phases 2\nphaser 0 phase 0 acc 0 value 3\n\
    phaser 0 phase 1 acc 0 value 30\ntask 0 ended\ntask 1 ended\ntask 2 ended\nfinish 0 tasks 2\n\
    totals registered 3 signals 4 passes 4 drops 3 sends 4 up 33 down 0\ncertain\n";

// The second child finds room where the first has left.
pub(crate) const CROWD: &str =
    r#"{"limits":{"regs":2},"main":[["new","p","SIG_WAIT",[]],["async_all",[]],
    ["async_all",[]]]}"#;

/// Programs with the first event in which luck has a part: its place, what it decides, and how that
/// is said. `examples/commands` certifies others.
const LUCKY: [(&str, u64, Luck, &str); 3] = [
    // The root draws task 1, and its child spawns before it draws again.
    (
        r#"{"main":[["async",[],[["async",[],[]]]],["next"],["next"],["async",[],[]]]}"#,
        3,
        Luck::Child(1, 2),
        "luck at 3: task 1 draws task 2\n",
    ),
    // The root opens finish 1, and its child finish 2.
    (
        r#"{"main":[["open"],["async",[],[["open"],["shut"]]],["shut"]]}"#,
        4,
        Luck::Finish(1, 2),
        "luck at 4: task 1 draws finish 2\n",
    ),
    (
        r#"{"main":[["shut"]]}"#,
        1,
        Luck::Refused(0, 21),
        "luck at 1: task 0 refused 21 NoFinish\n",
    ),
];

/// What the text's program is certified to give, or why it isn't.
fn certified(alloc: Global, text: &str) -> Result<Result<String, NoAnswer>, Fail> {
    let Ok(program) = read_program(alloc, text.as_bytes()) else {
        return Err(Fail::from("it is no program"));
    };
    match certify(alloc, &program) {
        Ok(report) => Ok(Ok(report.to_string(alloc)?)),
        Err(why) => Ok(Err(why)),
    }
}

/// The first event of the text's run by rounds in which luck has a part.
fn luck_of(alloc: Global, text: &str) -> Result<Option<LuckAt>, Fail> {
    let Ok(program) = read_program(alloc, text.as_bytes()) else {
        return Err(Fail::from("it is no program"));
    };
    let Ok(run) = run_picks(alloc, &program, &[]) else {
        return Err(Fail::from("memory"));
    };
    match first_luck(alloc, &run.trace) {
        Ok(luck) => Ok(luck),
        Err(_) => Err(Fail::from("memory")),
    }
}

#[test]
fn one_run_tells_all(rt: HostRuntime) -> Result<(), Fail> {
    match certified(rt.alloc(), TWO_SENDERS)? {
        Ok(report) => equal(&rt, report.as_str(), TWO_SENDERS_REPORT),
        Err(_) => return Err(Fail::from("it isn't certain")),
    }
    equal(&rt, luck_of(rt.alloc(), TWO_SENDERS)?, None);
    Ok(())
}

#[test]
fn luck_has_a_part(rt: HostRuntime) -> Result<(), Fail> {
    for (text, place, luck, _) in LUCKY {
        let at = LuckAt { place, luck };
        equal_at(&rt, text, luck_of(rt.alloc(), text)?, Some(at));
        match certified(rt.alloc(), text)? {
            Ok(_) => return Err(Fail::from("it is certain")),
            Err(why) => equal_at(&rt, text, why, NoAnswer::Luck(at)),
        }
    }
    Ok(())
}

/// Certifies the text, and compares how that ends, the lines, and what is reported.
fn ends(rt: &impl Abort, alloc: Global, text: &str, status: Status, lines: &str, faults: &str) {
    let mut out = Vec::new(alloc);
    let mut reported = Vec::new(alloc);
    let ended = certify_on(alloc, text.as_bytes(), &mut out, &mut reported);
    equal_at(rt, text, ended, status);
    equal_at(rt, text, out.as_slice(), lines.as_bytes());
    equal_at(rt, text, reported.as_slice(), faults.as_bytes());
}

#[test]
fn certificates(rt: HostRuntime) {
    let alloc = rt.alloc();
    ends(
        &rt,
        alloc,
        TWO_SENDERS,
        Status::Done,
        TWO_SENDERS_CERTIFICATE,
        "",
    );
    for (text, _, _, line) in LUCKY {
        ends(&rt, alloc, text, Status::Refused, "", line);
    }
    ends(
        &rt,
        alloc,
        r#"{"main":[["next"],["jump"]]}"#,
        Status::Refused,
        "",
        "refused 24 BadText at 2\n",
    );
}

// A certificate that can't be written is a fault.
#[test]
fn a_certificate_that_cannot_be_written(rt: HostRuntime) {
    let mut full = [0u8; 20];
    let mut faults = Vec::new(rt.alloc());
    let status = certify_on(
        rt.alloc(),
        TWO_SENDERS.as_bytes(),
        &mut &mut full[..],
        &mut faults,
    );
    equal(&rt, status, Status::Fault);
    equal(&rt, faults.as_slice(), b"fault write\n".as_slice());
}

#[test]
fn why_there_is_no_certificate(rt: HostRuntime) {
    let mut out = Vec::new(rt.alloc());
    let answer = certify_bytes(rt.alloc(), CROWD.as_bytes(), &mut out);
    let at = LuckAt {
        place: 8,
        luck: Luck::Registered(0, 2, 0),
    };
    equal(&rt, answer, Err(NoCertificate::Luck(at)));
    equal(&rt, out.len(), 0);
}
