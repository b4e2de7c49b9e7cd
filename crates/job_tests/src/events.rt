//! One worked example with the lines that it is to print, and a text that is none. The others stand
//! in `examples/events` alone.
mod edges;
mod texts;

use crate::asserted::equal_at;
use job_ends::Status;
use std::alloc::Global;
use std::process::Abort;
use text_jobs::events_on;

/// Answers the text, and compares how that ends, the lines, and what is reported of failures.
fn check(rt: &impl Abort, alloc: Global, text: &str, status: Status, lines: &str, faults: &str) {
    let mut out = Vec::new(alloc);
    let mut reported = Vec::new(alloc);
    let ended = events_on(alloc, text.as_bytes(), &mut out, &mut reported);
    equal_at(rt, text, ended, status);
    are_bytes(rt, &out, lines, text);
    are_bytes(rt, &reported, faults, text);
}

/// What was written for this text.
fn are_bytes(rt: &impl Abort, written: &[u8], wanted: &str, text: &str) {
    equal_at(rt, text, written, wanted.as_bytes());
}

/// The text is answered by these lines.
fn answers(rt: &impl Abort, alloc: Global, text: &str, lines: &str) {
    check(rt, alloc, text, Status::Done, lines, "");
}

#[test]
fn single_statement(rt: HostRuntime) {
    answers(
        &rt,
        rt.alloc(),
        r#"{"calls":[
            ["make",0,"SINGLE"],["reg",0,1,"SINGLE"],["reg",0,2,"SINGLE"],
            ["sig",0,7],["sig",1,7],["sig",2,8],["pass",0],["sig",2,7],["drop",0],
            ["pass",0],["pass",1],["did",1],["did",0],["pass",1],["pass",0],
            ["pass",2]]}"#,
        "ok\nok\nok\nok\nok\nrefused 7 SingleMismatch\nnot yet\nok\nrefused 22 NotNow\n\
         claim 7\nnot yet\nrefused 22 NotNow\nok\nok phase 0\nok phase 0\nok phase 0\n",
    );
}

#[test]
fn text_not_of_the_form(rt: HostRuntime) {
    check(
        &rt,
        rt.alloc(),
        r#"{"calls":[["make",0,"SIG_WAIT"],["jump",0]]}"#,
        Status::Refused,
        "",
        "refused 24 BadText at 2\n",
    );
}
