//! The smallest trace, and texts that are none.
use crate::asserted::{equal, equal_at};
use crate::entries::entry_of;
use job_ends::{Failure, Status};
use phase_modes::{Limits, Refusal};
use std::alloc::Global;
use std::process::Abort;
use std::test::Fail;
use text_jobs::{replay_bytes, replay_on};
use trace_model::{Trace, TracedEvent};
use trace_text::from_json;

mod logs;
mod parts;
mod streams;
mod texts;
mod traces;

/// The first event, up to what a version has after the operators.
const HEAD: &str = "{\"events\":[[1,\"p\",0,\"make\",0,\"SIG_WAIT\",[]";

const TURN: &str = ",[2,\"t\",0,\"begin\",[\"next\"]],[3,\"p\",0,\"sig\",0],[4,\"p\",0,\"pass\",0]";

/// All that follows the first event of the smallest trace.
const REST: &str = ",[2,\"t\",0,\"begin\",[\"next\"]],[3,\"p\",0,\"sig\",0],[4,\"p\",0,\"pass\",0],\
    [5,\"t\",0,\"begin\",[\"end\"]],[6,\"p\",0,\"drop\",0],[7,\"f\",0,\"shut\"]";

const TAIL: &str = "],\"limits\":{\"acts\":4096,\"finishes\":64,\"history\":4096,\"phasers\":64,\
    \"regs\":256,\"tasks\":256},\"version\":";

/// The smallest trace as it is written.
const SMALLEST: &str = "{\"events\":[[1,\"p\",0,\"make\",0,\"SIG_WAIT\",[],null],\
    [2,\"t\",0,\"begin\",[\"next\"]],[3,\"p\",0,\"sig\",0],[4,\"p\",0,\"pass\",0],\
    [5,\"t\",0,\"begin\",[\"end\"]],[6,\"p\",0,\"drop\",0],[7,\"f\",0,\"shut\"]],\
    \"limits\":{\"acts\":4096,\"finishes\":64,\"history\":4096,\"phasers\":64,\"regs\":256,\
    \"tasks\":256},\"version\":2}\n";

/// A version, and what it has after the operators of a phaser without a bound.
type Form = (u32, &'static str);

const REPORT: &str = "phaser 0 phases 1\ntask 0 ended\nfinish 0 tasks 0\n\
    totals registered 1 signals 1 passes 1 drops 1 sends 0 up 0 down 0\n";

/// What is written of a text: the report, the trace in OUT, and the line of a failure.
type Written = (&'static str, &'static str, &'static str);

/// Replays the text with an OUT, and compares how that ends, and what is written.
fn check(rt: &impl Abort, alloc: Global, text: &str, status: Status, wanted: Written) {
    let mut out = Vec::new(alloc);
    let mut faults = Vec::new(alloc);
    let mut trace_out = Some(Vec::new(alloc));
    let ended = replay_on(
        alloc,
        text.as_bytes(),
        &mut out,
        &mut faults,
        &mut trace_out,
    );
    equal_at(rt, text, ended, status);
    are_bytes(rt, &out, wanted.0, text);
    is_trace(rt, trace_out.as_ref(), wanted.1, text);
    are_bytes(rt, &faults, wanted.2, text);
}

/// Replays the text to its report alone, and compares the lines.
fn reports(rt: &impl Abort, alloc: Global, text: &str, lines: &str) {
    let mut out = Vec::new(alloc);
    let mut nowhere: Option<Vec<u8>> = None;
    let done = replay_bytes(alloc, text.as_bytes(), &mut out, &mut nowhere);
    equal_at(rt, text, done, Ok(()));
    are_bytes(rt, &out, lines, text);
}

/// What was written to OUT for this text.
fn is_trace(rt: &impl Abort, trace: Option<&Vec<u8>>, wanted: &str, text: &str) {
    match trace {
        Some(trace) => are_bytes(rt, trace, wanted, text),
        None => assert!(rt; false, "no OUT"),
    }
}

/// What was written for this text.
fn are_bytes(rt: &impl Abort, written: &[u8], wanted: &str, text: &str) {
    equal_at(rt, text, written, wanted.as_bytes());
}

/// The text of a trace in this form: the first event of the smallest, and these after it.
fn text_in(alloc: Global, form: Form, events: &str) -> Result<String, Fail> {
    let (version, bound) = form;
    Ok(format!(in alloc; "{HEAD}{bound}]{events}{TAIL}{version}}}")?)
}

#[test]
fn smallest_trace(rt: HostRuntime) {
    let written = (REPORT, SMALLEST, "");
    check(&rt, rt.alloc(), SMALLEST, Status::Done, written);
    reports(&rt, rt.alloc(), SMALLEST, REPORT);
}

/// The text is refused with this line, and nothing else is written.
fn is_refused(rt: &impl Abort, alloc: Global, text: &str, line: &'static str) {
    check(rt, alloc, text, Status::Refused, ("", "", line));
}

/// A form, what follows the first event, and what is said of the trace: its turn the other way
/// round, a ticket twice, its last event missing, no end, and a version that there is not. Others
/// stand in `examples/replays`.
const CHANGED: [(Form, &str, &str); 6] = [
    (
        (2, ",null"),
        ",[2,\"t\",0,\"begin\",[\"next\"]],[3,\"p\",0,\"pass\",0],[4,\"p\",0,\"sig\",0],\
         [5,\"t\",0,\"begin\",[\"end\"]],[6,\"p\",0,\"drop\",0],[7,\"f\",0,\"shut\"]",
        "refused 25 NotExplained at 3\n",
    ),
    (
        (2, ",null"),
        ",[2,\"t\",0,\"begin\",[\"next\"]],[3,\"p\",0,\"sig\",0],[3,\"p\",0,\"pass\",0],\
         [5,\"t\",0,\"begin\",[\"end\"]],[6,\"p\",0,\"drop\",0],[7,\"f\",0,\"shut\"]",
        "refused 25 NotExplained at 4\n",
    ),
    (
        (2, ",null"),
        ",[2,\"t\",0,\"begin\",[\"next\"]],[3,\"p\",0,\"sig\",0],[4,\"p\",0,\"pass\",0],\
         [5,\"t\",0,\"begin\",[\"end\"]],[6,\"p\",0,\"drop\",0]",
        "refused 25 NotExplained at 7\n",
    ),
    ((2, ",null"), TURN, "refused 25 NotExplained at 5\n"),
    ((1, ""), TURN, "refused 25 NotExplained at 5\n"),
    ((0, ""), REST, "refused 24 BadText at 0\n"),
];

#[test]
fn changed_traces(rt: HostRuntime) -> Result<(), Fail> {
    for (form, events, line) in CHANGED {
        let text = text_in(rt.alloc(), form, events)?;
        is_refused(&rt, rt.alloc(), text.as_str(), line);
    }
    Ok(())
}

/// With room for 20 bytes, the report of this text can't be written.
fn has_no_room(rt: &impl Abort, alloc: Global, text: &str) {
    let mut full = [0u8; 20];
    let mut out = &mut full[..];
    let mut faults = Vec::new(alloc);
    let mut trace_out = Some(Vec::new(alloc));
    let status = replay_on(
        alloc,
        text.as_bytes(),
        &mut out,
        &mut faults,
        &mut trace_out,
    );
    equal(rt, status, Status::Fault);
    is_trace(rt, trace_out.as_ref(), SMALLEST, text);
    are_bytes(rt, &faults, "fault write\n", text);
}

// The report that can't be written is a fault. The trace was written before it.
#[test]
fn report_fails(rt: HostRuntime) -> Result<(), Fail> {
    let text = text_in(rt.alloc(), (1, ""), REST)?;
    has_no_room(&rt, rt.alloc(), text.as_str());
    Ok(())
}

/// With room for 20 bytes in OUT, nothing is reported of this text.
fn has_no_room_in_out(rt: &impl Abort, alloc: Global, text: &str) {
    let mut full = [0u8; 20];
    let mut trace_out = Some(&mut full[..]);
    let mut out = Vec::new(alloc);
    let mut faults = Vec::new(alloc);
    let status = replay_on(
        alloc,
        text.as_bytes(),
        &mut out,
        &mut faults,
        &mut trace_out,
    );
    equal(rt, status, Status::Fault);
    are_bytes(rt, &out, "", text);
    are_bytes(rt, &faults, "fault write\n", text);
}

// A trace that can't be written is a fault, and then there is no report.
#[test]
fn trace_fails(rt: HostRuntime) -> Result<(), Fail> {
    let text = text_in(rt.alloc(), (1, ""), REST)?;
    has_no_room_in_out(&rt, rt.alloc(), text.as_str());
    Ok(())
}

#[test]
fn text_that_is_none(rt: HostRuntime) {
    let mut out = Vec::new(rt.alloc());
    let mut trace_out = Some(Vec::new(rt.alloc()));
    let refused = Err(Failure::Refused(Refusal::BadText(0)));
    let answer = replay_bytes(rt.alloc(), b"7", &mut out, &mut trace_out);
    equal(&rt, answer, refused);
    is_trace(&rt, trace_out.as_ref(), "", "7");
}

/// A ticket and its event.
type Entry = (u64, TracedEvent);

/// Adds these events at the end of the trace.
fn fill(trace: &mut Trace, entries: &[Entry]) -> Result<(), Fail> {
    for entry in entries {
        let (ticket, event) = *entry;
        trace.push(ticket, event).map_err(|_| Fail::from("memory"))?;
    }
    Ok(())
}

/// The trace of these events, with the limits of a file that names none.
fn trace_of(alloc: Global, entries: &[Entry]) -> Result<Trace, Fail> {
    let mut trace = Trace::new(alloc, Limits::default());
    fill(&mut trace, entries)?;
    Ok(trace)
}

/// The trace that the text spells.
fn read(alloc: Global, text: &str) -> Result<Trace, Fail> {
    from_json(alloc, text.as_bytes()).map_err(|_| Fail::from("not read"))
}

/// Whether both have the same events, with the same tickets.
fn have_same_events(one: &Trace, other: &Trace) -> bool {
    if one.len() != other.len() {
        return false;
    }
    for place in 0..one.len() {
        if entry_of(one, place) != entry_of(other, place) {
            return false;
        }
    }
    true
}

/// The trace has the events of the other, and the limits of a file that names none.
fn are_alike(rt: &impl Abort, trace: &Trace, other: &Trace) {
    equal(rt, trace.limits(), Limits::default());
    assert!(rt; have_same_events(trace, other));
}
