//! The text of the smallest trace, every form of an event there and back, texts of the first
//! version, and where damaged texts are refused.
use super::{Entry, are_alike, read, trace_of};
use crate::asserted::{equal, equal_at};
use finish_core::FinishEvent;
use phase_model::{Bound, Look, Op, Ops, Terms};
use phase_modes::{Mode, Pair, Phased, Refusal};
use std::alloc::Global;
use std::process::Abort;
use std::test::Fail;
use trace_model::{Trace, TracedEvent, TracedStep};
use trace_text::{from_json, to_json};
use world_model::{Begun, Tried};

const SMALLEST: &str =
    r#"{"events":[[1,"p",0,"make",0,"SIG_WAIT",[],null],[2,"t",0,"begin",["next"]],[3,"p",0,"sig",0],[4,"p",0,"pass",0],[5,"t",0,"begin",["end"]],[6,"p",0,"drop",0],[7,"f",0,"shut"]],"limits":{"acts":4096,"finishes":64,"history":4096,"phasers":64,"regs":256,"tasks":256},"version":2}"#;

/// The place of the text's first fault; none if it is of the form.
fn place_of(alloc: Global, text: &str) -> Result<Option<u64>, Fail> {
    match from_json(alloc, text.as_bytes()) {
        Ok(_) => Ok(None),
        Err(Refusal::BadText(place)) => Ok(Some(place)),
        Err(_) => Err(Fail::from("memory")),
    }
}

/// The text has its first fault at this place, or is of the form.
fn is_at(rt: &impl Abort, alloc: Global, text: &str, place: Option<u64>) -> Result<(), Fail> {
    equal_at(rt, text, place_of(alloc, text)?, place);
    Ok(())
}

fn written(alloc: Global, trace: &Trace) -> Result<String, Fail> {
    to_json(alloc, trace).map_err(|_| Fail::from("not written"))
}

/// The trace is written as this text.
fn is_written(rt: &impl Abort, alloc: Global, trace: &Trace, text: &str) -> Result<(), Fail> {
    let lines = written(alloc, trace)?;
    equal(rt, lines.as_str(), text);
    Ok(())
}

/// The text is read as this trace, which has the limits of a file that names none.
fn is_read(rt: &impl Abort, alloc: Global, text: &str, trace: &Trace) -> Result<(), Fail> {
    let again = read(alloc, text)?;
    are_alike(rt, &again, trace);
    Ok(())
}

/// The trace of these events is written as this text and read from it.
fn is_text_of(rt: &impl Abort, alloc: Global, text: &str, entries: &[Entry]) -> Result<(), Fail> {
    let trace = trace_of(alloc, entries)?;
    is_written(rt, alloc, &trace, text)?;
    is_read(rt, alloc, text, &trace)
}

#[test]
fn smallest_trace(rt: HostRuntime) -> Result<(), Fail> {
    let make = TracedStep::Make(0, Mode::SigWait, Terms::none());
    let entries = [
        (1, TracedEvent::Phaser(0, make)),
        (2, TracedEvent::Begin(0, Begun::Next)),
        (3, TracedEvent::Phaser(0, TracedStep::Sig(0, None))),
        (4, TracedEvent::Phaser(0, TracedStep::Pass(0))),
        (5, TracedEvent::Begin(0, Begun::End)),
        (6, TracedEvent::Phaser(0, TracedStep::Drop(0))),
        (7, TracedEvent::Finish(0, FinishEvent::Shut)),
    ];
    is_text_of(&rt, rt.alloc(), SMALLEST, entries.as_slice())
}

/// Events in their forms, each to be read and written again as it is.
const EVENTS: [&str; 40] = [
    r#"[0,"p",0,"make",0,"SIG",[],null]"#,
    r#"[0,"p",0,"make",0,"SIG",[],1]"#,
    r#"[18446744073709551615,"p",4294967295,"make",4294967295,"WAIT",["sum","least","greatest","sum"],65536]"#,
    r#"[1,"p",0,"reg",0,4294967295,"SINGLE"]"#,
    r#"[1,"p",0,"reg",4294967295,0,"SIG_WAIT"]"#,
    r#"[1,"p",0,"sig",7]"#,
    r#"[1,"p",0,"sig",7,0]"#,
    r#"[1,"p",0,"sig",7,4294967295]"#,
    r#"[1,"p",0,"claim",7]"#,
    r#"[1,"p",0,"did",7]"#,
    r#"[1,"p",0,"pass",7]"#,
    r#"[1,"p",0,"send",7,0,-2147483648]"#,
    r#"[1,"p",0,"send",7,255,2147483647]"#,
    r#"[1,"p",0,"look",7,0,null]"#,
    r#"[1,"p",0,"look",7,0,0]"#,
    r#"[1,"p",0,"look",7,255,-9223372036854775808]"#,
    r#"[1,"p",0,"look",7,0,9223372036854775807]"#,
    r#"[1,"p",0,"drop",7]"#,
    r#"[1,"f",0,"opened",0]"#,
    r#"[1,"f",4294967295,"spawned",4294967295]"#,
    r#"[1,"f",1,"ended",7]"#,
    r#"[1,"f",1,"shut"]"#,
    r#"[1,"t",0,"begin",["async",7,[]]]"#,
    r#"[1,"t",0,"begin",["async",7,[[0,"SIG"],[4294967295,"WAIT"]]]]"#,
    r#"[1,"t",4294967295,"begin",["signal"]]"#,
    r#"[1,"t",0,"begin",["wait"]]"#,
    r#"[1,"t",0,"begin",["next"]]"#,
    r#"[1,"t",0,"begin",["single",4294967295]]"#,
    r#"[1,"t",0,"begin",["shut"]]"#,
    r#"[1,"t",0,"begin",["end"]]"#,
    r#"[1,"t",0,"refuse",["end"],1]"#,
    r#"[1,"t",0,"refuse",["async",7,[[0,"SINGLE"]]],26]"#,
    r#"[1,"t",0,"refuse",["new",64,"SIG",[],null],16]"#,
    r#"[1,"t",0,"refuse",["new",64,"SIG",[],1],16]"#,
    r#"[1,"t",0,"refuse",["new",4294967295,"SINGLE",["greatest"],65536],16]"#,
    r#"[1,"t",0,"refuse",["open",64],18]"#,
    r#"[1,"t",0,"refuse",["send",0,1,-1],9]"#,
    r#"[1,"t",0,"refuse",["look",0,1],10]"#,
    r#"[1,"t",0,"fail",1]"#,
    r#"[1,"t",0,"fail",26]"#,
];

const LIMITS: &str =
    r#""limits":{"acts":1,"finishes":2,"history":5,"phasers":3,"regs":4,"tasks":6}"#;

/// The text is read, and written again as it is.
fn is_written_again(rt: &impl Abort, alloc: Global, text: &str) -> Result<(), Fail> {
    let trace = read(alloc, text)?;
    is_written(rt, alloc, &trace, text)
}

/// The text of this version of a trace of this event.
fn text_of(alloc: Global, version: u32, event: &str) -> Result<String, Fail> {
    Ok(format!(in alloc; "{{\"events\":[{event}],{LIMITS},\"version\":{version}}}")?)
}

#[test]
fn every_form_there_and_back(rt: HostRuntime) -> Result<(), Fail> {
    for event in EVENTS.as_slice() {
        let text = text_of(rt.alloc(), 2, event)?;
        is_written_again(&rt, rt.alloc(), text.as_str())?;
    }
    Ok(())
}

/// Events of version 1, each with what it is in version 2.
const UPGRADED: [(&str, &str); 5] = [
    (
        r#"[1,"p",0,"make",0,"SIG",[]]"#,
        r#"[1,"p",0,"make",0,"SIG",[],null]"#,
    ),
    (
        r#"[1,"p",7,"make",2,"WAIT",["sum","least"]]"#,
        r#"[1,"p",7,"make",2,"WAIT",["sum","least"],null]"#,
    ),
    (
        r#"[1,"t",0,"refuse",["new",64,"SIG",[]],16]"#,
        r#"[1,"t",0,"refuse",["new",64,"SIG",[],null],16]"#,
    ),
    (
        r#"[1,"t",0,"refuse",["look",0,1],10]"#,
        r#"[1,"t",0,"refuse",["look",0,1],10]"#,
    ),
    (r#"[1,"p",0,"sig",7,0]"#, r#"[1,"p",0,"sig",7,0]"#),
];

/// The first text is read, and written as the second.
fn is_upgraded(rt: &impl Abort, alloc: Global, first: &str, second: &str) -> Result<(), Fail> {
    let trace = read(alloc, first)?;
    is_written(rt, alloc, &trace, second)
}

#[test]
fn version_1_is_read_without_bounds(rt: HostRuntime) -> Result<(), Fail> {
    for (first, second) in UPGRADED {
        let old = text_of(rt.alloc(), 1, first)?;
        let new = text_of(rt.alloc(), 2, second)?;
        is_upgraded(&rt, rt.alloc(), old.as_str(), new.as_str())?;
    }
    Ok(())
}

/// The text of the trace of these events.
fn text_for(alloc: Global, entries: &[Entry]) -> Result<String, Fail> {
    let trace = trace_of(alloc, entries)?;
    written(alloc, &trace)
}

#[test]
fn numbers_of_refusals_without_a_form(rt: HostRuntime) -> Result<(), Fail> {
    let text = text_for(rt.alloc(), &[(1, TracedEvent::Fail(0, 27))])?;
    is_at(&rt, rt.alloc(), text.as_str(), Some(1))
}

/// As many pairs as a task has at most.
fn all_pairs() -> Phased {
    let mut pairs = Phased::none();
    for phaser in 0..20 {
        if pairs.len() < 16 {
            pairs.push(Pair {
                phaser,
                mode: Mode::Wait,
            });
        }
    }
    pairs
}

/// One accumulator, the least, and a bound of 3.
fn one_least() -> Terms {
    let mut ops = Ops::none();
    ops.push(Op::Least);
    Terms {
        ops,
        bound: Bound::of(3),
    }
}

/// The trace of these events is written, and read again.
fn is_read_again(rt: &impl Abort, alloc: Global, entries: &[Entry]) -> Result<(), Fail> {
    let trace = trace_of(alloc, entries)?;
    let text = written(alloc, &trace)?;
    is_read(rt, alloc, text.as_str(), &trace)
}

#[test]
fn most_pairs(rt: HostRuntime) -> Result<(), Fail> {
    let pairs = all_pairs();
    equal(&rt, pairs.len(), 16);
    let spawn = Tried::Begun(Begun::Async(1, pairs));
    let make = Tried::New(5, Mode::Sig, one_least());
    let look = TracedStep::Look(1, 2, Look::Value(-5));
    let entries = [
        (9, TracedEvent::Refuse(3, spawn, 12)),
        (2, TracedEvent::Refuse(3, make, 16)),
        (2, TracedEvent::Phaser(1, look)),
    ];
    is_read_again(&rt, rt.alloc(), entries.as_slice())
}

/// No accumulator, and a bound of 2.
fn two_ahead() -> Terms {
    Terms {
        ops: Ops::none(),
        bound: Bound::of(2),
    }
}

#[test]
fn bounds_are_written(rt: HostRuntime) -> Result<(), Fail> {
    let make = TracedStep::Make(0, Mode::Sig, two_ahead());
    let refused = Tried::New(1, Mode::Wait, two_ahead());
    let entries = [
        (1, TracedEvent::Phaser(0, make)),
        (2, TracedEvent::Refuse(0, refused, 16)),
    ];
    is_text_of(
        &rt,
        rt.alloc(),
        r#"{"events":[[1,"p",0,"make",0,"SIG",[],2],[2,"t",0,"refuse",["new",1,"WAIT",[],2],16]],"limits":{"acts":4096,"finishes":64,"history":4096,"phasers":64,"regs":256,"tasks":256},"version":2}"#,
        entries.as_slice(),
    )
}

/// Each text has its first fault at this place.
fn all_at(rt: &impl Abort, alloc: Global, texts: &[&str], place: Option<u64>) -> Result<(), Fail> {
    for text in texts {
        is_at(rt, alloc, text, place)?;
    }
    Ok(())
}

/// Texts of the form.
const GOOD: [&str; 6] = [
    r#"{"events":[],"version":1}"#,
    r#"{"events":[],"version":2}"#,
    " \n{ \"version\" : 1 ,\t\"events\" : [ ] }\r\n",
    r#"{"version":1,"limits":{},"events":[]}"#,
    r#"{"version":2,"limits":{"tasks":4096},"events":[]}"#,
    r#"{"version":2,"events":[[1,"p",0,"make",0,"SIG",[],1]]}"#,
];

/// Texts that are at fault in what stands around the events.
const BAD: [&str; 23] = [
    "",
    "{",
    "[]",
    "null",
    "{}",
    r#"{"events":[]}"#,
    r#"{"version":1}"#,
    r#"{"events":[],"version":3}"#,
    r#"{"events":[],"version":0}"#,
    r#"{"events":[],"version":-1}"#,
    r#"{"events":[],"version":1.0}"#,
    r#"{"events":[],"version":2.0}"#,
    r#"{"events":[],"version":"1"}"#,
    r#"{"events":[],"version":null}"#,
    r#"{"events":null,"version":1}"#,
    r#"{"events":{},"version":1}"#,
    r#"{"events":[7],"version":3}"#,
    r#"{"events":[],"version":1,"limits":null}"#,
    r#"{"events":[7],"version":1,"limits":{"tasks":4097}}"#,
    r#"{"events":[],"version":1,"limits":{"workers":1}}"#,
    r#"{"events":[],"version":1,"accs":[]}"#,
    r#"{"events":[],"version":1} x"#,
    r#"{"events":[[1,"p",0,"sig",1e400]],"version":1}"#,
];

#[test]
fn outer_object(rt: HostRuntime) -> Result<(), Fail> {
    all_at(&rt, rt.alloc(), GOOD.as_slice(), None)?;
    all_at(&rt, rt.alloc(), BAD.as_slice(), Some(0))
}

/// Items that are no events in either version.
const NO_EVENTS: [&str; 58] = [
    "7",
    "null",
    "{}",
    "[]",
    "[1]",
    r#"["p",0,"sig",0]"#,
    r#"[-1,"p",0,"sig",0]"#,
    r#"[18446744073709551616,"p",0,"sig",0]"#,
    r#"[1.0,"p",0,"sig",0]"#,
    r#"[1,"q",0,"sig",0]"#,
    r#"[1,"p",4294967296,"sig",0]"#,
    r#"[1,"p",-1,"sig",0]"#,
    r#"[1,"p",0,"signal",0]"#,
    r#"[1,"p",0,"sig"]"#,
    r#"[1,"p",0,"sig",0,1,2]"#,
    r#"[1,"p",0,"sig",0,null]"#,
    r#"[1,"p",0,"make",0,"SIG"]"#,
    r#"[1,"p",0,"make",0,"SIG",null]"#,
    r#"[1,"p",0,"make",0,"SIG",[],null,null]"#,
    r#"[1,"p",0,"make",0,"sig",[]]"#,
    r#"[1,"p",0,"make",0,"sig",[],null]"#,
    r#"[1,"p",0,"make",0,"SIG",["product"]]"#,
    r#"[1,"p",0,"make",0,"SIG",["product"],null]"#,
    r#"[1,"p",0,"make",0,"SIG",["sum","sum","sum","sum","sum"]]"#,
    r#"[1,"p",0,"make",0,"SIG",["sum","sum","sum","sum","sum"],null]"#,
    r#"[1,"p",0,"reg",0,"SIG"]"#,
    r#"[1,"p",0,"pass",0,0]"#,
    r#"[1,"p",0,"send",0,256,1]"#,
    r#"[1,"p",0,"send",0,0,2147483648]"#,
    r#"[1,"p",0,"send",0,0,-2147483649]"#,
    r#"[1,"p",0,"look",0,0]"#,
    r#"[1,"p",0,"look",0,0,9223372036854775808]"#,
    r#"[1,"p",0,"look",0,0,-9223372036854775809]"#,
    r#"[1,"p",0,"look",0,0,"none"]"#,
    r#"[1,"p",0,"opened",0]"#,
    r#"[1,"f",0,"sig",0]"#,
    r#"[1,"f",0,"shut",0]"#,
    r#"[1,"f",0,"opened"]"#,
    r#"[1,"f",0,"ended",0,0]"#,
    r#"[1,"t",0,"begin"]"#,
    r#"[1,"t",0,"begin","next"]"#,
    r#"[1,"t",0,"begin",["next",1]]"#,
    r#"[1,"t",0,"begin",["next"],1]"#,
    r#"[1,"t",0,"begin",["single"]]"#,
    r#"[1,"t",0,"begin",["new",0,"SIG",[]]]"#,
    r#"[1,"t",0,"begin",["new",0,"SIG",[],null]]"#,
    r#"[1,"t",0,"begin",["open",0]]"#,
    r#"[1,"t",0,"begin",["async",1]]"#,
    r#"[1,"t",0,"begin",["async",1,[[0]]]]"#,
    r#"[1,"t",0,"begin",["async",1,[[0,"SIG",0]]]]"#,
    r#"[1,"t",0,"begin",["async",1,[[0,"SIG"],[0,"SIG"],[0,"SIG"],[0,"SIG"],[0,"SIG"],[0,"SIG"],[0,"SIG"],[0,"SIG"],[0,"SIG"],[0,"SIG"],[0,"SIG"],[0,"SIG"],[0,"SIG"],[0,"SIG"],[0,"SIG"],[0,"SIG"],[0,"SIG"]]]]"#,
    r#"[1,"t",0,"refuse",["next"]]"#,
    r#"[1,"t",0,"refuse",["next"],0]"#,
    r#"[1,"t",0,"refuse",["next"],27]"#,
    r#"[1,"t",0,"refuse",["look",0,1,null],10]"#,
    r#"[1,"t",0,"fail"]"#,
    r#"[1,"t",0,"fail",0]"#,
    r#"[1,"t",0,"fail",27]"#,
];

/// Items that are no events in version 1, which says no bound.
const NO_EVENTS_1: [&str; 4] = [
    r#"[1,"p",0,"make",0,"SIG",[],null]"#,
    r#"[1,"p",0,"make",0,"SIG",[],1]"#,
    r#"[1,"t",0,"refuse",["new",64,"SIG",[],null],16]"#,
    r#"[1,"t",0,"refuse",["new",64,"SIG",[],1],16]"#,
];

/// Items that are no events in version 2.
const NO_EVENTS_2: [&str; 13] = [
    r#"[1,"p",0,"make",0,"SIG",[]]"#,
    r#"[1,"p",0,"make",0,"SIG",[],0]"#,
    r#"[1,"p",0,"make",0,"SIG",[],65537]"#,
    r#"[1,"p",0,"make",0,"SIG",[],4294967297]"#,
    r#"[1,"p",0,"make",0,"SIG",[],-1]"#,
    r#"[1,"p",0,"make",0,"SIG",[],1.0]"#,
    r#"[1,"p",0,"make",0,"SIG",[],"1"]"#,
    r#"[1,"p",0,"make",0,"SIG",[],[]]"#,
    r#"[1,"t",0,"refuse",["new",64,"SIG",[]],16]"#,
    r#"[1,"t",0,"refuse",["new",64,"SIG",[],0],16]"#,
    r#"[1,"t",0,"refuse",["new",64,"SIG",[],65537],16]"#,
    r#"[1,"t",0,"refuse",["new",64,"SIG",[],"1"],16]"#,
    r#"[1,"t",0,"refuse",["new",64,"SIG",[],1,1],16]"#,
];

/// The text of this version of a trace with this as its third event, and a fourth that is none.
fn text_with_third(alloc: Global, version: u32, event: &str) -> Result<String, Fail> {
    Ok(format!(in alloc;
        "{{\"events\":[[1,\"f\",1,\"shut\"],[1,\"f\",1,\"shut\"],{event},7],\"version\":{version}}}"
    )?)
}

/// In this version, each of these as a third event is the first fault of its text.
fn are_no_events(
    rt: &impl Abort,
    alloc: Global,
    version: u32,
    events: &[&str],
) -> Result<(), Fail> {
    for event in events {
        let text = text_with_third(alloc, version, event)?;
        is_at(rt, alloc, text.as_str(), Some(3))?;
    }
    Ok(())
}

#[test]
fn events_without_a_form(rt: HostRuntime) -> Result<(), Fail> {
    are_no_events(&rt, rt.alloc(), 1, NO_EVENTS.as_slice())?;
    are_no_events(&rt, rt.alloc(), 2, NO_EVENTS.as_slice())?;
    are_no_events(&rt, rt.alloc(), 1, NO_EVENTS_1.as_slice())?;
    are_no_events(&rt, rt.alloc(), 2, NO_EVENTS_2.as_slice())
}

#[test]
fn order_of_tickets_is_no_matter_of_the_text(rt: HostRuntime) -> Result<(), Fail> {
    let text = r#"{"events":[[9,"f",1,"shut"],[3,"f",1,"shut"],[3,"f",0,"opened",0]],"version":1}"#;
    is_at(&rt, rt.alloc(), text, None)
}

#[test]
fn every_proper_prefix_is_refused(rt: HostRuntime) -> Result<(), Fail> {
    let bytes = SMALLEST.as_bytes();
    for end in 0..bytes.len() {
        match from_json(rt.alloc(), &bytes[..end]) {
            Err(Refusal::BadText(0)) => {}
            _ => return Err(Fail::from("a prefix was read")),
        }
    }
    Ok(())
}

#[test]
fn cut_inside_a_string(rt: HostRuntime) -> Result<(), Fail> {
    let text = r#"{"events":[[1,"p",0,"ma"#;
    is_at(&rt, rt.alloc(), text, Some(0))
}
