//! The places at which texts are refused, and what is read if they are not.
use crate::asserted::{equal, equal_at};
use phase_model::{Bound, Call, Op};
use phase_modes::{Limits, Mode, Refusal};
use std::alloc::Global;
use std::process::Abort;
use std::test::Fail;
use text_jobs::{EventsFile, read_events};

/// The place of the text's first fault; none if it is of the form.
fn place_of(alloc: Global, text: &str) -> Result<Option<u64>, Fail> {
    match read_events(alloc, text.as_bytes()) {
        Ok(_) => Ok(None),
        Err(Refusal::BadText(place)) => Ok(Some(place)),
        Err(_) => Err(Fail::from("memory")),
    }
}

/// The text has its first fault at this place, or is of the form.
fn is_at(rt: &impl Abort, alloc: Global, text: &str, place: Option<u64>) -> Result<(), Fail> {
    equal_at(rt, text, place_of(alloc, text)?, place);
    Ok(())
}

/// Each text has its first fault at this place.
fn all_at(rt: &impl Abort, alloc: Global, texts: &[&str], place: Option<u64>) -> Result<(), Fail> {
    for text in texts {
        is_at(rt, alloc, text, place)?;
    }
    Ok(())
}

/// Texts that are at fault in what stands around the calls.
const BAD: [&str; 49] = [
    "",
    " ",
    "{",
    "[]",
    "7",
    "null",
    "{}",
    r#"{"calls":[]} x"#,
    r#"{"calls":{}}"#,
    r#"{"accs":null,"calls":[]}"#,
    r#"{"accs":{},"calls":[]}"#,
    r#"{"accs":"sum","calls":[]}"#,
    r#"{"accs":["product"],"calls":[]}"#,
    r#"{"accs":["sum","sum","sum","sum","sum"],"calls":[7]}"#,
    r#"{"bound":null,"calls":[]}"#,
    r#"{"bound":0,"calls":[7]}"#,
    r#"{"bound":65537,"calls":[]}"#,
    r#"{"bound":1.0,"calls":[]}"#,
    r#"{"bound":"1","calls":[]}"#,
    r#"{"Bound":1,"calls":[]}"#,
    r#"{"calls":null}"#,
    r#"{"calls":[],}"#,
    r#"{"Calls":[]}"#,
    r#"{"limits":{}}"#,
    r#"{"other":1,"calls":[]}"#,
    r#"{"other":1,"calls":[7]}"#,
    r#"{"limits":null,"calls":[]}"#,
    r#"{"limits":[],"calls":[]}"#,
    r#"{"limits":{"other":1},"calls":[]}"#,
    r#"{"limits":{"regs":null},"calls":[]}"#,
    r#"{"limits":{"regs":"1"},"calls":[]}"#,
    r#"{"limits":{"regs":1.0},"calls":[]}"#,
    r#"{"limits":{"regs":0},"calls":[7]}"#,
    r#"{"limits":{"regs":257},"calls":[]}"#,
    r#"{"limits":{"regs":4294967297},"calls":[]}"#,
    r#"{"limits":{"acts":0},"calls":[]}"#,
    r#"{"limits":{"acts":65537},"calls":[]}"#,
    r#"{"limits":{"finishes":0},"calls":[]}"#,
    r#"{"limits":{"finishes":1025},"calls":[]}"#,
    r#"{"limits":{"history":3},"calls":[]}"#,
    r#"{"limits":{"history":65537},"calls":[]}"#,
    r#"{"limits":{"phasers":0},"calls":[]}"#,
    r#"{"limits":{"phasers":65},"calls":[]}"#,
    r#"{"limits":{"tasks":0},"calls":[]}"#,
    r#"{"limits":{"tasks":4097},"calls":[]}"#,
    r#"{"limits":{"tasks":-1},"calls":[]}"#,
    r#"{"calls":[["sig",1e400]]}"#,
    r#"{"calls":[["sig",01]]}"#,
    r#"{"calls":[["sig",+1]]}"#,
];

/// Texts of the form.
const GOOD: [&str; 9] = [
    r#"{"calls":[]}"#,
    " \n\t{ \"calls\" : [ ] }\r\n",
    r#"{"calls":[],"limits":{}}"#,
    r#"{"accs":[],"calls":[]}"#,
    r#"{"bound":1,"calls":[]}"#,
    r#"{"calls":[],"bound":65536}"#,
    r#"{"accs":["sum","least","greatest","sum"],"calls":[]}"#,
    r#"{"limits":
        {"acts":1,"finishes":1,"history":4,"phasers":1,"regs":1,"tasks":1},"calls":[]}"#,
    r#"{"limits":
        {"acts":65536,"finishes":1024,"history":65536,"phasers":64,"regs":256,"tasks":4096},
        "calls":[]}"#,
];

#[test]
fn outer_object(rt: HostRuntime) -> Result<(), Fail> {
    all_at(&rt, rt.alloc(), GOOD.as_slice(), None)?;
    all_at(&rt, rt.alloc(), BAD.as_slice(), Some(0))
}

/// The text of a list with `call` as its third item, and a fourth that is no call.
fn text_with_third(alloc: Global, call: &str) -> Result<String, Fail> {
    Ok(format!(in alloc; "{{\"calls\":[[\"sig\",0],[\"sig\",0],{call},7]}}")?)
}

/// With each of these calls as the third, the first fault is at this place.
fn all_third_at(rt: &impl Abort, alloc: Global, calls: &[&str], place: u64) -> Result<(), Fail> {
    for call in calls {
        let text = text_with_third(alloc, call)?;
        is_at(rt, alloc, text.as_str(), Some(place))?;
    }
    Ok(())
}

/// Calls of every form.
const CALLS: [&str; 12] = [
    r#"["make",0,"SIG"]"#,
    r#"["make",4294967295,"WAIT"]"#,
    r#"["reg",0,4294967295,"SIG_WAIT"]"#,
    r#"["reg",4294967295,0,"SINGLE"]"#,
    r#"["sig",0]"#,
    r#"["sig",0,4294967295]"#,
    r#"["pass",0]"#,
    r#"["did",0]"#,
    r#"["send",0,255,-2147483648]"#,
    r#"["send",0,0,2147483647]"#,
    r#"["look",0,255]"#,
    r#"["drop",0]"#,
];

#[test]
fn calls_of_the_form(rt: HostRuntime) -> Result<(), Fail> {
    all_third_at(&rt, rt.alloc(), CALLS.as_slice(), 4)
}

/// Items that are no calls at all.
const NO_CALLS: [&str; 10] = [
    "null",
    "7",
    "\"sig\"",
    "{}",
    "[]",
    "[7]",
    "[null,0]",
    r#"["SIG",0]"#,
    r#"["signal",0]"#,
    r#"["jump",0]"#,
];

#[test]
fn items_that_are_no_calls(rt: HostRuntime) -> Result<(), Fail> {
    all_third_at(&rt, rt.alloc(), NO_CALLS.as_slice(), 3)
}

/// Calls that register and pass and drop, not of the form.
const NO_REGISTRATIONS: [&str; 16] = [
    r#"["make"]"#,
    r#"["make",0]"#,
    r#"["make","SIG",0]"#,
    r#"["make",0,"sig"]"#,
    r#"["make",0,"SIG_WAI"]"#,
    r#"["make",0,"SIG","SIG"]"#,
    r#"["make",0,null]"#,
    r#"["reg",0,"SIG"]"#,
    r#"["reg",0,1]"#,
    r#"["reg",0,1,7]"#,
    r#"["reg",0,4294967296,"SIG"]"#,
    r#"["reg",0,1,"SIG",0]"#,
    r#"["pass"]"#,
    r#"["pass",0,1]"#,
    r#"["drop"]"#,
    r#"["drop",0,0]"#,
];

#[test]
fn registrations_not_of_the_form(rt: HostRuntime) -> Result<(), Fail> {
    all_third_at(&rt, rt.alloc(), NO_REGISTRATIONS.as_slice(), 3)
}

/// Calls with numbers that are not of the form, or too many or too few.
const NO_NUMBERS: [&str; 24] = [
    r#"["sig"]"#,
    r#"["sig",null]"#,
    r#"["sig","0"]"#,
    r#"["sig",[0]]"#,
    r#"["sig",-1]"#,
    r#"["sig",-0]"#,
    r#"["sig",1.0]"#,
    r#"["sig",1e0]"#,
    r#"["sig",4294967296]"#,
    r#"["sig",18446744073709551616]"#,
    r#"["sig",0,null]"#,
    r#"["sig",0,4294967296]"#,
    r#"["sig",0,1,2]"#,
    r#"["did"]"#,
    r#"["did",0,0]"#,
    r#"["send",0,0]"#,
    r#"["send",0,256,0]"#,
    r#"["send",0,0,2147483648]"#,
    r#"["send",0,0,-2147483649]"#,
    r#"["send",0,0,1.0]"#,
    r#"["send",0,0,1,1]"#,
    r#"["look",0]"#,
    r#"["look",0,-1]"#,
    r#"["look",0,0,0]"#,
];

#[test]
fn numbers_not_of_the_form(rt: HostRuntime) -> Result<(), Fail> {
    all_third_at(&rt, rt.alloc(), NO_NUMBERS.as_slice(), 3)
}

/// A text with every call.
const CONTENTS: &str = r#"{"limits":{"regs":3,"tasks":9},"calls":[
        ["make",1,"SIG"],["reg",2,3,"WAIT"],["sig",4],["sig",5,6],["pass",7],["did",8],
        ["send",9,1,-2],["look",3,2],["drop",6]],"accs":["greatest","sum"],"bound":65}"#;

/// The limits of that text.
const LIMITS: Limits = Limits {
    acts: 4096,
    finishes: 64,
    history: 4096,
    phasers: 64,
    regs: 3,
    tasks: 9,
};

/// Its calls.
const EVERY_CALL: [Call; 9] = [
    Call::Make(1, Mode::Sig),
    Call::Register(2, 3, Mode::Wait),
    Call::Signal(4, None),
    Call::Signal(5, Some(6)),
    Call::Pass(7),
    Call::SingleDone(8),
    Call::Send(9, 1, -2),
    Call::Look(3, 2),
    Call::Drop(6),
];

/// What was read is what stands in that text.
fn has_contents(rt: &impl Abort, file: &EventsFile) {
    equal(rt, file.limits, LIMITS);
    assert!(rt; file.ops.as_slice() == [Op::Greatest, Op::Sum].as_slice());
    equal(rt, file.bound, Bound::of(65));
    equal(rt, file.calls.as_slice(), EVERY_CALL.as_slice());
}

#[test]
fn contents(rt: HostRuntime) -> Result<(), Fail> {
    match read_events(rt.alloc(), CONTENTS.as_bytes()) {
        Ok(file) => {
            has_contents(&rt, &file);
            Ok(())
        }
        Err(_) => Err(Fail::from("a file")),
    }
}
