//! JSON values one after another, and texts of traces in which the events come first or last.
use super::{have_same_events, read};
use crate::asserted::{equal, holds_at};
use json::{Reader, Scratch};
use std::alloc::Global;
use std::process::Abort;
use std::test::Fail;
use trace_model::Trace;
use trace_text::next_value;

/// The next value of the reader, in which so many lists may stand in one another, is spelled so; there
/// is none if that is nothing.
fn next_is(
    rt: &impl Abort,
    alloc: Global,
    reader: &mut Reader<'_>,
    depth: usize,
    wanted: &str,
) -> Result<(), Fail> {
    match next_value(alloc, reader, depth) {
        Some(value) => equal(rt, value.to_string(alloc)?.as_str(), wanted),
        None => equal(rt, "", wanted),
    }
    Ok(())
}

#[test]
fn values_come_one_after_another(rt: HostRuntime) -> Result<(), Fail> {
    const TEXT: &str =
        r#"[7,"p\u0021",[-9223372036854775808,null]],{"k":true},18446744073709551615"#;
    const VALUES: [(usize, &str); 4] = [
        (2, r#"[7,"p!",[-9223372036854775808,null]]"#),
        (1, r#"{"k":true}"#),
        (0, "18446744073709551615"),
        (2, ""),
    ];
    let mut scratch = Scratch::new(rt.alloc());
    let mut reader = Reader::new(TEXT, &mut scratch).map_err(|_| Fail::from("memory"))?;
    for (depth, wanted) in VALUES {
        next_is(&rt, rt.alloc(), &mut reader, depth, wanted)?;
    }
    Ok(())
}

/// Whether a value is read of this text, in which so many lists may stand in one another.
fn is_value(alloc: Global, text: &str, depth: usize) -> Result<bool, Fail> {
    let mut scratch = Scratch::new(alloc);
    let mut reader = Reader::new(text, &mut scratch).map_err(|_| Fail::from("memory"))?;
    Ok(next_value(alloc, &mut reader, depth).is_some())
}

#[test]
fn values_that_are_none(rt: HostRuntime) -> Result<(), Fail> {
    let alloc = rt.alloc();
    assert!(rt; is_value(alloc, "[[1]]", 2)?);
    assert!(rt; !is_value(alloc, "[[1]]", 1)?);
    for text in [
        "",
        "]",
        "[1",
        "1.0",
        "-0",
        "1e3",
        "18446744073709551616",
        "-9223372036854775809",
    ] {
        holds_at(&rt, text, !is_value(alloc, text, 2)?);
    }
    Ok(())
}

/// Three events, and limits for four tasks and nine acts. The events come first, so it is read entry by
/// entry.
const EVENTS_FIRST: &str =
    r#"{"events":[[1,"p",0,"make",0,"SIG",[]],[2,"t",0,"begin",["next"]],[5,"p",0,"sig",0]],"limits":{"tasks":4,"acts":9},"version":1}"#;

/// The same with other space between, in other orders, and with events before that count for nothing.
const OTHER_ORDERS: [&str; 4] = [
    r#" { "events":[[1,"p",0,"make",0,"SIG",[]],[2,"t",0,"begin",["next"]],[5,"p",0,"sig",0]], "version" : 1, "limits":{"tasks":4,"acts":9} } "#,
    r#"{"limits":{"tasks":4,"acts":9},"events":[[1,"p",0,"make",0,"SIG",[]],[2,"t",0,"begin",["next"]],[5,"p",0,"sig",0]],"version":1}"#,
    r#"{"version":1,"limits":{"tasks":4,"acts":9},"events":[[1,"p",0,"make",0,"SIG",[]],[2,"t",0,"begin",["next"]],[5,"p",0,"sig",0]]}"#,
    r#"{"events":[],"events":[[1,"p",0,"make",0,"SIG",[]],[2,"t",0,"begin",["next"]],[5,"p",0,"sig",0]],"limits":{"tasks":4,"acts":9},"version":1}"#,
];

/// The text is read as this trace.
fn is_read_as(rt: &impl Abort, alloc: Global, text: &str, trace: &Trace) -> Result<(), Fail> {
    let read = read(alloc, text)?;
    holds_at(
        rt,
        text,
        read.limits() == trace.limits() && have_same_events(&read, trace),
    );
    Ok(())
}

// If the events come last, the text is read as one value; if they come first, entry by entry.
#[test]
fn keys_in_any_order(rt: HostRuntime) -> Result<(), Fail> {
    let first = read(rt.alloc(), EVENTS_FIRST)?;
    equal(&rt, first.len(), 3);
    equal(&rt, (first.limits().tasks, first.limits().acts), (4, 9));
    for text in OTHER_ORDERS {
        is_read_as(&rt, rt.alloc(), text, &first)?;
    }
    Ok(())
}
