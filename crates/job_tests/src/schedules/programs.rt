//! Texts by their bytes, and programs that are stepped through.
use crate::asserted::{equal, equal_at};
use job_script::{Act, Answer, Program, ScriptBody, read_program};
use phase_model::Look;
use phase_modes::{Limits, Mode, Pair, Refusal};
use std::alloc::Global;
use std::process::Abort;
use std::test::Fail;

/// The place of the text's first fault; none if it is a program.
fn place_of(alloc: Global, text: &str) -> Result<Option<u64>, Fail> {
    match read_program(alloc, text.as_bytes()) {
        Ok(_) => Ok(None),
        Err(Refusal::BadText(place)) => Ok(Some(place)),
        Err(_) => Err(Fail::from("memory")),
    }
}

/// The place of the first fault of a program of this one act.
fn place_alone(alloc: Global, act: &str) -> Result<Option<u64>, Fail> {
    let text = format!(in alloc; "{{\"main\":[{act}]}}")?;
    place_of(alloc, text.as_str())
}

/// The place of the first fault of a program whose second act this is; the third is none.
fn place_beside(alloc: Global, act: &str) -> Result<Option<u64>, Fail> {
    let text = format!(in alloc; "{{\"main\":[[\"next\"],{act},7]}}")?;
    place_of(alloc, text.as_str())
}

/// Each text has its first fault at this place.
fn all_at(rt: &impl Abort, alloc: Global, texts: &[&str], place: Option<u64>) -> Result<(), Fail> {
    for text in texts {
        equal_at(rt, text, place_of(alloc, text)?, place);
    }
    Ok(())
}

#[test]
fn outer_objects(rt: HostRuntime) -> Result<(), Fail> {
    const GOOD: [&str; 3] = [
        r#"{"main":[]}"#,
        r#"{"limits":{},"main":[]}"#,
        r#"{"main":[["next"]],"limits":{"acts":1,"finishes":1,"history":4,"phasers":1,"regs":1,"tasks":1}}"#,
    ];
    const BAD: [&str; 10] = [
        "",
        "{",
        "{}",
        "[]",
        r#"{"main":{}}"#,
        r#"{"main":null}"#,
        r#"{"main":[["jump"]],"limits":null}"#,
        r#"{"main":[],"limits":{"acts":0}}"#,
        r#"{"main":[],"acts":[]}"#,
        r#"{"main":[],"main"}"#,
    ];
    all_at(&rt, rt.alloc(), GOOD.as_slice(), None)?;
    all_at(&rt, rt.alloc(), BAD.as_slice(), Some(0))
}

#[test]
fn acts_of_the_form(rt: HostRuntime) -> Result<(), Fail> {
    const ACTS: [&str; 16] = [
        r#"["new","p","SINGLE",["sum","least","greatest","sum"]]"#,
        r#"["new","Aa_09","WAIT",[]]"#,
        r#"["new","p","SIG",[],1]"#,
        r#"["new","p","SIG",["sum"],65536]"#,
        r#"["async",[],[]]"#,
        r#"["async",[["p","SIG"],["q","WAIT"]],[["next"]]]"#,
        r#"["async_all",[["repeat",0,[]]]]"#,
        r#"["open"]"#,
        r#"["shut"]"#,
        r#"["signal"]"#,
        r#"["wait"]"#,
        r#"["next"]"#,
        r#"["single",4294967295]"#,
        r#"["send","p",255,-2147483648]"#,
        r#"["look","p",255]"#,
        r#"["repeat",1000,[["next"]]]"#,
    ];
    for act in ACTS {
        equal_at(&rt, act, place_alone(rt.alloc(), act)?, None);
    }
    Ok(())
}

#[test]
fn items_that_are_no_acts(rt: HostRuntime) -> Result<(), Fail> {
    const ITEMS: [&str; 24] = [
        "7",
        "[]",
        r#"["jump"]"#,
        r#"["end"]"#,
        r#"["next",1]"#,
        r#"["new","p","SIG"]"#,
        r#"["new","","SIG",[]]"#,
        r#"["new","p-q","SIG",[]]"#,
        r#"["new","p","sig",[]]"#,
        r#"["new","p","SIG",["sum","sum","sum","sum","sum"]]"#,
        r#"["new","p","SIG",[],0]"#,
        r#"["new","p","SIG",[],65537]"#,
        r#"["new","p","SIG",[],1,1]"#,
        r#"["async",[["p"]],[]]"#,
        r#"["async",[["p","SIG",1]],[]]"#,
        r#"["async",[]]"#,
        r#"["async_all",[],[]]"#,
        r#"["single"]"#,
        r#"["single",4294967296]"#,
        r#"["send","p",256,0]"#,
        r#"["send","p",0,2147483648]"#,
        r#"["look","p"]"#,
        r#"["repeat",1001,[]]"#,
        r#"["repeat",-1,[]]"#,
    ];
    for item in ITEMS {
        equal_at(&rt, item, place_beside(rt.alloc(), item)?, Some(2));
    }
    equal(
        &rt,
        place_beside(rt.alloc(), r#"["repeat",1,["next"]]"#)?,
        Some(3),
    );
    Ok(())
}

const SIXTEEN: &str =
    r#"["p","SIG"],["p","SIG"],["p","SIG"],["p","SIG"],["p","SIG"],["p","SIG"],["p","SIG"],["p","SIG"],["p","SIG"],["p","SIG"],["p","SIG"],["p","SIG"],["p","SIG"],["p","SIG"],["p","SIG"],["p","SIG"]"#;

#[test]
fn a_spawn_on_seventeen_phasers(rt: HostRuntime) -> Result<(), Fail> {
    let most = format!(in rt.alloc(); "[\"async\",[{SIXTEEN}],[]]")?;
    equal(&rt, place_alone(rt.alloc(), most.as_str())?, None);
    let past = format!(in rt.alloc(); "[\"async\",[{SIXTEEN},[\"p\",\"SIG\"]],[]]")?;
    equal(&rt, place_alone(rt.alloc(), past.as_str())?, Some(1));
    Ok(())
}

#[test]
fn acts_are_counted_before_those_inside(rt: HostRuntime) -> Result<(), Fail> {
    const INSIDE: &str =
        r#"{"main":[["new","p","SIG",[]],["async",[["p","SIG"]],[["next"],["wait",1]]]]}"#;
    const AFTER: &str = r#"{"main":[["repeat",2,[["next"],["wait"]]],["wait",1]]}"#;
    equal(&rt, place_of(rt.alloc(), INSIDE)?, Some(4));
    equal(&rt, place_of(rt.alloc(), AFTER)?, Some(4));
    Ok(())
}

fn program_of(alloc: Global, text: &str) -> Result<Program, Fail> {
    match read_program(alloc, text.as_bytes()) {
        Ok(program) => Ok(program),
        Err(_) => Err(Fail::from("a program")),
    }
}

#[test]
fn limits_of_a_program(rt: HostRuntime) -> Result<(), Fail> {
    const LIMITS: Limits = Limits {
        acts: 2,
        finishes: 64,
        history: 4096,
        phasers: 64,
        regs: 256,
        tasks: 256,
    };
    let text = r#"{"limits":{"acts":2},"main":[["next"],["next"],["next"]]}"#;
    let program = program_of(rt.alloc(), text)?;
    equal(&rt, program.limits(), LIMITS);
    Ok(())
}

/// An act as a table writes it: without a child's body and phasers, and a phaser's operators.
#[derive(Clone, Copy, Debug, PartialEq, Eq)]
enum Shown {
    Async,
    AsyncAll,
    OpenFinish,
    ShutFinish,
    New(Mode),
    Signal,
    Wait,
    Next,
    NextSingle(u32),
    Send(u32, u8, i32),
    Look(u32, u8),
    End,
}

fn as_shown<B: Drop>(act: &Act<B>) -> Shown {
    match act {
        Act::Async(..) => Shown::Async,
        Act::AsyncAll(_) => Shown::AsyncAll,
        Act::OpenFinish => Shown::OpenFinish,
        Act::ShutFinish => Shown::ShutFinish,
        Act::New(mode, _, _) => Shown::New(*mode),
        Act::Signal => Shown::Signal,
        Act::Wait => Shown::Wait,
        Act::Next => Shown::Next,
        Act::NextSingle(number) => Shown::NextSingle(*number),
        Act::Send(phaser, accumulator, value) => Shown::Send(*phaser, *accumulator, *value),
        Act::Look(phaser, accumulator) => Shown::Look(*phaser, *accumulator),
        Act::End => Shown::End,
    }
}

/// What the task is to do after this answer.
fn step(task: &mut ScriptBody<'_>, answer: Answer) -> Option<Shown> {
    match task.step(answer) {
        Ok(act) => Some(as_shown(&act)),
        Err(_) => None,
    }
}

/// An answer, and the act that follows it.
type Row = (Answer, Shown);

fn steps(rt: &impl Abort, task: &mut ScriptBody<'_>, rows: &[Row]) {
    for (answer, act) in rows {
        equal(rt, step(task, *answer), Some(*act));
    }
}

/// The first task of the text's program makes these acts.
fn first_task_does(rt: &impl Abort, alloc: Global, text: &str, rows: &[Row]) -> Result<(), Fail> {
    let program = program_of(alloc, text)?;
    let mut root = program.root();
    steps(rt, &mut root, rows);
    Ok(())
}

#[test]
fn each_act_in_order(rt: HostRuntime) -> Result<(), Fail> {
    const TEXT: &str =
        r#"{"main":[["new","p","SIG_WAIT",["sum"]],["open"],["signal"],["wait"],["next"],["single",7],["send","p",1,-2],["look","p",3],["async_all",[]],["shut"]]}"#;
    const ROWS: [Row; 12] = [
        (Answer::Started, Shown::New(Mode::SigWait)),
        (Answer::Made(5), Shown::OpenFinish),
        (Answer::Done, Shown::Signal),
        (Answer::Done, Shown::Wait),
        (Answer::Done, Shown::Next),
        (Answer::Done, Shown::NextSingle(7)),
        (Answer::Done, Shown::Send(5, 1, -2)),
        (Answer::Done, Shown::Look(5, 3)),
        (Answer::Saw(Look::Value(1)), Shown::AsyncAll),
        (Answer::Spawned(1), Shown::ShutFinish),
        (Answer::Done, Shown::End),
        (Answer::Done, Shown::End),
    ];
    first_task_does(&rt, rt.alloc(), TEXT, ROWS.as_slice())
}

#[test]
fn repeats_in_repeats(rt: HostRuntime) -> Result<(), Fail> {
    const TEXT: &str =
        r#"{"main":[["repeat",2,[["send","q",0,7],["repeat",0,[["wait"]]],["repeat",2,[["next"]]]]],["signal"]]}"#;
    const ROWS: [Row; 8] = [
        (Answer::Done, Shown::Send(4_294_967_295, 0, 7)),
        (Answer::Done, Shown::Next),
        (Answer::Done, Shown::Next),
        (Answer::Done, Shown::Send(4_294_967_295, 0, 7)),
        (Answer::Done, Shown::Next),
        (Answer::Done, Shown::Next),
        (Answer::Done, Shown::Signal),
        (Answer::Done, Shown::End),
    ];
    first_task_does(&rt, rt.alloc(), TEXT, ROWS.as_slice())
}

/// The child that the task spawns on these phasers, once its new phaser has the number 5.
fn spawned<'p>(
    rt: &impl Abort,
    task: &mut ScriptBody<'p>,
    phasers: &[Pair],
) -> Result<ScriptBody<'p>, Fail> {
    match task.step(Answer::Made(5)) {
        Ok(Act::Async(child, named)) => {
            equal(rt, named.as_slice(), phasers);
            Ok(child)
        }
        _ => Err(Fail::from("a spawn")),
    }
}

#[test]
fn names_are_a_tasks_own(rt: HostRuntime) -> Result<(), Fail> {
    const TEXT: &str =
        r#"{"main":[["new","p","SIG",[]],["async",[["p","SIG"],["q","WAIT"]],[["send","p",0,1],["new","p","SIG",[]],["send","p",0,2]]],["new","p","SIG",[]],["send","p",0,3]]}"#;
    const NAMED: [Pair; 2] = [
        Pair {
            phaser: 5,
            mode: Mode::Sig,
        },
        Pair {
            phaser: u32::MAX,
            mode: Mode::Wait,
        },
    ];
    const BEFORE: [Row; 1] = [(Answer::Started, Shown::New(Mode::Sig))];
    const AFTER: [Row; 2] = [
        (Answer::Spawned(1), Shown::New(Mode::Sig)),
        (Answer::Made(6), Shown::Send(6, 0, 3)),
    ];
    const CHILD: [Row; 4] = [
        (Answer::Started, Shown::Send(5, 0, 1)),
        (Answer::Done, Shown::New(Mode::Sig)),
        (Answer::Made(9), Shown::Send(9, 0, 2)),
        (Answer::Done, Shown::End),
    ];
    let program = program_of(rt.alloc(), TEXT)?;
    let mut root = program.root();
    steps(&rt, &mut root, BEFORE.as_slice());
    let mut child = spawned(&rt, &mut root, NAMED.as_slice())?;
    steps(&rt, &mut root, AFTER.as_slice());
    steps(&rt, &mut child, CHILD.as_slice());
    Ok(())
}
