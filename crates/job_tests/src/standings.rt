//! Tasks that go through their acts event by event, and acts that are refused.
use crate::asserted::equal;
use phase_model::Terms;
use phase_modes::{FinishNumber, Limits, Mode, Pair, Phased, Refusal, TaskNumber};
use std::test::Fail;
use task_standing::{Due, Plan, Standing};
use world_model::{Begun, Tried};

/// A task on phaser 4, which it may signal, and on phaser 5, where it only waits.
fn on_two_phasers(rt: &HostRuntime) -> Result<Standing, Fail> {
    let mut task = Standing::new(rt.alloc(), TaskNumber::of(1), FinishNumber::of(0))?;
    task.note_making(4, Mode::SigWait)?;
    task.note_making(5, Mode::Wait)?;
    Ok(task)
}

/// One phaser, in this mode.
fn named(phaser: u32, mode: Mode) -> Phased {
    let mut pairs = Phased::none();
    pairs.push(Pair { phaser, mode });
    pairs
}

#[test]
fn turn_goes_from_phaser_to_phaser(rt: HostRuntime) -> Result<(), Fail> {
    let mut task = on_two_phasers(&rt)?;
    equal(&rt, task.due(), Due::Step);
    task.begin(Plan::of(&Begun::Next));
    equal(&rt, task.due(), Due::Signal(4, None));
    task.note_signal(4);
    equal(&rt, task.due(), Due::Pass(4));
    task.note_pass(4);
    equal(&rt, task.due(), Due::Pass(5));
    task.note_pass(5);
    equal(&rt, task.due(), Due::Step);
    Ok(())
}

#[test]
fn nothing_is_due_on_a_phaser_that_is_made_after_a_signal(rt: HostRuntime) -> Result<(), Fail> {
    let mut task = on_two_phasers(&rt)?;
    task.begin(Plan::Signalling(None, false));
    task.note_signal(4);
    equal(&rt, task.due(), Due::Step);
    task.note_making(6, Mode::SigWait)?;
    equal(&rt, task.due(), Due::Step);
    task.begin(Plan::Turning(0));
    task.note_pass(4);
    task.note_pass(5);
    task.note_pass(6);
    equal(&rt, task.due(), Due::Step);
    task.note_making(7, Mode::SigWait)?;
    equal(&rt, task.due(), Due::Step);
    Ok(())
}

#[test]
fn finish_is_left_before_it_is_shut(rt: HostRuntime) -> Result<(), Fail> {
    let mut task = on_two_phasers(&rt)?;
    task.reserve_opening()?;
    task.note_opening(2)?;
    equal(&rt, task.inner(), 2);
    task.note_making(6, Mode::Sig)?;
    task.begin(Plan::Shutting);
    equal(&rt, task.due(), Due::Leave(6));
    task.leave(6);
    equal(&rt, task.due(), Due::Shut(2));
    task.note_shut();
    equal(&rt, task.due(), Due::Step);
    equal(&rt, task.inner(), 0);
    Ok(())
}

#[test]
fn end_leaves_all_phasers(rt: HostRuntime) -> Result<(), Fail> {
    let mut task = on_two_phasers(&rt)?;
    task.begin(Plan::Ending);
    equal(&rt, task.due(), Due::Leave(4));
    task.leave(4);
    equal(&rt, task.due(), Due::Leave(5));
    task.leave(5);
    equal(&rt, task.due(), Due::End(0));
    let mut root = Standing::new(rt.alloc(), TaskNumber::of(0), FinishNumber::of(0))?;
    root.begin(Plan::Ending);
    equal(&rt, root.due(), Due::Close);
    Ok(())
}

#[test]
fn child_that_is_never_born_leaves_first(rt: HostRuntime) -> Result<(), Fail> {
    let mut task = on_two_phasers(&rt)?;
    let mut child = Standing::new(rt.alloc(), TaskNumber::of(9), FinishNumber::of(0))?;
    let pairs = named(4, Mode::Sig);
    task.begin(Plan::Spawning(9, pairs, 0));
    let pair = Pair {
        phaser: 4,
        mode: Mode::Sig,
    };
    equal(&rt, task.due(), Due::Register(9, pair));
    let held = task.held(4).expect(&rt, "the task holds phaser 4");
    child.join(held.handed(Mode::Sig))?;
    task.note_registration();
    equal(&rt, task.due_with(&child), Due::Spawn(9, 0));
    task.give_up();
    equal(&rt, task.due_with(&child), Due::DropChild(4, 9));
    child.leave(4);
    equal(&rt, task.due_with(&child), Due::Leave(4));
    Ok(())
}

#[test]
fn child_is_born_and_the_task_goes_on(rt: HostRuntime) -> Result<(), Fail> {
    let mut task = on_two_phasers(&rt)?;
    task.begin(Plan::Spawning(9, Phased::none(), 0));
    equal(&rt, task.due(), Due::Spawn(9, 0));
    task.note_birth();
    equal(&rt, task.due(), Due::Step);
    equal(&rt, task.number(), 1);
    equal(&rt, task.pairs().len(), 2);
    Ok(())
}

/// What the act of a task on phaser 4 is refused by, with room for three acts, of which it has
/// begun two.
fn refusal_of(rt: &HostRuntime, tried: Tried) -> Result<Option<Refusal>, Fail> {
    let mut task = Standing::new(rt.alloc(), TaskNumber::of(1), FinishNumber::of(0))?;
    task.note_making(4, Mode::SigWait)?;
    task.note_act();
    let limits = Limits {
        acts: 3,
        tasks: 10,
        phasers: 8,
        finishes: 4,
        ..Limits::default()
    };
    Ok(task.may_try(limits, &tried).err())
}

#[test]
fn acts_are_refused_by_the_first_condition(rt: HostRuntime) -> Result<(), Fail> {
    let rows = [
        (Tried::Begun(Begun::Next), None),
        (Tried::Begun(Begun::Signal), None),
        (Tried::Begun(Begun::Wait), Some(Refusal::NotSignalled)),
        (Tried::Begun(Begun::NextSingle(7)), Some(Refusal::NoSingle)),
        (Tried::Begun(Begun::Shut), Some(Refusal::NoFinish)),
        (Tried::Begun(Begun::End), None),
        (
            Tried::Begun(Begun::Async(10, Phased::none())),
            Some(Refusal::TasksFull),
        ),
        (
            Tried::Begun(Begun::Async(9, named(5, Mode::Sig))),
            Some(Refusal::NotRegistered),
        ),
        (
            Tried::Begun(Begun::Async(9, named(4, Mode::Single))),
            Some(Refusal::MoreThanParent),
        ),
        (Tried::Begun(Begun::Async(9, named(4, Mode::Wait))), None),
        (
            Tried::New(8, Mode::Sig, Terms::none()),
            Some(Refusal::PhasersFull),
        ),
        (Tried::Open(4), Some(Refusal::FinishesFull)),
        (Tried::Send(4, 0, 1), None),
    ];
    for (tried, refusal) in rows {
        equal(&rt, refusal_of(&rt, tried)?, refusal);
    }
    Ok(())
}

#[test]
fn acts_are_counted(rt: HostRuntime) -> Result<(), Fail> {
    let mut task = Standing::new(rt.alloc(), TaskNumber::of(1), FinishNumber::of(0))?;
    let limits = Limits {
        acts: 1,
        ..Limits::default()
    };
    task.begin(Plan::Signalling(None, true));
    let next = Tried::Begun(Begun::Next);
    equal(&rt, task.may_try(limits, &next), Err(Refusal::ActsFull));
    equal(&rt, task.may_try(limits, &Tried::Begun(Begun::End)), Ok(()));
    Ok(())
}
