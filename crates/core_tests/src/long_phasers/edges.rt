//! A barrier with a sum where each place that the bound leaves for phases is in use, over a thousand
//! phases: the phase that the slowest task sees still, up to the one that the quickest sends for.
//!
//! In phase p each of the tasks 0 to 2 sends 3p and its number early, before it may signal the phase
//! before, and its number less p late, right before its signal. That is 6p + 6 in all.
use super::*;

const PHASES: u32 = 1_000;

/// Tasks 0 and 1 are quick, and task 2 is slow.
const SLOW: u32 = 2;

/// The sum in the phase.
fn sum_of(phase: u32) -> i64 {
    i64::from(phase).saturating_mul(6).saturating_add(6)
}

/// The number, which is of a task or a phase here.
fn signed(number: u32) -> i32 {
    i32::try_from(number).unwrap_or(0)
}

fn sends_early(rt: &impl Abort, phaser: &mut LongPhaser, task: TaskNumber, phase: u32) {
    let task = task.get();
    let value = signed(phase).saturating_mul(3).saturating_add(signed(task));
    sends(rt, phaser, task, value);
}

fn sends_late(rt: &impl Abort, phaser: &mut LongPhaser, task: TaskNumber, phase: u32) {
    let task = task.get();
    let value = signed(task).saturating_sub(signed(phase));
    sends(rt, phaser, task, value);
}

/// The task signals the phase, and sends for the next.
fn arrives(rt: &impl Abort, phaser: &mut LongPhaser, task: TaskNumber, phase: u32) {
    signals(rt, phaser, task.get());
    sends_early(rt, phaser, task, phase.saturating_add(1));
}

/// The three tasks, of which the quick ones have signalled phase 0.
fn begun(rt: &impl Abort, alloc: Global, bound: u32) -> Result<LongPhaser, Refusal> {
    const OTHERS: [Row; 2] = [
        (Call::Register(0, 1, Mode::SigWait), Reply::Done),
        (Call::Register(0, 2, Mode::SigWait), Reply::Done),
    ];
    let mut phaser = made(alloc, 1, bound)?;
    all_reply(rt, &mut phaser, OTHERS.as_slice());
    for task in 0..3 {
        sends_early(rt, &mut phaser, TaskNumber::of(task), 0);
    }
    for quick in 0..SLOW {
        let task = TaskNumber::of(quick);
        sends_late(rt, &mut phaser, task, 0);
        arrives(rt, &mut phaser, task, 0);
    }
    Ok(phaser)
}

/// The slow task arrives, and each quick one ends its turn of the phase and sends the last of what it
/// has for the next.
fn quick_ones_go_on(rt: &impl Abort, phaser: &mut LongPhaser, phase: u32) {
    let slow = TaskNumber::of(SLOW);
    sends_late(rt, phaser, slow, phase);
    arrives(rt, phaser, slow, phase);
    for quick in 0..SLOW {
        let task = TaskNumber::of(quick);
        goes_on(rt, phaser, task, phase, sum_of(phase));
        sends_late(rt, phaser, task, phase.saturating_add(1));
    }
}

/// The slow task sees the sum of the phase before still, ends its turn, and sees that of the phase.
fn slow_one_goes_on(rt: &impl Abort, phaser: &mut LongPhaser, phase: u32) {
    if let Some(before) = phase.checked_sub(1) {
        sees(rt, phaser, SLOW, sum_of(before));
    }
    goes_on(rt, phaser, TaskNumber::of(SLOW), phase, sum_of(phase));
}

/// By a bound of 1 the quick ones are held until the slow one has gone on, so three phases are in use.
#[test]
fn three_phases_are_in_use(rt: HostRuntime) -> Result<(), Fail> {
    let mut phaser = begun(&rt, rt.alloc(), 1)?;
    for phase in 0..PHASES {
        quick_ones_go_on(&rt, &mut phaser, phase);
        for task in 0..SLOW {
            replies(&rt, &mut phaser, Call::Signal(task, None), Reply::NotYet);
        }
        slow_one_goes_on(&rt, &mut phaser, phase);
        for task in 0..SLOW {
            arrives(&rt, &mut phaser, TaskNumber::of(task), phase + 1);
        }
    }
    Ok(())
}

/// By a bound of 2 the quick ones signal the next phase before the slow one has gone on, and send for
/// the one after it, so four phases are in use.
#[test]
fn four_phases_are_in_use(rt: HostRuntime) -> Result<(), Fail> {
    let mut phaser = begun(&rt, rt.alloc(), 2)?;
    for phase in 0..PHASES {
        quick_ones_go_on(&rt, &mut phaser, phase);
        for task in 0..SLOW {
            arrives(&rt, &mut phaser, TaskNumber::of(task), phase + 1);
        }
        slow_one_goes_on(&rt, &mut phaser, phase);
    }
    Ok(())
}

/// Tasks 0 and 1 send 1 each, and signal.
fn both_arrive(rt: &impl Abort, phaser: &mut LongPhaser) {
    for task in 0..2 {
        sends(rt, phaser, task, 1);
        signals(rt, phaser, task);
    }
}

/// A child, which has signalled what its parent has, sends this value for the next phase, and leaves.
fn guest_sends(rt: &impl Abort, phaser: &mut LongPhaser, guest: u32, value: i32) {
    let register = Call::Register(0, guest, Mode::SigWait);
    replies(rt, phaser, register, Reply::Done);
    sends(rt, phaser, guest, value);
    replies(rt, phaser, Call::Drop(guest), Reply::Done);
}

/// What tasks 0 and 1 and the guest of the phase before sent, which had sent 100 and the number of
/// that phase. There was no guest before phase 0.
fn sum_with_guest(phase: u32) -> i64 {
    match phase.checked_sub(1) {
        Some(before) => i64::from(before).saturating_add(102),
        None => 2,
    }
}

/// In each phase a guest sends for the last phase that the bound leaves a place for, and leaves before
/// that phase is signalled, while the phase two before it is still seen.
#[test]
fn a_task_leaves_a_value_at_the_edge(rt: HostRuntime) -> Result<(), Fail> {
    let mut phaser = made(rt.alloc(), 1, 1)?;
    let other = Call::Register(0, 1, Mode::SigWait);
    replies(&rt, &mut phaser, other, Reply::Done);
    for phase in 0..PHASES {
        both_arrive(&rt, &mut phaser);
        guest_sends(
            &rt,
            &mut phaser,
            phase + 2,
            signed(phase).saturating_add(100),
        );
        if let Some(before) = phase.checked_sub(1) {
            sees(&rt, &mut phaser, 1, sum_with_guest(before));
        }
        goes_on(
            &rt,
            &mut phaser,
            TaskNumber::of(0),
            phase,
            sum_with_guest(phase),
        );
        goes_on(
            &rt,
            &mut phaser,
            TaskNumber::of(1),
            phase,
            sum_with_guest(phase),
        );
    }
    Ok(())
}
