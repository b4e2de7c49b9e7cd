//! Four tasks at a barrier with one sum, played in turn by one thread, of a phaser that lives as long
//! as the program.
use anyhow::bail;
use phase_model::{Bound, Look, Op, Ops, Passing, Signalling};
use phase_modes::{Mode, Refusal};
use phaser_core::LongPhaser;
use std::alloc::Global;

const TASKS: usize = 4;

/// A phaser as a barrier, and the numbers of the tasks that meet there.
#[derive(Drop)]
struct Barrier {
    phaser: LongPhaser,
    tasks: [u64; TASKS],
}

/// A barrier of the tasks, with one sum.
fn make_barrier(alloc: Global) -> Result<Barrier, Refusal> {
    let mut ops = Ops::none();
    ops.push(Op::Sum);
    // At a barrier nobody comes so far ahead that a bound of 2 would hold him.
    let bound = Bound::of(2).ok_or(Refusal::NotNow)?;
    let mut phaser = LongPhaser::new(alloc, ops, bound)?;
    let maker = phaser.make(Mode::SigWait)?;
    let mut tasks = [maker; TASKS];
    for task in tasks.iter_mut().skip(1) {
        *task = phaser.register(maker, Mode::SigWait)?;
    }
    Ok(Barrier { phaser, tasks })
}

/// What the tasks change in the phase.
fn changes(phase: u64) -> [i32; TASKS] {
    let change = (phase % 1_000) as i32;
    [change, -2 * change, 4 * change, 7]
}

/// The sum of what they change.
fn sum_of(phase: u64) -> i128 {
    3 * i128::from(phase % 1_000) + 7
}

/// Each task sends its change, and signals.
fn all_arrive(barrier: &mut Barrier, changes: [i32; TASKS]) -> anyhow::Result<()> {
    for (task, change) in barrier.tasks.iter().zip(changes.iter()) {
        barrier.phaser.send(*task, 0, *change)?;
        match barrier.phaser.signal(*task, None)? {
            Signalling::Signalled => {}
            Signalling::NotYet => bail!("task {task} was held"),
        }
    }
    Ok(())
}

/// Each task ends its turn, and sees this sum.
fn all_go_on(barrier: &mut Barrier, sum: i128) -> anyhow::Result<()> {
    for task in barrier.tasks.iter() {
        match barrier.phaser.pass(*task)? {
            Passing::Passed(_) => {}
            Passing::NotYet | Passing::Claimed(_) => bail!("task {task} didn't pass"),
        }
        match barrier.phaser.look(*task, 0)? {
            Look::Value(seen) if seen == sum => {}
            _ => bail!("task {task} didn't see the sum"),
        }
    }
    Ok(())
}

/// So many phases. The last sum. A phase takes 16 events here, so the phaser would have room for 2^58.
pub fn play(alloc: Global, phases: u64) -> anyhow::Result<i128> {
    let mut barrier = make_barrier(alloc)?;
    let mut sum: i128 = 0;
    for phase in 0..phases {
        sum = sum_of(phase);
        all_arrive(&mut barrier, changes(phase))?;
        all_go_on(&mut barrier, sum)?;
    }
    Ok(sum)
}
