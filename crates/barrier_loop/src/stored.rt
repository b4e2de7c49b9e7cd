//! Three tasks at a barrier with one sum, played in turn by one thread. In each phase each task sends
//! what it changed, and one of them runs a statement before the others go on.
use phase_model::{Look, Op, Ops};
use phase_modes::{Limits, Mode, Refusal};
use phaser_core::{Passing, PhaserState, Signalling};
use std::alloc::Global;

const TASKS: usize = 3;

/// A barrier of the tasks, with one sum.
fn barrier(alloc: Global) -> Result<PhaserState, Refusal> {
    let mut ops = Ops::none();
    ops.push(Op::Sum);
    let mut phaser = PhaserState::new(alloc, Limits::default(), ops, None)?;
    phaser.make(0, Mode::Single)?;
    for task in 1..TASKS {
        phaser.register(0, task as u32, Mode::Single)?;
    }
    Ok(phaser)
}

/// The task asks to end its turn. Whether it ended it: if not, it asks again after another's call.
fn asks(rt: &impl Print, phaser: &mut PhaserState, task: u32) -> anyhow::Result<bool> {
    match phaser.pass(task)? {
        Passing::Passed(_) => Ok(true),
        Passing::NotYet => Ok(false),
        Passing::Claimed(statement) => {
            println!(rt; "task {task} runs statement {statement}")?;
            phaser.single_done(task)?;
            Ok(false)
        }
    }
}

/// One phase, with the statement of this number at its end. What they changed in all.
fn phase(
    rt: &impl Print,
    phaser: &mut PhaserState,
    changes: [i32; TASKS],
    statement: u32,
) -> anyhow::Result<Look> {
    let mut ended = [false; TASKS];
    for (task, change) in changes.iter().enumerate() {
        phaser.send(task as u32, 0, *change)?;
        // Each proposes the statement. Without a bound nobody waits to signal.
        let signalling = phaser.signal(task as u32, Some(statement))?;
        if signalling != Signalling::Signalled {
            return Err(Refusal::NotNow.into());
        }
        ended[task] = asks(rt, phaser, task as u32)?;
    }
    for (task, ended) in ended.iter_mut().enumerate() {
        if !*ended {
            *ended = asks(rt, phaser, task as u32)?;
        }
    }
    Ok(phaser.look(0, 0)?)
}

/// Two phases of a phaser that stores its events.
pub fn play(rt: &impl Print, alloc: Global) -> anyhow::Result<()> {
    let mut phaser = barrier(alloc)?;
    for (statement, changes) in [(7, [3, -1, 4]), (8, [1, 0, -2])] {
        match phase(rt, &mut phaser, changes, statement)? {
            Look::Value(sum) => println!(rt; "changed by {sum}")?,
            Look::Nothing => println!(rt; "nothing was sent")?,
        }
    }
    println!(rt;
        "{} events, phase 1 closed: {}",
        phaser.history().len(),
        phaser.closed(1)
    )?;
    Ok(())
}
