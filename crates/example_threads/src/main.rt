//! Threads share a phaser that lives as long as the program, and each keeps its own task. Each task
//! sends a number, they end their turn together, and each looks at the sum. A thread whose task has to
//! wait sleeps until another's call frees it.
//!
//! First two threads meet once: one sends 3, the other 4. The calls give receipts. So it is proved of
//! this program that the phase which each has passed was closed then (`pair::both`), and that what each
//! saw is the fold of all values that were ever sent for a closed phase, in one legal history
//! (`pair::run`). Then four threads meet in many phases (`rounds::run`). If there is an argument these
//! alone meet, for so many phases; the memory is the same for all of them.
#![tactic(auto)]

mod pair;
mod rounds;
mod turn;

use anyhow::bail;
use phase_model::{Bound, LongLook, Look};
use phaser_core::Phase;
use std::env;

/// How many phases there are if no argument says it.
const PHASES: Phase = 20_000;

/// How many phases the argument says, if there is one.
fn phases(rt: &HostRuntime) -> anyhow::Result<Option<Phase>> {
    // The first argument is the program's own name.
    match env::args(rt)?.nth(1) {
        Some(argument) => Ok(Some(argument.parse::<u64>()?)),
        None => Ok(None),
    }
}

/// Prints what two threads saw that met once.
fn print_looks(rt: &impl Print, one: LongLook, other: LongLook) -> anyhow::Result<()> {
    match (one, other) {
        (Look::Value(one), Look::Value(other)) => {
            println!(rt; "one saw {one}, the other {other}")?
        }
        _ => bail!("a task saw no sum"),
    }
    Ok(())
}

fn main(rt: HostRuntime) -> anyhow::Result<()> {
    // At a barrier nobody comes so far ahead that a bound of 2 would hold him.
    let Some(bound) = Bound::of(2) else {
        bail!("a bound is 1 to 65,536");
    };
    let phases = match phases(&rt)? {
        Some(phases) => phases,
        None => {
            let (one, other) = pair::run(&rt, rt.alloc(), bound)?;
            print_looks(&rt, one, other)?;
            PHASES
        }
    };
    let right = rounds::run(&rt, rt.alloc(), bound, phases)?;
    println!(&rt; "{phases} phases, {right} sums as expected")?;
    Ok(())
}
