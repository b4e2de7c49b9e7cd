//! Four tasks share a phaser that lives as long as the program, and four workers of a crew play
//! them: one that has nobody to go on with ends, so soon few play all. Each task sends a number, and
//! they end their turn together; each then looks whether the sum is the expected one. An argument
//! says for how many phases, at least one; the memory is the same for all of them.
//!
//! The calls give receipts. So it is proved of this program that the last sum that a worker saw is the
//! fold of all values that were ever sent for one phase, and that this phase was closed
//! (`barrier::run`).
#![tactic(auto)]

mod barrier;

use anyhow::bail;
use phase_model::Bound;
use phaser_core::Phase;
use std::env;

/// How many phases there are if no argument says it.
const PHASES: Phase = 1_000_000;

/// How many phases the argument says, if there is one.
fn phases(rt: &HostRuntime) -> anyhow::Result<Phase> {
    // The first argument is the program's own name.
    match env::args(rt)?.nth(1) {
        Some(argument) => Ok(argument.parse::<u64>()?),
        None => Ok(PHASES),
    }
}

fn main(rt: HostRuntime) -> anyhow::Result<()> {
    let phases = phases(&rt)?;
    // At a barrier nobody comes so far ahead that a bound of 2 would hold him.
    let Some(bound) = Bound::of(2) else {
        bail!("a bound is 1 to 65,536");
    };
    let mut right = 0u64;
    for tally in barrier::run(&rt, rt.alloc(), bound, phases)? {
        right = right.saturating_add(tally?.right);
    }
    println!(&rt; "{phases} phases, {right} sums as expected")?;
    Ok(())
}
