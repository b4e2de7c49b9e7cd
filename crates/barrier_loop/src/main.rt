//! A caller of the library, on one thread: tasks at a barrier. First a phaser stores its events for two
//! phases. Then one that lives as long as the program goes through many. If there is an argument that
//! one alone is played, for so many phases; the memory is the same for all of them.
#![tactic(auto)]

mod long;
mod stored;

use std::env;

/// How many phases there are if no argument says it.
const PHASES: u64 = 1_000_000;

/// How many phases the argument says, if there is one.
fn phases(rt: &HostRuntime) -> anyhow::Result<Option<u64>> {
    // The first argument is the program's own name.
    match env::args(rt)?.nth(1) {
        Some(argument) => Ok(Some(argument.parse::<u64>()?)),
        None => Ok(None),
    }
}

/// So many phases of the phaser that lives long.
fn play_long(rt: &HostRuntime, phases: u64) -> anyhow::Result<()> {
    let sum = long::play(rt.alloc(), phases)?;
    println!(rt; "{phases} phases, the last sum {sum}")?;
    Ok(())
}

fn main(rt: HostRuntime) -> anyhow::Result<()> {
    if let Some(phases) = phases(&rt)? {
        return play_long(&rt, phases);
    }
    stored::play(&rt, rt.alloc())?;
    play_long(&rt, PHASES)
}
