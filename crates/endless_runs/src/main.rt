//! Bodies to copy of runs without end: a pipeline, a stencil, and a server whose tasks come and go. Each runs
//! in the memory of what is alive at once. The words `pipeline`, `stencil` or `server` play one of them, with
//! how many items, steps or requests; `pipeline 10000000 4` does it by 4 workers. No word plays all three, in
//! a short form. The word `crowd`, with how many tasks, plays one that has no end: it is for `tests/given_up`.
#![tactic(auto)]

ghost use Rattle.std.specs.Prelude.{◌<◌, ◌≤◌};

mod crowd;
mod pipeline;
mod server;
mod stencil;

use live_rt::Room;
use std::alloc::Global;
use std::env;
use std::sync::Wait;
use std::thread::Threads;

/// How many phasers and finishes there may be at once.
const ROOM: Room = Room {
    phasers: 64,
    finishes: 64,
};

/// How many workers there are if no word says it.
const WORKERS: u32 = 2;

/// The number that a word is.
fn number(word: Option<&String>) -> anyhow::Result<Option<u32>> {
    match word {
        Some(word) => Ok(Some(word.parse::<u32>()?)),
        None => Ok(None),
    }
}

/// As many workers as there can be: 1 to 16.
fn workers_of(asked: u32) -> u32
    ensures { (0 < result) × (result ≤ 16) }
{
    asked.clamp(1, 16)
}

/// Plays what the word says, so many times.
fn play<R: Threads + Wait + Sync>(
    rt: &R,
    alloc: Global,
    word: &str,
    many: u32,
    workers: u32,
) -> anyhow::Result<String>
    requires { (0 < workers) × (workers ≤ 16) }
{
    match word {
        "pipeline" => pipeline::play(rt, alloc, many, workers),
        "stencil" => stencil::play(rt, alloc, many, workers),
        "server" => server::play(rt, alloc, many, workers),
        "crowd" => crowd::play(rt, alloc, many, workers),
        _ => Err(anyhow::anyhow!("say pipeline, stencil, server or crowd")),
    }
}

fn main(rt: HostRuntime) -> anyhow::Result<()> {
    let words: Vec<String> = env::args(&rt)?.collect(rt.alloc())?;
    let many = number(words.get(2))?.unwrap_or(10_000);
    let workers = workers_of(number(words.get(3))?.unwrap_or(WORKERS));
    // The first word is the program's own name.
    let Some(word) = words.get(1) else {
        for word in ["pipeline", "stencil", "server"] {
            println!(&rt; "{}", play(&rt, rt.alloc(), word, 1_000, workers)?)?;
        }
        return Ok(());
    };
    println!(&rt; "{}", play(&rt, rt.alloc(), word.as_str(), many, workers)?)?;
    Ok(())
}
