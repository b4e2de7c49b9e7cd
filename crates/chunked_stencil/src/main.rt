//! A stencil with work to do: a row of cells in pieces, each with a task of its own, against the
//! same row by the plain function. The tasks send one another their border cells, and nothing else.
#![tactic(auto)]

ghost use Rattle.job_kernels.specs.Stencil.{AtMost};

mod bell;
mod border;
mod cells;
mod laws;
mod row;
mod words;

use cells::{first_row, split};
use job_kernels::stencil_plain;
use row::row_after;
use std::alloc::Global;
use std::env;
use std::process::ExitCode;
use std::sync::Wait;
use std::thread::Threads;
use std::time::{Clock, Duration, Instant};
use words::{Job, USAGE, job_of};

/// The job that the program's words ask for.
fn job_asked(rt: &HostRuntime) -> anyhow::Result<Job> {
    let arguments: Vec<String> = env::args(rt)?.collect(rt.alloc())?;
    let mut words: Vec<&str> = Vec::new(rt.alloc());
    // The first argument is the program's own name.
    for argument in arguments.iter().skip(1) {
        words.push(argument.as_str())?;
    }
    job_of(&words)
}

/// The row after all steps, by threads, and how long it took: all that they share was made, and
/// they were started and joined.
fn timed<R: Threads + Wait + Clock + Sync>(
    rt: &R,
    alloc: Global,
    first: &[u32],
    job: Job,
) -> anyhow::Result<(Vec<u32>, Duration)>
    requires { AtMost 1000000 first.now }
{
    let pieces = split(alloc, first, job.size)?;
    let begun = Instant::now(rt)?;
    let row = row_after(rt, alloc, pieces, job.steps, job.workers)?;
    let took = begun.elapsed(rt)?;
    Ok((row, took))
}

/// What the cells add up to.
fn sum_of(cells: &[u32]) -> u64 {
    let mut sum = 0u64;
    for cell in cells {
        sum = sum.saturating_add(u64::from(*cell));
    }
    sum
}

/// What the job gives.
#[derive(Drop)]
struct Outcome {
    sum: u64,
    is_same: bool,
    shortest: Duration,
}

/// Does the job both ways, as often as it is asked for.
fn outcome_of<R: Threads + Wait + Clock + Sync>(
    rt: &R,
    alloc: Global,
    job: Job,
) -> anyhow::Result<Outcome> {
    let first = first_row(alloc, job.cells)?;
    let plain = stencil_plain(alloc, &first, job.steps)?;
    let mut outcome = Outcome {
        sum: sum_of(&plain),
        is_same: true,
        shortest: Duration::MAX,
    };
    for _round in 0..job.rounds.unwrap_or(1) {
        let (row, took) = timed(rt, alloc, &first, job)?;
        outcome.is_same = outcome.is_same && row == plain;
        outcome.shortest = outcome.shortest.min(took);
    }
    Ok(outcome)
}

/// Prints what the job gives.
fn tell(rt: &HostRuntime, job: Job, outcome: &Outcome) -> anyhow::Result<()> {
    let Job {
        cells,
        pieces,
        steps,
        ..
    } = job;
    let judged = if outcome.is_same { "as" } else { "NOT as" };
    print!(rt; "{cells} cells in {pieces} pieces, {steps} steps: ")?;
    println!(rt;
        "sum {}, each cell {judged} by the plain function",
        outcome.sum
    )?;
    if job.rounds.is_some() {
        eprintln!(rt;
            "{} workers: {} us",
            job.workers,
            outcome.shortest.as_micros()
        )?;
    }
    Ok(())
}

/// Prints why the program ends, and gives its status.
fn stop(rt: &HostRuntime, error: anyhow::Error, usage: &str, status: u8) -> ExitCode {
    let _told = eprintln!(rt; "chunked_stencil: {error}{usage}");
    ExitCode::from(status)
}

/// Ends with the status that the usage text says.
fn main(rt: HostRuntime) -> ExitCode {
    let job = match job_asked(&rt) {
        Ok(job) => job,
        Err(error) => return stop(&rt, error, USAGE, 2),
    };
    let outcome = match outcome_of(&rt, rt.alloc(), job) {
        Ok(outcome) => outcome,
        Err(error) => return stop(&rt, error, "", 3),
    };
    match tell(&rt, job, &outcome) {
        Ok(()) => ExitCode::from(u8::from(!outcome.is_same)),
        Err(error) => stop(&rt, error, "", 3),
    }
}
