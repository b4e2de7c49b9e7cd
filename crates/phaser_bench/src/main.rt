//! Calls and steps, many in one process, for the benchmark: of phasers alone, of phasers behind
//! locks, without receipts or with them, or of worlds. Prints how many there were.
#![tactic(auto)]

mod command_line;
mod job;
mod locks;
mod phasers;
mod worlds;

use command_line::job_of;
use job::Job;
use locks::{plain, receipts};
use phasers::calls::calls_on_all;
use std::alloc::Global;
use std::env;
use std::process::ExitCode;
use std::sync::Wait;
use std::thread::Threads;
use worlds::steps_of;

/// What is printed if the arguments are bad.
const USAGE: &str = "usage: phaser_bench JOB, where JOB is one of
core none|turn|send|look|drop|long TASKS PHASERS
    (1 to 256 tasks, 1 to 1000 phasers)
locks none|turn|ahead|follow|free TASKS PHASES PHASERS THREADS
    (1 to 256 tasks, 1 to 32768 phases, 1 to 32 phasers for each of 1 or 2 threads)
receipts none|turn|ahead|follow|free TASKS PHASES PHASERS THREADS
    (the same calls with receipts)
worlds calls|alone|beside|reported|default|greatest TURNS WORLDS
    (0 to 65536 turns, 1 to 1000 worlds)\n";

/// Exit status: 0 done, 1 out of memory, 2 bad arguments, 3 a write failed.
fn main(rt: HostRuntime) -> ExitCode {
    let status = match named_job(&rt) {
        Ok(job) => report(&rt, count_of(&rt, rt.alloc(), job)),
        Err(status) => status,
    };
    ExitCode::from(status)
}

/// Reads the arguments as a job, or returns the exit status: 1 out of memory, 2 bad arguments.
fn named_job(rt: &HostRuntime) -> Result<Job, u8> {
    let Ok(args) = env::args(rt) else {
        return Err(print_usage(rt));
    };
    let arguments: Vec<String> = match args.collect(rt.alloc()) {
        Ok(arguments) => arguments,
        Err(_) => return Err(1),
    };
    let mut words: Vec<&str> = Vec::new(rt.alloc());
    // The first argument is the program's own name.
    for argument in arguments.iter().skip(1) {
        if words.push(argument.as_str()).is_err() {
            return Err(1);
        }
    }
    match job_of(words.as_slice()) {
        Some(job) => Ok(job),
        None => Err(print_usage(rt)),
    }
}

/// Does the job, and returns how many calls, events or steps it was; none if there was no memory
/// for it.
fn count_of<R: Threads + Wait + Sync>(threads: &R, alloc: Global, job: Job) -> Option<u64> {
    match job {
        Job::Core(job) => calls_on_all(alloc, job).ok(),
        Job::Locks(job) => plain::events_of(threads, alloc, job).ok(),
        Job::Receipts(job) => receipts::events_of(threads, alloc, job).ok(),
        Job::Worlds(job) => steps_of(alloc, job).ok(),
    }
}

/// Prints the count, if there was memory for the job.
fn report(rt: &HostRuntime, count: Option<u64>) -> u8 {
    let Some(count) = count else {
        return 1;
    };
    match println!(rt; "{count}") {
        Ok(()) => 0,
        Err(_) => 3,
    }
}

fn print_usage(rt: &HostRuntime) -> u8 {
    let _ = rt.eprint(USAGE);
    2
}
