//! The words of the command line, as a job.
ghost use Rattle.std.specs.Prelude.{map, SomeIff, MatchOption, codes};
ghost use Rattle.phaser_bench.specs.CommandLine.{IsNumberFrom, number_in, NamesCore, NamesTable, NamesWorlds, Names};

use crate::job::Job;
use crate::locks::job::LocksJob;
use crate::locks::kind::Kind as LocksKind;
use crate::phasers::job::CoreJob;
use crate::phasers::kind::Kind as CoreKind;
use crate::worlds::job::WorldsJob;
use crate::worlds::kind::Kind as WorldsKind;

/// The bounds of a number, both within.
#[derive(Clone, Copy)]
struct Bounds {
    least: u32,
    most: u32,
}

/// How many tasks are registered on each phaser.
const TASKS: Bounds = Bounds {
    least: 1,
    most: 256,
};

/// How many phasers a job of the core calls.
const CORE_PHASERS: Bounds = Bounds {
    least: 1,
    most: 1_000,
};

/// How many phasers of a table each thread calls.
const TABLE_PHASERS: Bounds = Bounds { least: 1, most: 32 };

/// For how many phases each of these is called.
const PHASES: Bounds = Bounds {
    least: 1,
    most: 32_768,
};

/// How many threads call them.
const THREADS: Bounds = Bounds { least: 1, most: 2 };

/// How many turns the tasks of a world make.
const TURNS: Bounds = Bounds {
    least: 0,
    most: 65_536,
};

/// How many worlds are made.
const WORLDS: Bounds = Bounds {
    least: 1,
    most: 1_000,
};

/// The number that the argument spells, if it is within these bounds.
fn number_of(argument: &str, bounds: Bounds) -> Option<u32>
    ensures { SomeIff result (IsNumberFrom bounds.least bounds.most argument.now) (number_in argument.now) }
{
    match argument.parse::<u32>() {
        Ok(number) if bounds.least <= number && number <= bounds.most => Some(number),
        _ => None,
    }
}

/// The job that the words `core KIND TASKS PHASERS` name; none if they name none.
fn core_job(words: &[&str]) -> Option<CoreJob>
    ensures { MatchOption result
        ((job : _) → ¬ (NamesCore job (map (λ w. w.now) words.now)))
        (λ job. NamesCore job (map (λ w. w.now) words.now)) }
{
    let ["core", kind, tasks, phasers] = words else {
        return None;
    };
    Some(CoreJob {
        kind: CoreKind::of_name(kind)?,
        tasks: number_of(tasks, TASKS)?,
        phasers: number_of(phasers, CORE_PHASERS)?,
    })
}

/// The job that the words `locks KIND TASKS PHASES PHASERS THREADS` name; none if they name
/// none.
fn locks_job(words: &[&str]) -> Option<LocksJob>
    ensures { MatchOption result
        ((job : _) → ¬ (NamesTable (codes "locks") job (map (λ w. w.now) words.now)))
        (λ job. NamesTable (codes "locks") job (map (λ w. w.now) words.now)) }
{
    let ["locks", kind, tasks, phases, phasers, threads] = words else {
        return None;
    };
    Some(LocksJob {
        kind: LocksKind::of_name(kind)?,
        tasks: number_of(tasks, TASKS)?,
        phases: number_of(phases, PHASES)?,
        phasers: number_of(phasers, TABLE_PHASERS)?,
        threads: number_of(threads, THREADS)?,
    })
}

/// The job that the words `receipts KIND TASKS PHASES PHASERS THREADS` name; none if they name
/// none.
fn receipts_job(words: &[&str]) -> Option<LocksJob>
    ensures { MatchOption result
        ((job : _) → ¬ (NamesTable (codes "receipts") job (map (λ w. w.now) words.now)))
        (λ job. NamesTable (codes "receipts") job (map (λ w. w.now) words.now)) }
{
    let ["receipts", kind, tasks, phases, phasers, threads] = words else {
        return None;
    };
    Some(LocksJob {
        kind: LocksKind::of_name(kind)?,
        tasks: number_of(tasks, TASKS)?,
        phases: number_of(phases, PHASES)?,
        phasers: number_of(phasers, TABLE_PHASERS)?,
        threads: number_of(threads, THREADS)?,
    })
}

/// The job that the words `worlds KIND TURNS WORLDS` name; none if they name none.
fn worlds_job(words: &[&str]) -> Option<WorldsJob>
    ensures { MatchOption result
        ((job : _) → ¬ (NamesWorlds job (map (λ w. w.now) words.now)))
        (λ job. NamesWorlds job (map (λ w. w.now) words.now)) }
{
    let ["worlds", kind, turns, worlds] = words else {
        return None;
    };
    Some(WorldsJob {
        kind: WorldsKind::of_name(kind)?,
        turns: number_of(turns, TURNS)?,
        worlds: number_of(worlds, WORLDS)?,
    })
}

/// The job that the words name; none if they name none.
pub fn job_of(words: &[&str]) -> Option<Job>
    ensures { MatchOption result
        ((job : _) → ¬ (Names job (map (λ w. w.now) words.now)))
        (λ job. Names job (map (λ w. w.now) words.now)) }
{
    if let Some(job) = core_job(words) {
        return Some(Job::Core(job));
    }
    if let Some(job) = locks_job(words) {
        return Some(Job::Locks(job));
    }
    if let Some(job) = receipts_job(words) {
        return Some(Job::Receipts(job));
    }
    if let Some(job) = worlds_job(words) {
        return Some(Job::Worlds(job));
    }
    None
}
