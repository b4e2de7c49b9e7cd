//! The words of the command line, as a job.
ghost use Rattle.std.specs.Prelude.{◌≡◌, ℕ, List, Some, None, map, option_map, true, IfErr, IfOk, MatchResult};
ghost use Rattle.command_words.specs.CommandLine.{Asked, IsInRange, IsNoJobFor, Work, asked_by, asked_in, bad_flag, file_of, first_bad, is_plainly_asked, no_job_status, pipeline, plain_words, run, stencil, value_text, work_for, work_in, work_of};

use crate::lists::{every_of, first_of, items_of, picks_of, stages_of, steps_of, workers_of};
use crate::words::{Words, words_of};
use job_ends::Status;
use std::alloc::{AllocError, Global};
use std::fmt;
use thiserror::Error;

/// After what a judge tells its report each time.
#[derive(Clone, Copy, Debug, PartialEq, Eq)]
pub enum Every {
    /// So many events.
    Events(u64),
    /// So many seconds.
    Seconds(u64),
}

/// What the program is to do. A FILE `-` is standard input.
#[derive(Debug, Drop, PartialEq, Eq)]
pub enum Job<'a> {
    /// Answers the events file.
    Events {
        file: &'a str,
    },
    /// Runs the program by the picks, and writes the trace into a file of the name `trace`.
    Schedule {
        file: &'a str,
        picks: Vec<u32>,
        trace: Option<&'a str>,
    },
    /// Runs the program by so many workers, and writes the trace into a file of the name `trace`; if
    /// it has to be `certain`, only if every run of it prints the same.
    Run {
        file: &'a str,
        workers: u32,
        trace: Option<&'a str>,
        certain: bool,
    },
    /// Runs the program by so many workers, and keeps no events; says how fast it goes, if `progress`
    /// is wanted.
    Live {
        file: &'a str,
        workers: u32,
        progress: bool,
    },
    /// Replays the trace, and writes it in the newest version into a file of the name `upgrade`.
    Replay {
        file: &'a str,
        upgrade: Option<&'a str>,
    },
    /// Says whether every run of the program prints the same.
    Certify {
        file: &'a str,
    },
    /// Judges the log, and tells the report each time after so many events or seconds.
    Judge {
        file: &'a str,
        every: Option<Every>,
    },
    /// Runs the stencil over these first values for so many steps.
    Stencil {
        first: Vec<u32>,
        steps: u32,
        workers: u32,
    },
    /// The same, and keeps no events; says how fast it goes, if `progress` is wanted.
    LiveStencil {
        first: Vec<u32>,
        steps: u32,
        workers: u32,
        progress: bool,
    },
    /// Runs the pipeline of so many stages over so many items.
    Pipeline {
        stages: u32,
        items: u32,
        workers: u32,
    },
    /// The same, and keeps no events; says how fast it goes, if `progress` is wanted.
    LivePipeline {
        stages: u32,
        items: u32,
        workers: u32,
        progress: bool,
    },
}

impl<'a> Job<'a> {
    /// FILE, if the command has one.
    pub fn file(&self) -> Option<&'a str>
        ensures { option_map (λ t. t.now) result ≡ file_of (work_of self.now) }
    {
        match self {
            Job::Events { file }
            | Job::Schedule { file, .. }
            | Job::Run { file, .. }
            | Job::Live { file, .. }
            | Job::Replay { file, .. }
            | Job::Certify { file }
            | Job::Judge { file, .. } => Some(file),
            Job::Stencil { .. }
            | Job::LiveStencil { .. }
            | Job::Pipeline { .. }
            | Job::LivePipeline { .. } => None,
        }
    }
}

/// A value that is to be a number in a range, or a list of such numbers; or a flag that is to stand beside
/// some words, and not beside others.
#[derive(Clone, Copy, Debug, PartialEq, Eq)]
pub enum Value {
    /// LIST of a schedule.
    Picks,
    /// LIST of a stencil.
    First,
    Steps,
    /// S of a stencil that keeps no events.
    LiveSteps,
    Stages,
    Items,
    /// The items of a pipeline that keeps no events.
    LiveItems,
    Workers,
    /// N of a judge.
    Every,
    /// `--live`, beside which `--trace` or `--certain` stands.
    Live,
    /// `--progress`, beside which no `--live` stands.
    Progress,
}

impl Value {
    /// What the value is to be, or what to do about the flag.
    fn wanted(self) -> &'static str
        ensures { result.now ≡ value_text self }
    {
        match self {
            Value::Picks => {
                "LIST is 1 to 10,000 numbers of 0 to 4294967295 with commas between them"
            }
            Value::First => "LIST is 1 to 16 numbers of 0 to 1000000 with commas between them",
            Value::Steps => "S is a number of 0 to 100",
            Value::LiveSteps => "S is a number of 0 to 4294967295",
            Value::Stages => "K is a number of 1 to 15",
            Value::Items => "the items are a number of 0 to 100",
            Value::LiveItems => "the items are a number of 0 to 2000000000",
            Value::Workers => "the workers are a number of 1 to 16",
            Value::Every => "N is a number of 1 to 18446744073709551615, or one with an s after it",
            Value::Live => "--live keeps no events: leave --trace and --certain out",
            Value::Progress => "--progress goes with --live",
        }
    }
}

impl fmt::Display for Value {
    ghost use Rattle.std.specs.Prelude.{Some};
    ghost use Rattle.command_words.specs.CommandLine.{value_text};

    ghost output = { λ v. Some (value_text v) };

    fn fmt<W: fmt::Write>(&self, f: &mut fmt::Formatter<W>) -> fmt::Result {
        let wanted = self.wanted();
        write!(f, "{wanted}")
    }
}

/// Why there is no job.
#[derive(Debug, Drop, Error)]
pub enum NoJob {
    /// The words are bad, or ask for help or the version. The message is `clap`'s.
    #[error("{0}")]
    Arguments(clap::Error),
    /// A required word is missing.
    #[error("error: a required word is missing\n")]
    Missing,
    /// This value isn't in digits alone, or is out of its range; or this flag doesn't go with the others.
    #[error("error: {0}\n")]
    BadValue(Value),
    /// Memory ran out.
    #[error("refused 23 Memory\n")]
    Memory,
}

impl NoJob {
    /// How the program ends.
    pub fn status(&self) -> Status
        ensures { result ≡ no_job_status self.now }
    {
        match self {
            NoJob::Arguments(_) | NoJob::Missing | NoJob::BadValue(_) => Status::Usage,
            NoJob::Memory => Status::Refused,
        }
    }
}

impl From<AllocError> for NoJob {
    ghost use Rattle.std.specs.Prelude.{◌≡◌};
    ghost use Rattle.command_words.specs.declared.command_line.NoJob.TheVariants.{Memory};

    ghost from_gives = { λ _ n. n ≡ Memory };

    fn from(_error: AllocError) -> NoJob {
        NoJob::Memory
    }
}

/// The flag that doesn't go with the other words, if one doesn't.
fn bad_flag(trace: Option<&str>, certain: bool, live: bool, progress: bool) -> Option<Value>
    ensures { result ≡ bad_flag (option_map (λ t. t.now) trace.entry) certain live progress }
{
    if live && (trace.is_some() || certain) {
        Some(Value::Live)
    } else if progress && !live {
        Some(Value::Progress)
    } else {
        None
    }
}

/// The run of these words.
fn run_for<'a>(
    file: &'a str,
    workers: Option<&'a str>,
    trace: Option<&'a str>,
    certain: bool,
    live: bool,
    progress: bool,
) -> Result<Job<'a>, NoJob>
    ensures work { IfOk result (λ job. work_for (run file.now (option_map (λ t. t.now) workers.entry)
        (option_map (λ t. t.now) trace.entry) certain live progress) ≡ Some (work_of job)) }
    ensures range { IfOk result (λ job. IsInRange (work_of job)) }
    ensures none { IfErr result (IsNoJobFor (run file.now (option_map (λ t. t.now) workers.entry)
        (option_map (λ t. t.now) trace.entry) certain live progress)) }
{
    let workers = workers_of(workers)?;
    if let Some(flag) = bad_flag(trace, certain, live, progress) {
        return Err(NoJob::BadValue(flag));
    }
    if live {
        Ok(Job::Live {
            file,
            workers,
            progress,
        })
    } else {
        Ok(Job::Run {
            file,
            workers,
            trace,
            certain,
        })
    }
}

/// The stencil of these words.
fn stencil_for<'a>(
    alloc: Global,
    first: &'a str,
    steps: &'a str,
    workers: Option<&'a str>,
    live: bool,
    progress: bool,
) -> Result<Job<'a>, NoJob>
    ensures work { IfOk result (λ job. work_for (stencil first.now steps.now (option_map (λ t. t.now) workers.entry)
        live progress) ≡ Some (work_of job)) }
    ensures range { IfOk result (λ job. IsInRange (work_of job)) }
    ensures none { IfErr result (IsNoJobFor (stencil first.now steps.now (option_map (λ t. t.now) workers.entry)
        live progress)) }
{
    let first = first_of(alloc, first)?;
    let steps = steps_of(steps, live)?;
    let workers = workers_of(workers)?;
    if let Some(flag) = bad_flag(None, false, live, progress) {
        return Err(NoJob::BadValue(flag));
    }
    if live {
        Ok(Job::LiveStencil {
            first,
            steps,
            workers,
            progress,
        })
    } else {
        Ok(Job::Stencil {
            first,
            steps,
            workers,
        })
    }
}

/// The pipeline of these words.
fn pipeline_for<'a>(
    stages: &'a str,
    items: &'a str,
    workers: Option<&'a str>,
    live: bool,
    progress: bool,
) -> Result<Job<'a>, NoJob>
    ensures work { IfOk result (λ job. work_for (pipeline stages.now items.now (option_map (λ t. t.now) workers.entry)
        live progress) ≡ Some (work_of job)) }
    ensures range { IfOk result (λ job. IsInRange (work_of job)) }
    ensures none { IfErr result (IsNoJobFor (pipeline stages.now items.now (option_map (λ t. t.now) workers.entry)
        live progress)) }
{
    let stages = stages_of(stages)?;
    let items = items_of(items, live)?;
    let workers = workers_of(workers)?;
    if let Some(flag) = bad_flag(None, false, live, progress) {
        return Err(NoJob::BadValue(flag));
    }
    if live {
        Ok(Job::LivePipeline {
            stages,
            items,
            workers,
            progress,
        })
    } else {
        Ok(Job::Pipeline {
            stages,
            items,
            workers,
        })
    }
}

/// The job of a command with its words.
fn job_for<'a>(alloc: Global, words: Words<'a>) -> Result<Job<'a>, NoJob>
    ensures work { IfOk result (λ job. work_for (asked_by words.entry) ≡ Some (work_of job)) }
    ensures range { IfOk result (λ job. IsInRange (work_of job)) }
    ensures none { IfErr result (IsNoJobFor (asked_by words.entry)) }
{
    match words {
        Words::Events { file } => Ok(Job::Events { file }),
        Words::Schedule { file, picks, trace } => {
            let picks = picks_of(alloc, picks)?;
            Ok(Job::Schedule { file, picks, trace })
        }
        Words::Run {
            file,
            workers,
            trace,
            certain,
            live,
            progress,
        } => run_for(file, workers, trace, certain, live, progress),
        Words::Replay { file, upgrade } => Ok(Job::Replay { file, upgrade }),
        Words::Certify { file } => Ok(Job::Certify { file }),
        Words::Judge { file, every } => {
            let every = every_of(every)?;
            Ok(Job::Judge { file, every })
        }
        Words::Stencil {
            first,
            steps,
            workers,
            live,
            progress,
        } => stencil_for(alloc, first, steps, workers, live, progress),
        Words::Pipeline {
            stages,
            items,
            workers,
            live,
            progress,
        } => pipeline_for(stages, items, workers, live, progress),
    }
}

/// The job that the words name; the first is the program's own name. `Arguments` if they name none,
/// with `clap`'s message, the help or the version; `BadValue` if only the values are bad, with the
/// first that is; `Memory` if it ran out.
pub fn job_of<'a>(alloc: Global, arguments: &'a [&'a str]) -> Result<Job<'a>, NoJob>
    // The words are those of the job's command and no more.
    ensures work { IfOk result (λ job. work_in (map (λ w. w.now) arguments.entry.now) ≡ Some (work_of job)) }
    // Its numbers are in their ranges.
    ensures range { IfOk result (λ job. IsInRange (work_of job)) }
    // Words that name a job are refused for want of memory alone.
    ensures named { (work : Work) → work_in (map (λ w. w.now) arguments.entry.now) ≡ Some work
        → MatchResult result (λ job. work_of job ≡ work) (λ e. e ≡ NoJob.Memory) }
    // Of words that ask for a command, with values that are none, only the first such value is named as bad.
    ensures bad_value { (asked : Asked) → asked_in (map (λ w. w.now) arguments.entry.now) ≡ Some asked
        → work_for asked ≡ None → IfErr result (IsNoJobFor asked) }
    // It is named for no other reason.
    ensures value { IfErr result (λ e. (v : Value) → e ≡ NoJob.BadValue v → (asked : Asked)
        × (asked_in (map (λ w. w.now) arguments.entry.now) ≡ Some asked) × (work_for asked ≡ None)
        × (first_bad asked ≡ Some v)) }
    // So `events FILE` names that file, and the other commands theirs with the options after it,
    // if no word of theirs looks like an option.
    ensures plain { (program : List ℕ) (asked : Asked) (work : Work)
        → map (λ w. w.now) arguments.entry.now ≡ plain_words program asked → is_plainly_asked asked ≡ true
        → work_for asked ≡ Some work
        → MatchResult result (λ job. work_of job ≡ work) (λ e. e ≡ NoJob.Memory) }
{
    let words = words_of(alloc, arguments)?;
    job_for(alloc, words)
}
