//! The program: the words of the command line to a job, the job's file to lines.
#![tactic(auto)]

mod progress;
mod trace_file;
mod upgrade_file;

ghost use Rattle.std.specs.Prelude.{◌≡◌, ◌≢◌, ◌⊎◌, ◌<◌, ◌≤◌, ℕ, length, true, IfSome, None, Some, Ok, ⊤};
ghost use Rattle.text_jobs.specs.EventsForm.{Form};
ghost use Rattle.job_script.specs.Program.{Program};
ghost use Rattle.job_ends.specs.Ends.{status_of};
ghost use Rattle.judge_job.specs.Logs.{Judged, judged_log};
ghost use Rattle.command_words.specs.CommandLine.{IsInRange, no_job_status, work_of};
ghost use Rattle.command_words.specs.declared.command_line.Every.TheVariants as asked;
ghost use Rattle.text_jobs.specs.EventsFiles.{file_spelled};
ghost use Rattle.text_jobs.specs.Texts.{program_spelled};
ghost use Rattle.run_jobs.specs.Certificate.{Certifies};
ghost use Rattle.text_jobs.specs.Replayed.{Explains};

use crate::progress::Speed;
use crate::trace_file::make_out;
use crate::upgrade_file::Upgraded;
use command_words::{Job, NoJob, job_of};
use job_ends::{Failure, Reads, Status, bytes_of, write_text};
use job_kernels::PipelineSize;
use judge_job::{Every, Writes, judge_from};
use phase_modes::Refusal;
use run_jobs::{
    Silent, Workers, certain_on, certify_on, live_on, live_pipeline_on, live_stencil_on,
    pipeline_on, run_on, stencil_on,
};
use std::alloc::{AllocError, Global};
use std::env;
use std::fs::File;
use std::io::{BufWriter, ErrorKind, Read};
use std::process::ExitCode;
use std::sync::Wait;
use std::thread::Threads;
use text_jobs::{events_from, replay_on, schedule_on};

/// The size in bytes of the largest block, rounded down, whose freeing makes glibc raise its `mmap`
/// threshold: that is never above 2^25 = 33,554,432 (`DEFAULT_MMAP_THRESHOLD_MAX`, 32 MiB).
const LARGEST_KEPT: usize = 33_000_000;

/// A standard stream that is closed leaves its number to the next file that is opened, and what is
/// written to the stream would go into that file. So each number that is free is taken first, by a
/// folder, of which nothing can be read and to which nothing can be written.
fn main(rt: HostRuntime) -> ExitCode {
    let _first = File::open(&rt, "/");
    let _second = File::open(&rt, "/");
    let _third = File::open(&rt, "/");
    keep_tables_together(rt.alloc());
    ExitCode::from(run(&rt, &rt).code())
}

/// The tables of a run and of its replay are some two hundred blocks, each of which the C library's
/// allocator would ask of the system alone, and give back alone. Once it has given back a block of
/// `LARGEST_KEPT` bytes it does so with larger ones only, and keeps the others together. The block
/// isn't touched, and if it is refused all goes on as before.
fn keep_tables_together(alloc: Global) {
    let _block: Result<Vec<u8>, AllocError> = Vec::with_capacity(alloc, LARGEST_KEPT);
}

/// Reads the words, and does the job that they name.
fn run<H: Threads + Wait + Sync>(rt: &HostRuntime, threads: &H) -> Status {
    let arguments: Vec<String> = match env::args(rt) {
        Ok(args) => match args.collect(rt.alloc()) {
            Ok(arguments) => arguments,
            Err(_) => return out_of_memory(rt),
        },
        Err(error) if error.kind() == ErrorKind::OutOfMemory => return out_of_memory(rt),
        Err(_) => return print_usage(rt, "error: an argument isn't valid UTF-8\n"),
    };
    let mut borrowed: Vec<&str> = Vec::new(rt.alloc());
    for argument in &arguments {
        if borrowed.push(argument.as_str()).is_err() {
            return out_of_memory(rt);
        }
    }
    match job_of(rt.alloc(), borrowed.as_slice()) {
        Ok(job) => open_and_do(rt, threads, &job),
        Err(no_job) => print_no_job(rt, &no_job),
    }
}

/// Prints why there is no job, as one text.
fn print_no_job(rt: &HostRuntime, no_job: &NoJob) -> Status
    ensures { (result ≡ no_job_status no_job.now) ⊎ (result ≡ Status.Refused) }
{
    match no_job.to_string(rt.alloc()) {
        Ok(text) => {
            write_text(&mut rt.stderr(), text.as_str());
            no_job.status()
        }
        Err(_) => out_of_memory(rt),
    }
}

/// Prints the text to standard error. A text that can't be written changes no status.
fn print_usage(rt: &HostRuntime, text: &str) -> Status
    ensures { result ≡ Status.Usage }
{
    write_text(&mut rt.stderr(), text);
    Status::Usage
}

/// Reports the failure on standard error.
fn failed(rt: &HostRuntime, failure: Failure) -> Status
    ensures { result ≡ status_of failure }
{
    failure.end(rt.alloc(), &mut rt.stderr()).status
}

fn out_of_memory(rt: &HostRuntime) -> Status
    ensures { result ≡ Status.Refused }
{
    failed(rt, Failure::Refused(Refusal::Memory))
}

/// Does the job on the file that it names, or on standard input for `-`. A job that names none
/// reads nothing.
fn open_and_do<H: Threads + Wait + Sync>(rt: &HostRuntime, threads: &H, job: &Job<'_>) -> Status
    requires { IsInRange (work_of job.now) }
    ensures { result ≢ Status.Usage }
{
    let Some(file) = job.file() else {
        let mut nothing: &[u8] = &[];
        return do_on(rt, threads, job, &mut nothing);
    };
    if file == "-" {
        return do_on(rt, threads, job, &mut rt.stdin());
    }
    match File::open(rt, file) {
        Ok(mut opened) => do_on(rt, threads, job, &mut opened),
        Err(_) => failed(rt, Failure::Read),
    }
}

/// So many workers, each in a thread of its own.
fn on_threads<H>(threads: &H, number: u32) -> Workers<'_, H>
    ensures { result.number ≡ number }
{
    Workers {
        rt: threads,
        number,
    }
}

/// Does the job on what the reader gives.
fn do_on<H: Threads + Wait + Sync, R: Read>(
    rt: &HostRuntime,
    threads: &H,
    job: &Job<'_>,
    reader: &mut R,
) -> Status
    requires { IsInRange (work_of job.now) }
    ensures { result ≢ Status.Usage }
{
    match job {
        Job::Events { .. } => answer(rt, reader),
        Job::Schedule { file, picks, trace } => schedule(rt, picks, file, *trace, reader),
        Job::Run {
            file,
            workers,
            trace,
            certain,
        } => {
            let workers = on_threads(threads, *workers);
            run_program(rt, workers, *certain, file, *trace, reader)
        }
        Job::Live {
            workers,
            progress,
            ..
        } => live(rt, on_threads(threads, *workers), *progress, reader),
        Job::Replay { upgrade, .. } => replay(rt, *upgrade, reader),
        Job::Certify { .. } => certify(rt, reader),
        Job::Judge { every, .. } => judge(rt, every_of(*every), reader),
        Job::Stencil {
            first,
            steps,
            workers,
        } => stencil(rt, on_threads(threads, *workers), first, *steps),
        Job::LiveStencil {
            first,
            steps,
            workers,
            progress,
        } => {
            let workers = on_threads(threads, *workers);
            live_stencil(rt, workers, first, *steps, *progress)
        }
        Job::Pipeline {
            stages,
            items,
            workers,
        } => {
            let size = PipelineSize {
                stages: *stages,
                items: *items,
            };
            pipeline(rt, on_threads(threads, *workers), size)
        }
        Job::LivePipeline {
            stages,
            items,
            workers,
            progress,
        } => {
            let size = PipelineSize {
                stages: *stages,
                items: *items,
            };
            live_pipeline(rt, on_threads(threads, *workers), size, *progress)
        }
    }
}

/// Answers the events file that the reader gives, on standard output.
fn answer<R: Read>(rt: &HostRuntime, reader: &mut R) -> Status
    ensures done { result ≡ Status.Done → IfSome (R.remaining reader.old) (λ all.
        (file : Form) × (file_spelled all ≡ Ok file)) }
    ensures usage { result ≢ Status.Usage }
{
    let Ok(mut out) = BufWriter::new(rt.alloc(), rt.stdout()) else {
        return out_of_memory(rt);
    };
    events_from(rt.alloc(), reader, &mut out, &mut rt.stderr())
}

/// Makes or empties OUT, if it is named, and runs the program that the reader gives.
fn schedule<R: Read>(
    rt: &HostRuntime,
    picks: &[u32],
    file: &str,
    out_name: Option<&str>,
    reader: &mut R,
) -> Status
    ensures done { result ≡ Status.Done → IfSome (R.remaining reader.old) (λ all.
        (p : Program) × (program_spelled all ≡ Ok p)) }
    ensures usage { result ≢ Status.Usage }
{
    let Some(name) = out_name else {
        return schedule_into(rt, picks, &mut None::<File>, reader);
    };
    match make_out(rt, file, name) {
        Ok(out) => schedule_into(rt, picks, &mut Some(out), reader),
        Err(failure) => failed(rt, failure),
    }
}

/// Runs the program that the reader gives, and prints the report on standard output.
fn schedule_into<R: Read>(
    rt: &HostRuntime,
    picks: &[u32],
    trace_out: &mut Option<File>,
    reader: &mut R,
) -> Status
    ensures done { result ≡ Status.Done → IfSome (R.remaining reader.old) (λ all.
        (p : Program) × (program_spelled all ≡ Ok p)) }
    ensures usage { result ≢ Status.Usage }
{
    let (alloc, mut reads) = (rt.alloc(), Reads::none());
    match bytes_of(alloc, reader, &mut reads, text_jobs::MOST_PROGRAM_BYTES) {
        Ok(bytes) => {
            let (mut out, mut faults) = (rt.stdout(), rt.stderr());
            schedule_on(alloc, &bytes, picks, &mut out, &mut faults, trace_out)
        }
        Err(failure) => failed(rt, failure),
    }
}

/// Makes or empties OUT, if it is named, and runs the program that the reader gives by workers. If it
/// has to be certain, it is run only if it is certified.
fn run_program<H: Threads + Wait + Sync, R: Read>(
    rt: &HostRuntime,
    workers: Workers<'_, H>,
    certain: bool,
    file: &str,
    out_name: Option<&str>,
    reader: &mut R,
) -> Status
    requires { (0 < workers.number) × (workers.number ≤ 16) }
    ensures done { result ≡ Status.Done → IfSome (R.remaining reader.old) (λ all.
        (p : Program) × (program_spelled all ≡ Ok p)) }
    // If it has to be certain, it is.
    ensures certain { certain ≡ true → result ≡ Status.Done → IfSome (R.remaining reader.old) (λ all.
        Certifies all (λ r. ⊤)) }
    ensures usage { result ≢ Status.Usage }
{
    let Some(name) = out_name else {
        return run_into(rt, workers, certain, &mut None::<File>, reader);
    };
    match make_out(rt, file, name) {
        Ok(out) => run_into(rt, workers, certain, &mut Some(out), reader),
        Err(failure) => failed(rt, failure),
    }
}

/// Runs the program that the reader gives by workers, and prints the report on standard output.
fn run_into<H: Threads + Wait + Sync, R: Read>(
    rt: &HostRuntime,
    workers: Workers<'_, H>,
    certain: bool,
    trace_out: &mut Option<File>,
    reader: &mut R,
) -> Status
    requires { (0 < workers.number) × (workers.number ≤ 16) }
    ensures done { result ≡ Status.Done → IfSome (R.remaining reader.old) (λ all.
        (p : Program) × (program_spelled all ≡ Ok p)) }
    ensures certain { certain ≡ true → result ≡ Status.Done → IfSome (R.remaining reader.old) (λ all.
        Certifies all (λ r. ⊤)) }
    ensures usage { result ≢ Status.Usage }
{
    let (alloc, mut reads) = (rt.alloc(), Reads::none());
    match bytes_of(alloc, reader, &mut reads, text_jobs::MOST_PROGRAM_BYTES) {
        Ok(bytes) => run_bytes(rt, workers, certain, trace_out, &bytes),
        Err(failure) => failed(rt, failure),
    }
}

/// Runs the program of these bytes by workers, and prints the report on standard output.
fn run_bytes<H: Threads + Wait + Sync>(
    rt: &HostRuntime,
    workers: Workers<'_, H>,
    certain: bool,
    trace_out: &mut Option<File>,
    bytes: &[u8],
) -> Status
    requires { (0 < workers.number) × (workers.number ≤ 16) }
    ensures done { result ≡ Status.Done → (p : Program) × (program_spelled bytes.now ≡ Ok p) }
    ensures certain { certain ≡ true → result ≡ Status.Done → Certifies bytes.now (λ r. ⊤) }
    ensures usage { result ≢ Status.Usage }
{
    let (alloc, mut out, mut faults) = (rt.alloc(), rt.stdout(), rt.stderr());
    if certain {
        certain_on(workers, alloc, bytes, &mut out, &mut faults, trace_out)
    } else {
        run_on(workers, alloc, bytes, &mut out, &mut faults, trace_out)
    }
}

/// Runs the program that the reader gives by workers, keeps no events, and prints the counts on standard
/// output. If `progress` is wanted, how fast the run goes is said on standard error.
fn live<H: Threads + Wait + Sync, R: Read>(
    rt: &HostRuntime,
    workers: Workers<'_, H>,
    progress: bool,
    reader: &mut R,
) -> Status
    requires { (0 < workers.number) × (workers.number ≤ 16) }
    ensures done { result ≡ Status.Done → IfSome (R.remaining reader.old) (λ all.
        (p : Program) × (program_spelled all ≡ Ok p)) }
    ensures usage { result ≢ Status.Usage }
{
    let (alloc, mut reads) = (rt.alloc(), Reads::none());
    match bytes_of(alloc, reader, &mut reads, text_jobs::MOST_PROGRAM_BYTES) {
        Ok(bytes) => live_bytes(rt, workers, progress, &bytes),
        Err(failure) => failed(rt, failure),
    }
}

/// Runs the program of these bytes by workers, keeps no events, and prints the counts on standard output.
fn live_bytes<H: Threads + Wait + Sync>(
    rt: &HostRuntime,
    workers: Workers<'_, H>,
    progress: bool,
    bytes: &[u8],
) -> Status
    requires { (0 < workers.number) × (workers.number ≤ 16) }
    ensures done { result ≡ Status.Done → (p : Program) × (program_spelled bytes.now ≡ Ok p) }
    ensures usage { result ≢ Status.Usage }
{
    let (alloc, mut out, mut faults) = (rt.alloc(), rt.stdout(), rt.stderr());
    if progress {
        let speed = Speed::new(rt);
        live_on(workers, alloc, bytes, &speed, &mut out, &mut faults)
    } else {
        live_on(workers, alloc, bytes, &Silent, &mut out, &mut faults)
    }
}

/// Certifies the program that the reader gives, and prints the report of each of its runs on standard
/// output.
fn certify<R: Read>(rt: &HostRuntime, reader: &mut R) -> Status
    ensures done { result ≡ Status.Done → IfSome (R.remaining reader.old) (λ all.
        (p : Program) × (program_spelled all ≡ Ok p)) }
    ensures usage { result ≢ Status.Usage }
{
    let (alloc, mut reads) = (rt.alloc(), Reads::none());
    match bytes_of(alloc, reader, &mut reads, text_jobs::MOST_PROGRAM_BYTES) {
        Ok(bytes) => {
            let (mut out, mut faults) = (rt.stdout(), rt.stderr());
            certify_on(alloc, &bytes, &mut out, &mut faults)
        }
        Err(failure) => failed(rt, failure),
    }
}

/// When the report of a judge is told, by the words.
fn every_of(every: Option<command_words::Every>) -> Option<Every>
    ensures none { every ≡ None → result ≡ None }
    ensures events { (n : ℕ) → every ≡ Some (asked.Events n) → result ≡ Some (Every.Events n) }
    ensures seconds { (n : ℕ) → every ≡ Some (asked.Seconds n) → result ≡ Some (Every.Seconds n) }
{
    match every? {
        command_words::Every::Events(events) => Some(Every::Events(events)),
        command_words::Every::Seconds(seconds) => Some(Every::Seconds(seconds)),
    }
}

/// Judges the log that the reader gives, and prints the report on standard output.
fn judge<R: Read>(rt: &HostRuntime, every: Option<Every>, reader: &mut R) -> Status
    ensures done { result ≡ Status.Done → IfSome (R.remaining reader.old) (λ all.
        (j : Judged) × (judged_log all ≡ Ok j)) }
    ensures usage { result ≢ Status.Usage }
{
    let (mut out, mut faults) = (rt.stdout(), rt.stderr());
    let mut writes = Writes::none();
    judge_from(
        rt.alloc(),
        reader,
        &mut writes,
        &mut out,
        &mut faults,
        every,
        rt,
    )
}

/// Runs the stencil, and prints its cells on standard output.
fn stencil<H: Threads + Wait + Sync>(
    rt: &HostRuntime,
    workers: Workers<'_, H>,
    first: &[u32],
    steps: u32,
) -> Status
    requires few { length first.now ≤ 16 }
    requires workers { (0 < workers.number) × (workers.number ≤ 16) }
    ensures usage { result ≢ Status.Usage }
{
    let (alloc, mut out, mut faults) = (rt.alloc(), rt.stdout(), rt.stderr());
    stencil_on(workers, alloc, first, steps, &mut out, &mut faults)
}

/// Runs the stencil, keeps no events, and prints its cells and the counts on standard output. If
/// `progress` is wanted, how fast the run goes is said on standard error.
fn live_stencil<H: Threads + Wait + Sync>(
    rt: &HostRuntime,
    workers: Workers<'_, H>,
    first: &[u32],
    steps: u32,
    progress: bool,
) -> Status
    requires few { length first.now ≤ 16 }
    requires workers { (0 < workers.number) × (workers.number ≤ 16) }
    ensures usage { result ≢ Status.Usage }
{
    let (alloc, mut out, mut faults) = (rt.alloc(), rt.stdout(), rt.stderr());
    if progress {
        let speed = Speed::new(rt);
        live_stencil_on(workers, alloc, first, steps, &speed, &mut out, &mut faults)
    } else {
        live_stencil_on(workers, alloc, first, steps, &Silent, &mut out, &mut faults)
    }
}

/// Runs the pipeline, keeps no events, and prints its items and the counts on standard output. If
/// `progress` is wanted, how fast the run goes is said on standard error.
fn live_pipeline<H: Threads + Wait + Sync>(
    rt: &HostRuntime,
    workers: Workers<'_, H>,
    size: PipelineSize,
    progress: bool,
) -> Status
    requires stages { size.stages ≤ 15 }
    requires items { size.items ≤ 2000000000 }
    requires workers { (0 < workers.number) × (workers.number ≤ 16) }
    ensures usage { result ≢ Status.Usage }
{
    let (alloc, mut out, mut faults) = (rt.alloc(), rt.stdout(), rt.stderr());
    if progress {
        let speed = Speed::new(rt);
        live_pipeline_on(workers, alloc, size, &speed, &mut out, &mut faults)
    } else {
        live_pipeline_on(workers, alloc, size, &Silent, &mut out, &mut faults)
    }
}

/// Runs the pipeline, and prints its items on standard output.
fn pipeline<H: Threads + Wait + Sync>(
    rt: &HostRuntime,
    workers: Workers<'_, H>,
    size: PipelineSize,
) -> Status
    requires stages { size.stages ≤ 15 }
    requires items { size.items ≤ 100 }
    requires workers { (0 < workers.number) × (workers.number ≤ 16) }
    ensures usage { result ≢ Status.Usage }
{
    let (alloc, mut out, mut faults) = (rt.alloc(), rt.stdout(), rt.stderr());
    pipeline_on(workers, alloc, size, &mut out, &mut faults)
}

/// Replays the trace that the reader gives, and writes it to OUT, if that is named.
fn replay<R: Read>(rt: &HostRuntime, out_name: Option<&str>, reader: &mut R) -> Status
    ensures done { result ≡ Status.Done → IfSome (R.remaining reader.old) (λ all. Explains all (λ t. ⊤)) }
    ensures usage { result ≢ Status.Usage }
{
    let Some(name) = out_name else {
        return replay_into(rt, &mut None::<Upgraded>, reader);
    };
    match Upgraded::named(rt, name) {
        Ok(out) => replay_into(rt, &mut Some(out), reader),
        Err(failure) => failed(rt, failure),
    }
}

/// Replays the trace that the reader gives, and prints the report on standard output.
fn replay_into<R: Read>(
    rt: &HostRuntime,
    trace_out: &mut Option<Upgraded<'_>>,
    reader: &mut R,
) -> Status
    ensures done { result ≡ Status.Done → IfSome (R.remaining reader.old) (λ all. Explains all (λ t. ⊤)) }
    ensures usage { result ≢ Status.Usage }
{
    let (alloc, mut reads) = (rt.alloc(), Reads::none());
    match bytes_of(alloc, reader, &mut reads, text_jobs::MOST_TRACE_BYTES) {
        Ok(bytes) => {
            let (mut out, mut faults) = (rt.stdout(), rt.stderr());
            replay_on(alloc, &bytes, &mut out, &mut faults, trace_out)
        }
        Err(failure) => failed(rt, failure),
    }
}
