//! Runs tasks by workers without a store, and prints what can be known of such a run of a program's text.
ghost use Rattle.std.specs.Prelude.{◌≡◌, ◌≢◌, ◌<◌, ◌≤◌, None, Ok, OnOk, IfOk, IfErr};
ghost use Rattle.std.specs.Io.KnownBytes.{Appends, Keeps};
ghost use Rattle.std.specs.String.{string_bytes};
ghost use Rattle.job_script.specs.Program.{Program as Programs};
ghost use Rattle.job_ends.specs.Ends.{status_of, ReportsStatus};
ghost use Rattle.text_jobs.specs.Texts.{program_spelled};
ghost use Rattle.live_rt.specs.Gone.{AreAllGone};
ghost use Rattle.tasks_in_flight.specs.Refused.{IsRunRefused};
ghost use Rattle.run_jobs.specs.Living.{RunsLive, live_text};
ghost use Rattle.run_jobs.specs.Worked.{IsOfRun};

use crate::row::{Leaves, Row};
use job_ends::{Failure, Status, put_text};
use job_script::{Act, Answer};
use live_rt::{Body, Counts, Ends, OpenGate, Pulses, run_live};
use phase_model::Bound;
use phase_modes::Refusal;
use phased_rt::Workers;
use std::alloc::Global;
use std::fmt;
use std::io::Write;
use std::sync::Wait;
use std::sync::atomic::{AtomicU8, Ordering};
use std::thread::Threads;
use text_jobs::program_of;

/// A body whose phasers all have a bound, and the row in which it leaves its values.
#[derive(Drop)]
struct Bounded<'r, B> {
    body: B,
    row: &'r Row,
}

/// The bound, or so many phases if there is none.
fn some_bound(bound: Option<Bound>, far: u32) -> Option<Bound> {
    match bound {
        Some(bound) => Some(bound),
        None => Bound::of(far),
    }
}

/// The same act, by which each phaser has a bound: so many phases if the act gives none.
fn with_bounds<'r, B: Body>(act: Act<B>, far: u32, row: &'r Row) -> Act<Bounded<'r, B>> {
    match act {
        Act::Async(body, pairs) => Act::Async(Bounded { body, row }, pairs),
        Act::AsyncAll(body) => Act::AsyncAll(Bounded { body, row }),
        Act::OpenFinish => Act::OpenFinish,
        Act::ShutFinish => Act::ShutFinish,
        Act::New(mode, ops, bound) => Act::New(mode, ops, some_bound(bound, far)),
        Act::Signal => Act::Signal,
        Act::Wait => Act::Wait,
        Act::Next => Act::Next,
        Act::NextSingle(number) => Act::NextSingle(number),
        Act::Send(phaser, accumulator, value) => Act::Send(phaser, accumulator, value),
        Act::Look(phaser, accumulator) => Act::Look(phaser, accumulator),
        Act::End => Act::End,
    }
}

impl<'r, B: Leaves> Body for Bounded<'r, B> {
    fn step(&mut self, answer: Answer) -> Result<Act<Bounded<'r, B>>, Refusal> {
        self.body.hears(answer, self.row);
        match self.body.step(answer) {
            Ok(act) => Ok(with_bounds(act, self.body.far(), self.row)),
            Err(refusal) => Err(refusal),
        }
    }

    fn single(&mut self, number: u32) {
        self.body.single(number);
    }
}

/// Is told how far a run is, while it goes on.
pub trait Progress {
    /// A worker has driven a task for a stretch, of at most 64 events.
    fn beat(&self, pulses: &Pulses);
}

/// Shows nothing.
#[derive(Drop)]
pub struct Silent;

impl Progress for Silent {
    fn beat(&self, _pulses: &Pulses) {}
}

/// Whoever is told of the tasks.
#[derive(Drop)]
struct Told<'a, P> {
    progress: &'a P,
    /// The number of what a task was refused, the root aside: of the first of which was heard. 0 if none was.
    refused: AtomicU8,
}

impl<'a, 'r, B: Leaves, P: Progress> Ends<Bounded<'r, B>> for Told<'a, P> {
    fn ended(&self, body: Bounded<'r, B>, refused: Option<Refusal>) {
        body.body.ends(body.row);
        if let Some(refusal) = refused {
            let number = refusal.number();
            let _first = self
                .refused
                .compare_exchange(0, number, Ordering::SeqCst, Ordering::SeqCst);
        }
    }

    fn beat(&self, pulses: &Pulses) {
        self.progress.beat(pulses);
    }
}

/// What is known of a run that is over.
#[derive(Drop)]
pub(crate) struct Lived {
    pub(crate) counts: Counts,
    /// What a task was refused, if one ended by that: the root, or else the first of which was heard.
    pub(crate) refused: Option<Refusal>,
}

/// What a task was refused, by how many were refused something, what the root was, and the number of
/// what was heard of first. A number that is none is taken for a run that can't be told.
fn first_refusal(tasks: u64, root: Option<Refusal>, heard: u8) -> Option<Refusal>
    ensures none { result ≡ None → tasks ≡ 0 }
    ensures some { tasks ≡ 0 → result ≡ None }
{
    if tasks == 0 {
        return None;
    }
    match root.or(Refusal::of_number(heard)) {
        Some(refusal) => Some(refusal),
        None => Some(Refusal::NotExplained(0)),
    }
}

/// Runs the root, and all that comes of it, by these workers without a store. Values are left in the row.
pub(crate) fn live_run<B: Leaves + Send, R: Threads + Wait + Sync, P: Progress + Sync>(
    workers: Workers<'_, R>,
    alloc: Global,
    root: B,
    row: &Row,
    progress: &P,
) -> Result<Lived, Refusal>
    requires { (0 < workers.number) × (workers.number ≤ 16) }
    ensures nobody { IfOk result (λ l. AreAllGone l.counts) }
    ensures all { IfOk result (λ l. l.refused ≡ None → l.counts.refused ≡ 0) }
    ensures refused { IfErr result (λ e. IsRunRefused e) }
{
    let told = Told {
        progress,
        refused: AtomicU8::new(0),
    };
    let room = root.room();
    let root = Bounded { body: root, row };
    let ended = run_live(
        workers.rt,
        alloc,
        root,
        room,
        workers.number,
        &told,
        &OpenGate,
    )?;
    let heard = told.refused.load(Ordering::SeqCst);
    Ok(Lived {
        counts: ended.counts,
        refused: first_refusal(ended.counts.refused, ended.refused, heard),
    })
}

/// The lines of a run without a store: how many tasks, phasers and finishes there were, and the totals.
#[derive(Drop)]
struct Lines {
    counts: Counts,
}

impl fmt::Display for Lines {
    ghost use Rattle.std.specs.Prelude.{Some};
    ghost use Rattle.run_jobs.specs.Living.{live_text};

    ghost output = { λ l. Some (live_text l.counts) };

    fn fmt<W: fmt::Write>(&self, f: &mut fmt::Formatter<W>) -> fmt::Result {
        write!(
            f,
            "tasks {} ended {} refused {}\n",
            self.counts.tasks, self.counts.ended, self.counts.refused
        )?;
        write!(
            f,
            "phasers {}\nfinishes {}\n",
            self.counts.phasers, self.counts.finishes
        )?;
        write!(f, "{}\n", self.counts.totals)
    }
}

/// The lines of a run of these counts.
pub(crate) fn lines_of(alloc: Global, counts: Counts) -> Result<String, Refusal>
    ensures lines { IfOk result (λ text. string_bytes text ≡ live_text counts) }
    ensures memory { IfErr result (λ e. e ≡ Refusal.Memory) }
{
    let lines = Lines { counts };
    match lines.to_string(alloc) {
        Ok(text) => Ok(text),
        Err(_) => Err(Refusal::Memory),
    }
}

/// Reads a program's text, runs the program by these workers without a store, and writes what is counted
/// of it. Nothing is written before the run is over. More than 1,048,576 bytes are refused at place 0.
pub fn live_bytes<R: Threads + Wait + Sync, W: Write, P: Progress + Sync>(
    workers: Workers<'_, R>,
    alloc: Global,
    input: &[u8],
    progress: &P,
    out: &mut W,
) -> Result<(), Failure>
    requires { (0 < workers.number) × (workers.number ≤ 16) }
    ensures done { OnOk result (RunsLive input.now (λ c. Appends (W.contents out.old) (W.contents out.new) (live_text c))) }
    ensures refused { IfErr result (λ f. status_of f ≡ Status.Refused → Keeps (W.contents out.old) (W.contents out.new)) }
    ensures failure { IfErr result (IsOfRun input.now) }
{
    let program = program_of(alloc, input)?;
    let row = Row::new(alloc, 0)?;
    let lived = live_run(workers, alloc, program.root(), &row, progress)?;
    let lines = lines_of(alloc, lived.counts)?;
    put_text(out, lines.as_str())?;
    Ok(())
}

/// Runs a program's text whose bytes are here by these workers, without a store. The line of a failure
/// goes to `faults`; if it can't be written, the status stays what it is.
pub fn live_on<R: Threads + Wait + Sync, W: Write, F: Write, P: Progress + Sync>(
    workers: Workers<'_, R>,
    alloc: Global,
    input: &[u8],
    progress: &P,
    out: &mut W,
    faults: &mut F,
) -> Status
    requires { (0 < workers.number) × (workers.number ≤ 16) }
    ensures done { result ≡ Status.Done → RunsLive input.now (λ c. Appends (W.contents out.old) (W.contents out.new) (live_text c)) }
    ensures quiet { result ≡ Status.Done → Keeps (F.contents faults.old) (F.contents faults.new) }
    ensures refused { result ≡ Status.Refused → Keeps (W.contents out.old) (W.contents out.new) }
    ensures fault { result ≡ Status.Fault → (p : Programs) × (program_spelled input.now ≡ Ok p) }
    ensures reported { result ≢ Status.Done → ReportsStatus (IsOfRun input.now) result
        (F.contents faults.old) (F.contents faults.new) }
    ensures usage { result ≢ Status.Usage }
{
    match live_bytes(workers, alloc, input, progress, out) {
        Ok(()) => Status::Done,
        Err(failure) => failure.end(alloc, faults).status,
    }
}
