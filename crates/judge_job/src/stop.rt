//! Why judging stopped, and in plain words why a line isn't accepted.
ghost use Rattle.std.specs.Prelude.{◌≡◌, ◌<◌, ◌++◌, codes, decimal, length, flat_map};
ghost use Rattle.std.specs.Fmt.{WritesOnOk};
ghost use Rattle.judge_job.specs.Endings.{failure_of, refusal_at};
ghost use Rattle.judge_job.specs.Words.{before_last, child_of, closing_text, event_text, last_text, list_text, next_text, open_text, reason_text, refusal_words, seen_text, task_of, tasks_text, wait_text};

use job_ends::Failure;
use phase_model::{LongLook, Look};
use phase_modes::Refusal;
use phaser_judge::{Named, NamedEvent, Owing, Refused};
use std::fmt;

/// Why judging stopped before the end of the log.
#[derive(Clone, Copy, Debug, PartialEq, Eq)]
pub(crate) enum Stop {
    /// The line of this number isn't accepted, for this reason.
    Line(u64, Reason),
    /// A read or a write failed, or there is no memory.
    Failed(Failure),
}

/// Why a line isn't accepted.
#[derive(Clone, Copy, Debug, PartialEq, Eq)]
pub(crate) enum Reason {
    /// It isn't the header.
    NoHeader,
    /// It is no event.
    NoEvent,
    /// It has too many bytes.
    TooLong,
    /// This ticket isn't greater than the one before.
    Ticket(u64),
    /// This event can't happen there, for this reason.
    Event(NamedEvent, Refused),
}

impl Reason {
    /// The refusal of the line of this number.
    pub(crate) fn refusal(&self, place: u64) -> Refusal
        ensures { result ≡ refusal_at place self.now }
    {
        match self {
            Reason::NoHeader | Reason::NoEvent | Reason::TooLong => Refusal::BadText(place),
            Reason::Ticket(_) | Reason::Event(..) => Refusal::NotExplained(place),
        }
    }
}

/// The acting task.
fn task_of(event: &Named) -> u64
    ensures { result ≡ task_of event.now }
{
    match *event {
        Named::Make(task, ..)
        | Named::Reg(task, ..)
        | Named::Sig(task, _)
        | Named::Claim(task)
        | Named::Did(task)
        | Named::Pass(task)
        | Named::Send(task, ..)
        | Named::Look(task, ..)
        | Named::Drop(task) => task,
    }
}

/// The child that an event registers; of other events the acting task.
fn child_of(event: &Named) -> u64
    ensures { result ≡ child_of event.now }
{
    match *event {
        Named::Reg(_, child, _) => child,
        _ => task_of(event),
    }
}

/// What the phaser's refusal of a call means.
fn words_of(refusal: Refusal) -> &'static str
    ensures { result.now ≡ refusal_words refusal }
{
    match refusal {
        Refusal::NotRegistered => "it isn't registered there",
        Refusal::NoSignal => "its mode can't signal",
        Refusal::NoWait => "its mode can't wait",
        Refusal::NoSingle => "its mode isn't SINGLE",
        Refusal::AlreadySignalled => "it has signalled since its last turn",
        Refusal::NotSignalled => "it hasn't signalled its phase",
        Refusal::SingleMismatch =>
            "another single is proposed in this phase, or another task runs it",
        Refusal::NoAccumulator => "the phaser has no accumulator of that number",
        Refusal::NoPhaseYet => "it hasn't finished a turn there yet",
        Refusal::MoreThanParent => "the child's mode isn't within its own",
        Refusal::RegisteredTwice => "the child is registered there already",
        Refusal::RegsFull => "the phaser has its most tasks, 256",
        Refusal::NotNow => "this isn't the moment for it",
        _ => "the phaser refuses it",
    }
}

/// How many of so many tasks stand before the last word of their list.
fn before_last(tasks: usize) -> usize
    ensures { result ≡ before_last tasks }
{
    if tasks > 9 {
        8
    } else if tasks > 0 {
        tasks - 1
    } else {
        0
    }
}

/// The tasks between the first and the last word of their list.
fn write_next<W: fmt::Write>(f: &mut fmt::Formatter<W>, tasks: &[u64]) -> fmt::Result
    ensures { WritesOnOk W.write_str_gives f.old result (flat_map next_text tasks.now) f.new }
{
    for task in tasks {
        write!(f, ", {task}")?;
    }
    Ok(())
}

/// The last word of a list: the last task, or how many more there are.
fn write_last<W: fmt::Write>(f: &mut fmt::Formatter<W>, tasks: &[u64]) -> fmt::Result
    requires { 0 < length tasks.now }
    ensures { WritesOnOk W.write_str_gives f.old result (last_text tasks.now) f.new }
{
    if tasks.len() <= 9 {
        return write!(f, " and {}", tasks[tasks.len() - 1]);
    }
    write!(f, " and {} more", tasks.len() - 8)
}

/// Several tasks by their numbers, as `tasks 1, 2 and 3`; of more than nine the first eight.
fn write_list<W: fmt::Write>(f: &mut fmt::Formatter<W>, tasks: &[u64]) -> fmt::Result
    requires { 1 < length tasks.now }
    ensures { WritesOnOk W.write_str_gives f.old result (list_text tasks.now) f.new }
{
    let before = before_last(tasks.len());
    write!(f, "tasks {}", tasks[0])?;
    write_next(f, &tasks[1..before])?;
    write_last(f, tasks)
}

/// Tasks that haven't signalled.
fn write_tasks<W: fmt::Write>(f: &mut fmt::Formatter<W>, tasks: &[u64]) -> fmt::Result
    requires { 0 < length tasks.now }
    ensures { WritesOnOk W.write_str_gives f.old result (tasks_text tasks.now) f.new }
{
    if tasks.len() == 1 {
        return write!(f, "task {} hasn't", tasks[0]);
    }
    write_list(f, tasks)?;
    write!(f, " haven't")
}

/// For which tasks a pass or a claim had to wait.
fn write_open<W: fmt::Write>(f: &mut fmt::Formatter<W>, phaser: u64, owing: &Owing) -> fmt::Result
    requires { 0 < length owing.now.tasks.items }
    ensures { WritesOnOk W.write_str_gives f.old result (open_text phaser owing.now) f.new }
{
    write!(f, "phase {} of phaser {phaser} isn't closed: ", owing.phase)?;
    write_tasks(f, owing.tasks.as_slice())?;
    write!(f, " signalled it")
}

/// Why a pass or a claim had to wait.
fn write_closing<W: fmt::Write>(
    f: &mut fmt::Formatter<W>,
    phaser: u64,
    task: u64,
    owing: &Owing,
) -> fmt::Result
    ensures { WritesOnOk W.write_str_gives f.old result (closing_text phaser task owing.now) f.new }
{
    if !owing.tasks.is_empty() {
        return write_open(f, phaser, owing);
    }
    write!(
        f,
        "task {task} had to wait: the single of its phase of phaser {phaser} isn't done"
    )
}

/// Why the event had to wait.
fn write_wait<W: fmt::Write>(
    f: &mut fmt::Formatter<W>,
    phaser: u64,
    event: &Named,
    owing: &Owing,
) -> fmt::Result
    ensures { WritesOnOk W.write_str_gives f.old result (wait_text phaser event.now owing.now) f.new }
{
    match event {
        Named::Sig(task, _) => write!(
            f,
            "task {task} had to wait: the bound of phaser {phaser} holds its signal back"
        ),
        _ => write_closing(f, phaser, task_of(event), owing),
    }
}

/// What a look would have seen.
fn write_seen<W: fmt::Write>(f: &mut fmt::Formatter<W>, seen: LongLook) -> fmt::Result
    ensures { WritesOnOk W.write_str_gives f.old result (seen_text seen) f.new }
{
    match seen {
        Look::Value(value) => write!(f, "the value {value}"),
        Look::Nothing => write!(f, "nothing, null"),
    }
}

/// What a look of the task would have seen.
fn write_saw<W: fmt::Write>(f: &mut fmt::Formatter<W>, task: u64, seen: LongLook) -> fmt::Result
    ensures { WritesOnOk W.write_str_gives f.old result
        ((codes "task " ++ decimal task ++ codes " would have seen ") ++ seen_text seen) f.new }
{
    write!(f, "task {task} would have seen ")?;
    write_seen(f, seen)
}

/// Why the event can't happen.
fn write_event<W: fmt::Write>(
    f: &mut fmt::Formatter<W>,
    phaser: u64,
    event: &Named,
    refused: Refused,
    owing: &Owing,
) -> fmt::Result
    ensures { WritesOnOk W.write_str_gives f.old result (event_text phaser event.now refused owing.now) f.new }
{
    let task = task_of(event);
    match refused {
        Refused::NotMade => write!(
            f,
            "phaser {phaser} isn't made, or its last task has left it"
        ),
        Refused::MadeAlready => write!(f, "phaser {phaser} is made already"),
        Refused::NotRegistered => write!(f, "task {task} isn't registered on phaser {phaser}"),
        Refused::RegisteredAlready => {
            let child = child_of(event);
            write!(f, "task {child} is registered on phaser {phaser} already")
        }
        Refused::Rule(refusal) => {
            let words = words_of(refusal);
            write!(f, "task {task} can't do this on phaser {phaser}: {words}")
        }
        Refused::HadToWait => write_wait(f, phaser, event, owing),
        Refused::ClaimsInstead => write!(f, "task {task} had a single to claim, and couldn't pass"),
        Refused::PassesInstead => write!(f, "task {task} had no single to claim"),
        Refused::SawOther(seen) => write_saw(f, task, seen),
        Refused::Memory => write!(f, "out of memory"),
        Refused::Over => write!(f, "an event before it was refused"),
    }
}

/// Why a line isn't accepted.
fn write_reason<W: fmt::Write>(
    f: &mut fmt::Formatter<W>,
    reason: &Reason,
    owing: &Owing,
) -> fmt::Result
    ensures { WritesOnOk W.write_str_gives f.old result (reason_text reason.now owing.now) f.new }
{
    match reason {
        Reason::NoHeader => write!(f, "this isn't the header {{\"version\":2}}"),
        Reason::NoEvent => write!(
            f,
            "this is not an event: it is cut off, isn't JSON, or has an unknown word, a number out of range, or the wrong number of items"
        ),
        Reason::TooLong => write!(f, "this line has more than 65,536 bytes"),
        Reason::Ticket(ticket) => {
            write!(
                f,
                "ticket {ticket} isn't greater than that of the line before"
            )
        }
        Reason::Event(event, refused) => {
            write_event(f, event.phaser, &event.event, *refused, owing)
        }
    }
}

/// Why the line of this number isn't accepted, and for which tasks its event had to wait, if it did.
#[derive(Clone, Copy)]
pub(crate) struct Why<'a> {
    pub(crate) place: u64,
    pub(crate) reason: &'a Reason,
    pub(crate) owing: &'a Owing,
}

impl fmt::Display for Why<'_> {
    ghost use Rattle.std.specs.Prelude.{Some};
    ghost use Rattle.judge_job.specs.Words.{why_text};

    ghost output = { λ w. Some (why_text w.place w.reason.now w.owing.now) };

    fn fmt<W: fmt::Write>(&self, f: &mut fmt::Formatter<W>) -> fmt::Result {
        write!(f, "line {}: ", self.place)?;
        write_reason(f, self.reason, self.owing)?;
        write!(f, "\n")
    }
}
