//! The words of the command line, as `clap` reads them.
ghost use Rattle.std.specs.Prelude.{◌≡◌, ◌≢◌, List, Some, map, false, option_map, codes, IfErr, IfOk, MatchResult};
ghost use Rattle.clap.specs.Words.{app_of, found_of, kind_of, new_app, rows_of, rule_of, with_rule, with_subcommand};
ghost use Rattle.clap.specs.declared.builder.command.Command.TheViews.{out-Command as fields_of};
ghost use Rattle.command_words.specs.CommandLine.{Asked, asked_among, asked_by, asked_in, bare_app, certify_app, events_app, file_rule, filed_among, filed_app, flag_rule, has_flag, judge_app, needed_rule, option_rule, pipeline_among, pipeline_app, program_app, replay_app, run_app, running_app, schedule_app, stencil_among, stencil_app, traced_app, with_workers};

use crate::command_line::{NoJob, Value};
use clap::error::ErrorKind;
use clap::{Arg, ArgAction, ArgMatches, Command};
use std::alloc::{AllocError, Global};

/// A command, with its words.
#[derive(Clone, Copy)]
pub(crate) enum Words<'a> {
    Events {
        file: &'a str,
    },
    Schedule {
        file: &'a str,
        picks: Option<&'a str>,
        trace: Option<&'a str>,
    },
    Run {
        file: &'a str,
        workers: Option<&'a str>,
        trace: Option<&'a str>,
        certain: bool,
        live: bool,
        progress: bool,
    },
    Replay {
        file: &'a str,
        upgrade: Option<&'a str>,
    },
    Certify {
        file: &'a str,
    },
    Judge {
        file: &'a str,
        every: Option<&'a str>,
    },
    Stencil {
        first: &'a str,
        steps: &'a str,
        workers: Option<&'a str>,
        live: bool,
        progress: bool,
    },
    Pipeline {
        stages: &'a str,
        items: &'a str,
        workers: Option<&'a str>,
        live: bool,
        progress: bool,
    },
}

/// The result of an error in reading arguments.
fn no_job_for(error: clap::Error) -> NoJob
    ensures memory { kind_of error ≡ ErrorKind.OutOfMemory → result ≡ NoJob.Memory }
    ensures no_value { (v : Value) → result ≢ NoJob.BadValue v }
{
    match error.kind() {
        ErrorKind::OutOfMemory => NoJob::Memory,
        _ => NoJob::Arguments(error),
    }
}

/// What `--version` says after the program's name.
const VERSION: &str = "0.1.0";

/// What `events --help` says of the file and of the lines.
const EVENTS_HELP: &str = "\
The file is JSON: {\"limits\":{..},\"accs\":[..],\"bound\":b,\"calls\":[..]}, at most 1,048,576 bytes.
Limits, all optional: acts, finishes, history, phasers, regs, tasks.
Accumulators, optional: up to four of \"sum\", \"least\", \"greatest\". The bound, optional: 1 to 65536.
Calls, with task numbers t and q, and a mode SIG, WAIT, SIG_WAIT or SINGLE:
  [\"make\",t,mode]   [\"reg\",q,t,mode]   [\"sig\",t]   [\"sig\",t,number]
  [\"pass\",t]   [\"did\",t]   [\"send\",t,acc,value]   [\"look\",t,acc]   [\"drop\",t]
Lines: ok, ok phase P, claim N, value V, none, not yet, refused NUMBER NAME.
A file that isn't of this form is refused whole: refused 24 BadText at PLACE,
with the number of the first bad call, or 0.
Exit status: 0 done, 1 refused, 2 bad words or this help, 3 a read or a write failed.";

/// What `schedule --help` says of the file, the picks and the lines.
const SCHEDULE_HELP: &str = "\
The file is JSON: {\"limits\":{..},\"main\":[acts]}, at most 1,048,576 bytes.
Limits, all optional: acts, finishes, history, phasers, regs, tasks.
Acts, with a phaser's name, a mode SIG, WAIT, SIG_WAIT or SINGLE, and numbers:
  [\"new\",name,mode,[\"sum\",\"least\",\"greatest\"],bound]   [\"async\",[[name,mode],..],[acts]]
  [\"async_all\",[acts]]   [\"open\"]   [\"shut\"]   [\"signal\"]   [\"wait\"]   [\"next\"]
  [\"single\",number]   [\"send\",name,acc,value]   [\"look\",name,acc]   [\"repeat\",times,[acts]]
The bound of new, 1 to 65536, may be left out.
A pick is the number of a task, which makes one event, if it can. After LIST the tasks are picked
by number, round after round, until all have ended.
Lines: phaser N phases K, its folds, task T ended or refused, finish F tasks N, totals.
A file that isn't of this form is refused whole: refused 24 BadText at PLACE,
with the number of the first bad act, or 0.
Exit status: 0 done, 1 refused, 2 bad words or this help, 3 a read or a write failed.";

/// What `schedule --help` says of LIST.
const PICKS_HELP: &str =
    "The tasks that are picked first: 1 to 10,000 numbers with commas between them";

/// What `run --help` says of the file and of the lines.
const RUN_HELP: &str = "\
The file is a program, as in schedule --help. N workers, each a thread, run its tasks. Then the trace
of the run is replayed, and the report is that of the replay.
Lines: phaser N phases K, its folds, task T ended or refused, finish F tasks N, totals.
With --certain the program is certified first, as in certify --help. The line certain comes last.
A program that isn't certain isn't run.
With --live nothing is replayed. Lines: tasks T ended E refused R, phasers P, finishes F, totals.
A file that isn't a program is refused whole: refused 24 BadText at PLACE, with the number of the
first bad act, or 0.
Exit status: 0 done, 1 refused or not certain, 2 bad words or this help, 3 a read or a write failed.";

/// What `run --help` says of the flag `--certain`.
const CERTAIN_HELP: &str =
    "Run FILE only if certify says that every run of it prints the same report";

/// What `run --help` says of the flag `--live`.
const LIVE_HELP: &str =
    "Keep no events: any number of tasks and phases, no trace, and only the counts are printed";

/// What `stencil --help` says of the flag `--live`.
const LIVE_STENCIL_HELP: &str = "Keep no events: up to 4,294,967,295 steps";

/// What `pipeline --help` says of the flag `--live`.
const LIVE_PIPELINE_HELP: &str = "Keep no events: up to 2,000,000,000 items";

/// What the help says of the flag `--progress`.
const PROGRESS_HELP: &str = "Print progress to standard error once a second";

/// What the options `--trace` say of OUT.
const TRACE_HELP: &str =
    "Write the trace into this file, which is made or emptied first, even if FILE is then refused";

/// What the options `--workers` say of N.
const WORKERS_HELP: &str = "Number of threads, 1 to 16 [default: 2]";

/// What `stencil --help` says of the kernel and of the lines.
const STENCIL_HELP: &str = "\
Each cell is a task with a phaser of its own, and looks at those of its neighbours. In a step a cell
becomes a quarter, rounded down, of twice itself and its neighbours; outside the row a cell is 0.
Lines: cells and the values after the last step, totals. If a task is refused, as for want of history,
the run is refused: refused NUMBER NAME.
With --live nothing is replayed. Lines: cells, tasks T ended E refused R, phasers P, finishes F, totals.
Exit status: 0 done, 1 refused, 2 bad words or this help, 3 a read or a write failed.";

/// What `pipeline --help` says of the kernel and of the lines.
const PIPELINE_HELP: &str = "\
Items 1, 2, 3 and so on go through stages, each a task that adds its own number, 1 to K.
Lines: items and the values after the last stage, totals. If a task is refused, the run is refused:
refused NUMBER NAME.
With --live nothing is replayed. Lines: items, tasks T ended E refused R, phasers P, finishes F, totals.
Exit status: 0 done, 1 refused, 2 bad words or this help, 3 a read or a write failed.";

/// What the option `--steps` says of S.
const STEPS_HELP: &str = "Number of steps, 0 to 100, or more with --live";

/// What the option `--items` says of N.
const ITEMS_HELP: &str = "Number of items, 0 to 100, or more with --live";

/// What `replay --help` says of the file and of the lines.
const REPLAY_HELP: &str = "\
The file is the trace of schedule or run, of version 1 or 2, at most 67,108,864 bytes. Its events are
made again one by one.
Lines: the report of the run. A trace that no run makes is refused: refused 25 NotExplained at
PLACE, with the number of the first event that can't be made there. OUT stays as it was then.
Exit status: 0 done, 1 refused, 2 bad words or this help, 3 a read or a write failed.";

/// What the option `--upgrade` says of OUT.
const UPGRADE_HELP: &str =
    "Write the trace as version 2 into this file, which may be FILE, before the report";

/// What `certify --help` says of the file and of the lines.
const CERTIFY_HELP: &str = "\
The file is a program, as in schedule --help. It is run once, without threads. If luck has no part in
that run, every run that has memory and draws the least free numbers prints the same report, by any
number of workers and in any order of the tasks. Luck has a part in a refusal, in a number of a kind
that several tasks draw, and in a registration on a phaser that has had as many tasks as it may have.
Lines: those of the report, and then: certain. Otherwise none, and on standard error the first event in
which luck has a part, by its place in the trace that schedule writes: luck at PLACE: task T refused
NUMBER NAME, task T draws phaser N, or task T registers task C on phaser N.
A file that isn't a program is refused whole: refused 24 BadText at PLACE.
Exit status: 0 certain, 1 refused or not certain, 2 bad words or this help, 3 a read or a write failed.";

/// What `judge --help` says of the log and of the lines.
const JUDGE_HELP: &str = "\
The log is read and judged line by line, as it comes. Its first line is {\"version\":2}. Each other line
is an event, a list as in a trace, such as [TICKET,\"p\",PHASER,\"sig\",TASK], at most 65,536 bytes. Tickets
rise. Phasers and tasks go by any numbers of 0 to 18446744073709551615.
Lists with \"t\" or \"f\" in place of \"p\", acts of tasks and finishes, aren't judged.
Lines: events E, phasers made P there L, totals.
The first event that can't happen there is refused, with the lines of what was judged before it: refused
25 NotExplained at PLACE, with the number of its line, and on a second line why. A line that is no event
is refused 24 BadText at PLACE.
The seconds of --every are looked at when an event has come: while none comes, nothing is printed.
Exit status: 0 done, 1 refused, 2 bad words or this help, 3 a read or a write failed.";

/// What the option `--every` says of N.
const EVERY_HELP: &str =
    "Print the lines so far to standard error after each N events, or with 5s each 5 seconds";

/// What `--help` says of the exit status.
const PROGRAM_HELP: &str = "\
Exit status: 0 done, 1 refused (a bad text, a trace that no run makes, a log with an event that can't
happen, a program that isn't certain, or memory ran out), 2 bad words, help or version, 3 a read or a write failed.";

/// FILE, which has to be there.
fn file_argument<'a>(alloc: Global, help: &'a str) -> Arg<'a>
    ensures rule { rule_of result ≡ file_rule }
    ensures local { result.global ≡ false }
{
    Arg::new(alloc, "file")
        .value_name("FILE")
        .help(help)
        .required(true)
}

/// `NAME FILE`.
fn file_command<'a>(
    alloc: Global,
    name: &'a str,
    about: &'a str,
    file: &'a str,
    help: &'a str,
) -> Result<Command<'a>, AllocError>
    ensures app { IfOk result (λ c. app_of c ≡ with_rule (new_app name.now) file_rule) }
    ensures local { IfOk result (λ c. (fields_of c).has_globals ≡ false) }
{
    Command::new(alloc, name)
        .about(about)
        .after_help(help)
        .arg(file_argument(alloc, file))
}

/// `events FILE`.
fn events_command<'a>(alloc: Global) -> Result<Command<'a>, AllocError>
    ensures app { IfOk result (λ c. app_of c ≡ events_app) }
    ensures local { IfOk result (λ c. (fields_of c).has_globals ≡ false) }
{
    file_command(
        alloc,
        "events",
        "Apply the calls of an events file to one phaser, and print a line for each",
        "The events file; - reads standard input",
        EVENTS_HELP,
    )
}

/// `--NAME VALUE`, which needn't be there.
fn option<'a>(alloc: Global, name: &'a str, value: &'a str, help: &'a str) -> Arg<'a>
    ensures rule { rule_of result ≡ option_rule name.now }
    ensures local { result.global ≡ false }
{
    Arg::new(alloc, name)
        .long(name)
        .value_name(value)
        .help(help)
}

/// `schedule FILE [--picks LIST]`.
fn picks_command<'a>(alloc: Global) -> Result<Command<'a>, AllocError>
    ensures app { IfOk result (λ c. app_of c ≡ with_rule (with_rule (new_app (codes "schedule")) file_rule)
        (option_rule (codes "picks"))) }
    ensures local { IfOk result (λ c. (fields_of c).has_globals ≡ false) }
{
    let command = file_command(
        alloc,
        "schedule",
        "Run a program of tasks without threads, and print the report",
        "The program; - reads standard input",
        SCHEDULE_HELP,
    )?;
    command.arg(option(alloc, "picks", "LIST", PICKS_HELP))
}

/// `schedule FILE [--picks LIST] [--trace OUT]`.
fn schedule_command<'a>(alloc: Global) -> Result<Command<'a>, AllocError>
    ensures app { IfOk result (λ c. app_of c ≡ schedule_app) }
    ensures local { IfOk result (λ c. (fields_of c).has_globals ≡ false) }
{
    let trace = option(alloc, "trace", "OUT", TRACE_HELP);
    picks_command(alloc)?.arg(trace)
}

/// `--workers N`.
fn workers_argument<'a>(alloc: Global) -> Arg<'a>
    ensures rule { rule_of result ≡ option_rule (codes "workers") }
    ensures local { result.global ≡ false }
{
    option(alloc, "workers", "N", WORKERS_HELP)
}

/// `run FILE [--workers N]`.
fn threads_command<'a>(alloc: Global) -> Result<Command<'a>, AllocError>
    ensures app { IfOk result (λ c. app_of c ≡ with_rule (with_rule (new_app (codes "run")) file_rule)
        (option_rule (codes "workers"))) }
    ensures local { IfOk result (λ c. (fields_of c).has_globals ≡ false) }
{
    let command = file_command(
        alloc,
        "run",
        "Run a program of tasks on threads, and print the report",
        "The program; - reads standard input",
        RUN_HELP,
    )?;
    command.arg(workers_argument(alloc))
}

/// `run FILE [--workers N] [--trace OUT]`.
fn traced_command<'a>(alloc: Global) -> Result<Command<'a>, AllocError>
    ensures app { IfOk result (λ c. app_of c ≡ traced_app) }
    ensures local { IfOk result (λ c. (fields_of c).has_globals ≡ false) }
{
    let trace = option(alloc, "trace", "OUT", TRACE_HELP);
    threads_command(alloc)?.arg(trace)
}

/// `--NAME`, which needn't be there.
fn flag<'a>(alloc: Global, name: &'a str, help: &'a str) -> Arg<'a>
    ensures rule { rule_of result ≡ flag_rule name.now }
    ensures local { result.global ≡ false }
{
    Arg::new(alloc, name)
        .long(name)
        .action(ArgAction::SetTrue)
        .help(help)
}

/// `run FILE [--workers N] [--trace OUT] [--certain]`.
fn certain_command<'a>(alloc: Global) -> Result<Command<'a>, AllocError>
    ensures app { IfOk result (λ c. app_of c ≡ with_rule traced_app (flag_rule (codes "certain"))) }
    ensures local { IfOk result (λ c. (fields_of c).has_globals ≡ false) }
{
    let certain = flag(alloc, "certain", CERTAIN_HELP);
    traced_command(alloc)?.arg(certain)
}

/// `run FILE [--workers N] [--trace OUT] [--certain] [--live]`.
fn live_command<'a>(alloc: Global) -> Result<Command<'a>, AllocError>
    ensures app { IfOk result (λ c. app_of c ≡ with_rule (with_rule traced_app (flag_rule (codes "certain")))
        (flag_rule (codes "live"))) }
    ensures local { IfOk result (λ c. (fields_of c).has_globals ≡ false) }
{
    let live = flag(alloc, "live", LIVE_HELP);
    certain_command(alloc)?.arg(live)
}

/// `run FILE [--workers N] [--trace OUT] [--certain] [--live] [--progress]`.
fn run_command<'a>(alloc: Global) -> Result<Command<'a>, AllocError>
    ensures app { IfOk result (λ c. app_of c ≡ run_app) }
    ensures local { IfOk result (λ c. (fields_of c).has_globals ≡ false) }
{
    let progress = flag(alloc, "progress", PROGRESS_HELP);
    live_command(alloc)?.arg(progress)
}

/// `--NAME VALUE`, which has to be there.
fn needed<'a>(alloc: Global, name: &'a str, value: &'a str, help: &'a str) -> Arg<'a>
    ensures rule { rule_of result ≡ needed_rule name.now }
    ensures local { result.global ≡ false }
{
    option(alloc, name, value, help).required(true)
}

/// The command of a kernel, with the first value that it needs.
fn kernel_command<'a>(
    alloc: Global,
    name: &'a str,
    about: &'a str,
    help: &'a str,
    first: Arg<'a>,
) -> Result<Command<'a>, AllocError>
    requires local { first.global ≡ false }
    ensures app { IfOk result (λ c. app_of c ≡ with_rule (new_app name.now) (rule_of first.entry)) }
    ensures local { IfOk result (λ c. (fields_of c).has_globals ≡ false) }
{
    Command::new(alloc, name)
        .about(about)
        .after_help(help)
        .arg(first)
}

/// `stencil --first LIST --steps S`.
fn steps_command<'a>(alloc: Global) -> Result<Command<'a>, AllocError>
    ensures app { IfOk result (λ c. app_of c ≡ with_rule (with_rule (new_app (codes "stencil"))
        (needed_rule (codes "first"))) (needed_rule (codes "steps"))) }
    ensures local { IfOk result (λ c. (fields_of c).has_globals ≡ false) }
{
    let command = kernel_command(
        alloc,
        "stencil",
        "Run a stencil over a row of cells on threads, and print the cells",
        STENCIL_HELP,
        needed(
            alloc,
            "first",
            "LIST",
            "The first values of the cells: 1 to 16 numbers of 0 to 1,000,000 with commas between",
        ),
    )?;
    command.arg(needed(alloc, "steps", "S", STEPS_HELP))
}

/// A kernel's command, with `[--workers N] [--live]`, of which the help says this.
fn live_kernel_command<'a>(
    alloc: Global,
    command: Command<'a>,
    help: &'a str,
) -> Result<Command<'a>, AllocError>
    requires local { (fields_of command).has_globals ≡ false }
    ensures app { IfOk result (λ c. app_of c ≡ with_rule (with_rule (app_of command.entry)
        (option_rule (codes "workers"))) (flag_rule (codes "live"))) }
    ensures local { IfOk result (λ c. (fields_of c).has_globals ≡ false) }
{
    let live = flag(alloc, "live", help);
    command.arg(workers_argument(alloc))?.arg(live)
}

/// A kernel's command, with `[--workers N] [--live] [--progress]`; the help says this of `--live`.
fn worked_command<'a>(
    alloc: Global,
    command: Command<'a>,
    live_help: &'a str,
) -> Result<Command<'a>, AllocError>
    requires local { (fields_of command).has_globals ≡ false }
    ensures app { IfOk result (λ c. app_of c ≡ with_workers (app_of command.entry)) }
    ensures local { IfOk result (λ c. (fields_of c).has_globals ≡ false) }
{
    let progress = flag(alloc, "progress", PROGRESS_HELP);
    live_kernel_command(alloc, command, live_help)?.arg(progress)
}

/// `stencil --first LIST --steps S [--workers N] [--live] [--progress]`.
fn stencil_command<'a>(alloc: Global) -> Result<Command<'a>, AllocError>
    ensures app { IfOk result (λ c. app_of c ≡ stencil_app) }
    ensures local { IfOk result (λ c. (fields_of c).has_globals ≡ false) }
{
    let command = steps_command(alloc)?;
    worked_command(alloc, command, LIVE_STENCIL_HELP)
}

/// `pipeline --stages K --items N`.
fn items_command<'a>(alloc: Global) -> Result<Command<'a>, AllocError>
    ensures app { IfOk result (λ c. app_of c ≡ with_rule (with_rule (new_app (codes "pipeline"))
        (needed_rule (codes "stages"))) (needed_rule (codes "items"))) }
    ensures local { IfOk result (λ c. (fields_of c).has_globals ≡ false) }
{
    let command = kernel_command(
        alloc,
        "pipeline",
        "Run a pipeline of stages on threads, and print the items",
        PIPELINE_HELP,
        needed(alloc, "stages", "K", "Number of stages, 1 to 15"),
    )?;
    command.arg(needed(alloc, "items", "N", ITEMS_HELP))
}

/// `pipeline --stages K --items N [--workers N] [--live] [--progress]`.
fn pipeline_command<'a>(alloc: Global) -> Result<Command<'a>, AllocError>
    ensures app { IfOk result (λ c. app_of c ≡ pipeline_app) }
    ensures local { IfOk result (λ c. (fields_of c).has_globals ≡ false) }
{
    let command = items_command(alloc)?;
    worked_command(alloc, command, LIVE_PIPELINE_HELP)
}

/// `replay FILE [--upgrade OUT]`.
fn replay_command<'a>(alloc: Global) -> Result<Command<'a>, AllocError>
    ensures app { IfOk result (λ c. app_of c ≡ replay_app) }
    ensures local { IfOk result (λ c. (fields_of c).has_globals ≡ false) }
{
    let command = file_command(
        alloc,
        "replay",
        "Make the events of a trace again, and print the report",
        "The trace; - reads standard input",
        REPLAY_HELP,
    )?;
    command.arg(option(alloc, "upgrade", "OUT", UPGRADE_HELP))
}

/// `certify FILE`.
fn certify_command<'a>(alloc: Global) -> Result<Command<'a>, AllocError>
    ensures app { IfOk result (λ c. app_of c ≡ certify_app) }
    ensures local { IfOk result (λ c. (fields_of c).has_globals ≡ false) }
{
    file_command(
        alloc,
        "certify",
        "Say whether every run of a program prints the same report",
        "The program; - reads standard input",
        CERTIFY_HELP,
    )
}

/// `judge FILE [--every N]`.
fn judge_command<'a>(alloc: Global) -> Result<Command<'a>, AllocError>
    ensures app { IfOk result (λ c. app_of c ≡ judge_app) }
    ensures local { IfOk result (λ c. (fields_of c).has_globals ≡ false) }
{
    let command = file_command(
        alloc,
        "judge",
        "Say whether the events of a log could happen, line by line as it comes",
        "The log; - reads standard input",
        JUDGE_HELP,
    )?;
    command.arg(option(alloc, "every", "N", EVERY_HELP))
}

/// The program, without its subcommands.
fn bare_command<'a>(alloc: Global) -> Command<'a>
    ensures { app_of result ≡ bare_app }
{
    Command::new(alloc, "phaser_run")
        .version(VERSION)
        .about("Runs phasers: barriers for a changing set of tasks")
        .after_help(PROGRAM_HELP)
        .subcommand_required(true)
        .disable_help_subcommand(true)
}

/// The program with the one subcommand `events`.
fn command_with_events<'a>(alloc: Global) -> Result<Command<'a>, AllocError>
    ensures app { IfOk result (λ c. app_of c ≡ with_subcommand bare_app events_app.top) }
{
    let events = events_command(alloc)?;
    bare_command(alloc).subcommand(events)
}

/// The program with `events` and `schedule`.
fn command_with_schedule<'a>(alloc: Global) -> Result<Command<'a>, AllocError>
    ensures app { IfOk result (λ c.
        app_of c ≡ with_subcommand (with_subcommand bare_app events_app.top) schedule_app.top) }
{
    let schedule = schedule_command(alloc)?;
    command_with_events(alloc)?.subcommand(schedule)
}

/// The program with `events`, `schedule` and `run`.
fn command_with_run<'a>(alloc: Global) -> Result<Command<'a>, AllocError>
    ensures app { IfOk result (λ c. app_of c ≡ running_app) }
{
    let run = run_command(alloc)?;
    command_with_schedule(alloc)?.subcommand(run)
}

/// The program with `replay` too.
fn command_with_replay<'a>(alloc: Global) -> Result<Command<'a>, AllocError>
    ensures app { IfOk result (λ c. app_of c ≡ with_subcommand running_app replay_app.top) }
{
    let replay = replay_command(alloc)?;
    command_with_run(alloc)?.subcommand(replay)
}

/// The program with `certify` too.
fn command_with_certify<'a>(alloc: Global) -> Result<Command<'a>, AllocError>
    ensures app { IfOk result (λ c.
        app_of c ≡ with_subcommand (with_subcommand running_app replay_app.top) certify_app.top) }
{
    let certify = certify_command(alloc)?;
    command_with_replay(alloc)?.subcommand(certify)
}

/// The program with the commands of a file.
fn command_with_judge<'a>(alloc: Global) -> Result<Command<'a>, AllocError>
    ensures app { IfOk result (λ c. app_of c ≡ filed_app) }
{
    let judge = judge_command(alloc)?;
    command_with_certify(alloc)?.subcommand(judge)
}

/// The program with `stencil` too.
fn command_with_stencil<'a>(alloc: Global) -> Result<Command<'a>, AllocError>
    ensures app { IfOk result (λ c. app_of c ≡ with_subcommand filed_app stencil_app.top) }
{
    let stencil = stencil_command(alloc)?;
    command_with_judge(alloc)?.subcommand(stencil)
}

/// The whole command line.
fn command<'a>(alloc: Global) -> Result<Command<'a>, AllocError>
    ensures app { IfOk result (λ c. app_of c ≡ program_app) }
{
    let pipeline = pipeline_command(alloc)?;
    command_with_stencil(alloc)?.subcommand(pipeline)
}

/// Whether the flag of this name stands among the words. `get_flag` answers the same, but its contract
/// leaves open what it makes of a value that is no truth value.
fn has_flag(found: &ArgMatches<'_>, name: &str) -> bool
    ensures { result ≡ has_flag name.now (rows_of (found_of found.now)) }
{
    match found.get_str(name) {
        Some(value) => value == "true",
        None => false,
    }
}

/// What a command of a file is asked for.
fn filed_among<'a>(name: &str, found: &ArgMatches<'a>) -> Option<Words<'a>>
    ensures { option_map asked_by result ≡ filed_among name.now (rows_of (found_of found.now)) }
{
    let file = found.get_str("file")?;
    match name {
        "events" => Some(Words::Events { file }),
        "schedule" => Some(Words::Schedule {
            file,
            picks: found.get_str("picks"),
            trace: found.get_str("trace"),
        }),
        "run" => Some(Words::Run {
            file,
            workers: found.get_str("workers"),
            trace: found.get_str("trace"),
            certain: has_flag(found, "certain"),
            live: has_flag(found, "live"),
            progress: has_flag(found, "progress"),
        }),
        "replay" => Some(Words::Replay {
            file,
            upgrade: found.get_str("upgrade"),
        }),
        "certify" => Some(Words::Certify { file }),
        "judge" => Some(Words::Judge {
            file,
            every: found.get_str("every"),
        }),
        _ => None,
    }
}

/// What a stencil is asked for.
fn stencil_among<'a>(found: &ArgMatches<'a>) -> Option<Words<'a>>
    ensures { option_map asked_by result ≡ stencil_among (rows_of (found_of found.now)) }
{
    let first = found.get_str("first")?;
    let steps = found.get_str("steps")?;
    Some(Words::Stencil {
        first,
        steps,
        workers: found.get_str("workers"),
        live: has_flag(found, "live"),
        progress: has_flag(found, "progress"),
    })
}

/// What a pipeline is asked for.
fn pipeline_among<'a>(found: &ArgMatches<'a>) -> Option<Words<'a>>
    ensures { option_map asked_by result ≡ pipeline_among (rows_of (found_of found.now)) }
{
    let stages = found.get_str("stages")?;
    let items = found.get_str("items")?;
    Some(Words::Pipeline {
        stages,
        items,
        workers: found.get_str("workers"),
        live: has_flag(found, "live"),
        progress: has_flag(found, "progress"),
    })
}

/// What the subcommand of this name is asked for.
fn words_among<'a>(name: &str, found: &ArgMatches<'a>) -> Option<Words<'a>>
    ensures { option_map asked_by result ≡ asked_among (name.now, rows_of (found_of found.now)) }
{
    match name {
        "stencil" => stencil_among(found),
        "pipeline" => pipeline_among(found),
        _ => filed_among(name, found),
    }
}

/// The command that the words name, with its words; the first is the program's own name.
pub(crate) fn words_of<'a>(alloc: Global, arguments: &'a [&'a str]) -> Result<Words<'a>, NoJob>
    ensures asked { IfOk result
        (λ words. asked_in (map (λ w. w.now) arguments.entry.now) ≡ Some (asked_by words)) }
    // Words that name a command with its words are refused for want of memory alone.
    ensures named { (asked : Asked) → asked_in (map (λ w. w.now) arguments.entry.now) ≡ Some asked
        → MatchResult result (λ words. asked_by words ≡ asked) (λ e. e ≡ NoJob.Memory) }
    // Nothing is said of values here.
    ensures no_value { IfErr result (λ e. (v : Value) → e ≢ NoJob.BadValue v) }
{
    let matches = match command(alloc)?.try_get_matches_from(arguments) {
        Ok(matches) => matches,
        Err(error) => return Err(no_job_for(error)),
    };
    let Some((name, found)) = matches.subcommand() else {
        return Err(NoJob::Missing);
    };
    match words_among(name, found) {
        Some(words) => Ok(words),
        None => Err(NoJob::Missing),
    }
}
