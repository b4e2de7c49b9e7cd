//! Words that name no job, and what is said of them.
use crate::asserted::{equal_at, holds_at};
use command_words::job_of;
use job_ends::Status;
use std::alloc::Global;
use std::process::Abort;
use std::test::Fail;

/// Words, and a part of the message that they get.
type Row = (&'static [&'static str], &'static str);

/// The message has this part, and ends its line.
fn is_message(rt: &impl Abort, text: &str, part: &str) {
    assert!(rt; text.contains(part), "{part}: {text}");
    holds_at(rt, text, text.ends_with("\n"));
}

/// The words name no job; the message has this part.
fn is_bad<'a>(
    rt: &impl Abort,
    alloc: Global,
    arguments: &'a [&'a str],
    part: &str,
) -> Result<(), Fail> {
    match job_of(alloc, arguments) {
        Ok(_) => panic!(rt; "a job: {arguments:?}"),
        Err(no_job) => {
            equal_at(rt, arguments, no_job.status(), Status::Usage);
            let text = no_job.to_string(alloc)?;
            is_message(rt, text.as_str(), part);
            Ok(())
        }
    }
}

fn all_bad(rt: &impl Abort, alloc: Global, rows: &[Row]) -> Result<(), Fail> {
    for (arguments, part) in rows {
        is_bad(rt, alloc, arguments, part)?;
    }
    Ok(())
}

#[test]
fn bad_events(rt: HostRuntime) -> Result<(), Fail> {
    const ROWS: [Row; 6] = [
        (&[], "Usage: phaser_run <COMMAND>"),
        (&["phaser_run"], "Usage: phaser_run <COMMAND>"),
        (&["phaser_run", "events"], "<FILE>"),
        (
            &["phaser_run", "events", "a", "b"],
            "unexpected argument 'b'",
        ),
        (
            &["phaser_run", "events", "--jump", "a"],
            "unexpected argument '--jump'",
        ),
        (
            &["phaser_run", "events", "a", "--picks", "1"],
            "unexpected argument '--picks'",
        ),
    ];
    all_bad(&rt, rt.alloc(), ROWS.as_slice())
}

#[test]
fn bad_commands(rt: HostRuntime) -> Result<(), Fail> {
    const ROWS: [Row; 3] = [
        (
            &["phaser_run", "event", "a"],
            "unrecognized subcommand 'event'",
        ),
        (
            &["phaser_run", "Events", "a"],
            "unrecognized subcommand 'Events'",
        ),
        (&["phaser_run", "help"], "unrecognized subcommand 'help'"),
    ];
    all_bad(&rt, rt.alloc(), ROWS.as_slice())
}

#[test]
fn bad_schedules(rt: HostRuntime) -> Result<(), Fail> {
    const ROWS: [Row; 4] = [
        (&["phaser_run", "schedule"], "<FILE>"),
        (
            &["phaser_run", "schedule", "a", "--picks"],
            "--picks <LIST>",
        ),
        (
            &["phaser_run", "schedule", "a", "--picks", "1,,2"],
            "LIST is 1 to 10,000 numbers",
        ),
        (
            &[
                "phaser_run",
                "schedule",
                "a",
                "--picks",
                "1",
                "--picks",
                "2",
            ],
            "cannot be used multiple times",
        ),
    ];
    all_bad(&rt, rt.alloc(), ROWS.as_slice())
}

#[test]
fn bad_replays(rt: HostRuntime) -> Result<(), Fail> {
    const ROWS: [Row; 6] = [
        (&["phaser_run", "replay"], "<FILE>"),
        (
            &["phaser_run", "replay", "a", "--trace", "t"],
            "unexpected argument '--trace'",
        ),
        (
            &["phaser_run", "replay", "a", "--upgrade"],
            "--upgrade <OUT>",
        ),
        (
            &[
                "phaser_run",
                "replay",
                "a",
                "--upgrade",
                "t",
                "--upgrade",
                "t",
            ],
            "cannot be used multiple times",
        ),
        (&["phaser_run", "replay", "--upgrade", "t"], "<FILE>"),
        (
            &["phaser_run", "schedule", "a", "--upgrade", "t"],
            "unexpected argument '--upgrade'",
        ),
    ];
    all_bad(&rt, rt.alloc(), ROWS.as_slice())
}

#[test]
fn bad_every(rt: HostRuntime) -> Result<(), Fail> {
    const EVERY: &str =
        "error: N is a number of 1 to 18446744073709551615, or one with an s after it\n";
    const ROWS: [Row; 15] = [
        (&["phaser_run", "judge", "a", "--every=0"], EVERY),
        (&["phaser_run", "judge", "a", "--every=0s"], EVERY),
        (&["phaser_run", "judge", "a", "--every=s"], EVERY),
        (&["phaser_run", "judge", "a", "--every="], EVERY),
        (&["phaser_run", "judge", "a", "--every=5ss"], EVERY),
        (&["phaser_run", "judge", "a", "--every=s5"], EVERY),
        (&["phaser_run", "judge", "a", "--every=5 s"], EVERY),
        (&["phaser_run", "judge", "a", "--every=5S"], EVERY),
        (&["phaser_run", "judge", "a", "--every=5sec"], EVERY),
        (&["phaser_run", "judge", "a", "--every=-5s"], EVERY),
        (&["phaser_run", "judge", "a", "--every=+5s"], EVERY),
        (&["phaser_run", "judge", "a", "--every=1.5s"], EVERY),
        (&["phaser_run", "judge", "a", "--every=0x5"], EVERY),
        (
            &["phaser_run", "judge", "a", "--every=18446744073709551616"],
            EVERY,
        ),
        (
            &["phaser_run", "judge", "a", "--every=18446744073709551616s"],
            EVERY,
        ),
    ];
    all_bad(&rt, rt.alloc(), &ROWS)
}

#[test]
fn bad_runs(rt: HostRuntime) -> Result<(), Fail> {
    const WORKERS: &str = "error: the workers are a number of 1 to 16\n";
    const ROWS: [Row; 14] = [
        (&["phaser_run", "run"], "<FILE>"),
        (&["phaser_run", "run", "a", "--workers"], "--workers <N>"),
        (&["phaser_run", "run", "a", "--workers", "0"], WORKERS),
        (&["phaser_run", "run", "a", "--workers", "17"], WORKERS),
        (&["phaser_run", "run", "a", "--workers", "two"], WORKERS),
        (&["phaser_run", "run", "a", "--workers", "+2"], WORKERS),
        (&["phaser_run", "run", "a", "--workers", ""], WORKERS),
        (
            &["phaser_run", "run", "a", "--workers", "1", "--workers", "1"],
            "cannot be used multiple times",
        ),
        (
            &["phaser_run", "run", "a", "--picks", "1"],
            "unexpected argument '--picks'",
        ),
        (&["phaser_run", "run", "--certain"], "<FILE>"),
        (
            &["phaser_run", "run", "a", "--certain", "--certain"],
            "cannot be used multiple times",
        ),
        (
            &["phaser_run", "run", "a", "--certain=yes"],
            "unexpected value 'yes'",
        ),
        (
            &["phaser_run", "schedule", "a", "--certain"],
            "unexpected argument '--certain'",
        ),
        (
            &["phaser_run", "certify", "a", "--certain"],
            "unexpected argument '--certain'",
        ),
    ];
    all_bad(&rt, rt.alloc(), ROWS.as_slice())
}

#[test]
fn bad_lives(rt: HostRuntime) -> Result<(), Fail> {
    const LIVE: &str = "error: --live keeps no events: leave --trace and --certain out\n";
    const PROGRESS: &str = "error: --progress goes with --live\n";
    const ROWS: [Row; 12] = [
        (&["phaser_run", "run", "--live"], "<FILE>"),
        (
            &["phaser_run", "run", "a", "--live", "--live"],
            "cannot be used multiple times",
        ),
        (
            &["phaser_run", "run", "a", "--live=yes"],
            "unexpected value 'yes'",
        ),
        (
            &["phaser_run", "schedule", "a", "--live"],
            "unexpected argument '--live'",
        ),
        (
            &["phaser_run", "certify", "a", "--progress"],
            "unexpected argument '--progress'",
        ),
        (&["phaser_run", "run", "a", "--live", "--trace", "t"], LIVE),
        (&["phaser_run", "run", "--certain", "a", "--live"], LIVE),
        (
            &[
                "phaser_run",
                "run",
                "a",
                "--certain",
                "--trace=t",
                "--live",
                "--progress",
            ],
            LIVE,
        ),
        (&["phaser_run", "run", "a", "--progress"], PROGRESS),
        (
            &["phaser_run", "run", "--progress", "--trace", "t", "a"],
            PROGRESS,
        ),
        // Of several faults the first is named: first the workers, and then a flag.
        (
            &[
                "phaser_run",
                "run",
                "a",
                "--live",
                "--trace",
                "t",
                "--workers",
                "0",
            ],
            "error: the workers are a number of 1 to 16\n",
        ),
        (
            &["phaser_run", "run", "a", "--progress", "--workers", "17"],
            "error: the workers are a number of 1 to 16\n",
        ),
    ];
    all_bad(&rt, rt.alloc(), ROWS.as_slice())
}

#[test]
fn bad_kernels(rt: HostRuntime) -> Result<(), Fail> {
    const LIST: &str = "error: LIST is 1 to 16 numbers of 0 to 1000000 with commas between them\n";
    const ROWS: [Row; 11] = [
        (&["phaser_run", "stencil"], "--first <LIST>"),
        (&["phaser_run", "stencil", "--first", "1"], "--steps <S>"),
        (
            &[
                "phaser_run",
                "stencil",
                "--first",
                "1000001",
                "--steps",
                "1",
            ],
            LIST,
        ),
        (
            &[
                "phaser_run",
                "stencil",
                "--first",
                "1,2,3,4,5,6,7,8,9,10,11,12,13,14,15,16,17",
                "--steps",
                "1",
            ],
            LIST,
        ),
        // Of several bad values the first is named.
        (
            &["phaser_run", "stencil", "--steps", "101", "--first", ","],
            LIST,
        ),
        (
            &["phaser_run", "stencil", "--first", "1", "--steps", "101"],
            "error: S is a number of 0 to 100\n",
        ),
        (
            &[
                "phaser_run",
                "stencil",
                "--first",
                "1",
                "--steps",
                "1",
                "--trace",
                "t",
            ],
            "unexpected argument '--trace'",
        ),
        (&["phaser_run", "pipeline", "--stages", "1"], "--items <N>"),
        (
            &["phaser_run", "pipeline", "--stages", "0", "--items", "1"],
            "error: K is a number of 1 to 15\n",
        ),
        (
            &["phaser_run", "pipeline", "--stages", "16", "--items", "1"],
            "error: K is a number of 1 to 15\n",
        ),
        (
            &["phaser_run", "pipeline", "--stages", "1", "--items", "101"],
            "error: the items are a number of 0 to 100\n",
        ),
    ];
    all_bad(&rt, rt.alloc(), ROWS.as_slice())
}

#[test]
fn bad_values_of_live_kernels(rt: HostRuntime) -> Result<(), Fail> {
    const ROWS: [Row; 2] = [
        (
            &[
                "phaser_run",
                "stencil",
                "--first=1",
                "--steps=4294967296",
                "--live",
            ],
            "error: S is a number of 0 to 4294967295\n",
        ),
        (
            &[
                "phaser_run",
                "pipeline",
                "--stages=1",
                "--items=2000000001",
                "--live",
            ],
            "error: the items are a number of 0 to 2000000000\n",
        ),
    ];
    all_bad(&rt, rt.alloc(), ROWS.as_slice())
}

#[test]
fn bad_flags_of_kernels(rt: HostRuntime) -> Result<(), Fail> {
    const PROGRESS: &str = "error: --progress goes with --live\n";
    const ROWS: [Row; 5] = [
        (
            &[
                "phaser_run",
                "stencil",
                "--first=1",
                "--steps=1",
                "--progress",
            ],
            PROGRESS,
        ),
        (
            &[
                "phaser_run",
                "pipeline",
                "--stages=1",
                "--items=1",
                "--progress",
            ],
            PROGRESS,
        ),
        // Of several faults the first is named: first the values, and then a flag.
        (
            &[
                "phaser_run",
                "stencil",
                "--first=1",
                "--steps=101",
                "--progress",
            ],
            "error: S is a number of 0 to 100\n",
        ),
        (
            &[
                "phaser_run",
                "pipeline",
                "--stages=1",
                "--items=1",
                "--workers=0",
                "--progress",
            ],
            "error: the workers are a number of 1 to 16\n",
        ),
        (
            &[
                "phaser_run",
                "stencil",
                "--first=1",
                "--steps=1",
                "--live=yes",
            ],
            "unexpected value 'yes'",
        ),
    ];
    all_bad(&rt, rt.alloc(), ROWS.as_slice())
}

#[test]
fn help(rt: HostRuntime) -> Result<(), Fail> {
    const ROWS: [Row; 12] = [
        (&["phaser_run", "--help"], "Exit status: 0 done"),
        (
            &["phaser_run", "run", "--help"],
            "Keep no events: any number of tasks and phases, no trace, and only the counts are printed",
        ),
        (
            &["phaser_run", "run", "--help"],
            "Print progress to standard error once a second",
        ),
        (&["phaser_run", "run", "--help"], "--workers <N>"),
        (
            &["phaser_run", "run", "--help"],
            "With --certain the program is certified",
        ),
        (&["phaser_run", "stencil", "--help"], "--first <LIST>"),
        (&["phaser_run", "pipeline", "--help"], "--stages <K>"),
        (&["phaser_run", "-h"], "Apply the calls of an events file"),
        (
            &["phaser_run", "events", "--help"],
            "- reads standard input",
        ),
        (&["phaser_run", "schedule", "--help"], "--trace <OUT>"),
        (
            &["phaser_run", "replay", "--help"],
            "at most 67,108,864 bytes",
        ),
        (&["phaser_run", "replay", "--help"], "--upgrade <OUT>"),
    ];
    all_bad(&rt, rt.alloc(), ROWS.as_slice())
}

// The version is a text of status 2, as help is: status 0 says that the lines were written.
#[test]
fn version(rt: HostRuntime) -> Result<(), Fail> {
    const ROWS: [Row; 3] = [
        (&["phaser_run", "--version"], "phaser_run 0.1.0\n"),
        (&["phaser_run", "-V"], "phaser_run 0.1.0\n"),
        (
            &["phaser_run", "events", "--version"],
            "unexpected argument '--version'",
        ),
    ];
    all_bad(&rt, rt.alloc(), ROWS.as_slice())
}
