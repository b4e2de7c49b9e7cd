//! Words that name a job, and words that name none.
mod bad_words;

use crate::asserted::{equal, equal_at, holds_at};
use command_words::{Every, Job, NoJob, Value, job_of};
use std::alloc::Global;
use std::process::Abort;
use std::test::Fail;

/// The words name the events job of this file.
fn answers<'a>(rt: &impl Abort, alloc: Global, arguments: &'a [&'a str], file: &str) {
    let job = job_of(alloc, arguments);
    holds_at(
        rt,
        arguments,
        matches!(&job, Ok(Job::Events { file: named }) if *named == file),
    );
}

/// The words name the replay of this file, with this OUT.
fn replays<'a>(
    rt: &impl Abort,
    alloc: Global,
    arguments: &'a [&'a str],
    wanted: &str,
    out: Option<&str>,
) {
    match job_of(alloc, arguments) {
        Ok(Job::Replay { file, upgrade }) => {
            equal(rt, file, wanted);
            equal(rt, upgrade, out);
        }
        _ => panic!(rt; "no replay: {arguments:?}"),
    }
}

/// Words, and the file that they name.
type Row = (&'static [&'static str], &'static str);

#[test]
fn events_words(rt: HostRuntime) {
    const ROWS: [Row; 6] = [
        (&["phaser_run", "events", "-"], "-"),
        (&["phaser_run", "events", "x.json"], "x.json"),
        (&["phaser_run", "events", "--", "--help"], "--help"),
        (&["phaser_run", "events", "events"], "events"),
        (&["phaser_run", "events", "help"], "help"),
        (&["", "events", ""], ""),
    ];
    for (arguments, file) in ROWS {
        answers(&rt, rt.alloc(), arguments, file);
    }
}

#[test]
fn certify_words(rt: HostRuntime) {
    const ROWS: [Row; 3] = [
        (&["phaser_run", "certify", "-"], "-"),
        (&["phaser_run", "certify", "x.json"], "x.json"),
        (&["phaser_run", "certify", "--", "--help"], "--help"),
    ];
    for (arguments, wanted) in ROWS {
        match job_of(rt.alloc(), arguments) {
            Ok(Job::Certify { file }) => equal(&rt, file, wanted),
            _ => panic!(&rt; "no certificate: {arguments:?}"),
        }
    }
}

/// Words of `replay`, with the file and OUT that they name.
type Replayed = (&'static [&'static str], &'static str, Option<&'static str>);

#[test]
fn replay_words(rt: HostRuntime) {
    const ROWS: [Replayed; 5] = [
        (&["phaser_run", "replay", "-"], "-", None),
        (&["phaser_run", "replay", "x.trace"], "x.trace", None),
        (
            &["phaser_run", "replay", "x", "--upgrade", "y"],
            "x",
            Some("y"),
        ),
        (
            &["phaser_run", "replay", "--upgrade=x", "x"],
            "x",
            Some("x"),
        ),
        (
            &["phaser_run", "replay", "--upgrade", "-", "--", "--upgrade"],
            "--upgrade",
            Some("-"),
        ),
    ];
    for (arguments, file, out) in ROWS {
        replays(&rt, rt.alloc(), arguments, file, out);
    }
}

/// Words of `judge p`, with when the report is told.
type JudgeWords = (&'static [&'static str], Option<Every>);

#[test]
fn judge_words(rt: HostRuntime) {
    const ROWS: [JudgeWords; 6] = [
        (&["phaser_run", "judge", "p"], None),
        (
            &["phaser_run", "judge", "p", "--every", "1000000"],
            Some(Every::Events(1_000_000)),
        ),
        (
            &["phaser_run", "judge", "p", "--every", "5s"],
            Some(Every::Seconds(5)),
        ),
        (
            &["phaser_run", "judge", "--every=007s", "p"],
            Some(Every::Seconds(7)),
        ),
        (
            &["phaser_run", "judge", "--every=18446744073709551615", "p"],
            Some(Every::Events(u64::MAX)),
        ),
        (
            &["phaser_run", "judge", "--every=18446744073709551615s", "p"],
            Some(Every::Seconds(u64::MAX)),
        ),
    ];
    for (arguments, wanted) in ROWS {
        match job_of(rt.alloc(), arguments) {
            Ok(Job::Judge { file, every }) => {
                equal(&rt, file, "p");
                equal(&rt, every, wanted);
            }
            _ => panic!(&rt; "nothing to judge: {arguments:?}"),
        }
    }
}

/// Words of `schedule p`, with the picks and OUT that they name.
type Scheduled = (
    &'static [&'static str],
    &'static [u32],
    Option<&'static str>,
);

/// The words name the schedule of `p` with these picks and OUT.
fn schedules<'a>(
    rt: &impl Abort,
    alloc: Global,
    arguments: &'a [&'a str],
    wanted: &[u32],
    out: Option<&str>,
) {
    match job_of(alloc, arguments) {
        Ok(Job::Schedule { file, picks, trace }) => {
            equal(rt, file, "p");
            equal(rt, picks.as_slice(), wanted);
            equal(rt, trace, out);
        }
        _ => panic!(rt; "no schedule: {arguments:?}"),
    }
}

#[test]
fn schedule_words(rt: HostRuntime) {
    const ROWS: [Scheduled; 4] = [
        (&["phaser_run", "schedule", "p"], &[], None),
        (
            &["phaser_run", "schedule", "p", "--picks", "9,0,0,1,0"],
            &[9, 0, 0, 1, 0],
            None,
        ),
        (
            &["phaser_run", "schedule", "--picks=007,4294967295", "p"],
            &[7, 4_294_967_295],
            None,
        ),
        (
            &[
                "phaser_run",
                "schedule",
                "--trace",
                "t",
                "p",
                "--picks",
                "0",
            ],
            &[0],
            Some("t"),
        ),
    ];
    for (arguments, picks, out) in ROWS {
        schedules(&rt, rt.alloc(), arguments, picks, out);
    }
}

/// Words of `run p`, with the workers and OUT that they name, and whether `p` has to be certain.
type Ran = (&'static [&'static str], u32, Option<&'static str>, bool);

/// The words name the run of `p` by so many workers, with this OUT, of a `p` that has to be certain
/// or not.
fn runs<'a>(
    rt: &impl Abort,
    alloc: Global,
    arguments: &'a [&'a str],
    wanted: u32,
    out: Option<&str>,
    has_to_be_certain: bool,
) {
    match job_of(alloc, arguments) {
        Ok(
            Job::Run {
                file,
                workers,
                trace,
                certain,
            },
        ) => {
            equal(rt, file, "p");
            equal(rt, workers, wanted);
            equal(rt, trace, out);
            equal(rt, certain, has_to_be_certain);
        }
        _ => panic!(rt; "no run: {arguments:?}"),
    }
}

#[test]
fn run_words(rt: HostRuntime) {
    const ROWS: [Ran; 8] = [
        (&["phaser_run", "run", "p"], 2, None, false),
        (
            &["phaser_run", "run", "p", "--workers", "1"],
            1,
            None,
            false,
        ),
        (&["phaser_run", "run", "--workers=16", "p"], 16, None, false),
        (
            &["phaser_run", "run", "--trace", "t", "p"],
            2,
            Some("t"),
            false,
        ),
        (
            &["phaser_run", "run", "p", "--trace", "t", "--workers", "007"],
            7,
            Some("t"),
            false,
        ),
        (&["phaser_run", "run", "p", "--certain"], 2, None, true),
        (
            &["phaser_run", "run", "--certain", "--workers", "3", "p"],
            3,
            None,
            true,
        ),
        (
            &["phaser_run", "run", "p", "--trace", "t", "--certain"],
            2,
            Some("t"),
            true,
        ),
    ];
    for (arguments, workers, out, certain) in ROWS {
        runs(&rt, rt.alloc(), arguments, workers, out, certain);
    }
}

/// Words of `run p --live`, with the workers that they name, and whether progress is said.
type Lives = (&'static [&'static str], u32, bool);

#[test]
fn live_words(rt: HostRuntime) {
    const ROWS: [Lives; 5] = [
        (&["phaser_run", "run", "p", "--live"], 2, false),
        (&["phaser_run", "run", "--live", "p", "--progress"], 2, true),
        (&["phaser_run", "run", "--progress", "--live", "p"], 2, true),
        (
            &["phaser_run", "run", "--live", "--workers=16", "p"],
            16,
            false,
        ),
        (
            &[
                "phaser_run",
                "run",
                "p",
                "--workers",
                "1",
                "--live",
                "--progress",
            ],
            1,
            true,
        ),
    ];
    for (arguments, wanted, is_said) in ROWS {
        match job_of(rt.alloc(), arguments) {
            Ok(
                Job::Live {
                    file,
                    workers,
                    progress,
                },
            ) => {
                equal(&rt, file, "p");
                equal(&rt, workers, wanted);
                equal(&rt, progress, is_said);
            }
            _ => panic!(&rt; "no run without events: {arguments:?}"),
        }
    }
}

/// The words name the stencil of these values, steps and workers.
fn is_stencil<'a>(
    rt: &impl Abort,
    alloc: Global,
    arguments: &'a [&'a str],
    wanted: (&[u32], u32, u32),
) {
    match job_of(alloc, arguments) {
        Ok(
            Job::Stencil {
                first,
                steps,
                workers,
            },
        ) => {
            equal(rt, first.as_slice(), wanted.0);
            equal(rt, steps, wanted.1);
            equal(rt, workers, wanted.2);
        }
        _ => panic!(rt; "no stencil: {arguments:?}"),
    }
}

/// The words name the pipeline of so many stages, items and workers.
fn is_pipeline<'a>(
    rt: &impl Abort,
    alloc: Global,
    arguments: &'a [&'a str],
    wanted: (u32, u32, u32),
) {
    match job_of(alloc, arguments) {
        Ok(
            Job::Pipeline {
                stages,
                items,
                workers,
            },
        ) => {
            equal(rt, stages, wanted.0);
            equal(rt, items, wanted.1);
            equal(rt, workers, wanted.2);
        }
        _ => panic!(rt; "no pipeline: {arguments:?}"),
    }
}

#[test]
fn kernel_words(rt: HostRuntime) {
    is_stencil(
        &rt,
        rt.alloc(),
        &[
            "phaser_run",
            "stencil",
            "--first",
            "0,1000000",
            "--steps",
            "0",
        ],
        (&[0, 1_000_000], 0, 2),
    );
    is_stencil(
        &rt,
        rt.alloc(),
        &[
            "phaser_run",
            "stencil",
            "--workers",
            "3",
            "--steps=100",
            "--first",
            "1,2,3,4,5,6,7,8,9,10,11,12,13,14,15,16",
        ],
        (
            &[1, 2, 3, 4, 5, 6, 7, 8, 9, 10, 11, 12, 13, 14, 15, 16],
            100,
            3,
        ),
    );
    is_pipeline(
        &rt,
        rt.alloc(),
        &["phaser_run", "pipeline", "--stages", "1", "--items", "0"],
        (1, 0, 2),
    );
    is_pipeline(
        &rt,
        rt.alloc(),
        &[
            "phaser_run",
            "pipeline",
            "--items",
            "100",
            "--stages",
            "15",
            "--workers",
            "16",
        ],
        (15, 100, 16),
    );
}

#[test]
fn live_kernel_words(rt: HostRuntime) {
    let cells = [
        "phaser_run",
        "stencil",
        "--first=7",
        "--live",
        "--steps",
        "4294967295",
    ];
    match job_of(rt.alloc(), &cells) {
        Ok(
            Job::LiveStencil {
                first,
                steps,
                workers,
                progress,
            },
        ) => {
            equal(&rt, first.as_slice(), &[7]);
            equal(&rt, steps, 4_294_967_295);
            equal(&rt, workers, 2);
            equal(&rt, progress, false);
        }
        _ => panic!(&rt; "no stencil without events"),
    }
    let items = [
        "phaser_run",
        "pipeline",
        "--progress",
        "--items=2000000000",
        "--stages=15",
        "--live",
        "--workers=16",
    ];
    match job_of(rt.alloc(), &items) {
        Ok(
            Job::LivePipeline {
                stages,
                items,
                workers,
                progress,
            },
        ) => {
            equal(&rt, stages, 15);
            equal(&rt, items, 2_000_000_000);
            equal(&rt, workers, 16);
            equal(&rt, progress, true);
        }
        _ => panic!(&rt; "no pipeline without events"),
    }
}

/// How many picks LIST spells; none if it is no list.
fn length(alloc: Global, list: &str) -> Result<Option<usize>, Fail> {
    let option = format!(in alloc; "--picks={list}")?;
    match job_of(alloc, &["phaser_run", "schedule", "p", option.as_str()]) {
        Ok(Job::Schedule { picks, .. }) => Ok(Some(picks.len())),
        Err(NoJob::BadValue(Value::Picks)) => Ok(None),
        _ => Err(Fail::from("neither picks nor a bad list")),
    }
}

/// LIST spells no picks.
fn is_no_list(rt: &impl Abort, alloc: Global, list: &str) -> Result<(), Fail> {
    let picks = length(alloc, list)?;
    equal_at(rt, list, picks, None);
    Ok(())
}

#[test]
fn bad_lists(rt: HostRuntime) -> Result<(), Fail> {
    const BAD: [&str; 16] = [
        "",
        ",",
        "1,",
        ",1",
        "1,,2",
        "+1",
        "-1",
        " 1",
        "1 ",
        "1;2",
        "a",
        "0x1",
        "4294967296",
        "99999999999999999999",
        "1.0",
        "\u{661}",
    ];
    for list in BAD {
        is_no_list(&rt, rt.alloc(), list)?;
    }
    Ok(())
}

/// So many ones with commas between them.
fn ones(alloc: Global, count: usize) -> Result<String, Fail> {
    let mut list = String::new(alloc);
    for place in 0..count {
        list.push_str(if place == 0 { "1" } else { ",1" })?;
    }
    Ok(list)
}

// Exactly the greatest number of picks is read; one more is refused.
#[test]
fn many_picks(rt: HostRuntime) -> Result<(), Fail> {
    let most = ones(rt.alloc(), 10_000)?;
    equal(&rt, length(rt.alloc(), most.as_str())?, Some(10_000));
    let more = ones(rt.alloc(), 10_001)?;
    is_no_list(&rt, rt.alloc(), more.as_str())
}
