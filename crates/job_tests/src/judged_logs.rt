//! Logs that were worked out by hand, judged by the job.
use job_ends::Status;
use judge_job::{Every, Writes, judge_from};
use std::alloc::Global;
use std::cell::Cell;
use std::io;
use std::io::{ErrorKind, Write};
use std::process::Abort;
use std::test::Fail;
use std::time::{Clock, Duration};

/// A clock that stands `step` seconds later each time that it is read, from 100 seconds on. Without a
/// step it can't be read.
#[derive(Drop)]
struct Steps {
    now: Cell<u64>,
    step: Option<u64>,
}

impl Steps {
    fn of(step: Option<u64>) -> Steps {
        Steps {
            now: Cell::new(100),
            step,
        }
    }
}

impl Clock for Steps {
    fn monotonic(&self) -> io::Result<Duration> {
        let Some(step) = self.step else {
            return Err(io::Error::from(ErrorKind::Other));
        };
        let now = self.now.get();
        self.now.set(now.saturating_add(step));
        Ok(Duration::from_secs(now))
    }

    fn since_1970(&self) -> io::Result<Duration> {
        self.monotonic()
    }
}

/// Judging this log ends so, and writes this to standard output and to standard error.
fn judges(
    rt: &impl Abort,
    alloc: Global,
    log: &str,
    every: Option<Every>,
    status: Status,
    out: &str,
    faults: &str,
) {
    let clock = Steps::of(Some(1));
    judges_by(rt, alloc, log, (every, &clock), status, out, faults);
}

/// The same by this clock.
fn judges_by(
    rt: &impl Abort,
    alloc: Global,
    log: &str,
    told_by: (Option<Every>, &Steps),
    status: Status,
    out: &str,
    faults: &str,
) {
    let mut reader = log.as_bytes();
    let mut written: Vec<u8> = Vec::new(alloc);
    let mut told: Vec<u8> = Vec::new(alloc);
    let (every, clock) = told_by;
    let ended = judge_from(
        alloc,
        &mut reader,
        &mut Writes::none(),
        &mut written,
        &mut told,
        every,
        clock,
    );
    assert_eq!(rt; ended, status);
    assert_eq!(rt; written.as_slice(), out.as_bytes());
    assert_eq!(rt; told.as_slice(), faults.as_bytes());
}

const BARRIER: &str = "{\"version\":2}
[1,\"p\",7,\"make\",18446744073709551615,\"SIG_WAIT\",[\"sum\"],null]
[2,\"p\",7,\"reg\",18446744073709551615,5,\"SIG_WAIT\"]
[3,\"t\",5,\"begin\",[\"next\"]]
[4,\"p\",7,\"send\",5,0,-8]
[5,\"p\",7,\"sig\",5]
[6,\"p\",7,\"sig\",18446744073709551615]
[9,\"p\",7,\"pass\",5]
[10,\"p\",7,\"look\",5,0,-8]
[11, \"p\", 7, \"pass\", 18446744073709551615]
[12,\"p\",7,\"drop\",5]
[13,\"p\",7,\"drop\",18446744073709551615]";

#[test]
fn a_barrier(rt: HostRuntime) {
    judges(
        &rt,
        rt.alloc(),
        BARRIER,
        Some(Every::Events(4)),
        Status::Done,
        "events 10\nphasers made 1 there 0\ntotals registered 2 signals 2 passes 2 drops 2 sends 1\n",
        "events 4\nphasers made 1 there 1\ntotals registered 2 signals 1 passes 0 drops 0 sends 1\n\
         events 8\nphasers made 1 there 1\ntotals registered 2 signals 2 passes 2 drops 0 sends 1\n",
    );
}

/// What is reported of `BARRIER`.
const BARRIER_OUT: &str =
    "events 10\nphasers made 1 there 0\ntotals registered 2 signals 2 passes 2 drops 2 sends 1\n";

#[test]
fn a_barrier_by_seconds(rt: HostRuntime) {
    // The clock is read when judging begins, and after each of the ten events: after the 4th and the 8th
    // 4 seconds have gone by.
    let every_4 =
        "events 4\nphasers made 1 there 1\ntotals registered 2 signals 1 passes 0 drops 0 sends 1\n\
         events 8\nphasers made 1 there 1\ntotals registered 2 signals 2 passes 2 drops 0 sends 1\n";
    for (seconds, step, told) in [
        (4, Some(1), every_4),
        (8, Some(2), every_4),
        (7, Some(2), every_4),
        (11, Some(1), ""),
        (u64::MAX, Some(u64::MAX), ""),
        (1, None, ""),
    ] {
        let clock = Steps::of(step);
        judges_by(
            &rt,
            rt.alloc(),
            BARRIER,
            (Some(Every::Seconds(seconds)), &clock),
            Status::Done,
            BARRIER_OUT,
            told,
        );
    }
}

/// What is reported if nothing was judged.
const NOTHING: &str =
    "events 0\nphasers made 0 there 0\ntotals registered 0 signals 0 passes 0 drops 0 sends 0\n";

/// What is reported after task 1 made a phaser.
const ONE: &str =
    "events 1\nphasers made 1 there 1\ntotals registered 1 signals 0 passes 0 drops 0 sends 0\n";

/// A log in which task 1 made a phaser, with this line after it.
fn after_making(rt: &impl Abort, alloc: Global, line: &str, faults: &str) {
    let head = "{\"version\":2}\n[5,\"p\",0,\"make\",1,\"SIG_WAIT\",[],2]\n";
    match format!(in alloc; "{head}{line}\n") {
        Ok(log) => judges(rt, alloc, log.as_str(), None, Status::Refused, ONE, faults),
        Err(_) => assert!(rt; false),
    }
}

#[test]
fn what_cannot_happen(rt: HostRuntime) {
    after_making(
        &rt,
        rt.alloc(),
        "[6,\"p\",0,\"pass\",1]",
        "refused 25 NotExplained at 3\nline 3: task 1 can't do this on phaser 0: it hasn't signalled its phase\n",
    );
    after_making(
        &rt,
        rt.alloc(),
        "[6,\"p\",1,\"sig\",1]",
        "refused 25 NotExplained at 3\nline 3: phaser 1 isn't made, or its last task has left it\n",
    );
    after_making(
        &rt,
        rt.alloc(),
        "[5,\"p\",0,\"sig\",1]",
        "refused 25 NotExplained at 3\nline 3: ticket 5 isn't greater than that of the line before\n",
    );
}

#[test]
fn what_is_no_event(rt: HostRuntime) {
    let faults =
        "refused 24 BadText at 3\nline 3: this is not an event: it is cut off, isn't JSON, or has an unknown word, a number out of range, or the wrong number of items\n";
    for line in [
        "[6,\"p\",0,\"sig\",1",
        "{\"version\":2}",
        "[6,\"p\",0,\"signal\",1]",
        "[6,\"p\",0,\"sig\",18446744073709551616]",
        "[6,\"p\",0,\"sig\",1,4294967296]",
        "[6,\"p\",0,\"sig\",1]]",
        "[6,\"q\",0,\"sig\",1]",
        "[6,\"t\",0,\"begin\",",
        "[6,\"p\",0,\"send\",1,256,0]",
        "[6,\"p\",1,\"make\",1,\"SIG_WAIT\",[\"sum\",\"sum\",\"sum\",\"sum\",\"sum\"],null]",
        "[-6,\"p\",0,\"sig\",1]",
        " .",
    ] {
        after_making(&rt, rt.alloc(), line, faults);
    }
}

#[test]
fn headers(rt: HostRuntime) {
    let faults = "refused 24 BadText at 1\nline 1: this isn't the header {\"version\":2}\n";
    for log in [
        "",
        "{\"version\":1}\n",
        "{\"version\":2,\"a\":1}\n",
        "[1,\"t\",0]\n",
    ] {
        judges(&rt, rt.alloc(), log, None, Status::Refused, NOTHING, faults);
    }
    judges(
        &rt,
        rt.alloc(),
        "{\"version\":2}",
        None,
        Status::Done,
        NOTHING,
        "",
    );
    judges(
        &rt,
        rt.alloc(),
        " { \"version\" : 2 } \r\n",
        None,
        Status::Done,
        NOTHING,
        "",
    );
}

/// Judging this head of a log, and then a line of so many blanks, ends so, and tells this.
fn with_blanks(
    rt: &impl Abort,
    alloc: Global,
    head: &[u8],
    blanks: usize,
    status: Status,
    faults: &str,
) {
    let mut log: Vec<u8> = Vec::new(alloc);
    let mut out: Vec<u8> = Vec::new(alloc);
    let mut told: Vec<u8> = Vec::new(alloc);
    assert!(rt; log.extend_from_slice(head).is_ok());
    for _ in 0..blanks {
        assert!(rt; log.push(b' ').is_ok());
    }
    assert!(rt; log.push(b'\n').is_ok());
    let mut reader = log.as_slice();
    let clock = Steps::of(Some(1));
    let ended = judge_from(
        alloc,
        &mut reader,
        &mut Writes::none(),
        &mut out,
        &mut told,
        None,
        &clock,
    );
    assert_eq!(rt; ended, status);
    assert_eq!(rt; told.as_slice(), faults.as_bytes());
}

const LONG_1: &str = "refused 24 BadText at 1\nline 1: this line has more than 65,536 bytes\n";

const LONG_2: &str = "refused 24 BadText at 2\nline 2: this line has more than 65,536 bytes\n";

#[test]
fn long_lines(rt: HostRuntime) {
    // Reads of 65,536 bytes meet the newline of a line of up to 131,071 in their second piece.
    for (head, blanks, status, faults) in [
        (HEADER, 65_536, Status::Done, ""),
        (HEADER, 65_537, Status::Refused, LONG_2),
        (HEADER, 70_000, Status::Refused, LONG_2),
        (HEADER, 140_000, Status::Refused, LONG_2),
        ("", 65_537, Status::Refused, LONG_1),
        ("", 140_000, Status::Refused, LONG_1),
    ] {
        with_blanks(&rt, rt.alloc(), head.as_bytes(), blanks, status, faults);
    }
}

const HEADER: &str = "{\"version\":2}\n";

/// Blank lines are counted, and nothing else: the event that can't happen stands in line 8.
const BLANKS: &str = "
 \t\r
{\"version\":2}

[1,\"p\",0,\"make\",1,\"SIG\",[],2]
 \r
\t
[2,\"p\",0,\"sig\",2]
";

#[test]
fn blank_lines(rt: HostRuntime) {
    judges(
        &rt,
        rt.alloc(),
        BLANKS,
        Some(Every::Events(1)),
        Status::Refused,
        ONE,
        "events 1\nphasers made 1 there 1\ntotals registered 1 signals 0 passes 0 drops 0 sends 0\n\
         refused 25 NotExplained at 8\nline 8: task 2 isn't registered on phaser 0\n",
    );
}

/// The log of these events, each without its ticket and the word for a phaser.
fn log_of(alloc: Global, events: &[&str]) -> Result<String, Fail> {
    let mut log = String::new(alloc);
    log.push_str("{\"version\":2}")?;
    for (place, event) in events.iter().enumerate() {
        let line = format!(in alloc; "\n[{place},\"p\",{event}]")?;
        log.push_str(line.as_str())?;
    }
    Ok(log)
}

/// The last of these events is refused, and why.
fn refuses(rt: &impl Abort, alloc: Global, events: &[&str], why: &str) -> Result<(), Fail> {
    let log = log_of(alloc, events)?;
    let mut reader = log.as_bytes();
    let mut out: Vec<u8> = Vec::new(alloc);
    let mut told: Vec<u8> = Vec::new(alloc);
    let clock = Steps::of(None);
    let ended = judge_from(
        alloc,
        &mut reader,
        &mut Writes::none(),
        &mut out,
        &mut told,
        None,
        &clock,
    );
    assert_eq!(rt; ended, Status::Refused);
    let line = events.len() + 1;
    let wanted = format!(in alloc; "refused 25 NotExplained at {line}\nline {line}: {why}\n")?;
    assert_eq!(rt; told.as_slice(), wanted.as_str().as_bytes());
    Ok(())
}

const MAKE: &str = "0,\"make\",1,\"SIG_WAIT\",[],2";

const SINGLE: &str = "0,\"make\",1,\"SINGLE\",[],2";

#[test]
fn who_keeps_a_phase_open(rt: HostRuntime) -> Result<(), Fail> {
    let reg_2 = "0,\"reg\",1,2,\"SIG_WAIT\"";
    let (sig_1, pass_1) = ("0,\"sig\",1", "0,\"pass\",1");
    refuses(
        &rt,
        rt.alloc(),
        &[MAKE, reg_2, sig_1, pass_1],
        "phase 0 of phaser 0 isn't closed: task 2 hasn't signalled it",
    )?;
    // Task 3 only waits, and task 4 has left. Task 5 only signals, and hasn't signalled either.
    refuses(
        &rt,
        rt.alloc(),
        &[
            MAKE,
            reg_2,
            "0,\"reg\",1,3,\"WAIT\"",
            "0,\"reg\",1,4,\"SIG_WAIT\"",
            "0,\"reg\",1,5,\"SIG\"",
            sig_1,
            "0,\"drop\",4",
            pass_1,
        ],
        "phase 0 of phaser 0 isn't closed: tasks 2 and 5 haven't signalled it",
    )?;
    // Who only waits waits for the same.
    refuses(
        &rt,
        rt.alloc(),
        &[
            MAKE,
            "0,\"reg\",1,3,\"WAIT\"",
            "0,\"reg\",1,18446744073709551615,\"SIG\"",
            "0,\"sig\",18446744073709551615",
            "0,\"pass\",18446744073709551615",
            "0,\"pass\",3",
        ],
        "phase 0 of phaser 0 isn't closed: task 1 hasn't signalled it",
    )?;
    // Task 2 has signalled phase 0, and not phase 1; task 3 is registered in phase 1.
    refuses(
        &rt,
        rt.alloc(),
        &[
            MAKE,
            reg_2,
            sig_1,
            "0,\"sig\",2",
            pass_1,
            "0,\"reg\",1,3,\"SIG_WAIT\"",
            sig_1,
            pass_1,
        ],
        "phase 1 of phaser 0 isn't closed: tasks 2 and 3 haven't signalled it",
    )
}

#[test]
fn singles_and_bounds(rt: HostRuntime) -> Result<(), Fail> {
    let reg_2 = "0,\"reg\",1,2,\"SINGLE\"";
    let (sig_1, sig_2) = ("0,\"sig\",1,9", "0,\"sig\",2,9");
    refuses(
        &rt,
        rt.alloc(),
        &[SINGLE, reg_2, sig_1, "0,\"claim\",1"],
        "phase 0 of phaser 0 isn't closed: task 2 hasn't signalled it",
    )?;
    refuses(
        &rt,
        rt.alloc(),
        &[SINGLE, reg_2, sig_1, sig_2, "0,\"claim\",2", "0,\"pass\",1"],
        "task 1 had to wait: the single of its phase of phaser 0 isn't done",
    )?;
    let (sig, pass) = ("0,\"sig\",2", "0,\"pass\",2");
    refuses(
        &rt,
        rt.alloc(),
        &[MAKE, "0,\"reg\",1,2,\"SIG\"", sig, pass, sig, pass, sig],
        "task 2 had to wait: the bound of phaser 0 holds its signal back",
    )
}

/// An early pass of task 1 beside the tasks 11 to `last`, none of which has signalled.
fn beside(rt: &impl Abort, alloc: Global, last: u64, tasks: &str) -> Result<(), Fail> {
    let mut log = String::new(alloc);
    log.push_str("{\"version\":2}\n[1,\"p\",0,\"make\",1,\"SIG_WAIT\",[],2]\n")?;
    for task in 11..=last {
        let line = format!(in alloc; "[{task},\"p\",0,\"reg\",1,{task},\"SIG_WAIT\"]\n")?;
        log.push_str(line.as_str())?;
    }
    log.push_str("[1001,\"p\",0,\"sig\",1]\n[1002,\"p\",0,\"pass\",1]\n")?;
    let mut reader = log.as_bytes();
    let mut out: Vec<u8> = Vec::new(alloc);
    let mut told: Vec<u8> = Vec::new(alloc);
    let clock = Steps::of(None);
    let ended = judge_from(
        alloc,
        &mut reader,
        &mut Writes::none(),
        &mut out,
        &mut told,
        None,
        &clock,
    );
    assert_eq!(rt; ended, Status::Refused);
    let wanted = format!(in alloc; ": tasks {tasks} haven't signalled it\n")?;
    assert!(rt; told.ends_with(wanted.as_str().as_bytes()));
    Ok(())
}

#[test]
fn many_tasks(rt: HostRuntime) -> Result<(), Fail> {
    beside(&rt, rt.alloc(), 19, "11, 12, 13, 14, 15, 16, 17, 18 and 19")?;
    beside(
        &rt,
        rt.alloc(),
        20,
        "11, 12, 13, 14, 15, 16, 17, 18 and 2 more",
    )?;
    // With task 1 that are 256 at once.
    beside(
        &rt,
        rt.alloc(),
        265,
        "11, 12, 13, 14, 15, 16, 17, 18 and 247 more",
    )
}

/// A writer whose write of this number fails, counted from 0, and no other.
#[derive(Drop)]
struct Fails {
    at: u32,
    writes: u32,
    bytes: Vec<u8>,
}

impl Write for Fails {
    fn write(&mut self, bytes: &[u8]) -> io::Result<usize> {
        let is_bad = self.writes == self.at;
        self.writes = self.writes.saturating_add(1);
        if is_bad || self.bytes.extend_from_slice(bytes).is_err() {
            return Err(io::Error::from(ErrorKind::Other));
        }
        Ok(bytes.len())
    }

    fn flush(&mut self) -> io::Result<()> {
        Ok(())
    }
}

/// What is told of an early pass with `--every 1` by a writer whose write of this number fails.
fn told_early(rt: &impl Abort, alloc: Global, at: u32, wanted: &str) -> Result<(), Fail> {
    let events = [MAKE, "0,\"sig\",1", "0,\"reg\",1,2,\"SIG\"", "0,\"sig\",1"];
    let log = log_of(alloc, &events)?;
    let mut reader = log.as_bytes();
    let mut out: Vec<u8> = Vec::new(alloc);
    let mut told = Fails {
        at,
        writes: 0,
        bytes: Vec::new(alloc),
    };
    let clock = Steps::of(None);
    let every = Some(Every::Events(1));
    let ended = judge_from(
        alloc,
        &mut reader,
        &mut Writes::none(),
        &mut out,
        &mut told,
        every,
        &clock,
    );
    assert_eq!(rt; ended, Status::Refused);
    assert_eq!(rt; out.as_slice(), THREE.as_bytes());
    assert_eq!(rt; told.bytes.as_slice(), wanted.as_bytes());
    Ok(())
}

/// What is reported after task 1 made a phaser and signalled, and after it registered task 2 then.
const TWO: &str =
    "events 2\nphasers made 1 there 1\ntotals registered 1 signals 1 passes 0 drops 0 sends 0\n";

const THREE: &str =
    "events 3\nphasers made 1 there 1\ntotals registered 2 signals 1 passes 0 drops 0 sends 0\n";

/// Why its second signal is refused.
const AGAIN: &str =
    "line 5: task 1 can't do this on phaser 0: it has signalled since its last turn\n";

#[test]
fn reports_before_a_refusal(rt: HostRuntime) -> Result<(), Fail> {
    let refused = "refused 25 NotExplained at 5\n";
    for (at, parts) in [
        (9, [ONE, TWO, THREE, refused, AGAIN]),
        (0, ["", TWO, THREE, refused, AGAIN]),
        (2, [ONE, TWO, "", refused, AGAIN]),
        (3, [ONE, TWO, THREE, "", ""]),
    ] {
        let mut wanted = String::new(rt.alloc());
        for part in parts {
            wanted.push_str(part)?;
        }
        told_early(&rt, rt.alloc(), at, wanted.as_str())?;
    }
    Ok(())
}
