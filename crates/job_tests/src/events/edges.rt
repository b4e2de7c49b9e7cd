//! Readers and writers that fail, and input that is too long.
use crate::asserted::{equal, equal_at};
use crate::fails_once::FailsOnce;
use job_ends::{Ending, Failure, Reads, Status};
use phase_modes::Refusal;
use std::alloc::Global;
use std::io;
use std::io::{BufWriter, Error, ErrorKind, Read, Write};
use std::process::Abort;
use std::test::Fail;
use text_jobs::{MOST_EVENTS_BYTES, answer, counted_events_from, events_from, events_on};

const INPUT: &[u8] =
    b"{\"calls\":[[\"make\",0,\"SIG_WAIT\"],[\"sig\",0],[\"pass\",0],[\"pass\",7]]}";

const OUTPUT: &[u8] = b"ok\nok\nok phase 0\nrefused 1 NotRegistered\n";

/// A reader that gives a byte of the text a call, and fails after `calls` calls.
#[derive(Drop)]
struct TextThenFault<'a> {
    text: &'a [u8],
    calls: usize,
}

impl Read for TextThenFault<'_> {
    fn read(&mut self, buf: &mut [u8]) -> io::Result<usize> {
        if self.calls == 0 {
            return Err(Error::from(ErrorKind::Other));
        }
        self.calls -= 1;
        match (self.text, buf.first_mut()) {
            ([byte, rest @ ..], Some(first)) => {
                *first = *byte;
                self.text = rest;
                Ok(1)
            }
            _ => Ok(0),
        }
    }
}

/// A writer that takes a byte a call, and fails after `calls` calls.
#[derive(Drop)]
struct FailsAfter {
    calls: usize,
}

impl Write for FailsAfter {
    fn write(&mut self, buf: &[u8]) -> io::Result<usize> {
        if self.calls == 0 {
            return Err(Error::from(ErrorKind::Other));
        }
        self.calls -= 1;
        Ok(buf.len().min(1))
    }

    fn flush(&mut self) -> io::Result<()> {
        Ok(())
    }
}

/// How a job ended, the lines that it wrote, and what it reported.
type Outcome<'a> = (Status, &'a [u8], &'a [u8]);

const DONE: Outcome<'static> = (Status::Done, OUTPUT, b"");

const READ_FAULT: Outcome<'static> = (Status::Fault, b"", b"fault read\n");

const TOO_LONG: Outcome<'static> = (Status::Refused, b"", b"refused 24 BadText at 0\n");

/// Compares an outcome with the one that is wanted.
fn is_outcome(rt: &impl Abort, came: Outcome<'_>, wanted: Outcome<'_>, calls: usize) {
    equal_at(rt, calls, came, wanted);
}

/// Compares a status with the one that is wanted.
fn is_status(rt: &impl Abort, status: Status, wanted: Status, calls: usize) {
    equal_at(rt, calls, status, wanted);
}

/// The lines can't be written to `out`, and that is reported.
fn is_write_fault<W: Write>(rt: &impl Abort, alloc: Global, out: &mut W, calls: usize) {
    let mut faults = Vec::new(alloc);
    let status = events_on(alloc, INPUT, out, &mut faults);
    is_status(rt, status, Status::Fault, calls);
    equal_at(rt, calls, faults.as_slice(), b"fault write\n".as_slice());
}

#[test]
fn write_fails(rt: HostRuntime) -> Result<(), Fail> {
    for calls in 0..OUTPUT.len() {
        is_write_fault(&rt, rt.alloc(), &mut FailsAfter { calls }, calls);
        let mut buffered = BufWriter::new(rt.alloc(), FailsAfter { calls })?;
        is_write_fault(&rt, rt.alloc(), &mut buffered, calls);
    }
    let calls = OUTPUT.len();
    let mut out = FailsAfter { calls };
    let mut faults = FailsAfter { calls: 0 };
    let status = events_on(rt.alloc(), INPUT, &mut out, &mut faults);
    is_status(&rt, status, Status::Done, calls);
    Ok(())
}

/// A text is refused, where its line can't be written.
fn is_refused_still(rt: &impl Abort, alloc: Global, calls: usize) {
    let mut out = Vec::new(alloc);
    let mut faults = FailsAfter { calls };
    let status = events_on(alloc, b"7", &mut out, &mut faults);
    is_status(rt, status, Status::Refused, calls);
}

// A line of a failure that can't be written changes no status.
#[test]
fn fault_line_fails(rt: HostRuntime) {
    for calls in 0..3 {
        is_refused_still(&rt, rt.alloc(), calls);
        let mut out = FailsAfter { calls };
        let mut faults = FailsAfter { calls };
        let status = events_on(rt.alloc(), INPUT, &mut out, &mut faults);
        is_status(&rt, status, Status::Fault, calls);
    }
}

/// The job that reads from there ends so.
fn job_from<R: Read>(
    rt: &impl Abort,
    alloc: Global,
    reader: &mut R,
    wanted: Outcome<'_>,
    calls: usize,
) {
    let mut out = Vec::new(alloc);
    let mut faults = Vec::new(alloc);
    let status = events_from(alloc, reader, &mut out, &mut faults);
    is_outcome(rt, (status, &out, &faults), wanted, calls);
}

#[test]
fn read_fails(rt: HostRuntime) {
    let text = INPUT;
    for calls in 0..=INPUT.len() {
        let mut reader = TextThenFault { text, calls };
        job_from(&rt, rt.alloc(), &mut reader, READ_FAULT, calls);
    }
    let calls = INPUT.len() + 1;
    let mut reader = TextThenFault { text, calls };
    job_from(&rt, rt.alloc(), &mut reader, DONE, calls);
}

/// The job that reads from there ends in a fault, which is reported.
fn is_read_fault<R: Read>(rt: &impl Abort, alloc: Global, reader: &mut R) {
    let mut reads = Reads::none();
    let mut out = Vec::new(alloc);
    let mut faults = Vec::new(alloc);
    let status = counted_events_from(alloc, reader, &mut reads, &mut out, &mut faults);
    is_outcome(rt, (status, &out, &faults), READ_FAULT, 0);
}

// After a read that failed there is no other, though the reader would go on.
#[test]
fn no_read_after_a_fault(rt: HostRuntime) {
    let mut reader = FailsOnce {
        text: INPUT,
        fails_at: 9,
        calls: 0,
    };
    is_read_fault(&rt, rt.alloc(), &mut reader);
    equal(&rt, reader.calls, 9);
}

/// How the text is refused, if its line is written to a writer that fails after these calls; none if
/// it isn't refused.
fn refused_to(alloc: Global, calls: usize) -> Option<Ending> {
    let mut out = Vec::new(alloc);
    let mut faults = FailsAfter { calls };
    let failure = answer(alloc, b"7", &mut out).err()?;
    Some(failure.end(alloc, &mut faults))
}

// If the line can't be written whole, the ending says so.
#[test]
fn line_not_reported(rt: HostRuntime) {
    let line = b"refused 24 BadText at 0\n";
    for calls in 0..=line.len() {
        let wanted = Ending {
            status: Status::Refused,
            reported: calls == line.len(),
        };
        equal_at(&rt, calls, refused_to(rt.alloc(), calls), Some(wanted));
    }
}

/// The input and blanks after it, so many bytes in all.
fn padded(rt: &HostRuntime, bytes: usize) -> Result<Vec<u8>, Fail> {
    let mut text = INPUT.to_vec(rt.alloc())?;
    for _ in INPUT.len()..bytes {
        text.push(b' ')?;
    }
    Ok(text)
}

// Exactly the greatest number of bytes is read; one more is refused.
#[test]
fn too_long(rt: HostRuntime) -> Result<(), Fail> {
    let mut text = padded(&rt, MOST_EVENTS_BYTES)?;
    job_from(&rt, rt.alloc(), &mut text.as_slice(), DONE, 0);
    text.push(b' ')?;
    job_from(&rt, rt.alloc(), &mut text.as_slice(), TOO_LONG, 0);
    Ok(())
}

/// The job on these bytes ends so.
fn job_on(rt: &impl Abort, alloc: Global, text: &[u8], wanted: Outcome<'_>) {
    let mut out = Vec::new(alloc);
    let mut faults = Vec::new(alloc);
    let status = events_on(alloc, text, &mut out, &mut faults);
    is_outcome(rt, (status, &out, &faults), wanted, 0);
}

/// These bytes are refused, and nothing is written.
fn is_refused(rt: &impl Abort, alloc: Global, text: &[u8]) {
    let mut out = Vec::new(alloc);
    let refused = Err(Failure::Refused(Refusal::BadText(0)));
    let came = answer(alloc, text, &mut out);
    equal(rt, (came, out.len()), (refused, 0));
}

// The same of bytes that are here.
#[test]
fn too_long_in_memory(rt: HostRuntime) -> Result<(), Fail> {
    let mut text = padded(&rt, 1_048_576)?;
    job_on(&rt, rt.alloc(), &text, DONE);
    text.push(b' ')?;
    job_on(&rt, rt.alloc(), &text, TOO_LONG);
    is_refused(&rt, rt.alloc(), &text);
    Ok(())
}
