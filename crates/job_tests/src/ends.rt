//! Readers that fail, and the line of a failure.
use crate::asserted::{equal, equal_at, holds_at};
use crate::fails_once::FailsOnce;
use job_ends::{Failure, ReadAll, Reads, Status, bytes_of, put_text, read_all, write_text};
use phase_modes::Refusal;
use std::io;
use std::io::Write;
use std::test::Fail;

const INPUT: &[u8] = b"{\"calls\":[]}";

/// A writer that takes all that it is given, and counts its calls.
#[derive(Drop)]
struct CountsWrites {
    taken: usize,
    calls: usize,
}

impl Write for CountsWrites {
    fn write(&mut self, buf: &[u8]) -> io::Result<usize> {
        self.calls = self.calls.saturating_add(1);
        self.taken = self.taken.saturating_add(buf.len());
        Ok(buf.len())
    }

    fn flush(&mut self) -> io::Result<()> {
        Ok(())
    }
}

// After a read that failed there is no other, though the reader would go on.
#[test]
fn no_read_after_a_fault(rt: HostRuntime) {
    for fails_at in 1..=INPUT.len() + 1 {
        let mut reader = FailsOnce {
            text: INPUT,
            fails_at,
            calls: 0,
        };
        let mut reads = Reads::none();
        let bytes = read_all(rt.alloc(), &mut reader, &mut reads, INPUT.len());
        holds_at(&rt, fails_at, matches!(bytes, ReadAll::Fault));
        equal(&rt, reader.calls, fails_at);
        equal(&rt, reads.made as usize, fails_at);
        holds_at(&rt, fails_at, reads.failed);
    }
}

// Exactly the greatest number of bytes is read; one more is refused.
#[test]
fn bytes_within(rt: HostRuntime) -> Result<(), Fail> {
    let mut reads = Reads::none();
    let bytes = bytes_of(rt.alloc(), &mut &INPUT[..], &mut reads, INPUT.len());
    let bytes = bytes.ok().ok_or("bytes")?;
    equal(&rt, bytes.as_slice(), INPUT);
    let mut reads = Reads::none();
    let bytes = bytes_of(rt.alloc(), &mut &INPUT[..], &mut reads, INPUT.len() - 1);
    let refused = Failure::Refused(Refusal::BadText(0));
    assert!(rt; matches!(&bytes, Err(failure) if *failure == refused));
    Ok(())
}

// The line of a failure is one write.
#[test]
fn one_write_a_line(rt: HostRuntime) {
    let lines: [(Failure, &str); 4] = [
        (Failure::Read, "fault read\n"),
        (Failure::Write, "fault write\n"),
        (Failure::Refused(Refusal::Memory), "refused 23 Memory\n"),
        (
            Failure::Refused(Refusal::BadText(12_345)),
            "refused 24 BadText at 12345\n",
        ),
    ];
    for (failure, line) in lines {
        let mut faults = CountsWrites { taken: 0, calls: 0 };
        let ended = failure.end(rt.alloc(), &mut faults);
        holds_at(&rt, line, ended.reported);
        equal_at(&rt, line, faults.calls, 1);
        equal(&rt, faults.taken, line.len());
        let mut text = Vec::new(rt.alloc());
        let ended = failure.end(rt.alloc(), &mut text);
        holds_at(&rt, line, ended.reported);
        equal(&rt, text.as_slice(), line.as_bytes());
    }
}

// A writer that takes nothing is a fault.
#[test]
fn whole_text(rt: HostRuntime) {
    let mut text = Vec::new(rt.alloc());
    equal(&rt, put_text(&mut text, "two\nlines\n"), Ok(()));
    equal(&rt, text.as_slice(), b"two\nlines\n".as_slice());
    let mut full = [0u8; 3];
    let mut out = &mut full[..];
    equal(&rt, put_text(&mut out, "four"), Err(Failure::Write));
}

#[test]
fn texts_and_statuses(rt: HostRuntime) {
    let mut text = Vec::new(rt.alloc());
    assert!(rt; write_text(&mut text, "a line\n"));
    equal(&rt, text.as_slice(), b"a line\n".as_slice());
    let codes = [
        (Status::Done, 0),
        (Status::Refused, 1),
        (Status::Usage, 2),
        (Status::Fault, 3),
    ];
    for (status, code) in codes {
        equal(&rt, status.code(), code);
    }
}
