//! Judges the log that a reader gives.
ghost use Rattle.std.specs.Prelude.{◌≡◌, ◌≢◌, ◌++◌, Bool, Ok, false, true, IfErr, IfOk, IfSome, OnOk};
ghost use Rattle.std.specs.Io.BufRead.{strip_last};
ghost use Rattle.std.specs.declared.result.Result.{Result};
ghost use Rattle.job_ends.specs.Ends.{AppendsFront, failure_line, status_of};
ghost use Rattle.phaser_judge.specs.declared.owing.Owing.{Owing};
ghost use Rattle.judge_job.specs.Forms.{line_in};
ghost use Rattle.judge_job.specs.Lines.{TakesLine};
ghost use Rattle.judge_job.specs.Logs.{after_line, after_spelled, at_header, is_blank, is_blank_byte, is_long, nothing, Judged, Refusing};
ghost use Rattle.judge_job.specs.Standing.{judged_of, IsOfLine, IsOwed};
ghost use Rattle.judge_job.specs.Endings.{refusal_at, GoesOn, IsAccepted, IsFailing, IsOfFailing, IsOfNext, IsStop, IsStopped, Tells, head_from, rest_from};
ghost use Rattle.judge_job.specs.inner.Steps.{IsAddedTo, IsHeaded, StopsAt, StopsBy, TellsAdded};
ghost use Rattle.judge_job.specs.Words.{why_text};

use crate::judging::Judging;
use crate::line::{MOST_LINE_BYTES, Unread, event_of_line, is_header_line};
use crate::lines::take_line;
use crate::report::{Every, Telling};
use crate::stop::{Reason, Stop, Why};
use crate::writes::Writes;
use job_ends::{Failure, Status};
use json::Scratch;
use phase_modes::Refusal;
use phaser_judge::Owing;
use std::alloc::Global;
use std::io::{BufRead, BufReader, Read, Write};
use std::time::Clock;

/// How many bytes are read at once.
const CHUNK: usize = 65_536;

/// Why judging stops if there is no memory.
const NO_MEMORY: Stop = Stop::Failed(Failure::Refused(Refusal::Memory));

/// A line without the newline that ends it.
fn without_newline(bytes: &[u8]) -> &[u8]
    ensures { result.now ≡ strip_last 10 bytes.now }
{
    let len = bytes.len();
    if len > 0 && bytes[len - 1] == b'\n' {
        &bytes[..len - 1]
    } else {
        bytes
    }
}

fn is_blank_byte(byte: u8) -> bool
    ensures { result ≡ is_blank_byte byte }
{
    byte == b' ' || byte == b'\t' || byte == b'\r'
}

/// Whether the line is empty, or has only spaces, tabs and carriage returns.
fn is_blank(bytes: &[u8]) -> bool
    ensures { result ≡ is_blank bytes.now }
{
    for byte in bytes {
        if !is_blank_byte(*byte) {
            return false;
        }
    }
    true
}

/// Whether the line has more bytes than a line may have.
fn is_long(bytes: &[u8]) -> bool
    ensures { result ≡ is_long bytes.now }
{
    bytes.len() > MOST_LINE_BYTES
}

/// Reads and judges a line that is neither too long nor blank. Returns whether it is an event of a phaser.
fn judge_spelled(
    scratch: &mut Scratch,
    judging: &mut Judging,
    place: u64,
    bytes: &[u8],
) -> Result<bool, Stop>
    requires { judging.old.judge.over ≡ false }
    ensures judged { OnOk result
        (after_spelled place (judged_of judging.old) (line_in bytes.now) ≡ Ok (judged_of judging.new)) }
    ensures stop { IfErr result
        (IsOfLine (after_spelled place (judged_of judging.old) (line_in bytes.now)) (judged_of judging.old)) }
    ensures owed { IfErr result (λ s. IsOwed (judged_of judging.old) s judging.new.owing) }
    ensures kept { IfErr result (λ _. judged_of judging.new ≡ judged_of judging.old) }
    ensures over { OnOk result (judging.new.judge.over ≡ false) }
    ensures added { IfOk result (λ is. IsAddedTo is judging.old.judge.events judging.new.judge.events) }
{
    match event_of_line(scratch, bytes) {
        Ok(line) => {
            judging.line(place, &line)?;
            Ok(line.event.is_some())
        }
        Err(Unread::Memory) => Err(NO_MEMORY),
        Err(Unread::BadText) => Err(Stop::Line(place, Reason::NoEvent)),
    }
}

/// Judges a line. Returns whether it is an event of a phaser.
fn judge_line(
    scratch: &mut Scratch,
    judging: &mut Judging,
    place: u64,
    bytes: &[u8],
) -> Result<bool, Stop>
    requires { judging.old.judge.over ≡ false }
    ensures judged { OnOk result
        (after_line place (judged_of judging.old) bytes.now ≡ Ok (judged_of judging.new)) }
    ensures stop { IfErr result (IsOfLine (after_line place (judged_of judging.old) bytes.now) (judged_of judging.old)) }
    ensures owed { IfErr result (λ s. IsOwed (judged_of judging.old) s judging.new.owing) }
    ensures kept { IfErr result (λ _. judged_of judging.new ≡ judged_of judging.old) }
    ensures over { OnOk result (judging.new.judge.over ≡ false) }
    ensures added { IfOk result (λ is. IsAddedTo is judging.old.judge.events judging.new.judge.events) }
{
    if is_long(bytes) {
        return Err(Stop::Line(place, Reason::TooLong));
    }
    if is_blank(bytes) {
        return Ok(false);
    }
    judge_spelled(scratch, judging, place, bytes)
}

/// Judges a line, and then tells the report if it is due. Returns whether it is an event of a phaser.
fn judge_and_tell<F: Write, C: Clock>(
    scratch: &mut Scratch,
    judging: &mut Judging,
    telling: &mut Telling<'_, C>,
    writes: &mut Writes,
    faults: &mut F,
    place: u64,
    bytes: &[u8],
) -> Result<bool, Stop>
    requires { judging.old.judge.over ≡ false }
    ensures judged { OnOk result
        (after_line place (judged_of judging.old) bytes.now ≡ Ok (judged_of judging.new)) }
    ensures stop { IfErr result (IsOfLine (after_line place (judged_of judging.old) bytes.now) (judged_of judging.old)) }
    ensures owed { IfErr result (λ s. IsOwed (judged_of judging.old) s judging.new.owing) }
    ensures kept { IfErr result (λ _. judged_of judging.new ≡ judged_of judging.old) }
    ensures over { OnOk result (judging.new.judge.over ≡ false) }
    ensures every { telling.new.every ≡ telling.old.every }
    ensures whole { writes.new ≡ true → writes.old ≡ true }
    ensures told { IfOk result (λ is. TellsAdded telling.old.every writes.new is judging.old.judge.events judging.new.judge.events
        (F.contents faults.old) (F.contents faults.new)) }
    ensures quiet { IfErr result (λ _. faults.new ≡ faults.old) }
{
    let is_event = judge_line(scratch, judging, place, bytes)?;
    if is_event {
        telling.event(judging, writes, faults);
    }
    Ok(is_event)
}

/// Takes the next line in place of what `line` held. If it then is empty, no line is left.
fn next<B: BufRead>(reader: &mut B, line: &mut Vec<u8>, place: u64) -> Result<(), Stop>
    ensures taken { OnOk result (TakesLine (B.remaining reader.old) (B.remaining reader.new) line.new.items) }
    ensures stop { IfErr result (IsOfNext MOST_LINE_BYTES place (B.remaining reader.old)) }
    ensures plain { IfErr result (λ s. (j : Judged) (o : Owing) → IsOwed j s o) }
{
    match take_line(reader, line) {
        Ok(true) => Ok(()),
        Ok(false) => Err(Stop::Line(place, Reason::TooLong)),
        Err(failure) => Err(Stop::Failed(failure)),
    }
}

/// Whether the line is the header; if not, it is blank.
fn is_header_at(scratch: &mut Scratch, place: u64, bytes: &[u8]) -> Result<bool, Stop>
    ensures headed { IfOk result (λ is. IsHeaded is place bytes.now) }
    ensures stop { IfErr result (λ s. (skipped headed : Result Judged Refusing) → IsOfLine (at_header place bytes.now skipped headed) nothing s) }
    ensures plain { IfErr result (λ s. (j : Judged) (o : Owing) → IsOwed j s o) }
{
    if is_long(bytes) {
        return Err(Stop::Line(place, Reason::TooLong));
    }
    if is_blank(bytes) {
        return Ok(false);
    }
    match is_header_line(scratch, bytes) {
        Ok(true) => Ok(true),
        Ok(false) => Err(Stop::Line(place, Reason::NoHeader)),
        Err(_) => Err(NO_MEMORY),
    }
}

/// Takes the lines up to the header. Returns the number of the line after it.
fn take_header<B: BufRead>(
    reader: &mut B,
    line: &mut Vec<u8>,
    scratch: &mut Scratch,
) -> Result<u64, Stop>
    ensures taken { IfOk result (λ n. GoesOn (head_from 1) (B.remaining reader.old) (rest_from n nothing) (B.remaining reader.new)) }
    ensures stop { IfErr result (IsStop (head_from 1) (B.remaining reader.old) nothing) }
    ensures plain { IfErr result (λ s. (j : Judged) (o : Owing) → IsOwed j s o) }
{
    let mut place = 1u64;
    while place < u64::MAX {
        next(reader, line, place)?;
        if line.is_empty() {
            return Err(Stop::Line(place, Reason::NoHeader));
        }
        let bytes = without_newline(line);
        if is_header_at(scratch, place, bytes)? {
            return Ok(place + 1);
        }
        place += 1;
    }
    Err(Stop::Failed(Failure::Read))
}

/// Judges the lines from this one on.
fn judge_lines<B: BufRead, F: Write, C: Clock>(
    reader: &mut B,
    first: u64,
    line: &mut Vec<u8>,
    scratch: &mut Scratch,
    judging: &mut Judging,
    telling: &mut Telling<'_, C>,
    writes: &mut Writes,
    faults: &mut F,
) -> Result<(), Stop>
    requires over { judging.old.judge.over ≡ false }
    requires fresh { judged_of judging.old ≡ nothing }
    ensures done { OnOk result (IfSome (B.remaining reader.old)
        (λ xs. rest_from first nothing xs ≡ Ok (judged_of judging.new))) }
    ensures stop { IfErr result
        (IsStop (rest_from first nothing) (B.remaining reader.old) (judged_of judging.new)) }
    ensures owed { IfErr result (λ s. IsOwed (judged_of judging.new) s judging.new.owing) }
    ensures told { Tells telling.old.every writes.new judging.new.judge.events (F.contents faults.old) (F.contents faults.new) }
{
    let mut place = first;
    while place < u64::MAX {
        next(reader, line, place)?;
        if line.is_empty() {
            return Ok(());
        }
        let bytes = without_newline(line);
        judge_and_tell(scratch, judging, telling, writes, faults, place, bytes)?;
        place += 1;
    }
    Err(Stop::Failed(Failure::Read))
}

/// Judges the log.
fn judge_log<B: BufRead, F: Write, C: Clock>(
    alloc: Global,
    reader: &mut B,
    judging: &mut Judging,
    writes: &mut Writes,
    faults: &mut F,
    every: Option<Every>,
    clock: &C,
) -> Result<(), Stop>
    requires over { judging.old.judge.over ≡ false }
    requires fresh { judged_of judging.old ≡ nothing }
    ensures done { OnOk result (IfSome (B.remaining reader.old) (λ xs. head_from 1 xs ≡ Ok (judged_of judging.new))) }
    ensures stop { IfErr result (IsStop (head_from 1) (B.remaining reader.old) (judged_of judging.new)) }
    ensures owed { IfErr result (λ s. IsOwed (judged_of judging.new) s judging.new.owing) }
    ensures told { Tells every writes.new judging.new.judge.events (F.contents faults.old) (F.contents faults.new) }
{
    let mut line = Vec::new(alloc);
    let mut scratch = Scratch::new(alloc);
    let mut telling = Telling::new(alloc, every, clock);
    let first = take_header(reader, &mut line, &mut scratch)?;
    judge_lines(
        reader,
        first,
        &mut line,
        &mut scratch,
        judging,
        &mut telling,
        writes,
        faults,
    )
}

/// Says by which failure judging stopped.
fn say<F: Write>(alloc: Global, failure: Failure, faults: &mut F) -> Status
    requires { IsOfFailing failure }
    ensures status { result ≡ status_of failure }
    ensures says { (all : Bool) × AppendsFront all (F.contents faults.old) (F.contents faults.new) (failure_line failure) }
{
    failure.end(alloc, faults).status
}

/// Says by which failure judging stopped, and reports what was judged if memory was refused.
fn fail<W: Write, F: Write>(
    alloc: Global,
    judging: &Judging,
    failure: Failure,
    writes: &mut Writes,
    out: &mut W,
    faults: &mut F,
) -> Status
    requires { IsOfFailing failure }
    ensures stops { StopsAt (Stop.Failed failure) writes.new (judged_of judging.now) result
        (W.contents out.old) (W.contents out.new) (F.contents faults.old) (F.contents faults.new) }
    ensures whole { writes.new ≡ true → writes.old ≡ true }
{
    let report = judging.report();
    let status = say(alloc, failure, faults);
    if status == Status::Refused {
        let _ = writes.report(alloc, &report, out);
    }
    status
}

/// The two lines that say why the line of this number isn't accepted.
fn refusal_lines(alloc: Global, place: u64, reason: &Reason, owing: &Owing) -> Option<String>
    ensures { IfSome result (λ text. text.bytes.items ≡
        failure_line (Failure.Refused (refusal_at place reason.now)) ++ why_text place reason.now owing.now) }
{
    let refusal = reason.refusal(place);
    let why = Why {
        place,
        reason,
        owing,
    };
    match format!(in alloc; "{refusal}\n{why}") {
        Ok(lines) => Some(lines),
        Err(_) => None,
    }
}

/// Says why judging stopped, and reports what was judged before it. If there is no memory to say why a
/// line isn't accepted, that is the failure.
fn stopped<W: Write, F: Write>(
    alloc: Global,
    judging: &Judging,
    stop: &Stop,
    writes: &mut Writes,
    out: &mut W,
    faults: &mut F,
) -> Status
    requires failing { IsFailing stop.now }
    requires owed { IsOwed (judged_of judging.now) stop.now judging.now.owing }
    ensures stops { StopsBy stop.now writes.new (judged_of judging.now) result
        (W.contents out.old) (W.contents out.new) (F.contents faults.old) (F.contents faults.new) }
    ensures whole { writes.new ≡ true → writes.old ≡ true }
{
    let (place, reason) = match stop {
        Stop::Failed(failure) => return fail(alloc, judging, *failure, writes, out, faults),
        Stop::Line(place, reason) => (*place, reason),
    };
    let Some(lines) = refusal_lines(alloc, place, reason, &judging.owing) else {
        let failure = Failure::Refused(Refusal::Memory);
        return fail(alloc, judging, failure, writes, out, faults);
    };
    writes.put(lines.as_str(), faults);
    let _ = writes.report(alloc, &judging.report(), out);
    Status::Refused
}

/// Judges the log of a reader that hands out its bytes piece by piece, and reports.
#[tactic(auto, unfolding(crate::specs::Logs::judged_log))]
fn judge_and_report<B: BufRead, W: Write, F: Write, C: Clock>(
    alloc: Global,
    reader: &mut B,
    writes: &mut Writes,
    out: &mut W,
    faults: &mut F,
    every: Option<Every>,
    clock: &C,
) -> Status
    ensures done { result ≡ Status.Done → IsAccepted (B.remaining reader.old) every writes.new
        (W.contents out.old) (W.contents out.new) (F.contents faults.old) (F.contents faults.new) }
    ensures stopped { result ≢ Status.Done → IsStopped (B.remaining reader.old) every writes.new result
        (W.contents out.old) (W.contents out.new) (F.contents faults.old) (F.contents faults.new) }
    ensures usage { result ≢ Status.Usage }
{
    let mut judging = Judging::new(alloc);
    if let Err(stop) = judge_log(alloc, reader, &mut judging, writes, faults, every, clock) {
        return stopped(alloc, &judging, &stop, writes, out, faults);
    }
    match writes.report(alloc, &judging.report(), out) {
        Ok(()) => Status::Done,
        Err(failure) => say(alloc, failure, faults),
    }
}

/// Judges the log that the reader gives, line by line, as it comes: the header, and then events whose
/// tickets rise, each of which could happen there. Then the report goes to `out`. If a line isn't
/// accepted, its number and why go to `faults`, and the report of what was judged before it to `out`.
/// While judging goes on, the report so far goes to `faults` as `every` says; the clock is read for its
/// seconds alone. If such a report can't be written, judging goes on without it.
pub fn judge_from<R: Read, W: Write, F: Write, C: Clock>(
    alloc: Global,
    reader: &mut R,
    writes: &mut Writes,
    out: &mut W,
    faults: &mut F,
    every: Option<Every>,
    clock: &C,
) -> Status
    // The whole input is a log that is accepted, exactly its report is written, and to `faults` went
    // the reports that `every` asks for.
    ensures done { result ≡ Status.Done → IsAccepted (R.remaining reader.old) every writes.new
        (W.contents out.old) (W.contents out.new) (F.contents faults.old) (F.contents faults.new) }
    // Else to `faults` went the reports that `every` asks for, and then the refusal of the first line
    // that isn't accepted, and why, in words; and to `out` the report of what was judged before it. Or
    // it went there by which failure judging stopped: a read, a write, or want of memory.
    ensures stopped { result ≢ Status.Done → IsStopped (R.remaining reader.old) every writes.new result
        (W.contents out.old) (W.contents out.new) (F.contents faults.old) (F.contents faults.new) }
    ensures usage { result ≢ Status.Usage }
{
    let Ok(mut pieces) = BufReader::with_capacity(alloc, CHUNK, reader) else {
        let judging = Judging::new(alloc);
        let failure = Failure::Refused(Refusal::Memory);
        return fail(alloc, &judging, failure, writes, out, faults);
    };
    judge_and_report(alloc, &mut pieces, writes, out, faults, every, clock)
}
