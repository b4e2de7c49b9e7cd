//! Answers an events file: applies its calls in turn to one phaser, and writes a line for each.
ghost use Rattle.std.specs.Prelude.{◌≡◌, ◌≢◌, Ok, Err, length, map, nat_le, true, OnOk, IfOk, IfErr, IfSome};
ghost use Rattle.std.specs.Io.KnownBytes.{Appends, Keeps};
ghost use Rattle.phase_model.specs.Replies.{replies};
ghost use Rattle.text_jobs.specs.EventsForm.{Form};
ghost use Rattle.text_jobs.specs.EventsLines.{text_of, text_for};
ghost use Rattle.job_ends.specs.Ends.{status_of, IsOfJob, Reports, ReportsStatus};
ghost use Rattle.job_ends.specs.Input.{IsFresh};
ghost use Rattle.text_jobs.specs.EventsEnds.{IsOfAnswer};
ghost use Rattle.text_jobs.specs.EventsFiles.{file_spelled};

use crate::read_events;
use job_ends::{Failure, Reads, Status, bytes_of};
use phase_model::Call;
use phase_modes::Refusal;
use phaser_core::PhaserState;
use std::alloc::Global;
use std::io;
use std::io::{Read, Write};

/// How many bytes an events file has at most.
pub const MOST_EVENTS_BYTES: usize = 1_048_576;

/// Applies the calls in turn, and writes a line for each.
fn write_replies<W: Write>(state: &mut PhaserState, calls: &[Call], out: &mut W) -> io::Result<()>
    ensures { OnOk result (Appends (W.contents out.old) (W.contents out.new)
        (text_of (replies state.old.story calls.now))) }
{
    for call in calls {
        let reply = state.apply(*call);
        writeln!(out, "{reply}")?;
    }
    out.flush()
}

/// Whether there are no more bytes than an events file may have.
fn fits(input: &[u8]) -> bool
    ensures { result ≡ nat_le (length input.now) MOST_EVENTS_BYTES }
{
    input.len() <= MOST_EVENTS_BYTES
}

/// Reads an events file, applies its calls in turn, and writes a line for each. The file is read
/// whole before the first line is written. More than 1,048,576 bytes are refused at place 0.
pub fn answer<W: Write>(alloc: Global, input: &[u8], out: &mut W) -> Result<(), Failure>
    // Exactly the reply lines of the file's calls.
    ensures done { OnOk result ((file : Form) × (file_spelled input.now ≡ Ok file)
        × Appends (W.contents out.old) (W.contents out.new) (text_for file)) }
    // A refusal writes nothing.
    ensures refused { IfErr result (λ f. status_of f ≡ Status.Refused
        → Keeps (W.contents out.old) (W.contents out.new)) }
    // A text is refused at its first fault, and a write fails only for a text that has none.
    ensures failure { IfErr result (IsOfAnswer input.now) }
{
    if !fits(input) {
        return Err(Failure::Refused(Refusal::BadText(0)));
    }
    let file = read_events(alloc, input)?;
    let mut state = PhaserState::new(alloc, file.limits, file.ops, file.bound)?;
    match write_replies(&mut state, &file.calls, out) {
        Ok(()) => Ok(()),
        Err(_) => Err(Failure::Write),
    }
}

/// Answers an events file whose bytes are here. The line of a failure goes to `faults`; if it
/// can't be written, the status stays what it is.
pub fn events_on<W: Write, F: Write>(
    alloc: Global,
    input: &[u8],
    out: &mut W,
    faults: &mut F,
) -> Status
    ensures done { result ≡ Status.Done → (file : Form) × (file_spelled input.now ≡ Ok file)
        × Appends (W.contents out.old) (W.contents out.new) (text_for file) }
    ensures quiet { result ≡ Status.Done → Keeps (F.contents faults.old) (F.contents faults.new) }
    ensures refused { result ≡ Status.Refused → Keeps (W.contents out.old) (W.contents out.new) }
    ensures fault { result ≡ Status.Fault → (file : Form) × (file_spelled input.now ≡ Ok file) }
    ensures reported { result ≢ Status.Done → ReportsStatus (IsOfAnswer input.now) result
        (F.contents faults.old) (F.contents faults.new) }
    ensures usage { result ≢ Status.Usage }
{
    match answer(alloc, input, out) {
        Ok(()) => Status::Done,
        Err(failure) => failure.end(alloc, faults).status,
    }
}

/// Answers the events file that the reader gives, as `events_on` does, and counts the reads.
pub fn counted_events_from<R: Read, W: Write, F: Write>(
    alloc: Global,
    reader: &mut R,
    reads: &mut Reads,
    out: &mut W,
    faults: &mut F,
) -> Status
    requires { IsFresh reads.old }
    ensures done { result ≡ Status.Done → IfSome (R.remaining reader.old) (λ all.
        (file : Form) × (file_spelled all ≡ Ok file)
        × Appends (W.contents out.old) (W.contents out.new) (text_for file)) }
    ensures quiet { result ≡ Status.Done → Keeps (F.contents faults.old) (F.contents faults.new) }
    ensures refused { result ≡ Status.Refused → Keeps (W.contents out.old) (W.contents out.new) }
    // A failed read ends in a fault.
    ensures failed { reads.new.failed ≡ true → result ≡ Status.Fault }
    // What is reported is the line of a failure of reading, or of the bytes, with this status.
    ensures reported { result ≢ Status.Done
        → ReportsStatus (IsOfJob MOST_EVENTS_BYTES IsOfAnswer (R.remaining reader.old)) result
        (F.contents faults.old) (F.contents faults.new) }
    ensures usage { result ≢ Status.Usage }
{
    match bytes_of(alloc, reader, reads, MOST_EVENTS_BYTES) {
        Ok(bytes) => events_on(alloc, &bytes, out, faults),
        Err(failure) => failure.end(alloc, faults).status,
    }
}

/// As `counted_events_from`, and nobody counts the reads.
pub fn events_from<R: Read, W: Write, F: Write>(
    alloc: Global,
    reader: &mut R,
    out: &mut W,
    faults: &mut F,
) -> Status
    ensures done { result ≡ Status.Done → IfSome (R.remaining reader.old) (λ all.
        (file : Form) × (file_spelled all ≡ Ok file)
        × Appends (W.contents out.old) (W.contents out.new) (text_for file)) }
    ensures quiet { result ≡ Status.Done → Keeps (F.contents faults.old) (F.contents faults.new) }
    ensures refused { result ≡ Status.Refused → Keeps (W.contents out.old) (W.contents out.new) }
    ensures reported { result ≢ Status.Done
        → ReportsStatus (IsOfJob MOST_EVENTS_BYTES IsOfAnswer (R.remaining reader.old)) result
        (F.contents faults.old) (F.contents faults.new) }
    ensures usage { result ≢ Status.Usage }
{
    let mut reads = Reads::none();
    counted_events_from(alloc, reader, &mut reads, out, faults)
}
