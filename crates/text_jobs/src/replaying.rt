//! Replays a trace's text, and writes the trace again and the report.
ghost use Rattle.std.specs.Prelude.{◌≡◌, ◌≢◌, length, nat_le, OnOk, IfErr, ⊤};
ghost use Rattle.std.specs.Io.KnownBytes.{Appends, Keeps};
ghost use Rattle.job_ends.specs.Ends.{status_of, Reports, ReportsStatus};
ghost use Rattle.text_jobs.specs.Out.{AppendsOut, KeepsOut};
ghost use Rattle.text_jobs.specs.Texts.{trace_line};
ghost use Rattle.text_jobs.specs.Replayed.{report_for, Explains, IsOfReplay};

use crate::put_run;
use job_ends::{Failure, Status};
use phase_modes::Refusal;
use std::alloc::Global;
use std::io::Write;
use trace_replay::replay;
use trace_text::from_json;

/// How many bytes a trace's text has at most.
pub const MOST_TRACE_BYTES: usize = 67_108_864;

/// Whether there are no more bytes than a trace's text may have.
fn fits(input: &[u8]) -> bool
    ensures { result ≡ nat_le (length input.now) MOST_TRACE_BYTES }
{
    input.len() <= MOST_TRACE_BYTES
}

/// Reads a trace's text, makes its events again, and writes the text that `to_json` has for the
/// trace to OUT, if there is an OUT, and then the report of its run. Nothing is written before
/// both texts are there. More than 67,108,864 bytes are refused at place 0.
pub fn replay_bytes<W: Write, T: Write>(
    alloc: Global,
    input: &[u8],
    out: &mut W,
    trace_out: &mut Option<T>,
) -> Result<(), Failure>
    // Exactly the lines of the report and the text, of one trace that a world explains.
    ensures done { OnOk result (Explains input.now (λ t.
        Appends (W.contents out.old) (W.contents out.new) (report_for t)
        × AppendsOut T.contents trace_out.old trace_out.new (trace_line t))) }
    // A refusal writes nothing.
    ensures refused { IfErr result (λ f. status_of f ≡ Status.Refused
        → Keeps (W.contents out.old) (W.contents out.new)
        × KeepsOut T.contents trace_out.old trace_out.new) }
    // A text is refused at its first fault, a trace at its own,
    // and a write fails only if there is none.
    ensures failure { IfErr result (IsOfReplay input.now) }
{
    if !fits(input) {
        return Err(Failure::Refused(Refusal::BadText(0)));
    }
    let trace = from_json(alloc, input)?;
    let report = replay(alloc, &trace)?;
    put_run(alloc, &report, &trace, out, trace_out)?;
    Ok(())
}

/// Replays a trace's text whose bytes are here. The line of a failure goes to `faults`; if it
/// can't be written, the status stays what it is.
pub fn replay_on<W: Write, F: Write, T: Write>(
    alloc: Global,
    input: &[u8],
    out: &mut W,
    faults: &mut F,
    trace_out: &mut Option<T>,
) -> Status
    ensures done { result ≡ Status.Done → Explains input.now (λ t.
        Appends (W.contents out.old) (W.contents out.new) (report_for t)
        × AppendsOut T.contents trace_out.old trace_out.new (trace_line t)) }
    ensures quiet { result ≡ Status.Done → Keeps (F.contents faults.old) (F.contents faults.new) }
    ensures refused { result ≡ Status.Refused → Keeps (W.contents out.old) (W.contents out.new)
        × KeepsOut T.contents trace_out.old trace_out.new }
    ensures fault { result ≡ Status.Fault → Explains input.now (λ t. ⊤) }
    ensures reported { result ≢ Status.Done → ReportsStatus (IsOfReplay input.now) result
        (F.contents faults.old) (F.contents faults.new) }
    ensures usage { result ≢ Status.Usage }
{
    match replay_bytes(alloc, input, out, trace_out) {
        Ok(()) => Status::Done,
        Err(failure) => failure.end(alloc, faults).status,
    }
}
