//! Runs a program's text by picks, and writes the trace and the report.
ghost use Rattle.std.specs.Prelude.{◌≡◌, ◌≢◌, Ok, OnOk, IfErr};
ghost use Rattle.std.specs.Io.KnownBytes.{Appends, Keeps};
ghost use Rattle.job_script.specs.Program.{Program as Programs};
ghost use Rattle.job_ends.specs.Ends.{status_of, Reports, ReportsStatus};
ghost use Rattle.text_jobs.specs.Out.{AppendsOut, KeepsOut};
ghost use Rattle.text_jobs.specs.Texts.{program_spelled, report_for, trace_line};
ghost use Rattle.text_jobs.specs.Scheduled.{IsOfSchedule, Runs};

use crate::{program_of, put_run};
use job_ends::{Failure, Status};
use schedule_run::run_picks;
use std::alloc::Global;
use std::io::Write;

/// Reads a program's text, runs the program by the picks, and then by rounds over its tasks, and
/// writes the trace to OUT, if there is an OUT, and then the report. Nothing is written before
/// both texts are there. More than 1,048,576 bytes are refused at place 0.
pub fn schedule_bytes<W: Write, T: Write>(
    alloc: Global,
    input: &[u8],
    picks: &[u32],
    out: &mut W,
    trace_out: &mut Option<T>,
) -> Result<(), Failure>
    // Exactly the lines of the report and the text of the trace, of one run.
    ensures done { OnOk result (Runs input.now picks.now (λ p t.
        Appends (W.contents out.old) (W.contents out.new) (report_for p t)
        × AppendsOut T.contents trace_out.old trace_out.new (trace_line t))) }
    // A refusal writes nothing.
    ensures refused { IfErr result (λ f. status_of f ≡ Status.Refused
        → Keeps (W.contents out.old) (W.contents out.new)
        × KeepsOut T.contents trace_out.old trace_out.new) }
    // A text is refused at its first fault, and a write fails only for a text that has none.
    ensures failure { IfErr result (IsOfSchedule input.now) }
{
    let program = program_of(alloc, input)?;
    let run = run_picks(alloc, &program, picks)?;
    put_run(alloc, &run.report, &run.trace, out, trace_out)?;
    Ok(())
}

/// Runs a program's text whose bytes are here. The line of a failure goes to `faults`; if it
/// can't be written, the status stays what it is.
pub fn schedule_on<W: Write, F: Write, T: Write>(
    alloc: Global,
    input: &[u8],
    picks: &[u32],
    out: &mut W,
    faults: &mut F,
    trace_out: &mut Option<T>,
) -> Status
    ensures done { result ≡ Status.Done → Runs input.now picks.now (λ p t.
        Appends (W.contents out.old) (W.contents out.new) (report_for p t)
        × AppendsOut T.contents trace_out.old trace_out.new (trace_line t)) }
    ensures quiet { result ≡ Status.Done → Keeps (F.contents faults.old) (F.contents faults.new) }
    ensures refused { result ≡ Status.Refused → Keeps (W.contents out.old) (W.contents out.new)
        × KeepsOut T.contents trace_out.old trace_out.new }
    ensures fault { result ≡ Status.Fault → (p : Programs) × (program_spelled input.now ≡ Ok p) }
    ensures reported { result ≢ Status.Done → ReportsStatus (IsOfSchedule input.now) result
        (F.contents faults.old) (F.contents faults.new) }
    ensures usage { result ≢ Status.Usage }
{
    match schedule_bytes(alloc, input, picks, out, trace_out) {
        Ok(()) => Status::Done,
        Err(failure) => failure.end(alloc, faults).status,
    }
}
