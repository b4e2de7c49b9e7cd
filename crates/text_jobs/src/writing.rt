//! The texts of a run: its trace, and the lines of its report.
ghost use Rattle.std.specs.Prelude.{◌≡◌, OnOk, IfOk, IfErr};
ghost use Rattle.std.specs.Io.KnownBytes.{Appends, Keeps};
ghost use Rattle.std.specs.String.{string_bytes};
ghost use Rattle.world_model.specs.ReportLines.{report_text};
ghost use Rattle.job_ends.specs.Ends.{status_of};
ghost use Rattle.text_jobs.specs.Out.{AppendsOut, KeepsOut};
ghost use Rattle.text_jobs.specs.Texts.{trace_line, IsOfTexts};

use job_ends::{Failure, Status, put_text};
use phase_modes::Refusal;
use std::alloc::Global;
use std::io::Write;
use trace_model::Trace;
use trace_text::to_json;
use world_model::WorldReport;

/// The lines of the report.
fn lines_of(alloc: Global, report: &WorldReport) -> Result<String, Failure>
    ensures lines { IfOk result (λ text. string_bytes text ≡ report_text report.now) }
    ensures memory { IfErr result (λ f. f ≡ Failure.Refused Refusal.Memory) }
{
    match report.to_string(alloc) {
        Ok(lines) => Ok(lines),
        Err(_) => Err(Failure::Refused(Refusal::Memory)),
    }
}

/// The text of the trace, with a newline.
fn text_of(alloc: Global, trace: &Trace) -> Result<String, Failure>
    ensures text { IfOk result (λ text. string_bytes text ≡ trace_line trace.now) }
    ensures memory { IfErr result (λ f. f ≡ Failure.Refused Refusal.Memory) }
{
    let mut text = to_json(alloc, trace)?;
    match text.push_str("\n") {
        Ok(()) => Ok(text),
        Err(_) => Err(Failure::Refused(Refusal::Memory)),
    }
}

/// Writes the text of the trace to OUT, if there is an OUT. Nothing is written before the text is
/// there. `Memory` if there is too little for it; `Write` if it can't be written, and then there
/// may be a part of it.
pub fn put_trace<T: Write>(
    alloc: Global,
    trace: &Trace,
    trace_out: &mut Option<T>,
) -> Result<(), Failure>
    ensures done { OnOk result (AppendsOut T.contents trace_out.old trace_out.new (trace_line trace.now)) }
    // Without memory for the text nothing is written.
    ensures refused { IfErr result (λ f. status_of f ≡ Status.Refused
        → KeepsOut T.contents trace_out.old trace_out.new) }
    ensures failure { IfErr result IsOfTexts }
{
    match trace_out {
        None => Ok(()),
        Some(writer) => {
            let text = text_of(alloc, trace)?;
            put_text(writer, text.as_str())
        }
    }
}

/// Writes the text of the trace to OUT, if there is an OUT, and then the lines of the report.
/// Nothing is written before both texts are there. `Memory` if there is too little for a text;
/// `Write` if one can't be written, and then there may be a part of it.
pub fn put_run<W: Write, T: Write>(
    alloc: Global,
    report: &WorldReport,
    trace: &Trace,
    out: &mut W,
    trace_out: &mut Option<T>,
) -> Result<(), Failure>
    ensures done { OnOk result (Appends (W.contents out.old) (W.contents out.new) (report_text report.now)
        × AppendsOut T.contents trace_out.old trace_out.new (trace_line trace.now)) }
    // Without memory for a text nothing is written.
    ensures refused { IfErr result (λ f. status_of f ≡ Status.Refused
        → Keeps (W.contents out.old) (W.contents out.new)
        × KeepsOut T.contents trace_out.old trace_out.new) }
    ensures failure { IfErr result IsOfTexts }
{
    let lines = lines_of(alloc, report)?;
    put_trace(alloc, trace, trace_out)?;
    put_text(out, lines.as_str())
}
