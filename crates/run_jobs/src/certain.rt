//! Runs a program's text by workers if it is certified, and writes the trace and the certificate.
ghost use Rattle.std.specs.Prelude.{◌≡◌, ◌≢◌, ◌<◌, ◌≤◌, Ok, OnOk, IfErr};
ghost use Rattle.std.specs.Io.KnownBytes.{Appends, Keeps};
ghost use Rattle.job_script.specs.Program.{Program as Programs};
ghost use Rattle.job_ends.specs.Ends.{status_of as status_of_failure};
ghost use Rattle.text_jobs.specs.Out.{AppendsOut, KeepsOut};
ghost use Rattle.text_jobs.specs.Texts.{program_spelled, trace_line, IsOfTexts};
ghost use Rattle.run_jobs.specs.Certificate.{Reports, ReportsStatus, certificate_text, status_of};
ghost use Rattle.run_jobs.specs.Certain.{IsOfCertain, RunsCertain};

use crate::{NoCertificate, Workers, certificate_of, run_program};
use job_ends::{Failure, Status, put_text};
use run_laws::{certify, first_luck};
use std::alloc::Global;
use std::io::Write;
use std::sync::Wait;
use std::thread::Threads;
use text_jobs::{program_of, put_trace};
use trace_model::Trace;
use world_model::WorldReport;

/// Writes the text of the trace to OUT, if there is an OUT, and then the report with the line
/// `certain`. Nothing is written before both texts are there.
fn put_certain<W: Write, T: Write>(
    alloc: Global,
    report: &WorldReport,
    trace: &Trace,
    out: &mut W,
    trace_out: &mut Option<T>,
) -> Result<(), Failure>
    ensures done { OnOk result (Appends (W.contents out.old) (W.contents out.new) (certificate_text report.now)
        × AppendsOut T.contents trace_out.old trace_out.new (trace_line trace.now)) }
    // Without memory for a text nothing is written.
    ensures refused { IfErr result (λ f. status_of_failure f ≡ Status.Refused
        → Keeps (W.contents out.old) (W.contents out.new)
        × KeepsOut T.contents trace_out.old trace_out.new) }
    ensures failure { IfErr result IsOfTexts }
{
    let certificate = certificate_of(alloc, report)?;
    put_trace(alloc, trace, trace_out)?;
    put_text(out, certificate.as_str())
}

/// Reads a program's text, certifies the program, and runs it by these workers. Then the trace of that
/// run is written to OUT, if there is an OUT, and its report with the line `certain`: the
/// certificate. If luck has a part in the run by rounds no other run is made. If it has one in
/// this run, as by want of memory, the certificate isn't this run's. Nothing is written then. More
/// than 1,048,576 bytes are refused at place 0.
pub fn certain_bytes<R: Threads + Wait + Sync, W: Write, T: Write>(
    workers: Workers<'_, R>,
    alloc: Global,
    input: &[u8],
    out: &mut W,
    trace_out: &mut Option<T>,
) -> Result<(), NoCertificate>
    requires { (0 < workers.number) × (workers.number ≤ 16) }
    // Exactly the certificate, which is of one run's report, and the text of that run's trace.
    ensures done { OnOk result (RunsCertain input.now (λ r t.
        Appends (W.contents out.old) (W.contents out.new) (certificate_text r)
        × AppendsOut T.contents trace_out.old trace_out.new (trace_line t))) }
    // A refusal writes nothing.
    ensures refused { IfErr result (λ n. status_of n ≡ Status.Refused
        → Keeps (W.contents out.old) (W.contents out.new)
        × KeepsOut T.contents trace_out.old trace_out.new) }
    ensures no_certificate { IfErr result (IsOfCertain input.now) }
{
    let program = program_of(alloc, input)?;
    certify(alloc, &program)?;
    let report = run_program(workers, alloc, &program)?;
    if let Some(at) = first_luck(alloc, &report.trace)? {
        return Err(NoCertificate::Luck(at));
    }
    put_certain(alloc, &report.world, &report.trace, out, trace_out)?;
    Ok(())
}

/// Runs a program's text whose bytes are here by these workers, if it is certified. The line that
/// says why it isn't run goes to `faults`; if it can't be written, the status stays what it is.
pub fn certain_on<R: Threads + Wait + Sync, W: Write, F: Write, T: Write>(
    workers: Workers<'_, R>,
    alloc: Global,
    input: &[u8],
    out: &mut W,
    faults: &mut F,
    trace_out: &mut Option<T>,
) -> Status
    requires { (0 < workers.number) × (workers.number ≤ 16) }
    ensures done { result ≡ Status.Done → RunsCertain input.now (λ r t.
        Appends (W.contents out.old) (W.contents out.new) (certificate_text r)
        × AppendsOut T.contents trace_out.old trace_out.new (trace_line t)) }
    ensures quiet { result ≡ Status.Done → Keeps (F.contents faults.old) (F.contents faults.new) }
    ensures refused { result ≡ Status.Refused → Keeps (W.contents out.old) (W.contents out.new)
        × KeepsOut T.contents trace_out.old trace_out.new }
    ensures fault { result ≡ Status.Fault → (p : Programs) × (program_spelled input.now ≡ Ok p) }
    ensures reported { result ≢ Status.Done → ReportsStatus (IsOfCertain input.now) result
        (F.contents faults.old) (F.contents faults.new) }
    ensures usage { result ≢ Status.Usage }
{
    match certain_bytes(workers, alloc, input, out, trace_out) {
        Ok(()) => Status::Done,
        Err(reason) => reason.end(alloc, faults).status,
    }
}
