//! Certifies a program's text, and writes the report of each of its runs.
ghost use Rattle.std.specs.Prelude.{◌≡◌, ◌≢◌, OnOk, IfOk, IfErr, Ok};
ghost use Rattle.std.specs.Io.KnownBytes.{Appends, Keeps};
ghost use Rattle.std.specs.String.{string_bytes};
ghost use Rattle.job_script.specs.Program.{Program as Programs};
ghost use Rattle.text_jobs.specs.Texts.{program_spelled};
ghost use Rattle.run_jobs.specs.Certificate.{Certifies, IsOfCertificate, Reports, ReportsStatus, certificate_text, status_of};

use crate::ending::NoCertificate;
use job_ends::{Status, put_text};
use phase_modes::Refusal;
use run_laws::certify;
use std::alloc::Global;
use std::io::Write;
use text_jobs::program_of;
use world_model::WorldReport;

/// The lines of the report, and the one that says that each run has them.
pub fn certificate_of(alloc: Global, report: &WorldReport) -> Result<String, Refusal>
    ensures text { IfOk result (λ text. string_bytes text ≡ certificate_text report.now) }
    ensures memory { IfErr result (λ e. e ≡ Refusal.Memory) }
{
    let Ok(mut text) = report.to_string(alloc) else {
        return Err(Refusal::Memory);
    };
    match text.push_str("certain\n") {
        Ok(()) => Ok(text),
        Err(_) => Err(Refusal::Memory),
    }
}

/// Reads a program's text, and writes the report that each run of the program has, with the
/// line `certain` after it. If luck has a part in it nothing is written. More than
/// 1,048,576 bytes are refused at place 0.
pub fn certify_bytes<W: Write>(
    alloc: Global,
    input: &[u8],
    out: &mut W,
) -> Result<(), NoCertificate>
    // Exactly the lines of that report, and the last one.
    ensures done { OnOk result (Certifies input.now (λ r.
        Appends (W.contents out.old) (W.contents out.new) (certificate_text r))) }
    // A refusal writes nothing.
    ensures refused { IfErr result (λ n. status_of n ≡ Status.Refused
        → Keeps (W.contents out.old) (W.contents out.new)) }
    ensures no_certificate { IfErr result (IsOfCertificate input.now) }
{
    let program = program_of(alloc, input)?;
    let report = certify(alloc, &program)?;
    let text = certificate_of(alloc, &report)?;
    put_text(out, text.as_str())?;
    Ok(())
}

/// Certifies a program's text whose bytes are here. The line that says why there is no certificate
/// goes to `faults`; if it can't be written, the status stays what it is.
pub fn certify_on<W: Write, F: Write>(
    alloc: Global,
    input: &[u8],
    out: &mut W,
    faults: &mut F,
) -> Status
    ensures done { result ≡ Status.Done → Certifies input.now (λ r.
        Appends (W.contents out.old) (W.contents out.new) (certificate_text r)) }
    ensures quiet { result ≡ Status.Done → Keeps (F.contents faults.old) (F.contents faults.new) }
    ensures refused { result ≡ Status.Refused → Keeps (W.contents out.old) (W.contents out.new) }
    ensures fault { result ≡ Status.Fault → (p : Programs) × (program_spelled input.now ≡ Ok p) }
    ensures reported { result ≢ Status.Done → ReportsStatus (IsOfCertificate input.now) result
        (F.contents faults.old) (F.contents faults.new) }
    ensures usage { result ≢ Status.Usage }
{
    match certify_bytes(alloc, input, out) {
        Ok(()) => Status::Done,
        Err(reason) => reason.end(alloc, faults).status,
    }
}
